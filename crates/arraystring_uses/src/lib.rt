//! Callers of `arraystring` and `arraystring_run`, as their pages quote them. The contracts of those below have to
//! refuse a wrong body of them, or, in `edges`, allow all that they ask for. Short callers for each kind of work are
//! in `arraystring_recipes`. The tests are in `arraystring_uses_tests`.
#![tactic(auto)]

pub mod cursor;
pub mod edges;
pub mod entry;
pub mod greeting;
pub mod log_line;
pub mod pair;
pub mod quotes;
pub mod runs;
