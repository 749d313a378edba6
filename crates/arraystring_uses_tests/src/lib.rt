//! Tests of `arraystring_uses`, on values worked out by hand, which show what a clause means. What a clause says
//! of all values has no other test. The callers in `edges` only make one call, which has tests of its own.
#![tactic(auto)]

#[cfg(test)]
mod checks;
#[cfg(test)]
mod cursor;
#[cfg(test)]
mod lines;
#[cfg(test)]
mod runs;
