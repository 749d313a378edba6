//! `ArrayString<N>`, a string of at most `N` bytes of UTF-8 that is stored inline in the value, and
//! its laws. It allocates nothing, except to make a JSON value. Callers name `arraystring`, which has
//! its paths. Its tests are in `crates/arraystring_tests`. `docs/trust.md` reads a contract aloud.
#![tactic(auto)]

pub mod array_string;
pub mod drain;
pub mod integration;
pub mod laws;
mod range_ends;
mod well_formed;

pub use array_string::ArrayString;
pub use drain::Drain;
