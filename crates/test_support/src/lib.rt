//! What the crates of tests share: how tables of cases are read, whether `==` tells values apart, how
//! values are printed for debugging, memory that runs out, a reader and a writer that fail, and scripts. It
//! is no product.
//! What asserts is not here: it may stop the program, which only a test may, and a crate does not see
//! the tests of another. Its tests are in `tests.rt`.
#![tactic(auto)]

pub mod equality;
pub mod memory;
pub mod printing;
pub mod reader;
pub mod scripts;
pub mod table;
#[cfg(test)]
mod tests;
pub mod writer;
