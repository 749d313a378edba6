//! Uses of `bounded_records`, as a caller writes them: each is proved from the contracts alone. Its
//! tests are in `tests.rt`.
#![tactic(auto)]

pub mod entry;
pub mod records;
pub mod registry;
pub mod roster;
#[cfg(test)]
mod tests;
