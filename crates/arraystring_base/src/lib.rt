//! The lowest crate of the bounded string: its errors, the UTF-8 of characters, where a text may be cut,
//! and how UTF-16 is read. It uses `std` alone and allocates nothing. Its tests are in
//! `crates/arraystring_tests`.
#![tactic(auto)]

pub mod error;
pub mod laws;
pub mod leaf;
mod moves;
mod steps;
pub mod utf16;
mod utf8;
pub mod utils;
