//! Tests of `arraystring_base`, `arraystring_core` and `arraystring`.
#![tactic(auto)]

#[cfg(test)]
mod tests;
