//! Tests of `arraystring_base`, `arraystring_core` and `arraystring`: what no table of `arraystring_tests` shows.
//! `cache_string`, `error` and `json` are named as what they test. `equality` compares by `==`, `printing` prints,
//! `find` calls the laws of a found character, `public_api` uses each path, and `examples` are short programs. The
//! two crates are proved beside each other.
#![tactic(auto)]

#[cfg(test)]
mod asserts;
#[cfg(test)]
mod cache_string;
#[cfg(test)]
mod equality;
#[cfg(test)]
mod error;
#[cfg(test)]
mod examples;
#[cfg(test)]
mod find;
#[cfg(test)]
mod json;
#[cfg(test)]
mod printing;
#[cfg(test)]
mod public_api;
