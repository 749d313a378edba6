//! Tests of `bounded_records`: what no contract says, on values worked out by hand. `changes` takes users
//! out and gives them other roles, `walks` goes through names and users, `many` has more of them than two
//! bytes count, `equality` compares by `==`, and `printing` prints them for who writes code; the other modules
//! are named as what they test.
#![tactic(auto)]

#[cfg(test)]
mod changes;
#[cfg(test)]
mod directory;
#[cfg(test)]
mod equality;
#[cfg(test)]
mod many;
#[cfg(test)]
mod printing;
#[cfg(test)]
mod public_api;
#[cfg(test)]
mod record;
#[cfg(test)]
mod users;
#[cfg(test)]
mod walks;
