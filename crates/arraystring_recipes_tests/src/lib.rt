//! Tests of `arraystring_recipes`, on values worked out by hand, which show what a clause means. What a clause
//! says of all values has no other test.
#![tactic(auto)]

#[cfg(test)]
mod bounds;
#[cfg(test)]
mod checks;
#[cfg(test)]
mod edits;
#[cfg(test)]
mod looks;
#[cfg(test)]
mod made;
#[cfg(test)]
mod maps_and_json;
