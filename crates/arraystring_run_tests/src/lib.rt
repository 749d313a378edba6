//! Tests of `arraystring_run`: what no contract says of commands, runs and scripts, on values worked out
//! by hand. A module is named as the module that it tests. `capacities` plays scripts at each capacity.
//! `equality` compares by `==`. `printing` prints for who writes code. `sizes` has scripts and runs of many
//! commands. The tests of devices, of memory and of the program are in `arraystring_program_tests`.
#![tactic(auto)]

#[cfg(test)]
mod capacities;
#[cfg(test)]
mod equality;
#[cfg(test)]
mod line;
#[cfg(test)]
mod player;
#[cfg(test)]
mod printing;
#[cfg(test)]
mod public_api;
#[cfg(test)]
mod runs;
#[cfg(test)]
mod sizes;
#[cfg(test)]
mod table;
