//! Tests of what scripts are played on, and of the program: what no contract of `arraystring_run` says of
//! devices that fail, with errors of each kind (`devices` and `kinds`), of refused memory, of what waits to be
//! written (`waiting`), of the words that name a capacity (`program`, and `words` that nearly do), and of
//! how many writes a script takes. The tests of commands, runs and scripts are in `arraystring_run_tests`: the
//! two crates are proved beside each other.
#![tactic(auto)]

#[cfg(test)]
mod devices;
#[cfg(test)]
mod kinds;
#[cfg(test)]
mod memory;
#[cfg(test)]
mod program;
#[cfg(test)]
mod table;
#[cfg(test)]
mod waiting;
#[cfg(test)]
mod words;
#[cfg(test)]
mod writes;
