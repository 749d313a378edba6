//! Commands that edit a string of bounded size. `run` executes a list of commands, and `play` plays a
//! script of them. The `main` of a player calls what is in `program`. The tests are in
//! `crates/arraystring_run_tests` and `crates/arraystring_program_tests`.
#![tactic(auto)]

mod arguments;
mod commands;
mod execute;
mod find;
pub mod laws;
mod line;
mod player;
mod printing;
pub mod program;
mod runs;
mod script;
mod tight;
mod write_buffer;
mod writing;

pub use commands::{Command, Reply};
pub use line::command;
pub use player::{PlayFault, play};
pub use program::serve;
pub use runs::{Outcome, run, run_both};
