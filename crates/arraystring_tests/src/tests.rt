//! What no contract says, on values worked out by hand. A module is named as the module that it tests, or
//! else for what varies in it: `texts` and `start_offset` go through all calls. `calls` makes the calls of a
//! table, whose columns `table` reads; `call_list` has most of them. The tables are also played in Rust. What
//! no table shows is in `arraystring_types_tests`.

mod array_string;
mod call_list;
mod calls;
mod construct;
mod drain;
mod insert;
mod range;
mod remove;
mod start_offset;
mod table;
mod texts;
mod traits;
mod trim;
mod utf16;
mod utils;
mod well_formed;
