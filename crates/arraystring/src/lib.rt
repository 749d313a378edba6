//! `ArrayString<N>` is a string of at most `N` bytes of UTF-8, stored inline in the value. What does
//! not fit is refused or cut, as the call's name says.
//!
//! Callers name this crate alone: it has each public path of `arraystring_base` and
//! `arraystring_core`, where the code is, but for what only these two crates call. That is the
//! module `leaf` of `arraystring_base`, and of its `utils` `first_char_and_width`, `last_char_with_start`,
//! `shift_on_cold_path`, `write_over` and `write_by_call`. The tests are in `crates/arraystring_tests`.
#![tactic(auto)]

mod cache_string;
pub mod integration;
pub mod laws;

pub use arraystring_base::error::Error;
pub use arraystring_base::{error, utf16};
pub use arraystring_core::{ArrayString, Drain, drain};
pub use cache_string::CacheString;

/// A string of at most 23 bytes of UTF-8.
pub type SmallString = ArrayString<23>;

/// A string of at most 255 bytes of UTF-8, the greatest capacity that there is.
pub type MaxString = ArrayString<255>;

/// Boundaries, cuts and moves of bytes. Sizes and indices count bytes of UTF-8.
pub mod utils {
    pub use arraystring_base::utils::{
        Steps, encode, is_boundary, is_inside_boundary, look, shift, truncate_str,
        truncate_str_counted,
    };
    pub use arraystring_core::array_string::is_char_boundary;
}

/// What most callers import.
pub mod prelude {
    pub use crate::drain::Drain;
    pub use crate::error::{OutOfBounds, Utf8, Utf16};
    pub use crate::{ArrayString, CacheString, MaxString, SmallString};
}
