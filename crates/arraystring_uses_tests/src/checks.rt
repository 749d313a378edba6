//! What the tests assert by.
use arraystring::{ArrayString, Error};
use std::fmt::Debug;
use std::process::Abort;

/// Asserts that two values are equal. An `assert_eq!` costs the proof of a test three times as much as
/// a call.
pub(crate) fn agree<T: PartialEq + Debug + Drop>(rt: &impl Abort, gave: T, wanted: T) {
    assert_eq!(rt; gave, wanted);
}

/// Asserts that what was made is `wanted`, or did not fit.
pub(crate) fn check_made<const N: usize>(
    rt: &impl Abort,
    made: Result<ArrayString<N>, Error>,
    wanted: Option<&str>,
) {
    match made {
        Ok(text) => agree(rt, Some(text.as_str()), wanted),
        Err(error) => agree(rt, (error, None), (Error::OutOfBounds, wanted)),
    }
}
