//! What the tests of this crate assert by.
use std::fmt::Debug;
use std::process::Abort;

/// Asserts that a case gave what it wants. An `assert_eq!` costs the proof of a test three times as
/// much as a call.
pub(super) fn agree<T: PartialEq + Debug + Drop>(rt: &impl Abort, case: &str, gave: T, wanted: T) {
    assert_eq!(rt; gave, wanted, "{case}");
}
