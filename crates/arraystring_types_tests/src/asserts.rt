//! What the tests assert by.
use std::fmt::Debug;
use std::hash::{DefaultHasher, Hash, Hasher};
use std::process::Abort;

/// Asserts that a case gave what it wants. An `assert_eq!` costs the proof of a test three times as
/// much as a call.
pub(crate) fn agree<T: PartialEq + Debug + Drop>(rt: &impl Abort, case: &str, gave: T, wanted: T) {
    assert_eq!(rt; gave, wanted, "{case}");
}

/// The hash of a value.
pub(crate) fn hash_of<T: Hash>(value: &T) -> u64 {
    let mut state = DefaultHasher::new();
    value.hash(&mut state);
    state.finish()
}
