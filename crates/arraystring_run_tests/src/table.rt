//! What is printed of a run that stands in a table, and asserts. `test_support` reads the rows and the
//! columns.
use std::fmt::{Debug, Write};
use std::process::Abort;

/// Asserts that a case gave what it wants. An `assert_eq!` costs the proof of a test three times as
/// much as a call.
pub(super) fn agree<T: PartialEq + Debug + Drop>(rt: &impl Abort, case: &str, gave: T, wanted: T) {
    assert_eq!(rt; gave, wanted, "{case}");
}

/// What a run prints: a line for each reply, and `final` with the last text. In `replies`, `, ` is between
/// two replies.
pub(super) fn output_of_run(rt: &(impl Abort + AllocGlobal), replies: &str, last: &str) -> String {
    let mut lines = String::new(rt.alloc());
    for reply in replies.split_terminator(", ") {
        writeln!(lines, "{reply}").expect(rt, "memory for a reply");
    }
    writeln!(lines, "final {last}").expect(rt, "memory for the text");
    lines
}
