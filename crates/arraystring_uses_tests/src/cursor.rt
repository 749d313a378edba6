//! A line with a cursor.
use crate::checks::agree;
use arraystring::{ArrayString, Error};
use arraystring_uses::cursor::Line;
use std::process::Abort;

/// Asserts what stands before and after the cursor.
fn check_cursor(rt: &impl Abort, line: &Line<16>, before: &str, after: &str) {
    agree(rt, (line.before(), line.after()), (before, after));
}

/// A line is made at a boundary, and filled there to its last byte.
#[test]
fn a_cursor_stands_between_characters(rt: HostRuntime) {
    let text = ArrayString::<16>::from_str_truncate("aé€🤔b");
    agree(&rt, Line::at(text, 2).is_none(), true);
    let mut line = Line::at(text, 3).expect(&rt, "a boundary");
    agree(&rt, line.put("ñ"), Ok(()));
    agree(&rt, line.insert('€'), Ok(()));
    agree(&rt, line.insert('b'), Err(Error::OutOfBounds));
    check_cursor(&rt, &line, "aéñ€", "€🤔b");
    agree(&rt, line.left(), Some('€'));
    check_cursor(&rt, &line, "aéñ", "€€🤔b");
    agree(&rt, line.right(), Some('€'));
    check_cursor(&rt, &line, "aéñ€", "€🤔b");
}

#[test]
fn a_cursor_stays_where_something_is_removed(rt: HostRuntime) {
    let text = ArrayString::<16>::from_str_truncate("aé€🤔b");
    let mut line = Line::at(text, 3).expect(&rt, "a boundary");
    agree(&rt, line.delete(), Some('€'));
    agree(&rt, line.backspace(), Some('é'));
    check_cursor(&rt, &line, "a", "🤔b");
    line.end();
    check_cursor(&rt, &line, "a🤔b", "");
    line.home();
    check_cursor(&rt, &line, "", "a🤔b");
    line.kill();
    agree(&rt, line.as_str(), "");
}
