//! Greetings, lines of a log, entries, pairs and fields.
use crate::checks::{agree, check_made};
use arraystring::ArrayString;
use arraystring_uses::entry::add_entry;
use arraystring_uses::greeting::greet;
use arraystring_uses::log_line::{Level, log_line};
use arraystring_uses::pair::{line_of, pair, pair_of, split_value, there_and_back};
use arraystring_uses::quotes::{quoted, replaced};
use test_support::equality::first_mistaken;

#[test]
fn a_greeting_is_cut(rt: HostRuntime) {
    for (name, wanted) in [
        ("tom", Some("@tom, welcome back")),
        ("bartholomew", Some("@bartholomew, welcom")),
        ("01234567890123456789", None),
    ] {
        check_made(&rt, greet(name), wanted);
    }
}

/// A test that compares levels says nothing if `==` finds two of them equal.
#[test]
fn each_level_is_equal_to_itself_alone(rt: HostRuntime) {
    let levels = [Level::Info, Level::Warning, Level::Failure];
    agree(&rt, first_mistaken(&levels), None);
}

#[test]
fn a_long_line_is_marked(rt: HostRuntime) {
    for (level, message, wanted) in [
        (Level::Info, "ready", "info: ready"),
        // 9 bytes of the level, 51 of the message, and the character over the byte 61 is left out.
        (
            Level::Warning,
            "012345678901234567890123456789012345678901234567890é0123",
            "warning: 012345678901234567890123456789012345678901234567890…",
        ),
    ] {
        agree(&rt, log_line(level, message).as_str(), wanted);
    }
}

#[test]
fn an_entry_is_added_whole_or_not_at_all(rt: HostRuntime) {
    for (value, is_added, after) in [("an€", true, "01name=an€"), ("abc€", false, "01")] {
        let mut line = ArrayString::<12>::from_str_truncate("01");
        agree(&rt, add_entry(&mut line, "name", value).is_ok(), is_added);
        agree(&rt, line.as_str(), after);
    }
}

#[test]
fn lines_are_split_at_their_first_sign(rt: HostRuntime) {
    let (key, value) = (
        ArrayString::from_str_truncate("ann"),
        ArrayString::from_str_truncate("a=b"),
    );
    agree(&rt, pair("ann=a=b"), Ok((key, value)));
    agree(&rt, there_and_back(&key, &value), Ok((key, value)));
    let mut line = line_of("ann", "a=b").unwrap_or_default();
    agree(&rt, pair_of(&line), Ok((key, value)));
    let rest = split_value(&mut line).unwrap_or_default();
    agree(&rt, (line.as_str(), rest.as_str()), ("ann", "=a=b"));
}

#[test]
fn fields_are_quoted(rt: HostRuntime) {
    for (field, wanted) in [
        ("", Some("\"\"")),
        ("a", Some("\"a\"")),
        ("é\"€", Some("\"é\"\"€\"")),
        ("a\"\"b", Some("\"a\"\"\"\"b\"")),
        ("0123456\"", None),
    ] {
        check_made::<10>(&rt, quoted(field), wanted);
    }
}

#[test]
fn a_text_stands_for_a_character(rt: HostRuntime) {
    for (text, to, wanted) in [
        ("a-b-c", "", "abc"),
        ("a-b-c", "é", "aébéc"),
        ("é-€🤔", "--", "é--€"),
        // A part of what stands for it, and what comes after that is left out.
        ("---a", "ab€", "ab€ab€"),
        ("----", "abc", "abcabcabca"),
    ] {
        let made: ArrayString<10> = replaced(text, '-', to);
        agree(&rt, made.as_str(), wanted);
    }
}
