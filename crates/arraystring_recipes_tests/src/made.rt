//! Texts that are made of others, whole or not at all, or as far as they fit.
use crate::checks::{agree, check_made};
use arraystring::ArrayString;
use arraystring_recipes::chains::{
    compact, digits_in, digits_of, snake, snake_again, try_compact, try_snake,
};
use arraystring_recipes::columns::padded;
use arraystring_recipes::commas::with_commas;
use arraystring_recipes::escapes::escape;
use arraystring_recipes::member::member;
use arraystring_recipes::reversal::reversed;
use arraystring_recipes::titles::{squeeze, titled};
use arraystring_recipes::walks::strip_backslashes;
use arraystring_recipes::words::{filled, lines, path};
use std::process::Abort;

#[test]
fn commas_stand_before_each_fourth(rt: HostRuntime) {
    for (text, wanted) in [
        ("", Some("")),
        ("abc", Some("abc")),
        ("abcdefgh", Some("abc,defg,h")),
        ("é€,€", Some("é€,,€")),
        ("abcdefghi", None),
    ] {
        check_made::<10>(&rt, with_commas(text), wanted);
    }
}

/// Asserts what words make on lines of their own, and in a path.
fn check_words(rt: &impl Abort, words: &[&str], on_lines: Option<&str>, in_a_path: Option<&str>) {
    check_made::<10>(rt, lines(words), on_lines);
    check_made::<10>(rt, path(words), in_a_path);
}

#[test]
fn words_are_put_together(rt: HostRuntime) {
    check_words(&rt, &[], Some(""), Some(""));
    for (words, on_lines, in_a_path) in [
        (["", "", ""], Some("\n\n\n"), Some("//")),
        (["a", "", "é"], Some("a\n\né\n"), Some("a//é")),
        (
            ["ab", "cd", "efg"],
            Some("ab\ncd\nefg\n"),
            Some("ab/cd/efg"),
        ),
        // The end of the last line is a byte too much.
        (["ab", "cd", "🤔"], None, Some("ab/cd/🤔")),
    ] {
        check_words(&rt, &words, on_lines, in_a_path);
    }
}

#[test]
fn as_many_words_as_fit(rt: HostRuntime) {
    for (words, wanted, count) in [
        (["ab", "cdé", "f"], "ab cdé f ", 3),
        // The space of the last word is a byte too much.
        (["ab", "cdé", "fg"], "ab cdé ", 2),
    ] {
        let (line, filled_with) = filled::<10>(&words);
        agree(&rt, (line.as_str(), filled_with), (wanted, count));
    }
}

/// Each text with what `snake` and `compact` make of it in ten bytes, and its digits.
#[test]
fn texts_are_made_character_by_character(rt: HostRuntime) {
    for (text, snaked, packed, digits) in [
        ("é 1€ 2", "é_1€_2", "é1€2", "12"),
        (" 🤔 ab 7", "_🤔_ab_7", "🤔AB7", "7"),
    ] {
        let given = ArrayString::<10>::from_str_truncate(text);
        agree(&rt, snake::<10>(text).as_str(), snaked);
        agree(&rt, snake_again(&given).as_str(), snaked);
        check_made::<10>(&rt, try_snake(text), Some(snaked));
        agree(&rt, compact::<10>(text).as_str(), packed);
        check_made::<10>(&rt, try_compact(text), Some(packed));
        agree(&rt, digits_of(&given).as_str(), digits);
        let found = digits_in::<10>(text).unwrap_or_default();
        agree(&rt, found.as_str(), digits);
    }
}

#[test]
fn loops_remember(rt: HostRuntime) {
    for (text, wanted) in [
        ("war and écu", Some("War And écu")),
        ("  a 1b", Some("  A 1b")),
        ("0123456789 bc", None),
    ] {
        check_made::<12>(&rt, titled(text), wanted);
    }
    let mut text = ArrayString::<16>::from_str_truncate("aabééé a🤔🤔a");
    squeeze(&mut text);
    agree(&rt, text.as_str(), "abé a🤔");
}

#[test]
fn a_text_has_escapes(rt: HostRuntime) {
    for (text, wanted) in [
        ("a\tb\n", Some("a\\tb\\n")),
        ("\\n", Some("\\\\n")),
        ("é\r\"'", Some("é\r\"'")),
        ("123\n5678", None),
    ] {
        check_made::<8>(&rt, escape(text), wanted);
    }
}

#[test]
fn a_text_loses_its_backslashes(rt: HostRuntime) {
    for (text, wanted) in [
        ("a\\né\\\\", Some("ané\\")),
        ("€\\", Some("€")),
        ("\\1234\\5", Some("12345")),
        ("\\123456", None),
    ] {
        check_made::<5>(&rt, strip_backslashes(text), wanted);
    }
}

#[test]
fn texts_are_padded_reversed_and_joined(rt: HostRuntime) {
    check_made::<10>(&rt, padded("é€", 3), Some("é€   "));
    let given = ArrayString::<10>::from_str_truncate("aé€🤔");
    agree(&rt, reversed(given).as_str(), "🤔€éa");
    let name = ArrayString::from_str_truncate("éééééééééé");
    let role = ArrayString::from_str_truncate("🐢🐢🐢");
    agree(&rt, member(&name, &role).as_str(), "éééééééééé|🐢🐢🐢");
}
