//! Edits of a string: what goes in, and what comes out.
use crate::checks::{agree, check_made};
use arraystring::ArrayString;
use arraystring_recipes::letters::{
    capitalize, first_letter, keep_first, last_letter, push_if_any_fits, push_is_cut, take_first,
    take_last,
};
use arraystring_recipes::numbers::{
    number_text, push_number, push_signed, room_for_signed, signed_text, write_number,
};
use arraystring_recipes::parts::{drop_part, part, prefix, start_of_rest, taken_out};
use arraystring_recipes::paths::{go_up, last_segment};
use arraystring_recipes::row::add_row;
use arraystring_recipes::words::add_both;

/// No clause says that a row which fits is added, since `write!` may fail.
#[test]
fn a_row_is_added_whole_or_not_at_all(rt: HostRuntime) {
    for (first, last, is_added, after) in [
        ("", "", true, "anne-josé-"),
        ("abcdef", "ghijklm", true, "anne-joséabcdef-ghijklm"),
        ("abcdef", "ghijklmn", false, "anne-josé"),
        ("abcdefghijklmno", "", false, "anne-josé"),
    ] {
        let mut line = ArrayString::from_str_truncate("anne-josé");
        agree(&rt, add_row(&mut line, first, last).is_ok(), is_added);
        agree(&rt, line.as_str(), after);
    }
    let mut line = ArrayString::new();
    agree(&rt, add_both(&mut line, "ann", "é"), Ok(()));
    agree(&rt, line.as_str(), "anné");
}

/// No clause says that digits which fit are written, since `write!` may fail.
#[test]
fn numbers_are_appended(rt: HostRuntime) {
    for (number, digits) in [(0, "0"), (12_305, "12305"), (u32::MAX, "4294967295")] {
        let mut written = ArrayString::new();
        agree(&rt, write_number(&mut written, number), Ok(()));
        agree(&rt, written.as_str(), digits);
        agree(&rt, number_text(number).as_str(), digits);
        let mut pushed = ArrayString::<10>::new();
        agree(&rt, push_number(&mut pushed, number), Ok(()));
        agree(&rt, pushed.as_str(), digits);
    }
    for (number, digits) in [(10, "10"), (-10, "-10"), (i32::MIN, "-2147483648")] {
        agree(&rt, signed_text(number).as_str(), digits);
        let mut pushed = ArrayString::<11>::new();
        agree(&rt, push_signed(&mut pushed, number), Ok(()));
        agree(&rt, pushed.as_str(), digits);
    }
    let longest = "-170141183460469231731687303715884105728";
    agree(&rt, room_for_signed(i128::MIN), longest.len());
}

#[test]
fn letters_go_in_and_out(rt: HostRuntime) {
    agree(&rt, first_letter("éa"), Some('é'));
    agree(&rt, last_letter("aé"), Some('é'));
    let mut text = ArrayString::from_str_truncate("aé€🤔");
    agree(&rt, take_first(&mut text), Some('a'));
    agree(&rt, take_last(&mut text), Some('🤔'));
    keep_first(&mut text, 1);
    agree(&rt, push_if_any_fits(&mut text, '€'), true);
    agree(&rt, push_is_cut(&mut text, "0123456789é"), true);
    agree(&rt, text.as_str(), "é€0123456789");
}

#[test]
fn first_letters_are_capitalized(rt: HostRuntime) {
    for (before, after) in [
        ("", ""),
        ("z", "Z"),
        ("école", "école"),
        ("bé", "Bé"),
        ("1b", "1b"),
    ] {
        let mut text = ArrayString::from_str_truncate(before);
        capitalize(&mut text);
        agree(&rt, text.as_str(), after);
    }
}

#[test]
fn parts_end_between_characters(rt: HostRuntime) {
    let mut text = ArrayString::<16>::from_str_truncate("añb 🤔");
    agree(&rt, part(&text, 1, 3), Some("ñ"));
    agree(&rt, prefix(&text, 3), Some("añ"));
    agree(&rt, drop_part(&mut text, 1, 4), Ok(()));
    agree(&rt, taken_out(&mut text, 2, 6).as_str(), "🤔");
    agree(&rt, text.as_str(), "a ");
    let mut line = ArrayString::<64>::from_str_truncate("abcdefgéh");
    let drained = line.drain(..).unwrap_or_default();
    agree(&rt, start_of_rest(drained).as_str(), "abcdefg");
}

#[test]
fn paths_lose_their_last_segment(rt: HostRuntime) {
    for (whole, parent, segment) in [("a", "", "a"), ("é/b/", "é/b", ""), ("a//€", "a/", "€")] {
        let mut path = ArrayString::<16>::from_str_truncate(whole);
        go_up(&mut path);
        agree(&rt, path.as_str(), parent);
        check_made::<3>(&rt, last_segment(whole), Some(segment));
    }
}
