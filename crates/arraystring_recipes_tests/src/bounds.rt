//! Callers with texts that are cut, filled up, counted, or of which each piece has a bound, on values worked out by hand.
use crate::checks::{agree, check_made};
use arraystring::ArrayString;
use arraystring_recipes::compared::same_bytes;
use arraystring_recipes::counts::{count_digits, count_of, has_room, is_number, is_short};
use arraystring_recipes::endings::{chop_newline, stem};
use arraystring_recipes::fills::{filled_up, plain_start};
use arraystring_recipes::headings::heading;
use arraystring_recipes::marks::{around, around_arrow, place_of};
use arraystring_recipes::markup::{hyphened, markup, markup_of_name};

#[test]
fn a_heading_keeps_what_fits(rt: HostRuntime) {
    for (text, wanted) in [
        ("", ""),
        ("war and", "War And"),
        ("to war and peace", "To War A"),
        ("at the é", "At The "),
        ("at the éb", "At The "),
    ] {
        agree(&rt, heading::<8>(text).as_str(), wanted);
    }
}

#[test]
fn a_column_is_filled_up(rt: HostRuntime) {
    for (text, fill, count, wanted) in [
        ("", '-', 6, Some("------")),
        ("", '-', 7, None),
        ("ab", 'é', 2, Some("abéé")),
        ("ab", 'é', 3, None),
        ("ab", '🤔', 1, Some("ab🤔")),
        ("abc", '🤔', 1, None),
        ("abcdef", '🤔', 0, Some("abcdef")),
    ] {
        check_made(&rt, filled_up::<6>(text, fill, count), wanted);
    }
}

#[test]
fn a_line_of_ascii_ends_where_it_is_full(rt: HostRuntime) {
    for (text, wanted) in [
        ("", ""),
        ("añb", "a?b"),
        ("é€🤔", "???"),
        ("abcde", "abcd"),
        ("ééééé", "????"),
    ] {
        agree(&rt, plain_start::<4>(text).as_str(), wanted);
    }
}

#[test]
fn a_text_stands_in_html(rt: HostRuntime) {
    for (text, wanted) in [
        ("", Some("")),
        ("a<b", Some("a&lt;b")),
        ("&&", Some("&amp;&amp;")),
        ("&&>", None),
    ] {
        check_made(&rt, markup::<12>(text), wanted);
    }
    let name = ArrayString::from_str_truncate("&&&&&&&&&&&&&&&&&&&&");
    agree(&rt, markup_of_name(&name).len(), 100);
}

#[test]
fn hyphens_stand_between_characters(rt: HostRuntime) {
    for (text, wanted) in [
        ("", Some("")),
        ("a", Some("a")),
        ("añ", Some("a-ñ")),
        ("abcd", Some("a-b-c-d")),
        ("abcde", None),
    ] {
        check_made(&rt, hyphened::<7>(text), wanted);
    }
}

#[test]
fn characters_are_counted(rt: HostRuntime) {
    for (text, wanted, count) in [
        ("", 'a', 0),
        ("banana", 'a', 3),
        ("éaé", 'é', 2),
        ("abc", 'd', 0),
    ] {
        agree(&rt, count_of(text, wanted), count);
    }
}

#[test]
fn a_name_is_looked_over(rt: HostRuntime) {
    let name = ArrayString::<8>::from_str_truncate("a1é23");
    agree(&rt, count_digits(&name), 3);
    agree(&rt, (is_number("123"), is_number("12é")), (true, false));
    agree(&rt, (is_short(&name, 5), is_short(&name, 4)), (true, false));
    agree(
        &rt,
        (has_room(&name, 'é'), has_room(&name, '€')),
        (true, false),
    );
    agree(&rt, same_bytes(&name, &name), true);
}

#[test]
fn a_mark_stands_in_a_text(rt: HostRuntime) {
    agree(&rt, around("é::b::c", "::"), Some(("é", "b::c")));
    agree(
        &rt,
        (place_of("é::b", "::"), place_of("éb", "::")),
        (Some(2), None),
    );
    agree(&rt, around_arrow("a->b"), Some(("a", "b")));
}

#[test]
fn an_ending_is_taken_off(rt: HostRuntime) {
    for (before, is_chopped, after) in [
        ("ab\n", true, "ab"),
        ("ab", false, "ab"),
        ("", false, ""),
    ] {
        let mut line = ArrayString::from_str_truncate(before);
        agree(&rt, chop_newline(&mut line), is_chopped);
        agree(&rt, line.as_str(), after);
    }
    agree(&rt, (stem("a.b.c"), stem("abc")), ("a.b", "abc"));
}
