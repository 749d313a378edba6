//! How values are printed; for debugging, as Rust's derived forms print the same fields.
ghost use Rattle.std.specs.Prelude.{◌≤◌};

use super::asserts::agree;
use arraystring::prelude::*;
use arraystring::{ArrayString, Drain};
use std::fmt::{Debug, Display};
use std::process::Abort;
use test_support::printing::first_debug_difference;
use test_support::table::MANY_LETTERS;

/// Asserts that a value is printed as a text, in each form that could pad or cut it, at a width.
fn display_at<T: Display>(rt: &(impl Abort + AllocGlobal), value: &T, wanted: &str, width: usize) {
    let printed = format!(in rt.alloc();
        "{value}{value:#}{value:width$}{value:<width$}{value:>width$}{value:*^width$}\
        {value:0width$}{value:#width$}{value:.width$}{value:>width$.1}\
        {value:+}{value:+#}{value:+width$}{value:+#0width$}{value:+.width$}"
    );
    let printed = printed.expect(rt, "memory for what is printed");
    let rest = printed.as_str().trim_start_matches(wanted);
    agree(rt, wanted, rest, "");
    agree(rt, wanted, printed.len() / 15, wanted.len());
    agree(rt, wanted, printed.len() % 15, 0);
}

/// Asserts that a value is printed as a text, at each width.
pub(crate) fn display_is<T: Display>(rt: &(impl Abort + AllocGlobal), value: &T, wanted: &str) {
    for width in 0..300usize {
        display_at(rt, value, wanted, width);
    }
}

/// Asserts that a value is printed as a text, at the widths within 2 of its size, at each hundredth, and at three
/// more. These are others for each size, so that texts of all sizes together are printed at each width below 300.
fn display_is_near<T: Display>(rt: &(impl Abort + AllocGlobal), value: &T, wanted: &str) {
    for more in 0..5usize {
        let width = wanted.len().saturating_add(more).saturating_sub(2);
        display_at(rt, value, wanted, width);
    }
    for hundreds in 0..3usize {
        display_at(rt, value, wanted, hundreds * 100);
    }
    for more in 0..3usize {
        let width = wanted.len().wrapping_mul(3).wrapping_add(more) % 300;
        display_at(rt, value, wanted, width);
    }
}

/// Asserts how a value is printed for debugging: plainly, on lines, and in three widths.
pub(crate) fn debug_is<T: Debug>(rt: &(impl Abort + AllocGlobal), value: &T, wanted: &str) {
    let printed = format!(in rt.alloc();
        "{value:?}|{value:#?}|{value:4?}|{value:12?}|{value:>12?}"
    );
    let printed = printed.expect(rt, "memory for what is printed");
    agree(rt, "each form", printed.as_str(), wanted);
}

/// Types whose derived `Debug` prints what the `Debug` of strings has to print.
pub(crate) mod derived {
    #[derive(Debug, Drop)]
    pub(crate) struct ArrayString<'a> {
        pub(crate) array: &'a str,
        pub(crate) size: usize,
    }

    #[derive(Debug, Drop)]
    pub(crate) struct CacheString<'a>(pub(crate) ArrayString<'a>);

    #[derive(Debug, Drop)]
    pub(crate) struct Drain<'a>(pub(crate) &'a str);
}

/// Asserts that one value is printed for debugging as the other, in each form, at each width.
pub(crate) fn debug_is_that_of<T: Debug, W: Debug>(
    rt: &(impl Abort + AllocGlobal),
    value: &T,
    wanted: &W,
) {
    let apart = first_debug_difference(rt.alloc(), value, wanted);
    let apart = apart.expect(rt, "memory for what is printed");
    agree(rt, "each form", apart, None);
}

/// Asserts that one value is printed for debugging as the other, on one line and on several.
fn debug_is_plainly_that_of<T: Debug, W: Debug>(
    rt: &(impl Abort + AllocGlobal),
    value: &T,
    wanted: &W,
) {
    let printed = format!(in rt.alloc(); "{value:?}|{value:#?}").expect(rt, "memory");
    let wanted = format!(in rt.alloc(); "{wanted:?}|{wanted:#?}").expect(rt, "memory");
    agree(rt, "on a line or more", printed, wanted);
}

#[test]
fn texts_are_printed_as_they_are(rt: HostRuntime) {
    for text in ",a,é,€,🤔,aé€🤔bé,ab,abc".split(',') {
        display_is(&rt, &SmallString::from(text), text);
        display_is(&rt, &CacheString::from_str_truncate(text), text);
    }
    display_is(&rt, &MaxString::from(MANY_LETTERS), MANY_LETTERS);
    let cached = CacheString::from_str_truncate(MANY_LETTERS);
    display_is(
        &rt,
        &cached,
        "abcdeabcdeabcdeabcdeabcdeabcdeabcdeabcdeabcdeabcdeabcdeabcdeabc",
    );
}

/// Asserts how a string of a text that fits is printed, and what is drained from it: at each width, or at
/// some.
fn shows<const N: usize>(rt: &(impl Abort + AllocGlobal), text: &str, at_each_width: bool)
    requires { N ≤ 300 }
{
    let mut string = ArrayString::<N>::from(text);
    let (array, size) = (text, text.len());
    let wanted = derived::ArrayString { array, size };
    if at_each_width {
        display_is(rt, &string, text);
        debug_is_that_of(rt, &string, &wanted);
        let drained = string.drain(..).unwrap_or_default();
        debug_is_that_of(rt, &drained, &derived::Drain(text));
    } else {
        display_is_near(rt, &string, text);
        debug_is_plainly_that_of(rt, &string, &wanted);
        let drained = string.drain(..).unwrap_or_default();
        debug_is_plainly_that_of(rt, &drained, &derived::Drain(text));
    }
}

/// Asserts how a `CacheString` of a text that fits is printed: at each width, or at some.
fn shows_cached(rt: &(impl Abort + AllocGlobal), text: &str, at_each_width: bool) {
    let string = CacheString::from_str_truncate(text);
    let (array, size) = (text, text.len());
    let wanted = derived::CacheString(derived::ArrayString { array, size });
    if at_each_width {
        display_is(rt, &string, text);
        debug_is_that_of(rt, &string, &wanted);
    } else {
        display_is_near(rt, &string, text);
        debug_is_plainly_that_of(rt, &string, &wanted);
    }
}

/// Texts of each size are printed at some widths. The longest of each capacity here, and those whose size is
/// the least or the greatest number of as many digits, are printed at each width.
#[test]
fn texts_of_many_sizes_are_printed(rt: HostRuntime) {
    for size in 0..=255usize {
        let text = MANY_LETTERS.get(..size).unwrap_or_default();
        let each = matches!(size, 0 | 3 | 9 | 10 | 23 | 99 | 100 | 199 | 255);
        match size {
            0..4 => shows::<3>(&rt, text, each),
            4..24 => shows::<23>(&rt, text, each),
            24..200 => shows::<300>(&rt, text, each),
            _ => shows::<255>(&rt, text, each),
        }
    }
    for size in 0..64usize {
        let text = MANY_LETTERS.get(..size).unwrap_or_default();
        shows_cached(&rt, text, matches!(size, 0 | 9 | 10 | 63));
    }
}

#[test]
fn strings_are_printed_for_debugging(rt: HostRuntime) {
    let wanted = "ArrayString { array: \"\", size: 0 }|\
        ArrayString {\n    array: \"\",\n    size: 0,\n}|\
        ArrayString { array: \"\", size:    0 }|\
        ArrayString { array: \"\", size:            0 }|\
        ArrayString { array: \"\", size:            0 }";
    debug_is(&rt, &SmallString::new(), wanted);
    let wanted = "ArrayString { array: \"abc\", size: 3 }|\
        ArrayString {\n    array: \"abc\",\n    size: 3,\n}|\
        ArrayString { array: \"abc\", size:    3 }|\
        ArrayString { array: \"abc\", size:            3 }|\
        ArrayString { array: \"abc\", size:            3 }";
    debug_is(&rt, &ArrayString::<8>::from("abc"), wanted);
    debug_is(&rt, &SmallString::from("abc"), wanted);
    let mut text: ArrayString<8> = ArrayString::from("aé");
    let _ = text.remove(0);
    let wanted = "ArrayString { array: \"é\", size: 2 }|\
        ArrayString {\n    array: \"é\",\n    size: 2,\n}|\
        ArrayString { array: \"é\", size:    2 }|\
        ArrayString { array: \"é\", size:            2 }|\
        ArrayString { array: \"é\", size:            2 }";
    debug_is(&rt, &text, wanted);
}

#[test]
fn cached_strings_are_printed_for_debugging(rt: HostRuntime) {
    let wanted = "CacheString(ArrayString { array: \"\", size: 0 })|\
        CacheString(\n    ArrayString {\n        array: \"\",\n        size: 0,\n    },\n)|\
        CacheString(ArrayString { array: \"\", size:    0 })|\
        CacheString(ArrayString { array: \"\", size:            0 })|\
        CacheString(ArrayString { array: \"\", size:            0 })";
    debug_is(&rt, &CacheString::new(), wanted);
    let wanted = "CacheString(ArrayString { array: \"aé€🤔\", size: 10 })|\
        CacheString(\n    ArrayString {\n        array: \"aé€🤔\",\n        size: 10,\n    },\n)|\
        CacheString(ArrayString { array: \"aé€🤔\", size:   10 })|\
        CacheString(ArrayString { array: \"aé€🤔\", size:           10 })|\
        CacheString(ArrayString { array: \"aé€🤔\", size:           10 })";
    debug_is(&rt, &CacheString::from_str_truncate("aé€🤔"), wanted);
}

/// Asserts how each part of a text is printed that a drain can leave: what is left after so many steps
/// from the front, and then after each step from the back. Returns how many there are.
fn shows_parts(rt: &(impl Abort + AllocGlobal), text: &str, steps: usize) -> usize {
    let mut drain = ArrayString::<23>::from(text).drain(..).unwrap_or_default();
    let mut wanted = text.chars();
    let mut count = 1usize;
    for _ in 0..steps {
        drain.next();
        wanted.next();
    }
    debug_is_that_of(rt, &drain, &derived::Drain(wanted.as_str()));
    for _ in steps..text.chars().count() {
        drain.next_back();
        wanted.next_back();
        debug_is_that_of(rt, &drain, &derived::Drain(wanted.as_str()));
        count = count.wrapping_add(1);
    }
    count
}

#[test]
fn drains_are_printed_for_debugging(rt: HostRuntime) {
    // A text of `n` characters has `n + 1` parts that begin at its start, and one fewer at each next character.
    for (text, wanted) in [
        ("", 1usize),
        ("a", 3),
        ("aé", 6),
        ("aé€", 10),
        ("aé€🤔", 15),
        ("aé€🤔b", 21),
        ("aé€🤔bé", 28),
    ] {
        let mut count = 0usize;
        for steps in 0..text.chars().count().wrapping_add(1) {
            count = count.wrapping_add(shows_parts(&rt, text, steps));
        }
        agree(&rt, text, count, wanted);
    }
    let wanted = "Drain(\"\")|Drain(\n    \"\",\n)|Drain(\"\")|Drain(\"\")|Drain(\"\")";
    debug_is(&rt, &Drain::<5>::default(), wanted);
    let wanted = "Drain(\"bc\")|Drain(\n    \"bc\",\n)|Drain(\"bc\")|Drain(\"bc\")|Drain(\"bc\")";
    let mut drain = ArrayString::<8>::from("abc").drain(..).unwrap_or_default();
    drain.next();
    debug_is(&rt, &drain, wanted);
}
