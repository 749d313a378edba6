//! Each call once, and the least and the greatest capacities, on values worked out by hand. A character
//! that is not printable is written in a result as Rust's `{:?}` escapes it.
use super::calls::{check_blocks, check_rows};
use super::table::{agree, string};
use arraystring::error::OutOfBounds;
use arraystring::prelude::{MaxString, SmallString};
use arraystring::utils::Steps;
use arraystring::{ArrayString, Error};
use std::fmt::Write;
use std::process::Abort;
use test_support::table::LETTERS;

#[test]
fn texts_and_capacities(rt: HostRuntime) {
    check_blocks(
        &rt,
        "
        # player: calls 8 | characters of each width are pushed and popped
        new | try_push | | A          | ok         | A
            | try_push | | \u{7F}     | ok         | A\u{7F}
            | len      | |            | ok         | A\u{7F}     | 2
            | pop      | |            | \\u{7f}    | A
            | try_push | | \u{80}     | ok         | A\u{80}
            | len      | |            | ok         | A\u{80}     | 3
            | pop      | |            | \\u{80}    | A
            | try_push | | \u{7FF}    | ok         | A\u{7FF}
            | len      | |            | ok         | A\u{7FF}    | 3
            | pop      | |            | \u{7FF}    | A
            | try_push | | \u{800}    | ok         | A\u{800}
            | len      | |            | ok         | A\u{800}    | 4
            | pop      | |            | \u{800}    | A
            | try_push | | \u{FFFF}   | ok         | A\u{FFFF}
            | len      | |            | ok         | A\u{FFFF}   | 4
            | pop      | |            | \\u{ffff}  | A
            | try_push | | \u{10000}  | ok         | A\u{10000}
            | len      | |            | ok         | A\u{10000}  | 5
            | pop      | |            | \u{10000}  | A
            | try_push | | \u{10FFFF} | ok         | A\u{10FFFF}
            | len      | |            | ok         | A\u{10FFFF} | 5
            | pop      | |            | \\u{10ffff} | A
            | pop      | |            | A          |
            | pop      | |            | None       |
        # player: calls 5 | a text is popped from its end
        A🤔 | as_bytes    | | | [65, 240, 159, 164, 148] | A🤔
            | pop         | |                | 🤔   | A
            | pop         | |                | A    |
            | pop         | |                | None |
        A🤔 | pop_counted | |                | 🤔   | A   | 4
            | pop_counted | |                | A    |     | 1
            | pop_counted | |                | None |     | 0
        # player: calls 23 | a text is popped from its end
        A🤔 | pop         | |                | 🤔   | A
            | pop         | |                | A    |
            | pop         | |                | None |
        A🤔 | pop_counted | |                | 🤔   | A   | 4
            | pop_counted | |                | A    |     | 1
            | pop_counted | |                | None |     | 0
        # player: calls 5 | what does not fit
        new | try_push_str | | abc | ok          | abc
            | try_push_str | | def | OutOfBounds | abc
            | try_push     | | 🤔  | OutOfBounds | abc
            | push_str     | | é🤔 | ok          | abcé
            | push_str     | | x   | ok          | abcé
            | try_push_str | |     | ok          | abcé
        # player: calls 23 | what fits is added unchecked
        new | push_str_unchecked | | My String | ok | My String
            | push_unchecked     | | !         | ok | My String!
        # player: calls 0 | no bytes
         | try_push | | x | OutOfBounds |
         | push_str | | x | ok          |
         | pop      | |   | None        |
         | capacity | |   | ok          | | 0
        # player: calls 1 | one byte
         | try_push | | é | OutOfBounds |
         | try_push | | x | ok          | x
         | try_push | | x | OutOfBounds | x
         | capacity | |   | ok          | x | 1
        # player: calls 32 | the capacity is a number of bytes
        new | capacity | | | ok | | 32
        # player: calls 255 | the greatest capacity
        new       | capacity           | |                    | ok |                           | 255
        My String | push_str_unchecked | | ' My other String' | ok | My String My other String
        # player: calls 300 | a larger one has no more room
        new | capacity | | | ok | | 255
        # player: calls 5 | strings are equal by their texts
        abcde | pop   | |     | e     | abcd
              | pop   | |     | d     | abc
              | pop   | |     | c     | ab
              | cmp   | | ab  | Equal | ab
              | clone | |     | ab    | ab
              | cmp   | | abc | Less  | ab
        # player: calls 8 | bytes of characters
        \u{1D11E}\u{FFFD} | as_bytes | | | [240, 157, 132, 158, 239, 191, 189] | \u{1D11E}\u{FFFD}
        ",
    );
}

/// ASCII letters, with their neighbours in the table of ASCII.
#[test]
fn letters_change_case(rt: HostRuntime) {
    check_rows::<23>(
        &rt,
        "
        # player: calls 23
        aBé                     | make_ascii_uppercase | | | ok | ABé
        aBé                     | make_ascii_lowercase | | | ok | abé
        `az{@AZ[                | make_ascii_uppercase | | | ok | `AZ{@AZ[
        `az{@AZ[                | make_ascii_lowercase | | | ok | `az{@az[
        ß\u{17F}\u{212A}🤔z     | make_ascii_uppercase | | | ok | ß\u{17F}\u{212A}🤔Z
        ß\u{17F}\u{212A}🤔z     | make_ascii_lowercase | | | ok | ß\u{17F}\u{212A}🤔z
        ÉÿaĀ                    | make_ascii_uppercase | | | ok | ÉÿAĀ
        ÉÿaĀ                    | make_ascii_lowercase | | | ok | ÉÿaĀ
        new                     | make_ascii_uppercase | | | ok |
        new                     | make_ascii_lowercase | | | ok |
        mnopqrstuvwxyzABCDEFGHI | make_ascii_uppercase | | | ok | MNOPQRSTUVWXYZABCDEFGHI
        mnopqrstuvwxyzABCDEFGHI | make_ascii_lowercase | | | ok | mnopqrstuvwxyzabcdefghi
        ",
    );
}

#[test]
fn many_calls_add_up(rt: HostRuntime) {
    let mut text: ArrayString<5> = ArrayString::from("A🤔");
    let mut steps = Steps::new();
    text.pop_counted(&mut steps);
    text.pop_counted(&mut steps);
    text.pop_counted(&mut steps);
    agree(&rt, "looks at A🤔", steps.looked(), 5);
    agree(&rt, "moves of A🤔", steps.moved(), 0);
    let mut most: ArrayString<300> = ArrayString::default();
    for count in 0..255u8 {
        agree(&rt, "the letters before", most.len(), count);
        agree(&rt, "a letter", most.try_push('x'), Ok(()));
    }
    agree(&rt, "one too many", most.try_push('x'), Err(OutOfBounds));
    agree(&rt, "all of them", most.len(), 255);
    let mut three: ArrayString<3> = ArrayString::new();
    let written = write!(three, "{}{}", "ab", "cd");
    agree(&rt, "ab and cd", written.is_err(), true);
    agree(&rt, "ab", three.as_str(), "ab");
}

const ZEROS_23: &str = "00000000000000000000000";

const ZEROS_24: &str = "000000000000000000000000";

#[test]
fn a_small_string_is_filled(rt: HostRuntime) {
    let mut text = SmallString::try_from_str("My String").unwrap_or_default();
    agree(&rt, "one more", text.try_push('!'), Ok(()));
    agree(&rt, "the text", text.as_str(), "My String!");
    let mut full = SmallString::try_from_str(ZEROS_23).unwrap_or_default();
    agree(&rt, "one too many", full.try_push('!'), Err(OutOfBounds));
    agree(&rt, "full", full.as_str(), ZEROS_23);
    let mut cut = SmallString::new();
    cut.push_str(ZEROS_24);
    agree(&rt, "cut", cut, full);
}

#[test]
fn a_small_string_refuses(rt: HostRuntime) {
    let refused = Err(Error::OutOfBounds);
    let mut replaced = SmallString::try_from_str("ABCD🤔").unwrap_or_default();
    let result = replaced.replace_range(0..1, ZEROS_23);
    agree(&rt, "too large", result, refused);
    agree(&rt, "the text", replaced.as_str(), "ABCD🤔");
    let result = SmallString::new().remove(0);
    agree(&rt, "empty", result, Err(Error::OutOfBounds));
}

/// One letter more than fits into any string.
fn one_too_many(rt: &(impl Abort + AllocGlobal), letter: &str) -> String {
    let letters = letter.repeat(rt.alloc(), 256);
    letters.expect(rt, "memory for the letters")
}

#[test]
fn a_greatest_string_is_filled(rt: HostRuntime) {
    let letters = one_too_many(&rt, "0");
    let mut added = MaxString::from("My String My other String");
    let all_but_one = letters.as_str().get(1..).unwrap_or_default();
    agree(&rt, "255 zeros", all_but_one.len(), 255);
    let result = added.try_push_str(all_but_one);
    agree(&rt, "no room", result, Err(OutOfBounds));
    agree(&rt, "the text", added.as_str(), "My String My other String");
    let refused = ArrayString::<300>::try_from_str(&letters);
    agree(&rt, "256 zeros", refused, Err(OutOfBounds));
}

#[test]
fn the_bytes_are_those_of_utf8(rt: HostRuntime) {
    let shown = ArrayString::<8>::from_utf16_lossy(&[0xD834, 0xDD1E, 0xD800]);
    let bytes = b"\xF0\x9D\x84\x9E\xEF\xBF\xBD".as_slice();
    agree(&rt, "units", shown.as_bytes(), bytes);
    let text = ArrayString::<8>::from("\u{1D11E}\u{FFFD}");
    agree(&rt, "a text", text.as_bytes(), bytes);
}

/// 254 letters and a character of two bytes, which are one byte more than fits into any string.
const A_WIDER_LAST: &str = "xxxxxxxxxxxxxxxxxxxxxxxxxxxxxxxxxxxxxxxxxxxxxxxxxxxxxxxxxxxxxxxx\
    xxxxxxxxxxxxxxxxxxxxxxxxxxxxxxxxxxxxxxxxxxxxxxxxxxxxxxxxxxxxxxxx\
    xxxxxxxxxxxxxxxxxxxxxxxxxxxxxxxxxxxxxxxxxxxxxxxxxxxxxxxxxxxxxxxx\
    xxxxxxxxxxxxxxxxxxxxxxxxxxxxxxxxxxxxxxxxxxxxxxxxxxxxxxxxxxxxxx\u{E9}";

#[test]
fn the_least_and_the_greatest_capacities(rt: HostRuntime) {
    check_blocks(
        &rt,
        "
        # player: calls 0 | a string of no bytes takes the empty text alone
        new | try_push_str | |   | ok          |
            | try_push_str | | x | OutOfBounds |
        # player: calls 1 | a string of one byte ends at a wider character
        new | push_str | | éa | ok |
        # player: calls 255 | letters past 255 are refused
        new | try_push_str   |      | 256 x | OutOfBounds |
            | try_insert_str | 0    | 256 x | OutOfBounds |
            | replace_range  | 0..0 | 256 x | OutOfBounds |
        # player: calls 300 | letters past 255 are refused
        new   | capacity |  |   | ok          |       | 255
        255 x | len      |  |   | ok          | 255 x | 255
              | try_push |  | a | OutOfBounds | 255 x
        # player: calls 255 | the end of a full string is an index
        255 x | insert_str | 255 | x | ok          | 255 x
              | try_insert | 255 | x | OutOfBounds | 255 x
              | truncate   | 255 |   | ok          | 255 x
              | split_off  | 255 |   |             | 255 x
              | remove     | 255 |   | OutOfBounds | 255 x
        ",
    );
}

#[test]
fn the_last_byte(rt: HostRuntime) {
    agree(&rt, "the letters", LETTERS.len(), 256);
    agree(&rt, "with a wider last", A_WIDER_LAST.len(), 256);
    let cut = MaxString::from_str_truncate(A_WIDER_LAST);
    agree(&rt, "a text", LETTERS.get(..254), Some(cut.as_str()));
    let mut most: ArrayString<300> = string(LETTERS);
    agree(&rt, "from 254", most.replace_range(254.., "y"), Ok(()));
    agree(&rt, "the last letter", most.get(254..), Some("y"));
}

#[test]
fn no_capacity_is_above_255(rt: HostRuntime) {
    agree(&rt, "300", ArrayString::<300>::capacity(), 255);
    let more = one_too_many(&rt, "a");
    let most = more.as_str().get(1..).unwrap_or_default();
    let string = ArrayString::<300>::try_from_str(most).unwrap_or_default();
    agree(&rt, "the size", string.len(), 255);
    agree(&rt, "255 letters", string.as_str(), most);
    let refused = ArrayString::<300>::try_from_str(&more);
    agree(&rt, "256 letters", refused, Err(OutOfBounds));
}
