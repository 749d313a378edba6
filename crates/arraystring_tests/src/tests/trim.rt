//! Trimmed strings, on values worked out by hand.
use super::calls::{check_blocks, check_row};
use super::table::{agree, string};
use arraystring::MaxString;
use std::process::Abort;
use test_support::table::{column, rows};

#[test]
fn trimmed_texts(rt: HostRuntime) {
    check_blocks(
        &rt,
        "
        # player: calls 255 | texts are trimmed
        '   🤔'                 | trim        | | | ok | 🤔
        '   🤔'                 | trim_spaces | | | ok | 🤔
        '   '                   | trim        | | | ok |
        '   '                   | trim_spaces | | | ok |
        '\t a '                 | trim        | | | ok | a
        '\t a '                 | trim_spaces | | | ok | '\t a'
        '\u{2003}a\u{3000}'     | trim        | | | ok | a
        '\u{2003}a\u{3000}'     | trim_spaces | | | ok | '\u{2003}a\u{3000}'
        '\u{85}a\u{85}'         | trim        | | | ok | a
        '\u{85}a\u{85}'         | trim_spaces | | | ok | '\u{85}a\u{85}'
        '\u{200B}a'             | trim        | | | ok | '\u{200B}a'
        '\u{200B}a'             | trim_spaces | | | ok | '\u{200B}a'
        ' \t '                  | trim        | | | ok |
        ' \t '                  | trim_spaces | | | ok | '\t'
        ' a\u{A0}b '            | trim        | | | ok | 'a\u{A0}b'
        ' a\u{A0}b '            | trim_spaces | | | ok | 'a\u{A0}b'
        ' a\u{A0}'              | trim        | | | ok | a
        ' a\u{A0}'              | trim_spaces | | | ok | 'a\u{A0}'
        '\u{2003}a '            | trim        | | | ok | a
        '\u{2003}a '            | trim_spaces | | | ok | '\u{2003}a'
        '   to be trimmed     ' | trim        | | | ok | to be trimmed
        '   to be trimmed     ' | trim_spaces | | | ok | to be trimmed
        new                     | trim        | | | ok |
        new                     | trim_spaces | | | ok |
        # player: calls 23 | texts are trimmed
        '   🤔'                 | trim        | | | ok | 🤔
        '   🤔'                 | trim_spaces | | | ok | 🤔
        '   '                   | trim        | | | ok |
        '   '                   | trim_spaces | | | ok |
        '\t a '                 | trim        | | | ok | a
        '\t a '                 | trim_spaces | | | ok | '\t a'
        '\u{2003}a\u{3000}'     | trim        | | | ok | a
        '\u{2003}a\u{3000}'     | trim_spaces | | | ok | '\u{2003}a\u{3000}'
        '\u{85}a\u{85}'         | trim        | | | ok | a
        '\u{85}a\u{85}'         | trim_spaces | | | ok | '\u{85}a\u{85}'
        '\u{200B}a'             | trim        | | | ok | '\u{200B}a'
        '\u{200B}a'             | trim_spaces | | | ok | '\u{200B}a'
        ' \t '                  | trim        | | | ok |
        ' \t '                  | trim_spaces | | | ok | '\t'
        ' a\u{A0}b '            | trim        | | | ok | 'a\u{A0}b'
        ' a\u{A0}b '            | trim_spaces | | | ok | 'a\u{A0}b'
        ' a\u{A0}'              | trim        | | | ok | a
        ' a\u{A0}'              | trim_spaces | | | ok | 'a\u{A0}'
        '\u{2003}a '            | trim        | | | ok | a
        '\u{2003}a '            | trim_spaces | | | ok | '\u{2003}a'
        '   to be trimmed     ' | trim        | | | ok | to be trimmed
        '   to be trimmed     ' | trim_spaces | | | ok | to be trimmed
        new                     | trim        | | | ok |
        new                     | trim_spaces | | | ok |
        # player: calls 4 | full texts are trimmed
        '  ab' | trim        | | | ok | ab
        '  ab' | trim_spaces | | | ok | ab
        'ab  ' | trim        | | | ok | ab
        'ab  ' | trim_spaces | | | ok | ab
        ' ab ' | trim        | | | ok | ab
        ' ab ' | trim_spaces | | | ok | ab
        ab     | trim        | | | ok | ab
        ab     | trim_spaces | | | ok | ab
        # player: calls 8 | a trim moves nothing
        '  abcdef'          | trim_counted | | | ok | abcdef | 0
        '\t🤔\u{A0}'        | trim_counted | | | ok | 🤔     | 0
        '\u{2003} \u{3000}' | trim_counted | | | ok |        | 0
        ",
    );
    let mut line: MaxString = string(" a  b\n");
    check_row(&rt, &mut line, "|trim_spaces|||ok|'a  b\n'");
    line = string(" a  b\n");
    check_row(&rt, &mut line, "|trim|||ok|a  b");
}

/// Asserts of a text with an `a` in it whether `trim` leaves only the `a` or all of the text, and the same of
/// `trim_spaces`.
fn trims(rt: &impl Abort, text: MaxString, is_trimmed: bool, is_trimmed_of_spaces: bool) {
    let [mut trimmed, mut without_spaces] = [text, text];
    trimmed.trim();
    without_spaces.trim_spaces();
    let (text, a) = (text.as_str(), "a");
    let wanted = if is_trimmed { a } else { text };
    let wanted_of_spaces = if is_trimmed_of_spaces { a } else { text };
    let left = (trimmed.as_str(), without_spaces.as_str());
    agree(rt, text, left, (wanted, wanted_of_spaces));
}

/// Asserts which characters are trimmed. The columns of a row are
///
///     first character | last character | calls that trim each
///
/// if the characters are in hexadecimal. Each is after `a`, before it, and on both sides.
fn check_trims(rt: &impl Abort, table: &str) {
    for row in rows(table) {
        let (first, last) = (character_of(rt, row, 0), character_of(rt, row, 1));
        let is_trimmed = !column(row, 2).is_empty();
        let equals_space = column(row, 2).ends_with("trim_spaces");
        for end in (first..=last).into_iter() {
            let mut text: MaxString = string("a");
            let _ = text.try_push(end);
            trims(rt, text, is_trimmed, equals_space);
            text = MaxString::new();
            let _ = text.try_push(end);
            text.push_str("a");
            trims(rt, text, is_trimmed, equals_space);
            let _ = text.try_push(end);
            trims(rt, text, is_trimmed, equals_space);
        }
    }
}

/// The character of a number in hexadecimal.
fn character_of(rt: &impl Abort, row: &str, at: usize) -> char {
    let number = u32::from_str_radix(column(row, at), 16).expect(rt, "a number in the column");
    char::from_u32(number).expect(rt, "a character of this number")
}

/// Each character with the property White_Space, in the order of the Unicode Standard's list, and all
/// between them.
#[test]
fn each_white_space_is_trimmed_and_nothing_beside_it(rt: HostRuntime) {
    check_trims(
        &rt,
        "
        # player: trims
        0     | 8     |
        9     | D     | trim
        E     | 1F    |
        20    | 20    | trim and trim_spaces
        21    | 84    |
        85    | 85    | trim
        86    | 9F    |
        A0    | A0    | trim
        A1    | 167F  |
        1680  | 1680  | trim
        1681  | 1FFF  |
        2000  | 200A  | trim
        200B  | 2027  |
        2028  | 2029  | trim
        202A  | 202E  |
        202F  | 202F  | trim
        2030  | 205E  |
        205F  | 205F  | trim
        2060  | 2FFF  |
        3000  | 3000  | trim
        3001  | 30FF  |
        FEFF  | FEFF  |
        E0020 | E0020 |
        ",
    );
}
