//! Strings whose texts do not begin at offset 0 of the array, beside strings that were built
//! anew from the same texts: each call gives the same, worked out by hand.
use super::calls::{check_row, check_rows};
use super::table::string;
use arraystring::ArrayString;
use std::process::Abort;
use test_support::table::{column, rows};

/// A string of 8 bytes whose text begins at `offset` of the array. If the text is too long for that, it ends where
/// the array ends.
fn behind(text: &str, offset: usize) -> ArrayString<8> {
    let room = 8usize.saturating_sub(text.len());
    let before = "........".get(..offset.min(room)).unwrap_or_default();
    let mut behind: ArrayString<8> = string(before);
    behind.push_str(text);
    let _ = behind.drain(..before.len() as u8);
    behind
}

/// Makes the calls of a table on a string that was built anew from the text of its row, and on those
/// whose texts begin at each offset that there is, and asserts that each returns and leaves what its
/// row says.
fn check_wherever_it_begins(rt: &(impl Abort + AllocGlobal), table: &str) {
    check_rows::<8>(rt, table);
    for offset in 1..9usize {
        let mut text = behind("", offset);
        for row in rows(table) {
            if !column(row, 0).is_empty() {
                text = behind(column(row, 0), offset);
            }
            check_row(rt, &mut text, row);
        }
    }
}

#[test]
fn what_is_left_stays_where_it_is_until_it_grows(rt: HostRuntime) {
    check_rows::<8>(
        &rt,
        "
        # player: calls 8
        '  abcdef' | trim_counted           |     |    | ok | abcdef   | 0
                   | try_insert_str_counted | 6   | xy | ok | abcdefxy | 6
        '  abcdef' | trim_counted           |     |    | ok | abcdef   | 0
                   | try_push_str           |     | xy | ok | abcdefxy
        abcdefgh   | remove                 | 0   |    | a  | bcdefgh
                   | try_insert_str_counted | 7   | x  | ok | bcdefghx | 7
        abcdefgh   | drain                  | ..2 |    | ab | cdefgh
                   | try_insert_str_counted | 6   | x  | ok | cdefghx  | 6
        ",
    );
    check_rows::<4>(
        &rt,
        "
        # player: calls 4
        ' ab' | trim                   |   |    | ok | ab
              | try_insert_str_counted | 1 | xy | ok | axyb | 2
        abcd  | remove                 | 0 |    | a  | bcd
              | try_insert             | 1 | x  | ok | bxcd
        ",
    );
    check_rows::<300>(
        &rt,
        "
        # player: calls 300
        255 x | remove   | 0 |   | x           | 254 x
              | try_push |   | x | ok          | 255 x
              | try_push |   | x | OutOfBounds | 255 x
        ",
    );
    // an insertion with room behind the text moves the bytes behind the index
    check_rows::<8>(
        &rt,
        "
        # player: calls 8
        ..abcd | drain                  | ..2 |    | .. | abcd
               | try_insert_str_counted | 3   | x  | ok | abcxd  | 1
        ..abcd | drain                  | ..2 |    | .. | abcd
               | try_insert_str_counted | 0   | x  | ok | xabcd  | 4
        ..abcd | drain                  | ..2 |    | .. | abcd
               | try_insert_str_counted | 4   | xy | ok | abcdxy | 0
        ",
    );
    // a full text refuses what would make it grow
    check_rows::<8>(
        &rt,
        "
        # player: calls 8
        abcdefé  | try_push_str   |   | € | OutOfBounds | abcdefé
                 | try_push       |   | € | OutOfBounds | abcdefé
        xyabcdef | try_insert_str | 1 | € | OutOfBounds | xyabcdef
        ",
    );
}

#[test]
fn texts_are_the_same_wherever_they_begin(rt: HostRuntime) {
    // texts and parts of texts that are borrowed
    check_wherever_it_begins(
        &rt,
        "
        # player: wherever_it_begins
        abCDef | as_bytes         |      |                   | [97, 98, 67, 68, 101, 102] | abCDef
               | len              |      |                   | ok      | abCDef | 6
               | cmp              |      | abCDef            | Equal   | abCDef
               | cmp              |      | abCDe             | Greater | abCDef
        aBé    | as_bytes         |      |                   | [97, 66, 195, 169] | aBé
               | cmp              |      | aBé               | Equal   | aBé
               | is_char_boundary | 2    |                   | ok      | aBé
               | is_char_boundary | 3    |                   | Utf8    | aBé
               | is_char_boundary | 5    |                   | Utf8    | aBé
        abCDef | get              | 1..3 |                   | bC      | abCDef
               | get              | 4..  |                   | ef      | abCDef
               | get              | ..7  |                   | None    | abCDef
               | slice            | 1..3 |                   | bC      | abCDef
        aBé    | get              | 1..  |                   | Bé      | aBé
               | get              | ..3  |                   | None    | aBé
               | slice            | 2..4 |                   | é       | aBé
        A🤔    | is_char_boundary | 0    |                   | ok      | A🤔
               | is_char_boundary | 1    |                   | ok      | A🤔
               | is_char_boundary | 2    |                   | Utf8    | A🤔
               | is_char_boundary | 4    |                   | Utf8    | A🤔
               | is_char_boundary | 5    |                   | ok      | A🤔
               | is_char_boundary | 6    |                   | Utf8    | A🤔
               | is_char_boundary | 255  |                   | Utf8    | A🤔
        ",
    );
    // texts that grow
    check_wherever_it_begins(
        &rt,
        "
        # player: wherever_it_begins
        abcdef | try_push             |      | x     | ok          | abcdefx
        aBé    | try_push             |      | x     | ok          | aBéx
        abcdef | try_push_str         |      | é     | ok          | abcdefé
        aBé    | try_push_str         |      | é     | ok          | aBéé
        abcdef | try_push_str         |      | €     | OutOfBounds | abcdef
               | try_push             |      | €     | OutOfBounds | abcdef
        aBéé   | try_push_str         |      | €     | OutOfBounds | aBéé
               | try_push             |      | €     | OutOfBounds | aBéé
        abcdef | push_str             |      | xyz   | ok          | abcdefxy
        aBé    | push_str             |      | xyz   | ok          | aBéxyz
        abcdef | try_insert           | 1    | é     | ok          | aébcdef
        aBé    | try_insert           | 1    | é     | ok          | aéBé
        abcdef | try_insert_str       | 0    | xy    | ok          | xyabcdef
        aBé    | try_insert_str       | 0    | xy    | ok          | xyaBé
        xyabcd | try_insert_str       | 1    | €     | OutOfBounds | xyabcd
        xyaBé  | try_insert_str       | 1    | €     | OutOfBounds | xyaBé
        abcdef | insert_str           | 2    | xyz   | ok          | abxycdef
        aBé    | insert_str           | 2    | xyz   | ok          | aBxyzé
        abcdef | replace_range        | 1..2 | xyz   | ok          | axyzcdef
        aBé    | replace_range        | 1..2 | xyz   | ok          | axyzé
        abcdef | push_unchecked       |      | é     | ok          | abcdefé
        abcdef | push_str_unchecked   |      | é     | ok          | abcdefé
        aBé    | push_unchecked       |      | é     | ok          | aBéé
        aBé    | push_str_unchecked   |      | é     | ok          | aBéé
        abcdef | insert_str_unchecked | 0    | xy    | ok          | xyabcdef
        abcdef | insert_unchecked     | 0    | é     | ok          | éabcdef
        abcdef | insert_unchecked     | 0    | 🤔     | None        | abcdef
        aBé    | insert_str_unchecked | 0    | xy    | ok          | xyaBé
        aBé    | insert_unchecked     | 0    | 🤔     | ok          | 🤔aBé
        aBé    | insert_str_unchecked | 0    | 01234 | None        | aBé
        abcdef | extend_chars         |      | xyz   | ok          | abcdefxy
        abcdef | extend_strs          |      | x,yz  | ok          | abcdefxy
        aBé    | extend_chars         |      | xyz   | ok          | aBéxyz
        aBé    | extend_strs          |      | x,yz  | ok          | aBéxyz
        ",
    );
    // texts that shrink and grow again
    check_wherever_it_begins(
        &rt,
        "
        # player: wherever_it_begins
        abcdef        | pop          |   |          | f           | abcde
        ' cdef '      | pop          |   |          | ' '         | ' cdef'
        aBé           | pop          |   |          | é           | aB
        ' aé'         | pop          |   |          | é           | ' a'
        abcdef        | truncate     | 2 |          | ok          | ab
        ' cdef '      | truncate     | 2 |          | ok          | ' c'
        aBé           | truncate     | 2 |          | ok          | aB
        ' aé'         | truncate     | 2 |          | ok          | ' a'
        abcdef        | split_off    | 2 |          | cdef        | ab
                      | split_off    | 3 |          | OutOfBounds | ab
        ' cdef '      | split_off    | 2 |          | 'def '      | ' c'
                      | split_off    | 3 |          | OutOfBounds | ' c'
        aBé           | split_off    | 2 |          | é           | aB
                      | split_off    | 3 |          | OutOfBounds | aB
        ' aé'         | split_off    | 2 |          | é           | ' a'
                      | split_off    | 3 |          | OutOfBounds | ' a'
        abcdef        | trim         |   |          | ok          | abcdef
        ' cdef '      | trim         |   |          | ok          | cdef
        aBé           | trim         |   |          | ok          | aBé
        ' aé'         | trim         |   |          | ok          | aé
        '\u{2003}aé'  | trim         |   |          | ok          | aé
                      | push_str     |   | 12345678 | ok          | aé12345
        '\u{2003}aé'  | trim_spaces  |   |          | ok          | '\u{2003}aé'
                      | push_str     |   | 12345678 | ok          | '\u{2003}aé12'
        ' a\u{3000} ' | trim         |   |          | ok          | a
                      | push_str     |   | 12345678 | ok          | a1234567
        ' a\u{3000} ' | trim_spaces  |   |          | ok          | 'a\u{3000}'
                      | push_str     |   | 12345678 | ok          | 'a\u{3000}1234'
        ' ab cd'      | trim         |   |          | ok          | ab cd
                      | push_str     |   | 12345678 | ok          | ab cd123
        ' ab cd'      | trim_spaces  |   |          | ok          | ab cd
                      | push_str     |   | 12345678 | ok          | ab cd123
        'ab  '        | trim         |   |          | ok          | ab
                      | push_str     |   | 12345678 | ok          | ab123456
        'ab  '        | trim_spaces  |   |          | ok          | ab
                      | push_str     |   | 12345678 | ok          | ab123456
        '\u{2003} '   | trim         |   |          | ok          |
                      | push_str     |   | 12345678 | ok          | 12345678
        '\u{2003} '   | trim_spaces  |   |          | ok          | '\u{2003}'
                      | push_str     |   | 12345678 | ok          | '\u{2003}12345'
        abcdef        | trim         |   |          | ok          | abcdef
                      | clear        |   |          | ok          |
                      | try_push_str |   | abcdefgh | ok          | abcdefgh
        ' cdef '      | trim         |   |          | ok          | cdef
                      | clear        |   |          | ok          |
                      | try_push_str |   | abcdefgh | ok          | abcdefgh
        aBé           | trim         |   |          | ok          | aBé
                      | clear        |   |          | ok          |
                      | try_push_str |   | abcdefgh | ok          | abcdefgh
        ' aé'         | trim         |   |          | ok          | aé
                      | clear        |   |          | ok          |
                      | try_push_str |   | abcdefgh | ok          | abcdefgh
        '\r\u{A0}a'   | trim         |   |          | ok          | a
                      | push_str     |   | 12345678 | ok          | a1234567
        '\r\u{A0}a'   | trim_spaces  |   |          | ok          | '\r\u{A0}a'
                      | push_str     |   | 12345678 | ok          | '\r\u{A0}a1234'
        ",
    );
    // parts that are taken out and replaced
    check_wherever_it_begins(
        &rt,
        "
        # player: wherever_it_begins
        abcdef | remove         | 1    |    | b           | acdef
               | remove         | 7    |    | OutOfBounds | acdef
        aBCé   | remove         | 1    |    | B           | aCé
               | remove         | 7    |    | OutOfBounds | aCé
        aBCd   | remove         | 1    |    | B           | aCd
               | remove         | 7    |    | OutOfBounds | aCd
        abcdef | remove         | 0    |    | a           | bcdef
               | try_insert_str | 0    | a  | ok          | abcdef
        aBCé   | remove         | 0    |    | a           | BCé
               | try_insert_str | 0    | a  | ok          | aBCé
        aBCd   | remove         | 0    |    | a           | BCd
               | try_insert_str | 0    | a  | ok          | aBCd
        abcdef | drain          | 1..3 |    | bc          | adef
               | drain          | 2..1 |    | OutOfBounds | adef
        aBCé   | drain          | 1..3 |    | BC          | aé
               | drain          | 2..1 |    | OutOfBounds | aé
        aBCd   | drain          | 1..3 |    | BC          | ad
               | drain          | 2..1 |    | OutOfBounds | ad
        abcdef | replace_range  | 1..3 | x  | ok          | axdef
        aBCé   | replace_range  | 1..3 | x  | ok          | axé
        aBCd   | replace_range  | 1..3 | x  | ok          | axd
        abcdef | retain_without |      | ad | ok          | bcef
        aBCé   | retain_without |      | ad | ok          | BCé
        aBCd   | retain_without |      | ad | ok          | BC
        ",
    );
    // letters that change case
    check_wherever_it_begins(
        &rt,
        "
        # player: wherever_it_begins
        abcdef | make_ascii_uppercase    |      | | ok | ABCDEF
        abcdef | make_ascii_lowercase    |      | | ok | abcdef
        ABCDEF | make_ascii_uppercase    |      | | ok | ABCDEF
        ABCDEF | make_ascii_lowercase    |      | | ok | abcdef
        aBCé   | make_ascii_uppercase    |      | | ok | ABCé
        aBCé   | make_ascii_lowercase    |      | | ok | abcé
        AbcD   | make_ascii_uppercase    |      | | ok | ABCD
        AbcD   | make_ascii_lowercase    |      | | ok | abcd
        abcdef | make_ascii_uppercase_in | 1..3 | | ok | aBCdef
        abcdef | make_ascii_lowercase_in | 1..3 | | ok | abcdef
        ABCDEF | make_ascii_uppercase_in | 1..3 | | ok | ABCDEF
        ABCDEF | make_ascii_lowercase_in | 1..3 | | ok | AbcDEF
        aBCé   | make_ascii_uppercase_in | 1..3 | | ok | aBCé
        aBCé   | make_ascii_lowercase_in | 1..3 | | ok | abcé
        AbcD   | make_ascii_uppercase_in | 1..3 | | ok | ABCD
        AbcD   | make_ascii_lowercase_in | 1..3 | | ok | AbcD
        ",
    );
}
