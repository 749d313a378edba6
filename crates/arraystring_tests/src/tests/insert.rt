//! What is put into a string, and what is added from an iterator, on values worked out by hand.
ghost use Rattle.std.specs.Prelude.{◌≤◌};

use super::calls::check_blocks;
use super::construct::next;
use super::table::agree;
use arraystring::prelude::SmallString;
use arraystring::{ArrayString, Error};
use std::process::Abort;
use test_support::table::{column, rows};

#[test]
fn insertions(rt: HostRuntime) {
    check_blocks(
        &rt,
        "
        # player: calls 23 | characters and texts are inserted
        ABCD🤔                   | try_insert           | 1  | A                       | ok          | AABCD🤔
                                | try_insert           | 2  | B                       | ok          | AABBCD🤔
                                | try_insert           | 20 | C                       | OutOfBounds | AABBCD🤔
                                | try_insert           | 8  | D                       | Utf8        | AABBCD🤔
                                | try_insert           | 0  | é                       | ok          | éAABBCD🤔
                                | try_insert           | 12 | €                       | ok          | éAABBCD🤔€
        ABCD🤔                   | insert_unchecked     | 1  | A                       | ok          | AABCD🤔
                                | insert_unchecked     | 1  | B                       | ok          | ABABCD🤔
        ABCD🤔                   | insert_str           | 1  | AB                      | ok          | AABBCD🤔
                                | insert_str           | 1  | BC                      | ok          | ABCABBCD🤔
                                | insert_str           | 20 | C                       | OutOfBounds | ABCABBCD🤔
                                | insert_str           | 10 | D                       | Utf8        | ABCABBCD🤔
        ABCD🤔                   | try_insert_str       | 1  | AB                      | ok          | AABBCD🤔
                                | try_insert_str       | 1  | BC                      | ok          | ABCABBCD🤔
                                | try_insert_str       | 20 | C                       | OutOfBounds | ABCABBCD🤔
                                | try_insert_str       | 10 | D                       | Utf8        | ABCABBCD🤔
                                | try_insert_str       | 1  | 00000000000000000000000 | OutOfBounds | ABCABBCD🤔
        ABCD🤔                   | insert_str_unchecked | 1  | AB                      | ok          | AABBCD🤔
                                | insert_str_unchecked | 1  | BC                      | ok          | ABCABBCD🤔
        abcdefghijklmnopqrstuvw | len                  |    |                         | ok          | abcdefghijklmnopqrstuvw | 23
                                | try_insert           | 0  | C                       | OutOfBounds | abcdefghijklmnopqrstuvw
        00000000000000000000000 | try_insert           | 0  | C                       | OutOfBounds | 00000000000000000000000
        # player: calls 10 | what does not fit is cut
        AB | insert_str | 1 | 🤔🤔🤔 | ok | A🤔🤔B
        # player: calls 9 | what does not fit is cut
        AB | insert_str | 1 | 🤔🤔🤔 | ok | A🤔B
        # player: calls 23 | what does not fit is cut
        new | insert_str | 0 | 000000000000000000000000000000000 | ok | 00000000000000000000000
        # player: calls 23 | moves of insertions
        ABCD | try_insert_str_counted | 1 | xy                      | ok          | AxyBCD | 3
        ABCD | try_insert_str_counted | 0 | xy                      | ok          | xyABCD | 4
        ABCD | try_insert_str_counted | 4 | xy                      | ok          | ABCDxy | 0
        ABCD | try_insert_str_counted | 2 |                         | ok          | ABCD   | 0
        ABCD | try_insert_str_counted | 5 | xy                      | OutOfBounds | ABCD   | 0
        ABCD | try_insert_str_counted | 1 | 00000000000000000000000 | OutOfBounds | ABCD   | 0
        🤔   | try_insert_str_counted | 2 | xy                      | Utf8        | 🤔     | 0
        # player: calls 4 | a full string takes the empty text alone
        abcd | try_insert           | 0 | x | OutOfBounds | abcd
             | try_insert           | 1 | x | OutOfBounds | abcd
             | try_insert           | 2 | x | OutOfBounds | abcd
             | try_insert           | 3 | x | OutOfBounds | abcd
             | try_insert           | 4 | x | OutOfBounds | abcd
        abcd | try_insert_str       | 0 | x | OutOfBounds | abcd
             | try_insert_str       | 0 |   | ok          | abcd
             | try_insert_str       | 1 | x | OutOfBounds | abcd
             | try_insert_str       | 1 |   | ok          | abcd
             | try_insert_str       | 2 | x | OutOfBounds | abcd
             | try_insert_str       | 2 |   | ok          | abcd
             | try_insert_str       | 3 | x | OutOfBounds | abcd
             | try_insert_str       | 3 |   | ok          | abcd
             | try_insert_str       | 4 | x | OutOfBounds | abcd
             | try_insert_str       | 4 |   | ok          | abcd
        abcd | insert_str           | 0 | x | ok          | abcd
             | insert_str           | 1 | x | ok          | abcd
             | insert_str           | 2 | x | ok          | abcd
             | insert_str           | 3 | x | ok          | abcd
             | insert_str           | 4 | x | ok          | abcd
             | insert_str           | 5 |   | OutOfBounds | abcd
        abcd | insert_unchecked     | 0 | x | None        | abcd
             | insert_unchecked     | 1 | x | None        | abcd
             | insert_unchecked     | 2 | x | None        | abcd
             | insert_unchecked     | 3 | x | None        | abcd
             | insert_unchecked     | 4 | x | None        | abcd
        abcd | insert_str_unchecked | 0 |   | ok          | abcd
             | insert_str_unchecked | 1 |   | ok          | abcd
             | insert_str_unchecked | 2 |   | ok          | abcd
             | insert_str_unchecked | 3 |   | ok          | abcd
             | insert_str_unchecked | 4 |   | ok          | abcd
        🤔    | try_insert           | 1 | x | OutOfBounds | 🤔
             | try_insert_str       | 1 | x | OutOfBounds | 🤔
             | try_insert_str       | 1 |   | Utf8        | 🤔
             | insert_str           | 1 | x | Utf8        | 🤔
             | try_insert           | 2 | x | OutOfBounds | 🤔
             | try_insert_str       | 2 | x | OutOfBounds | 🤔
             | try_insert_str       | 2 |   | Utf8        | 🤔
             | insert_str           | 2 | x | Utf8        | 🤔
             | try_insert           | 3 | x | OutOfBounds | 🤔
             | try_insert_str       | 3 | x | OutOfBounds | 🤔
             | try_insert_str       | 3 |   | Utf8        | 🤔
             | insert_str           | 3 | x | Utf8        | 🤔
        # player: calls 0 | capacities
        new | try_insert     | 0 | x | OutOfBounds |
            | try_insert_str | 0 |   | ok          |
            | insert_str     | 0 | x | ok          |
            | insert_str     | 1 |   | OutOfBounds |
        # player: calls 1 | capacities
        new | insert_str | 0 | éa | ok          |
            | try_insert | 0 | é  | OutOfBounds |
            | try_insert | 0 | a  | ok          | a
        # player: calls 300 | a string of the most letters
        255 x | insert_str     | 255 | x | ok          | 255 x
              | try_insert_str | 255 |   | ok          | 255 x
              | try_insert     | 255 | x | OutOfBounds | 255 x
              | try_insert     | 0   | x | OutOfBounds | 255 x
        # player: calls 255 | more letters than fit
        new | try_insert_str | 0 | 256 x | OutOfBounds |
            | insert_str     | 0 | 256 x | ok          | 255 x
        ",
    );
}

#[test]
fn room_is_tested_before_the_index(rt: HostRuntime) {
    let mut text = SmallString::from("ABCD🤔");
    agree(&rt, "A at 1", text.try_insert(1, 'A'), Ok(()));
    agree(&rt, "B at 2", text.try_insert(2, 'B'), Ok(()));
    agree(&rt, "the text", text.as_str(), "AABBCD🤔");
    let refused = Err(Error::OutOfBounds);
    agree(&rt, "C at 20", text.try_insert(20, 'C'), refused);
    agree(&rt, "D at 8", text.try_insert(8, 'D'), Err(Error::Utf8));
    agree(&rt, "the same text", text.as_str(), "AABBCD🤔");
}

#[test]
fn a_full_string_has_no_room_at_any_index(rt: HostRuntime) {
    let refused = Err(Error::OutOfBounds);
    let mut full = SmallString::from("abcdefghijklmnopqrstuvw");
    agree(&rt, "C at 0", full.try_insert(0, 'C'), refused);
    agree(&rt, "letters", full.as_str(), "abcdefghijklmnopqrstuvw");
    let mut face = ArrayString::<4>::from("🤔");
    agree(&rt, "whole", face.try_insert(1, 'x'), refused);
    agree(&rt, "cut", face.insert_str(1, "x"), Err(Error::Utf8));
    agree(&rt, "a face", face.as_str(), "🤔");
}

/// Asserts what is added from iterators that are borrowed. The columns of a row are
///
///     text before | characters | pieces | text after | next character | next piece
///
/// if the text after is the same by the characters and by the pieces.
fn check_extension<const N: usize>(rt: &impl Abort, table: &str)
    requires { N ≤ 300 }
{
    for row in rows(table) {
        check_added::<N>(rt, row);
    }
}

/// Asserts what a row says.
fn check_added<const N: usize>(rt: &impl Abort, row: &str)
    requires { N ≤ 300 }
{
    let (mut chars, mut pieces) = (column(row, 1).chars(), column(row, 2).split(','));
    let before = ArrayString::<N>::from(column(row, 0));
    let (mut by_chars, mut by_pieces) = (before, before);
    by_chars.extend_chars(&mut chars);
    by_pieces.extend_strs(pieces.by_ref());
    agree(rt, row, by_chars.as_str(), column(row, 3));
    agree(rt, row, by_pieces, by_chars);
    next(rt, row, chars.next(), pieces.next());
}

/// A full string takes one more item too.
#[test]
fn what_is_added(rt: HostRuntime) {
    check_extension::<5>(
        &rt,
        "
        # player: extension 5
        ab  | c🤔de   | c🤔,d,e    | abc   | d | d
        abc | dexyz   | d,ex,y,z   | abcde | y | y
        xyz | abc🤔de | ab,c🤔,d,e | xyzab | 🤔 | d
        ",
    );
    check_extension::<6>(
        &rt,
        "
        # player: extension 6
        ab  | c🤔d    | c,🤔,d     | abc   | d | d
        ab  | cd🤔e   | cd,🤔,e    | abcd  | e | e
        ",
    );
    check_extension::<7>(
        &rt,
        "
        # player: extension 7
        xy  | abc🤔de | ab,c🤔,d,e | xyabc | d | d
        ",
    );
    check_extension::<255>(
        &rt,
        "
        # player: extension 255
        255 x | abc | a,b | 255 x | b | b
        ",
    );
}
