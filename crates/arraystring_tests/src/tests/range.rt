//! Parts of a string, on values worked out by hand.
use super::calls::check_blocks;
use super::table::agree;
use arraystring::{ArrayString, Error};

#[test]
fn ranges(rt: HostRuntime) {
    check_blocks(
        &rt,
        "
        # player: calls 23 | parts are borrowed
        ABCD🤔 | get   | ..     | | ABCD🤔 | ABCD🤔
               | get   | 3..    | | D🤔    | ABCD🤔
               | get   | ..3    | | ABC    | ABCD🤔
               | get   | 1..3   | | BC     | ABCD🤔
               | get   | 1..=3  | | BCD    | ABCD🤔
               | get   | ..=3   | | ABCD   | ABCD🤔
               | get   | 8..    | |        | ABCD🤔
               | get   | 5..    | | None   | ABCD🤔
               | get   | ..7    | | None   | ABCD🤔
               | get   | 9..    | | None   | ABCD🤔
               | get   | 4..9   | | None   | ABCD🤔
               | get   | 3..2   | | None   | ABCD🤔
               | slice | ..     | | ABCD🤔 | ABCD🤔
        ABCD🤔 | get   | (..)   | | ABCD🤔 | ABCD🤔
               | slice | (..)   | | ABCD🤔 | ABCD🤔
               | get   | [3..)  | | D🤔    | ABCD🤔
               | slice | [3..)  | | D🤔    | ABCD🤔
               | get   | (3..8) | | 🤔     | ABCD🤔
               | slice | (3..8) | | 🤔     | ABCD🤔
               | get   | (0..2] | | BC     | ABCD🤔
               | slice | (0..2] | | BC     | ABCD🤔
               | get   | (2..2] | |        | ABCD🤔
               | slice | (2..2] | |        | ABCD🤔
               | get   | (4..)  | | None   | ABCD🤔
               | slice | (4..)  | | None   | ABCD🤔
               | get   | (..4]  | | None   | ABCD🤔
               | slice | (..4]  | | None   | ABCD🤔
               | get   | (8..)  | | None   | ABCD🤔
               | slice | (8..)  | | None   | ABCD🤔
               | get   | [4..3) | | None   | ABCD🤔
               | slice | [4..3) | | None   | ABCD🤔
        ABCD🤔 | slice | 3..    | | D🤔    | ABCD🤔
               | slice | ..3    | | ABC    | ABCD🤔
               | slice | 1..3   | | BC     | ABCD🤔
               | slice | 1..=3  | | BCD    | ABCD🤔
               | slice | ..=3   | | ABCD   | ABCD🤔
               | slice | 4..=7  | | 🤔     | ABCD🤔
               | slice | 3..=2  | |        | ABCD🤔
               | slice | 3..=1  | | None   | ABCD🤔
               | slice | 4..=6  | | None   | ABCD🤔
               | slice | 5..=7  | | None   | ABCD🤔
               | slice | ..=8   | | None   | ABCD🤔
               | slice | 8..8   | |        | ABCD🤔
               | slice | 8..=8  | | None   | ABCD🤔
               | slice | (7..)  | |        | ABCD🤔
               | slice | (3..7] | | 🤔     | ABCD🤔
               | slice | (3..6] | | None   | ABCD🤔
               | slice | (5..8) | | None   | ABCD🤔
               | slice | (2..2) | | None   | ABCD🤔
        # player: calls 4 | letters change case in a range
        abcd | make_ascii_uppercase_in | 1..=2 | | ok   | aBCd
        abcd | make_ascii_lowercase_in | 1..=2 | | ok   | abcd
        abcd | make_ascii_uppercase_in | 0..=3 | | ok   | ABCD
        abcd | make_ascii_lowercase_in | 0..=3 | | ok   | abcd
        abcd | make_ascii_uppercase_in | 0..=4 | | None | abcd
        abcd | make_ascii_lowercase_in | 0..=4 | | None | abcd
        # player: calls 4 | bounds of each kind
        abcd | make_ascii_uppercase_in                         | ..     | | ok   | ABCD
             | make_ascii_lowercase_in                         | (..)   | | ok   | abcd
        abcd | make_ascii_uppercase_in                         | 2..    | | ok   | abCD
             | make_ascii_lowercase_in                         | (2..)  | | ok   | abCd
        abcd | make_ascii_uppercase_in                         | ..=1   | | ok   | ABcd
             | make_ascii_lowercase_in                         | (..0]  | | ok   | aBcd
        abcd | make_ascii_uppercase_in                         | (0..2] | | ok   | aBCd
             | make_ascii_lowercase_in                         | [1..2) | | ok   | abCd
        abcd | make_ascii_uppercase_in                         | (0..3) | | ok   | aBCd
             | make_ascii_lowercase_in                         | (1..3] | | ok   | aBcd
        abcd | make_ascii_uppercase_in make_ascii_lowercase_in | 2..=1  | | ok   | abcd
             | make_ascii_uppercase_in make_ascii_lowercase_in | 2..=0  | | None | abcd
             | make_ascii_uppercase_in make_ascii_lowercase_in | (2..2] | | ok   | abcd
             | make_ascii_uppercase_in make_ascii_lowercase_in | (2..2) | | None | abcd
             | make_ascii_uppercase_in make_ascii_lowercase_in | (3..)  | | ok   | abcd
             | make_ascii_uppercase_in make_ascii_lowercase_in | (4..)  | | None | abcd
             | make_ascii_uppercase_in make_ascii_lowercase_in | (..4]  | | None | abcd
             | make_ascii_uppercase_in make_ascii_lowercase_in | 0..255 | | None | abcd
        # player: calls 23 | letters change case in a range
        abcd   | make_ascii_uppercase_in | 1..=2 | | ok   | aBCd
        abcd   | make_ascii_lowercase_in | 1..=2 | | ok   | abcd
        ABCD   | make_ascii_lowercase_in | 1..=2 | | ok   | AbcD
        aZéZaé | make_ascii_uppercase_in | 1..=4 | | ok   | aZéZaé
        aZéZaé | make_ascii_lowercase_in | 1..=4 | | ok   | azézaé
        aZéZaé | make_ascii_uppercase_in | 1..=3 | | ok   | aZéZaé
        aZéZaé | make_ascii_lowercase_in | 1..=3 | | ok   | azéZaé
        aZéZaé | make_ascii_uppercase_in | 4..=5 | | ok   | aZéZAé
        aZéZaé | make_ascii_lowercase_in | 4..=5 | | ok   | aZézaé
        aZéZaé | make_ascii_uppercase_in | 1..=2 | | None | aZéZaé
        aZéZaé | make_ascii_lowercase_in | 1..=2 | | None | aZéZaé
        aZéZaé | make_ascii_uppercase_in | (3..7] | | ok   | aZéZAé
        aZéZaé | make_ascii_lowercase_in | (0..3] | | ok   | azéZaé
        aZéZaé | make_ascii_uppercase_in | (4..6) | | ok   | aZéZAé
        aZéZaé | make_ascii_lowercase_in | (1..5) | | ok   | aZézaé
        aZéZaé | make_ascii_uppercase_in | (2..5) | | None | aZéZaé
        aZéZaé | make_ascii_lowercase_in | (0..2] | | None | aZéZaé
        # player: calls 23 | parts are drained
        ABCD🤔 | drain | ..3  | | ABC         | D🤔
               | drain | 3..  | | Utf8        | D🤔
               | drain | ..3  | | Utf8        | D🤔
               | drain | 10.. | | OutOfBounds | D🤔
               | drain | ..6  | | OutOfBounds | D🤔
               | drain | 3..2 | | OutOfBounds | D🤔
        # player: calls 4 | parts are drained
        abcd | drain | [1..3) | | bc   | ad
        abcd | drain | [1..1] | | b    | acd
        abcd | drain | (..2]  | | abc  | d
        abcd | drain | [2..)  | | cd   | ab
        abcd | drain | (0..2] | | bc   | ad
        abcd | drain | (..)   | | abcd |
        abcd | drain | 1..3   | | bc   | ad
        abcd | drain | 1..=1  | | b    | acd
        abcd | drain | ..=2   | | abc  | d
        abcd | drain | 2..    | | cd   | ab
        abcd | drain | ..     | | abcd |
        # player: calls 23 | parts are replaced
        ABCD🤔 | replace_range | 2..4   | EFGHI                   | ok          | ABEFGHI🤔
               | replace_range | 9..    | J                       | Utf8        | ABEFGHI🤔
               | replace_range | ..9    | J                       | Utf8        | ABEFGHI🤔
               | replace_range | ..90   | K                       | OutOfBounds | ABEFGHI🤔
               | replace_range | 12..   | K                       | OutOfBounds | ABEFGHI🤔
               | replace_range | 0..1   | 00000000000000000000000 | OutOfBounds | ABEFGHI🤔
        ABCD🤔 | replace_range | 2..4   |                         | ok          | AB🤔
        ABCD   | replace_range | (0..2] | x                       | ok          | AxD
               | replace_range | 1..=1  | é                       | ok          | AéD
               | replace_range | ..=0   |                         | ok          | éD
               | replace_range | ..     | y                       | ok          | y
        ABCD🤔 | replace_range | 1..4   | é€                      | ok          | Aé€🤔
               | replace_range | 1..6   | BCD                     | ok          | ABCD🤔
        # player: calls 23 | moves of drains and replacements
        ABCD🤔 | drain_counted         | 0..2 |                        | AB          | CD🤔    | 0
        ABCD🤔 | drain_counted         | ..2  |                        | AB          | CD🤔    | 0
        ABCD🤔 | drain_counted         | 1..3 |                        | BC          | AD🤔    | 5
        ABCD🤔 | drain_counted         | 3..8 |                        | D🤔          | ABC    | 0
        ABCD🤔 | drain_counted         | 2..2 |                        |             | ABCD🤔  | 0
        ABCD🤔 | drain_counted         | 2..6 |                        | Utf8        | ABCD🤔  | 0
        ABCD🤔 | drain_counted         | 2..9 |                        | OutOfBounds | ABCD🤔  | 0
        ABCD🤔 | drain_counted         | 3..2 |                        | OutOfBounds | ABCD🤔  | 0
        ABCD🤔 | replace_range_counted | 2..4 |                        | ok          | AB🤔    | 4
        ABCD🤔 | replace_range_counted | 2..4 | xyz                    | ok          | ABxyz🤔 | 4
        ABCD🤔 | replace_range_counted | 2..4 | xy                     | ok          | ABxy🤔  | 0
        ABCD🤔 | replace_range_counted | 0..1 | é                      | ok          | éBCD🤔  | 7
        ABCD🤔 | replace_range_counted | 2..5 |                        | Utf8        | ABCD🤔  | 0
        ABCD🤔 | replace_range_counted | 2..9 |                        | OutOfBounds | ABCD🤔  | 0
        ABCD🤔 | replace_range_counted | 2..4 | 0000000000000000000000 | OutOfBounds | ABCD🤔  | 0
        # player: calls 4 | the size of the result decides
        abcd | replace_range | 0..0 | xy     | OutOfBounds | abcd
             | replace_range | 1..2 | xy     | OutOfBounds | abcd
             | replace_range | 1..3 | xy     | ok          | axyd
             | replace_range | 0..4 | x      | ok          | x
        abcd | replace_range | 0..4 | x      | ok          | x
        🤔   | replace_range | 1..1 | x      | OutOfBounds | 🤔
             | replace_range | 1..4 | xy     | Utf8        | 🤔
             | replace_range | 0..3 | xy     | Utf8        | 🤔
             | replace_range | 3..2 |        | OutOfBounds | 🤔
             | replace_range | 3..2 | xyzxyz | OutOfBounds | 🤔
        # player: calls 255 | the last indices
        255 x | get           | 0..=255   |       | None        | 255 x
              | get           | 0..=254   |       | 255 x       | 255 x
              | get           | 255..255  |       |             | 255 x
              | get           | 255..=255 |       | None        | 255 x
              | get           | (255..)   |       | None        | 255 x
              | drain         | (255..)   |       |             | 255 x
              | drain         | 255..=255 |       |             | 255 x
              | replace_range | (255..)   |       | ok          | 255 x
              | drain         | 0..=255   |       | 255 x       |
        255 x | replace_range | 0..=255   | x     | ok          | x
        new   | replace_range | 0..0      | 256 x | OutOfBounds |
        # player: calls 255 | the last indices of a part
        255 x | slice                                           | 0..255     | | 255 x | 255 x
              | slice                                           | ..255      | | 255 x | 255 x
              | slice                                           | 0..=254    | | 255 x | 255 x
              | slice                                           | [0..255)   | | 255 x | 255 x
              | slice                                           | (..254]    | | 255 x | 255 x
              | slice                                           | 255..      | |       | 255 x
              | slice                                           | 255..255   | |       | 255 x
              | slice                                           | 255..=254  | |       | 255 x
              | slice                                           | (254..255) | |       | 255 x
              | slice                                           | 0..=255    | | None  | 255 x
              | slice                                           | 255..=255  | | None  | 255 x
              | slice                                           | (254..255] | | None  | 255 x
              | slice                                           | (255..)    | | None  | 255 x
              | slice                                           | (255..255) | | None  | 255 x
              | slice                                           | (255..255] | | None  | 255 x
              | make_ascii_uppercase_in make_ascii_lowercase_in | 255..      | | ok    | 255 x
              | make_ascii_uppercase_in make_ascii_lowercase_in | 255..255   | | ok    | 255 x
              | make_ascii_uppercase_in make_ascii_lowercase_in | 255..=254  | | ok    | 255 x
              | make_ascii_uppercase_in make_ascii_lowercase_in | (254..255) | | ok    | 255 x
              | make_ascii_uppercase_in make_ascii_lowercase_in | 0..=255    | | None  | 255 x
              | make_ascii_uppercase_in make_ascii_lowercase_in | 255..=255  | | None  | 255 x
              | make_ascii_uppercase_in make_ascii_lowercase_in | (254..255] | | None  | 255 x
              | make_ascii_uppercase_in make_ascii_lowercase_in | (255..)    | | None  | 255 x
              | make_ascii_uppercase_in make_ascii_lowercase_in | (255..255] | | None  | 255 x
              | make_ascii_uppercase_in                         | 0..255     | | ok    | XXXXXXXXXXXXXXXXXXXXXXXXXXXXXXXXXXXXXXXXXXXXXXXXXXXXXXXXXXXXXXXXXXXXXXXXXXXXXXXXXXXXXXXXXXXXXXXXXXXXXXXXXXXXXXXXXXXXXXXXXXXXXXXXXXXXXXXXXXXXXXXXXXXXXXXXXXXXXXXXXXXXXXXXXXXXXXXXXXXXXXXXXXXXXXXXXXXXXXXXXXXXXXXXXXXXXXXXXXXXXXXXXXXXXXXXXXXXXXXXXXXXXXXXXXXXXXX
              | make_ascii_lowercase_in                         | 0..=254    | | ok    | 255 x
        again | make_ascii_lowercase_in                         | ..255      | | ok    | 255 x
        again | make_ascii_lowercase_in                         | (..254]    | | ok    | 255 x
        again | make_ascii_lowercase_in                         | [0..255)   | | ok    | 255 x
        # player: calls 300 | the last indices
        255 x | replace_range | 255.. | x | OutOfBounds | 255 x
        # player: calls 0 | a string of no bytes
        new | replace_range           | 0..0  |   | ok          |
            | replace_range           | ..    | x | OutOfBounds |
            | get                     | ..    |   |             |
            | get                     | ..=0  |   | None        |
            | make_ascii_uppercase_in | 0..=0 |   | None        |
            | make_ascii_lowercase_in | 0..=0 |   | None        |
            | drain                   | ..    |   |             |
            | drain                   | ..=0  |   | OutOfBounds |
        # player: calls 23 | bounds that no contract knows
        ABCD🤔 | get                   | ~[1..3)       |    | BC          | ABCD🤔
              | drain                 | ~[1..3)       |    | BC          | AD🤔
        ABCD🤔 | replace_range         | ~[1..3)       | x  | ok          | AxD🤔
        ABCD🤔 | get                   | ~(0..2]       |    | BC          | ABCD🤔
              | drain                 | ~(0..2]       |    | BC          | AD🤔
        ABCD🤔 | replace_range         | ~(0..2]       | x  | ok          | AxD🤔
        ABCD🤔 | get                   | ~[4..)        |    | 🤔           | ABCD🤔
              | drain                 | ~[4..)        |    | 🤔           | ABCD
        ABCD🤔 | replace_range         | ~[4..)        | x  | ok          | ABCDx
        ABCD🤔 | get                   | ~(..0]        |    | A           | ABCD🤔
              | drain                 | ~(..0]        |    | A           | BCD🤔
        ABCD🤔 | replace_range         | ~(..0]        | x  | ok          | xBCD🤔
        ABCD🤔 | get                   | ~[5..)        |    | None        | ABCD🤔
              | drain                 | ~[5..)        |    | Utf8        | ABCD🤔
              | replace_range         | ~[5..)        | x  | Utf8        | ABCD🤔
        ABCD🤔 | get                   | ~[3..2)       |    | None        | ABCD🤔
              | drain                 | ~[3..2)       |    | OutOfBounds | ABCD🤔
              | replace_range         | ~[3..2)       | x  | OutOfBounds | ABCD🤔
        ABCD🤔 | drain_counted         | ~[1..2]       |    | BC          | AD🤔      | 5
              | replace_range_counted | ~[1..2]       |    | Utf8        | AD🤔      | 0
        ABCD🤔 | get                   | exhausted     |    |             | ABCD🤔
              | drain                 | exhausted     |    |             | ABCD🤔
              | drain_counted         | exhausted     |    |             | ABCD🤔    | 0
              | replace_range         | exhausted     | xy | ok          | ABCxyD🤔
              | replace_range_counted | exhausted     | z  | ok          | ABCzxyD🤔 | 7
        é     | get                   | exhausted     |    | None        | é
              | drain                 | exhausted     |    | OutOfBounds | é
        ",
    );
}

#[test]
fn a_full_text_is_replaced(rt: HostRuntime) {
    let mut text = ArrayString::<4>::from("abcd");
    agree(&rt, "all", text.replace_range(0..4, "x"), Ok(()));
    agree(&rt, "one letter", text.as_str(), "x");
    let mut text = ArrayString::<4>::from("abcd");
    let refused = Err(Error::OutOfBounds);
    agree(&rt, "none", text.replace_range(0..0, "xy"), refused);
    agree(&rt, "the text", text.as_str(), "abcd");
}
