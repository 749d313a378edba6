//! Units, and strings of units, worked out by hand by the rules of the Unicode Standard, section 3.9: a
//! pair is 10000 + (high - D800) * 400 + (low - DC00) in hexadecimal, and any other surrogate is lone.
ghost use Rattle.std.specs.Prelude.{◌≤◌};

use super::table::{agree, text_or_error};
use arraystring::utf16::{Unit16, Units};
use arraystring::{ArrayString, Error};
use std::process::Abort;
use test_support::table::{column, rows};

/// Asserts what the constructors make of units at one capacity. The columns of a row are
///
///     units in hexadecimal | `try_from_utf16` | `from_utf16` | `from_utf16_lossy`
///
/// Each of the last three has the text that its call makes, or the name of its refusal.
fn check_texts_of_units<const N: usize>(rt: &impl Abort, table: &str)
    requires { N ≤ 300 }
{
    for row in rows(table) {
        let (units, count) = units_of(rt, column(row, 0));
        check_row::<N>(rt, units.get(..count).unwrap_or_default(), row);
    }
}

/// The units that are written in a column, and how many they are.
fn units_of(rt: &impl Abort, written: &str) -> ([u16; 8], usize) {
    let mut units = [0; 8];
    let mut count = 0usize;
    for digits in written.split_whitespace() {
        if let Some(unit) = units.get_mut(count) {
            *unit = u16::from_str_radix(digits, 16).expect(rt, "a unit in the column");
            count = count.wrapping_add(1);
        }
    }
    (units, count)
}

/// Asserts what a row says of these units.
fn check_row<const N: usize>(rt: &impl Abort, units: &[u16], row: &str)
    requires { N ≤ 300 }
{
    let made = text_or_error(&ArrayString::<N>::try_from_utf16(units));
    agree(rt, row, made.as_str(), column(row, 1));
    let cut = text_or_error(&ArrayString::<N>::from_utf16(units).map_err(Error::from));
    agree(rt, row, cut.as_str(), column(row, 2));
    let lossy = ArrayString::<N>::from_utf16_lossy(units);
    agree(rt, row, lossy.as_str(), column(row, 3));
}

/// Asserts what units are read as. The columns are units in hexadecimal, and characters and lone
/// surrogates in hexadecimal. After the last of these nothing is read any more.
fn check_units(rt: &impl Abort, table: &str) {
    for row in rows(table) {
        let (units, count) = units_of(rt, column(row, 0));
        let mut items = Units::new(units.get(..count).unwrap_or_default());
        for word in column(row, 1).split_whitespace() {
            let wanted = match word.parse::<char>() {
                Ok(ch) => Unit16::Char(ch),
                Err(_) => Unit16::Lone(u16::from_str_radix(word, 16).unwrap_or_default()),
            };
            agree(rt, row, items.next(), Some(wanted));
        }
        agree(rt, row, (items.next(), items.next()), (None, None));
    }
}

#[test]
fn units_are_read(rt: HostRuntime) {
    check_units(
        &rt,
        "
        # player: units
                                                |
        D834 DD1E 6D 75                         | 𝄞 m u
        D800 DC00 D800 DFFF DBFF DC00 DBFF DFFF | \u{10000} \u{103FF} \u{10FC00} \u{10FFFF}
        0 D7FF E000 FFFF                        | \0 \u{D7FF} \u{E000} \u{FFFF}
        D800 E000 DFFF D7FF DC00                | D800 \u{E000} DFFF \u{D7FF} DC00
        D800 61 DC00 D834                       | D800 a DC00 D834
        D800 DBFF DFFF                          | D800 \u{10FFFF}
        DC00 D800                               | DC00 D800
        D800 DC00 DC00                          | \u{10000} DC00
        ",
    );
}

#[test]
fn what_is_made_of_units(rt: HostRuntime) {
    check_texts_of_units::<23>(
        &rt,
        "
        # player: texts_of_units 23
        D834 DD1E 6D 75 73 69 63    | 𝄞music | 𝄞music | 𝄞music
        D834 DD1E 6D 75 D800 69 63  | Utf16  | Utf16  | 𝄞mu\u{FFFD}ic
        D800 D834 DD1E              | Utf16  | Utf16  | \u{FFFD}𝄞
        61 D83E                     | Utf16  | Utf16  | a\u{FFFD}
        D83E D83E DD14              | Utf16  | Utf16  | \u{FFFD}🤔
        DD14 D83E                   | Utf16  | Utf16  | \u{FFFD}\u{FFFD}
        ",
    );
    check_texts_of_units::<0>(
        &rt,
        "
        # player: texts_of_units 0
                |             |       |
        D800    | Utf16       | Utf16 |
        61 D800 | OutOfBounds |       |
        ",
    );
    check_texts_of_units::<1>(
        &rt,
        "
        # player: texts_of_units 1
        D800 | Utf16 | Utf16 |
        ",
    );
    check_texts_of_units::<2>(
        &rt,
        "
        # player: texts_of_units 2
        D800          | Utf16       | Utf16 |
        61 62 D800    | Utf16       | Utf16 | ab
        61 62 63 D800 | OutOfBounds | ab    | ab
        ",
    );
    check_texts_of_units::<3>(
        &rt,
        "
        # player: texts_of_units 3
        D800       | Utf16       | Utf16 | \u{FFFD}
        61 D800 62 | Utf16       | Utf16 | a
        D800 DC00  | OutOfBounds |       |
        DBFF DFFF  | OutOfBounds |       |
        ",
    );
    check_texts_of_units::<4>(
        &rt,
        "
        # player: texts_of_units 4
        61 D800 62 | Utf16      | Utf16      | a\u{FFFD}
        D800 DC00  | \u{10000}  | \u{10000}  | \u{10000}
        DBFF DFFF  | \u{10FFFF} | \u{10FFFF} | \u{10FFFF}
        ",
    );
    // what comes first decides: a character that does not fit, or a lone surrogate
    check_texts_of_units::<5>(
        &rt,
        "
        # player: texts_of_units 5
        D834 DD1E E9 D800 | OutOfBounds | 𝄞 | 𝄞
        D834 DD1E E9 61   | OutOfBounds | 𝄞 | 𝄞
        ",
    );
    check_texts_of_units::<6>(
        &rt,
        "
        # player: texts_of_units 6
        D834 DD1E E9 D800 | Utf16 | Utf16 | 𝄞é
        ",
    );
    check_texts_of_units::<8>(
        &rt,
        "
        # player: texts_of_units 8
        D7FF E000 FFFF | OutOfBounds | \u{D7FF}\u{E000} | \u{D7FF}\u{E000}
        ",
    );
    check_texts_of_units::<9>(
        &rt,
        "
        # player: texts_of_units 9
        D7FF E000 FFFF       | \u{D7FF}\u{E000}\u{FFFF} | \u{D7FF}\u{E000}\u{FFFF} | \u{D7FF}\u{E000}\u{FFFF}
        61 E9 20AC D83E DD14 | OutOfBounds | aé€ | aé€
        ",
    );
    check_texts_of_units::<10>(
        &rt,
        "
        # player: texts_of_units 10
        61 E9 20AC D83E DD14 | aé€🤔 | aé€🤔 | aé€🤔
        ",
    );
    // more units than fit into any string
    let row = "300 units|OutOfBounds|\0\0\0\0\0\0\0\0\0\0\0\0\0\0\0\0\0\0\0\0\0\0\0\
        |\0\0\0\0\0\0\0\0\0\0\0\0\0\0\0\0\0\0\0\0\0\0\0";
    agree(&rt, "the size", column(row, 2).len(), 23);
    check_row::<23>(&rt, &[0; 300], row);
}
