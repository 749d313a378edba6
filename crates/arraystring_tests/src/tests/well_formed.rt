//! Reading of UTF-8, beside what a table says and what std reads: bytes of each size that a string has
//! and a little more, with a fault or a character at each offset.
ghost use Rattle.std.specs.Prelude.{◌<◌};

use super::table::agree;
use arraystring::utils::truncate_str;
use arraystring::{Error, MaxString};
use std::process::Abort;
use std::str;
use test_support::table::{column, rows};

/// Asserts how bytes among letters are read. The columns of a row are
///
///     first byte | as far as this one | bytes behind it | read
///
/// in hexadecimal, if the last is `ok` or `Utf8`. In each size one of the first bytes in turn stands at the
/// last four offsets, so that it stands at each offset with up to three bytes behind it. It also stands at
/// each 31st offset back from `2 * size`, and in the sizes from 255 on at each offset, so that each number of
/// bytes comes behind it, up to 256. If the bytes of the row do not fit, std says how all is read. Returns how
/// many bytes were read, and in how many of these what stands in the row fits.
fn check_reading(rt: &impl Abort, table: &str) -> (u32, u32) {
    let mut bytes = [b'a'; 264];
    let mut turn = 0u8;
    let (mut read, mut fitting) = (0u32, 0u32);
    for row in rows(table) {
        let (first, last) = (byte(rt, column(row, 0)), byte(rt, column(row, 1)));
        for size in 1..258usize {
            for at in 0..size {
                if at % 31 != size * 2 % 31 && size - at > 4 && size < 255 {
                    continue;
                }
                turn = if turn < first || turn >= last {
                    first
                } else {
                    turn + 1
                };
                let end = write_bytes(rt, &mut bytes, at, turn, column(row, 2));
                let given = &bytes[..size];
                if end <= size {
                    agree(
                        rt,
                        row,
                        str::from_utf8(given).is_ok(),
                        column(row, 3) == "ok",
                    );
                    fitting = fitting.wrapping_add(1);
                }
                as_in_std(rt, row, given);
                read = read.wrapping_add(1);
                bytes[at..at + 4].copy_from_slice(b"aaaa");
            }
        }
    }
    (read, fitting)
}

/// A byte in hexadecimal.
fn byte(rt: &impl Abort, digits: &str) -> u8 {
    u8::from_str_radix(digits, 16).expect(rt, "a byte in the column")
}

/// Puts a byte and those behind it, and returns where they end.
fn write_bytes(rt: &impl Abort, bytes: &mut [u8; 264], at: usize, first: u8, rest: &str) -> usize
    requires { at < 264 }
{
    bytes[at] = first;
    let mut end = at + 1;
    for digits in rest.split_whitespace() {
        if let Some(behind) = bytes.get_mut(end) {
            *behind = byte(rt, digits);
            end = end.wrapping_add(1);
        }
    }
    end
}

/// Asserts that bytes are read whole and cut as std reads them.
fn as_in_std(rt: &impl Abort, row: &str, bytes: &[u8]) {
    let whole = MaxString::try_from_utf8(bytes);
    let cut = MaxString::from_utf8(bytes);
    match str::from_utf8(bytes) {
        Ok(text) => {
            let cut = cut.unwrap_or_default();
            agree(rt, row, cut.as_str(), truncate_str(text, 255));
            let wanted = if text.len() < 256 {
                Ok(cut)
            } else {
                Err(Error::OutOfBounds)
            };
            agree(rt, row, whole, wanted);
        }
        Err(_) => agree(
            rt,
            row,
            (whole.err(), cut.is_err()),
            (Some(Error::Utf8), true),
        ),
    }
}

/// ASCII and the bytes past it, and the first and last of each form of a character, with the nearest that
/// are none: of the Unicode Standard, table 3-7.
#[test]
fn bytes_are_read_as_in_std(rt: HostRuntime) {
    let count = check_reading(
        &rt,
        "
        # player: reading
        00 | 7F |          | ok
        80 | 80 |          | Utf8
        80 | FF |          | Utf8
        C0 | C1 | BF       | Utf8
        C2 | DF | 80       | ok
        C2 | DF | C0       | Utf8
        E0 | E0 | A0 80    | ok
        E0 | E0 | 9F BF    | Utf8
        E1 | EC | BF BF    | ok
        ED | ED | 9F BF    | ok
        ED | ED | A0 80    | Utf8
        EE | EF | 80 80    | ok
        F0 | F0 | 90 80 80 | ok
        F0 | F0 | 8F BF BF | Utf8
        F1 | F3 | BF BF BF | ok
        F4 | F4 | 8F BF BF | ok
        F4 | F4 | 90 80 80 | Utf8
        F5 | FF | 80 80 80 | Utf8
        ",
    );
    // In a size below 255 there are as many 31st offsets, without the last four, as multiples of 31 from
    // `size + 5` to `2 * size`. In all of these sizes they are 1968 - 956. The sizes from 255 on have 251, 252 and
    // 253 offsets without the last four. The last four offsets are 1,022 in all, of which 765 leave room for a
    // byte behind, 509 for two, and 254 for three.
    let before = 1012 + 756;
    let read = 18 * (before + 1022);
    let fitting = 18 * before + 3 * (1022 + 765) + 6 * (509 + 254);
    agree(&rt, "how many", count, (read, fitting));
}

/// Each byte stands at each offset among letters, as the last one and with all others behind it. It is
/// refused if it is past ASCII.
#[test]
fn each_byte_past_ascii_is_refused(rt: HostRuntime) {
    let mut bytes = [b'a'; 255];
    for at in 0..255usize {
        let mut mistaken = 0u32;
        for byte in 0..=0xFFu8 {
            bytes[at] = byte;
            let is_past = byte >= 0x80;
            let last = MaxString::from_utf8(&bytes[..at + 1]).is_err();
            let whole = MaxString::from_utf8(&bytes).is_err();
            mistaken = mistaken.wrapping_add((last != is_past || whole != is_past) as u32);
        }
        agree(&rt, "bytes that are mistaken", mistaken, 0);
        bytes[at] = b'a';
    }
}

/// A byte past ASCII is refused at each offset of each size that a string has. It is another for the next
/// offset.
#[test]
fn bytes_past_ascii_are_refused_in_each_size(rt: HostRuntime) {
    let mut bytes = [b'a'; 255];
    let mut byte = 0x80u8;
    for size in 1..256usize {
        for at in 0..size {
            bytes[at] = byte;
            let made = MaxString::from_utf8(&bytes[..size]);
            agree(&rt, "a byte past ASCII", made.is_err(), true);
            bytes[at] = b'a';
            byte = if byte == 0xFF {
                0x80
            } else {
                byte.wrapping_add(1)
            };
        }
    }
}
