//! The order, the equality and the hash of strings, and what is added to them by `+` and written to them, on
//! values worked out by hand. For the order and the equality the texts are also of each size that a string
//! has, and differ at each index.
ghost use Rattle.std.specs.Prelude.{◌≤◌};

use super::calls::check_blocks;
use super::table::{agree, hash_of};
use arraystring::{ArrayString, CacheString};
use std::cmp::Ordering;
use std::process::Abort;
use test_support::table::{LETTERS, MANY_LETTERS, column, rows};

#[test]
fn orders_and_additions(rt: HostRuntime) {
    check_blocks(
        &rt,
        "
        # player: calls 8 | texts are ordered by their characters
        \u{FFFF} | cmp | | \u{10000} | Less    | \u{FFFF}
        a        | cmp | | ab        | Less    | a
        ab       | cmp | | b         | Less    | ab
        b        | cmp | | ab        | Greater | b
        é        | cmp | | z         | Greater | é
        a🤔      | cmp | | a🤔       | Equal   | a🤔
        new      | cmp | | \0        | Less    |
        # player: calls 23 | texts are ordered by their characters
        \u{FFFF} | cmp | | \u{10000} | Less    | \u{FFFF}
        a        | cmp | | ab        | Less    | a
        ab       | cmp | | b         | Less    | ab
        b        | cmp | | ab        | Greater | b
        é        | cmp | | z         | Greater | é
        a🤔      | cmp | | a🤔       | Equal   | a🤔
        new      | cmp | | \0        | Less    |
        # player: calls 4 | what lies behind the text is not compared
        abcd | pop  | |     | d     | abc
             | cmp  | | abc | Equal | abc
             | hash | | abc | ok    | abc
        # player: calls 3 | what does not fit is cut or refused
        ab  | add       | | cd | ok    | abc
        ab  | add       | | é  | ok    | ab
            | add       | |    | ok    | ab
        new | write_str | | ab | ok    | ab
            | write_str | | cd | Error | ab
            | write_str | | c  | ok    | abc
        ",
    );
}

#[test]
fn a_string_that_was_trimmed_is_as_one_made_at_once(rt: HostRuntime) {
    let mut trimmed = ArrayString::<8>::from("  abcdef");
    trimmed.trim();
    agree(&rt, "added", trimmed.try_push_str("xy"), Ok(()));
    let at_once = ArrayString::<8>::from("abcdefxy");
    agree(&rt, "equal", trimmed, at_once);
    agree(&rt, "the hash", hash_of(&trimmed), hash_of(&at_once));
    let order = trimmed.cmp(&at_once);
    agree(&rt, "the order", order, Ordering::Equal);
    let value = trimmed.to_value(rt.alloc()).expect(&rt, "memory for it");
    let wanted = at_once.to_value(rt.alloc());
    agree(&rt, "the value", Ok(value), wanted);
}

#[test]
fn a_string_that_was_drained_is_hashed_as_one_made_at_once(rt: HostRuntime) {
    let mut drained = ArrayString::<8>::from("xyab");
    let _ = drained.drain(..2);
    let at_once = ArrayString::<8>::from("ab");
    agree(&rt, "the hash", hash_of(&drained), hash_of(&at_once));
}

/// Asserts the order of pairs of texts in strings of one capacity. The columns of a row are
///
///     less | greater
///
/// where the less takes no more bytes than the greater. Each pair stands at each index among letters, in texts of each
/// size. It is compared `sizes` times in all, and of these `short` times in other types, too.
fn check_orders<const N: usize>(rt: &impl Abort, table: &str, sizes: u32, short: u32)
    requires { N ≤ 300 }
{
    let mut compared = (0u32, 0u32);
    for row in rows(table) {
        for index in 0..ArrayString::<N>::capacity() as usize {
            let (sizes, short) = check_pair::<N>(rt, row, index);
            compared = (
                compared.0.wrapping_add(sizes),
                compared.1.wrapping_add(short),
            );
        }
    }
    agree(rt, table, compared, (sizes, short));
}

/// Asserts the order of the pair of a row behind `index` letters. What follows the pair would give the opposite order,
/// or no order, and nothing follows in the shortest text. One text begins at offset 0 of its array, and the other there
/// or behind it. The letters before the pair alone are less than either. Returns how often the pair was compared, which
/// is never if it does not fit, and how often in other types.
fn check_pair<const N: usize>(rt: &impl Abort, row: &str, index: usize) -> (u32, u32)
    requires { N ≤ 300 }
{
    let (less, greater) = (column(row, 0), column(row, 1));
    let capacity = ArrayString::<N>::capacity() as usize;
    let Some(room) = capacity.checked_sub(index.saturating_add(greater.len())) else {
        return (0, 0);
    };
    let (mut sizes, mut short) = (0u32, 0u32);
    let front = MANY_LETTERS.get(..index).unwrap_or_default();
    let offset = index.wrapping_mul(7) % (room + 1);
    let before = behind::<N>(offset, [front, "", ""]);
    let shortest = behind::<N>(offset, [front, greater, ""]);
    let mut low = behind::<N>(0, [front, less, LETTERS]);
    let mut high = behind::<N>(0, [front, greater, MANY_LETTERS]);
    let mut alone = behind::<N>(offset, [front, greater, LETTERS]);
    let mut moved = behind::<N>(offset, [front, greater, MANY_LETTERS]);
    is_less(rt, row, &low.as_str(), &high.as_str());
    for cut in 0..room + 1 {
        let size = capacity - cut;
        let _ = low.truncate(size as u8);
        let _ = high.truncate(size as u8);
        let _ = alone.truncate(size as u8);
        let _ = moved.truncate(size as u8);
        is_less(rt, row, &low, &high);
        is_less(rt, row, &low, &alone);
        is_less(rt, row, &low, &moved);
        is_less(rt, row, &low, &shortest);
        is_less(rt, row, &before, &low);
        agree(rt, row, high.cmp(&moved), high.len().cmp(&moved.len()));
        agree(rt, row, high == moved, high.len() == moved.len());
        if size < 64 {
            of_other_types(rt, row, low, moved);
            short = short.wrapping_add(1);
        }
        sizes = sizes.wrapping_add(1);
    }
    (sizes, short)
}

/// Asserts the order of two `CacheString` of the same texts, and of drains of all of the two strings.
fn of_other_types<const N: usize>(
    rt: &impl Abort,
    row: &str,
    mut less: ArrayString<N>,
    mut greater: ArrayString<N>,
)
    requires { N ≤ 300 }
{
    let cached = CacheString::from_str_truncate(less.as_str());
    let other = CacheString::from_str_truncate(greater.as_str());
    is_less(rt, row, &cached, &other);
    let drained = less.drain(..).unwrap_or_default();
    let other = greater.drain(..).unwrap_or_default();
    is_less(rt, row, &drained, &other);
}

/// A string whose text begins at `offset` of the array: the three parts, joined and cut to what fits there.
fn behind<const N: usize>(offset: usize, parts: [&str; 3]) -> ArrayString<N>
    requires { N ≤ 300 }
{
    let mut string = ArrayString::from(LETTERS.get(..offset).unwrap_or_default());
    let start = string.len();
    string.push_str(parts[0]);
    string.push_str(parts[1]);
    string.push_str(parts[2]);
    let _ = string.drain(..start);
    string
}

/// Asserts that a value is less than another by each comparison.
fn is_less<T: Ord>(rt: &impl Abort, row: &str, less: &T, greater: &T) {
    let results = [
        less < greater,
        less != greater,
        less.cmp(greater).is_lt(),
        greater.cmp(less).is_gt(),
    ];
    agree(rt, row, results, [true; 4]);
}

/// The greater text of a pair has `w` bytes. At index 0 the pair is compared in `capacity - w + 1` sizes, and at each
/// next index in one size fewer. So it is compared in as many sizes as the sum of the numbers from 1 to `capacity - w +
/// 1`. Of these sizes as many as the sum of the numbers from 1 to `64 - w` are below 64.
#[test]
fn texts_of_each_size_are_ordered(rt: HostRuntime) {
    check_orders::<255>(
        &rt,
        "
        # player: orders 255
        a        | b
        \u{7F}   | \u{80}
        è        | é
        \u{FFFF} | \u{10000}
        ",
        32640 + 2 * 32385 + 31878,
        2016 + 2 * 1953 + 1830,
    );
    check_orders::<128>(
        &rt,
        "
        # player: orders 128
        a | é
        ",
        8128,
        1953,
    );
    check_orders::<63>(
        &rt,
        "
        # player: orders 63
        \u{7F} | 🤔
        ",
        1830,
        1830,
    );
}
