//! Tables of calls. The first line is `# player: calls 8`, if 8 is the capacity. The columns of a row are
//!
//!     text before | call | index or range | what is given | result | text after | number
//!
//! With no text before, the call goes on with the string that the row above left; `new` is a new
//! string, and `again` the last one that a row began with. Several calls may be in a row, each on
//! the text before. A text in quotes keeps its spaces, and `255 x` is a text of 255 letters.
//! Pieces are written with `,` between them.
//!
//! The result is a text or a character itself, `ok` for a call that returns nothing, `None`, or the
//! name of the refusal; bytes are as `{:?}` writes them. An unchecked call is made if its
//! conditions hold, and else gives `None`. The number is what `len` and `capacity` return, how many
//! bytes `pop_counted` looked at, and how many bytes any other call that counts moved.
//!
//! A range is written as in Rust, or as two bounds in brackets: `(` and `)` exclude an index, `[`
//! and `]` include it. With `~` before them, it is of a type that does not say its bounds, and
//! `exhausted` is an inclusive range that was iterated to its end.
ghost use Rattle.std.specs.Prelude.{◌≤◌};

use super::call_list::{index_calls, range_calls, whole_calls};
use super::table::{agree, character, hash_of, number, returned, string};
use arraystring::utils::{Steps, is_char_boundary};
use arraystring::{ArrayString, MaxString};
use std::fmt::Write;
use std::ops::{Bound, RangeBounds, RangeInclusive};
use std::process::Abort;
use test_support::table::{column, rows};

/// Makes the calls of several tables in one text. The first line of each has its capacity.
pub(crate) fn check_blocks(rt: &(impl Abort + AllocGlobal), table: &str) {
    for block in table.split('#') {
        let (heading, rows) = block.split_once('\n').unwrap_or_default();
        let capacity = column(heading, 0).strip_prefix("player: calls ");
        let capacity = capacity.unwrap_or_default().parse().unwrap_or(u16::MAX);
        if !check_block(rt, capacity, rows) {
            agree(rt, "rows of no such capacity", block.trim(), "");
        }
    }
}

/// Makes the calls of such a table. If no string here has its capacity, the function returns `false`.
fn check_block(rt: &(impl Abort + AllocGlobal), capacity: u16, rows: &str) -> bool {
    match capacity {
        0 => check_rows::<0>(rt, rows),
        1 => check_rows::<1>(rt, rows),
        3 => check_rows::<3>(rt, rows),
        4 => check_rows::<4>(rt, rows),
        5 => check_rows::<5>(rt, rows),
        8 => check_rows::<8>(rt, rows),
        9 => check_rows::<9>(rt, rows),
        10 => check_rows::<10>(rt, rows),
        23 => check_rows::<23>(rt, rows),
        32 => check_rows::<32>(rt, rows),
        255 => check_rows::<255>(rt, rows),
        300 => check_rows::<300>(rt, rows),
        _ => return false,
    }
    true
}

/// Makes the calls of a table on strings of one capacity, the first on a default string if its row
/// says no other, and asserts what each returns and leaves.
pub(crate) fn check_rows<const N: usize>(rt: &(impl Abort + AllocGlobal), table: &str)
    requires { N ≤ 300 }
{
    let mut text = ArrayString::<N>::default();
    let mut first = text;
    for row in rows(table) {
        match column(row, 0) {
            "" => first = text,
            "again" => {}
            "new" => first = ArrayString::new(),
            before => first = string(before),
        }
        text = first;
        check_row(rt, &mut text, row);
    }
}

/// Makes each call of a row, and asserts what it returns and leaves.
pub(crate) fn check_row<R: Abort + AllocGlobal, const N: usize>(
    rt: &R,
    text: &mut ArrayString<N>,
    row: &str,
)
    requires { N ≤ 300 }
{
    let before = *text;
    let after = column(row, 5);
    for call in column(row, 1).split(' ') {
        *text = before;
        let was_made = whole(rt, text, call, row)
            || by_hand(rt, text, call, row)
            || compared(rt, text, call, row)
            || counted(rt, text, call, row)
            || at_index(rt, text, call, row)
            || in_range(rt, text, call, row);
        agree(rt, call, was_made, true);
        agree(rt, row, text.as_str(), after);
        agree(rt, row, text.as_bytes(), after.as_bytes());
        agree(rt, row, text.len() as usize, after.len());
        agree(rt, row, text.is_empty(), after.is_empty());
    }
}

/// What a call of a list is given.
macro_rules! given {
    (ch, $rt:ident $row:ident $range:ident) => { character($rt, $row, 3) };
    (text, $rt:ident $row:ident $range:ident) => { column($row, 3) };
    (chars, $rt:ident $row:ident $range:ident) => { column($row, 3).chars() };
    (pieces, $rt:ident $row:ident $range:ident) => { column($row, 3).split(',') };
    (index, $rt:ident $row:ident $range:ident) => { number($rt, $row, 2) };
    (range, $rt:ident $row:ident $range:ident) => { $range };
}

/// Makes the call of a row that is in a list, and asserts what it returns. If there is none, the
/// function returns `false`.
macro_rules! make {
    (
        ($rt:ident $row:ident $range:ident $string:ident.$call:ident)
        $($name:ident($($given:ident)*))*
    ) => {
        match $call {
            $(stringify!($name) => {
                let result = $string.$name($(given!($given, $rt $row $range)),*);
                returned($rt, $row, result);
            })*
            _ => return false,
        }
    };
}

/// The calls of a list that are given no index and no counter. Like each function below, it makes
/// the call of a row, asserts what it returns, and returns whether it has such a call.
fn whole<R: Abort + AllocGlobal, const N: usize>(
    rt: &R,
    text: &mut ArrayString<N>,
    call: &str,
    row: &str,
) -> bool {
    whole_calls!(make (rt row range text.call));
    true
}

/// The calls that return a number, and those that need code of their own.
fn by_hand<R: Abort + AllocGlobal, const N: usize>(
    rt: &R,
    text: &mut ArrayString<N>,
    call: &str,
    row: &str,
) -> bool {
    let given = column(row, 3);
    match call {
        "add" => {
            *text = *text + given;
            returned(rt, row, ());
        }
        "len" => {
            agree(rt, row, text.len(), number(rt, row, 6));
            returned(rt, row, ());
        }
        "capacity" => {
            agree(rt, row, ArrayString::<N>::capacity(), number(rt, row, 6));
            returned(rt, row, ());
        }
        "write_str" => returned(rt, row, text.write_str(given)),
        "push_unchecked" => returned(
            rt,
            row,
            push_or_insert_unchecked(text, None, character(rt, row, 3)),
        ),
        "push_str_unchecked" => returned(rt, row, push_or_insert_str_unchecked(text, None, given)),
        "clone" => {
            let copy: Result<_, _> = text.clone();
            returned(rt, row, copy);
        }
        "retain_in_turn" => returned(rt, row, retained(text, given, "")),
        "retain_without" => {
            let _ = retained(text, "", given);
            returned(rt, row, ());
        }
        _ => return false,
    }
    true
}

/// Calls `retain`. A character is dropped if `results` has a `-` at its turn, or if it is in `dropped`. Returns the
/// characters with which the closure was called.
fn retained<const N: usize>(text: &mut ArrayString<N>, results: &str, dropped: &str) -> MaxString {
    let mut seen = MaxString::new();
    let mut results = results.chars();
    text.retain(|ch| {
        let _ = seen.try_push(ch);
        results.next() != Some('-') && !dropped.contains(ch)
    });
    seen
}

/// The calls that compare the string with that which is given: each comparison has to give their
/// order, and each hash has to be that of the text.
fn compared<R: Abort + AllocGlobal, const N: usize>(
    rt: &R,
    text: &ArrayString<N>,
    call: &str,
    row: &str,
) -> bool
    requires { N ≤ 300 }
{
    let other = &ArrayString::<N>::from(column(row, 3));
    match call {
        "cmp" => {
            let order = text.cmp(other);
            agree(rt, row, text.partial_cmp(other), Some(order));
            agree(rt, row, *text == *other, order.is_eq());
            agree(rt, row, *text != *other, order.is_ne());
            returned(rt, row, order);
        }
        "hash" => {
            let hash = hash_of(text);
            agree(rt, row, hash, hash_of(other));
            agree(rt, row, hash, hash_of(&other.as_str()));
            returned(rt, row, ());
        }
        _ => return false,
    }
    true
}

/// Adds `ch` by `push_unchecked`, or puts it before an index by `insert_unchecked`, if the
/// conditions hold.
fn push_or_insert_unchecked<const N: usize>(
    text: &mut ArrayString<N>,
    index: Option<u8>,
    ch: char,
) -> Option<()> {
    let size = text.len() as usize + ch.len_utf8();
    if size > ArrayString::<N>::capacity() as usize {
        return None;
    }
    let Some(index) = index else {
        text.push_unchecked(ch);
        return Some(());
    };
    let Ok(()) = is_char_boundary(text, index) else {
        return None;
    };
    text.insert_unchecked(index, ch);
    Some(())
}

/// Adds `given` by `push_str_unchecked`, or puts it before an index by `insert_str_unchecked`, if
/// the conditions hold.
fn push_or_insert_str_unchecked<const N: usize>(
    text: &mut ArrayString<N>,
    index: Option<u8>,
    given: &str,
) -> Option<()> {
    let size = text.len() as usize + given.len();
    if size > ArrayString::<N>::capacity() as usize {
        return None;
    }
    let Some(index) = index else {
        text.push_str_unchecked(given);
        return Some(());
    };
    let Ok(()) = is_char_boundary(text, index) else {
        return None;
    };
    text.insert_str_unchecked(index, given);
    Some(())
}

/// The calls that count, but those on a range.
fn counted<R: Abort + AllocGlobal, const N: usize>(
    rt: &R,
    text: &mut ArrayString<N>,
    call: &str,
    row: &str,
) -> bool {
    let mut steps = Steps::new();
    let given = column(row, 3);
    match call {
        "pop_counted" => returned(rt, row, text.pop_counted(&mut steps)),
        "trim_counted" => returned(rt, row, text.trim_counted(&mut steps)),
        "remove_counted" => {
            let index = number(rt, row, 2);
            returned(rt, row, text.remove_counted(index, &mut steps));
        }
        "try_insert_str_counted" => {
            let index = number(rt, row, 2);
            returned(
                rt,
                row,
                text.try_insert_str_counted(index, given, &mut steps),
            );
        }
        _ => return false,
    }
    let count = number(rt, row, 6) as u64;
    if call == "pop_counted" {
        agree(rt, row, steps.looked(), count);
        agree(rt, row, steps.moved(), 0);
    } else {
        agree(rt, row, steps.moved(), count);
    }
    true
}

/// The calls at an index.
fn at_index<R: Abort + AllocGlobal, const N: usize>(
    rt: &R,
    text: &mut ArrayString<N>,
    call: &str,
    row: &str,
) -> bool
    requires { N ≤ 300 }
{
    let Ok(index) = column(row, 2).parse::<u8>() else {
        return false;
    };
    let given = column(row, 3);
    match call {
        "is_char_boundary" => returned(rt, row, is_char_boundary(text, index)),
        "insert_unchecked" => returned(
            rt,
            row,
            push_or_insert_unchecked(text, Some(index), character(rt, row, 3)),
        ),
        "insert_str_unchecked" => returned(
            rt,
            row,
            push_or_insert_str_unchecked(text, Some(index), given),
        ),
        _ => index_calls!(make (rt row range text.call)),
    }
    true
}

/// Makes the call of a row that wants a part of the text, and asserts what it returns.
macro_rules! part {
    ($rt:ident $row:ident $text:ident.$call:ident $range:expr) => {
        if $text.get($range).is_none() {
            returned($rt, $row, None::<&str>);
        } else if $call == "slice" {
            returned($rt, $row, $text.slice($range));
        } else if $call == "make_ascii_uppercase_in" {
            returned($rt, $row, $text.make_ascii_uppercase_in($range));
        } else {
            returned($rt, $row, $text.make_ascii_lowercase_in($range));
        }
    };
}

/// The calls on a range.
fn in_range<R: Abort + AllocGlobal, const N: usize>(
    rt: &R,
    text: &mut ArrayString<N>,
    call: &str,
    row: &str,
) -> bool
    requires { N ≤ 300 }
{
    let given = column(row, 2);
    let sign = given.chars().next().unwrap_or(' ');
    if sign == 'e' {
        return of_range(rt, text, call, row, exhausted());
    }
    let (start, end) = given.split_once("..").expect(rt, "a range in the column");
    if sign == '~' || sign == '(' || sign == '[' {
        let (first, last) = (bound(rt, start), bound(rt, end));
        if sign == '~' {
            return of_range(rt, text, call, row, Opaque { first, last });
        }
        if wants_a_part(call) {
            part_in_bounds(rt, text, call, row, first, last);
            return true;
        }
        return of_range(rt, text, call, row, (first, last));
    }
    if wants_a_part(call) {
        part_in_rust_range(rt, text, call, row, start, end);
        return true;
    }
    in_rust_range(rt, text, call, row, start, end)
}

/// Whether a call wants a part of the text, so that it is made only if `get` finds one.
fn wants_a_part(call: &str) -> bool {
    matches!(
        call,
        "slice" | "make_ascii_uppercase_in" | "make_ascii_lowercase_in"
    )
}

/// The calls that want a part of the text, on two bounds.
fn part_in_bounds<R: Abort + AllocGlobal, const N: usize>(
    rt: &R,
    text: &mut ArrayString<N>,
    call: &str,
    row: &str,
    first: Bound<u8>,
    last: Bound<u8>,
) {
    part!(rt row text.call (first, last));
}

/// The calls that want a part of the text, on a range of Rust with these ends.
fn part_in_rust_range<R: Abort + AllocGlobal, const N: usize>(
    rt: &R,
    text: &mut ArrayString<N>,
    call: &str,
    row: &str,
    start: &str,
    end: &str,
) {
    let (first, last) = (index(rt, start), index(rt, end));
    let is_inclusive = end.starts_with('=');
    if end.is_empty() {
        part_to_the_end(rt, text, call, row, !start.is_empty(), first);
    } else if start.is_empty() {
        part_from_the_start(rt, text, call, row, is_inclusive, last);
    } else {
        part_between(rt, text, call, row, is_inclusive, first, last);
    }
}

/// Those calls on `first..`, or on `..` if no start is written.
fn part_to_the_end<R: Abort + AllocGlobal, const N: usize>(
    rt: &R,
    text: &mut ArrayString<N>,
    call: &str,
    row: &str,
    has_start: bool,
    first: u8,
) {
    if has_start {
        part!(rt row text.call first..);
    } else {
        part!(rt row text.call ..);
    }
}

/// Those calls on `..=last` or `..last`.
fn part_from_the_start<R: Abort + AllocGlobal, const N: usize>(
    rt: &R,
    text: &mut ArrayString<N>,
    call: &str,
    row: &str,
    is_inclusive: bool,
    last: u8,
) {
    if is_inclusive {
        part!(rt row text.call ..=last);
    } else {
        part!(rt row text.call ..last);
    }
}

/// Those calls on `first..=last` or `first..last`.
fn part_between<R: Abort + AllocGlobal, const N: usize>(
    rt: &R,
    text: &mut ArrayString<N>,
    call: &str,
    row: &str,
    is_inclusive: bool,
    first: u8,
    last: u8,
) {
    if is_inclusive {
        part!(rt row text.call first..=last);
    } else {
        part!(rt row text.call first..last);
    }
}

/// The calls on a range of Rust with these ends.
fn in_rust_range<R: Abort + AllocGlobal, const N: usize>(
    rt: &R,
    text: &mut ArrayString<N>,
    call: &str,
    row: &str,
    start: &str,
    end: &str,
) -> bool
    requires { N ≤ 300 }
{
    let (first, last) = (index(rt, start), index(rt, end));
    match (start.is_empty(), end.is_empty(), end.starts_with('=')) {
        (true, true, _) => of_range(rt, text, call, row, ..),
        (false, true, _) => of_range(rt, text, call, row, first..),
        (true, false, true) => of_range(rt, text, call, row, ..=last),
        (true, false, false) => of_range(rt, text, call, row, ..last),
        (false, false, true) => of_range(rt, text, call, row, first..=last),
        (false, false, false) => of_range(rt, text, call, row, first..last),
    }
}

/// Makes the call of a row on a range.
fn of_range<R: Abort + AllocGlobal, B: RangeBounds<u8> + Drop, const N: usize>(
    rt: &R,
    text: &mut ArrayString<N>,
    call: &str,
    row: &str,
    range: B,
) -> bool
    requires { N ≤ 300 }
{
    let mut steps = Steps::new();
    match call {
        "drain_counted" => returned(rt, row, text.drain_counted(range, &mut steps)),
        "replace_range_counted" => {
            let given = column(row, 3);
            returned(
                rt,
                row,
                text.replace_range_counted(range, given, &mut steps),
            );
        }
        _ => range_calls!(make (rt row range text.call)),
    }
    if call.ends_with("_counted") {
        agree(rt, row, steps.moved(), number(rt, row, 6) as u64);
    }
    true
}

/// A range type for which no contract says which bounds it has.
#[derive(Drop)]
struct Opaque {
    first: Bound<u8>,
    last: Bound<u8>,
}

impl RangeBounds<u8> for Opaque {
    fn start_bound(&self) -> Bound<&u8> {
        self.first.as_ref()
    }

    fn end_bound(&self) -> Bound<&u8> {
        self.last.as_ref()
    }
}

/// `1..=3` after all three numbers were taken from it: it is empty and is at 3.
fn exhausted() -> RangeInclusive<u8> {
    let mut range = 1..=3;
    for _ in 0..3 {
        let _ = range.next();
    }
    range
}

/// The index that is written at an end of a range, without a `=` before it. If none is written, it is 0 and
/// not used.
fn index(rt: &impl Abort, written: &str) -> u8 {
    let digits = written.trim_start_matches('=');
    if digits.is_empty() {
        return 0;
    }
    digits.parse().expect(rt, "an index in the range")
}

/// The bound that is written with its bracket, as `[3` or `3)`.
fn bound(rt: &impl Abort, written: &str) -> Bound<u8> {
    let written = written.trim_start_matches('~');
    let excluded = written.trim_matches('(').trim_matches(')');
    if excluded.is_empty() {
        return Bound::Unbounded;
    }
    if excluded.len() < written.len() {
        return Bound::Excluded(index(rt, excluded));
    }
    Bound::Included(index(rt, written.trim_matches('[').trim_matches(']')))
}
