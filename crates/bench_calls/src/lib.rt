//! The calls of the proved build, whose instructions the bench counts: bench/src/calls.rs has the same ones, by the same names, over the
//! strings of Rust. No other crate lists this one.
#![tactic(auto)]

ghost use Rattle.std.specs.Prelude.{◌≤◌};

use arraystring_core::ArrayString;
use std::hash::{DefaultHasher, Hash, Hasher};
use std::str;

type Text<const N: usize> = ArrayString<N>;

/// The capacity of what a call makes, which the borrow checker wants in what its closure is given.
#[derive(Drop)]
struct Of<const N: usize>;

/// A call in a function of its own, whose instructions are counted. It is given up to three values.
#[inline(never)]
fn call_measured<A, B, C, R, F: FnOnce(A, B, C) -> R>(a: A, b: B, c: C, call: F) -> R
    requires { F.IsAlwaysCallable call }
{
    call(a, b, c)
}

#[inline(never)]
fn drain_measured<const N: usize>(text: &mut Text<N>, start: u8, end: u8) -> u32
    requires { N ≤ 300 }
{
    let Ok(drained) = text.drain(start..end) else {
        return 0;
    };
    let mut sum = 0u32;
    for ch in drained {
        sum = sum.wrapping_add(ch as u32);
    }
    sum
}

#[inline(never)]
fn drain_back_measured<const N: usize>(text: &mut Text<N>, start: u8, end: u8) -> u32
    requires { N ≤ 300 }
{
    let Ok(drained) = text.drain(start..end) else {
        return 0;
    };
    let mut sum = 0u32;
    for ch in drained.rev() {
        sum = sum.wrapping_add(ch as u32);
    }
    sum
}

/// What a call is given.
#[derive(Drop)]
struct Case<'a> {
    held: &'a str,
    offset: usize,
    given: &'a str,
    units: &'a [u16],
    ch: char,
    start: u8,
    end: u8,
}

/// An answer as a number, so that none is thrown away. It has the same hash in Rust.
fn told<T: Hash + Drop>(answer: T) -> u64 {
    let mut hasher = DefaultHasher::new();
    answer.hash(&mut hasher);
    hasher.finish()
}

/// What a call answers, which is counted.
fn count<A, B, C, R: Hash + Drop, F: FnOnce(A, B, C) -> R>(a: A, b: B, c: C, call: F) -> u64
    requires { F.IsAlwaysCallable call }
{
    told(call_measured(a, b, c, call))
}

/// The same of a call that makes a string.
macro_rules! made {
    ($given:expr, $make:expr) => {
        count($given, Of::<N>, (), $make)
    };
}

/// What a call answers that makes a string, or 0 where there is none of this name.
fn make<const N: usize>(call: &str, case: &Case<'_>) -> u64
    requires { N ≤ 300 }
{
    let (held, units) = (case.held, case.units);
    match call {
        "new_try_push_str" => made!(held, |it, _, _| {
            let mut text = Text::<N>::new();
            let _ = text.try_push_str(it);
            text
        }),
        "try_from_str" => made!(held, |it, _, _| Text::<N>::try_from_str(it).ok()),
        "from_str_truncate" => made!(held, |it, _, _| Text::<N>::from_str_truncate(it)),
        "from_chars_truncate" => made!(held, |it: &str, _, _| Text::<N>::from_chars(it.chars())),
        "try_from_utf8" => made!(
            held.as_bytes(),
            |it, _, _| Text::<N>::try_from_utf8(it).ok()
        ),
        "from_utf16_truncate" => made!(units, |it, _, _| Text::<N>::from_utf16(it).ok()),
        _ => 0,
    }
}

/// What a call answers that changes nothing, or that makes a string.
fn look<const N: usize>(call: &str, text: &Text<N>, other: &Text<N>, case: &Case<'_>) -> u64
    requires { N ≤ 300 }
{
    match call {
        "as_str" => count(text, (), (), |it, _, _| it.as_str()),
        "len" => count(text, (), (), |it, _, _| it.len() as usize),
        "cmp" => count(text, other, (), |it, other, _| it.cmp(other)),
        "less" => count(text, other, (), |it, other, _| it < other),
        "eq" => count(text, other, (), |it, other, _| it == other),
        "hash" => count(text, (), (), |it, _, _| told(it)),
        "clone" => count(text, (), (), |it, _, _| *it),
        _ => make::<N>(call, case),
    }
}

/// What a call answers that puts something in.
fn add<const N: usize>(call: &str, text: &mut Text<N>, other: &Text<N>, case: &Case<'_>) -> u64
    requires { N ≤ 300 }
{
    let (held, given, at, ch) = (case.held, case.given, case.start, case.ch);
    match call {
        "try_push_str" => count(text, given, (), |it, new, _| it.try_push_str(new).is_ok()),
        "push_str_truncate" => count(text, given, (), |it, given, _| {
            it.push_str(given);
        }),
        "try_push" => count(text, ch, (), |it, ch, _| it.try_push(ch).is_ok()),
        "window" => count(text, (), (), |it, _, _| match it.remove(0) {
            Ok(ch) => it.try_push(ch).is_ok(),
            Err(_) => false,
        }),
        "line" => count(text, held, (), |it, held: &str, _| {
            it.clear();
            held.chars().all(|ch| it.try_push(ch).is_ok())
        }),
        "lines" => count(text, given, case.end, |it, given, end| {
            (0..4).all(|_| it.try_push_str(given).is_ok() && it.replace_range(0..end, "").is_ok())
        }),
        "try_insert" => count(text, at, ch, |it, at, ch| it.try_insert(at, ch).is_ok()),
        "try_insert_str" => count(text, at, given, |it, at, given| {
            it.try_insert_str(at, given).is_ok()
        }),
        "replace_range" => count(text, at..case.end, given, |it, range, given| {
            it.replace_range(range, given).is_ok()
        }),
        _ => look(call, text, other, case),
    }
}

/// What a call answers that takes something out, and what any call answers.
fn edit<const N: usize>(call: &str, text: &mut Text<N>, other: &Text<N>, case: &Case<'_>) -> u64
    requires { N ≤ 300 }
{
    let at = case.start;
    match call {
        "pop" => count(text, (), (), |it, _, _| it.pop()),
        "remove" => count(text, at, (), |it, at, _| it.remove(at).ok()),
        "truncate" => count(text, at, (), |it, at, _| it.truncate(at).is_ok()),
        "trim_in_place" => count(text, (), (), |it, _, _| it.trim()),
        "retain" => count(
            text,
            case.ch,
            (),
            |it, dropped, _| it.retain(|ch| ch != dropped),
        ),
        "split_off" => count(text, at, (), |it, at, _| it.split_off(at).ok()),
        "drain" => told(drain_measured(text, at, case.end)),
        "drain_back" => told(drain_back_measured(text, at, case.end)),
        _ => add(call, text, other, case),
    }
}

/// A string that holds a text, if it fits, behind so many bytes of its array.
fn filled<const N: usize>(held: &str, offset: usize) -> Text<N> {
    let mut text = Text::new();
    for _ in 0..offset {
        let _ = text.try_push('.');
    }
    let _ = text.try_push_str(held);
    for _ in 0..offset {
        let _ = text.remove(0);
    }
    text
}

/// What a call at a capacity answers and leaves, as one number, or 0 where there is none of this name.
fn answer<const N: usize>(call: &str, case: &Case<'_>) -> u64
    requires { N ≤ 300 }
{
    let mut text = filled::<N>(case.held, case.offset);
    let other = filled::<N>(case.given, 0);
    match edit(call, &mut text, &other, case) {
        0 => 0,
        answer => told((answer, text)),
    }
}

/// The same, for the bench. A slice is a pointer and a length.
#[unsafe(no_mangle)]
pub extern "C" fn proved_answer(
    capacity: usize,
    call: &[u8],
    held: &[u8],
    offset: usize,
    given: &[u8],
    units: &[u16],
    code: u32,
    start: u8,
    end: u8,
) -> u64 {
    let (Ok(held), Ok(given)) = (str::from_utf8(held), str::from_utf8(given)) else {
        return 0;
    };
    let (Ok(call), Some(ch)) = (str::from_utf8(call), char::from_u32(code)) else {
        return 0;
    };
    let case = Case {
        held,
        offset,
        given,
        units,
        ch,
        start,
        end,
    };
    match capacity {
        23 => answer::<23>(call, &case),
        63 => answer::<63>(call, &case),
        _ => answer::<255>(call, &case),
    }
}
