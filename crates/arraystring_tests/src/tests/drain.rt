//! Iterators over what was taken out, and what is left of it, on values worked out by hand.
ghost use Rattle.std.specs.Prelude.{◌≤◌};

use super::table::{agree, hash_of, number, returned, string};
use arraystring::{ArrayString, Drain};
use std::process::Abort;
use test_support::table::{column, rows};

/// The drain of the part of a text that stands between `[` and `]`.
fn taken_out<const N: usize>(written: &str) -> Drain<N> {
    let (before, rest) = written.split_once('[').unwrap_or_default();
    let (inside, after) = rest.split_once(']').unwrap_or_default();
    let mut text: ArrayString<N> = string(before);
    let start = text.len();
    text.push_str(inside);
    let end = text.len();
    text.push_str(after);
    text.drain(start..end).unwrap_or_default()
}

/// Asserts what steps over a drain give. The columns of a row are
///
///     text, with what is taken out in `[ ]` | step | result | what is left
///
/// With no text, the step is one of the drain that the row above left, and first of a default drain.
/// With no result, it gives no character.
fn check_drains<const N: usize>(rt: &impl Abort, table: &str)
    requires { N ≤ 300 }
{
    let mut drain = Drain::<N>::default();
    for row in rows(table) {
        if !column(row, 0).is_empty() {
            drain = taken_out(column(row, 0));
        }
        let result = match column(row, 1) {
            "next" => drain.next(),
            _ => drain.next_back(),
        };
        agree(rt, row, result, column(row, 2).chars().next());
        agree(rt, row, drain.as_str(), column(row, 3));
    }
}

#[test]
fn steps_from_both_ends(rt: HostRuntime) {
    check_drains::<23>(
        &rt,
        "
        # player: drains 23
        [A🤔B]   | next      | A    | 🤔B
                 | next_back | B    | 🤔
                 | next      | 🤔   |
                 | next_back |      |
                 | next      |      |
                 | next      |      |
        [A🤔B]   | next_back | B    | A🤔
        [ABC]D🤔 | next      | A    | BC
                 | next      | B    | C
                 | next      | C    |
                 | next      |      |
        ",
    );
    // drains of an empty part
    check_drains::<4>(
        &rt,
        "
        # player: drains 4
         | next      |      |
         | next_back |      |
        ",
    );
    check_drains::<0>(
        &rt,
        "
        # player: drains 0
        [] | next      |      |
           | next_back |      |
        ",
    );
    // a copy keeps its characters when the drain itself gives some
    let mut drain = taken_out::<23>("[A🤔B]");
    let mut copy = drain;
    agree(&rt, "the front", drain.next(), Some('A'));
    agree(&rt, "the back of the copy", copy.next_back(), Some('B'));
    agree(&rt, "what is left", drain.as_str(), "🤔B");
    agree(&rt, "what is left of the copy", copy.as_str(), "A🤔");
}

/// Iterates over all of a text. Bit `n` of `choice` says from which end step `n` takes: 0 is the front, and 1 the back.
/// What is left is compared at each step.
fn walk_by(rt: &impl Abort, text: &str, choice: u32) {
    let mut drain = string::<23>(text).drain(..).unwrap_or_default();
    let mut wanted = text.chars();
    let mut choice = choice;
    for _ in text.chars() {
        agree(rt, text, drain.as_str(), wanted.as_str());
        if choice & 1 == 0 {
            agree(rt, text, drain.next(), wanted.next());
        } else {
            agree(rt, text, drain.next_back(), wanted.next_back());
        }
        choice >>= 1;
    }
    agree(rt, text, drain.as_str(), "");
    agree(rt, text, drain.next(), None);
    agree(rt, text, drain.next_back(), None);
}

/// Iterates over each text by each choice of ends. The columns are the number of choices, and the text.
fn check_walks(rt: &impl Abort, table: &str) {
    for row in rows(table) {
        for choice in 0..number(rt, row, 0) as u32 {
            walk_by(rt, column(row, 1), choice);
        }
    }
}

#[test]
fn each_walk(rt: HostRuntime) {
    check_walks(
        &rt,
        "
        # player: walks
        1  |
        2  | a
        4  | aé
        8  | aé€
        16 | aé€🤔
        32 | aé€🤔b
        64 | aé€🤔bé
        ",
    );
}

/// A drain of a text, of which `[ ]` has in it what is left after a step from each end if there is
/// a character before or after it.
fn left(written: &str) -> Drain<8> {
    let (before, rest) = written.split_once('[').unwrap_or_default();
    let (inside, after) = rest.split_once(']').unwrap_or_default();
    let mut text: ArrayString<8> = ArrayString::from(before);
    text.push_str(inside);
    text.push_str(after);
    let mut drain = text.drain(..).unwrap_or_default();
    if !before.is_empty() {
        drain.next();
    }
    if !after.is_empty() {
        drain.next_back();
    }
    drain
}

/// Asserts that each comparison gives the order of the row, that what is equal has one hash, and that
/// this is the hash of the text. The columns are
///
///     one drain | `cmp` | | the other | order
fn check_comparisons(rt: &(impl Abort + AllocGlobal), table: &str) {
    for row in rows(table) {
        let (one, other) = (left(column(row, 0)), left(column(row, 3)));
        let order = Ord::cmp(&one, &other);
        returned(rt, row, order);
        agree(rt, row, PartialOrd::partial_cmp(&one, &other), Some(order));
        agree(rt, row, one == other, order.is_eq());
        agree(rt, row, one != other, order.is_ne());
        let hash = hash_of(&one);
        agree(rt, row, hash == hash_of(&other), order.is_eq());
        agree(rt, row, hash, hash_of(&one.as_str()));
    }
}

#[test]
fn what_is_left_is_compared(rt: HostRuntime) {
    check_comparisons(
        &rt,
        "
        # player: drain_comparisons
        a[bc]d     | cmp | | x[bc]       | Equal
        a[bc]d     | cmp | | [abcd]      | Greater
        [\u{FFFF}] | cmp | | [\u{10000}] | Less
        [a]        | cmp | | [ab]        | Less
        ",
    );
}
