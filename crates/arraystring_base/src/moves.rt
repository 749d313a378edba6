//! The two moves of bytes: `shift` moves bytes inside an array, and `write_over` writes given bytes into one.
//! Each has a second form, `shift_on_cold_path` and `write_by_call`, for code that seldom runs. What makes them
//! fast is in this file and in `leaf`.
//!
//! A run, which is so many bytes side by side, moves as its first `K` bytes and its last `K`. The two may
//! overlap, so both are read before the first is written. `memmove` moves short runs in this way too. A byte
//! that both have is written twice, to one offset, and counts as one move. They are read as vectors, since
//! those stay in registers; arrays of bytes would be put on the stack. `N` is a constant, so the compiler
//! leaves out the sizes that an array of `N` bytes can't have. `write_over` writes 16 bytes or more by a call,
//! of `write_bytes`, which takes a slice and so stands once in a program.
ghost use Rattle.std.specs.Prelude.{◌≡◌, ◌+◌, ◌-◌, ◌^◌, ◌==◌, if◌then◌else◌, ◌≤◌, ◌<◌, ◌++◌, length, take, drop};

use crate::leaf::{move_16_or_more, move_on_cold_path, put_vector, vector_at, write_bytes};
use crate::steps::Steps;

/// Moves `len` bytes of the array from the offset `from` to the offset `to`; the two runs may
/// overlap. Each byte counts as one move, also if it is written twice on the way. If `from` is `to`,
/// no move is counted. No byte outside the target changes.
///
/// # Precondition
///
/// Both runs must lie in the array, and the count of moves plus `len` must be below 2^64.
#[inline(always)]
pub fn shift<const N: usize>(
    array: &mut [u8; N],
    from: usize,
    to: usize,
    len: usize,
    steps: &mut Steps,
)
    requires source { from + len ≤ N }
    requires target { to + len ≤ N }
    requires countable { steps.old.moved + len < 2 ^ 64 }
    ensures bytes { array.new
        ≡ take to array.old ++ (take len (drop from array.old) ++ drop (to + len) array.old) }
    ensures moved { steps.new.moved ≡ steps.old.moved + (if from == to then 0 else len) }
    ensures looked { steps.new.looked ≡ steps.old.looked }
{
    if from != to {
        let all = &mut array[..];
        if N < 16 || len < 16 {
            move_short_run::<N>(all, from, to, len);
        } else {
            move_16_or_more::<N>(all, from, to, len);
        }
        steps.count_moves(len);
    }
}

/// Moves and counts as `shift` does. It is for code that seldom runs. (In the Cargo crate it is one `memmove`,
/// which is less code than the tests of the length in `shift`.)
///
/// # Precondition
///
/// Both runs must lie in the array, and the count of moves plus `len` must be below 2^64.
#[inline(always)]
pub fn shift_on_cold_path<const N: usize>(
    array: &mut [u8; N],
    from: usize,
    to: usize,
    len: usize,
    steps: &mut Steps,
)
    requires source { from + len ≤ N }
    requires target { to + len ≤ N }
    requires countable { steps.old.moved + len < 2 ^ 64 }
    ensures bytes { array.new
        ≡ take to array.old ++ (take len (drop from array.old) ++ drop (to + len) array.old) }
    ensures moved { steps.new.moved ≡ steps.old.moved + (if from == to then 0 else len) }
    ensures looked { steps.new.looked ≡ steps.old.looked }
{
    move_on_cold_path(array, from, to, len);
    steps.count_shift(from, to, len);
}

/// Moves `len` bytes: fewer than 16, and at most `N`. `N` is a constant, so the compiler leaves out the
/// branches for more bytes.
#[inline(always)]
fn move_short_run<const N: usize>(all: &mut [u8], from: usize, to: usize, len: usize)
    requires source { from + len ≤ length all.old }
    requires target { to + len ≤ length all.old }
    requires most { len ≤ N }
    requires short { len < 16 }
    ensures { all.new
        ≡ take to all.old ++ (take len (drop from all.old) ++ drop (to + len) all.old) }
{
    if N >= 4 && len >= 4 {
        if N >= 8 && len >= 8 {
            move_by_two_vectors::<8>(all, from, to, len);
        } else {
            move_by_two_vectors::<4>(all, from, to, len);
        }
    } else if N >= 2 && len >= 2 {
        move_by_two_vectors::<2>(all, from, to, len);
    } else if len == 1 {
        move_by_two_vectors::<1>(all, from, to, len);
    }
}

/// Moves `len` bytes, at least `K` and at most `2 * K`: the first `K` and the last `K`, which may overlap.
#[inline(always)]
pub(crate) fn move_by_two_vectors<const K: usize>(
    all: &mut [u8],
    from: usize,
    to: usize,
    len: usize,
)
    requires source { from + len ≤ length all.old }
    requires target { to + len ≤ length all.old }
    requires least { K ≤ len }
    requires most { len - K ≤ K }
    ensures { all.new
        ≡ take to all.old ++ (take len (drop from all.old) ++ drop (to + len) all.old) }
{
    let rest = len - K;
    let first = vector_at::<K>(all, from);
    let last = vector_at::<K>(all, from + rest);
    put_vector(all, to, first);
    put_vector(all, to + rest, last);
}

/// Writes `given` over the bytes of the array from the offset `at` on. No other byte changes.
///
/// # Precondition
///
/// `given` must fit into the array from there.
#[inline(always)]
pub fn write_over<const N: usize>(array: &mut [u8; N], at: usize, given: &[u8])
    requires { at + length given.now ≤ N }
    ensures { array.new
        ≡ take at array.old ++ (given.now ++ drop (at + length given.now) array.old) }
{
    let all = &mut array[..];
    if N < 16 || given.len() < 16 {
        write_short_run::<N>(all, at, given);
    } else {
        write_bytes(all, given, at);
    }
}

/// Writes as `write_over` does, by one call at any length. It is for new strings and for code that seldom runs,
/// where the tests of the length in `write_over` would only be more code.
///
/// # Precondition
///
/// `given` must fit into the array from there.
#[inline(always)]
pub fn write_by_call<const N: usize>(array: &mut [u8; N], at: usize, given: &[u8])
    requires { at + length given.now ≤ N }
    ensures { array.new
        ≡ take at array.old ++ (given.now ++ drop (at + length given.now) array.old) }
{
    write_bytes(&mut array[..], given, at);
}

/// Writes `given`: fewer than 16 bytes, and at most `N`. The compiler leaves out the branches for more bytes.
#[inline(always)]
fn write_short_run<const N: usize>(all: &mut [u8], at: usize, given: &[u8])
    requires room { at + length given.now ≤ length all.old }
    requires most { length given.now ≤ N }
    requires short { length given.now < 16 }
    ensures { all.new ≡ take at all.old ++ (given.now ++ drop (at + length given.now) all.old) }
{
    let len = given.len();
    if N >= 4 && len >= 4 {
        if N >= 8 && len >= 8 {
            write_by_two_vectors::<8>(all, at, given);
        } else {
            write_by_two_vectors::<4>(all, at, given);
        }
    } else if N >= 2 && len >= 2 {
        write_by_two_vectors::<2>(all, at, given);
    } else if len == 1 {
        write_by_two_vectors::<1>(all, at, given);
    }
}

/// Writes `given`, at least `K` and at most `2 * K` bytes: the first `K` and the last `K`, which may overlap.
#[inline(always)]
fn write_by_two_vectors<const K: usize>(all: &mut [u8], at: usize, given: &[u8])
    requires room { at + length given.now ≤ length all.old }
    requires least { K ≤ length given.now }
    requires most { length given.now - K ≤ K }
    ensures { all.new ≡ take at all.old ++ (given.now ++ drop (at + length given.now) all.old) }
{
    let rest = given.len() - K;
    let first = vector_at::<K>(given, 0);
    let last = vector_at::<K>(given, rest);
    put_vector(all, at, first);
    put_vector(all, at + rest, last);
}
