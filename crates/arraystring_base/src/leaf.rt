//! What a build in Rust does without a test of bounds: one byte, a few bytes, a part, a copy, a long move, and a text
//! to and from a boundary. All other code of this crate and of `arraystring_core` calls these functions, because each
//! has as its precondition what Rust would test. So the proof of a call says that the test can be left out.
//!
//! What is public here reads, lends or turns case. What writes or moves is for `moves` and `utf8`: a string writes by
//! `encode`, `write_over` and `write_by_call`, and moves by `shift` and `shift_on_cold_path`, which count. Callers of
//! `arraystring` need none of this.
ghost use Rattle.std.specs.Prelude.{◌≡◌, ◌+◌, ◌-◌, ◌<◌, ◌≤◌, ◌++◌, IsCharBoundary, length, map, take, drop, slice_index};
ghost use Rattle.std.specs.Char.{to_ascii_uppercase, to_ascii_lowercase};

use crate::moves::{move_by_two_vectors, shift};
use crate::steps::Steps;
use std::simd::Simd;

/// The byte at an index. It counts no look: what has to be counted calls `look`.
///
/// # Precondition
///
/// The index must be below the length.
#[inline(always)]
pub fn byte(bytes: &[u8], at: usize) -> u8
    requires { at < length bytes.now }
    ensures { result ≡ slice_index bytes.now at }
{
    bytes[at]
}

/// Writes the `K` bytes of an array into `all`, from index `at` of `all` on. `put_vector` writes those of a vector.
#[inline(always)]
pub(crate) fn put_array<const K: usize>(all: &mut [u8], at: usize, bytes: [u8; K])
    requires { at + K ≤ length all.old }
    ensures { all.new ≡ take at all.old ++ (bytes.entry ++ drop (at + K) all.old) }
{
    all[at..at + K].copy_from_slice(&bytes);
}

/// The `len` bytes from `start` on, borrowed without a copy.
///
/// # Precondition
///
/// The slice must have that many bytes from there.
#[inline(always)]
pub fn part_of_length(bytes: &[u8], start: usize, len: usize) -> &[u8]
    requires { start + len ≤ length bytes.now }
    ensures { result.now ≡ take len (drop start bytes.now) }
{
    &bytes[start..start + len]
}

/// Turns each byte a..z from `start` to `end` into the capital letter. No other byte changes.
///
/// # Precondition
///
/// `start` must be at most `end`, and `end` at most the length.
#[inline(always)]
pub fn uppercase_between(all: &mut [u8], start: usize, end: usize)
    requires order { start ≤ end }
    requires within { end ≤ length all.old }
    ensures { all.new ≡ take start all.old
        ++ (map to_ascii_uppercase (take (end - start) (drop start all.old)) ++ drop end all.old) }
{
    all[start..end].make_ascii_uppercase();
}

/// Turns each byte A..Z from `start` to `end` into the small letter. No other byte changes.
///
/// # Precondition
///
/// `start` must be at most `end`, and `end` at most the length.
#[inline(always)]
pub fn lowercase_between(all: &mut [u8], start: usize, end: usize)
    requires order { start ≤ end }
    requires within { end ≤ length all.old }
    ensures { all.new ≡ take start all.old
        ++ (map to_ascii_lowercase (take (end - start) (drop start all.old)) ++ drop end all.old) }
{
    all[start..end].make_ascii_lowercase();
}

/// The text before a boundary, borrowed without a copy.
///
/// # Precondition
///
/// `end` must be a boundary of the text.
#[inline(always)]
pub fn text_before_boundary(text: &str, end: usize) -> &str
    requires { IsCharBoundary text.now end }
    ensures { result.now ≡ take end text.now }
{
    &text[..end]
}

/// The text from a boundary on, borrowed without a copy.
///
/// # Precondition
///
/// `start` must be a boundary of the text.
#[inline(always)]
pub fn text_from_boundary(text: &str, start: usize) -> &str
    requires { IsCharBoundary text.now start }
    ensures { result.now ≡ drop start text.now }
{
    &text[start..]
}

/// Moves `len` bytes by `shift`. It is for code that seldom runs. (In the Cargo crate it is one `memmove`,
/// which is less code than the tests of the length in `shift`. Here `shift` is inlined, because a call would
/// cost more.)
#[inline(always)]
pub(crate) fn move_on_cold_path<const N: usize>(
    array: &mut [u8; N],
    from: usize,
    to: usize,
    len: usize,
)
    requires source { from + len ≤ N }
    requires target { to + len ≤ N }
    ensures { array.new
        ≡ take to array.old ++ (take len (drop from array.old) ++ drop (to + len) array.old) }
{
    shift(array, from, to, len, &mut Steps::new());
}

/// Moves `len` bytes: 16 or more, and at most `N`. The compiler leaves out the branches for sizes above `N`.
/// (In the Cargo crate this is one `memmove`. The kit has no fast one, so here up to 256 bytes go through SIMD
/// vectors. More would go through `copy_within`, but no string has more.)
#[inline(always)]
pub(crate) fn move_16_or_more<const N: usize>(all: &mut [u8], from: usize, to: usize, len: usize)
    requires source { from + len ≤ length all.old }
    requires target { to + len ≤ length all.old }
    requires most { len ≤ N }
    requires long { 16 ≤ len }
    ensures { all.new
        ≡ take to all.old ++ (take len (drop from all.old) ++ drop (to + len) all.old) }
{
    if N <= 32 || len <= 32 {
        move_by_two_vectors::<16>(all, from, to, len);
    } else if N <= 64 || len <= 64 {
        move_by_two_vectors::<32>(all, from, to, len);
    } else if N <= 128 || len <= 128 {
        move_by_two_vectors::<64>(all, from, to, len);
    } else if N <= 256 || len <= 256 {
        move_by_four_vectors::<64>(all, from, to, len);
    } else {
        all.copy_within(from..from + len, to);
    }
}

/// Moves `len` bytes, at least `2 * K` and at most `4 * K`: the first `2 * K` and the last `2 * K`, each as two
/// vectors. Both may overlap, so all four vectors are read before the first is written.
#[inline(always)]
fn move_by_four_vectors<const K: usize>(all: &mut [u8], from: usize, to: usize, len: usize)
    requires source { from + len ≤ length all.old }
    requires target { to + len ≤ length all.old }
    requires least { K + K ≤ len }
    requires most { len - (K + K) ≤ K + K }
    ensures { all.new
        ≡ take to all.old ++ (take len (drop from all.old) ++ drop (to + len) all.old) }
{
    let rest = len - (K + K);
    let front = vector_at::<K>(all, from);
    let after_front = vector_at::<K>(all, from + K);
    let before_end = vector_at::<K>(all, from + rest);
    let end = vector_at::<K>(all, from + rest + K);
    put_adjacent_vectors(all, to, front, after_front);
    put_adjacent_vectors(all, to + rest, before_end, end);
}

/// Writes `given` into `all` from index `at` on. In the build from Rattle it is never inlined, so a program has
/// its code once. The target and then the text come first, as in a call that appends, so that no register has
/// to be moved for this call.
#[inline(never)]
pub(crate) fn write_bytes(all: &mut [u8], given: &[u8], at: usize)
    requires { at + length given.now ≤ length all.old }
    ensures { all.new ≡ take at all.old ++ (given.now ++ drop (at + length given.now) all.old) }
{
    all[at..at + given.len()].copy_from_slice(given);
}

/// The `K` bytes of `given` from index `at` on, as a vector.
#[inline(always)]
pub(crate) fn vector_at<const K: usize>(given: &[u8], at: usize) -> Simd<u8, K>
    requires { at + K ≤ length given.now }
    ensures { result ≡ take K (drop at given.now) }
{
    Simd::<u8, K>::from_slice(&given[at..at + K])
}

/// Writes the `K` bytes of a vector into `all`, from index `at` of `all` on.
#[inline(always)]
pub(crate) fn put_vector<const K: usize>(all: &mut [u8], at: usize, bytes: Simd<u8, K>)
    requires { at + K ≤ length all.old }
    ensures { all.new ≡ take at all.old ++ (bytes.entry ++ drop (at + K) all.old) }
{
    bytes.copy_to_slice(&mut all[at..at + K]);
}

/// Writes the `2 * K` bytes of two vectors into `all`, from index `at` on.
#[tactic(auto, using(crate::proofs::MoveLemmas::written_as_one))]
#[inline(always)]
fn put_adjacent_vectors<const K: usize>(
    all: &mut [u8],
    at: usize,
    first: Simd<u8, K>,
    second: Simd<u8, K>,
)
    requires { at + (K + K) ≤ length all.old }
    ensures { all.new
        ≡ take at all.old ++ ((first.entry ++ second.entry) ++ drop (at + (K + K)) all.old) }
{
    put_vector(all, at, first);
    put_vector(all, at + K, second);
}
