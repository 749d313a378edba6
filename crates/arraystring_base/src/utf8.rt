//! The UTF-8 of texts and characters: boundaries, cuts, the first and the last character of a text, and the
//! bytes of a character. Sizes and indices count bytes of UTF-8.
ghost use Rattle.std.specs.Prelude.{◌≡◌, ◌+◌, ◌-◌, ◌^◌, ◌≤◌, ◌<◌, ◌↔◌, ◌++◌, ◌∷◌, [], ℕ, List, length, slice_index, take, drop, chars, IsTrue, IfSome, IfNone, IsCharBoundary};
ghost use Rattle.arraystring_base.specs.Text.{bytes, cut, utf8, width, size, boundary};

use crate::leaf::{byte, put_array, text_before_boundary};
use crate::steps::Steps;
use std::char;

/// Returns whether `at` is a boundary of `text`: the size of one of its prefixes of whole characters.
/// Returns false if `at` is past the length of the text.
#[inline]
pub fn is_boundary(text: &str, at: usize) -> bool
    ensures { result ≡ boundary (chars text.now) at }
{
    text.is_char_boundary(at)
}

/// Returns the longest prefix of whole characters of `text` that takes at most `size` bytes,
/// borrowed from the text.
#[inline]
pub fn truncate_str(text: &str, size: u8) -> &str
    ensures { result.now ≡ bytes (cut (chars text.now) size) }
{
    truncate_str_counted(text, size, &mut Steps::new())
}

/// Cuts as `truncate_str` does, and counts its looks in `steps`. Most programs count nothing, and call
/// `truncate_str`. This call makes at most four looks, and at least one if `size` is above 0 and below the
/// length. It moves no byte.
///
/// # Precondition
///
/// The count of looks of `steps` must be at most 2^63.
///
/// # Examples
///
/// ```
/// let mut steps = Steps::new();
/// assert_eq!(utils::truncate_str_counted("aéb", 2, &mut steps), "a");
/// assert!((1..=4).contains(&steps.looked()) && steps.moved() == 0);
/// ```
#[inline]
pub fn truncate_str_counted<'a>(text: &'a str, size: u8, steps: &mut Steps) -> &'a str
    requires { steps.old.looked ≤ 2 ^ 63 }
    ensures value { result.now ≡ bytes (cut (chars text.now) size) }
    ensures looked { steps.new.looked ≤ steps.old.looked + 4 }
    ensures least { 0 < size → size < length text.now → steps.old.looked < steps.new.looked }
    ensures counted { steps.old.looked ≤ steps.new.looked }
    ensures moved { steps.new.moved ≡ steps.old.moved }
{
    let limit = size as usize;
    if text.len() <= limit {
        return text;
    }
    let end = last_boundary(text, limit, steps);
    text_before_boundary(text, end)
}

/// The last boundary that is not past `limit`. Looks once at each byte from `limit` back to that boundary.
#[inline]
fn last_boundary(text: &str, limit: usize, steps: &mut Steps) -> usize
    requires within { limit < length text.now }
    requires countable { steps.old.looked ≤ 2 ^ 63 }
    ensures at_most { result ≤ limit }
    ensures boundary { IsCharBoundary text.now result }
    ensures nearest { (i : ℕ) → result < i → i ≤ limit → ¬ (IsCharBoundary text.now i) }
    ensures looked { steps.new.looked ≤ steps.old.looked + 4 }
    ensures each { steps.new.looked + result ≡ steps.old.looked + limit + 1 }
    ensures moved { steps.new.moved ≡ steps.old.moved }
{
    let all = text.as_bytes();
    let mut end = limit;
    // The first byte of a text continues no character, and at most three bytes in a row do. So `limit - end < 3`
    // changes no result. It is for the compiler, which unrolls the loop.
    while is_continuation(look(all, end, steps)) && limit - end < 3 {
        end -= 1;
    }
    end
}

/// Most programs need no count, and write `bytes[at]`. This call returns that byte, and counts one look
/// in `steps`.
///
/// # Precondition
///
/// The index must be below the length, and the count of looks of `steps` must be below 2^64 - 1.
///
/// # Examples
///
/// ```
/// let mut steps = Steps::new();
/// assert_eq!(utils::look(b"ab", 1, &mut steps), b'b');
/// assert_eq!((steps.looked(), steps.moved()), (1, 0));
/// ```
#[inline]
pub fn look(bytes: &[u8], at: usize, steps: &mut Steps) -> u8
    requires in_bounds { at < length bytes.now }
    requires countable { steps.old.looked < 2 ^ 64 - 1 }
    ensures value { result ≡ slice_index bytes.now at }
    ensures looked { steps.new.looked ≡ steps.old.looked + 1 }
    ensures moved { steps.new.moved ≡ steps.old.moved }
{
    steps.count_look();
    byte(bytes, at)
}

/// Whether a byte continues a character that began before it.
#[inline]
fn is_continuation(byte: u8) -> bool
    ensures { IsTrue result ↔ ((128 ≤ byte) × (byte < 192)) }
{
    matches!(byte, 0x80..=0xBF)
}

/// Returns the first character of `text`, and how many bytes it takes.
///
/// # Precondition
///
/// The text must not be empty.
#[tactic(auto, using(crate::proofs::FirstLemmas::first_bytes), unfolding(crate::specs::Text::width))]
#[inline]
pub fn first_char_and_width(text: &str) -> (char, usize)
    requires { 0 < length text.now }
    ensures first { (rest : List ℕ) × (text.now ≡ utf8 result.0 ++ rest) }
    ensures width { result.1 ≡ width result.0 }
    ensures some { 0 < result.1 }
    ensures within { result.1 ≤ length text.now }
{
    let all = text.as_bytes();
    let first = byte(all, 0) as u32;
    if first < 0x80 {
        // SAFETY: a number below 0x80 is a scalar value.
        return (unsafe { char::from_u32_unchecked(first) }, 1);
    }
    let second = byte(all, 1) as u32;
    if first < 0xE0 {
        let code = (first - 0xC0) * 64 + (second - 0x80);
        // SAFETY: the bytes of a `&str` are UTF-8. `first` begins a character of two bytes and `second` continues it,
        // so `code` is its number, a scalar value.
        return (unsafe { char::from_u32_unchecked(code) }, 2);
    }
    let third = byte(all, 2) as u32;
    if first < 0xF0 {
        let code = (first - 0xE0) * 4096 + (second - 0x80) * 64 + (third - 0x80);
        // SAFETY: the bytes of a `&str` are UTF-8. `first` begins a character of three bytes and the two behind it
        // continue it, so `code` is its number, a scalar value.
        return (unsafe { char::from_u32_unchecked(code) }, 3);
    }
    let fourth = byte(all, 3) as u32;
    let front = (first - 0xF0) * 262_144 + (second - 0x80) * 4096;
    let code = front + (third - 0x80) * 64 + (fourth - 0x80);
    // SAFETY: the bytes of a `&str` are UTF-8. `first` begins a character of four bytes and the three behind it
    // continue it, so `code` is its number, a scalar value.
    (unsafe { char::from_u32_unchecked(code) }, 4)
}

/// Returns the index at which the last character of `text` begins, and that character. Returns `None` if the
/// text is empty. It makes at most four looks, and at least one if there is a character. It moves no byte.
///
/// # Precondition
///
/// The count of looks plus four must be below 2^64.
#[tactic(auto, using(crate::proofs::LastLemmas::chars_empty))]
#[inline]
pub fn last_char_with_start(text: &str, steps: &mut Steps) -> Option<(usize, char)>
    requires { steps.old.looked + 4 < 2 ^ 64 }
    ensures some { IfSome result (λ last. (front : List ℕ)
        × (chars text.now ≡ front ++ last.1 ∷ []) × (size front ≡ last.0)) }
    ensures none { IfNone result (chars text.now ≡ []) }
    ensures looked { steps.new.looked ≤ steps.old.looked + 4 }
    ensures least { IfSome result (λ _. steps.old.looked < steps.new.looked) }
    ensures counted { steps.old.looked ≤ steps.new.looked }
    ensures moved { steps.new.moved ≡ steps.old.moved }
{
    if text.is_empty() {
        return None;
    }
    let (start, ch) = last_char_of_nonempty(text, steps);
    Some((start, ch))
}

/// The last character of a text that has one, and where it begins. The bytes are read from the end
/// back to the one that does not continue a character.
#[inline]
fn last_char_of_nonempty(text: &str, steps: &mut Steps) -> (usize, char)
    requires some { 0 < length text.now }
    requires countable { steps.old.looked + 4 < 2 ^ 64 }
    ensures last { (front : List ℕ)
        × (chars text.now ≡ front ++ result.1 ∷ []) × (size front ≡ result.0) }
    ensures looked { steps.new.looked ≤ steps.old.looked + 4 }
    ensures least { steps.old.looked < steps.new.looked }
    ensures each { steps.new.looked + result.0 ≡ steps.old.looked + length text.now }
    ensures moved { steps.new.moved ≡ steps.old.moved }
{
    let all = text.as_bytes();
    let end = all.len();
    let last = look(all, end - 1, steps) as u32;
    if last < 0x80 {
        // SAFETY: a number below 0x80 is a scalar value.
        return (end - 1, unsafe { char::from_u32_unchecked(last) });
    }
    let second = look(all, end - 2, steps) as u32;
    if second >= 0xC0 {
        let code = (second - 0xC0) * 64 + (last - 0x80);
        // SAFETY: the bytes of a `&str` are UTF-8. `second` begins a character and `last` continues it, so `code` is
        // its number, a scalar value.
        return (end - 2, unsafe { char::from_u32_unchecked(code) });
    }
    let third = look(all, end - 3, steps) as u32;
    if third >= 0xC0 {
        let code = (third - 0xE0) * 4096 + (second - 0x80) * 64 + (last - 0x80);
        // SAFETY: the bytes of a `&str` are UTF-8. `third` begins a character and the two behind it continue it, so
        // `code` is its number, a scalar value.
        return (end - 3, unsafe { char::from_u32_unchecked(code) });
    }
    let fourth = look(all, end - 4, steps) as u32;
    let front = (fourth - 0xF0) * 262_144 + (third - 0x80) * 4096;
    let code = front + (second - 0x80) * 64 + (last - 0x80);
    // SAFETY: the bytes of a `&str` are UTF-8. `fourth` begins a character, since none has more than four bytes, and the
    // three behind it continue it, so `code` is its number, a scalar value.
    (end - 4, unsafe { char::from_u32_unchecked(code) })
}

/// Writes the UTF-8 of `ch` into the array, starting at the offset `at`, and returns the number of
/// bytes that it takes. No other byte changes.
///
/// # Precondition
///
/// `at` plus the number of bytes of the UTF-8 of `ch` must be at most `N`.
#[inline(always)]
#[tactic(auto, unfolding(crate::specs::Text::width, crate::specs::Text::utf8))]
pub fn encode<const N: usize>(ch: char, array: &mut [u8; N], at: usize) -> usize
    requires { at + width ch ≤ N }
    ensures width { result ≡ width ch }
    ensures bytes { array.new ≡ take at array.old ++ (utf8 ch ++ drop (at + width ch) array.old) }
{
    let code = ch as u32;
    let all = &mut array[..];
    if code < 0x80 {
        put_array(all, at, [code as u8]);
        return 1;
    }
    write_non_ascii_at(ch, all, at)
}

/// Writes the UTF-8 of a character that is not ASCII into `all` from index `at` on, and returns its width. The
/// compiler may inline it, and does where that pays. In a function that is marked `cold` it stays a call.
#[tactic(auto, unfolding(crate::specs::Text::width, crate::specs::Text::utf8))]
fn write_non_ascii_at(ch: char, all: &mut [u8], at: usize) -> usize
    requires room { at + width ch ≤ length all.old }
    requires wide { 0x80 ≤ ch }
    ensures width { result ≡ width ch }
    ensures bytes { all.new ≡ take at all.old ++ (utf8 ch ++ drop (at + width ch) all.old) }
{
    let code = ch as u32;
    let last = (0x80 + code % 64) as u8;
    if code < 0x800 {
        let first = (0xC0 + code / 64) as u8;
        put_array(all, at, [first, last]);
        return 2;
    }
    let before_last = (0x80 + code / 64 % 64) as u8;
    if code < 0x1_0000 {
        let first = (0xE0 + code / 4096) as u8;
        put_array(all, at, [first, before_last, last]);
        return 3;
    }
    let first = (0xF0 + code / 262_144) as u8;
    let second = (0x80 + code / 4096 % 64) as u8;
    put_array(all, at, [first, second, before_last, last]);
    4
}
