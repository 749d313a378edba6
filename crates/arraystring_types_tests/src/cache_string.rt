//! Each call once, on values worked out by hand.
ghost use Rattle.std.specs.Prelude.{◌≡◌, IfOk, nat_eq};
ghost use Rattle.std.specs.Cmp.Lexicographic.{pointwise, slice_cmp};
ghost use Rattle.std.specs.Ordering.{nat_cmp};

use super::asserts::{agree, hash_of};
use arraystring::error::{Error, OutOfBounds, Utf8, Utf16};
use arraystring::{ArrayString, CacheString};
use std::alloc::AllocError;
use std::cmp::Ordering;
use std::fmt::Write;
use std::process::Abort;

const ZEROS_63: &str = "000000000000000000000000000000000000000000000000000000000000000";

const ZEROS_64: &str = "0000000000000000000000000000000000000000000000000000000000000000";

/// What the unchecked calls make of a text that fits.
fn of_text_that_fits(text: &str) -> Option<[CacheString; 3]> {
    match CacheString::try_from_chars(text.chars()) {
        Ok(_) => Some([
            CacheString::from_str_unchecked(text),
            CacheString::from_chars_unchecked(text.chars()),
            CacheString::from_utf8_unchecked(text.as_bytes()),
        ]),
        Err(OutOfBounds) => None,
    }
}

/// What the unchecked call makes of pieces that fit together.
fn of_pieces_that_fit(pieces: &[&str]) -> Option<CacheString> {
    match CacheString::try_from_iterator(pieces.iter().copied()) {
        Ok(_) => Some(CacheString::from_iterator_unchecked(pieces.iter().copied())),
        Err(OutOfBounds) => None,
    }
}

#[test]
fn a_text_by_each_constructor(rt: HostRuntime) {
    constructors_give_the_text(&rt, "My String");
    constructors_give_the_text(&rt, "");
    constructors_give_the_text(&rt, "🤔🤔🤔🤔🤔");
    constructors_give_the_text(&rt, ZEROS_63);
    let new = CacheString::new();
    agree(&rt, "new", new.0.as_str(), "");
    agree(&rt, "default", CacheString::default(), new);
    agree(&rt, "the capacity", CacheString::capacity(), 63);
}

/// Asserts that each constructor gives the text.
fn constructors_give_the_text(rt: &impl Abort, text: &str) {
    refusing_constructors_give_the_text(rt, text);
    cutting_constructors_give_the_text(rt, text);
}

/// Asserts that each constructor that can refuse gives the text, and each that is called if it
/// fits.
fn refusing_constructors_give_the_text(rt: &impl Abort, text: &str) {
    let wanted = CacheString(ArrayString::from(text));
    agree(rt, text, wanted.0.as_str(), text);
    agree(rt, text, CacheString::try_from_str(text), Ok(wanted));
    let made = CacheString::try_from_chars(text.chars());
    agree(rt, text, made, Ok(wanted));
    let made = CacheString::try_from_utf8(text.as_bytes());
    agree(rt, text, made, Ok(wanted));
    let made = CacheString::from_utf8(text.as_bytes());
    agree(rt, text, made, Ok(wanted));
    agree(rt, text, text.parse::<CacheString>(), Ok(wanted));
    agree(rt, text, of_text_that_fits(text), Some([wanted; 3]));
}

/// Asserts that each constructor that cuts gives the text.
fn cutting_constructors_give_the_text(rt: &impl Abort, text: &str) {
    let made = CacheString::from(ArrayString::from(text));
    agree(rt, text, made.0.as_str(), text);
    let made = CacheString::from_str_truncate(text);
    agree(rt, text, made.0.as_str(), text);
    let made = CacheString::from_chars(text.chars());
    agree(rt, text, made.0.as_str(), text);
}

#[test]
fn pieces_are_joined(rt: HostRuntime) {
    let joined = CacheString::from_str_truncate("My String My other String");
    let made = CacheString::try_from_iterator(["My String", " My other String"]);
    agree(&rt, "whole", made, Ok(joined));
    let made = CacheString::from_iterator(["My String", " My other String"]);
    agree(&rt, "cut", made.0.as_str(), joined.0.as_str());
    let made = of_pieces_that_fit(&["My String", " My other String"]);
    agree(&rt, "unchecked", made, Some(joined));
}

#[test]
fn a_text_that_is_too_large_is_cut(rt: HostRuntime) {
    let cut = CacheString::from_str_truncate(ZEROS_64);
    agree(&rt, "a text", cut.0.as_str(), ZEROS_63);
    let made = CacheString::from_chars(ZEROS_64.chars());
    agree(&rt, "characters", made, cut);
    let made = CacheString::from_iterator(["000"; 400]);
    agree(&rt, "pieces", made, cut);
    let made = CacheString::from_utf8(&[b'0'; 300]);
    agree(&rt, "bytes", made, Ok(cut));
}

#[test]
fn a_text_that_is_too_large_is_refused(rt: HostRuntime) {
    let made = CacheString::try_from_str(ZEROS_64);
    agree(&rt, "a text", made, Err(OutOfBounds));
    let made = ZEROS_64.parse::<CacheString>();
    agree(&rt, "parsed", made, Err(OutOfBounds));
    let made = CacheString::try_from_chars(ZEROS_64.chars());
    agree(&rt, "characters", made, Err(OutOfBounds));
    let made = CacheString::try_from_iterator(["000"; 100]);
    agree(&rt, "pieces", made, Err(OutOfBounds));
    let made = CacheString::try_from_utf8(&[b'0'; 1600]);
    agree(&rt, "bytes", made, Err(Error::OutOfBounds));
    agree(&rt, "a text, unchecked", of_text_that_fits(ZEROS_64), None);
    let made = of_pieces_that_fit(&[ZEROS_63, "0"]);
    agree(&rt, "pieces, unchecked", made, None);
}

#[test]
fn bytes_that_are_not_utf8(rt: HostRuntime) {
    let given = b"\x00\x9F\x92\x96";
    let made = CacheString::try_from_utf8(given);
    agree(&rt, "whole", made, Err(Error::Utf8));
    agree(&rt, "cut", CacheString::from_utf8(given), Err(Utf8));
}

#[test]
fn texts_from_utf16(rt: HostRuntime) {
    let units = [0xD834, 0xDD1E, 0x6D, 0x75, 0x73, 0x69, 0x63];
    let made = CacheString::try_from_utf16(&units).unwrap_or_default();
    agree(&rt, "whole", made.0.as_str(), "𝄞music");
    let made = CacheString::from_utf16(&units).unwrap_or_default();
    agree(&rt, "cut", made.0.as_str(), "𝄞music");
    let shown = CacheString::from_utf16_lossy(&units);
    agree(&rt, "lossy", shown.0.as_str(), "𝄞music");
}

#[test]
fn a_lone_surrogate(rt: HostRuntime) {
    let units = [0xD834, 0xDD1E, 0x6D, 0x75, 0xD800, 0x69, 0x63];
    let made = CacheString::try_from_utf16(&units);
    agree(&rt, "whole", made, Err(Error::Utf16));
    agree(&rt, "cut", CacheString::from_utf16(&units), Err(Utf16));
    let shown = CacheString::from_utf16_lossy(&units);
    agree(&rt, "lossy", shown.0.as_str(), "𝄞mu\u{FFFD}ic");
}

#[test]
fn too_many_units(rt: HostRuntime) {
    let units = [0; 300];
    let cut = CacheString(ArrayString::from_chars(['\0'; 63]));
    let made = CacheString::try_from_utf16(&units);
    agree(&rt, "whole", made, Err(Error::OutOfBounds));
    agree(&rt, "cut", CacheString::from_utf16(&units), Ok(cut));
    let shown = CacheString::from_utf16_lossy(&units);
    agree(&rt, "lossy", shown.0.as_str(), cut.0.as_str());
}

#[test]
fn a_string_is_split(rt: HostRuntime) {
    let mut text = CacheString::from_str_truncate("AB🤔CD");
    let rest = Ok(CacheString::from_str_truncate("CD"));
    agree(&rt, "at 6", text.split_off(6), rest);
    agree(&rt, "the text", text.0.as_str(), "AB🤔");
    let past = text.split_off(20);
    agree(&rt, "at 20", past, Err(Error::OutOfBounds));
    agree(&rt, "at 4", text.split_off(4), Err(Error::Utf8));
    let none = Ok(CacheString::new());
    agree(&rt, "at the end", text.split_off(6), none);
    agree(&rt, "the same text", text.0.as_str(), "AB🤔");
}

/// A clone has the text.
fn cloned(string: &CacheString) -> Result<CacheString, AllocError>
    ensures { IfOk result (λ clone. clone.0.text ≡ string.now.0.text) }
{
    string.clone()
}

/// A caller can prove what `==` and `cmp` return.
fn is_same_text(left: &CacheString, right: &CacheString) -> bool
    ensures { result ≡ pointwise nat_eq left.now.0.text right.now.0.text }
{
    left == right
}

fn order(left: &CacheString, right: &CacheString) -> Ordering
    ensures { result ≡ slice_cmp nat_cmp left.now.0.text right.now.0.text }
{
    left.cmp(right)
}

#[test]
fn texts_are_compared_and_hashed(rt: HostRuntime) {
    let low = CacheString::from_str_truncate("\u{FFFF}");
    let high = CacheString::from_str_truncate("\u{10000}");
    agree(&rt, "less", order(&low, &high), Ordering::Less);
    let order = high.partial_cmp(&low);
    agree(&rt, "greater", order, Some(Ordering::Greater));
    agree(&rt, "not equal", low != high, true);
    let clone = cloned(&low).expect(&rt, "no memory is taken");
    agree(&rt, "a clone", is_same_text(&low, &clone), true);
    agree(&rt, "no clone", is_same_text(&low, &high), false);
    agree(&rt, "the hash", hash_of(&low), hash_of(&"\u{FFFF}"));
}

#[test]
fn texts_are_added(rt: HostRuntime) {
    let mut text = CacheString::from_str_truncate("ab") + "cd";
    agree(&rt, "ab + cd", text.0.as_str(), "abcd");
    agree(&rt, "too large", text.write_str(ZEROS_63).is_err(), true);
    agree(&rt, "the same text", text.0.as_str(), "abcd");
    agree(&rt, "e and f", write!(text, "{}{}", "e", "f").is_ok(), true);
    agree(&rt, "the text", text.0.as_str(), "abcdef");
    let cut = CacheString::new() + ZEROS_64;
    agree(&rt, "cut", cut.0.as_str(), ZEROS_63);
}
