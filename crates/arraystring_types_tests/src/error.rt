//! Refusals: how they are printed and hashed, and how they become an `Error` or a `ValueError`.
use super::asserts::{agree, hash_of};
use super::printing::{debug_is_that_of, display_is};
use arraystring::error::{Error, OutOfBounds, Utf8, Utf16};
use arraystring::integration::{NotText, ValueError};
use std::fmt::{Debug, Display};
use std::process::Abort;
use std::str;
use test_support::printing::Unquoted;

/// Asserts that a refusal is printed as its name, and for debugging as `debug`, in each form at each
/// width.
fn prints<T: Display + Debug>(
    rt: &(impl Abort + AllocGlobal),
    refusal: &T,
    name: &str,
    debug: &str,
) {
    display_is(rt, refusal, name);
    debug_is_that_of(rt, refusal, &Unquoted(debug));
}

/// Asserts that a refusal becomes this case of `Error`, and how both are printed and hashed.
fn becomes<T: Display + Debug + Copy + Drop>(
    rt: &(impl Abort + AllocGlobal),
    refusal: T,
    error: Error,
    name: &str,
    debug: &str,
)
where
    Error: From<T>,
{
    prints(rt, &refusal, name, name);
    prints(rt, &error, name, debug);
    agree(rt, name, hash_of(&error), hash_of(&name));
    agree(rt, name, Error::from(refusal), error);
}

#[test]
fn each_refusal_has_its_name(rt: HostRuntime) {
    becomes(&rt, Utf8, Error::Utf8, "Utf8", "Error::Utf8");
    becomes(&rt, Utf16, Error::Utf16, "Utf16", "Error::Utf16");
    let error = Error::OutOfBounds;
    becomes(&rt, OutOfBounds, error, "OutOfBounds", "Error::OutOfBounds");
    prints(&rt, &NotText, "NotText", "NotText");
}

#[test]
fn each_refusal_of_a_value_has_its_name(rt: HostRuntime) {
    prints(&rt, &ValueError::NotText, "NotText", "NotText");
    let (refusal, name) = (ValueError::OutOfBounds, "OutOfBounds");
    prints(&rt, &refusal, name, name);
    let no_text = ValueError::from(NotText);
    agree(&rt, "no text", no_text, ValueError::NotText);
    let large = ValueError::from(OutOfBounds);
    agree(&rt, "too large", large, ValueError::OutOfBounds);
}

/// The text of bytes, or the refusal that `?` makes of that of std.
fn read(bytes: &[u8]) -> Result<&str, Error> {
    Ok(str::from_utf8(bytes)?)
}

/// The text of bytes, or `Utf8`, which `?` makes of the refusal of std too.
fn read_or_utf8(bytes: &[u8]) -> Result<&str, Utf8> {
    Ok(str::from_utf8(bytes)?)
}

#[test]
fn a_refusal_of_std_becomes_utf8(rt: HostRuntime) {
    agree(&rt, "letters", read(b"ab"), Ok("ab"));
    agree(&rt, "no text", read(b"\0\x9F\x92\x96"), Err(Error::Utf8));
    agree(&rt, "no end", read_or_utf8(b"ab\xFF"), Err(Utf8));
}
