//! A name that is greeted, and an edit or two of each kind. The tests of the Rust crate run the examples of
//! the doc comments.
use super::asserts::agree;
use arraystring::error::{Utf8, Utf16};
use arraystring::{ArrayString, Error};

type Username = ArrayString<20>;

fn greet(name: &str) -> Result<Username, Error> {
    let mut username = Username::try_from_str(name)?;
    username.try_insert_str(0, "@")?;
    username.push_str(", welcome back");
    Ok(username)
}

#[test]
fn a_name_is_greeted(rt: HostRuntime) {
    let greeting = Username::from("@ann, welcome back");
    agree(&rt, "a name", greet("ann"), Ok(greeting));
    let greeting = Username::from("@bartholomew, welcom");
    agree(&rt, "a long name", greet("bartholomew"), Ok(greeting));
    let greeting = Username::from("@, welcome back");
    agree(&rt, "no name", greet(""), Ok(greeting));
    let greeted = greet("abcdefghijklmnopqrst");
    agree(&rt, "20 letters", greeted, Err(Error::OutOfBounds));
    let greeted = greet("abcdefghijklmnopqrstu");
    agree(&rt, "21 letters", greeted, Err(Error::OutOfBounds));
}

#[test]
fn push_str(rt: HostRuntime) {
    let mut line = ArrayString::<4>::from_str_truncate("abc");
    line.push_str("dé"); // "abcd", since `é` takes two bytes
    agree(&rt, "the text", line.as_str(), "abcd");
}

#[test]
fn insert_str(rt: HostRuntime) {
    let mut line = ArrayString::<4>::from_str_truncate("abc");
    let cut = line.insert_str(1, "xyz"); // Ok(()), and the text is "axbc"
    let past = line.insert_str(9, "z"); // Err(Error::OutOfBounds)
    let refused = Err(Error::OutOfBounds);
    agree(&rt, "both", (cut, past), (Ok(()), refused));
    agree(&rt, "the text", line.as_str(), "axbc");
}

#[test]
fn truncate(rt: HostRuntime) {
    let mut line = ArrayString::<4>::from_str_truncate("aé");
    let inside = line.truncate(2); // Err(Utf8)
    let past = line.truncate(9); // Ok(()), and the text is still "aé"
    agree(&rt, "both", (inside, past), (Err(Utf8), Ok(())));
    agree(&rt, "the text", line.as_str(), "aé");
}

#[test]
fn get(rt: HostRuntime) {
    let line = ArrayString::<4>::from_str_truncate("aéb");
    let part = line.get(1..3); // Some("é")
    let inside = line.get(..2); // None
    agree(&rt, "both", (part, inside), (Some("é"), None));
}

#[test]
fn drain(rt: HostRuntime) {
    let mut line = ArrayString::<5>::from_str_truncate("abcde");
    let drained = line.drain(1..=2); // Ok of 'b' and 'c', and the text is "ade"
    let past = line.drain(2..9); // Err(Error::OutOfBounds)
    let drained = drained.unwrap_or_default();
    agree(&rt, "drained", drained.as_str(), "bc");
    agree(&rt, "past", past, Err(Error::OutOfBounds));
    agree(&rt, "the text", line.as_str(), "ade");
}

#[test]
fn replace_range(rt: HostRuntime) {
    let mut line = ArrayString::<4>::from_str_truncate("abcd");
    let replaced = line.replace_range(1..3, "é"); // Ok(()), and the text is "aéd"
    let large = line.replace_range(.., "abcde"); // Err(Error::OutOfBounds)
    let refused = Err(Error::OutOfBounds);
    agree(&rt, "both", (replaced, large), (Ok(()), refused));
    agree(&rt, "the text", line.as_str(), "aéd");
}

#[test]
fn from_utf16(rt: HostRuntime) {
    let cut = ArrayString::<4>::from_utf16(&[0x61, 0xD83E, 0xDD14]); // Ok of "a"
    let lone = ArrayString::<4>::from_utf16(&[0x61, 0xD83E]); // Err(Utf16)
    agree(&rt, "cut", cut.unwrap_or_default().as_str(), "a");
    agree(&rt, "lone", lone, Err(Utf16));
}

#[test]
fn retain(rt: HostRuntime) {
    let mut line = ArrayString::<5>::from_str_truncate("a-b-c");
    line.retain(|ch| ch != '-'); // "abc"
    agree(&rt, "the text", line.as_str(), "abc");
}
