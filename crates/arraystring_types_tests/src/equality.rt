//! Each value of a public type whose `==` is derived is equal to itself alone: each case, and each field that alone
//! differs. Some of the characters and numbers that differ have the same lowest byte, or the same lowest two.
use super::asserts::agree;
use arraystring::Error;
use arraystring::error::{OutOfBounds, Utf8, Utf16};
use arraystring::integration::{NotText, ValueError};
use arraystring::utf16::Unit16;
use test_support::equality::first_mistaken;

#[test]
fn each_refusal_is_equal_to_itself_alone(rt: HostRuntime) {
    let errors = [Error::Utf8, Error::Utf16, Error::OutOfBounds];
    agree(&rt, "errors", first_mistaken(&errors), None);
    let of_values = [ValueError::NotText, ValueError::OutOfBounds];
    agree(&rt, "of values", first_mistaken(&of_values), None);
    agree(&rt, "Utf8", first_mistaken(&[Utf8]), None);
    agree(&rt, "Utf16", first_mistaken(&[Utf16]), None);
    agree(&rt, "OutOfBounds", first_mistaken(&[OutOfBounds]), None);
    agree(&rt, "NotText", first_mistaken(&[NotText]), None);
}

#[test]
fn each_item_of_utf16_is_equal_to_itself_alone(rt: HostRuntime) {
    let items = [
        Unit16::Char('\0'),
        Unit16::Char('A'),
        Unit16::Char('B'),
        Unit16::Char('\u{141}'),
        Unit16::Char('\u{10041}'),
        Unit16::Lone(0),
        Unit16::Lone(0x41),
        Unit16::Lone(0xD800),
        Unit16::Lone(0xD801),
        Unit16::Lone(0xDC00),
    ];
    agree(&rt, "items", first_mistaken(&items), None);
}
