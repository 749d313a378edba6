//! Each reply and each fault of a script is equal to itself alone: each case, and each field that alone differs. Some
//! of the characters and numbers that differ have the same lowest byte, or the same lowest two or four.
use super::runs::text_of;
use super::table::agree;
use arraystring::error::Error;
use arraystring_run::{PlayFault, Reply};
use test_support::equality::first_mistaken;

#[test]
fn each_reply_is_equal_to_itself_alone(rt: HostRuntime) {
    let replies = [
        Reply::<5>::Done,
        Reply::Char('A'),
        Reply::Char('B'),
        Reply::Char('\u{141}'),
        Reply::Char('\u{10041}'),
        Reply::NoChar,
        Reply::Text(text_of("")),
        Reply::Text(text_of("a")),
        Reply::Text(text_of("b")),
        Reply::Text(text_of("ab")),
        Reply::Text(text_of("abcde")),
        Reply::Text(text_of("abcdf")),
        Reply::NoText,
        Reply::Number(0),
        Reply::Number(1),
        Reply::Number(254),
        Reply::Number(255),
        Reply::Refused(Error::Utf8),
        Reply::Refused(Error::Utf16),
        Reply::Refused(Error::OutOfBounds),
    ];
    agree(&rt, "replies", first_mistaken(&replies), None);
    // bytes of the array behind the text make no other reply
    let mut popped = text_of("abc");
    let _ = popped.pop();
    let (reply, other) = (Reply::<5>::Text(popped), Reply::Text(text_of("ab")));
    agree(&rt, "a text that was popped", reply, other);
}

#[test]
fn each_fault_is_equal_to_itself_alone(rt: HostRuntime) {
    let faults = [
        PlayFault::BadLine(1),
        PlayFault::BadLine(2),
        PlayFault::BadLine(0x101),
        PlayFault::BadLine(0x1_0001),
        PlayFault::BadLine(0x1_0000_0001),
        PlayFault::BadLine(usize::MAX),
        PlayFault::Memory,
        PlayFault::Read,
        PlayFault::Write,
    ];
    agree(&rt, "faults", first_mistaken(&faults), None);
}
