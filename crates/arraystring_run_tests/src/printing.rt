//! How replies and faults are printed for debugging: as Rust's derived forms print the same fields.
use super::runs::text_of;
use super::table::agree;
use arraystring::error::Error;
use arraystring_run::{PlayFault, Reply};
use std::fmt::Debug;
use std::process::Abort;
use test_support::printing::{Unquoted, first_debug_difference};

/// Types whose derived `Debug` prints what the `Debug` of replies and faults has to print.
mod derived {
    use super::Unquoted;

    #[derive(Debug, Drop)]
    pub(super) struct ArrayString<'a> {
        pub(super) array: &'a str,
        pub(super) size: usize,
    }

    #[derive(Debug, Drop)]
    pub(super) enum Reply<'a> {
        Done,
        Char(char),
        NoChar,
        Text(ArrayString<'a>),
        NoText,
        Number(u8),
        Refused(Unquoted<'a>),
    }

    #[derive(Debug, Drop)]
    pub(super) enum PlayFault {
        BadLine(usize),
        Memory,
        Read,
        Write,
    }
}

/// Asserts that one value is printed for debugging as the other, in each form, at each width.
fn debug_is_that_of<T: Debug, W: Debug>(rt: &(impl Abort + AllocGlobal), value: &T, wanted: &W) {
    let apart = first_debug_difference(rt.alloc(), value, wanted);
    let apart = apart.expect(rt, "memory for what is printed");
    agree(rt, "each form", apart, None);
}

/// Each form of a reply.
#[test]
fn replies_are_printed_as_derived(rt: HostRuntime) {
    debug_is_that_of(&rt, &Reply::<5>::Done, &derived::Reply::Done);
    debug_is_that_of(&rt, &Reply::<5>::NoChar, &derived::Reply::NoChar);
    debug_is_that_of(&rt, &Reply::<5>::NoText, &derived::Reply::NoText);
    for ch in ['a', 'é', '🤔', '\n', '\'', '"', '\\', '\0'] {
        debug_is_that_of(&rt, &Reply::<5>::Char(ch), &derived::Reply::Char(ch));
    }
    for number in [0, 7, 10, 255u8] {
        let wanted = derived::Reply::Number(number);
        debug_is_that_of(&rt, &Reply::<5>::Number(number), &wanted);
    }
    for text in ["", "ab", "é🤔", "a\n\"b\""] {
        let wanted = derived::Reply::Text(derived::ArrayString {
            array: text,
            size: text.len(),
        });
        debug_is_that_of(&rt, &Reply::<6>::Text(text_of(text)), &wanted);
    }
    for (refusal, name) in [
        (Error::Utf8, "Error::Utf8"),
        (Error::Utf16, "Error::Utf16"),
        (Error::OutOfBounds, "Error::OutOfBounds"),
    ] {
        let wanted = derived::Reply::Refused(Unquoted(name));
        debug_is_that_of(&rt, &Reply::<5>::Refused(refusal), &wanted);
    }
}

/// Each form of a fault.
#[test]
fn faults_are_printed_as_derived(rt: HostRuntime) {
    for line in [0, 1, 30, usize::MAX] {
        let wanted = derived::PlayFault::BadLine(line);
        debug_is_that_of(&rt, &PlayFault::BadLine(line), &wanted);
    }
    debug_is_that_of(&rt, &PlayFault::Memory, &derived::PlayFault::Memory);
    debug_is_that_of(&rt, &PlayFault::Read, &derived::PlayFault::Read);
    debug_is_that_of(&rt, &PlayFault::Write, &derived::PlayFault::Write);
}
