//! What is read of a text: its size, its fields, how it compares, and numbers.
use crate::checks::agree;
use arraystring::{ArrayString, Error};
use arraystring_recipes::borrowed::{
    behind, is_get, is_text, order, same_text, size_of_string, size_of_text,
};
use arraystring_recipes::columns::{ascii_width, bytes_shown};
use arraystring_recipes::fields::{count_fields, value_of, version};
use arraystring_recipes::packet::name_in;
use arraystring_recipes::read_back::{read_i8, read_i64, read_i128, read_u8, read_u128};
use arraystring_recipes::walks::{common_prefix, same_without_case};
use std::cmp::Ordering;

#[test]
fn two_texts_begin_with_the_same(rt: HostRuntime) {
    for (a, b, wanted) in [
        ("ab", "", 0),
        ("é€x", "é€y", 5),
        ("é", "è", 0),
        ("🤔a", "🤔", 4),
    ] {
        agree(&rt, common_prefix(a, b), wanted);
    }
}

#[test]
fn case_is_looked_over(rt: HostRuntime) {
    for (a, b, wanted) in [("aZ", "Az", true), ("É", "é", false), ("[", "{", false)] {
        agree(&rt, same_without_case(a, b), wanted);
    }
}

#[test]
fn lines_have_fields(rt: HostRuntime) {
    agree(&rt, count_fields("a,,é,"), 4);
    agree(&rt, version("1.20.3.4"), Some(("1", "20", "3.4")));
    agree(&rt, value_of("a=b=c", "a"), Some("b=c"));
}

#[test]
fn a_string_is_lent(rt: HostRuntime) {
    let string = ArrayString::<16>::from_str_truncate("GET");
    agree(&rt, is_get(&string), true);
    agree(&rt, is_text(&string, "GET"), true);
    agree(&rt, same_text(&string, &ArrayString::<9>::new()), false);
    agree(&rt, order(&string, "GÉ"), Ordering::Less);
    agree(&rt, size_of_string(&string), 3);
    agree(&rt, size_of_text("é€"), 5);
    agree(&rt, bytes_shown(&string), Some(3));
    agree(&rt, ascii_width(&string), Some(3));
    agree(&rt, behind("éab", "é"), Some("ab"));
}

/// No clause says which texts are no number.
#[test]
fn numbers_are_read_back(rt: HostRuntime) {
    for (text, unsigned, signed) in [
        ("127", Some(127), Some(127)),
        ("128", Some(128), None),
        ("256", None, None),
        ("-128", None, Some(-128)),
    ] {
        let given = ArrayString::<8>::from_str_truncate(text);
        agree(&rt, read_u8(&given).ok(), unsigned);
        agree(&rt, read_i8(&given).ok(), signed);
    }
    let least = ArrayString::<24>::from_str_truncate("-9223372036854775808");
    agree(&rt, read_i64(&least).ok(), Some(i64::MIN));
    let most = ArrayString::<40>::from_str_truncate("340282366920938463463374607431768211455");
    agree(&rt, read_u128(&most).ok(), Some(u128::MAX));
}

/// The numbers at both ends, round 0, and one outside what an `i64` holds at each end.
#[test]
fn long_numbers_are_read_back(rt: HostRuntime) {
    for (text, wanted) in [
        ("-170141183460469231731687303715884105728", i128::MIN),
        ("-9223372036854775809", -9_223_372_036_854_775_809),
        ("-1", -1),
        ("0", 0),
        ("1", 1),
        ("9223372036854775808", 9_223_372_036_854_775_808),
        ("170141183460469231731687303715884105727", i128::MAX),
    ] {
        let given = ArrayString::<40>::from_str_truncate(text);
        agree(&rt, read_i128(&given).ok(), Some(wanted));
    }
}

/// No clause says which text a name has, and why bytes are refused that are too many.
#[test]
fn a_name_comes_as_bytes(rt: HostRuntime) {
    let name = name_in("josé".as_bytes()).unwrap_or_default();
    agree(&rt, name.as_str(), "josé");
    agree(&rt, name_in(b"0123456789abcdefg"), Err(Error::OutOfBounds));
    agree(&rt, name_in(b"0123456789abcdef\xFF"), Err(Error::Utf8));
}
