//! Users and their records, faults, and printed names.
use super::users::{agree, user};
use bounded_records::{RecordFault, UserFault, decode, encode};
use std::fmt::{Debug, Display};
use std::process::Abort;

/// The record of the user `user`, `admin`.
const RECORD: [u8; 27] = [
    0x04, 0x75, 0x73, 0x65, 0x72, 0, 0, 0, 0, 0, 0, 0, 0, 0, 0, 0, 0, 0, 0, 0, 0, 0x05, 0x61, 0x64,
    0x6D, 0x69, 0x6E,
];

/// The record of a user of full texts: 20 times `a`, and 5 times `b`.
const FULL: [u8; 27] = [
    0x14, 0x61, 0x61, 0x61, 0x61, 0x61, 0x61, 0x61, 0x61, 0x61, 0x61, 0x61, 0x61, 0x61, 0x61, 0x61,
    0x61, 0x61, 0x61, 0x61, 0x61, 0x05, 0x62, 0x62, 0x62, 0x62, 0x62,
];

/// The record of the user `é`, `🤔`.
const BEYOND_ASCII: [u8; 27] = [
    0x02, 0xC3, 0xA9, 0, 0, 0, 0, 0, 0, 0, 0, 0, 0, 0, 0, 0, 0, 0, 0, 0, 0, 0x04, 0xF0, 0x9F, 0xA4,
    0x94, 0,
];

/// A record with other bytes at some offsets.
fn with(record: [u8; 27], changes: &[(usize, u8)]) -> [u8; 27] {
    let mut changed = record;
    for &(offset, byte) in changes {
        if offset < 27 {
            changed[offset] = byte;
        }
    }
    changed
}

#[test]
fn a_user_is_its_record(rt: HostRuntime) {
    for (given, record) in [
        (user("user", "admin"), RECORD),
        (user("aaaaaaaaaaaaaaaaaaaa", "bbbbb"), FULL),
        (user("", ""), [0; 27]),
        (user("\0", ""), with([0; 27], &[(0, 0x01)])),
        (user("", "\0"), with([0; 27], &[(21, 0x01)])),
        (user("é", "🤔"), BEYOND_ASCII),
    ] {
        agree(&rt, encode(&given), record);
        agree(&rt, decode(&record), Ok(given));
    }
}

#[test]
fn a_record_has_27_bytes(rt: HostRuntime) {
    let mut longer = [0; 28];
    longer[..27].copy_from_slice(&RECORD);
    for length in 0..27usize {
        agree(&rt, decode(&longer[..length]), Err(RecordFault::Length));
    }
    agree(&rt, decode(&longer[..27]), Ok(user("user", "admin")));
    agree(&rt, decode(&longer), Err(RecordFault::Length));
}

#[test]
fn the_first_test_that_fails_decides(rt: HostRuntime) {
    let faults: [([u8; 27], &[(usize, u8)], RecordFault); 14] = [
        (RECORD, &[(0, 0x15)], RecordFault::Count),
        (RECORD, &[(21, 0x06)], RecordFault::Count),
        (RECORD, &[(21, 0x06), (1, 0xFF)], RecordFault::Count),
        (RECORD, &[(0, 0x15), (22, 0xFF)], RecordFault::Count),
        (FULL, &[(0, 0x15)], RecordFault::Count),
        (FULL, &[(21, 0x06)], RecordFault::Count),
        (FULL, &[(0, 0xFF), (21, 0xFF)], RecordFault::Count),
        (RECORD, &[(1, 0xFF)], RecordFault::Utf8),
        (RECORD, &[(22, 0xFF), (5, 0x01)], RecordFault::Utf8),
        (RECORD, &[(26, 0xC3)], RecordFault::Utf8),
        (
            RECORD,
            &[(3, 0xC3), (4, 0xA9), (0, 0x03)],
            RecordFault::Utf8,
        ),
        (FULL, &[(19, 0xED), (20, 0xA0)], RecordFault::Utf8),
        (RECORD, &[(5, 0x01)], RecordFault::Padding),
        (FULL, &[(0, 0x13)], RecordFault::Padding),
    ];
    for (record, changes, fault) in faults {
        agree(&rt, decode(&with(record, changes)), Err(fault));
    }
}

#[test]
fn each_padding_byte_is_judged(rt: HostRuntime) {
    for (record, first, end) in [
        ([0; 27], 1usize, 21usize),
        ([0; 27], 22, 27),
        (RECORD, 5, 21),
    ] {
        for offset in first..end {
            let record = with(record, &[(offset, 0x01)]);
            agree(&rt, decode(&record), Err(RecordFault::Padding));
        }
    }
}

/// Each form that could pad or cut a name gives the name alone, whatever the width in the format.
fn prints<T: Display + Debug>(rt: &(impl Abort + AllocGlobal), fault: &T, name: &str) {
    for width in 0..300usize {
        let printed = format!(in rt.alloc();
            "{fault}{fault:#}{fault:width$}{fault:<width$}{fault:>width$}{fault:*^width$}\
            {fault:0width$}{fault:#width$}{fault:.width$}{fault:>width$.1}\
            {fault:?}{fault:#?}{fault:width$?}{fault:>width$?}{fault:*^#width$?}{fault:.1?}"
        );
        let printed = printed.expect(rt, "memory");
        agree(rt, printed.as_str().trim_start_matches(name), "");
        agree(rt, printed.len() / 16, name.len());
        agree(rt, printed.len() % 16, 0);
    }
}

#[test]
fn faults_are_printed_by_name(rt: HostRuntime) {
    prints(&rt, &RecordFault::Length, "Length");
    prints(&rt, &RecordFault::Count, "Count");
    prints(&rt, &RecordFault::Utf8, "Utf8");
    prints(&rt, &RecordFault::Padding, "Padding");
    prints(&rt, &UserFault::Username, "Username");
    prints(&rt, &UserFault::Role, "Role");
}
