//! Scripts that are played and served over memory.
use super::table::{agree, output_of_run};
use arraystring_run::{PlayFault, play, serve};
use std::alloc::Global;
use std::io::ErrorKind;
use std::process::Abort;
use test_support::reader::FakeReader;
use test_support::scripts::{EXAMPLE, EXAMPLE_OUTPUT, OUTPUT, SCRIPT};
use test_support::table::{column, rows};

/// Plays `script` at 23 bytes, and compares what is returned and what is written.
pub(super) fn plays(
    rt: &impl Abort,
    alloc: Global,
    script: &[u8],
    outcome: Result<(), PlayFault>,
    wanted: &[u8],
) {
    let mut output = Vec::new(alloc);
    let mut input = script;
    let played = play::<23, &[u8], Vec<u8>>(alloc, &mut input, &mut output);
    agree(rt, "what is returned", played, outcome);
    agree(rt, "what is printed", output.as_slice(), wanted);
}

#[test]
fn scripts_are_played(rt: HostRuntime) {
    plays(
        &rt,
        rt.alloc(),
        SCRIPT.as_bytes(),
        Ok(()),
        OUTPUT.as_bytes(),
    );
    plays(&rt, rt.alloc(), b"len", Ok(()), b"number 0\nfinal \n");
    plays(&rt, rt.alloc(), b"", Ok(()), b"final \n");
    plays(
        &rt,
        rt.alloc(),
        b"len\npop ",
        Err(PlayFault::BadLine(2)),
        b"",
    );
    let trimmed = "push_str \ta\u{3000}\ntrim\nlen\n";
    let wanted = b"done\ndone\nnumber 1\nfinal a\n";
    plays(&rt, rt.alloc(), trimmed.as_bytes(), Ok(()), wanted);
    let refused = b"push_str 0123456789abcdefghijklm\ntry_push n\npop\npop\n";
    let wanted = b"done\nrefused OutOfBounds\nchar m\nchar l\nfinal 0123456789abcdefghijk\n";
    plays(&rt, rt.alloc(), refused, Ok(()), wanted);
    plays(
        &rt,
        rt.alloc(),
        b"pop\ncapacity\n",
        Ok(()),
        b"no char\nnumber 23\nfinal \n",
    );
    let inside = "push_str é\nremove 1\ntruncate 1\n".as_bytes();
    let wanted = "done\nrefused Utf8\nrefused Utf8\nfinal é\n".as_bytes();
    plays(&rt, rt.alloc(), inside, Ok(()), wanted);
}

/// A character past the first plane and U+FFFD, by the bytes of their UTF-8.
#[test]
fn characters_are_printed_in_utf8(rt: HostRuntime) {
    let script = "push_str \u{1D11E}\u{FFFD}\nas_str\npop\npop\ntry_push \u{1D11E}\n";
    let wanted = b"done\ntext \xF0\x9D\x84\x9E\xEF\xBF\xBD\nchar \xEF\xBF\xBD\n\
        char \xF0\x9D\x84\x9E\ndone\nfinal \xF0\x9D\x84\x9E\n";
    plays(&rt, rt.alloc(), script.as_bytes(), Ok(()), wanted);
}

/// A script of more than a thousand lines and 64 KiB, which takes more than a hundred reads, on a string whose `N` is
/// above a thousand.
#[test]
fn long_scripts_are_played(rt: HostRuntime) {
    let mut script = Vec::new(rt.alloc());
    let mut wanted = Vec::new(rt.alloc());
    for _ in 0..6000u16 {
        script
            .extend_from_slice(b"push_str ab\n")
            .expect(&rt, "memory");
        wanted.extend_from_slice(b"done\n").expect(&rt, "memory");
    }
    wanted.extend_from_slice(b"final ").expect(&rt, "memory");
    for _ in 0..127u8 {
        wanted.extend_from_slice(b"ab").expect(&rt, "memory");
    }
    wanted.extend_from_slice(b"a\n").expect(&rt, "memory");
    let mut input = FakeReader::new(&script, 500, 0, ErrorKind::Other);
    input.faults = 0;
    let mut output = Vec::new(rt.alloc());
    let played = play::<2000, FakeReader, Vec<u8>>(rt.alloc(), &mut input, &mut output);
    agree(&rt, "what is returned", played, Ok(()));
    agree(&rt, "the output", output.as_slice(), wanted.as_slice());
    script.extend_from_slice(b"Len\n").expect(&rt, "memory");
    plays(&rt, rt.alloc(), &script, Err(PlayFault::BadLine(6001)), b"");
}

/// A script of one line, of each size from 64 bytes to 4 MiB that is a power of 2, one less or one more, or
/// half as much again.
#[test]
fn long_lines_are_played(rt: HostRuntime) {
    let letters = "a".repeat(rt.alloc(), 6 << 20).expect(&rt, "memory");
    let whole = format!(in rt.alloc(); "push_str {letters}").expect(&rt, "memory");
    let kept = letters.get(..23).unwrap_or("none");
    let wanted = format!(in rt.alloc(); "done\nfinal {kept}\n").expect(&rt, "memory");
    for shift in 6..=22u32 {
        let power = 1usize.wrapping_shl(shift);
        let (less, more) = (power.wrapping_sub(1), power.wrapping_add(1));
        for size in [less, power, more, power.wrapping_add(power >> 1)] {
            let script = whole.as_bytes().get(..size).unwrap_or(b"none");
            plays(&rt, rt.alloc(), script, Ok(()), wanted.as_bytes());
        }
    }
}

/// Scripts of a little more than 3 MiB, whose lines all have one size, alone and with a bad line behind.
#[test]
fn scripts_of_three_mebibytes_are_played(rt: HostRuntime) {
    let letters = "a".repeat(rt.alloc(), 100000).expect(&rt, "memory");
    for (size, count) in [
        (50usize, 62915usize),
        (1000, 3146),
        (8193, 384),
        (100000, 32),
    ] {
        let text = letters.get(..size.saturating_sub(10)).unwrap_or("none");
        let line = format!(in rt.alloc(); "push_str {text}\n").expect(&rt, "memory");
        let mut script = line.repeat(rt.alloc(), count).expect(&rt, "memory");
        let kept = letters.get(..23).unwrap_or("none");
        let replies = "done\n".repeat(rt.alloc(), count).expect(&rt, "memory");
        let wanted = format!(in rt.alloc(); "{replies}final {kept}\n").expect(&rt, "memory");
        plays(
            &rt,
            rt.alloc(),
            script.as_bytes(),
            Ok(()),
            wanted.as_bytes(),
        );
        script.push_str("pop ").expect(&rt, "memory");
        let bad = Err(PlayFault::BadLine(count.saturating_add(1)));
        plays(&rt, rt.alloc(), script.as_bytes(), bad, b"");
    }
}

/// For each number up to 300, the line of this number is the first bad one. In all cases but the last, other bad
/// lines follow it.
#[test]
fn the_first_bad_line_is_reported(rt: HostRuntime) {
    for number in 1..=300usize {
        let before = number.saturating_sub(1);
        let before = "len\n".repeat(rt.alloc(), before).expect(&rt, "memory");
        for bad in ["Len\n", "\n", "len \n", "\0len\nlen\nLen\n", "pop"] {
            let script = format!(in rt.alloc(); "{before}{bad}x").expect(&rt, "memory");
            plays(
                &rt,
                rt.alloc(),
                script.as_bytes(),
                Err(PlayFault::BadLine(number)),
                b"",
            );
        }
    }
}

/// What is printed of the example if it is cut at a byte; cut elsewhere, its last line is bad. The
/// columns of a row are
///
///     byte | printed replies | last text
const CUTS: &str = "
    0  |                                                                             |
    9  | done                                                                        |
    10 | done                                                                        | A
    11 | done                                                                        | AB
    12 | done                                                                        | ABC
    13 | done                                                                        | ABCD
    17 | done                                                                        | ABCD🤔
    18 | done                                                                        | ABCD🤔
    32 | done, done                                                                  | AABCD🤔
    33 | done, done                                                                  | AABCD🤔
    50 | done, done, done                                                            | AABCD🤔
    51 | done, done, done                                                            | AABBCD🤔
    52 | done, done, done                                                            | AABBCD🤔
    66 | done, done, done, refused OutOfBounds                                       | AABBCD🤔
    67 | done, done, done, text 🤔DC                                                 | AABB
    68 | done, done, done, text 🤔DC                                                 | AABB
    75 | done, done, done, text 🤔DC, no text                                        | AABB
    76 | done, done, done, text 🤔DC, no text                                        | AABB
    84 | done, done, done, text 🤔DC, no text, refused OutOfBounds                   | AABB
    85 | done, done, done, text 🤔DC, no text, refused OutOfBounds                   | AABB
    91 | done, done, done, text 🤔DC, no text, refused OutOfBounds, text AABB        | AABB
    92 | done, done, done, text 🤔DC, no text, refused OutOfBounds, text AABB        | AABB
    ";

/// The row of `CUTS` for the example cut off after `end` bytes, or `None` if its last line is bad then.
fn cut_at(end: usize) -> Option<&'static str> {
    for row in rows(CUTS) {
        if column(row, 0).parse() == Ok(end) {
            return Some(row);
        }
    }
    None
}

#[test]
fn the_example_cut_at_each_byte(rt: HostRuntime) {
    let whole = EXAMPLE.as_bytes();
    agree(&rt, "the example", whole.len(), 92);
    let (mut number, mut cuts) = (1usize, 0usize);
    for end in 0..=whole.len() {
        let script = &whole[..end];
        if script.last() == Some(&b'\n') {
            number = number.saturating_add(1);
        }
        if let Some(row) = cut_at(end) {
            let wanted = output_of_run(&rt, column(row, 1), column(row, 2));
            plays(&rt, rt.alloc(), script, Ok(()), wanted.as_bytes());
            cuts = cuts.saturating_add(1);
        } else {
            let bad = Err(PlayFault::BadLine(number));
            plays(&rt, rt.alloc(), script, bad, b"");
        }
    }
    agree(&rt, "the cuts", cuts, 22);
}

/// Serves `script`, and compares the status, the output and the line of the fault.
fn serves(
    rt: &impl Abort,
    alloc: Global,
    word: Option<&str>,
    script: &[u8],
    status: u8,
    wanted: &[u8],
    reported: &[u8],
) {
    let mut output = Vec::new(alloc);
    let mut errors = Vec::new(alloc);
    let mut input = script;
    let served = serve(alloc, word, &mut input, &mut output, &mut errors);
    agree(rt, "the status", served, status);
    agree(rt, "the output", output.as_slice(), wanted);
    agree(rt, "the errors", errors.as_slice(), reported);
    let left = if reported.starts_with(b"usage") {
        script.len()
    } else {
        0
    };
    agree(rt, "the input", input.len(), left);
}

#[test]
fn words_are_served(rt: HostRuntime) {
    let usage = b"usage: arraystring_run small or cache or max\n";
    for word in [None, Some("big"), Some(""), Some("Small"), Some("small ")] {
        serves(&rt, rt.alloc(), word, b"len\n", 2, b"", usage);
    }
    serves(
        &rt,
        rt.alloc(),
        Some("small"),
        b"capacity",
        0,
        b"number 23\nfinal \n",
        b"",
    );
    serves(
        &rt,
        rt.alloc(),
        Some("cache"),
        b"capacity",
        0,
        b"number 63\nfinal \n",
        b"",
    );
    serves(
        &rt,
        rt.alloc(),
        Some("max"),
        b"capacity",
        0,
        b"number 255\nfinal \n",
        b"",
    );
    serves(
        &rt,
        rt.alloc(),
        Some("small"),
        SCRIPT.as_bytes(),
        0,
        OUTPUT.as_bytes(),
        b"",
    );
    serves(
        &rt,
        rt.alloc(),
        Some("cache"),
        b"Pop\n",
        2,
        b"",
        b"bad line 1\n",
    );
    serves(
        &rt,
        rt.alloc(),
        Some("max"),
        b"pop\nlen\n\n",
        2,
        b"",
        b"bad line 3\n",
    );
}

#[test]
fn the_example_is_served(rt: HostRuntime) {
    serves(
        &rt,
        rt.alloc(),
        Some("small"),
        EXAMPLE.as_bytes(),
        0,
        EXAMPLE_OUTPUT.as_bytes(),
        b"",
    );
}
