//! Arguments of an environment of the test's own, words that are served, and writers that fail while a
//! script is served.
use super::memory::{all_memory, are_written, bytes};
use arraystring::MaxString;
use arraystring_run::program::{given_word, serve};
use std::alloc::Global;
use std::env::{Env, FillError};
use std::fmt::Write as _;
use std::io::ErrorKind;
use std::process::Abort;
use test_support::writer::FakeWriter;

/// An environment that has arguments, the program's name the first, and nothing else.
#[derive(Drop)]
pub(super) struct Arguments<'a> {
    pub(super) all: &'a [&'a [u8]],
}

impl Env for Arguments<'_> {
    fn arg(&self, i: usize, buf: &mut [u8]) -> Result<usize, FillError> {
        let Some(bytes) = self.all.get(i) else {
            return Err(FillError::NotPresent);
        };
        if bytes.len() > buf.len() {
            return Err(FillError::TooLong);
        }
        buf[..bytes.len()].copy_from_slice(bytes);
        Ok(bytes.len())
    }

    fn var(&self, _name: &str, _buf: &mut [u8]) -> Result<usize, FillError> {
        Err(FillError::NotPresent)
    }

    fn var_at(&self, _i: usize, _buf: &mut [u8]) -> Result<usize, FillError> {
        Err(FillError::NotPresent)
    }
}

/// Compares the word of some arguments.
fn gives(rt: &impl Abort, all: &[&[u8]], wanted: Option<&str>) {
    let word = given_word(&Arguments { all });
    assert_eq!(rt; word.as_ref().map(MaxString::as_str), wanted);
}

#[test]
fn the_only_argument_is_the_word(rt: HostRuntime) {
    let letters = [b'a'; 256];
    let all: [&[u8]; 6] = [b"program", b"small", b"cache", b"", b"\xFF", &letters];
    gives(&rt, &[], None);
    gives(&rt, &[all[0]], None);
    gives(&rt, &[all[0], all[1]], Some("small"));
    gives(&rt, &[all[4], all[1]], Some("small"));
    gives(&rt, &[all[5], all[2]], Some("cache"));
    gives(&rt, &[all[0], all[3]], Some(""));
    gives(&rt, &[all[0], all[4]], None);
    gives(&rt, &[all[0], all[5]], None);
    gives(&rt, &[all[0], all[1], all[2]], None);
    gives(&rt, &[all[0], all[1], all[3]], None);
    gives(&rt, &[all[0], all[1], all[4]], None);
    gives(&rt, &[all[0], all[1], all[3], all[3]], None);
    let word = given_word(&Arguments {
        all: &[all[0], &letters[..255]],
    });
    assert_eq!(rt; word.map(|word| word.len()), Some(255));
}

/// A first argument of each length that fits is the word if it is the only one. With a second argument of any length,
/// there is no word.
#[test]
fn arguments_of_each_length(rt: HostRuntime) {
    let letters = "a".repeat(rt.alloc(), 256).expect(&rt, "memory");
    for length in 0..=256usize {
        let argument = letters.get(..length).unwrap_or("none");
        let wanted = if length < 256 { Some(argument) } else { None };
        let all: [&[u8]; 3] = [b"program", argument.as_bytes(), argument.as_bytes()];
        gives(&rt, &all[..2], wanted);
        gives(&rt, &all, None);
        gives(&rt, &[all[0], b"small", all[2]], None);
    }
}

/// Asserts that what the program did with a word is what is wanted.
fn same(rt: &impl Abort, what: &str, word: &str, gave: &[u8], wanted: &[u8]) {
    assert_eq!(rt; gave, wanted, "the {what} at {word}");
}

/// Serves a script, and compares the status, the output and the line on `errors`.
fn serves(
    rt: &impl Abort,
    alloc: Global,
    word: Option<&str>,
    status: u8,
    wanted: &[u8],
    reported: &[u8],
) {
    let mut input: &[u8] = b"push_str ab\nlen\n";
    let mut output = Vec::new(alloc);
    let mut errors = Vec::new(alloc);
    let served = serve(alloc, word, &mut input, &mut output, &mut errors);
    let word = word.unwrap_or("no word");
    same(rt, "status", word, &[served], &[status]);
    same(rt, "output", word, &output, wanted);
    same(rt, "errors", word, &errors, reported);
}

pub(super) const USAGE: &[u8] = b"usage: arraystring_run small or cache or max\n";

#[test]
fn words_are_served(rt: HostRuntime) {
    let wanted = b"done\nnumber 2\nfinal ab\n";
    for word in ["small", "cache", "max"] {
        serves(&rt, rt.alloc(), Some(word), 0, wanted, b"");
    }
    for word in [None, Some(""), Some("Small"), Some("big")] {
        serves(&rt, rt.alloc(), word, 2, b"", USAGE);
    }
}

/// A word is judged before memory is wanted.
#[test]
fn words_are_judged_without_memory(rt: HostRuntime) {
    let alloc = rt.alloc();
    let (mut output, mut errors) = (bytes(&rt, 100), bytes(&rt, 100));
    let mut input: &[u8] = b"len\n";
    let Some(scarce) = all_memory(&rt) else {
        return;
    };
    let big = serve(alloc, Some("big"), &mut input, &mut output, &mut errors);
    let max = serve(alloc, Some("max"), &mut input, &mut output, &mut errors);
    drop(scarce);
    same(&rt, "statuses", "big and max", &[big, max], &[2, 3]);
    let reported = "usage: arraystring_run small or cache or max\nout of memory\n";
    are_written(&rt, &output, &errors, "", reported);
}

pub(super) const WORDS: [&str; 3] = ["small", "cache", "max"];

/// How many replies the scripts have. Those of the last have more than 8,192 bytes, which is as much as waits
/// at most.
const COUNTS: [usize; 7] = [0, 1, 5, 6, 7, 100, MANY];

const MANY: usize = 600;

const LETTERS: &str = "abcdefghijklmnopqrstuvw";

/// A script of `count` replies, and what it prints. Each two lines that follow each other differ. So a test
/// sees a line that is lost or comes twice.
fn script_of(rt: &(impl Abort + AllocGlobal), count: usize) -> (String, String) {
    let mut script = String::new(rt.alloc());
    let mut wanted = String::new(rt.alloc());
    for at in 0..count {
        if at == 0 {
            writeln!(script, "push_str {LETTERS}").expect(rt, "memory for a line");
            writeln!(wanted, "done").expect(rt, "memory for a reply");
        } else {
            let end = at % 24;
            let text = LETTERS.get(..end).unwrap_or("none");
            writeln!(script, "get 0 {end}").expect(rt, "memory for a line");
            writeln!(wanted, "text {text}").expect(rt, "memory for a reply");
        }
    }
    let last = if count == 0 { "" } else { LETTERS };
    writeln!(wanted, "final {last}").expect(rt, "memory for the text");
    (script, wanted)
}

/// Serves a script with a writer, and compares the status, what the writer took, and the line on
/// `errors`, which only a failed write has.
fn writes(
    rt: &impl Abort,
    alloc: Global,
    word: &str,
    script: &str,
    mut output: FakeWriter,
    status: u8,
    wanted: &[u8],
) {
    let mut input = script.as_bytes();
    let mut errors = Vec::new(alloc);
    let served = serve(alloc, Some(word), &mut input, &mut output, &mut errors);
    let reported: &[u8] = if status == 4 { b"write failed\n" } else { b"" };
    same(rt, "status", word, &[served], &[status]);
    same(rt, "output", word, &output.taken, wanted);
    same(rt, "errors", word, &errors, reported);
}

/// The writer takes a few bytes at a time, or a few hundred of the longest output, and is interrupted before each
/// write.
#[test]
fn short_and_interrupted_writes_are_joined(rt: HostRuntime) {
    for count in COUNTS {
        let (script, wanted) = script_of(&rt, count);
        let most = if count == MANY { 100usize } else { 1 };
        for step in 1..=8usize {
            for faults in [0u8, 1, 2, 3, 10] {
                for word in WORDS {
                    let mut output = FakeWriter::new(rt.alloc(), 0, Some(ErrorKind::Interrupted));
                    output.step = step.saturating_mul(most);
                    output.faults = faults;
                    output.again = faults;
                    writes(&rt, rt.alloc(), word, &script, output, 0, wanted.as_bytes());
                }
            }
        }
    }
}

/// All bytes are written, but the flush of the writer fails.
#[test]
fn a_failed_flush_is_reported(rt: HostRuntime) {
    for count in COUNTS {
        let (script, wanted) = script_of(&rt, count);
        for word in WORDS {
            for step in 1..=20usize {
                let mut output = FakeWriter::new(rt.alloc(), usize::MAX, None);
                output.step = step;
                output.flushes = false;
                writes(&rt, rt.alloc(), word, &script, output, 4, wanted.as_bytes());
            }
        }
    }
}

/// Serves a script with a writer that fails after each number of bytes, and after all. Of the two
/// longest outputs, these are every 17th number and every 601st, and those within 40 of 8,192.
fn fails_after_each(rt: &(impl Abort + AllocGlobal), word: &str, kind: Option<ErrorKind>) {
    let mut served = 0u32;
    for count in COUNTS {
        let (script, wanted) = script_of(rt, count);
        let whole = wanted.as_bytes();
        let stride = if count == MANY {
            601usize
        } else if count == 100 {
            17
        } else {
            1
        };
        for room in 0..=whole.len() {
            let is_near = room.abs_diff(8192) <= 40;
            if room % stride != 0 && room < whole.len() && !is_near {
                continue;
            }
            let output = FakeWriter::new(rt.alloc(), room, kind);
            let status = if room < whole.len() { 4 } else { 0 };
            writes(
                rt,
                rt.alloc(),
                word,
                &script,
                output,
                status,
                &whole[..room],
            );
            served = served.wrapping_add(1);
        }
    }
    // The outputs have 7, 35, 69, 80, 92, 1,739 and 10,529 bytes. Of the 81 numbers near 8,192 none is a multiple of 601.
    assert_eq!(rt; served, 8 + 36 + 70 + 81 + 93 + 104 + 19 + 81);
}

/// A writer that failed has taken all bytes that it had room for.
#[test]
fn a_failed_write_is_reported(rt: HostRuntime) {
    for word in WORDS {
        fails_after_each(&rt, word, Some(ErrorKind::Other));
    }
}

/// A writer that takes nothing fails too.
#[test]
fn a_write_of_nothing_is_reported(rt: HostRuntime) {
    for word in WORDS {
        fails_after_each(&rt, word, None);
    }
}
