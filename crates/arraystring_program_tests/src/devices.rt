//! Readers and writers that fail, are interrupted, or give and take little at a time.
use super::program::WORDS;
use super::table::agree;
use arraystring_run::{PlayFault, play, serve};
use std::alloc::Global;
use std::io::ErrorKind;
use std::process::Abort;
use test_support::reader::FakeReader;
use test_support::scripts::{OUTPUT, SCRIPT};
use test_support::writer::FakeWriter;

/// A read that fails is reported, also if a bad line was read before it.
#[test]
fn a_failed_read_is_reported(rt: HostRuntime) {
    for reads in 0..8usize {
        let mut input = FakeReader::new(b"len\nbad\nlen\n", 2, reads, ErrorKind::Other);
        let mut output = Vec::new(rt.alloc());
        let played = play::<23, FakeReader, Vec<u8>>(rt.alloc(), &mut input, &mut output);
        let wanted = if reads < 7 {
            PlayFault::Read
        } else {
            PlayFault::BadLine(2)
        };
        agree(&rt, "what is returned", played, Err(wanted));
        agree(&rt, "the output", output.len(), 0);
    }
}

/// Plays the script from a reader of `step` bytes a read. After `reads` reads, `faults` in a row are
/// interrupted, and after each later read `again` in a row.
fn reads_on(rt: &impl Abort, alloc: Global, step: usize, reads: usize, faults: u8, again: u8) {
    let mut input = FakeReader::new(SCRIPT.as_bytes(), step, reads, ErrorKind::Interrupted);
    input.faults = faults;
    input.again = again;
    let mut output = Vec::new(alloc);
    let played = play::<23, FakeReader, Vec<u8>>(alloc, &mut input, &mut output);
    agree(rt, "what is returned", played, Ok(()));
    agree(rt, "the output", output.as_slice(), OUTPUT.as_bytes());
}

/// Whatever the size of a read, the read before each byte of the script, and the one at its end, is interrupted up to
/// ten times in a row: only this read, or this one and each later one.
#[test]
fn short_and_interrupted_reads_are_joined(rt: HostRuntime) {
    for step in 1..=SCRIPT.len() {
        for reads in 0..=SCRIPT.len() {
            for faults in 0..=10u8 {
                reads_on(&rt, rt.alloc(), step, reads, faults, 0);
                reads_on(&rt, rt.alloc(), step, reads, faults, faults);
            }
        }
    }
}

/// Plays a script to a writer, and compares what is returned and what the writer took.
fn writes<const N: usize>(
    rt: &impl Abort,
    alloc: Global,
    mut output: FakeWriter,
    script: &[u8],
    outcome: Result<(), PlayFault>,
    wanted: &[u8],
) {
    let mut input = script;
    let played = play::<N, &[u8], FakeWriter>(alloc, &mut input, &mut output);
    agree(rt, "what is returned", played, outcome);
    agree(rt, "the output", output.taken.as_slice(), wanted);
}

/// A writer that fails, or takes nothing, before any byte of the output took all bytes before that one, and nothing
/// comes after them.
#[test]
fn a_failed_write_is_reported(rt: HostRuntime) {
    let (script, whole) = (SCRIPT.as_bytes(), OUTPUT.as_bytes());
    let outcome = Err(PlayFault::Write);
    for room in 0..whole.len() {
        for kind in [Some(ErrorKind::Other), None] {
            let output = FakeWriter::new(rt.alloc(), room, kind);
            writes::<23>(&rt, rt.alloc(), output, script, outcome, &whole[..room]);
        }
    }
}

/// A text of each size is printed up to the byte at which the writer fails, and is printed whole by
/// one that fails nowhere.
#[test]
fn texts_of_each_size_are_printed(rt: HostRuntime) {
    for size in 0..=255usize {
        let text = "a".repeat(rt.alloc(), size).expect(&rt, "memory");
        let script = format!(in rt.alloc(); "push_str {text}\nas_str\n").expect(&rt, "memory");
        let wanted = format!(in rt.alloc(); "done\ntext {text}\nfinal {text}\n").expect(
            &rt, "memory",
        );
        let (script, whole) = (script.as_bytes(), wanted.as_bytes());
        for room in 0..whole.len() {
            let output = FakeWriter::new(rt.alloc(), room, Some(ErrorKind::Other));
            let outcome = Err(PlayFault::Write);
            writes::<255>(&rt, rt.alloc(), output, script, outcome, &whole[..room]);
        }
        let output = FakeWriter::new(rt.alloc(), usize::MAX, None);
        writes::<255>(&rt, rt.alloc(), output, script, Ok(()), whole);
    }
}

/// Plays the script to a writer of `step` bytes a write. After `room` bytes, `faults` writes in a
/// row are interrupted, and after each later one `again` in a row.
fn writes_on(rt: &impl Abort, alloc: Global, step: usize, room: usize, faults: u8, again: u8) {
    let mut output = FakeWriter::new(alloc, room, Some(ErrorKind::Interrupted));
    output.step = step;
    output.faults = faults;
    output.again = again;
    let wanted = OUTPUT.as_bytes();
    writes::<23>(rt, alloc, output, SCRIPT.as_bytes(), Ok(()), wanted);
}

/// Whatever the size of a write, the write before each byte of the output is interrupted up to ten times in a row: only
/// this write, or this one and each later one.
#[test]
fn short_and_interrupted_writes_are_joined(rt: HostRuntime) {
    for step in 1..=OUTPUT.len() {
        for room in 0..OUTPUT.len() {
            for faults in 0..=10u8 {
                writes_on(&rt, rt.alloc(), step, room, faults, 0);
                writes_on(&rt, rt.alloc(), step, room, faults, faults);
            }
        }
    }
}

/// Reads and writes are interrupted up to 255 times in a row: before the first byte, the second and the last, and a
/// read at the end, too. At last each read, or each write, is interrupted as often.
#[test]
fn long_interruptions_are_waited_out(rt: HostRuntime) {
    for faults in 0..=255u8 {
        for reads in [0, 1, SCRIPT.len().saturating_sub(1), SCRIPT.len()] {
            reads_on(&rt, rt.alloc(), 1, reads, faults, 0);
        }
        for room in [0, 1, OUTPUT.len().saturating_sub(1)] {
            writes_on(&rt, rt.alloc(), 1, room, faults, 0);
        }
    }
    reads_on(&rt, rt.alloc(), 1, 0, 255, 255);
    writes_on(&rt, rt.alloc(), 1, 0, 255, 255);
}

/// Plays a script to a writer that takes all and fails to flush.
fn fails_to_flush(rt: &impl Abort, alloc: Global, script: &str, wanted: &str) {
    let mut output = FakeWriter::new(alloc, usize::MAX, None);
    output.flushes = false;
    let outcome = Err(PlayFault::Write);
    writes::<23>(
        rt,
        alloc,
        output,
        script.as_bytes(),
        outcome,
        wanted.as_bytes(),
    );
}

/// A flush that fails is a failed write, however many replies there are.
#[test]
fn a_failed_flush_is_reported(rt: HostRuntime) {
    for count in 0..=100usize {
        let script = "len\n".repeat(rt.alloc(), count).expect(&rt, "memory");
        let replies = "number 0\n".repeat(rt.alloc(), count).expect(&rt, "memory");
        let wanted = format!(in rt.alloc(); "{replies}final \n").expect(&rt, "memory");
        fails_to_flush(&rt, rt.alloc(), &script, &wanted);
    }
    fails_to_flush(&rt, rt.alloc(), SCRIPT, OUTPUT);
}

/// A script is read byte by byte, by more reads than two bytes can count, with and without an interruption before each.
#[test]
fn any_number_of_reads_is_joined(rt: HostRuntime) {
    let script = "len\n".repeat(rt.alloc(), 17500).expect(&rt, "memory");
    for again in 0..=1u8 {
        let mut input = FakeReader::new(script.as_bytes(), 1, 0, ErrorKind::Interrupted);
        input.faults = again;
        input.again = again;
        let mut output = Vec::new(rt.alloc());
        let played = play::<23, FakeReader, Vec<u8>>(rt.alloc(), &mut input, &mut output);
        agree(&rt, "what is returned", played, Ok(()));
        // 17,500 lines `number 0`, and a line `final `
        agree(&rt, "the output", output.len(), 157507);
    }
}

/// With each word, the read before each byte of the script fails, and so does the one at its end. Each failure
/// is reported.
#[test]
fn failed_reads_are_served(rt: HostRuntime) {
    for word in WORDS {
        for reads in 0..=SCRIPT.len() {
            let mut input = FakeReader::new(SCRIPT.as_bytes(), 1, reads, ErrorKind::Other);
            let mut output = Vec::new(rt.alloc());
            let mut errors = Vec::new(rt.alloc());
            let status = serve(rt.alloc(), Some(word), &mut input, &mut output, &mut errors);
            agree(&rt, word, (status, output.len()), (4, 0));
            agree(&rt, word, errors.as_slice(), b"read failed\n".as_slice());
        }
    }
}

/// The write before each byte of the output fails, or takes nothing. After the last byte, the flush fails.
#[test]
fn failed_writes_are_served(rt: HostRuntime) {
    let whole = OUTPUT.as_bytes();
    for word in WORDS {
        for room in 0..=whole.len() {
            for kind in [Some(ErrorKind::Other), None] {
                let mut input = SCRIPT.as_bytes();
                let mut output = FakeWriter::new(rt.alloc(), room, kind);
                output.flushes = room < whole.len();
                let mut errors = Vec::new(rt.alloc());
                let status = serve(rt.alloc(), Some(word), &mut input, &mut output, &mut errors);
                agree(&rt, word, status, 4);
                agree(&rt, word, output.taken.as_slice(), &whole[..room]);
                agree(&rt, word, errors.as_slice(), b"write failed\n".as_slice());
            }
        }
    }
}

/// Serves `script` with a writer for errors that fails before byte `room` of the line, takes nothing
/// there, or is interrupted. The line is cut there, or is whole.
fn reports(rt: &impl Abort, alloc: Global, word: &str, script: &str, status: u8, line: &str) {
    let line = line.as_bytes();
    for room in 0..line.len() {
        for kind in [Some(ErrorKind::Other), None, Some(ErrorKind::Interrupted)] {
            let mut input = script.as_bytes();
            let mut output = FakeWriter::new(alloc, 0, Some(ErrorKind::Other));
            let mut errors = FakeWriter::new(alloc, room, kind);
            let served = serve(alloc, Some(word), &mut input, &mut output, &mut errors);
            let cut = if kind == Some(ErrorKind::Interrupted) {
                line
            } else {
                &line[..room]
            };
            agree(rt, word, (served, output.taken.len()), (status, 0));
            agree(rt, word, errors.taken.as_slice(), cut);
        }
    }
}

/// If the writer of errors fails, only the line that it should have is cut, and the status is the same: after a word
/// that names no capacity, after a bad line, however large its number, and after a write that fails.
#[test]
fn a_failed_line_is_let_go(rt: HostRuntime) {
    let usage = "usage: arraystring_run small or cache or max\n";
    reports(&rt, rt.alloc(), "", "len", 2, usage);
    for word in WORDS {
        reports(&rt, rt.alloc(), word, "len", 4, "write failed\n");
        for before in [0usize, 1, 8, 9, 98, 99, 998, 999, 1000] {
            let lines = "len\n".repeat(rt.alloc(), before).expect(&rt, "memory");
            let script = format!(in rt.alloc(); "{lines}bad").expect(&rt, "memory");
            let number = before.saturating_add(1);
            let line = format!(in rt.alloc(); "bad line {number}\n").expect(&rt, "memory");
            reports(&rt, rt.alloc(), word, &script, 2, &line);
        }
    }
}
