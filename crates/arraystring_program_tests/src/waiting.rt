//! Outputs of about 8,192 bytes, which is as much as waits at most, and of about 16,384: on writers that take all, fail,
//! are interrupted or take little.
use super::table::agree;
use arraystring_run::{PlayFault, play};
use std::fmt::Write as _;
use std::io::ErrorKind;
use std::process::Abort;
use test_support::writer::FakeWriter;

/// How many bytes wait at most.
const BLOCK: usize = 8192;

/// The text of a script. The first 23 letters are all of it where no more fit.
const LETTERS: &str =
    "abcdefghijklmnopqrstuvwabcdefghijklmnopqrstuvwabcdefghijklmnopqrstuvwabcdefghijklmnopqrstuvw\
    abcdefghijklmnopqrstuvwabcdefghijklmnopqrstuvwabcdefghijklmnopqrstuvwabcdefghijklmnopqrstuvw\
    abcdefghijklmnopqrstuvwabcdefghijklmnopqrstuvwabcdefghijklmnopqrstuvw";

/// The letters that are left of the text before it is printed at last.
const LAST: &str = "abcdefghijklmnopqrstuvw";

/// Adds a line that asks for the first letters, and its reply, which has `size` bytes: `text `, the letters and a
/// newline.
fn ask(rt: &impl Abort, script: &mut String, replies: &mut String, size: usize) {
    let end = size.saturating_sub(6);
    let text = LETTERS.get(..end).unwrap_or("none");
    writeln!(script, "get 0 {end}").expect(rt, "memory for a line");
    writeln!(replies, "text {text}").expect(rt, "memory for a reply");
}

/// The size of the reply that comes after `before` bytes, if `left` are to come: 7 to 29 bytes. If replies may be `long`,
/// it is 200 to 249 where the end and each end of a block are farther than 100 bytes, so that a script has few lines.
fn size_of(before: usize, left: usize, at: usize, long: bool) -> usize {
    let behind = before % BLOCK;
    let is_far = behind >= 100 && BLOCK.saturating_sub(behind) >= 350 && left >= 350;
    if long && is_far {
        200 + at % 50
    } else {
        7 + at % 23
    }
}

/// A script with replies of so many bytes, at least 41, and the replies. Two lines that follow each other differ.
fn script_of(rt: &(impl Abort + AllocGlobal), bytes: usize, long: bool) -> (String, String) {
    let mut script = String::new(rt.alloc());
    let mut replies = String::new(rt.alloc());
    writeln!(script, "push_str {LETTERS}").expect(rt, "memory for a line");
    writeln!(replies, "done").expect(rt, "memory for a reply");
    let mut left = bytes.saturating_sub(5);
    for at in 0..bytes {
        if left < 36 {
            break;
        }
        let size = size_of(replies.len(), left, at, long);
        ask(rt, &mut script, &mut replies, size);
        left = left.saturating_sub(size);
    }
    if left > 29 {
        ask(rt, &mut script, &mut replies, 12);
        left = left.saturating_sub(12);
    }
    ask(rt, &mut script, &mut replies, left);
    agree(rt, "the bytes", replies.len(), bytes);
    (script, replies)
}

/// A script that prints so many bytes, at least 76, and what it prints. The last line has 30 bytes.
fn script_that_prints(
    rt: &(impl Abort + AllocGlobal),
    bytes: usize,
    long: bool,
) -> (String, String) {
    let (mut script, mut wanted) = script_of(rt, bytes.saturating_sub(35), long);
    writeln!(script, "truncate 23").expect(rt, "memory for a line");
    writeln!(wanted, "done\nfinal {LAST}").expect(rt, "memory for the text");
    agree(rt, "the bytes", wanted.len(), bytes);
    (script, wanted)
}

/// Plays a script into a writer, and compares what is returned and what the writer took.
fn plays<const N: usize>(
    rt: &(impl Abort + AllocGlobal),
    script: &str,
    mut output: FakeWriter,
    outcome: Result<(), PlayFault>,
    wanted: &[u8],
) {
    let mut input = script.as_bytes();
    let played = play::<N, &[u8], FakeWriter>(rt.alloc(), &mut input, &mut output);
    agree(rt, "what is returned", played, outcome);
    agree(rt, "the output", output.taken.as_slice(), wanted);
}

/// Each number of bytes within 40 of a multiple of 8,192 is written. If the flush fails then, the output is whole.
#[test]
fn outputs_of_each_size_are_written(rt: HostRuntime) {
    for blocks in 1..=2usize {
        for more in 0..=80usize {
            let bytes = (blocks * BLOCK + more).saturating_sub(40);
            let (script, wanted) = script_that_prints(&rt, bytes, true);
            let wanted = wanted.as_bytes();
            let mut output = FakeWriter::new(rt.alloc(), usize::MAX, None);
            plays::<255>(&rt, &script, output, Ok(()), wanted);
            output = FakeWriter::new(rt.alloc(), usize::MAX, None);
            output.flushes = false;
            plays::<255>(&rt, &script, output, Err(PlayFault::Write), wanted);
        }
    }
}

/// The writer fails before each byte within 40 of 8,192, of 16,384 and of the end, or takes nothing there. If it is
/// interrupted there, all is written.
#[test]
fn writes_that_fail_near_a_block_are_reported(rt: HostRuntime) {
    let (script, wanted) = script_that_prints(&rt, 2 * BLOCK + 100, true);
    let whole = wanted.as_bytes();
    for near in [BLOCK, 2 * BLOCK, whole.len()] {
        for more in 0..=80usize {
            let taken = (near + more).saturating_sub(40);
            if taken >= whole.len() {
                continue;
            }
            for kind in [Some(ErrorKind::Other), None] {
                let output = FakeWriter::new(rt.alloc(), taken, kind);
                let outcome = Err(PlayFault::Write);
                plays::<255>(&rt, &script, output, outcome, &whole[..taken]);
            }
            let mut output = FakeWriter::new(rt.alloc(), taken, Some(ErrorKind::Interrupted));
            plays::<255>(&rt, &script, output, Ok(()), whole);
            output = FakeWriter::new(rt.alloc(), taken, Some(ErrorKind::Interrupted));
            output.faults = 3;
            output.again = 3;
            plays::<255>(&rt, &script, output, Ok(()), whole);
        }
    }
}

/// The writer takes so few bytes at a time that what waits is written by one write and up to 8,192, and is interrupted
/// before each write.
#[test]
fn what_waits_is_written_in_parts(rt: HostRuntime) {
    let (script, wanted) = script_that_prints(&rt, 2 * BLOCK + 100, false);
    for step in [
        1, 2, 3, 7, 100, 4095, 4096, 4097, 8190, 8191, 8192, 8193usize,
    ] {
        for faults in 0..=2u8 {
            let mut output = FakeWriter::new(rt.alloc(), 0, Some(ErrorKind::Interrupted));
            output.step = step;
            output.faults = faults;
            output.again = faults;
            plays::<23>(&rt, &script, output, Ok(()), wanted.as_bytes());
        }
    }
}

/// The line of a text ends at each place before the end of a block and after it: with its word, its text and its newline
/// at the end of the block or over it.
#[test]
fn lines_over_the_end_of_a_block_are_written(rt: HostRuntime) {
    for size in [0, 1, 20, 254, 255usize] {
        let text = "z".repeat(rt.alloc(), size).expect(&rt, "memory");
        for before in 0..=size.saturating_add(10) {
            let (mut script, mut wanted) = script_of(&rt, BLOCK.saturating_sub(before), true);
            writeln!(script, "replace_range 0 253 {text}\nas_str\nas_str").expect(&rt, "memory");
            writeln!(wanted, "done\ntext {text}\ntext {text}\nfinal {text}").expect(&rt, "memory");
            let output = FakeWriter::new(rt.alloc(), usize::MAX, None);
            plays::<255>(&rt, &script, output, Ok(()), wanted.as_bytes());
        }
    }
}
