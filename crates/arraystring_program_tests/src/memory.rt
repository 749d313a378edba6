//! Memory that is refused, at each growth: of the script, of the list of commands, of each list of
//! replies.
ghost use Rattle.std.specs.Prelude.{◌≤◌};

use super::table::agree;
use arraystring::ArrayString;
use arraystring_run::{Command, PlayFault, Reply, play, run, run_both, serve};
use std::alloc::Global;
use std::env::Env;
use std::io;
use std::io::{Read, Write};
use std::mem::size_of;
use std::process::Abort;
use test_support::memory::{ScarceMemory, TIMES};
use test_support::scripts::{EXAMPLE, EXAMPLE_OUTPUT};

/// The example behind a bad line. This line is met as soon as there is memory for the input.
const BAD_FIRST: &str = "Len\npush_str ABCD🤔\ntry_insert 1 A\ntry_insert_str 2 B\ndrain_back 4 10\n\
    get 0 9\nremove 9\nas_str\n";

/// The example before a bad line. This line is met only when there is memory for the commands, too.
const BAD_LAST: &str = "push_str ABCD🤔\ntry_insert 1 A\ntry_insert_str 2 B\ndrain_back 4 10\n\
    get 0 9\nremove 9\nas_str\nLen\n";

/// The string of a text that fits.
fn text_of<const N: usize>(text: &str) -> ArrayString<N> {
    let mut string = ArrayString::new();
    string.push_str(text);
    string
}

/// Takes all memory. Returns `None` where it cannot all be taken, and the test then ends.
pub(super) fn all_memory(rt: &(impl Abort + Env + Eprint + AllocGlobal)) -> Option<ScarceMemory> {
    ScarceMemory::take(rt).expect(rt, "all memory is taken")
}

/// Leaves `left` bytes of memory.
fn leave(rt: &(impl Abort + AllocGlobal), scarce: &mut ScarceMemory, left: usize) {
    let taken_again = scarce.leave(rt.alloc(), left);
    taken_again.expect(rt, "the rest is taken again");
}

/// Leaves a little more memory than the call before.
fn leave_more(rt: &(impl Abort + AllocGlobal), scarce: &mut ScarceMemory) {
    let taken_again = scarce.leave_more(rt.alloc());
    taken_again.expect(rt, "the rest is taken again");
}

/// Bytes, with room for `room` of them.
pub(super) fn bytes(rt: &(impl Abort + AllocGlobal), room: usize) -> Vec<u8> {
    Vec::with_capacity(rt.alloc(), room).expect(rt, "memory for bytes")
}

/// Asserts that memory was refused to the first of three things at least once, and to each other one more
/// often than to the one before it.
fn each_is_refused_more_often(rt: &impl Abort, first: u32, second: u32, third: u32) {
    assert!(rt; 1 <= first && first < second && second < third);
}

/// Asserts what was written to the output, and what to the errors.
pub(super) fn are_written(
    rt: &impl Abort,
    output: &[u8],
    errors: &[u8],
    printed: &str,
    reported: &str,
) {
    agree(rt, "the output", output, printed.as_bytes());
    agree(rt, "the errors", errors, reported.as_bytes());
}

/// Serves a script with a bad line. Returns whether memory ran out before that line was met.
fn serve_runs_out(
    rt: &impl Abort,
    alloc: Global,
    errors: &mut Vec<u8>,
    script: &str,
    bad: &str,
) -> bool {
    let mut input = script.as_bytes();
    let mut none = io::sink();
    let status = serve(alloc, Some("small"), &mut input, &mut none, errors);
    let runs_out = status == 3;
    let reported = if runs_out { "out of memory\n" } else { bad };
    agree(rt, "the status", status, if runs_out { 3 } else { 2 });
    agree(rt, "the errors", errors.as_slice(), reported.as_bytes());
    errors.clear();
    runs_out
}

/// With ever more memory, from none up, `serve` reports each growth that is refused: first that of the input, then
/// those of the commands, and then that of the replies. Whether a bad line is met tells which of them it was.
#[test]
fn want_of_memory_is_served(rt: HostRuntime) {
    let (mut output, mut errors) = (bytes(&rt, 1000), bytes(&rt, 1000));
    let Some(mut scarce) = all_memory(&rt) else {
        return;
    };
    let mut refused = 0u32;
    let mut refused_input = 0u32;
    let mut refused_commands = 0u32;
    let mut status = 3;
    for _ in 0..TIMES {
        leave_more(&rt, &mut scarce);
        if serve_runs_out(&rt, rt.alloc(), &mut errors, BAD_FIRST, "bad line 1\n") {
            refused_input = refused_input.saturating_add(1);
        }
        if serve_runs_out(&rt, rt.alloc(), &mut errors, BAD_LAST, "bad line 8\n") {
            refused_commands = refused_commands.saturating_add(1);
        }
        let mut input = EXAMPLE.as_bytes();
        let word = Some("small");
        status = serve(rt.alloc(), word, &mut input, &mut output, &mut errors);
        if status != 3 {
            break;
        }
        refused = refused.saturating_add(1);
        are_written(&rt, &output, &errors, "", "out of memory\n");
        errors.clear();
    }
    drop(scarce);
    each_is_refused_more_often(&rt, refused_input, refused_commands, refused);
    agree(&rt, "the status", status, 0);
    are_written(&rt, &output, &errors, EXAMPLE_OUTPUT, "");
}

/// Plays a script with a bad line. Returns whether memory ran out before that line was met.
fn play_runs_out(
    rt: &impl Abort,
    alloc: Global,
    output: &mut Vec<u8>,
    script: &str,
    bad: usize,
) -> bool {
    let mut input = script.as_bytes();
    let played = play::<23, &[u8], Vec<u8>>(alloc, &mut input, output);
    agree(rt, "the output", output.len(), 0);
    if played == Err(PlayFault::Memory) {
        return true;
    }
    agree(rt, "what is returned", played, Err(PlayFault::BadLine(bad)));
    false
}

/// `play` reports want of memory, at each amount of memory that is left, and writes nothing then.
#[test]
fn want_of_memory_is_reported(rt: HostRuntime) {
    let mut output = bytes(&rt, 1000);
    let Some(mut scarce) = all_memory(&rt) else {
        return;
    };
    let mut refused = 0u32;
    let mut refused_input = 0u32;
    let mut refused_commands = 0u32;
    let mut played = Err(PlayFault::Memory);
    for _ in 0..TIMES {
        leave_more(&rt, &mut scarce);
        if play_runs_out(&rt, rt.alloc(), &mut output, BAD_FIRST, 1) {
            refused_input = refused_input.saturating_add(1);
        }
        if play_runs_out(&rt, rt.alloc(), &mut output, BAD_LAST, 8) {
            refused_commands = refused_commands.saturating_add(1);
        }
        let mut input = EXAMPLE.as_bytes();
        played = play::<23, &[u8], Vec<u8>>(rt.alloc(), &mut input, &mut output);
        if played != Err(PlayFault::Memory) {
            break;
        }
        refused = refused.saturating_add(1);
        agree(&rt, "the output", output.len(), 0);
    }
    drop(scarce);
    each_is_refused_more_often(&rt, refused_input, refused_commands, refused);
    agree(&rt, "what is returned", played, Ok(()));
    are_written(&rt, &output, &[], EXAMPLE_OUTPUT, "");
}

/// A script of 100 lines: the first, the second, 97 lines `len`, and the last.
fn hundred_lines(rt: &(impl Abort + AllocGlobal), first: &str, second: &str, last: &str) -> String {
    let between = "len\n".repeat(rt.alloc(), 97).expect(rt, "memory");
    format!(in rt.alloc(); "{first}\n{second}\n{between}{last}\n").expect(rt, "memory")
}

/// Plays a script and serves it, and compares what is returned, the status and what was written.
fn check_serve(
    rt: &impl Abort,
    alloc: Global,
    output: &mut Vec<u8>,
    script: &str,
    outcome: Result<(), PlayFault>,
    reported: &str,
) {
    let mut input = script.as_bytes();
    let played = play::<255, &[u8], Vec<u8>>(alloc, &mut input, output);
    agree(rt, "what is returned", played, outcome);
    agree(
        rt,
        "the output",
        output.len(),
        if outcome.is_ok() { 907 } else { 0 },
    );
    output.clear();
    let mut input = script.as_bytes();
    let mut none = io::sink();
    let _ = serve(alloc, Some("max"), &mut input, &mut none, output);
    agree(rt, "the errors", output.as_slice(), reported.as_bytes());
    output.clear();
}

/// Each growth that is refused is reported. The script has 400 bytes, the commands more than 2,000, and
/// the replies, each with room for 255 bytes, more than 25,000. So if 1,000 bytes are left, it is
/// the commands that are refused, since the script is read to its bad first line; and the replies
/// if 10,000 are, since it is then judged to its bad last line. Of want of memory and a bad line,
/// whichever is met first is reported.
#[test]
fn each_refused_growth_is_reported(rt: HostRuntime) {
    let bad_first = hundred_lines(&rt, "Len", "len", "len");
    let bad_second = hundred_lines(&rt, "len", "Len", "len");
    let bad_last = hundred_lines(&rt, "len", "len", "Len");
    let good = hundred_lines(&rt, "len", "len", "len");
    // how much is left, the script, the bad line that is met, and what is reported
    let rows = [
        (0, bad_first.as_str(), None, "out of memory\n"),
        (1000, &bad_first, Some(1), "bad line 1\n"),
        (1000, &bad_second, Some(2), "bad line 2\n"),
        (1000, &bad_last, None, "out of memory\n"),
        (10000, &bad_last, Some(100), "bad line 100\n"),
        (10000, &good, None, "out of memory\n"),
    ];
    let mut output = bytes(&rt, 1000);
    let Some(mut scarce) = all_memory(&rt) else {
        return;
    };
    for (left, script, line, reported) in rows {
        leave(&rt, &mut scarce, left);
        let fault = line.map_or(PlayFault::Memory, PlayFault::BadLine);
        check_serve(&rt, rt.alloc(), &mut output, script, Err(fault), reported);
    }
    leave(&rt, &mut scarce, 50000);
    check_serve(&rt, rt.alloc(), &mut output, &good, Ok(()), "");
    drop(scarce);
}

/// A reader that gives no byte, and a writer. Each looks at each call whether there is memory of `size` bytes.
#[derive(Drop)]
struct MemoryProbe {
    alloc: Global,
    size: usize,
    calls: u32,
    found: u32,
}

impl MemoryProbe {
    fn of(alloc: Global, size: usize) -> MemoryProbe {
        MemoryProbe {
            alloc,
            size,
            calls: 0,
            found: 0,
        }
    }

    fn look(&mut self) {
        self.calls = self.calls.saturating_add(1);
        if Vec::<u8>::with_capacity(self.alloc, self.size).is_ok() {
            self.found = self.found.saturating_add(1);
        }
    }
}

impl Read for MemoryProbe {
    fn read(&mut self, _buf: &mut [u8]) -> io::Result<usize> {
        self.look();
        Ok(0)
    }
}

impl Write for MemoryProbe {
    fn write(&mut self, buf: &[u8]) -> io::Result<usize> {
        self.look();
        Ok(buf.len())
    }

    fn flush(&mut self) -> io::Result<()> {
        Ok(())
    }
}

/// Before the first read `play` and `serve` have taken no memory, nor has `serve` when it says that a word
/// names no capacity.
#[test]
fn no_memory_is_taken_before_the_first_read(rt: HostRuntime) {
    let alloc = rt.alloc();
    let mut errors = bytes(&rt, 1000);
    let Some(mut scarce) = all_memory(&rt) else {
        return;
    };
    // how much is left, and how much a probe asks for
    for (left, size) in [(0, 0), (6000, 5000), (20000, 18000), (40000, 30000)] {
        leave(&rt, &mut scarce, left);
        let mut none = io::sink();
        let mut input = MemoryProbe::of(alloc, size);
        let _ = play::<23, MemoryProbe, io::Sink>(alloc, &mut input, &mut none);
        agree(&rt, "before a read", (input.calls, input.found), (1, 1));
        let mut input = MemoryProbe::of(alloc, size);
        let _ = serve(alloc, Some("small"), &mut input, &mut none, &mut errors);
        agree(&rt, "served", (input.calls, input.found), (1, 1));
        errors.clear();
        let mut input = MemoryProbe::of(alloc, size);
        let mut usage = MemoryProbe::of(alloc, size);
        let status = serve(alloc, Some("none"), &mut input, &mut none, &mut usage);
        agree(&rt, "another word", (status, input.calls), (2, 0));
        agree(&rt, "its line", (usage.calls, usage.found), (1, 1));
    }
    drop(scarce);
}

/// With ever more memory, from none up, `run` leaves the text as it was each time that its list of replies is refused.
#[test]
fn want_of_memory_leaves_the_text(rt: HostRuntime) {
    let commands = [Command::TryPush('c'); 100];
    let mut text: ArrayString<23> = text_of("ab");
    let Some(mut scarce) = all_memory(&rt) else {
        return;
    };
    let mut refused = 0u32;
    let mut replies = 0usize;
    for _ in 0..TIMES {
        leave_more(&rt, &mut scarce);
        if let Ok(outcome) = run(rt.alloc(), &mut text, &commands) {
            replies = outcome.replies.len();
            break;
        }
        refused = refused.saturating_add(1);
        agree(&rt, "the text", text.as_str(), "ab");
    }
    drop(scarce);
    assert!(rt; refused >= 1);
    agree(&rt, "the replies", replies, 100);
    agree(&rt, "the text", text.as_str(), "abccccccccccccccccccccc");
}

/// Both lists are reserved before the first command is made. If there is memory for either list
/// alone and not for both, the texts are as they were; so they are if there is none for either.
#[test]
fn want_of_memory_leaves_both_texts(rt: HostRuntime) {
    let commands = [Command::TryPush('c'); 300];
    let mut alone: ArrayString<23> = text_of("ab");
    let mut other: ArrayString<4> = text_of("ab");
    let mut first: ArrayString<23> = text_of("ab");
    let mut second: ArrayString<4> = text_of("ab");
    let Some(mut scarce) = all_memory(&rt) else {
        return;
    };
    let mut refused = 0u32;
    let mut refused_first = 0u32;
    let mut refused_second = 0u32;
    let mut replies = 0usize;
    for _ in 0..TIMES {
        leave_more(&rt, &mut scarce);
        if run(rt.alloc(), &mut alone, &commands).is_err() {
            refused_first = refused_first.saturating_add(1);
        }
        if run(rt.alloc(), &mut other, &commands).is_err() {
            refused_second = refused_second.saturating_add(1);
        }
        if let Ok(outcomes) = run_both(rt.alloc(), &mut first, &mut second, &commands) {
            replies = outcomes.1.replies.len();
            break;
        }
        refused = refused.saturating_add(1);
        agree(&rt, "the first text", first.as_str(), "ab");
        agree(&rt, "the second text", second.as_str(), "ab");
    }
    drop(scarce);
    each_is_refused_more_often(&rt, refused_second, refused_first, refused);
    agree(&rt, "the replies", replies, 300);
    agree(&rt, "the length of the first text", first.len(), 23);
    agree(&rt, "the second text", second.as_str(), "abcc");
}

/// How many bytes the replies of a run take, or of a run on two strings together. There are as many commands as fit
/// into this number.
const LISTS: usize = 50000;

/// With so much more memory than that a run has enough, and with so much less it has too little.
const MARGIN: usize = 4000;

/// As many commands as replies of `size` bytes fit into `LISTS` bytes.
fn commands_for<'a>(commands: &'a [Command<'a>], size: usize) -> &'a [Command<'a>] {
    let count = LISTS.checked_div(size).unwrap_or(0);
    commands.get(..count).unwrap_or(&[])
}

/// Whether there is memory for a run whose replies have `size` bytes each.
fn is_made<const N: usize>(alloc: Global, commands: &[Command<'_>], size: usize) -> bool
    requires { N ≤ 300 }
{
    let commands = commands_for(commands, size);
    let mut text = ArrayString::<N>::new();
    match run(alloc, &mut text, commands) {
        Ok(outcome) => outcome.replies.len() > 100,
        Err(_) => false,
    }
}

/// Whether there is memory for a run on two strings whose replies have `size` bytes together.
fn are_made<const N: usize, const M: usize>(
    alloc: Global,
    commands: &[Command<'_>],
    size: usize,
) -> bool
    requires small { N ≤ 300 }
    requires large { M ≤ 300 }
{
    let commands = commands_for(commands, size);
    let (mut first, mut second) = (ArrayString::<N>::new(), ArrayString::<M>::new());
    match run_both(alloc, &mut first, &mut second, commands) {
        Ok(outcomes) => outcomes.1.replies.len() > 100,
        Err(_) => false,
    }
}

/// Makes a run at each of three capacities, and at two pairs of them, and returns for how many of the five there was
/// memory.
fn count_made(alloc: Global, commands: &[Command<'_>]) -> u32 {
    let [small, cache, max] = SIZES;
    let made = [
        is_made::<23>(alloc, commands, small),
        is_made::<63>(alloc, commands, cache),
        is_made::<255>(alloc, commands, max),
        are_made::<23, 63>(alloc, commands, small + cache),
        are_made::<255, 23>(alloc, commands, max + small),
    ];
    let mut count = 0u32;
    for is_made in made {
        if is_made {
            count = count.saturating_add(1);
        }
    }
    count
}

/// How many bytes a reply has at 23, 63 and 255: the text with its size and its start, a byte that says
/// which reply it is, and what is lacking to a multiple of four, since a character may stand there.
const SIZES: [usize; 3] = [28, 68, 260];

/// A run takes one block of memory, for as many replies as there are commands, and one on two strings
/// takes two.
#[test]
fn a_run_takes_the_memory_of_its_replies(rt: HostRuntime) {
    let alloc = rt.alloc();
    let sizes = [
        size_of::<Reply<23>>(),
        size_of::<Reply<63>>(),
        size_of::<Reply<255>>(),
    ];
    agree(&rt, "the sizes", sizes, SIZES);
    let commands = Vec::from_elem(alloc, Command::AsStr, 2000).expect(&rt, "memory");
    let Some(mut scarce) = all_memory(&rt) else {
        return;
    };
    leave(&rt, &mut scarce, LISTS - MARGIN);
    let made_of_less = count_made(alloc, &commands);
    leave(&rt, &mut scarce, LISTS + MARGIN);
    let made_of_enough = count_made(alloc, &commands);
    drop(scarce);
    agree(&rt, "made of less", made_of_less, 0);
    agree(&rt, "made of enough", made_of_enough, 5);
}
