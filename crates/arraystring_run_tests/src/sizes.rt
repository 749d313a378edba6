//! Scripts and runs that are longer than two bytes can count, and longer than a million.
use super::runs::text_of;
use super::table::agree;
use arraystring::ArrayString;
use arraystring::error::Error::OutOfBounds;
use arraystring_run::{Command, Outcome, Reply, play, run, run_both, serve};
use std::io;
use std::process::Abort;

/// Plays `count` lines. Serves the same lines and a bad one after them, which is named by its number.
fn plays_lines(rt: &(impl Abort + AllocGlobal), count: usize) {
    let alloc = rt.alloc();
    let script = "len\n".repeat(alloc, count).expect(rt, "memory");
    let replies = "number 0\n".repeat(alloc, count).expect(rt, "memory");
    let wanted = format!(in alloc; "{replies}final \n").expect(rt, "memory");
    let (mut input, mut output) = (script.as_bytes(), Vec::new(alloc));
    let played = play::<23, &[u8], Vec<u8>>(alloc, &mut input, &mut output);
    agree(rt, "what is returned", played, Ok(()));
    assert!(rt;
        output.as_slice() == wanted.as_bytes(),
        "the output of {count} lines"
    );
    let number = count.saturating_add(1);
    let script = format!(in alloc; "{script}bad\nlen\n").expect(rt, "memory");
    let (mut input, mut errors) = (script.as_bytes(), Vec::new(alloc));
    let word = Some("small");
    let status = serve(alloc, word, &mut input, &mut io::sink(), &mut errors);
    let line = format!(in alloc; "bad line {number}\n").expect(rt, "memory");
    agree(rt, "the status", status, 2);
    agree(rt, "the errors", errors.as_slice(), line.as_bytes());
}

/// As many lines as two bytes can count, one more and two more.
#[test]
fn long_scripts_are_played(rt: HostRuntime) {
    for count in [65535usize, 65536, 65537] {
        plays_lines(&rt, count);
    }
}

/// How many commands `len` come before the five that push: over a million, and more than 20 bits can count.
const MANY: usize = 1048577;

/// Compares a run of `MANY` commands `len`, and five that push a letter. `fit` of the letters fit.
fn pushed<const N: usize>(
    rt: &impl Abort,
    outcome: &Outcome<N>,
    text: &ArrayString<N>,
    fit: usize,
) {
    agree(rt, "the replies", outcome.replies.len(), MANY + 5);
    for (position, reply) in outcome.replies.iter().enumerate() {
        let wanted = if position < MANY {
            Reply::Number(0)
        } else if position - MANY < fit {
            Reply::Done
        } else {
            Reply::Refused(OutOfBounds)
        };
        agree(rt, "the reply", *reply, wanted);
    }
    let tight = if fit < 5 { Some(MANY + fit) } else { None };
    agree(rt, "the first tight command", outcome.first_tight, tight);
    agree(rt, "the text", text.len() as usize, fit);
}

#[test]
fn runs_of_more_than_a_million_commands_are_made(rt: HostRuntime) {
    let alloc = rt.alloc();
    let mut commands = Vec::from_elem(alloc, Command::Len, MANY).expect(&rt, "memory");
    let letters = [Command::TryPush('a'); 5];
    commands.extend_from_slice(&letters).expect(&rt, "memory");
    let mut alone: ArrayString<3> = text_of("");
    let outcome = run(alloc, &mut alone, &commands).expect(&rt, "memory");
    pushed(&rt, &outcome, &alone, 3);
    drop(outcome);
    let (mut first, mut second) = (ArrayString::<4>::new(), ArrayString::<5>::new());
    let both = run_both(alloc, &mut first, &mut second, &commands).expect(&rt, "memory");
    pushed(&rt, &both.0, &first, 4);
    pushed(&rt, &both.1, &second, 5);
}
