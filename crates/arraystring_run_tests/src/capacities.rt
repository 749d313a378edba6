//! Scripts and runs at capacities if something changes: none, the widths of characters, the
//! capacities that have names, and the greatest length.
ghost use Rattle.std.specs.Prelude.{◌≤◌};

use super::runs::text_of;
use super::table::agree;
use arraystring::ArrayString;
use arraystring::error::Error::OutOfBounds;
use arraystring_run::{Command, Outcome, Reply, play, run, run_both, serve};
use std::process::Abort;

/// A text of letters.
fn letters(rt: &(impl Abort + AllocGlobal), count: usize) -> String {
    "a".repeat(rt.alloc(), count)
        .expect(rt, "memory for letters")
}

/// A script that fills a string with letters, and replaces the last by another.
fn filling_script(rt: &(impl Abort + AllocGlobal)) -> String {
    let given = letters(rt, 300);
    format!(in rt.alloc();
        "capacity\npush_str {given}\nlen\ntry_push b\npop\ntry_push é\ntry_push b\nas_str\n"
    ).expect(rt, "memory for a script")
}

/// What is printed of that script on a string whose capacity is `fit` bytes.
fn filling_printed(rt: &(impl Abort + AllocGlobal), fit: u8) -> String {
    let kept = filled(rt, fit);
    let (popped, pushed) = if fit == 0 {
        ("no char", "refused OutOfBounds")
    } else {
        ("char a", "done")
    };
    format!(in rt.alloc();
        "number {fit}\ndone\nnumber {fit}\nrefused OutOfBounds\n{popped}\nrefused OutOfBounds\n{pushed}\ntext {kept}\nfinal {kept}\n"
    ).expect(rt, "memory for an output")
}

/// `fit` bytes of letters, of which the last is another one.
fn filled(rt: &(impl Abort + AllocGlobal), fit: u8) -> String {
    let mut text = letters(rt, usize::from(fit));
    if text.pop().is_some() {
        text.push('b').expect(rt, "memory for a letter");
    }
    text
}

/// Asserts what a run of `COMMANDS` on a full text gave, and the text that it left.
fn check_replies<const N: usize>(
    rt: &(impl Abort + AllocGlobal),
    outcome: &Outcome<N>,
    text: &ArrayString<N>,
)
    requires { N ≤ 300 }
{
    let fit = u8::try_from(N).unwrap_or(u8::MAX);
    let kept = filled(rt, fit);
    let wanted = if fit == 0 {
        [
            Reply::Number(0),
            Reply::Refused(OutOfBounds),
            Reply::NoChar,
            Reply::Refused(OutOfBounds),
            Reply::Done,
            Reply::Text(ArrayString::new()),
            Reply::Number(0),
        ]
    } else {
        [
            Reply::Number(fit),
            Reply::Refused(OutOfBounds),
            Reply::Char('a'),
            Reply::Done,
            Reply::Done,
            Reply::Text(text_of(&kept)),
            Reply::Number(fit),
        ]
    };
    agree(
        rt,
        "the replies",
        outcome.replies.as_slice(),
        wanted.as_slice(),
    );
    agree(rt, "the first tight command", outcome.first_tight, Some(1));
    agree(rt, "the text", text.as_str(), &kept);
}

const COMMANDS: [Command<'static>; 7] = [
    Command::Len,
    Command::TryPush('b'),
    Command::Pop,
    Command::TryPush('b'),
    Command::PushStr("cd"),
    Command::AsStr,
    Command::Capacity,
];

/// Plays the script on a string whose capacity is `fit` bytes.
fn plays_at<const N: usize>(rt: &(impl Abort + AllocGlobal), fit: u8) {
    let script = filling_script(rt);
    let mut input = script.as_bytes();
    let mut output = Vec::new(rt.alloc());
    let played = play::<N, &[u8], Vec<u8>>(rt.alloc(), &mut input, &mut output);
    agree(rt, "what is returned", played, Ok(()));
    let wanted = filling_printed(rt, fit);
    agree(rt, "the output", output.as_slice(), wanted.as_bytes());
}

/// Makes the run on two full texts.
fn runs_both<const N: usize, const M: usize>(rt: &(impl Abort + AllocGlobal), given: &str)
    requires first { N ≤ 300 }
    requires second { M ≤ 300 }
{
    let mut first: ArrayString<N> = text_of(given);
    let mut second: ArrayString<M> = text_of(given);
    let both = run_both(rt.alloc(), &mut first, &mut second, &COMMANDS).expect(rt, "memory");
    check_replies(rt, &both.0, &first);
    check_replies(rt, &both.1, &second);
}

/// Plays the script, and makes the run on one full text and on two.
fn at_capacity<const N: usize>(rt: &(impl Abort + AllocGlobal))
    requires { N ≤ 300 }
{
    plays_at::<N>(rt, u8::try_from(N).unwrap_or(u8::MAX));
    let given = letters(rt, 300);
    let mut text: ArrayString<N> = text_of(&given);
    let outcome = run(rt.alloc(), &mut text, &COMMANDS).expect(rt, "memory");
    check_replies(rt, &outcome, &text);
    runs_both::<N, 255>(rt, &given);
    runs_both::<255, N>(rt, &given);
}

#[test]
fn full_texts_at_each_capacity(rt: HostRuntime) {
    at_capacity::<0>(&rt);
    at_capacity::<1>(&rt);
    at_capacity::<2>(&rt);
    at_capacity::<3>(&rt);
    at_capacity::<22>(&rt);
    at_capacity::<23>(&rt);
    at_capacity::<24>(&rt);
    at_capacity::<63>(&rt);
    at_capacity::<254>(&rt);
    at_capacity::<255>(&rt);
    at_capacity::<256>(&rt);
    at_capacity::<300>(&rt);
}

#[test]
fn full_texts_at_each_word(rt: HostRuntime) {
    let script = filling_script(&rt);
    for (word, fit) in [("small", 23), ("cache", 63), ("max", 255)] {
        let mut input = script.as_bytes();
        let mut output = Vec::new(rt.alloc());
        let mut errors = Vec::new(rt.alloc());
        let status = serve(rt.alloc(), Some(word), &mut input, &mut output, &mut errors);
        let wanted = filling_printed(&rt, fit);
        agree(&rt, word, (status, errors.len()), (0, 0));
        agree(&rt, word, output.as_slice(), wanted.as_bytes());
    }
}

/// Larger arrays, whose sizes are near the powers of 2 and between them.
#[test]
fn scripts_at_larger_capacities(rt: HostRuntime) {
    plays_at::<511>(&rt, 255);
    plays_at::<512>(&rt, 255);
    plays_at::<1000>(&rt, 255);
    plays_at::<4095>(&rt, 255);
    plays_at::<4096>(&rt, 255);
    plays_at::<4097>(&rt, 255);
    plays_at::<5000>(&rt, 255);
    plays_at::<10000>(&rt, 255);
    plays_at::<65535>(&rt, 255);
    plays_at::<65536>(&rt, 255);
    plays_at::<100000>(&rt, 255);
}
