//! Runs of commands, on values worked out by hand.
ghost use Rattle.std.specs.Prelude.{◌≤◌};

use super::table::{agree, output_of_run};
use arraystring::ArrayString;
use arraystring::error::Error::{OutOfBounds, Utf8};
use arraystring_run::{Command, Outcome, Reply, command, play, run, run_both};
use std::alloc::Global;
use std::fmt::Write;
use std::process::Abort;
use test_support::table::{column, rows};

/// The string of a text that fits.
pub(super) fn text_of<const N: usize>(text: &str) -> ArrayString<N> {
    let mut string = ArrayString::new();
    string.push_str(text);
    string
}

#[test]
fn each_command_has_a_reply(rt: HostRuntime) {
    let mut text: ArrayString<5> = ArrayString::new();
    let commands = [
        Command::PushStr("a🤔b"),
        Command::TryPush('x'),
        Command::Pop,
        Command::TryPush('é'),
        Command::Len,
        Command::Capacity,
        Command::AsStr,
        Command::Pop,
        Command::Pop,
        Command::Pop,
    ];
    let wanted = [
        Reply::Done,
        Reply::Refused(OutOfBounds),
        Reply::Char('🤔'),
        Reply::Done,
        Reply::Number(3),
        Reply::Number(5),
        Reply::Text(text_of("aé")),
        Reply::Char('é'),
        Reply::Char('a'),
        Reply::NoChar,
    ];
    let outcome = run(rt.alloc(), &mut text, &commands).expect(&rt, "memory");
    agree(
        &rt,
        "the replies",
        outcome.replies.as_slice(),
        wanted.as_slice(),
    );
    agree(&rt, "the first tight command", outcome.first_tight, Some(0));
    agree(&rt, "the text", text.as_str(), "");
}

#[test]
fn no_more_than_255_bytes_fit(rt: HostRuntime) {
    let mut letters = String::new(rt.alloc());
    for _ in 0..256u16 {
        letters.push('a').expect(&rt, "memory");
    }
    let mut text: ArrayString<300> = ArrayString::new();
    let commands = [
        Command::TryPushStr(&letters),
        Command::PushStr(&letters),
        Command::TryPush('a'),
        Command::Len,
        Command::Capacity,
    ];
    let wanted = [
        Reply::Refused(OutOfBounds),
        Reply::Done,
        Reply::Refused(OutOfBounds),
        Reply::Number(255),
        Reply::Number(255),
    ];
    let outcome = run(rt.alloc(), &mut text, &commands).expect(&rt, "memory");
    agree(
        &rt,
        "the replies",
        outcome.replies.as_slice(),
        wanted.as_slice(),
    );
    letters.pop();
    agree(&rt, "the text", text.as_str(), letters.as_str());
}

/// Asserts that a character fits into `N` bytes if it is no wider, comes back whole, and is as long
/// as it should be.
fn check_width<const N: usize>(rt: &(impl Abort + AllocGlobal), row: &str, ch: char, width: u8)
    requires { N ≤ 300 }
{
    let mut text = ArrayString::<N>::new();
    let commands = [Command::TryPush(ch), Command::Len, Command::Pop];
    let outcome = run(rt.alloc(), &mut text, &commands).expect(rt, "memory");
    let wanted = if width <= ArrayString::<N>::capacity() {
        [Reply::Done, Reply::Number(width), Reply::Char(ch)]
    } else {
        [Reply::Refused(OutOfBounds), Reply::Number(0), Reply::NoChar]
    };
    agree(rt, row, outcome.replies.as_slice(), wanted.as_slice());
}

#[test]
fn each_width_at_its_edges(rt: HostRuntime) {
    let table = "
        \0 | 1
        \u{7F} | 1
        \u{80} | 2
        \u{7FF} | 2
        \u{800} | 3
        \u{FFFF} | 3
        \u{10000} | 4
        \u{10FFFF} | 4
        ";
    for row in rows(table) {
        let ch = column(row, 0).parse().expect(&rt, "a character");
        let width = column(row, 1).parse().expect(&rt, "a width");
        check_width::<1>(&rt, row, ch, width);
        check_width::<2>(&rt, row, ch, width);
        check_width::<3>(&rt, row, ch, width);
        check_width::<4>(&rt, row, ch, width);
    }
}

/// Plays the scripts of a table, and makes their runs. The columns of a row are
///
///     text before | commands as in scripts | printed replies | text after | first tight position
///
/// with `; ` between commands and `, ` between replies. With no text before, it is that of the row
/// above, and in the first row the empty text.
fn check_table<const N: usize>(rt: &(impl Abort + AllocGlobal), table: &str)
    requires { N ≤ 300 }
{
    let mut before = ArrayString::<N>::new();
    for row in rows(table) {
        if !column(row, 0).is_empty() {
            before = text_of(column(row, 0));
        }
        check_printed(rt, &before, row);
        let mut text = before;
        let commands = commands_of(rt, column(row, 1));
        let outcome = run(rt.alloc(), &mut text, &commands).expect(rt, "memory");
        agree(rt, row, text.as_str(), column(row, 3));
        agree(rt, row, outcome.first_tight, column(row, 4).parse().ok());
    }
}

/// Plays the commands of a row after one that adds the text before, and compares what is printed.
fn check_printed<const N: usize>(
    rt: &(impl Abort + AllocGlobal),
    before: &ArrayString<N>,
    row: &str,
) {
    let mut script = format!(in rt.alloc(); "push_str {before}\n").expect(rt, "memory");
    for line in column(row, 1).split_terminator("; ") {
        writeln!(script, "{line}").expect(rt, "memory");
    }
    let replies = output_of_run(rt, column(row, 2), column(row, 3));
    let wanted = format!(in rt.alloc(); "done\n{replies}").expect(rt, "memory");
    let mut input = script.as_bytes();
    let mut output = Vec::new(rt.alloc());
    let played = play::<N, &[u8], Vec<u8>>(rt.alloc(), &mut input, &mut output);
    agree(
        rt,
        row,
        (played, output.as_slice()),
        (Ok(()), wanted.as_bytes()),
    );
}

/// The commands of a column.
fn commands_of<'a>(rt: &(impl Abort + AllocGlobal), lines: &'a str) -> Vec<Command<'a>> {
    let mut commands = Vec::new(rt.alloc());
    for line in lines.split_terminator("; ") {
        let command = command(line.as_bytes()).expect(rt, "a command");
        commands.push(command).expect(rt, "memory");
    }
    commands
}

#[test]
fn each_command_by_itself(rt: HostRuntime) {
    // commands whose index is past the text, inside a character, or good
    check_table::<23>(
        &rt,
        "
        ABCD🤔 | truncate 4           | done                | ABCD    |
              | truncate 5           | refused Utf8        | ABCD🤔   |
              | truncate 8           | done                | ABCD🤔   |
              | truncate 9           | done                | ABCD🤔   |
              | remove 0             | char A              | BCD🤔    |
              | remove 4             | char 🤔              | ABCD    |
              | remove 6             | refused Utf8        | ABCD🤔   |
              | remove 8             | refused OutOfBounds | ABCD🤔   |
              | try_insert 1 é       | done                | AéBCD🤔  |
              | try_insert 8 !       | done                | ABCD🤔!  |
              | try_insert 9 x       | refused OutOfBounds | ABCD🤔   |
              | try_insert 7 x       | refused Utf8        | ABCD🤔   |
              | try_insert_str 4 xy  | done                | ABCDxy🤔 |
              | 'try_insert_str 20 ' | refused OutOfBounds | ABCD🤔   |
              | 'try_insert_str 5 '  | refused Utf8        | ABCD🤔   |
              | insert_str 0 xy      | done                | xyABCD🤔 |
              | insert_str 20 x      | refused OutOfBounds | ABCD🤔   |
              | insert_str 5 x       | refused Utf8        | ABCD🤔   |
              | split_off 4          | text 🤔              | ABCD    |
              | split_off 9          | refused OutOfBounds | ABCD🤔   |
              | split_off 6          | refused Utf8        | ABCD🤔   |
        ",
    );
    // commands whose range is reversed, past the text, inside a character, or good
    check_table::<23>(
        &rt,
        "
        ABCD🤔 | drain 0 3               | text ABC            | D🤔       |
              | drain 8 8               | 'text '             | ABCD🤔    |
              | drain 3 2               | refused OutOfBounds | ABCD🤔    |
              | drain 5 9               | refused OutOfBounds | ABCD🤔    |
              | drain 5 8               | refused Utf8        | ABCD🤔    |
              | drain 3 5               | refused Utf8        | ABCD🤔    |
              | drain_through 1 2       | text BC             | AD🤔      |
              | drain_through 3 2       | 'text '             | ABCD🤔    |
              | drain_through 0 8       | refused OutOfBounds | ABCD🤔    |
              | drain_through 4 4       | refused Utf8        | ABCD🤔    |
              | drain_back 2 8          | text 🤔DC            | AB       |
              | drain_back 2 9          | refused OutOfBounds | ABCD🤔    |
              | drain_back 2 7          | refused Utf8        | ABCD🤔    |
              | replace_range 2 4 EFGHI | done                | ABEFGHI🤔 |
              | 'replace_range 2 4 '    | done                | AB🤔      |
              | replace_range 9 9 J     | refused OutOfBounds | ABCD🤔    |
              | replace_range 4 3 K     | refused OutOfBounds | ABCD🤔    |
              | replace_range 5 8 L     | refused Utf8        | ABCD🤔    |
              | get 3 8                 | text D🤔             | ABCD🤔    |
              | get 3 2                 | no text             | ABCD🤔    |
              | get 0 9                 | no text             | ABCD🤔    |
        ",
    );
    // commands that change the whole text
    check_table::<9>(
        &rt,
        "
        '  aB cé ' | trim           | done | aB cé      |
                   | 'retain_not  ' | done | aBcé       |
                   | upper          | done | '  AB Cé ' |
                   | lower          | done | '  ab cé ' |
                   | clear          | done |            |
        ",
    );
    // A refusal because of the capacity is tight, and so is a text that was cut. A refusal of an index
    // is not.
    check_table::<9>(
        &rt,
        "
        abcd🤔 | try_push é            | refused OutOfBounds | abcd🤔  | 0
              | try_push_str xy       | refused OutOfBounds | abcd🤔  | 0
              | push_str xy           | done                | abcd🤔x | 0
              | push_str x            | done                | abcd🤔x |
              | try_insert 4 é        | refused OutOfBounds | abcd🤔  | 0
              | try_insert 5 é        | refused OutOfBounds | abcd🤔  | 0
              | try_insert 9 é        | refused OutOfBounds | abcd🤔  |
              | try_insert_str 6 xy   | refused OutOfBounds | abcd🤔  | 0
              | try_insert_str 6 x    | refused Utf8        | abcd🤔  |
              | insert_str 4 éx       | done                | abcd🤔  | 0
              | insert_str 4 xé       | done                | abcdx🤔 | 0
              | insert_str 5 xy       | refused Utf8        | abcd🤔  |
              | insert_str 9 xy       | refused OutOfBounds | abcd🤔  |
              | replace_range 5 6 xyz | refused OutOfBounds | abcd🤔  | 0
              | replace_range 5 6 xy  | refused Utf8        | abcd🤔  |
              | replace_range 3 9 xyz | refused OutOfBounds | abcd🤔  |
        ",
    );
}

#[test]
fn each_on_what_the_one_before_left(rt: HostRuntime) {
    check_table::<23>(
        &rt,
        "
              | push_str ABCD🤔; try_insert 1 A                 | done, done                      | AABCD🤔 |
        A🤔    | pop; pop; pop                                  | char 🤔, char A, no char         |        |
        ABCD🤔 | retain_not B; get 3 7; get 4 7; drain_back 0 3 | done, text 🤔, no text, text DCA | 🤔      |
        ",
    );
    check_table::<8>(
        &rt,
        "
         | push_str ABCD🤔; try_insert 1 A | done, refused OutOfBounds | ABCD🤔 | 1
        ",
    );
    check_table::<0>(
        &rt,
        "
         | try_push_str ; push_str ; push_str x; try_push x; pop; len; capacity | done, done, done, refused OutOfBounds, no char, number 0, number 0 |  | 2
        ",
    );
    // runs of no command
    check_table::<4>(
        &rt,
        "
        🤔 |  |  | 🤔 |
        ",
    );
}

#[test]
fn all_of_255_bytes_are_drained(rt: HostRuntime) {
    let mut full: ArrayString<255> = ArrayString::new();
    for _ in 0..255u8 {
        full.push_str("a");
    }
    agree(&rt, "the size", full.len(), 255);
    let (start, end) = (0, 255);
    for command in [
        Command::DrainThrough { start, last: end },
        Command::Drain { start, end },
    ] {
        let mut text = full;
        let outcome = run(rt.alloc(), &mut text, &[command]).expect(&rt, "memory");
        agree(
            &rt,
            "the replies",
            outcome.replies.as_slice(),
            [Reply::Text(full)].as_slice(),
        );
        agree(
            &rt,
            "the first tight command",
            (text.as_str(), outcome.first_tight),
            ("", None),
        );
    }
}

/// Runs commands on a text at two capacities, and asserts the replies at each, and the first tight
/// position and the last text at each.
fn at_two_capacities<const N: usize, const M: usize>(
    rt: &(impl Abort + AllocGlobal),
    text: &str,
    commands: &[Command<'_>],
    small: (&[Reply<N>], Option<usize>, &str),
    large: (&[Reply<M>], Option<usize>, &str),
)
    requires small { N ≤ 300 }
    requires large { M ≤ 300 }
{
    let mut first: ArrayString<N> = text_of(text);
    let mut second: ArrayString<M> = text_of(text);
    let (least, most) = run_both(rt.alloc(), &mut first, &mut second, commands).expect(
        rt, "memory",
    );
    agree(rt, text, least.replies.as_slice(), small.0);
    agree(rt, text, most.replies.as_slice(), large.0);
    agree(
        rt,
        text,
        (least.first_tight, first.as_str()),
        (small.1, small.2),
    );
    agree(
        rt,
        text,
        (most.first_tight, second.as_str()),
        (large.1, large.2),
    );
}

#[test]
fn what_fits_at_one_capacity(rt: HostRuntime) {
    let commands = [Command::PushStr("ABCD🤔"), Command::TryInsert(1, 'A')];
    let small = [Reply::Done, Reply::Refused(OutOfBounds)];
    at_two_capacities::<8, 23>(
        &rt,
        "",
        &commands,
        (&small, Some(1), "ABCD🤔"),
        (&[Reply::Done; 2], None, "AABCD🤔"),
    );
    at_two_capacities::<8, 23>(
        &rt,
        "",
        &commands[..1],
        (&small[..1], None, "ABCD🤔"),
        (&[Reply::Done], None, "ABCD🤔"),
    );
    // A refusal for room hides one for an index.
    at_two_capacities::<4, 8>(
        &rt,
        "🤔",
        &[Command::ReplaceRange {
            start: 1,
            end: 1,
            given: "x",
        }],
        (&[Reply::Refused(OutOfBounds)], Some(0), "🤔"),
        (&[Reply::Refused(Utf8)], None, "🤔"),
    );
}

#[test]
fn what_is_tight_at_one_capacity(rt: HostRuntime) {
    // A refusal for an index is not for want of room, so it is not tight (`is_tight`).
    at_two_capacities::<4, 23>(
        &rt,
        "ab",
        &[Command::Remove(9), Command::Capacity, Command::TryPush('c')],
        (
            &[Reply::Refused(OutOfBounds), Reply::Number(4), Reply::Done],
            None,
            "abc",
        ),
        (
            &[Reply::Refused(OutOfBounds), Reply::Number(23), Reply::Done],
            None,
            "abc",
        ),
    );
    // Replies may differ after a tight command.
    at_two_capacities::<5, 23>(
        &rt,
        "",
        &[
            Command::PushStr("ab"),
            Command::PushStr("cdef"),
            Command::Pop,
        ],
        (
            &[Reply::Done, Reply::Done, Reply::Char('e')],
            Some(1),
            "abcd",
        ),
        (&[Reply::Done, Reply::Done, Reply::Char('f')], None, "abcde"),
    );
}

/// Says how many of 300 letters fit, each being pushed by a command of its own.
fn pushed<const N: usize>(rt: &impl Abort, outcome: &Outcome<N>, fit: usize) {
    agree(rt, "the replies", outcome.replies.len(), 300);
    for (position, reply) in outcome.replies.iter().enumerate() {
        let wanted = if position < fit {
            Reply::Done
        } else {
            Reply::Refused(OutOfBounds)
        };
        agree(rt, "the reply", *reply, wanted);
    }
    agree(
        rt,
        "the first tight command",
        outcome.first_tight,
        Some(fit),
    );
}

#[test]
fn long_runs_are_made(rt: HostRuntime) {
    let commands = [Command::TryPush('a'); 300];
    let mut text: ArrayString<255> = ArrayString::new();
    let outcome = run(rt.alloc(), &mut text, &commands).expect(&rt, "memory");
    pushed(&rt, &outcome, 255);
    agree(&rt, "the text", text.len(), 255);
}

/// The capacity of the first string may be the greater one.
#[test]
fn long_runs_are_made_on_both(rt: HostRuntime) {
    let commands = [Command::TryPush('a'); 300];
    let mut first: ArrayString<255> = ArrayString::new();
    let mut second: ArrayString<120> = ArrayString::new();
    let (large, small) = run_both(rt.alloc(), &mut first, &mut second, &commands).expect(
        &rt, "memory",
    );
    pushed(&rt, &large, 255);
    pushed(&rt, &small, 120);
    agree(&rt, "the size", (first.len(), second.len()), (255, 120));
}

/// Pushes as many letters as there are commands, on one string and on two.
fn letters_are_pushed(rt: &impl Abort, alloc: Global, commands: &[Command<'_>]) {
    let count = commands.len();
    let mut text: ArrayString<255> = ArrayString::new();
    let outcome = run(alloc, &mut text, commands).expect(rt, "memory");
    agree(rt, "the replies", outcome.replies.len(), count);
    agree(rt, "the text", text.len() as usize, count.min(255));
    let (mut first, mut second) = (ArrayString::<23>::new(), ArrayString::<255>::new());
    let (small, large) = run_both(alloc, &mut first, &mut second, commands).expect(rt, "memory");
    agree(
        rt,
        "replies",
        (small.replies.len(), large.replies.len()),
        (count, count),
    );
    agree(rt, "the first text", first.len() as usize, count.min(23));
    agree(rt, "the second text", second.len() as usize, count.min(255));
}

/// Each length up to 300, and those round the powers of 2 up to 65,536.
#[test]
fn runs_of_each_length_are_made(rt: HostRuntime) {
    let mut commands = Vec::new(rt.alloc());
    for _ in 0..65537u32 {
        commands.push(Command::TryPush('a')).expect(&rt, "memory");
    }
    let all = commands.as_slice();
    for count in 0..=300usize {
        letters_are_pushed(&rt, rt.alloc(), all.get(..count).unwrap_or(all));
    }
    for shift in 9..=16u32 {
        let power = 1usize.wrapping_shl(shift);
        for count in [power.wrapping_sub(1), power, power.wrapping_add(1)] {
            letters_are_pushed(&rt, rt.alloc(), all.get(..count).unwrap_or(all));
        }
    }
}
