//! The paths by which callers reach `arraystring_run`, those of its definitions among them, and the traits of the types at
//! those paths.
ghost use Rattle.arraystring_run.specs.Arguments.{IsOnlyWord};
ghost use Rattle.arraystring_run.specs.Effects.{view_of_reply, RepliesAndText, run_result};
ghost use Rattle.arraystring_run.specs.ReplyAgreement.{RepliesAgreeExceptCapacity, AllRepliesAgree, IsNoLater};
ghost use Rattle.arraystring_run.specs.CommandLines.{IsLineOf, EachArgumentIsValid};
ghost use Rattle.arraystring_run.specs.LinesOfScripts.{line_feed, with_newline, joined_terminated_lines, HasNoLineFeed, HaveNoLineFeeds, prepend_to_first_line, lines, AreLinesOfCommands, IsBadAt};
ghost use Rattle.arraystring_run.specs.ReplyLines.{reply_line, replies_printed, replies_and_final_line, run_printed};
ghost use Rattle.arraystring_run.specs.Writing.{AppendsPrefix};
ghost use Rattle.arraystring_run.specs.Playing.{IfBadLine, IsPlayed, IsPlayedPartlyWritten};
ghost use Rattle.arraystring_run.specs.ProgramRuns.{capacity_named, status_of, usage_line, fault_line, report_of, ProgramRun, IsServed};
// The old names of definitions, in the modules where they were, stay until the next release.
ghost use Rattle.arraystring_run.specs.Runs.{view_of, reply_of, RunResult, after};
ghost use Rattle.arraystring_run.specs.Agreement.{Agrees, AllAgree, IsNoSooner};
ghost use Rattle.arraystring_run.specs.Line.{AreArguments, IsLineOf as IsLineOfCommand};
ghost use Rattle.arraystring_run.specs.ScriptLines.{joined_lines, IsOneLine, AreOneLine, first_byte, AreLinesOf, IsBadAt as IsBadLineAt};
ghost use Rattle.arraystring_run.specs.Printing.{printed, all_printed, run_printed as printed_run};
ghost use Rattle.arraystring_run.specs.Player.{IsPartPlayed};
ghost use Rattle.arraystring_run.specs.Program.{Service, IsServed as IsServedRun};

use super::runs::text_of;
use super::table::agree;
use arraystring::error::Error;
use arraystring_run::{
    Command, Outcome, PlayFault, Reply, command, laws, play, run, run_both, serve,
};
use std::fmt::Debug;

fn is_plain<T: Copy + Clone + PartialEq + Eq + Debug>() {}

fn is_copied<T: Copy + Clone>() {}

fn may_be_let_go<T: Drop>() {}

#[test]
fn each_type_has_its_traits(_rt: HostRuntime) {
    is_copied::<Command<'static>>();
    is_plain::<Reply<5>>();
    is_plain::<PlayFault>();
    may_be_let_go::<Outcome<5>>();
}

/// Each form of a reply and of a fault, as it is printed for who writes code.
#[test]
fn replies_and_faults_are_printed(rt: HostRuntime) {
    let replies = [
        Reply::<5>::Done,
        Reply::Char('é'),
        Reply::NoChar,
        Reply::Text(text_of("ab")),
        Reply::NoText,
        Reply::Number(7),
        Reply::Refused(Error::Utf8),
    ];
    let shown = format!(in rt.alloc(); "{replies:?}").expect(&rt, "memory");
    let wanted = "[Done, Char('é'), NoChar, Text(ArrayString { array: \"ab\", size: 2 }), \
        NoText, Number(7), Refused(Error::Utf8)]";
    agree(&rt, "replies", shown.as_str(), wanted);
    let faults = [
        PlayFault::BadLine(30),
        PlayFault::Memory,
        PlayFault::Read,
        PlayFault::Write,
    ];
    let shown = format!(in rt.alloc(); "{faults:?}").expect(&rt, "memory");
    agree(
        &rt,
        "faults",
        shown.as_str(),
        "[BadLine(30), Memory, Read, Write]",
    );
}

/// Each call by its path, on its happy path.
#[test]
fn each_path_is_there(rt: HostRuntime) {
    let read = command(b"push_str ab").expect(&rt, "a command");
    let commands = [read, Command::Len];
    let (mut text, mut first, mut second) = (text_of("c"), text_of("c"), text_of("c"));
    let outcome: Outcome<5> = run(rt.alloc(), &mut text, &commands).expect(&rt, "memory");
    let both: (Outcome<5>, Outcome<2>) = run_both(
        rt.alloc(),
        &mut first,
        &mut second,
        &commands,
    ).expect(&rt, "memory");
    agree(
        &rt,
        "a run",
        outcome.replies.as_slice(),
        both.0.replies.as_slice(),
    );
    agree(
        &rt,
        "tight",
        (outcome.first_tight, both.1.first_tight),
        (None, Some(0)),
    );
    let mut input: &[u8] = b"len";
    let mut output = Vec::new(rt.alloc());
    let played: Result<(), PlayFault> = play::<5, &[u8], Vec<u8>>(
        rt.alloc(),
        &mut input,
        &mut output,
    );
    agree(&rt, "a script", played, Ok(()));
    let mut errors = Vec::new(rt.alloc());
    let status: u8 = serve(
        rt.alloc(),
        Some("max"),
        &mut input,
        &mut output,
        &mut errors,
    );
    agree(&rt, "a word", status, 0);
}

/// Each law is called by its path; it does nothing.
#[test]
fn the_laws_are_at_hand(_rt: HostRuntime) {
    laws::first_tight_is_found();
    laws::first_tight_is_unique();
    laws::lines_rejoin_to_input();
    laws::each_command_has_a_line();
    laws::script_has_one_result();
    laws::first_bad_line_is_unique();
    // These are old names of them.
    laws::first_tight_position();
    laws::lines_of_input();
    laws::one_first_tight();
    laws::script_has_one_meaning();
    laws::one_reading();
    laws::one_bad_line();
}
