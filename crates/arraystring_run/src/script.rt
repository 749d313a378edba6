//! The commands of a script.
ghost use Rattle.std.specs.Prelude.{◌≡◌, ◌≢◌, ◌≤◌, length, IfSome, IfNone, IfOk, IfErr, slice_range};
ghost use Rattle.std.specs.Str.{IsCharBoundary};
ghost use Rattle.arraystring_run.specs.CommandLines.{IsLineOf};
ghost use Rattle.arraystring_run.specs.LinesOfScripts.{lines, AreLinesOfCommands, IsBadAt};
ghost use Rattle.arraystring_run.specs.Playing.{IfBadLine};
ghost use Rattle.arraystring_run.specs.declared.commands.Command.{Command};

use crate::Command;
use crate::find::byte_position_or_len;
use crate::line::command_of_str;
use crate::player::PlayFault;
use std::alloc::Global;
use std::str;

/// The commands of a whole script, one a line, which borrow their texts from it. Returns
/// `Err(PlayFault::BadLine)` with the number, counted from 1, of the first line that is no command, or
/// `Err(PlayFault::Memory)` if memory runs out before that line.
pub(crate) fn parse_script(alloc: Global, script: &[u8]) -> Result<Vec<Command<'_>>, PlayFault>
    ensures accepted { IfOk result (λ v. AreLinesOfCommands (lines script.now) v.items) }
    ensures bad_line { IfErr result (λ e. IfBadLine e (IsBadAt (lines script.now))) }
    ensures faults { IfErr result (λ e. e ≢ PlayFault.Write) }
{
    let mut commands = Vec::new(alloc);
    let text = str::from_utf8(script).ok();
    let mut start = 0usize;
    let mut number = 0usize;
    while start < script.len() {
        number += 1;
        let end = start + byte_position_or_len(b'\n', &script[start..]);
        let Some(command) = command_between(script, text, start, end) else {
            return Err(PlayFault::BadLine(number));
        };
        if commands.push(command).is_err() {
            return Err(PlayFault::Memory);
        }
        start = end + 1;
    }
    Ok(commands)
}

/// The command of the line from `start` to `end`. `text` is the whole script as a text, if it is UTF-8, so that no
/// line has to be tested. If the script is not UTF-8, each line is tested by itself.
#[inline(always)]
fn command_between<'a>(
    script: &'a [u8],
    text: Option<&'a str>,
    start: usize,
    end: usize,
) -> Option<Command<'a>>
    requires order { start ≤ end }
    requires within { end ≤ length script.now }
    requires text { IfSome text
        (λ t. (t.now ≡ script.now) × IsCharBoundary t.now start × IsCharBoundary t.now end) }
    ensures some { IfSome result (λ c. IsLineOf (slice_range script.now start end) c) }
    ensures none { IfNone result ((c : Command)
        → IsLineOf (slice_range script.now start end) c → ⊥) }
{
    let line = match text {
        Some(text) => &text[start..end],
        None => str::from_utf8(&script[start..end]).ok()?,
    };
    command_of_str(line)
}
