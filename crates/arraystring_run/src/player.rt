//! A script played from a reader to a writer.
ghost use Rattle.std.specs.Prelude.{◌≡◌, ◌≢◌, IfOk, IfErr, IfSome, OnOk};
ghost use Rattle.std.specs.Io.KnownBytes.{Appends, IsAtEnd};
ghost use Rattle.arraystring.specs.Text.{cap};
ghost use Rattle.arraystring_run.specs.LinesOfScripts.{lines, IsBadAt};
ghost use Rattle.arraystring_run.specs.Printing.{run_printed};
ghost use Rattle.arraystring_run.specs.Writing.{AppendsPrefix};
ghost use Rattle.arraystring_run.specs.Playing.{IfBadLine, IsPlayed, IsPlayedPartlyWritten};

use crate::printing::write_replies_and_text;
use crate::script::parse_script;
use crate::{Command, run};
use arraystring::ArrayString;
use std::alloc::Global;
use std::io::{ErrorKind, Read, Write};

/// Why a script was not played to its end.
#[derive(Clone, Copy, Debug, PartialEq, Eq)]
pub enum PlayFault {
    /// The first line, counted from 1, that is not a command.
    BadLine(usize),
    /// There is not enough memory.
    Memory,
    /// A read failed.
    Read,
    /// A write failed, or the flush after the last write. A prefix of the output was written.
    Write,
}

/// How many bytes are read at a time.
const CHUNK_SIZE: usize = 8192;

/// The greatest `N` for which `play` makes a text, because no memory can hold an array of more bytes. (A
/// capacity is at most 255, also for a greater `N`.) `N` is a constant, so the compiler decides the test for
/// each `N` that a program names.
const LARGEST_ADDRESSABLE_ARRAY: usize = usize::MAX / 4;

/// Plays a script on the empty text. It does this in order:
///
/// - It reads the script to its end.
/// - It reads each line as a command.
/// - It executes the commands.
/// - It writes a line for each reply, and one for the last text, and flushes the writer. This last step
///   allocates nothing.
///
/// A read or a write that was interrupted is tried again.
///
/// The contract says which bytes are read and written only if the contracts of `I` and `O` tell their bytes, as
/// those of `&[u8]` and `Vec<u8>` do. Those of the system's streams do not, so for these it is tested, not
/// proved.
///
/// # Errors
///
/// The first of these that is met is returned:
///
/// - `Err(PlayFault::Read)` if a read fails, or `Err(PlayFault::Memory)` if memory runs out for the input;
/// - `Err(PlayFault::BadLine)` if a line is no command, or `Err(PlayFault::Memory)` if memory runs out for
///   the commands;
/// - `Err(PlayFault::Memory)` if memory runs out for the replies, or if no memory could hold an array of
///   `N` bytes;
/// - `Err(PlayFault::Write)` if a write or the last flush fails. Then a prefix of the output was written,
///   which may be none or all of it.
pub fn play<const N: usize, I: Read, O: Write>(
    alloc: Global,
    input: &mut I,
    output: &mut O,
) -> Result<(), PlayFault>
    ensures played { OnOk result (IfSome (I.remaining input.old)
        (λ given. IsPlayed given (cap N) (O.contents output.old) (O.contents output.new))) }
    ensures bad_line { IfErr result (λ e. IfBadLine e
        (λ k. IfSome (I.remaining input.old) (λ given. IsBadAt (lines given) k))) }
    ensures unwritten { IfErr result (λ e. e ≢ PlayFault.Write → output.new ≡ output.old) }
    ensures part_played { IfErr result (λ e. e ≡ PlayFault.Write → IfSome (I.remaining input.old)
        (λ given. IsPlayedPartlyWritten
        given (cap N) (O.contents output.old) (O.contents output.new))) }
    ensures end { OnOk result (IsAtEnd (I.remaining input.new)) }
    ensures end_of_bad { IfErr result (λ e. IfBadLine e (λ _. IsAtEnd (I.remaining input.new))) }
{
    let script = read_all(alloc, input)?;
    let commands = parse_script(alloc, &script)?;
    play_commands::<N, O>(alloc, &commands, output)
}

/// Executes the commands on the empty text, and writes the lines of the run.
/// Then it flushes the writer.
fn play_commands<const N: usize, O: Write>(
    alloc: Global,
    commands: &[Command<'_>],
    output: &mut O,
) -> Result<(), PlayFault>
    ensures whole { OnOk result
        (Appends (O.contents output.old) (O.contents output.new)
        (run_printed commands.now (cap N))) }
    ensures part { IfErr result (λ e. e ≡ PlayFault.Write
        → AppendsPrefix (O.contents output.old) (O.contents output.new)
        (run_printed commands.now (cap N))) }
    ensures unwritten { IfErr result (λ e. e ≢ PlayFault.Write → output.new ≡ output.old) }
    ensures no_line { IfErr result (λ e. IfBadLine e (λ _. ⊥)) }
{
    if N > LARGEST_ADDRESSABLE_ARRAY {
        return Err(PlayFault::Memory);
    }
    let mut text = ArrayString::<N>::new();
    let outcome = match run(alloc, &mut text, commands) {
        Ok(outcome) => outcome,
        Err(_) => return Err(PlayFault::Memory),
    };
    match write_replies_and_text(output, &outcome.replies, &text) {
        Ok(()) => Ok(()),
        Err(_) => Err(PlayFault::Write),
    }
}

/// Reads to the end. It is no `read_to_end` of std, because that does not tell a refused growth from a failed read.
fn read_all<I: Read>(alloc: Global, input: &mut I) -> Result<Vec<u8>, PlayFault>
    ensures end { OnOk result (IsAtEnd (I.remaining input.new)) }
    ensures whole { IfOk result (λ v. IfSome (I.remaining input.old) (λ given. v.items ≡ given)) }
    ensures faults { IfErr result (λ e. e ≢ PlayFault.Write) }
    ensures no_line { IfErr result (λ e. IfBadLine e (λ _. ⊥)) }
{
    let mut bytes = Vec::new(alloc);
    let mut chunk = [0u8; CHUNK_SIZE];
    for _ in 0..u64::MAX {
        match input.read(&mut chunk) {
            Ok(0) => return Ok(bytes),
            Ok(count) => {
                if bytes.extend_from_slice(&chunk[..count]).is_err() {
                    return Err(PlayFault::Memory);
                }
            }
            Err(error) => {
                if error.kind() != ErrorKind::Interrupted {
                    return Err(PlayFault::Read);
                }
            }
        }
    }
    Err(PlayFault::Read)
}
