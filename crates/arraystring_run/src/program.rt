//! What the `main` of a program calls. A script is played on a string whose capacity the program's argument
//! names.
ghost use Rattle.std.specs.Prelude.{◌≡◌, option_map};
ghost use Rattle.arraystring_run.specs.Writing.{AppendsPrefix};
ghost use Rattle.arraystring_run.specs.ProgramRuns.{IsServed, IsOutcomeIfNamed, capacity_in_bytes, capacity_named, exit_status, stderr_text};

pub use crate::arguments::given_word;
use crate::player::{PlayFault, play};
use crate::printing::write_prefix_and_value;
use crate::writing::write_text;
use std::alloc::Global;
use std::io::{Read, Write};

/// A capacity that a word names.
#[derive(Clone, Copy)]
enum Capacity {
    Small,
    Cache,
    Max,
}

/// The capacity that a word names.
fn capacity_of(word: Option<&str>) -> Option<Capacity>
    ensures { option_map capacity_in_bytes result ≡ capacity_named word.entry }
{
    match word {
        Some("small") => Some(Capacity::Small),
        Some("cache") => Some(Capacity::Cache),
        Some("max") => Some(Capacity::Max),
        _ => None,
    }
}

/// Plays a script at the capacity that a word names: `small` (23), `cache` (63) or `max` (255). Returns the
/// exit status of the program. The word is checked before anything is read.
///
/// - Status 0: the script was played.
/// - Status 2: the word is missing or is none of these three, or a line is no command.
/// - Status 3: memory ran out.
/// - Status 4: a read or a write failed.
///
/// If the status is not 0, one line on `errors` says why. If a write to `errors` fails, only a prefix of
/// that line is written, and the status is the same.
///
/// As in `play`, the contract says which bytes are read and written only if those of the streams tell their
/// bytes.
pub fn serve<I: Read, O: Write, E: Write>(
    alloc: Global,
    word: Option<&str>,
    input: &mut I,
    output: &mut O,
    errors: &mut E,
) -> u8
    ensures { IsServed (record {
      word = word.entry;
      input = I.remaining input.old;
      output_before = O.contents output.old;
      output_after = O.contents output.new;
      errors_before = E.contents errors.old;
      errors_after = E.contents errors.new;
      SameInput = input.new ≡ input.old;
      SameOutput = output.new ≡ output.old;
      SameErrors = errors.new ≡ errors.old;
      status = result;
    }) }
{
    let played = play_if_named(alloc, capacity_of(word), input, output);
    report(played, errors)
}

/// Plays a script at a capacity. Without a capacity it returns `None`, and nothing is read or written.
fn play_if_named<I: Read, O: Write>(
    alloc: Global,
    capacity: Option<Capacity>,
    input: &mut I,
    output: &mut O,
) -> Option<Result<(), PlayFault>>
    ensures { IsOutcomeIfNamed (option_map capacity_in_bytes capacity) (I.remaining input.old)
        (O.contents output.old) (O.contents output.new)
        (input.new ≡ input.old) (output.new ≡ output.old) result }
{
    Some(match capacity? {
        Capacity::Small => play::<23, I, O>(alloc, input, output),
        Capacity::Cache => play::<63, I, O>(alloc, input, output),
        Capacity::Max => play::<255, I, O>(alloc, input, output),
    })
}

/// Writes to `errors` a line that names the fault, or the usage if `played` is `None`, and nothing if the
/// script was played. Returns the exit status, also if this write fails.
fn report<E: Write>(played: Option<Result<(), PlayFault>>, errors: &mut E) -> u8
    ensures status { result ≡ exit_status played }
    ensures line { AppendsPrefix (E.contents errors.old) (E.contents errors.new)
        (stderr_text played) }
    ensures quiet { result ≡ 0 → errors.new ≡ errors.old }
{
    match played {
        Some(Ok(())) => 0,
        None => {
            let _ = write_text(errors, "usage: arraystring_run small or cache or max\n");
            2
        }
        Some(Err(PlayFault::BadLine(number))) => {
            let _ = write_prefix_and_value(errors, "bad line ", number);
            2
        }
        Some(Err(PlayFault::Memory)) => {
            let _ = write_text(errors, "out of memory\n");
            3
        }
        Some(Err(PlayFault::Read)) => {
            let _ = write_text(errors, "read failed\n");
            4
        }
        Some(Err(PlayFault::Write)) => {
            let _ = write_text(errors, "write failed\n");
            4
        }
    }
}
