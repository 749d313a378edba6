//! Runs of commands, over one string and over two.
ghost use Rattle.std.specs.Prelude.{◌≡◌, ◌-◌, ◌++◌, ◌↔◌, [], IfOk, OnOk, OnErr, IsTrue, chars};
ghost use Rattle.arraystring.specs.Edits.{all_but_last};
ghost use Rattle.arraystring.specs.Text.{cut, size};
ghost use Rattle.arraystring_run.specs.Effects.{NoneTight};

use arraystring::ArrayString;
use arraystring_run::{Command, run, run_both};
use std::alloc::{AllocError, Global};

/// Appends the longest prefix of `text` that fits, and then removes the last character.
///
/// # Errors
///
/// Returns `Err(AllocError)` if `run` does. The line is then unchanged.
pub fn push_and_pop(alloc: Global, line: &mut ArrayString<23>, text: &str) -> Result<(), AllocError>
    ensures text { OnOk result (line.new.text
        ≡ all_but_last (line.old.text ++ cut (chars text.now) (23 - size line.old.text))) }
    ensures refused { OnErr result (line.new.text ≡ line.old.text) }
{
    run(alloc, line, &[Command::PushStr(text), Command::Pop])?;
    Ok(())
}

/// Executes the commands on two empty strings. Returns whether none of them is tight on the small one: a command is
/// tight if it is refused because its result does not fit, or if it adds less than all of its text. If none is, both
/// strings have the same text at the end.
///
/// # Errors
///
/// Returns `Err(AllocError)` if `run_both` does.
pub fn fits_small(
    alloc: Global,
    small: &mut ArrayString<23>,
    large: &mut ArrayString<255>,
    commands: &[Command<'_>],
) -> Result<bool, AllocError>
    requires small { small.old.text ≡ [] }
    requires large { large.old.text ≡ [] }
    ensures fits { IfOk result (λ fits. IsTrue fits ↔ NoneTight commands.now [] 23) }
    ensures same { IfOk result (λ fits. IsTrue fits → small.new.text ≡ large.new.text) }
{
    let (in_small, _) = run_both(alloc, small, large, commands)?;
    Ok(in_small.first_tight.is_none())
}
