//! An entry `key=value` at the end of a line.
ghost use Rattle.std.specs.Prelude.{◌≡◌, ◌+◌, ◌≤◌, ◌↔◌, ◌++◌, ◌∷◌, IsOk, OnOk, OnErr, chars};
ghost use Rattle.arraystring.specs.Text.{cap, size};

use arraystring::{ArrayString, Error};

/// Appends `key`, `=` and `value`.
///
/// # Errors
///
/// Returns `Err(Error::OutOfBounds)` if not all of it fits. The text is then unchanged.
#[tactic(auto, using(arraystring::proofs::Rules::texts))]
pub fn add_entry<const N: usize>(
    line: &mut ArrayString<N>,
    key: &str,
    value: &str,
) -> Result<(), Error>
    ensures fits { IsOk result
        ↔ (size line.old.text + size (chars key.now ++ 61 ∷ chars value.now) ≤ cap N) }
    ensures added { OnOk result
        (line.new.text ≡ line.old.text ++ (chars key.now ++ 61 ∷ chars value.now)) }
    ensures refused { OnErr result (line.new.text ≡ line.old.text) }
{
    let mut longer = *line;
    longer.try_push_str(key)?;
    longer.try_push('=')?;
    longer.try_push_str(value)?;
    *line = longer;
    Ok(())
}
