//! Parts of a string, by ranges of byte indices, and what is left of a part that is taken out.
ghost use Rattle.std.specs.Prelude.{◌≡◌, ◌≢◌, ◌≤◌, [], MatchOption, None, Some, chars, true, false};
ghost use Rattle.arraystring.specs.Edits.{draining, first_cause, ok_unless_cause, checked_part, text_after_edit};
ghost use Rattle.arraystring.specs.Text.{boundary, cut, front};

use arraystring::laws::drain_gives_left;
use arraystring::{ArrayString, Drain, Error};

/// Returns the bytes from `start` to `end`, borrowed, or `None` if there is no such part.
pub fn part<const N: usize>(text: &ArrayString<N>, start: u8, end: u8) -> Option<&str>
    ensures { MatchOption result (checked_part text.now.text start end ≡ None)
        (λ found. checked_part text.now.text start end ≡ Some (chars found.now)) }
{
    text.get(start..end)
}

/// Returns the text before `end`, borrowed, or `None` if that is not a boundary.
#[tactic(auto, using(arraystring::proofs::Rules::cursors))]
pub fn prefix<const N: usize>(text: &ArrayString<N>, end: u8) -> Option<&str>
    ensures { MatchOption result (boundary text.now.text end ≡ false)
        (λ found. (boundary text.now.text end ≡ true)
        × (chars found.now ≡ front text.now.text end)) }
{
    text.get(0..end)
}

/// Drops the bytes from `start` to `end`.
///
/// # Errors
///
/// Those of `drain`, in the same order. The text is then as it was.
///
/// # Precondition
///
/// `N` must be at most 300.
#[tactic(auto, using(arraystring::proofs::Rules::texts))]
pub fn drop_part<const N: usize>(text: &mut ArrayString<N>, start: u8, end: u8) -> Result<(), Error>
    requires { N ≤ 300 }
    ensures outcome { result
        ≡ ok_unless_cause (first_cause (draining text.old.text start end).tests) tt }
    ensures text { text.new.text
        ≡ text_after_edit (draining text.old.text start end) text.old.text }
{
    text.drain(start..end)?;
    Ok(())
}

/// Takes the bytes from `start` to `end` out, and returns what was taken: nothing, if `drain` refuses that.
#[tactic(auto, using(arraystring::proofs::Rules::texts))]
pub fn taken_out(text: &mut ArrayString<16>, start: u8, end: u8) -> Drain<16>
    ensures text { text.new.text
        ≡ text_after_edit (draining text.old.text start end) text.old.text }
    ensures taken { first_cause (draining text.old.text start end).tests ≡ None
        → result.left ≡ (draining text.old.text start end).result }
    ensures refused { first_cause (draining text.old.text start end).tests ≢ None
        → result.left ≡ [] }
{
    text.drain(start..end).unwrap_or_default()
}

/// Returns the longest prefix of whole characters of what is left of `drained` that fits into 8
/// bytes.
pub fn start_of_rest(drained: Drain<64>) -> ArrayString<8>
    ensures { result.text ≡ cut drained.left 8 }
{
    drain_gives_left(&drained);
    ArrayString::from_chars(drained)
}
