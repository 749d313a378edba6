//! Numbers that are appended to a text.
ghost use Rattle.std.specs.Prelude.{◌≡◌, ◌≤◌, ◌++◌, OnOk, OnErr};
ghost use Rattle.std.specs.Fmt.{decimal, signed_decimal};
ghost use Rattle.arraystring.specs.Edits.{Makes, addition};
ghost use Rattle.arraystring.specs.Text.{cap, size};

use arraystring::{ArrayString, Error};
use std::fmt;
use std::fmt::Write;

/// Appends the digits of `number`.
///
/// # Errors
///
/// Returns `Err(Error::OutOfBounds)` if they do not fit. The text is then unchanged.
#[tactic(auto, using(arraystring::proofs::Rules::texts, arraystring::proofs::Rules::numbers))]
pub fn push_number<const N: usize>(line: &mut ArrayString<N>, number: u32) -> Result<(), Error>
    ensures { Makes (addition line.old.text (decimal number) (cap N))
        line.old.text result line.new.text }
{
    let mut longer = *line;
    if number >= 10 {
        push_number(&mut longer, number / 10)?;
    }
    longer.try_push((b'0' + (number % 10) as u8) as char)?;
    *line = longer;
    Ok(())
}

/// Appends the digits of `number` by `write!`.
///
/// # Errors
///
/// Returns `Err(fmt::Error)` if `write!` does. The text is then unchanged.
pub fn write_number(line: &mut ArrayString<24>, number: u32) -> fmt::Result
    ensures added { OnOk result (line.new.text ≡ line.old.text ++ decimal number) }
    ensures refused { OnErr result (line.new.text ≡ line.old.text) }
{
    let before = *line;
    let written = write!(line, "{number}");
    if written.is_err() {
        *line = before;
    }
    written
}

/// Returns the digits of `number`. A number of 32 bits has ten at most, so they fit.
#[tactic(auto, using(arraystring::proofs::Rules::texts, arraystring::proofs::Rules::digits))]
pub fn number_text(number: u32) -> ArrayString<10>
    ensures { result.text ≡ decimal number }
{
    let mut line = ArrayString::new();
    let _ = push_number(&mut line, number);
    line
}

/// Appends the digits of `number`, after a `-` if it is negative.
///
/// # Errors
///
/// Returns `Err(Error::OutOfBounds)` if they do not fit. The text is then unchanged.
#[tactic(auto, using(arraystring::proofs::Rules::texts))]
pub fn push_signed<const N: usize>(line: &mut ArrayString<N>, number: i32) -> Result<(), Error>
    ensures { Makes (addition line.old.text (signed_decimal number) (cap N))
        line.old.text result line.new.text }
{
    let mut longer = *line;
    if number < 0 {
        longer.try_push('-')?;
    }
    push_number(&mut longer, number.unsigned_abs())?;
    *line = longer;
    Ok(())
}

/// Returns the digits of `number`, after a `-` if it is negative. With its sign a number of 32 bits has
/// eleven characters at most, so they fit.
#[tactic(auto, using(arraystring::proofs::Rules::texts, arraystring::proofs::Rules::digits))]
pub fn signed_text(number: i32) -> ArrayString<11>
    ensures { result.text ≡ signed_decimal number }
{
    let mut line = ArrayString::new();
    let _ = push_signed(&mut line, number);
    line
}

/// Returns a number of bytes, 40 at most, that is large enough for the digits of `number` and its sign.
#[tactic(auto, using(arraystring::proofs::Rules::digits))]
pub fn room_for_signed(number: i128) -> usize
    ensures enough { size (signed_decimal number) ≤ result }
    ensures most { result ≤ 40 }
{
    40
}
