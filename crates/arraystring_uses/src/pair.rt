//! Lines `key=value`: where a character first stands, and what is before and after it.
ghost use Rattle.std.specs.Prelude.{◌≡◌, ◌<◌, ◌≤◌, ◌↔◌, ◌==◌, ◌++◌, ◌∷◌, IsOk, IsOkAnd, IfOk, IfErr, IfSome, IfNone, MatchOption, chars, length};
ghost use Rattle.std.specs.List.{before_first, after_first, position_or_len};
ghost use Rattle.arraystring.specs.Construct.{IsWholeOrRefused};
ghost use Rattle.arraystring.specs.Refusals.{OutOfBounds};
ghost use Rattle.arraystring.specs.Text.{size};

use arraystring::laws::{split_once_at_first, str_find_gives_first, text_fits};
use arraystring::{ArrayString, Error};

/// Splits `line` at its first `=` into what is before it and what is after it.
///
/// # Errors
///
/// Returns `Err(Error::OutOfBounds)` if `line` has no `=`, or a part does not fit.
pub fn pair(line: &str) -> Result<(ArrayString<20>, ArrayString<40>), Error>
    ensures key { IfOk result (λ pair. pair.0.text ≡ before_first (λ c. c == 61) (chars line.now)) }
    ensures value { IfOk result
        (λ pair. pair.1.text ≡ after_first (λ c. c == 61) (chars line.now)) }
    ensures made { IsOk result
        ↔ ((position_or_len (λ c. c == 61) (chars line.now) < length (chars line.now))
        × (size (before_first (λ c. c == 61) (chars line.now)) ≤ 20)
        × (size (after_first (λ c. c == 61) (chars line.now)) ≤ 40)) }
    ensures refused { IfErr result (λ error. error ≡ OutOfBounds) }
{
    let found = line.split_once('=');
    split_once_at_first(line, '=', found);
    let (name, rest) = found.ok_or(Error::OutOfBounds)?;
    let key = ArrayString::try_from_str(name)?;
    let value = ArrayString::try_from_str(rest)?;
    Ok((key, value))
}

/// Splits a bounded line, as `pair` does.
///
/// # Errors
///
/// Those of `pair`.
pub fn pair_of(line: &ArrayString<64>) -> Result<(ArrayString<20>, ArrayString<40>), Error>
    ensures key { IfOk result (λ pair. pair.0.text ≡ before_first (λ c. c == 61) line.now.text) }
    ensures value { IfOk result (λ pair. pair.1.text ≡ after_first (λ c. c == 61) line.now.text) }
    ensures made { IsOk result
        ↔ ((position_or_len (λ c. c == 61) line.now.text < length line.now.text)
        × (size (before_first (λ c. c == 61) line.now.text) ≤ 20)
        × (size (after_first (λ c. c == 61) line.now.text) ≤ 40)) }
    ensures refused { IfErr result (λ error. error ≡ OutOfBounds) }
{
    pair(line.as_str())
}

/// Returns the line of a pair.
///
/// # Errors
///
/// Returns `Err(Error::OutOfBounds)` if it does not fit.
#[tactic(auto, using(arraystring::proofs::Rules::texts))]
pub fn line_of(key: &str, value: &str) -> Result<ArrayString<64>, Error>
    ensures { IsWholeOrRefused (chars key.now ++ 61 ∷ chars value.now) 64 result }
{
    let mut line = ArrayString::try_from_str(key)?;
    line.try_push('=')?;
    line.try_push_str(value)?;
    text_fits(&line);
    Ok(line)
}

/// Makes the line of a pair, and splits it again. If `key` has no `=`, that gives the pair back.
///
/// # Errors
///
/// Those of `line_of` and `pair`.
#[tactic(auto, using(arraystring::proofs::Rules::texts, arraystring::proofs::Rules::joins))]
pub fn there_and_back(
    key: &ArrayString<20>,
    value: &ArrayString<40>,
) -> Result<(ArrayString<20>, ArrayString<40>), Error>
    ensures back { position_or_len (λ c. c == 61) key.now.text ≡ length key.now.text
        → IsOkAnd result (λ pair. (pair.0.text ≡ key.now.text) × (pair.1.text ≡ value.now.text)) }
{
    let line = line_of(key.as_str(), value.as_str())?;
    pair_of(&line)
}

/// Removes the first `=` and all that comes after it from `line`, and returns the removed text. If there
/// is no `=`, returns `None` and changes nothing.
pub fn split_value(line: &mut ArrayString<64>) -> Option<ArrayString<64>>
    ensures { MatchOption result ((line.new.text ≡ line.old.text)
        × (position_or_len (λ c. c == 61) line.old.text ≡ length line.old.text))
        (λ rest. (line.new.text ≡ before_first (λ c. c == 61) line.old.text)
        × (rest.text ≡ 61 ∷ after_first (λ c. c == 61) line.old.text)) }
{
    text_fits(line);
    let text = line.as_str();
    let place = text.find('=');
    str_find_gives_first(text, '=', place);
    match place {
        None => None,
        Some(at) => line.split_off(at as u8).ok(),
    }
}
