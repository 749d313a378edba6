//! Texts that are made of another text, character by character: by a chain of iterators, and by a loop.
ghost use Rattle.std.specs.Prelude.{◌≡◌, chars, map};
ghost use Rattle.std.specs.Char.{is_ascii_digit};
ghost use Rattle.std.specs.List.{filter};
ghost use Rattle.arraystring.specs.Construct.{IsWholeOrRefused};
ghost use Rattle.arraystring.specs.Edits.{map_err_from_out_of_bounds};
ghost use Rattle.arraystring.specs.Text.{cap, cut};
ghost use Rattle.arraystring_recipes.specs.Chains.{compact, underscored};

use arraystring::error::OutOfBounds;
use arraystring::laws::text_fits;
use arraystring::{ArrayString, Error};

/// Returns `_` for a space, and each other character itself.
fn underscored(ch: char) -> char
    ensures { result ≡ underscored ch }
{
    if ch == ' ' { '_' } else { ch }
}

/// Returns `text` with `_` in place of each space, or the longest prefix of it that fits.
#[tactic(auto, using(arraystring::proofs::Rules::given))]
pub fn snake<const N: usize>(text: &str) -> ArrayString<N>
    ensures { result.text ≡ cut (map underscored (chars text.now)) (cap N) }
{
    ArrayString::from_chars(text.chars().map(underscored))
}

/// Returns the digits of `text`.
///
/// # Errors
///
/// Returns `Err(OutOfBounds)` if they do not all fit.
#[tactic(auto, using(arraystring::proofs::Rules::given))]
pub fn digits_in<const N: usize>(text: &str) -> Result<ArrayString<N>, OutOfBounds>
    ensures { IsWholeOrRefused (filter is_ascii_digit (chars text.now)) (cap N)
        (map_err_from_out_of_bounds result) }
{
    ArrayString::try_from_chars(text.chars().filter(|ch| ch.is_ascii_digit()))
}

/// Returns `text` without its spaces, with a to z in upper case, or the longest prefix of that which fits.
#[tactic(auto, using(arraystring::proofs::Rules::given))]
pub fn compact<const N: usize>(text: &str) -> ArrayString<N>
    ensures { result.text ≡ cut (compact (chars text.now)) (cap N) }
{
    let kept = text.chars().filter(|ch| *ch != ' ');
    ArrayString::from_chars(kept.map(|ch| ch.to_ascii_uppercase()))
}

/// Returns `text` with `_` in place of each space. That takes as many bytes, so it fits again.
#[tactic(auto, using(arraystring::proofs::Rules::texts, arraystring::proofs::Rules::widths))]
pub fn snake_again<const N: usize>(text: &ArrayString<N>) -> ArrayString<N>
    ensures { result.text ≡ map underscored text.now.text }
{
    snake(text.as_str())
}

/// Returns `text` with `_` in place of each space, as `snake` does, by a loop that refuses what does not fit.
///
/// # Errors
///
/// Returns `Err(Error::OutOfBounds)` if the whole does not fit.
#[tactic(auto, using(arraystring::proofs::Rules::texts, arraystring::proofs::Rules::chains))]
pub fn try_snake<const N: usize>(text: &str) -> Result<ArrayString<N>, Error>
    ensures { IsWholeOrRefused (map underscored (chars text.now)) (cap N) result }
{
    let mut line = ArrayString::new();
    for ch in text.chars() {
        line.try_push(underscored(ch))?;
    }
    text_fits(&line);
    Ok(line)
}

/// Returns `text` without its spaces, with a to z in upper case, by a loop that refuses what does not fit.
///
/// # Errors
///
/// Returns `Err(Error::OutOfBounds)` if the whole does not fit.
#[tactic(auto, using(arraystring::proofs::Rules::additions, arraystring::proofs::Rules::characters, arraystring::proofs::Rules::chains))]
pub fn try_compact<const N: usize>(text: &str) -> Result<ArrayString<N>, Error>
    ensures { IsWholeOrRefused (compact (chars text.now)) (cap N) result }
{
    let mut line = ArrayString::new();
    for ch in text.chars() {
        if ch != ' ' {
            line.try_push(ch.to_ascii_uppercase())?;
        }
    }
    text_fits(&line);
    Ok(line)
}

/// Returns the digits of `text`, by a loop. They are no larger than the text, so they fit.
#[tactic(auto, using(arraystring::proofs::Rules::texts, arraystring::proofs::Rules::chains, arraystring::proofs::Rules::widths))]
pub fn digits_of<const N: usize>(text: &ArrayString<N>) -> ArrayString<N>
    ensures { result.text ≡ filter is_ascii_digit text.now.text }
{
    let mut line = ArrayString::new();
    for ch in text.as_str().chars() {
        if ch.is_ascii_digit() {
            line.push_unchecked(ch);
        }
    }
    line
}
