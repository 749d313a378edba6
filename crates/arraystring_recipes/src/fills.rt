//! Texts that are filled up with a character, and lines that are full.
ghost use Rattle.std.specs.Prelude.{◌≡◌, ◌<◌, ◌++◌, chars, map, replicate};
ghost use Rattle.arraystring.specs.Construct.{IsWholeOrRefused};
ghost use Rattle.arraystring.specs.Text.{cap, cut};
ghost use Rattle.arraystring_recipes.specs.Fills.{plain};

use arraystring::laws::text_fits;
use arraystring::{ArrayString, Error};

/// Returns `text` and then `count` times `fill`.
///
/// # Errors
///
/// Returns `Err(Error::OutOfBounds)` if the whole does not fit.
#[tactic(auto, using(arraystring::proofs::Rules::texts))]
pub fn filled_up<const N: usize>(text: &str, fill: char, count: u8) -> Result<ArrayString<N>, Error>
    ensures { IsWholeOrRefused (chars text.now ++ replicate count fill) (cap N) result }
{
    let mut column = ArrayString::try_from_str(text)?;
    for _ in 0..count {
        column.try_push(fill)?;
    }
    text_fits(&column);
    Ok(column)
}

/// Returns `ch` if it is one of ASCII, and else `?`.
fn plain(ch: char) -> char
    ensures shown { result ≡ plain ch }
    ensures low { result < 128 }
{
    if ch.is_ascii() { ch } else { '?' }
}

/// Returns `text` with `?` in place of each character that is not of ASCII, or the longest prefix of that which fits.
#[tactic(auto, using(arraystring::proofs::Rules::literals, arraystring::proofs::Rules::characters, arraystring::proofs::Rules::chains, arraystring::proofs::Rules::cut_pieces, arraystring::proofs::Rules::full_lines, arraystring::proofs::Rules::sizes))]
pub fn plain_start<const N: usize>(text: &str) -> ArrayString<N>
    ensures { result.text ≡ cut (map plain (chars text.now)) (cap N) }
{
    let mut line = ArrayString::new();
    for ch in text.chars() {
        if line.len() == ArrayString::<N>::capacity() {
            return line;
        }
        line.push_unchecked(plain(ch));
    }
    text_fits(&line);
    line
}
