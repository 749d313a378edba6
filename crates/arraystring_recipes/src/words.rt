//! Words that are put together.
ghost use Rattle.std.specs.Prelude.{◌≡◌, ◌+◌, ◌<◌, ◌≤◌, ◌++◌, ◌∷◌, [], chars, length, take};
ghost use Rattle.std.specs.List.{flat_map};
ghost use Rattle.arraystring.specs.Construct.{IsWholeOrRefused};
ghost use Rattle.arraystring.specs.Edits.{Makes, addition};
ghost use Rattle.arraystring.specs.Text.{cap, size};
ghost use Rattle.arraystring_recipes.specs.Words.{lines, path, spaced};

use arraystring::laws::text_fits;
use arraystring::{ArrayString, Error};

/// Puts each of `words` on a line of its own.
///
/// # Errors
///
/// Returns `Err(Error::OutOfBounds)` if the whole does not fit.
#[tactic(auto, using(arraystring::proofs::Rules::texts))]
pub fn lines<const N: usize>(words: &[&str]) -> Result<ArrayString<N>, Error>
    ensures { IsWholeOrRefused (lines words.now) (cap N) result }
{
    let mut all = ArrayString::new();
    for word in words {
        all.try_push_str(word)?;
        all.try_push('\n')?;
    }
    text_fits(&all);
    Ok(all)
}

/// Puts `words` one after the other, with a `/` between each two.
///
/// # Errors
///
/// Returns `Err(Error::OutOfBounds)` if the whole does not fit.
#[tactic(auto, using(arraystring::proofs::Rules::texts))]
pub fn path<const N: usize>(words: &[&str]) -> Result<ArrayString<N>, Error>
    ensures { IsWholeOrRefused (path words.now) (cap N) result }
{
    let Some((first, rest)) = words.split_first() else {
        return Ok(ArrayString::new());
    };
    let mut all = ArrayString::try_from_str(first)?;
    for word in rest {
        all.try_push('/')?;
        all.try_push_str(word)?;
    }
    text_fits(&all);
    Ok(all)
}

/// Puts as many of `words` on a line as fit, each with a space after it, and returns how many.
#[tactic(auto, using(arraystring::proofs::Rules::texts, arraystring::proofs::Rules::takes))]
pub fn filled<const N: usize>(words: &[&str]) -> (ArrayString<N>, usize)
    ensures text { result.0.text ≡ flat_map spaced (take result.1 words.now) }
    ensures count { result.1 ≤ length words.now }
    ensures full { result.1 < length words.now
        → cap N < size (flat_map spaced (take (result.1 + 1) words.now)) }
{
    let mut line = ArrayString::new();
    for (index, word) in words.iter().enumerate() {
        if push_spaced(&mut line, word).is_err() {
            return (line, index);
        }
    }
    (line, words.len())
}

/// Appends a word and a space.
#[tactic(auto, using(arraystring::proofs::Rules::texts))]
fn push_spaced<const N: usize>(line: &mut ArrayString<N>, word: &str) -> Result<(), Error>
    ensures { Makes (addition line.old.text (chars word.now ++ 0x20 ∷ []) (cap N))
        line.old.text result line.new.text }
{
    let mut longer = *line;
    longer.try_push_str(word)?;
    longer.try_push(' ')?;
    *line = longer;
    Ok(())
}

/// Appends `first` and `last`.
///
/// # Errors
///
/// Returns `Err(Error::OutOfBounds)` if not both fit. The text is then unchanged.
#[tactic(auto, using(arraystring::proofs::Rules::texts))]
pub fn add_both(line: &mut ArrayString<24>, first: &str, last: &str) -> Result<(), Error>
    ensures { Makes (addition line.old.text (chars first.now ++ chars last.now) 24)
        line.old.text result line.new.text }
{
    let mut longer = *line;
    longer.try_push_str(first)?;
    longer.try_push_str(last)?;
    *line = longer;
    Ok(())
}
