//! A text with escapes, as it stands in a literal of a program.
ghost use Rattle.std.specs.Prelude.{◌≡◌, chars};
ghost use Rattle.arraystring.specs.Construct.{IsWholeOrRefused};
ghost use Rattle.arraystring.specs.Edits.{Makes, addition};
ghost use Rattle.arraystring.specs.Text.{cap};
ghost use Rattle.arraystring_recipes.specs.Escapes.{escaped, escapes};

use arraystring::laws::text_fits;
use arraystring::{ArrayString, Error};

/// Appends a character, or its escape if it is a line end, a tab or a backslash. The attribute unfolds the definition
/// of the escapes, because the check does not do so by itself.
#[tactic(auto, using(arraystring::proofs::Rules::literals), unfolding(crate::specs::Escapes::escaped))]
fn push_escaped<const N: usize>(line: &mut ArrayString<N>, ch: char) -> Result<(), Error>
    ensures { Makes (addition line.old.text (escaped ch) (cap N))
        line.old.text result line.new.text }
{
    match ch {
        '\n' => line.try_push_str("\\n")?,
        '\t' => line.try_push_str("\\t")?,
        '\\' => line.try_push_str("\\\\")?,
        _ => line.try_push(ch)?,
    }
    Ok(())
}

/// Returns the text with an escape for each line end, each tab and each backslash.
///
/// # Errors
///
/// Returns `Err(Error::OutOfBounds)` if the whole does not fit.
#[tactic(auto, using(arraystring::proofs::Rules::additions, arraystring::proofs::Rules::characters))]
pub fn escape<const N: usize>(text: &str) -> Result<ArrayString<N>, Error>
    ensures { IsWholeOrRefused (escapes (chars text.now)) (cap N) result }
{
    let mut line = ArrayString::new();
    for ch in text.chars() {
        push_escaped(&mut line, ch)?;
    }
    text_fits(&line);
    Ok(line)
}
