//! A text with a comma before each fourth character.
ghost use Rattle.std.specs.Prelude.{chars};
ghost use Rattle.arraystring.specs.Construct.{IsWholeOrRefused};
ghost use Rattle.arraystring.specs.Edits.{Makes, addition};
ghost use Rattle.arraystring.specs.Text.{cap};
ghost use Rattle.arraystring_recipes.specs.Commas.{piece, with_commas};

use arraystring::laws::text_fits;
use arraystring::{ArrayString, Error};

/// Puts a comma before each fourth character of `text`: the fourth, the eighth and so on.
///
/// # Errors
///
/// Returns `Err(Error::OutOfBounds)` if the whole does not fit.
pub fn with_commas<const N: usize>(text: &str) -> Result<ArrayString<N>, Error>
    ensures { IsWholeOrRefused (with_commas (chars text.now)) (cap N) result }
{
    let mut line = ArrayString::new();
    for (index, ch) in text.chars().enumerate() {
        push_piece(&mut line, index, ch)?;
    }
    text_fits(&line);
    Ok(line)
}

/// Appends the character at an index of the text, behind a comma if it is a fourth one.
#[tactic(auto, using(arraystring::proofs::Rules::texts))]
fn push_piece<const N: usize>(
    line: &mut ArrayString<N>,
    index: usize,
    ch: char,
) -> Result<(), Error>
    ensures { Makes (addition line.old.text (piece (index, ch)) (cap N))
        line.old.text result line.new.text }
{
    let mut longer = *line;
    if index % 4 == 3 {
        longer.try_push(',')?;
    }
    longer.try_push(ch)?;
    *line = longer;
    Ok(())
}
