//! Texts whose next character depends on those before it.
ghost use Rattle.std.specs.Prelude.{◌≡◌, Option, chars};
ghost use Rattle.arraystring.specs.Construct.{IsWholeOrRefused};
ghost use Rattle.arraystring.specs.Edits.{Makes, addition};
ghost use Rattle.arraystring.specs.Text.{cap};
ghost use Rattle.arraystring_recipes.specs.Titles.{title_piece, squeezed, title};

use arraystring::laws::text_fits;
use arraystring::{ArrayString, Error};

/// Returns `text` with the first letter of each word in upper case, if it is one of ASCII.
///
/// # Errors
///
/// Returns `Err(Error::OutOfBounds)` if the whole does not fit.
#[tactic(auto, using(arraystring::proofs::Rules::texts, arraystring::proofs::Rules::traces))]
pub fn titled<const N: usize>(text: &str) -> Result<ArrayString<N>, Error>
    ensures { IsWholeOrRefused (title (chars text.now)) (cap N) result }
{
    let mut line = ArrayString::new();
    let mut at_start = true;
    for ch in text.chars() {
        push_in_title(&mut line, at_start, ch)?;
        at_start = ch == ' ';
    }
    text_fits(&line);
    Ok(line)
}

/// Appends a character of a title, in upper case if a word begins with it.
fn push_in_title<const N: usize>(
    line: &mut ArrayString<N>,
    at_start: bool,
    ch: char,
) -> Result<(), Error>
    ensures { Makes (addition line.old.text (title_piece at_start ch) (cap N))
        line.old.text result line.new.text }
{
    let shown = if at_start {
        ch.to_ascii_uppercase()
    } else {
        ch
    };
    line.try_push(shown)?;
    Ok(())
}

/// Leaves one character in place of each run of the same.
pub fn squeeze<const N: usize>(text: &mut ArrayString<N>)
    ensures { text.new.text ≡ squeezed text.old.text }
{
    let mut last = None;
    text.retain(|ch| {
        let is_new = last != Some(ch);
        last = Some(ch);
        is_new
    });
}
