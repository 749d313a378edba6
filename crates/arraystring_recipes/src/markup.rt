//! Texts of which each character becomes a piece of bounded size.
ghost use Rattle.std.specs.Prelude.{◌≡◌, ◌*◌, ◌≤◌, IsOk, chars, length};
ghost use Rattle.std.specs.List.{flat_map};
ghost use Rattle.arraystring.specs.Construct.{IsWholeOrRefused};
ghost use Rattle.arraystring.specs.Edits.{Makes, addition};
ghost use Rattle.arraystring.specs.Text.{cap, size};
ghost use Rattle.arraystring_recipes.specs.Markup.{entity, hyphened, hyphened_piece};

use arraystring::laws::text_fits;
use arraystring::{ArrayString, Error};

/// Appends a character as it stands in HTML. It takes at most five bytes.
#[tactic(auto, using(arraystring::proofs::Rules::literals, arraystring::proofs::Rules::sizes), unfolding(crate::specs::Markup::entity))]
fn push_entity<const N: usize>(line: &mut ArrayString<N>, ch: char) -> Result<(), Error>
    ensures made { Makes (addition line.old.text (entity ch) (cap N))
        line.old.text result line.new.text }
    ensures short { size (entity ch) ≤ 5 }
{
    match ch {
        '&' => line.try_push_str("&amp;")?,
        '<' => line.try_push_str("&lt;")?,
        '>' => line.try_push_str("&gt;")?,
        _ => line.try_push(ch)?,
    }
    Ok(())
}

/// Returns `text` as it stands in HTML. Five bytes for each character are enough.
///
/// # Errors
///
/// Returns `Err(Error::OutOfBounds)` if the whole does not fit.
#[tactic(auto, using(arraystring::proofs::Rules::texts, arraystring::proofs::Rules::widths))]
pub fn markup<const N: usize>(text: &str) -> Result<ArrayString<N>, Error>
    ensures whole { IsWholeOrRefused (flat_map entity (chars text.now)) (cap N) result }
    ensures fits { 5 * length (chars text.now) ≤ cap N → IsOk result }
{
    let mut line = ArrayString::new();
    for ch in text.chars() {
        push_entity(&mut line, ch)?;
    }
    text_fits(&line);
    Ok(line)
}

/// Returns a name as it stands in HTML. It fits, because 100 bytes are five for each of the name.
#[tactic(auto, using(arraystring::proofs::Rules::texts, arraystring::proofs::Rules::widths))]
pub fn markup_of_name(name: &ArrayString<20>) -> ArrayString<100>
    ensures { result.text ≡ flat_map entity name.now.text }
{
    match markup(name.as_str()) {
        Ok(line) => line,
        Err(_) => unreachable!(),
    }
}

/// Appends a hyphen, but not before the first character, and then the character. They take at most five bytes.
#[tactic(auto, using(arraystring::proofs::Rules::texts))]
fn push_hyphened<const N: usize>(
    line: &mut ArrayString<N>,
    is_first: bool,
    ch: char,
) -> Result<(), Error>
    ensures made { Makes (addition line.old.text (hyphened_piece is_first ch) (cap N))
        line.old.text result line.new.text }
    ensures short { size (hyphened_piece is_first ch) ≤ 5 }
{
    let mut longer = *line;
    if !is_first {
        longer.try_push('-')?;
    }
    longer.try_push(ch)?;
    *line = longer;
    Ok(())
}

/// Returns `text` with hyphens between its characters. Five bytes for each character are enough.
///
/// # Errors
///
/// Returns `Err(Error::OutOfBounds)` if the whole does not fit.
#[tactic(auto, using(arraystring::proofs::Rules::texts, arraystring::proofs::Rules::traces, arraystring::proofs::Rules::widths))]
pub fn hyphened<const N: usize>(text: &str) -> Result<ArrayString<N>, Error>
    ensures whole { IsWholeOrRefused (hyphened (chars text.now)) (cap N) result }
    ensures fits { 5 * length (chars text.now) ≤ cap N → IsOk result }
{
    let mut line = ArrayString::new();
    let mut is_first = true;
    for ch in text.chars() {
        push_hyphened(&mut line, is_first, ch)?;
        is_first = false;
    }
    text_fits(&line);
    Ok(line)
}
