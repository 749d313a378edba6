//! A field of a CSV file in quotes, and a text in which another text stands for a character.
ghost use Rattle.std.specs.Prelude.{◌≡◌, ◌+◌, ◌≤◌, ◌↔◌, ◌++◌, IsTrue, chars};
ghost use Rattle.arraystring.specs.Construct.{IsWholeOrRefused};
ghost use Rattle.arraystring.specs.Edits.{Makes, addition};
ghost use Rattle.arraystring.specs.Text.{cap, cut, size};
ghost use Rattle.arraystring_uses.specs.Quotes.{doubled, exchanged, quoted, replaced};

use arraystring::laws::text_fits;
use arraystring::{ArrayString, Error};

/// Puts `field` between quotes, and writes each quote in it twice.
///
/// # Errors
///
/// Returns `Err(Error::OutOfBounds)` if the whole does not fit.
#[tactic(auto, using(arraystring::proofs::Rules::texts))]
pub fn quoted<const N: usize>(field: &str) -> Result<ArrayString<N>, Error>
    ensures { IsWholeOrRefused (quoted (chars field.now)) (cap N) result }
{
    let mut line = ArrayString::new();
    line.try_push('"')?;
    for ch in field.chars() {
        push_doubled(&mut line, ch)?;
    }
    line.try_push('"')?;
    text_fits(&line);
    Ok(line)
}

/// Appends a character, or two quotes if it is a quote.
#[tactic(auto, using(arraystring::proofs::Rules::texts))]
fn push_doubled<const N: usize>(line: &mut ArrayString<N>, ch: char) -> Result<(), Error>
    ensures { Makes (addition line.old.text (doubled ch) (cap N))
        line.old.text result line.new.text }
{
    if ch == '"' {
        line.try_push_str("\"\"")?;
    } else {
        line.try_push(ch)?;
    }
    Ok(())
}

/// Returns `text` with `to` in place of each `from`, or the longest prefix of it that fits.
#[tactic(auto, using(arraystring::proofs::Rules::cut_pieces, arraystring::proofs::Rules::characters))]
pub fn replaced<const N: usize>(text: &str, from: char, to: &str) -> ArrayString<N>
    ensures { result.text ≡ cut (replaced from (chars to.now) (chars text.now)) (cap N) }
{
    let mut line = ArrayString::new();
    for ch in text.chars() {
        if !push_exchanged(&mut line, ch, from, to) {
            return line;
        }
    }
    text_fits(&line);
    line
}

/// Appends what stands for `ch`, or the longest prefix of it that fits, and says whether that is all of it.
#[tactic(auto, using(arraystring::proofs::Rules::additions, arraystring::proofs::Rules::cut_pieces))]
fn push_exchanged<const N: usize>(line: &mut ArrayString<N>, ch: char, from: char, to: &str) -> bool
    ensures text { line.new.text ≡ cut (line.old.text ++ exchanged from (chars to.now) ch) (cap N) }
    ensures all { IsTrue result
        ↔ (size (line.old.text ++ exchanged from (chars to.now) ch) ≤ cap N) }
{
    text_fits(line);
    if ch != from {
        return line.try_push(ch).is_ok();
    }
    let fits = line.try_push_str(to).is_ok();
    if !fits {
        line.push_str(to);
    }
    fits
}
