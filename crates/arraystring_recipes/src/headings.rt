//! The title of a text, of which a line keeps what fits.
ghost use Rattle.std.specs.Prelude.{◌≡◌, ◌∷◌, [], chars};
ghost use Rattle.arraystring.specs.Text.{cap, cut};
ghost use Rattle.arraystring_recipes.specs.Titles.{title, title_piece};

use arraystring::ArrayString;
use arraystring::laws::text_fits;

/// Returns `text` with each letter from a to z in upper case that stands first or behind a space, or the longest
/// prefix of that which fits.
#[tactic(auto, using(arraystring::proofs::Rules::additions, arraystring::proofs::Rules::traces, arraystring::proofs::Rules::cut_pieces))]
pub fn heading<const N: usize>(text: &str) -> ArrayString<N>
    ensures { result.text ≡ cut (title (chars text.now)) (cap N) }
{
    let mut line = ArrayString::new();
    let mut at_start = true;
    for ch in text.chars() {
        text_fits(&line);
        if line.try_push(in_title(at_start, ch)).is_err() {
            return line;
        }
        at_start = ch == ' ';
    }
    text_fits(&line);
    line
}

/// Returns a character of a title, in upper case if a word begins with it.
fn in_title(at_start: bool, ch: char) -> char
    ensures { result ∷ [] ≡ title_piece at_start ch }
{
    if at_start {
        ch.to_ascii_uppercase()
    } else {
        ch
    }
}
