//! Walks over the characters of one or two texts, a character at a time.
ghost use Rattle.std.specs.Prelude.{◌≡◌, chars};
ghost use Rattle.std.specs.Str.{bytes_eq};
ghost use Rattle.arraystring.specs.Construct.{IsWholeOrRefused};
ghost use Rattle.arraystring.specs.Text.{cap, size};
ghost use Rattle.arraystring_recipes.specs.Walks.{common, folded, without_backslashes};

use arraystring::laws::text_fits;
use arraystring::{ArrayString, Error};

/// Returns how many bytes two texts have in common at their start.
#[tactic(auto, using(arraystring::proofs::Rules::walks))]
pub fn common_prefix(a: &str, b: &str) -> usize
    ensures { result ≡ size (common (chars a.now) (chars b.now)) }
{
    let mut left = a.chars();
    let mut right = b.chars();
    let mut size = 0;
    while let Some(x) = left.next() {
        let Some(y) = right.next() else {
            return size;
        };
        if x != y {
            return size;
        }
        size += x.len_utf8();
    }
    size
}

/// Compares two texts, and takes a letter of ASCII and the same in upper case as one.
#[tactic(auto, using(arraystring::proofs::Rules::walks))]
pub fn same_without_case(a: &str, b: &str) -> bool
    ensures { result ≡ bytes_eq (folded (chars a.now)) (folded (chars b.now)) }
{
    let mut left = a.chars();
    let mut right = b.chars();
    while let Some(x) = left.next() {
        let Some(y) = right.next() else {
            return false;
        };
        if x.to_ascii_lowercase() != y.to_ascii_lowercase() {
            return false;
        }
    }
    right.next().is_none()
}

/// Returns the text without its backslashes, of which each lets the character behind it stand as it is.
///
/// # Errors
///
/// Returns `Err(Error::OutOfBounds)` if the whole does not fit.
#[tactic(auto, using(arraystring::proofs::Rules::texts, arraystring::proofs::Rules::walks))]
pub fn strip_backslashes<const N: usize>(text: &str) -> Result<ArrayString<N>, Error>
    ensures { IsWholeOrRefused (without_backslashes (chars text.now)) (cap N) result }
{
    let mut line = ArrayString::new();
    let mut left = text.chars();
    while let Some(ch) = left.next() {
        if ch == '\\' {
            let Some(next) = left.next() else {
                text_fits(&line);
                return Ok(line);
            };
            line.try_push(next)?;
        } else {
            line.try_push(ch)?;
        }
    }
    text_fits(&line);
    Ok(line)
}
