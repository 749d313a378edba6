//! Columns of a table.
ghost use Rattle.std.specs.Prelude.{◌≡◌, ◌<◌, ◌++◌, [], MatchOption, chars, length, replicate};
ghost use Rattle.std.specs.Str.{IsAscii, IsNotAscii};
ghost use Rattle.arraystring.specs.Construct.{IsWholeOrRefused};
ghost use Rattle.arraystring.specs.Text.{bytes, cap, size};

use arraystring::laws::text_fits;
use arraystring::{ArrayString, Error};

/// Returns `text` and then `count` spaces.
///
/// # Errors
///
/// Returns `Err(Error::OutOfBounds)` if the whole does not fit.
#[tactic(auto, using(arraystring::proofs::Rules::texts))]
pub fn padded<const N: usize>(text: &str, count: u8) -> Result<ArrayString<N>, Error>
    ensures { IsWholeOrRefused (chars text.now ++ replicate count 0x20) (cap N) result }
{
    let mut column = ArrayString::try_from_str(text)?;
    for _ in 0..count {
        column.try_push(' ')?;
    }
    text_fits(&column);
    Ok(column)
}

/// Returns how many bytes a column takes, or `None` if it is empty.
#[tactic(auto, using(arraystring::proofs::Rules::sizes))]
pub fn bytes_shown(column: &ArrayString<16>) -> Option<u8>
    ensures { MatchOption result (column.now.text ≡ [])
        (λ bytes. (bytes ≡ size column.now.text) × (0 < bytes)) }
{
    match column.len() {
        0 => None,
        bytes => Some(bytes),
    }
}

/// Returns how many characters a column of ASCII has, or `None` if it has one that is not of ASCII.
#[tactic(auto, using(arraystring::proofs::Rules::ascii))]
pub fn ascii_width(column: &ArrayString<16>) -> Option<u8>
    ensures { MatchOption result (IsNotAscii (bytes column.now.text))
        (λ count. (count ≡ length column.now.text) × IsAscii (bytes column.now.text)) }
{
    if column.as_str().is_ascii() {
        Some(column.len())
    } else {
        None
    }
}
