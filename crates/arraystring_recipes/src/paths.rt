//! Paths of segments, with a `/` between each two.
ghost use Rattle.std.specs.Prelude.{◌≡◌, ◌==◌, chars};
ghost use Rattle.std.specs.List.{after_last, before_last};
ghost use Rattle.arraystring.specs.Construct.{IsWholeOrRefused};
ghost use Rattle.arraystring.specs.Text.{cap};

use arraystring::laws::{rfind_finds_last, rsplit_once_at_last};
use arraystring::{ArrayString, Error};

/// Removes the last `/` and what comes after it. If there is no `/`, nothing is left.
pub fn go_up<const N: usize>(path: &mut ArrayString<N>)
    ensures { path.new.text ≡ before_last (λ c. c == 0x2F) path.old.text }
{
    let text = path.as_str();
    let place = text.rfind('/');
    rfind_finds_last(text, '/', place);
    match place {
        None => path.clear(),
        Some(at) => {
            let _ = path.truncate(at as u8);
        }
    }
}

/// Returns what comes after the last `/`. If there is no `/`, that is the whole path.
///
/// # Errors
///
/// Returns `Err(Error::OutOfBounds)` if it does not fit.
pub fn last_segment<const N: usize>(path: &str) -> Result<ArrayString<N>, Error>
    ensures { IsWholeOrRefused (after_last (λ c. c == 0x2F) (chars path.now)) (cap N) result }
{
    let parts = path.rsplit_once('/');
    rsplit_once_at_last(path, '/', parts);
    let segment = match parts {
        None => path,
        Some((_, segment)) => segment,
    };
    Ok(ArrayString::try_from_str(segment)?)
}
