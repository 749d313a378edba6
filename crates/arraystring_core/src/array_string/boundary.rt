//! Boundaries of an `ArrayString`, which are those of its text. Indices count bytes of UTF-8.
ghost use Rattle.std.specs.Prelude.{◌≡◌, ◌↔◌, IsOk, IsTrue};
ghost use Rattle.arraystring_base.specs.Text.{boundary};

use crate::ArrayString;
use arraystring_base::error::Utf8;
use arraystring_base::utils::is_boundary;

impl<const N: usize> ArrayString<N> {
    /// Whether a character begins at the index `at`, or the text ends there.
    #[inline]
    pub(super) fn is_boundary(&self, at: usize) -> bool
        ensures { result ≡ boundary self.now.text at }
    {
        is_boundary(self.as_str(), at)
    }
}

/// Tests that `idx` is a boundary of `s`. A boundary is the size of a prefix of whole characters. (The name is
/// that of 0.3.0. In std a call of this name returns a `bool`.)
///
/// # Errors
///
/// Returns `Err(Utf8)` if `idx` is not a boundary. An index past the length is not a boundary.
///
/// # Examples
///
/// ```
/// let string = ArrayString::<4>::from("aé");
/// assert_eq!(utils::is_char_boundary(&string, 1), Ok(()));
/// assert_eq!(utils::is_char_boundary(&string, 2), Err(Utf8)); // inside `é`
/// assert_eq!(utils::is_char_boundary(&string, 4), Err(Utf8)); // past the text
/// ```
#[inline]
pub fn is_char_boundary<const N: usize>(s: &ArrayString<N>, idx: u8) -> Result<(), Utf8>
    ensures { IsOk result ↔ IsTrue (boundary s.now.text idx) }
{
    if s.is_boundary(idx as usize) {
        Ok(())
    } else {
        Err(Utf8)
    }
}
