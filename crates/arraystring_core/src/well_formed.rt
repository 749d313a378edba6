//! The test of UTF-8.
ghost use Rattle.std.specs.Prelude.{◌≡◌, MatchResult, IsUtf8};

use arraystring_base::error::Utf8;
use std::str;

/// Returns the text whose UTF-8 is `given`, or `Err(Utf8)` if `given` is not well-formed.
#[inline]
pub(crate) fn read_utf8(given: &[u8]) -> Result<&str, Utf8>
    ensures { MatchResult result (λ string. (string.now ≡ given.now) × IsUtf8 given.now)
        (λ _. ¬ (IsUtf8 given.now)) }
{
    match str::from_utf8(given) {
        Ok(string) => Ok(string),
        Err(_) => Err(Utf8),
    }
}
