//! A name that comes as bytes.
ghost use Rattle.std.specs.Prelude.{◌≡◌, ◌<◌, ◌≤◌, ◌↔◌, Err, IfOk, IsOk, length};
ghost use Rattle.arraystring.specs.Refusals.{OutOfBounds, Utf8};
ghost use Rattle.arraystring.specs.Text.{IsWellFormed, bytes};

use arraystring::{ArrayString, Error};

/// Reads a name of at most 16 bytes.
///
/// # Errors
///
/// Those of `try_from_utf8`. If the name is too long, it is well-formed UTF-8.
#[tactic(auto, using(arraystring::proofs::Rules::texts))]
pub fn name_in(given: &[u8]) -> Result<ArrayString<16>, Error>
    ensures malformed { ¬ (IsWellFormed given.now) → result ≡ Err Utf8 }
    ensures too_long { result ≡ Err OutOfBounds → IsWellFormed given.now × (16 < length given.now) }
    ensures fits { IsOk result ↔ (IsWellFormed given.now × (length given.now ≤ 16)) }
    ensures name { IfOk result (λ name. bytes name.text ≡ given.now) }
{
    ArrayString::try_from_utf8(given)
}
