//! What is in a record.
ghost use Rattle.std.specs.Prelude.{◌≡◌, ℕ, List, IfErr, IsOkAnd};
ghost use Rattle.bounded_records.specs.RecordBytes.{IsFirstFault, IsRecord};

use arraystring::ArrayString;
use bounded_records::{RecordFault, decode};

/// Reads `given` as the record of a user, and returns the role of this user.
///
/// # Errors
///
/// Those of `decode`.
pub fn role_in(given: &[u8]) -> Result<ArrayString<5>, RecordFault>
    ensures role { (username role : List ℕ)
        → IsRecord given.now username role → IsOkAnd result (λ found. found.text ≡ role) }
    ensures fault { IfErr result (λ fault. IsFirstFault given.now fault) }
{
    Ok(decode(given)?.role)
}
