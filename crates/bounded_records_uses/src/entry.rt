//! The user of a record, entered in a directory.
ghost use Rattle.std.specs.Prelude.{◌≡◌, ℕ, List, IfErr, IsErrAnd, OnErr, OnOk};
ghost use Rattle.std.specs.FinMap as finite;
ghost use Rattle.bounded_records.specs.RecordBytes.{IsFirstFault, IsRecord};
ghost use Rattle.bounded_records.specs.declared.record.RecordFault.{RecordFault};
ghost use Rattle.bounded_records_uses.specs.declared.entry.NotEntered.TheVariants.{Memory, NoRecord};

use bounded_records::{Directory, decode};

/// Why the user of a record was not entered. Nothing has changed then.
#[derive(Clone, Copy, PartialEq, Eq, Debug)]
pub enum NotEntered {
    /// The bytes are no record.
    NoRecord,
    /// There is not enough memory.
    Memory,
}

/// Enters the user that has the record `given`.
///
/// # Errors
///
/// The first of these that holds decides, and nothing has changed then:
///
/// - `Err(NoRecord)` if no user has this record;
/// - `Err(Memory)` if there is not enough memory.
pub fn enter_record(users: &mut Directory, given: &[u8]) -> Result<(), NotEntered>
    ensures entered { (username role : List ℕ) → IsRecord given.now username role
        → OnOk result (users.new ≡ finite.insert users.old username (username, role)) }
    ensures refused { OnErr result (users.new ≡ users.old) }
    ensures no_record { (fault : RecordFault) → IsFirstFault given.now fault
        → IsErrAnd result (λ cause. cause ≡ NoRecord) }
    ensures no_memory { (username role : List ℕ) → IsRecord given.now username role
        → IfErr result (λ cause. cause ≡ Memory) }
{
    let Ok(user) = decode(given) else {
        return Err(NotEntered::NoRecord);
    };
    if users.insert(user).is_err() {
        return Err(NotEntered::Memory);
    }
    Ok(())
}
