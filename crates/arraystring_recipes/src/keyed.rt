//! Numbers under names, in a map of each kind: the same calls, and the same clauses.
ghost use Rattle.std.specs.Prelude.{◌≡◌, ◌≢◌, ◌+◌, ◌<◌, ◌^◌, ℕ, List, None, Some, OnOk, OnErr, unwrap_or};
ghost use Rattle.arraystring_recipes.specs.Keyed.{ordered_under, hashed_under};

use arraystring::ArrayString;
use std::alloc::AllocError;
use std::collections::{BTreeMap, HashMap};

/// The name of a thing that is counted.
pub type Name = ArrayString<16>;

/// Puts `number` under `name`.
///
/// # Errors
///
/// Returns `Err(AllocError)` if `BTreeMap::insert` does. What is under each name is then as it was.
#[tactic(auto, using(arraystring::proofs::Rules::keyed))]
pub fn put_ordered(
    numbers: &mut BTreeMap<Name, u32>,
    name: Name,
    number: u32,
) -> Result<(), AllocError>
    ensures found { OnOk result (ordered_under numbers.new name.text ≡ Some number) }
    ensures others { (other : List ℕ) → other ≢ name.text
        → ordered_under numbers.new other ≡ ordered_under numbers.old other }
    ensures refused { OnErr result (ordered_under numbers.new name.text
        ≡ ordered_under numbers.old name.text) }
    ensures absent { OnErr result (ordered_under numbers.old name.text ≡ None) }
{
    numbers.insert(name, number)?;
    Ok(())
}

/// Returns the number under `name`, or `None` if there is none.
pub fn read_ordered(numbers: &BTreeMap<Name, u32>, name: &Name) -> Option<u32>
    ensures { result ≡ ordered_under numbers.now name.now.text }
{
    numbers.get(name).copied()
}

/// Counts one more under `name`, which begins at 0.
///
/// # Errors
///
/// Returns `Err(AllocError)` if `BTreeMap::insert` does. What is under each name is then as it was.
///
/// # Precondition
///
/// The count under `name` must be below 2^32 - 1.
#[tactic(auto, using(arraystring::proofs::Rules::keyed))]
pub fn count_ordered(counts: &mut BTreeMap<Name, u32>, name: Name) -> Result<(), AllocError>
    requires { unwrap_or (ordered_under counts.old name.text) 0 + 1 < 2 ^ 32 }
    ensures found { OnOk result (ordered_under counts.new name.text
        ≡ Some (unwrap_or (ordered_under counts.old name.text) 0 + 1)) }
    ensures others { (other : List ℕ) → other ≢ name.text
        → ordered_under counts.new other ≡ ordered_under counts.old other }
    ensures refused { OnErr result (ordered_under counts.new name.text
        ≡ ordered_under counts.old name.text) }
    ensures absent { OnErr result (ordered_under counts.old name.text ≡ None) }
{
    let count = counts.get(&name).copied().unwrap_or(0);
    counts.insert(name, count + 1)?;
    Ok(())
}

/// Takes the number under `name` out, and returns it, or `None` if there is none.
#[tactic(auto, using(arraystring::proofs::Rules::keyed))]
pub fn take_ordered(numbers: &mut BTreeMap<Name, u32>, name: &Name) -> Option<u32>
    ensures taken { result ≡ ordered_under numbers.old name.now.text }
    ensures gone { ordered_under numbers.new name.now.text ≡ None }
    ensures others { (other : List ℕ) → other ≢ name.now.text
        → ordered_under numbers.new other ≡ ordered_under numbers.old other }
{
    numbers.remove(name)
}

/// Puts `number` under `name`.
///
/// # Errors
///
/// Returns `Err(AllocError)` if `HashMap::insert` does. What is under each name is then as it was.
#[tactic(auto, using(arraystring::proofs::Rules::keyed))]
pub fn put_hashed(
    numbers: &mut HashMap<Name, u32>,
    name: Name,
    number: u32,
) -> Result<(), AllocError>
    ensures found { OnOk result (hashed_under numbers.new name.text ≡ Some number) }
    ensures others { (other : List ℕ) → other ≢ name.text
        → hashed_under numbers.new other ≡ hashed_under numbers.old other }
    ensures refused { OnErr result (hashed_under numbers.new name.text
        ≡ hashed_under numbers.old name.text) }
    ensures absent { OnErr result (hashed_under numbers.old name.text ≡ None) }
{
    numbers.insert(name, number)?;
    Ok(())
}

/// Returns the number under `name`, or `None` if there is none.
pub fn read_hashed(numbers: &HashMap<Name, u32>, name: &Name) -> Option<u32>
    ensures { result ≡ hashed_under numbers.now name.now.text }
{
    numbers.get(name).copied()
}

/// Counts one more under `name`, which begins at 0.
///
/// # Errors
///
/// Returns `Err(AllocError)` if `HashMap::insert` does. What is under each name is then as it was.
///
/// # Precondition
///
/// The count under `name` must be below 2^32 - 1.
#[tactic(auto, using(arraystring::proofs::Rules::keyed))]
pub fn count_hashed(counts: &mut HashMap<Name, u32>, name: Name) -> Result<(), AllocError>
    requires { unwrap_or (hashed_under counts.old name.text) 0 + 1 < 2 ^ 32 }
    ensures found { OnOk result (hashed_under counts.new name.text
        ≡ Some (unwrap_or (hashed_under counts.old name.text) 0 + 1)) }
    ensures others { (other : List ℕ) → other ≢ name.text
        → hashed_under counts.new other ≡ hashed_under counts.old other }
    ensures refused { OnErr result (hashed_under counts.new name.text
        ≡ hashed_under counts.old name.text) }
    ensures absent { OnErr result (hashed_under counts.old name.text ≡ None) }
{
    let count = counts.get(&name).copied().unwrap_or(0);
    counts.insert(name, count + 1)?;
    Ok(())
}

/// Takes the number under `name` out, and returns it, or `None` if there is none.
#[tactic(auto, using(arraystring::proofs::Rules::keyed))]
pub fn take_hashed(numbers: &mut HashMap<Name, u32>, name: &Name) -> Option<u32>
    ensures taken { result ≡ hashed_under numbers.old name.now.text }
    ensures gone { hashed_under numbers.new name.now.text ≡ None }
    ensures others { (other : List ℕ) → other ≢ name.now.text
        → hashed_under numbers.new other ≡ hashed_under numbers.old other }
{
    numbers.remove(name)
}
