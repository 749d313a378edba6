//! Points under names, in the order of the names.
ghost use Rattle.std.specs.Prelude.{◌≡◌, ◌≢◌, ◌⊎◌, ℕ, List, None, Some, IfOk, OnOk, OnErr};
ghost use Rattle.std.specs.List.{AllPairs};
ghost use Rattle.arraystring.specs.Text.{IsBefore};
ghost use Rattle.arraystring_recipes.specs.Scores.{names, points};

use arraystring::ArrayString;
use arraystring::laws::keys_ascend;
use std::alloc::AllocError;
use std::cmp::Ordering;
use std::collections::BTreeMap;

/// The name of a player.
pub type Name = ArrayString<16>;

/// Puts `score` under `name`, and returns what was there, or `None` if nothing was.
///
/// # Errors
///
/// Returns `Err(AllocError)` if `BTreeMap::insert` does. What is under each name is then as it was.
pub fn record(
    scores: &mut BTreeMap<Name, u32>,
    name: Name,
    score: u32,
) -> Result<Option<u32>, AllocError>
    ensures old { IfOk result (λ old. old ≡ points scores.old name.text) }
    ensures found { OnOk result (points scores.new name.text ≡ Some score) }
    ensures others { (other : List ℕ)
        → other ≢ name.text → points scores.new other ≡ points scores.old other }
    ensures refused { OnErr result (points scores.new name.text ≡ points scores.old name.text) }
    ensures absent { OnErr result (points scores.old name.text ≡ None) }
    ensures ordered { AllPairs IsBefore (names scores.new) }
{
    let old = scores.insert(name, score);
    keys_ascend(scores);
    Ok(old?)
}

/// Returns what is under `name`, or `None` if nothing is.
pub fn look_up(scores: &BTreeMap<Name, u32>, name: &Name) -> Option<u32>
    ensures { result ≡ points scores.now name.now.text }
{
    scores.get(name).copied()
}

/// Returns the one of two names that comes first.
pub fn first_of(a: Name, b: Name) -> Name
    ensures one { (result.text ≡ a.text) ⊎ (result.text ≡ b.text) }
    ensures least_a { (result.text ≡ a.text) ⊎ IsBefore result.text a.text }
    ensures least_b { (result.text ≡ b.text) ⊎ IsBefore result.text b.text }
{
    match a.cmp(&b) {
        Ordering::Less => a,
        Ordering::Equal => a,
        Ordering::Greater => b,
    }
}
