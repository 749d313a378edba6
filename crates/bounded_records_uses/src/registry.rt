//! A registry of users: entered, listed, renamed and struck off.
ghost use Rattle.std.specs.Prelude.{◌≡◌, ◌≢◌, ℕ, List, Some, None, IfOk, IfErr, OnOk, OnErr, IsSome, map, is_some};
ghost use Rattle.std.specs.Option.{option_map};
ghost use Rattle.std.specs.FinMap as finite;
ghost use Rattle.bounded_records.specs.UserTexts.{texts};
ghost use Rattle.bounded_records_uses.specs.declared.registry.NotRenamed.TheVariants.{Missing, Taken, Memory};

use arraystring::ArrayString;
use bounded_records::{Directory, User};
use std::alloc::{AllocError, Global};

/// Enters a user, and returns the role that is then found under the username, which is the one that
/// was entered.
///
/// # Errors
///
/// Returns `Err(AllocError)` if `Directory::insert` does. Nothing has changed then.
pub fn enter(users: &mut Directory, user: User) -> Result<Option<ArrayString<5>>, AllocError>
    ensures role { IfOk result (λ role. option_map (λ role. role.text) role ≡ Some user.role.text) }
    ensures after { OnOk result
        (users.new ≡ finite.insert users.old user.username.text (texts user)) }
    ensures refused { OnErr result (users.new ≡ users.old) }
{
    users.insert(user)?;
    Ok(users.get(&user.username).map(|found| found.role))
}

/// Returns all users, in the order of their usernames.
///
/// # Errors
///
/// Returns `Err(AllocError)` if `collect` does.
pub fn dump(users: &Directory, alloc: Global) -> Result<Vec<User>, AllocError>
    ensures { IfOk result (λ all. map texts all.items ≡ finite.values users.now) }
{
    users.users().copied().collect(alloc)
}

/// Why a user was not renamed. Nothing has changed then.
#[derive(Clone, Copy, PartialEq, Eq, Debug)]
pub enum NotRenamed {
    /// No user has the old name.
    Missing,
    /// Some user has the new name.
    Taken,
    /// There is not enough memory.
    Memory,
}

/// Gives the user under `from` the name `to`; its role stays, and so do all other users.
///
/// # Errors
///
/// The first of these that holds decides, and nothing has changed then:
///
/// - `Err(Missing)` if no user has the old name;
/// - `Err(Taken)` if some user has the new name;
/// - `Err(Memory)` if there is not enough memory.
pub fn rename(
    users: &mut Directory,
    from: &ArrayString<20>,
    to: ArrayString<20>,
) -> Result<(), NotRenamed>
    ensures was { OnOk result (IsSome (finite.get users.old from.now.text)) }
    ensures free { OnOk result (finite.get users.old to.text ≡ None) }
    ensures after { OnOk result
        (option_map (λ user. (to.text, user.1)) (finite.get users.old from.now.text)
        ≡ finite.get users.new to.text) }
    ensures gone { OnOk result (finite.get users.new from.now.text ≡ None) }
    ensures others { (name : List ℕ) → name ≢ from.now.text → name ≢ to.text
        → finite.get users.new name ≡ finite.get users.old name }
    ensures refused { OnErr result (users.new ≡ users.old) }
    ensures missing { IfErr result
        (λ cause. cause ≡ Missing → finite.get users.old from.now.text ≡ None) }
    ensures taken { IfErr result (λ cause. cause ≡ Taken
        → IsSome (finite.get users.old from.now.text) × IsSome (finite.get users.old to.text)) }
    ensures memory { IfErr result (λ cause. cause ≡ Memory
        → IsSome (finite.get users.old from.now.text) × (finite.get users.old to.text ≡ None)) }
{
    let Some(user) = users.get(from).copied() else {
        return Err(NotRenamed::Missing);
    };
    if users.contains(&to) {
        return Err(NotRenamed::Taken);
    }
    let renamed = User {
        username: to,
        role: user.role,
    };
    if users.insert(renamed).is_err() {
        return Err(NotRenamed::Memory);
    }
    users.remove(from);
    Ok(())
}

/// Strikes off the user under `name`, and returns whether there was one.
pub fn strike_off(users: &mut Directory, name: &ArrayString<20>) -> bool
    ensures was { result ≡ is_some (finite.get users.old name.now.text) }
    ensures gone { finite.get users.new name.now.text ≡ None }
    ensures others { (other : List ℕ)
        → other ≢ name.now.text → finite.get users.new other ≡ finite.get users.old other }
{
    users.remove(name).is_some()
}
