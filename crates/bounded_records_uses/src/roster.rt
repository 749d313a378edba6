//! The names of a directory in their order, and a user in the place of another.
ghost use Rattle.std.specs.Prelude.{◌≡◌, Some, IsSome};
ghost use Rattle.std.specs.List.{AllPairs};
ghost use Rattle.std.specs.FinMap as finite;
ghost use Rattle.arraystring.specs.Text.{IsBefore};
ghost use Rattle.bounded_records.specs.UserTexts.{texts};

use bounded_records::{Directory, Names, User};
use std::alloc::AllocError;

/// Lists all usernames, in ascending order.
pub fn names_in_order(users: &Directory) -> Names<'_>
    ensures names { result ≡ finite.keys users.now }
    ensures ascending { AllPairs IsBefore result }
{
    users.names()
}

/// Puts `user` in the place of the user that has its username, and returns that one. Memory never runs out.
pub fn put_in_place(users: &mut Directory, user: User) -> User
    requires { IsSome (finite.get users.old user.username.text) }
    ensures old { Some (texts result) ≡ finite.get users.old user.username.text }
    ensures after { users.new ≡ finite.insert users.old user.username.text (texts user) }
{
    match users.insert(user) {
        Ok(Some(old)) => old,
        Ok(None) | Err(AllocError) => unreachable!(),
    }
}
