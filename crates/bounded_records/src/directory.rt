//! `Directory`: users by their usernames.
ghost use Rattle.std.specs.Prelude.{◌≡◌, ◌≢◌, ◌+◌, ◌<◌, ◌^◌, ◌↔◌, ℕ, IfOk, IfSome, IfNone, OnSome, OnOk, OnErr, IsTrue, None, Some, List, [], All, length, is_some, if◌then◌else◌};
ghost use Rattle.std.specs.Option.{option_copied, option_map};
ghost use Rattle.std.specs.List.{AllPairs};
ghost use Rattle.std.specs.FinMap as map;
ghost use Rattle.arraystring.specs.Text.{IsBefore};
ghost use Rattle.bounded_records.specs.UserTexts.{texts, names_of};
ghost use Rattle.bounded_records.specs.DirectoryWalks.{GivesInOrder, GivesInReverse, GivesCopiesInOrder, text_of_borrowed_username, text_of_username, texts_of_borrowed_user};

use crate::User;
use crate::walks::{Names, Users};
use arraystring::ArrayString;
use std::alloc::{AllocError, Global};
use std::collections::BTreeMap;
use std::marker::Model;
use std::{fmt, mem};

/// Users, each under its own username. Two strings with the same text are the same key.
///
/// In contracts a directory is a finite map: from the text of a username to the texts of its user, which are
/// the username and the role.
#[derive(Drop)]
pub struct Directory {
    users: BTreeMap<ArrayString<20>, User>,
}

impl Model for Directory {
    ghost use Rattle.std.specs.Prelude.{ℕ, List};
    ghost use Rattle.std.specs.Ordering.{nat_cmp};
    ghost use Rattle.std.specs.Cmp.Lexicographic.{slice_cmp};
    ghost use Rattle.std.specs.FinMap as map;
    ghost use Rattle.std.specs.Coded.{coded_list, coded_ℕ, coded×};
    ghost use Rattle.bounded_records.specs.UserTexts.{entry_texts, AreUnderTheirNames};

    ghost Value = { map.FinMap (slice_cmp nat_cmp) (List ℕ × List ℕ) };

    ghost coded = { map.code (coded_list coded_ℕ)
        (coded× (coded_list coded_ℕ) (coded_list coded_ℕ)) };

    ghost view = { λ d. map.from_entries (entry_texts d.users.entries) };

    ghost invariant = { λ d. AreUnderTheirNames
        (map.from_entries (entry_texts d.users.entries)) };
}

impl Directory {
    /// Returns an empty directory. It allocates nothing.
    pub fn new(alloc: Global) -> Self
        ensures empty { result ≡ map.empty }
        ensures none_found { (name : List ℕ) → map.get result name ≡ None }
        ensures no_names { map.keys result ≡ [] }
        ensures len { map.len result ≡ 0 }
    {
        Directory {
            users: BTreeMap::new(alloc),
        }
    }

    /// Returns how many users there are.
    pub fn len(&self) -> usize
        ensures len { result ≡ map.len self.now }
        ensures names { result ≡ length (map.keys self.now) }
        ensures countable { result < 2 ^ 63 }
    {
        self.users.len()
    }

    /// Returns whether there is no user.
    pub fn is_empty(&self) -> bool
        ensures { IsTrue result ↔ (self.now ≡ map.empty) }
    {
        self.users.is_empty()
    }

    /// Puts `user` under its username, and returns the user that was there before, if any. All other users
    /// stay.
    ///
    /// # Errors
    ///
    /// Returns `Err(AllocError)` if memory runs out, or if the tree of `std::collections::BTreeMap` would get
    /// higher than 11, which takes about 2^37 users. The directory is then unchanged. If there already is a
    /// user under the username, the call is never refused.
    #[tactic(auto, using(crate::proofs::MapLemmas::get_users, crate::proofs::MapLemmas::insert_users, crate::proofs::MapLemmas::get_inserted))]
    pub fn insert(&mut self, user: User) -> Result<Option<User>, AllocError>
        ensures old { IfOk result
            (λ old. option_map texts old ≡ map.get self.old user.username.text) }
        ensures own { IfOk result
            (λ old. IfSome old (λ old. old.username.text ≡ user.username.text)) }
        ensures after { OnOk result
            (self.new ≡ map.insert self.old user.username.text (texts user)) }
        ensures found { OnOk result (map.get self.new user.username.text ≡ Some (texts user)) }
        ensures others { (name : List ℕ)
            → name ≢ user.username.text → map.get self.new name ≡ map.get self.old name }
        ensures len { IfOk result
            (λ old. map.len self.new ≡ map.len self.old + (if is_some old then 0 else 1)) }
        ensures same { map.get self.old user.username.text ≡ Some (texts user)
            → self.new ≡ self.old }
        ensures err { OnErr result (self.new ≡ self.old) }
        ensures absent { OnErr result (map.get self.old user.username.text ≡ None) }
    {
        Ok(self.users.insert(user.username, user)?)
    }

    /// Returns the user under `username`, or `None` if there is none. It allocates nothing.
    #[tactic(auto, using(crate::proofs::MapLemmas::get_users))]
    pub fn get(&self, username: &ArrayString<20>) -> Option<&User>
        ensures found { option_map texts (option_copied result)
            ≡ map.get self.now username.now.text }
        ensures own { IfSome result (λ user. user.now.username.text ≡ username.now.text) }
    {
        self.users.get(username)
    }

    /// Returns whether there is a user under `username`. It allocates nothing.
    #[tactic(auto, using(crate::proofs::MapLemmas::get_users))]
    pub fn contains(&self, username: &ArrayString<20>) -> bool
        ensures { result ≡ is_some (map.get self.now username.now.text) }
    {
        self.users.contains_key(username)
    }

    /// Removes the user under `username` and returns it. Returns `None` if there is none. All other users
    /// stay. It allocates nothing.
    pub fn remove(&mut self, username: &ArrayString<20>) -> Option<User>
        ensures removed { option_map texts result ≡ map.get self.old username.now.text }
        ensures own { IfSome result (λ user. user.username.text ≡ username.now.text) }
        ensures after { self.new ≡ map.remove self.old username.now.text }
        ensures gone { map.get self.new username.now.text ≡ None }
        ensures others { (name : List ℕ)
            → name ≢ username.now.text → map.get self.new name ≡ map.get self.old name }
        ensures len { map.len self.new + (if is_some result then 1 else 0) ≡ map.len self.old }
        ensures unchanged { IfNone result (self.new ≡ self.old) }
    {
        self.users.remove(username)
    }

    /// Gives the user under `username` another role, and returns the role that it had. Returns `None` if
    /// there is no such user. All other users stay. It allocates nothing.
    pub fn set_role(
        &mut self,
        username: &ArrayString<20>,
        role: ArrayString<5>,
    ) -> Option<ArrayString<5>>
        ensures old { option_map (λ old. (username.now.text, old.text)) result
            ≡ map.get self.old username.now.text }
        ensures after { OnSome result
            (self.new ≡ map.insert self.old username.now.text (username.now.text, role.text)) }
        ensures found { OnSome result
            (map.get self.new username.now.text ≡ Some (username.now.text, role.text)) }
        ensures others { (name : List ℕ)
            → name ≢ username.now.text → map.get self.new name ≡ map.get self.old name }
        ensures names { map.keys self.new ≡ map.keys self.old }
        ensures unchanged { IfNone result (self.new ≡ self.old) }
    {
        let user = self.users.get_mut(username)?;
        Some(mem::replace(&mut user.role, role))
    }

    /// Returns the usernames, each once, in ascending order of their characters. The order of their bytes is
    /// the same. It allocates nothing.
    #[tactic(auto, using(crate::proofs::MapLemmas::keys_users))]
    pub fn names(&self) -> Names<'_>
        ensures keys { result ≡ map.keys self.now }
        ensures ascending { AllPairs IsBefore result }
        ensures found { All (λ name. IsTrue (map.contains_key self.now name)) result }
        ensures len { length result ≡ map.len self.now }
        ensures countable { length result < 2 ^ 63 }
        ensures runs { GivesInOrder text_of_borrowed_username }
        ensures runs_back { GivesInReverse text_of_borrowed_username }
        ensures copies { GivesCopiesInOrder text_of_username }
    {
        Names {
            keys: self.users.keys(),
        }
    }

    /// Returns the users, each once, in ascending order of their usernames. It allocates nothing.
    pub fn users(&self) -> Users<'_>
        ensures users { result ≡ map.values self.now }
        ensures names { names_of result ≡ map.keys self.now }
        ensures found { All (λ user. map.get self.now user.0 ≡ Some user) result }
        ensures len { length result ≡ map.len self.now }
        ensures countable { length result < 2 ^ 63 }
        ensures runs { GivesInOrder texts_of_borrowed_user }
        ensures runs_back { GivesInReverse texts_of_borrowed_user }
        ensures copies { GivesCopiesInOrder texts }
    {
        Users {
            values: self.users.values(),
        }
    }
}

/// The users as a set, in ascending order of their usernames.
impl fmt::Debug for Directory {
    fn fmt<W: fmt::Write>(&self, f: &mut fmt::Formatter<W>) -> fmt::Result {
        f.debug_set().entries(self.users()).finish()
    }
}
