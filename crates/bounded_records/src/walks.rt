//! Iterators over a directory, from both ends.
ghost use Rattle.std.specs.Prelude.{◌≡◌, ⊤, Some, IfSome, length};
ghost use Rattle.std.specs.Iterator.{YieldsFirstBy, YieldsLastBy, UpTo, at_most, item_count};
ghost use Rattle.std.specs.Iterator.SizeHint.{IsWithinCount};
ghost use Rattle.bounded_records.specs.DirectoryWalks.{text_of_borrowed_username, texts_of_borrowed_user};

use crate::User;
use arraystring::ArrayString;
use std::alloc::AllocError;
use std::collections::btree_map::{Keys, Values};
use std::fmt;
use std::iter::FusedIterator;
use std::marker::Model;

/// The usernames of a directory, in ascending order.
///
/// In contracts it is the list of the texts of the usernames that are left.
#[derive(Drop)]
pub struct Names<'a> {
    pub(crate) keys: Keys<'a, ArrayString<20>, User>,
}

impl<'a> Model for Names<'a> {
    ghost use Rattle.std.specs.Prelude.{ℕ, List, map};

    ghost Value = { List (List ℕ) };

    ghost view = { λ names. map (λ name. name.text) names.keys };
}

/// The clone has the same items left. It allocates nothing, and never returns an error.
impl<'a> Clone for Names<'a> {
    ghost is_clone = { λ names clone. clone ≡ names };

    ghost is_infallible = { λ _. ⊤ };

    fn clone(&self) -> Result<Self, AllocError> {
        Ok(Names {
            keys: self.keys.clone()?,
        })
    }
}

/// An iterator over the usernames that are left.
impl<'a> Iterator for Names<'a> {
    type Item = &'a ArrayString<20>;

    ghost next_gives = { YieldsFirstBy text_of_borrowed_username (λ names. names) };

    ghost remaining = { item_count (λ names. names) };

    /// Returns the first username that is left. Once none is left, it always returns `None`.
    fn next(&mut self) -> Option<&'a ArrayString<20>> {
        self.keys.next()
    }

    /// Returns how many are left, as both bounds.
    fn size_hint(&self) -> (usize, Option<usize>)
        ensures lower { IsWithinCount result.0 (at_most (length self.now)) }
        ensures upper { IfSome result.1 (UpTo (at_most (length self.now))) }
        ensures exact { result ≡ (length self.now, Some (length self.now)) }
    {
        let names = self.keys.len();
        (names, Some(names))
    }
}

impl<'a> DoubleEndedIterator for Names<'a> {
    ghost next_back_gives = { YieldsLastBy text_of_borrowed_username (λ names. names) };

    /// Returns the last username that is left. Once none is left, it always returns `None`.
    fn next_back(&mut self) -> Option<&'a ArrayString<20>> {
        self.keys.next_back()
    }
}

impl ExactSizeIterator for Names<'_> {
    /// Returns how many are left.
    fn len(&self) -> usize {
        self.keys.len()
    }
}

impl FusedIterator for Names<'_> {}

/// Prints the list of the items that are left.
impl fmt::Debug for Names<'_> {
    fn fmt<W: fmt::Write>(&self, f: &mut fmt::Formatter<W>) -> fmt::Result {
        self.keys.fmt(f)
    }
}

/// The users of a directory, in ascending order of their usernames.
///
/// In contracts it is the list of the texts of the users that are left.
#[derive(Drop)]
pub struct Users<'a> {
    pub(crate) values: Values<'a, ArrayString<20>, User>,
}

impl<'a> Model for Users<'a> {
    ghost use Rattle.std.specs.Prelude.{ℕ, List, map};
    ghost use Rattle.bounded_records.specs.UserTexts.{texts};

    ghost Value = { List (List ℕ × List ℕ) };

    ghost view = { λ users. map texts users.values };
}

/// The clone has the same items left. It allocates nothing, and never returns an error.
impl<'a> Clone for Users<'a> {
    ghost is_clone = { λ users clone. clone ≡ users };

    ghost is_infallible = { λ _. ⊤ };

    fn clone(&self) -> Result<Self, AllocError> {
        Ok(Users {
            values: self.values.clone()?,
        })
    }
}

/// An iterator over the users that are left.
impl<'a> Iterator for Users<'a> {
    type Item = &'a User;

    ghost next_gives = { YieldsFirstBy texts_of_borrowed_user (λ users. users) };

    ghost remaining = { item_count (λ users. users) };

    /// Returns the first user that is left. Once none is left, it always returns `None`.
    fn next(&mut self) -> Option<&'a User> {
        self.values.next()
    }

    /// Returns how many are left, as both bounds.
    fn size_hint(&self) -> (usize, Option<usize>)
        ensures lower { IsWithinCount result.0 (at_most (length self.now)) }
        ensures upper { IfSome result.1 (UpTo (at_most (length self.now))) }
        ensures exact { result ≡ (length self.now, Some (length self.now)) }
    {
        let users = self.values.len();
        (users, Some(users))
    }
}

impl<'a> DoubleEndedIterator for Users<'a> {
    ghost next_back_gives = { YieldsLastBy texts_of_borrowed_user (λ users. users) };

    /// Returns the last user that is left. Once none is left, it always returns `None`.
    fn next_back(&mut self) -> Option<&'a User> {
        self.values.next_back()
    }
}

impl ExactSizeIterator for Users<'_> {
    /// Returns how many are left.
    fn len(&self) -> usize {
        self.values.len()
    }
}

impl FusedIterator for Users<'_> {}

/// Prints the list of the items that are left.
impl fmt::Debug for Users<'_> {
    fn fmt<W: fmt::Write>(&self, f: &mut fmt::Formatter<W>) -> fmt::Result {
        self.values.fmt(f)
    }
}
