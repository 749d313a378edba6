//! The users of the tests, and what asserts.
use arraystring::ArrayString;
use bounded_records::{Directory, Names, User, Users};
use std::fmt::Debug;
use std::process::Abort;

/// Asserts that two values are equal. An `assert_eq!` costs the proof of a test three times as much as
/// a call.
pub(super) fn agree<T: PartialEq + Debug + Drop>(rt: &impl Abort, gave: T, wanted: T) {
    assert_eq!(rt; gave, wanted);
}

pub(super) fn user(username: &str, role: &str) -> User {
    User {
        username: ArrayString::from_str_truncate(username),
        role: ArrayString::from_str_truncate(role),
    }
}

/// The letter of a number.
fn letter(number: u16) -> char {
    (b'a' + (number % 26) as u8) as char
}

/// The user at a position of the ascending order. The first username is empty, and then come `a`, `aa` and
/// so on up to 20 letters, then `b`. Each role has the position.
pub(super) fn ranked(rank: u16) -> User {
    let mut ranked = user("", "");
    let _ = ranked.role.try_push(letter(rank / 26));
    let _ = ranked.role.try_push(letter(rank));
    if let Some(before) = rank.checked_sub(1) {
        for _ in 0..=before % 20 {
            let _ = ranked.username.try_push(letter(before / 20));
        }
    }
    ranked
}

/// A user is found by its username.
pub(super) fn finds(rt: &impl Abort, users: &Directory, wanted: &User) {
    agree(rt, users.get(&wanted.username), Some(wanted));
}

/// A user is put in, in place of `old`.
pub(super) fn replaces(rt: &impl Abort, users: &mut Directory, given: User, old: Option<User>) {
    agree(rt, users.insert(given), Ok(old));
}

/// Asserts that both iterators say that `left` users are left.
pub(super) fn say_left(rt: &impl Abort, names: &Names, users: &Users, left: usize) {
    agree(rt, names.len(), left);
    agree(rt, users.len(), left);
    agree(rt, names.size_hint(), (left, Some(left)));
    agree(rt, users.size_hint(), (left, Some(left)));
}

/// Asserts that a user is the next of both iterators.
pub(super) fn comes_next(rt: &impl Abort, names: &mut Names, users: &mut Users, wanted: &User) {
    agree(rt, names.next(), Some(&wanted.username));
    agree(rt, users.next(), Some(wanted));
}

/// Asserts that a user is the next of both iterators from the back.
pub(super) fn comes_last(rt: &impl Abort, names: &mut Names, users: &mut Users, wanted: &User) {
    agree(rt, names.next_back(), Some(&wanted.username));
    agree(rt, users.next_back(), Some(wanted));
}

/// Asserts that neither iterator has a user left, from either end.
pub(super) fn have_ended(rt: &impl Abort, names: &mut Names, users: &mut Users) {
    agree(rt, names.next(), None);
    agree(rt, names.next_back(), None);
    agree(rt, users.next(), None);
    agree(rt, users.next_back(), None);
}
