//! How a directory and its iterators are printed for debugging: as std prints its own set and its own list
//! of the same users, whose forms are derived.
use super::users::{agree, replaces, user};
use bounded_records::{Directory, Names, Users};
use std::collections::BTreeSet;
use std::fmt::Debug;
use std::process::Abort;
use test_support::printing::first_debug_difference;

/// Types whose derived `Debug` prints what the `Debug` of a user has to print.
mod derived {
    #[derive(Clone, Copy, PartialEq, Eq, PartialOrd, Ord, Debug)]
    pub(super) struct ArrayString<'a> {
        pub(super) array: &'a str,
        pub(super) size: usize,
    }

    #[derive(Clone, Copy, PartialEq, Eq, PartialOrd, Ord, Debug)]
    pub(super) struct User<'a> {
        pub(super) username: ArrayString<'a>,
        pub(super) role: ArrayString<'a>,
    }
}

/// Usernames and roles, in the order of the usernames; some need an escape, and some are beyond ASCII.
const TEXTS: [(&str, &str); 4] = [
    ("", ""),
    ("a\n\"b\"", "x"),
    ("abcdefghijabcdefghij", "admin"),
    ("é🤔", "\\"),
];

/// How a text of a user is to be printed.
fn printed_text(text: &str) -> derived::ArrayString {
    derived::ArrayString {
        array: text,
        size: text.len(),
    }
}

/// How a user of these texts is to be printed.
fn printed_user<'a>(texts: &(&'a str, &'a str)) -> derived::User<'a> {
    derived::User {
        username: printed_text(texts.0),
        role: printed_text(texts.1),
    }
}

/// Asserts that one value is printed for debugging as the other, in each form, at each width.
fn debug_is_that_of<T: Debug, W: Debug>(rt: &(impl Abort + AllocGlobal), value: &T, wanted: &W) {
    let apart = first_debug_difference(rt.alloc(), value, wanted);
    let apart = apart.expect(rt, "memory for what is printed");
    agree(rt, apart, None);
}

/// A directory of the first users, which are put in from the last on.
fn of_first(rt: &(impl Abort + AllocGlobal), texts: &[(&str, &str)]) -> Directory {
    let mut users = Directory::new(rt.alloc());
    for texts in texts.iter().rev() {
        replaces(rt, &mut users, user(texts.0, texts.1), None);
    }
    users
}

#[test]
fn a_directory_is_printed_as_a_set(rt: HostRuntime) {
    for count in 0..=TEXTS.len() {
        let texts = TEXTS.get(..count).unwrap_or_default();
        let mut wanted = BTreeSet::new(rt.alloc());
        for texts in texts {
            wanted.insert(printed_user(texts)).expect(&rt, "memory");
        }
        debug_is_that_of(&rt, &of_first(&rt, texts), &wanted);
    }
}

/// Asserts that both iterators are printed as the lists of these usernames and users.
fn are_printed(
    rt: &(impl Abort + AllocGlobal),
    names: &Names,
    users: &Users,
    texts: &[(&str, &str)],
) {
    let (mut usernames, mut wanted) = (Vec::new(rt.alloc()), Vec::new(rt.alloc()));
    for texts in texts {
        usernames.push(printed_text(texts.0)).expect(rt, "memory");
        wanted.push(printed_user(texts)).expect(rt, "memory");
    }
    debug_is_that_of(rt, names, &usernames);
    debug_is_that_of(rt, users, &wanted);
}

/// Takes the first users and the last ones out of both iterators.
fn take(rt: &impl Abort, names: &mut Names, users: &mut Users, first: usize, last: usize) {
    for _ in 0..first {
        agree(rt, names.next().is_some(), users.next().is_some());
    }
    for _ in 0..last {
        let (name, user) = (names.next_back(), users.next_back());
        agree(rt, name.is_some(), user.is_some());
    }
}

/// Iterators are printed at each step of a walk, by either end.
#[test]
fn an_iterator_is_printed_as_the_list_of_those_left(rt: HostRuntime) {
    let directory = of_first(&rt, &TEXTS);
    for front in 0..=TEXTS.len() {
        for back in front..=TEXTS.len() {
            let (mut names, mut users) = (directory.names(), directory.users());
            take(&rt, &mut names, &mut users, front, TEXTS.len() - back);
            let texts = TEXTS.get(front..back).unwrap_or_default();
            are_printed(&rt, &names, &users, texts);
        }
    }
}
