//! The paths by which callers reach the crate, and the traits of the types at those paths.
// The old names of definitions, in the modules where they were, stay until the next release.
ghost use Rattle.bounded_records.specs.Records.{padding, HasLength};
ghost use Rattle.bounded_records.specs.Users.{by_text};
ghost use Rattle.bounded_records.specs.Walks.{stored_text, name_text, user_texts};

use super::users::agree;
use arraystring::ArrayString;
use bounded_records::{
    Directory, Names, RECORD_SIZE, RecordFault, User, UserFault, Users, decode, encode,
};
use std::error::Error;
use std::fmt::{Debug, Display};
use std::hash::Hash;
use std::iter::FusedIterator;

fn is_plain<T: Copy + Clone + PartialEq + Eq + Hash + Debug + Drop>() {}

fn is_ordered<T: PartialOrd + Ord>() {}

fn is_refusal<T: Display + Error>() {}

fn is_debug<T: Debug + Drop>() {}

fn is_iterator<
    'a,
    I: 'a,
    T: DoubleEndedIterator<Item = &'a I> + ExactSizeIterator + FusedIterator + Clone + Debug + Drop,
>() {}

#[test]
fn each_type_has_its_traits(_rt: HostRuntime) {
    is_plain::<User>();
    is_plain::<RecordFault>();
    is_plain::<UserFault>();
    is_ordered::<User>();
    is_refusal::<RecordFault>();
    is_refusal::<UserFault>();
    is_debug::<Directory>();
    is_iterator::<ArrayString<20>, Names<'static>>();
    is_iterator::<User, Users<'static>>();
}

/// The position of a fault among the four. The `match` has no wildcard, so a fifth would not compile.
fn position(fault: RecordFault) -> u8 {
    match fault {
        RecordFault::Length => 0,
        RecordFault::Count => 1,
        RecordFault::Utf8 => 2,
        RecordFault::Padding => 3,
    }
}

/// The calls take and give these types.
#[test]
fn each_path_is_at_hand(rt: HostRuntime) {
    let username: ArrayString<20> = ArrayString::from("ann");
    let role: ArrayString<5> = ArrayString::from("admin");
    let made: Result<User, UserFault> = User::new("ann", "admin");
    let user = User { username, role };
    agree(&rt, made, Ok(user));
    let record: [u8; RECORD_SIZE] = encode(&user);
    agree(&rt, RECORD_SIZE, 27);
    let read: Result<User, RecordFault> = decode(&record);
    agree(&rt, read, Ok(user));
    let fault = decode(&[]).err();
    agree(&rt, fault, Some(RecordFault::Length));
    agree(&rt, fault.map(position), Some(0));
    let mut users: Directory = Directory::new(rt.alloc());
    let replaced: Option<User> = users.insert(user).expect(&rt, "memory for a user");
    agree(&rt, replaced, None);
    let found: Option<&User> = users.get(&username);
    agree(&rt, found, Some(&user));
    let mut names: Names = users.names();
    let name: Option<&ArrayString<20>> = names.next();
    agree(&rt, name, Some(&username));
    let mut all: Users = users.users();
    let first: Option<&User> = all.next();
    agree(&rt, first, Some(&user));
    agree(&rt, users.contains(&username), true);
    let one: usize = users.len();
    agree(&rt, one, 1);
    let old: Option<ArrayString<5>> = users.set_role(&username, ArrayString::new());
    agree(&rt, old, Some(role));
    let removed: Option<User> = users.remove(&username);
    agree(&rt, removed.map(|user| user.username), Some(username));
    agree(&rt, users.is_empty(), true);
}
