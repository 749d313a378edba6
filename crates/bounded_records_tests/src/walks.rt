//! Iterators from both ends of directories of each size up to 60, and what is printed for debugging.
ghost use Rattle.std.specs.Prelude.{◌≤◌};

use super::users::{agree, comes_last, comes_next, have_ended, ranked, replaces, say_left};
use bounded_records::{Directory, Names, User, Users};
use std::process::Abort;

/// The users of the ranks below `count`, which ascend.
fn of_ranks(rt: &(impl Abort + AllocGlobal), count: u16) -> Directory {
    let mut users = Directory::new(rt.alloc());
    for rank in 0..count {
        replaces(rt, &mut users, ranked(count - 1 - rank), None);
    }
    users
}

/// Both iterators have these ranks left, by their lengths, and by a clone that is read to its end.
fn has_left(rt: &impl Abort, names: &Names, users: &Users, front: u16, back: u16) {
    say_left(rt, names, users, back.saturating_sub(front) as usize);
    let mut names = names.clone().expect(rt, "no memory is taken");
    let mut users = users.clone().expect(rt, "no memory is taken");
    for rank in front..back {
        comes_next(rt, &mut names, &mut users, &ranked(rank));
    }
    for _ in 0..2u8 {
        have_ended(rt, &mut names, &mut users);
    }
}

/// Iterates by the ends that the bits of `ends` say, over and over.
fn walk(rt: &impl Abort, directory: &Directory, count: u16, ends: u32)
    requires { count ≤ 60 }
{
    let mut names = directory.names();
    let mut users = directory.users();
    let mut front = 0u16;
    let mut back = count;
    for step in 0..count as u32 {
        if back <= front {
            break;
        }
        has_left(rt, &names, &users, front, back);
        if (ends >> (step % 8)) & 1 == 0 {
            comes_next(rt, &mut names, &mut users, &ranked(front));
            front = front.saturating_add(1);
        } else {
            back = back.saturating_sub(1);
            comes_last(rt, &mut names, &mut users, &ranked(back));
        }
    }
    has_left(rt, &names, &users, front, front);
}

/// Iterators are walked from the front, from the back, and by mixes of both.
#[test]
fn each_user_comes_once_from_either_end(rt: HostRuntime) {
    for count in 0..60u16 {
        let directory = of_ranks(&rt, count);
        agree(&rt, directory.len(), count as usize);
        agree(&rt, directory.is_empty(), count == 0);
        for ends in [0b0000_0000, 0b1111_1111, 0b0101_0101, 0b0011_0110u32] {
            walk(&rt, &directory, count, ends);
        }
    }
}

/// A directory is printed as the set of its users, and an iterator as the list of those that are left.
#[test]
fn each_is_printed_for_debugging(rt: HostRuntime) {
    let mut users = Directory::new(rt.alloc());
    let printed = format!(in rt.alloc(); "{users:?}{users:#?}").expect(&rt, "memory");
    agree(&rt, printed.as_str(), "{}{}");
    for name in ["b", "a"] {
        let user = User::new(name, "x").expect(&rt, "it fits");
        replaces(&rt, &mut users, user, None);
    }
    let (names, all) = (users.names(), users.users());
    let printed = format!(in rt.alloc(); "{users:?}|{names:?}|{all:?}|{names:#?}");
    let printed = printed.expect(&rt, "memory");
    let wanted =
        "{User { username: ArrayString { array: \"a\", size: 1 }, role: ArrayString { array: \"x\", size: 1 } }, \
        User { username: ArrayString { array: \"b\", size: 1 }, role: ArrayString { array: \"x\", size: 1 } }}|\
        [ArrayString { array: \"a\", size: 1 }, ArrayString { array: \"b\", size: 1 }]|\
        [User { username: ArrayString { array: \"a\", size: 1 }, role: ArrayString { array: \"x\", size: 1 } }, \
        User { username: ArrayString { array: \"b\", size: 1 }, role: ArrayString { array: \"x\", size: 1 } }]|\
        [\n    ArrayString {\n        array: \"a\",\n        size: 1,\n    },\n    ArrayString {\n        array: \"b\",\n        size: 1,\n    },\n]";
    agree(&rt, printed.as_str(), wanted);
}
