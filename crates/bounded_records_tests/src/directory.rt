//! A directory: its names, growths that are refused, and thousands of users that are put in, iterated over and
//! taken out, in three orders.
use super::users::{
    agree, comes_last, comes_next, finds, have_ended, ranked, replaces, say_left, user,
};
use arraystring::ArrayString;
use bounded_records::{Directory, User};
use std::alloc::AllocError;
use std::process::Abort;
use test_support::memory::{ScarceMemory, TIMES};

/// The names of a directory are these, and no more.
fn has_names(rt: &impl Abort, users: &Directory, wanted: &[&str]) {
    let mut names = users.names();
    for name in wanted {
        agree(rt, names.next(), Some(&user(name, "").username));
    }
    for _ in 0..2u8 {
        agree(rt, names.next(), None);
    }
}

#[test]
fn names_ascend_by_characters(rt: HostRuntime) {
    let mut users = Directory::new(rt.alloc());
    has_names(&rt, &users, &[]);
    for name in ["b", "\u{10000}", "ab", "\u{FFFF}", "a"] {
        replaces(&rt, &mut users, user(name, "first"), None);
    }
    let first = user("ab", "first");
    replaces(&rt, &mut users, user("ab", "other"), Some(first));
    for (name, role) in [("ab", "other"), ("a", "first")] {
        finds(&rt, &users, &user(name, role));
    }
    agree(&rt, users.get(&user("c", "").username), None);
    has_names(&rt, &users, &["a", "ab", "b", "\u{FFFF}", "\u{10000}"]);
}

#[test]
fn equal_texts_are_one_key(rt: HostRuntime) {
    let mut users = Directory::new(rt.alloc());
    replaces(&rt, &mut users, user("ab", "first"), None);
    let mut moved = user("xxab", "other");
    let _ = moved.username.drain(..2);
    agree(&rt, users.get(&moved.username), Some(&user("ab", "first")));
    replaces(&rt, &mut users, moved, Some(user("ab", "first")));
    let mut names = users.names();
    agree(&rt, names.next(), Some(&moved.username));
    agree(&rt, names.next(), None);
}

/// How many ranks are tried: that of the empty username, and those of 18 letters, each one to 20 times. That is 19
/// times 19. So with steps of a number that 19 does not divide, each rank has its turn once.
const RANKS: u16 = 361;

/// Asserts that the users of all ranks are there, each with `more` behind its role, and no others.
fn check_ranked(rt: &impl Abort, users: &Directory, more: &str) {
    let mut names = users.names();
    for rank in 0..RANKS {
        let mut wanted = ranked(rank);
        wanted.role.push_str(more);
        agree(rt, names.next(), Some(&wanted.username));
        agree(rt, users.get(&wanted.username), Some(&wanted));
    }
    agree(rt, names.next(), None);
}

/// Usernames of every size are inserted in a mixed order, and once more.
#[test]
fn many_users_are_kept_and_replaced(rt: HostRuntime) {
    let mut users = Directory::new(rt.alloc());
    for turn in 0..RANKS as u32 {
        let given = ranked((turn * 150 % 361) as u16);
        replaces(&rt, &mut users, given, None);
        finds(&rt, &users, &given);
    }
    check_ranked(&rt, &users, "");
    for turn in 0..RANKS as u32 {
        let rank = (turn * 26 % 361) as u16;
        let mut given = ranked(rank);
        given.role.push_str("new");
        replaces(&rt, &mut users, given, Some(ranked(rank)));
        finds(&rt, &users, &given);
    }
    check_ranked(&rt, &users, "new");
}

/// How many users make the directory grow a third layer of nodes.
const COUNT: u8 = 200;

/// The user of a number, in letters. The usernames ascend with the numbers.
fn lettered(number: u8) -> User {
    let high = (b'a' + number / 26) as char;
    let low = (b'a' + number % 26) as char;
    let mut username = ArrayString::new();
    let mut role = ArrayString::new();
    for (name, letter) in [(high, low), (low, high)] {
        let _ = username.try_push(name);
        let _ = role.try_push(letter);
    }
    User { username, role }
}

/// The users of the numbers below `count` are there, and no others.
fn check_first(rt: &impl Abort, users: &Directory, count: u8) {
    let mut names = users.names();
    for number in 0..=255 {
        let wanted = lettered(number);
        if number < count {
            agree(rt, names.next(), Some(&wanted.username));
            agree(rt, users.get(&wanted.username), Some(&wanted));
        } else {
            agree(rt, users.get(&wanted.username), None);
        }
    }
    agree(rt, names.next(), None);
}

/// Memory grows from none in small steps. A growth of the directory is refused until there is memory for it.
/// A user that is there already is replaced without memory.
#[test]
fn each_refused_growth_changes_nothing(rt: HostRuntime) {
    let mut users = Directory::new(rt.alloc());
    let Some(mut scarce) = ScarceMemory::take(&rt).expect(&rt, "all memory is taken") else {
        return;
    };
    let mut count = 0u8;
    let mut growths = 0u32;
    for _ in 0..TIMES {
        let taken_again = scarce.leave_more(rt.alloc());
        taken_again.expect(&rt, "the rest is taken again");
        let before = count;
        for number in before..COUNT {
            match users.insert(lettered(number)) {
                Ok(old) => agree(&rt, old, None),
                Err(AllocError) => break,
            }
            count = number + 1;
        }
        check_first(&rt, &users, count);
        if count == COUNT {
            break;
        }
        if before < count {
            growths = growths.saturating_add(1);
            replaces(&rt, &mut users, lettered(0), Some(lettered(0)));
        }
    }
    drop(scarce);
    agree(&rt, count, COUNT);
    assert!(rt; growths > 10);
}

/// How many users are put in. `at_turn` multiplies the turn by a factor, and takes the remainder by this number. If neither
/// 2 nor 5, which are its prime factors, divides the factor, each user has its turn once. The factor 1 gives the
/// ascending order, and 4999 gives user 0 and then the others in descending order. Another factor gives a mixed order.
const USERS: u16 = 5000;

/// The user of a number: four digits, and the last of them again. The usernames ascend with the
/// numbers.
fn numbered(number: u16) -> User {
    let mut username = ArrayString::new();
    let mut role = ArrayString::new();
    for digits in [number / 1000, number / 100, number / 10, number] {
        let _ = username.try_push((b'0' + (digits % 10) as u8) as char);
    }
    let _ = role.try_push((b'0' + (number % 10) as u8) as char);
    User { username, role }
}

/// The user whose turn it is, in the order that a factor gives.
fn at_turn(turn: u16, factor: u32) -> User {
    numbered((factor.wrapping_mul(turn as u32) % USERS as u32) as u16)
}

/// Asserts that the users are those of the numbers below `USERS`. Of each `turns` steps of an iterator the last is from
/// the back.
fn check_walks(rt: &impl Abort, directory: &Directory, turns: u16) {
    let (mut names, mut users) = (directory.names(), directory.users());
    let (mut front, mut back) = (0u16, USERS);
    for step in 1..=USERS {
        say_left(rt, &names, &users, back.saturating_sub(front) as usize);
        if step.checked_rem(turns) == Some(0) {
            back = back.saturating_sub(1);
            comes_last(rt, &mut names, &mut users, &numbered(back));
        } else {
            comes_next(rt, &mut names, &mut users, &numbered(front));
            front = front.saturating_add(1);
        }
    }
    say_left(rt, &names, &users, 0);
    have_ended(rt, &mut names, &mut users);
}

/// Puts the users in, and each once more with another role. Then gives them their roles back.
fn fill(rt: &impl Abort, users: &mut Directory, factor: u32) {
    for turn in 0..USERS {
        let given = at_turn(turn, factor);
        replaces(rt, users, given, None);
        finds(rt, users, &given);
        agree(rt, users.len(), turn as usize + 1);
    }
    let role = ArrayString::from_str_truncate("new");
    for turn in 0..USERS {
        let old = at_turn(turn, factor);
        let given = User { role, ..old };
        replaces(rt, users, given, Some(old));
        finds(rt, users, &given);
    }
    for turn in 0..USERS {
        let wanted = at_turn(turn, factor);
        agree(
            rt,
            users.set_role(&wanted.username, wanted.role),
            Some(role),
        );
        finds(rt, users, &wanted);
    }
}

/// Takes all users out, each once.
fn empty(rt: &impl Abort, users: &mut Directory, factor: u32) {
    for turn in 0..USERS {
        let wanted = at_turn(turn, factor);
        agree(rt, users.contains(&wanted.username), true);
        agree(rt, users.remove(&wanted.username), Some(wanted));
        agree(rt, users.contains(&wanted.username), false);
        agree(rt, users.remove(&wanted.username), None);
        agree(rt, users.len(), (USERS - 1 - turn) as usize);
    }
    agree(rt, users.is_empty(), true);
}

/// The users are put in by one order, iterated over, and taken out by another.
fn are_kept(rt: &(impl Abort + AllocGlobal), order: u32, other: u32) {
    let mut users = Directory::new(rt.alloc());
    fill(rt, &mut users, order);
    for turns in [2, USERS + 1] {
        check_walks(rt, &users, turns);
    }
    empty(rt, &mut users, other);
}

#[test]
fn users_that_ascend_are_kept(rt: HostRuntime) {
    are_kept(&rt, 1, 4999);
}

#[test]
fn mixed_users_are_kept(rt: HostRuntime) {
    are_kept(&rt, 1787, 1);
}

#[test]
fn users_that_descend_are_kept(rt: HostRuntime) {
    are_kept(&rt, 4999, 1787);
}
