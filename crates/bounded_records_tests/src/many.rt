//! A directory of more users than two bytes count.
use super::users::{agree, comes_last, comes_next, finds, have_ended, replaces, say_left, user};
use bounded_records::{Directory, User};
use std::process::Abort;

/// How many users are put in: 2^16 and 64 more. `at_turn` multiplies by 30011 and takes the remainder by this number. Its
/// prime factors, which are 2, 5 and 41, do not divide 30011, so each user has its turn once.
const USERS: u32 = 65_600;

/// How many users are changed, and then removed, so that fewer than 2^16 are left.
const SOME: u32 = 128;

/// The user of a number: its five digits, as the username and as the role. The usernames ascend with the
/// numbers.
fn numbered(number: u32) -> User {
    let mut numbered = user("", "");
    for digits in [
        number / 10000,
        number / 1000,
        number / 100,
        number / 10,
        number,
    ] {
        let digit = (b'0' + (digits % 10) as u8) as char;
        let _ = numbered.username.try_push(digit);
        let _ = numbered.role.try_push(digit);
    }
    numbered
}

/// The user of a turn of a mixed order.
fn at_turn(turn: u32) -> User {
    numbered(turn.wrapping_mul(30011) % USERS)
}

/// All users are there, and no others: one half of them from the front, and the other from the back.
fn check_all(rt: &impl Abort, directory: &Directory) {
    let (mut names, mut users) = (directory.names(), directory.users());
    for number in 0..USERS / 2 {
        say_left(rt, &names, &users, (USERS - 2 * number) as usize);
        comes_next(rt, &mut names, &mut users, &numbered(number));
        comes_last(rt, &mut names, &mut users, &numbered(USERS - 1 - number));
    }
    have_ended(rt, &mut names, &mut users);
}

#[test]
fn more_users_than_two_bytes_count(rt: HostRuntime) {
    let mut users = Directory::new(rt.alloc());
    for turn in 0..USERS {
        let given = at_turn(turn);
        replaces(&rt, &mut users, given, None);
        finds(&rt, &users, &given);
        agree(&rt, users.len(), turn as usize + 1);
    }
    check_all(&rt, &users);
    let role = user("", "new").role;
    for turn in 0..SOME {
        let wanted = at_turn(turn);
        replaces(&rt, &mut users, User { role, ..wanted }, Some(wanted));
        agree(
            &rt,
            users.set_role(&wanted.username, wanted.role),
            Some(role),
        );
        agree(&rt, users.len(), USERS as usize);
    }
    for turn in 0..SOME {
        let wanted = at_turn(turn);
        agree(&rt, users.remove(&wanted.username), Some(wanted));
        agree(&rt, users.contains(&wanted.username), false);
        agree(&rt, users.len(), (USERS - 1 - turn) as usize);
    }
}
