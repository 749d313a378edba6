//! Each use once, on values worked out by hand.
use crate::entry::{NotEntered, enter_record};
use crate::records::role_in;
use crate::registry::{NotRenamed, dump, enter, rename, strike_off};
use crate::roster::{names_in_order, put_in_place};
use arraystring::ArrayString;
use bounded_records::{Directory, RecordFault, User};
use std::alloc::AllocError;
use std::fmt::Debug;
use std::process::Abort;
use test_support::equality::first_mistaken;
use test_support::memory::{ScarceMemory, TIMES};

/// Asserts that two values are equal. An `assert_eq!` costs the proof of a test three times as much as
/// a call.
fn agree<T: PartialEq + Debug + Drop>(rt: &impl Abort, gave: T, wanted: T) {
    assert_eq!(rt; gave, wanted);
}

/// The users of a directory are these, in this order.
fn check_users(rt: &(impl Abort + AllocGlobal), users: &Directory, wanted: &[User]) {
    let all = dump(users, rt.alloc()).expect(rt, "memory for the users");
    agree(rt, all.as_slice(), wanted);
}

/// A test that compares refusals says nothing if `==` finds two of them equal.
#[test]
fn each_refusal_is_equal_to_itself_alone(rt: HostRuntime) {
    let refusals = [NotRenamed::Missing, NotRenamed::Taken, NotRenamed::Memory];
    agree(&rt, first_mistaken(&refusals), None);
    let refusals = [NotEntered::NoRecord, NotEntered::Memory];
    agree(&rt, first_mistaken(&refusals), None);
}

#[test]
fn a_role_is_found_in_a_record(rt: HostRuntime) {
    let record = b"\x03ann\0\0\0\0\0\0\0\0\0\0\0\0\0\0\0\0\0\x05admin";
    let admin = ArrayString::try_from_str("admin").expect(&rt, "it fits");
    agree(&rt, role_in(record), Ok(admin));
    agree(&rt, role_in(&record[1..]), Err(RecordFault::Length));
    agree(&rt, role_in(&[6; 27]), Err(RecordFault::Count));
    agree(&rt, role_in(&[0xFF; 27]), Err(RecordFault::Count));
    agree(&rt, role_in(&[5; 27]), Err(RecordFault::Padding));
    agree(&rt, role_in(&[0; 27]), Ok(ArrayString::new()));
}

#[test]
fn the_user_of_a_record_is_entered(rt: HostRuntime) {
    let record = b"\x03ann\0\0\0\0\0\0\0\0\0\0\0\0\0\0\0\0\0\x05admin";
    let mut users = Directory::new(rt.alloc());
    agree(
        &rt,
        enter_record(&mut users, &record[1..]),
        Err(NotEntered::NoRecord),
    );
    check_users(&rt, &users, &[]);
    agree(&rt, enter_record(&mut users, record), Ok(()));
    check_users(&rt, &users, &[user(&rt, "ann", "admin")]);
}

/// A user with this name and this role.
fn user(rt: &impl Abort, username: &str, role: &str) -> User {
    User::new(username, role).expect(rt, "both texts fit")
}

/// The usernames of a directory are those of these users, in this order.
fn check_names(rt: &impl Abort, users: &Directory, wanted: &[User]) {
    let mut names = names_in_order(users);
    for user in wanted {
        agree(rt, names.next(), Some(&user.username));
    }
    agree(rt, names.next(), None);
}

#[test]
fn users_are_entered_renamed_and_struck_off(rt: HostRuntime) {
    let mut users = Directory::new(rt.alloc());
    let (ann, bob) = (user(&rt, "ann", "admin"), user(&rt, "bob", "guest"));
    let zoe = user(&rt, "zoe", "admin");
    check_users(&rt, &users, &[]);
    agree(&rt, enter(&mut users, bob), Ok(Some(bob.role)));
    agree(&rt, enter(&mut users, ann), Ok(Some(ann.role)));
    check_users(&rt, &users, &[ann, bob]);
    check_names(&rt, &users, &[ann, bob]);
    let taken = rename(&mut users, &ann.username, bob.username);
    agree(&rt, taken, Err(NotRenamed::Taken));
    let same = rename(&mut users, &ann.username, ann.username);
    agree(&rt, same, Err(NotRenamed::Taken));
    let missing = rename(&mut users, &zoe.username, ArrayString::new());
    agree(&rt, missing, Err(NotRenamed::Missing));
    check_users(&rt, &users, &[ann, bob]);
    agree(&rt, rename(&mut users, &ann.username, zoe.username), Ok(()));
    check_users(&rt, &users, &[bob, zoe]);
    agree(&rt, strike_off(&mut users, &ann.username), false);
    agree(&rt, strike_off(&mut users, &bob.username), true);
    agree(&rt, strike_off(&mut users, &bob.username), false);
    check_users(&rt, &users, &[zoe]);
}

#[test]
fn a_user_is_put_in_place(rt: HostRuntime) {
    let mut users = Directory::new(rt.alloc());
    let name = ArrayString::try_from_str("ann").expect(&rt, "it fits");
    let entered = users.insert(user(&rt, "ann", "admin"));
    agree(&rt, entered.is_ok(), true);
    let found = users.get(&name).copied().expect(&rt, "she is there");
    let guest = User {
        username: found.username,
        role: ArrayString::new(),
    };
    let old = put_in_place(&mut users, guest);
    agree(&rt, old.role.as_str(), "admin");
    agree(&rt, users.get(&name).map(|user| user.role.len()), Some(0));
}

/// How many users are entered at most.
const COUNT: u8 = 100;

/// The user of a number. Their usernames ascend with the numbers.
fn numbered(number: u8) -> User {
    let mut username = ArrayString::new();
    for letter in [b'a' + number / 26, b'a' + number % 26] {
        let _ = username.try_push(letter as char);
    }
    let mut role = ArrayString::new();
    let _ = role.try_push((b'a' + number % 26) as char);
    User { username, role }
}

/// The users of the numbers below `count` are there, and no others.
fn check_first(rt: &impl Abort, users: &Directory, count: u8) {
    let mut all = users.users();
    for number in 0..count {
        agree(rt, all.next(), Some(&numbered(number)));
    }
    agree(rt, all.next(), None);
}

/// Memory grows from none in small steps. A growth of the directory is refused until there is memory for it.
/// If a user is refused, a rename of the last user to the name of this user is refused, too.
#[test]
fn each_refused_growth_changes_nothing(rt: HostRuntime) {
    let mut users = Directory::new(rt.alloc());
    let scarce = ScarceMemory::take(&rt).expect(&rt, "all memory is taken");
    let Some(mut scarce) = scarce else {
        return;
    };
    let mut count = 0u8;
    let mut renames = 0u32;
    let mut dumps = 0u32;
    for _ in 0..TIMES {
        let taken_again = scarce.leave_more(rt.alloc());
        taken_again.expect(&rt, "the rest is taken again");
        let before = count;
        for number in before..COUNT {
            let user = numbered(number);
            let role = user.role;
            match enter(&mut users, user) {
                Ok(found) => agree(&rt, found, Some(role)),
                Err(AllocError) => break,
            }
            count = number + 1;
        }
        if count == COUNT {
            break;
        }
        if let Some(last) = count.checked_sub(1) {
            let (last, next) = (numbered(last), numbered(count));
            let renamed = rename(&mut users, &last.username, next.username);
            agree(&rt, renamed, Err(NotRenamed::Memory));
            renames = renames.saturating_add(1);
        }
        check_first(&rt, &users, count);
        if dump(&users, rt.alloc()).is_err() {
            dumps = dumps.saturating_add(1);
        }
    }
    drop(scarce);
    agree(&rt, count, COUNT);
    assert!(rt; renames > 10);
    assert!(rt; dumps > 10);
    check_first(&rt, &users, COUNT);
}
