//! Each user and each fault is equal to itself alone: each case, and each field that alone differs.
use super::users::{agree, user};
use bounded_records::{RecordFault, User, UserFault};
use test_support::equality::first_mistaken;

#[test]
fn each_fault_is_equal_to_itself_alone(rt: HostRuntime) {
    let faults = [
        RecordFault::Length,
        RecordFault::Count,
        RecordFault::Utf8,
        RecordFault::Padding,
    ];
    agree(&rt, first_mistaken(&faults), None);
    let of_users = [UserFault::Username, UserFault::Role];
    agree(&rt, first_mistaken(&of_users), None);
}

#[test]
fn each_user_is_equal_to_itself_alone(rt: HostRuntime) {
    let users: [User; 11] = [
        user("", ""),
        user("a", ""),
        user("", "a"),
        user("a", "a"),
        user("a", "b"),
        user("b", "a"),
        user("ab", "a"),
        user("a", "ab"),
        user("abcdeabcdeabcdeabcde", "abcde"),
        user("abcdeabcdeabcdeabcdf", "abcde"),
        user("abcdeabcdeabcdeabcde", "abcdf"),
    ];
    agree(&rt, first_mistaken(&users), None);
    // bytes of the array behind a text make no other user
    let mut popped = user("abc", "de");
    let _ = popped.username.pop();
    let _ = popped.role.pop();
    agree(&rt, popped, user("ab", "d"));
}
