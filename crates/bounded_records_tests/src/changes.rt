//! Users that are taken out or given another role, without memory, and texts that are no user.
use super::users::{agree, finds, ranked, replaces, user};
use arraystring::ArrayString;
use bounded_records::{Directory, User, UserFault};
use std::hash::{DefaultHasher, Hash, Hasher};
use std::process::Abort;
use test_support::memory::ScarceMemory;

/// How many users are put in. It is a prime, so that each user has its turn once in the order of `mixed`.
const USERS: u32 = 211;

/// The user whose turn it is, in an order that mixes the ranks.
fn mixed(turn: u32) -> User {
    ranked((turn.wrapping_mul(90) % USERS) as u16)
}

/// With no memory at all, each user is given another role and is taken out, once and no second time.
/// All others stay meanwhile.
#[test]
fn changes_take_no_memory(rt: HostRuntime) {
    let mut users = Directory::new(rt.alloc());
    for turn in 0..USERS {
        replaces(&rt, &mut users, mixed(turn), None);
    }
    let Some(scarce) = ScarceMemory::take(&rt).expect(&rt, "all memory is taken") else {
        return;
    };
    for turn in 0..USERS {
        let old = mixed(turn);
        let role = ArrayString::from_str_truncate("new");
        agree(&rt, users.set_role(&old.username, role), Some(old.role));
        let changed = User { role, ..old };
        finds(&rt, &users, &changed);
        agree(&rt, users.contains(&old.username), true);
        agree(&rt, users.remove(&old.username), Some(changed));
        agree(&rt, users.remove(&old.username), None);
        agree(&rt, users.set_role(&old.username, role), None);
        agree(&rt, users.contains(&old.username), false);
        agree(&rt, users.get(&old.username), None);
        agree(&rt, users.len(), (USERS - 1 - turn) as usize);
        for later in turn + 1..USERS {
            finds(&rt, &users, &mixed(later));
        }
    }
    agree(&rt, users.is_empty(), true);
    agree(&rt, users.users().next(), None);
    drop(scarce);
}

/// A user that is taken out can be put in again, wherever it stood, in a directory of each size.
#[test]
fn each_user_can_be_put_in_again(rt: HostRuntime) {
    let mut users = Directory::new(rt.alloc());
    for count in 0..USERS {
        replaces(&rt, &mut users, mixed(count), None);
        for turn in [0, count / 2, count] {
            let given = mixed(turn);
            agree(&rt, users.remove(&given.username), Some(given));
            agree(&rt, users.len(), count as usize);
            replaces(&rt, &mut users, given, None);
            finds(&rt, &users, &given);
        }
    }
}

/// Texts of each size up to 30 bytes, of letters and of characters of two bytes.
#[test]
fn the_first_text_that_is_too_large_is_reported(rt: HostRuntime) {
    let letters = "abcdefghijklmnopqrstuvwxyzabcd";
    let wide = "éèêëàâîïôûùüçñö";
    let mut count = 0u32;
    for username in 0..31usize {
        for role in 0..31usize {
            for text in [letters, wide] {
                let (Some(username), Some(role)) = (text.get(..username), text.get(..role)) else {
                    continue;
                };
                count = count.wrapping_add(1);
                let made = User::new(username, role);
                if username.len() > 20 {
                    agree(&rt, made, Err(UserFault::Username));
                } else if role.len() > 5 {
                    agree(&rt, made, Err(UserFault::Role));
                } else {
                    let made = made.expect(&rt, "both fit");
                    agree(&rt, made.username.as_str(), username);
                    agree(&rt, made.role.as_str(), role);
                }
            }
        }
    }
    agree(&rt, count, 31 * 31 + 16 * 16);
}

/// What a value writes to a hasher.
fn hash_of<T: Hash>(value: &T) -> u64 {
    let mut hasher = DefaultHasher::new();
    value.hash(&mut hasher);
    hasher.finish()
}

/// Users are ordered and hashed as their usernames, and then their roles.
#[test]
fn users_are_compared_by_both_texts(rt: HostRuntime) {
    let texts = [
        ("", "b"),
        ("a", "a"),
        ("a", "b"),
        ("ab", ""),
        ("b", "a"),
        ("\u{FFFF}", ""),
        ("\u{10000}", ""),
    ];
    for (position, (username, role)) in texts.iter().enumerate() {
        let one = user(username, role);
        agree(&rt, hash_of(&one), hash_of(&(*username, *role)));
        for (other_position, (username, role)) in texts.iter().enumerate() {
            let other = user(username, role);
            agree(&rt, one.cmp(&other), position.cmp(&other_position));
            agree(&rt, one == other, position == other_position);
        }
    }
}
