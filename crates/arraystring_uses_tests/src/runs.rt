//! Runs of commands. No clause says that there is memory, nor which texts are left where a command is tight.
use crate::checks::agree;
use arraystring::ArrayString;
use arraystring_run::Command;
use arraystring_uses::runs::{fits_small, push_and_pop};
use std::alloc::Global;
use std::process::Abort;

#[test]
fn what_fits_is_pushed_and_the_last_is_popped(rt: HostRuntime) {
    for (before, given, after) in [
        ("a", "bé", "ab"),
        // 20 bytes are taken, and 3 are left.
        ("0123456789abcdefghij", "k€", "0123456789abcdefghij"),
    ] {
        let mut line = ArrayString::from_str_truncate(before);
        agree(&rt, push_and_pop(rt.alloc(), &mut line, given), Ok(()));
        agree(&rt, line.as_str(), after);
    }
}

/// Asserts whether commands fit into the small one of two empty strings, and which texts they leave in both.
fn check_small(
    rt: &impl Abort,
    alloc: Global,
    commands: &[Command<'_>],
    wanted: bool,
    texts: (&str, &str),
) {
    let (mut small, mut large) = (ArrayString::new(), ArrayString::new());
    let fits = fits_small(alloc, &mut small, &mut large, commands);
    agree(rt, fits, Ok(wanted));
    agree(rt, (small.as_str(), large.as_str()), texts);
}

#[test]
fn commands_fit_until_one_is_tight(rt: HostRuntime) {
    // 23 bytes fill the small string, and the next is a byte too much.
    let (full, over) = ("0123456789abcdefghijklm", "0123456789abcdefghijklmn");
    let alloc = rt.alloc();
    // A command that is refused for its index is not tight.
    let past = [Command::TryInsert(1, 'a'), Command::PushStr(full)];
    check_small(&rt, alloc, &past, true, (full, full));
    check_small(&rt, alloc, &[Command::TryPushStr(over)], false, ("", over));
    // After a tight command the result is false, even if a later command clears both texts.
    let cleared = [Command::PushStr(over), Command::Clear];
    check_small(&rt, alloc, &cleared, false, ("", ""));
}
