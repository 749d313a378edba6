//! Makes the call that its only argument names, and prints what came back and what is there then; with no
//! argument, each call in turn. `tools/run refused` runs it with one allocation refused. So nothing but the
//! call may take memory, and as many allocations as the argument has signs `+` behind the name come before
//! it: in `play++` the third allocation is the first one of `play`. It is no product.
#![tactic(auto)]

mod calls;
mod device;

use arraystring_run::program::given_word;
use std::io;

/// The names of the calls. Each allocates, or may. A call whose name ends in `_nothing` runs no commands, or
/// makes a value of an empty text.
const CALLS: [&str; 9] = [
    "run",
    "run_nothing",
    "run_both",
    "run_both_nothing",
    "to_value",
    "to_value_nothing",
    "insert",
    "play",
    "serve",
];

fn main(rt: HostRuntime) -> io::Result<()> {
    if let Some(word) = given_word(&rt) {
        let name = word.as_str().trim_end_matches('+');
        for _ in name.len()..word.len() as usize {
            let _ = Vec::<u8>::with_capacity(rt.alloc(), 1);
        }
        return calls::make(&rt, name);
    }
    for name in CALLS {
        calls::make(&rt, name)?;
    }
    Ok(())
}
