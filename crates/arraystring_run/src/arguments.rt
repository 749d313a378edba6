//! The arguments of a program, and the word that they give it.
ghost use Rattle.arraystring_run.specs.Arguments.{IsOnlyWord};

use arraystring::MaxString;
use std::env::{Env, FillError};

/// Returns the only argument of the program. Returns `None` if there is no argument, if there are two or more,
/// if it is not UTF-8, or if it takes more than 255 bytes. It reads the argument into a buffer of 255 bytes,
/// far more than `small`, `cache` and `max` need, and allocates nothing.
///
/// It has no `ensures`, since the contract of the kit's `Env` does not say what its calls return. So no clause
/// could tell the program's argument from another word. The contract of `only_word` says which text it makes
/// of the results of `env`.
/// That `env` is asked for its arguments 1 and 2 is only tested: the modules `program` and `words` of
/// `crates/arraystring_program_tests` call it with an `Env` of their own, and `crates/arraystring_cli/try`
/// gives the built program its arguments.
pub fn given_word<E: Env>(env: &E) -> Option<MaxString> {
    let mut first = [0u8; 255];
    let count = env.arg(1, &mut first);
    let second = env.arg(2, &mut [0u8; 1]);
    only_word(count, &first, second)
}

/// Returns the first argument, which is the first `count` bytes of `first`, as a text. Returns `None` if
/// `count` is an error, if there is a second argument, or if the bytes are not UTF-8 or more than 255.
fn only_word(
    count: Result<usize, FillError>,
    first: &[u8],
    second: Result<usize, FillError>,
) -> Option<MaxString>
    ensures { IsOnlyWord count first.now second result }
{
    let (Ok(count), Err(FillError::NotPresent)) = (count, second) else {
        return None;
    };
    MaxString::try_from_utf8(first.get(..count)?).ok()
}
