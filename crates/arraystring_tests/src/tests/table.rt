//! What the columns of tables say, and asserts. `test_support` reads the rows and the columns.
ghost use Rattle.std.specs.Prelude.{◌≡◌, chars};
ghost use Rattle.arraystring.specs.Text.{cap, cut};

use arraystring::{ArrayString, Error, MaxString};
use std::fmt::Debug;
use std::hash::{DefaultHasher, Hash, Hasher};
use std::process::Abort;
use test_support::table::column;

/// A string of `text`, or of its longest prefix of whole characters that fits.
pub(crate) fn string<const N: usize>(text: &str) -> ArrayString<N>
    ensures { result.text ≡ cut (chars text.now) (cap N) }
{
    let mut string = ArrayString::new();
    string.push_str(text);
    string
}

/// The number in a column.
pub(crate) fn number(rt: &impl Abort, row: &str, at: usize) -> u8 {
    column(row, at).parse().expect(rt, "a number in the column")
}

/// The character in a column.
pub(crate) fn character(rt: &impl Abort, row: &str, at: usize) -> char {
    column(row, at)
        .parse()
        .expect(rt, "a character in the column")
}

/// Asserts that a case gave what it wants. An `assert_eq!` costs the proof of a test three times as
/// much as a call.
pub(crate) fn agree<T: PartialEq + Debug + Drop>(rt: &impl Abort, case: &str, gave: T, wanted: T) {
    assert_eq!(rt; gave, wanted, "{case}");
}

/// Asserts that a call returned what the row of a table says: a text or a character itself, `ok` for
/// nothing, a refusal by its name, and all else as `{:?}` writes it.
pub(crate) fn returned<T: Debug + Drop>(rt: &(impl Abort + AllocGlobal), row: &str, outcome: T) {
    let written = format!(in rt.alloc(); "{outcome:?}").expect(rt, "memory for what is printed");
    let written = written.as_str();
    let name = written.trim_end_matches(')').rsplit('(').next();
    let name = name.unwrap_or_default().trim_start_matches("Error::");
    let name = name.trim_matches('\'');
    let wanted = column(row, 4);
    if name.is_empty() {
        agree(rt, row, "ok", wanted);
    } else {
        agree(rt, row, written.split('"').nth(1).unwrap_or(name), wanted);
    }
}

/// What was made as it is written in a table: the text itself, a refusal by its name.
pub(crate) fn text_or_error<const N: usize>(made: &Result<ArrayString<N>, Error>) -> MaxString {
    string(match made {
        Ok(made) => made.as_str(),
        Err(Error::Utf8) => "Utf8",
        Err(Error::Utf16) => "Utf16",
        Err(Error::OutOfBounds) => "OutOfBounds",
    })
}

/// The hash of a value.
pub(crate) fn hash_of<T: Hash>(value: &T) -> u64 {
    let mut state = DefaultHasher::new();
    value.hash(&mut state);
    state.finish()
}
