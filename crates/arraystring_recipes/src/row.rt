//! A row by `write!`, added whole or not at all.
ghost use Rattle.std.specs.Prelude.{◌≡◌, ◌++◌, OnOk, OnErr, codes};
ghost use Rattle.arraystring.specs.Text.{bytes};

use arraystring::ArrayString;
use std::fmt;
use std::fmt::Write;

/// Appends `first`, a dash and `last`.
///
/// # Errors
///
/// Returns `Err(fmt::Error)` if `write!` does. The text is then unchanged.
pub fn add_row(line: &mut ArrayString<24>, first: &str, last: &str) -> fmt::Result
    ensures added { OnOk result
        (bytes line.new.text ≡ bytes line.old.text ++ (first.now ++ (codes "-" ++ last.now))) }
    ensures refused { OnErr result (line.new.text ≡ line.old.text) }
{
    let before = *line;
    let written = write!(line, "{first}-{last}");
    if written.is_err() {
        *line = before;
    }
    written
}
