//! How values are printed for debugging, and a text that is printed for debugging without quotes.
use std::alloc::{AllocError, Global};
use std::fmt;
use std::fmt::Debug;

/// A text that is printed for debugging as it is, without quotes and escapes.
#[derive(Drop)]
pub struct Unquoted<'a>(pub &'a str);

impl Debug for Unquoted<'_> {
    fn fmt<W: fmt::Write>(&self, f: &mut fmt::Formatter<W>) -> fmt::Result {
        f.write_str(self.0)
    }
}

/// How a value is printed for debugging in each form that could pad, cut or break it.
pub(crate) fn forms<T: Debug>(
    alloc: Global,
    value: &T,
    width: usize,
) -> Result<String, AllocError> {
    format!(in alloc;
        "{value:?}|{value:#?}|{value:width$?}|{value:<width$?}|{value:>width$?}|{value:*^width$?}|\
        {value:0width$?}|{value:#width$?}|{value:.width$?}|{value:>width$.1?}|{value:*^#width$.1?}|\
        {value:+?}|{value:+#?}|{value:+width$?}|{value:+.width$?}|{value:+#0width$?}"
    )
}

/// Looks for the first width below 30 at which two values are printed differently for debugging, in some
/// form. Returns what is printed of each value at that width, or `None` if there is no such width.
///
/// # Errors
///
/// Returns `Err(AllocError)` if there is no memory for what is printed.
pub fn first_debug_difference<T: Debug, W: Debug>(
    alloc: Global,
    value: &T,
    other: &W,
) -> Result<Option<(String, String)>, AllocError> {
    for width in 0..30usize {
        let both = (forms(alloc, value, width)?, forms(alloc, other, width)?);
        if both.0 != both.1 {
            return Ok(Some(both));
        }
    }
    Ok(None)
}
