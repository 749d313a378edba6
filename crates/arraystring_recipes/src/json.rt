//! A name that is sent as JSON.
ghost use Rattle.std.specs.Prelude.{◌≡◌, IfOk};

use arraystring::ArrayString;
use arraystring::integration::NotText;
use std::alloc::{AllocError, Global};

/// Returns the name after it was made a JSON value and read back, which is the name.
///
/// # Errors
///
/// May return `Err(AllocError)`, as `to_value` may. The contract does not say when.
pub fn sent_and_read(name: &ArrayString<32>, alloc: Global) -> Result<ArrayString<32>, AllocError>
    ensures { IfOk result (λ read. read.text ≡ name.now.text) }
{
    let value = name.to_value(alloc)?;
    match ArrayString::from_value(&value) {
        Ok(read) => Ok(read),
        Err(NotText) => unreachable!(),
    }
}
