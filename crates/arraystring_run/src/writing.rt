//! Writing to a device: what a write did not take is given to the next. If a write fails, what was written is a prefix
//! of what was to be.
ghost use Rattle.std.specs.Prelude.{◌≡◌, ◌++◌, ℕ, List, IfOk, OnOk, OnErr};
ghost use Rattle.std.specs.Io.{WritesAtMost};
ghost use Rattle.std.specs.Io.KnownBytes.{Appends, Keeps, WriteAppends};
ghost use Rattle.arraystring_run.specs.Writing.{AppendsPrefix};

use std::io;
use std::io::Write;

/// Writes a text. An interrupted write is tried again. If a write fails otherwise, a prefix of the text was
/// written.
#[inline(always)]
pub(crate) fn write_text<O: Write>(output: &mut O, text: &str) -> io::Result<()>
    ensures whole { OnOk result (Appends (O.contents output.old) (O.contents output.new) text.now) }
    ensures part { AppendsPrefix (O.contents output.old) (O.contents output.new) text.now }
{
    write_bytes(output, text.as_bytes())
}

/// Writes bytes, as `write_text` writes a text.
#[inline(never)]
pub(crate) fn write_bytes<O: Write>(output: &mut O, bytes: &[u8]) -> io::Result<()>
    ensures whole { OnOk result
        (Appends (O.contents output.old) (O.contents output.new) bytes.now) }
    ensures part { AppendsPrefix (O.contents output.old) (O.contents output.new) bytes.now }
{
    let mut rest = bytes;
    for _ in 0..u64::MAX {
        if rest.is_empty() {
            return Ok(());
        }
        rest = write_and_return_rest(output, rest)?;
    }
    Err(io::ErrorKind::Other.into())
}

/// Writes once, if there are bytes, and returns those that are left.
#[inline(always)]
fn write_and_return_rest<'a, O: Write>(output: &mut O, bytes: &'a [u8]) -> io::Result<&'a [u8]>
    ensures some { IfOk result (λ rest. (done : List ℕ)
        × (bytes.now ≡ done ++ rest.now)
        × Appends (O.contents output.old) (O.contents output.new) done) }
    ensures none { OnErr result (Keeps (O.contents output.old) (O.contents output.new)) }
{
    if bytes.is_empty() {
        return Ok(bytes);
    }
    let count = write_once(output, bytes)?;
    Ok(&bytes[count..])
}

/// Writes `bytes`, which are not empty, by one call, and returns how many were taken, or 0 if the write was
/// interrupted. If the writer itself takes none, returns the error `WriteZero`.
#[inline(always)]
fn write_once<O: Write>(output: &mut O, bytes: &[u8]) -> io::Result<usize>
    ensures bound { WritesAtMost result bytes.now }
    ensures bytes { WriteAppends (O.contents output.old) (O.contents output.new) result bytes.now }
{
    match output.write(bytes) {
        Ok(0) => Err(io::ErrorKind::WriteZero.into()),
        Ok(count) => Ok(count),
        Err(error) => {
            if error.kind() != io::ErrorKind::Interrupted {
                return Err(error);
            }
            Ok(0)
        }
    }
}
