//! Bytes that wait in an array until they are written.
ghost use Rattle.std.specs.Prelude.{◌≡◌, ◌+◌, ◌<◌, ◌≤◌, ◌++◌, [], OnOk, length};
ghost use Rattle.std.specs.Io.KnownBytes.{Appends};
ghost use Rattle.arraystring_run.specs.Writing.{AppendsPrefix, PassesThroughBuffer};

use crate::writing::write_bytes;
use std::io;
use std::io::Write;
use std::marker::Model;

/// How many bytes can wait to be written.
const BUFFER_SIZE: usize = 8192;

/// Bytes that wait to be written. In contracts they are the list of these bytes.
#[derive(Drop)]
pub(crate) struct WriteBuffer {
    /// The array, of which the first `count` bytes wait.
    bytes: [u8; BUFFER_SIZE],
    /// How many bytes wait, which is at most `BUFFER_SIZE`.
    count: usize,
}

impl Model for WriteBuffer {
    ghost use Rattle.std.specs.Prelude.{ℕ, ◌≤◌, List, take};

    ghost Value = { List ℕ };

    ghost view = { λ w. take w.count w.bytes };

    ghost invariant = { λ w. w.count ≤ 8192 };
}

impl WriteBuffer {
    /// Returns an empty buffer: no byte waits to be written.
    #[inline(always)]
    pub(crate) fn new() -> Self
        ensures { result ≡ [] }
    {
        WriteBuffer {
            bytes: [0; BUFFER_SIZE],
            count: 0,
        }
    }

    /// Puts a text behind the bytes that wait. Only if there is not enough room for all of it, the array is
    /// filled and written as one block, so that a script takes few writes.
    #[inline(always)]
    pub(crate) fn put<O: Write>(&mut self, output: &mut O, text: &str) -> io::Result<()>
        ensures whole { OnOk result (PassesThroughBuffer
            (O.contents output.old) (O.contents output.new) self.old self.new text.now) }
        ensures part { AppendsPrefix (O.contents output.old) (O.contents output.new)
            (self.old ++ text.now) }
        ensures unsent { length self.old + length text.now ≤ 8192 → output.new ≡ output.old }
        ensures block { OnOk result (8192 < length self.old + length text.now
            → length self.new + 8192 ≤ length self.old + length text.now) }
    {
        let bytes = text.as_bytes();
        if bytes.len() > BUFFER_SIZE - self.count {
            return self.put_past_room(output, bytes);
        }
        self.add_unchecked(bytes);
        Ok(())
    }

    /// Takes `bytes`, for which there is not enough room. Fills the array with the first of them, and writes
    /// it. The rest then waits, or is written at once if it is longer than the array.
    #[cold]
    #[inline(never)]
    fn put_past_room<O: Write>(&mut self, output: &mut O, bytes: &[u8]) -> io::Result<()>
        requires { 8192 < length self.old + length bytes.now }
        ensures whole { OnOk result (PassesThroughBuffer
            (O.contents output.old) (O.contents output.new) self.old self.new bytes.now) }
        ensures part { AppendsPrefix (O.contents output.old) (O.contents output.new)
            (self.old ++ bytes.now) }
        ensures block { OnOk result (length self.new + 8192 ≤ length self.old + length bytes.now) }
    {
        let (first, rest) = bytes.split_at(BUFFER_SIZE - self.count);
        self.add_unchecked(first);
        self.send(output)?;
        if rest.len() > BUFFER_SIZE {
            return write_bytes(output, rest);
        }
        self.add_unchecked(rest);
        Ok(())
    }

    /// Writes all that waits. If a write fails, a prefix of it was written.
    pub(crate) fn send<O: Write>(&mut self, output: &mut O) -> io::Result<()>
        ensures sent { OnOk result (self.new ≡ []) }
        ensures whole { OnOk result
            (Appends (O.contents output.old) (O.contents output.new) self.old) }
        ensures part { AppendsPrefix (O.contents output.old) (O.contents output.new) self.old }
    {
        write_bytes(output, &self.bytes[..self.count])?;
        self.count = 0;
        Ok(())
    }

    /// Adds bytes for which there is room.
    #[inline(always)]
    fn add_unchecked(&mut self, bytes: &[u8])
        requires { length self.old + length bytes.now ≤ 8192 }
        ensures { self.new ≡ self.old ++ bytes.now }
    {
        let end = self.count + bytes.len();
        self.bytes[self.count..end].copy_from_slice(bytes);
        self.count = end;
    }
}
