//! A writer that fails, is interrupted, or takes little at a time.
use std::alloc::Global;
use std::io;
use std::io::{ErrorKind, Write};

/// Takes at most `step` bytes a write. After the first `room` bytes, `faults` writes fail: each returns
/// the error `kind`, or takes nothing if there is no `kind`. After each later write that succeeds, `again`
/// writes fail in the same way. `again` is 0 or `faults`. A flush fails if `flushes` is false.
#[derive(Drop)]
pub struct FakeWriter {
    pub taken: Vec<u8>,
    pub step: usize,
    pub room: usize,
    pub faults: u8,
    pub again: u8,
    pub kind: Option<ErrorKind>,
    pub flushes: bool,
}

impl FakeWriter {
    /// A writer that takes `room` bytes. The next write fails with `kind`, or takes nothing if there is no
    /// `kind`. All later writes succeed.
    pub fn new(alloc: Global, room: usize, kind: Option<ErrorKind>) -> FakeWriter {
        FakeWriter {
            taken: Vec::new(alloc),
            step: usize::MAX,
            room,
            faults: 1,
            again: 0,
            kind,
            flushes: true,
        }
    }
}

impl Write for FakeWriter {
    fn write(&mut self, buf: &[u8]) -> io::Result<usize> {
        let room = self.room.saturating_sub(self.taken.len());
        let mut count = self.step.min(buf.len());
        if self.faults > 0 {
            if room == 0 {
                self.faults -= 1;
                return match self.kind {
                    Some(kind) => Err(kind.into()),
                    None => Ok(0),
                };
            }
            count = count.min(room);
        }
        self.faults = self.faults.max(self.again);
        self.taken.extend_from_slice(&buf[..count])?;
        Ok(count)
    }

    fn flush(&mut self) -> io::Result<()> {
        if self.flushes {
            Ok(())
        } else {
            Err(ErrorKind::Other.into())
        }
    }
}
