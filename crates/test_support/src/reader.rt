//! A reader that fails, is interrupted, or gives little at a time.
use std::io;
use std::io::{ErrorKind, Read};

/// Gives at most `step` bytes a read. After the first `reads` reads, as many as `faults` says fail
/// with `kind`; after each later one, as many as `again` says.
#[derive(Drop)]
pub struct FakeReader<'a> {
    pub bytes: &'a [u8],
    pub step: usize,
    pub reads: usize,
    pub faults: u8,
    pub again: u8,
    pub kind: ErrorKind,
}

impl<'a> FakeReader<'a> {
    /// A reader of `step` bytes a read. After `reads` reads, one read fails with `kind`. All later reads
    /// succeed.
    pub fn new(bytes: &'a [u8], step: usize, reads: usize, kind: ErrorKind) -> FakeReader<'a> {
        FakeReader {
            bytes,
            step,
            reads,
            faults: 1,
            again: 0,
            kind,
        }
    }
}

impl Read for FakeReader<'_> {
    fn read(&mut self, buf: &mut [u8]) -> io::Result<usize> {
        if self.reads == 0 && self.faults > 0 {
            self.faults -= 1;
            return Err(self.kind.into());
        }
        self.reads = self.reads.saturating_sub(1);
        self.faults = self.faults.max(self.again);
        let count = self.step.min(self.bytes.len()).min(buf.len());
        buf[..count].copy_from_slice(&self.bytes[..count]);
        self.bytes = &self.bytes[count..];
        Ok(count)
    }
}
