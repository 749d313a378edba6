//! A reader and a writer that take no memory.
use arraystring::MaxString;
use std::io::{ErrorKind, Read, Write};
use std::{io, str};

/// Gives at most 16 bytes a read. So the memory for a longer script grows more than once.
#[derive(Drop)]
pub struct SlowReader<'a> {
    pub bytes: &'a [u8],
}

impl Read for SlowReader<'_> {
    fn read(&mut self, buf: &mut [u8]) -> io::Result<usize> {
        let count = 16usize.min(self.bytes.len()).min(buf.len());
        buf[..count].copy_from_slice(&self.bytes[..count]);
        self.bytes = &self.bytes[count..];
        Ok(count)
    }
}

/// Keeps what is written, of up to 255 bytes, and counts the writes.
#[derive(Drop)]
pub struct TextWriter {
    pub text: MaxString,
    pub writes: u32,
}

impl TextWriter {
    /// Nothing was written yet.
    pub fn new() -> TextWriter {
        TextWriter {
            text: MaxString::new(),
            writes: 0,
        }
    }
}

impl Write for TextWriter {
    fn write(&mut self, buf: &[u8]) -> io::Result<usize> {
        self.writes = self.writes.saturating_add(1);
        let Ok(written) = str::from_utf8(buf) else {
            return Err(ErrorKind::InvalidData.into());
        };
        match self.text.try_push_str(written) {
            Ok(()) => Ok(buf.len()),
            Err(_) => Err(ErrorKind::StorageFull.into()),
        }
    }

    fn flush(&mut self) -> io::Result<()> {
        Ok(())
    }
}
