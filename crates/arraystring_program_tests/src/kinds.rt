//! Each kind of error of a read, a write and a flush, at each position: an interrupted read or write is
//! tried again, and all others are reported.
use super::table::agree;
use arraystring_run::{PlayFault, play};
use std::alloc::Global;
use std::io;
use std::io::{ErrorKind, Write};
use std::process::Abort;
use test_support::reader::FakeReader;
use test_support::scripts::{OUTPUT, SCRIPT};
use test_support::writer::FakeWriter;

/// All kinds of errors that there are.
const KINDS: [ErrorKind; 42] = [
    ErrorKind::NotFound,
    ErrorKind::PermissionDenied,
    ErrorKind::ConnectionRefused,
    ErrorKind::ConnectionReset,
    ErrorKind::HostUnreachable,
    ErrorKind::NetworkUnreachable,
    ErrorKind::ConnectionAborted,
    ErrorKind::NotConnected,
    ErrorKind::AddrInUse,
    ErrorKind::AddrNotAvailable,
    ErrorKind::NetworkDown,
    ErrorKind::BrokenPipe,
    ErrorKind::AlreadyExists,
    ErrorKind::WouldBlock,
    ErrorKind::NotADirectory,
    ErrorKind::IsADirectory,
    ErrorKind::DirectoryNotEmpty,
    ErrorKind::ReadOnlyFilesystem,
    ErrorKind::FilesystemLoop,
    ErrorKind::StaleNetworkFileHandle,
    ErrorKind::InvalidInput,
    ErrorKind::InvalidData,
    ErrorKind::TimedOut,
    ErrorKind::WriteZero,
    ErrorKind::StorageFull,
    ErrorKind::NotSeekable,
    ErrorKind::QuotaExceeded,
    ErrorKind::FileTooLarge,
    ErrorKind::ResourceBusy,
    ErrorKind::ExecutableFileBusy,
    ErrorKind::Deadlock,
    ErrorKind::CrossesDevices,
    ErrorKind::TooManyLinks,
    ErrorKind::InvalidFilename,
    ErrorKind::ArgumentListTooLong,
    ErrorKind::Interrupted,
    ErrorKind::Unsupported,
    ErrorKind::UnexpectedEof,
    ErrorKind::OutOfMemory,
    ErrorKind::InProgress,
    ErrorKind::Other,
    ErrorKind::Uncategorized,
];

/// The list has each kind: the kinds are numbered from 0 on in its order, and the last kind has the last number.
#[test]
fn no_kind_is_left_out(rt: HostRuntime) {
    for (place, kind) in KINDS.into_iter().enumerate() {
        agree(&rt, "a place", kind as u8 as usize, place);
    }
    agree(&rt, "the last place", ErrorKind::Uncategorized as u8, 41);
}

/// With each kind of error, the read before each byte of the script fails, and so does the one at its end.
/// Only an interrupted read is tried again.
#[test]
fn reads_of_each_kind(rt: HostRuntime) {
    for kind in KINDS {
        for reads in 0..=SCRIPT.len() {
            let mut input = FakeReader::new(SCRIPT.as_bytes(), 1, reads, kind);
            let mut output = Vec::new(rt.alloc());
            let played = play::<23, FakeReader, Vec<u8>>(rt.alloc(), &mut input, &mut output);
            let left = input.bytes.len();
            if kind == ErrorKind::Interrupted {
                agree(&rt, "a read", (played, left), (Ok(()), 0));
                agree(&rt, "the output", output.as_slice(), OUTPUT.as_bytes());
            } else {
                let wanted = SCRIPT.len().saturating_sub(reads);
                agree(
                    &rt,
                    "a read",
                    (played, left),
                    (Err(PlayFault::Read), wanted),
                );
                agree(&rt, "the output", output.len(), 0);
            }
        }
    }
}

/// With each kind of error, the write before each byte of the output fails.
#[test]
fn writes_of_each_kind(rt: HostRuntime) {
    let whole = OUTPUT.as_bytes();
    for kind in KINDS {
        for taken in 0..whole.len() {
            let (outcome, wanted) = if kind == ErrorKind::Interrupted {
                (Ok(()), whole)
            } else {
                (Err(PlayFault::Write), &whole[..taken])
            };
            let mut input = SCRIPT.as_bytes();
            let mut output = FakeWriter::new(rt.alloc(), taken, Some(kind));
            let played = play::<23, &[u8], FakeWriter>(rt.alloc(), &mut input, &mut output);
            agree(&rt, "a write", played, outcome);
            agree(&rt, "the output", output.taken.as_slice(), wanted);
        }
    }
}

/// Takes all bytes, and fails at the first flush.
#[derive(Drop)]
struct Unflushed {
    taken: Vec<u8>,
    kind: ErrorKind,
    flushes: u8,
}

impl Write for Unflushed {
    fn write(&mut self, buf: &[u8]) -> io::Result<usize> {
        self.taken.extend_from_slice(buf)?;
        Ok(buf.len())
    }

    fn flush(&mut self) -> io::Result<()> {
        self.flushes = self.flushes.saturating_add(1);
        if self.flushes == 1 {
            return Err(self.kind.into());
        }
        Ok(())
    }
}

/// A flush that fails is not tried again, whatever the kind: the first and only one decides.
#[test]
fn flushes_of_each_kind(rt: HostRuntime) {
    for kind in KINDS {
        let mut output = Unflushed {
            taken: Vec::new(rt.alloc()),
            kind,
            flushes: 0,
        };
        let mut input = SCRIPT.as_bytes();
        let played = play::<23, &[u8], Unflushed>(rt.alloc(), &mut input, &mut output);
        agree(&rt, "a flush", played, Err(PlayFault::Write));
        agree(
            &rt,
            "the output",
            output.taken.as_slice(),
            OUTPUT.as_bytes(),
        );
        agree(&rt, "the flushes", output.flushes, 1);
    }
}
