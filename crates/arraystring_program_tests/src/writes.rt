//! How many writes a script takes: one for each 8,192 bytes, and one for the rest; and one flush.
use super::program::WORDS;
use super::table::agree;
use arraystring_run::serve;
use std::io;
use std::process::Abort;

/// How many bytes wait before they are written together.
const BLOCK: usize = 8192;

/// Takes all, and counts the writes, the bytes that they take, and the flushes.
#[derive(Drop)]
struct CountingWriter {
    writes: usize,
    bytes: usize,
    flushes: usize,
}

impl io::Write for CountingWriter {
    fn write(&mut self, buf: &[u8]) -> io::Result<usize> {
        self.writes = self.writes.saturating_add(1);
        self.bytes = self.bytes.saturating_add(buf.len());
        Ok(buf.len())
    }

    fn flush(&mut self) -> io::Result<()> {
        self.flushes = self.flushes.saturating_add(1);
        Ok(())
    }
}

/// Serves a script that prints `bytes` bytes, and asserts that it takes few writes and one flush.
fn takes_few_writes(rt: &(impl Abort + AllocGlobal), word: &str, script: &str, bytes: usize) {
    let mut input = script.as_bytes();
    let mut errors = Vec::new(rt.alloc());
    let mut output = CountingWriter {
        writes: 0,
        bytes: 0,
        flushes: 0,
    };
    let status = serve(rt.alloc(), Some(word), &mut input, &mut output, &mut errors);
    agree(rt, word, (status, output.bytes), (0, bytes));
    agree(rt, word, output.flushes, 1);
    let (writes, most) = (output.writes, bytes / BLOCK + 1);
    assert!(rt; writes <= most, "{word}: {writes} writes of {bytes} bytes");
}

/// 5,000 lines `number 0` and `final ` have 45,007 bytes, which are written by six writes at most.
#[test]
fn a_script_of_5000_lines_takes_six_writes(rt: HostRuntime) {
    let script = "len\n".repeat(rt.alloc(), 5000).expect(&rt, "memory");
    agree(&rt, "the most", 45007 / BLOCK + 1, 6);
    for word in WORDS {
        takes_few_writes(&rt, word, &script, 45007);
    }
}

/// Each number of bytes from ten before a multiple of 8,192 to ten behind it. Of letters that
/// are pushed, fewer than ten, `done`, a line `number` of nine bytes for each `len`, and `final` are printed.
#[test]
fn outputs_of_each_size_take_few_writes(rt: HostRuntime) {
    for blocks in 1..=4usize {
        for more in 0..=20usize {
            let bytes = (blocks * BLOCK + more).saturating_sub(10);
            let printed = bytes.saturating_sub("done\nfinal \n".len());
            let letters = "abcdefgh".get(..printed % 9).unwrap_or("none");
            let lines = "len\n"
                .repeat(rt.alloc(), printed / 9)
                .expect(&rt, "memory");
            let script = format!(in rt.alloc(); "push_str {letters}\n{lines}").expect(
                &rt, "memory",
            );
            takes_few_writes(&rt, "small", &script, bytes);
        }
    }
}

/// Prints a text of each size 200 times. Its line is `text `, the text and a newline. These are three pieces,
/// and six bytes more than the text.
#[test]
fn texts_of_each_size_take_few_writes(rt: HostRuntime) {
    let asks = "as_str\n".repeat(rt.alloc(), 200).expect(&rt, "memory");
    for size in 0..=255usize {
        let text = "a".repeat(rt.alloc(), size).expect(&rt, "memory");
        let script = format!(in rt.alloc(); "push_str {text}\n{asks}").expect(&rt, "memory");
        let bytes = 5 + 200 * (size + 6) + 7 + size;
        takes_few_writes(&rt, "max", &script, bytes);
    }
}
