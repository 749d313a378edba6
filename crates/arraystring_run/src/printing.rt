//! The lines that are printed of a run. Nothing here is given an allocator, so nothing takes
//! memory.
ghost use Rattle.std.specs.Prelude.{◌≡◌, ◌++◌, map, IfOk, IfSome, OnOk};
ghost use Rattle.std.specs.Io.KnownBytes.{Appends};
ghost use Rattle.arraystring.specs.Text.{bytes};
ghost use Rattle.arraystring_run.specs.Effects.{view_of_reply};
ghost use Rattle.arraystring_run.specs.LinesOfScripts.{with_newline};
ghost use Rattle.arraystring_run.specs.Printing.{reply_line, replies_and_final_line};
ghost use Rattle.arraystring_run.specs.Writing.{AppendsPrefix, PassesThroughBuffer};

use crate::Reply;
use crate::write_buffer::WriteBuffer;
use crate::writing::write_text;
use arraystring::ArrayString;
use std::fmt::{Display, Write as _};
use std::io::Write;
use std::{fmt, io};

/// Writes a line for each reply, and one for the last text, and flushes the writer. The lines wait in an
/// array, which is written when it is full, and at the end.
pub(crate) fn write_replies_and_text<const N: usize, O: Write>(
    output: &mut O,
    replies: &[Reply<N>],
    last: &ArrayString<N>,
) -> io::Result<()>
    ensures whole { OnOk result
        (Appends (O.contents output.old) (O.contents output.new)
        (replies_and_final_line (map view_of_reply replies.now) last.now.text)) }
    ensures part { AppendsPrefix (O.contents output.old) (O.contents output.new)
        (replies_and_final_line (map view_of_reply replies.now) last.now.text) }
{
    let mut waiting = WriteBuffer::new();
    for reply in replies {
        buffer_reply(&mut waiting, output, reply)?;
    }
    buffer_prefix_and_text(&mut waiting, output, "final ", last.as_str())?;
    waiting.send(output)?;
    output.flush()
}

/// Puts the line of a reply behind the bytes that wait to be written.
fn buffer_reply<const N: usize, O: Write>(
    waiting: &mut WriteBuffer,
    output: &mut O,
    reply: &Reply<N>,
) -> io::Result<()>
    ensures whole { OnOk result (PassesThroughBuffer
        (O.contents output.old) (O.contents output.new) waiting.old waiting.new
        (with_newline (reply_line (view_of_reply reply.now)))) }
    ensures part { AppendsPrefix (O.contents output.old) (O.contents output.new)
        (waiting.old ++ with_newline (reply_line (view_of_reply reply.now))) }
{
    match reply {
        Reply::Done => waiting.put(output, "done\n"),
        Reply::Char(ch) => buffer_prefix_and_value(waiting, output, "char ", *ch),
        Reply::NoChar => waiting.put(output, "no char\n"),
        Reply::Text(text) => buffer_prefix_and_text(waiting, output, "text ", text.as_str()),
        Reply::NoText => waiting.put(output, "no text\n"),
        Reply::Number(number) => buffer_prefix_and_value(waiting, output, "number ", *number),
        Reply::Refused(error) => buffer_prefix_and_value(waiting, output, "refused ", *error),
    }
}

/// Puts a line behind the bytes that wait to be written: `prefix`, which ends with a space, and then `value`.
/// It is an error if the line takes more than 30 bytes.
fn buffer_prefix_and_value<D: Display + Drop, O: Write>(
    waiting: &mut WriteBuffer,
    output: &mut O,
    prefix: &str,
    value: D,
) -> io::Result<()>
    ensures whole { OnOk result (IfSome (D.output value)
        (λ bs. PassesThroughBuffer
        (O.contents output.old) (O.contents output.new) waiting.old waiting.new
        (with_newline (prefix.now ++ bs)))) }
    ensures part { IfSome (D.output value)
        (λ bs. AppendsPrefix (O.contents output.old) (O.contents output.new)
        (waiting.old ++ with_newline (prefix.now ++ bs))) }
{
    let line = line_of_prefix_and_value(prefix, value)?;
    waiting.put(output, line.as_str())
}

/// Writes the line of `prefix`, which ends with a space, and a value, without a buffer. It is an error if the
/// line takes more than 30 bytes.
pub(crate) fn write_prefix_and_value<D: Display + Drop, O: Write>(
    output: &mut O,
    prefix: &str,
    value: D,
) -> io::Result<()>
    ensures whole { OnOk result (IfSome (D.output value)
        (λ bs. Appends (O.contents output.old) (O.contents output.new)
        (with_newline (prefix.now ++ bs)))) }
    ensures part { IfSome (D.output value)
        (λ bs. AppendsPrefix (O.contents output.old) (O.contents output.new)
        (with_newline (prefix.now ++ bs))) }
{
    let line = line_of_prefix_and_value(prefix, value)?;
    write_text(output, line.as_str())
}

/// Returns the line of `prefix`, which ends with a space, and a value, or `Err(fmt::Error)` if it takes more than
/// 30 bytes. `bad line `, the 20 digits of a `usize` and a line feed take 30.
fn line_of_prefix_and_value<D: Display + Drop>(
    prefix: &str,
    value: D,
) -> Result<ArrayString<30>, fmt::Error>
    ensures { IfOk result (λ line. IfSome (D.output value)
        (λ bs. bytes line.text ≡ with_newline (prefix.now ++ bs))) }
{
    let mut line = ArrayString::<30>::new();
    writeln!(line, "{prefix}{value}")?;
    Ok(line)
}

/// Puts a line behind the bytes that wait to be written: `prefix`, which ends with a space, and then `text`.
#[inline(always)]
fn buffer_prefix_and_text<O: Write>(
    waiting: &mut WriteBuffer,
    output: &mut O,
    prefix: &str,
    text: &str,
) -> io::Result<()>
    ensures whole { OnOk result (PassesThroughBuffer
        (O.contents output.old) (O.contents output.new) waiting.old waiting.new
        (with_newline (prefix.now ++ text.now))) }
    ensures part { AppendsPrefix (O.contents output.old) (O.contents output.new)
        (waiting.old ++ with_newline (prefix.now ++ text.now)) }
{
    waiting.put(output, prefix)?;
    waiting.put(output, text)?;
    waiting.put(output, "\n")
}
