//! Whether a command is tight.
ghost use Rattle.std.specs.Prelude.{◌≡◌, ◌+◌, ◌-◌, ◌&&◌, chars, nat_le, nat_lt};
ghost use Rattle.arraystring.specs.Text.{cap, size};
ghost use Rattle.arraystring_run.specs.Effects.{is_tight};

use crate::Command;
use arraystring::ArrayString;
use arraystring::laws::text_fits;
use arraystring::utils::is_char_boundary;

/// Returns whether a command is tight on a text: whether it is refused because its result does not fit, or adds
/// less than all that it is given.
pub(crate) fn is_tight<const N: usize>(text: &ArrayString<N>, command: Command<'_>) -> bool
    ensures { result ≡ is_tight command.entry text.now.text (cap N) }
{
    text_fits(text);
    match command {
        Command::TryPush(ch) => lacks_room_for_bytes(text, ch.len_utf8()),
        Command::TryPushStr(given) => lacks_room_for_bytes(text, size_of_text(given)),
        Command::PushStr(given) => lacks_room_for_bytes(text, size_of_text(given)),
        Command::TryInsert(index, ch) => index <= text.len()
            && lacks_room_for_bytes(text, ch.len_utf8()),
        Command::TryInsertStr(index, given) => index <= text.len()
            && lacks_room_for_bytes(text, size_of_text(given)),
        Command::InsertStr(index, given) => {
            is_char_boundary(text, index).is_ok() && lacks_room_for_bytes(text, size_of_text(given))
        }
        Command::ReplaceRange { start, end, given } => {
            replacement_lacks_room(text, start, end, size_of_text(given))
        }
        _ => false,
    }
}

/// How many bytes a text has.
fn size_of_text(given: &str) -> usize
    ensures { result ≡ size (chars given.now) }
{
    given.len()
}

/// Whether `added` bytes more would not fit.
fn lacks_room_for_bytes<const N: usize>(text: &ArrayString<N>, added: usize) -> bool
    ensures { result ≡ nat_lt (cap N) (size text.now.text + added) }
{
    added > (ArrayString::<N>::capacity() - text.len()) as usize
}

/// Whether the text would not fit with `given` bytes in place of the range from `start` to `end`. Returns false if the
/// range is reversed or not in the text, because another cause comes first then.
fn replacement_lacks_room<const N: usize>(
    text: &ArrayString<N>,
    start: u8,
    end: u8,
    given: usize,
) -> bool
    ensures { result ≡ (nat_le start end && (nat_le end (size text.now.text)
        && nat_lt (cap N) (size text.now.text - (end - start) + given))) }
{
    start <= end
        && end <= text.len()
        && given > (ArrayString::<N>::capacity() - (text.len() - (end - start))) as usize
}
