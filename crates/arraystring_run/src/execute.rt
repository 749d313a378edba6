//! One command, executed on a string.
ghost use Rattle.std.specs.Prelude.{◌≡◌, reverse};
ghost use Rattle.arraystring.specs.Text.{cap};
ghost use Rattle.arraystring.specs.Edits.{map_err_from_out_of_bounds, map_err_from_utf8, string_result_as_text, checked_part};
ghost use Rattle.arraystring.specs.Drained.{drain_result_as_text};
ghost use Rattle.arraystring_run.specs.Effects.{view_of_reply, reply_of_result, char_reply, text_reply, Done, Char, Text, effect, without};

use crate::{Command, Reply};
use arraystring::error::{Error, OutOfBounds, Utf8};
use arraystring::laws::{drain_text_fits, text_fits};
use arraystring::{ArrayString, Drain};

/// Executes one command, and returns the reply.
pub(crate) fn execute<const N: usize>(text: &mut ArrayString<N>, command: Command<'_>) -> Reply<N>
    ensures reply { view_of_reply result ≡ (effect command.entry text.old.text (cap N)).reply }
    ensures text { text.new.text ≡ (effect command.entry text.old.text (cap N)).text }
{
    match command {
        Command::TryPush(ch) => reply_of_addition_result(text.try_push(ch)),
        Command::TryPushStr(given) => reply_of_addition_result(text.try_push_str(given)),
        Command::PushStr(given) => {
            text.push_str(given);
            Reply::Done
        }
        Command::Pop => reply_of_pop_result(text.pop()),
        Command::Truncate(size) => reply_of_truncate_result(text.truncate(size)),
        Command::Trim => {
            text.trim();
            Reply::Done
        }
        Command::Remove(index) => reply_of_remove_result(text.remove(index)),
        Command::RetainNot(unwanted) => {
            retain_not(text, unwanted);
            Reply::Done
        }
        Command::TryInsert(index, ch) => reply_of_insertion_result(text.try_insert(index, ch)),
        Command::TryInsertStr(index, given) => reply_of_insertion_result(text.try_insert_str(
            index, given,
        )),
        Command::InsertStr(index, given) => reply_of_insertion_result(text.insert_str(
            index, given,
        )),
        Command::SplitOff(at) => reply_of_split_off_result(text.split_off(at)),
        Command::Clear => {
            text.clear();
            Reply::Done
        }
        Command::Drain { start, end } => reply_of_drain_result(text.drain(start..end)),
        Command::DrainThrough { start, last } => reply_of_drain_result(text.drain(start..=last)),
        Command::DrainBack { start, end } => reply_of_drain_back_result(text.drain(start..end)),
        Command::ReplaceRange { start, end, given } => reply_of_insertion_result(text.replace_range(
            start..end,
            given,
        )),
        Command::Upper => {
            text.make_ascii_uppercase();
            Reply::Done
        }
        Command::Lower => {
            text.make_ascii_lowercase();
            Reply::Done
        }
        Command::Get { start, end } => get_and_reply(text, start, end),
        Command::Len => Reply::Number(text.len()),
        Command::Capacity => Reply::Number(ArrayString::<N>::capacity()),
        Command::AsStr => Reply::Text(*text),
    }
}

/// The reply to an addition at the end.
fn reply_of_addition_result<const N: usize>(outcome: Result<(), OutOfBounds>) -> Reply<N>
    ensures { view_of_reply result
        ≡ reply_of_result (λ _. Done) (map_err_from_out_of_bounds outcome) }
{
    match outcome {
        Ok(()) => Reply::Done,
        Err(OutOfBounds) => Reply::Refused(Error::OutOfBounds),
    }
}

/// The reply to an insertion or a replacement.
fn reply_of_insertion_result<const N: usize>(outcome: Result<(), Error>) -> Reply<N>
    ensures { view_of_reply result ≡ reply_of_result (λ _. Done) outcome }
{
    match outcome {
        Ok(()) => Reply::Done,
        Err(error) => Reply::Refused(error),
    }
}

/// The reply to `pop`.
fn reply_of_pop_result<const N: usize>(outcome: Option<char>) -> Reply<N>
    ensures { view_of_reply result ≡ char_reply outcome }
{
    match outcome {
        Some(ch) => Reply::Char(ch),
        None => Reply::NoChar,
    }
}

/// The reply to `truncate`.
fn reply_of_truncate_result<const N: usize>(outcome: Result<(), Utf8>) -> Reply<N>
    ensures { view_of_reply result ≡ reply_of_result (λ _. Done) (map_err_from_utf8 outcome) }
{
    match outcome {
        Ok(()) => Reply::Done,
        Err(Utf8) => Reply::Refused(Error::Utf8),
    }
}

/// The reply to `remove`.
fn reply_of_remove_result<const N: usize>(outcome: Result<char, Error>) -> Reply<N>
    ensures { view_of_reply result ≡ reply_of_result Char outcome }
{
    match outcome {
        Ok(ch) => Reply::Char(ch),
        Err(error) => Reply::Refused(error),
    }
}

/// Drops each character that equals `unwanted`.
fn retain_not<const N: usize>(text: &mut ArrayString<N>, unwanted: char)
    ensures { text.new.text ≡ without unwanted text.old.text }
{
    text.retain(|ch| ch != unwanted);
}

/// The reply to `split_off`.
fn reply_of_split_off_result<const N: usize>(outcome: Result<ArrayString<N>, Error>) -> Reply<N>
    ensures { view_of_reply result ≡ reply_of_result Text (string_result_as_text outcome.entry) }
{
    match outcome {
        Ok(text) => Reply::Text(text),
        Err(error) => Reply::Refused(error),
    }
}

/// The reply to `Drain` and `DrainThrough`: the text that the call `drain` removed, or its refusal.
fn reply_of_drain_result<const N: usize>(outcome: Result<Drain<N>, Error>) -> Reply<N>
    ensures { view_of_reply result ≡ reply_of_result Text (drain_result_as_text outcome.entry) }
{
    match outcome {
        Ok(removed) => {
            let left = removed.as_str();
            Reply::Text(ArrayString::from_str_unchecked(left))
        }
        Err(error) => Reply::Refused(error),
    }
}

/// The reply to `DrainBack`: the text that the call `drain` removed, from the last character to the first, or its
/// refusal.
fn reply_of_drain_back_result<const N: usize>(outcome: Result<Drain<N>, Error>) -> Reply<N>
    ensures { view_of_reply result
        ≡ reply_of_result (λ left. Text (reverse left)) (drain_result_as_text outcome.entry) }
{
    match outcome {
        Ok(removed) => Reply::Text(reversed_text(removed)),
        Err(error) => Reply::Refused(error),
    }
}

/// The characters that are left, from the last to the first.
fn reversed_text<const N: usize>(mut removed: Drain<N>) -> ArrayString<N>
    ensures { result.text ≡ reverse removed.entry.left }
{
    drain_text_fits(&removed);
    let mut text = ArrayString::new();
    while let Some(ch) = removed.next_back() {
        text.push_unchecked(ch);
    }
    text
}

/// Replies with the text from `start` to `end`, or with `NoText` if the range is reversed or an end is not a
/// boundary.
fn get_and_reply<const N: usize>(text: &ArrayString<N>, start: u8, end: u8) -> Reply<N>
    ensures { view_of_reply result ≡ text_reply (checked_part text.now.text start end) }
{
    text_fits(text);
    match text.get(start..end) {
        Some(found) => Reply::Text(ArrayString::from_str_unchecked(found)),
        None => Reply::NoText,
    }
}
