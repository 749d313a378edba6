//! The command of a line.
ghost use Rattle.std.specs.Prelude.{◌≡◌, ◌≤◌, [], ◌∷◌, ◌++◌, ℕ, List, length, IfSome, IfNone};
ghost use Rattle.arraystring.specs.Text.{utf8, IsScalarValue};
ghost use Rattle.arraystring_run.specs.CommandLines.{word as word_of, arguments, Number, IsLineOf, IsNumber, IsNumberBeforeSpace, HasNoSpace, space};
ghost use Rattle.arraystring_run.specs.declared.commands.Command.{Command};

use crate::Command;
use crate::find::byte_position_or_len;
use std::str;

/// Returns the command of a line of a script. `line` is given without the line feed that ends it, and the
/// command borrows its text from it. Returns `None` if the line is no command: it is not UTF-8, its word is not
/// one of those of CALLING.md, an argument has the wrong form, or there is more or less than the word takes.
pub fn command(line: &[u8]) -> Option<Command<'_>>
    ensures some { IfSome result (λ c. IsLineOf line.now c) }
    ensures none { IfNone result ((c : Command) → IsLineOf line.now c → ⊥) }
{
    command_of_str(str::from_utf8(line).ok()?)
}

/// The command of a line that is known to be UTF-8.
pub(crate) fn command_of_str(text: &str) -> Option<Command<'_>>
    ensures some { IfSome result (λ c. IsLineOf text.now c) }
    ensures none { IfNone result ((c : Command) → IsLineOf text.now c → ⊥) }
{
    match split_at_space(text) {
        Some((word, rest)) => command_with_arguments(word, rest),
        None => command_without_arguments(text),
    }
}

/// What is before the first space, and what is after it.
fn split_at_space(text: &str) -> Option<(&str, &str)>
    ensures some { IfSome result
        (λ parts. (text.now ≡ parts.0.now ++ space ∷ parts.1.now) × HasNoSpace parts.0.now) }
    ensures none { IfNone result (HasNoSpace text.now) }
{
    let end = byte_position_or_len(b' ', text.as_bytes());
    if end == text.len() {
        return None;
    }
    Some((&text[..end], &text[end + 1..]))
}

/// The command of a line that is one word.
fn command_without_arguments(word: &str) -> Option<Command<'static>>
    requires { HasNoSpace word.now }
    ensures some { IfSome result (λ c. IsLineOf word.now c) }
    ensures none { IfNone result ((c : Command) → IsLineOf word.now c → ⊥) }
{
    match word {
        "pop" => Some(Command::Pop),
        "trim" => Some(Command::Trim),
        "clear" => Some(Command::Clear),
        "upper" => Some(Command::Upper),
        "lower" => Some(Command::Lower),
        "len" => Some(Command::Len),
        "capacity" => Some(Command::Capacity),
        "as_str" => Some(Command::AsStr),
        _ => None,
    }
}

/// The command of a line that is `word`, one space and `rest`. This `match` has the words that take one
/// argument. `command_of_number_and_more` has those that take a number and more, and `command_of_range` those
/// that take two numbers alone. One `match` of all words is too much for the check (docs/DECISIONS.md).
fn command_with_arguments<'a>(word: &str, rest: &'a str) -> Option<Command<'a>>
    requires { HasNoSpace word.now }
    ensures some { IfSome result (λ c. IsLineOf (word.now ++ space ∷ rest.now) c) }
    ensures none { IfNone result ((c : Command) → IsLineOf (word.now ++ space ∷ rest.now) c → ⊥) }
{
    match word {
        "try_push" => Some(Command::TryPush(only_char(rest)?)),
        "try_push_str" => Some(Command::TryPushStr(rest)),
        "push_str" => Some(Command::PushStr(rest)),
        "truncate" => Some(Command::Truncate(parse_number(rest)?)),
        "remove" => Some(Command::Remove(parse_number(rest)?)),
        "retain_not" => Some(Command::RetainNot(only_char(rest)?)),
        "split_off" => Some(Command::SplitOff(parse_number(rest)?)),
        _ => command_of_number_and_more(word, rest),
    }
}

/// The command of a word that takes two arguments or more, of which the first is a number. The word is
/// followed by one space and `rest`.
fn command_of_number_and_more<'a>(word: &str, rest: &'a str) -> Option<Command<'a>>
    requires { HasNoSpace word.now }
    ensures some { IfSome result (λ c. IsLineOf (word.now ++ space ∷ rest.now) c) }
    ensures none { IfNone result ((c : Command)
        → 2 ≤ length (arguments c) → IsLineOf (word.now ++ space ∷ rest.now) c → ⊥) }
{
    let (start, rest) = number_before_space(rest)?;
    match word {
        "try_insert" => Some(Command::TryInsert(start, only_char(rest)?)),
        "try_insert_str" => Some(Command::TryInsertStr(start, rest)),
        "insert_str" => Some(Command::InsertStr(start, rest)),
        "replace_range" => {
            let (end, given) = number_before_space(rest)?;
            Some(Command::ReplaceRange { start, end, given })
        }
        _ => command_of_range(word, start, parse_number(rest)?),
    }
}

/// The command of a word that takes the ends of a range and no more.
fn command_of_range(word: &str, start: u8, end: u8) -> Option<Command<'static>>
    ensures some { IfSome result
        (λ c. (word.now ≡ word_of c) × (arguments c ≡ Number start ∷ Number end ∷ [])) }
    ensures none { IfNone result ((c : Command) (m n : ℕ)
        → word.now ≡ word_of c → arguments c ≡ Number m ∷ Number n ∷ [] → ⊥) }
{
    match word {
        "drain" => Some(Command::Drain { start, end }),
        "drain_through" => Some(Command::DrainThrough { start, last: end }),
        "drain_back" => Some(Command::DrainBack { start, end }),
        "get" => Some(Command::Get { start, end }),
        _ => None,
    }
}

/// The number of a text that is one to three ASCII digits, of value at most 255.
fn parse_number(text: &str) -> Option<u8>
    ensures some { IfSome result (λ n. IsNumber text.now n) }
    ensures none { IfNone result ((n : ℕ) → IsNumber text.now n → ⊥) }
{
    // `parse` alone would take a `+` and any number of leading zeros.
    if text.len() > 3 || text.starts_with('+') {
        return None;
    }
    text.parse().ok()
}

/// The number before the first space, and what is after that space.
fn number_before_space(text: &str) -> Option<(u8, &str)>
    ensures some { IfSome result (λ parts. IsNumberBeforeSpace text.now parts.0 parts.1.now) }
    ensures none { IfNone result
        ((n : ℕ) (rest : List ℕ) → IsNumberBeforeSpace text.now n rest → ⊥) }
{
    let (digits, rest) = split_at_space(text)?;
    Some((parse_number(digits)?, rest))
}

/// The character of a text that has exactly one.
fn only_char(text: &str) -> Option<char>
    ensures some { IfSome result (λ c. IsScalarValue c × (text.now ≡ utf8 c)) }
    ensures none { IfNone result ((c : ℕ) → IsScalarValue c → text.now ≡ utf8 c → ⊥) }
{
    let mut chars = text.chars();
    let ch = chars.next()?;
    match chars.next() {
        Some(_) => None,
        None => Some(ch),
    }
}
