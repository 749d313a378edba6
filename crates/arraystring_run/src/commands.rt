//! Commands, and the replies to them.
use arraystring::ArrayString;
use arraystring::error::Error;

/// One edit of a text, or one question about it. Sizes and indices count bytes of UTF-8.
///
/// The error of a refusal is `OutOfBounds` for an index past the text (in `Remove` also at its end), for a
/// reversed range, or for a result that does not fit, and `Utf8` for an index inside a character. Each command
/// below lists those of these reasons that it has, in order. The first that holds decides, and the text is then
/// unchanged.
///
/// The reply to a refused command is `Refused`. The other replies are:
///
/// - `Char` or `NoChar` to `Pop`, and `Char` to `Remove`;
/// - `Text` to `SplitOff`, `AsStr` and the three drains, and `Text` or `NoText` to `Get`;
/// - `Number` to `Len` and `Capacity`;
/// - `Done` to all others.
#[derive(Clone, Copy)]
pub enum Command<'a> {
    /// Appends a character. Refused if it does not fit.
    TryPush(char),
    /// Appends a text. Refused if not all of it fits.
    TryPushStr(&'a str),
    /// Appends the longest prefix of whole characters of a text that fits.
    PushStr(&'a str),
    /// Removes the last character.
    Pop,
    /// Keeps the text before an index, and all of it if the index is past the text. Refused if the index
    /// is inside a character.
    Truncate(u8),
    /// Removes all white space at both ends, as `ArrayString::trim` does.
    Trim,
    /// Removes the character at an index. Refused, in this order, if the index is not below the
    /// length, or if the index is inside a character.
    Remove(u8),
    /// Removes each character that equals the given one.
    RetainNot(char),
    /// Inserts a character at an index. Refused, in this order, if the index is past the text, if
    /// the character does not fit, or if the index is inside a character.
    TryInsert(u8, char),
    /// Inserts a text at an index. Refused as `TryInsert` is.
    TryInsertStr(u8, &'a str),
    /// Inserts at an index the longest prefix of whole characters of a text that fits. Refused, in
    /// this order, if the index is past the text, or if the index is inside a character.
    InsertStr(u8, &'a str),
    /// Removes the text from an index on. Refused, in this order, if the index is past the text, or if
    /// the index is inside a character.
    SplitOff(u8),
    /// Empties the text.
    Clear,
    /// Removes the text from `start` to `end`. Refused, in this order, if the range is reversed, if its
    /// end is past the text, if its start is inside a character, or if its end is inside a character.
    Drain { start: u8, end: u8 },
    /// Removes the text from `start` through the byte at `last`. It does what `Drain` does with the end
    /// `last + 1`, or 255 if that is less.
    DrainThrough { start: u8, last: u8 },
    /// Removes the text from `start` to `end`, as `Drain` does. The reply has its characters from the last
    /// to the first.
    DrainBack { start: u8, end: u8 },
    /// Replaces the text from `start` to `end`. Refused, in this order, if the range is reversed, if its
    /// end is past the text, if the result does not fit, if its start is inside a character, or if its end
    /// is inside a character.
    ReplaceRange { start: u8, end: u8, given: &'a str },
    /// Changes a..z to A..Z.
    Upper,
    /// Changes A..Z to a..z.
    Lower,
    /// Replies with the text from `start` to `end`, or with `NoText` if the range is reversed or an end is not
    /// a boundary.
    Get { start: u8, end: u8 },
    /// Replies with the size of the text.
    Len,
    /// Replies with the capacity in bytes.
    Capacity,
    /// Replies with the text.
    AsStr,
}

/// The reply to a command.
#[derive(Clone, Copy, PartialEq, Eq, Debug)]
pub enum Reply<const N: usize> {
    /// The edit was made.
    Done,
    /// The character that was removed.
    Char(char),
    /// There was no character to remove.
    NoChar,
    /// A text.
    Text(ArrayString<N>),
    /// There is no such part of the text: the range is reversed, or an end is not a boundary.
    NoText,
    /// A size in bytes of UTF-8.
    Number(u8),
    /// The edit was refused, and the text is as it was.
    Refused(Error),
}
