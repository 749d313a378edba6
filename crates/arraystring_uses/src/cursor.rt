//! A line with a cursor, which stands at a boundary of its text.
ghost use Rattle.std.specs.Prelude.{◌≡◌, ◌+◌, ◌≤◌, ◌↔◌, ◌++◌, ◌∷◌, [], true, IfErr, IfSome, IsOk, IsSome, MatchOption, IfNone, OnErr, OnOk, chars};
ghost use Rattle.arraystring.specs.Refusals.{OutOfBounds};
ghost use Rattle.arraystring.specs.Text.{back, boundary, bytes, cap, front, size, width};

use arraystring::laws::{chars_next_back_is_last, chars_next_is_first, text_fits};
use arraystring::utils::is_char_boundary;
use arraystring::{ArrayString, Error};

/// A text, and a cursor between two of its characters.
#[derive(Clone, Copy, Drop)]
pub struct Line<const N: usize> {
    text: ArrayString<N>,
    cursor: u8,
    pub ghost at_boundary: { boundary text.text cursor ≡ true },
}

impl<const N: usize> Line<N> {
    /// Sets the cursor at an index, or returns `None` if that is not a boundary.
    pub fn at(text: ArrayString<N>, cursor: u8) -> Option<Self>
        ensures made { IsSome result ↔ (boundary text.entry.text cursor ≡ true) }
        ensures line { IfSome result
            (λ line. (line.text.text ≡ text.entry.text) × (line.cursor ≡ cursor)) }
    {
        is_char_boundary(&text, cursor).ok()?;
        Some(Line { text, cursor })
    }

    /// Returns the whole text.
    pub fn as_str(&self) -> &str
        ensures { result.now ≡ bytes self.now.text.text }
    {
        self.text.as_str()
    }

    /// Returns the text before the cursor.
    #[tactic(auto, using(arraystring::proofs::Rules::cursors))]
    pub fn before(&self) -> &str
        ensures { chars result.now ≡ front self.now.text.text self.now.cursor }
    {
        self.text.slice(0..self.cursor)
    }

    /// Returns the text after the cursor.
    #[tactic(auto, using(arraystring::proofs::Rules::cursors))]
    pub fn after(&self) -> &str
        ensures { chars result.now ≡ back self.now.text.text self.now.cursor }
    {
        self.text.slice(self.cursor..)
    }

    /// Inserts a character, and moves the cursor behind it.
    ///
    /// # Errors
    ///
    /// Returns `Err(Error::OutOfBounds)` if it does not fit. The line is then unchanged.
    #[tactic(auto, using(arraystring::proofs::Rules::cursors))]
    pub fn insert(&mut self, ch: char) -> Result<(), Error>
        ensures before { OnOk result (front self.new.text.text self.new.cursor
            ≡ front self.old.text.text self.old.cursor ++ ch ∷ []) }
        ensures after { OnOk result
            (back self.new.text.text self.new.cursor ≡ back self.old.text.text self.old.cursor) }
        ensures fits { IsOk result ↔ (size self.old.text.text + width ch ≤ cap N) }
        ensures error { IfErr result (λ error. error ≡ OutOfBounds) }
        ensures refused { OnErr result (self.new ≡ self.old) }
    {
        let mut text = self.text;
        text.try_insert(self.cursor, ch)?;
        text_fits(&text);
        let cursor = self.cursor + ch.len_utf8() as u8;
        *self = Line { text, cursor };
        Ok(())
    }

    /// Inserts a text, and moves the cursor behind it.
    ///
    /// # Errors
    ///
    /// Returns `Err(Error::OutOfBounds)` if it does not fit. The line is then unchanged.
    #[tactic(auto, using(arraystring::proofs::Rules::insertions, arraystring::proofs::Rules::sizes))]
    pub fn put(&mut self, piece: &str) -> Result<(), Error>
        ensures before { OnOk result (front self.new.text.text self.new.cursor
            ≡ front self.old.text.text self.old.cursor ++ chars piece.now) }
        ensures after { OnOk result
            (back self.new.text.text self.new.cursor ≡ back self.old.text.text self.old.cursor) }
        ensures fits { IsOk result ↔ (size self.old.text.text + size (chars piece.now) ≤ cap N) }
        ensures error { IfErr result (λ error. error ≡ OutOfBounds) }
        ensures refused { OnErr result (self.new ≡ self.old) }
    {
        let mut text = self.text;
        text.try_insert_str(self.cursor, piece)?;
        text_fits(&text);
        let cursor = self.cursor + piece.len() as u8;
        *self = Line { text, cursor };
        Ok(())
    }

    /// Moves the cursor one character to the left, and returns this character. At the start it stays
    /// there, and `None` is returned.
    #[tactic(auto, using(arraystring::proofs::Rules::cursors))]
    pub fn left(&mut self) -> Option<char>
        ensures text { self.new.text.text ≡ self.old.text.text }
        ensures before { MatchOption result (front self.old.text.text self.old.cursor ≡ [])
            (λ ch. front self.old.text.text self.old.cursor
            ≡ front self.new.text.text self.new.cursor ++ ch ∷ []) }
        ensures after { IfSome result (λ ch. back self.new.text.text self.new.cursor
            ≡ ch ∷ back self.old.text.text self.old.cursor) }
        ensures start { IfNone result (self.new.cursor ≡ self.old.cursor) }
    {
        let before = self.before();
        let last = before.chars().next_back();
        chars_next_back_is_last(before, last);
        match last {
            Some(ch) => {
                self.cursor -= ch.len_utf8() as u8;
                Some(ch)
            }
            None => None,
        }
    }

    /// Moves the cursor one character to the right, and returns this character. At the end it stays
    /// there, and `None` is returned.
    #[tactic(auto, using(arraystring::proofs::Rules::cursors))]
    pub fn right(&mut self) -> Option<char>
        ensures text { self.new.text.text ≡ self.old.text.text }
        ensures after { MatchOption result (back self.old.text.text self.old.cursor ≡ [])
            (λ ch. back self.old.text.text self.old.cursor
            ≡ ch ∷ back self.new.text.text self.new.cursor) }
        ensures before { IfSome result (λ ch. front self.new.text.text self.new.cursor
            ≡ front self.old.text.text self.old.cursor ++ ch ∷ []) }
        ensures end { IfNone result (self.new.cursor ≡ self.old.cursor) }
    {
        let after = self.after();
        let first = after.chars().next();
        chars_next_is_first(after, first);
        match first {
            Some(ch) => {
                text_fits(&self.text);
                self.cursor += ch.len_utf8() as u8;
                Some(ch)
            }
            None => None,
        }
    }

    /// Moves the cursor to the start.
    #[tactic(auto, using(arraystring::proofs::Rules::places))]
    pub fn home(&mut self)
        ensures text { self.new.text.text ≡ self.old.text.text }
        ensures before { front self.new.text.text self.new.cursor ≡ [] }
        ensures after { back self.new.text.text self.new.cursor ≡ self.old.text.text }
    {
        *self = Line {
            text: self.text,
            cursor: 0,
        };
    }

    /// Moves the cursor to the end.
    #[tactic(auto, using(arraystring::proofs::Rules::places))]
    pub fn end(&mut self)
        ensures text { self.new.text.text ≡ self.old.text.text }
        ensures before { front self.new.text.text self.new.cursor ≡ self.old.text.text }
        ensures after { back self.new.text.text self.new.cursor ≡ [] }
    {
        let text = self.text;
        let cursor = text.len();
        *self = Line { text, cursor };
    }

    /// Removes the character after the cursor, and returns it. At the end nothing is removed, and `None` is
    /// returned.
    #[tactic(auto, using(arraystring::proofs::Rules::places))]
    pub fn delete(&mut self) -> Option<char>
        ensures before { front self.new.text.text self.new.cursor
            ≡ front self.old.text.text self.old.cursor }
        ensures after { MatchOption result (back self.old.text.text self.old.cursor ≡ [])
            (λ ch. back self.old.text.text self.old.cursor
            ≡ ch ∷ back self.new.text.text self.new.cursor) }
        ensures end { IfNone result (self.new ≡ self.old) }
    {
        let mut text = self.text;
        match text.remove(self.cursor) {
            Ok(ch) => {
                let cursor = self.cursor;
                *self = Line { text, cursor };
                Some(ch)
            }
            Err(_) => None,
        }
    }

    /// Removes the character before the cursor, and returns it. At the start nothing is removed, and `None`
    /// is returned.
    pub fn backspace(&mut self) -> Option<char>
        ensures before { MatchOption result (front self.old.text.text self.old.cursor ≡ [])
            (λ ch. front self.old.text.text self.old.cursor
            ≡ front self.new.text.text self.new.cursor ++ ch ∷ []) }
        ensures after { IfSome result (λ ch. back self.new.text.text self.new.cursor
            ≡ back self.old.text.text self.old.cursor) }
        ensures start { IfNone result ((self.new.text.text ≡ self.old.text.text)
            × (self.new.cursor ≡ self.old.cursor)) }
    {
        self.left()?;
        self.delete()
    }

    /// Removes what stands after the cursor.
    #[tactic(auto, using(arraystring::proofs::Rules::places))]
    pub fn kill(&mut self)
        ensures before { front self.new.text.text self.new.cursor
            ≡ front self.old.text.text self.old.cursor }
        ensures after { back self.new.text.text self.new.cursor ≡ [] }
    {
        let mut text = self.text;
        let _ = text.truncate(self.cursor);
        let cursor = self.cursor;
        *self = Line { text, cursor };
    }
}
