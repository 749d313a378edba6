//! Appends: of characters, of texts, and of the items of an iterator, whose loops are in `appended_items`.
ghost use Rattle.std.specs.Prelude.{◌-◌, Ok, [], ◌∷◌, chars, ℕ, List};
ghost use Rattle.arraystring_base.specs.Text.{size, cap};
ghost use Rattle.arraystring_core.specs.Edits.{Makes, map_err_from_out_of_bounds, addition, addition_of_cut};
ghost use Rattle.std.specs.Borrow.{Bor};
ghost use Rattle.std.specs.Iterator.{IsFiniteIterable};
ghost use Rattle.arraystring_core.specs.Taken.{Takes, Gives, joined_texts, joined_pieces, piece_text};

use crate::ArrayString;
use arraystring_base::error::OutOfBounds;
use arraystring_base::utils::{encode, truncate_str, write_by_call, write_over};

impl<const N: usize> ArrayString<N> {
    /// Appends `ch`.
    ///
    /// # Errors
    ///
    /// Returns `Err(OutOfBounds)` if `ch` does not fit. The text is then unchanged.
    ///
    /// # Examples
    ///
    /// ```
    /// let mut string = ArrayString::<4>::from("ab");
    /// assert_eq!(string.try_push('c'), Ok(()));
    /// assert_eq!(string.try_push('é'), Err(OutOfBounds)); // one byte is left, and `é` takes two
    /// assert_eq!(string.as_str(), "abc");
    /// ```
    #[inline(always)]
    pub fn try_push(&mut self, ch: char) -> Result<(), OutOfBounds>
        ensures { Makes (addition self.old.text (ch ∷ []) (cap N))
            self.old.text (map_err_from_out_of_bounds result) self.new.text }
    {
        let end = self.end();
        if Self::has_room_for_char(end, ch) {
            // ASCII has a sum of its own, because one sum for all widths would give the code of a loop of pushes more
            // instructions.
            if ch.is_ascii() {
                self.size += 1;
                encode(ch, &mut self.array, end);
            } else {
                self.size += encode(ch, &mut self.array, end) as u8;
            }
            return Ok(());
        }
        let (start, size) = (self.start as usize, self.size as usize);
        if !Self::has_room_for_char(size, ch) {
            return Err(OutOfBounds);
        }
        let size = Self::compact_and_push_char(&mut self.array, ch, start, size);
        self.start = 0;
        self.size = size as u8;
        Ok(())
    }

    /// Appends `string`.
    ///
    /// # Errors
    ///
    /// Returns `Err(OutOfBounds)` if not all of `string` fits. The text is then unchanged.
    ///
    /// # Examples
    ///
    /// ```
    /// let mut string = ArrayString::<4>::from("ab");
    /// assert_eq!(string.try_push_str("c"), Ok(()));
    /// assert_eq!(string.try_push_str("de"), Err(OutOfBounds));
    /// assert_eq!(string.as_str(), "abc");
    /// ```
    #[inline]
    pub fn try_push_str(&mut self, string: &str) -> Result<(), OutOfBounds>
        ensures { Makes (addition self.old.text (chars string.now) (cap N))
            self.old.text (map_err_from_out_of_bounds result) self.new.text }
    {
        let end = self.end();
        if end + string.len() <= Self::capacity() as usize {
            self.size += string.len() as u8;
            write_over(&mut self.array, end, string.as_bytes());
            return Ok(());
        }
        if self.size as usize + string.len() > Self::capacity() as usize {
            return Err(OutOfBounds);
        }
        self.compact_and_push_str(string);
        Ok(())
    }

    /// Appends the longest prefix of whole characters of `string` that fits.
    ///
    /// # Examples
    ///
    /// ```
    /// let mut string = ArrayString::<4>::from("abc");
    /// string.push_str("dé");
    /// assert_eq!(string.as_str(), "abcd"); // no room for `é`
    /// ```
    #[inline]
    pub fn push_str(&mut self, string: &str)
        ensures { Makes (addition_of_cut self.old.text (chars string.now) (cap N))
            self.old.text (Ok result) self.new.text }
    {
        if self.start > 0 {
            return self.push_str_at_offset(string);
        }
        let (end, given) = (self.end(), string.as_bytes());
        let room = Self::capacity() - self.len();
        if given.len() <= room as usize {
            self.size += given.len() as u8;
            write_over(&mut self.array, end, given);
            return;
        }
        let part = truncate_str(string, room);
        self.size += part.len() as u8;
        write_by_call(&mut self.array, end, part.as_bytes());
    }

    /// Appends the longest prefix of the characters that fits.
    ///
    /// # Precondition
    ///
    /// The iterator must end, and until then the precondition of its `next` must hold.
    ///
    /// # Examples
    ///
    /// ```
    /// let mut string = ArrayString::<4>::from("ab");
    /// string.extend_chars("cdef".chars());
    /// assert_eq!(string.as_str(), "abcd");
    /// ```
    #[inline]
    pub fn extend_chars<I: IntoIterator<Item = char> + Drop>(&mut self, characters: I)
        requires { IsFiniteIterable I.into_iter_gives I.IntoIter.can_next
            I.IntoIter.remaining characters }
        ensures taken { (taken : List ℕ)
            × Takes I.into_iter_gives I.IntoIter.next_gives (λ cs. cs) characters
            (cap N - size self.old.text) taken
            × Makes (addition_of_cut self.old.text taken (cap N))
            self.old.text (Ok result) self.new.text }
        ensures whole { (all : List ℕ)
            → Gives I.into_iter_gives I.IntoIter.next_gives (λ c. c) characters all
            → Makes (addition_of_cut self.old.text all (cap N))
            self.old.text (Ok result) self.new.text }
    {
        let _ = self.push_chars_until_full(characters);
    }

    /// Appends the longest prefix of whole characters of the joined pieces that fits.
    ///
    /// # Precondition
    ///
    /// The iterator must end, and until then the precondition of its `next` must hold.
    ///
    /// # Examples
    ///
    /// ```
    /// let mut string = ArrayString::<8>::from("one");
    /// string.extend_strs([" two", " three"]);
    /// assert_eq!(string.as_str(), "one two ");
    /// ```
    #[inline]
    pub fn extend_strs<'a, I: IntoIterator<Item = &'a str> + Drop>(&mut self, pieces: I)
        requires { IsFiniteIterable I.into_iter_gives I.IntoIter.can_next
            I.IntoIter.remaining pieces }
        ensures taken { (taken : List (Bor (List ℕ)))
            × Takes I.into_iter_gives I.IntoIter.next_gives joined_pieces pieces
            (cap N - size self.old.text) taken
            × Makes (addition_of_cut self.old.text (joined_pieces taken) (cap N))
            self.old.text (Ok result) self.new.text }
        ensures whole { (all : List (List ℕ))
            → Gives I.into_iter_gives I.IntoIter.next_gives piece_text pieces all
            → Makes (addition_of_cut self.old.text (joined_texts all) (cap N))
            self.old.text (Ok result) self.new.text }
    {
        let _ = self.push_strs_until_full(pieces);
    }
}
