//! What is removed from a string: a character at the end or at an index, the text from an index on, all of
//! it. The private calls remove a part, a front or an end of the text.
ghost use Rattle.std.specs.Prelude.{◌≡◌, ◌+◌, ◌-◌, ◌^◌, ◌<◌, ◌≤◌, min, Ok, OnErr, IfOk, IfSome, IsTrue, slice_index, drop};
ghost use Rattle.arraystring_base.specs.Text.{size, width, front, back, boundary};
ghost use Rattle.arraystring_core.specs.Splice.{RemovesPartCountingMoves};
ghost use Rattle.arraystring_core.specs.Edits.{Makes, popping, map_err_from_utf8, string_result_as_text, truncation, removal, clearing, split};

use crate::ArrayString;
use crate::laws::text_fits;
use arraystring_base::error::{Error, Utf8};
use arraystring_base::leaf::text_from_boundary;
use arraystring_base::utils::{Steps, first_char_and_width, last_char_with_start};

impl<const N: usize> ArrayString<N> {
    /// Shortens the text to its first `size` bytes. Nothing changes if it has no more.
    ///
    /// # Errors
    ///
    /// Returns `Err(Utf8)` if the index `size` is inside a character. The text is then unchanged.
    ///
    /// # Examples
    ///
    /// ```
    /// let mut string = ArrayString::<4>::from("aé");
    /// assert_eq!(string.truncate(9), Ok(())); // it has no more
    /// assert_eq!(string.truncate(2), Err(Utf8)); // inside `é`
    /// assert_eq!(string.as_str(), "aé");
    /// assert_eq!(string.truncate(1), Ok(()));
    /// assert_eq!(string.as_str(), "a");
    /// ```
    #[inline]
    pub fn truncate(&mut self, size: u8) -> Result<(), Utf8>
        ensures { Makes (truncation self.old.text size)
            self.old.text (map_err_from_utf8 result) self.new.text }
    {
        if size >= self.len() {
            return Ok(());
        }
        if !self.is_boundary(size as usize) {
            return Err(Utf8);
        }
        self.set_len(size);
        Ok(())
    }

    /// Removes the last character and returns it. Returns `None` if the text is empty.
    ///
    /// # Examples
    ///
    /// ```
    /// let mut string = ArrayString::<4>::from("aé");
    /// assert_eq!((string.pop(), string.pop(), string.pop()), (Some('é'), Some('a'), None));
    /// ```
    #[inline]
    pub fn pop(&mut self) -> Option<char>
        ensures { Makes (popping self.old.text) self.old.text (Ok result) self.new.text }
    {
        self.pop_counted(&mut Steps::new())
    }

    /// Pops as `pop` does, and counts in `steps` the bytes that it looks at: at most four, and at
    /// least one if there is a character. It moves no byte.
    ///
    /// # Precondition
    ///
    /// Both counts of `steps` must be at most 2^63.
    ///
    /// # Examples
    ///
    /// ```
    /// let mut string = ArrayString::<4>::from("aé");
    /// let mut steps = Steps::new();
    /// assert_eq!(string.pop_counted(&mut steps), Some('é'));
    /// assert!((1..=4).contains(&steps.looked()) && steps.moved() == 0);
    /// ```
    #[inline]
    pub fn pop_counted(&mut self, steps: &mut Steps) -> Option<char>
        requires looks { steps.old.looked ≤ 2 ^ 63 }
        requires moves { steps.old.moved ≤ 2 ^ 63 }
        ensures edit { Makes (popping self.old.text)
            self.old.text (Ok result) self.new.text }
        ensures looked { steps.new.looked ≤ steps.old.looked + 4 }
        ensures least { IfSome result (λ _. steps.old.looked < steps.new.looked) }
        ensures counted { steps.old.looked ≤ steps.new.looked }
        ensures moved { steps.new.moved ≡ steps.old.moved }
    {
        let (start, ch) = last_char_with_start(self.as_str(), steps)?;
        self.set_len(start as u8);
        Some(ch)
    }

    /// Removes the character that begins at the byte index `index` and returns it.
    ///
    /// # Errors
    ///
    /// The first of these whose condition holds is returned, and the text is then unchanged:
    ///
    /// - `Err(Error::OutOfBounds)` if the index is not below the length;
    /// - `Err(Error::Utf8)` if the index is inside a character.
    ///
    /// # Examples
    ///
    /// ```
    /// let mut string = ArrayString::<8>::from("aéb");
    /// assert_eq!(string.remove(0), Ok('a'));
    /// assert_eq!(string.remove(1), Err(Error::Utf8)); // inside `é`
    /// assert_eq!(string.remove(3), Err(Error::OutOfBounds)); // at the end
    /// assert_eq!(string.as_str(), "éb");
    /// ```
    #[inline(always)]
    pub fn remove(&mut self, index: u8) -> Result<char, Error>
        ensures { Makes (removal self.old.text index) self.old.text result self.new.text }
    {
        self.remove_counted(index, &mut Steps::new())
    }

    /// Removes as `remove` does, and counts in `steps` the bytes that it moves.
    ///
    /// The text has a part before the removed character and a part after it. The call moves at least
    /// as many bytes as the shorter of the two has, and at most as many as the part after has. At
    /// index 0, or if it is refused, it moves none.
    ///
    /// # Errors
    ///
    /// Returns the errors of `remove`, in the same order.
    ///
    /// # Precondition
    ///
    /// Both counts of `steps` must be at most 2^63.
    ///
    /// # Examples
    ///
    /// ```
    /// let mut string = ArrayString::<8>::from("abcd");
    /// let mut steps = Steps::new();
    /// assert_eq!(string.remove_counted(2, &mut steps), Ok('c'));
    /// assert_eq!((string.as_str(), steps.moved()), ("abd", 1)); // `d` moved
    /// ```
    #[inline(always)]
    pub fn remove_counted(&mut self, index: u8, steps: &mut Steps) -> Result<char, Error>
        requires looks { steps.old.looked ≤ 2 ^ 63 }
        requires moves { steps.old.moved ≤ 2 ^ 63 }
        ensures edit { Makes (removal self.old.text index)
            self.old.text result self.new.text }
        ensures refused { OnErr result (steps.new.moved ≡ steps.old.moved) }
        ensures free { index ≡ 0 → steps.new.moved ≡ steps.old.moved }
        ensures tail_alone { IfOk result
            (λ ch. steps.new.moved ≤ steps.old.moved + (size self.old.text - (index + width ch))) }
        ensures least { IfOk result (λ ch.
            steps.old.moved + min index (size self.old.text - (index + width ch))
            ≤ steps.new.moved) }
        ensures counted { steps.old.moved ≤ steps.new.moved }
        ensures looked { steps.new.looked ≡ steps.old.looked }
    {
        self.check_removal(index)?;
        let start = index as usize;
        let (ch, width) = self.char_and_width_at(start);
        self.remove_range(start, start + width, steps);
        Ok(ch)
    }

    /// Splits the text at the byte index `at`, which may be the length. Keeps the part before it
    /// and returns the part from it on.
    ///
    /// # Errors
    ///
    /// The first of these whose condition holds is returned, and the text is then unchanged:
    ///
    /// - `Err(Error::OutOfBounds)` if `at` is past the text;
    /// - `Err(Error::Utf8)` if `at` is inside a character.
    ///
    /// # Examples
    ///
    /// ```
    /// let mut string = ArrayString::<8>::from("aéb");
    /// assert_eq!(string.split_off(2), Err(Error::Utf8)); // inside `é`
    /// assert_eq!(string.split_off(3).unwrap().as_str(), "b");
    /// assert_eq!(string.as_str(), "aé");
    /// ```
    #[inline]
    pub fn split_off(&mut self, at: u8) -> Result<Self, Error>
        ensures { Makes (split self.old.text at)
            self.old.text (string_result_as_text result) self.new.text }
    {
        self.check_bounds_and_boundary(at)?;
        let rest = Self::from_str_unchecked(text_from_boundary(self.as_str(), at as usize));
        self.set_len(at);
        Ok(rest)
    }

    /// Removes all characters.
    #[inline]
    pub fn clear(&mut self)
        ensures { Makes clearing self.old.text (Ok result) self.new.text }
    {
        self.set_len(0);
    }

    /// Removes the text between two boundaries, without a move if it begins at index 0.
    #[inline]
    pub(super) fn remove_range(&mut self, start: usize, end: usize, steps: &mut Steps)
        requires order { start ≤ end }
        requires start { IsTrue (boundary self.old.text start) }
        requires end { IsTrue (boundary self.old.text end) }
        requires countable { steps.old.moved ≤ 2 ^ 63 }
        ensures { RemovesPartCountingMoves self.old.text start end self.new.text
            steps.old steps.new }
    {
        if start == 0 {
            return self.drop_front(end);
        }
        text_fits(self); // gives the prover that the text fits
        self.splice(start, end, "", steps);
    }

    /// Drops the part before a boundary, without a move.
    #[inline]
    pub(super) fn drop_front(&mut self, end: usize)
        requires { IsTrue (boundary self.old.text end) }
        ensures { self.new.text ≡ back self.old.text end }
    {
        self.start = (self.start as usize + end) as u8;
        self.size = (self.size as usize - end) as u8;
    }

    /// Shortens the text to the part before a boundary.
    #[inline]
    pub(super) fn set_len(&mut self, size: u8)
        requires { IsTrue (boundary self.old.text size) }
        ensures { self.new.text ≡ front self.old.text size }
    {
        self.size = size;
    }

    /// The character that begins at a boundary before the end, and how many bytes it takes.
    #[inline]
    fn char_and_width_at(&self, at: usize) -> (char, usize)
        requires boundary { IsTrue (boundary self.now.text at) }
        requires before_end { at < size self.now.text }
        ensures first { result.0 ≡ slice_index (back self.now.text at) 0 }
        ensures width { result.1 ≡ width result.0 }
        ensures next { IsTrue (boundary self.now.text (at + width result.0)) }
        ensures rest { back self.now.text (at + width result.0) ≡ drop 1 (back self.now.text at) }
    {
        first_char_and_width(text_from_boundary(self.as_str(), at))
    }
}
