//! Texts and characters that are inserted at an index.
ghost use Rattle.std.specs.Prelude.{◌≡◌, ◌≢◌, ◌+◌, ◌-◌, ◌^◌, ◌≤◌, min, [], ◌∷◌, OnOk, OnErr, chars};
ghost use Rattle.arraystring_base.specs.Text.{size, cap};
ghost use Rattle.arraystring_core.specs.Edits.{Makes, insertion, insertion_of_cut};

use crate::ArrayString;
use arraystring_base::error::Error;
use arraystring_base::utils::{Steps, truncate_str};

impl<const N: usize> ArrayString<N> {
    /// Inserts `ch` at the byte index `index`.
    ///
    /// # Errors
    ///
    /// The first of these whose condition holds is returned, and the text is then unchanged:
    ///
    /// - `Err(Error::OutOfBounds)` if the index is past the text;
    /// - `Err(Error::OutOfBounds)` if `ch` does not fit;
    /// - `Err(Error::Utf8)` if the index is inside a character.
    ///
    /// # Examples
    ///
    /// ```
    /// let mut string = ArrayString::<4>::from("é");
    /// assert_eq!(string.try_insert(2, 'b'), Ok(()));
    /// assert_eq!(string.as_str(), "éb");
    /// assert_eq!(string.try_insert(9, 'c'), Err(Error::OutOfBounds)); // past the text
    /// assert_eq!(string.try_insert(0, 'é'), Err(Error::OutOfBounds)); // one byte is left
    /// assert_eq!(string.try_insert(1, 'c'), Err(Error::Utf8)); // inside `é`
    /// ```
    #[inline]
    pub fn try_insert(&mut self, index: u8, ch: char) -> Result<(), Error>
        ensures { Makes (insertion self.old.text index (ch ∷ []) (cap N))
            self.old.text result self.new.text }
    {
        self.check_insertion(index, ch.len_utf8())?;
        self.insert_char_at_boundary(index as usize, ch);
        Ok(())
    }

    /// Inserts `string` at the byte index `index`.
    ///
    /// # Errors
    ///
    /// The first of these whose condition holds is returned, and the text is then unchanged:
    ///
    /// - `Err(Error::OutOfBounds)` if the index is past the text;
    /// - `Err(Error::OutOfBounds)` if not all of `string` fits;
    /// - `Err(Error::Utf8)` if the index is inside a character.
    ///
    /// # Examples
    ///
    /// ```
    /// let mut string = ArrayString::<8>::from("é-");
    /// assert_eq!(string.try_insert_str(2, "abc"), Ok(()));
    /// assert_eq!(string.as_str(), "éabc-");
    /// assert_eq!(string.try_insert_str(0, "def"), Err(Error::OutOfBounds)); // two bytes are left
    /// assert_eq!(string.try_insert_str(1, "d"), Err(Error::Utf8)); // inside `é`
    /// ```
    #[inline]
    pub fn try_insert_str(&mut self, index: u8, string: &str) -> Result<(), Error>
        ensures { Makes (insertion self.old.text index (chars string.now) (cap N))
            self.old.text result self.new.text }
    {
        self.try_insert_str_counted(index, string, &mut Steps::new())
    }

    /// Inserts as `try_insert_str` does, and counts in `steps` the bytes that it moves.
    ///
    /// It moves at most as many bytes as the text had. If at least one character is inserted, it
    /// moves at least as many bytes as the shorter of two parts has: the part before the index and
    /// the part after it. If it is refused, it moves none.
    ///
    /// # Errors
    ///
    /// Returns the errors of `try_insert_str`, in the same order.
    ///
    /// # Precondition
    ///
    /// Both counts of `steps` must be at most 2^63.
    ///
    /// # Examples
    ///
    /// ```
    /// let mut string = ArrayString::<8>::from("abcd");
    /// let mut steps = Steps::new();
    /// assert_eq!(string.try_insert_str_counted(3, "é", &mut steps), Ok(()));
    /// assert_eq!(string.as_str(), "abcéd");
    /// assert!((1..=4).contains(&steps.moved()));
    /// ```
    #[inline]
    pub fn try_insert_str_counted(
        &mut self,
        index: u8,
        string: &str,
        steps: &mut Steps,
    ) -> Result<(), Error>
        requires looks { steps.old.looked ≤ 2 ^ 63 }
        requires moves { steps.old.moved ≤ 2 ^ 63 }
        ensures edit { Makes (insertion self.old.text index (chars string.now) (cap N))
            self.old.text result self.new.text }
        ensures refused { OnErr result (steps.new.moved ≡ steps.old.moved) }
        ensures most { steps.new.moved ≤ steps.old.moved + size self.old.text }
        ensures least { OnOk result (chars string.now ≢ []
            → steps.old.moved + min index (size self.old.text - index) ≤ steps.new.moved) }
        ensures counted { steps.old.moved ≤ steps.new.moved }
        ensures looked { steps.new.looked ≡ steps.old.looked }
    {
        self.check_insertion(index, string.len())?;
        let at = index as usize;
        self.splice(at, at, string, steps);
        Ok(())
    }

    /// Inserts at the byte index `index` the longest prefix of whole characters of `string` that
    /// fits.
    ///
    /// # Errors
    ///
    /// The first of these whose condition holds is returned, and the text is then unchanged:
    ///
    /// - `Err(Error::OutOfBounds)` if the index is past the text;
    /// - `Err(Error::Utf8)` if the index is inside a character.
    ///
    /// # Examples
    ///
    /// ```
    /// let mut string = ArrayString::<4>::from("abc");
    /// assert_eq!(string.insert_str(1, "xyz"), Ok(())); // there is room for one byte
    /// assert_eq!(string.as_str(), "axbc");
    /// assert_eq!(string.insert_str(9, "z"), Err(Error::OutOfBounds)); // past the text
    /// ```
    #[inline]
    pub fn insert_str(&mut self, index: u8, string: &str) -> Result<(), Error>
        ensures { Makes (insertion_of_cut self.old.text index (chars string.now) (cap N))
            self.old.text result self.new.text }
    {
        self.check_bounds_and_boundary(index)?;
        let room = Self::capacity() - self.len();
        let at = index as usize;
        self.splice(at, at, truncate_str(string, room), &mut Steps::new());
        Ok(())
    }
}
