//! The part of a text in a range of bytes, replaced by another text.
ghost use Rattle.std.specs.Prelude.{◌≡◌, ◌≢◌, ◌+◌, ◌-◌, ◌^◌, ◌≤◌, min, OnOk, OnErr, chars};
ghost use Rattle.arraystring_base.specs.Text.{cap, size};
ghost use Rattle.arraystring_core.specs.RangeEnds.{HoldsOfReturnedBounds, saturated_start, saturated_end};
ghost use Rattle.arraystring_core.specs.Edits.{Makes, replacement};

use crate::ArrayString;
use crate::range_ends::saturating_ends;
use arraystring_base::error::Error;
use arraystring_base::utils::Steps;
use std::ops::RangeBounds;

impl<const N: usize> ArrayString<N> {
    /// Replaces the part in the range with `with`. The ends are read as in `drain`.
    ///
    /// # Errors
    ///
    /// The first of these whose condition holds is returned, and the text is then unchanged:
    ///
    /// - `Err(Error::OutOfBounds)` if the range ends before it starts;
    /// - `Err(Error::OutOfBounds)` if the range ends past the text;
    /// - `Err(Error::OutOfBounds)` if the text with `with` in it does not fit;
    /// - `Err(Error::Utf8)` if the start of the range is inside a character;
    /// - `Err(Error::Utf8)` if the end of the range is inside a character.
    ///
    /// # Examples
    ///
    /// ```
    /// let mut string = ArrayString::<4>::from("abcd");
    /// assert_eq!(string.replace_range(1..3, "é"), Ok(()));
    /// assert_eq!(string.as_str(), "aéd");
    /// assert_eq!(string.replace_range(.., "abcde"), Err(Error::OutOfBounds)); // five bytes
    /// assert_eq!(string.replace_range(2.., ""), Err(Error::Utf8)); // inside `é`
    /// ```
    #[inline]
    pub fn replace_range<R: RangeBounds<u8> + Drop>(
        &mut self,
        range: R,
        with: &str,
    ) -> Result<(), Error>
        ensures { HoldsOfReturnedBounds R.has_bounds R.start_bound R.end_bound range (λ start end.
            let t = self.old.text in
            Makes (replacement t (saturated_start start) (saturated_end end (size t))
            (chars with.now) (cap N))
            t result self.new.text) }
    {
        self.replace_range_counted(range, with, &mut Steps::new())
    }

    /// Replaces as `replace_range` does, and counts in `steps` the bytes that it moves.
    ///
    /// It moves at most as many bytes as the text had. If `with` is not larger than the range, it
    /// moves at most as many as the part after the range has. If the length changes, it moves at
    /// least as many as the shorter of two parts has: the part before the range and the part after
    /// it. If it is refused, it moves none.
    ///
    /// # Errors
    ///
    /// Returns the errors of `replace_range`, in the same order.
    ///
    /// # Precondition
    ///
    /// Both counts of `steps` must be at most 2^63.
    ///
    /// # Examples
    ///
    /// ```
    /// let mut string = ArrayString::<8>::from("abcd");
    /// let mut steps = Steps::new();
    /// assert_eq!(string.replace_range_counted(1..2, "x", &mut steps), Ok(()));
    /// assert_eq!((string.as_str(), steps.moved()), ("axcd", 0)); // as long as what it replaces
    /// ```
    #[inline]
    pub fn replace_range_counted<R: RangeBounds<u8> + Drop>(
        &mut self,
        range: R,
        with: &str,
        steps: &mut Steps,
    ) -> Result<(), Error>
        requires looks { steps.old.looked ≤ 2 ^ 63 }
        requires moves { steps.old.moved ≤ 2 ^ 63 }
        // This clause says which edit is made, and bounds how many bytes move. If `with` is not larger than the
        // range, at most those after the range move. If the size of the text changes, at least as many move as lie
        // before the range, or as lie after it, whichever are fewer.
        ensures edit { HoldsOfReturnedBounds
            R.has_bounds R.start_bound R.end_bound range (λ start end.
            let t = self.old.text in
            let from = saturated_start start in let to = saturated_end end (size t) in
            let given = chars with.now in
            Makes (replacement t from to given (cap N)) t result self.new.text
            × (size given ≤ to - from → steps.new.moved ≤ steps.old.moved + (size t - to))
            × OnOk result
            (to ≢ from + size given → steps.old.moved + min from (size t - to) ≤ steps.new.moved)) }
        ensures refused { OnErr result (steps.new.moved ≡ steps.old.moved) }
        ensures most { steps.new.moved ≤ steps.old.moved + size self.old.text }
        ensures counted { steps.old.moved ≤ steps.new.moved }
        ensures looked { steps.new.looked ≡ steps.old.looked }
    {
        let (start, end) = saturating_ends(range, self.len());
        self.replace_between(start, end, with, steps)
    }

    /// Replaces the part from `start` to `end`, or refuses it. The ends are numbers here, so that the tests are proved apart
    /// from the reading of a range.
    #[inline]
    fn replace_between(
        &mut self,
        start: u8,
        end: u8,
        with: &str,
        steps: &mut Steps,
    ) -> Result<(), Error>
        requires { steps.old.moved ≤ 2 ^ 63 }
        ensures edit { Makes (replacement self.old.text start end (chars with.now) (cap N))
            self.old.text result self.new.text }
        ensures refused { OnErr result (steps.new.moved ≡ steps.old.moved) }
        ensures tail_alone { size (chars with.now) ≤ end - start
            → steps.new.moved ≤ steps.old.moved + (size self.old.text - end) }
        ensures most { steps.new.moved ≤ steps.old.moved + size self.old.text }
        ensures least { OnOk result (end ≢ start + size (chars with.now)
            → steps.old.moved + min start (size self.old.text - end) ≤ steps.new.moved) }
        ensures counted { steps.old.moved ≤ steps.new.moved }
        ensures looked { steps.new.looked ≡ steps.old.looked }
    {
        self.check_replacement(start, end, with.len())?;
        let (from, to) = (start as usize, end as usize);
        self.splice(from, to, with, steps);
        Ok(())
    }
}
