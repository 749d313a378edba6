//! The part of a text in a range of bytes, taken out as a `Drain`.
ghost use Rattle.std.specs.Prelude.{◌≡◌, ◌≢◌, ◌+◌, ◌-◌, ◌^◌, ◌≤◌, min, IsTrue, OnOk, OnErr};
ghost use Rattle.arraystring_base.specs.Text.{size, boundary};
ghost use Rattle.arraystring_core.specs.RangeEnds.{HoldsOfReturnedBounds, saturated_start, saturated_end};
ghost use Rattle.arraystring_core.specs.Drained.{drain_result_as_text};
ghost use Rattle.arraystring_core.specs.Splice.{RemovesPartCountingMoves};
ghost use Rattle.arraystring_core.specs.Edits.{Makes, draining};

use crate::range_ends::saturating_ends;
use crate::{ArrayString, Drain};
use arraystring_base::error::Error;
use arraystring_base::utils::Steps;
use std::ops::RangeBounds;

impl<const N: usize> ArrayString<N> {
    /// Removes the part in the range and returns its characters as a `Drain`. The part is removed
    /// at once, whether or not the `Drain` is used. An excluded start and an included end count as
    /// the next index, but as 255 at most: `..=2` ends at 3, and `..=255` ends at 255.
    ///
    /// # Errors
    ///
    /// The first of these whose condition holds is returned, and the text is then unchanged:
    ///
    /// - `Err(Error::OutOfBounds)` if the range ends before it starts;
    /// - `Err(Error::OutOfBounds)` if the range ends past the text;
    /// - `Err(Error::Utf8)` if the start of the range is inside a character;
    /// - `Err(Error::Utf8)` if the end of the range is inside a character.
    ///
    /// # Examples
    ///
    /// ```
    /// let mut string = ArrayString::<8>::from("abcdé");
    /// assert_eq!(string.drain(1..=2).unwrap().as_str(), "bc");
    /// assert_eq!(string.as_str(), "adé");
    /// assert_eq!(string.drain(2..9), Err(Error::OutOfBounds)); // past the text
    /// assert_eq!(string.drain(..3), Err(Error::Utf8)); // inside `é`
    /// ```
    #[inline]
    pub fn drain<R: RangeBounds<u8> + Drop>(&mut self, range: R) -> Result<Drain<N>, Error>
        ensures { HoldsOfReturnedBounds R.has_bounds R.start_bound R.end_bound range (λ start end.
            let t = self.old.text in
            Makes (draining t (saturated_start start) (saturated_end end (size t)))
            t (drain_result_as_text result) self.new.text) }
    {
        self.drain_counted(range, &mut Steps::new())
    }

    /// Drains as `drain` does, and counts in `steps` the bytes that it moves.
    ///
    /// It moves at most as many bytes as the part after the range has. If the range is not empty, it
    /// moves at least as many as the shorter of two parts has: the part before the range and the part
    /// after it. If the range begins at index 0, or if the call is refused, it moves none.
    ///
    /// # Errors
    ///
    /// Returns the errors of `drain`, in the same order.
    ///
    /// # Precondition
    ///
    /// Both counts of `steps` must be at most 2^63.
    ///
    /// # Examples
    ///
    /// ```
    /// let mut string = ArrayString::<8>::from("abcdef");
    /// let mut steps = Steps::new();
    /// assert!(string.drain_counted(..2, &mut steps).is_ok());
    /// assert_eq!((string.as_str(), steps.moved()), ("cdef", 0)); // nothing moves at the start
    /// assert!(string.drain_counted(1..2, &mut steps).is_ok());
    /// assert!(string.as_str() == "cef" && (1..=2).contains(&steps.moved()));
    /// ```
    #[inline(always)]
    pub fn drain_counted<R: RangeBounds<u8> + Drop>(
        &mut self,
        range: R,
        steps: &mut Steps,
    ) -> Result<Drain<N>, Error>
        requires looks { steps.old.looked ≤ 2 ^ 63 }
        requires moves { steps.old.moved ≤ 2 ^ 63 }
        // This clause says which edit is made, and bounds how many bytes move: at most those after the range, and
        // none if the range begins at 0. If something is removed, at least as many move as lie before the range, or
        // as lie after it, whichever are fewer.
        ensures edit { HoldsOfReturnedBounds
            R.has_bounds R.start_bound R.end_bound range (λ start end.
            let t = self.old.text in
            let from = saturated_start start in let to = saturated_end end (size t) in
            Makes (draining t from to) t (drain_result_as_text result) self.new.text
            × (from ≡ 0 → steps.new.moved ≡ steps.old.moved)
            × (steps.new.moved ≤ steps.old.moved + (size t - to))
            × OnOk result
            (from ≢ to → steps.old.moved + min from (size t - to) ≤ steps.new.moved)) }
        ensures refused { OnErr result (steps.new.moved ≡ steps.old.moved) }
        ensures counted { steps.old.moved ≤ steps.new.moved }
        ensures looked { steps.new.looked ≡ steps.old.looked }
    {
        let (from, to) = saturating_ends(range, self.len());
        self.check_part(from, to)?;
        let removed = Drain::new(self.array, self.start + from, to - from);
        self.remove_drained(from as usize, to as usize, steps);
        Ok(removed)
    }

    /// Removes as `remove_range` does. In an array of more than 32 bytes, and if the range does not begin at 0, it
    /// calls a function that is never inlined, because the code that moves bytes is long there. Then the rest of
    /// `drain` is so short that the compiler inlines it, and a caller copies the array of the `Drain` once or twice
    /// less.
    #[inline]
    fn remove_drained(&mut self, start: usize, end: usize, steps: &mut Steps)
        requires order { start ≤ end }
        requires start { IsTrue (boundary self.old.text start) }
        requires end { IsTrue (boundary self.old.text end) }
        requires countable { steps.old.moved ≤ 2 ^ 63 }
        ensures { RemovesPartCountingMoves self.old.text start end self.new.text
            steps.old steps.new }
    {
        if N <= 32 || start == 0 {
            return self.remove_range(start, end, steps);
        }
        self.remove_out_of_line(start, end, steps);
    }

    /// Removes as `remove_range` does, for `remove_drained`. It is never inlined, so a program has its code
    /// once for each capacity.
    #[inline(never)]
    fn remove_out_of_line(&mut self, start: usize, end: usize, steps: &mut Steps)
        requires order { start ≤ end }
        requires start { IsTrue (boundary self.old.text start) }
        requires end { IsTrue (boundary self.old.text end) }
        requires countable { steps.old.moved ≤ 2 ^ 63 }
        ensures { RemovesPartCountingMoves self.old.text start end self.new.text
            steps.old steps.new }
    {
        self.remove_range(start, end, steps);
    }
}
