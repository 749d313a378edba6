//! The part of a text in a range of bytes, borrowed.
ghost use Rattle.std.specs.Prelude.{◌≡◌, ◌≤◌, IsTrue, MatchOption, Some, None, chars};
ghost use Rattle.std.specs.Range.Bound.{start_index, end_index};
ghost use Rattle.arraystring_base.specs.Text.{bytes, size, boundary};
ghost use Rattle.arraystring_core.specs.RangeEnds.{HoldsOfReturnedBounds};
ghost use Rattle.arraystring_core.specs.Edits.{part, checked_part};

use crate::ArrayString;
use crate::range_ends::unsaturated_ends;
use arraystring_base::leaf::{text_before_boundary, text_from_boundary};
use std::ops::RangeBounds;

impl<const N: usize> ArrayString<N> {
    /// Returns the part of the text in the range, borrowed without a copy. An excluded start and
    /// an included end count as the next index: `..=2` ends at 3, and `..=255` ends at 256, which is
    /// past every text.
    ///
    /// # Precondition
    ///
    /// - `has_bounds` must hold of the range. It holds of each range of std, except a
    ///   `RangeInclusive` that was iterated to its end.
    /// - The range must not end before it starts.
    /// - Both ends must be boundaries.
    ///
    /// If `has_bounds` holds, a `get` of the range that returned `Some` proves the rest.
    ///
    /// # Examples
    ///
    /// ```
    /// let string = ArrayString::<4>::from("aéb");
    /// assert_eq!((string.slice(..1), string.slice(1..=2), string.slice(3..)), ("a", "é", "b"));
    /// ```
    #[inline]
    pub fn slice<R: RangeBounds<u8> + Drop>(&self, range: R) -> &str
        requires known { R.has_bounds range }
        requires order { start_index (R.start_bound range)
            ≤ end_index (R.end_bound range) (size self.now.text) }
        requires start { IsTrue (boundary self.now.text (start_index (R.start_bound range))) }
        requires end { IsTrue (boundary self.now.text
            (end_index (R.end_bound range) (size self.now.text))) }
        ensures bytes { let t = self.now.text in
            result.now ≡ bytes (part t (start_index (R.start_bound range))
            (end_index (R.end_bound range) (size t))) }
        ensures chars { let t = self.now.text in
            chars result.now ≡ part t (start_index (R.start_bound range))
            (end_index (R.end_bound range) (size t)) }
    {
        let (start, end) = unsaturated_ends(range, self.len());
        self.slice_unchecked(start, end)
    }

    /// Returns the part of the text in the range, borrowed without a copy. Returns `None` if the
    /// range ends before it starts, or if its start or its end is not a boundary. The ends are
    /// read as in `slice`.
    ///
    /// # Examples
    ///
    /// ```
    /// let string = ArrayString::<4>::from("aéb");
    /// assert_eq!(string.get(1..3), Some("é"));
    /// assert_eq!((string.get(..2), string.get(3..9)), (None, None)); // inside `é`, and past the text
    /// ```
    #[inline]
    pub fn get<R: RangeBounds<u8> + Drop>(&self, range: R) -> Option<&str>
        ensures { HoldsOfReturnedBounds R.has_bounds R.start_bound R.end_bound range (λ start end.
            let found = checked_part self.now.text (start_index start)
            (end_index end (size self.now.text)) in
            MatchOption result (found ≡ None) (λ s. found ≡ Some (chars s.now))) }
    {
        let (start, end) = unsaturated_ends(range, self.len());
        if start > end || !self.is_boundary(start) || !self.is_boundary(end) {
            return None;
        }
        Some(self.slice_unchecked(start, end))
    }

    /// The part between two boundaries, which are not tested here.
    #[inline]
    fn slice_unchecked(&self, start: usize, end: usize) -> &str
        requires order { start ≤ end }
        requires start { IsTrue (boundary self.now.text start) }
        requires end { IsTrue (boundary self.now.text end) }
        ensures bytes { result.now ≡ bytes (part self.now.text start end) }
        ensures chars { chars result.now ≡ part self.now.text start end }
    {
        text_from_boundary(text_before_boundary(self.as_str(), end), start)
    }
}
