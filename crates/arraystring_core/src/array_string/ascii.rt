//! The ASCII letters of a string or of a range of it, made upper or lower case.
ghost use Rattle.std.specs.Prelude.{◌≡◌, ◌-◌, ◌≤◌, ◌++◌, Ok, IsTrue, take, drop, map};
ghost use Rattle.std.specs.Char.{to_ascii_uppercase, to_ascii_lowercase};
ghost use Rattle.std.specs.Range.Bound.{start_index, end_index};
ghost use Rattle.arraystring_base.specs.Text.{size, front, back, boundary};
ghost use Rattle.arraystring_core.specs.Edits.{Makes, uppercase, lowercase, part};
ghost use Rattle.arraystring_core.specs.Ascii.{to_case};

use crate::ArrayString;
use crate::range_ends::unsaturated_ends;
use arraystring_base::leaf::{lowercase_between, uppercase_between};
use std::ops::RangeBounds;

/// The case that ASCII letters are put into.
#[derive(Clone, Copy)]
enum Case {
    Upper,
    Lower,
}

impl<const N: usize> ArrayString<N> {
    /// Changes a..z to A..Z. All other characters stay as they are.
    ///
    /// # Examples
    ///
    /// ```
    /// let mut string = ArrayString::<8>::from("a1é");
    /// string.make_ascii_uppercase();
    /// assert_eq!(string.as_str(), "A1é"); // `é` is no ASCII
    /// ```
    #[tactic(auto, using(crate::proofs::AsciiLemmas::whole))]
    #[inline]
    pub fn make_ascii_uppercase(&mut self)
        ensures { Makes (uppercase self.old.text) self.old.text (Ok result) self.new.text }
    {
        self.change_case_of_part(0, self.len() as usize, Case::Upper);
    }

    /// Changes A..Z to a..z. All other characters stay as they are.
    ///
    /// # Examples
    ///
    /// ```
    /// let mut string = ArrayString::<8>::from("A1É");
    /// string.make_ascii_lowercase();
    /// assert_eq!(string.as_str(), "a1É"); // `É` is no ASCII
    /// ```
    #[tactic(auto, using(crate::proofs::AsciiLemmas::whole))]
    #[inline]
    pub fn make_ascii_lowercase(&mut self)
        ensures { Makes (lowercase self.old.text) self.old.text (Ok result) self.new.text }
    {
        self.change_case_of_part(0, self.len() as usize, Case::Lower);
    }

    /// Changes a..z to A..Z in the range. All other characters stay as they are.
    ///
    /// # Precondition
    ///
    /// - `has_bounds` must hold of the range. It holds of each range of std, except a
    ///   `RangeInclusive` that was iterated to its end.
    /// - The range must not end before it starts.
    /// - Both ends, read as in `slice`, must be boundaries.
    ///
    /// # Examples
    ///
    /// ```
    /// let mut string = ArrayString::<8>::from("abc");
    /// string.make_ascii_uppercase_in(..1);
    /// assert_eq!(string.as_str(), "Abc");
    /// ```
    #[inline]
    pub fn make_ascii_uppercase_in<R: RangeBounds<u8> + Drop>(&mut self, range: R)
        requires known { R.has_bounds range }
        requires order { start_index (R.start_bound range)
            ≤ end_index (R.end_bound range) (size self.old.text) }
        requires start { IsTrue (boundary self.old.text (start_index (R.start_bound range))) }
        requires end { IsTrue (boundary self.old.text
            (end_index (R.end_bound range) (size self.old.text))) }
        ensures { let t = self.old.text in
            let start = start_index (R.start_bound range) in
            let end = end_index (R.end_bound range) (size t) in
            self.new.text
            ≡ front t start ++ (map to_ascii_uppercase (part t start end) ++ back t end) }
    {
        let (start, end) = unsaturated_ends(range, self.len());
        self.change_case_of_part(start, end, Case::Upper);
    }

    /// Changes A..Z to a..z in the range. All other characters stay as they are.
    ///
    /// # Precondition
    ///
    /// - `has_bounds` must hold of the range. It holds of each range of std, except a
    ///   `RangeInclusive` that was iterated to its end.
    /// - The range must not end before it starts.
    /// - Both ends, read as in `slice`, must be boundaries.
    ///
    /// # Examples
    ///
    /// ```
    /// let mut string = ArrayString::<8>::from("ABC");
    /// string.make_ascii_lowercase_in(1..);
    /// assert_eq!(string.as_str(), "Abc");
    /// ```
    #[inline]
    pub fn make_ascii_lowercase_in<R: RangeBounds<u8> + Drop>(&mut self, range: R)
        requires known { R.has_bounds range }
        requires order { start_index (R.start_bound range)
            ≤ end_index (R.end_bound range) (size self.old.text) }
        requires start { IsTrue (boundary self.old.text (start_index (R.start_bound range))) }
        requires end { IsTrue (boundary self.old.text
            (end_index (R.end_bound range) (size self.old.text))) }
        ensures { let t = self.old.text in
            let start = start_index (R.start_bound range) in
            let end = end_index (R.end_bound range) (size t) in
            self.new.text
            ≡ front t start ++ (map to_ascii_lowercase (part t start end) ++ back t end) }
    {
        let (start, end) = unsaturated_ends(range, self.len());
        self.change_case_of_part(start, end, Case::Lower);
    }

    /// Puts the ASCII letters between two boundaries into a case.
    #[inline]
    fn change_case_of_part(&mut self, start: usize, end: usize, case: Case)
        requires order { start ≤ end }
        requires start { IsTrue (boundary self.old.text start) }
        requires end { IsTrue (boundary self.old.text end) }
        ensures { self.new.text ≡ front self.old.text start
            ++ (map (to_case case) (part self.old.text start end) ++ back self.old.text end) }
    {
        let offset = self.start as usize;
        change_case_between(&mut self.array, offset + start, offset + end, case);
    }
}

/// Puts the ASCII letters among the bytes from `start` to `end` into a case.
#[inline]
fn change_case_between<const N: usize>(array: &mut [u8; N], start: usize, end: usize, case: Case)
    requires order { start ≤ end }
    requires within { end ≤ N }
    ensures { array.new ≡ take start array.old
        ++ (map (to_case case) (take (end - start) (drop start array.old)) ++ drop end array.old) }
{
    let all = &mut array[..];
    match case {
        Case::Upper => uppercase_between(all, start, end),
        Case::Lower => lowercase_between(all, start, end),
    }
}
