//! The tests by which edits are refused. A row of the table of edits (docs/trust.md) lists them in order. The first
//! that holds decides which error is returned.
ghost use Rattle.std.specs.Prelude.{◌≡◌, ◌+◌, ◌-◌, ◌≤◌, ◌∷◌, []};
ghost use Rattle.arraystring_base.specs.Text.{cap, size};
ghost use Rattle.arraystring_core.specs.Edits.{first_cause, ok_unless_cause, past_text_test, reversed_range_test, at_or_past_end_test, inside_character_test, no_room_test};

use crate::ArrayString;
use arraystring_base::error::Error;

impl<const N: usize> ArrayString<N> {
    /// Refuses an index past the text, and then one inside a character.
    #[inline(always)]
    pub(super) fn check_bounds_and_boundary(&self, index: u8) -> Result<(), Error>
        ensures { result ≡ ok_unless_cause
            (first_cause (past_text_test self.now.text index
            ∷ inside_character_test self.now.text index ∷ [])) tt }
    {
        if index > self.len() {
            return Err(Error::OutOfBounds);
        }
        self.check_not_inside_character(index)
    }

    /// Refuses to insert `len` bytes, in this order: if the index is past the text, if they do not fit, if it
    /// is inside a character.
    #[inline(always)]
    pub(super) fn check_insertion(&self, index: u8, len: usize) -> Result<(), Error>
        ensures { result ≡ ok_unless_cause (first_cause (past_text_test self.now.text index
            ∷ no_room_test (size self.now.text + len) (cap N)
            ∷ inside_character_test self.now.text index ∷ [])) tt }
    {
        if index > self.len() {
            return Err(Error::OutOfBounds);
        }
        if len > (Self::capacity() - self.len()) as usize {
            return Err(Error::OutOfBounds);
        }
        self.check_not_inside_character(index)
    }

    /// Refuses an index at which no character begins: at the end or past it, and then one inside a character.
    #[inline(always)]
    pub(super) fn check_removal(&self, index: u8) -> Result<(), Error>
        ensures { result ≡ ok_unless_cause
            (first_cause (at_or_past_end_test self.now.text index
            ∷ inside_character_test self.now.text index ∷ [])) tt }
    {
        if index >= self.len() {
            return Err(Error::OutOfBounds);
        }
        self.check_not_inside_character(index)
    }

    /// Refuses a range that is reversed or past the text, and then one whose start, or whose end, is inside a character.
    #[inline(always)]
    pub(super) fn check_part(&self, start: u8, end: u8) -> Result<(), Error>
        ensures { result ≡ ok_unless_cause (first_cause (reversed_range_test start end
            ∷ past_text_test self.now.text end
            ∷ inside_character_test self.now.text start
            ∷ inside_character_test self.now.text end ∷ [])) tt }
    {
        if start > end || end > self.len() {
            return Err(Error::OutOfBounds);
        }
        self.check_not_inside_character(start)?;
        self.check_not_inside_character(end)
    }

    /// Refuses to put `len` bytes in place of a range, for the reasons of `check_part`, and for want of room. Room is
    /// tested after the order and the end of the range, and before the boundaries.
    #[inline(always)]
    pub(super) fn check_replacement(&self, start: u8, end: u8, len: usize) -> Result<(), Error>
        ensures { result ≡ ok_unless_cause (first_cause (reversed_range_test start end
            ∷ past_text_test self.now.text end
            ∷ no_room_test (size self.now.text - (end - start) + len) (cap N)
            ∷ inside_character_test self.now.text start
            ∷ inside_character_test self.now.text end ∷ [])) tt }
    {
        if start > end || end > self.len() {
            return Err(Error::OutOfBounds);
        }
        let kept = self.len() - (end - start);
        if len > (Self::capacity() - kept) as usize {
            return Err(Error::OutOfBounds);
        }
        self.check_not_inside_character(start)?;
        self.check_not_inside_character(end)
    }

    /// Refuses an index in the text that is inside a character.
    #[inline(always)]
    fn check_not_inside_character(&self, index: u8) -> Result<(), Error>
        ensures { index ≤ size self.now.text
            → result ≡ ok_unless_cause
            (first_cause (inside_character_test self.now.text index ∷ [])) tt }
    {
        if !self.is_boundary(index as usize) {
            return Err(Error::Utf8);
        }
        Ok(())
    }
}
