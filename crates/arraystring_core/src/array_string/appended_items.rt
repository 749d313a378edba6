//! The private calls that append the items of an iterator as far as they fit.
ghost use Rattle.std.specs.Prelude.{◌≡◌, ◌-◌, ◌<◌, ◌≤◌, ◌++◌, ℕ, List, MatchResult};
ghost use Rattle.arraystring_base.specs.Text.{size, cap, cut};
ghost use Rattle.std.specs.Borrow.{Bor};
ghost use Rattle.std.specs.Iterator.{IsFiniteIterable};
ghost use Rattle.arraystring_core.specs.Taken.{Takes, joined_pieces};

use crate::ArrayString;
use crate::laws::text_fits;
use arraystring_base::error::OutOfBounds;

impl<const N: usize> ArrayString<N> {
    /// Appends the characters before the first that does not fit. Returns `Err` if there is such a one: what fitted stays.
    #[inline]
    pub(super) fn push_chars_until_full<I: IntoIterator<Item = char> + Drop>(
        &mut self,
        characters: I,
    ) -> Result<(), OutOfBounds>
        requires { IsFiniteIterable I.into_iter_gives I.IntoIter.can_next
            I.IntoIter.remaining characters }
        ensures { (taken : List ℕ)
            × Takes I.into_iter_gives I.IntoIter.next_gives (λ cs. cs) characters
            (cap N - size self.old.text) taken
            × MatchResult result (λ _. size taken ≤ cap N - size self.old.text)
            (λ _. cap N - size self.old.text < size taken)
            × (self.new.text ≡ self.old.text ++ cut taken (cap N - size self.old.text)) }
    {
        text_fits(self); // gives the prover that the text fits
        for ch in characters {
            match self.try_push(ch) {
                Ok(()) => {}
                Err(_) => return Err(OutOfBounds),
            }
        }
        Ok(())
    }

    /// Appends the pieces before the first that does not fit, and of that one what fits. Returns `Err`
    /// if there is such a one: what fitted stays.
    #[inline]
    pub(super) fn push_strs_until_full<'a, I: IntoIterator<Item = &'a str> + Drop>(
        &mut self,
        pieces: I,
    ) -> Result<(), OutOfBounds>
        requires { IsFiniteIterable I.into_iter_gives I.IntoIter.can_next
            I.IntoIter.remaining pieces }
        ensures { (taken : List (Bor (List ℕ)))
            × Takes I.into_iter_gives I.IntoIter.next_gives joined_pieces pieces
            (cap N - size self.old.text) taken
            × MatchResult result
            (λ _. size (joined_pieces taken) ≤ cap N - size self.old.text)
            (λ _. cap N - size self.old.text < size (joined_pieces taken))
            × (self.new.text
            ≡ self.old.text ++ cut (joined_pieces taken) (cap N - size self.old.text)) }
    {
        text_fits(self); // gives the prover that the text fits
        for piece in pieces {
            match self.try_push_str(piece) {
                Ok(()) => {}
                Err(_) => {
                    self.push_str(piece);
                    return Err(OutOfBounds);
                }
            }
        }
        Ok(())
    }
}
