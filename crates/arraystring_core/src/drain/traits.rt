//! The traits of a drain: its iterators, and how what is left is printed, compared and hashed.
ghost use Rattle.std.specs.Prelude.{◌≡◌, [], Some, nat_eq, refl};
ghost use Rattle.std.specs.Iterator.{YieldsFirst, YieldsLast, item_count};
ghost use Rattle.arraystring_base.specs.Text.{bytes, IsBefore};
ghost use Rattle.std.specs.Cmp.{on_equiv, on_per, on_total, on_po, partial_equiv_from_equiv};
ghost use Rattle.std.specs.Cmp.Lexicographic.{pointwise, slice_cmp, nat_list_eq_equiv, nat_list_cmp_total, texts_po, texts_ties, bytes_decides};
ghost use Rattle.std.specs.Hash as fed;
ghost use Rattle.std.specs.Ordering.{nat_cmp, MatchOrdering};

use crate::Drain;
use arraystring_base::leaf::byte;
use arraystring_base::utils::{Steps, last_char_with_start};
use std::cmp::Ordering;
use std::fmt;
use std::hash::{Hash, Hasher};
use std::iter::FusedIterator;

/// `Drain("bc")` if `bc` is left.
impl<const N: usize> fmt::Debug for Drain<N> {
    #[inline]
    fn fmt<W: fmt::Write>(&self, f: &mut fmt::Formatter<W>) -> fmt::Result {
        f.debug_tuple("Drain").field(&self.as_str()).finish()
    }
}

/// An empty drain: nothing is left.
impl<const N: usize> Default for Drain<N> {
    ghost is_default = { λ d. d.left ≡ [] };

    #[tactic(auto, using(crate::proofs::StoredLaws::chars_nil))]
    #[inline]
    fn default() -> Self {
        Drain::new([0; N], 0, 0)
    }
}

/// The characters that are left, from the back.
impl<const N: usize> DoubleEndedIterator for Drain<N> {
    ghost next_back_gives = { YieldsLast (λ d. d.left) };

    /// Returns the last character that is left. Returns `None` if none is left, and at each call
    /// after that.
    #[inline(always)]
    fn next_back(&mut self) -> Option<char> {
        let (kept, ch) = last_char_with_start(self.as_str(), &mut Steps::new())?;
        self.size = self.front + kept as u8;
        Some(ch)
    }
}

/// Each drain is equal to itself, and so to a copy of it.
impl<const N: usize> Eq for Drain<N> {
    ghost laws = { on_equiv (λ s. s.left) nat_list_eq_equiv };
}

/// Once nothing is left, `next` and `next_back` return `None` ever after.
impl<const N: usize> FusedIterator for Drain<N> {}

/// Hashes as the `&str` of what is left does.
impl<const N: usize> Hash for Drain<N> {
    ghost hash_input = { λ s. fed.str (bytes s.left) };

    ghost respects_eq = { (fed.on_Alike (λ s. s.left)
        (fed.same_Alike (λ t. fed.str (bytes t)) bytes_decides)).fed };

    #[inline]
    fn hash<H: Hasher>(&self, state: &mut H) {
        self.as_str().hash(state);
    }
}

/// The characters that are left, from the front.
impl<const N: usize> Iterator for Drain<N> {
    type Item = char;

    ghost next_gives = { YieldsFirst (λ d. d.left) };

    ghost remaining = { item_count (λ d. d.left) };

    /// Returns the first character that is left. Returns `None` if none is left, and at each call
    /// after that.
    #[inline(always)]
    fn next(&mut self) -> Option<char> {
        if self.front == self.size {
            return None;
        }
        // An ASCII byte is a whole character; `chars` reads any other.
        let first = byte(&self.array, self.start as usize + self.front as usize);
        if first < 0x80 {
            self.front += 1;
            return Some(first as char);
        }
        let mut left = self.as_str().chars();
        let ch = left.next()?;
        self.front = self.size - left.as_str().len() as u8;
        Some(ch)
    }
}

/// Drains are ordered by the characters that are left.
impl<const N: usize> Ord for Drain<N> {
    ghost cmp = { λ s t. slice_cmp nat_cmp s.left t.left };

    ghost total = { on_total (λ s. s.left) nat_list_cmp_total };

    ghost matches_partial_cmp = { λ s t. refl };

    ghost matches_eq = { λ s t. texts_ties s.left t.left };

    /// Compares what is left lexicographically, by the scalar values of the characters. The order
    /// of the bytes of UTF-8 is the same.
    #[inline(always)]
    fn cmp(&self, other: &Self) -> Ordering
        ensures order { result ≡ slice_cmp nat_cmp self.now.left other.now.left }
        ensures of_bytes { result ≡ slice_cmp nat_cmp (bytes self.now.left) (bytes other.now.left) }
        ensures says { MatchOrdering result
            (IsBefore self.now.left other.now.left)
            (self.now.left ≡ other.now.left)
            (IsBefore other.now.left self.now.left) }
    {
        self.as_str().cmp(other.as_str())
    }
}

/// Two drains are equal if and only if the same characters are left.
impl<const N: usize> PartialEq for Drain<N> {
    ghost eq = { λ s t. pointwise nat_eq s.left t.left };

    ghost laws = { on_per (λ s. s.left) (partial_equiv_from_equiv nat_list_eq_equiv) };

    #[inline]
    fn eq(&self, other: &Self) -> bool {
        self.as_str() == other.as_str()
    }
}

/// Always `Some` of what `cmp` returns.
impl<const N: usize> PartialOrd for Drain<N> {
    ghost partial_cmp = { λ s t. Some (slice_cmp nat_cmp s.left t.left) };

    ghost laws = { on_po (λ s. s.left) texts_po };

    #[inline(always)]
    fn partial_cmp(&self, other: &Self) -> Option<Ordering> {
        Some(self.cmp(other))
    }
}
