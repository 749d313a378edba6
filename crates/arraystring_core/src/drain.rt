//! `Drain`: gives the characters that were removed from a string, from the front or from the back. `traits` has its
//! impls of traits.
ghost use Rattle.std.specs.Prelude.{◌≡◌, ◌≤◌, chars};
ghost use Rattle.arraystring_base.specs.Text.{bytes, cap, size, IsText};
ghost use Rattle.arraystring_core.specs.Layout.{string_in, MeetsStringInvariant};

use arraystring_base::leaf::part_of_length;
use std::marker::Model;
use std::str;

mod traits;

/// An iterator over the characters that `drain` removed from a string. It returns each of them
/// once, from the front or from the back, and borrows nothing.
///
/// In contracts `left` is the list of the characters that are left. A drain has a copy of the string's array,
/// and allocates nothing.
#[derive(Clone, Copy)]
pub struct Drain<const N: usize> {
    // These numbers stand before the array in memory, and no offset into the array is negative. So the compiler knows
    // that a read of the array reads none of them.
    /// What is left begins at this index of the removed text. It is a boundary of the first `size` bytes of
    /// that text, so it is at most `size`.
    front: u8,
    /// The offset of the removed text. `start + size` is at most the lesser of `N` and 255.
    start: u8,
    /// The size of the removed text, without what was returned from the back.
    size: u8,
    /// The array of the string, as it was before the removal. The `size` bytes from `start` on are UTF-8: what
    /// was returned from the front, and then what is left.
    array: [u8; N],
}

impl<const N: usize> Model for Drain<N> {
    ghost use Rattle.arraystring_base.specs.Text.{size as text_size};
    ghost use Rattle.arraystring_core.specs.Layout.{string_in, MeetsDrainInvariant, start_of, array_of};
    ghost use Rattle.arraystring_core.specs.Drained.{DrainView, drain_advanced_to, removed_string_without_backs};
    ghost use Rattle.arraystring_core.specs.GhostProofs.{drained-front, drained-array, drained-size};

    ghost Value = { DrainView };

    ghost view = { λ d. drain_advanced_to (string_in d.array d.start d.size) d.front };

    ghost invariant = { λ d. MeetsDrainInvariant N d.array d.start d.size d.front };

    ghost inverse = { λ v. let removed = removed_string_without_backs v in
        record {
          front = text_size v.yielded;
          start = start_of removed;
          size = text_size removed.text;
          array = array_of removed;
        } };

    ghost inverse_ok = { λ d h i. record {
      front = drained-front h i;
      start = d.start;
      size = drained-size h i;
      array = drained-array h i;
    } };
}

impl<const N: usize> Drain<N> {
    /// Returns a drain of which the `size` bytes of the array from `start` on are left.
    #[inline(always)]
    pub(crate) fn new(array: [u8; N], start: u8, size: u8) -> Self
        requires { MeetsStringInvariant N array start size }
        ensures { result.left ≡ (string_in array.entry start size).text }
    {
        Drain {
            front: 0,
            start,
            size,
            array,
        }
    }

    /// Returns the characters that are left as a `&str`, borrowed without a copy.
    ///
    /// # Examples
    ///
    /// ```
    /// let mut drain = ArrayString::<8>::from("abc").drain(..).unwrap();
    /// assert_eq!((drain.next(), drain.as_str()), (Some('a'), "bc"));
    /// ```
    #[inline]
    pub fn as_str(&self) -> &str
        ensures bytes { result.now ≡ bytes self.now.left }
        ensures chars { chars result.now ≡ self.now.left }
        ensures text { IsText self.now.left }
        ensures fits { size self.now.left ≤ cap N }
    {
        let front = self.front as usize;
        let (start, len) = (self.start as usize + front, self.size as usize - front);
        // SAFETY: the removed text is UTF-8, and `front` is a boundary of it, as the fields of the type say.
        unsafe { str::from_utf8_unchecked(part_of_length(&self.array, start, len)) }
    }
}
