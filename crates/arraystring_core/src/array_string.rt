//! `ArrayString`: the type, how its text lies in the array, and the calls that measure or borrow all of the text.
//!
//! The modules below have its other calls. `traits` has its impls of traits, and `unchecked` the calls that leave a
//! test to the caller. These have what the others rest on:
//!
//! - `boundary` has the test for a boundary, and `checks` the tests of the table of edits (docs/trust.md);
//! - `splice` replaces a part of the text by another;
//! - `append_at_array_end` appends to a text that may end where its array ends, and `appended_items` what an iterator gives;
//! - `remove` also takes out a part, a front or an end.
//!
//! # How a string lies in its array
//!
//! The text is the `size` bytes of the array from the start offset on. An *offset* counts from the start of
//! the array, an *index* from the start of the text. The drawings show an array of 8 bytes after each call. A
//! `.` is a byte outside the text. Such a byte can have any value: strings with the same text are equal. The
//! last column has the moves that the counted form of the call counts.
//!
//! ```text
//!                           01234567   start   size   moved
//! from("abcdef")            abcdef..       0      6
//! remove(0)                 .bcdef..       1      5       0
//! try_insert_str(2, "-")    .bc-def.       1      6       3
//! try_insert_str(6, "gh")   bc-defgh       0      8       6
//! ```
//!
//! - A removal at the front (`remove(0)`, `drain(..i)`, `trim`) raises the start offset and moves no byte.
//! - If there is room after the text, an insertion moves the bytes behind the gap.
//! - If there is none, the bytes before the gap move to offset 0, and those behind it straight to their final
//!   offset. So each byte moves at most once.
//!
//! An insertion in the middle may move only the bytes before the gap:
//!
//! ```text
//!                           01234567   start   size   moved
//! from("abcdefgh")          abcdefgh       0      8
//! remove(0)                 .bcdefgh       1      7       0
//! try_insert_str(2, "-")    bc-defgh       0      8       2
//! ```
//!
//! A `Drain<N>` borrows nothing. It has a copy of the array from before the removal, the offset and the size of
//! the removed text, and an index into it. `next` raises the index, and `next_back` lowers the size.
ghost use Rattle.std.specs.Prelude.{◌≡◌, ◌+◌, ◌≤◌, ◌↔◌, [], IsTrue, chars, length};
ghost use Rattle.arraystring_base.specs.Text.{size, bytes, cap, IsText};
ghost use Rattle.arraystring_core.specs.Layout.{start_of};

use arraystring_base::leaf::part_of_length;
use std::marker::Model;
use std::str;

mod append_at_array_end;
mod appended_items;
mod ascii;
mod borrowed_range;
mod boundary;
mod checks;
mod construct;
mod drained_range;
mod insert;
mod push;
mod remove;
mod replaced_range;
mod retain;
mod splice;
mod traits;
mod trim;
mod unchecked;
mod utf16;

pub use boundary::is_char_boundary;

/// A string of at most `N` bytes of UTF-8, and at most 255, stored inline. Sizes, indices and the
/// capacity count bytes of UTF-8.
///
/// A text *fits* if the string with it is not larger than the capacity. What does not fit is cut or
/// refused, by the call:
///
/// - **Cut**, to the whole characters that fit: `from` and so `into`, `from_str_truncate`,
///   `from_chars`, `from_iterator`, `from_utf8`, `from_utf16`, `from_utf16_lossy`, `push_str`, `+`,
///   `extend_chars`, `extend_strs`, `insert_str`, `from_value`.
/// - **Refused**, and then nothing has changed: `parse`, `try_from_str`, `try_from_chars`,
///   `try_from_iterator`, `try_from_utf8`, `try_from_utf16`, `try_push`, `try_push_str`, `try_insert`,
///   `try_insert_str`, `replace_range`, the counted forms of these two, `try_from_value`, and each
///   piece that `write!` writes.
///
/// A *boundary* is an index at which a character begins or the text ends. An index is *past* the
/// text if it is greater than the length, and *inside* a character if it is less and no boundary.
///
/// A range that is passed in may be any `RangeBounds<u8>`. An iterator is asked for no item behind
/// the first that does not fit. Ranges, iterators and closures have the bound `Drop`, since a call
/// drops them.
#[derive(Clone, Copy)]
pub struct ArrayString<const N: usize> {
    /// The `size` bytes from `start` on are the text. They are UTF-8, and the others have no meaning.
    array: [u8; N],
    /// The offset at which the text begins. `start + size` is at most the lesser of `N` and 255.
    start: u8,
    /// The size of the text.
    size: u8,
}

impl<const N: usize> Model for ArrayString<N> {
    ghost use Rattle.arraystring_base.specs.Text.{size as text_size};
    ghost use Rattle.arraystring_core.specs.Stored.{StringView};
    ghost use Rattle.arraystring_core.specs.Layout.{string_in, MeetsStringInvariant, start_of, array_of};
    ghost use Rattle.arraystring_core.specs.GhostProofs.{stored-size, stored-all};

    ghost Value = { StringView };

    ghost view = { λ s. string_in s.array s.start s.size };

    ghost invariant = { λ s. MeetsStringInvariant N s.array s.start s.size };

    ghost inverse = { λ v.
        record { array = array_of v; start = start_of v; size = text_size v.text } };

    ghost inverse_ok = { λ s h i. record {
      array = stored-all h i;
      start = s.start;
      size = stored-size h i;
    } };
}

impl<const N: usize> ArrayString<N> {
    /// Returns an empty string.
    #[tactic(auto, using(crate::proofs::StoredLaws::chars_nil))]
    #[inline(always)]
    pub const fn new() -> Self
        ensures { result.text ≡ [] }
    {
        ArrayString {
            array: [0; N],
            start: 0,
            size: 0,
        }
    }

    /// Returns the capacity in bytes: the lesser of `N` and 255. So a string whose `N` is over 255
    /// takes more memory and holds no more.
    ///
    /// # Examples
    ///
    /// ```
    /// assert_eq!((ArrayString::<23>::capacity(), ArrayString::<300>::capacity()), (23, 255));
    /// ```
    #[inline]
    pub const fn capacity() -> u8
        ensures { result ≡ cap N }
    {
        if N < 255 { N as u8 } else { 255 }
    }

    /// Returns the length of the text in bytes, which is at most the capacity.
    ///
    /// It is a `u8`, and so is a sum of such lengths. Add `usize::from(string.len())`, which does not
    /// overflow.
    ///
    /// # Examples
    ///
    /// ```
    /// assert_eq!(ArrayString::<4>::from("aé").len(), 3); // `é` takes two bytes
    /// ```
    #[tactic(auto, using(crate::proofs::StoredLaws::opened_size))]
    #[inline]
    pub const fn len(&self) -> u8
        ensures value { result ≡ size self.now.text }
        ensures fits { result ≤ cap N }
    {
        self.size
    }

    /// Returns whether the text has no character.
    #[inline]
    pub const fn is_empty(&self) -> bool
        ensures { IsTrue result ↔ (self.now.text ≡ []) }
    {
        self.size == 0
    }

    /// Returns the text as a `&str`, borrowed without a copy. The contract adds that each
    /// character is a Unicode scalar value and that the text is not larger than the capacity.
    #[inline]
    pub fn as_str(&self) -> &str
        ensures bytes { result.now ≡ bytes self.now.text }
        ensures chars { chars result.now ≡ self.now.text }
        ensures text { IsText self.now.text }
        ensures fits { size self.now.text ≤ cap N }
    {
        let (size, start) = (self.size as usize, self.start as usize);
        // SAFETY: the `size` bytes from `start` on are UTF-8, as the fields of the type say.
        unsafe { str::from_utf8_unchecked(part_of_length(&self.array, start, size)) }
    }

    /// Returns the bytes of the text, borrowed without a copy. There are as many as `len` returns.
    /// The contract also promises what the contract of `as_str` promises of the text.
    #[inline]
    pub fn as_bytes(&self) -> &[u8]
        ensures bytes { result.now ≡ bytes self.now.text }
        ensures len { length result.now ≡ size self.now.text }
        ensures text { IsText self.now.text }
        ensures fits { size self.now.text ≤ cap N }
    {
        part_of_length(&self.array, self.start as usize, self.size as usize)
    }

    /// The offset at which the text ends.
    #[tactic(auto, using(crate::proofs::StoredLaws::opened_end))]
    #[inline(always)]
    fn end(&self) -> usize
        ensures value { result ≡ start_of self.now + size self.now.text }
        ensures within { result ≤ cap N }
    {
        self.start as usize + self.size as usize
    }
}
