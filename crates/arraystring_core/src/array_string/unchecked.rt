//! The calls that leave a test to the caller, of which most programs need none. They are safe, because each caller
//! proves the precondition. An append tests only whether the text first has to move to the start of its array, and not
//! even that if the text begins there. So the two constructors from an iterator, which append to a new string, test
//! nothing in their loops.
ghost use Rattle.std.specs.Prelude.{◌≡◌, ◌+◌, ◌≤◌, ◌∷◌, [], ◌++◌, ℕ, List, IsTrue, chars, length};
ghost use Rattle.std.specs.Borrow.{Bor};
ghost use Rattle.std.specs.Iterator.{IsFiniteIterable};
ghost use Rattle.arraystring_base.specs.Text.{size, width, bytes, cap, front, back, boundary, IsText, IsWellFormed};
ghost use Rattle.arraystring_core.specs.Taken.{TakesAll, Fits, Gives, joined_texts, joined_pieces, piece_text};

use crate::ArrayString;
use arraystring_base::utils::{Steps, encode, write_by_call, write_over};
use std::str;

impl<const N: usize> ArrayString<N> {
    /// Creates a string from `string`.
    ///
    /// # Precondition
    ///
    /// All of `string` must fit.
    #[inline]
    pub fn from_str_unchecked(string: &str) -> Self
        requires { size (chars string.now) ≤ cap N }
        ensures { result.text ≡ chars string.now }
    {
        let mut array = [0; N];
        write_by_call(&mut array, 0, string.as_bytes());
        ArrayString {
            array,
            start: 0,
            size: string.len() as u8,
        }
    }

    /// Creates a string from all pieces, joined.
    ///
    /// # Precondition
    ///
    /// All pieces that the iterator returns must fit together. The iterator must end, and until then
    /// the precondition of its `next` must hold.
    #[inline]
    pub fn from_iterator_unchecked<'a, I: IntoIterator<Item = &'a str> + Drop>(pieces: I) -> Self
        requires ends { IsFiniteIterable I.into_iter_gives I.IntoIter.can_next
            I.IntoIter.remaining pieces }
        requires fits { Fits I.into_iter_gives I.IntoIter.next_gives joined_pieces pieces (cap N) }
        ensures taken { (taken : List (Bor (List ℕ)))
            × TakesAll I.into_iter_gives I.IntoIter.next_gives pieces taken
            × (result.text ≡ joined_pieces taken) }
        ensures whole { (all : List (List ℕ))
            → Gives I.into_iter_gives I.IntoIter.next_gives piece_text pieces all
            → result.text ≡ joined_texts all }
    {
        let mut made = Self::new();
        for piece in pieces {
            made.push_str_unchecked(piece);
        }
        made
    }

    /// Creates a string from all characters that the iterator returns.
    ///
    /// # Precondition
    ///
    /// The characters that the iterator returns must fit. The iterator must end, and until then the
    /// precondition of its `next` must hold.
    #[inline]
    pub fn from_chars_unchecked<I: IntoIterator<Item = char> + Drop>(characters: I) -> Self
        requires ends { IsFiniteIterable I.into_iter_gives I.IntoIter.can_next
            I.IntoIter.remaining characters }
        requires fits { Fits I.into_iter_gives I.IntoIter.next_gives (λ cs. cs) characters (cap N) }
        ensures taken { (taken : List ℕ)
            × TakesAll I.into_iter_gives I.IntoIter.next_gives characters taken
            × (result.text ≡ taken) }
        ensures whole { (all : List ℕ)
            → Gives I.into_iter_gives I.IntoIter.next_gives (λ c. c) characters all
            → result.text ≡ all }
    {
        let mut made = Self::new();
        for ch in characters {
            made.push_unchecked(ch);
        }
        made
    }

    /// Creates a string from the UTF-8 in `given`.
    ///
    /// # Precondition
    ///
    /// `given` must be well-formed UTF-8 (the Unicode Standard, section 3.9), and all of it must
    /// fit.
    #[inline]
    pub fn from_utf8_unchecked(given: &[u8]) -> Self
        requires well_formed { IsWellFormed given.now }
        requires fits { length given.now ≤ cap N }
        ensures bytes { bytes result.text ≡ given.now }
        ensures text { IsText result.text }
    {
        // SAFETY: the caller has to give well-formed UTF-8.
        Self::from_str_unchecked(unsafe { str::from_utf8_unchecked(given) })
    }

    /// Appends `ch`.
    ///
    /// # Precondition
    ///
    /// `ch` must fit.
    #[inline(always)]
    pub fn push_unchecked(&mut self, ch: char)
        requires { size self.old.text + width ch ≤ cap N }
        ensures { self.new.text ≡ self.old.text ++ ch ∷ [] }
    {
        let end = self.end();
        // If the text begins at the start of the array, all room is behind it, and `ch` fits there by the precondition.
        if self.start > 0 && !Self::has_room_for_char(end, ch) {
            let (start, size) = (self.start as usize, self.size as usize);
            let size = Self::compact_and_push_char(&mut self.array, ch, start, size);
            self.start = 0;
            self.size = size as u8;
            return;
        }
        self.size += encode(ch, &mut self.array, end) as u8;
    }

    /// Appends `string`.
    ///
    /// # Precondition
    ///
    /// All of `string` must fit.
    #[inline]
    pub fn push_str_unchecked(&mut self, string: &str)
        requires { size self.old.text + size (chars string.now) ≤ cap N }
        ensures { self.new.text ≡ self.old.text ++ chars string.now }
    {
        let end = self.end();
        if self.start > 0 && end + string.len() > Self::capacity() as usize {
            return self.compact_and_push_str(string);
        }
        self.size += string.len() as u8;
        write_over(&mut self.array, end, string.as_bytes());
    }

    /// Inserts `ch` at the byte index `index`.
    ///
    /// # Precondition
    ///
    /// The index must be a boundary, and `ch` must fit.
    #[inline]
    pub fn insert_unchecked(&mut self, index: u8, ch: char)
        requires boundary { IsTrue (boundary self.old.text index) }
        requires room { size self.old.text + width ch ≤ cap N }
        ensures { self.new.text ≡ front self.old.text index ++ (ch ∷ back self.old.text index) }
    {
        self.insert_char_at_boundary(index as usize, ch);
    }

    /// Inserts `string` at the byte index `index`.
    ///
    /// # Precondition
    ///
    /// The index must be a boundary, and all of `string` must fit.
    #[inline]
    pub fn insert_str_unchecked(&mut self, index: u8, string: &str)
        requires boundary { IsTrue (boundary self.old.text index) }
        requires room { size self.old.text + size (chars string.now) ≤ cap N }
        ensures { self.new.text
            ≡ front self.old.text index ++ (chars string.now ++ back self.old.text index) }
    {
        let start = index as usize;
        self.splice(start, start, string, &mut Steps::new());
    }
}
