//! The constructors: from a `&str`, from pieces, from characters and from bytes of UTF-8.
ghost use Rattle.std.specs.Prelude.{◌≡◌, ℕ, ◌≤◌, ◌↔◌, List, Err, IsOk, IfOk, chars, length};
ghost use Rattle.std.specs.Borrow.{Bor};
ghost use Rattle.std.specs.Iterator.{IsFiniteIterable};
ghost use Rattle.arraystring_base.specs.Text.{bytes, cap, cut, IsText, IsWellFormed};
ghost use Rattle.arraystring_core.specs.Edits.{map_err_from_out_of_bounds};
ghost use Rattle.arraystring_core.specs.Construct.{IsWholeOrRefused};
ghost use Rattle.arraystring_core.specs.Taken.{Takes, Gives, joined_texts, joined_pieces, piece_text};

use crate::ArrayString;
use crate::well_formed::read_utf8;
use arraystring_base::error::{Error, OutOfBounds, Utf8};
use arraystring_base::utils::truncate_str;
use std::str;

impl<const N: usize> ArrayString<N> {
    /// Creates a string from `string`.
    ///
    /// # Errors
    ///
    /// Returns `Err(OutOfBounds)` if `string` is larger than the capacity.
    ///
    /// # Examples
    ///
    /// ```
    /// assert_eq!(ArrayString::<4>::try_from_str("cafe").unwrap().as_str(), "cafe");
    /// assert_eq!(ArrayString::<4>::try_from_str("café"), Err(OutOfBounds)); // five bytes
    /// ```
    #[inline]
    pub fn try_from_str(string: &str) -> Result<Self, OutOfBounds>
        ensures { IsWholeOrRefused (chars string.now) (cap N) (map_err_from_out_of_bounds result) }
    {
        if string.len() > Self::capacity() as usize {
            return Err(OutOfBounds);
        }
        Ok(Self::from_str_unchecked(string))
    }

    /// Creates a string from the longest prefix of whole characters of `string` that fits.
    /// `try_from_str` refuses what does not fit.
    ///
    /// # Examples
    ///
    /// ```
    /// assert_eq!(ArrayString::<4>::from_str_truncate("cafe").as_str(), "cafe");
    /// assert_eq!(ArrayString::<4>::from_str_truncate("café").as_str(), "caf"); // not half of `é`
    /// ```
    #[inline]
    pub fn from_str_truncate(string: &str) -> Self
        ensures { result.text ≡ cut (chars string.now) (cap N) }
    {
        Self::from_str_unchecked(truncate_str(string, Self::capacity()))
    }

    /// Creates a string from all pieces, joined.
    ///
    /// # Errors
    ///
    /// Returns `Err(OutOfBounds)` if not all of the pieces fit.
    ///
    /// # Precondition
    ///
    /// The iterator must end, and until then the precondition of its `next` must hold.
    ///
    /// # Examples
    ///
    /// ```
    /// let string = ArrayString::<8>::try_from_iterator(["one", " ", "two"]);
    /// assert_eq!(string.unwrap().as_str(), "one two");
    /// assert_eq!(ArrayString::<8>::try_from_iterator(["one", " three"]), Err(OutOfBounds));
    /// ```
    #[inline]
    pub fn try_from_iterator<'a, I: IntoIterator<Item = &'a str> + Drop>(
        pieces: I,
    ) -> Result<Self, OutOfBounds>
        requires { IsFiniteIterable I.into_iter_gives I.IntoIter.can_next
            I.IntoIter.remaining pieces }
        ensures taken { (taken : List (Bor (List ℕ)))
            × Takes I.into_iter_gives I.IntoIter.next_gives joined_pieces pieces (cap N) taken
            × IsWholeOrRefused (joined_pieces taken) (cap N) (map_err_from_out_of_bounds result) }
        ensures whole { (all : List (List ℕ))
            → Gives I.into_iter_gives I.IntoIter.next_gives piece_text pieces all
            → IsWholeOrRefused (joined_texts all) (cap N) (map_err_from_out_of_bounds result) }
    {
        let mut made = Self::new();
        made.push_strs_until_full(pieces)?;
        Ok(made)
    }

    /// Creates a string from all pieces, joined. If that is too long, keeps the longest prefix of
    /// whole characters that fits.
    ///
    /// # Precondition
    ///
    /// The iterator must end, and until then the precondition of its `next` must hold.
    ///
    /// # Examples
    ///
    /// ```
    /// assert_eq!(ArrayString::<8>::from_iterator(["one", " ", "two"]).as_str(), "one two");
    /// assert_eq!(ArrayString::<8>::from_iterator(["one", " three", "!"]).as_str(), "one thre");
    /// ```
    #[inline]
    pub fn from_iterator<'a, I: IntoIterator<Item = &'a str> + Drop>(pieces: I) -> Self
        requires { IsFiniteIterable I.into_iter_gives I.IntoIter.can_next
            I.IntoIter.remaining pieces }
        ensures taken { (taken : List (Bor (List ℕ)))
            × Takes I.into_iter_gives I.IntoIter.next_gives joined_pieces pieces (cap N) taken
            × (result.text ≡ cut (joined_pieces taken) (cap N)) }
        ensures whole { (all : List (List ℕ))
            → Gives I.into_iter_gives I.IntoIter.next_gives piece_text pieces all
            → result.text ≡ cut (joined_texts all) (cap N) }
    {
        let mut made = Self::new();
        let _ = made.push_strs_until_full(pieces);
        made
    }

    /// Creates a string from all characters that the iterator returns.
    ///
    /// # Errors
    ///
    /// Returns `Err(OutOfBounds)` if not all of the characters fit.
    ///
    /// # Precondition
    ///
    /// The iterator must end, and until then the precondition of its `next` must hold.
    ///
    /// # Examples
    ///
    /// ```
    /// assert_eq!(ArrayString::<4>::try_from_chars("abc".chars()).unwrap().as_str(), "abc");
    /// assert_eq!(ArrayString::<4>::try_from_chars("abcde".chars()), Err(OutOfBounds));
    /// ```
    #[inline]
    pub fn try_from_chars<I: IntoIterator<Item = char> + Drop>(
        characters: I,
    ) -> Result<Self, OutOfBounds>
        requires { IsFiniteIterable I.into_iter_gives I.IntoIter.can_next
            I.IntoIter.remaining characters }
        ensures taken { (taken : List ℕ)
            × Takes I.into_iter_gives I.IntoIter.next_gives (λ cs. cs) characters (cap N) taken
            × IsWholeOrRefused taken (cap N) (map_err_from_out_of_bounds result) }
        ensures whole { (all : List ℕ)
            → Gives I.into_iter_gives I.IntoIter.next_gives (λ c. c) characters all
            → IsWholeOrRefused all (cap N) (map_err_from_out_of_bounds result) }
    {
        let mut made = Self::new();
        made.push_chars_until_full(characters)?;
        Ok(made)
    }

    /// Creates a string from the longest prefix of the characters that fits. It ends before the
    /// first character that does not fit, even if a later one takes fewer bytes and would fit.
    ///
    /// # Precondition
    ///
    /// The iterator must end, and until then the precondition of its `next` must hold.
    ///
    /// # Examples
    ///
    /// ```
    /// assert_eq!(ArrayString::<4>::from_chars("abc".chars()).as_str(), "abc");
    /// assert_eq!(ArrayString::<4>::from_chars("abcéd".chars()).as_str(), "abc"); // `d` would fit
    /// ```
    #[inline]
    pub fn from_chars<I: IntoIterator<Item = char> + Drop>(characters: I) -> Self
        requires { IsFiniteIterable I.into_iter_gives I.IntoIter.can_next
            I.IntoIter.remaining characters }
        ensures taken { (taken : List ℕ)
            × Takes I.into_iter_gives I.IntoIter.next_gives (λ cs. cs) characters (cap N) taken
            × (result.text ≡ cut taken (cap N)) }
        ensures whole { (all : List ℕ)
            → Gives I.into_iter_gives I.IntoIter.next_gives (λ c. c) characters all
            → result.text ≡ cut all (cap N) }
    {
        let mut made = Self::new();
        let _ = made.push_chars_until_full(characters);
        made
    }

    /// Creates a string from the UTF-8 in `given`.
    ///
    /// # Errors
    ///
    /// The first of these whose condition holds is returned:
    ///
    /// - `Err(Error::Utf8)` if `given` is not well-formed UTF-8 (the Unicode Standard, section
    ///   3.9);
    /// - `Err(Error::OutOfBounds)` if the text is larger than the capacity.
    ///
    /// # Examples
    ///
    /// ```
    /// assert_eq!(ArrayString::<4>::try_from_utf8(&[0xC3, 0xA9]).unwrap().as_str(), "é");
    /// assert_eq!(ArrayString::<4>::try_from_utf8(&[0xC3]), Err(Error::Utf8)); // half of `é`
    /// assert_eq!(ArrayString::<4>::try_from_utf8(b"abcde"), Err(Error::OutOfBounds));
    /// ```
    #[inline]
    pub fn try_from_utf8(given: &[u8]) -> Result<Self, Error>
        ensures malformed { ¬ (IsWellFormed given.now) → result ≡ Err Error.Utf8 }
        ensures too_large { result ≡ Err Error.OutOfBounds → IsWellFormed given.now }
        ensures whole { (t : List ℕ) → IsText t → bytes t ≡ given.now
            → IsWholeOrRefused t (cap N) result }
        ensures made { IsOk result ↔ (IsWellFormed given.now × (length given.now ≤ cap N)) }
        ensures bytes { IfOk result (λ made. bytes made.text ≡ given.now) }
        ensures text { IfOk result (λ made. IsText made.text) }
    {
        let Ok(text) = read_utf8(given) else {
            return Err(Error::Utf8);
        };
        if text.len() > Self::capacity() as usize {
            return Err(Error::OutOfBounds);
        }
        Ok(Self::from_str_unchecked(text))
    }

    /// Creates a string from the UTF-8 in `given`, **cut** to the longest prefix of whole characters
    /// that fits. `try_from_utf8` refuses what does not fit.
    ///
    /// # Errors
    ///
    /// Returns `Err(Utf8)` if `given` is not well-formed UTF-8 (the Unicode Standard, section
    /// 3.9), even if only bytes that would be cut off are malformed.
    ///
    /// # Examples
    ///
    /// ```
    /// assert_eq!(ArrayString::<4>::from_utf8(b"abcde").unwrap().as_str(), "abcd");
    /// assert_eq!(ArrayString::<4>::from_utf8(b"abcd\xFF"), Err(Utf8)); // no UTF-8, though behind the cut
    /// ```
    #[inline]
    pub fn from_utf8(given: &[u8]) -> Result<Self, Utf8>
        ensures well_formed { IsOk result ↔ IsWellFormed given.now }
        ensures cut { (t : List ℕ) → IsText t → bytes t ≡ given.now
            → IfOk result (λ made. made.text ≡ cut t (cap N)) }
        ensures text { IfOk result (λ made. IsText made.text) }
    {
        let Ok(string) = read_utf8(given) else {
            return Err(Utf8);
        };
        Ok(Self::from_str_truncate(string))
    }
}
