//! `CacheString`: a string of at most 63 bytes under a name of its own. Each call is that of the
//! string inside. `traits` has its impls of traits.
ghost use Rattle.std.specs.Prelude.{◌≡◌, ℕ, ◌≤◌, ◌↔◌, [], List, Err, IsOk, IfOk, chars, length};
ghost use Rattle.std.specs.Borrow.{Bor};
ghost use Rattle.std.specs.Iterator.{IsFiniteIterable};
ghost use Rattle.arraystring_base.specs.declared.error.Error.TheVariants as error;
ghost use Rattle.arraystring_base.specs.declared.utf16.Unit16.{Unit16};
ghost use Rattle.arraystring_base.specs.Text.{size, bytes, cut, IsText, IsWellFormed};
ghost use Rattle.arraystring_base.specs.Utf16.{IsReading, first_stop, lossy_text, text_units};
ghost use Rattle.arraystring_core.specs.Edits.{Makes, map_err_from_out_of_bounds, string_result_as_text, split};
ghost use Rattle.arraystring_core.specs.FromUtf16.{GivesWholeOrError, GivesPrefixOrFault};
ghost use Rattle.arraystring_core.specs.Construct.{IsWholeOrRefused};
ghost use Rattle.arraystring_core.specs.Taken.{Takes, TakesAll, Fits, Gives, joined_texts, joined_pieces, piece_text};
ghost use Rattle.arraystring.specs.Cached.{inner_result};

use crate::error::{Error, OutOfBounds, Utf8, Utf16};
use arraystring_core::ArrayString;

mod traits;

/// A string of at most 63 bytes of UTF-8, under the name that 0.3.0 has for it. (There it was aligned to 64
/// bytes, as a line of a processor's cache is. Here it is not.) Its field `0` is an `ArrayString<63>`. Calls
/// that a `CacheString` lacks are called on this field.
#[derive(Clone, Copy, Debug)]
pub struct CacheString(pub ArrayString<63>);

impl CacheString {
    /// Returns an empty string.
    pub const fn new() -> Self
        ensures { result.0.text ≡ [] }
    {
        CacheString(ArrayString::new())
    }

    /// Returns the capacity in bytes: 63.
    pub const fn capacity() -> u8
        ensures { result ≡ 63 }
    {
        ArrayString::<63>::capacity()
    }

    /// Creates a string from `string`.
    ///
    /// # Errors
    ///
    /// Returns `Err(OutOfBounds)` if `string` is larger than the capacity.
    pub fn try_from_str(string: &str) -> Result<Self, OutOfBounds>
        ensures { IsWholeOrRefused (chars string.now) 63
            (map_err_from_out_of_bounds (inner_result result)) }
    {
        Ok(CacheString(ArrayString::try_from_str(string)?))
    }

    /// Creates a string from the longest prefix of whole characters of `string` that fits.
    /// `try_from_str` refuses what does not fit.
    pub fn from_str_truncate(string: &str) -> Self
        ensures { result.0.text ≡ cut (chars string.now) 63 }
    {
        CacheString(ArrayString::from_str_truncate(string))
    }

    /// Creates a string from `string`.
    ///
    /// # Precondition
    ///
    /// All of `string` must fit.
    pub fn from_str_unchecked(string: &str) -> Self
        requires { size (chars string.now) ≤ 63 }
        ensures { result.0.text ≡ chars string.now }
    {
        CacheString(ArrayString::from_str_unchecked(string))
    }

    /// Creates a string from all pieces, joined.
    ///
    /// # Errors
    ///
    /// Returns `Err(OutOfBounds)` if not all of the pieces fit.
    ///
    /// # Precondition
    ///
    /// The iterator must end, and until then the precondition of its `next` must hold.
    pub fn try_from_iterator<'a, I: IntoIterator<Item = &'a str> + Drop>(
        pieces: I,
    ) -> Result<Self, OutOfBounds>
        requires { IsFiniteIterable I.into_iter_gives I.IntoIter.can_next
            I.IntoIter.remaining pieces }
        ensures taken { (taken : List (Bor (List ℕ)))
            × Takes I.into_iter_gives I.IntoIter.next_gives joined_pieces pieces 63 taken
            × IsWholeOrRefused (joined_pieces taken) 63
            (map_err_from_out_of_bounds (inner_result result)) }
        ensures whole { (all : List (List ℕ))
            → Gives I.into_iter_gives I.IntoIter.next_gives piece_text pieces all
            → IsWholeOrRefused (joined_texts all) 63
            (map_err_from_out_of_bounds (inner_result result)) }
    {
        Ok(CacheString(ArrayString::try_from_iterator(pieces)?))
    }

    /// Creates a string from all pieces, joined. If that is too long, keeps the longest prefix of
    /// whole characters that fits.
    ///
    /// # Precondition
    ///
    /// The iterator must end, and until then the precondition of its `next` must hold.
    pub fn from_iterator<'a, I: IntoIterator<Item = &'a str> + Drop>(pieces: I) -> Self
        requires { IsFiniteIterable I.into_iter_gives I.IntoIter.can_next
            I.IntoIter.remaining pieces }
        ensures taken { (taken : List (Bor (List ℕ)))
            × Takes I.into_iter_gives I.IntoIter.next_gives joined_pieces pieces 63 taken
            × (result.0.text ≡ cut (joined_pieces taken) 63) }
        ensures whole { (all : List (List ℕ))
            → Gives I.into_iter_gives I.IntoIter.next_gives piece_text pieces all
            → result.0.text ≡ cut (joined_texts all) 63 }
    {
        CacheString(ArrayString::from_iterator(pieces))
    }

    /// Creates a string from all pieces, joined.
    ///
    /// # Precondition
    ///
    /// All pieces that the iterator returns must fit together. The iterator must end, and until then
    /// the precondition of its `next` must hold.
    pub fn from_iterator_unchecked<'a, I: IntoIterator<Item = &'a str> + Drop>(pieces: I) -> Self
        requires ends { IsFiniteIterable I.into_iter_gives I.IntoIter.can_next
            I.IntoIter.remaining pieces }
        requires fits { Fits I.into_iter_gives I.IntoIter.next_gives joined_pieces pieces 63 }
        ensures taken { (taken : List (Bor (List ℕ)))
            × TakesAll I.into_iter_gives I.IntoIter.next_gives pieces taken
            × (result.0.text ≡ joined_pieces taken) }
        ensures whole { (all : List (List ℕ))
            → Gives I.into_iter_gives I.IntoIter.next_gives piece_text pieces all
            → result.0.text ≡ joined_texts all }
    {
        CacheString(ArrayString::from_iterator_unchecked(pieces))
    }

    /// Creates a string from all characters that the iterator returns.
    ///
    /// # Errors
    ///
    /// Returns `Err(OutOfBounds)` if not all of the characters fit.
    ///
    /// # Precondition
    ///
    /// The iterator must end, and until then the precondition of its `next` must hold.
    pub fn try_from_chars<I: IntoIterator<Item = char> + Drop>(
        characters: I,
    ) -> Result<Self, OutOfBounds>
        requires { IsFiniteIterable I.into_iter_gives I.IntoIter.can_next
            I.IntoIter.remaining characters }
        ensures taken { (taken : List ℕ)
            × Takes I.into_iter_gives I.IntoIter.next_gives (λ cs. cs) characters 63 taken
            × IsWholeOrRefused taken 63 (map_err_from_out_of_bounds (inner_result result)) }
        ensures whole { (all : List ℕ)
            → Gives I.into_iter_gives I.IntoIter.next_gives (λ c. c) characters all
            → IsWholeOrRefused all 63 (map_err_from_out_of_bounds (inner_result result)) }
    {
        Ok(CacheString(ArrayString::try_from_chars(characters)?))
    }

    /// Creates a string from the longest prefix of the characters that fits. It ends before the
    /// first character that does not fit, even if a later one takes fewer bytes and would fit.
    ///
    /// # Precondition
    ///
    /// The iterator must end, and until then the precondition of its `next` must hold.
    pub fn from_chars<I: IntoIterator<Item = char> + Drop>(characters: I) -> Self
        requires { IsFiniteIterable I.into_iter_gives I.IntoIter.can_next
            I.IntoIter.remaining characters }
        ensures taken { (taken : List ℕ)
            × Takes I.into_iter_gives I.IntoIter.next_gives (λ cs. cs) characters 63 taken
            × (result.0.text ≡ cut taken 63) }
        ensures whole { (all : List ℕ)
            → Gives I.into_iter_gives I.IntoIter.next_gives (λ c. c) characters all
            → result.0.text ≡ cut all 63 }
    {
        CacheString(ArrayString::from_chars(characters))
    }

    /// Creates a string from all characters that the iterator returns.
    ///
    /// # Precondition
    ///
    /// The characters that the iterator returns must fit. The iterator must end, and until then the
    /// precondition of its `next` must hold.
    pub fn from_chars_unchecked<I: IntoIterator<Item = char> + Drop>(characters: I) -> Self
        requires ends { IsFiniteIterable I.into_iter_gives I.IntoIter.can_next
            I.IntoIter.remaining characters }
        requires fits { Fits I.into_iter_gives I.IntoIter.next_gives (λ cs. cs) characters 63 }
        ensures taken { (taken : List ℕ)
            × TakesAll I.into_iter_gives I.IntoIter.next_gives characters taken
            × (result.0.text ≡ taken) }
        ensures whole { (all : List ℕ)
            → Gives I.into_iter_gives I.IntoIter.next_gives (λ c. c) characters all
            → result.0.text ≡ all }
    {
        CacheString(ArrayString::from_chars_unchecked(characters))
    }

    /// Creates a string from the UTF-8 in `given`.
    ///
    /// # Errors
    ///
    /// The first of these whose condition holds is returned:
    ///
    /// - `Err(Error::Utf8)` if `given` is not well-formed UTF-8 (the Unicode Standard, section
    ///   3.9);
    /// - `Err(Error::OutOfBounds)` if the text is larger than the capacity.
    pub fn try_from_utf8(given: &[u8]) -> Result<Self, Error>
        ensures malformed { ¬ (IsWellFormed given.now) → inner_result result ≡ Err error.Utf8 }
        ensures too_large { inner_result result ≡ Err error.OutOfBounds → IsWellFormed given.now }
        ensures whole { (t : List ℕ)
            → IsText t → bytes t ≡ given.now → IsWholeOrRefused t 63 (inner_result result) }
        ensures made { IsOk result ↔ (IsWellFormed given.now × (length given.now ≤ 63)) }
        ensures bytes { IfOk result (λ made. bytes made.0.text ≡ given.now) }
        ensures text { IfOk result (λ made. IsText made.0.text) }
    {
        Ok(CacheString(ArrayString::try_from_utf8(given)?))
    }

    /// Creates a string from the UTF-8 in `given`, **cut** to the longest prefix of whole characters
    /// that fits. `try_from_utf8` refuses what does not fit.
    ///
    /// # Errors
    ///
    /// Returns `Err(Utf8)` if `given` is not well-formed UTF-8 (the Unicode Standard, section
    /// 3.9), even if only bytes that would be cut off are malformed.
    pub fn from_utf8(given: &[u8]) -> Result<Self, Utf8>
        ensures well_formed { IsOk result ↔ IsWellFormed given.now }
        ensures cut { (t : List ℕ)
            → IsText t → bytes t ≡ given.now → IfOk result (λ made. made.0.text ≡ cut t 63) }
        ensures text { IfOk result (λ made. IsText made.0.text) }
    {
        Ok(CacheString(ArrayString::from_utf8(given)?))
    }

    /// Creates a string from the UTF-8 in `given`.
    ///
    /// # Precondition
    ///
    /// `given` must be well-formed UTF-8 (the Unicode Standard, section 3.9), and all of it must
    /// fit.
    pub fn from_utf8_unchecked(given: &[u8]) -> Self
        requires well_formed { IsWellFormed given.now }
        requires fits { length given.now ≤ 63 }
        ensures bytes { bytes result.0.text ≡ given.now }
        ensures text { IsText result.0.text }
    {
        CacheString(ArrayString::from_utf8_unchecked(given))
    }

    /// Creates a string from the UTF-16 in `units`.
    ///
    /// # Errors
    ///
    /// The units are read in order, as characters and lone surrogates. The first that cannot be
    /// appended decides:
    ///
    /// - `Err(Error::Utf16)` if it is a lone surrogate;
    /// - `Err(Error::OutOfBounds)` if it is a character that does not fit.
    pub fn try_from_utf16(units: &[u16]) -> Result<Self, Error>
        ensures whole { (items : List Unit16)
            → IsReading units.now items
            → GivesWholeOrError (first_stop items 63) (inner_result result) }
        ensures units { IfOk result (λ made. text_units made.0.text ≡ units.now) }
    {
        Ok(CacheString(ArrayString::try_from_utf16(units)?))
    }

    /// Creates a string from `units`, which are read in order, as characters and lone surrogates, up to the
    /// first that cannot be appended. If it is a character that does not fit, the text is **cut** before it,
    /// and nothing after it has an effect. `try_from_utf16` refuses what does not fit.
    ///
    /// # Errors
    ///
    /// Returns `Err(Utf16)` if it is a lone surrogate, even if the string is full.
    pub fn from_utf16(units: &[u16]) -> Result<Self, Utf16>
        ensures { (items : List Unit16)
            → IsReading units.now items
            → GivesPrefixOrFault (first_stop items 63) (inner_result result) }
    {
        Ok(CacheString(ArrayString::from_utf16(units)?))
    }

    /// Creates a string from the longest prefix of the characters of `units` that fits. Each lone
    /// surrogate is read as U+FFFD, which takes three bytes.
    pub fn from_utf16_lossy(units: &[u16]) -> Self
        ensures { (items : List Unit16)
            → IsReading units.now items → result.0.text ≡ cut (lossy_text items) 63 }
    {
        CacheString(ArrayString::from_utf16_lossy(units))
    }

    /// Splits the text at the byte index `at`, which may be the length. Keeps the part before it
    /// and returns the part from it on.
    ///
    /// # Errors
    ///
    /// The first of these whose condition holds is returned, and the text is then unchanged:
    ///
    /// - `Err(Error::OutOfBounds)` if `at` is past the text;
    /// - `Err(Error::Utf8)` if `at` is inside a character.
    pub fn split_off(&mut self, at: u8) -> Result<Self, Error>
        ensures { Makes (split self.old.0.text at) self.old.0.text
            (string_result_as_text (inner_result result)) self.new.0.text }
    {
        Ok(CacheString(self.0.split_off(at)?))
    }
}
