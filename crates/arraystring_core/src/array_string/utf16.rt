//! Strings from UTF-16.
ghost use Rattle.std.specs.Prelude.{◌≡◌, [], List, IfOk};
ghost use Rattle.arraystring_base.specs.declared.utf16.Unit16.{Unit16};
ghost use Rattle.arraystring_base.specs.Text.{cap, cut};
ghost use Rattle.arraystring_base.specs.Utf16.{IsReading, first_stop, char_or_replacement, lossy_text, text_units};
ghost use Rattle.arraystring_core.specs.FromUtf16.{GivesWholeOrError, GivesPrefixOrFault, stop_before_item};

use crate::ArrayString;
use arraystring_base::error::{Error, Utf16};
use arraystring_base::laws::only_reading;
use arraystring_base::utf16::{Unit16, Units};
use std::char;

impl<const N: usize> ArrayString<N> {
    /// Creates a string from the UTF-16 in `units`.
    ///
    /// # Errors
    ///
    /// The units are read in order, as characters and lone surrogates. The first that cannot be
    /// appended decides:
    ///
    /// - `Err(Error::Utf16)` if it is a lone surrogate;
    /// - `Err(Error::OutOfBounds)` if it is a character that does not fit.
    ///
    /// # Examples
    ///
    /// ```
    /// let units = [0x61, 0xD83E, 0xDD14]; // `a`, and the pair of `🤔`
    /// assert_eq!(ArrayString::<8>::try_from_utf16(&units).unwrap().as_str(), "a🤔");
    /// assert_eq!(ArrayString::<8>::try_from_utf16(&units[..2]), Err(Error::Utf16)); // half a pair
    /// assert_eq!(ArrayString::<4>::try_from_utf16(&units), Err(Error::OutOfBounds)); // five bytes
    /// ```
    #[inline]
    pub fn try_from_utf16(units: &[u16]) -> Result<Self, Error>
        ensures whole { (items : List Unit16) → IsReading units.now items
            → GivesWholeOrError (first_stop items (cap N)) result }
        ensures units { IfOk result (λ made. text_units made.text ≡ units.now) }
    {
        let mut made = Self::new();
        match made.fill_from_units(units) {
            None => Ok(made),
            Some(Unit16::Lone(_)) => Err(Error::Utf16),
            Some(Unit16::Char(_)) => Err(Error::OutOfBounds),
        }
    }

    /// Creates a string from `units`, which are read in order, as characters and lone surrogates, up to the
    /// first that cannot be appended. If it is a character that does not fit, the text is **cut** before it,
    /// and nothing after it has an effect. `try_from_utf16` refuses what does not fit.
    ///
    /// # Errors
    ///
    /// Returns `Err(Utf16)` if it is a lone surrogate, even if the string is full.
    ///
    /// # Examples
    ///
    /// ```
    /// let units = [0x61, 0xD83E, 0xDD14]; // `a`, and the pair of `🤔`
    /// assert_eq!(ArrayString::<4>::from_utf16(&units).unwrap().as_str(), "a"); // no room for `🤔`
    /// assert_eq!(ArrayString::<4>::from_utf16(&units[..2]), Err(Utf16)); // half a pair
    /// ```
    #[inline]
    pub fn from_utf16(units: &[u16]) -> Result<Self, Utf16>
        ensures { (items : List Unit16) → IsReading units.now items
            → GivesPrefixOrFault (first_stop items (cap N)) result }
    {
        let mut made = Self::new();
        if let Some(Unit16::Lone(_)) = made.fill_from_units(units) {
            return Err(Utf16);
        }
        Ok(made)
    }

    /// Creates a string from the longest prefix of the characters of `units` that fits. Each lone
    /// surrogate is read as U+FFFD, which takes three bytes.
    ///
    /// # Examples
    ///
    /// ```
    /// let units = [0x61, 0xD83E, 0x62]; // half a pair between `a` and `b`
    /// assert_eq!(ArrayString::<8>::from_utf16_lossy(&units).as_str(), "a\u{FFFD}b");
    /// assert_eq!(ArrayString::<4>::from_utf16_lossy(&units).as_str(), "a\u{FFFD}");
    /// ```
    #[inline]
    pub fn from_utf16_lossy(units: &[u16]) -> Self
        ensures { (items : List Unit16) → IsReading units.now items
            → result.text ≡ cut (lossy_text items) (cap N) }
    {
        only_reading(units); // gives the prover that what `Units` reads is the only reading
        let mut made = Self::new();
        for item in Units::new(units) {
            match made.try_push(char_or_replacement(item)) {
                Ok(()) => {}
                Err(_) => break,
            }
        }
        made
    }

    /// Appends to the string, which must be empty, the longest prefix of characters of `units` that fits.
    /// Returns the item right after it, or `None` if there is none.
    #[inline]
    fn fill_from_units(&mut self, units: &[u16]) -> Option<Unit16>
        requires { self.old.text ≡ [] }
        ensures { (items : List Unit16) → IsReading units.now items
            → first_stop items (cap N) ≡ stop_before_item result self.new.text }
    {
        only_reading(units); // gives the prover that what `Units` reads is the only reading
        for item in Units::new(units) {
            match item {
                Unit16::Char(ch) => match self.try_push(ch) {
                    Ok(()) => {}
                    Err(_) => return Some(item),
                },
                Unit16::Lone(_) => return Some(item),
            }
        }
        None
    }
}

/// An item as a character, with U+FFFD for a lone surrogate.
#[inline]
fn char_or_replacement(item: Unit16) -> char
    ensures { result ≡ char_or_replacement item }
{
    match item {
        Unit16::Char(ch) => ch,
        Unit16::Lone(_) => char::REPLACEMENT_CHARACTER,
    }
}
