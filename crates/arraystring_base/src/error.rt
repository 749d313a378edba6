//! The errors, and the conversions to `Error`. When an error is printed, a width and a precision in the
//! format are ignored.
ghost use Rattle.std.specs.Prelude.{◌≡◌, ◌++◌, Some, codes};
ghost use Rattle.std.proofs.Common.{ap};
ghost use Rattle.std.specs.Hash as fed;
ghost use Rattle.arraystring_base.specs.Names.{error_name};
ghost use Rattle.arraystring_base.specs.GhostProofs.{equal_errors_have_equal_names};
ghost use Rattle.arraystring_base.specs.declared.error.Error.TheVariants as cases;

use std::error::Error as StdError;
use std::fmt;
use std::hash::{Hash, Hasher};
use std::str::Utf8Error;

/// Why a call was refused.
#[derive(Clone, Copy, PartialEq, Eq)]
pub enum Error {
    /// Bytes that are not well-formed UTF-8 (the Unicode Standard, section 3.9), or an index
    /// inside a character.
    Utf8,
    /// A lone surrogate in UTF-16 (the Unicode Standard, section 3.9).
    Utf16,
    /// An index or a range outside the text, a reversed range, or a result larger than the capacity.
    OutOfBounds,
}

impl Error {
    /// The name of the variant.
    #[inline]
    fn name(&self) -> &'static str
        ensures { result.now ≡ error_name self.now }
    {
        match self {
            Error::Utf8 => "Utf8",
            Error::Utf16 => "Utf16",
            Error::OutOfBounds => "OutOfBounds",
        }
    }
}

/// Prints the case with its type, such as `Error::Utf8`.
impl fmt::Debug for Error {
    ghost debug_output = { λ e. Some (codes "Error::" ++ error_name e) };

    #[inline]
    fn fmt<W: fmt::Write>(&self, f: &mut fmt::Formatter<W>) -> fmt::Result {
        f.write_str("Error::")?;
        f.write_str(self.name())
    }
}

/// Prints the name alone.
impl fmt::Display for Error {
    ghost output = { λ e. Some (error_name e) };

    ghost styled_output = { λ e _. Some (error_name e) };

    #[inline]
    fn fmt<W: fmt::Write>(&self, f: &mut fmt::Formatter<W>) -> fmt::Result {
        f.write_str(self.name())
    }
}

/// It converts to a `Box<dyn std::error::Error>`, and has no source.
impl StdError for Error {}

/// Converts to the variant of the same name.
impl From<OutOfBounds> for Error {
    ghost from_gives = { λ _ error. error ≡ cases.OutOfBounds };

    #[inline]
    fn from(_error: OutOfBounds) -> Self {
        Error::OutOfBounds
    }
}

/// Converts to the variant of the same name.
impl From<Utf16> for Error {
    ghost from_gives = { λ _ error. error ≡ cases.Utf16 };

    #[inline]
    fn from(_error: Utf16) -> Self {
        Error::Utf16
    }
}

/// Converts to the variant of the same name.
impl From<Utf8> for Error {
    ghost from_gives = { λ _ error. error ≡ cases.Utf8 };

    #[inline]
    fn from(_error: Utf8) -> Self {
        Error::Utf8
    }
}

/// The error of `std` for bytes that are not UTF-8 becomes `Error::Utf8`.
impl From<Utf8Error> for Error {
    ghost from_gives = { λ _ error. error ≡ cases.Utf8 };

    #[inline]
    fn from(error: Utf8Error) -> Self {
        Error::from(Utf8::from(error))
    }
}

/// Hashes as the `&str` of the case's name does.
impl Hash for Error {
    ghost hash_input = { λ e. fed.str (error_name e) };

    ghost respects_eq = { λ x y h. ap fed.str (equal_errors_have_equal_names x y h) };

    #[inline]
    fn hash<H: Hasher>(&self, state: &mut H) {
        self.name().hash(state);
    }
}

/// Bytes that are not well-formed UTF-8 (the Unicode Standard, section 3.9), or an index inside a
/// character. `is_char_boundary` also returns it for an index past the text.
#[derive(Clone, Copy, Default, PartialEq, Eq)]
pub struct Utf8;

/// Prints `Utf8`.
impl fmt::Debug for Utf8 {
    ghost debug_output = { λ _. Some (codes "Utf8") };

    #[inline]
    fn fmt<W: fmt::Write>(&self, f: &mut fmt::Formatter<W>) -> fmt::Result {
        f.write_str("Utf8")
    }
}

/// Prints `Utf8`. A width in the format does not pad it.
impl fmt::Display for Utf8 {
    ghost output = { λ _. Some (codes "Utf8") };

    ghost styled_output = { λ _ _. Some (codes "Utf8") };

    #[inline]
    fn fmt<W: fmt::Write>(&self, f: &mut fmt::Formatter<W>) -> fmt::Result {
        f.write_str("Utf8")
    }
}

/// It converts to a `Box<dyn std::error::Error>`, and has no source.
impl StdError for Utf8 {}

/// The error of `std` for bytes that are not UTF-8 becomes `Utf8`.
impl From<Utf8Error> for Utf8 {
    #[inline]
    fn from(_error: Utf8Error) -> Self {
        Utf8
    }
}

/// A lone surrogate in UTF-16 (the Unicode Standard, section 3.9).
#[derive(Clone, Copy, Default, PartialEq, Eq)]
pub struct Utf16;

/// Prints `Utf16`.
impl fmt::Debug for Utf16 {
    ghost debug_output = { λ _. Some (codes "Utf16") };

    #[inline]
    fn fmt<W: fmt::Write>(&self, f: &mut fmt::Formatter<W>) -> fmt::Result {
        f.write_str("Utf16")
    }
}

/// Prints `Utf16`. A width in the format does not pad it.
impl fmt::Display for Utf16 {
    ghost output = { λ _. Some (codes "Utf16") };

    ghost styled_output = { λ _ _. Some (codes "Utf16") };

    #[inline]
    fn fmt<W: fmt::Write>(&self, f: &mut fmt::Formatter<W>) -> fmt::Result {
        f.write_str("Utf16")
    }
}

/// It converts to a `Box<dyn std::error::Error>`, and has no source.
impl StdError for Utf16 {}

/// An index or a range outside the text, a reversed range, or a result larger than the capacity.
#[derive(Clone, Copy, Default, PartialEq, Eq)]
pub struct OutOfBounds;

/// Prints `OutOfBounds`.
impl fmt::Debug for OutOfBounds {
    ghost debug_output = { λ _. Some (codes "OutOfBounds") };

    #[inline]
    fn fmt<W: fmt::Write>(&self, f: &mut fmt::Formatter<W>) -> fmt::Result {
        f.write_str("OutOfBounds")
    }
}

/// Prints `OutOfBounds`. A width in the format does not pad it.
impl fmt::Display for OutOfBounds {
    ghost output = { λ _. Some (codes "OutOfBounds") };

    ghost styled_output = { λ _ _. Some (codes "OutOfBounds") };

    #[inline]
    fn fmt<W: fmt::Write>(&self, f: &mut fmt::Formatter<W>) -> fmt::Result {
        f.write_str("OutOfBounds")
    }
}

/// It converts to a `Box<dyn std::error::Error>`, and has no source.
impl StdError for OutOfBounds {}
