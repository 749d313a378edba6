//! Strings as JSON values of `serde_json`.
ghost use Rattle.std.specs.Prelude.{◌≡◌, Some, None, IfOk, IfErr, MatchResult, codes};
ghost use Rattle.serde_json.specs.View.{view};
ghost use Rattle.arraystring_base.specs.Text.{cap};
ghost use Rattle.arraystring_core.specs.Json.{json_string, cut_text_of_value, text_of_value, IsWhyRefused, value_error_name};
ghost use Rattle.arraystring_core.specs.declared.integration.ValueError.TheVariants as cases;

use crate::ArrayString;
use arraystring_base::error::OutOfBounds;
use serde_json::Value;
use std::alloc::{AllocError, Global};
use std::error::Error;
use std::fmt;

/// A JSON value that is no string. A width in the format does not pad what is printed.
#[derive(Clone, Copy, PartialEq, Eq)]
pub struct NotText;

/// Prints `NotText`.
impl fmt::Display for NotText {
    ghost output = { λ _. Some (codes "NotText") };

    ghost styled_output = { λ _ _. Some (codes "NotText") };

    fn fmt<W: fmt::Write>(&self, f: &mut fmt::Formatter<W>) -> fmt::Result {
        f.write_str("NotText")
    }
}

/// Prints `NotText`.
impl fmt::Debug for NotText {
    ghost debug_output = { λ _. Some (codes "NotText") };

    fn fmt<W: fmt::Write>(&self, f: &mut fmt::Formatter<W>) -> fmt::Result {
        f.write_str("NotText")
    }
}

impl Error for NotText {}

/// Why `try_from_value` refuses a JSON value.
#[derive(Clone, Copy, PartialEq, Eq, Debug)]
pub enum ValueError {
    /// The value is no JSON string: null, a boolean, a number, an array or an object.
    NotText,
    /// The JSON string is larger than the capacity.
    OutOfBounds,
}

impl ValueError {
    /// The name of the variant.
    fn case_name(&self) -> &'static str
        ensures { result.now ≡ value_error_name self.now }
    {
        match self {
            ValueError::NotText => "NotText",
            ValueError::OutOfBounds => "OutOfBounds",
        }
    }
}

/// Prints the name of the variant. A width in the format does not pad it.
impl fmt::Display for ValueError {
    ghost output = { λ error. Some (value_error_name error) };

    ghost styled_output = { λ error _. Some (value_error_name error) };

    fn fmt<W: fmt::Write>(&self, f: &mut fmt::Formatter<W>) -> fmt::Result {
        f.write_str(self.case_name())
    }
}

impl Error for ValueError {}

/// Converts to the variant of the same name.
impl From<NotText> for ValueError {
    ghost from_gives = { λ _ error. error ≡ cases.NotText };

    fn from(_error: NotText) -> Self {
        ValueError::NotText
    }
}

/// Converts to the variant of the same name.
impl From<OutOfBounds> for ValueError {
    ghost from_gives = { λ _ error. error ≡ cases.OutOfBounds };

    fn from(_error: OutOfBounds) -> Self {
        ValueError::OutOfBounds
    }
}

impl<const N: usize> ArrayString<N> {
    /// Returns the text as a JSON string, which takes memory from `alloc`. `from_value` at the
    /// same capacity returns the text again.
    ///
    /// # Errors
    ///
    /// Returns `Err(AllocError)` if there is not enough memory.
    pub fn to_value(&self, alloc: Global) -> Result<Value, AllocError>
        ensures text { IfOk result (λ value. view value ≡ json_string self.now.text) }
        ensures reads_back { IfOk result
            (λ value. cut_text_of_value (view value) (cap N) ≡ Some self.now.text) }
        ensures reads_whole { IfOk result
            (λ value. text_of_value (view value) ≡ Some self.now.text) }
    {
        Ok(Value::String(String::from_str(alloc, self.as_str())?))
    }

    /// Creates a string from the longest prefix of whole characters of a JSON string that fits. A
    /// JSON string that does not fit is cut without an error; `try_from_value` refuses it.
    ///
    /// # Errors
    ///
    /// Returns `Err(NotText)` if `value` is no JSON string: null, a boolean, a number, an array or
    /// an object.
    pub fn from_value(value: &Value) -> Result<Self, NotText>
        ensures { MatchResult result
            (λ string. cut_text_of_value (view value.now) (cap N) ≡ Some string.text)
            (λ _. cut_text_of_value (view value.now) (cap N) ≡ None) }
    {
        let text = value.as_str().ok_or(NotText)?;
        Ok(Self::from_str_truncate(text))
    }

    /// Creates a string from all of a JSON string.
    ///
    /// # Errors
    ///
    /// The first of these whose condition holds is returned:
    ///
    /// - `Err(ValueError::NotText)` if `value` is no JSON string: null, a boolean, a number, an
    ///   array or an object;
    /// - `Err(ValueError::OutOfBounds)` if the JSON string is larger than the capacity.
    pub fn try_from_value(value: &Value) -> Result<Self, ValueError>
        ensures text { IfOk result (λ string. text_of_value (view value.now) ≡ Some string.text) }
        ensures refusal { IfErr result
            (λ error. IsWhyRefused (text_of_value (view value.now)) (cap N) error) }
    {
        let text = value.as_str().ok_or(NotText)?;
        Ok(Self::try_from_str(text)?)
    }
}
