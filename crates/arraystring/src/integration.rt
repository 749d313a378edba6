//! Strings as JSON values of `serde_json`.
ghost use Rattle.std.specs.Prelude.{◌≡◌, Some, None, IfOk, IfErr, MatchResult};
ghost use Rattle.serde_json.specs.View.{view};
ghost use Rattle.arraystring_core.specs.Json.{json_string, cut_text_of_value, text_of_value, IsWhyRefused};

use crate::CacheString;
use arraystring_core::ArrayString;
pub use arraystring_core::integration::{NotText, ValueError};
use serde_json::Value;
use std::alloc::{AllocError, Global};

impl CacheString {
    /// Returns the text as a JSON string, which takes memory from `alloc`. `from_value` returns the text again.
    ///
    /// # Errors
    ///
    /// Returns `Err(AllocError)` if memory runs out.
    pub fn to_value(&self, alloc: Global) -> Result<Value, AllocError>
        ensures text { IfOk result (λ value. view value ≡ json_string self.now.0.text) }
        ensures reads_back { IfOk result
            (λ value. cut_text_of_value (view value) 63 ≡ Some self.now.0.text) }
        ensures reads_whole { IfOk result
            (λ value. text_of_value (view value) ≡ Some self.now.0.text) }
    {
        self.0.to_value(alloc)
    }

    /// Creates a string from the longest prefix of whole characters of a JSON string that fits. A
    /// JSON string that does not fit is cut without an error; `try_from_value` refuses it.
    ///
    /// # Errors
    ///
    /// Returns `Err(NotText)` if `value` is no JSON string: null, a boolean, a number, an array or
    /// an object.
    pub fn from_value(value: &Value) -> Result<Self, NotText>
        ensures { MatchResult result
            (λ string. cut_text_of_value (view value.now) 63 ≡ Some string.0.text)
            (λ _. cut_text_of_value (view value.now) 63 ≡ None) }
    {
        Ok(CacheString(ArrayString::from_value(value)?))
    }

    /// Creates a string from all of a JSON string.
    ///
    /// # Errors
    ///
    /// The first of these whose condition holds is returned:
    ///
    /// - `Err(ValueError::NotText)` if `value` is no JSON string: null, a boolean, a number, an
    ///   array or an object;
    /// - `Err(ValueError::OutOfBounds)` if the JSON string is larger than 63 bytes.
    pub fn try_from_value(value: &Value) -> Result<Self, ValueError>
        ensures text { IfOk result (λ string. text_of_value (view value.now) ≡ Some string.0.text) }
        ensures refusal { IfErr result
            (λ error. IsWhyRefused (text_of_value (view value.now)) 63 error) }
    {
        Ok(CacheString(ArrayString::try_from_value(value)?))
    }
}
