//! The traits of a `CacheString`, each as the string inside has it. The comparisons and `Default` are
//! written out and not derived, so that a caller's proof can cite what each call returns.
ghost use Rattle.std.specs.Prelude.{◌≡◌, ◌++◌, [], Ok, Some, IsOk, chars, nat_eq, refl};
ghost use Rattle.arraystring_base.specs.Text.{bytes, IsBefore};
ghost use Rattle.arraystring_core.specs.Edits.{Makes, map_err_from_out_of_bounds, map_err_from_fmt, addition, addition_of_cut};
ghost use Rattle.arraystring_core.specs.Construct.{IsWholeOrRefused};
ghost use Rattle.arraystring.specs.Cached.{inner_result};
ghost use Rattle.std.specs.Cmp.{on_equiv, on_per, on_total, on_po, partial_equiv_from_equiv};
ghost use Rattle.std.specs.Cmp.Lexicographic.{pointwise, slice_cmp, nat_list_eq_equiv, nat_list_cmp_total, texts_po, texts_ties, bytes_decides};
ghost use Rattle.std.specs.Hash as fed;
ghost use Rattle.std.specs.Ordering.{nat_cmp, MatchOrdering};

use crate::CacheString;
use crate::error::OutOfBounds;
use arraystring_core::ArrayString;
use std::cmp::Ordering;
use std::fmt;
use std::hash::{Hash, Hasher};
use std::ops::Add;
use std::str::FromStr;

/// Appends the longest prefix of whole characters of the `&str` that fits.
impl<'a> Add<&'a str> for CacheString {
    type Output = Self;

    ghost add_gives = { λ s given sum.
        Makes (addition_of_cut s.0.text (chars given.now) 63) s.0.text (Ok tt) sum.0.text };

    fn add(self, given: &'a str) -> Self {
        CacheString(self.0 + given)
    }
}

/// An empty string.
impl Default for CacheString {
    ghost is_default = { λ s. s.0.text ≡ [] };

    fn default() -> Self {
        Self::new()
    }
}

/// Writes the text. A width and a precision in the format are ignored: nothing is padded, and
/// nothing is cut.
impl fmt::Display for CacheString {
    ghost output = { λ s. Some (bytes s.0.text) };

    ghost styled_output = { λ s _. Some (bytes s.0.text) };

    fn fmt<W: fmt::Write>(&self, f: &mut fmt::Formatter<W>) -> fmt::Result {
        f.write_str(self.0.as_str())
    }
}

/// Each string is equal to itself, and so to a copy of it.
impl Eq for CacheString {
    ghost laws = { on_equiv (λ s. s.0.text) nat_list_eq_equiv };
}

/// A `CacheString` of the same text.
impl From<ArrayString<63>> for CacheString {
    ghost from_gives = { λ string made. made.0.text ≡ string.text };

    fn from(string: ArrayString<63>) -> Self {
        CacheString(string)
    }
}

/// Makes a string as `try_from_str` does.
impl FromStr for CacheString {
    type Err = OutOfBounds;

    ghost from_str_gives = { λ string result.
        IsWholeOrRefused (chars string) 63 (map_err_from_out_of_bounds (inner_result result)) };

    /// Creates a string from `string`.
    ///
    /// # Errors
    ///
    /// Returns `Err(OutOfBounds)` if `string` is larger than the capacity.
    fn from_str(string: &str) -> Result<Self, OutOfBounds> {
        Self::try_from_str(string)
    }
}

/// Hashes as the `&str` of the text does.
impl Hash for CacheString {
    ghost hash_input = { λ s. fed.str (bytes s.0.text) };

    ghost respects_eq = { (fed.on_Alike (λ s. s.0.text)
        (fed.same_Alike (λ t. fed.str (bytes t)) bytes_decides)).fed };

    fn hash<H: Hasher>(&self, state: &mut H) {
        self.0.hash(state);
    }
}

/// Strings are ordered by their characters, as their texts are.
impl Ord for CacheString {
    ghost cmp = { λ s t. slice_cmp nat_cmp s.0.text t.0.text };

    ghost total = { on_total (λ s. s.0.text) nat_list_cmp_total };

    ghost matches_partial_cmp = { λ s t. refl };

    ghost matches_eq = { λ s t. texts_ties s.0.text t.0.text };

    /// Compares the texts lexicographically, by the scalar values of their characters. A prefix of a longer text is
    /// less than it. The order of the bytes of UTF-8 is the same.
    fn cmp(&self, other: &Self) -> Ordering
        ensures order { result ≡ slice_cmp nat_cmp self.now.0.text other.now.0.text }
        ensures of_bytes { result
            ≡ slice_cmp nat_cmp (bytes self.now.0.text) (bytes other.now.0.text) }
        ensures says { MatchOrdering result
            (IsBefore self.now.0.text other.now.0.text)
            (self.now.0.text ≡ other.now.0.text)
            (IsBefore other.now.0.text self.now.0.text) }
    {
        self.0.cmp(&other.0)
    }
}

/// Strings are equal if and only if their texts are.
impl PartialEq for CacheString {
    ghost eq = { λ s t. pointwise nat_eq s.0.text t.0.text };

    ghost laws = { on_per (λ s. s.0.text) (partial_equiv_from_equiv nat_list_eq_equiv) };

    fn eq(&self, other: &Self) -> bool {
        self.0 == other.0
    }
}

/// Always `Some` of what `cmp` returns.
impl PartialOrd for CacheString {
    ghost partial_cmp = { λ s t. Some (slice_cmp nat_cmp s.0.text t.0.text) };

    ghost laws = { on_po (λ s. s.0.text) texts_po };

    fn partial_cmp(&self, other: &Self) -> Option<Ordering> {
        Some(self.cmp(other))
    }
}

/// `write!` appends what it prints, each piece whole.
impl fmt::Write for CacheString {
    ghost write_str_gives = { λ s given t. bytes t.0.text ≡ bytes s.0.text ++ given };

    /// Appends `string`.
    ///
    /// # Errors
    ///
    /// Returns `Err(fmt::Error)` if not all of `string` fits. The text is then unchanged. A
    /// `write!` of several pieces keeps those before the one that is refused.
    fn write_str(&mut self, string: &str) -> fmt::Result
        ensures ok { IsOk result → bytes self.new.0.text ≡ bytes self.old.0.text ++ string.now }
        ensures made { Makes (addition self.old.0.text (chars string.now) 63)
            self.old.0.text (map_err_from_fmt result) self.new.0.text }
    {
        self.0.write_str(string)
    }
}
