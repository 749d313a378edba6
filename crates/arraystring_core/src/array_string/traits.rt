//! The traits of a string: how it is printed, made, compared, hashed and appended to. Those that compare and hash
//! stand a second time in drain/traits.rt, for a `Drain`, because `rt ci` takes no `impl` that a macro of this
//! repository wrote.
ghost use Rattle.std.specs.Prelude.{◌≡◌, Ok, [], ◌++◌, chars, nat_eq, IsOk, Some, refl};
ghost use Rattle.std.specs.Cmp.{on_equiv, on_per, partial_equiv_from_equiv, on_total, on_po};
ghost use Rattle.std.specs.Cmp.Lexicographic.{pointwise, nat_list_eq_equiv, slice_cmp, nat_list_cmp_total, texts_po, texts_ties, bytes_decides};
ghost use Rattle.arraystring_base.specs.Text.{bytes, cap, cut, IsBefore};
ghost use Rattle.arraystring_core.specs.Edits.{Makes, map_err_from_out_of_bounds, map_err_from_fmt, addition, addition_of_cut};
ghost use Rattle.arraystring_core.specs.Construct.{IsWholeOrRefused};
ghost use Rattle.std.specs.Hash as fed;
ghost use Rattle.std.specs.Ordering.{nat_cmp, MatchOrdering};

use crate::ArrayString;
use arraystring_base::error::OutOfBounds;
use std::cmp::Ordering;
use std::fmt;
use std::hash::{Hash, Hasher};
use std::ops::Add;
use std::str::FromStr;

/// Appends the longest prefix of whole characters of the `&str` that fits.
impl<'a, const N: usize> Add<&'a str> for ArrayString<N> {
    type Output = Self;

    ghost add_gives = { λ s given sum.
        Makes (addition_of_cut s.text (chars given.now) (cap N)) s.text (Ok tt) sum.text };

    #[inline]
    fn add(mut self, given: &'a str) -> Self {
        self.push_str(given);
        self
    }
}

/// `ArrayString { array: "abc", size: 3 }` for the text `abc`; the size counts bytes of UTF-8.
impl<const N: usize> fmt::Debug for ArrayString<N> {
    #[inline]
    fn fmt<W: fmt::Write>(&self, f: &mut fmt::Formatter<W>) -> fmt::Result {
        f.debug_struct("ArrayString")
            .field("array", &self.as_str())
            .field("size", &self.size)
            .finish()
    }
}

/// An empty string.
impl<const N: usize> Default for ArrayString<N> {
    ghost is_default = { λ s. s.text ≡ [] };

    #[inline]
    fn default() -> Self {
        Self::new()
    }
}

/// Writes the text. A width and a precision in the format are ignored: nothing is padded, and
/// nothing is cut.
impl<const N: usize> fmt::Display for ArrayString<N> {
    ghost output = { λ s. Some (bytes s.text) };

    ghost styled_output = { λ s _. Some (bytes s.text) };

    #[inline]
    fn fmt<W: fmt::Write>(&self, f: &mut fmt::Formatter<W>) -> fmt::Result {
        f.write_str(self.as_str())
    }
}

/// Each string is equal to itself, and so to a copy of it.
impl<const N: usize> Eq for ArrayString<N> {
    ghost laws = { on_equiv (λ s. s.text) nat_list_eq_equiv };
}

/// Makes a string as `from_str_truncate` does, also by `into`: what does not fit is **cut** off. Where this
/// file is translated to Rust, std makes a `try_from` of this, too, which cuts and returns `Ok`. (The public
/// type of the Cargo crate has a `try_from` of its own, which refuses.) `parse` and `try_from_str` refuse a
/// text that does not fit.
impl<'a, const N: usize> From<&'a str> for ArrayString<N> {
    ghost from_gives = { λ string made. made.text ≡ cut (chars string.now) (cap N) };

    #[inline]
    fn from(string: &'a str) -> Self {
        Self::from_str_truncate(string)
    }
}

/// Makes a string as `try_from_str` does.
impl<const N: usize> FromStr for ArrayString<N> {
    type Err = OutOfBounds;

    ghost from_str_gives = { λ string result.
        IsWholeOrRefused (chars string) (cap N) (map_err_from_out_of_bounds result) };

    /// Creates a string from `string`.
    ///
    /// # Errors
    ///
    /// Returns `Err(OutOfBounds)` if `string` is larger than the capacity.
    #[inline]
    fn from_str(string: &str) -> Result<Self, OutOfBounds> {
        Self::try_from_str(string)
    }
}

/// Hashes as the `&str` of the text does.
impl<const N: usize> Hash for ArrayString<N> {
    ghost hash_input = { λ s. fed.str (bytes s.text) };

    ghost respects_eq = { (fed.on_Alike (λ s. s.text)
        (fed.same_Alike (λ t. fed.str (bytes t)) bytes_decides)).fed };

    #[inline]
    fn hash<H: Hasher>(&self, state: &mut H) {
        self.as_str().hash(state);
    }
}

/// Strings are ordered by their characters, as their texts are.
impl<const N: usize> Ord for ArrayString<N> {
    ghost cmp = { λ s t. slice_cmp nat_cmp s.text t.text };

    ghost total = { on_total (λ s. s.text) nat_list_cmp_total };

    ghost matches_partial_cmp = { λ s t. refl };

    ghost matches_eq = { λ s t. texts_ties s.text t.text };

    /// Compares the texts lexicographically, by the scalar values of their characters. A prefix of
    /// a longer text is less than it. The order of the bytes of UTF-8 is the same.
    #[inline(always)]
    fn cmp(&self, other: &Self) -> Ordering
        ensures order { result ≡ slice_cmp nat_cmp self.now.text other.now.text }
        ensures of_bytes { result ≡ slice_cmp nat_cmp (bytes self.now.text) (bytes other.now.text) }
        ensures says { MatchOrdering result
            (IsBefore self.now.text other.now.text)
            (self.now.text ≡ other.now.text)
            (IsBefore other.now.text self.now.text) }
    {
        self.as_str().cmp(other.as_str())
    }
}

/// Strings are equal if and only if their texts are.
impl<const N: usize> PartialEq for ArrayString<N> {
    ghost eq = { λ s t. pointwise nat_eq s.text t.text };

    ghost laws = { on_per (λ s. s.text) (partial_equiv_from_equiv nat_list_eq_equiv) };

    #[inline]
    fn eq(&self, other: &Self) -> bool {
        self.as_str() == other.as_str()
    }
}

/// Always `Some` of what `cmp` returns.
impl<const N: usize> PartialOrd for ArrayString<N> {
    ghost partial_cmp = { λ s t. Some (slice_cmp nat_cmp s.text t.text) };

    ghost laws = { on_po (λ s. s.text) texts_po };

    #[inline(always)]
    fn partial_cmp(&self, other: &Self) -> Option<Ordering> {
        Some(self.cmp(other))
    }
}

/// `write!` appends what it prints, each piece whole.
impl<const N: usize> fmt::Write for ArrayString<N> {
    ghost write_str_gives = { λ s given t. bytes t.text ≡ bytes s.text ++ given };

    /// Appends `string`.
    ///
    /// # Errors
    ///
    /// Returns `Err(fmt::Error)` if not all of `string` fits. The text is then unchanged. A
    /// `write!` of several pieces keeps those before the one that is refused.
    #[inline]
    fn write_str(&mut self, string: &str) -> fmt::Result
        ensures ok { IsOk result → bytes self.new.text ≡ bytes self.old.text ++ string.now }
        ensures made { Makes (addition self.old.text (chars string.now) (cap N))
            self.old.text (map_err_from_fmt result) self.new.text }
    {
        match self.try_push_str(string) {
            Ok(()) => Ok(()),
            Err(_) => Err(fmt::Error),
        }
    }
}
