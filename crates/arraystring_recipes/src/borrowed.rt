//! A string that is lent to std as a `&str`, whose contracts speak of bytes.
ghost use Rattle.std.specs.Prelude.{◌≡◌, ◌≢◌, ◌↔◌, ◌++◌, ℕ, List, IsTrue, IfNone, IfSome, chars, codes};
ghost use Rattle.std.specs.Cmp.Lexicographic.{slice_cmp};
ghost use Rattle.std.specs.Ordering.{nat_cmp};
ghost use Rattle.arraystring.specs.Text.{size};

use arraystring::ArrayString;
use std::cmp::Ordering;

/// Whether a string has this text.
#[tactic(auto, using(arraystring::proofs::Rules::borrowed))]
pub fn is_text<const N: usize>(string: &ArrayString<N>, text: &str) -> bool
    ensures { IsTrue result ↔ (string.now.text ≡ chars text.now) }
{
    string.as_str() == text
}

/// Whether a string has the text `GET`.
#[tactic(auto, using(arraystring::proofs::Rules::borrowed, arraystring::proofs::Rules::literals))]
pub fn is_get<const N: usize>(string: &ArrayString<N>) -> bool
    ensures { IsTrue result ↔ (string.now.text ≡ codes "GET") }
{
    string.as_str() == "GET"
}

/// Whether strings of two capacities have the same text.
#[tactic(auto, using(arraystring::proofs::Rules::borrowed))]
pub fn same_text<const M: usize, const N: usize>(a: &ArrayString<M>, b: &ArrayString<N>) -> bool
    ensures { IsTrue result ↔ (a.now.text ≡ b.now.text) }
{
    a.as_str() == b.as_str()
}

/// Returns how a string and a text are ordered, by their characters.
#[tactic(auto, using(arraystring::proofs::Rules::borrowed))]
pub fn order<const N: usize>(string: &ArrayString<N>, text: &str) -> Ordering
    ensures { result ≡ slice_cmp nat_cmp string.now.text (chars text.now) }
{
    string.as_str().cmp(text)
}

/// Returns how many bytes a text takes.
#[tactic(auto, using(arraystring::proofs::Rules::borrowed))]
pub fn size_of_text(text: &str) -> usize
    ensures { result ≡ size (chars text.now) }
{
    text.len()
}

/// Returns how many bytes the text of a string takes, by the `&str`.
#[tactic(auto, using(arraystring::proofs::Rules::borrowed))]
pub fn size_of_string<const N: usize>(string: &ArrayString<N>) -> usize
    ensures { result ≡ size string.now.text }
{
    string.as_str().len()
}

/// Returns what stands behind `prefix` in a text, or `None` if the text does not begin with `prefix`.
#[tactic(auto, using(arraystring::proofs::Rules::prefixes))]
pub fn behind<'a>(text: &'a str, prefix: &str) -> Option<&'a str>
    ensures some { IfSome result (λ rest. chars text.now ≡ chars prefix.now ++ chars rest.now) }
    ensures none { IfNone result ((rest : List ℕ) → chars text.now ≢ chars prefix.now ++ rest) }
{
    text.strip_prefix(prefix)
}
