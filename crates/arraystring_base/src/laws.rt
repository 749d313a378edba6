//! Laws of texts, which callers may rely on. Each does nothing when it is called and carries its
//! fact in its contract.
ghost use Rattle.std.specs.Prelude.{◌≡◌, ◌<◌, ◌≤◌, ◌↔◌, ◌⊎◌, ◌==◌, ◌++◌, ◌∷◌, ℕ, List, None, IsTrue, MatchOption, chars, length, map};
ghost use Rattle.std.specs.List.{before_first, after_first, position_or_len};
ghost use Rattle.std.specs.Str.{NonePass};
ghost use Rattle.std.specs.Str.Pattern.{FindsChar, MatchBeginsAt, SplitsAroundMatch};
ghost use Rattle.std.specs.Ordering.{nat_cmp};
ghost use Rattle.std.specs.Cmp.Lexicographic.{slice_cmp};
ghost use Rattle.std.specs.declared.cmp.Ordering.TheVariants.{Less, Equal, Greater};
ghost use Rattle.arraystring_base.specs.Text.{bytes, cut, size, front, back, boundary, IsText, IsWellFormed, IsPrefix, IsLongestFitting, IsBefore};
ghost use Rattle.arraystring_base.specs.Utf16.{IsReading, DecodingStop, IsStopOf, first_stop, text_units};
ghost use Rattle.arraystring_base.specs.declared.utf16.Unit16.{Unit16};
ghost use Rattle.arraystring_base.specs.declared.utf16.Unit16.TheVariants.{Char};

/// The cut of a text to `n` bytes is the longest of its prefixes that take at most `n` bytes. There is
/// exactly one longest. If the whole text takes at most `n` bytes, it is its own cut.
pub fn longest_cut()
    ensures longest { (t p : List ℕ) (n : ℕ) → (p ≡ cut t n) ↔ IsLongestFitting p t n }
    ensures whole { (t : List ℕ) (n : ℕ) → size t ≤ n → cut t n ≡ t }
{}

/// Two cuts are one: cut a text to `m` bytes, and the result to `n` bytes, which are no more than `m`.
/// This gives the same as to cut the text to `n` bytes at once.
#[tactic(auto, using(crate::proofs::CutLaws::cut_cut))]
pub fn cut_of_cut()
    ensures { (t : List ℕ) (m n : ℕ) → n ≤ m → cut (cut t m) n ≡ cut t n }
{}

/// `i` is a boundary of a text if and only if one of its prefixes has size `i`.
#[tactic(auto, using(crate::proofs::BoundaryLaws::boundary_prefix))]
pub fn boundaries_are_sizes()
    ensures { (t : List ℕ) (i : ℕ)
        → IsTrue (boundary t i) ↔ ((p : List ℕ) × IsPrefix p t × (size p ≡ i)) }
{}

/// An index splits a text into the part before it and the part from it on. Joined, they are the text. If
/// the index is a boundary, the part before it has that many bytes. If a text is two texts joined, and the
/// index is the size of the first, the parts are these two.
#[tactic(auto, using(crate::proofs::BoundaryLaws::parts))]
pub fn split_and_join_invert()
    ensures joined { (t : List ℕ) (i : ℕ) → front t i ++ back t i ≡ t }
    ensures size { (t : List ℕ) (i : ℕ) → IsTrue (boundary t i) → size (front t i) ≡ i }
    ensures before { (p q : List ℕ) → front (p ++ q) (size p) ≡ p }
    ensures behind { (p q : List ℕ) → back (p ++ q) (size p) ≡ q }
{}

/// The size of a text is the number of bytes of its UTF-8. So `as_bytes` and `as_str` of a string
/// return `len` bytes.
#[tactic(auto, using(crate::proofs::TextLaws::size_is))]
pub fn size_is_length()
    ensures { (t : List ℕ) → size t ≡ length (bytes t) }
{}

/// Texts with the same UTF-8 are the same.
#[tactic(auto, using(crate::proofs::TextLaws::bytes_same))]
pub fn equal_bytes_are_one_text()
    ensures { (a b : List ℕ) → bytes a ≡ bytes b → a ≡ b }
{}

/// Every `&str` is the bytes of its characters, and each of these is a Unicode scalar value.
#[tactic(auto, using(crate::proofs::TextLaws::borrowed))]
pub fn str_is_text(given: &str)
    ensures text { IsText (chars given.now) }
    ensures bytes { bytes (chars given.now) ≡ given.now }
{}

/// Two texts `a` and `b` compare by their bytes as they compare by their characters. The bytes of `a`
/// are less than those of `b` if and only if `a` comes before `b`. They are equal if and only if `a` and
/// `b` are the same text.
#[tactic(auto, using(crate::proofs::OrderLaws::order_of_bytes))]
pub fn order_of_bytes()
    ensures same { (a b : List ℕ) → slice_cmp nat_cmp (bytes a) (bytes b) ≡ slice_cmp nat_cmp a b }
    ensures less { (a b : List ℕ) → (slice_cmp nat_cmp (bytes a) (bytes b) ≡ Less) ↔ IsBefore a b }
    ensures equal { (a b : List ℕ) → (slice_cmp nat_cmp (bytes a) (bytes b) ≡ Equal) ↔ (a ≡ b) }
    ensures greater { (a b : List ℕ)
        → (slice_cmp nat_cmp (bytes a) (bytes b) ≡ Greater) ↔ IsBefore b a }
{}

/// If two texts differ, one comes before the other. If `a` comes before `b` and `b` before `c`, `a`
/// comes before `c`. No text comes before itself.
pub fn texts_are_totally_ordered()
    ensures total { (a b : List ℕ) → IsBefore a b ⊎ (a ≡ b) ⊎ IsBefore b a }
    ensures transitive { (a b c : List ℕ) → IsBefore a b → IsBefore b c → IsBefore a c }
    ensures itself { (a : List ℕ) → ¬ (IsBefore a a) }
{}

/// UTF-16 units can be read as characters and lone surrogates in exactly one way.
pub fn only_reading(units: &[u16])
    ensures some { (items : List Unit16) × IsReading units.now items }
    ensures only { (a b : List Unit16) → IsReading units.now a → IsReading units.now b → a ≡ b }
{}

/// The UTF-16 of a text is read as its characters, and as nothing else.
pub fn text_units_read_as_text()
    ensures { (t : List ℕ) (items : List Unit16)
        → IsText t → (IsReading (text_units t) items) ↔ (items ≡ map Char t) }
{}

/// The first stop of items at `n` bytes is the longest prefix of characters that takes at most `n` bytes,
/// together with what comes right after it: nothing, a lone surrogate, or a character that does not fit. There
/// is exactly one.
#[tactic(auto, using(crate::proofs::Utf16Laws::first_stop_is))]
pub fn only_first_stop()
    ensures { (items : List Unit16) (n : ℕ) (stop : DecodingStop)
        → (IsStopOf items n stop) ↔ (first_stop items n ≡ stop) }
{}

/// `str::find` returns the boundary at which a character first stands. If it returns `None`, the character
/// is not in the text.
///
/// # Precondition
///
/// `place` must be what `text.find(c)` returned.
#[tactic(auto, using(crate::proofs::FindLaws::find_first))]
pub fn str_find_gives_first(text: &str, c: char, place: Option<usize>)
    requires { MatchOption place (FindsChar c text.now None)
        (MatchBeginsAt (FindsChar c) text.now) }
    ensures { MatchOption place
        (position_or_len (λ d. d == c) (chars text.now) ≡ length (chars text.now))
        (λ i. (i < size (chars text.now))
        × IsTrue (boundary (chars text.now) i)
        × (front (chars text.now) i ≡ before_first (λ d. d == c) (chars text.now))
        × (back (chars text.now) i ≡ c ∷ after_first (λ d. d == c) (chars text.now))) }
{}

/// What `text.split_once(c)` returned: the parts before and behind the first place where the character
/// stands, or `None` if the character is not in the text.
///
/// # Precondition
///
/// `parts` must be what `text.split_once(c)` returned.
pub fn split_once_at_first(text: &str, c: char, parts: Option<(&str, &str)>)
    requires { MatchOption parts (FindsChar c text.now None)
        (λ found. SplitsAroundMatch (FindsChar c) text.now found.0.now found.1.now) }
    ensures { MatchOption parts.entry
        (position_or_len (λ d. d == c) (chars text.now) ≡ length (chars text.now))
        (λ found. (position_or_len (λ d. d == c) (chars text.now) < length (chars text.now))
        × (chars found.0.now ≡ before_first (λ d. d == c) (chars text.now))
        × (chars found.1.now ≡ after_first (λ d. d == c) (chars text.now))
        × (chars text.now ≡ chars found.0.now ++ c ∷ chars found.1.now)
        × NonePass (λ d. d == c) (chars found.0.now)) }
{}
