//! Laws of strings, which callers may rely on. Each carries its fact in its contract and changes
//! nothing. `text_fits`, `utf8_decodes_to_text` and `drain_text_fits` call `len` or `as_str`, the others do nothing
//! when called.
ghost use Rattle.std.specs.Prelude.{◌≡◌, ◌+◌, ◌-◌, ◌<◌, ◌≤◌, ◌++◌, ◌∷◌, ◌↔◌, ℕ, Bool, false, List, [], All, IfSome, IsTrue, None, Some, Result, IsOkAnd, length, map, nat_eq, option_map, reverse, chars};
ghost use Rattle.std.specs.Char.{is_whitespace};
ghost use Rattle.std.specs.Iterator.{AlwaysYields, YieldsFirst};
ghost use Rattle.std.specs.Cmp.Lexicographic.{pointwise};
ghost use Rattle.std.specs.Hash as fed;
ghost use Rattle.serde_json.specs.Data.{Data};
ghost use Rattle.arraystring_base.specs.Text.{IsText, bytes, cap, cut, size};
ghost use Rattle.arraystring_base.specs.declared.error.Error.{Error};
ghost use Rattle.arraystring_base.specs.declared.error.Utf16.{Utf16};
ghost use Rattle.arraystring_base.specs.declared.utf16.Unit16.{Unit16};
ghost use Rattle.arraystring_base.specs.Utf16.{IsReading, first_stop, lossy_text, text_units};
ghost use Rattle.arraystring_core.specs.Drained.{DrainView, DrainEnd, walk_from_ends};
ghost use Rattle.arraystring_core.specs.Edits.{first_cause, first_character, last_character, part, popping, replacement, split, trimming_matches, is_white_space};
ghost use Rattle.arraystring_core.specs.FromUtf16.{GivesWholeOrError, GivesPrefixOrFault};
ghost use Rattle.arraystring_core.specs.Json.{json_string, cut_text_of_value, text_of_value};
ghost use Rattle.arraystring_core.specs.Stored.{StringView};
ghost use Rattle.arraystring_core.specs.Taken.{joined_texts};

use crate::{ArrayString, Drain};

/// The text of a string fits its capacity.
#[inline]
pub fn text_fits<const N: usize>(string: &ArrayString<N>)
    ensures { size string.now.text ≤ cap N }
{
    // Outside the module of its type, the prover knows the invariant of a value only after a call on it, such as this
    // one.
    let _ = string.len();
}

/// The UTF-8 of the text of a string, read as characters, is the text again.
#[inline]
#[tactic(auto, using(crate::proofs::StoredLaws::text_spelled))]
pub fn utf8_decodes_to_text<const N: usize>(string: &ArrayString<N>)
    ensures { chars (bytes string.now.text) ≡ string.now.text }
{
    // The prover knows the invariant of the string only after a call on it, such as this one.
    let _ = string.as_str();
}

/// A `Drain` as an iterator gives exactly the characters that are left.
#[tactic(auto, using(crate::proofs::TakenLaws::drain_gives))]
#[inline]
pub fn drain_gives_left<const N: usize>(drained: &Drain<N>)
    ensures { (it : DrainView) → it.left ≡ drained.now.left
        → AlwaysYields (YieldsFirst (λ d. d.left)) (λ c. c) it drained.now.left }
{}

/// What is left of a drain fits the capacity of the string from which it was taken.
#[inline]
pub fn drain_text_fits<const N: usize>(drained: &Drain<N>)
    ensures { size drained.now.left ≤ cap N }
{
    // The prover knows the invariant of the drain only after a call on it, such as this one.
    let _ = drained.as_str();
}

/// If some characters, or some pieces joined, take more than `n` bytes, nothing behind them changes the cut to
/// `n` bytes.
#[tactic(auto, using(crate::proofs::TakenLaws::past_the_room))]
pub fn cut_ignores_excess()
    ensures characters { (taken more : List ℕ) (n : ℕ) → n < size taken
        → cut (taken ++ more) n ≡ cut taken n }
    ensures pieces { (taken more : List (List ℕ)) (n : ℕ) → n < size (joined_texts taken)
        → cut (joined_texts (taken ++ more)) n ≡ cut (joined_texts taken) n }
{}

/// If the bytes of `whole` are the bytes of the pieces, one after the other, then `whole` is the
/// pieces joined, and has the same cuts. So `from_iterator` of pieces does what `from_str_truncate`
/// of the joined pieces does.
#[tactic(auto, using(crate::proofs::TakenLaws::bytes_joined))]
pub fn chars_of_joined_pieces(whole: &str)
    ensures text { (pieces : List (List ℕ)) → whole.now ≡ joined_texts (map bytes pieces)
        → chars whole.now ≡ joined_texts pieces }
    ensures cut { (pieces : List (List ℕ)) (n : ℕ) → whole.now ≡ joined_texts (map bytes pieces)
        → cut (joined_texts pieces) n ≡ cut (chars whole.now) n }
{}

/// The UTF-16 of a text that fits is read back as that text by `try_from_utf16`, `from_utf16` and
/// `from_utf16_lossy`: no other result meets their contracts.
pub fn from_utf16_reads_back()
    ensures reading { (t : List ℕ) → IsText t
        → (items : List Unit16) × IsReading (text_units t) items }
    ensures whole { (t : List ℕ) (n : ℕ) (items : List Unit16) (result : Result StringView Error)
        → IsText t → size t ≤ n → IsReading (text_units t) items
        → GivesWholeOrError (first_stop items n) result
        → IsOkAnd result (λ string. string.text ≡ t) }
    ensures prefix { (t : List ℕ) (n : ℕ) (items : List Unit16) (result : Result StringView Utf16)
        → IsText t → size t ≤ n → IsReading (text_units t) items
        → GivesPrefixOrFault (first_stop items n) result
        → IsOkAnd result (λ string. string.text ≡ t) }
    ensures lossy { (t : List ℕ) (n : ℕ) (items : List Unit16)
        → IsText t → size t ≤ n → IsReading (text_units t) items → cut (lossy_text items) n ≡ t }
{}

/// The text before a pop is what the pop leaves, followed by the character that it returns. If the
/// text is empty, a pop returns `None`, and the text stays empty.
#[tactic(auto, using(crate::proofs::EditLaws::popped))]
pub fn pop_takes_last()
    ensures last { (front : List ℕ) (ch : ℕ)
        → ((popping (front ++ ch ∷ [])).result ≡ Some ch)
        × ((popping (front ++ ch ∷ [])).after ≡ front) }
    ensures empty { ((popping []).result ≡ None) × ((popping []).after ≡ []) }
{}

/// A trim drops all characters that pass a test from both ends of a text. The text before was some
/// characters that pass, then what the trim leaves, then some characters that pass. What it leaves
/// neither begins nor ends with a character that passes.
pub fn trim_drops_both_ends()
    ensures dropped { (passes : ℕ → Bool) (t : List ℕ)
        → (before behind : List ℕ)
        × All (λ c. IsTrue (passes c)) before × All (λ c. IsTrue (passes c)) behind
        × (t ≡ before ++ ((trimming_matches passes t).after ++ behind)) }
    ensures bare { (passes : ℕ → Bool) (t : List ℕ)
        → IfSome (first_character (trimming_matches passes t).after) (λ c. passes c ≡ false)
        × IfSome (last_character (trimming_matches passes t).after) (λ c. passes c ≡ false) }
{}

/// `is_white_space` holds of the same characters as `char::is_whitespace`.
#[tactic(auto, using(crate::proofs::EditLaws::is_white_space_std))]
pub fn white_space_is_that_of_std()
    ensures { (c : ℕ) → is_white_space c ≡ is_whitespace c }
{}

/// If a split is not refused, the text before it is the text that it keeps, followed by the part
/// that it returns.
#[tactic(auto, using(arraystring_base::proofs::BoundaryLaws::parts))]
pub fn split_off_parts_join()
    ensures { (t : List ℕ) (i : ℕ) → first_cause (split t i).tests ≡ None
        → (split t i).after ++ (split t i).result ≡ t }
{}

/// What is replaced can be put back. Suppose that a replacement in a text that fits `n` bytes is not refused.
/// Then replace what was given by what was taken out: that is not refused either, and the text is again what it
/// was at first.
pub fn replacement_turns_back()
    ensures allowed { (t given : List ℕ) (start end n : ℕ) → size t ≤ n →
        first_cause (replacement t start end given n).tests ≡ None →
        first_cause (replacement (replacement t start end given n).after
        start (start + size given) (part t start end) n).tests ≡ None }
    ensures back { (t given : List ℕ) (start end n : ℕ)
        → first_cause (replacement t start end given n).tests ≡ None
        → (replacement (replacement t start end given n).after start (start + size given)
        (part t start end) n).after ≡ t }
{}

/// Calls of `next` and `next_back`, in any mix, give each character at most once. The characters are
/// what came from the front, then what is left, then what came from the back in reversed order.
/// While a character is left, each call takes one. So after as many calls as there are characters
/// nothing is left, and a call then gives nothing.
pub fn ends_give_each_once()
    ensures whole { (ends : List DrainEnd) (t : List ℕ)
        → (walk_from_ends ends t).fronts
        ++ ((walk_from_ends ends t).left ++ reverse (walk_from_ends ends t).backs) ≡ t }
    ensures each { (ends : List DrainEnd) (t : List ℕ)
        → length (walk_from_ends ends t).left ≡ length t - length ends }
    ensures all { (ends : List DrainEnd) (t : List ℕ) → length t ≤ length ends
        → (walk_from_ends ends t).left ≡ [] }
    ensures ended { (ends : List DrainEnd) → walk_from_ends ends [] ≡ walk_from_ends [] [] }
{}

/// Two strings are equal by `==` if and only if their texts are the same. So `==` is reflexive,
/// symmetric and transitive, and equal strings write the same to a hasher.
pub fn equal_texts()
    ensures same { (a b : List ℕ) → IsTrue (pointwise nat_eq a b) ↔ (a ≡ b) }
    ensures reflexive { (a : List ℕ) → IsTrue (pointwise nat_eq a a) }
    ensures symmetric { (a b : List ℕ) → IsTrue (pointwise nat_eq a b)
        → IsTrue (pointwise nat_eq b a) }
    ensures transitive { (a b c : List ℕ)
        → IsTrue (pointwise nat_eq a b) → IsTrue (pointwise nat_eq b c)
        → IsTrue (pointwise nat_eq a c) }
    ensures hashed { (a b : List ℕ) → IsTrue (pointwise nat_eq a b)
        → fed.str (bytes a) ≡ fed.str (bytes b) }
{}

/// A JSON value that is made of a text of at most `n` bytes, read back and cut to `n` bytes, gives
/// that text.
#[tactic(auto, using(crate::proofs::JsonLaws::reads_back))]
pub fn json_reads_back()
    ensures { (t : List ℕ) (n : ℕ) → IsText t → size t ≤ n
        → cut_text_of_value (json_string t) n ≡ Some t }
{}

/// If a JSON value was made of a text, `text_of_value` gives this text. For any JSON value `cut_text_of_value`
/// gives its text cut to `n` bytes, or none if the value is no string. A text of at most `n` bytes is not cut.
#[tactic(auto, using(crate::proofs::JsonLaws::whole))]
pub fn json_whole_and_cut()
    ensures back { (t : List ℕ) → IsText t → text_of_value (json_string t) ≡ Some t }
    ensures cut { (value : Data) (n : ℕ)
        → cut_text_of_value value n ≡ option_map (λ t. cut t n) (text_of_value value) }
    ensures same { (value : Data) (t : List ℕ) (n : ℕ) → text_of_value value ≡ Some t → size t ≤ n
        → cut_text_of_value value n ≡ Some t }
{}
