//! Laws, which callers may rely on. Each carries its fact in its contract and changes nothing.
//! `text_fits`, `utf8_decodes_to_text`, `drain_text_fits` and `keys_ascend` call `len` or `as_str`, the others do
//! nothing when called.
ghost use Rattle.std.specs.Prelude.{◌≡◌, ◌<◌, ◌==◌, ◌⊎◌, ◌++◌, ◌∷◌, [], None, IsTrue, MatchOption, chars, drop, length, map};
ghost use Rattle.std.specs.BTreeMap.{keys};
ghost use Rattle.std.specs.List.{AllPairs, after_last, before_last, position_or_len, slice_get};
ghost use Rattle.std.specs.Str.{NonePass};
ghost use Rattle.std.specs.Str.Pattern.{MatchBeginsAt, RFindsChar, SplitsAroundMatch};
ghost use Rattle.std.specs.declared.str.Chars.{Chars};
ghost use Rattle.std.specs.Str.Iter.{chars_rest, chars_steps_back};
ghost use Rattle.arraystring_core.specs.Text.{IsBefore, IsWellFormed, back, boundary, front, size};
ghost use Rattle.arraystring_core.specs.Parts.{all_but_last};

pub use arraystring_base::laws::{
    boundaries_are_sizes, cut_of_cut, equal_bytes_are_one_text, longest_cut, only_first_stop,
    only_reading, order_of_bytes, size_is_length, split_and_join_invert, split_once_at_first,
    str_find_gives_first, str_is_text, text_units_read_as_text, texts_are_totally_ordered,
};
use arraystring_core::ArrayString;
pub use arraystring_core::laws::{
    chars_of_joined_pieces, cut_ignores_excess, drain_gives_left, drain_text_fits,
    ends_give_each_once, equal_texts, from_utf16_reads_back, json_reads_back, json_whole_and_cut,
    pop_takes_last, replacement_turns_back, split_off_parts_join, text_fits, trim_drops_both_ends,
    utf8_decodes_to_text, white_space_is_that_of_std,
};
use std::collections::BTreeMap;

// These are the old names of laws, which stay until the next release.
pub use crate::laws::{
    chars_next_back_is_last as last_given, chars_next_is_first as first_given,
    rfind_finds_last as found_last, rsplit_once_at_last as split_last,
    utf8_validity_is_decidable as well_formed_or_not,
};
pub use arraystring_base::laws::{
    boundaries_are_sizes as boundaries, equal_bytes_are_one_text as one_text,
    only_first_stop as one_stop, split_and_join_invert as parts,
    split_and_join_invert as parts_join, split_once_at_first as split_first,
    str_find_gives_first as find_finds_first, str_find_gives_first as found_first,
    str_is_text as borrowed_text, text_units_read_as_text as text_reading,
    texts_are_totally_ordered as order_of_texts,
};
pub use arraystring_core::laws::{
    chars_of_joined_pieces as pieces_make_one_text, cut_ignores_excess as what_comes_past_the_room,
    drain_gives_left as left_given, drain_text_fits as drain_left_fits,
    drain_text_fits as left_fits, ends_give_each_once as walk_gives_each_once,
    ends_give_each_once as walks, from_utf16_reads_back as units_read_back,
    json_whole_and_cut as json_reads_whole, pop_takes_last as popped,
    replacement_turns_back as replaced_back, split_off_parts_join as split_back,
    split_off_parts_join as split_parts_join, trim_drops_both_ends as trimmed,
    utf8_decodes_to_text as text_reads_back, utf8_decodes_to_text as text_spelled,
    white_space_is_that_of_std as white_space,
};

/// `text.chars().next()` returns the first character of `text`, or `None` if there is none.
///
/// # Precondition
///
/// `first` must be what `text.chars().next()` returned.
pub fn chars_next_is_first(text: &str, first: Option<char>)
    requires { first ≡ slice_get (chars text.now) 0 }
    ensures { MatchOption first (chars text.now ≡ [])
        (λ c. chars text.now ≡ c ∷ drop 1 (chars text.now)) }
{}

/// `text.chars().next_back()` returns the last character of `text`, or `None` if there is none.
///
/// # Precondition
///
/// `last` must be what `text.chars().next_back()` returned.
pub fn chars_next_back_is_last(text: &str, last: Option<char>)
    requires { (from : Chars) × (left : Chars)
        × (chars_rest from ≡ text.now) × chars_steps_back from last left }
    ensures { MatchOption last (chars text.now ≡ [])
        (λ c. chars text.now ≡ all_but_last (chars text.now) ++ c ∷ []) }
{}

/// `str::rfind` returns the boundary at which a character last stands. If it returns `None`, the character
/// is not in the text.
///
/// # Precondition
///
/// `place` must be what `text.rfind(c)` returned.
pub fn rfind_finds_last(text: &str, c: char, place: Option<usize>)
    requires { MatchOption place (RFindsChar c text.now None)
        (MatchBeginsAt (RFindsChar c) text.now) }
    ensures { MatchOption place
        ((position_or_len (λ d. d == c) (chars text.now) ≡ length (chars text.now))
        × (before_last (λ d. d == c) (chars text.now) ≡ [])
        × (after_last (λ d. d == c) (chars text.now) ≡ chars text.now))
        (λ i. (i < size (chars text.now))
        × IsTrue (boundary (chars text.now) i)
        × (front (chars text.now) i ≡ before_last (λ d. d == c) (chars text.now))
        × (back (chars text.now) i ≡ c ∷ after_last (λ d. d == c) (chars text.now))) }
{}

/// `str::rsplit_once` splits a text where the character last stands. If it returns `None`, the character is
/// not in the text.
///
/// # Precondition
///
/// `parts` must be what `text.rsplit_once(c)` returned.
pub fn rsplit_once_at_last(text: &str, c: char, parts: Option<(&str, &str)>)
    requires { MatchOption parts (RFindsChar c text.now None)
        (λ found. SplitsAroundMatch (RFindsChar c) text.now found.0.now found.1.now) }
    ensures { MatchOption parts.entry
        ((position_or_len (λ d. d == c) (chars text.now) ≡ length (chars text.now))
        × (before_last (λ d. d == c) (chars text.now) ≡ [])
        × (after_last (λ d. d == c) (chars text.now) ≡ chars text.now))
        (λ found. (chars found.0.now ≡ before_last (λ d. d == c) (chars text.now))
        × (chars found.1.now ≡ after_last (λ d. d == c) (chars text.now))
        × (chars text.now ≡ chars found.0.now ++ c ∷ chars found.1.now)
        × NonePass (λ d. d == c) (chars found.1.now)
        × (position_or_len (λ d. d == c) (chars text.now) < length (chars text.now))) }
{}

/// Bytes are well-formed UTF-8, or they are not. A constructor from bytes returns `Utf8` if they are not,
/// so they are if it returns `OutOfBounds`.
pub fn utf8_validity_is_decidable(given: &[u8])
    ensures { IsWellFormed given.now ⊎ ¬ (IsWellFormed given.now) }
{}

/// The texts of the keys of a map ascend, from each key to the next.
pub fn keys_ascend<const N: usize, V>(entries: &BTreeMap<ArrayString<N>, V>)
    ensures { AllPairs IsBefore (map (λ key. key.text) (keys entries.now)) }
{
    // The prover knows that the keys of a map are in order only after a call on the map, such as this one.
    let _ = entries.len();
}
