//! Calls at the edge of what they ask for. If a call asks for more, its contract promises less, and its own proof does
//! not see it. So each function here asks for no more than the call that it makes: for exactly the room that there is,
//! an empty range, or counts of 2^63. If the call asked for more, the function would have no proof.
ghost use Rattle.std.specs.Prelude.{◌≡◌, ◌+◌, ◌≤◌, ◌^◌, ◌++◌, ◌∷◌, [], IsTrue, chars, length};
ghost use Rattle.std.specs.Iterator.{IsFiniteIterable};
ghost use Rattle.arraystring.specs.Taken.{Fits, joined_pieces};
ghost use Rattle.arraystring.specs.Text.{IsWellFormed, back, boundary, bytes, cap, front, size, width};

use arraystring::error::Error;
use arraystring::laws::split_and_join_invert;
use arraystring::utils::{Steps, encode, look, shift, truncate_str_counted};
use arraystring::{ArrayString, CacheString, Drain};
use arraystring_base::utils::{first_char_and_width, last_char_with_start, write_over};

/// Makes a full string of a text.
pub fn full_of_text<const N: usize>(given: &str) -> ArrayString<N>
    requires { size (chars given.now) ≡ cap N }
    ensures { result.text ≡ chars given.now }
{
    ArrayString::from_str_unchecked(given)
}

/// Makes a full string of UTF-8.
pub fn full_of_bytes<const N: usize>(given: &[u8]) -> ArrayString<N>
    requires well_formed { IsWellFormed given.now }
    requires full { length given.now ≡ cap N }
    ensures { bytes result.text ≡ given.now }
{
    ArrayString::from_utf8_unchecked(given)
}

/// Appends a character that takes all of the room.
pub fn fill<const N: usize>(text: &mut ArrayString<N>, ch: char)
    requires { size text.old.text + width ch ≡ cap N }
    ensures { text.new.text ≡ text.old.text ++ ch ∷ [] }
{
    text.push_unchecked(ch);
}

/// Appends a text that takes all of the room.
pub fn fill_by_text<const N: usize>(text: &mut ArrayString<N>, given: &str)
    requires { size text.old.text + size (chars given.now) ≡ cap N }
    ensures { text.new.text ≡ text.old.text ++ chars given.now }
{
    text.push_str_unchecked(given);
}

/// Inserts a character that takes all of the room at any boundary.
pub fn fill_at<const N: usize>(text: &mut ArrayString<N>, index: u8, ch: char)
    requires boundary { IsTrue (boundary text.old.text index) }
    requires room { size text.old.text + width ch ≡ cap N }
    ensures { text.new.text ≡ front text.old.text index ++ (ch ∷ back text.old.text index) }
{
    text.insert_unchecked(index, ch);
}

/// Inserts a text that takes all of the room at any boundary.
pub fn fill_at_by_text<const N: usize>(text: &mut ArrayString<N>, index: u8, given: &str)
    requires boundary { IsTrue (boundary text.old.text index) }
    requires room { size text.old.text + size (chars given.now) ≡ cap N }
    ensures { text.new.text
        ≡ front text.old.text index ++ (chars given.now ++ back text.old.text index) }
{
    text.insert_str_unchecked(index, given);
}

/// Borrows the empty part at any boundary.
#[tactic(auto, using(crate::proofs::EdgeLemmas::part_empty))]
pub fn nothing_at<const N: usize>(text: &ArrayString<N>, index: u8) -> &str
    requires { IsTrue (boundary text.now.text index) }
    ensures { chars result.now ≡ [] }
{
    split_and_join_invert();
    text.slice(index..index)
}

/// Puts the empty part at any boundary into upper case.
#[tactic(auto, using(crate::proofs::EdgeLemmas::part_empty))]
pub fn uppercase_nothing<const N: usize>(text: &mut ArrayString<N>, index: u8)
    requires { IsTrue (boundary text.old.text index) }
    ensures { text.new.text ≡ text.old.text }
{
    split_and_join_invert();
    text.make_ascii_uppercase_in(index..index);
}

/// Puts the empty part at any boundary into lower case.
#[tactic(auto, using(crate::proofs::EdgeLemmas::part_empty))]
pub fn lowercase_nothing<const N: usize>(text: &mut ArrayString<N>, index: u8)
    requires { IsTrue (boundary text.old.text index) }
    ensures { text.new.text ≡ text.old.text }
{
    split_and_join_invert();
    text.make_ascii_lowercase_in(index..index);
}

/// Pops at the greatest counts.
pub fn count_pop<const N: usize>(text: &mut ArrayString<N>, steps: &mut Steps) -> Option<char>
    requires looks { steps.old.looked ≡ 2 ^ 63 }
    requires moves { steps.old.moved ≡ 2 ^ 63 }
    ensures { steps.new.looked ≤ 2 ^ 63 + 4 }
{
    text.pop_counted(steps)
}

/// Trims at the greatest counts, which moves no byte.
pub fn count_trim<const N: usize>(text: &mut ArrayString<N>, steps: &mut Steps)
    requires looks { steps.old.looked ≡ 2 ^ 63 }
    requires moves { steps.old.moved ≡ 2 ^ 63 }
    ensures { steps.new.moved ≡ 2 ^ 63 }
{
    text.trim_counted(steps);
}

/// Removes the first character at the greatest counts, which moves no byte.
pub fn count_removal<const N: usize>(text: &mut ArrayString<N>, steps: &mut Steps) -> Option<char>
    requires looks { steps.old.looked ≡ 2 ^ 63 }
    requires moves { steps.old.moved ≡ 2 ^ 63 }
    ensures { steps.new.moved ≡ 2 ^ 63 }
{
    text.remove_counted(0, steps).ok()
}

/// Inserts at the greatest counts.
pub fn count_insertion<const N: usize>(
    text: &mut ArrayString<N>,
    given: &str,
    steps: &mut Steps,
) -> Result<(), Error>
    requires looks { steps.old.looked ≡ 2 ^ 63 }
    requires moves { steps.old.moved ≡ 2 ^ 63 }
    ensures { steps.new.moved ≤ 2 ^ 63 + size text.old.text }
{
    text.try_insert_str_counted(0, given, steps)
}

/// Replaces at the greatest counts.
pub fn count_replacement<const N: usize>(
    text: &mut ArrayString<N>,
    given: &str,
    steps: &mut Steps,
) -> Result<(), Error>
    requires looks { steps.old.looked ≡ 2 ^ 63 }
    requires moves { steps.old.moved ≡ 2 ^ 63 }
    ensures { steps.new.moved ≤ 2 ^ 63 + size text.old.text }
{
    text.replace_range_counted(.., given, steps)
}

/// Drains a part at the start at the greatest counts, which moves no byte.
pub fn count_drain(
    text: &mut ArrayString<16>,
    end: u8,
    steps: &mut Steps,
) -> Result<Drain<16>, Error>
    requires looks { steps.old.looked ≡ 2 ^ 63 }
    requires moves { steps.old.moved ≡ 2 ^ 63 }
    ensures { steps.new.moved ≡ 2 ^ 63 }
{
    text.drain_counted(0..end, steps)
}

/// Cuts at the greatest count of looks.
pub fn count_cut<'a>(text: &'a str, size: u8, steps: &mut Steps) -> &'a str
    requires { steps.old.looked ≡ 2 ^ 63 }
    ensures { steps.new.looked ≤ 2 ^ 63 + 4 }
{
    truncate_str_counted(text, size, steps)
}

/// Returns the last byte, at the greatest count of looks that can still grow.
pub fn look_at_last(given: &[u8], index: usize, steps: &mut Steps) -> u8
    requires last { index + 1 ≡ length given.now }
    requires looks { steps.old.looked + 2 ≡ 2 ^ 64 }
    ensures { steps.new.looked + 1 ≡ 2 ^ 64 }
{
    look(given, index, steps)
}

/// Returns the character of a text of one byte.
pub fn only_character(text: &str) -> char
    requires { length text.now ≡ 1 }
{
    first_char_and_width(text).0
}

/// Returns the last character, at the greatest count of looks that can still grow by four.
pub fn look_at_last_character(text: &str, steps: &mut Steps) -> Option<char>
    requires { steps.old.looked + 5 ≡ 2 ^ 64 }
{
    let (_, last) = last_char_with_start(text, steps)?;
    Some(last)
}

/// Writes a character that ends where the array ends.
pub fn encode_at_end(array: &mut [u8; 16], index: usize, ch: char) -> usize
    requires { index + width ch ≡ 16 }
    ensures { result ≡ width ch }
{
    encode(ch, array, index)
}

/// Writes bytes that end where the array ends.
pub fn write_at_end(array: &mut [u8; 16], index: usize, given: &[u8])
    requires { index + length given.now ≡ 16 }
{
    write_over(array, index, given);
}

/// Moves the last bytes of an array to its start, up to the greatest count of moves.
pub fn shift_from_end(array: &mut [u8; 16], index: usize, len: usize, steps: &mut Steps)
    requires end { index + len ≡ 16 }
    requires moves { steps.old.moved + len + 1 ≡ 2 ^ 64 }
{
    shift(array, index, 0, len, steps);
}

/// Moves the first bytes of an array to its end, up to the greatest count of moves.
pub fn shift_to_end(array: &mut [u8; 16], index: usize, len: usize, steps: &mut Steps)
    requires end { index + len ≡ 16 }
    requires moves { steps.old.moved + len + 1 ≡ 2 ^ 64 }
{
    shift(array, 0, index, len, steps);
}

/// Makes a string of all characters that come, if they all fit.
pub fn full_of_characters<const N: usize, I: IntoIterator<Item = char> + Drop>(
    characters: I,
) -> ArrayString<N>
    requires ends { IsFiniteIterable I.into_iter_gives I.IntoIter.can_next
        I.IntoIter.remaining characters }
    requires fits { Fits I.into_iter_gives I.IntoIter.next_gives (λ cs. cs) characters (cap N) }
{
    ArrayString::from_chars_unchecked(characters)
}

/// Makes a string of all pieces that come, if they all fit.
pub fn full_of_pieces<'a, const N: usize, I: IntoIterator<Item = &'a str> + Drop>(
    pieces: I,
) -> ArrayString<N>
    requires ends { IsFiniteIterable I.into_iter_gives I.IntoIter.can_next
        I.IntoIter.remaining pieces }
    requires fits { Fits I.into_iter_gives I.IntoIter.next_gives joined_pieces pieces (cap N) }
{
    ArrayString::from_iterator_unchecked(pieces)
}

/// Makes a `CacheString` of all characters that come, if they all fit.
pub fn full_cache_of_characters<I: IntoIterator<Item = char> + Drop>(characters: I) -> CacheString
    requires ends { IsFiniteIterable I.into_iter_gives I.IntoIter.can_next
        I.IntoIter.remaining characters }
    requires fits { Fits I.into_iter_gives I.IntoIter.next_gives (λ cs. cs) characters 63 }
{
    CacheString::from_chars_unchecked(characters)
}

/// Makes a `CacheString` of all pieces that come, if they all fit.
pub fn full_cache_of_pieces<'a, I: IntoIterator<Item = &'a str> + Drop>(pieces: I) -> CacheString
    requires ends { IsFiniteIterable I.into_iter_gives I.IntoIter.can_next
        I.IntoIter.remaining pieces }
    requires fits { Fits I.into_iter_gives I.IntoIter.next_gives joined_pieces pieces 63 }
{
    CacheString::from_iterator_unchecked(pieces)
}

/// Makes a full `CacheString` of a text.
pub fn full_cache_of_text(given: &str) -> CacheString
    requires { size (chars given.now) ≡ 63 }
    ensures { result.0.text ≡ chars given.now }
{
    CacheString::from_str_unchecked(given)
}

/// Makes a full `CacheString` of UTF-8.
pub fn full_cache_of_bytes(given: &[u8]) -> CacheString
    requires well_formed { IsWellFormed given.now }
    requires full { length given.now ≡ 63 }
    ensures { bytes result.0.text ≡ given.now }
{
    CacheString::from_utf8_unchecked(given)
}
