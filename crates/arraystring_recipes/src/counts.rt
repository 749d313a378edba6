//! Counts of the characters of a text, and of its bytes.
ghost use Rattle.std.specs.Prelude.{◌≡◌, ◌+◌, ◌==◌, ◌≤◌, ◌↔◌, IsTrue, chars, length};
ghost use Rattle.std.specs.Char.{is_ascii_digit};
ghost use Rattle.std.specs.List.{filter, list_all};
ghost use Rattle.arraystring.specs.Text.{cap, size, width};

use arraystring::ArrayString;

/// Returns how many digits of ASCII a text has. They are no more than its bytes, so a `u8` holds their number.
#[tactic(auto, using(arraystring::proofs::Rules::counts))]
pub fn count_digits<const N: usize>(text: &ArrayString<N>) -> u8
    ensures { result ≡ length (filter is_ascii_digit text.now.text) }
{
    let mut count = 0;
    for ch in text.as_str().chars() {
        if ch.is_ascii_digit() {
            count += 1;
        }
    }
    count
}

/// Returns how many times `wanted` stands in a text.
#[tactic(auto, using(arraystring::proofs::Rules::counts))]
pub fn count_of(text: &str, wanted: char) -> usize
    ensures { result ≡ length (filter (λ c. c == wanted) (chars text.now)) }
{
    let mut count = 0;
    for ch in text.chars() {
        if ch == wanted {
            count += 1;
        }
    }
    count
}

/// Whether a text has only digits of ASCII, or nothing at all.
#[tactic(auto, using(arraystring::proofs::Rules::counts))]
pub fn is_number(text: &str) -> bool
    ensures { result ≡ list_all is_ascii_digit (chars text.now) }
{
    let mut all = true;
    for ch in text.chars() {
        all = all && ch.is_ascii_digit();
    }
    all
}

/// Whether a name has at most `most` characters, however many bytes they take.
#[tactic(auto, using(arraystring::proofs::Rules::texts))]
pub fn is_short<const N: usize>(name: &ArrayString<N>, most: usize) -> bool
    ensures { IsTrue result ↔ (length name.now.text ≤ most) }
{
    name.as_str().chars().count() <= most
}

/// Whether there is room for one more character.
#[tactic(auto, using(arraystring::proofs::Rules::texts, arraystring::proofs::Rules::sizes))]
pub fn has_room<const N: usize>(line: &ArrayString<N>, ch: char) -> bool
    ensures { IsTrue result ↔ (size line.now.text + width ch ≤ cap N) }
{
    line.len() as usize + ch.len_utf8() <= ArrayString::<N>::capacity() as usize
}
