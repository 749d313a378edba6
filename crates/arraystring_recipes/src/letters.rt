//! Single characters that go in and out.
ghost use Rattle.std.specs.Prelude.{◌≡◌, ◌+◌, ◌<◌, ◌≤◌, ◌↔◌, ◌++◌, ◌∷◌, [], true, false, IsTrue, MatchOption, chars, drop, take};
ghost use Rattle.std.specs.List.{slice_get};
ghost use Rattle.arraystring.specs.Edits.{all_but_last};
ghost use Rattle.arraystring.specs.Text.{cut, size};
ghost use Rattle.arraystring_recipes.specs.Letters.{capitalized};

use arraystring::ArrayString;
use arraystring::laws::chars_next_back_is_last;

/// Takes the first character out and returns it, or `None` if there is none.
#[tactic(auto, using(arraystring::proofs::Rules::at_start))]
pub fn take_first(text: &mut ArrayString<16>) -> Option<char>
    ensures { MatchOption result ((text.old.text ≡ []) × (text.new.text ≡ []))
        (λ first. text.old.text ≡ first ∷ text.new.text) }
{
    match text.remove(0) {
        Ok(first) => Some(first),
        Err(_) => None,
    }
}

/// Appends `ch` if any character would fit, and says whether one would.
#[tactic(auto, using(arraystring::proofs::Rules::texts))]
pub fn push_if_any_fits(text: &mut ArrayString<16>, ch: char) -> bool
    ensures pushed { size text.old.text ≤ 12
        → (result ≡ true) × (text.new.text ≡ text.old.text ++ ch ∷ []) }
    ensures refused { 12 < size text.old.text → (result ≡ false) × (text.new.text ≡ text.old.text) }
{
    if text.len() > 12 {
        return false;
    }
    text.push_unchecked(ch);
    true
}

/// Takes the last character out and returns it, or `None` if there is none.
#[tactic(auto, using(arraystring::proofs::Rules::texts))]
pub fn take_last(text: &mut ArrayString<16>) -> Option<char>
    ensures { MatchOption result ((text.old.text ≡ []) × (text.new.text ≡ []))
        (λ last. text.old.text ≡ text.new.text ++ last ∷ []) }
{
    text.pop()
}

/// Returns the first character of `text`, or `None` if there is none.
pub fn first_letter(text: &str) -> Option<char>
    ensures item { result ≡ slice_get (chars text.now) 0 }
    ensures text { MatchOption result (chars text.now ≡ [])
        (λ first. chars text.now ≡ first ∷ drop 1 (chars text.now)) }
{
    text.chars().next()
}

/// Returns the last character of `text`, or `None` if there is none.
pub fn last_letter(text: &str) -> Option<char>
    ensures { MatchOption result (chars text.now ≡ [])
        (λ last. chars text.now ≡ all_but_last (chars text.now) ++ last ∷ []) }
{
    let last = text.chars().next_back();
    chars_next_back_is_last(text, last);
    last
}

/// Appends the longest prefix of `given` that fits, and says whether that is less than all of it.
pub fn push_is_cut(text: &mut ArrayString<16>, given: &str) -> bool
    ensures text { text.new.text ≡ cut (text.old.text ++ chars given.now) 16 }
    ensures answer { IsTrue result ↔ (16 < size text.old.text + size (chars given.now)) }
{
    let before = text.len();
    text.push_str(given);
    ((text.len() - before) as usize) < given.len()
}

/// Puts the first letter into upper case, if it is one of ASCII.
#[tactic(auto, using(arraystring::proofs::Rules::firsts))]
pub fn capitalize(text: &mut ArrayString<16>)
    ensures { text.new.text ≡ capitalized text.old.text }
{
    if let Some(first) = text.as_str().chars().next()
        && first.is_ascii()
    {
        text.make_ascii_uppercase_in(0..1);
    }
}

/// Keeps the first `count` characters, and removes the others.
#[tactic(auto, using(arraystring::proofs::Rules::pops, std::proofs::lemmas::Str::chars_from_encodes))]
pub fn keep_first(text: &mut ArrayString<16>, count: usize)
    ensures { text.new.text ≡ take count text.old.text }
{
    while text.as_str().chars().count() > count {
        text.pop();
    }
}
