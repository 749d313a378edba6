//! Words that nearly name a capacity: with more before or behind, with less, or in other letters. None is
//! served; as the only argument each is given as it is.
use super::program::{Arguments, USAGE, WORDS};
use super::table::agree;
use arraystring::MaxString;
use arraystring_run::program::given_word;
use arraystring_run::serve;
use std::process::Abort;

/// What may stand before a word or behind it: white space, signs, quotes, zero, other letters, and
/// characters that are not seen.
const MORE: [&str; 24] = [
    " ", "  ", "\t", "\n", "\r\n", "\u{B}", "\u{C}", "\0", "\u{A0}", "\u{2003}", "\u{3000}",
    "\u{200B}", "\u{FEFF}", "\u{301}", "\u{7F}", "-", "--", "+", "=", "'", "\"", "a", "é", "🤔",
];

/// As the only argument the word is given as it is, and it is refused.
fn is_refused(rt: &(impl Abort + AllocGlobal), word: &str) {
    let all: [&[u8]; 2] = [b"arraystring_run", word.as_bytes()];
    let given = given_word(&Arguments { all: &all });
    agree(rt, word, given.as_ref().map(MaxString::as_str), Some(word));
    names_none(rt, word, Some(word));
}

/// The word names no capacity, and nothing is read or written for it.
fn names_none(rt: &(impl Abort + AllocGlobal), case: &str, word: Option<&str>) {
    let script: &[u8] = b"len\n";
    let mut input = script;
    let mut output = Vec::new(rt.alloc());
    let mut errors = Vec::new(rt.alloc());
    let status = serve(rt.alloc(), word, &mut input, &mut output, &mut errors);
    agree(rt, case, (status, input.len(), output.len()), (2, 4, 0));
    agree(rt, case, errors.as_slice(), USAGE);
}

/// Puts each of `MORE` before each word, after it, on both sides and inside, and puts two words together. Each
/// is refused.
#[test]
fn words_with_more_are_refused(rt: HostRuntime) {
    let mut count = 0u32;
    for word in WORDS {
        for more in MORE {
            for at in 0..=word.len() {
                let (Some(front), Some(back)) = (word.get(..at), word.get(at..)) else {
                    continue;
                };
                let given = format!(in rt.alloc(); "{front}{more}{back}").expect(&rt, "memory");
                is_refused(&rt, &given);
                count = count.wrapping_add(1);
            }
            let given = format!(in rt.alloc(); "{more}{word}{more}").expect(&rt, "memory");
            is_refused(&rt, &given);
        }
        for other in WORDS {
            let given = format!(in rt.alloc(); "{word}{other}").expect(&rt, "memory");
            is_refused(&rt, &given);
            let given = format!(in rt.alloc(); "{word} {other}").expect(&rt, "memory");
            is_refused(&rt, &given);
        }
    }
    // The words have 5, 5 and 3 letters.
    agree(&rt, "places", count, 24 * (6 + 6 + 4));
}

/// Each part of a word, except the whole word, names no capacity.
#[test]
fn parts_of_words_are_refused(rt: HostRuntime) {
    let mut count = 0u32;
    for word in WORDS {
        for start in 0..=word.len() {
            for end in start..=word.len() {
                let part = word.get(start..end).unwrap_or(" ");
                if part != word {
                    is_refused(&rt, part);
                    count = count.wrapping_add(1);
                }
            }
        }
    }
    agree(&rt, "parts", count, 20 + 20 + 9);
}

/// A word with other letters: a letter is in upper case if its bit in `large` is 1, and `other` has a place and the
/// letter that stands there instead.
fn respelled(
    rt: &(impl Abort + AllocGlobal),
    word: &str,
    large: u8,
    other: Option<(usize, char)>,
) -> String {
    let mut given = String::new(rt.alloc());
    for (at, letter) in word.chars().enumerate() {
        let mut letter = letter;
        if (large >> (at % 8)) & 1 == 1 {
            letter = letter.to_ascii_uppercase();
        }
        if let Some((place, other)) = other {
            if place == at {
                letter = other;
            }
        }
        given.push(letter).expect(rt, "memory");
    }
    given
}

/// A word names no capacity if any of its letters are in upper case, or if one letter is another character of ASCII.
#[test]
fn words_in_other_letters_are_refused(rt: HostRuntime) {
    let (mut large_ones, mut others) = (0u32, 0u32);
    for word in WORDS {
        for large in 0..=255u8 {
            let given = respelled(&rt, word, large, None);
            if given.as_str() != word {
                is_refused(&rt, &given);
                large_ones = large_ones.wrapping_add(1);
            }
        }
        for place in 0..word.len() {
            for byte in 0..128u8 {
                let given = respelled(&rt, word, 0, Some((place, byte as char)));
                if given.as_str() != word {
                    is_refused(&rt, &given);
                    others = others.wrapping_add(1);
                }
            }
        }
    }
    // Of the 256 values of `large` those leave the word as it is whose lowest bits are 0, one for each letter: 8 of a
    // word of five letters, and 32 of one of three.
    agree(&rt, "large letters", large_ones, 248 + 248 + 224);
    agree(&rt, "other letters", others, 127 * (5 + 5 + 3));
}

/// Without a word the program names no capacity, too.
#[test]
fn no_word_is_refused(rt: HostRuntime) {
    names_none(&rt, "no word", None);
}
