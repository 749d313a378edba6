//! Trimming at both ends.
ghost use Rattle.std.specs.Prelude.{◌≡◌, ◌+◌, ◌-◌, ◌*◌, ◌^◌, ◌≤◌, ℕ, Bool, min, Ok, length};
ghost use Rattle.arraystring_core.specs.Retain.{ReturnsAs};
ghost use Rattle.arraystring_core.specs.Edits.{Makes, trimming_matches, equals_space, is_white_space, without_leading, without_trailing};

use crate::ArrayString;
use crate::laws::text_fits;
use arraystring_base::utils::{Steps, last_char_with_start};

impl<const N: usize> ArrayString<N> {
    /// Removes all white space at both ends, and nothing else. As in `str::trim`, white space is
    /// what has the property White_Space of the Unicode Standard: the characters for which
    /// `char::is_whitespace` returns true.
    ///
    /// # Examples
    ///
    /// ```
    /// let mut string = ArrayString::<8>::from("\t a b\u{3000}");
    /// string.trim();
    /// assert_eq!(string.as_str(), "a b");
    /// ```
    #[inline]
    pub fn trim(&mut self)
        ensures { Makes (trimming_matches is_white_space self.old.text)
            self.old.text (Ok result) self.new.text }
    {
        self.trim_counted(&mut Steps::new());
    }

    /// Trims as `trim` does, and counts in `steps` its looks at the end of the text.
    ///
    /// It looks at each character that it removes there, and at the character before them, if there is
    /// one. Each of these characters costs one to four looks. Looks at the start of the text are not
    /// counted. It moves no byte.
    ///
    /// # Precondition
    ///
    /// Both counts of `steps` must be at most 2^63.
    ///
    /// # Examples
    ///
    /// ```
    /// let mut string = ArrayString::<8>::from("  a ");
    /// let mut steps = Steps::new();
    /// string.trim_counted(&mut steps);
    /// assert_eq!((string.as_str(), steps.moved()), ("a", 0));
    /// assert!((2..=8).contains(&steps.looked())); // the space at the end, and `a`
    /// ```
    #[inline]
    pub fn trim_counted(&mut self, steps: &mut Steps)
        requires looks { steps.old.looked ≤ 2 ^ 63 }
        requires moves { steps.old.moved ≤ 2 ^ 63 }
        ensures edit { Makes (trimming_matches is_white_space self.old.text)
            self.old.text (Ok result) self.new.text }
        ensures moved { steps.new.moved ≡ steps.old.moved }
        ensures looked { steps.new.looked ≤ steps.old.looked + 4 * (length self.old.text
            - length (without_trailing is_white_space self.old.text) + 1) }
        ensures least { steps.old.looked + min (length self.old.text)
            (length self.old.text - length (without_trailing is_white_space self.old.text) + 1)
            ≤ steps.new.looked }
        ensures counted { steps.old.looked ≤ steps.new.looked }
    {
        self.trim_end_matches(is_white_space, steps);
        self.trim_start_matches(is_white_space);
    }

    /// Removes all spaces (U+0020) at both ends, and nothing else.
    ///
    /// # Examples
    ///
    /// ```
    /// let mut string = ArrayString::<8>::from(" \ta b ");
    /// string.trim_spaces();
    /// assert_eq!(string.as_str(), "\ta b"); // a tab is no space
    /// ```
    #[inline]
    pub fn trim_spaces(&mut self)
        ensures { Makes (trimming_matches equals_space self.old.text)
            self.old.text (Ok result) self.new.text }
    {
        self.trim_end_matches(equals_space, &mut Steps::new());
        self.trim_start_matches(equals_space);
    }

    /// Drops the characters at the end for which `drops` returns true, back to the last for which
    /// it does not. It moves no byte. It looks at each character that it drops and at the one before
    /// them: at each at least once, and at most four times.
    #[inline]
    fn trim_end_matches<F: Fn(char) -> bool + Drop>(&mut self, drops: F, steps: &mut Steps)
        requires callable { F.IsAlwaysCallable drops }
        requires looks { steps.old.looked ≤ 2 ^ 63 }
        ensures text { (passes : ℕ → Bool) → ReturnsAs F.post drops passes
            → self.new.text ≡ without_trailing passes self.old.text }
        ensures moved { steps.new.moved ≡ steps.old.moved }
        ensures looked { steps.new.looked
            ≤ steps.old.looked + 4 * (length self.old.text - length self.new.text + 1) }
        ensures least { steps.old.looked
            + min (length self.old.text) (length self.old.text - length self.new.text + 1)
            ≤ steps.new.looked }
        ensures counted { steps.old.looked ≤ steps.new.looked }
    {
        text_fits(self); // gives the prover that no count passes its greatest value
        while let Some((start, ch)) = last_char_with_start(self.as_str(), steps) {
            if !drops(ch) {
                break;
            }
            self.set_len(start as u8);
        }
    }

    /// Drops the characters at the start for which `drops` returns true, up to the first for which
    /// it does not.
    #[inline]
    fn trim_start_matches<F: Fn(char) -> bool + Drop>(&mut self, drops: F)
        requires callable { F.IsAlwaysCallable drops }
        ensures { (passes : ℕ → Bool) → ReturnsAs F.post drops passes
            → self.new.text ≡ without_leading passes self.old.text }
    {
        while let Some(ch) = self.as_str().chars().next() {
            if !drops(ch) {
                break;
            }
            self.drop_front(ch.len_utf8());
        }
    }
}

/// Whether `ch` has the property White_Space.
#[tactic(auto, using(crate::proofs::EditLaws::is_white_space_std))]
#[inline]
fn is_white_space(ch: char) -> bool
    ensures { result ≡ is_white_space ch }
{
    ch.is_whitespace()
}

/// Whether `ch` is the space, U+0020.
#[inline]
fn equals_space(ch: char) -> bool
    ensures { result ≡ equals_space ch }
{
    ch == ' '
}
