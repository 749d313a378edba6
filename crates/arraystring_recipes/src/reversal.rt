//! A text that is taken apart from its end.
ghost use Rattle.std.specs.Prelude.{◌≡◌, reverse};

use arraystring::ArrayString;

/// Returns the characters of `text`, from the last to the first. They take as many bytes, so they fit.
#[tactic(auto, using(arraystring::proofs::Rules::texts, arraystring::proofs::Rules::backwards))]
pub fn reversed<const N: usize>(mut text: ArrayString<N>) -> ArrayString<N>
    ensures { result.text ≡ reverse text.entry.text }
{
    let mut line = ArrayString::new();
    while let Some(last) = text.pop() {
        line.push_unchecked(last);
    }
    line
}
