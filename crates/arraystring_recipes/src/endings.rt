//! What a text ends with, behind an `if let`.
ghost use Rattle.std.specs.Prelude.{◌≡◌, ◌≢◌, ◌<◌, ◌==◌, ◌++◌, ◌∷◌, [], ℕ, List, true, false, chars, length};
ghost use Rattle.std.specs.List.{before_last, position_or_len};

use arraystring::ArrayString;
use arraystring::laws::{pop_takes_last, rsplit_once_at_last, text_fits};

/// Removes a newline at the end, and says whether there was one.
#[tactic(auto, using(arraystring::proofs::Rules::texts, arraystring::proofs::Rules::backwards))]
pub fn chop_newline(line: &mut ArrayString<80>) -> bool
    ensures chopped { result ≡ true → line.old.text ≡ line.new.text ++ 0x0A ∷ [] }
    ensures same { result ≡ false → line.new.text ≡ line.old.text }
    ensures none { (rest : List ℕ) → result ≡ false → line.old.text ≢ rest ++ 0x0A ∷ [] }
{
    text_fits(line);
    pop_takes_last();
    if let Some(last) = line.pop() {
        if last == '\n' {
            return true;
        }
        line.push_unchecked(last);
    }
    false
}

/// Returns what stands before the last dot of a name, or all of it if it has none.
pub fn stem(name: &str) -> &str
    ensures dot { position_or_len (λ c. c == 0x2E) (chars name.now) < length (chars name.now)
        → chars result.now ≡ before_last (λ c. c == 0x2E) (chars name.now) }
    ensures none { position_or_len (λ c. c == 0x2E) (chars name.now) ≡ length (chars name.now)
        → chars result.now ≡ chars name.now }
{
    let found = name.rsplit_once('.');
    rsplit_once_at_last(name, '.', found);
    if let Some((stem, _)) = found {
        stem
    } else {
        name
    }
}
