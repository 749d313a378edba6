//! A line that is split again and again where a character stands.
ghost use Rattle.std.specs.Prelude.{◌≡◌, ◌<◌, ◌++◌, ◌∷◌, [], ℕ, List, length, chars, IfSome, IfNone};
ghost use Rattle.arraystring.specs.Fields.{fields};

/// Returns how many fields a line has, which commas separate.
#[tactic(auto, using(arraystring::proofs::Rules::fields))]
pub fn count_fields(line: &str) -> usize
    ensures { result ≡ length (fields 0x2C (chars line.now)) }
{
    let mut left = line;
    let mut count = 1;
    while let Some((_, behind)) = left.split_once(',') {
        left = behind;
        count += 1;
    }
    count
}

/// Returns the first two parts of a version such as `1.20.3` and the rest of it, or `None` if there are
/// fewer than three.
#[tactic(auto, using(arraystring::proofs::Rules::fields))]
pub fn version(text: &str) -> Option<(&str, &str, &str)>
    ensures parts { IfSome result (λ parts. fields 0x2E (chars text.now)
        ≡ chars parts.0.now ∷ (chars parts.1.now ∷ fields 0x2E (chars parts.2.now))) }
    ensures whole { IfSome result (λ parts. chars text.now
        ≡ chars parts.0.now ++ 0x2E ∷ (chars parts.1.now ++ 0x2E ∷ chars parts.2.now)) }
    ensures none { IfNone result (length (fields 0x2E (chars text.now)) < 3) }
{
    let Some((major, rest)) = text.split_once('.') else {
        return None;
    };
    let Some((minor, patch)) = rest.split_once('.') else {
        return None;
    };
    Some((major, minor, patch))
}

/// Returns what stands behind `key` and `=` in a line, or `None` if it has no `=`, or something else than
/// `key` before the first one.
#[tactic(auto, using(arraystring::proofs::Rules::fields, arraystring::proofs::Rules::borrowed))]
pub fn value_of<'a>(line: &'a str, key: &str) -> Option<&'a str>
    ensures value { IfSome result (λ value.
        chars line.now ≡ chars key.now ++ 0x3D ∷ chars value.now) }
    ensures first { IfSome result (λ value. fields 0x3D (chars line.now)
        ≡ chars key.now ∷ fields 0x3D (chars value.now)) }
    ensures none { IfNone result ((rest : List (List ℕ))
        → fields 0x3D (chars line.now) ≡ chars key.now ∷ rest → rest ≡ []) }
{
    let Some((name, value)) = line.split_once('=') else {
        return None;
    };
    if name == key { Some(value) } else { None }
}
