//! A member of a group: a name and a role, put together without an error to handle.
ghost use Rattle.std.specs.Prelude.{◌≡◌, ◌++◌, ◌∷◌};

use arraystring::ArrayString;

/// Returns `name`, a bar and `role`. They always fit, since they take at most 20, 1 and 12 bytes.
#[tactic(auto, using(arraystring::proofs::Rules::texts))]
pub fn member(name: &ArrayString<20>, role: &ArrayString<12>) -> ArrayString<33>
    ensures { result.text ≡ name.now.text ++ 0x7C ∷ role.now.text }
{
    let mut line = ArrayString::from_str_truncate(name.as_str());
    line.push_str("|");
    line.push_str(role.as_str());
    line
}
