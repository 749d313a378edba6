//! Texts that are compared by their bytes.
ghost use Rattle.std.specs.Prelude.{◌≡◌, ◌↔◌, IsTrue};

use arraystring::ArrayString;

/// Whether strings of two capacities have the same bytes, and so the same text.
#[tactic(auto, using(arraystring::proofs::Rules::borrowed))]
pub fn same_bytes<const M: usize, const N: usize>(a: &ArrayString<M>, b: &ArrayString<N>) -> bool
    ensures { IsTrue result ↔ (a.now.text ≡ b.now.text) }
{
    a.as_bytes() == b.as_bytes()
}
