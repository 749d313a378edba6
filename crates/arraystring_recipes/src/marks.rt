//! A text that stands in another one: where it first stands, and what is before it and behind it.
ghost use Rattle.std.specs.Prelude.{◌≡◌, ◌≢◌, ◌≤◌, ◌++◌, ℕ, List, IsTrue, IfNone, IfSome, chars, codes};
ghost use Rattle.arraystring.specs.Text.{back, boundary, size};

/// Returns what stands before and behind the first `mark` in a text, or `None` if it has none.
#[tactic(auto, using(arraystring::proofs::Rules::prefixes))]
pub fn around<'a>(text: &'a str, mark: &str) -> Option<(&'a str, &'a str)>
    ensures parts { IfSome result
        (λ found. chars text.now ≡ chars found.0.now ++ (chars mark.now ++ chars found.1.now)) }
    ensures first { IfSome result (λ found. (a b : List ℕ)
        → chars text.now ≡ a ++ (chars mark.now ++ b) → size (chars found.0.now) ≤ size a) }
    ensures none { IfNone result ((a b : List ℕ) → chars text.now ≢ a ++ (chars mark.now ++ b)) }
{
    text.split_once(mark)
}

/// Returns the index at which `mark` first stands in a text, or `None` if it has none.
#[tactic(auto, using(arraystring::proofs::Rules::prefixes))]
pub fn place_of(text: &str, mark: &str) -> Option<usize>
    ensures place { IfSome result (λ i. IsTrue (boundary (chars text.now) i)
        × ((rest : List ℕ) × (back (chars text.now) i ≡ chars mark.now ++ rest))) }
    ensures first { IfSome result
        (λ i. (a b : List ℕ) → chars text.now ≡ a ++ (chars mark.now ++ b) → i ≤ size a) }
    ensures none { IfNone result ((a b : List ℕ) → chars text.now ≢ a ++ (chars mark.now ++ b)) }
{
    text.find(mark)
}

/// Returns what stands before and behind the first arrow in a text, or `None` if it has none.
#[tactic(auto, using(arraystring::proofs::Rules::literals))]
pub fn around_arrow(text: &str) -> Option<(&str, &str)>
    ensures parts { IfSome result
        (λ found. chars text.now ≡ chars found.0.now ++ (chars (codes "->") ++ chars found.1.now)) }
    ensures first { IfSome result (λ found. (a b : List ℕ)
        → chars text.now ≡ a ++ (chars (codes "->") ++ b) → size (chars found.0.now) ≤ size a) }
    ensures none { IfNone result ((a b : List ℕ)
        → chars text.now ≢ a ++ (chars (codes "->") ++ b)) }
{
    around(text, "->")
}
