//! A greeting that is cut if it would get too long.
ghost use Rattle.std.specs.Prelude.{◌≡◌, ◌<◌, ◌↔◌, ◌++◌, IsOk, IfOk, IfErr, chars, codes};
ghost use Rattle.arraystring.specs.Refusals.{OutOfBounds};
ghost use Rattle.arraystring.specs.Text.{size, cut};

use arraystring::{ArrayString, Error};

/// Greets `name`. The greeting is `@`, the name and `, welcome back`, one after the other. It is cut to
/// the longest prefix of whole characters that fits into 20 bytes.
///
/// # Errors
///
/// Returns `Err(Error::OutOfBounds)` if `@` and the name do not fit.
#[tactic(auto, using(arraystring::proofs::Rules::texts))]
pub fn greet(name: &str) -> Result<ArrayString<20>, Error>
    ensures text { IfOk result (λ greeting. greeting.text
        ≡ cut (codes "@" ++ (chars name.now ++ codes ", welcome back")) 20) }
    ensures fits { IsOk result ↔ (size (chars name.now) < 20) }
    ensures refused { IfErr result (λ error. error ≡ OutOfBounds) }
{
    let mut greeting = ArrayString::try_from_str(name)?;
    greeting.try_insert_str(0, "@")?;
    greeting.push_str(", welcome back");
    Ok(greeting)
}
