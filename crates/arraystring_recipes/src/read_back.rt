//! Numbers that are read back from the text that `write!` makes of them, one function for each type of integers.
ghost use Rattle.std.specs.Prelude.{◌≡◌, ◌<◌, ◌^◌, ℕ, ℤ, Ok};
ghost use Rattle.std.specs.Fmt.{decimal, signed_decimal};
ghost use Rattle.std.specs.Int.RustNames.{FitsSigned};
ghost use Rattle.std.specs.Str.Parse.{ParsesSigned, ParsesUnsigned};
ghost use Rattle.arraystring.specs.Text.{bytes};
ghost use mir.Syntax.Width.{w8, w16, w32, w64, w128};

use arraystring::ArrayString;
use std::num::ParseIntError;

/// Reads a number of the type `u8` back.
#[tactic(auto, using(arraystring::proofs::Rules::read_back))]
pub fn read_u8<const N: usize>(text: &ArrayString<N>) -> Result<u8, ParseIntError>
    ensures printed { (n : ℕ) → n < 2 ^ 8 → text.now.text ≡ decimal n → result ≡ Ok n }
    ensures parsed { ParsesUnsigned 8 10 (bytes text.now.text) result }
{
    text.as_str().parse()
}

/// Reads a number of the type `u16` back.
#[tactic(auto, using(arraystring::proofs::Rules::read_back))]
pub fn read_u16<const N: usize>(text: &ArrayString<N>) -> Result<u16, ParseIntError>
    ensures printed { (n : ℕ) → n < 2 ^ 16 → text.now.text ≡ decimal n → result ≡ Ok n }
    ensures parsed { ParsesUnsigned 16 10 (bytes text.now.text) result }
{
    text.as_str().parse()
}

/// Reads a number of the type `u32` back.
#[tactic(auto, using(arraystring::proofs::Rules::read_back))]
pub fn read_u32<const N: usize>(text: &ArrayString<N>) -> Result<u32, ParseIntError>
    ensures printed { (n : ℕ) → n < 2 ^ 32 → text.now.text ≡ decimal n → result ≡ Ok n }
    ensures parsed { ParsesUnsigned 32 10 (bytes text.now.text) result }
{
    text.as_str().parse()
}

/// Reads a number of the type `u64` back.
#[tactic(auto, using(arraystring::proofs::Rules::read_back))]
pub fn read_u64<const N: usize>(text: &ArrayString<N>) -> Result<u64, ParseIntError>
    ensures printed { (n : ℕ) → n < 2 ^ 64 → text.now.text ≡ decimal n → result ≡ Ok n }
    ensures parsed { ParsesUnsigned 64 10 (bytes text.now.text) result }
{
    text.as_str().parse()
}

/// Reads a number of the type `usize` back.
#[tactic(auto, using(arraystring::proofs::Rules::read_back))]
pub fn read_usize<const N: usize>(text: &ArrayString<N>) -> Result<usize, ParseIntError>
    ensures printed { (n : ℕ) → n < 2 ^ 64 → text.now.text ≡ decimal n → result ≡ Ok n }
    ensures parsed { ParsesUnsigned 64 10 (bytes text.now.text) result }
{
    text.as_str().parse()
}

/// Reads a number of the type `u128` back.
#[tactic(auto, using(arraystring::proofs::Rules::read_back))]
pub fn read_u128<const N: usize>(text: &ArrayString<N>) -> Result<u128, ParseIntError>
    ensures printed { (n : ℕ) → n < 2 ^ 128 → text.now.text ≡ decimal n → result ≡ Ok n }
    ensures parsed { ParsesUnsigned 128 10 (bytes text.now.text) result }
{
    text.as_str().parse()
}

/// Reads a number of the type `i8` back.
#[tactic(auto, using(arraystring::proofs::Rules::read_back))]
pub fn read_i8<const N: usize>(text: &ArrayString<N>) -> Result<i8, ParseIntError>
    ensures printed { (z : ℤ) → FitsSigned w8 z
        → text.now.text ≡ signed_decimal z → result ≡ Ok z }
    ensures parsed { ParsesSigned w8 10 (bytes text.now.text) result }
{
    text.as_str().parse()
}

/// Reads a number of the type `i16` back.
#[tactic(auto, using(arraystring::proofs::Rules::read_back))]
pub fn read_i16<const N: usize>(text: &ArrayString<N>) -> Result<i16, ParseIntError>
    ensures printed { (z : ℤ) → FitsSigned w16 z
        → text.now.text ≡ signed_decimal z → result ≡ Ok z }
    ensures parsed { ParsesSigned w16 10 (bytes text.now.text) result }
{
    text.as_str().parse()
}

/// Reads a number of the type `i32` back.
#[tactic(auto, using(arraystring::proofs::Rules::read_back))]
pub fn read_i32<const N: usize>(text: &ArrayString<N>) -> Result<i32, ParseIntError>
    ensures printed { (z : ℤ) → FitsSigned w32 z
        → text.now.text ≡ signed_decimal z → result ≡ Ok z }
    ensures parsed { ParsesSigned w32 10 (bytes text.now.text) result }
{
    text.as_str().parse()
}

/// Reads a number of the type `i64` back.
#[tactic(auto, using(arraystring::proofs::Rules::read_back))]
pub fn read_i64<const N: usize>(text: &ArrayString<N>) -> Result<i64, ParseIntError>
    ensures printed { (z : ℤ) → FitsSigned w64 z
        → text.now.text ≡ signed_decimal z → result ≡ Ok z }
    ensures parsed { ParsesSigned w64 10 (bytes text.now.text) result }
{
    text.as_str().parse()
}

/// Reads a number of the type `isize` back.
#[tactic(auto, using(arraystring::proofs::Rules::read_back))]
pub fn read_isize<const N: usize>(text: &ArrayString<N>) -> Result<isize, ParseIntError>
    ensures printed { (z : ℤ) → FitsSigned w64 z
        → text.now.text ≡ signed_decimal z → result ≡ Ok z }
    ensures parsed { ParsesSigned w64 10 (bytes text.now.text) result }
{
    text.as_str().parse()
}

/// Reads a number of the type `i128` back.
#[tactic(auto, using(arraystring::proofs::Rules::read_back))]
pub fn read_i128<const N: usize>(text: &ArrayString<N>) -> Result<i128, ParseIntError>
    ensures printed { (z : ℤ) → FitsSigned w128 z
        → text.now.text ≡ signed_decimal z → result ≡ Ok z }
    ensures parsed { ParsesSigned w128 10 (bytes text.now.text) result }
{
    text.as_str().parse()
}
