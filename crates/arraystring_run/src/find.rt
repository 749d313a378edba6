//! Finds where a byte first stands.
ghost use Rattle.std.specs.Prelude.{◌≡◌, ◌≢◌, ◌+◌, ◌<◌, ◌≤◌, ℕ, length, slice_index};

use std::simd::Simd;

/// How many bytes are compared at a time.
const BLOCK_SIZE: usize = 16;

/// The index of the first byte that is `wanted`; the length if none is. Blocks that lack it are
/// passed over whole.
pub(crate) fn byte_position_or_len(wanted: u8, bytes: &[u8]) -> usize
    ensures at_most { result ≤ length bytes.now }
    ensures found { result < length bytes.now → slice_index bytes.now result ≡ wanted }
    ensures before { (i : ℕ) → i < result → slice_index bytes.now i ≢ wanted }
{
    let mut at = 0;
    while bytes.len() - at >= BLOCK_SIZE {
        let before = position_or_block_size(wanted, bytes, at);
        at += before;
        if before < BLOCK_SIZE {
            return at;
        }
    }
    while at < bytes.len() && bytes[at] != wanted {
        at += 1;
    }
    at
}

/// How many of the 16 bytes from `at` on come before the first that is `wanted`, which are 16 if none is.
#[inline(always)]
fn position_or_block_size(wanted: u8, bytes: &[u8], at: usize) -> usize
    requires { at + 16 ≤ length bytes.now }
    ensures at_most { result ≤ 16 }
    ensures found { result < 16 → slice_index bytes.now (at + result) ≡ wanted }
    ensures before { (i : ℕ) → at ≤ i → i < at + result → slice_index bytes.now i ≢ wanted }
{
    let block = Simd::<u8, BLOCK_SIZE>::from_slice(&bytes[at..]);
    let found = block.simd_eq(Simd::splat(wanted)).to_bitmask();
    if found == 0 {
        return BLOCK_SIZE;
    }
    found.trailing_zeros() as usize
}
