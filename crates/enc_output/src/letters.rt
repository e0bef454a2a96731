//! Bytes that are letters, sixteen at a time.

ghost use Rattle.std.specs.Prelude.{◌≡◌, ℕ, ◌<◌, ◌≤◌, All, IsTrue, length, slice_index, take};
ghost use Rattle.enc_output.specs.Letters.{IsPlain, plain_unit};

use enc_utf8::Letters;
use std::simd::prelude::*;

/// Returns whether each of sixteen bytes is ASCII or a letter.
#[inline(always)]
pub(crate) fn are_plain(letters: Letters, bytes: u8x16) -> bool
    ensures { IsTrue result → (i : ℕ) → i < 16 → IsPlain letters (slice_index bytes i) }
{
    let before = bytes.simd_lt(u8x16::splat(letters.first));
    let after = bytes.simd_gt(u8x16::splat(letters.last));
    let others = bytes.simd_ge(u8x16::splat(0x80)) & (before | after);
    others.to_bitmask() == 0
}

/// Returns the code units of sixteen bytes, each of them ASCII or a letter.
#[inline(always)]
pub(crate) fn units_of_plain(letters: Letters, bytes: u8x16) -> u16x16
    ensures { (i : ℕ) → i < 16 →
        slice_index result i ≡ plain_unit letters (slice_index bytes i) }
{
    let units = bytes.cast::<u16>();
    let shifted = units + u16x16::splat(letters.shift);
    units.simd_ge(u16x16::splat(0x80)).select(shifted, units)
}

/// Returns the length of a prefix in which each byte is ASCII or a letter, in whole steps of
/// sixteen. It need not be the longest.
pub fn plain_len(letters: Letters, src: &[u8]) -> usize
    ensures within { result ≤ length src.now }
    ensures plain { All (IsPlain letters) (take result src.now) }
{
    let mut at = 0;
    while 16 <= src.len() - at {
        if !are_plain(letters, u8x16::from_slice(&src[at..])) {
            break;
        }
        at += 16;
    }
    at
}
