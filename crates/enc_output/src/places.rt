//! The places of sixteen bytes in a table with rows of pairs, with no branch and no load.

ghost use Rattle.std.specs.Prelude.{◌≡◌, ℕ, ◌+◌, ◌-◌, ◌*◌, ◌<◌, ◌≤◌, slice_index, if◌then◌else◌};
ghost use Rattle.std.specs.Prelude.{nat_le};
ghost use Rattle.enc_output.specs.Places.{has_bit, number_in};

use std::simd::prelude::*;

/// The places at which sixteen bytes are looked up.
#[derive(Clone, Copy)]
pub struct Places {
    /// The place of each byte, or of the pair that it leads.
    pub places: u16x16,
    /// Which bytes are looked up as the lead of a pair, the first in the lowest bit.
    pub leads: u64,
}

impl Places {
    /// Returns the places of pairs for bytes from 0x80 on, and each byte below as its own place.
    #[inline(always)]
    pub fn with_ascii(pairs: u16x16, first: u8x16) -> Places
        ensures leads { (i : ℕ) → i < 16 →
            has_bit result.leads i ≡ nat_le 0x80 (slice_index first i) }
        ensures places { (i : ℕ) → i < 16 → slice_index result.places i ≡
            (if nat_le 0x80 (slice_index first i) then slice_index pairs i
            else slice_index first i) }
    {
        let singles = first.cast::<u16>();
        Places {
            places: singles.simd_ge(u16x16::splat(0x80)).select(pairs, singles),
            leads: first.simd_ge(u8x16::splat(0x80)).to_bitmask(),
        }
    }
}

/// Returns the number of each byte from `first` to `last`, where `first` has `number`, and of any
/// other byte its lane of `others`.
#[inline(always)]
pub fn numbers_in(bytes: u8x16, first: u8, last: u8, number: u8, others: u8x16) -> u8x16
    requires range { first ≤ last }
    requires numbers { number + (last - first) < 0x100 }
    ensures { (i : ℕ) → i < 16 → slice_index result i ≡
        number_in first last number (slice_index bytes i) (slice_index others i) }
{
    let offsets = bytes - u8x16::splat(first);
    offsets
        .simd_le(u8x16::splat(last - first))
        .select(offsets + u8x16::splat(number), others)
}

/// Returns the places at these rows and columns, where rows of `row_len` places come after the 256
/// of single bytes.
#[inline(always)]
pub fn places_at(rows: u8x16, columns: u8x16, row_len: u16) -> u16x16
    requires bound { row_len < 0xFF }
    ensures { (i : ℕ) → i < 16 → slice_index result i ≡
        0x100 + slice_index rows i * row_len + slice_index columns i }
{
    let starts = rows.cast::<u16>() * u16x16::splat(row_len);
    starts + (columns.cast::<u16>() + u16x16::splat(0x100))
}
