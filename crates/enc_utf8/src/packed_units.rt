//! The UTF-8 of eight code units, computed in lanes of the same width and stored one after another.

ghost use Rattle.std.specs.Prelude.{◌≡◌, ℕ, ◌+◌, ◌<◌, ◌≤◌, ◌++◌, All, IsTrue, length, map, take};
ghost use Rattle.std.specs.Char.{encode_utf8};
ghost use Rattle.enc_utf8.specs.PackedUnits.{kept_bytes, pair_lens, triple_lens, unit_len};
ghost use Rattle.enc_utf8.specs.Text.{units_of_text};
ghost use Rattle.enc_utf8.specs.UnitWords.{unit_word_low, unit_word};

use crate::packed::{PAIR_PLACES, TRIPLE_PLACES};
use crate::swizzle::pick;
use std::simd::prelude::*;

/// Returns whether all of eight code units are below U+0800.
#[inline(always)]
pub(crate) fn are_short(units: u16x8) -> bool
    ensures { IsTrue result → All (λ u. u < 0x800) units }
{
    units.simd_ge(u16x8::splat(0x800)).to_bitmask() == 0
}

/// Returns whether all of eight code units and of eight more are below U+0800.
#[inline(always)]
pub(crate) fn are_both_short(units: u16x8, next: u16x8) -> bool
    ensures { IsTrue result → All (λ u. u < 0x800) units × All (λ u. u < 0x800) next }
{
    are_short(units | next)
}

/// Returns the first two bytes of the UTF-8 of each code unit. Condition: all are below U+0800.
#[inline(always)]
fn short_fronts(units: u16x8) -> u16x8
    requires short { All (λ u. u < 0x800) units }
    ensures { result ≡ map unit_word_low units }
{
    let low = (units & u16x8::splat(63)) << u16x8::splat(8);
    let two = (units >> u16x8::splat(6)) + u16x8::splat(0x80C0) + low;
    units.simd_lt(u16x8::splat(0x80)).select(units, two)
}

/// Returns which of eight code units have one byte, a bit each. Condition: all are below U+0800.
#[inline(always)]
fn short_mask(units: u16x8) -> usize
    requires short { All (λ u. u < 0x800) units }
    ensures bound { result < 0x100 }
    ensures lens { pair_lens 8 result ≡ map unit_len units }
{
    units.simd_lt(u16x8::splat(0x80)).to_bitmask() as usize
}

/// Returns which bytes of eight code units are left out, two bits each: the lower one if there is
/// no third, and the upper one if there is no second.
#[inline(always)]
fn mask_of(units: u16x8) -> usize
    ensures bound { result < 0x1_0000 }
    ensures lens { triple_lens 8 result ≡ map unit_len units }
{
    let none = u16x8::splat(0);
    let one = units
        .simd_lt(u16x8::splat(0x80))
        .select(u16x8::splat(0xFF00), none);
    let short = units
        .simd_lt(u16x8::splat(0x800))
        .select(u16x8::splat(0xFF), none);
    (one | short)
        .to_le_bytes()
        .simd_ge(u8x16::splat(0x80))
        .to_bitmask() as usize
}

/// Stores the bytes of eight pairs, without the second byte of those in a mask, after the first
/// `at` bytes of a buffer. Returns their end.
#[inline(always)]
fn store_pairs(buffer: &mut [u8], at: usize, pairs: u8x16, mask: usize) -> usize
    requires room { at + 16 ≤ length buffer.old }
    requires mask { mask < 0x100 }
    ensures bound { result ≤ at + 16 }
    ensures len { length buffer.new ≡ length buffer.old }
    ensures stored { take result buffer.new
        ≡ take at buffer.old ++ kept_bytes 2 (pair_lens 8 mask) pairs }
{
    let places = u8x16::from_slice(&PAIR_PLACES[mask * 16..]);
    pick(pairs, places).copy_to_slice(&mut buffer[at..]);
    at + (16 - mask.count_ones() as usize)
}

/// Stores the first three bytes of each of four words, without those in a mask, after the first
/// `at` bytes of a buffer. Returns their end.
#[inline(always)]
fn store_triples(buffer: &mut [u8], at: usize, words: u8x16, mask: usize) -> usize
    requires room { at + 16 ≤ length buffer.old }
    requires mask { mask < 0x100 }
    ensures bound { result ≤ at + 12 }
    ensures len { length buffer.new ≡ length buffer.old }
    ensures stored { take result buffer.new
        ≡ take at buffer.old ++ kept_bytes 4 (triple_lens 4 mask) words }
{
    let places = u8x16::from_slice(&TRIPLE_PLACES[mask * 16..]);
    pick(words, places).copy_to_slice(&mut buffer[at..]);
    at + (12 - mask.count_ones() as usize)
}

/// Stores the UTF-8 of eight code units below U+0800 after the first `at` bytes of a buffer.
/// Returns its end.
#[inline(always)]
pub(crate) fn store_short(buffer: &mut [u8], at: usize, units: u16x8) -> usize
    requires room { at + 16 ≤ length buffer.old }
    requires short { All (λ u. u < 0x800) units }
    ensures bound { result ≤ at + 16 }
    ensures len { length buffer.new ≡ length buffer.old }
    ensures stored { take result buffer.new
        ≡ take at buffer.old ++ units_of_text encode_utf8 units }
{
    let pairs = short_fronts(units).to_le_bytes();
    store_pairs(buffer, at, pairs, short_mask(units))
}

/// Stores the UTF-8 of eight code units after the first `at` bytes of a buffer, by their words.
/// Returns its end.
#[inline(always)]
pub(crate) fn store_packed(buffer: &mut [u8], at: usize, units: u16x8, words: u32x8) -> usize
    requires room { at + 28 ≤ length buffer.old }
    requires words { words ≡ map unit_word units }
    ensures bound { result ≤ at + 24 }
    ensures len { length buffer.new ≡ length buffer.old }
    ensures stored { take result buffer.new
        ≡ take at buffer.old ++ units_of_text encode_utf8 units }
{
    let mask = mask_of(units);
    let first = words.extract::<0, 4>().to_le_bytes();
    let second = words.extract::<4, 4>().to_le_bytes();
    let middle = store_triples(buffer, at, first, mask % 0x100);
    store_triples(buffer, middle, second, mask / 0x100)
}
