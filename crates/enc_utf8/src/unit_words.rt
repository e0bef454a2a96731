//! Code units of UTF-16 stored as UTF-8, eight or sixteen at once, with no branch on their lengths.

ghost use Rattle.std.specs.Prelude.{◌≡◌, ℕ, ◌+◌, ◌-◌, ◌≤◌, ◌++◌, IsTrue, length, map, replicate, take};
ghost use Rattle.std.specs.Char.{encode_utf8};
ghost use Rattle.std.specs.Char.Escape.{encode_utf16};
ghost use Rattle.enc_utf8.specs.UnitWords.{unit_word, unit_word_low, unit_word_high};
ghost use Rattle.enc_utf8.specs.Text.{AreScalars, units_of_text};
ghost use Rattle.enc_utf8.specs.Validity.{AreAscii};

use crate::packed_units::{are_both_short, are_short, store_packed, store_short};
use std::simd::prelude::*;

/// The room that a turn of sixteen code units takes: what they store and overwrite, and a character
/// after them.
pub const SCALARS_STEP: usize = 52;

/// The numbers of eight lanes.
const LANES: [u16; 8] = [0, 1, 2, 3, 4, 5, 6, 7];

/// Returns whether all of eight code units are ASCII.
#[inline(always)]
fn are_ascii_units(units: u16x8) -> bool
    ensures { IsTrue result → AreAscii units }
{
    units.simd_ge(u16x8::splat(0x80)).to_bitmask() == 0
}

/// Returns whether all of eight code units and of eight more are ASCII.
#[inline(always)]
fn are_both_ascii(units: u16x8, next: u16x8) -> bool
    ensures { IsTrue result → AreAscii units × AreAscii next }
{
    are_ascii_units(units | next)
}

/// Returns whether none of eight code units is a surrogate.
#[inline(always)]
pub fn are_scalars(units: u16x8) -> bool
    ensures scalars { IsTrue result → AreScalars (take 8 units) }
    ensures alone { (n : ℕ) → units_of_text encode_utf16 (take n units) ≡ take n units }
{
    (units >> u16x8::splat(11))
        .simd_eq(u16x8::splat(27))
        .to_bitmask()
        == 0
}

/// Returns how many of eight code units come before the first surrogate.
#[inline(always)]
pub fn units_before_surrogate(units: u16x8) -> usize
    ensures bound { result ≤ 8 }
    ensures scalars { AreScalars (take result units) }
    ensures alone { (n : ℕ) → units_of_text encode_utf16 (take n units) ≡ take n units }
{
    let surrogates = (units >> u16x8::splat(11))
        .simd_eq(u16x8::splat(27))
        .to_bitmask();
    if surrogates == 0 {
        8
    } else {
        surrogates.trailing_zeros() as usize
    }
}

/// Returns the first two bytes of the UTF-8 of each code unit.
#[inline(always)]
fn fronts(units: u16x8) -> u16x8
    ensures { result ≡ map unit_word_low units }
{
    let upper = units >> u16x8::splat(6);
    let low = (units & u16x8::splat(63)) << u16x8::splat(8);
    let middle = (upper & u16x8::splat(63)) << u16x8::splat(8);
    let two = upper + u16x8::splat(0x80C0) + low;
    let three = (units >> u16x8::splat(12)) + u16x8::splat(0x80E0) + middle;
    let more = units.simd_lt(u16x8::splat(0x800)).select(two, three);
    units.simd_lt(u16x8::splat(0x80)).select(units, more)
}

/// Returns the third byte of the UTF-8 of each code unit. It is left out where there is none.
#[inline(always)]
fn rests(units: u16x8) -> u16x8
    ensures { result ≡ map unit_word_high units }
{
    (units & u16x8::splat(63)) + u16x8::splat(0x80)
}

/// Returns the UTF-8 of each code unit as a word: its bytes, the first lowest.
#[inline(always)]
fn words_of(units: u16x8) -> u32x8
    ensures { result ≡ map unit_word units }
{
    let rests = rests(units).cast::<u32>() << u32x8::splat(16);
    fronts(units).cast::<u32>() + rests
}

/// Stores eight code units that are ASCII after the first `at` bytes of a buffer. Returns their
/// end.
#[inline(always)]
fn store_ascii(buffer: &mut [u8], at: usize, units: u16x8) -> usize
    requires room { at + 8 ≤ length buffer.old }
    requires ascii { AreAscii units }
    ensures end { result ≡ at + 8 }
    ensures len { length buffer.new ≡ length buffer.old }
    ensures stored { take result buffer.new
        ≡ take at buffer.old ++ units_of_text encode_utf8 units }
{
    units.cast::<u8>().copy_to_slice(&mut buffer[at..]);
    at + 8
}

/// Stores the UTF-8 of eight code units after the first `at` bytes of a buffer, and three bytes for
/// a surrogate. Returns its end.
#[inline(always)]
fn store_eight(buffer: &mut [u8], at: usize, units: u16x8) -> usize
    requires room { at + 28 ≤ length buffer.old }
    ensures bound { result ≤ at + 24 }
    ensures len { length buffer.new ≡ length buffer.old }
    ensures stored { take result buffer.new
        ≡ take at buffer.old ++ units_of_text encode_utf8 units }
{
    if are_ascii_units(units) {
        return store_ascii(buffer, at, units);
    }
    if are_short(units) {
        return store_short(buffer, at, units);
    }
    store_packed(buffer, at, units, words_of(units))
}

/// Returns the first `count` of eight code units, and 0 in place of the others.
#[inline(always)]
fn front_units(units: u16x8, count: usize) -> u16x8
    requires bound { count ≤ 8 }
    ensures { result ≡ take count units ++ replicate (8 - count) 0 }
{
    let is_front = u16x8::from_array(LANES).simd_lt(u16x8::splat(count as u16));
    is_front.select(units, u16x8::splat(0))
}

/// Stores the UTF-8 of the first `count` of eight code units after the first `at` bytes of a
/// buffer. Returns its end.
#[inline(always)]
fn store_front(buffer: &mut [u8], at: usize, units: u16x8, count: usize) -> usize
    requires room { at + 28 ≤ length buffer.old }
    requires bound { count ≤ 8 }
    ensures bound { result ≤ at + 24 }
    ensures len { length buffer.new ≡ length buffer.old }
    ensures stored { take result buffer.new
        ≡ take at buffer.old ++ units_of_text encode_utf8 (take count units) }
{
    // each of the others is stored as one byte
    let end = store_eight(buffer, at, front_units(units, count));
    end - (8 - count)
}

/// Stores the UTF-8 of the code units before the first surrogate after the first `at` bytes of a
/// buffer. Returns their number and the end of their UTF-8.
#[inline(always)]
pub fn store_scalars(buffer: &mut [u8], at: usize, units: u16x8) -> (usize, usize)
    requires room { at + 28 ≤ length buffer.old }
    ensures few { result.0 ≤ 8 }
    ensures bound { result.1 ≤ at + 24 }
    ensures len { length buffer.new ≡ length buffer.old }
    ensures scalars { AreScalars (take result.0 units) }
    ensures stored { take result.1 buffer.new
        ≡ take at buffer.old ++ units_of_text encode_utf8 (take result.0 units) }
{
    if are_ascii_units(units) {
        return (8, store_ascii(buffer, at, units));
    }
    if are_short(units) {
        return (8, store_short(buffer, at, units));
    }
    let count = units_before_surrogate(units);
    if count == 0 {
        return (0, at);
    }
    if count == 8 {
        return (8, store_packed(buffer, at, units, words_of(units)));
    }
    (count, store_front(buffer, at, units, count))
}

/// Stores the UTF-8 of eight code units and of eight more, before the first surrogate, after the
/// first `at` bytes of a buffer. Returns the number of these code units and the end of their UTF-8.
#[inline(always)]
pub fn store_sixteen_scalars(
    buffer: &mut [u8],
    at: usize,
    units: u16x8,
    next: u16x8,
) -> (usize, usize)
    requires room { at + 52 ≤ length buffer.old }
    ensures few { result.0 ≤ 16 }
    ensures bound { result.1 ≤ at + 48 }
    ensures len { length buffer.new ≡ length buffer.old }
    ensures scalars { AreScalars (take result.0 (units ++ next)) }
    ensures stored { take result.1 buffer.new
        ≡ take at buffer.old ++ units_of_text encode_utf8 (take result.0 (units ++ next)) }
{
    if are_both_ascii(units, next) {
        let middle = store_ascii(buffer, at, units);
        return (16, store_ascii(buffer, middle, next));
    }
    if are_both_short(units, next) {
        let middle = store_short(buffer, at, units);
        return (16, store_short(buffer, middle, next));
    }
    if are_scalars(units) & are_scalars(next) {
        let middle = store_packed(buffer, at, units, words_of(units));
        return (16, store_packed(buffer, middle, next, words_of(next)));
    }
    let count = units_before_surrogate(units);
    if count < 8 {
        return (count, store_front(buffer, at, units, count));
    }
    let middle = store_eight(buffer, at, units);
    let more = units_before_surrogate(next);
    (8 + more, store_front(buffer, middle, next, more))
}
