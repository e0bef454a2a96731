//! Runs of mapped characters, read from UTF-16.

ghost use Rattle.std.specs.Prelude.{◌≡◌, ◌+◌, ◌%◌, ◌<◌, ◌≤◌, ◌++◌, IsTrue, map, length, take, drop};
ghost use Rattle.std.specs.Prelude.{min, slice_index};
ghost use Rattle.std.specs.Char.Utf16.{utf16_lossy_chars};
ghost use Rattle.enc_input.specs.Mappings.{AreAnyUnits, WritesFront, WritesThemselves};
ghost use Rattle.enc_utf8.specs.AsciiCopy.{CopiesAscii};
ghost use Rattle.enc_utf8.specs.Validity.{AreAscii};

use crate::mapped_bytes::{MOST_BYTES, put_bytes, put_lanes};
use crate::mapping::{Mapping, UnitBytes};
use crate::turns::Turns;
use crate::utf16_chars::first;
use std::simd::prelude::*;

/// Returns how many of some code units, at most 64, come before the first that is not ASCII.
#[inline(always)]
fn ascii_units<const N: usize>(units: Simd<u16, N>) -> usize
    requires few { N ≤ 64 }
    ensures bound { result ≤ N }
    ensures ascii { AreAscii (take result units.entry) }
{
    let others = units.simd_ge(Simd::<u16, N>::splat(0x80)).to_bitmask();
    if others == 0 {
        N
    } else {
        others.trailing_zeros() as usize
    }
}

/// Returns the lower seven bits of code units, which are all bits of those that are ASCII.
#[inline(always)]
fn low_bytes<const N: usize>(units: Simd<u16, N>) -> Simd<u8, N>
    ensures { result ≡ map (λ u. u % 0x80) units.entry }
{
    (units & Simd::<u16, N>::splat(0x7F)).cast::<u8>()
}

/// Copies the first N characters, eight or sixteen, if they are ASCII and at most `most` are
/// copied. Returns their number, or 0.
#[inline(always)]
fn copy_step<const N: usize>(src: &[u16], dst: &mut [u8], most: usize) -> usize
    requires few { N ≤ 16 }
    requires read { most ≤ length src.now }
    requires room { most ≤ length dst.old }
    ensures { CopiesAscii src.now dst.old dst.new most result }
{
    if most < N {
        return 0;
    }
    let units = Simd::<u16, N>::from_slice(src);
    if ascii_units(units) < N {
        return 0;
    }
    units.cast::<u8>().copy_to_slice(dst);
    N
}

/// Copies the first 32 characters if they are ASCII and at most `most` are copied. Returns their
/// number, or 0.
#[inline(always)]
fn copy_thirty_two(src: &[u16], dst: &mut [u8], most: usize) -> usize
    requires read { most ≤ length src.now }
    requires room { most ≤ length dst.old }
    ensures { CopiesAscii src.now dst.old dst.new most result }
{
    if most < 32 {
        return 0;
    }
    let front = Simd::<u16, 16>::from_slice(src);
    let back = Simd::<u16, 16>::from_slice(&src[16..]);
    if ascii_units(front | back) < 16 {
        return 0;
    }
    front.cast::<u8>().copy_to_slice(dst);
    back.cast::<u8>().copy_to_slice(&mut dst[16..]);
    32
}

/// Copies ASCII from the front of `src`, at most `most` characters: first sixteen, then in whole
/// steps of 32, and one of sixteen and of eight. Returns their number.
#[inline(always)]
fn copy_steps(src: &[u16], dst: &mut [u8], most: usize) -> usize
    requires read { most ≤ length src.now }
    requires room { most ≤ length dst.old }
    ensures { CopiesAscii src.now dst.old dst.new most result }
{
    let mut at = copy_step::<16>(src, dst, most);
    loop {
        let more = copy_thirty_two(&src[at..], &mut dst[at..], most - at);
        at += more;
        if more == 0 {
            break;
        }
    }
    at += copy_step::<16>(&src[at..], &mut dst[at..], most - at);
    at + copy_step::<8>(&src[at..], &mut dst[at..], most - at)
}

/// Writes the ASCII in front that is written as itself, of sixteen code units.
///
/// Returns the number of bytes. It is 0 if the first is written otherwise.
#[inline(always)]
pub(crate) fn put_ascii<M: Mapping>(mapping: M, src: &[u16], dst: &mut [u8], at: usize) -> usize
    requires sixteen { 16 ≤ length src.now }
    requires room { at + 16 ≤ length dst.old }
    ensures { WritesThemselves (M.means mapping) src.now dst.old dst.new at result }
{
    let units = Simd::<u16, 16>::from_slice(src);
    let lanes = low_bytes(units);
    let len = mapping.ascii_len(lanes).min(ascii_units(units));
    if len < 16 {
        put_lanes(dst, at, lanes, len);
        return len;
    }
    lanes.copy_to_slice(&mut dst[at..]);
    16
}

/// Returns sixteen code units, with U+07FF in place of those above it.
#[inline(always)]
pub(crate) fn clamped(units: Simd<u16, 16>) -> [u16; 16]
    ensures { result ≡ map (λ u. min u 0x7FF) units }
{
    let last = Simd::<u16, 16>::splat(0x7FF);
    units.simd_lt(last).select(units, last).to_array()
}

/// Writes the bytes of the first of sixteen code units, up to one that has none by
/// [`UnitBytes::unit_byte`]. Returns their number.
#[inline(always)]
pub(crate) fn put_units<M: UnitBytes>(mapping: M, src: &[u16], dst: &mut [u8], at: usize) -> usize
    requires sixteen { 16 ≤ length src.now }
    requires room { at + 16 ≤ length dst.old }
    ensures bound { result ≤ 16 }
    ensures writes { WritesFront utf16_lossy_chars AreAnyUnits (M.means mapping) src.now dst.old
        dst.new at result result }
{
    let places = clamped(Simd::<u16, 16>::from_slice(src));
    let mut count = 0;
    while count < 16 {
        let byte = mapping.unit_byte(places[count]);
        if byte == 0 {
            return count;
        }
        dst[at + count] = byte;
        count += 1;
    }
    16
}

/// Writes the first code unit if it is ASCII written as itself, and returns 1, or writes nothing
/// and returns 0. Condition: it is ASCII.
#[inline(always)]
fn put_own<M: Mapping>(mapping: M, src: &[u16], dst: &mut [u8], at: usize) -> usize
    requires some { 1 ≤ length src.now }
    requires ascii { slice_index src.now 0 < 0x80 }
    requires room { at < length dst.old }
    ensures { WritesThemselves (M.means mapping) src.now dst.old dst.new at result }
{
    let byte = src[0] as u8;
    if !mapping.is_own(byte) {
        return 0;
    }
    dst[at] = byte;
    1
}

/// Writes the bytes of the first character, which is beyond ASCII.
///
/// Returns the numbers of code units read and of bytes written, which are 0 if the character ends a
/// run.
#[inline(always)]
pub(crate) fn put_beyond<M: Mapping>(
    mapping: M,
    src: &[u16],
    dst: &mut [u8],
    at: usize,
) -> (usize, usize)
    requires beyond { 0x80 ≤ slice_index src.now 0 }
    requires room { at + 4 ≤ length dst.old }
    ensures { WritesFront utf16_lossy_chars AreAnyUnits (M.means mapping) src.now dst.old dst.new at
        result.0 result.1 }
{
    let Some((c, width)) = first(src) else {
        return (0, 0);
    };
    let Some(bytes) = mapping.bytes_in_run(c) else {
        return (0, 0);
    };
    (width, put_bytes(dst, at, bytes))
}

/// Writes the bytes of the first character. One beyond ASCII takes room for four bytes.
///
/// Returns the numbers of code units read and of bytes written, which are 0 if the character ends a
/// run or has less room.
#[inline(always)]
pub(crate) fn put_char<M: Mapping>(
    mapping: M,
    src: &[u16],
    dst: &mut [u8],
    at: usize,
) -> (usize, usize)
    requires some { 1 ≤ length src.now }
    requires room { at < length dst.old }
    ensures { WritesFront utf16_lossy_chars AreAnyUnits (M.means mapping) src.now dst.old dst.new at
        result.0 result.1 }
{
    if src[0] < 0x80 {
        let len = put_own(mapping, src, dst, at);
        return (len, len);
    }
    if dst.len() - at < MOST_BYTES {
        return (0, 0);
    }
    put_beyond(mapping, src, dst, at)
}

/// Writes ASCII in front in whole steps of 32, sixteen and eight, if all of ASCII is written as
/// itself.
///
/// Returns the number of bytes.
#[inline(always)]
pub(crate) fn put_strides<M: Mapping>(mapping: M, src: &[u16], dst: &mut [u8], at: usize) -> usize
    requires room { at ≤ length dst.old }
    ensures { WritesThemselves (M.means mapping) src.now dst.old dst.new at result }
{
    // most texts that are not ASCII show it here
    if src.len() < 8 || src[1] >= 0x80 || src[src.len().min(64) - 1] >= 0x80 {
        return 0;
    }
    if !mapping.keeps_ascii() {
        return 0;
    }
    let most = src.len().min(dst.len() - at);
    copy_steps(src, &mut dst[at..], most)
}

/// Writes the bytes of the first characters of UTF-16 to a slice, from `from` on.
///
/// Returns the numbers of code units read and of bytes written. The run need not be maximal.
#[inline(never)]
pub(crate) fn write_utf16<M: Mapping, T: Turns<M>>(
    mapping: M,
    src: &[u16],
    dst: &mut [u8],
    from: usize,
) -> (usize, usize)
    requires room { from ≤ length dst.old }
    ensures { WritesFront utf16_lossy_chars AreAnyUnits (M.means mapping) src.now dst.old dst.new
        from
        result.0 result.1 }
{
    let mut read = put_strides(mapping, src, dst, from);
    let mut at = from + read;
    let last_sixteen = src.len().saturating_sub(15);
    let last_room = dst.len().saturating_sub(14 + MOST_BYTES);
    'sixteens: while read < last_sixteen && at < last_room {
        let (len, count, goes_on) = T::put_utf16(mapping, &src[read..], dst, at);
        read += len;
        at += count;
        if !goes_on {
            return (read, at - from);
        }
    }
    'ones: while read < src.len() && at < dst.len() {
        let (width, count) = T::put_utf16_char(mapping, &src[read..], dst, at);
        read += width;
        at += count;
        if width == 0 {
            return (read, at - from);
        }
    }
    (read, at - from)
}
