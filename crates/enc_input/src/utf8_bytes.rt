//! Characters of one byte each, read from UTF-8 by lanes, with no branch on the length of their
//! UTF-8.

ghost use Rattle.std.specs.Prelude.{◌≡◌, ℕ, ◌+◌, ◌/◌, ◌%◌, ◌^◌, ◌<◌, ◌≤◌, List, ◌++◌, length, take, drop, chars};
ghost use Rattle.std.specs.Prelude.{slice_index, IsTrue, IsUtf8};
ghost use Rattle.enc_utf8.specs.Pieces.{KeepsAscii};
ghost use Rattle.enc_input.specs.Mappings.{WritesFront};
ghost use Rattle.enc_input.specs.Utf8Bytes.{short_unit, lead_bit, AreLanesOf};

use crate::mapping::UnitBytes;
use crate::utf16_mapped::clamped;
use enc_utf8::{are_all_ascii, ascii_from, ends_of};
use std::simd::prelude::*;

/// The number of bytes loaded at once.
const LANES: usize = 64;

/// A run has this number of bytes before lanes are loaded: one that ends at its first characters
/// would pay for them.
const SETTLED: usize = 16;

/// The numbers of 64 lanes.
#[rattlefmt::skip]
const PLACES: [u8; 64] = [
    0, 1, 2, 3, 4, 5, 6, 7, 8, 9, 10, 11, 12, 13, 14, 15,
    16, 17, 18, 19, 20, 21, 22, 23, 24, 25, 26, 27, 28, 29, 30, 31,
    32, 33, 34, 35, 36, 37, 38, 39, 40, 41, 42, 43, 44, 45, 46, 47,
    48, 49, 50, 51, 52, 53, 54, 55, 56, 57, 58, 59, 60, 61, 62, 63,
];

/// The characters that sixteen bytes begin, U+07FF in place of those above it, and a bit for each
/// lead byte.
#[derive(Clone, Copy)]
struct Lanes {
    units: [u16; 16],
    leads: u64,
}

/// Returns the characters that sixteen bytes begin, by the bytes after them, if they are below
/// U+0800, and numbers above for longer ones.
#[inline(always)]
fn units_of(first: u8x16, second: u8x16) -> u16x16
    ensures { (k : ℕ) → k < 16 →
        slice_index result k ≡ short_unit (slice_index first k) (slice_index second k) }
{
    let first = first.cast::<u16>();
    let pair = first * u16x16::splat(0x40) + second.cast::<u16>();
    let two = pair + u16x16::splat(0xCF80);
    first.simd_lt(u16x16::splat(0x80)).select(first, two)
}

/// Returns which of sixteen bytes are lead bytes, the first in the lowest bit.
#[inline(always)]
fn leads_of(bytes: u8x16) -> u64
    ensures { (k : ℕ) → k < 16 → result / 2 ^ k % 2 ≡ lead_bit (slice_index bytes k) }
{
    bytes.simd_ge(u8x16::splat(0xC0)).to_bitmask()
}

/// Returns what sixteen bytes from `from` on begin.
#[inline(always)]
fn lanes_at(src: &[u8], from: usize) -> Lanes
    requires bytes { from + 17 ≤ length src.now }
    ensures { AreLanesOf (drop from src.now) result.units result.leads }
{
    let first = u8x16::from_slice(&src[from..]);
    let second = u8x16::from_slice(&src[from + 1..]);
    Lanes {
        units: clamped(units_of(first, second)),
        leads: leads_of(first),
    }
}

/// Writes the bytes of four characters, which begin at a place in `lanes`, or of those before one
/// that has no byte or more than two bytes of UTF-8.
///
/// Returns the numbers of bytes read and written, and whether the characters are four.
#[inline(always)]
fn put_four<M: UnitBytes>(
    mapping: M,
    lanes: &Lanes,
    place: usize,
    dst: &mut [u8],
    at: usize,
) -> (usize, usize, bool)
    requires units { (k : ℕ) → k < 16 → slice_index lanes.now.units k < 0x800 }
    requires place { place ≤ 8 }
    requires room { at + 4 ≤ length dst.old }
    ensures read { result.0 ≤ 8 }
    ensures written { result.1 ≤ 4 }
    ensures some { IsTrue result.2 → 0 < result.0 }
    ensures len { length dst.new ≡ length dst.old }
    ensures writes { (text : List ℕ) → 16 ≤ length text
        → AreLanesOf text lanes.now.units lanes.now.leads → IsUtf8 (drop place text)
        → WritesFront chars IsUtf8 (M.means mapping) (drop place text) dst.old dst.new at result.0
        result.1 }
{
    let ends = ends_of(lanes.leads >> place as u64);
    let mut read = 0;
    let mut count = 0;
    while count < 4 {
        let byte = mapping.unit_byte(lanes.units[place + read]);
        if byte == 0 {
            return (read, count, false);
        }
        dst[at + count] = byte;
        read = ends[count] as usize;
        count += 1;
    }
    (read, count, true)
}

/// Does the same for eight characters from `from` on.
#[inline(always)]
fn put_eight<M: UnitBytes>(
    mapping: M,
    src: &[u8],
    from: usize,
    dst: &mut [u8],
    at: usize,
) -> (usize, usize, bool)
    requires text { from + 17 ≤ length src.now }
    requires utf8 { IsUtf8 (drop from src.now) }
    requires room { at + 8 ≤ length dst.old }
    ensures read { result.0 ≤ 16 }
    ensures written { result.1 ≤ 8 }
    ensures some { IsTrue result.2 → 0 < result.0 }
    ensures len { length dst.new ≡ length dst.old }
    ensures writes { WritesFront chars IsUtf8 (M.means mapping) (drop from src.now) dst.old
        dst.new at result.0 result.1 }
{
    let lanes = lanes_at(src, from);
    let (first, count, is_whole) = put_four(mapping, &lanes, 0, dst, at);
    if !is_whole {
        return (first, count, false);
    }
    let (second, more, is_whole) = put_four(mapping, &lanes, first, dst, at + count);
    (first + second, count + more, is_whole)
}

/// Does the same for sixteen characters.
#[inline(always)]
fn put_sixteen<M: UnitBytes>(
    mapping: M,
    src: &[u8],
    from: usize,
    dst: &mut [u8],
    at: usize,
) -> (usize, usize, bool)
    requires text { from + 33 ≤ length src.now }
    requires utf8 { IsUtf8 (drop from src.now) }
    requires room { at + 16 ≤ length dst.old }
    ensures read { result.0 ≤ 32 }
    ensures written { result.1 ≤ 16 }
    ensures some { IsTrue result.2 → 0 < result.0 }
    ensures len { length dst.new ≡ length dst.old }
    ensures writes { WritesFront chars IsUtf8 (M.means mapping) (drop from src.now) dst.old
        dst.new at result.0 result.1 }
{
    let (first, count, is_whole) = put_eight(mapping, src, from, dst, at);
    if !is_whole {
        return (first, count, false);
    }
    let (second, more, is_whole) = put_eight(mapping, src, from + first, dst, at + count);
    (first + second, count + more, is_whole)
}

/// Does the same for 32 characters.
#[inline(always)]
fn put_dense<M: UnitBytes>(
    mapping: M,
    src: &[u8],
    from: usize,
    dst: &mut [u8],
    at: usize,
) -> (usize, usize, bool)
    requires text { from + 65 ≤ length src.now }
    requires utf8 { IsUtf8 (drop from src.now) }
    requires room { at + 32 ≤ length dst.old }
    ensures read { result.0 ≤ 64 }
    ensures written { result.1 ≤ 32 }
    ensures some { IsTrue result.2 → 0 < result.0 }
    ensures len { length dst.new ≡ length dst.old }
    ensures writes { WritesFront chars IsUtf8 (M.means mapping) (drop from src.now) dst.old
        dst.new at result.0 result.1 }
{
    let (first, count, is_whole) = put_sixteen(mapping, src, from, dst, at);
    if !is_whole {
        return (first, count, false);
    }
    let (second, more, is_whole) = put_sixteen(mapping, src, from + first, dst, at + count);
    (first + second, count + more, is_whole)
}

/// Returns the character that begins with these two bytes, or with the first alone, if it is below
/// U+0800, and a number above for a longer one.
#[inline(always)]
fn unit_at(first: u8, second: u8) -> u16
    ensures { result ≡ short_unit first second }
{
    let unit = if first < 0x80 {
        first as u32
    } else {
        first as u32 * 0x40 + second as u32 + 0xCF80
    };
    (unit % 0x10000) as u16
}

/// Returns the number of bytes of a character below U+0800, by the first.
#[inline(always)]
fn short_len(first: u8) -> usize
    ensures { result ≡ 1 + lead_bit first }
{
    if first < 0xC0 { 1 } else { 2 }
}

/// Writes the byte of the character at `from`. Returns the numbers of bytes read and written. Both
/// are 0 if it has no byte or more than two bytes of UTF-8.
#[inline(always)]
fn put_short<M: UnitBytes>(
    mapping: M,
    src: &[u8],
    from: usize,
    dst: &mut [u8],
    at: usize,
) -> (usize, usize)
    requires text { from + 1 < length src.now }
    requires utf8 { IsUtf8 (drop from src.now) }
    requires room { at < length dst.old }
    ensures read { result.0 ≤ 2 }
    ensures written { result.1 ≤ 1 }
    ensures len { length dst.new ≡ length dst.old }
    ensures writes { WritesFront chars IsUtf8 (M.means mapping) (drop from src.now) dst.old
        dst.new at result.0 result.1 }
{
    let unit = unit_at(src[from], src[from + 1]);
    if unit >= 0x800 {
        return (0, 0);
    }
    let byte = mapping.unit_byte(unit);
    if byte == 0 {
        return (0, 0);
    }
    dst[at] = byte;
    (short_len(src[from]), 1)
}

/// Writes the first `len` of 64 bytes. The bytes after them are unchanged.
#[inline(always)]
fn put_wide_lanes(dst: &mut [u8], at: usize, lanes: u8x64, len: usize)
    requires room { at + 64 ≤ length dst.old }
    requires bound { len ≤ 64 }
    ensures { dst.new ≡ take at dst.old ++ (take len lanes ++ drop (at + len) dst.old) }
{
    let after = u8x64::from_slice(&dst[at..]);
    let is_front = u8x64::from_array(PLACES).simd_lt(u8x64::splat(len as u8));
    is_front.select(lanes, after).copy_to_slice(&mut dst[at..]);
}

/// Writes the ASCII in front of 64 bytes, and the byte of the character after it.
///
/// Returns the numbers of bytes read and written, and whether that character has a byte.
#[inline(always)]
fn put_hop<M: UnitBytes>(
    mapping: M,
    src: &[u8],
    from: usize,
    dst: &mut [u8],
    at: usize,
) -> (usize, usize, bool)
    requires keeps { KeepsAscii (M.means mapping) }
    requires text { from + 65 ≤ length src.now }
    requires utf8 { IsUtf8 (drop from src.now) }
    requires room { at + 64 ≤ length dst.old }
    ensures read { result.0 ≤ 65 }
    ensures written { result.1 ≤ 64 }
    ensures some { IsTrue result.2 → 0 < result.0 }
    ensures len { length dst.new ≡ length dst.old }
    ensures writes { WritesFront chars IsUtf8 (M.means mapping) (drop from src.now) dst.old
        dst.new at result.0 result.1 }
{
    let lanes = u8x64::from_slice(&src[from..]);
    let ascii = ascii_from(lanes, 0, 63);
    put_wide_lanes(dst, at, lanes, ascii);
    let (read, written) = put_short(mapping, src, from + ascii, dst, at + ascii);
    (ascii + read, ascii + written, read > 0)
}

/// Returns whether many of 64 bytes are not ASCII. It is a guess, and changes no output.
#[inline(always)]
fn are_dense(lanes: u8x64) -> bool {
    lanes.simd_ge(u8x64::splat(0x80)).to_bitmask().count_ones() > 16
}

/// Writes 64 bytes if they are all ASCII, or the bytes of 32 characters if many are not, or those
/// up to the first character beyond ASCII.
///
/// Returns the numbers of bytes read and written, and whether more may follow.
#[inline(always)]
fn put_turn<M: UnitBytes>(
    mapping: M,
    src: &[u8],
    from: usize,
    dst: &mut [u8],
    at: usize,
) -> (usize, usize, bool)
    requires keeps { KeepsAscii (M.means mapping) }
    requires text { from + 65 ≤ length src.now }
    requires utf8 { IsUtf8 (drop from src.now) }
    requires room { at + 64 ≤ length dst.old }
    ensures read { result.0 ≤ 65 }
    ensures written { result.1 ≤ 64 }
    ensures some { IsTrue result.2 → 0 < result.0 }
    ensures len { length dst.new ≡ length dst.old }
    ensures writes { WritesFront chars IsUtf8 (M.means mapping) (drop from src.now) dst.old
        dst.new at result.0 result.1 }
{
    let lanes = u8x64::from_slice(&src[from..]);
    if are_all_ascii(lanes) {
        lanes.copy_to_slice(&mut dst[at..]);
        return (LANES, LANES, true);
    }
    if are_dense(lanes) {
        return put_dense(mapping, src, from, dst, at);
    }
    put_hop(mapping, src, from, dst, at)
}

/// Writes the bytes of the first characters in turns, while 65 bytes and room for 64 are left.
///
/// Returns the numbers of bytes read and written.
#[inline(never)]
fn put_turns<M: UnitBytes>(mapping: M, src: &[u8], dst: &mut [u8], at: usize) -> (usize, usize)
    requires keeps { KeepsAscii (M.means mapping) }
    requires utf8 { IsUtf8 src.now }
    requires room { at ≤ length dst.old }
    ensures { WritesFront chars IsUtf8 (M.means mapping) src.now dst.old dst.new at result.0
        result.1 }
{
    let mut read = 0;
    let mut written = 0;
    while LANES < src.len() - read && LANES <= dst.len() - at - written {
        let (more, count, goes_on) = put_turn(mapping, src, read, dst, at + written);
        read += more;
        written += count;
        if !goes_on {
            break;
        }
    }
    (read, written)
}

/// Writes the bytes of the first characters of UTF-8 to a slice, from `at` on, if it pays: where
/// `done` bytes of the run are some already, and more than 64 are left.
///
/// Returns the numbers of bytes read and written. It stops at a character without such a byte.
#[inline(always)]
pub(crate) fn put_by_lanes<M: UnitBytes>(
    mapping: M,
    done: usize,
    src: &[u8],
    dst: &mut [u8],
    at: usize,
) -> (usize, usize)
    requires utf8 { IsUtf8 src.now }
    requires room { at ≤ length dst.old }
    ensures { WritesFront chars IsUtf8 (M.means mapping) src.now dst.old dst.new at result.0
        result.1 }
{
    if done < SETTLED || src.len() <= LANES || !mapping.keeps_ascii() {
        return (0, 0);
    }
    put_turns(mapping, src, dst, at)
}
