//! Runs of mapped characters, read from UTF-8.

ghost use Rattle.std.specs.Prelude.{◌≡◌, ◌+◌, ◌<◌, ◌≤◌, length, drop, chars, IsUtf8, slice_index};
ghost use Rattle.enc_input.specs.Mappings.{IsFirstUtf8Char, WritesFront, WritesThemselves};

use crate::mapped_bytes::{MOST_BYTES, put_bytes, put_lanes};
use crate::mapping::Mapping;
use crate::turns::Turns;
use enc_utf8::copy_strides;
use std::simd::prelude::*;

/// A character of UTF-8 and the number of its bytes.
#[derive(Clone, Copy)]
pub(crate) struct Found {
    pub(crate) c: char,
    pub(crate) width: usize,
}

/// Returns the character beyond ASCII that begins at `at` (Unicode Standard 3.9, table 3-6).
#[inline(always)]
pub(crate) fn found_at(src: &[u8], at: usize) -> Found
    requires within { at < length src.now }
    requires utf8 { IsUtf8 (drop at src.now) }
    requires beyond { 0x80 ≤ slice_index src.now at }
    ensures beyond { 0x80 ≤ result.c }
    ensures first { IsFirstUtf8Char (drop at src.now) result.c result.width }
    ensures some { 1 ≤ result.width }
    ensures few { result.width ≤ 4 }
    ensures two { slice_index src.now at < 0xE0 → result.width ≡ 2 }
    ensures short { slice_index src.now at < 0xE0 → result.c < 0x800 }
{
    let first = src[at] as u32;
    let second = src[at + 1] as u32 % 64;
    if first < 0xE0 {
        return Found {
            c: unsafe { char::from_u32_unchecked(first % 32 * 64 + second) },
            width: 2,
        };
    }
    let third = src[at + 2] as u32 % 64;
    if first < 0xF0 {
        return Found {
            c: unsafe { char::from_u32_unchecked((first % 16 * 64 + second) * 64 + third) },
            width: 3,
        };
    }
    let fourth = src[at + 3] as u32 % 64;
    let code = ((first % 8 * 64 + second) * 64 + third) * 64 + fourth;
    Found {
        c: unsafe { char::from_u32_unchecked(code) },
        width: 4,
    }
}

/// Writes the ASCII in front that is written as itself, of sixteen bytes.
///
/// Returns the number of bytes. It is 0 if the first is written otherwise.
#[inline(always)]
pub(crate) fn put_ascii<M: Mapping>(mapping: M, src: &[u8], dst: &mut [u8], at: usize) -> usize
    requires sixteen { 16 ≤ length src.now }
    requires room { at + 16 ≤ length dst.old }
    ensures { WritesThemselves (M.means mapping) src.now dst.old dst.new at result }
{
    let lanes = u8x16::from_slice(src);
    let len = mapping.ascii_len(lanes);
    if len < 16 {
        put_lanes(dst, at, lanes, len);
        return len;
    }
    lanes.copy_to_slice(&mut dst[at..]);
    16
}

/// Writes the first byte if it is ASCII written as itself, and returns 1, or writes nothing and
/// returns 0.
#[inline(always)]
fn put_own<M: Mapping>(mapping: M, src: &[u8], dst: &mut [u8], at: usize) -> usize
    requires some { 1 ≤ length src.now }
    requires room { at < length dst.old }
    ensures { WritesThemselves (M.means mapping) src.now dst.old dst.new at result }
{
    if !mapping.is_own(src[0]) {
        return 0;
    }
    dst[at] = src[0];
    1
}

/// Writes the bytes of the first character, which is beyond ASCII.
///
/// Returns the numbers of bytes read and written, which are 0 if the character ends a run.
#[inline(always)]
pub(crate) fn put_beyond<M: Mapping>(
    mapping: M,
    src: &[u8],
    dst: &mut [u8],
    at: usize,
) -> (usize, usize)
    requires some { 1 ≤ length src.now }
    requires utf8 { IsUtf8 src.now }
    requires beyond { 0x80 ≤ slice_index src.now 0 }
    requires room { at + 4 ≤ length dst.old }
    ensures { WritesFront chars IsUtf8 (M.means mapping) src.now dst.old dst.new at result.0
        result.1 }
{
    let found = found_at(src, 0);
    let Some(bytes) = mapping.bytes_in_run(found.c) else {
        return (0, 0);
    };
    (found.width, put_bytes(dst, at, bytes))
}

/// Writes the bytes of the first character. One beyond ASCII takes room for four.
///
/// Returns the numbers of bytes read and written, which are 0 if the character ends a run or has
/// less room.
#[inline(always)]
pub(crate) fn put_char<M: Mapping>(
    mapping: M,
    src: &[u8],
    dst: &mut [u8],
    at: usize,
) -> (usize, usize)
    requires some { 1 ≤ length src.now }
    requires utf8 { IsUtf8 src.now }
    requires room { at < length dst.old }
    ensures { WritesFront chars IsUtf8 (M.means mapping) src.now dst.old dst.new at result.0
        result.1 }
{
    if src[0] < 0x80 {
        let len = put_own(mapping, src, dst, at);
        return (len, len);
    }
    if dst.len() - at < MOST_BYTES {
        return (0, 0);
    }
    put_beyond(mapping, src, dst, at)
}

/// Writes the ASCII in front in whole steps of 64, if all of ASCII is written as itself.
///
/// Returns the number of bytes.
#[inline(always)]
fn put_strides<M: Mapping>(mapping: M, src: &[u8], dst: &mut [u8], at: usize) -> usize
    requires room { at ≤ length dst.old }
    ensures { WritesThemselves (M.means mapping) src.now dst.old dst.new at result }
{
    // most texts that are not ASCII show it here
    if src.len() < 64 || src[1] >= 0x80 || src[63] >= 0x80 {
        return 0;
    }
    if !mapping.keeps_ascii() {
        return 0;
    }
    let most = src.len().min(dst.len() - at);
    copy_strides(src, &mut dst[at..], most)
}

/// Writes the bytes of the first characters of UTF-8 to a slice, from `from` on, one by one.
///
/// Returns the numbers of bytes read and written. It counts from where it begins: with the numbers
/// of the loop before it, the compiler would keep each of that loop's in two registers.
#[inline(always)]
fn write_ones<M: Mapping, T: Turns<M>>(
    mapping: M,
    src: &[u8],
    dst: &mut [u8],
    from: usize,
) -> (usize, usize)
    requires utf8 { IsUtf8 src.now }
    requires within { from ≤ length dst.old }
    ensures { WritesFront chars IsUtf8 (M.means mapping) src.now dst.old dst.new from result.0
        result.1 }
{
    let mut read = 0;
    let mut at = from;
    'ones: while read < src.len() && at < dst.len() {
        let (width, count) = T::put_utf8_char(mapping, &src[read..], dst, at);
        read += width;
        at += count;
        if width == 0 {
            return (read, at - from);
        }
    }
    (read, at - from)
}

/// Writes the bytes of the first characters of UTF-8 to a slice, from `from` on.
///
/// Returns the numbers of bytes read and written. The run need not be maximal.
#[inline(never)]
pub(crate) fn write_utf8<M: Mapping, T: Turns<M>>(
    mapping: M,
    src: &[u8],
    dst: &mut [u8],
    from: usize,
) -> (usize, usize)
    requires utf8 { IsUtf8 src.now }
    requires within { from ≤ length dst.old }
    ensures { WritesFront chars IsUtf8 (M.means mapping) src.now dst.old dst.new from result.0
        result.1 }
{
    let mut read = put_strides(mapping, src, dst, from);
    let mut at = from + read;
    let last_sixteen = src.len().saturating_sub(15);
    let last_room = dst.len().saturating_sub(15);
    'sixteens: while read < last_sixteen && at < last_room {
        let (len, count, goes_on) = T::put_utf8(mapping, read, &src[read..], dst, at);
        if !goes_on {
            return (read + len, at + count - from);
        }
        read += len;
        at += count;
    }
    let (more, count) = write_ones::<M, T>(mapping, &src[read..], dst, at);
    (read + more, at + count - from)
}
