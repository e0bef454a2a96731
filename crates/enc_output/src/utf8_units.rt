//! Well-formed UTF-8 as UTF-16, sixteen bytes at a time, with no branch on whether characters have
//! one, two or three bytes.

ghost use Rattle.std.specs.Prelude.{◌≡◌, ℕ, ◌+◌, ◌-◌, ◌/◌, ◌%◌, ◌^◌, ◌<◌, ◌≤◌, [], ◌∷◌, ◌++◌, length, take};
ghost use Rattle.std.specs.Prelude.{drop, slice_index, IsTrue, IfSome, if◌then◌else◌};
ghost use Rattle.enc_output.specs.Utf8Units.{gives_unit, code_unit_of_byte, byte_two_before, units_from};
ghost use Rattle.enc_output.specs.Utf8Units.{marked_code_units};
ghost use Rattle.enc_utf8.specs.Validity.{IsWellFormedUtf8};

use crate::marked::MARKED;
use enc_utf8::{char_len, pick};
use std::simd::prelude::*;

/// The length of the buffer.
const BUFFER: usize = 96;

/// No bytes are read once there are more code units than this. The bytes read at once give at most
/// sixteen.
const ENOUGH: usize = 80;

/// A number of bytes that give sixteen code units at least, which a store before them may
/// overwrite.
const TAIL: usize = 52;

/// Returns the code unit that a byte gives, by the two after it.
#[inline(always)]
fn unit_of(first: u8, second: u8, third: u8) -> u16
    ensures { result ≡ code_unit_of_byte first second third }
{
    let pair = first as u32 * 0x40 + second as u32;
    let triple = pair * 0x40 + third as u32;
    let unit = if first < 0x80 {
        first as u32
    } else if first < 0xC0 {
        (pair - 0x80) % 0x400 + 0xDC00
    } else if first < 0xE0 {
        pair + 0xCF80
    } else if first < 0xF0 {
        triple + 0xDF80
    } else {
        triple / 0x10 + 0xE5B8
    };
    (unit % 0x10000) as u16
}

/// Returns the code units of sixteen bytes, if those that give one begin characters of at most
/// three bytes.
#[inline(always)]
fn narrow_units(first: u8x16, second: u8x16, third: u8x16) -> u16x16
    ensures { (k : ℕ) → k < 16 → slice_index first k < 0xF0 →
        IsTrue (gives_unit 0 (slice_index first k)) →
        slice_index result k ≡
        code_unit_of_byte (slice_index first k) (slice_index second k) (slice_index third k) }
{
    let first = first.cast::<u16>();
    let pair = first * u16x16::splat(0x40) + second.cast::<u16>();
    let two = pair + u16x16::splat(0xCF80);
    let three = pair * u16x16::splat(0x40) + third.cast::<u16>() + u16x16::splat(0xDF80);
    let long = first.simd_ge(u16x16::splat(0xE0)).select(three, two);
    first.simd_lt(u16x16::splat(0x80)).select(first, long)
}

/// Returns the code units of sixteen bytes.
#[inline(always)]
fn all_units(first: u8x16, second: u8x16, third: u8x16) -> u16x16
    ensures { (k : ℕ) → k < 16 →
        slice_index result k ≡
        code_unit_of_byte (slice_index first k) (slice_index second k) (slice_index third k) }
{
    let first = first.cast::<u16>();
    let third = third.cast::<u16>();
    let pair = first * u16x16::splat(0x40) + second.cast::<u16>();
    let low = ((pair + u16x16::splat(0xFF80)) & u16x16::splat(0x3FF)) + u16x16::splat(0xDC00);
    let two = pair + u16x16::splat(0xCF80);
    let three = pair * u16x16::splat(0x40) + third + u16x16::splat(0xDF80);
    let four = pair * u16x16::splat(4) + (third >> u16x16::splat(4)) + u16x16::splat(0xE5B8);
    let one = first.simd_lt(u16x16::splat(0x80)).select(first, low);
    let short = first.simd_ge(u16x16::splat(0xC0)).select(two, one);
    let long = first.simd_ge(u16x16::splat(0xE0)).select(three, short);
    first.simd_ge(u16x16::splat(0xF0)).select(four, long)
}

/// Returns whether all of sixteen bytes are below 0xF0: none begins a character of four bytes.
#[inline(always)]
fn are_narrow(bytes: u8x16) -> bool
    ensures { IsTrue result → (k : ℕ) → k < 16 → slice_index bytes k < 0xF0 }
{
    bytes.simd_ge(u8x16::splat(0xF0)).to_bitmask() == 0
}

/// Returns the code units of the sixteen bytes from `at` on that give one. `before` has the sixteen
/// bytes that begin two before them.
#[inline(always)]
fn units_of(before: u8x16, src: &[u8], at: usize) -> u16x16
    requires bytes { at + 18 ≤ length src.now }
    ensures { (k : ℕ) → k < 16 →
        IsTrue (gives_unit (slice_index before k) (slice_index src.now (at + k))) →
        slice_index result k ≡ code_unit_of_byte (slice_index src.now (at + k))
        (slice_index src.now (at + k + 1)) (slice_index src.now (at + k + 2)) }
{
    let first = u8x16::from_slice(&src[at..]);
    let second = u8x16::from_slice(&src[at + 1..]);
    let third = u8x16::from_slice(&src[at + 2..]);
    if are_narrow(first) && are_narrow(before) {
        return narrow_units(first, second, third);
    }
    all_units(first, second, third)
}

/// Returns which of sixteen bytes give a code unit, the first in the lowest bit. `before` has the
/// sixteen that begin two before them.
#[inline(always)]
fn marks_of(before: u8x16, bytes: u8x16) -> u64
    ensures { (k : ℕ) → k < 16 → result / 2 ^ k % 2 ≡
        (if gives_unit (slice_index before k) (slice_index bytes k) then 1 else 0) }
{
    let begin = bytes.simd_lt(u8x16::splat(0x80)) | bytes.simd_ge(u8x16::splat(0xC0));
    (begin | before.simd_ge(u8x16::splat(0xF0))).to_bitmask()
}

/// Stores those of eight code units whose bits are set, after the first `at` of a buffer. Returns
/// their end.
#[inline(always)]
fn store_marked(buffer: &mut [u16], at: usize, units: u16x8, marks: u64) -> usize
    requires room { at + 8 ≤ length buffer.old }
    ensures bound { result ≤ at + 8 }
    ensures len { length buffer.new ≡ length buffer.old }
    ensures rest { drop (at + 8) buffer.new ≡ drop (at + 8) buffer.old }
    ensures stored { take result buffer.new ≡ take at buffer.old ++ marked_code_units marks units }
{
    let mask = (marks % 0x100) as usize;
    let places = u8x16::from_slice(&MARKED[mask * 16..]);
    u16x8::from_le_bytes(pick(units.to_le_bytes(), places)).copy_to_slice(&mut buffer[at..]);
    at + mask.count_ones() as usize
}

/// Stores the code units of the sixteen bytes from `at` on. Returns their end.
#[inline(always)]
fn store_sixteen(buffer: &mut [u16], end: usize, src: &[u8], at: usize) -> usize
    requires after { 2 ≤ at }
    requires from { at + 18 ≤ length src.now }
    requires room { end + 16 ≤ length buffer.old }
    ensures bound { result ≤ end + 16 }
    ensures len { length buffer.new ≡ length buffer.old }
    ensures rest { drop (end + 16) buffer.new ≡ drop (end + 16) buffer.old }
    ensures stored { take result buffer.new ≡ take end buffer.old ++ units_from src.now at 16 }
{
    let before = u8x16::from_slice(&src[at - 2..]);
    let marks = marks_of(before, u8x16::from_slice(&src[at..]));
    let units = units_of(before, src, at);
    let middle = store_marked(buffer, end, units.extract::<0, 8>(), marks);
    store_marked(buffer, middle, units.extract::<8, 8>(), marks / 0x100)
}

/// Returns the byte two before `at`, or 0.
#[inline(always)]
fn byte_before(src: &[u8], at: usize) -> u8
    requires within { at < length src.now }
    ensures { result ≡ byte_two_before src.now at }
{
    if at < 2 { 0 } else { src[at - 2] }
}

/// Returns whether the byte at `at` gives a code unit.
#[inline(always)]
fn gives(src: &[u8], at: usize) -> bool
    requires within { at < length src.now }
    ensures { result ≡ gives_unit (byte_two_before src.now at) (slice_index src.now at) }
{
    let byte = src[at];
    byte < 0x80 || 0xC0 <= byte || 0xF0 <= byte_before(src, at)
}

/// Returns the code unit and the length in bytes of the character at the front, if it has at most
/// three bytes.
#[inline(always)]
pub(crate) fn narrow_char(src: &[u8]) -> Option<(u16, usize)>
    requires some { 1 ≤ length src.now }
    ensures within { IfSome result (λ p. p.1 ≤ length src.now) }
    ensures some { IfSome result (λ p. 0 < p.1) }
    ensures utf8 { IfSome result (λ p. IsWellFormedUtf8 (take p.1 src.now)) }
    ensures unit { IfSome result (λ p. units_from src.now 0 p.1 ≡ p.0 ∷ []) }
{
    let first = src[0];
    if first < 0x80 {
        return Some((first as u16, 1));
    }
    if first < 0xC2 || src.len() < 2 || src[1] < 0x80 || 0xC0 <= src[1] {
        return None;
    }
    let pair = first as u16 * 0x40 + src[1] as u16;
    if first < 0xE0 {
        return Some((pair.wrapping_add(0xCF80), 2));
    }
    if char_len(src) != 3 {
        return None;
    }
    Some((unit_of(first, src[1], src[2]), 3))
}

/// Stores the code unit of the byte at `at`, if it gives one. Returns its end.
#[inline(always)]
fn store_one(buffer: &mut [u16], end: usize, src: &[u8], at: usize) -> usize
    requires from { at + 2 < length src.now }
    requires room { end < length buffer.old }
    ensures bound { result ≤ end + 1 }
    ensures len { length buffer.new ≡ length buffer.old }
    ensures rest { drop (end + 1) buffer.new ≡ drop (end + 1) buffer.old }
    ensures stored { take result buffer.new ≡ take end buffer.old ++ units_from src.now at 1 }
{
    if !gives(src, at) {
        return end;
    }
    buffer[end] = unit_of(src[at], src[at + 1], src[at + 2]);
    end + 1
}

/// Stores the code units of the bytes from `from` on, up to `to` or until the buffer has enough.
/// Returns the end of the bytes and the number of code units.
#[inline(never)]
fn gather_units(buffer: &mut [u16], src: &[u8], from: usize, to: usize) -> (usize, usize)
    requires some { from < to }
    requires after { to + 2 ≤ length src.now }
    requires buffer { length buffer.old ≡ 96 }
    ensures some { from < result.0 }
    ensures within { result.0 ≤ to }
    ensures few { result.1 ≤ result.0 - from }
    ensures bound { result.1 ≤ length buffer.new }
    ensures len { length buffer.new ≡ length buffer.old }
    ensures gathered { take result.1 buffer.new ≡ units_from src.now from (result.0 - from) }
{
    let mut at = from;
    let mut end = 0;
    while at < to && end <= ENOUGH {
        if 2 <= at && 16 <= to - at {
            end = store_sixteen(buffer, end, src, at);
            at += 16;
        } else {
            end = store_one(buffer, end, src, at);
            at += 1;
        }
    }
    (at, end)
}

/// Writes the UTF-16 of bytes in front of the last 52 of `len`, which are well-formed UTF-8, to the
/// start of a slice. Returns the number of the bytes and that of the code units.
///
/// Code units after these may be overwritten, as far as the rest of the bytes give some.
#[inline(always)]
fn write_front(dst: &mut [u16], src: &[u8], len: usize) -> (usize, usize)
    requires utf8 { IsWellFormedUtf8 (take len src.now) }
    requires after { len + 2 ≤ length src.now }
    requires room { len ≤ length dst.old }
    ensures within { result.0 ≤ len }
    ensures few { result.1 ≤ result.0 }
    ensures len { length dst.new ≡ length dst.old }
    ensures count { result.1 ≡ length (units_from src.now 0 result.0) }
    ensures written { take result.1 dst.new ≡ units_from src.now 0 result.0 }
    ensures rest { drop (length (units_from src.now 0 len)) dst.new
        ≡ drop (length (units_from src.now 0 len)) dst.old }
{
    let mut read = 0;
    let mut written = 0;
    while TAIL + 16 <= len - read {
        if read < 2 {
            written = store_one(dst, written, src, read);
            read += 1;
        } else {
            written = store_sixteen(dst, written, src, read);
            read += 16;
        }
    }
    (read, written)
}

/// Writes the UTF-16 of the first `len` bytes, which are well-formed UTF-8, to the start of a
/// slice: straight to the slice, and the last of them through a buffer.
///
/// Returns the number of code units. The rest of the slice is unchanged.
#[inline(never)]
pub(crate) fn write_units(dst: &mut [u16], src: &[u8], len: usize) -> usize
    requires utf8 { IsWellFormedUtf8 (take len src.now) }
    requires after { len + 2 ≤ length src.now }
    requires room { len ≤ length dst.old }
    ensures bound { result ≤ length dst.old }
    ensures len { length dst.new ≡ length dst.old }
    ensures rest { drop result dst.new ≡ drop result dst.old }
    ensures written { take result dst.new ≡ units_from src.now 0 len }
{
    let (mut read, mut written) = write_front(dst, src, len);
    let mut buffer = [0; BUFFER];
    while read < len {
        let (next, end) = gather_units(&mut buffer, src, read, len);
        dst[written..written + end].copy_from_slice(&buffer[..end]);
        written += end;
        read = next;
    }
    written
}
