//! Validity of bytes: the longest prefix that has a property.

ghost use Rattle.std.specs.Prelude.{IsTrue, ◌↔◌, ◌<◌, ◌≤◌, ◌≢◌, length, take};
ghost use Rattle.enc_utf8.specs.Validity.{IsLongestPrefix, IsWellFormedUtf8, AreAscii, AreIso2022JpAscii};

use crate::ascii::{ascii_in, ascii_len, len_before};
use crate::utf8::utf8_front;
use std::simd::prelude::*;

/// Returns the length in bytes of the longest prefix that is well-formed UTF-8, character by
/// character.
fn chars_valid_up_to(bytes: &[u8]) -> usize
    ensures { IsLongestPrefix IsWellFormedUtf8 bytes.now result }
{
    match str::from_utf8(bytes) {
        Ok(text) => text.len(),
        Err(error) => error.valid_up_to(),
    }
}

/// Returns the length in bytes of the longest prefix that is well-formed UTF-8, first in blocks and
/// then character by character.
#[inline(never)]
fn blocks_valid_up_to(bytes: &[u8]) -> usize
    ensures { IsLongestPrefix IsWellFormedUtf8 bytes.now result }
{
    let front = utf8_front(bytes);
    front + chars_valid_up_to(&bytes[front..])
}

/// Returns the length in bytes of the longest prefix that is well-formed UTF-8.
///
/// Well-formed is as in Unicode Standard 3.9, D92 and table 3-7.
pub fn utf8_valid_up_to(bytes: &[u8]) -> usize
    ensures { IsLongestPrefix IsWellFormedUtf8 bytes.now result }
{
    let ascii = ascii_len(bytes);
    if ascii == bytes.len() {
        return ascii;
    }
    ascii + blocks_valid_up_to(&bytes[ascii..])
}

/// Returns the length in bytes of the longest prefix that is ASCII: bytes below 0x80.
pub fn ascii_valid_up_to(bytes: &[u8]) -> usize
    ensures { IsLongestPrefix AreAscii bytes.now result }
{
    ascii_len(bytes)
}

/// Returns how many of sixteen bytes come before the first that does not stand for itself while
/// ISO-2022-JP has ASCII designated: one that is not ASCII, a shift or an escape.
#[inline(always)]
pub fn unshifted_len(lanes: u8x16) -> usize
    ensures bound { result ≤ 16 }
    ensures ascii { AreIso2022JpAscii (take result lanes) }
{
    let shift_out = len_before(lanes, 0x0E);
    let shift_in = len_before(lanes, 0x0F);
    let escape = len_before(lanes, 0x1B);
    ascii_in(lanes).min(shift_out).min(shift_in).min(escape)
}

/// Returns whether all of sixteen bytes stand for themselves while ISO-2022-JP has ASCII
/// designated.
#[inline(always)]
fn are_unshifted(lanes: u8x16) -> bool
    ensures { IsTrue result → AreIso2022JpAscii lanes }
{
    let shifts = lanes.simd_eq(u8x16::splat(0x0E)) | lanes.simd_eq(u8x16::splat(0x0F));
    let others = lanes.simd_ge(u8x16::splat(0x80)) | lanes.simd_eq(u8x16::splat(0x1B));
    (shifts | others).to_bitmask() == 0
}

/// Returns the length of a prefix that stands for itself while ISO-2022-JP has ASCII designated, in
/// whole steps of sixteen bytes.
#[inline(always)]
fn unshifted_steps(bytes: &[u8]) -> usize
    ensures within { result ≤ length bytes.now }
    ensures ascii { AreIso2022JpAscii (take result bytes.now) }
{
    let mut at = 0;
    while 16 <= bytes.len() - at {
        if !are_unshifted(u8x16::from_slice(&bytes[at..])) {
            break;
        }
        at += 16;
    }
    at
}

/// Returns whether a byte stands for itself while ISO-2022-JP has ASCII designated.
#[inline(always)]
fn is_iso_2022_jp_ascii(byte: u8) -> bool
    ensures { IsTrue result ↔ ((byte < 0x80) × (byte ≢ 0x0E) × (byte ≢ 0x0F) × (byte ≢ 0x1B)) }
{
    byte < 0x80 && byte != 0x0E && byte != 0x0F && byte != 0x1B
}

/// Returns the length in bytes of the longest prefix that stands for itself in ISO-2022-JP.
///
/// At its start ISO-2022-JP has ASCII designated (Encoding Standard 12.2.1). The bytes below 0x80
/// stand for themselves then, except 0x0E, 0x0F and 0x1B.
pub fn iso_2022_jp_ascii_valid_up_to(bytes: &[u8]) -> usize
    ensures { IsLongestPrefix AreIso2022JpAscii bytes.now result }
{
    let mut at = unshifted_steps(bytes);
    while at < bytes.len() && is_iso_2022_jp_ascii(bytes[at]) {
        at += 1;
    }
    at
}
