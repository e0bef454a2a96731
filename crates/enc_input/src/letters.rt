//! Code units that are ASCII or letters, sixteen at a time.

ghost use Rattle.std.specs.Prelude.{◌≡◌, ◌≤◌, All, IsTrue, length, map};
ghost use Rattle.std.specs.Char.Utf16.{utf16_lossy_chars};
ghost use Rattle.enc_input.specs.Letters.{IsPlainUnit, letter_byte, plain_byte};
ghost use Rattle.enc_input.specs.Mappings.{AreAnyUnits, WritesFront};

use crate::mapping::UnitBytes;
use enc_utf8::Letters;
use std::simd::prelude::*;

/// Returns sixteen code units less the shift of the letters: the byte of each that is a letter.
#[inline(always)]
fn letter_bytes(letters: Letters, units: u16x16) -> u16x16
    ensures { result ≡ map (letter_byte letters) units }
{
    units - u16x16::splat(letters.shift)
}

/// Returns whether each of sixteen code units is ASCII or a letter.
#[inline(always)]
fn are_plain(letters: Letters, units: u16x16) -> bool
    ensures { IsTrue result → All (IsPlainUnit letters) units }
{
    let bytes = letter_bytes(letters, units);
    let before = bytes.simd_lt(u16x16::splat(letters.first as u16));
    let after = bytes.simd_gt(u16x16::splat(letters.last as u16));
    let others = units.simd_ge(u16x16::splat(0x80)) & (before | after);
    others.to_bitmask() == 0
}

/// Returns the bytes of sixteen code units, each of them ASCII or a letter.
#[inline(always)]
fn bytes_of_plain(letters: Letters, units: u16x16) -> u8x16
    ensures { result ≡ map (plain_byte letters) units }
{
    let bytes = letter_bytes(letters, units);
    let ascii = units.simd_lt(u16x16::splat(0x80));
    (ascii.select(units, bytes) & u16x16::splat(0xFF)).cast::<u8>()
}

/// Writes the bytes of the first code units in whole steps of sixteen, each of them ASCII or a
/// letter of the mapping. Returns their number.
#[inline(always)]
pub(crate) fn put_plain<M: UnitBytes>(mapping: M, src: &[u16], dst: &mut [u8], at: usize) -> usize
    requires room { at ≤ length dst.old }
    ensures { WritesFront utf16_lossy_chars AreAnyUnits (M.means mapping) src.now dst.old dst.new at
        result result }
{
    if !mapping.keeps_ascii() {
        return 0;
    }
    let letters = mapping.letters();
    let most = src.len().min(dst.len() - at);
    let mut len = 0;
    while 16 <= most - len {
        let units = u16x16::from_slice(&src[len..]);
        if !are_plain(letters, units) {
            break;
        }
        bytes_of_plain(letters, units).copy_to_slice(&mut dst[at + len..]);
        len += 16;
    }
    len
}
