//! Bytes in ASCII in error mode "replacement" (Encoding Standard 4.1 and 12.2.1).

ghost use Rattle.std.specs.Prelude.{◌≡◌, ◌<◌, Some};
ghost use Rattle.std.specs.Char.{IsScalar};
ghost use Rattle.enc_index.specs.Grid.{HasWord};
ghost use Rattle.enc_decoder_iso_2022_jp.specs.Iso2022JpReplaced.{replaced_ascii_char};

use crate::replaced_bytes::{REPLACED_UNITS, REPLACED_WORDS};
use enc_output::{BytePieces, Pieces};
use std::simd::prelude::*;

/// Finds the bytes in ASCII that are a character or malformed by themselves: all but 1B.
///
/// The text of a malformed byte is U+FFFD.
#[derive(Clone, Copy)]
pub(crate) struct ReplacedAscii;

/// Returns the text of a byte.
fn replaced_char(byte: u8) -> Option<char>
    ensures { result ≡ replaced_ascii_char byte }
{
    match byte {
        0x1B => None,
        0x0E | 0x0F => Some('\u{FFFD}'),
        0x00..=0x7F => Some(byte as char),
        _ => Some('\u{FFFD}'),
    }
}

/// Returns the UTF-8 of a byte's text as a word: the bytes, the first lowest, and their number in
/// the highest byte. 0 for 1B.
#[inline(always)]
fn word_of(byte: u8) -> u32
    ensures { 0 < result → HasWord (replaced_ascii_char byte) result }
{
    REPLACED_WORDS[byte as usize]
}

/// Returns the UTF-16 code unit of a byte's text. 0 for 1B.
#[inline(always)]
fn unit_of(byte: u8) -> u16
    ensures is { 0 < result → replaced_ascii_char byte ≡ Some result }
    ensures scalar { 0 < result → IsScalar result }
{
    REPLACED_UNITS[byte as usize]
}

/// Returns whether two or more of the first sixteen bytes have the high bit set, so that malformed
/// bytes are many.
///
/// It is a guess, and changes no output.
#[inline(always)]
pub(crate) fn has_many_malformed(src: &[u8]) -> bool {
    src.len() >= 16
        && u8x16::from_slice(src)
            .simd_ge(u8x16::splat(0x80))
            .to_bitmask()
            .count_ones()
            >= 2
}

impl Pieces for ReplacedAscii {
    ghost use Rattle.enc_decoder_iso_2022_jp.specs.Iso2022Jp.{iso_2022_jp_rule};
    ghost use Rattle.enc_decoder.specs.Taking.{IsReplacedChar};

    ghost means = { λ _. IsReplacedChar iso_2022_jp_rule 0 };

    #[inline(always)]
    fn piece(self, src: &[u8], at: usize) -> Option<(char, usize)> {
        let character = replaced_char(src[at])?;
        Some((character, 1))
    }
}

impl BytePieces for ReplacedAscii {
    #[inline(always)]
    fn word(self, byte: u8) -> u32 {
        word_of(byte)
    }

    #[inline(always)]
    fn unit(self, byte: u8) -> u16 {
        unit_of(byte)
    }
}
