//! The gb18030 decoder, which is also that of GBK (Encoding Standard 10.2.1).

ghost use Rattle.std.specs.Prelude.{◌≡◌, [], ◌∷◌, true};
ghost use Rattle.enc_decoder_multi_byte.specs.Gb18030.{is_gb18030_lead, is_gb18030_trail};
ghost use Rattle.enc_decoder_multi_byte.specs.Gb18030.{is_digit as digit, gb18030_single_char};
ghost use Rattle.enc_decoder_multi_byte.specs.Gb18030.{gb18030_pair_char, four_byte_pointer};
ghost use Rattle.enc_decoder_multi_byte.specs.Gb18030.{ranges_code_point, gb18030_prefix};

use crate::double_byte::{classify_first, classify_trail, text_of};
use crate::multi_byte::{MultiByte, MultiByteDecoder};
use enc_decoder::{Pending, Prefix, Text};
use enc_index::indexes::Gb18030Index;
use enc_index::{DoubleByteIndex, List};
use enc_output::{numbers_in, places_at};
use std::simd::prelude::*;

/// gb18030 (Encoding Standard 10.2), and GBK (10.1): ASCII and 80, two bytes by index gb18030, and
/// four bytes by its ranges.
#[derive(Clone, Copy)]
pub struct Gb18030;

/// The gb18030 decoder (Encoding Standard 10.2.1).
pub type Gb18030Decoder = MultiByteDecoder<Gb18030>;

/// Returns whether a byte is the first of two or four, or the third of four.
fn is_lead(byte: u8) -> bool
    ensures { result ≡ is_gb18030_lead byte }
{
    byte >= 0x81 && byte <= 0xFE
}

/// Returns whether a byte can be the second of two.
///
/// There is no branch between the two ranges, since text has bytes of both in an order that no
/// processor predicts.
fn is_trail(byte: u8) -> bool
    ensures { result ≡ is_gb18030_trail byte }
{
    (byte >= 0x40 && byte <= 0x7E) | (byte >= 0x80 && byte <= 0xFE)
}

/// Returns whether a byte is the second or the fourth of four.
fn is_digit(byte: u8) -> bool
    ensures { result ≡ digit byte }
{
    byte >= 0x30 && byte <= 0x39
}

/// Returns the character of a byte that stands alone.
fn single(byte: u8) -> Option<char>
    ensures { result ≡ gb18030_single_char byte }
{
    match byte {
        0x00..=0x7F => Some(byte as char),
        0x80 => Some('\u{20AC}'),
        _ => None,
    }
}

/// Returns the character of two bytes.
fn pair(lead: u8, trail: u8) -> Option<char>
    requires lead { is_gb18030_lead lead ≡ true }
    ensures { result ≡ gb18030_pair_char lead trail }
{
    if !is_trail(trail) {
        return None;
    }
    let offset = if trail < 0x7F { 0x40 } else { 0x41 };
    Gb18030Index::at((lead as u32 - 0x81) * 190 + (trail as u32 - offset))
}

/// Returns the character of a pointer of four bytes.
fn character_at(pointer: u32) -> Option<char>
    ensures { result ≡ ranges_code_point pointer }
{
    match pointer {
        39420..=188999 => None,
        1237576.. => None,
        7457 => Some('\u{E7C7}'),
        _ => List::Gb18030Ranges.at(pointer),
    }
}

/// Returns the pointer of four bytes.
fn pointer(first: u8, second: u8, third: u8, fourth: u8) -> u32
    requires first { is_gb18030_lead first ≡ true }
    requires second { digit second ≡ true }
    requires third { is_gb18030_lead third ≡ true }
    requires fourth { digit fourth ≡ true }
    ensures { result ≡ four_byte_pointer first second third fourth }
{
    let high = (first as u32 - 0x81) * 10 + (second as u32 - 0x30);
    let low = (third as u32 - 0x81) * 10 + (fourth as u32 - 0x30);
    high * 1260 + low
}

/// Classifies the byte after a lead byte.
fn read_second(lead: u8, byte: u8) -> Prefix
    requires lead { is_gb18030_lead lead ≡ true }
    ensures { result ≡ gb18030_prefix (lead ∷ byte ∷ []) }
{
    if is_digit(byte) {
        return Prefix::Incomplete;
    }
    classify_trail(1, byte, text_of(pair(lead, byte)))
}

/// Classifies the byte after two.
fn read_third(first: u8, second: u8, byte: u8) -> Prefix
    ensures { result ≡ gb18030_prefix (first ∷ second ∷ byte ∷ []) }
{
    if is_lead(byte) {
        Prefix::Incomplete
    } else {
        Prefix::Malformed(1)
    }
}

/// Classifies the byte after three.
fn read_fourth(first: u8, second: u8, third: u8, byte: u8) -> Prefix
    requires first { is_gb18030_lead first ≡ true }
    requires second { digit second ≡ true }
    requires third { is_gb18030_lead third ≡ true }
    ensures { result ≡ gb18030_prefix (first ∷ second ∷ third ∷ byte ∷ []) }
{
    if !is_digit(byte) {
        return Prefix::Malformed(1);
    }
    match character_at(pointer(first, second, third, byte)) {
        Some(found) => Prefix::Complete(Text::One(found)),
        None => Prefix::Malformed(4),
    }
}

impl MultiByte for Gb18030 {
    ghost use Rattle.enc_decoder_multi_byte.specs.Gb18030.{gb18030_prefix};

    ghost prefix = { gb18030_prefix };

    #[inline(always)]
    fn classify(pending: Pending, byte: u8) -> Prefix {
        match pending {
            Pending::Nothing => classify_first(is_lead(byte), single(byte)),
            Pending::One(first) => read_second(first, byte),
            Pending::Two(first, second) => read_third(first, second, byte),
            Pending::Three(first, second, third) => read_fourth(first, second, third, byte),
        }
    }

    /// None, since nearly all pairs of bytes are a character.
    fn few() -> usize {
        0
    }

    #[inline(always)]
    fn pair_char(lead: u8, byte: u8) -> Option<char> {
        if !is_lead(lead) {
            return None;
        }
        pair(lead, byte)
    }

    type Index = Gb18030Index;

    #[inline(always)]
    fn pair_places(first: u8x16, second: u8x16) -> u16x16 {
        let rows = numbers_in(first, 0x81, 0xFE, 0, u8x16::splat(126));
        let upper = numbers_in(second, 0x80, 0xFE, 63, u8x16::splat(190));
        let columns = numbers_in(second, 0x40, 0x7E, 0, upper);
        places_at(rows, columns, 191)
    }
}
