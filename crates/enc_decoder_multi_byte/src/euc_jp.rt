//! The EUC-JP decoder (Encoding Standard 12.1.1).

ghost use Rattle.std.specs.Prelude.{◌≡◌, [], ◌∷◌, true};
ghost use Rattle.enc_decoder_multi_byte.specs.EucJp.{is_euc_byte as euc, euc_pair_pointer};
ghost use Rattle.enc_decoder_multi_byte.specs.EucJp.{is_euc_jp_lead, euc_jp_single_char};
ghost use Rattle.enc_decoder_multi_byte.specs.EucJp.{euc_jp_pair_char, euc_jp_triple_char};
ghost use Rattle.enc_decoder_multi_byte.specs.EucJp.{euc_jp_prefix};

use crate::double_byte::{classify_first, classify_trail, text_of};
use crate::katakana::katakana;
use crate::multi_byte::{MultiByte, MultiByteDecoder};
use enc_decoder::{Pending, Prefix};
use enc_index::indexes::Jis0208Index;
use enc_index::{DoubleByteIndex, List};
use enc_output::{numbers_in, places_at};
use std::simd::prelude::*;

/// EUC-JP (Encoding Standard 12.1): ASCII, half-width katakana after 8E, two bytes by index
/// jis0208, and two bytes after 8F by index jis0212.
#[derive(Clone, Copy)]
pub struct EucJp;

/// The EUC-JP decoder (Encoding Standard 12.1.1).
pub type EucJpDecoder = MultiByteDecoder<EucJp>;

/// Returns whether a byte is one of the two of a character.
fn is_euc_byte(byte: u8) -> bool
    ensures { result ≡ euc byte }
{
    byte >= 0xA1 && byte <= 0xFE
}

/// Returns the pointer of two bytes.
fn pointer(lead: u8, trail: u8) -> u32
    requires lead { euc lead ≡ true }
    requires trail { euc trail ≡ true }
    ensures { result ≡ euc_pair_pointer lead trail }
{
    (lead as u32 - 0xA1) * 94 + (trail as u32 - 0xA1)
}

/// Returns whether a byte is a lead byte.
fn is_lead(byte: u8) -> bool
    ensures { result ≡ is_euc_jp_lead byte }
{
    (byte == 0x8E) | (byte == 0x8F) | is_euc_byte(byte)
}

/// Returns the character of a byte that stands alone.
fn single(byte: u8) -> Option<char>
    ensures { result ≡ euc_jp_single_char byte }
{
    if byte < 0x80 {
        Some(byte as char)
    } else {
        None
    }
}

/// Returns the character of two bytes.
fn pair(lead: u8, trail: u8) -> Option<char>
    ensures { result ≡ euc_jp_pair_char lead trail }
{
    if lead == 0x8E {
        return match trail {
            0xA1..=0xDF => Some(katakana(trail)),
            _ => None,
        };
    }
    if is_euc_byte(lead) && is_euc_byte(trail) {
        Jis0208Index::at(pointer(lead, trail))
    } else {
        None
    }
}

/// Returns the character of 8F and two bytes. The first of these is one of two.
fn triple(lead: u8, trail: u8) -> Option<char>
    requires lead { euc lead ≡ true }
    ensures { result ≡ euc_jp_triple_char lead trail }
{
    if is_euc_byte(trail) {
        List::Jis0212.at(pointer(lead, trail))
    } else {
        None
    }
}

/// Classifies the byte after a lead byte.
fn read_second(lead: u8, byte: u8) -> Prefix
    ensures { result ≡ euc_jp_prefix (lead ∷ byte ∷ []) }
{
    if lead == 0x8F && is_euc_byte(byte) {
        return Prefix::Incomplete;
    }
    classify_trail(1, byte, text_of(pair(lead, byte)))
}

impl MultiByte for EucJp {
    ghost use Rattle.enc_decoder_multi_byte.specs.EucJp.{euc_jp_prefix};

    ghost prefix = { euc_jp_prefix };

    #[inline(always)]
    fn classify(pending: Pending, byte: u8) -> Prefix {
        match pending {
            Pending::Nothing => classify_first(is_lead(byte), single(byte)),
            Pending::One(lead) => read_second(lead, byte),
            Pending::Two(_, lead) => classify_trail(2, byte, text_of(triple(lead, byte))),
            Pending::Three(_, _, _) => unreachable!(),
        }
    }

    #[inline(always)]
    fn pair_char(lead: u8, byte: u8) -> Option<char> {
        pair(lead, byte)
    }

    type Index = Jis0208Index;

    #[inline(always)]
    fn pair_places(first: u8x16, second: u8x16) -> u16x16 {
        let rows = numbers_in(first, 0xA1, 0xFE, 0, u8x16::splat(120));
        let columns = numbers_in(second, 0xA1, 0xFE, 0, u8x16::splat(94));
        places_at(rows, columns, 95)
    }
}
