//! The EUC-KR decoder (Encoding Standard 13.1.1).

ghost use Rattle.std.specs.Prelude.{Option};

use crate::double_byte::{Double, DoubleByte, text_of};
use crate::multi_byte::MultiByteDecoder;
use enc_decoder::Text;
use enc_index::DoubleByteIndex;
use enc_index::indexes::EucKrIndex;
use enc_output::{numbers_in, places_at};
use std::simd::prelude::*;

/// EUC-KR (Encoding Standard 13.1): ASCII, and two bytes by index EUC-KR.
#[derive(Clone, Copy)]
pub struct EucKr;

/// The EUC-KR decoder (Encoding Standard 13.1.1).
pub type EucKrDecoder = MultiByteDecoder<Double<EucKr>>;

impl DoubleByte for EucKr {
    ghost use Rattle.enc_decoder_multi_byte.specs.EucKr.{is_euc_kr_lead, euc_kr_single_char};
    ghost use Rattle.enc_decoder_multi_byte.specs.EucKr.{euc_kr_pair_text};

    ghost leads = { is_euc_kr_lead };

    ghost singles = { euc_kr_single_char };

    ghost pairs = { euc_kr_pair_text };

    fn is_lead(byte: u8) -> bool {
        byte >= 0x81 && byte <= 0xFE
    }

    fn single(byte: u8) -> Option<char> {
        if byte < 0x80 {
            Some(byte as char)
        } else {
            None
        }
    }

    fn pair(lead: u8, trail: u8) -> Option<Text> {
        if trail < 0x41 || trail > 0xFE {
            return None;
        }
        text_of(EucKrIndex::at((lead as u32 - 0x81) * 190 + (trail as u32 - 0x41)))
    }

    type Index = EucKrIndex;

    #[inline(always)]
    fn pair_places(first: u8x16, second: u8x16) -> u16x16 {
        let rows = numbers_in(first, 0x81, 0xFE, 0, u8x16::splat(126));
        let columns = numbers_in(second, 0x41, 0xFE, 0, u8x16::splat(190));
        places_at(rows, columns, 191)
    }
}
