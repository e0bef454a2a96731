//! The Shift_JIS decoder (Encoding Standard 12.3.1).

ghost use Rattle.std.specs.Prelude.{◌≡◌};
ghost use Rattle.enc_decoder_multi_byte.specs.ShiftJis.{is_shift_jis_trail, shift_jis_pointer_char};

use crate::double_byte::{Double, DoubleByte, text_of};
use crate::katakana::katakana;
use crate::multi_byte::MultiByteDecoder;
use enc_decoder::Text;
use enc_index::DoubleByteIndex;
use enc_index::indexes::Jis0208Index;
use enc_output::{numbers_in, places_at};
use std::simd::prelude::*;

/// Shift_JIS (Encoding Standard 12.3): ASCII and 80, half-width katakana, and two bytes by index
/// jis0208 or in the private use area.
#[derive(Clone, Copy)]
pub struct ShiftJis;

/// The Shift_JIS decoder (Encoding Standard 12.3.1).
pub type ShiftJisDecoder = MultiByteDecoder<Double<ShiftJis>>;

/// Returns whether a byte can follow a lead byte.
///
/// There is no branch between the two ranges, since text has bytes of both in an order that no
/// processor predicts.
fn is_trail(byte: u8) -> bool
    ensures { result ≡ is_shift_jis_trail byte }
{
    (byte >= 0x40 && byte <= 0x7E) | (byte >= 0x80 && byte <= 0xFC)
}

/// Returns the character of a pointer.
fn character_at(pointer: u32) -> Option<char>
    ensures { result ≡ shift_jis_pointer_char pointer }
{
    match pointer {
        8836..=10715 => char::from_u32(0xE000 + (pointer - 8836)),
        _ => Jis0208Index::at(pointer),
    }
}

impl DoubleByte for ShiftJis {
    ghost use Rattle.enc_decoder_multi_byte.specs.ShiftJis.{is_shift_jis_lead};
    ghost use Rattle.enc_decoder_multi_byte.specs.ShiftJis.{shift_jis_single_char};
    ghost use Rattle.enc_decoder_multi_byte.specs.ShiftJis.{shift_jis_pair_text};

    ghost leads = { is_shift_jis_lead };

    ghost singles = { shift_jis_single_char };

    ghost pairs = { shift_jis_pair_text };

    fn is_lead(byte: u8) -> bool {
        (byte >= 0x81 && byte <= 0x9F) | (byte >= 0xE0 && byte <= 0xFC)
    }

    fn single(byte: u8) -> Option<char> {
        match byte {
            0x00..=0x80 => Some(byte as char),
            0xA1..=0xDF => Some(katakana(byte)),
            _ => None,
        }
    }

    fn pair(lead: u8, trail: u8) -> Option<Text> {
        if !is_trail(trail) {
            return None;
        }
        let first = if lead < 0xA0 { 0x81 } else { 0xC1 };
        let offset = if trail < 0x7F { 0x40 } else { 0x41 };
        text_of(character_at((lead as u32 - first) * 188 + (trail as u32 - offset)))
    }

    type Index = Jis0208Index;

    /// A lead byte has two rows of the grid, and one of the private use area has none.
    #[inline(always)]
    fn pair_places(first: u8x16, second: u8x16) -> u16x16 {
        let last = numbers_in(first, 0xFA, 0xFC, 57, u8x16::splat(60));
        let upper = numbers_in(first, 0xE0, 0xEF, 31, last);
        let rows = numbers_in(first, 0x81, 0x9F, 0, upper);
        let second_row = numbers_in(second, 0x9F, 0xFC, 95, u8x16::splat(94));
        let middle = numbers_in(second, 0x80, 0x9E, 63, second_row);
        let columns = numbers_in(second, 0x40, 0x7E, 0, middle);
        places_at(rows, columns, 190)
    }
}
