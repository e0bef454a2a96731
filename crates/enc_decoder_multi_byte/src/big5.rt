//! The Big5 decoder (Encoding Standard 11.1.1).

ghost use Rattle.std.specs.Prelude.{◌≡◌};
ghost use Rattle.enc_decoder_multi_byte.specs.Big5.{is_big5_trail, big5_pointer_text};

use crate::double_byte::{Double, DoubleByte, text_of};
use crate::multi_byte::MultiByteDecoder;
use enc_decoder::Text;
use enc_index::DoubleByteIndex;
use enc_index::indexes::Big5Index;
use enc_output::{numbers_in, places_at};
use std::simd::prelude::*;

/// Big5 (Encoding Standard 11.1): ASCII, and two bytes by index Big5.
///
/// Four pairs of bytes are two characters each.
#[derive(Clone, Copy)]
pub struct Big5;

/// The Big5 decoder (Encoding Standard 11.1.1).
pub type Big5Decoder = MultiByteDecoder<Double<Big5>>;

/// Returns whether a byte can follow a lead byte.
///
/// There is no branch between the two ranges, since text has bytes of both in an order that no
/// processor predicts.
fn is_trail(byte: u8) -> bool
    ensures { result ≡ is_big5_trail byte }
{
    (byte >= 0x40 && byte <= 0x7E) | (byte >= 0xA1 && byte <= 0xFE)
}

/// Returns the text of a pointer.
fn text_at(pointer: u32) -> Option<Text>
    ensures { result ≡ big5_pointer_text pointer }
{
    match pointer {
        1133 => Some(Text::Two('\u{CA}', '\u{304}')),
        1135 => Some(Text::Two('\u{CA}', '\u{30C}')),
        1164 => Some(Text::Two('\u{EA}', '\u{304}')),
        1166 => Some(Text::Two('\u{EA}', '\u{30C}')),
        _ => text_of(Big5Index::at(pointer)),
    }
}

impl DoubleByte for Big5 {
    ghost use Rattle.enc_decoder_multi_byte.specs.Big5.{is_big5_lead, big5_single_char};
    ghost use Rattle.enc_decoder_multi_byte.specs.Big5.{big5_pair_text};

    ghost leads = { is_big5_lead };

    ghost singles = { big5_single_char };

    ghost pairs = { big5_pair_text };

    fn is_lead(byte: u8) -> bool {
        byte >= 0x81 && byte <= 0xFE
    }

    fn single(byte: u8) -> Option<char> {
        if byte < 0x80 {
            Some(byte as char)
        } else {
            None
        }
    }

    #[inline(always)]
    fn pair(lead: u8, trail: u8) -> Option<Text> {
        if !is_trail(trail) {
            return None;
        }
        let offset = if trail < 0x7F { 0x40 } else { 0x62 };
        text_at((lead as u32 - 0x81) * 157 + (trail as u32 - offset))
    }

    type Index = Big5Index;

    #[inline(always)]
    fn pair_places(first: u8x16, second: u8x16) -> u16x16 {
        let rows = numbers_in(first, 0x81, 0xFE, 0, u8x16::splat(126));
        let upper = numbers_in(second, 0xA1, 0xFE, 63, u8x16::splat(157));
        let columns = numbers_in(second, 0x40, 0x7E, 0, upper);
        places_at(rows, columns, 158)
    }
}
