//! The characters of two bytes in ISO-2022-JP, by index jis0208 (Encoding Standard 12.2.1).

ghost use Rattle.std.specs.Prelude.{◌≡◌, true};
ghost use Rattle.enc_index.specs.DoubleByteIndexes.{jis0208_shape};
ghost use Rattle.enc_index.specs.Grid.{ArePairPlaces};
ghost use Rattle.enc_decoder_iso_2022_jp.specs.Iso2022Jp.{is_jis0208_byte as in_jis0208};
ghost use Rattle.enc_decoder_iso_2022_jp.specs.Iso2022Jp.{two_byte_char, IsJis0208Pair};

use crate::character_set::is_jis0208_byte;
use enc_index::DoubleByteIndex;
use enc_index::indexes::Jis0208Index;
use enc_output::{numbers_in, places_at};
use std::simd::prelude::*;

/// Returns the character of a lead byte and the byte after it.
#[tactic(auto, unfolding(crate::specs::Iso2022Jp::two_byte_char))]
pub(crate) fn char_of_pair(lead: u8, byte: u8) -> Option<char>
    requires lead { in_jis0208 lead ≡ true }
    ensures { result ≡ two_byte_char lead byte }
{
    if !is_jis0208_byte(byte) {
        return None;
    }
    Jis0208Index::at((lead as u32 - 0x21) * 94 + (byte as u32 - 0x21))
}

/// Returns the place in index jis0208 of each of sixteen bytes with the byte after it.
#[inline(always)]
pub(crate) fn pair_places(first: u8x16, second: u8x16) -> u16x16
    ensures { ArePairPlaces jis0208_shape IsJis0208Pair result first second }
{
    let rows = numbers_in(first, 0x21, 0x7E, 0, u8x16::splat(120));
    let columns = numbers_in(second, 0x21, 0x7E, 0, u8x16::splat(94));
    places_at(rows, columns, 95)
}
