//! Index jis0208 as a type.
//!
//! Written by scripts/make-sources from data/templates: change the text there, and not this file.

use crate::data::jis0208::JIS0208_TABLE;
use crate::data::jis0208_grid::{JIS0208_UNITS, JIS0208_WORDS};
use crate::double_byte_index::DoubleByteIndex;
use crate::table::character_in;

/// Index jis0208: 120 rows of 94 pointers.
pub struct Jis0208Index;

impl DoubleByteIndex for Jis0208Index {
    ghost use Rattle.enc_index.specs.DoubleByteIndexes.{jis0208_shape};

    ghost shape = { jis0208_shape };

    #[inline(always)]
    #[tactic(auto, using(crate::proofs::Tables::Jis0208::table))]
    fn at(pointer: u32) -> Option<char> {
        character_in(&JIS0208_TABLE, pointer)
    }

    #[inline(always)]
    #[tactic(auto, using(crate::proofs::Tables::Jis0208::word))]
    fn word(place: usize) -> u32 {
        JIS0208_WORDS[place]
    }

    #[inline(always)]
    fn unit(place: usize) -> u16 {
        JIS0208_UNITS[place]
    }
}
