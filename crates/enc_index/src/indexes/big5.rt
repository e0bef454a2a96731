//! Index Big5 as a type.
//!
//! Written by scripts/make-sources from data/templates: change the text there, and not this file.

use crate::data::big5::BIG5_TABLE;
use crate::data::big5_grid::{BIG5_UNITS, BIG5_WORDS};
use crate::double_byte_index::DoubleByteIndex;
use crate::table::character_in_all;

/// Index Big5: 126 rows of 157 pointers.
pub struct Big5Index;

impl DoubleByteIndex for Big5Index {
    ghost use Rattle.enc_index.specs.DoubleByteIndexes.{big5_shape};

    ghost shape = { big5_shape };

    #[inline(always)]
    #[tactic(auto, using(crate::proofs::Tables::Big5::table))]
    fn at(pointer: u32) -> Option<char> {
        character_in_all(&BIG5_TABLE, pointer)
    }

    #[inline(always)]
    #[tactic(auto, using(crate::proofs::Tables::Big5::word))]
    fn word(place: usize) -> u32 {
        BIG5_WORDS[place]
    }

    #[inline(always)]
    fn unit(place: usize) -> u16 {
        BIG5_UNITS[place]
    }
}
