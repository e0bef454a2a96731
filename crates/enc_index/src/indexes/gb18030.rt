//! Index gb18030 as a type.
//!
//! Written by scripts/make-sources from data/templates: change the text there, and not this file.

use crate::data::gb18030::GB18030_TABLE;
use crate::data::gb18030_grid::{GB18030_UNITS, GB18030_WORDS};
use crate::double_byte_index::DoubleByteIndex;
use crate::table::character_in;

/// Index gb18030: 126 rows of 190 pointers.
pub struct Gb18030Index;

impl DoubleByteIndex for Gb18030Index {
    ghost use Rattle.enc_index.specs.DoubleByteIndexes.{gb18030_shape};

    ghost shape = { gb18030_shape };

    #[inline(always)]
    #[tactic(auto, using(crate::proofs::Tables::Gb18030::table))]
    fn at(pointer: u32) -> Option<char> {
        character_in(&GB18030_TABLE, pointer)
    }

    #[inline(always)]
    #[tactic(auto, using(crate::proofs::Tables::Gb18030::word))]
    fn word(place: usize) -> u32 {
        GB18030_WORDS[place]
    }

    #[inline(always)]
    fn unit(place: usize) -> u16 {
        GB18030_UNITS[place]
    }
}
