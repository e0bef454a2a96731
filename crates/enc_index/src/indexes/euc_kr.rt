//! Index EUC-KR as a type.
//!
//! Written by scripts/make-sources from data/templates: change the text there, and not this file.

use crate::data::euc_kr::EUC_KR_TABLE;
use crate::data::euc_kr_grid::{EUC_KR_UNITS, EUC_KR_WORDS};
use crate::double_byte_index::DoubleByteIndex;
use crate::table::character_in;

/// Index EUC-KR: 126 rows of 190 pointers.
pub struct EucKrIndex;

impl DoubleByteIndex for EucKrIndex {
    ghost use Rattle.enc_index.specs.DoubleByteIndexes.{euc_kr_shape};

    ghost shape = { euc_kr_shape };

    #[inline(always)]
    #[tactic(auto, using(crate::proofs::Tables::EucKr::table))]
    fn at(pointer: u32) -> Option<char> {
        character_in(&EUC_KR_TABLE, pointer)
    }

    #[inline(always)]
    #[tactic(auto, using(crate::proofs::Tables::EucKr::word))]
    fn word(place: usize) -> u32 {
        EUC_KR_WORDS[place]
    }

    #[inline(always)]
    fn unit(place: usize) -> u16 {
        EUC_KR_UNITS[place]
    }
}
