//! The indexes by name (Encoding Standard 5).
//!
//! Written by scripts/make-sources from data/templates: change the text there, and not this file.

ghost use Rattle.std.specs.Prelude.{◌≡◌};
ghost use Rattle.enc_index.specs.Index.{index_at};
ghost use Rattle.enc_index.specs.Runs.{planes_of, runs_of};

use crate::double_byte_index::DoubleByteIndex;
use crate::search::character_among;
use crate::single_byte_index::SingleByteIndex;
use crate::table::Planes;
use crate::{data, indexes, table};

/// An index, by its name: entries, which are pairs of a pointer and the code point of a character.
///
/// They are given as runs. A run (first pointer, last pointer, first code point) stands for the
/// entries (first pointer, code point), (first pointer + 1, code point + 1) and so on to the last
/// pointer.
#[derive(Clone, Copy)]
pub enum List {
    /// The index of a legacy single-byte encoding.
    SingleByte(SingleByteIndex),
    /// Index Big5.
    Big5,
    /// Index EUC-KR.
    EucKr,
    /// Index gb18030.
    Gb18030,
    /// Index jis0208.
    Jis0208,
    /// Index jis0212.
    Jis0212,
    /// Index gb18030 ranges, for four bytes.
    Gb18030Ranges,
}

impl List {
    /// Returns the character of a pointer ("index code point"), by the first run that has it.
    ///
    /// `None` for an unmapped pointer: no run has it, or its code point is 0, a surrogate or past
    /// the index's planes. One load from a table, or for gb18030 ranges a binary search.
    #[inline(always)]
    pub fn at(&self, pointer: u32) -> Option<char>
        ensures { result ≡ index_at (planes_of self.now) (runs_of self.now) pointer }
    {
        match *self {
            List::SingleByte(index) => index.at(pointer),
            List::Big5 => indexes::Big5Index::at(pointer),
            List::EucKr => indexes::EucKrIndex::at(pointer),
            List::Gb18030 => indexes::Gb18030Index::at(pointer),
            List::Jis0208 => indexes::Jis0208Index::at(pointer),
            List::Jis0212 => table::character_in(&data::jis0212::JIS0212_TABLE, pointer),
            List::Gb18030Ranges => {
                character_among(
                    Planes::All,
                    data::gb18030_ranges::GB18030_RANGES_RUNS,
                    pointer,
                )
            }
        }
    }

    /// Returns its runs, in the order of their pointers.
    pub fn runs(&self) -> &'static [(u32, u32, u32)]
        ensures { result.now ≡ runs_of self.now }
    {
        match *self {
            List::SingleByte(index) => index.runs(),
            List::Big5 => data::big5::BIG5_RUNS,
            List::EucKr => data::euc_kr::EUC_KR_RUNS,
            List::Gb18030 => data::gb18030::GB18030_RUNS,
            List::Jis0208 => data::jis0208::JIS0208_RUNS,
            List::Jis0212 => data::jis0212::JIS0212_RUNS,
            List::Gb18030Ranges => data::gb18030_ranges::GB18030_RANGES_RUNS,
        }
    }

    /// Returns the planes that contain its characters.
    pub fn planes(&self) -> Planes
        ensures { result ≡ planes_of self.now }
    {
        match *self {
            List::SingleByte(_) => Planes::Basic,
            List::Big5 => Planes::All,
            List::EucKr => Planes::Basic,
            List::Gb18030 => Planes::Basic,
            List::Jis0208 => Planes::Basic,
            List::Jis0212 => Planes::Basic,
            List::Gb18030Ranges => Planes::All,
        }
    }
}
