//! The characters of single bytes in the legacy single-byte encodings, by index.

ghost use Rattle.std.specs.Prelude.{◌≡◌, ◌-◌, ◌<◌, ◌≤◌, Some};
ghost use Rattle.std.specs.Char.{IsScalar};
ghost use Rattle.enc_index.specs.Grid.{HasWord};
ghost use Rattle.enc_index.specs.Index.{index_at};
ghost use Rattle.enc_index.specs.Letters.{HasLetters};
ghost use Rattle.enc_index.specs.Runs.{single_byte_runs};
ghost use Rattle.enc_index.specs.declared.table.Planes.TheVariants.{Basic};

use crate::data::single_byte::SINGLE_BYTE_TABLE;
use crate::data::single_byte_words::{SINGLE_BYTE_UNITS, SINGLE_BYTE_WORDS};
use crate::single_byte_index::SingleByteIndex;
use crate::table::{character_in, unit_in, word_in};

impl SingleByteIndex {
    /// Returns the character of a pointer, by the first run that has it.
    ///
    /// `None` if it is unmapped, as every one from 128 on. One load from a table.
    #[inline(always)]
    pub fn at(self, pointer: u32) -> Option<char>
        ensures { result ≡ index_at Basic (single_byte_runs self) pointer }
    {
        let from = self.number() * 128;
        character_in(&SINGLE_BYTE_TABLE[from..from + 128], pointer)
    }

    /// Returns the UTF-8 of a byte's character, as a word.
    ///
    /// A byte below 0x80 is ASCII. The word has the bytes, the first lowest, and their number in
    /// the highest byte. 0 if the byte's pointer is unmapped. One load.
    #[inline(always)]
    pub fn word(self, byte: u8) -> u32
        ensures ascii { byte < 0x80 → 0 < result → HasWord (Some byte) result }
        ensures others { 0x80 ≤ byte → 0 < result
            → HasWord (index_at Basic (single_byte_runs self) (byte - 0x80)) result }
    {
        let from = self.number() * 256;
        word_in(&SINGLE_BYTE_WORDS[from..from + 256], byte)
    }

    /// Returns the UTF-16 code unit of a byte's character.
    ///
    /// 0 if the byte's pointer is unmapped. For byte 0 it is the code unit of U+0000, which is 0
    /// too. One load.
    #[inline(always)]
    pub fn unit(self, byte: u8) -> u16
        ensures ascii { byte < 0x80 → 0 < result → (Some byte ≡ Some result) × IsScalar result }
        ensures others { 0x80 ≤ byte → 0 < result
            → (index_at Basic (single_byte_runs self) (byte - 0x80) ≡ Some result)
            × IsScalar result }
    {
        let from = self.number() * 256;
        unit_in(&SINGLE_BYTE_UNITS[from..from + 256], byte)
    }

    /// Returns letters whose code points follow one by one, if there are many: the first byte, the
    /// last, and how much greater than a byte its code point is. There is none if the first is
    /// greater than the last.
    #[inline(always)]
    pub fn letters(self) -> (u8, u8, u16)
        ensures { HasLetters (single_byte_runs self) result }
    {
        self.listed_letters()
    }
}
