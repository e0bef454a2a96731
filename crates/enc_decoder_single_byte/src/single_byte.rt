//! The legacy single-byte decoders (Encoding Standard 9.1).

ghost use Rattle.std.specs.Prelude.{◌≡◌};

use crate::one_byte::{OneByte, OneByteDecoder};
use enc_index::SingleByteIndex;
use enc_utf8::Letters;

/// The decoder of a legacy single-byte encoding, by its index (Encoding Standard 9.1).
///
/// A byte below 0x80 is the character with its number. Any other has the character of the pointer
/// 0x80 less, or is malformed if that pointer is unmapped. An entry past U+FFFF does not count.
pub type SingleByteDecoder = OneByteDecoder<SingleByteIndex>;

impl OneByteDecoder<SingleByteIndex> {
    /// Returns a decoder for the encoding with this index.
    pub fn new(index: SingleByteIndex) -> SingleByteDecoder
        ensures { result.encoding ≡ index }
    {
        OneByteDecoder { encoding: index }
    }
}

impl OneByte for SingleByteIndex {
    ghost use Rattle.enc_index.specs.Runs.{single_byte_runs};
    ghost use Rattle.enc_decoder_single_byte.specs.OneByte.{single_byte_char};

    ghost character = { λ index. single_byte_char (single_byte_runs index) };

    #[inline(always)]
    #[tactic(auto, using(crate::proofs::OneByteLemmas::single_byte_laws))]
    fn laws(self) {
        let _index = self;
    }

    #[inline(always)]
    fn character_of(self, byte: u8) -> Option<char> {
        if byte < 0x80 {
            return Some(byte as char);
        }
        self.at(byte as u32 - 0x80)
    }

    #[inline(always)]
    fn word_of(self, byte: u8) -> u32 {
        self.word(byte)
    }

    #[inline(always)]
    fn unit_of(self, byte: u8) -> u16 {
        self.unit(byte)
    }

    #[inline(always)]
    fn letters_of(self) -> Letters {
        let (first, last, shift) = self.letters();
        Letters { first, last, shift }
    }
}
