//! The x-user-defined decoder (Encoding Standard 14.5).

use crate::one_byte::{OneByte, OneByteDecoder};
use crate::user_defined_words::{USER_DEFINED_UNITS, USER_DEFINED_WORDS};
use enc_utf8::Letters;

/// x-user-defined (Encoding Standard 14.5).
#[derive(Clone, Copy)]
pub struct XUserDefined;

/// The x-user-defined decoder (Encoding Standard 14.5).
///
/// A byte below 0x80 is the character with its number. 0x80 to 0xFF are U+F780 to U+F7FF.
pub type XUserDefinedDecoder = OneByteDecoder<XUserDefined>;

impl OneByteDecoder<XUserDefined> {
    /// Returns a decoder.
    pub fn new() -> XUserDefinedDecoder {
        OneByteDecoder {
            encoding: XUserDefined,
        }
    }
}

impl OneByte for XUserDefined {
    ghost use Rattle.enc_decoder_single_byte.specs.OneByte.{x_user_defined_char};

    ghost character = { λ _. x_user_defined_char };

    #[inline(always)]
    #[tactic(auto, using(crate::proofs::OneByteLemmas::x_user_defined_laws))]
    fn laws(self) {}

    #[inline(always)]
    fn character_of(self, byte: u8) -> Option<char> {
        if byte < 0x80 {
            return Some(byte as char);
        }
        char::from_u32(0xF780 + (byte as u32 - 0x80))
    }

    #[inline(always)]
    #[tactic(auto, using(crate::proofs::WordLemmas::x_user_defined_word))]
    fn word_of(self, byte: u8) -> u32 {
        USER_DEFINED_WORDS[byte as usize]
    }

    #[inline(always)]
    fn unit_of(self, byte: u8) -> u16 {
        USER_DEFINED_UNITS[byte as usize]
    }

    #[inline(always)]
    fn letters_of(self) -> Letters {
        Letters {
            first: 0x80,
            last: 0xFF,
            shift: 0xF700,
        }
    }
}
