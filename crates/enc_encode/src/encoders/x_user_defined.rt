//! The x-user-defined encoder (Encoding Standard 14.5.2).

use enc_encoder::{Barring, ByteLengths, Repertoire, RunRepertoire, StatelessEncoder, one};
use enc_input::Bytes;

/// x-user-defined (Encoding Standard 14.5): ASCII, and U+F780 to U+F7FF.
#[derive(Clone, Copy)]
pub struct XUserDefined;

/// The x-user-defined encoder (Encoding Standard 14.5.2).
pub type XUserDefinedEncoder = StatelessEncoder<Barring<XUserDefined>>;

impl Repertoire for XUserDefined {
    ghost use Rattle.enc_encoder.specs.declared.byte_lengths.ByteLengths.TheVariants as by;
    ghost use Rattle.enc_encode.specs.SingleByte.{x_user_defined_bytes};

    ghost bytes_for = { λ _. x_user_defined_bytes };

    ghost lengths = { λ _. by.OneByte };

    #[inline(always)]
    fn bytes_beyond_ascii(self, c: char) -> Option<Bytes> {
        let c = c as u32;
        if 0xF780 <= c && c <= 0xF7FF {
            return Some(one((c - 0xF780 + 0x80) as u8));
        }
        None
    }

    fn byte_lengths(self) -> ByteLengths {
        ByteLengths::OneByte
    }
}

impl RunRepertoire for XUserDefined {}
