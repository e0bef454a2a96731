//! The encoders of the legacy single-byte encodings (Encoding Standard 9.2).

ghost use Rattle.std.specs.Prelude.{◌≡◌, ◌<◌};
ghost use Rattle.enc_input.specs.Bytes.{byte_list};
ghost use Rattle.enc_encode.specs.SingleByte.{single_byte_of_pointer as byte_of_pointer};

use enc_encoder::{
    Barring, ByteLengths, Repertoire, RunRepertoire, StatelessEncoder, UnitRepertoire, one,
};
use enc_index::SingleByteIndex;
use enc_index_pointers::{single_byte, single_byte_letters, single_byte_of_unit};
use enc_input::{ByUnit, Bytes, Chars};
use enc_utf8::Letters;

/// A legacy single-byte encoding (Encoding Standard 9): ASCII, and the characters of its index.
#[derive(Clone, Copy)]
pub struct SingleByte {
    /// Its index.
    pub index: SingleByteIndex,
}

/// The encoder of a legacy single-byte encoding (Encoding Standard 9.2).
pub type SingleByteEncoder = StatelessEncoder<Barring<SingleByte>>;

/// Returns the byte of a pointer.
#[inline(always)]
fn upper(pointer: u32) -> Bytes
    requires bound { pointer < 128 }
    ensures { byte_list result ≡ byte_of_pointer pointer }
{
    one((pointer + 0x80) as u8)
}

impl Repertoire for SingleByte {
    ghost use Rattle.enc_encoder.specs.declared.byte_lengths.ByteLengths.TheVariants as by;
    ghost use Rattle.enc_encode.specs.SingleByte.{single_byte_bytes};

    ghost bytes_for = { λ r. single_byte_bytes r.index };

    ghost lengths = { λ _. by.OneByte };

    #[inline(always)]
    fn bytes_beyond_ascii(self, c: char) -> Option<Bytes> {
        match single_byte(self.index, c) {
            Some(pointer) => Some(upper(pointer)),
            None => None,
        }
    }

    fn byte_lengths(self) -> ByteLengths {
        ByteLengths::OneByte
    }
}

impl UnitRepertoire for SingleByte {
    #[inline(always)]
    fn unit_byte(self, unit: u16) -> u8 {
        single_byte_of_unit(self.index, unit)
    }

    #[inline(always)]
    fn letters(self) -> Letters {
        let (first, last, shift) = single_byte_letters(self.index);
        Letters { first, last, shift }
    }
}

impl RunRepertoire for SingleByte {
    #[inline(always)]
    fn write_run<C: Chars>(self, src: &mut C, dst: &mut [u8], from: usize) -> usize {
        let encoder = StatelessEncoder { repertoire: self };
        src.write_mapped(encoder, ByUnit, dst, from)
    }
}
