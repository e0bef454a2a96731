//! The UTF-8 encoder (Encoding Standard 8.1.2).

ghost use Rattle.std.specs.Prelude.{◌≡◌, encode_utf8};
ghost use Rattle.enc_input.specs.Bytes.{byte_list};

use enc_encoder::{
    Barring, ByteLengths, Repertoire, RunRepertoire, StatelessEncoder, Utf8Repertoire,
};
use enc_input::{Bytes, Chars, Copied};

/// UTF-8 (Encoding Standard 8.1): every character.
#[derive(Clone, Copy)]
pub struct Utf8;

/// The UTF-8 encoder (Encoding Standard 8.1.2).
pub type Utf8Encoder = StatelessEncoder<Barring<Utf8>>;

/// Returns the bytes of a character.
fn utf8_bytes(c: char) -> Bytes
    ensures { byte_list result ≡ encode_utf8 c }
{
    let mut local = [0; 4];
    let text = c.encode_utf8(&mut local).as_bytes();
    let len = text.len();
    let mut bytes = [0; 4];
    bytes[..len].copy_from_slice(text);
    Bytes { bytes, len }
}

impl Repertoire for Utf8 {
    ghost use Rattle.enc_encoder.specs.declared.byte_lengths.ByteLengths.TheVariants as by;
    ghost use Rattle.enc_encode.specs.Utf8.{utf_8_bytes};

    ghost bytes_for = { λ _. utf_8_bytes };

    ghost lengths = { λ _. by.Utf8 };

    #[inline(always)]
    fn bytes_beyond_ascii(self, c: char) -> Option<Bytes> {
        Some(utf8_bytes(c))
    }

    fn byte_lengths(self) -> ByteLengths {
        ByteLengths::Utf8
    }
}

impl Utf8Repertoire for Utf8 {
    fn is_utf8(self) {}
}

impl RunRepertoire for Utf8 {
    #[inline(always)]
    fn write_run<C: Chars>(self, src: &mut C, dst: &mut [u8], from: usize) -> usize {
        let encoder = StatelessEncoder { repertoire: self };
        src.write_mapped(encoder, Copied, dst, from)
    }
}
