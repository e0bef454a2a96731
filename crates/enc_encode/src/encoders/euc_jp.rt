//! The EUC-JP encoder (Encoding Standard 12.1.2).

ghost use Rattle.std.specs.Prelude.{◌≡◌, ◌<◌};
ghost use Rattle.enc_input.specs.Bytes.{byte_list};
ghost use Rattle.enc_encode.specs.EucJp.{euc_jp_pair_bytes};

use super::japanese::{is_halfwidth_katakana, katakana_byte, with_fullwidth_minus};
use enc_encoder::{Barring, ByteLengths, Repertoire, RunRepertoire, StatelessEncoder, one, two};
use enc_index_pointers::jis0208;
use enc_input::Bytes;

/// EUC-JP (Encoding Standard 12.1): ASCII, half-width katakana, and the characters of index
/// jis0208. Those of jis0212, which its decoder has, are unmappable.
#[derive(Clone, Copy)]
pub struct EucJp;

/// The EUC-JP encoder (Encoding Standard 12.1.2).
pub type EucJpEncoder = StatelessEncoder<Barring<EucJp>>;

/// Returns the two bytes of a pointer.
#[inline(always)]
fn pair(pointer: u32) -> Bytes
    requires bound { pointer < 8836 }
    ensures { byte_list result ≡ euc_jp_pair_bytes pointer }
{
    two((pointer / 94 + 0xA1) as u8, (pointer % 94 + 0xA1) as u8)
}

impl Repertoire for EucJp {
    ghost use Rattle.enc_encoder.specs.declared.byte_lengths.ByteLengths.TheVariants as by;
    ghost use Rattle.enc_encode.specs.EucJp.{euc_jp_bytes};

    ghost bytes_for = { λ _. euc_jp_bytes };

    ghost lengths = { λ _. by.TwoBytes };

    #[inline(always)]
    fn bytes_beyond_ascii(self, c: char) -> Option<Bytes> {
        if c == '\u{A5}' {
            return Some(one(0x5C));
        }
        if c == '\u{203E}' {
            return Some(one(0x7E));
        }
        if is_halfwidth_katakana(c) {
            return Some(two(0x8E, katakana_byte(c)));
        }
        match jis0208(with_fullwidth_minus(c)) {
            Some(pointer) => Some(pair(pointer)),
            None => None,
        }
    }

    fn byte_lengths(self) -> ByteLengths {
        ByteLengths::TwoBytes
    }
}

impl RunRepertoire for EucJp {}
