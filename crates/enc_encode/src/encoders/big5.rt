//! The Big5 encoder (Encoding Standard 11.1.2).

ghost use Rattle.std.specs.Prelude.{◌≡◌, ◌<◌};
ghost use Rattle.enc_input.specs.Bytes.{byte_list};
ghost use Rattle.enc_encode.specs.Big5.{big5_pair_bytes, big5_trail_byte};

use enc_encoder::{Barring, ByteLengths, Repertoire, RunRepertoire, StatelessEncoder, two};
use enc_index_pointers::big5;
use enc_input::Bytes;

/// Big5 (Encoding Standard 11.1): ASCII, and the characters of index Big5 without the Hong Kong
/// additions at its start.
#[derive(Clone, Copy)]
pub struct Big5;

/// The Big5 encoder (Encoding Standard 11.1.2).
pub type Big5Encoder = StatelessEncoder<Barring<Big5>>;

/// Returns the second byte of a cell.
#[inline(always)]
fn trail(cell: u32) -> u8
    requires bound { cell < 157 }
    ensures { result ≡ big5_trail_byte cell }
{
    (cell + (if cell < 0x3F { 0x40 } else { 0x62 })) as u8
}

/// Returns the two bytes of a pointer.
#[inline(always)]
fn pair(pointer: u32) -> Bytes
    requires bound { pointer < 19782 }
    ensures { byte_list result ≡ big5_pair_bytes pointer }
{
    two((pointer / 157 + 0x81) as u8, trail(pointer % 157))
}

impl Repertoire for Big5 {
    ghost use Rattle.enc_encoder.specs.declared.byte_lengths.ByteLengths.TheVariants as by;
    ghost use Rattle.enc_encode.specs.Big5.{big5_bytes};

    ghost bytes_for = { λ _. big5_bytes };

    ghost lengths = { λ _. by.TwoBytes };

    #[inline(always)]
    fn bytes_beyond_ascii(self, c: char) -> Option<Bytes> {
        match big5(c) {
            Some(pointer) => Some(pair(pointer)),
            None => None,
        }
    }

    fn byte_lengths(self) -> ByteLengths {
        ByteLengths::TwoBytes
    }
}

impl RunRepertoire for Big5 {}
