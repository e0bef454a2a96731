//! The EUC-KR encoder (Encoding Standard 13.1.2).

ghost use Rattle.std.specs.Prelude.{◌≡◌, ◌<◌};
ghost use Rattle.enc_input.specs.Bytes.{byte_list};
ghost use Rattle.enc_encode.specs.EucKr.{euc_kr_pair_bytes};

use enc_encoder::{Barring, ByteLengths, Repertoire, RunRepertoire, StatelessEncoder, two};
use enc_index_pointers::euc_kr;
use enc_input::Bytes;

/// EUC-KR (Encoding Standard 13.1): ASCII, and the characters of index EUC-KR.
#[derive(Clone, Copy)]
pub struct EucKr;

/// The EUC-KR encoder (Encoding Standard 13.1.2).
pub type EucKrEncoder = StatelessEncoder<Barring<EucKr>>;

/// Returns the two bytes of a pointer.
#[inline(always)]
fn pair(pointer: u32) -> Bytes
    requires bound { pointer < 23940 }
    ensures { byte_list result ≡ euc_kr_pair_bytes pointer }
{
    two((pointer / 190 + 0x81) as u8, (pointer % 190 + 0x41) as u8)
}

impl Repertoire for EucKr {
    ghost use Rattle.enc_encoder.specs.declared.byte_lengths.ByteLengths.TheVariants as by;
    ghost use Rattle.enc_encode.specs.EucKr.{euc_kr_bytes};

    ghost bytes_for = { λ _. euc_kr_bytes };

    ghost lengths = { λ _. by.TwoBytes };

    #[inline(always)]
    fn bytes_beyond_ascii(self, c: char) -> Option<Bytes> {
        match euc_kr(c) {
            Some(pointer) => Some(pair(pointer)),
            None => None,
        }
    }

    fn byte_lengths(self) -> ByteLengths {
        ByteLengths::TwoBytes
    }
}

impl RunRepertoire for EucKr {}
