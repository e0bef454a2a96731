//! The Shift_JIS encoder (Encoding Standard 12.3.2).

ghost use Rattle.std.specs.Prelude.{◌≡◌, ◌<◌};
ghost use Rattle.enc_input.specs.Bytes.{byte_list};
ghost use Rattle.enc_encode.specs.ShiftJis.{shift_jis_pair_bytes};
ghost use Rattle.enc_encode.specs.ShiftJis.{shift_jis_lead_byte, shift_jis_trail_byte};

use super::japanese::{is_halfwidth_katakana, katakana_byte, with_fullwidth_minus};
use enc_encoder::{Barring, ByteLengths, Repertoire, RunRepertoire, StatelessEncoder, one, two};
use enc_index_pointers::shift_jis;
use enc_input::Bytes;

/// Shift_JIS (Encoding Standard 12.3): ASCII and U+0080, half-width katakana, and the characters of
/// index jis0208.
#[derive(Clone, Copy)]
pub struct ShiftJis;

/// The Shift_JIS encoder (Encoding Standard 12.3.2).
pub type ShiftJisEncoder = StatelessEncoder<Barring<ShiftJis>>;

/// Returns the first byte of a row.
#[inline(always)]
fn lead(row: u32) -> u8
    requires bound { row < 60 }
    ensures { result ≡ shift_jis_lead_byte row }
{
    (row + (if row < 0x1F { 0x81 } else { 0xC1 })) as u8
}

/// Returns the second byte of a cell.
#[inline(always)]
fn trail(cell: u32) -> u8
    requires bound { cell < 188 }
    ensures { result ≡ shift_jis_trail_byte cell }
{
    (cell + (if cell < 0x3F { 0x40 } else { 0x41 })) as u8
}

/// Returns the two bytes of a pointer.
#[inline(always)]
fn pair(pointer: u32) -> Bytes
    requires bound { pointer < 11280 }
    ensures { byte_list result ≡ shift_jis_pair_bytes pointer }
{
    two(lead(pointer / 188), trail(pointer % 188))
}

impl Repertoire for ShiftJis {
    ghost use Rattle.enc_encoder.specs.declared.byte_lengths.ByteLengths.TheVariants as by;
    ghost use Rattle.enc_encode.specs.ShiftJis.{shift_jis_bytes};

    ghost bytes_for = { λ _. shift_jis_bytes };

    ghost lengths = { λ _. by.TwoBytes };

    #[inline(always)]
    fn bytes_beyond_ascii(self, c: char) -> Option<Bytes> {
        if c == '\u{80}' {
            return Some(one(0x80));
        }
        if c == '\u{A5}' {
            return Some(one(0x5C));
        }
        if c == '\u{203E}' {
            return Some(one(0x7E));
        }
        if is_halfwidth_katakana(c) {
            return Some(one(katakana_byte(c)));
        }
        match shift_jis(with_fullwidth_minus(c)) {
            Some(pointer) => Some(pair(pointer)),
            None => None,
        }
    }

    fn byte_lengths(self) -> ByteLengths {
        ByteLengths::TwoBytes
    }
}

impl RunRepertoire for ShiftJis {}
