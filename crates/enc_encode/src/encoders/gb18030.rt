//! The gb18030 encoder, which is also that of GBK (Encoding Standard 10.2.2).

ghost use Rattle.std.specs.Prelude.{◌≡◌, ◌<◌, ◌≤◌, ◌&&◌, nat_le};
ghost use Rattle.enc_input.specs.Bytes.{byte_list};
ghost use Rattle.enc_encoder.specs.CharLaw.{AreBytesOf};
ghost use Rattle.enc_encode.specs.Gb18030.{gb18030_pair_bytes, gb18030_trail_byte};
ghost use Rattle.enc_encode.specs.Gb18030.{gb18030_four_bytes};
ghost use Rattle.enc_encode.specs.Gb18030.{two_or_four_bytes as wanted_bytes};
ghost use Rattle.enc_encode.specs.Gb18030.{row_bytes as wanted_row_bytes, gb18030_other};
ghost use Rattle.enc_index_pointers.specs.Pointers.{gb18030_pointer, gb18030_ranges_pointer};
ghost use Rattle.enc_encoder.specs.Stateless.{bytes_of_pointer};

use super::private_use::PRIVATE_USE;
use enc_encoder::{
    Barring, ByteLengths, Repertoire, RunRepertoire, StatelessEncoder, four, one, two,
};
use enc_index_pointers::{gb18030, gb18030_ranges};
use enc_input::Bytes;

/// gb18030 (Encoding Standard 10.2): ASCII, two bytes by index gb18030 or for 18 characters of
/// private use beside it, and four bytes by its ranges. GBK (10.1) has no four bytes, and one byte
/// for U+20AC.
#[derive(Clone, Copy)]
pub struct Gb18030 {
    /// Whether it is GBK.
    pub is_gbk: bool,
}

/// The gb18030 encoder, which is also that of GBK (Encoding Standard 10.2.2).
pub type Gb18030Encoder = StatelessEncoder<Barring<Gb18030>>;

/// Returns the second byte of a cell.
#[inline(always)]
fn trail(cell: u32) -> u8
    requires bound { cell < 190 }
    ensures { result ≡ gb18030_trail_byte cell }
{
    (cell + (if cell < 0x3F { 0x40 } else { 0x41 })) as u8
}

/// Returns the two bytes of a pointer.
#[inline(always)]
fn pair(pointer: u32) -> Bytes
    requires bound { pointer < 23940 }
    ensures { byte_list result ≡ gb18030_pair_bytes pointer }
{
    two((pointer / 190 + 0x81) as u8, trail(pointer % 190))
}

/// Returns the four bytes of a pointer of the ranges.
fn four_bytes(pointer: u32) -> Bytes
    requires bound { pointer < 1237576 }
    ensures { byte_list result ≡ gb18030_four_bytes pointer }
{
    four(
        (pointer / 12600 + 0x81) as u8,
        (pointer % 12600 / 1260 + 0x30) as u8,
        (pointer % 1260 / 10 + 0x81) as u8,
        (pointer % 10 + 0x30) as u8,
    )
}

/// Returns the four bytes of a character, by the ranges.
#[inline(always)]
fn by_ranges(c: char) -> Option<Bytes>
    ensures { AreBytesOf (bytes_of_pointer gb18030_four_bytes (gb18030_ranges_pointer c)) result }
{
    match gb18030_ranges(c) {
        Some(pointer) => Some(four_bytes(pointer)),
        None => None,
    }
}

/// Returns the two bytes of a character, or in gb18030 four.
#[inline(always)]
fn two_or_four_bytes(is_gbk: bool, c: char) -> Option<Bytes>
    ensures { AreBytesOf (wanted_bytes is_gbk c (gb18030_pointer c)) result }
{
    if let Some(pointer) = gb18030(c) {
        return Some(pair(pointer));
    }
    if is_gbk {
        return None;
    }
    by_ranges(c)
}

/// Returns the two bytes of a character, if a row has it.
#[inline(always)]
fn row_bytes(rows: &[(char, u8, u8)], c: char) -> Option<Bytes>
    ensures { AreBytesOf (wanted_row_bytes rows.now c) result }
{
    for i in 0..rows.len() {
        let (character, lead, trail) = rows[i];
        if character == c {
            return Some(two(lead, trail));
        }
    }
    None
}

/// Returns the bytes of a character from U+E5E5 on, where some have rows beside the index.
#[inline(always)]
#[tactic(auto, using(crate::proofs::PrivateUseLemmas::by_row))]
fn private_use_bytes(is_gbk: bool, c: char) -> Option<Bytes>
    requires least { 0xE5E5 ≤ c }
    ensures { AreBytesOf (gb18030_other is_gbk c) result }
{
    if c == '\u{E5E5}' {
        return None;
    }
    match row_bytes(PRIVATE_USE, c) {
        Some(bytes) => Some(bytes),
        None => two_or_four_bytes(is_gbk, c),
    }
}

/// Whether a character is one of U+E5E5 to U+E864, outside of which none has a row.
#[inline(always)]
fn is_among_rows(c: char) -> bool
    ensures { result ≡ (nat_le 0xE5E5 c && nat_le c 0xE864) }
{
    c >= '\u{E5E5}' && c <= '\u{E864}'
}

impl Repertoire for Gb18030 {
    ghost use Rattle.enc_encode.specs.Gb18030.{gb18030_bytes, gb18030_lengths};

    ghost bytes_for = { λ r. gb18030_bytes r.is_gbk };

    ghost lengths = { λ r. gb18030_lengths r.is_gbk };

    /// It is inlined as a whole: bytes that a function out of line returns are in memory, and a run
    /// would then keep those of each character there.
    #[inline(always)]
    #[tactic(auto, using(crate::proofs::PrivateUseLemmas::by_index))]
    fn bytes_beyond_ascii(self, c: char) -> Option<Bytes> {
        if is_among_rows(c) {
            return private_use_bytes(self.is_gbk, c);
        }
        if self.is_gbk && c == '\u{20AC}' {
            return Some(one(0x80));
        }
        two_or_four_bytes(self.is_gbk, c)
    }

    fn byte_lengths(self) -> ByteLengths {
        if self.is_gbk {
            ByteLengths::TwoBytes
        } else {
            ByteLengths::Gb18030
        }
    }
}

impl RunRepertoire for Gb18030 {}
