//! Lists of no, one, two and four bytes, and escape sequences.

ghost use Rattle.std.specs.Prelude.{◌≡◌, [], ◌∷◌};
ghost use Rattle.enc_input.specs.Bytes.{byte_list};
ghost use Rattle.enc_encoder.specs.Text.{escape_sequence as escape_bytes};

use crate::character_set::CharacterSet;
use enc_input::Bytes;

/// Returns no byte.
#[inline(always)]
pub fn none() -> Bytes
    ensures { byte_list result ≡ [] }
{
    Bytes {
        bytes: [0; 4],
        len: 0,
    }
}

/// Returns one byte.
#[inline(always)]
pub fn one(a: u8) -> Bytes
    ensures { byte_list result ≡ a ∷ [] }
{
    Bytes {
        bytes: [a, 0, 0, 0],
        len: 1,
    }
}

/// Returns two bytes.
#[inline(always)]
pub fn two(a: u8, b: u8) -> Bytes
    ensures { byte_list result ≡ a ∷ b ∷ [] }
{
    Bytes {
        bytes: [a, b, 0, 0],
        len: 2,
    }
}

/// Returns four bytes.
#[inline(always)]
pub fn four(a: u8, b: u8, c: u8, d: u8) -> Bytes
    ensures { byte_list result ≡ a ∷ b ∷ c ∷ d ∷ [] }
{
    Bytes {
        bytes: [a, b, c, d],
        len: 4,
    }
}

/// Returns the escape sequence that designates a character set (Encoding Standard 12.2.2).
pub fn escape(set: CharacterSet) -> Bytes
    ensures { byte_list result ≡ escape_bytes set }
{
    let bytes = match set {
        CharacterSet::Ascii => [0x1B, 0x28, 0x42, 0],
        CharacterSet::Roman => [0x1B, 0x28, 0x4A, 0],
        CharacterSet::Jis0208 => [0x1B, 0x24, 0x42, 0],
    };
    Bytes { bytes, len: 3 }
}
