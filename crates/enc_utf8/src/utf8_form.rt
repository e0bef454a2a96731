//! The UTF-8 of characters, as arrays and stored in a buffer.

ghost use Rattle.std.specs.Prelude.{◌≡◌, ◌+◌, ◌/◌, ◌<◌, ◌≤◌, ◌++◌, length, take};
ghost use Rattle.std.specs.Char.{IsScalar, encode_utf8};
ghost use Rattle.std.specs.Int.{w32, to_le_bytes};

/// The UTF-8 of a character, or nothing: the first `len` of four bytes.
#[derive(Clone, Copy)]
pub struct Encoded {
    pub bytes: [u8; 4],
    pub len: u32,
}

/// Returns the UTF-8 of a character of two bytes (Unicode Standard 3.9, table 3-6).
#[inline(always)]
pub fn two_bytes(character: char) -> [u8; 2]
    requires from { 0x80 ≤ character }
    requires to { character < 0x800 }
    ensures { result ≡ encode_utf8 character }
{
    let scalar = character as u32;
    [0xC0 + (scalar / 64) as u8, 0x80 + (scalar % 64) as u8]
}

/// Returns the UTF-8 of a character of three bytes.
#[inline(always)]
pub fn three_bytes(character: char) -> [u8; 3]
    requires from { 0x800 ≤ character }
    requires to { character < 0x10000 }
    ensures { result ≡ encode_utf8 character }
{
    let scalar = character as u32;
    let second = 0x80 + (scalar / 64 % 64) as u8;
    [
        0xE0 + (scalar / 4096) as u8,
        second,
        0x80 + (scalar % 64) as u8,
    ]
}

/// Returns the UTF-8 of a character of four bytes.
#[inline(always)]
pub fn four_bytes(character: char) -> [u8; 4]
    requires from { 0x10000 ≤ character }
    ensures { result ≡ encode_utf8 character }
{
    let scalar = character as u32;
    let second = 0x80 + (scalar / 4096 % 64) as u8;
    let third = 0x80 + (scalar / 64 % 64) as u8;
    [
        0xF0 + (scalar / 262144) as u8,
        second,
        third,
        0x80 + (scalar % 64) as u8,
    ]
}

/// Returns the UTF-8 of a character (Unicode Standard 3.9, table 3-6).
#[inline(always)]
pub fn utf8_of(character: char) -> Encoded
    ensures some { 1 ≤ result.len }
    ensures bound { result.len ≤ 4 }
    ensures bytes { take result.len result.bytes ≡ encode_utf8 character }
    ensures scalar { IsScalar character }
{
    let scalar = character as u32;
    let low = 0x80 + (scalar % 64) as u8;
    if scalar < 0x80 {
        return Encoded {
            bytes: [scalar as u8, 0, 0, 0],
            len: 1,
        };
    }
    if scalar < 0x800 {
        return Encoded {
            bytes: [0xC0 + (scalar / 64) as u8, low, 0, 0],
            len: 2,
        };
    }
    let second_low = 0x80 + (scalar / 64 % 64) as u8;
    if scalar < 0x10000 {
        return Encoded {
            bytes: [0xE0 + (scalar / 4096) as u8, second_low, low, 0],
            len: 3,
        };
    }
    let third_low = 0x80 + (scalar / 4096 % 64) as u8;
    Encoded {
        bytes: [0xF0 + (scalar / 262144) as u8, third_low, second_low, low],
        len: 4,
    }
}

/// Stores a character's UTF-8 after the first `at` bytes of a buffer. Returns its end.
#[inline(always)]
pub fn store_text(buffer: &mut [u8], at: usize, text: Encoded) -> usize
    requires room { at + 4 ≤ length buffer.old }
    requires bound { text.len ≤ 4 }
    ensures end { result ≡ at + text.len }
    ensures len { length buffer.new ≡ length buffer.old }
    ensures stored { take (at + text.len) buffer.new ≡ take at buffer.old
        ++ take text.len text.bytes }
{
    buffer[at..at + 4].copy_from_slice(&text.bytes);
    at + text.len as usize
}

/// Stores the UTF-8 in a word after the first `at` bytes of a buffer. Returns its end.
///
/// The word has the bytes, the first lowest, and their number in the highest byte.
#[inline(always)]
pub fn store_word(buffer: &mut [u8], at: usize, word: u32) -> usize
    requires room { at + 4 ≤ length buffer.old }
    requires bound { word / 0x1000000 ≤ 4 }
    ensures end { result ≡ at + word / 0x1000000 }
    ensures len { length buffer.new ≡ length buffer.old }
    ensures stored { take result buffer.new ≡ take at buffer.old
        ++ take (word / 0x1000000) (to_le_bytes w32 word) }
{
    buffer[at..at + 4].copy_from_slice(&word.to_le_bytes());
    at + (word / 0x1000000) as usize
}
