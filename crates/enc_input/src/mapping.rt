//! The bytes of characters, as the loops over runs look them up.

ghost use Rattle.std.specs.Prelude.{ℕ, ◌≡◌, ◌<◌, ◌≤◌, List, [], ◌∷◌, IfSome, IsTrue, take};
ghost use Rattle.enc_input.specs.Bytes.{byte_list};
ghost use Rattle.enc_input.specs.Mappings.{AreWrittenAsUtf8};
ghost use Rattle.enc_utf8.specs.Letters.{AreLetters};
ghost use Rattle.enc_utf8.specs.Pieces.{AreWrittenAsThemselves, IsWrittenAsItself, KeepsAscii};

use crate::bytes::Bytes;
use enc_utf8::Letters;
use std::simd::prelude::*;

/// The bytes that an encoder writes for characters.
pub trait Mapping: Copy {
    // the bytes are those of the character
    ghost means: { Self → List ℕ → ℕ → Type 0 };

    /// Returns the bytes of a character beyond ASCII, or `None` if it ends a run.
    ///
    /// Condition: it is beyond ASCII.
    fn bytes_in_run(self, c: char) -> Option<Bytes>
        requires beyond_ascii { 0x80 ≤ c }
        ensures { IfSome result (λ b. means self (byte_list b) c) };

    /// Returns whether a byte is ASCII written as itself, or false.
    fn is_own(self, byte: u8) -> bool
        ensures { IsTrue result → IsWrittenAsItself (means self) byte };

    /// Returns how many of sixteen bytes at the front are ASCII written as itself, or fewer.
    fn ascii_len(self, lanes: u8x16) -> usize
        ensures bound { result ≤ 16 }
        ensures ascii { AreWrittenAsThemselves (means self) (take result lanes) };

    /// Returns whether all of ASCII is written as itself, or false.
    fn keeps_ascii(self) -> bool
        ensures { IsTrue result → KeepsAscii (means self) };
}

/// The bytes that an encoder of single bytes writes.
pub trait UnitBytes: Mapping {
    /// Returns the byte of a character below U+0800, ASCII included, if its bytes are that one
    /// byte, or 0.
    ///
    /// U+07FF has none, so that it can stand for all characters from U+0800 on. Condition: the
    /// character is below U+0800.
    fn unit_byte(self, unit: u16) -> u8
        requires bound { unit < 0x800 }
        ensures means { 0 < result → Self.means self (result ∷ []) unit }
        ensures last { unit ≡ 0x7FF → result ≡ 0 };

    /// Returns a long run of letters of the encoding, or none. Text in them is written sixteen code
    /// units at a time.
    fn letters(self) -> Letters
        ensures { AreLetters (Self.means self) result };
}

/// The bytes that an encoder of UTF-8 writes.
pub trait Utf8Bytes: Mapping {
    /// Every character is written as its UTF-8. No call of it does anything.
    fn laws(self)
        ensures { AreWrittenAsUtf8 (Self.means self) };
}
