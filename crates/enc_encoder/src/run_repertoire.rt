//! The ways in which encoders of encodings without escape sequences write runs.

ghost use Rattle.std.specs.Prelude.{◌≡◌, ℕ, ◌<◌, ◌≤◌, Some, [], ◌∷◌, length};
ghost use Rattle.std.specs.Char.{encode_utf8};
ghost use Rattle.enc_input.specs.Mappings.{WritesMapped};
ghost use Rattle.enc_encoder.specs.declared.character_set.CharacterSet.TheVariants.{Ascii};
ghost use Rattle.enc_encoder.specs.Runs.{IsWrittenIn};
ghost use Rattle.enc_encoder.specs.Stateless.{stateless_rule};
ghost use Rattle.enc_utf8.specs.Letters.{AreLetters};

use crate::barring::Barring;
use crate::lawful_repertoire::LawfulRepertoire;
use crate::stateless::StatelessEncoder;
use enc_input::{ByCharacter, Chars};
use enc_utf8::Letters;

/// An encoding that names the way in which its encoder writes a run.
pub trait RunRepertoire: LawfulRepertoire {
    /// Writes the bytes of the first characters to a slice, from `from` on: by default character by
    /// character.
    ///
    /// Returns the number of bytes written. The run need not be maximal.
    #[inline(always)]
    fn write_run<C: Chars>(self, src: &mut C, dst: &mut [u8], from: usize) -> usize
        requires room { from ≤ length dst.old }
        ensures { WritesMapped (IsWrittenIn (stateless_rule (Self.bytes_for self)) Ascii)
            (C.rest src.old) (C.rest src.new) dst.old dst.new from result }
    {
        let encoder = StatelessEncoder { repertoire: self };
        src.write_mapped(encoder, ByCharacter, dst, from)
    }
}

/// An encoding of single bytes.
pub trait UnitRepertoire: LawfulRepertoire {
    /// Returns the byte of a character below U+0800, ASCII included, if its bytes are that one
    /// byte, or 0. U+07FF has none.
    fn unit_byte(self, unit: u16) -> u8
        requires bound { unit < 0x800 }
        ensures bytes { 0 < result → Self.bytes_for self unit ≡ Some (result ∷ []) }
        ensures last { unit ≡ 0x7FF → result ≡ 0 };

    /// Returns a long run of letters of the encoding, or none.
    fn letters(self) -> Letters
        ensures { AreLetters (λ bytes c. Self.bytes_for self c ≡ Some bytes) result };
}

/// An encoding that writes every character as its UTF-8.
pub trait Utf8Repertoire: LawfulRepertoire {
    /// It does. No call of it does anything.
    fn is_utf8(self)
        ensures { (c : ℕ) → Self.bytes_for self c ≡ Some (encode_utf8 c) };
}

impl<R: LawfulRepertoire> RunRepertoire for Barring<R> {}
