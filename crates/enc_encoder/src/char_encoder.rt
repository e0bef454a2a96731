//! Encoders that take one character at a time.

ghost use Rattle.std.specs.Prelude.{◌≡◌, ◌≤◌, length};
ghost use Rattle.enc_encoder.specs.EncoderRule.{RawEncoderState};
ghost use Rattle.enc_encoder.specs.CharLaw.{AreBytesOf, IsEscapeBefore, IsEscapeAtEnd};
ghost use Rattle.enc_encoder.specs.Runs.{WritesRun};

use crate::character_set::CharacterSet;
use enc_input::{Bytes, Chars};

/// An encoder as a value: its rule, and the designated character set.
pub trait CharEncoder: Copy {
    // its rule, and the designated character set
    ghost state: { Self → RawEncoderState };

    /// Writes the bytes of the first characters to a slice, from `from` on.
    ///
    /// They are mappable and in the designated character set. Returns the number of bytes written.
    /// The run need not be maximal: by default it is empty.
    #[inline(always)]
    fn write_run<C: Chars>(self, src: &mut C, dst: &mut [u8], from: usize) -> usize
        requires room { from ≤ length dst.old }
        ensures { WritesRun (state self) (C.rest src.old) (C.rest src.new) dst.old dst.new from
            result }
    {
        let _encoder = self;
        let _source = src;
        let _slice = dst;
        let _from = from;
        0
    }

    /// Returns the bytes of a character, or `None` if it is unmappable.
    ///
    /// A character set that has it must be designated before them.
    fn bytes(self, c: char) -> Option<Bytes>
        ensures { AreBytesOf ((state self).rule.bytes c) result };

    /// Returns the character that an unmappable one is reported as.
    fn reported(self, c: char) -> char
        ensures { result ≡ (state self).rule.reported c };

    /// Returns the encoder after the escape sequence before a mappable character, if one is due.
    fn escape_before(self, c: char) -> Option<Self>
        ensures { IsEscapeBefore state self c result };

    /// Returns the encoder after the escape sequence at the end of the text, if one is due.
    fn escape_at_end(self) -> Option<Self>
        ensures { IsEscapeAtEnd state self result };

    /// Returns the designated character set.
    fn set(self) -> CharacterSet
        ensures { result ≡ (state self).set };
}
