//! The contract of every encoder.

ghost use Rattle.std.specs.Prelude.{◌≡◌, false};
ghost use Rattle.enc_encoder.specs.EncoderRule.{RawEncoderState, IsLawfulEncoderRule};
ghost use Rattle.enc_encoder.specs.EncoderRule.{is_escape_due};
ghost use Rattle.enc_encoder.specs.Call.{EncoderCallInto};
ghost use Rattle.enc_encoder.specs.Begun.{HasBegun, EndsCall};
ghost use Rattle.enc_encoder.specs.Runs.{WritesRun};
ghost use Rattle.enc_encoder.specs.Writes.{place};
ghost use Rattle.enc_encoder.specs.Need.{AreEnoughForEncoder};
ghost use Rattle.enc_encoder.specs.Lengths.{from_utf_8_length, from_utf_16_length};
ghost use Rattle.enc_encoder.specs.declared.byte_lengths.ByteLengths.{ByteLengths};

use crate::begun::Begun;
use crate::byte_lengths::ByteLengths;
use crate::outcome::EncoderOutcome;
use enc_input::Chars;

/// An encoder of one encoding (Encoding Standard 4.1).
///
/// Its value is a state between two calls: its rule, which gives the bytes of characters, and the
/// designated character set. After the end of a text it is at the start of another.
pub trait RawEncoder {
    // its rule, and the designated character set
    ghost state: { Self → RawEncoderState };

    // the formulas for lengths to allocate
    ghost formulas: { Self → ByteLengths };

    /// Writes the bytes of the first characters to a slice, and returns their number.
    ///
    /// The characters are mappable and in the designated character set. The run need not be
    /// maximal: it may be empty.
    fn write_first<C: Chars>(&self, src: &mut C, dst: &mut [u8]) -> usize
        ensures run { WritesRun (state self.now) (C.rest src.old) (C.rest src.new) dst.old dst.new
            0 result }
        ensures lawful { IsLawfulEncoderRule (state self.now).rule };

    /// Goes on with a call of `encode`, which has written some bytes of `dst`.
    ///
    /// Returns the outcome of the whole call.
    fn encode_on<C: Chars>(&mut self, src: &mut C, dst: &mut [u8], begun: Begun) -> EncoderOutcome
        requires begun { HasBegun C.units_of begun (state self.old) (C.rest src.old) dst.old }
        ensures call { EndsCall C.units_of begun (state self.old) (C.rest src.old) dst.old
            (place (state self.new) (C.rest src.new) dst.new result.written)
            result.result result.read }
        ensures replaced { result.replaced ≡ false }
        ensures lawful { IsLawfulEncoderRule (state self.old).rule }
        ensures formulas { formulas self.new ≡ formulas self.old };

    /// Encodes a chunk, without replacement (Encoding Standard 4.1, error mode "fatal").
    ///
    /// It stops when all characters are read, the bytes that come next do not fit into `dst`, or a
    /// character is unmappable. With `last` nothing follows `src`, and the text is ended.
    ///
    /// The bytes of a character are written together; an escape sequence before it may be written
    /// alone. The bytes of `dst` after those written are unchanged.
    fn encode<C: Chars>(&mut self, src: &mut C, dst: &mut [u8], last: bool) -> EncoderOutcome
        ensures call { EncoderCallInto C.units_of last
            (place (state self.old) (C.rest src.old) dst.old 0)
            (place (state self.new) (C.rest src.new) dst.new result.written)
            result.result result.read }
        ensures replaced { result.replaced ≡ false }
        ensures lawful { IsLawfulEncoderRule (state self.old).rule }
        ensures formulas { formulas self.new ≡ formulas self.old }
    {
        let given = src.unread();
        let written = self.write_first(src, dst);
        let begun = Begun {
            last,
            given,
            written,
        };
        self.encode_on(src, dst, begun)
    }

    /// Returns whether an escape sequence is due at the end of the text.
    ///
    /// That is so while a character set other than ASCII is designated.
    fn has_pending_state(&self) -> bool
        ensures { result ≡ is_escape_due (state self.now).set };

    /// Returns the formulas for the lengths to allocate, which are enough from any state on.
    fn byte_lengths(&self) -> ByteLengths
        ensures formulas { result ≡ formulas self.now }
        ensures enough { AreEnoughForEncoder (formulas self.now) (state self.now) };

    /// Returns the length in bytes to allocate for `byte_length` more bytes of UTF-8.
    ///
    /// It is enough without replacement. `None` if it overflows `usize`.
    fn max_buffer_length_from_utf8_without_replacement(&self, byte_length: usize) -> Option<usize>
        ensures { result ≡ from_utf_8_length (formulas self.now) byte_length }
    {
        self.byte_lengths().from_utf8(byte_length)
    }

    /// Returns the same for `u16_length` code units of UTF-16.
    fn max_buffer_length_from_utf16_without_replacement(&self, u16_length: usize) -> Option<usize>
        ensures { result ≡ from_utf_16_length (formulas self.now) u16_length }
    {
        self.byte_lengths().from_utf16(u16_length)
    }
}
