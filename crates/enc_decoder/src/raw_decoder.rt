//! The contract of every decoder.

ghost use Rattle.std.specs.Prelude.{◌≡◌, ◌≤◌, length};
ghost use Rattle.enc_decoder.specs.CodecState.{CodecState};
ghost use Rattle.enc_decoder.specs.Call.{IsCodecCall};
ghost use Rattle.enc_decoder.specs.CallRecord.{call_into};
ghost use Rattle.enc_decoder.specs.Latin1.{AnswersCodecLatin1};
ghost use Rattle.enc_decoder.specs.RuleLaws.{IsLawfulRule};
ghost use Rattle.enc_decoder.specs.Need.{AreEnoughForCodec};
ghost use Rattle.enc_decoder.specs.Lengths.{utf_8_length, reporting_length, utf_16_length};
ghost use Rattle.enc_decoder.specs.declared.text_lengths.TextLengths.{TextLengths};

use crate::error_mode::CallOptions;
use crate::outcome::DecoderOutcome;
use crate::text_lengths::TextLengths;
use enc_output::Units;

/// A decoder of one encoding, which looks for no byte order mark (Encoding Standard 4.1).
///
/// Its value is a state between two calls: its rule, which segments bytes, the designated character
/// set, and the pending bytes (read, and their sequence not yet put out).
pub trait RawDecoder: Copy {
    // its rule, the designated character set, and the pending bytes
    ghost state: { Self → CodecState };

    // the formulas for lengths to allocate
    ghost formulas: { Self → TextLengths };

    /// Decodes a chunk (Encoding Standard 4.1, "process a queue").
    ///
    /// It stops when all of `src` is read, when the next sequence does not fit into `out`, and in
    /// error mode "fatal" when one is malformed.
    fn decode<U: Units>(&mut self, src: &[u8], out: &mut U, options: CallOptions) -> DecoderOutcome
        ensures call { IsCodecCall U.units_of (state self.old) (state self.new)
            (call_into src.now options (U.output out.old) (U.output out.new) result) }
        ensures formulas { formulas self.new ≡ formulas self.old }

        // A valid sequence is determined by its own bytes, and any other by three more at most, or
        // by the end. A text has at most four UTF-8 code units.
        ensures lawful { IsLawfulRule (state self.old).rule };

    /// Returns the number of pending bytes, at most five.
    fn held(&self) -> usize
        ensures count { result ≡ length (state self.now).pending }
        ensures few { result ≤ 5 };

    /// Returns the length of a prefix of `bytes` that is Latin-1, if they are the next input.
    ///
    /// In such a prefix each byte is a valid sequence by itself, of the character with its number.
    /// `None` if that holds of no byte: bytes are pending, another character set than that of the
    /// start is designated, or no byte of the encoding is a character by itself.
    fn latin1_byte_compatible_up_to(&self, bytes: &[u8]) -> Option<usize>
        ensures { AnswersCodecLatin1 (state self.now) bytes.now result };

    /// Returns the formulas for the lengths to allocate, which are enough for every input.
    fn text_lengths(&self) -> TextLengths
        ensures formulas { result ≡ formulas self.now }
        ensures enough { AreEnoughForCodec (formulas self.now) (state self.now) };

    /// Returns the length in bytes to allocate for UTF-8 from `byte_length` more bytes.
    ///
    /// It is enough with replacement. `None` if it overflows `usize`.
    fn max_utf8_buffer_length(&self, byte_length: usize) -> Option<usize>
        ensures { result ≡
            utf_8_length (formulas self.now) byte_length (length (state self.now).pending) }
    {
        self.text_lengths().utf8(byte_length, self.held())
    }

    /// Returns the same without replacement.
    fn max_utf8_buffer_length_without_replacement(&self, byte_length: usize) -> Option<usize>
        ensures { result ≡
            reporting_length (formulas self.now) byte_length (length (state self.now).pending) }
    {
        self.text_lengths()
            .utf8_without_replacement(byte_length, self.held())
    }

    /// Returns the length in code units to allocate for UTF-16 from `byte_length` more bytes.
    fn max_utf16_buffer_length(&self, byte_length: usize) -> Option<usize>
        ensures { result ≡
            utf_16_length (formulas self.now) byte_length (length (state self.now).pending) }
    {
        self.text_lengths().utf16(byte_length, self.held())
    }
}
