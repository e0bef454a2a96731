//! What a decoder says of itself, and the lengths to allocate for its next calls.

ghost use Rattle.std.specs.Prelude.{◌≡◌, false, IfSome};
ghost use Rattle.std.specs.Char.{encode_utf8};
ghost use Rattle.std.specs.Char.Escape.{encode_utf16};
ghost use Rattle.enc_decoder.specs.declared.error_mode.ErrorMode.{ErrorMode};
ghost use Rattle.enc_decoder.specs.declared.error_mode.ErrorMode.TheVariants.{Replacement, Fatal};
ghost use Rattle.enc_stream.specs.declared.lengths.Query.TheVariants as query;
ghost use Rattle.enc_stream.specs.Latin1.{AnswersDecoderLatin1};
ghost use Rattle.enc_stream.specs.Lengths.{max_length, IsForMode, query_units, IsEnoughRoom};
ghost use Rattle.enc_stream.specs.Decoding.{has_finished};

use super::Decoder;
use crate::encoding::Encoding;
use crate::lengths::Query;
use crate::life_cycle::LifeCycle;
use enc_codec::RawDecoder;

impl Decoder {
    /// Returns the encoding that it decodes. A sniffed byte order mark changes it.
    pub fn encoding(&self) -> Encoding
        ensures { result ≡ self.now.encoding }
    {
        self.parts.encoding
    }

    /// Returns whether a call with `last` has returned `InputEmpty`.
    ///
    /// No call may follow then.
    pub fn is_finished(&self) -> bool
        ensures { result ≡ has_finished self.now }
    {
        match self.parts.life {
            LifeCycle::Finished => true,
            _ => false,
        }
    }

    /// Returns the length to allocate for calls of the kind `query`.
    fn max_length(&self, query: Query, byte_length: usize) -> Option<usize>
        ensures length { result ≡ max_length query self.now byte_length }
        ensures enough { IfSome result (λ room. (mode : ErrorMode) → IsForMode query mode
            → IsEnoughRoom (query_units query) mode self.now byte_length room) }
    {
        let formulas = self.parts.codec.text_lengths();
        query.max_length(
            self.parts.life,
            formulas,
            byte_length,
            self.parts.codec.held(),
        )
    }

    /// Returns the length in bytes to allocate for UTF-8, with replacement.
    ///
    /// It is enough for `byte_length` more bytes, in [`Decoder::decode_to_utf8`] and the calls to a
    /// str and to a String. `None` if a step of the formula overflows `usize`. The decoder is
    /// unchanged. Condition: it is not finished.
    ///
    /// ```rust
    /// // Each of ten bytes may be U+FFFD, which is three bytes.
    /// let decoder = WINDOWS_1252.new_decoder_without_bom_handling();
    /// assert!(rt; decoder.max_utf8_buffer_length(10) == Some(30));
    /// assert!(rt; decoder.max_utf16_buffer_length(10) == Some(10));
    /// ```
    pub fn max_utf8_buffer_length(&self, byte_length: usize) -> Option<usize>
        requires unfinished { has_finished self.now ≡ false }
        ensures length { result ≡ max_length query.Utf8 self.now byte_length }
        ensures enough { IfSome result (IsEnoughRoom encode_utf8 Replacement self.now byte_length) }
    {
        self.max_length(Query::Utf8, byte_length)
    }

    /// Returns the length in bytes to allocate for UTF-8, without replacement.
    ///
    /// It is enough for `byte_length` more bytes, up to a malformed sequence. The same as
    /// [`Decoder::max_utf8_buffer_length`] otherwise.
    pub fn max_utf8_buffer_length_without_replacement(&self, byte_length: usize) -> Option<usize>
        requires unfinished { has_finished self.now ≡ false }
        ensures length { result ≡ max_length query.Utf8Reporting self.now byte_length }
        ensures enough { IfSome result
            (IsEnoughRoom encode_utf8 Fatal self.now byte_length) }
    {
        self.max_length(Query::Utf8Reporting, byte_length)
    }

    /// Returns the length in code units to allocate for UTF-16, with replacement or without.
    ///
    /// It is enough for `byte_length` more bytes. `None` if a step of the formula overflows
    /// `usize`. The decoder is unchanged. Condition: it is not finished.
    pub fn max_utf16_buffer_length(&self, byte_length: usize) -> Option<usize>
        requires unfinished { has_finished self.now ≡ false }
        ensures length { result ≡ max_length query.Utf16 self.now byte_length }
        ensures enough { IfSome result (λ room. (mode : ErrorMode) →
            IsEnoughRoom encode_utf16 mode self.now byte_length room) }
    {
        self.max_length(Query::Utf16, byte_length)
    }

    /// Returns the length of a prefix of `bytes` that is Latin-1, if they are the next input.
    ///
    /// In such a prefix each byte is a valid sequence by itself, of the character with the same
    /// number. In Shift_JIS the byte 0x80 counts, which is U+0080. The decoder is unchanged.
    ///
    /// It is `None` if that holds of no byte:
    ///
    /// - while a byte order mark may still come, while bytes are pending, and after the end;
    /// - in ISO-2022-JP while a character set other than ASCII is designated;
    /// - always in UTF-16LE, UTF-16BE and replacement.
    ///
    /// ```rust
    /// let decoder = WINDOWS_1252.new_decoder_without_bom_handling();
    /// // E9 is U+00E9, and 80 is U+20AC.
    /// assert!(rt; decoder.latin1_byte_compatible_up_to(b"caf\xE9 \x80") == Some(5));
    /// ```
    pub fn latin1_byte_compatible_up_to(&self, bytes: &[u8]) -> Option<usize>
        ensures { AnswersDecoderLatin1 self.now bytes.now result }
    {
        match self.parts.life {
            LifeCycle::Converting => self.parts.codec.latin1_byte_compatible_up_to(bytes),
            _ => None,
        }
    }
}
