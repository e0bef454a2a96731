//! Decoding into strings: over the text of a str, and at the end of a String.

ghost use Rattle.std.specs.Prelude.{◌≡◌, ◌+◌, ◌-◌, ◌≤◌, true, false, length, take, drop};
ghost use Rattle.std.specs.Char.{encode_utf8};
ghost use Rattle.std.specs.String.{string_bytes, string_len, string_capacity};
ghost use Rattle.std.specs.Str.{IsUtf8};
ghost use Rattle.enc_utf8.specs.Validity.{IsWellFormedUtf8};
ghost use Rattle.enc_output.specs.Rest.{without_continuations};
ghost use Rattle.enc_output.specs.Results.{decoder_result_of};
ghost use Rattle.enc_decoder.specs.declared.error_mode.ErrorMode.TheVariants.{Replacement, Fatal};
ghost use Rattle.enc_decoder.specs.Call.{reaches_end};
ghost use Rattle.enc_stream.specs.Decoding.{fresh_decoder, has_finished, LeavesFewerBytes};
ghost use Rattle.enc_stream.specs.Decoding.{whole_utf_8, whole_malformed};
ghost use Rattle.enc_stream.specs.Decoding.{AnswersDecode, ReportsBytesSoFar};
ghost use Rattle.enc_stream.specs.LifeCycle.{start_life};
ghost use Rattle.enc_stream.specs.Sniffing.{IsSniffed};

use super::{Decoder, unreported};
use crate::bom::BomHandling;
use crate::encoding::Encoding;
use crate::parts::DecoderParts;
use crate::sniffing::Sniffed;
use enc_decoder::{CallOptions, ErrorMode};
use enc_output::{DecoderResult, StringTail, Utf8Slice, clear_rest};
use enc_utf8::CoderResult;

impl Decoder {
    /// Decodes a chunk of input over the text in `dst`, with replacement.
    ///
    /// The same as [`Decoder::decode_to_utf8`], except that all of `dst` is well-formed UTF-8
    /// afterwards. The text written may end within a character of the old text. Then the rest of
    /// that character (bytes 0x80 to 0xBF) becomes 00. All later bytes of `dst` are unchanged.
    ///
    /// With four bytes of `dst` a loop ends by `progress`, since the number of bytes pending and
    /// unread falls. Conditions: the decoder is not finished, and `dst` is well-formed UTF-8.
    pub fn decode_to_str(
        &mut self,
        src: &[u8],
        dst: &mut [u8],
        last: bool,
    ) -> (CoderResult, usize, usize, bool)
        requires unfinished { has_finished self.old ≡ false }
        requires utf8 { IsWellFormedUtf8 dst.old }
        ensures call { AnswersDecode encode_utf8 4 self.old self.new (record {
          src = src.now;
          last = last;
          mode = Replacement;
          room = length dst.old;
          result = decoder_result_of result.0;
          read = result.1;
          wrote = take result.2 dst.new;
          replaced = result.3;
        }) }
        ensures read { result.1 ≤ length src.now }
        ensures written { result.2 ≤ length dst.old }
        ensures text { IsUtf8 (take result.2 dst.new) }
        ensures rest { drop result.2 dst.new ≡ without_continuations (drop result.2 dst.old) }
        ensures utf8 { IsWellFormedUtf8 dst.new }
        ensures ended { has_finished self.new ≡ reaches_end last (decoder_result_of result.0) }
        ensures pending { length self.new.pending ≤ length self.old.pending + result.1 }
        ensures progress { (result.0 ≡ CoderResult.InputEmpty → ⊥) → 4 ≤ length dst.old →
            LeavesFewerBytes self.old self.new src.now result.1 }
    {
        let (result, read, written, replaced) = self.decode_to_utf8(src, dst, last);
        clear_rest(dst, written);
        (result, read, written, replaced)
    }

    /// Decodes a chunk of input over the text in `dst`, without replacement.
    ///
    /// The same as [`Decoder::decode_to_utf8_without_replacement`], except that all of `dst` is
    /// well-formed UTF-8 afterwards, as with [`Decoder::decode_to_str`].
    ///
    /// With four bytes of `dst` a loop ends by `progress`, since the number of bytes pending and
    /// unread falls. Conditions: the decoder is not finished, and `dst` is well-formed UTF-8.
    pub fn decode_to_str_without_replacement(
        &mut self,
        src: &[u8],
        dst: &mut [u8],
        last: bool,
    ) -> (DecoderResult, usize, usize)
        requires unfinished { has_finished self.old ≡ false }
        requires utf8 { IsWellFormedUtf8 dst.old }
        ensures call { AnswersDecode encode_utf8 4 self.old self.new (record {
          src = src.now;
          last = last;
          mode = Fatal;
          room = length dst.old;
          result = result.0;
          read = result.1;
          wrote = take result.2 dst.new;
          replaced = false;
        }) }
        ensures read { result.1 ≤ length src.now }
        ensures written { result.2 ≤ length dst.old }
        ensures text { IsUtf8 (take result.2 dst.new) }
        ensures rest { drop result.2 dst.new ≡ without_continuations (drop result.2 dst.old) }
        ensures utf8 { IsWellFormedUtf8 dst.new }
        ensures ended { has_finished self.new ≡ reaches_end last result.0 }
        ensures pending { length self.new.pending ≤ length self.old.pending + result.1 }
        ensures within { ReportsBytesSoFar self.old result.0 result.1 }
        ensures progress { (result.0 ≡ DecoderResult.InputEmpty → ⊥) → 4 ≤ length dst.old →
            LeavesFewerBytes self.old self.new src.now result.1 }
    {
        let (result, read, len) = self.decode_to_utf8_without_replacement(src, dst, last);
        clear_rest(dst, len);
        (result, read, len)
    }

    /// Decodes a chunk of input and appends its text to a String, with replacement.
    ///
    /// The same as [`Decoder::decode_to_utf8`] into a slice as long as the String's spare capacity,
    /// which may be 0. Returns why the call stopped, the number of bytes read from `src`, and
    /// whether a malformed sequence was replaced.
    ///
    /// Appends within the capacity, which does not shrink: takes no memory. With four bytes of
    /// spare capacity a loop ends by `progress`, since the number of bytes pending and unread
    /// falls. Condition: the decoder is not finished.
    ///
    /// ```rust
    /// let mut decoder = EUC_KR.new_decoder();
    /// let mut text = String::with_capacity(rt.alloc(), 8)?;
    /// let outcome = decoder.decode_to_string(b"\xC7\xD1\xB1\xDB", &mut text, true);
    /// assert!(rt; outcome == (CoderResult::InputEmpty, 4, false));
    /// assert!(rt; text.as_str() == "한글");
    /// ```
    pub fn decode_to_string(
        &mut self,
        src: &[u8],
        dst: &mut String,
        last: bool,
    ) -> (CoderResult, usize, bool)
        requires unfinished { has_finished self.old ≡ false }
        ensures call { AnswersDecode encode_utf8 4 self.old self.new (record {
          src = src.now;
          last = last;
          mode = Replacement;
          room = string_capacity dst.old - string_len dst.old;
          result = decoder_result_of result.0;
          read = result.1;
          wrote = drop (length (string_bytes dst.old)) (string_bytes dst.new);
          replaced = result.2;
        }) }
        ensures read { result.1 ≤ length src.now }
        ensures appended { take (length (string_bytes dst.old)) (string_bytes dst.new)
            ≡ string_bytes dst.old }
        ensures capacity { string_capacity dst.old ≤ string_capacity dst.new }
        ensures ended { has_finished self.new ≡ reaches_end last (decoder_result_of result.0) }
        ensures pending { length self.new.pending ≤ length self.old.pending + result.1 }
        ensures progress { (result.0 ≡ CoderResult.InputEmpty → ⊥) →
            4 ≤ string_capacity dst.old - string_len dst.old →
            LeavesFewerBytes self.old self.new src.now result.1 }
    {
        let mut tail = StringTail::new(dst);
        let outcome = self.decode_chunk(src, &mut tail, last, ErrorMode::Replacement);
        (unreported(outcome.result), outcome.read, outcome.replaced)
    }

    /// Decodes a whole input by one call into UTF-8, with replacement.
    ///
    /// The start of the input has been searched for a byte order mark. Returns why the call of a
    /// new decoder stops, the number of bytes written to `dst`, and whether a malformed sequence
    /// was replaced.
    #[inline(always)]
    pub(crate) fn whole_to_utf8(
        encoding: Encoding,
        handling: BomHandling,
        sniffed: (Sniffed, usize),
        src: &[u8],
        dst: &mut [u8],
    ) -> (CoderResult, usize, bool)
        requires within { sniffed.1 ≤ length src.now }
        requires sniffed { IsSniffed (start_life handling encoding.id) src.now true sniffed.0
            sniffed.1 }
        ensures written { result.1 ≤ length dst.old }
        ensures utf8 { IsUtf8 (take result.1 dst.new) }
        ensures text { result.0 ≡ CoderResult.InputEmpty
            → take result.1 dst.new ≡ whole_utf_8 handling encoding src.now }
        ensures flag { result.0 ≡ CoderResult.InputEmpty
            → result.2 ≡ whole_malformed handling encoding src.now }
    {
        let mut parts = DecoderParts::start(encoding, handling);
        let mut out = Utf8Slice::new(dst);
        let options = CallOptions {
            last: true,
            mode: ErrorMode::Replacement,
        };
        let outcome = parts.decode_sniffed(sniffed, src, &mut out, options);
        (unreported(outcome.result), out.len(), outcome.replaced)
    }

    /// Decodes a whole input by one call, and appends its text to a String, with replacement.
    ///
    /// The start of the input has been searched for a byte order mark. Returns the decoder after
    /// the call, and what [`Decoder::decode_to_string`] of a new decoder returns.
    pub(crate) fn whole_to_string(
        encoding: Encoding,
        handling: BomHandling,
        sniffed: (Sniffed, usize),
        src: &[u8],
        dst: &mut String,
    ) -> (Decoder, CoderResult, usize, bool)
        requires within { sniffed.1 ≤ length src.now }
        requires sniffed { IsSniffed (start_life handling encoding.id) src.now true sniffed.0
            sniffed.1 }
        ensures call { AnswersDecode encode_utf8 4 (fresh_decoder handling encoding) result.0
            (record {
              src = src.now;
              last = true;
              mode = Replacement;
              room = string_capacity dst.old - string_len dst.old;
              result = decoder_result_of result.1;
              read = result.2;
              wrote = drop (length (string_bytes dst.old)) (string_bytes dst.new);
              replaced = result.3;
            }) }
        ensures read { result.2 ≤ length src.now }
        ensures appended { take (length (string_bytes dst.old)) (string_bytes dst.new)
            ≡ string_bytes dst.old }
    {
        let mut parts = DecoderParts::start(encoding, handling);
        let mut tail = StringTail::new(dst);
        let options = CallOptions {
            last: true,
            mode: ErrorMode::Replacement,
        };
        let outcome = parts.decode_sniffed(sniffed, src, &mut tail, options);
        (
            Decoder { parts },
            unreported(outcome.result),
            outcome.read,
            outcome.replaced,
        )
    }

    /// Decodes a chunk of input and appends its text to a String, without replacement.
    ///
    /// The same as [`Decoder::decode_to_utf8_without_replacement`] into a slice as long as the
    /// String's spare capacity, which may be 0. Returns why the call stopped, and the number of
    /// bytes read from `src`.
    ///
    /// Appends within the capacity, which does not shrink: takes no memory. With four bytes of
    /// spare capacity a loop ends by `progress`, since the number of bytes pending and unread
    /// falls. Condition: the decoder is not finished.
    pub fn decode_to_string_without_replacement(
        &mut self,
        src: &[u8],
        dst: &mut String,
        last: bool,
    ) -> (DecoderResult, usize)
        requires unfinished { has_finished self.old ≡ false }
        ensures call { AnswersDecode encode_utf8 4 self.old self.new (record {
          src = src.now;
          last = last;
          mode = Fatal;
          room = string_capacity dst.old - string_len dst.old;
          result = result.0;
          read = result.1;
          wrote = drop (length (string_bytes dst.old)) (string_bytes dst.new);
          replaced = false;
        }) }
        ensures read { result.1 ≤ length src.now }
        ensures appended { take (length (string_bytes dst.old)) (string_bytes dst.new)
            ≡ string_bytes dst.old }
        ensures capacity { string_capacity dst.old ≤ string_capacity dst.new }
        ensures ended { has_finished self.new ≡ reaches_end last result.0 }
        ensures pending { length self.new.pending ≤ length self.old.pending + result.1 }
        ensures within { ReportsBytesSoFar self.old result.0 result.1 }
        ensures progress { (result.0 ≡ DecoderResult.InputEmpty → ⊥) →
            4 ≤ string_capacity dst.old - string_len dst.old →
            LeavesFewerBytes self.old self.new src.now result.1 }
    {
        let mut tail = StringTail::new(dst);
        let outcome = self.decode_chunk(src, &mut tail, last, ErrorMode::Fatal);
        (outcome.result, outcome.read)
    }
}
