//! Decoders.

ghost use Rattle.std.specs.Prelude.{◌≡◌, ℕ, ◌+◌, ◌≤◌, false, length, take, drop};
ghost use Rattle.std.specs.Char.{encode_utf8};
ghost use Rattle.std.specs.Char.Escape.{encode_utf16};
ghost use Rattle.std.specs.Str.{IsUtf8};
ghost use Rattle.enc_output.specs.Results.{decoder_result_of};
ghost use Rattle.enc_decoder.specs.declared.error_mode.ErrorMode.TheVariants.{Replacement, Fatal};
ghost use Rattle.enc_decoder.specs.Call.{reaches_end};
ghost use Rattle.enc_decoder.specs.CallRecord.{call_into};
ghost use Rattle.enc_stream.specs.Decoding.{has_finished, LeavesFewerBytes, AnswersDecodeInto};
ghost use Rattle.enc_stream.specs.Decoding.{AnswersDecode, ReportsBytesSoFar};

mod queries;
mod start;
mod strings;

use crate::parts::DecoderParts;
use enc_decoder::{CallOptions, DecoderOutcome, ErrorMode};
use enc_output::{DecoderResult, Units, Utf8Slice, Utf16Slice};
use enc_utf8::CoderResult;
pub(crate) use start::whole_length;
use std::fmt;
use std::marker::Model;

/// Converts bytes into text, in chunks and output buffers of any size (Encoding Standard 4.1, 6).
///
/// Decoding in chunks always produces a prefix of decoding the whole input at once, and all of it
/// at the end. The decoder keeps the bytes that it has read of an incomplete sequence, or of a
/// possible byte order mark, for the next call. A byte order mark that it looks for and finds is no
/// part of the text.
///
/// Calls with replacement write U+FFFD for each malformed sequence. Calls without replacement stop
/// there and report it.
#[derive(Drop)]
pub struct Decoder {
    parts: DecoderParts,
}

impl Model for Decoder {
    ghost use Rattle.enc_stream.specs.Decoding.{DecoderState};
    ghost use Rattle.enc_stream.specs.Parts.{state_of_parts, AreParts};

    ghost Value = { DecoderState };

    ghost view = { λ d. state_of_parts d.parts };

    ghost invariant = { λ d. AreParts d.parts };
}

impl fmt::Debug for Decoder {
    /// Writes the encoding, and whether the decoder is finished.
    fn fmt<W: fmt::Write>(&self, f: &mut fmt::Formatter<W>) -> fmt::Result {
        f.debug_struct("Decoder")
            .field("encoding", &self.parts.encoding)
            .field("finished", &self.is_finished())
            .finish()
    }
}

/// Returns why a call with replacement stopped, which reports nothing.
fn unreported(stop: DecoderResult) -> CoderResult
    requires none_malformed { (l a : ℕ) → stop ≡ DecoderResult.Malformed l a → ⊥ }
    ensures { decoder_result_of result ≡ stop }
{
    match stop {
        DecoderResult::InputEmpty => CoderResult::InputEmpty,
        DecoderResult::OutputFull => CoderResult::OutputFull,
        DecoderResult::Malformed(_, _) => unreachable!(),
    }
}

impl Decoder {
    /// Decodes a chunk, after a byte order mark that is looked for.
    ///
    /// It stops when all input is read, when the next sequence does not fit, and in error mode
    /// "fatal" when one is malformed.
    #[inline(always)]
    fn decode_chunk<U: Units>(
        &mut self,
        src: &[u8],
        out: &mut U,
        last: bool,
        mode: ErrorMode,
    ) -> DecoderOutcome
        requires unfinished { has_finished self.old ≡ false }
        ensures { AnswersDecodeInto U.units_of self.old self.new
            (call_into src.now (record { last = last; mode = mode }) (U.output out.old)
            (U.output out.new) result) }
    {
        self.parts.decode(src, out, CallOptions { last, mode })
    }

    /// Decodes a chunk of input into UTF-8, with replacement.
    ///
    /// That is error mode "replacement" of Encoding Standard 4.1: U+FFFD is written for each
    /// malformed sequence. With `last` nothing follows `src`. Returns why the call stopped, the
    /// number of bytes read from `src`, the number of bytes written to `dst`, and whether a
    /// malformed sequence was replaced.
    ///
    /// - `InputEmpty`: all of `src` is read, and all text that the input determines is written.
    ///   With `last` the decoder is finished.
    /// - `OutputFull`: the next character, or U+FFFD, does not fit. A later call writes it whole.
    ///   That call gets the unread bytes of `src` again.
    ///
    /// Any length of `dst` will do, 0 too; with four bytes each call makes progress: a loop ends by
    /// `progress`, since the number of bytes pending and unread falls. The bytes of `dst` after
    /// those written are unchanged. Condition: the decoder is not finished.
    ///
    /// ```rust
    /// let mut decoder = SHIFT_JIS.new_decoder();
    /// let mut text = [0; 8];
    /// // The chunk ends within a character. Its first byte is read, and kept for the next call.
    /// let outcome = decoder.decode_to_utf8(b"a\x93", &mut text, false);
    /// assert!(rt; outcome == (CoderResult::InputEmpty, 2, 1, false));
    /// let outcome = decoder.decode_to_utf8(b"\xFA", &mut text, true);
    /// assert!(rt; outcome == (CoderResult::InputEmpty, 1, 3, false));
    /// assert!(rt; &text[..3] == "日".as_bytes());
    /// ```
    pub fn decode_to_utf8(
        &mut self,
        src: &[u8],
        dst: &mut [u8],
        last: bool,
    ) -> (CoderResult, usize, usize, bool)
        requires unfinished { has_finished self.old ≡ false }
        ensures call { AnswersDecode encode_utf8 4 self.old self.new (record {
          src = src.now;
          last = last;
          mode = Replacement;
          room = length dst.old;
          result = decoder_result_of result.0;
          read = result.1;
          wrote = take result.2 dst.new;
          replaced = result.3;
        }) }
        ensures read { result.1 ≤ length src.now }
        ensures written { result.2 ≤ length dst.old }
        ensures text { IsUtf8 (take result.2 dst.new) }
        ensures rest { drop result.2 dst.new ≡ drop result.2 dst.old }
        ensures ended { has_finished self.new ≡ reaches_end last (decoder_result_of result.0) }
        ensures pending { length self.new.pending ≤ length self.old.pending + result.1 }
        ensures progress { (result.0 ≡ CoderResult.InputEmpty → ⊥) → 4 ≤ length dst.old →
            LeavesFewerBytes self.old self.new src.now result.1 }
    {
        let mut out = Utf8Slice::new(dst);
        let outcome = self.decode_chunk(src, &mut out, last, ErrorMode::Replacement);
        (
            unreported(outcome.result),
            outcome.read,
            out.len(),
            outcome.replaced,
        )
    }

    /// Decodes a chunk of input into UTF-8, without replacement: up to a malformed sequence.
    ///
    /// That is error mode "fatal" of Encoding Standard 4.1, except that the next call continues
    /// after the sequence. With `last` nothing follows `src`. Returns why the call stopped, the
    /// number of bytes read from `src`, and the number of bytes written to `dst`.
    ///
    /// - `InputEmpty` and `OutputFull`: as for [`Decoder::decode_to_utf8`].
    /// - `Malformed(l, a)`: the malformed sequence is the l bytes before the last a bytes read so
    ///   far, so its offset is the number of bytes read so far less a and l (`within`). It is
    ///   reported whether or not U+FFFD would fit. A caller who puts U+FFFD in its place gets the
    ///   text of calls with replacement.
    ///
    /// Any length of `dst` will do, 0 too; with four bytes each call makes progress: a loop ends by
    /// `progress`, since the number of bytes pending and unread falls. The bytes of `dst` after
    /// those written are unchanged. Condition: the decoder is not finished.
    ///
    /// ```rust
    /// let mut decoder = UTF_8.new_decoder();
    /// let mut text = [0; 8];
    /// let bytes = b"caf\xE9";
    /// let outcome = decoder.decode_to_utf8_without_replacement(bytes, &mut text, true);
    /// // The byte before the place that is read up to is malformed.
    /// assert!(rt; outcome == (DecoderResult::Malformed(1, 0), 4, 3));
    /// let outcome = decoder.decode_to_utf8_without_replacement(b"", &mut text, true);
    /// assert!(rt; outcome == (DecoderResult::InputEmpty, 0, 0));
    /// ```
    pub fn decode_to_utf8_without_replacement(
        &mut self,
        src: &[u8],
        dst: &mut [u8],
        last: bool,
    ) -> (DecoderResult, usize, usize)
        requires unfinished { has_finished self.old ≡ false }
        ensures call { AnswersDecode encode_utf8 4 self.old self.new (record {
          src = src.now;
          last = last;
          mode = Fatal;
          room = length dst.old;
          result = result.0;
          read = result.1;
          wrote = take result.2 dst.new;
          replaced = false;
        }) }
        ensures read { result.1 ≤ length src.now }
        ensures written { result.2 ≤ length dst.old }
        ensures text { IsUtf8 (take result.2 dst.new) }
        ensures rest { drop result.2 dst.new ≡ drop result.2 dst.old }
        ensures ended { has_finished self.new ≡ reaches_end last result.0 }
        ensures pending { length self.new.pending ≤ length self.old.pending + result.1 }
        ensures within { ReportsBytesSoFar self.old result.0 result.1 }
        ensures progress { (result.0 ≡ DecoderResult.InputEmpty → ⊥) → 4 ≤ length dst.old →
            LeavesFewerBytes self.old self.new src.now result.1 }
    {
        let mut out = Utf8Slice::new(dst);
        let outcome = self.decode_chunk(src, &mut out, last, ErrorMode::Fatal);
        (outcome.result, outcome.read, out.len())
    }

    /// Decodes a chunk of input into UTF-16, with replacement.
    ///
    /// The same as [`Decoder::decode_to_utf8`], except that `dst` and the number written are in
    /// code units.
    ///
    /// Any length of `dst` will do, 0 too; with two code units each call makes progress: a loop
    /// ends by `progress`, since the number of bytes pending and unread falls. The code units of
    /// `dst` after those written are unchanged. Condition: the decoder is not finished.
    ///
    /// ```rust
    /// let mut decoder = BIG5.new_decoder();
    /// let mut units = [0; 8];
    /// let outcome = decoder.decode_to_utf16(b"\xA4\xA4\xA4\xE5", &mut units, true);
    /// assert!(rt; outcome == (CoderResult::InputEmpty, 4, 2, false));
    /// assert!(rt; units[..2] == [0x4E2D, 0x6587]);
    /// ```
    pub fn decode_to_utf16(
        &mut self,
        src: &[u8],
        dst: &mut [u16],
        last: bool,
    ) -> (CoderResult, usize, usize, bool)
        requires unfinished { has_finished self.old ≡ false }
        ensures call { AnswersDecode encode_utf16 2 self.old self.new (record {
          src = src.now;
          last = last;
          mode = Replacement;
          room = length dst.old;
          result = decoder_result_of result.0;
          read = result.1;
          wrote = take result.2 dst.new;
          replaced = result.3;
        }) }
        ensures read { result.1 ≤ length src.now }
        ensures written { result.2 ≤ length dst.old }
        ensures rest { drop result.2 dst.new ≡ drop result.2 dst.old }
        ensures ended { has_finished self.new ≡ reaches_end last (decoder_result_of result.0) }
        ensures pending { length self.new.pending ≤ length self.old.pending + result.1 }
        ensures progress { (result.0 ≡ CoderResult.InputEmpty → ⊥) → 2 ≤ length dst.old →
            LeavesFewerBytes self.old self.new src.now result.1 }
    {
        let mut units = Utf16Slice::new(dst);
        let outcome = self.decode_chunk(src, &mut units, last, ErrorMode::Replacement);
        (
            unreported(outcome.result),
            outcome.read,
            units.len(),
            outcome.replaced,
        )
    }

    /// Decodes a chunk of input into UTF-16, without replacement.
    ///
    /// The same as [`Decoder::decode_to_utf8_without_replacement`], except that `dst` and the
    /// number written are in code units.
    ///
    /// Any length of `dst` will do, 0 too; with two code units each call makes progress: a loop
    /// ends by `progress`, since the number of bytes pending and unread falls. The code units of
    /// `dst` after those written are unchanged. Condition: the decoder is not finished.
    pub fn decode_to_utf16_without_replacement(
        &mut self,
        src: &[u8],
        dst: &mut [u16],
        last: bool,
    ) -> (DecoderResult, usize, usize)
        requires unfinished { has_finished self.old ≡ false }
        ensures call { AnswersDecode encode_utf16 2 self.old self.new (record {
          src = src.now;
          last = last;
          mode = Fatal;
          room = length dst.old;
          result = result.0;
          read = result.1;
          wrote = take result.2 dst.new;
          replaced = false;
        }) }
        ensures read { result.1 ≤ length src.now }
        ensures written { result.2 ≤ length dst.old }
        ensures rest { drop result.2 dst.new ≡ drop result.2 dst.old }
        ensures ended { has_finished self.new ≡ reaches_end last result.0 }
        ensures pending { length self.new.pending ≤ length self.old.pending + result.1 }
        ensures within { ReportsBytesSoFar self.old result.0 result.1 }
        ensures progress { (result.0 ≡ DecoderResult.InputEmpty → ⊥) → 2 ≤ length dst.old →
            LeavesFewerBytes self.old self.new src.now result.1 }
    {
        let mut units = Utf16Slice::new(dst);
        let outcome = self.decode_chunk(src, &mut units, last, ErrorMode::Fatal);
        (outcome.result, outcome.read, units.len())
    }
}
