//! The writer of text.

ghost use Rattle.std.specs.Prelude.{◌≡◌, ◌↔◌, ◌+◌, ◌<◌, ◌≤◌, length, drop, [], true, false, ◌++◌, chars};
ghost use Rattle.std.specs.Prelude.{◌≢◌, IfOk, OnOk, OnErr, OnSome, IsErrOf, IfErr, IfSome, IfNone, Some};
ghost use Rattle.std.specs.IoError.{error_kind};
ghost use Rattle.std.specs.Io.KnownBytes.{Keeps};
ghost use Rattle.std.specs.Str.{IsCharBoundary};
ghost use Rattle.std.specs.Char.Utf16.{utf16_lossy_chars};

mod policies;

use crate::encoding_calls::{encode_mappable_after, encode_utf8_after, encode_utf16_after};
use crate::fault::{UnmappableStop, WriteFault};
use crate::pushing::push_both;
use crate::sink::Sink;
use crate::unencoded::unencoded_len;
use crate::write_error::WriteError;
use enc_stream::{CoderResult, Encoder, EncoderResult, Encoding};
use std::io::ErrorKind;
use std::{fmt, io};

/// The least room for a call of the encoder: four bytes, and ten that it keeps free for references.
const LEAST_ROOM: usize = 14;

/// Writes text to a sink of bytes in an encoding, a text at a time (Encoding Standard 6, "encode").
///
/// Each unmappable character becomes a decimal reference. The texts of all writes are one text: no
/// escape sequence stands between two of them that would not stand there in one write.
///
/// It borrows the sink and the buffer in which it collects bytes, and takes no memory. A drop
/// pushes and flushes nothing: without [`EncodeWriter::finish`] it loses the bytes held and the
/// last escape sequence, and reports no error.
///
/// A fault of the sink ends the writer for good, also one of kind `WouldBlock` or `TimedOut`: each
/// later call returns `Failed`, and the bytes held are not pushed again. `Interrupted` is no fault.
/// A [`WriteFault`] does not name the cause, and [`EncodeWriter::error`] does.
#[derive(Drop)]
pub struct EncodeWriter<'a, W: Sink> {
    writer: &'a mut W,
    encoder: Encoder,
    output: &'a mut [u8],
    // the number of bytes at the start of `output` that are held
    filled: usize,
    failed: bool,
    had_unmappables: bool,
    ghost none_barred: { encoder.barred ≡ [] },
    ghost within: { filled ≤ length output.now },
    ghost room: { 14 ≤ length output.now },
    ghost going: { W.has_failed writer.now ≡ failed },
}

impl<'a, W: Sink> EncodeWriter<'a, W> {
    ghost use Rattle.std.specs.Prelude.{ℕ, List};
    ghost use Rattle.enc_encoder.specs.declared.character_set.CharacterSet.TheVariants.{Ascii};
    ghost use Rattle.enc_encoder.specs.Unmappable.{any_unmappable};
    ghost use Rattle.enc_stream.specs.Encodings.{output_rule};
    ghost use Rattle.enc_stream.specs.Encoder.{raw_state, whole_bytes, LeavesFewerSteps};
    ghost use Rattle.enc_writer.specs.Sink.{AppendsContents, AppendsPrefix};
    ghost use Rattle.enc_writer.specs.Writing.{WritesText, EndsText, HasEncoded};
    ghost use Rattle.enc_writer.specs.Writing.{PushesBytes, StopsWithin};
    ghost use Rattle.enc_writer.specs.Stopping.{HasStopped, StopsText};
    ghost use Rattle.enc_writer.specs.Writing.{ended_writer, flag_after, fresh_writer, owed_bytes};
    ghost use Rattle.enc_writer.specs.Writing.{FitsInBuffer};
    ghost use Rattle.enc_writer.specs.EncodedText.{bytes_from_state};
    ghost use Rattle.enc_writer.specs.Reporting.{ReportsText};
    ghost use Rattle.enc_writer.specs.ReportedSteps.{ReportsSteps};
    ghost use Rattle.enc_writer.specs.Policies.{EndsWith, WritesWith};
    ghost use Rattle.enc_writer.specs.Writer.{writer_of};

    /// Returns a writer to `writer`, in the output encoding of `encoding`, through the buffer
    /// `output`.
    ///
    /// The output encoding is UTF-8 for UTF-16BE, UTF-16LE and replacement, and otherwise
    /// `encoding`. Nothing is written yet. If the sink has failed, so has the writer. Condition:
    /// `output` has at least 14 bytes.
    pub fn new(writer: &'a mut W, encoding: Encoding, output: &'a mut [u8]) -> EncodeWriter<'a, W>
        requires room { 14 ≤ length output.old }
        ensures fresh { writer_of result ≡ fresh_writer encoding }
        ensures owed { (text : List ℕ) → owed_bytes (writer_of result) text
            ≡ whole_bytes [] encoding text }
        ensures flag { (text : List ℕ) → flag_after (writer_of result) text
            ≡ any_unmappable (output_rule [] encoding) text }
        ensures failed { result.failed ≡ W.has_failed writer.old }
        ensures writer { result.writer.now ≡ writer.old }
        ensures same_writer { result.writer.ghost_name ≡ writer.entry.ghost_name }
    {
        let failed = writer.failed();
        EncodeWriter {
            writer,
            encoder: encoding.new_encoder(),
            output,
            filled: 0,
            failed,
            had_unmappables: false,
        }
    }

    /// Pushes the bytes held, and then these. After an `Err`, which is `Writer`, the sink has
    /// failed.
    fn push(&mut self, bytes: &[u8]) -> Result<(), WriteFault>
        requires going { self.old.failed ≡ false }
        ensures ok { OnOk result (PushesBytes (W.contents self.old.writer.now)
            (W.contents self.new.writer.now) (writer_of self.old) (writer_of self.new) bytes.now) }
        ensures none_held { OnOk result (writer_of self.new
            ≡ record (writer_of self.old) { held = [] }) }
        ensures kept { OnOk result (W.has_failed self.new.writer.now
            ≡ W.has_failed self.old.writer.now) }
        ensures going { OnOk result (self.new.failed ≡ false) }
        ensures err { OnErr result (AppendsPrefix (W.contents self.old.writer.now)
            (W.contents self.new.writer.now) ((writer_of self.old).held ++ bytes.now)) }
        ensures encoder { self.new.encoder ≡ self.old.encoder }
        ensures flag { self.new.had_unmappables ≡ self.old.had_unmappables }
        ensures sink_failed { OnErr result (W.has_failed self.new.writer.now ≡ true) }
        ensures failed { OnErr result (self.new.failed ≡ true) }
        ensures fault { IfErr result (λ fault. fault ≡ WriteFault.Writer) }
        ensures length { length self.new.output.now ≡ length self.old.output.now }
        ensures same_writer { self.new.writer.ghost_name ≡ self.old.writer.ghost_name }
    {
        let Ok(()) = push_both(self.writer, &self.output[..self.filled], bytes) else {
            self.failed = true;
            return Err(WriteFault::Writer);
        };
        self.filled = 0;
        Ok(())
    }

    /// Pushes the bytes held, and then these, if there are any of these.
    fn push_any(&mut self, bytes: &[u8]) -> Result<(), WriteFault>
        requires going { self.old.failed ≡ false }
        ensures ok { OnOk result (PushesBytes (W.contents self.old.writer.now)
            (W.contents self.new.writer.now) (writer_of self.old) (writer_of self.new) bytes.now) }
        ensures kept { OnOk result (W.has_failed self.new.writer.now
            ≡ W.has_failed self.old.writer.now) }
        ensures going { OnOk result (self.new.failed ≡ false) }
        ensures err { OnErr result (AppendsPrefix (W.contents self.old.writer.now)
            (W.contents self.new.writer.now) ((writer_of self.old).held ++ bytes.now)) }
        ensures encoder { self.new.encoder ≡ self.old.encoder }
        ensures flag { self.new.had_unmappables ≡ self.old.had_unmappables }
        ensures sink_failed { OnErr result (W.has_failed self.new.writer.now ≡ true) }
        ensures failed { OnErr result (self.new.failed ≡ true) }
        ensures fault { IfErr result (λ fault. fault ≡ WriteFault.Writer) }
        ensures none { length bytes.now ≡ 0 → self.new ≡ self.old }
        ensures same_writer { self.new.writer.ghost_name ≡ self.old.writer.ghost_name }
    {
        if bytes.is_empty() {
            return Ok(());
        }
        self.push(bytes)
    }

    /// Pushes the bytes held if fewer than 14 bytes are free after them.
    fn make_room(&mut self) -> Result<(), WriteFault>
        requires going { self.old.failed ≡ false }
        ensures ok { OnOk result (PushesBytes (W.contents self.old.writer.now)
            (W.contents self.new.writer.now) (writer_of self.old) (writer_of self.new) []) }
        ensures room { OnOk result (self.new.filled + 14 ≤ length self.new.output.now) }
        ensures kept { OnOk result (W.has_failed self.new.writer.now
            ≡ W.has_failed self.old.writer.now) }
        ensures going { OnOk result (self.new.failed ≡ false) }
        ensures err { OnErr result (AppendsPrefix (W.contents self.old.writer.now)
            (W.contents self.new.writer.now) (writer_of self.old).held) }
        ensures encoder { self.new.encoder ≡ self.old.encoder }
        ensures flag { self.new.had_unmappables ≡ self.old.had_unmappables }
        ensures sink_failed { OnErr result (W.has_failed self.new.writer.now ≡ true) }
        ensures failed { OnErr result (self.new.failed ≡ true) }
        ensures fault { IfErr result (λ fault. fault ≡ WriteFault.Writer) }
        ensures no_push { self.old.filled + 14 ≤ length self.old.output.now
            → self.new ≡ self.old }
        ensures same_writer { self.new.writer.ghost_name ≡ self.old.writer.ghost_name }
    {
        if self.output.len() - self.filled >= LEAST_ROOM {
            return Ok(());
        }
        self.push(&[])
    }

    /// Encodes a part of a text into the free part of the buffer. With `last` nothing follows the
    /// text. Returns why it stopped, and the number of bytes read.
    fn encode_part(&mut self, text: &str, last: bool) -> (CoderResult, usize)
        requires room { self.old.filled + 14 ≤ length self.old.output.now }
        ensures boundary { IsCharBoundary text.now result.1 }
        ensures part { HasEncoded (W.contents self.old.writer.now) (W.contents self.new.writer.now)
            (writer_of self.old) (writer_of self.new) (chars text.now)
            (chars (drop result.1 text.now)) last }
        ensures all { result.0 ≡ CoderResult.InputEmpty → chars (drop result.1 text.now) ≡ [] }
        ensures ended { result.0 ≡ CoderResult.InputEmpty → last ≡ true
            → self.new.encoder.set ≡ Ascii }
        ensures progress { (result.0 ≡ CoderResult.InputEmpty → ⊥) →
            LeavesFewerSteps self.old.encoder self.new.encoder last
            (chars text.now) (chars (drop result.1 text.now)) }
        ensures length { length self.new.output.now ≡ length self.old.output.now }
        ensures filled { self.new.filled
            + length (bytes_from_state self.new.encoder (chars (drop result.1 text.now)))
            ≡ self.old.filled + length (bytes_from_state self.old.encoder (chars text.now)) }
        ensures writer { self.new.writer ≡ self.old.writer }
        ensures failed { self.new.failed ≡ self.old.failed }
    {
        let call = encode_utf8_after(&mut self.encoder, text, self.output, self.filled, last);
        self.filled += call.written;
        self.had_unmappables |= call.replaced;
        (call.result, call.read)
    }

    /// Encodes a text, and pushes the bytes held whenever fewer than 14 bytes are free. With `last`
    /// nothing follows the text.
    fn encode(&mut self, text: &str, last: bool) -> Result<(), WriteFault>
        requires going { self.old.failed ≡ false }
        ensures ok { OnOk result (HasEncoded (W.contents self.old.writer.now)
            (W.contents self.new.writer.now) (writer_of self.old) (writer_of self.new)
            (chars text.now) [] last) }
        ensures ended { OnOk result (last ≡ true → self.new.encoder.set ≡ Ascii) }
        ensures kept { OnOk result (W.has_failed self.new.writer.now
            ≡ W.has_failed self.old.writer.now) }
        ensures going { OnOk result (self.new.failed ≡ false) }
        ensures err { OnErr result (HasStopped (W.contents self.old.writer.now)
            (W.contents self.new.writer.now) (writer_of self.old) (writer_of self.new)
            (chars text.now) last) }
        ensures sink_failed { OnErr result (W.has_failed self.new.writer.now ≡ true) }
        ensures failed { OnErr result (self.new.failed ≡ true) }
        ensures fault { IfErr result (λ fault. fault ≡ WriteFault.Writer) }
        ensures no_push { FitsInBuffer (writer_of self.old) (chars text.now)
            (length self.old.output.now) → self.new.writer ≡ self.old.writer }
        ensures same_writer { self.new.writer.ghost_name ≡ self.old.writer.ghost_name }
    {
        let mut rest = text;
        'calls: loop {
            self.make_room()?;
            let (outcome, read) = self.encode_part(rest, last);
            let (_, unread) = rest.split_at(read);
            rest = unread;
            if outcome == CoderResult::InputEmpty {
                return Ok(());
            }
        }
    }

    /// Writes a text, with a decimal reference for each unmappable character.
    ///
    /// Its bytes are collected in the buffer, which is pushed when fewer than 14 bytes of it are
    /// free. So a text of fewer than 4096 bytes is no push if its bytes fit after those held and
    /// leave 14 bytes free. Longer text may be pushed without being encoded, after the bytes held,
    /// if it is its own bytes: in UTF-8 all of it, and in other encodings that have ASCII as itself
    /// at least 4096 bytes of ASCII at its start.
    ///
    /// Errors: `Writer` if the sink failed in this call, and `Failed` in each later call. The sink
    /// has taken a prefix of the bytes of all text written, and nothing more is written. The
    /// encoding stays, and only characters of text taken count as unmappable.
    pub fn write_str(&mut self, text: &str) -> Result<(), WriteFault>
        ensures ok { OnOk result (WritesText (W.contents self.old.writer.now)
            (W.contents self.new.writer.now) (writer_of self.old) (writer_of self.new)
            (chars text.now)) }
        ensures kept { OnOk result (W.has_failed self.new.writer.now
            ≡ W.has_failed self.old.writer.now) }
        ensures going { OnOk result (self.new.failed ≡ false) }
        ensures err { OnErr result (StopsWithin (W.contents self.old.writer.now)
            (W.contents self.new.writer.now) (writer_of self.old) (chars text.now) false) }
        ensures stopped { OnErr result (StopsText (W.contents self.old.writer.now)
            (W.contents self.new.writer.now) (writer_of self.old) (writer_of self.new)
            (chars text.now) false) }
        ensures sink_failed { OnErr result (W.has_failed self.new.writer.now ≡ true) }
        ensures failed { OnErr result (self.new.failed ≡ true) }
        ensures from_then_on { IsErrOf result WriteFault.Failed ↔ self.old.failed ≡ true }
        ensures unchanged { IsErrOf result WriteFault.Failed → self.new ≡ self.old }
        ensures no_push { length text.now < 4096
            → FitsInBuffer (writer_of self.old) (chars text.now) (length self.old.output.now)
            → self.new.writer ≡ self.old.writer }
        ensures no_fault { length text.now < 4096
            → FitsInBuffer (writer_of self.old) (chars text.now) (length self.old.output.now)
            → self.new.failed ≡ self.old.failed }
        ensures same_writer { self.new.writer.ghost_name ≡ self.old.writer.ghost_name }
    {
        if self.failed {
            return Err(WriteFault::Failed);
        }
        let len = unencoded_len(&self.encoder, text);
        let (front, rest) = text.split_at(len);
        self.push_any(front.as_bytes())?;
        self.encode(rest, false)
    }

    /// Encodes a part of a text in UTF-16 into the free part of the buffer. Returns why it stopped,
    /// and the number of code units read.
    fn encode_units(&mut self, text: &[u16]) -> (CoderResult, usize)
        requires room { self.old.filled + 14 ≤ length self.old.output.now }
        ensures read { result.1 ≤ length text.now }
        ensures part { HasEncoded (W.contents self.old.writer.now) (W.contents self.new.writer.now)
            (writer_of self.old) (writer_of self.new) (utf16_lossy_chars text.now)
            (utf16_lossy_chars (drop result.1 text.now)) false }
        ensures all { result.0 ≡ CoderResult.InputEmpty
            → utf16_lossy_chars (drop result.1 text.now) ≡ [] }
        ensures progress { (result.0 ≡ CoderResult.InputEmpty → ⊥) →
            LeavesFewerSteps self.old.encoder self.new.encoder false
            (utf16_lossy_chars text.now) (utf16_lossy_chars (drop result.1 text.now)) }
        ensures length { length self.new.output.now ≡ length self.old.output.now }
        ensures filled { self.new.filled
            + length (bytes_from_state self.new.encoder
            (utf16_lossy_chars (drop result.1 text.now)))
            ≡ self.old.filled
            + length (bytes_from_state self.old.encoder (utf16_lossy_chars text.now)) }
        ensures writer { self.new.writer ≡ self.old.writer }
        ensures failed { self.new.failed ≡ self.old.failed }
    {
        let call = encode_utf16_after(&mut self.encoder, text, self.output, self.filled);
        self.filled += call.written;
        self.had_unmappables |= call.replaced;
        (call.result, call.read)
    }

    /// Writes a text in UTF-16, with a decimal reference for each unmappable character.
    ///
    /// The same as [`EncodeWriter::write_str`], except that all of it is encoded, so no text is a
    /// push if its bytes fit after those held and leave 14 bytes free. A surrogate
    /// without its partner in `text` is U+FFFD: so are both halves of a pair that is split between
    /// two writes.
    pub fn write_utf16(&mut self, text: &[u16]) -> Result<(), WriteFault>
        ensures ok { OnOk result (WritesText (W.contents self.old.writer.now)
            (W.contents self.new.writer.now) (writer_of self.old) (writer_of self.new)
            (utf16_lossy_chars text.now)) }
        ensures kept { OnOk result (W.has_failed self.new.writer.now
            ≡ W.has_failed self.old.writer.now) }
        ensures going { OnOk result (self.new.failed ≡ false) }
        ensures err { OnErr result (StopsWithin (W.contents self.old.writer.now)
            (W.contents self.new.writer.now) (writer_of self.old) (utf16_lossy_chars text.now)
            false) }
        ensures stopped { OnErr result (StopsText (W.contents self.old.writer.now)
            (W.contents self.new.writer.now) (writer_of self.old) (writer_of self.new)
            (utf16_lossy_chars text.now) false) }
        ensures sink_failed { OnErr result (W.has_failed self.new.writer.now ≡ true) }
        ensures failed { OnErr result (self.new.failed ≡ true) }
        ensures from_then_on { IsErrOf result WriteFault.Failed ↔ self.old.failed ≡ true }
        ensures unchanged { IsErrOf result WriteFault.Failed → self.new ≡ self.old }
        ensures no_push { FitsInBuffer (writer_of self.old) (utf16_lossy_chars text.now)
            (length self.old.output.now) → self.new.writer ≡ self.old.writer }
        ensures no_fault { FitsInBuffer (writer_of self.old) (utf16_lossy_chars text.now)
            (length self.old.output.now) → self.new.failed ≡ self.old.failed }
        ensures same_writer { self.new.writer.ghost_name ≡ self.old.writer.ghost_name }
    {
        if self.failed {
            return Err(WriteFault::Failed);
        }
        let mut rest = text;
        'calls: loop {
            self.make_room()?;
            let (outcome, read) = self.encode_units(rest);
            let (_, left) = rest.split_at(read);
            rest = left;
            if outcome == CoderResult::InputEmpty {
                return Ok(());
            }
        }
    }

    /// Encodes a part of a text, up to an unmappable character, into the free part of the buffer.
    /// Returns why it stopped, and the number of bytes read.
    fn encode_mappable(&mut self, text: &str) -> (EncoderResult, usize)
        requires room { self.old.filled + 14 ≤ length self.old.output.now }
        ensures boundary { IsCharBoundary text.now result.1 }
        ensures read { result.1 ≤ length text.now }
        ensures part { ReportsSteps (W.contents self.old.writer.now)
            (W.contents self.new.writer.now)
            (writer_of self.old) (writer_of self.new) (chars text.now)
            (chars (drop result.1 text.now)) result.0 }
        ensures all { result.0 ≡ EncoderResult.InputEmpty → chars (drop result.1 text.now) ≡ [] }
        ensures progress { (result.0 ≡ EncoderResult.InputEmpty → ⊥) →
            LeavesFewerSteps self.old.encoder self.new.encoder false
            (chars text.now) (chars (drop result.1 text.now)) }
        ensures length { length self.new.output.now ≡ length self.old.output.now }
        ensures filled { self.new.filled
            + length (bytes_from_state self.new.encoder (chars (drop result.1 text.now)))
            ≤ self.old.filled + length (bytes_from_state self.old.encoder (chars text.now)) }
        ensures writer { self.new.writer ≡ self.old.writer }
        ensures failed { self.new.failed ≡ self.old.failed }
        ensures had { self.new.had_unmappables ≡ self.old.had_unmappables }
    {
        let call = encode_mappable_after(&mut self.encoder, text, self.output, self.filled);
        self.filled += call.written;
        (call.result, call.read)
    }

    /// Writes a text up to an unmappable character.
    ///
    /// Returns `None` if all of the text is taken. Otherwise it returns the character and the
    /// number of bytes of the text that are taken. The caller may write a decimal reference to it
    /// (`&#`, its number and `;`) or another text in its place, and then the rest of the text. The
    /// bytes are collected as by [`EncodeWriter::write_str`], and all of them are encoded.
    ///
    /// Errors: `Writer` if the sink failed in this call, and `Failed` in each later call. The sink
    /// has taken a prefix of the bytes of all text written, and nothing more is written. The
    /// encoding stays, and only characters of text taken count as unmappable.
    pub fn write_str_without_replacement(
        &mut self,
        text: &str,
    ) -> Result<Option<UnmappableStop>, WriteFault>
        ensures ok { IfOk result (λ stop. IfNone stop (WritesText
            (W.contents self.old.writer.now) (W.contents self.new.writer.now) (writer_of self.old)
            (writer_of self.new) (chars text.now))) }
        ensures mappable { IfOk result (λ stop. IfNone stop
            (any_unmappable (raw_state self.old.encoder).rule (chars text.now) ≡ false)) }
        ensures stop { IfOk result (λ stop. IfSome stop (λ at. ReportsText
            (W.contents self.old.writer.now) (W.contents self.new.writer.now) (writer_of self.old)
            (writer_of self.new) (chars text.now) (chars (drop at.taken text.now))
            (EncoderResult.Unmappable at.character))) }
        ensures boundary { IfOk result (λ stop. IfSome stop
            (λ at. IsCharBoundary text.now at.taken)) }
        ensures flag { IfOk result (λ stop. IfSome stop (λ _. self.new.had_unmappables ≡ true)) }
        ensures kept { OnOk result (W.has_failed self.new.writer.now
            ≡ W.has_failed self.old.writer.now) }
        ensures going { OnOk result (self.new.failed ≡ false) }
        ensures err { OnErr result (StopsWithin (W.contents self.old.writer.now)
            (W.contents self.new.writer.now) (writer_of self.old) (chars text.now) false) }
        ensures stopped { OnErr result (StopsText (W.contents self.old.writer.now)
            (W.contents self.new.writer.now) (writer_of self.old) (writer_of self.new)
            (chars text.now) false) }
        ensures sink_failed { OnErr result (W.has_failed self.new.writer.now ≡ true) }
        ensures failed { OnErr result (self.new.failed ≡ true) }
        ensures from_then_on { IsErrOf result WriteFault.Failed ↔ self.old.failed ≡ true }
        ensures unchanged { IsErrOf result WriteFault.Failed → self.new ≡ self.old }
        ensures no_push { FitsInBuffer (writer_of self.old) (chars text.now)
            (length self.old.output.now) → self.new.writer ≡ self.old.writer }
        ensures no_fault { FitsInBuffer (writer_of self.old) (chars text.now)
            (length self.old.output.now) → self.new.failed ≡ self.old.failed }
        ensures same_writer { self.new.writer.ghost_name ≡ self.old.writer.ghost_name }
    {
        if self.failed {
            return Err(WriteFault::Failed);
        }
        let mut rest = text;
        let mut taken = 0;
        'calls: loop {
            self.make_room()?;
            let (outcome, read) = self.encode_mappable(rest);
            let (_, left) = rest.split_at(read);
            rest = left;
            taken += read;
            match outcome {
                EncoderResult::InputEmpty => return Ok(None),
                EncoderResult::OutputFull => {}
                EncoderResult::Unmappable(character) => {
                    self.had_unmappables = true;
                    return Ok(Some(UnmappableStop { character, taken }));
                }
            }
        }
    }

    /// Pushes the bytes held. The sink is not flushed: [`EncodeWriter::flush`] does that too.
    ///
    /// No escape sequence is added: in ISO-2022-JP the bytes pushed may end in another character
    /// set than ASCII.
    ///
    /// Errors: `Writer` if the sink failed in this call, and `Failed` in each later call. The sink
    /// has taken a prefix of the bytes of all text written, and nothing more is written. The
    /// encoding stays, and only characters of text taken count as unmappable.
    pub fn push_held(&mut self) -> Result<(), WriteFault>
        ensures ok { OnOk result (WritesText (W.contents self.old.writer.now)
            (W.contents self.new.writer.now) (writer_of self.old) (writer_of self.new) []) }
        ensures policies { OnOk result ((put : ℕ → List ℕ) → WritesWith put
            (W.contents self.old.writer.now) (W.contents self.new.writer.now)
            (writer_of self.old) (writer_of self.new) []) }
        ensures none_held { OnOk result (writer_of self.new
            ≡ record (writer_of self.old) { held = [] }) }
        ensures kept { OnOk result (W.has_failed self.new.writer.now
            ≡ W.has_failed self.old.writer.now) }
        ensures going { OnOk result (self.new.failed ≡ false) }
        ensures err { OnErr result (StopsWithin (W.contents self.old.writer.now)
            (W.contents self.new.writer.now) (writer_of self.old) [] false) }
        ensures stopped { OnErr result (StopsText (W.contents self.old.writer.now)
            (W.contents self.new.writer.now) (writer_of self.old) (writer_of self.new)
            [] false) }
        ensures sink_failed { OnErr result (W.has_failed self.new.writer.now ≡ true) }
        ensures failed { OnErr result (self.new.failed ≡ true) }
        ensures from_then_on { IsErrOf result WriteFault.Failed ↔ self.old.failed ≡ true }
        ensures unchanged { IsErrOf result WriteFault.Failed → self.new ≡ self.old }
        ensures same_writer { self.new.writer.ghost_name ≡ self.old.writer.ghost_name }
    {
        if self.failed {
            return Err(WriteFault::Failed);
        }
        self.push(b"")
    }

    /// Flushes the sink. After an `Err`, which is `Writer`, the sink has failed.
    fn flush_sink(&mut self) -> Result<(), WriteFault>
        requires going { self.old.failed ≡ false }
        ensures contents { Keeps (W.contents self.old.writer.now)
            (W.contents self.new.writer.now) }
        ensures unchanged { writer_of self.new ≡ writer_of self.old }
        ensures kept { OnOk result (W.has_failed self.new.writer.now
            ≡ W.has_failed self.old.writer.now) }
        ensures going { OnOk result (self.new.failed ≡ false) }
        ensures sink_failed { OnErr result (W.has_failed self.new.writer.now ≡ true) }
        ensures failed { OnErr result (self.new.failed ≡ true) }
        ensures fault { IfErr result (λ fault. fault ≡ WriteFault.Writer) }
        ensures same_writer { self.new.writer.ghost_name ≡ self.old.writer.ghost_name }
    {
        let Ok(()) = self.writer.flush() else {
            self.failed = true;
            return Err(WriteFault::Writer);
        };
        Ok(())
    }

    /// Pushes the bytes held, and flushes the sink: what it writes to passes them on.
    ///
    /// [`EncodeWriter::push_held`] does the same without a flush. No escape sequence is added: in
    /// ISO-2022-JP the bytes pushed may end in another character set than ASCII.
    ///
    /// Errors: `Writer` if the sink failed in this call, and `Failed` in each later call. The sink
    /// has taken a prefix of the bytes of all text written, and nothing more is written. The
    /// encoding stays, and only characters of text taken count as unmappable.
    pub fn flush(&mut self) -> Result<(), WriteFault>
        ensures ok { OnOk result (WritesText (W.contents self.old.writer.now)
            (W.contents self.new.writer.now) (writer_of self.old) (writer_of self.new) []) }
        ensures policies { OnOk result ((put : ℕ → List ℕ) → WritesWith put
            (W.contents self.old.writer.now) (W.contents self.new.writer.now)
            (writer_of self.old) (writer_of self.new) []) }
        ensures none_held { OnOk result (writer_of self.new
            ≡ record (writer_of self.old) { held = [] }) }
        ensures kept { OnOk result (W.has_failed self.new.writer.now
            ≡ W.has_failed self.old.writer.now) }
        ensures going { OnOk result (self.new.failed ≡ false) }
        ensures err { OnErr result (StopsWithin (W.contents self.old.writer.now)
            (W.contents self.new.writer.now) (writer_of self.old) [] false) }
        ensures stopped { OnErr result (StopsText (W.contents self.old.writer.now)
            (W.contents self.new.writer.now) (writer_of self.old) (writer_of self.new)
            [] false) }
        ensures sink_failed { OnErr result (W.has_failed self.new.writer.now ≡ true) }
        ensures failed { OnErr result (self.new.failed ≡ true) }
        ensures from_then_on { IsErrOf result WriteFault.Failed ↔ self.old.failed ≡ true }
        ensures unchanged { IsErrOf result WriteFault.Failed → self.new ≡ self.old }
        ensures same_writer { self.new.writer.ghost_name ≡ self.old.writer.ghost_name }
    {
        self.push_held()?;
        self.flush_sink()
    }

    /// Ends the text: writes the last escape sequence, if one is due, and pushes the bytes held.
    ///
    /// The sink is not flushed. Returns whether a character was unmappable since
    /// [`EncodeWriter::new`]. The writer is then at the start of another text, and the flag stays:
    /// that of the next text is also true if a character of this one was unmappable.
    ///
    /// Errors: `Writer` if the sink failed in this call, and `Failed` in each later call. The sink
    /// has taken a prefix of the bytes of the text, and nothing more is written. The encoding and
    /// the flag of unmappable characters stay.
    pub fn end_text(&mut self) -> Result<bool, WriteFault>
        ensures ok { OnOk result (EndsText (W.contents self.old.writer.now)
            (W.contents self.new.writer.now) (writer_of self.old)) }
        ensures policies { OnOk result ((put : ℕ → List ℕ) → EndsWith put
            (W.contents self.old.writer.now) (W.contents self.new.writer.now)
            (writer_of self.old)) }
        ensures flag { IfOk result (λ had. had ≡ self.old.had_unmappables) }
        ensures ended { OnOk result (writer_of self.new ≡ ended_writer (writer_of self.old)) }
        ensures kept { OnOk result (W.has_failed self.new.writer.now
            ≡ W.has_failed self.old.writer.now) }
        ensures going { OnOk result (self.new.failed ≡ false) }
        ensures err { OnErr result (StopsWithin (W.contents self.old.writer.now)
            (W.contents self.new.writer.now) (writer_of self.old) [] true) }
        ensures stopped { OnErr result (StopsText (W.contents self.old.writer.now)
            (W.contents self.new.writer.now) (writer_of self.old) (writer_of self.new)
            [] true) }
        ensures sink_failed { OnErr result (W.has_failed self.new.writer.now ≡ true) }
        ensures failed { OnErr result (self.new.failed ≡ true) }
        ensures from_then_on { IsErrOf result WriteFault.Failed ↔ self.old.failed ≡ true }
        ensures unchanged { IsErrOf result WriteFault.Failed → self.new ≡ self.old }
        ensures same_writer { self.new.writer.ghost_name ≡ self.old.writer.ghost_name }
    {
        if self.failed {
            return Err(WriteFault::Failed);
        }
        self.encode("", true)?;
        self.push(&[])?;
        Ok(self.had_unmappables)
    }

    /// Ends the text: writes the last escape sequence, if one is due, pushes the bytes held, and
    /// flushes the sink.
    ///
    /// Returns whether a character was unmappable since [`EncodeWriter::new`]. The writer is then
    /// at the start of another text, and the flag stays: that of the next text is also true if a
    /// character of this one was unmappable.
    ///
    /// [`EncodeWriter::end_text`] does the same without a flush.
    ///
    /// Errors: `Writer` if the sink failed in this call, and `Failed` in each later call. The sink
    /// has taken a prefix of the bytes of the text, and nothing more is written. The encoding and
    /// the flag of unmappable characters stay.
    pub fn finish(&mut self) -> Result<bool, WriteFault>
        ensures ok { OnOk result (EndsText (W.contents self.old.writer.now)
            (W.contents self.new.writer.now) (writer_of self.old)) }
        ensures policies { OnOk result ((put : ℕ → List ℕ) → EndsWith put
            (W.contents self.old.writer.now) (W.contents self.new.writer.now)
            (writer_of self.old)) }
        ensures flag { IfOk result (λ had. had ≡ self.old.had_unmappables) }
        ensures ended { OnOk result (writer_of self.new ≡ ended_writer (writer_of self.old)) }
        ensures kept { OnOk result (W.has_failed self.new.writer.now
            ≡ W.has_failed self.old.writer.now) }
        ensures going { OnOk result (self.new.failed ≡ false) }
        ensures err { OnErr result (StopsWithin (W.contents self.old.writer.now)
            (W.contents self.new.writer.now) (writer_of self.old) [] true) }
        ensures stopped { OnErr result (StopsText (W.contents self.old.writer.now)
            (W.contents self.new.writer.now) (writer_of self.old) (writer_of self.new)
            [] true) }
        ensures sink_failed { OnErr result (W.has_failed self.new.writer.now ≡ true) }
        ensures failed { OnErr result (self.new.failed ≡ true) }
        ensures from_then_on { IsErrOf result WriteFault.Failed ↔ self.old.failed ≡ true }
        ensures unchanged { IsErrOf result WriteFault.Failed → self.new ≡ self.old }
        ensures same_writer { self.new.writer.ghost_name ≡ self.old.writer.ghost_name }
    {
        let had_unmappables = self.end_text()?;
        self.flush_sink()?;
        Ok(had_unmappables)
    }

    /// Ends the writer, and returns the sink. The bytes held stay unwritten, and the sink is not
    /// flushed.
    pub fn into_sink(self) -> &'a mut W
        ensures sink { result.now ≡ self.entry.writer.now }
        ensures same_writer { result.ghost_name ≡ self.entry.writer.ghost_name }
    {
        let EncodeWriter { writer, .. } = self;
        writer
    }

    /// Returns the error for which the sink has failed, and so the writer, if the sink keeps it.
    ///
    /// A [`crate::FromWrite`] keeps it until it is taken: that of a full disk is of kind
    /// `StorageFull`. `None` if the sink has not failed.
    pub fn error(&self) -> Option<io::Error>
        ensures kept { IfSome result (λ e. W.error self.now.writer.now ≡ Some e) }
        ensures failed { OnSome result (self.now.failed ≡ true) }
        ensures retried { IfSome result (λ e. error_kind e ≢ ErrorKind.Interrupted) }
    {
        self.writer.error()
    }

    /// Returns a fault of this writer with its cause, which [`EncodeWriter::error`] gives.
    ///
    /// The cause is that of the first fault also with `Failed`, until it is taken out of the sink.
    pub fn with_cause(&self, fault: WriteFault) -> WriteError
        ensures fault { result.fault ≡ fault }
        ensures cause { IfSome result.cause (λ e. W.error self.now.writer.now ≡ Some e) }
        ensures failed { OnSome result.cause (self.now.failed ≡ true) }
        ensures retried { IfSome result.cause (λ e. error_kind e ≢ ErrorKind.Interrupted) }
    {
        WriteError {
            fault,
            cause: self.error(),
        }
    }

    /// Returns the encoding that it writes, which is an output encoding.
    pub fn encoding(&self) -> Encoding
        ensures { result ≡ self.now.encoder.encoding }
    {
        self.encoder.encoding()
    }

    /// Returns whether a character was unmappable since [`EncodeWriter::new`].
    ///
    /// The end of a text does not reset it. After a fault it is that of the text taken until then:
    /// the text whose bytes the sink has taken, and maybe some that follows.
    pub fn had_unmappables(&self) -> bool
        ensures { result ≡ self.now.had_unmappables }
    {
        self.had_unmappables
    }
}

impl<'a, W: Sink> fmt::Write for EncodeWriter<'a, W> {
    ghost use Rattle.enc_writer.specs.Writing.{WritesText};
    ghost use Rattle.enc_writer.specs.Writer.{writer_of};

    ghost write_str_gives = { λ old text new. WritesText (W.contents old.writer.now)
        (W.contents new.writer.now) (writer_of old) (writer_of new) (chars text) };

    /// Writes a text as [`EncodeWriter::write_str`] does, so that `write!` works. After an `Err`
    /// [`EncodeWriter::error`] names the cause.
    fn write_str(&mut self, text: &str) -> fmt::Result {
        match EncodeWriter::write_str(self, text) {
            Ok(()) => Ok(()),
            Err(_) => Err(fmt::Error),
        }
    }
}

impl<'a, W: Sink> fmt::Debug for EncodeWriter<'a, W> {
    /// Writes the encoding, the number of bytes held, and whether a call has failed and a character
    /// was unmappable.
    fn fmt<F: fmt::Write>(&self, f: &mut fmt::Formatter<F>) -> fmt::Result {
        f.debug_struct("EncodeWriter")
            .field("encoding", &self.encoding())
            .field("held", &self.filled)
            .field("failed", &self.failed)
            .field("had_unmappables", &self.had_unmappables)
            .finish_non_exhaustive()
    }
}
