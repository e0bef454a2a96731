//! Writes with a policy for unmappable characters.

ghost use Rattle.std.specs.Prelude.{◌≡◌, ◌↔◌, ◌+◌, ◌≤◌, [], length, true, false, chars};
ghost use Rattle.std.specs.Prelude.{OnOk, OnErr, IsErrOf, IfErr};

use super::EncodeWriter;
use crate::fault::WriteFault;
use crate::sink::Sink;
use crate::unmappable_policy::{UnmappablePolicy, put_for_unmappable};
use enc_stream::EncoderResult;

impl<'a, W: Sink> EncodeWriter<'a, W> {
    ghost use Rattle.enc_encoder.specs.Unmappable.{any_unmappable};
    ghost use Rattle.enc_stream.specs.Encoder.{raw_state};
    ghost use Rattle.enc_writer.specs.Sink.{AppendsPrefix};
    ghost use Rattle.enc_writer.specs.Writing.{PushesBytes, WritesText};
    ghost use Rattle.enc_writer.specs.Stopping.{StopsText};
    ghost use Rattle.enc_writer.specs.Policies.{policy_bytes, WritesWith, StopsWith};
    ghost use Rattle.enc_writer.specs.Policies.{FitsInBufferWith};
    ghost use Rattle.enc_writer.specs.Writer.{writer_of};

    /// Puts what a policy says for an unmappable character after the bytes held, which are pushed
    /// if fewer than 14 bytes are free after them.
    fn put_unmappable(&mut self, c: char, policy: UnmappablePolicy) -> Result<(), WriteFault>
        requires going { self.old.failed ≡ false }
        ensures ok { OnOk result (PushesBytes (W.contents self.old.writer.now)
            (W.contents self.new.writer.now)
            (record (writer_of self.old) { had_unmappables = true }) (writer_of self.new)
            (policy_bytes policy c)) }
        ensures kept { OnOk result (W.has_failed self.new.writer.now
            ≡ W.has_failed self.old.writer.now) }
        ensures going { OnOk result (self.new.failed ≡ false) }
        ensures err { OnErr result (AppendsPrefix (W.contents self.old.writer.now)
            (W.contents self.new.writer.now) (writer_of self.old).held) }
        ensures encoder { self.new.encoder ≡ self.old.encoder }
        ensures flag { self.new.had_unmappables ≡ true }
        ensures sink_failed { OnErr result (W.has_failed self.new.writer.now ≡ true) }
        ensures failed { OnErr result (self.new.failed ≡ true) }
        ensures fault { IfErr result (λ fault. fault ≡ WriteFault.Writer) }
        ensures no_push { self.old.filled + 14 ≤ length self.old.output.now
            → self.new.writer ≡ self.old.writer }
        ensures length { self.old.filled + 14 ≤ length self.old.output.now
            → length self.new.output.now ≡ length self.old.output.now }
        ensures same_writer { self.new.writer.ghost_name ≡ self.old.writer.ghost_name }
    {
        self.had_unmappables = true;
        self.make_room()?;
        self.filled += put_for_unmappable(policy, c, self.output, self.filled);
        Ok(())
    }

    /// Writes a text, with what a policy says for each unmappable character.
    ///
    /// With [`UnmappablePolicy::Reference`] it writes what [`EncodeWriter::write_str`] does, as it
    /// does with each policy if no character is unmappable. The bytes are collected as by
    /// `write_str`, and all of them are encoded. [`EncodeWriter::write_str_without_replacement`]
    /// reports an unmappable character instead.
    ///
    /// Whatever the policy, [`EncodeWriter::had_unmappables`] is then true if there was one. In
    /// ISO-2022-JP the escape sequence to ASCII stands before an unmappable character that follows
    /// one of JIS X 0208, also if nothing is put for it (Encoding Standard 12.2.2).
    ///
    /// Errors: `Writer` if the sink failed in this call, and `Failed` in each later call. The sink
    /// has taken a prefix of the bytes of all text written, and nothing more is written. The
    /// encoding stays, and only characters of text taken count as unmappable.
    ///
    /// ```rust
    /// let mut written = Vec::new(rt.alloc());
    /// let mut sink = FromWrite::new(&mut written);
    /// let mut buffer = [0; 64];
    /// let mut writer = EncodeWriter::new(&mut sink, WINDOWS_1252, &mut buffer);
    /// assert!(rt; writer.write_str_with("5 €, 7 ₽", UnmappablePolicy::HexReference) == Ok(()));
    /// assert!(rt; writer.write_str_with("; 7 ₽", UnmappablePolicy::QuestionMark) == Ok(()));
    /// assert!(rt; writer.finish() == Ok(true));
    /// assert!(rt; written.as_slice() == b"5 \x80, 7 &#x20BD;; 7 ?".as_slice());
    /// ```
    pub fn write_str_with(&mut self, text: &str, policy: UnmappablePolicy) -> Result<(), WriteFault>
        ensures ok { OnOk result (WritesWith (policy_bytes policy)
            (W.contents self.old.writer.now) (W.contents self.new.writer.now) (writer_of self.old)
            (writer_of self.new) (chars text.now)) }
        ensures references { policy ≡ UnmappablePolicy.Reference → OnOk result (WritesText
            (W.contents self.old.writer.now) (W.contents self.new.writer.now) (writer_of self.old)
            (writer_of self.new) (chars text.now)) }
        ensures mappable { any_unmappable (raw_state self.old.encoder).rule (chars text.now)
            ≡ false → OnOk result (WritesText (W.contents self.old.writer.now)
            (W.contents self.new.writer.now) (writer_of self.old) (writer_of self.new)
            (chars text.now)) }
        ensures kept { OnOk result (W.has_failed self.new.writer.now
            ≡ W.has_failed self.old.writer.now) }
        ensures going { OnOk result (self.new.failed ≡ false) }
        ensures stopped { OnErr result (StopsWith (policy_bytes policy)
            (W.contents self.old.writer.now) (W.contents self.new.writer.now) (writer_of self.old)
            (writer_of self.new) (chars text.now)) }
        ensures references_stopped { policy ≡ UnmappablePolicy.Reference → OnErr result (StopsText
            (W.contents self.old.writer.now) (W.contents self.new.writer.now) (writer_of self.old)
            (writer_of self.new) (chars text.now) false) }
        ensures sink_failed { OnErr result (W.has_failed self.new.writer.now ≡ true) }
        ensures failed { OnErr result (self.new.failed ≡ true) }
        ensures from_then_on { IsErrOf result WriteFault.Failed ↔ self.old.failed ≡ true }
        ensures unchanged { IsErrOf result WriteFault.Failed → self.new ≡ self.old }
        ensures no_push { FitsInBufferWith (policy_bytes policy) (writer_of self.old)
            (chars text.now) (length self.old.output.now) → self.new.writer ≡ self.old.writer }
        ensures no_fault { FitsInBufferWith (policy_bytes policy) (writer_of self.old)
            (chars text.now) (length self.old.output.now)
            → self.new.failed ≡ self.old.failed }
        ensures same_writer { self.new.writer.ghost_name ≡ self.old.writer.ghost_name }
    {
        if self.failed {
            return Err(WriteFault::Failed);
        }
        let mut rest = text;
        'calls: loop {
            self.make_room()?;
            let (outcome, read) = self.encode_mappable(rest);
            let (_, left) = rest.split_at(read);
            rest = left;
            match outcome {
                EncoderResult::InputEmpty => return Ok(()),
                EncoderResult::OutputFull => {}
                EncoderResult::Unmappable(c) => self.put_unmappable(c, policy)?,
            }
        }
    }
}
