//! Reads without replacement, which report malformed sequences.

ghost use Rattle.std.specs.Prelude.{◌≡◌, ◌+◌, ◌-◌, ◌<◌, ◌≤◌, ◌↔◌, ◌++◌, length, take, drop, true};
ghost use Rattle.std.specs.Prelude.{[], false, None, Some, IsUtf8, IfOk, OnOk, OnErr, IsErrOf};
ghost use Rattle.std.specs.Prelude.{IfErr, IsErrAnd, IfSome};
ghost use Rattle.std.specs.Char.{encode_utf8};
ghost use Rattle.enc_decoder.specs.declared.error_mode.ErrorMode.TheVariants.{Fatal};
ghost use Rattle.enc_stream.specs.Decoding.{has_finished, AnswersDecode};
ghost use Rattle.enc_reader.specs.Reporting.{lens_of_result, replacement_of_lens};
ghost use Rattle.enc_reader.specs.Reporting.{reports_malformed, AreShortLens, written_of, faults_of};
ghost use Rattle.enc_reader.specs.Reporting.{faults_if, replacement_of, replacement_if};

use super::{DecodeReader, ReadFault, UnreadPart};
use crate::caused::ReadError;
use crate::malformed_sequence::MalformedSequence;
use crate::recent::bytes_before_end;
use crate::source::Source;
use enc_stream::{Decoder, DecoderResult};

/// Why a read without replacement stopped.
#[derive(Clone, Copy, PartialEq, Eq, Debug)]
pub enum ReadStop {
    /// Text of that many bytes is written, 0 only at the end.
    Text(usize),
    /// A malformed sequence follows the text.
    Malformed {
        /// The number of bytes of text written, which may be 0.
        written: usize,
        /// The offset of the sequence's first byte in the whole input, in bytes.
        offset: u64,
        /// The length of the sequence in bytes.
        len: u8,
    },
}

/// Text of a read, and the malformed sequence that follows it.
#[derive(Clone, Copy, Debug)]
pub struct TextPart<'b> {
    /// The text, which may be empty.
    pub text: &'b str,
    /// The malformed sequence after it, if there is one.
    pub malformed: Option<MalformedSequence>,
}

/// The text that a read has written, and the malformed sequence that follows it.
#[derive(Clone, Copy)]
pub(crate) struct ReportedText {
    /// The number of bytes of text written.
    pub(crate) written: usize,
    pub(crate) malformed: Option<MalformedSequence>,
}

/// The lengths that the decoder reports of a malformed sequence.
#[derive(Clone, Copy)]
struct MalformedLens {
    /// The length of the sequence in bytes.
    len: u8,
    /// The number of bytes read after it.
    after: u8,
}

/// The outcome of a call of the decoder without replacement.
#[derive(Clone, Copy)]
struct ReportingOutcome {
    result: DecoderResult,
    /// The number of bytes read.
    read: usize,
    /// The number of bytes of text written.
    written: usize,
}

/// The outcome of a turn of the decoder without replacement.
#[derive(Clone, Copy)]
struct ReportingTurn {
    /// The number of bytes of text written.
    written: usize,
    /// The malformed sequence that follows the text.
    malformed: Option<MalformedLens>,
    /// Whether more bytes must be read: there is neither text nor a malformed sequence nor the end.
    waits: bool,
}

/// Decodes the unread part of `input` up to a malformed sequence. (The buffer is passed on as it is
/// borrowed, so that its bytes are known to stay.)
fn report_unread(
    decoder: &mut Decoder,
    input: &mut [u8],
    unread: UnreadPart,
    dst: &mut [u8],
    last: bool,
) -> ReportingOutcome
    requires unfinished { has_finished decoder.old ≡ false }
    requires before { unread.at ≤ unread.filled }
    requires within { unread.filled ≤ length input.old }
    ensures call { AnswersDecode encode_utf8 4 decoder.old decoder.new (record {
      src = take (unread.filled - unread.at) (drop unread.at input.old);
      last = last;
      mode = Fatal;
      room = length dst.old;
      result = result.result;
      read = result.read;
      wrote = take result.written dst.new;
      replaced = false;
    }) }
    ensures written { result.written ≤ length dst.old }
    ensures text { IsUtf8 (take result.written dst.new) }
    ensures rest { drop result.written dst.new ≡ drop result.written dst.old }
    ensures kept { input.new ≡ input.old }
{
    let src = &input[unread.at..unread.filled];
    let (result, read, written) = decoder.decode_to_utf8_without_replacement(src, dst, last);
    ReportingOutcome {
        result,
        read,
        written,
    }
}

/// Returns the lengths that a call has reported, if it has reported a malformed sequence.
fn reported_lens(stop: DecoderResult) -> Option<MalformedLens>
    ensures { result ≡ lens_of_result stop }
{
    match stop {
        DecoderResult::InputEmpty => None,
        DecoderResult::OutputFull => None,
        DecoderResult::Malformed(len, after) => Some(MalformedLens { len, after }),
    }
}

/// Returns why a read without replacement stopped.
fn stop_of(reported: ReportedText) -> ReadStop
    ensures written { written_of result ≡ reported.written }
    ensures faults { faults_of result ≡ faults_if reported.malformed }
    ensures replacement { replacement_of result ≡ replacement_if reported.malformed }
    ensures text { result ≡ ReadStop.Text 0
        → (reported.written ≡ 0) × (reported.malformed ≡ None) }
{
    match reported.malformed {
        None => ReadStop::Text(reported.written),
        Some(malformed) => ReadStop::Malformed {
            written: reported.written,
            offset: malformed.offset(),
            len: malformed.bytes().len() as u8,
        },
    }
}

/// Returns whether a call has done nothing and has not come to the end.
fn waits_on(written: usize, malformed: Option<MalformedLens>, finished: bool) -> bool
    ensures waits { result ≡ true → (written ≡ 0) × (malformed ≡ None) × (finished ≡ false) }
    ensures goes_on { result ≡ false → written ≡ 0 → malformed ≡ None → finished ≡ true }
{
    if written > 0 || finished {
        return false;
    }
    malformed.is_none()
}

impl<'a, R: Source> DecodeReader<'a, R> {
    ghost use Rattle.enc_reader.specs.Reading.{FailsToRead, IsReaderAtEnd, FillsRoom};
    ghost use Rattle.enc_reader.specs.Turn.{IsTurn};
    ghost use Rattle.enc_reader.specs.Counting.{CountsBytes};
    ghost use Rattle.enc_reader.specs.Reporting.{ReportsFaults, TurnPassesItems, written_of};
    ghost use Rattle.enc_reader.specs.Reporting.{faults_of, replacement_of, HasShortLens};
    ghost use Rattle.enc_reader.specs.Reporting.{ReportsItems, malformed_bytes};
    ghost use Rattle.enc_reader.specs.Reader.{state_of};

    /// Decodes the unread bytes, or the end, as far as there is room, up to a malformed sequence.
    fn decode_reporting(&mut self, dst: &mut [u8]) -> ReportingTurn
        requires room { 4 ≤ length dst.old }
        ensures turn { IsTurn (state_of self.old) (state_of self.new)
            (take result.written dst.new ++ replacement_of_lens result.malformed)
            (reports_malformed result.malformed) result.waits }
        ensures items { TurnPassesItems (state_of self.old) (state_of self.new)
            (take result.written dst.new) result.malformed
            (self.new.recent ++ take self.new.at self.new.input.now) }
        ensures lens { HasShortLens result.malformed }
        ensures counts { CountsBytes (state_of self.old) (state_of self.new) self.old.given
            self.new.given [] }
        ensures full { result.malformed ≡ None
            → FillsRoom (length dst.old) result.written (state_of self.new) }
        ensures written { result.written ≤ length dst.new }
        ensures text { IsUtf8 (take result.written dst.new) }
        ensures rest { drop result.written dst.new ≡ drop result.written dst.old }
        ensures waits { result.waits ≡ true → result.written ≡ 0 }
        ensures unreported { result.waits ≡ true → result.malformed ≡ None }
        ensures reader { self.new.reader ≡ self.old.reader }
        ensures buffer_len { length self.new.input.now ≡ length self.old.input.now }
        ensures failed { self.new.failed ≡ self.old.failed }
        ensures had_errors { self.new.had_errors ≡ self.old.had_errors }
    {
        if self.decoder.is_finished() {
            return ReportingTurn {
                written: 0,
                malformed: None,
                waits: false,
            };
        }
        if (self.at == self.filled) & !self.ended {
            return ReportingTurn {
                written: 0,
                malformed: None,
                waits: true,
            };
        }
        let unread = UnreadPart {
            at: self.at,
            filled: self.filled,
        };
        let call = report_unread(&mut self.decoder, self.input, unread, dst, self.ended);
        self.at += call.read;
        let malformed = reported_lens(call.result);
        let waits = waits_on(call.written, malformed, self.decoder.is_finished());
        ReportingTurn {
            written: call.written,
            malformed,
            waits,
        }
    }

    /// Returns the number of bytes of the input that are decoded, up to 2^64 - 1.
    ///
    /// The text of all of them has been handed out, except that up to three at their end may begin
    /// a character or an escape sequence. It is exact while the source has given fewer than 2^64
    /// bytes, and may be asked between any two reads.
    pub fn bytes_decoded(&self) -> u64
        ensures given { result ≡ self.now.given - length (state_of self.now).unread }
        ensures places { result ≡ self.now.given - (self.now.filled - self.now.at) }
    {
        self.given.saturating_sub((self.filled - self.at) as u64)
    }

    /// Returns the offset of a malformed sequence that the decoder has reported, in the whole
    /// input: its bytes are those before the last ones decoded.
    fn offset_of(&self, lens: MalformedLens) -> u64
        ensures { result ≡ self.now.given - (self.now.filled - self.now.at) - lens.after
            - lens.len }
    {
        self.bytes_decoded()
            .saturating_sub(lens.after as u64)
            .saturating_sub(lens.len as u64)
    }

    /// Returns the malformed sequence that the decoder has reported.
    fn sequence_of(&self, lens: MalformedLens) -> MalformedSequence
        requires lens { AreShortLens lens }
        ensures offset { result.offset ≡ self.now.given - (self.now.filled - self.now.at)
            - lens.after - lens.len }
        ensures len { result.len ≡ lens.len }
        ensures bytes { malformed_bytes result ≡ take lens.len
            (drop (length (self.now.recent ++ take self.now.at self.now.input.now) - lens.after
            - lens.len) (self.now.recent ++ take self.now.at self.now.input.now)) }
    {
        let decoded = &self.input[..self.at];
        let bytes = bytes_before_end(self.recent, decoded, lens.len, lens.after);
        MalformedSequence::new(self.offset_of(lens), bytes, lens.len)
    }

    /// Reads up to a malformed sequence, as [`DecodeReader::read_text_without_replacement`] does.
    pub(crate) fn read_reporting(&mut self, dst: &mut [u8]) -> Result<ReportedText, ReadFault>
        requires room { 4 ≤ length dst.old }
        ensures ok { IfOk result (λ reported. ReportsItems (R.remaining self.old.reader.now)
            (R.remaining self.new.reader.now) (state_of self.old) (state_of self.new)
            self.old.given self.new.given (take reported.written dst.new) reported.malformed
            self.old.had_errors self.new.had_errors) }
        ensures full { IfOk result (λ reported. reported.malformed ≡ None
            → FillsRoom (length dst.old) reported.written (state_of self.new)) }
        ensures within { IfOk result (λ reported. reported.written ≤ length dst.new) }
        ensures utf_8 { IfOk result (λ reported. IsUtf8 (take reported.written dst.new)) }
        ensures rest { IfOk result (λ reported. drop reported.written dst.new
            ≡ drop reported.written dst.old) }
        ensures end { IfOk result (λ reported. reported.written ≡ 0 → reported.malformed ≡ None
            → IsReaderAtEnd (R.remaining self.new.reader.now) (state_of self.new)) }
        ensures kept { OnOk result (R.has_failed self.new.reader.now
            ≡ R.has_failed self.old.reader.now) }
        ensures unwritten { OnErr result (dst.new ≡ dst.old) }
        ensures no_error { OnErr result (self.new.had_errors ≡ self.old.had_errors) }
        ensures reader_fault { IsErrOf result ReadFault.Reader
            → FailsToRead (R.remaining self.old.reader.now) (R.remaining self.new.reader.now)
            (R.has_failed self.old.reader.now) (R.has_failed self.new.reader.now)
            (state_of self.old) (state_of self.new) }
        ensures from_then_on { IsErrOf result ReadFault.Failed ↔ self.old.failed ≡ true }
        ensures unchanged { IsErrOf result ReadFault.Failed → self.new ≡ self.old }
        ensures going { OnOk result (self.new.failed ≡ false) }
        ensures failed { OnErr result (self.new.failed ≡ true) }
        ensures buffer_len { length self.new.input.now ≡ length self.old.input.now }
        ensures same_reader { self.new.reader.ghost_name ≡ self.old.reader.ghost_name }
    {
        if self.failed {
            return Err(ReadFault::Failed);
        }
        let mut turn = self.decode_reporting(dst);
        let mut pulls = 0;
        'pulls: while turn.waits {
            if pulls == u64::MAX {
                self.failed = true;
                return Err(ReadFault::Reader);
            }
            pulls += 1;
            self.pull()?;
            turn = self.decode_reporting(dst);
        }
        let Some(lens) = turn.malformed else {
            return Ok(ReportedText {
                written: turn.written,
                malformed: None,
            });
        };
        self.had_errors = true;
        Ok(ReportedText {
            written: turn.written,
            malformed: Some(self.sequence_of(lens)),
        })
    }

    /// Writes the next text to `dst`, in UTF-8, up to a malformed sequence, which it reports.
    ///
    /// - `Text(n)`: n bytes are written, as many whole characters as fit. It is `Text(0)` only at
    ///   the end, and then in each later read.
    /// - `Malformed`: text is written, which may be empty, and a malformed sequence follows it. The
    ///   next read goes on after the sequence. It is reported whether or not U+FFFD would fit. A
    ///   caller who puts U+FFFD in its place gets the text of [`DecodeReader::read_str`]. The
    ///   offset counts all bytes that the source has given to this reader, with a byte order mark.
    ///   It is exact while the source has given fewer than 2^64 bytes.
    ///
    /// Every malformed sequence of the input is reported in order, except those that other reads
    /// replace, which may come between. [`DecodeReader::had_errors`] is true after a report too.
    /// The source is read only while this read has nothing to return, so the text may be shorter
    /// than the room. The bytes of `dst` after the text are unchanged. Condition: `dst` has at
    /// least four bytes.
    ///
    /// Errors write nothing: `Reader` if the source failed in this read, and `Failed` in each later
    /// read.
    pub fn read_str_without_replacement(&mut self, dst: &mut [u8]) -> Result<ReadStop, ReadFault>
        requires room { 4 ≤ length dst.old }
        ensures ok { IfOk result (λ stop. ReportsFaults (R.remaining self.old.reader.now)
            (R.remaining self.new.reader.now) (state_of self.old) (state_of self.new)
            self.old.given self.new.given (take (written_of stop) dst.new ++ replacement_of stop)
            (faults_of stop) self.old.had_errors self.new.had_errors) }
        ensures full { IfOk result (λ stop. faults_of stop ≡ []
            → FillsRoom (length dst.old) (written_of stop) (state_of self.new)) }
        ensures within { IfOk result (λ stop. written_of stop ≤ length dst.new) }
        ensures utf_8 { IfOk result (λ stop. IsUtf8 (take (written_of stop) dst.new)) }
        ensures rest { IfOk result (λ stop. drop (written_of stop) dst.new
            ≡ drop (written_of stop) dst.old) }
        ensures end { IfOk result (λ stop. stop ≡ ReadStop.Text 0
            → IsReaderAtEnd (R.remaining self.new.reader.now) (state_of self.new)) }
        ensures kept { OnOk result (R.has_failed self.new.reader.now
            ≡ R.has_failed self.old.reader.now) }
        ensures unwritten { OnErr result (dst.new ≡ dst.old) }
        ensures no_error { OnErr result (self.new.had_errors ≡ self.old.had_errors) }
        ensures reader_fault { IsErrOf result ReadFault.Reader
            → FailsToRead (R.remaining self.old.reader.now) (R.remaining self.new.reader.now)
            (R.has_failed self.old.reader.now) (R.has_failed self.new.reader.now)
            (state_of self.old) (state_of self.new) }
        ensures from_then_on { IsErrOf result ReadFault.Failed ↔ self.old.failed ≡ true }
        ensures unchanged { IsErrOf result ReadFault.Failed → self.new ≡ self.old }
        ensures going { OnOk result (self.new.failed ≡ false) }
        ensures failed { OnErr result (self.new.failed ≡ true) }
        ensures buffer_len { length self.new.input.now ≡ length self.old.input.now }
        ensures same_reader { self.new.reader.ghost_name ≡ self.old.reader.ghost_name }
    {
        let reported = self.read_reporting(dst)?;
        let stop = stop_of(reported);
        Ok(stop)
    }

    /// Reads the next text into `dst`, up to a malformed sequence, and returns both.
    ///
    /// - The text is as many whole characters as fit. With no malformed sequence it is empty only
    ///   at the end, and then in each later read.
    /// - The malformed sequence follows the text, and has its offset and its bytes. The next read
    ///   goes on after it. It is reported whether or not U+FFFD would fit.
    ///
    /// It reads as [`DecodeReader::read_str_without_replacement`] does. Offsets count all bytes
    /// that the source has given to this reader, with a byte order mark, and are exact while these
    /// are fewer than 2^64. An `Err` has the cause of the fault, if the source keeps that.
    /// Condition: `dst` has at least four bytes.
    ///
    /// ```rust
    /// let mut source = FromRead::new(b"caf\xE9!".as_slice());
    /// let mut buffer = [0; 64];
    /// let mut reader = DecodeReader::new(&mut source, Some(UTF_8), &mut buffer);
    /// let mut room = [0; 64];
    /// let part = reader.read_text_without_replacement(&mut room)?;
    /// assert!(rt; part.text == "caf");
    /// let malformed = part.malformed.ok_or(Error::other("a byte is malformed"))?;
    /// assert!(rt; (malformed.offset(), malformed.bytes()) == (3, b"\xE9".as_slice()));
    /// ```
    pub fn read_text_without_replacement<'b>(
        &mut self,
        dst: &'b mut [u8],
    ) -> Result<TextPart<'b>, ReadError>
        requires room { 4 ≤ length dst.old }
        ensures ok { IfOk result (λ part. ReportsItems (R.remaining self.old.reader.now)
            (R.remaining self.new.reader.now) (state_of self.old) (state_of self.new)
            self.old.given self.new.given part.text.now part.malformed
            self.old.had_errors self.new.had_errors) }
        ensures full { IfOk result (λ part. part.malformed ≡ None
            → FillsRoom (length dst.old) (length part.text.now) (state_of self.new)) }
        ensures end { IfOk result (λ part. part.text.now ≡ [] → part.malformed ≡ None
            → IsReaderAtEnd (R.remaining self.new.reader.now) (state_of self.new)) }
        ensures kept { OnOk result (R.has_failed self.new.reader.now
            ≡ R.has_failed self.old.reader.now) }
        ensures no_error { OnErr result (self.new.had_errors ≡ self.old.had_errors) }
        ensures reader_fault { IfErr result (λ e. e.fault ≡ ReadFault.Reader
            → FailsToRead (R.remaining self.old.reader.now) (R.remaining self.new.reader.now)
            (R.has_failed self.old.reader.now) (R.has_failed self.new.reader.now)
            (state_of self.old) (state_of self.new)) }
        ensures failed_before { IfErr result (λ e. e.fault ≡ ReadFault.Failed
            → (self.old.failed ≡ true) × (self.new ≡ self.old)) }
        ensures refused { self.old.failed ≡ true
            → IsErrAnd result (λ e. e.fault ≡ ReadFault.Failed) }
        ensures cause { IfErr result (λ e. IfSome e.cause
            (λ cause. R.error self.new.reader.now ≡ Some cause)) }
        ensures going { OnOk result (self.new.failed ≡ false) }
        ensures failed { OnErr result (self.new.failed ≡ true) }
        ensures buffer_len { length self.new.input.now ≡ length self.old.input.now }
        ensures same_reader { self.new.reader.ghost_name ≡ self.old.reader.ghost_name }
    {
        match self.read_reporting(dst) {
            Ok(reported) => Ok(TextPart {
                text: unsafe { str::from_utf8_unchecked(&dst[..reported.written]) },
                malformed: reported.malformed,
            }),
            Err(fault) => Err(self.with_cause(fault)),
        }
    }
}
