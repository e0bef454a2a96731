//! The reader of text.

ghost use Rattle.std.specs.Prelude.{◌≡◌, ◌↔◌, ◌-◌, ◌<◌, ◌≤◌, length, take, drop, [], true, false};
ghost use Rattle.std.specs.Prelude.{◌++◌, IsUtf8, Option, Some, IsErrAnd};
ghost use Rattle.std.specs.Prelude.{None, IfOk, OnOk, OnErr, IsErrOf, unwrap_or, IfErr};
ghost use Rattle.enc_utf8.specs.Validity.{IsLongestPrefix, IsWellFormedUtf8};
ghost use Rattle.enc_stream.specs.declared.bom.BomHandling.TheVariants.{Sniff};
ghost use Rattle.enc_stream.specs.declared.constants.TheConstants.{UTF_8};
ghost use Rattle.std.specs.Char.{encode_utf8};
ghost use Rattle.std.specs.Io.KnownBytes.{IsAtEnd, Consumes, Keeps};
ghost use Rattle.enc_output.specs.Results.{decoder_result_of};
ghost use Rattle.enc_decoder.specs.declared.error_mode.ErrorMode.TheVariants.{Replacement};
ghost use Rattle.enc_decoder.specs.Remainder.{IsUndetermined};
ghost use Rattle.enc_stream.specs.Latin1.{DecoderMayBeLatin1};
ghost use Rattle.enc_stream.specs.Decoding.{has_finished, remaining_sequences, AnswersDecode};
ghost use Rattle.enc_reader.specs.Source.{IsExhausted};
ghost use Rattle.enc_reader.specs.Recent.{SameEnd};
ghost use Rattle.std.proofs.Props.{props};

mod reporting;

use crate::caused::{Caused, ReadError};
use crate::recent::shift_in;
use crate::source::Source;
use enc_decoder_utf::plain::is_incomplete_sequence;
use enc_stream::constants::UTF_8;
use enc_stream::laws::ascii_compatible_decode_ascii;
use enc_stream::{BomHandling, CoderResult, Decoder, Encoding};
pub use reporting::{ReadStop, TextPart};
use std::{fmt, io};

/// The least number of bytes that are lent. Fewer are decoded together with those that
/// follow, since a caller writes each text by itself.
const LEAST_LENT: usize = 4096;

/// Why a read failed.
#[derive(PartialEq, Eq, Debug, Drop)]
pub enum ReadFault {
    /// The source failed in this read, or returned bytes 2^64 - 1 times in it with neither text nor
    /// end.
    Reader = 1,
    /// A read before has failed.
    Failed = 2,
}

/// Returns the numbers of the faults.
fn numbers() -> (u8, u8)
    ensures { result ≡ (1, 2) }
{
    (ReadFault::Reader as u8, ReadFault::Failed as u8)
}

/// The text of a read that may lend it. [`DecodeReader::text`] returns its bytes.
#[derive(Clone, Copy, Debug)]
pub struct HandedText {
    /// Its length in bytes.
    pub(crate) len: usize,
    /// Whether it is in the reader's own buffer, before the undecoded bytes.
    pub(crate) lent: bool,
}

/// The bytes of the buffer that the source has returned and that are not decoded.
#[derive(Clone, Copy)]
struct UnreadPart {
    /// The offset of the first of them.
    at: usize,
    /// The offset after the last of them.
    filled: usize,
}

/// The outcome of a call of the decoder.
#[derive(Clone, Copy)]
struct CallOutcome {
    result: CoderResult,
    /// The number of bytes read.
    read: usize,
    /// The number of bytes of text written.
    written: usize,
    /// Whether U+FFFD was written for a malformed sequence.
    replaced: bool,
}

/// The outcome of a turn of the decoder.
#[derive(Clone, Copy)]
struct TurnOutcome {
    /// The number of bytes of text written.
    written: usize,
    /// Whether U+FFFD was written for a malformed sequence.
    replaced: bool,
    /// Whether more bytes must be read: there is neither text nor the end.
    waits: bool,
}

impl TurnOutcome {
    /// Returns the outcome of a turn that has written nothing.
    fn without_text(replaced: bool, waits: bool) -> TurnOutcome
        ensures written { result.written ≡ 0 }
        ensures replaced { result.replaced ≡ replaced }
        ensures waits { result.waits ≡ waits }
    {
        TurnOutcome {
            written: 0,
            replaced,
            waits,
        }
    }
}

/// Decodes the unread part of `input`, whose bytes stay as they are.
fn decode_unread(
    decoder: &mut Decoder,
    input: &mut [u8],
    unread: UnreadPart,
    dst: &mut [u8],
    last: bool,
) -> CallOutcome
    requires unfinished { has_finished decoder.old ≡ false }
    requires before { unread.at ≤ unread.filled }
    requires within { unread.filled ≤ length input.old }
    ensures call { AnswersDecode encode_utf8 4 decoder.old decoder.new (record {
      src = take (unread.filled - unread.at) (drop unread.at input.old);
      last = last;
      mode = Replacement;
      room = length dst.old;
      result = decoder_result_of result.result;
      read = result.read;
      wrote = take result.written dst.new;
      replaced = result.replaced;
    }) }
    ensures written { result.written ≤ length dst.old }
    ensures rest { drop result.written dst.new ≡ drop result.written dst.old }
    ensures kept { input.new ≡ input.old }
{
    let src = &input[unread.at..unread.filled];
    let (result, read, written, replaced) = decoder.decode_to_utf8(src, dst, last);
    CallOutcome {
        result,
        read,
        written,
        replaced,
    }
}

/// Moves the bytes of `input` from `at` to `filled` to its start. Returns the last eight bytes of
/// `recent` and then those before `at`.
fn move_to_start(input: &mut [u8], recent: [u8; 8], at: usize, filled: usize) -> [u8; 8]
    requires before { at ≤ filled }
    requires within { filled ≤ length input.old }
    ensures recent { result ≡ drop (length (take at input.old)) (recent ++ take at input.old) }
    ensures moved { take (filled - at) input.new ≡ take (filled - at) (drop at input.old) }
    ensures length { length input.new ≡ length input.old }
{
    let shifted = shift_in(recent, &input[..at]);
    input.copy_within(at..filled, 0);
    shifted
}

/// Reads the next bytes of a source into `input`, after its first `held` bytes, which stay. Returns
/// their number, as [`Source::pull`] does.
fn pull_after<R: Source>(reader: &mut R, input: &mut [u8], held: usize) -> Result<usize, ()>
    requires going { R.has_failed reader.old ≡ false }
    requires room { held < length input.old }
    ensures held { take held input.new ≡ take held input.old }
    ensures length { length input.new ≡ length input.old }
    ensures bound { IfOk result (λ n. n ≤ length input.old - held) }
    ensures bytes { IfOk result (λ n. Consumes (R.remaining reader.old)
        (R.remaining reader.new) (take n (drop held input.new))) }
    ensures end { IfOk result (λ n. n ≡ 0 → IsAtEnd (R.remaining reader.new)) }
    ensures ok { OnOk result (R.has_failed reader.new ≡ R.has_failed reader.old) }
    ensures none_given { OnErr result (Keeps (R.remaining reader.old) (R.remaining reader.new)) }
    ensures err { OnErr result (R.has_failed reader.new ≡ true) }
{
    reader.pull(&mut input[held..])
}

/// Returns the length of the longest prefix that is well-formed UTF-8, sooner if all is ASCII.
fn utf_8_len(bytes: &[u8]) -> usize
    ensures { IsLongestPrefix IsWellFormedUtf8 bytes.now result }
{
    let ascii = Encoding::ascii_valid_up_to(bytes);
    if ascii == bytes.len() {
        return ascii;
    }
    Encoding::utf8_valid_up_to(bytes)
}

/// Reads a source of bytes as text, a chunk at a time (Encoding Standard 6, "decode").
///
/// It writes UTF-8 into buffers of any size from four bytes on, with U+FFFD for each malformed
/// sequence. If the bytes begin with a byte order mark, its encoding is used, and the byte order
/// mark is no part of the text.
///
/// It borrows the source and the buffer that it reads into, and takes no memory.
#[derive(Drop)]
pub struct DecodeReader<'a, R: Source> {
    reader: &'a mut R,
    decoder: Decoder,
    input: &'a mut [u8],
    // the number of bytes of `input` that the source has returned, and how many of them are decoded
    filled: usize,
    at: usize,
    // the last bytes decoded before those of `input`
    recent: [u8; 8],
    // the number of bytes that the source has given, up to 2^64 - 1
    given: u64,
    // whether the source is at its end
    ended: bool,
    failed: bool,
    had_errors: bool,
    ghost decoded: { at ≤ filled },
    ghost within: { filled ≤ length input.now },
    ghost some: { 0 < length input.now },
    ghost seen: { has_finished decoder ≡ true → ended ≡ true },
    ghost exhausted: { ended ≡ true
        → IsExhausted (R.remaining reader.now) } by { Prim.hlevel props },
    ghost going: { failed ≡ false → R.has_failed reader.now ≡ false },
    ghost settled: { at ≡ filled → ended ≡ false
        → IsUndetermined (remaining_sequences decoder) } by { Prim.hlevel props },
    ghost same_end: { SameEnd decoder.pending
        (recent ++ take at input.now) } by { Prim.hlevel props },
}

impl<'a, R: Source> fmt::Debug for DecodeReader<'a, R> {
    /// Writes the encoding, whether the source is at its end, whether the reader has failed, and
    /// whether it had errors: no bytes.
    fn fmt<W: fmt::Write>(&self, f: &mut fmt::Formatter<W>) -> fmt::Result {
        f.debug_struct("DecodeReader")
            .field("encoding", &self.decoder.encoding())
            .field("ended", &self.ended)
            .field("failed", &self.failed)
            .field("had_errors", &self.had_errors)
            .finish_non_exhaustive()
    }
}

impl<'a, R: Source> DecodeReader<'a, R> {
    ghost use Rattle.std.specs.Prelude.{ℕ, List};
    ghost use Rattle.enc_stream.specs.Decoding.{whole_encoding, whole_sequences};
    ghost use Rattle.enc_reader.specs.Reading.{FailsToRead, HandsOut, IsReaderAtEnd};
    ghost use Rattle.enc_reader.specs.Reading.{fresh_reader, sniffing_reader};
    ghost use Rattle.enc_reader.specs.Reading.{owed_sequences, owed_encoding};
    ghost use Rattle.enc_reader.specs.Reading.{NoneDetermined, FillsRoom};
    ghost use Rattle.enc_stream.specs.Faults.{whole_faults};
    ghost use Rattle.std.specs.Prelude.{◌≢◌, IfSome, OnSome, Some};
    ghost use Rattle.std.specs.IoError.{error_kind};
    ghost use Rattle.std.specs.declared.io.ErrorKind.TheVariants as ErrorKind;
    ghost use Rattle.enc_reader.specs.Errors.{IsErrorOfReader};
    ghost use Rattle.enc_reader.specs.Turn.{IsOwnText, IsTurn, HasBytesAtHand};
    ghost use Rattle.enc_reader.specs.Lending.{LendsLongText};
    ghost use Rattle.enc_reader.specs.Items.{whole_items};
    ghost use Rattle.enc_reader.specs.Counting.{HasGiven, owed_faults, owed_items, CountsBytes};
    ghost use Rattle.enc_reader.specs.Counting.{PullsCounted, FillsCounted, HandsOutCounted};
    ghost use Rattle.enc_reader.specs.Reader.{IsAtHand, handed_text, state_of, written_len};

    /// Returns a reader of `reader`, through the buffer `input`.
    ///
    /// It decodes by `encoding`, or by UTF-8 if that is `None`. A byte order mark overrides both.
    /// Nothing is read yet. If the source has failed, so has the reader. Condition: `input` is not
    /// empty.
    pub fn new(
        reader: &'a mut R,
        encoding: Option<Encoding>,
        input: &'a mut [u8],
    ) -> DecodeReader<'a, R>
        requires buffer { 0 < length input.old }
        ensures fresh { state_of result ≡ sniffing_reader (unwrap_or encoding UTF_8) }
        ensures owed { (z : List ℕ) → owed_sequences (state_of result) z ≡ whole_sequences Sniff
            (unwrap_or encoding UTF_8) z }
        ensures encoding { (z : List ℕ) → owed_encoding (state_of result) z ≡ whole_encoding Sniff
            (unwrap_or encoding UTF_8) z }
        ensures faults { (z : List ℕ) → owed_faults 0 (state_of result) z ≡ whole_faults Sniff
            (unwrap_or encoding UTF_8) z }
        ensures items { (z : List ℕ) → owed_items 0 (state_of result) z ≡ whole_items Sniff
            (unwrap_or encoding UTF_8) z }
        ensures failed { result.failed ≡ R.has_failed reader.old }
        ensures no_errors { result.had_errors ≡ false }
        ensures given { HasGiven result.given (state_of result) 0 }
        ensures reader { result.reader.now ≡ reader.old }
        ensures buffer_len { length result.input.now ≡ length input.old }
        ensures same_reader { result.reader.ghost_name ≡ reader.entry.ghost_name }
    {
        let encoding = encoding.unwrap_or(UTF_8);
        DecodeReader::with_bom_handling(reader, encoding, BomHandling::Sniff, input)
    }

    /// Returns a reader of `reader`, through the buffer `input`, that looks for the byte order
    /// marks of `handling`.
    ///
    /// It decodes by `encoding`. With `Sniff` a byte order mark overrides it. With `Remove` only
    /// the byte order mark of `encoding` is looked for, and with `Off` none is. One that is found
    /// is no part of the text. Nothing is read yet. If the source has failed, so has the reader.
    /// Condition: `input` is not empty.
    pub fn with_bom_handling(
        reader: &'a mut R,
        encoding: Encoding,
        handling: BomHandling,
        input: &'a mut [u8],
    ) -> DecodeReader<'a, R>
        requires buffer { 0 < length input.old }
        ensures fresh { state_of result ≡ fresh_reader handling encoding }
        ensures owed { (z : List ℕ) → owed_sequences (state_of result) z
            ≡ whole_sequences handling encoding z }
        ensures encoding { (z : List ℕ) → owed_encoding (state_of result) z
            ≡ whole_encoding handling encoding z }
        ensures faults { (z : List ℕ) → owed_faults 0 (state_of result) z
            ≡ whole_faults handling encoding z }
        ensures items { (z : List ℕ) → owed_items 0 (state_of result) z
            ≡ whole_items handling encoding z }
        ensures failed { result.failed ≡ R.has_failed reader.old }
        ensures no_errors { result.had_errors ≡ false }
        ensures given { HasGiven result.given (state_of result) 0 }
        ensures reader { result.reader.now ≡ reader.old }
        ensures buffer_len { length result.input.now ≡ length input.old }
        ensures same_reader { result.reader.ghost_name ≡ reader.entry.ghost_name }
    {
        let failed = reader.failed();
        DecodeReader {
            reader,
            decoder: encoding.new_decoder_with_bom_handling(handling),
            input,
            filled: 0,
            at: 0,
            recent: [0; 8],
            given: 0,
            ended: false,
            failed,
            had_errors: false,
        }
    }

    /// Reads the next chunk into the buffer, after the bytes that are not decoded, which move to
    /// its start. After an `Err`, which is `Reader`, the source has failed.
    fn pull(&mut self) -> Result<(), ReadFault>
        requires not_ended { self.old.ended ≡ false }
        requires room { self.old.filled - self.old.at < length self.old.input.now }
        requires going { self.old.failed ≡ false }
        ensures ok { OnOk result (PullsCounted (R.remaining self.old.reader.now)
            (R.remaining self.new.reader.now) (state_of self.old) (state_of self.new)
            self.old.given self.new.given) }
        ensures kept { OnOk result (R.has_failed self.new.reader.now
            ≡ R.has_failed self.old.reader.now) }
        ensures going { OnOk result (self.new.failed ≡ self.old.failed) }
        ensures none_given { OnErr result (Keeps (R.remaining self.old.reader.now)
            (R.remaining self.new.reader.now)) }
        ensures err { OnErr result (R.has_failed self.new.reader.now ≡ true) }
        ensures failed { OnErr result (self.new.failed ≡ true) }
        ensures same { OnErr result (state_of self.new ≡ state_of self.old) }
        ensures fault { IfErr result (λ fault. fault ≡ ReadFault.Reader) }
        ensures buffer_len { length self.new.input.now ≡ length self.old.input.now }
        ensures had_errors { self.new.had_errors ≡ self.old.had_errors }
        ensures same_reader { self.new.reader.ghost_name ≡ self.old.reader.ghost_name }
    {
        let recent = move_to_start(self.input, self.recent, self.at, self.filled);
        self.recent = recent;
        self.filled -= self.at;
        self.at = 0;
        let Ok(n) = pull_after(self.reader, self.input, self.filled) else {
            self.failed = true;
            return Err(ReadFault::Reader);
        };
        self.filled += n;
        self.given = self.given.saturating_add(n as u64);
        self.ended = n == 0;
        Ok(())
    }

    /// Decodes the unread bytes, or the end, as far as there is room.
    fn decode(&mut self, dst: &mut [u8]) -> TurnOutcome
        requires room { 4 ≤ length dst.old }
        ensures turn { IsTurn (state_of self.old) (state_of self.new)
            (take result.written dst.new) result.replaced result.waits }
        ensures counts { CountsBytes (state_of self.old) (state_of self.new) self.old.given
            self.new.given [] }
        ensures full { FillsRoom (length dst.old) result.written (state_of self.new) }
        ensures written { result.written ≤ length dst.new }
        ensures rest { drop result.written dst.new ≡ drop result.written dst.old }
        ensures waits { result.waits ≡ true → result.written ≡ 0 }
        ensures reader { self.new.reader ≡ self.old.reader }
        ensures buffer_len { length self.new.input.now ≡ length self.old.input.now }
        ensures failed { self.new.failed ≡ self.old.failed }
        ensures had_errors { self.new.had_errors ≡ self.old.had_errors }
    {
        if self.decoder.is_finished() {
            return TurnOutcome::without_text(false, false);
        }
        if (self.at == self.filled) & !self.ended {
            return TurnOutcome::without_text(false, true);
        }
        let unread = UnreadPart {
            at: self.at,
            filled: self.filled,
        };
        let call = decode_unread(&mut self.decoder, self.input, unread, dst, self.ended);
        self.at += call.read;
        if call.written > 0 {
            return TurnOutcome {
                written: call.written,
                replaced: call.replaced,
                waits: false,
            };
        }
        TurnOutcome::without_text(call.replaced, !self.decoder.is_finished())
    }

    /// Writes the next text to `dst`, in UTF-8: as many whole characters as fit.
    ///
    /// Returns the number of bytes written, 0 only at the end, and then in each later read. The
    /// source is read only while the bytes that it has given determine no text. So text that is
    /// determined waits for no more bytes, and is not lost if the source fails. It may be shorter
    /// than the room. The bytes of `dst` after it are unchanged. Condition: `dst` has at least four
    /// bytes.
    ///
    /// Errors write nothing: `Reader` if the source failed in this read (no error of it is tried
    /// again), and `Failed` in each later read.
    ///
    /// ```rust
    /// let mut source = FromRead::new(b"\x93caf\xE9\x94".as_slice());
    /// let mut buffer = [0; 64];
    /// let mut reader = DecodeReader::new(&mut source, Some(WINDOWS_1252), &mut buffer);
    /// let mut text = [0; 64];
    /// assert!(rt; reader.read_str(&mut text) == Ok(11));
    /// assert!(rt; &text[..11] == "“café”".as_bytes());
    /// assert!(rt; reader.read_str(&mut text) == Ok(0));
    /// ```
    pub fn read_str(&mut self, dst: &mut [u8]) -> Result<usize, ReadFault>
        requires room { 4 ≤ length dst.old }
        ensures ok { IfOk result (λ n. HandsOut (R.remaining self.old.reader.now)
            (R.remaining self.new.reader.now) (state_of self.old) (state_of self.new)
            (take n dst.new) self.old.had_errors self.new.had_errors) }
        ensures counted { IfOk result (λ n. HandsOutCounted (R.remaining self.old.reader.now)
            (R.remaining self.new.reader.now) (state_of self.old) (state_of self.new)
            self.old.given self.new.given (take n dst.new) self.old.had_errors
            self.new.had_errors) }
        ensures full { IfOk result (λ n. FillsRoom (length dst.old) n (state_of self.new)) }
        ensures within { IfOk result (λ n. n ≤ length dst.new) }
        ensures utf_8 { IfOk result (λ n. IsUtf8 (take n dst.new)) }
        ensures rest { IfOk result (λ n. drop n dst.new ≡ drop n dst.old) }
        ensures end { IfOk result (λ n. n ≡ 0 → IsReaderAtEnd (R.remaining self.new.reader.now)
            (state_of self.new)) }
        ensures kept { OnOk result (R.has_failed self.new.reader.now
            ≡ R.has_failed self.old.reader.now) }
        ensures unwritten { OnErr result (dst.new ≡ dst.old) }
        ensures no_error { OnErr result (self.new.had_errors ≡ self.old.had_errors) }
        ensures reader_fault { IsErrOf result ReadFault.Reader
            → FailsToRead (R.remaining self.old.reader.now) (R.remaining self.new.reader.now)
            (R.has_failed self.old.reader.now) (R.has_failed self.new.reader.now)
            (state_of self.old) (state_of self.new) }
        ensures from_then_on { IsErrOf result ReadFault.Failed ↔ self.old.failed ≡ true }
        ensures unchanged { IsErrOf result ReadFault.Failed → self.new ≡ self.old }
        ensures going { OnOk result (self.new.failed ≡ false) }
        ensures failed { OnErr result (self.new.failed ≡ true) }
        ensures buffer_len { length self.new.input.now ≡ length self.old.input.now }
        ensures same_reader { self.new.reader.ghost_name ≡ self.old.reader.ghost_name }
    {
        if self.failed {
            return Err(ReadFault::Failed);
        }
        let mut turn = self.decode(dst);
        let mut replaced = turn.replaced;
        let mut pulls = 0;
        'pulls: while turn.waits {
            if pulls == u64::MAX {
                self.failed = true;
                return Err(ReadFault::Reader);
            }
            pulls += 1;
            self.pull()?;
            turn = self.decode(dst);
            replaced |= turn.replaced;
        }
        self.had_errors |= replaced;
        Ok(turn.written)
    }

    /// Reads the next text into `dst` as [`DecodeReader::read_str`] does, and returns it.
    ///
    /// It is empty only at the end, and then in each later read. An `Err` has the cause of the
    /// fault, if the source keeps that. Condition: `dst` has at least four bytes.
    ///
    /// ```rust
    /// let mut source = FromRead::new(b"\x93caf\xE9\x94".as_slice());
    /// let mut buffer = [0; 64];
    /// let mut reader = DecodeReader::new(&mut source, Some(WINDOWS_1252), &mut buffer);
    /// let mut room = [0; 64];
    /// let text = reader.read_text(&mut room)?;
    /// assert!(rt; text == "“café”");
    /// ```
    pub fn read_text<'b>(&mut self, dst: &'b mut [u8]) -> Result<&'b str, ReadError>
        requires room { 4 ≤ length dst.old }
        ensures ok { IfOk result (λ text. HandsOut (R.remaining self.old.reader.now)
            (R.remaining self.new.reader.now) (state_of self.old) (state_of self.new)
            text.now self.old.had_errors self.new.had_errors) }
        ensures counted { IfOk result (λ text. HandsOutCounted (R.remaining self.old.reader.now)
            (R.remaining self.new.reader.now) (state_of self.old) (state_of self.new)
            self.old.given self.new.given text.now self.old.had_errors self.new.had_errors) }
        ensures full { IfOk result (λ text.
            FillsRoom (length dst.old) (length text.now) (state_of self.new)) }
        ensures end { IfOk result (λ text. text.now ≡ []
            → IsReaderAtEnd (R.remaining self.new.reader.now) (state_of self.new)) }
        ensures kept { OnOk result (R.has_failed self.new.reader.now
            ≡ R.has_failed self.old.reader.now) }
        ensures no_error { OnErr result (self.new.had_errors ≡ self.old.had_errors) }
        ensures reader_fault { IfErr result (λ e. e.fault ≡ ReadFault.Reader
            → FailsToRead (R.remaining self.old.reader.now) (R.remaining self.new.reader.now)
            (R.has_failed self.old.reader.now) (R.has_failed self.new.reader.now)
            (state_of self.old) (state_of self.new)) }
        ensures failed_before { IfErr result (λ e. e.fault ≡ ReadFault.Failed
            → (self.old.failed ≡ true) × (self.new ≡ self.old)) }
        ensures refused { self.old.failed ≡ true
            → IsErrAnd result (λ e. e.fault ≡ ReadFault.Failed) }
        ensures cause { IfErr result (λ e. IfSome e.cause
            (λ cause. R.error self.new.reader.now ≡ Some cause)) }
        ensures going { OnOk result (self.new.failed ≡ false) }
        ensures failed { OnErr result (self.new.failed ≡ true) }
        ensures buffer_len { length self.new.input.now ≡ length self.old.input.now }
        ensures same_reader { self.new.reader.ghost_name ≡ self.old.reader.ghost_name }
    {
        match self.read_str(dst) {
            Ok(len) => Ok(unsafe { str::from_utf8_unchecked(&dst[..len]) }),
            Err(fault) => Err(self.with_cause(fault)),
        }
    }

    /// Returns whether the decoder is between two sequences, and no byte order mark may come.
    fn is_between(&self) -> bool
        ensures { result ≡ true ↔ DecoderMayBeLatin1 (state_of self.now).decoder }
    {
        self.decoder.latin1_byte_compatible_up_to(&[]).is_some()
    }

    /// Returns whether no sequence is determined: every byte is decoded, or the rest is an
    /// incomplete sequence of UTF-8. It may be false for a rest that fills the buffer.
    fn lacks_bytes(&self) -> bool
        requires going { self.now.ended ≡ false }
        ensures room { result ≡ true
            → self.now.filled - self.now.at < length self.now.input.now }
        ensures none_determined { result ≡ true → NoneDetermined (state_of self.now) }
        ensures few { result ≡ true → length (state_of self.now).unread < 4 }
        ensures at_hand { result ≡ false
            → HasBytesAtHand (length self.now.input.now) (state_of self.now) }
    {
        if self.at == self.filled {
            return true;
        }
        let unread = &self.input[self.at..self.filled];
        unread.len() < self.input.len()
            && is_incomplete_sequence(unread)
            && self.decoder.encoding() == UTF_8
            && self.is_between()
    }

    /// Reads chunks while the buffer lacks bytes and the source is not at its end. After an `Err`,
    /// which is `Reader`, the source has failed.
    fn fill(&mut self) -> Result<(), ReadFault>
        requires going { self.old.failed ≡ false }
        ensures ok { OnOk result (FillsCounted (R.remaining self.old.reader.now)
            (R.remaining self.new.reader.now) (state_of self.old) (state_of self.new)
            self.old.given self.new.given) }
        ensures kept { OnOk result (R.has_failed self.new.reader.now
            ≡ R.has_failed self.old.reader.now) }
        ensures going { OnOk result (self.new.failed ≡ false) }
        ensures err { OnErr result (FailsToRead (R.remaining self.old.reader.now)
            (R.remaining self.new.reader.now) (R.has_failed self.old.reader.now)
            (R.has_failed self.new.reader.now) (state_of self.old) (state_of self.new)) }
        ensures failed { OnErr result (self.new.failed ≡ true) }
        ensures fault { IfErr result (λ fault. fault ≡ ReadFault.Reader) }
        ensures at_hand { OnOk result (self.new.ended ≡ false
            → HasBytesAtHand (length self.new.input.now) (state_of self.new)) }
        ensures buffer_len { length self.new.input.now ≡ length self.old.input.now }
        ensures had_errors { self.new.had_errors ≡ self.old.had_errors }
        ensures same_reader { self.new.reader.ghost_name ≡ self.old.reader.ghost_name }
    {
        'pulls: while !self.ended && self.lacks_bytes() {
            self.pull()?;
        }
        Ok(())
    }

    /// Returns the number of unread bytes at the front that are their own text.
    ///
    /// In UTF-8 they are well-formed, and in another ASCII-compatible encoding they are ASCII. It
    /// is 0 in other encodings, while a byte order mark may come, and within a sequence.
    fn text_ahead(&self) -> usize
        ensures within { result ≤ self.now.filled - self.now.at }
        ensures own { 0 < result → IsOwnText (state_of self.now).decoder
            (take result (state_of self.now).unread) }
        ensures longest { (n : ℕ) → result < n → n ≤ length (state_of self.now).unread
            → ¬ (IsOwnText (state_of self.now).decoder (take n (state_of self.now).unread)) }
    {
        if !self.is_between() {
            return 0;
        }
        let encoding = self.decoder.encoding();
        let unread = &self.input[self.at..self.filled];
        if encoding == UTF_8 {
            return utf_8_len(unread);
        }
        ascii_compatible_decode_ascii(encoding);
        if encoding.is_ascii_compatible() {
            return Encoding::ascii_valid_up_to(unread);
        }
        0
    }

    /// Hands out the next text as [`DecodeReader::read_str`] does, but lends long bytes that are
    /// their own text.
    ///
    /// These are well-formed in UTF-8, and ASCII in another ASCII-compatible encoding. Where 4096
    /// of them or more come next, among the undecoded bytes and those read in this call, all of
    /// them are lent. This needs a decoder between two sequences with no byte order mark to come,
    /// and a buffer of its own of at least four bytes. Fewer than 4096 are never lent.
    ///
    /// Lent text stays in the reader's own buffer, and is not copied; `dst` is unchanged then.
    /// [`DecodeReader::text`] returns the text, until the next read. It is empty only at the end.
    /// Errors are those of `read_str`. Condition: `dst` has at least four bytes.
    pub fn read_or_lend(&mut self, dst: &mut [u8]) -> Result<HandedText, ReadFault>
        requires room { 4 ≤ length dst.old }
        ensures ok { IfOk result (λ handed. HandsOut (R.remaining self.old.reader.now)
            (R.remaining self.new.reader.now) (state_of self.old) (state_of self.new)
            (handed_text self.new dst.new handed) self.old.had_errors self.new.had_errors) }
        ensures counted { IfOk result (λ handed. HandsOutCounted
            (R.remaining self.old.reader.now) (R.remaining self.new.reader.now)
            (state_of self.old) (state_of self.new) self.old.given self.new.given
            (handed_text self.new dst.new handed) self.old.had_errors self.new.had_errors) }
        ensures at_hand { IfOk result (λ handed. IsAtHand self.new dst.new handed) }
        ensures utf_8 { IfOk result (λ handed. IsUtf8 (handed_text self.new dst.new handed)) }
        ensures end { IfOk result (λ handed. handed_text self.new dst.new handed ≡ []
            → IsReaderAtEnd (R.remaining self.new.reader.now) (state_of self.new)) }
        ensures rest { IfOk result (λ handed. drop (written_len handed) dst.new
            ≡ drop (written_len handed) dst.old) }
        ensures least { IfOk result (λ handed. handed.lent ≡ true
            → 4096 ≤ length (handed_text self.new dst.new handed)) }
        ensures lends { IfOk result (λ handed. 4 ≤ length self.old.input.now → LendsLongText
            (R.remaining self.old.reader.now) (R.remaining self.new.reader.now)
            (state_of self.old) (state_of self.new) (handed_text self.new dst.new handed)
            self.old.had_errors self.new.had_errors handed.lent) }
        ensures length { length dst.new ≡ length dst.old }
        ensures kept { OnOk result (R.has_failed self.new.reader.now
            ≡ R.has_failed self.old.reader.now) }
        ensures unwritten { OnErr result (dst.new ≡ dst.old) }
        ensures no_error { OnErr result (self.new.had_errors ≡ self.old.had_errors) }
        ensures reader_fault { IsErrOf result ReadFault.Reader
            → FailsToRead (R.remaining self.old.reader.now) (R.remaining self.new.reader.now)
            (R.has_failed self.old.reader.now) (R.has_failed self.new.reader.now)
            (state_of self.old) (state_of self.new) }
        ensures from_then_on { IsErrOf result ReadFault.Failed ↔ self.old.failed ≡ true }
        ensures unchanged { IsErrOf result ReadFault.Failed → self.new ≡ self.old }
        ensures going { OnOk result (self.new.failed ≡ false) }
        ensures failed { OnErr result (self.new.failed ≡ true) }
        ensures buffer_len { length self.new.input.now ≡ length self.old.input.now }
        ensures same_reader { self.new.reader.ghost_name ≡ self.old.reader.ghost_name }
    {
        if self.failed {
            return Err(ReadFault::Failed);
        }
        self.fill()?;
        let len = self.text_ahead();
        if len >= LEAST_LENT {
            self.at += len;
            return Ok(HandedText { len, lent: true });
        }
        let len = self.read_str(dst)?;
        Ok(HandedText { len, lent: false })
    }

    /// Returns the text of the last read, which got `dst`.
    ///
    /// Condition: there was no read, and no write to `dst`, since.
    pub fn text<'b>(&'b self, dst: &'b [u8], handed: HandedText) -> &'b str
        requires at_hand { IsAtHand self.now dst.now handed }
        requires utf_8 { IsUtf8 (handed_text self.now dst.now handed) }
        ensures { result.now ≡ handed_text self.now dst.now handed }
    {
        unsafe { str::from_utf8_unchecked(self.handed_bytes(dst, handed)) }
    }

    /// Returns the bytes of the text of the last read, which got `dst`.
    pub(crate) fn handed_bytes<'b>(&'b self, dst: &'b [u8], handed: HandedText) -> &'b [u8]
        requires at_hand { IsAtHand self.now dst.now handed }
        ensures { result.now ≡ handed_text self.now dst.now handed }
    {
        if handed.lent {
            &self.input[self.at - handed.len..self.at]
        } else {
            &dst[..handed.len]
        }
    }

    /// Returns the error for which the source has failed, if the source keeps it.
    ///
    /// It may be called after a fault.
    pub fn error(&self) -> Option<io::Error>
        ensures kept { IfSome result (λ e. R.error self.now.reader.now ≡ Some e) }
        ensures failed { OnSome result (self.now.failed ≡ true) }
        ensures retried { IfSome result (λ e. error_kind e ≢ ErrorKind.Interrupted) }
    {
        self.reader.error()
    }

    /// Returns a fault with the error that caused it, if the source keeps that.
    pub fn with_cause(&self, fault: ReadFault) -> ReadError
        ensures fault { result.fault ≡ fault }
        ensures cause { IfSome result.cause (λ e. R.error self.now.reader.now ≡ Some e) }
        ensures failed { OnSome result.cause (self.now.failed ≡ true) }
    {
        Caused::new(fault, self.error())
    }

    /// Returns a fault as an I/O error: the source's own, or one of the kind `Other`.
    pub(crate) fn io_error(&self, fault: ReadFault) -> io::Error
        ensures { IsErrorOfReader (R.error self.now.reader.now) result }
    {
        match self.error() {
            Some(error) => error,
            None => io::Error::from(fault),
        }
    }

    /// Returns the encoding that its decoder decodes, after a fault too.
    ///
    /// That is the encoding of a byte order mark read, or otherwise the one that it was made with.
    pub fn encoding(&self) -> Encoding
        ensures { result ≡ self.now.decoder.encoding }
    {
        self.decoder.encoding()
    }

    /// Returns whether U+FFFD was handed out for a malformed sequence.
    ///
    /// It may be called after a fault too.
    pub fn had_errors(&self) -> bool
        ensures { result ≡ self.now.had_errors }
    {
        self.had_errors
    }
}
