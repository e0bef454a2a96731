//! Text line by line, with its malformed sequences and their places.

ghost use Rattle.std.specs.Prelude.{◌≡◌, ◌-◌, ◌<◌, ◌≤◌, length, take, drop, [], true, false, Some};
ghost use Rattle.std.specs.Prelude.{None, IfOk, OnOk, OnErr, IfErr, IfSome, IsErrOf};
ghost use Rattle.std.specs.Prelude.{string_len, vec_len, IsUtf8, ◌+◌, Ok};

use crate::caused::{Caused, LineReaderError};
use crate::decode_reader::{DecodeReader, ReadFault};
use crate::line::{Line, PlacedSequence};
use crate::line_reader_fault::LineReaderFault;
use crate::lines::line_len;
use crate::malformed_policy::MalformedPolicy;
use crate::malformed_sequence::MalformedSequence;
use crate::position::Position;
use crate::source::Source;
use std::alloc::AllocError;

/// A part of a line that is taken.
#[derive(Clone, Copy, PartialEq, Eq, Debug)]
enum Taken {
    /// Text up to and with a line feed.
    LineEnd,
    /// Text without a line feed, or a malformed sequence.
    Part,
    /// Nothing: the text is at its end.
    Nothing,
}

/// The text of a [`DecodeReader`] line by line, with the malformed sequences in each line.
///
/// A [`MalformedPolicy`] says what stands for a malformed sequence. Each comes with its offset in
/// the input, its bytes, its line and its column.
///
/// It borrows a buffer for text, and takes memory for lines alone. A
/// [`DecodedText`](crate::DecodedText) reads lines where no places are asked, in fewer steps.
///
/// ```rust
/// let mut source = FromRead::new(b"caf\xE9\n".as_slice());
/// let mut buffer = [0; 64];
/// let reader = DecodeReader::new(&mut source, Some(UTF_8), &mut buffer);
/// let mut room = [0; 64];
/// let mut lines = LineReader::new(reader, &mut room, MalformedPolicy::Escape);
/// let mut line = Line::new(rt.alloc());
/// assert!(rt; lines.read_line(&mut line)?);
/// assert!(rt; line.text() == "caf\\xe9\n");
/// for found in line.malformed() {
///     let place = found.position();
///     assert!(rt; (place.line(), place.column()) == (1, 4));
/// }
/// ```
#[derive(Drop)]
pub struct LineReader<'a, R: Source> {
    reader: DecodeReader<'a, R>,
    text: &'a mut [u8],
    // the text that is held
    at: usize,
    filled: usize,
    // the malformed sequence that follows it
    malformed: Option<MalformedSequence>,
    policy: MalformedPolicy,
    // the place of the first character that is held
    position: Position,
    ghost order: { at ≤ filled },
    ghost within: { filled ≤ length text.now },
    ghost utf_8: { ∥ IsUtf8 (take (filled - at) (drop at text.now)) ∥₁ },
    ghost room: { 4 ≤ length text.now },
}

impl<'a, R: Source> LineReader<'a, R> {
    ghost use Rattle.enc_reader.specs.Reader.{state_of};
    ghost use Rattle.enc_reader.specs.Lines.{line_state_of, TakesItems, TakesPart};
    ghost use Rattle.enc_reader.specs.Lines.{ReadsLine, StopsLine, FailsToFill, AreLinesAtEnd};
    ghost use Rattle.enc_reader.specs.Lines.{SameLine};
    ghost use Rattle.enc_reader.specs.Places.{start_of_text};

    /// Returns the lines of the text that `reader` still hands out, through the buffer `text`.
    ///
    /// Nothing is read yet, and nothing is held. Lines and columns count from here. Condition:
    /// `text` has at least four bytes.
    pub fn new(
        reader: DecodeReader<'a, R>,
        text: &'a mut [u8],
        policy: MalformedPolicy,
    ) -> LineReader<'a, R>
        requires room { 4 ≤ length text.old }
        ensures reader { result.reader ≡ reader.entry }
        ensures none_held { (line_state_of result).held ≡ [] }
        ensures position { result.position ≡ start_of_text }
        ensures policy { result.policy ≡ policy }
    {
        LineReader {
            reader,
            text,
            at: 0,
            filled: 0,
            malformed: None,
            policy,
            position: Position::start(),
        }
    }

    /// Returns the reader, which may have handed out more text than is taken yet.
    pub fn reader(&self) -> &DecodeReader<'a, R>
        ensures { result.now ≡ self.now.reader }
    {
        &self.reader
    }

    /// Returns the place of the next character or malformed sequence.
    ///
    /// It may be called between any two reads, after a fault too.
    pub fn position(&self) -> Position
        ensures { result ≡ (line_state_of self.now).position }
    {
        self.position
    }

    /// Returns the policy for malformed sequences.
    pub fn policy(&self) -> MalformedPolicy
        ensures { result ≡ self.now.policy }
    {
        self.policy
    }

    /// Returns the text that is held.
    fn held(&self) -> &str
        ensures { result.now ≡ take (self.now.filled - self.now.at)
            (drop self.now.at self.now.text.now) }
    {
        unsafe { str::from_utf8_unchecked(&self.text[self.at..self.filled]) }
    }

    /// Reads the next text, and the malformed sequence after it, if none is held.
    fn fill(&mut self) -> Result<(), ReadFault>
        ensures takes { OnOk result (TakesItems (R.remaining self.old.reader.reader.now)
            (R.remaining self.new.reader.reader.now) (line_state_of self.old)
            (line_state_of self.new) [] false) }
        ensures end { OnOk result (self.new.at ≡ self.new.filled → self.new.malformed ≡ None
            → AreLinesAtEnd (R.remaining self.new.reader.reader.now) (line_state_of self.new)) }
        ensures err { IfErr result (λ fault. FailsToFill (R.remaining self.old.reader.reader.now)
            (R.remaining self.new.reader.reader.now) (line_state_of self.old)
            (line_state_of self.new) (R.has_failed self.old.reader.reader.now)
            (R.has_failed self.new.reader.reader.now) fault) }
        ensures failed { OnErr result (self.new.reader.failed ≡ true) }
        ensures failed_before { IsErrOf result ReadFault.Failed
            → self.old.reader.failed ≡ true }
        ensures kept { OnOk result (R.has_failed self.new.reader.reader.now
            ≡ R.has_failed self.old.reader.reader.now) }
        ensures going { OnOk result (self.new.reader.failed ≡ self.old.reader.failed) }
        ensures policy { self.new.policy ≡ self.old.policy }
        ensures same_reader { self.new.reader.reader.ghost_name
            ≡ self.old.reader.reader.ghost_name }
    {
        if self.at < self.filled || self.malformed.is_some() {
            return Ok(());
        }
        self.at = 0;
        self.filled = 0;
        match self.reader.read_reporting(self.text) {
            Ok(reported) => {
                self.filled = reported.written;
                self.malformed = reported.malformed;
                Ok(())
            }
            Err(fault) => Err(fault),
        }
    }

    /// Takes the text that is held, up to and with its first line feed. Returns whether it has one.
    fn take_text(&mut self, line: &mut Line) -> Result<bool, AllocError>
        requires some { self.old.at < self.old.filled }
        ensures ok { IfOk result (TakesPart self.old.policy
            (R.remaining self.old.reader.reader.now) (R.remaining self.new.reader.reader.now)
            (line_state_of self.old) (line_state_of self.new) line.old line.new) }
        ensures err { OnErr result ((line_state_of self.new ≡ line_state_of self.old)
            × SameLine line.old line.new) }
        ensures grows { OnOk result (string_len line.old.text + vec_len line.old.malformed
            < string_len line.new.text + vec_len line.new.malformed) }
        ensures reader { self.new.reader ≡ self.old.reader }
        ensures policy { self.new.policy ≡ self.old.policy }
    {
        let held = self.held();
        let len = line_len(held.as_bytes());
        let (part, _) = held.split_at(len);
        line.push_text(part)?;
        let is_line = part.as_bytes()[len - 1] == b'\n';
        self.position = self.position.after_part(part, is_line);
        self.at += len;
        Ok(is_line)
    }

    /// Takes the malformed sequence that is held, where no text is held before it.
    fn take_malformed(
        &mut self,
        sequence: MalformedSequence,
        line: &mut Line,
    ) -> Result<(), LineReaderFault>
        requires held { self.old.malformed ≡ Some sequence }
        requires none_before { self.old.at ≡ self.old.filled }
        ensures ok { OnOk result (TakesPart self.old.policy
            (R.remaining self.old.reader.reader.now) (R.remaining self.new.reader.reader.now)
            (line_state_of self.old) (line_state_of self.new) line.old line.new false) }
        ensures err { IfErr result (StopsLine self.old.policy
            (R.remaining self.old.reader.reader.now) (R.remaining self.new.reader.reader.now)
            (line_state_of self.old) (line_state_of self.new) line.old line.new
            (R.has_failed self.old.reader.reader.now) (R.has_failed self.new.reader.reader.now)) }
        ensures grows { OnOk result (string_len line.old.text + vec_len line.old.malformed
            < string_len line.new.text + vec_len line.new.malformed) }
        ensures reported { IfErr result (λ fault. (found : PlacedSequence)
            → fault ≡ LineReaderFault.Malformed found
            → self.old.policy ≡ MalformedPolicy.Report) }
        ensures no_read { (fault : ReadFault) → IsErrOf result (LineReaderFault.Read fault) → ⊥ }
        ensures reader { self.new.reader ≡ self.old.reader }
        ensures policy { self.new.policy ≡ self.old.policy }
    {
        let found = PlacedSequence::new(sequence, self.position);
        if self.policy != MalformedPolicy::Report {
            if line.push_malformed(found, self.policy).is_err() {
                return Err(LineReaderFault::Memory);
            }
        }
        self.malformed = None;
        self.position = self.position.after('\u{FFFD}');
        if self.policy == MalformedPolicy::Report {
            return Err(LineReaderFault::Malformed(found));
        }
        Ok(())
    }

    /// Takes the next text of a line that is held, or the malformed sequence after it.
    fn take_held(&mut self, line: &mut Line) -> Result<Taken, LineReaderFault>
        ensures line_end { result ≡ Ok Taken.LineEnd → TakesPart self.old.policy
            (R.remaining self.old.reader.reader.now) (R.remaining self.new.reader.reader.now)
            (line_state_of self.old) (line_state_of self.new) line.old line.new true }
        ensures part { result ≡ Ok Taken.Part → TakesPart self.old.policy
            (R.remaining self.old.reader.reader.now) (R.remaining self.new.reader.reader.now)
            (line_state_of self.old) (line_state_of self.new) line.old line.new false }
        ensures unchanged { result ≡ Ok Taken.Nothing → self.new ≡ self.old }
        ensures same_line { result ≡ Ok Taken.Nothing → line.new ≡ line.old }
        ensures none_held { result ≡ Ok Taken.Nothing → self.old.at ≡ self.old.filled }
        ensures unreported { result ≡ Ok Taken.Nothing → self.old.malformed ≡ None }
        ensures grows { result ≡ Ok Taken.Part
            → string_len line.old.text + vec_len line.old.malformed
            < string_len line.new.text + vec_len line.new.malformed }
        ensures err { IfErr result (StopsLine self.old.policy
            (R.remaining self.old.reader.reader.now) (R.remaining self.new.reader.reader.now)
            (line_state_of self.old) (line_state_of self.new) line.old line.new
            (R.has_failed self.old.reader.reader.now) (R.has_failed self.new.reader.reader.now)) }
        ensures reported { IfErr result (λ fault. (found : PlacedSequence)
            → fault ≡ LineReaderFault.Malformed found
            → self.old.policy ≡ MalformedPolicy.Report) }
        ensures no_read { (fault : ReadFault) → IsErrOf result (LineReaderFault.Read fault) → ⊥ }
        ensures reader { self.new.reader ≡ self.old.reader }
        ensures policy { self.new.policy ≡ self.old.policy }
    {
        if self.at < self.filled {
            return match self.take_text(line) {
                Ok(true) => Ok(Taken::LineEnd),
                Ok(false) => Ok(Taken::Part),
                Err(_) => Err(LineReaderFault::Memory),
            };
        }
        let Some(sequence) = self.malformed else {
            return Ok(Taken::Nothing);
        };
        match self.take_malformed(sequence, line) {
            Ok(()) => Ok(Taken::Part),
            Err(fault) => Err(fault),
        }
    }

    /// Takes the next text of a line, or the next malformed sequence. Reads if none is held.
    fn take_next(&mut self, line: &mut Line) -> Result<Taken, LineReaderFault>
        ensures line_end { result ≡ Ok Taken.LineEnd → TakesPart self.old.policy
            (R.remaining self.old.reader.reader.now) (R.remaining self.new.reader.reader.now)
            (line_state_of self.old) (line_state_of self.new) line.old line.new true }
        ensures part { result ≡ Ok Taken.Part → TakesPart self.old.policy
            (R.remaining self.old.reader.reader.now) (R.remaining self.new.reader.reader.now)
            (line_state_of self.old) (line_state_of self.new) line.old line.new false }
        ensures nothing { result ≡ Ok Taken.Nothing
            → TakesItems (R.remaining self.old.reader.reader.now)
            (R.remaining self.new.reader.reader.now) (line_state_of self.old)
            (line_state_of self.new) [] false }
        ensures at_end { result ≡ Ok Taken.Nothing
            → AreLinesAtEnd (R.remaining self.new.reader.reader.now) (line_state_of self.new) }
        ensures same_line { result ≡ Ok Taken.Nothing → line.new ≡ line.old }
        ensures grows { result ≡ Ok Taken.Part
            → string_len line.old.text + vec_len line.old.malformed
            < string_len line.new.text + vec_len line.new.malformed }
        ensures err { IfErr result (StopsLine self.old.policy
            (R.remaining self.old.reader.reader.now) (R.remaining self.new.reader.reader.now)
            (line_state_of self.old) (line_state_of self.new) line.old line.new
            (R.has_failed self.old.reader.reader.now) (R.has_failed self.new.reader.reader.now)) }
        ensures reported { IfErr result (λ fault. (found : PlacedSequence)
            → fault ≡ LineReaderFault.Malformed found
            → self.old.policy ≡ MalformedPolicy.Report) }
        ensures failed { (fault : ReadFault) → IsErrOf result (LineReaderFault.Read fault)
            → self.new.reader.failed ≡ true }
        ensures failed_before { IsErrOf result (LineReaderFault.Read ReadFault.Failed)
            → self.old.reader.failed ≡ true }
        ensures kept { OnOk result (R.has_failed self.new.reader.reader.now
            ≡ R.has_failed self.old.reader.reader.now) }
        ensures going { OnOk result (self.new.reader.failed ≡ self.old.reader.failed) }
        ensures policy { self.new.policy ≡ self.old.policy }
        ensures same_reader { self.new.reader.reader.ghost_name
            ≡ self.old.reader.reader.ghost_name }
    {
        match self.fill() {
            Ok(()) => self.take_held(line),
            Err(fault) => Err(LineReaderFault::Read(fault)),
        }
    }

    /// Does [`LineReader::read_line`], without the cause of a fault.
    fn append_line(&mut self, line: &mut Line) -> Result<bool, LineReaderFault>
        ensures ok { IfOk result (ReadsLine self.old.policy
            (R.remaining self.old.reader.reader.now) (R.remaining self.new.reader.reader.now)
            (line_state_of self.old) (line_state_of self.new) line.old line.new) }
        ensures err { IfErr result (StopsLine self.old.policy
            (R.remaining self.old.reader.reader.now) (R.remaining self.new.reader.reader.now)
            (line_state_of self.old) (line_state_of self.new) line.old line.new
            (R.has_failed self.old.reader.reader.now) (R.has_failed self.new.reader.reader.now)) }
        ensures reported { IfErr result (λ fault. (found : PlacedSequence)
            → fault ≡ LineReaderFault.Malformed found
            → self.old.policy ≡ MalformedPolicy.Report) }
        ensures failed { (fault : ReadFault) → IsErrOf result (LineReaderFault.Read fault)
            → self.new.reader.failed ≡ true }
        ensures failed_before { IsErrOf result (LineReaderFault.Read ReadFault.Failed)
            → self.old.reader.failed ≡ true }
        ensures kept { OnOk result (R.has_failed self.new.reader.reader.now
            ≡ R.has_failed self.old.reader.reader.now) }
        ensures going { OnOk result (self.new.reader.failed ≡ self.old.reader.failed) }
        ensures policy { self.new.policy ≡ self.old.policy }
        ensures same_reader { self.new.reader.reader.ghost_name
            ≡ self.old.reader.reader.ghost_name }
    {
        let mut some = false;
        'parts: loop {
            match self.take_next(line) {
                Ok(Taken::LineEnd) => return Ok(true),
                Ok(Taken::Part) => some = true,
                Ok(Taken::Nothing) => return Ok(some),
                Err(fault) => return Err(fault),
            }
        }
    }

    /// Returns a fault with the error that caused it, if the reader failed and its source keeps
    /// that.
    fn with_cause(&self, fault: LineReaderFault) -> LineReaderError
        ensures fault { result.fault ≡ fault }
        ensures cause { IfSome result.cause (λ e. R.error self.now.reader.reader.now ≡ Some e) }
    {
        let cause = match &fault {
            LineReaderFault::Read(_) => self.reader.error(),
            _ => None,
        };
        Caused::new(fault, cause)
    }

    /// Appends the next line to `line`: its text with its line feed U+000A, and its malformed
    /// sequences.
    ///
    /// Without a line feed it goes to the end of the text. Returns whether anything is taken:
    /// `false` only at the end. (A line may be empty still, if its malformed sequences are
    /// ignored.) What `line` had before stays, so a caller clears it between two lines.
    ///
    /// After an `Err` nothing is lost: what comes before the fault is appended, and the next call
    /// goes on after it.
    ///
    /// - `Malformed`: with [`MalformedPolicy::Report`] alone. The next call goes on after the
    ///   sequence, which is not appended.
    /// - `Read`: the reader failed, as [`DecodeReader::read_str`] does: `Reader` in this call, and
    ///   `Failed` in each later one. The cause is the error of the source, if it keeps that.
    /// - `Memory`: what comes next is still to be read.
    pub fn read_line(&mut self, line: &mut Line) -> Result<bool, LineReaderError>
        ensures ok { IfOk result (ReadsLine self.old.policy
            (R.remaining self.old.reader.reader.now) (R.remaining self.new.reader.reader.now)
            (line_state_of self.old) (line_state_of self.new) line.old line.new) }
        ensures err { IfErr result (λ e. StopsLine self.old.policy
            (R.remaining self.old.reader.reader.now) (R.remaining self.new.reader.reader.now)
            (line_state_of self.old) (line_state_of self.new) line.old line.new
            (R.has_failed self.old.reader.reader.now) (R.has_failed self.new.reader.reader.now)
            e.fault) }
        ensures reported { IfErr result (λ e. (found : PlacedSequence)
            → e.fault ≡ LineReaderFault.Malformed found
            → self.old.policy ≡ MalformedPolicy.Report) }
        ensures failed { IfErr result (λ e. (fault : ReadFault)
            → e.fault ≡ LineReaderFault.Read fault → self.new.reader.failed ≡ true) }
        ensures failed_before { IfErr result (λ e.
            e.fault ≡ LineReaderFault.Read ReadFault.Failed → self.old.reader.failed ≡ true) }
        ensures cause { IfErr result (λ e. IfSome e.cause
            (λ cause. R.error self.new.reader.reader.now ≡ Some cause)) }
        ensures kept { OnOk result (R.has_failed self.new.reader.reader.now
            ≡ R.has_failed self.old.reader.reader.now) }
        ensures going { OnOk result (self.new.reader.failed ≡ self.old.reader.failed) }
        ensures policy { self.new.policy ≡ self.old.policy }
        ensures same_reader { self.new.reader.reader.ghost_name
            ≡ self.old.reader.reader.ghost_name }
    {
        match self.append_line(line) {
            Ok(some) => Ok(some),
            Err(fault) => Err(self.with_cause(fault)),
        }
    }
}
