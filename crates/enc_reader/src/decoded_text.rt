//! The text of a reader for the traits of `std`, and line by line.

ghost use Rattle.std.specs.Prelude.{◌≡◌, ◌+◌, ◌-◌, ◌<◌, ◌≤◌, length, drop, []};
ghost use Rattle.std.specs.Prelude.{true, false, Some, IfOk, OnOk, OnErr, IfErr, IsErrOf};
ghost use Rattle.std.specs.Prelude.{string_bytes, string_len};
ghost use Rattle.std.specs.Str.{IsUtf8};
ghost use Rattle.std.specs.Io.{appended_bytes};
ghost use Rattle.std.specs.Io.KnownBytes.{Consumes};
ghost use Rattle.std.specs.Io.BufRead.{DropsConsumable};
ghost use Rattle.enc_reader.specs.Reader.{IsAtHand, handed_text};

use crate::caused::{Caused, LineError};
use crate::decode_reader::{DecodeReader, HandedText, ReadFault};
use crate::line_fault::LineFault;
use crate::lines::{append, line_len};
use crate::source::Source;
use std::io;
use std::io::{BufRead, ErrorKind, Read};

/// The text of a [`DecodeReader`], in UTF-8, line by line and as a reader of `std`.
///
/// It implements `Read` and `BufRead`, so `lines`, `read_to_string` and `io::copy` work on it. It
/// holds the text that the reader has handed out until it is taken.
///
/// It borrows a buffer for that text, and takes no memory.
#[derive(Drop)]
pub struct DecodedText<'a, R: Source> {
    reader: DecodeReader<'a, R>,
    text: &'a mut [u8],
    // the text of the last read, and how many bytes of it are taken
    handed: HandedText,
    at: usize,
    ghost at_hand: { IsAtHand reader text.now handed },
    ghost within: { at ≤ handed.len },
    ghost utf_8: { ∥ IsUtf8 (handed_text reader text.now handed) ∥₁ },
    ghost room: { 4 ≤ length text.now },
}

impl<'a, R: Source> DecodedText<'a, R> {
    ghost use Rattle.enc_reader.specs.HeldText.{text_state_of, remaining_text, TakesText};
    ghost use Rattle.enc_reader.specs.Reader.{state_of};
    ghost use Rattle.enc_reader.specs.Reading.{FailsToRead};
    ghost use Rattle.enc_reader.specs.HeldText.{IsTextAtEnd, AppendsText, AppendsLine, SourceFails};
    ghost use Rattle.enc_reader.specs.HeldText.{BeginsWithCharacter, FillsText};
    ghost use Rattle.std.specs.Prelude.{IfSome};
    ghost use Rattle.std.specs.Str.{IsCharBoundary};
    ghost use types.Logic.{sem};
    ghost use mir.Syntax.{named};
    ghost use Rattle.std.specs.Io.{StartsWith};
    ghost use Rattle.std.specs.Io.BufRead.{Rests};
    ghost use Rattle.enc_reader.specs.contracts.decoded_text.DecodedText.{the_row as text-row};
    ghost use Rattle.enc_reader.specs.Errors.{IsErrorOfReader};

    /// Returns the text that `reader` still hands out, through the buffer `text`.
    ///
    /// Nothing is read yet, and nothing is held. Condition: `text` has at least four bytes.
    pub fn new(reader: DecodeReader<'a, R>, text: &'a mut [u8]) -> DecodedText<'a, R>
        requires room { 4 ≤ length text.old }
        ensures reader { result.reader ≡ reader.entry }
        ensures none_held { (text_state_of result).held ≡ [] }
    {
        DecodedText {
            reader,
            text,
            handed: HandedText {
                len: 0,
                lent: false,
            },
            at: 0,
        }
    }

    /// Returns the reader, which may have handed out more text than is taken yet.
    pub fn reader(&self) -> &DecodeReader<'a, R>
        ensures { result.now ≡ self.now.reader }
    {
        &self.reader
    }

    /// Returns the text that is held.
    fn held(&self) -> &[u8]
        ensures value { result.now ≡ (text_state_of self.now).held }
        ensures len { length result.now ≡ self.now.handed.len - self.now.at }
    {
        let all = self.reader.handed_bytes(self.text, self.handed);
        &all[self.at..]
    }

    /// Takes the first bytes of the text that is held.
    fn advance(&mut self, amount: usize)
        requires within { amount ≤ self.old.handed.len - self.old.at }
        ensures held { (text_state_of self.new).held ≡ drop amount (text_state_of self.old).held }
        ensures reader { self.new.reader ≡ self.old.reader }
    {
        self.at += amount;
    }

    /// Reads the next text if none is held. None is held after an `Err`.
    fn fill(&mut self) -> Result<(), ReadFault>
        ensures takes { TakesText (R.remaining self.old.reader.reader.now)
            (R.remaining self.new.reader.reader.now) (text_state_of self.old)
            (text_state_of self.new) [] }
        ensures end { OnOk result ((text_state_of self.new).held ≡ []
            → IsTextAtEnd (R.remaining self.new.reader.reader.now) (text_state_of self.new)) }
        ensures utf_8 { IsUtf8 (text_state_of self.old).held
            → IsUtf8 (text_state_of self.new).held }
        ensures none_held { OnErr result ((text_state_of self.new).held ≡ []) }
        ensures failed { OnErr result (self.new.reader.failed ≡ true) }
        ensures unchanged { OnErr result (self.old.reader.failed ≡ true
            → self.new.reader ≡ self.old.reader) }
        ensures reader_fault { IsErrOf result ReadFault.Reader
            → FailsToRead (R.remaining self.old.reader.reader.now)
            (R.remaining self.new.reader.reader.now) (R.has_failed self.old.reader.reader.now)
            (R.has_failed self.new.reader.reader.now) (state_of self.old.reader)
            (state_of self.new.reader) }
        ensures failed_before { IsErrOf result ReadFault.Failed
            → self.old.reader.failed ≡ true }
        ensures kept { OnOk result (R.has_failed self.new.reader.reader.now
            ≡ R.has_failed self.old.reader.reader.now) }
        ensures going { OnOk result (self.new.reader.failed ≡ self.old.reader.failed) }
        ensures same_reader { self.new.reader.reader.ghost_name
            ≡ self.old.reader.reader.ghost_name }
    {
        if self.at < self.handed.len {
            return Ok(());
        }
        self.handed = HandedText {
            len: 0,
            lent: false,
        };
        self.at = 0;
        match self.reader.read_or_lend(self.text) {
            Ok(handed) => {
                self.handed = handed;
                Ok(())
            }
            Err(fault) => Err(fault),
        }
    }

    /// Does [`DecodedText::fill`], with the error of the reader in place of its fault.
    fn fill_or_error(&mut self) -> io::Result<()>
        ensures takes { TakesText (R.remaining self.old.reader.reader.now)
            (R.remaining self.new.reader.reader.now) (text_state_of self.old)
            (text_state_of self.new) [] }
        ensures end { OnOk result ((text_state_of self.new).held ≡ []
            → IsTextAtEnd (R.remaining self.new.reader.reader.now) (text_state_of self.new)) }
        ensures error { IfErr result
            (λ error. IsErrorOfReader (R.error self.new.reader.reader.now) error) }
        ensures source_fails { OnErr result (self.old.reader.failed ≡ false
            → SourceFails (R.remaining self.old.reader.reader.now)
            (R.remaining self.new.reader.reader.now) (R.has_failed self.old.reader.reader.now)
            (R.has_failed self.new.reader.reader.now) (text_state_of self.new)) }
        ensures failed { OnErr result (self.new.reader.failed ≡ true) }
        ensures unchanged { OnErr result (self.old.reader.failed ≡ true
            → self.new.reader ≡ self.old.reader) }
        ensures going { OnOk result (self.new.reader.failed ≡ self.old.reader.failed) }
        ensures same_reader { self.new.reader.reader.ghost_name
            ≡ self.old.reader.reader.ghost_name }
    {
        match self.fill() {
            Ok(()) => Ok(()),
            Err(fault) => Err(self.reader.io_error(fault)),
        }
    }

    /// Appends the next text to `line`, up to and with its first line feed. Returns whether the
    /// line is whole: it has its line feed, or nothing follows.
    fn append_part(&mut self, line: &mut String) -> Result<bool, LineFault>
        ensures ok { IfOk result (AppendsLine (R.remaining self.old.reader.reader.now)
            (R.remaining self.new.reader.reader.now) (text_state_of self.old)
            (text_state_of self.new) (string_bytes line.old) (string_bytes line.new)) }
        ensures some { IfOk result (λ is_whole. is_whole ≡ false
            → string_len line.old < string_len line.new) }
        ensures grows { string_len line.old ≤ string_len line.new }
        ensures err { OnErr result (string_bytes line.new ≡ string_bytes line.old) }
        ensures none_lost { OnErr result (TakesText (R.remaining self.old.reader.reader.now)
            (R.remaining self.new.reader.reader.now) (text_state_of self.old)
            (text_state_of self.new) []) }
        ensures utf_8 { IsUtf8 (text_state_of self.old).held
            → IsUtf8 (text_state_of self.new).held }
        ensures cut { IsErrOf result LineFault.MidCharacter
            → IsUtf8 (text_state_of self.old).held → ⊥ }
        ensures none_held { IsErrOf result (LineFault.Read ReadFault.Reader)
            → (text_state_of self.new).held ≡ [] }
        ensures reader_fault { IsErrOf result (LineFault.Read ReadFault.Reader)
            → FailsToRead (R.remaining self.old.reader.reader.now)
            (R.remaining self.new.reader.reader.now) (R.has_failed self.old.reader.reader.now)
            (R.has_failed self.new.reader.reader.now) (state_of self.old.reader)
            (state_of self.new.reader) }
        ensures failed_before { IsErrOf result (LineFault.Read ReadFault.Failed)
            → self.old.reader.failed ≡ true }
        ensures memory { IsErrOf result LineFault.Memory
            → self.new.reader.failed ≡ self.old.reader.failed }
        ensures memory_of_text { IsErrOf result LineFault.Memory
            → BeginsWithCharacter (text_state_of self.new).held }
        ensures cut_going { IsErrOf result LineFault.MidCharacter
            → self.new.reader.failed ≡ self.old.reader.failed }
        ensures kept { OnOk result (R.has_failed self.new.reader.reader.now
            ≡ R.has_failed self.old.reader.reader.now) }
        ensures going { OnOk result (self.new.reader.failed ≡ self.old.reader.failed) }
        ensures same_reader { self.new.reader.reader.ghost_name
            ≡ self.old.reader.reader.ghost_name }
    {
        if let Err(fault) = self.fill() {
            return Err(LineFault::Read(fault));
        }
        let held = self.held();
        if held.is_empty() {
            return Ok(true);
        }
        let len = line_len(held);
        let part = &held[..len];
        let is_whole = part[len - 1] == b'\n';
        append(line, part)?;
        self.advance(len);
        Ok(is_whole)
    }

    /// Returns a fault with the error that caused it, if the reader failed and its source keeps
    /// that.
    fn with_cause(&self, fault: LineFault) -> LineError
        ensures fault { result.fault ≡ fault }
        ensures cause { IfSome result.cause (λ e. R.error self.now.reader.reader.now ≡ Some e) }
    {
        let cause = match &fault {
            LineFault::Read(_) => self.reader.error(),
            _ => None,
        };
        Caused::new(fault, cause)
    }

    /// Returns the text that is held, after one read of the reader if none is.
    ///
    /// It is empty only at the end. [`BufRead::consume`] takes its first bytes: until then each
    /// call returns the same text, and nothing is read.
    ///
    /// Errors, after which nothing is lost: `Read`, with the cause, if the reader failed, and
    /// `MidCharacter` after `read` or `consume` has taken a part of a character, until it takes the
    /// rest.
    pub fn fill_text(&mut self) -> Result<&str, LineError>
        ensures shown { IfSome (remaining_text (R.remaining self.old.reader.reader.now)
            (text_state_of self.old)) (λ xs. IfOk result (λ text. StartsWith xs text.now)) }
        ensures end { IfSome (remaining_text (R.remaining self.old.reader.reader.now)
            (text_state_of self.old)) (λ xs. IfOk result (λ text. length text.now ≡ 0 → xs ≡ [])) }
        ensures cut { IfErr result (λ e. e.fault ≡ LineFault.MidCharacter
            → IsUtf8 (text_state_of self.old).held → ⊥) }
        ensures failed_before { IfErr result (λ e. e.fault ≡ LineFault.Read ReadFault.Failed
            → self.old.reader.failed ≡ true) }
        ensures* after_borrow { sem 𝓛 (Rests
            (text-row (record { mir = named 1; lft = [] }) R.row R.Source) self.entry (λ new.
            FillsText (R.remaining self.old.reader.reader.now) (R.remaining new.reader.reader.now)
            (text_state_of self.old) (text_state_of new) result)) }
    {
        if let Err(error) = self.fill_whole() {
            return Err(error);
        }
        Ok(self.held_text())
    }

    /// Reads the next text if none is held. An `Err` too if what is held begins within a character.
    fn fill_whole(&mut self) -> Result<(), LineError>
        ensures takes { TakesText (R.remaining self.old.reader.reader.now)
            (R.remaining self.new.reader.reader.now) (text_state_of self.old)
            (text_state_of self.new) [] }
        ensures end { OnOk result ((text_state_of self.new).held ≡ []
            → IsTextAtEnd (R.remaining self.new.reader.reader.now) (text_state_of self.new)) }
        ensures whole { OnOk result
            (IsCharBoundary (handed_text self.new.reader self.new.text.now self.new.handed)
            self.new.at) }
        ensures cut { IfErr result (λ e. e.fault ≡ LineFault.MidCharacter
            → IsUtf8 (text_state_of self.old).held → ⊥) }
        ensures read { IfErr result (λ e. (e.fault ≡ LineFault.Memory) → ⊥) }
        ensures failed_before { IfErr result (λ e. e.fault ≡ LineFault.Read ReadFault.Failed
            → self.old.reader.failed ≡ true) }
        ensures same_reader { self.new.reader.reader.ghost_name
            ≡ self.old.reader.reader.ghost_name }
    {
        if let Err(fault) = self.fill() {
            return Err(self.with_cause(LineFault::Read(fault)));
        }
        let at = self.at;
        if !self.handed_text().is_char_boundary(at) {
            return Err(self.with_cause(LineFault::MidCharacter));
        }
        Ok(())
    }

    /// Returns the text that the reader has handed out last.
    fn handed_text(&self) -> &str
        ensures { result.now ≡ handed_text self.now.reader self.now.text.now self.now.handed }
    {
        self.reader.text(self.text, self.handed)
    }

    /// Returns the text that is held, which does not begin within a character.
    fn held_text(&self) -> &str
        requires whole { IsCharBoundary (handed_text self.now.reader self.now.text.now
            self.now.handed) self.now.at }
        ensures { result.now ≡ (text_state_of self.now).held }
    {
        let at = self.at;
        let (_, rest) = self.handed_text().split_at(at);
        rest
    }

    /// Does [`DecodedText::read_line`], without the cause of a fault.
    fn append_line(&mut self, line: &mut String) -> Result<usize, LineFault>
        ensures ok { OnOk result (AppendsLine (R.remaining self.old.reader.reader.now)
            (R.remaining self.new.reader.reader.now) (text_state_of self.old)
            (text_state_of self.new) (string_bytes line.old) (string_bytes line.new) true) }
        ensures count { IfOk result (λ n. string_len line.new ≡ string_len line.old + n) }
        ensures none_lost { AppendsText (R.remaining self.old.reader.reader.now)
            (R.remaining self.new.reader.reader.now) (text_state_of self.old)
            (text_state_of self.new) (string_bytes line.old) (string_bytes line.new) }
        ensures known { Consumes
            (remaining_text (R.remaining self.old.reader.reader.now) (text_state_of self.old))
            (remaining_text (R.remaining self.new.reader.reader.now) (text_state_of self.new))
            (appended_bytes (string_bytes line.old) (string_bytes line.new)) }
        ensures utf_8 { IsUtf8 (text_state_of self.old).held
            → IsUtf8 (text_state_of self.new).held }
        ensures cut { IsErrOf result LineFault.MidCharacter
            → IsUtf8 (text_state_of self.old).held → ⊥ }
        ensures reader_fault { IsErrOf result (LineFault.Read ReadFault.Reader)
            → SourceFails (R.remaining self.old.reader.reader.now)
            (R.remaining self.new.reader.reader.now) (R.has_failed self.old.reader.reader.now)
            (R.has_failed self.new.reader.reader.now) (text_state_of self.new) }
        ensures failed_before { IsErrOf result (LineFault.Read ReadFault.Failed)
            → self.old.reader.failed ≡ true }
        ensures memory { IsErrOf result LineFault.Memory
            → self.new.reader.failed ≡ self.old.reader.failed }
        ensures memory_of_text { IsErrOf result LineFault.Memory
            → BeginsWithCharacter (text_state_of self.new).held }
        ensures cut_going { IsErrOf result LineFault.MidCharacter
            → self.new.reader.failed ≡ self.old.reader.failed }
        ensures kept { OnOk result (R.has_failed self.new.reader.reader.now
            ≡ R.has_failed self.old.reader.reader.now) }
        ensures going { OnOk result (self.new.reader.failed ≡ self.old.reader.failed) }
        ensures same_reader { self.new.reader.reader.ghost_name
            ≡ self.old.reader.reader.ghost_name }
    {
        let start = line.len();
        'parts: loop {
            if self.append_part(line)? {
                return Ok(line.len() - start);
            }
        }
    }

    /// Appends the next line to `line`, with its line feed U+000A.
    ///
    /// Without a line feed it goes to the end of the text. Returns the number of bytes appended, 0
    /// only at the end. Takes memory for `line` alone.
    ///
    /// After an `Err` nothing is lost: the text before the fault is appended, and the next call
    /// goes on after it.
    ///
    /// - `Read`: the reader failed, as [`DecodeReader::read_str`] does: `Reader` in this call, and
    ///   `Failed` in each later one. The cause is the error of the source, if it keeps that.
    /// - `Memory`: the text of the fault is still to be read.
    /// - `MidCharacter`: only if `read` or `consume` took a part of a character before. It is
    ///   returned again until `read` or `consume` takes the rest of that character.
    pub fn read_line(&mut self, line: &mut String) -> Result<usize, LineError>
        ensures ok { OnOk result (AppendsLine (R.remaining self.old.reader.reader.now)
            (R.remaining self.new.reader.reader.now) (text_state_of self.old)
            (text_state_of self.new) (string_bytes line.old) (string_bytes line.new) true) }
        ensures count { IfOk result (λ n. string_len line.new ≡ string_len line.old + n) }
        ensures none_lost { AppendsText (R.remaining self.old.reader.reader.now)
            (R.remaining self.new.reader.reader.now) (text_state_of self.old)
            (text_state_of self.new) (string_bytes line.old) (string_bytes line.new) }
        ensures known { Consumes
            (remaining_text (R.remaining self.old.reader.reader.now) (text_state_of self.old))
            (remaining_text (R.remaining self.new.reader.reader.now) (text_state_of self.new))
            (appended_bytes (string_bytes line.old) (string_bytes line.new)) }
        ensures utf_8 { IsUtf8 (text_state_of self.old).held
            → IsUtf8 (text_state_of self.new).held }
        ensures cut { IfErr result (λ e. e.fault ≡ LineFault.MidCharacter
            → IsUtf8 (text_state_of self.old).held → ⊥) }
        ensures reader_fault { IfErr result (λ e. e.fault ≡ LineFault.Read ReadFault.Reader
            → SourceFails (R.remaining self.old.reader.reader.now)
            (R.remaining self.new.reader.reader.now) (R.has_failed self.old.reader.reader.now)
            (R.has_failed self.new.reader.reader.now) (text_state_of self.new)) }
        ensures failed_before { IfErr result (λ e. e.fault ≡ LineFault.Read ReadFault.Failed
            → self.old.reader.failed ≡ true) }
        ensures memory { IfErr result (λ e. e.fault ≡ LineFault.Memory
            → self.new.reader.failed ≡ self.old.reader.failed) }
        ensures memory_of_text { IfErr result (λ e. e.fault ≡ LineFault.Memory
            → BeginsWithCharacter (text_state_of self.new).held) }
        ensures cut_going { IfErr result (λ e. e.fault ≡ LineFault.MidCharacter
            → self.new.reader.failed ≡ self.old.reader.failed) }
        ensures kept { OnOk result (R.has_failed self.new.reader.reader.now
            ≡ R.has_failed self.old.reader.reader.now) }
        ensures going { OnOk result (self.new.reader.failed ≡ self.old.reader.failed) }
        ensures same_reader { self.new.reader.reader.ghost_name
            ≡ self.old.reader.reader.ghost_name }
        ensures cause { IfErr result (λ e. IfSome e.cause
            (λ cause. R.error self.new.reader.reader.now ≡ Some cause)) }
    {
        match self.append_line(line) {
            Ok(n) => Ok(n),
            Err(fault) => Err(self.with_cause(fault)),
        }
    }
}

impl<'a, R: Source> Read for DecodedText<'a, R> {
    ghost use Rattle.std.specs.Prelude.{Ok};
    ghost use Rattle.std.specs.Io.{ReadsAtMost};
    ghost use Rattle.std.specs.Io.KnownBytes.{ReadConsumes};
    ghost use Rattle.enc_reader.specs.Errors.{IsErrorOfReader as IsErrorOf};
    ghost use Rattle.enc_reader.specs.HeldText.{text_state_of as state_in_read, remaining_text as text_in_read};
    ghost use Rattle.enc_reader.specs.HeldText.{TakesText as Takes, IsTextAtEnd as IsAtTextEnd};
    ghost use Rattle.enc_reader.specs.HeldText.{SourceFails as Fails, bytes_of_read};

    // the text still to be taken, if the source models its bytes
    ghost remaining = { λ t. text_in_read (R.remaining t.reader.reader.now) (state_in_read t) };

    /// Takes the next bytes of the text: those that are held, or else of one read of the reader.
    ///
    /// `Ok(0)` only at the end, and for an empty buffer, for which nothing is read. Nothing is lost
    /// after an error: all text that is determined has been taken. It is the error that the source
    /// keeps, as [`crate::FromRead`] does, or one of the kind `Other`, and never of the kind
    /// `Interrupted`. The same error follows in each later read.
    fn read(&mut self, buf: &mut [u8]) -> io::Result<usize>
        ensures bound { ReadsAtMost result buf.new }
        ensures bytes { ReadConsumes
            (text_in_read (R.remaining self.old.reader.reader.now) (state_in_read self.old))
            (text_in_read (R.remaining self.new.reader.reader.now) (state_in_read self.new))
            result buf.new }
        ensures takes { Takes (R.remaining self.old.reader.reader.now)
            (R.remaining self.new.reader.reader.now) (state_in_read self.old)
            (state_in_read self.new) (bytes_of_read result buf.new) }
        ensures end { result ≡ Ok 0 → 0 < length buf.new
            → IsAtTextEnd (R.remaining self.new.reader.reader.now) (state_in_read self.new) }
        ensures none { length buf.old ≡ 0 → result ≡ Ok 0 }
        ensures unread { length buf.old ≡ 0 → self.new ≡ self.old }
        ensures error { IfErr result
            (λ error. IsErrorOf (R.error self.new.reader.reader.now) error) }
        ensures source_fails { OnErr result (self.old.reader.failed ≡ false
            → Fails (R.remaining self.old.reader.reader.now)
            (R.remaining self.new.reader.reader.now) (R.has_failed self.old.reader.reader.now)
            (R.has_failed self.new.reader.reader.now) (state_in_read self.new)) }
        ensures failed { OnErr result (self.new.reader.failed ≡ true) }
        ensures going { OnOk result (self.new.reader.failed ≡ self.old.reader.failed) }
        ensures same_reader { self.new.reader.reader.ghost_name
            ≡ self.old.reader.reader.ghost_name }
    {
        if buf.is_empty() {
            return Ok(0);
        }
        if let Err(error) = self.fill_or_error() {
            return Err(error);
        }
        let held = self.held();
        let len = held.len().min(buf.len());
        buf[..len].copy_from_slice(&held[..len]);
        self.advance(len);
        Ok(len)
    }
}

impl<'a, R: Source> BufRead for DecodedText<'a, R> {
    ghost use Rattle.enc_reader.specs.HeldText.{text_state_of as state_held, remaining_text as text_held};
    ghost use Rattle.enc_reader.specs.Errors.{IsErrorOfReader as IsReaderError};
    ghost use Rattle.std.specs.Prelude.{◌≢◌, IfSome};
    ghost use Rattle.std.specs.IoError.{error_kind};
    ghost use types.Logic.{sem};
    ghost use mir.Syntax.{named};
    ghost use Rattle.std.specs.Io.{StartsWith};
    ghost use Rattle.std.specs.Io.BufRead.{Rests, FillKeeps};
    ghost use Rattle.enc_reader.specs.contracts.decoded_text.DecodedText.{the_row as text-row};

    ghost consumable_len = { λ t. Some (length (state_held t).held) };

    /// Returns the text that is held, after one read of the reader if none is. It is empty only at
    /// the end.
    ///
    /// Errors are those of `read`.
    fn fill_buf(&mut self) -> io::Result<&[u8]>
        ensures front { IfSome (text_held (R.remaining self.old.reader.reader.now)
            (state_held self.old)) (λ xs. IfOk result (λ s. StartsWith xs s.now)) }
        ensures end { IfSome (text_held (R.remaining self.old.reader.reader.now)
            (state_held self.old)) (λ xs. IfOk result (λ s. length s.now ≡ 0 → xs ≡ [])) }
        ensures retried { IfErr result (λ error. error_kind error ≢ ErrorKind.Interrupted) }
        ensures failed_before { IfErr result (λ error. self.old.reader.failed ≡ true
            → IsReaderError (R.error self.old.reader.reader.now) error) }
        ensures* after_borrow { sem 𝓛 (Rests
            (text-row (record { mir = named 1; lft = [] }) R.row R.Source) self.entry (λ new.
            FillKeeps (text_held (R.remaining self.old.reader.reader.now) (state_held self.old))
            (text_held (R.remaining new.reader.reader.now) (state_held new))
            (Some (length (state_held new).held)) result)) }
    {
        if let Err(error) = self.fill_or_error() {
            return Err(error);
        }
        Ok(self.held())
    }

    /// Takes the first bytes of the text that is held, at most all of it.
    fn consume(&mut self, amount: usize)
        ensures bytes { DropsConsumable (text_held (R.remaining self.old.reader.reader.now)
            (state_held self.old)) (text_held (R.remaining self.new.reader.reader.now)
            (state_held self.new)) (Some (length (state_held self.old).held)) amount }
        ensures held { (state_held self.new).held ≡ drop amount (state_held self.old).held }
        ensures reader { self.new.reader ≡ self.old.reader }
    {
        let len = self.held().len().min(amount);
        self.advance(len);
    }
}
