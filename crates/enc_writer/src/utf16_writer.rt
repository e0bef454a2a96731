//! The writer of text in UTF-16.

ghost use Rattle.std.specs.Prelude.{◌≡◌, ◌↔◌, ◌≢◌, ◌+◌, ◌<◌, ◌≤◌, length, take, [], chars};
ghost use Rattle.std.specs.Prelude.{true, false, IfOk, IfErr, OnOk, OnErr, IsErrOf, OnSome, IfSome, Some};
ghost use Rattle.std.specs.IoError.{error_kind};
ghost use Rattle.std.specs.Io.KnownBytes.{Keeps};
ghost use Rattle.std.specs.Str.{IsCharBoundary};

use crate::byte_order::ByteOrder;
use crate::fault::WriteFault;
use crate::pushing::push_all;
use crate::sink::Sink;
use crate::utf16_units::{store_front, store_units};
use crate::write_error::WriteError;
use std::io::ErrorKind;
use std::{fmt, io};

/// The least room for a character: four bytes.
const LEAST_ROOM: usize = 4;

/// The byte order mark, which is one code unit.
const BOM: u16 = 0xFEFF;

/// Writes text to a sink of bytes in UTF-16LE or UTF-16BE, a text at a time (Unicode Standard
/// 3.10).
///
/// The encodings of the Encoding Standard read UTF-16 and write none: an `EncodeWriter` of UTF-16LE
/// writes UTF-8. All characters are mappable. A byte order mark stands first if the writer is made
/// by [`Utf16Writer::with_bom`].
///
/// It borrows the sink and the buffer in which it collects bytes, and takes no memory. A drop
/// pushes and flushes nothing: without [`Utf16Writer::finish`] it loses the bytes held, and reports
/// no error.
///
/// A fault of the sink ends the writer for good, as it ends a [`crate::EncodeWriter`]: each later
/// call returns `Failed`. [`Utf16Writer::error`] names the cause.
#[derive(Drop)]
pub struct Utf16Writer<'a, W: Sink> {
    writer: &'a mut W,
    order: ByteOrder,
    output: &'a mut [u8],
    // the number of bytes at the start of `output` that are held
    filled: usize,
    failed: bool,
    ghost within: { filled ≤ length output.now },
    ghost room: { 4 ≤ length output.now },
    ghost going: { W.has_failed writer.now ≡ failed },
}

impl<'a, W: Sink> Utf16Writer<'a, W> {
    ghost use Rattle.enc_writer.specs.Sink.{AppendsPrefix};
    ghost use Rattle.enc_writer.specs.Utf16Writing.{HasWrittenUtf16, WritesUtf16, StopsUtf16, EndsUtf16};
    ghost use Rattle.enc_writer.specs.Utf16Writing.{fresh_utf16, marked_utf16};
    ghost use Rattle.enc_writer.specs.Utf16Writer.{utf16_writer_of};

    /// Returns a writer to `writer` in this byte order, through the buffer `output`.
    ///
    /// Nothing is written yet, and no byte order mark will be. If the sink has failed, so has the
    /// writer. Condition: `output` has at least 4 bytes.
    pub fn new(writer: &'a mut W, order: ByteOrder, output: &'a mut [u8]) -> Utf16Writer<'a, W>
        requires room { 4 ≤ length output.old }
        ensures fresh { utf16_writer_of result ≡ fresh_utf16 order }
        ensures failed { result.failed ≡ W.has_failed writer.old }
        ensures writer { result.writer.now ≡ writer.old }
        ensures same_writer { result.writer.ghost_name ≡ writer.entry.ghost_name }
    {
        let failed = writer.failed();
        Utf16Writer {
            writer,
            order,
            output,
            filled: 0,
            failed,
        }
    }

    /// Returns a writer as [`Utf16Writer::new`] does, which holds the byte order mark: its bytes
    /// are the first.
    pub fn with_bom(writer: &'a mut W, order: ByteOrder, output: &'a mut [u8]) -> Utf16Writer<'a, W>
        requires room { 4 ≤ length output.old }
        ensures marked { utf16_writer_of result ≡ marked_utf16 order }
        ensures failed { result.failed ≡ W.has_failed writer.old }
        ensures writer { result.writer.now ≡ writer.old }
        ensures same_writer { result.writer.ghost_name ≡ writer.entry.ghost_name }
    {
        let failed = writer.failed();
        store_units(order, &[BOM], output, 0);
        Utf16Writer {
            writer,
            order,
            output,
            filled: 2,
            failed,
        }
    }

    /// Pushes the bytes held. After an `Err`, which is `Writer`, the sink has failed.
    fn push(&mut self) -> Result<(), WriteFault>
        requires going { self.old.failed ≡ false }
        ensures ok { OnOk result (HasWrittenUtf16 (W.contents self.old.writer.now)
            (W.contents self.new.writer.now) (utf16_writer_of self.old) (utf16_writer_of self.new)
            []) }
        ensures none_held { OnOk result (self.new.filled ≡ 0) }
        ensures kept { OnOk result (W.has_failed self.new.writer.now
            ≡ W.has_failed self.old.writer.now) }
        ensures going { OnOk result (self.new.failed ≡ false) }
        ensures err { OnErr result (AppendsPrefix (W.contents self.old.writer.now)
            (W.contents self.new.writer.now) (utf16_writer_of self.old).held) }
        ensures sink_failed { OnErr result (W.has_failed self.new.writer.now ≡ true) }
        ensures failed { OnErr result (self.new.failed ≡ true) }
        ensures fault { IfErr result (λ fault. fault ≡ WriteFault.Writer) }
        ensures order { self.new.order ≡ self.old.order }
        ensures length { length self.new.output.now ≡ length self.old.output.now }
        ensures same_writer { self.new.writer.ghost_name ≡ self.old.writer.ghost_name }
    {
        let Ok(()) = push_all(self.writer, &self.output[..self.filled]) else {
            self.failed = true;
            return Err(WriteFault::Writer);
        };
        self.filled = 0;
        Ok(())
    }

    /// Pushes the bytes held if fewer than 4 bytes are free after them.
    fn make_room(&mut self) -> Result<(), WriteFault>
        requires going { self.old.failed ≡ false }
        ensures ok { OnOk result (HasWrittenUtf16 (W.contents self.old.writer.now)
            (W.contents self.new.writer.now) (utf16_writer_of self.old) (utf16_writer_of self.new)
            []) }
        ensures room { OnOk result (self.new.filled + 4 ≤ length self.new.output.now) }
        ensures kept { OnOk result (W.has_failed self.new.writer.now
            ≡ W.has_failed self.old.writer.now) }
        ensures going { OnOk result (self.new.failed ≡ false) }
        ensures err { OnErr result (AppendsPrefix (W.contents self.old.writer.now)
            (W.contents self.new.writer.now) (utf16_writer_of self.old).held) }
        ensures sink_failed { OnErr result (W.has_failed self.new.writer.now ≡ true) }
        ensures failed { OnErr result (self.new.failed ≡ true) }
        ensures fault { IfErr result (λ fault. fault ≡ WriteFault.Writer) }
        ensures same_writer { self.new.writer.ghost_name ≡ self.old.writer.ghost_name }
    {
        if self.output.len() - self.filled >= LEAST_ROOM {
            return Ok(());
        }
        self.push()
    }

    /// Puts characters of the front of a text into the free part of the buffer, at least one.
    /// Returns their length in bytes.
    fn store(&mut self, text: &str) -> usize
        requires some { 0 < length text.now }
        requires room { self.old.filled + 4 ≤ length self.old.output.now }
        ensures boundary { IsCharBoundary text.now result }
        ensures some { 0 < result }
        ensures stored { HasWrittenUtf16 (W.contents self.old.writer.now)
            (W.contents self.new.writer.now) (utf16_writer_of self.old) (utf16_writer_of self.new)
            (chars (take result text.now)) }
        ensures writer { self.new.writer ≡ self.old.writer }
        ensures failed { self.new.failed ≡ self.old.failed }
    {
        let (read, written) = store_front(self.order, text, self.output, self.filled);
        self.filled += written;
        read
    }

    /// Writes a text: each character as one code unit or two, each code unit as two bytes.
    ///
    /// Its bytes are collected in the buffer, which is pushed when fewer than 4 bytes of it are
    /// free.
    ///
    /// Errors: `Writer` if the sink failed in this call, and `Failed` in each later call. The sink
    /// has taken a prefix of the bytes of all text written, and nothing more is written.
    pub fn write_str(&mut self, text: &str) -> Result<(), WriteFault>
        ensures ok { OnOk result (WritesUtf16 (W.contents self.old.writer.now)
            (W.contents self.new.writer.now) (utf16_writer_of self.old) (utf16_writer_of self.new)
            (chars text.now)) }
        ensures kept { OnOk result (W.has_failed self.new.writer.now
            ≡ W.has_failed self.old.writer.now) }
        ensures going { OnOk result (self.new.failed ≡ false) }
        ensures err { OnErr result (StopsUtf16 (W.contents self.old.writer.now)
            (W.contents self.new.writer.now) (utf16_writer_of self.old) (chars text.now)) }
        ensures sink_failed { OnErr result (W.has_failed self.new.writer.now ≡ true) }
        ensures failed { OnErr result (self.new.failed ≡ true) }
        ensures from_then_on { IsErrOf result WriteFault.Failed ↔ self.old.failed ≡ true }
        ensures unchanged { IsErrOf result WriteFault.Failed → self.new ≡ self.old }
        ensures same_writer { self.new.writer.ghost_name ≡ self.old.writer.ghost_name }
    {
        if self.failed {
            return Err(WriteFault::Failed);
        }
        let mut rest = text;
        'pieces: while !rest.is_empty() {
            self.make_room()?;
            let read = self.store(rest);
            let (_, unread) = rest.split_at(read);
            rest = unread;
        }
        Ok(())
    }

    /// Flushes the sink. After an `Err`, which is `Writer`, the sink has failed.
    fn flush_sink(&mut self) -> Result<(), WriteFault>
        requires going { self.old.failed ≡ false }
        ensures contents { Keeps (W.contents self.old.writer.now)
            (W.contents self.new.writer.now) }
        ensures unchanged { utf16_writer_of self.new ≡ utf16_writer_of self.old }
        ensures filled { self.new.filled ≡ self.old.filled }
        ensures kept { OnOk result (W.has_failed self.new.writer.now
            ≡ W.has_failed self.old.writer.now) }
        ensures going { OnOk result (self.new.failed ≡ false) }
        ensures sink_failed { OnErr result (W.has_failed self.new.writer.now ≡ true) }
        ensures failed { OnErr result (self.new.failed ≡ true) }
        ensures fault { IfErr result (λ fault. fault ≡ WriteFault.Writer) }
        ensures same_writer { self.new.writer.ghost_name ≡ self.old.writer.ghost_name }
    {
        let Ok(()) = self.writer.flush() else {
            self.failed = true;
            return Err(WriteFault::Writer);
        };
        Ok(())
    }

    /// Pushes the bytes held, and flushes the sink: what it writes to passes them on.
    ///
    /// Errors: `Writer` if the sink failed in this call, and `Failed` in each later call. The sink
    /// has taken a prefix of the bytes of all text written, and nothing more is written.
    pub fn flush(&mut self) -> Result<(), WriteFault>
        ensures ok { OnOk result (WritesUtf16 (W.contents self.old.writer.now)
            (W.contents self.new.writer.now) (utf16_writer_of self.old) (utf16_writer_of self.new)
            []) }
        ensures none_held { OnOk result (self.new.filled ≡ 0) }
        ensures kept { OnOk result (W.has_failed self.new.writer.now
            ≡ W.has_failed self.old.writer.now) }
        ensures going { OnOk result (self.new.failed ≡ false) }
        ensures err { OnErr result (StopsUtf16 (W.contents self.old.writer.now)
            (W.contents self.new.writer.now) (utf16_writer_of self.old) []) }
        ensures sink_failed { OnErr result (W.has_failed self.new.writer.now ≡ true) }
        ensures failed { OnErr result (self.new.failed ≡ true) }
        ensures from_then_on { IsErrOf result WriteFault.Failed ↔ self.old.failed ≡ true }
        ensures unchanged { IsErrOf result WriteFault.Failed → self.new ≡ self.old }
        ensures same_writer { self.new.writer.ghost_name ≡ self.old.writer.ghost_name }
    {
        if self.failed {
            return Err(WriteFault::Failed);
        }
        self.push()?;
        self.flush_sink()
    }

    /// Ends the text: pushes the bytes held, and flushes the sink. The sink has taken all bytes.
    ///
    /// Errors: `Writer` if the sink failed in this call, and `Failed` in each later call. The sink
    /// has taken a prefix of the bytes of the text, and nothing more is written.
    pub fn finish(&mut self) -> Result<(), WriteFault>
        ensures ok { OnOk result (EndsUtf16 (W.contents self.old.writer.now)
            (W.contents self.new.writer.now) (utf16_writer_of self.old)) }
        ensures ended { OnOk result (utf16_writer_of self.new ≡ fresh_utf16 self.old.order) }
        ensures kept { OnOk result (W.has_failed self.new.writer.now
            ≡ W.has_failed self.old.writer.now) }
        ensures going { OnOk result (self.new.failed ≡ false) }
        ensures err { OnErr result (StopsUtf16 (W.contents self.old.writer.now)
            (W.contents self.new.writer.now) (utf16_writer_of self.old) []) }
        ensures sink_failed { OnErr result (W.has_failed self.new.writer.now ≡ true) }
        ensures failed { OnErr result (self.new.failed ≡ true) }
        ensures from_then_on { IsErrOf result WriteFault.Failed ↔ self.old.failed ≡ true }
        ensures unchanged { IsErrOf result WriteFault.Failed → self.new ≡ self.old }
        ensures same_writer { self.new.writer.ghost_name ≡ self.old.writer.ghost_name }
    {
        self.flush()
    }

    /// Ends the writer, and returns the sink. The bytes held stay unwritten, and the sink is not
    /// flushed.
    pub fn into_sink(self) -> &'a mut W
        ensures sink { result.now ≡ self.entry.writer.now }
        ensures same_writer { result.ghost_name ≡ self.entry.writer.ghost_name }
    {
        let Utf16Writer { writer, .. } = self;
        writer
    }

    /// Returns the error for which the sink has failed, and so the writer, if the sink keeps it.
    pub fn error(&self) -> Option<io::Error>
        ensures kept { IfSome result (λ e. W.error self.now.writer.now ≡ Some e) }
        ensures failed { OnSome result (self.now.failed ≡ true) }
        ensures retried { IfSome result (λ e. error_kind e ≢ ErrorKind.Interrupted) }
    {
        self.writer.error()
    }

    /// Returns a fault of this writer with its cause, which [`Utf16Writer::error`] gives.
    pub fn with_cause(&self, fault: WriteFault) -> WriteError
        ensures fault { result.fault ≡ fault }
        ensures cause { IfSome result.cause (λ e. W.error self.now.writer.now ≡ Some e) }
        ensures failed { OnSome result.cause (self.now.failed ≡ true) }
        ensures retried { IfSome result.cause (λ e. error_kind e ≢ ErrorKind.Interrupted) }
    {
        WriteError {
            fault,
            cause: self.error(),
        }
    }

    /// Returns the byte order that it writes.
    pub fn byte_order(&self) -> ByteOrder
        ensures { result ≡ self.now.order }
    {
        self.order
    }
}

impl<'a, W: Sink> fmt::Write for Utf16Writer<'a, W> {
    ghost use Rattle.enc_writer.specs.Utf16Writing.{WritesUtf16};
    ghost use Rattle.enc_writer.specs.Utf16Writer.{utf16_writer_of};

    ghost write_str_gives = { λ old text new. WritesUtf16 (W.contents old.writer.now)
        (W.contents new.writer.now) (utf16_writer_of old) (utf16_writer_of new) (chars text) };

    /// Writes a text as [`Utf16Writer::write_str`] does, so that `write!` works. After an `Err`
    /// [`Utf16Writer::error`] names the cause.
    fn write_str(&mut self, text: &str) -> fmt::Result {
        match Utf16Writer::write_str(self, text) {
            Ok(()) => Ok(()),
            Err(_) => Err(fmt::Error),
        }
    }
}

impl<'a, W: Sink> fmt::Debug for Utf16Writer<'a, W> {
    /// Writes the byte order, the number of bytes held, and whether a call has failed.
    fn fmt<F: fmt::Write>(&self, f: &mut fmt::Formatter<F>) -> fmt::Result {
        f.debug_struct("Utf16Writer")
            .field("order", &self.order)
            .field("held", &self.filled)
            .field("failed", &self.failed)
            .finish_non_exhaustive()
    }
}
