//! The writer of text that comes as bytes of UTF-8.

ghost use Rattle.std.specs.Prelude.{◌≡◌, length, true, false, [], IfOk, OnOk, OnErr};
ghost use Rattle.std.specs.Prelude.{IfErr, ◌≢◌, None};
ghost use Rattle.std.specs.Io.{WritesAtMost};
ghost use Rattle.std.specs.Io.KnownBytes.{WriteAppends};
ghost use Rattle.std.specs.IoError.{error_kind};
ghost use Rattle.enc_stream.specs.Decoding.{has_finished};

use crate::encode_writer::EncodeWriter;
use crate::sink::Sink;
use crate::utf8_chunk::write_chunk;
use crate::write_error::WriteError;
use enc_stream::Decoder;
use enc_stream::constants::UTF_8;
use std::io::ErrorKind;
use std::{fmt, io, mem};

/// Writes bytes of UTF-8 as text through an [`EncodeWriter`]: a writer of `std`, so that `write!`
/// and `io::copy` work.
///
/// It decodes the bytes as "UTF-8 decode without BOM" of the Encoding Standard 6 does: a malformed
/// sequence is U+FFFD, and a byte order mark is a character. A character may be cut between two
/// writes: up to three bytes of it are held.
///
/// A drop writes, pushes and flushes nothing: without [`Utf8Writer::finish`] it loses the bytes
/// held here and in the writer, and reports no error.
///
/// An error is the cause, of the kind and with the text that the sink keeps, or of kind `Other`. It
/// ends the writer for good.
#[derive(Drop)]
pub struct Utf8Writer<'a, W: Sink> {
    writer: EncodeWriter<'a, W>,
    decoder: Decoder,
    ghost unfinished: { has_finished decoder ≡ false },
}

impl<'a, W: Sink> Utf8Writer<'a, W> {
    ghost use Rattle.enc_writer.specs.Utf8Writing.{fresh_utf8_decoder, EndsUtf8, StopsUtf8};
    ghost use Rattle.enc_writer.specs.Utf8Writer.{utf8_writer_of};

    /// Returns a writer of bytes over a writer of text. It has written nothing.
    pub fn new(writer: EncodeWriter<'a, W>) -> Utf8Writer<'a, W>
        ensures writer { result.writer ≡ writer.entry }
        ensures fresh { result.decoder ≡ fresh_utf8_decoder }
    {
        Utf8Writer {
            writer,
            decoder: UTF_8.new_decoder_without_bom_handling(),
        }
    }

    /// Ends the text: an incomplete sequence at the end is U+FFFD. Then it does as
    /// [`EncodeWriter::finish`], and is at the start of another text.
    ///
    /// Returns whether a character was unmappable. Errors: the sink has failed, and has taken a
    /// prefix of the bytes of the text.
    pub fn finish(&mut self) -> Result<bool, WriteError>
        ensures ok { OnOk result (EndsUtf8 (W.contents self.old.writer.writer.now)
            (W.contents self.new.writer.writer.now) (utf8_writer_of self.old)) }
        ensures going { OnOk result (self.new.writer.failed ≡ false) }
        ensures fresh { self.new.decoder ≡ fresh_utf8_decoder }
        ensures err { OnErr result (StopsUtf8 (W.contents self.old.writer.writer.now)
            (W.contents self.new.writer.writer.now) (utf8_writer_of self.old) [] true) }
        ensures failed { OnErr result (self.new.writer.failed ≡ true) }
    {
        let mut decoder = mem::replace(&mut self.decoder, UTF_8.new_decoder_without_bom_handling());
        if let Err(fault) = write_chunk(&mut self.writer, &mut decoder, b"", true) {
            return Err(self.writer.with_cause(fault));
        }
        match self.writer.finish() {
            Ok(had_unmappables) => Ok(had_unmappables),
            Err(fault) => Err(self.writer.with_cause(fault)),
        }
    }

    /// Returns the writer of text. Bytes held of a character that is cut are lost.
    pub fn into_inner(self) -> EncodeWriter<'a, W>
        ensures { result ≡ self.entry.writer }
    {
        let Utf8Writer { writer, .. } = self;
        writer
    }
}

impl<'a, W: Sink> io::Write for Utf8Writer<'a, W> {
    ghost use Rattle.enc_writer.specs.Utf8Writing.{WritesUtf8, StopsUtf8};
    ghost use Rattle.enc_writer.specs.Utf8Writer.{utf8_writer_of};

    /// Takes all bytes of `buf`: the text that they determine is written.
    fn write(&mut self, buf: &[u8]) -> io::Result<usize>
        ensures bound { WritesAtMost result buf.now }
        // std models no bytes of this writer: it holds others than those written
        ensures bytes { WriteAppends None None result buf.now }
        ensures all { IfOk result (λ n. n ≡ length buf.now) }
        ensures ok { OnOk result (WritesUtf8 (W.contents self.old.writer.writer.now)
            (W.contents self.new.writer.writer.now) (utf8_writer_of self.old)
            (utf8_writer_of self.new) buf.now) }
        ensures err { OnErr result (StopsUtf8 (W.contents self.old.writer.writer.now)
            (W.contents self.new.writer.writer.now) (utf8_writer_of self.old) buf.now false) }
        ensures failed { OnErr result (self.new.writer.failed ≡ true) }
        ensures retried { IfErr result (λ e. error_kind e ≢ ErrorKind.Interrupted) }
    {
        match write_chunk(&mut self.writer, &mut self.decoder, buf, false) {
            Ok(()) => Ok(buf.len()),
            Err(fault) => Err(io::Error::from(self.writer.with_cause(fault))),
        }
    }

    /// Pushes all text that the bytes determine, and flushes the sink. Bytes of a character that is
    /// cut stay held.
    fn flush(&mut self) -> io::Result<()>
        ensures ok { OnOk result (WritesUtf8 (W.contents self.old.writer.writer.now)
            (W.contents self.new.writer.writer.now) (utf8_writer_of self.old)
            (utf8_writer_of self.new) []) }
        ensures none_held { OnOk result ((utf8_writer_of self.new).writer.held ≡ []) }
        ensures err { OnErr result (StopsUtf8 (W.contents self.old.writer.writer.now)
            (W.contents self.new.writer.writer.now) (utf8_writer_of self.old) [] false) }
        ensures failed { OnErr result (self.new.writer.failed ≡ true) }
        ensures retried { IfErr result (λ e. error_kind e ≢ ErrorKind.Interrupted) }
    {
        match self.writer.flush() {
            Ok(()) => Ok(()),
            Err(fault) => Err(io::Error::from(self.writer.with_cause(fault))),
        }
    }
}

impl<'a, W: Sink> fmt::Debug for Utf8Writer<'a, W> {
    /// Writes the writer of text.
    fn fmt<F: fmt::Write>(&self, f: &mut fmt::Formatter<F>) -> fmt::Result {
        f.debug_struct("Utf8Writer")
            .field("writer", &self.writer)
            .finish_non_exhaustive()
    }
}
