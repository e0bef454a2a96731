//! Recoding a source into a sink.

ghost use Rattle.std.specs.Prelude.{◌≡◌, false};
ghost use Rattle.std.specs.IoError.{error_kind};
ghost use Rattle.std.specs.declared.io.ErrorKind.TheVariants.{Other};
ghost use Rattle.enc_stream.specs.declared.bom.BomHandling.{BomHandling};
ghost use Rattle.enc_stream.specs.declared.bom.BomHandling.TheVariants.{Sniff};
ghost use Rattle.enc_stream.specs.declared.encoding.Encoding.{Encoding};
ghost use Rattle.enc_reader.specs.Reader.{state_of as reader_state};
ghost use Rattle.enc_reader.specs.Reading.{fresh_reader};
ghost use Rattle.enc_writer.specs.Writer.{writer_of as writer_state};
ghost use Rattle.enc_writer.specs.Writing.{fresh_writer};
ghost use Rattle.recode_engine.specs.Run.{IsRecodeRun, side};

use enc_reader::{DecodeReader, Source};
use enc_stream::{BomHandling, Encoding};
use enc_writer::{EncodeWriter, Sink};
use std::error::Error;
use std::{fmt, io};

/// The side of a run that has failed.
#[derive(PartialEq, Eq, Debug, Drop)]
pub enum RecodeFault {
    /// The source.
    Read = 1,
    /// The sink.
    Write = 2,
}

/// Returns the numbers of the faults.
fn numbers() -> (u8, u8)
    ensures { result ≡ (1, 2) }
{
    (RecodeFault::Read as u8, RecodeFault::Write as u8)
}

impl fmt::Display for RecodeFault {
    ghost use Rattle.std.specs.Prelude.{Some};
    ghost use Rattle.recode_engine.specs.Fault.{recode_fault_text};

    ghost output = { λ fault. Some (recode_fault_text fault) };

    /// Writes which side has failed: a phrase in lower case, without a full stop.
    fn fmt<W: fmt::Write>(&self, f: &mut fmt::Formatter<W>) -> fmt::Result {
        f.write_str(match self {
            RecodeFault::Read => "read failed",
            RecodeFault::Write => "write failed",
        })
    }
}

impl Error for RecodeFault {}

impl From<RecodeFault> for io::Error {
    ghost from_gives = { λ _ e. error_kind e ≡ Other };

    fn from(fault: RecodeFault) -> io::Error {
        match fault {
            RecodeFault::Read => io::Error::other("read failed"),
            RecodeFault::Write => io::Error::other("write failed"),
        }
    }
}

/// Writes the text of a reader to a writer, until it ends or a side fails. Neither has failed, and
/// the reader has handed out no malformed sequence.
fn write_all<R: Source, W: Sink>(
    decoding: &mut DecodeReader<'_, R>,
    encoding: &mut EncodeWriter<'_, W>,
) -> Result<bool, RecodeFault>
    requires reading { decoding.old.failed ≡ false }
    requires writing { encoding.old.failed ≡ false }
    requires reader { R.has_failed decoding.old.reader.now ≡ false }
    requires writer { W.has_failed encoding.old.writer.now ≡ false }
    requires no_errors { decoding.old.had_errors ≡ false }
    ensures run { (handling : BomHandling) (from to : Encoding)
        → reader_state decoding.old ≡ fresh_reader handling from
        → writer_state encoding.old ≡ fresh_writer to → IsRecodeRun handling from to
        (side (R.remaining decoding.old.reader.now) (R.has_failed decoding.old.reader.now))
        (side (R.remaining decoding.new.reader.now) (R.has_failed decoding.new.reader.now))
        (side (W.contents encoding.old.writer.now) (W.has_failed encoding.old.writer.now))
        (side (W.contents encoding.new.writer.now) (W.has_failed encoding.new.writer.now)) result }
    ensures same_reader { decoding.new.reader.ghost_name ≡ decoding.old.reader.ghost_name }
    ensures same_writer { encoding.new.writer.ghost_name ≡ encoding.old.writer.ghost_name }
{
    let mut text = [0u8; 65536];
    'reads: for _ in 0..u64::MAX {
        let Ok(handed) = decoding.read_or_lend(&mut text) else {
            return Err(RecodeFault::Read);
        };
        let piece = decoding.text(&text, handed);
        if piece.is_empty() {
            let Ok(replaced) = encoding.end_text() else {
                return Err(RecodeFault::Write);
            };
            return Ok(decoding.had_errors() | replaced);
        }
        let Ok(()) = encoding.write_str(piece) else {
            return Err(RecodeFault::Write);
        };
        let Ok(()) = encoding.push_held() else {
            return Err(RecodeFault::Write);
        };
    }
    Err(RecodeFault::Read)
}

/// Writes the text of a reader to a sink that has not failed, through a buffer for the bytes to
/// write. The reader has not failed, and has handed out no malformed sequence.
fn write_decoded<R: Source, W: Sink>(
    decoding: &mut DecodeReader<'_, R>,
    writer: &mut W,
    to: Encoding,
) -> Result<bool, RecodeFault>
    requires reading { decoding.old.failed ≡ false }
    requires reader { R.has_failed decoding.old.reader.now ≡ false }
    requires writer { W.has_failed writer.old ≡ false }
    requires no_errors { decoding.old.had_errors ≡ false }
    ensures run { (handling : BomHandling) (from : Encoding)
        → reader_state decoding.old ≡ fresh_reader handling from → IsRecodeRun handling from to
        (side (R.remaining decoding.old.reader.now) (R.has_failed decoding.old.reader.now))
        (side (R.remaining decoding.new.reader.now) (R.has_failed decoding.new.reader.now))
        (side (W.contents writer.old) (W.has_failed writer.old))
        (side (W.contents writer.new) (W.has_failed writer.new)) result }
    ensures same_reader { decoding.new.reader.ghost_name ≡ decoding.old.reader.ghost_name }
{
    let mut output = [0u8; 65536];
    let mut encoding = EncodeWriter::new(writer, to, &mut output);
    let outcome = write_all(decoding, &mut encoding);
    // What the sink has taken is known by the reference that comes back.
    let _sink = encoding.into_sink();
    outcome
}

/// Does [`run_part`] with two sides that have not failed, through a buffer for the bytes read.
fn run_through<R: Source, W: Sink>(
    reader: &mut R,
    writer: &mut W,
    from: Encoding,
    to: Encoding,
    handling: BomHandling,
) -> Result<bool, RecodeFault>
    requires reader { R.has_failed reader.old ≡ false }
    requires writer { W.has_failed writer.old ≡ false }
    ensures { IsRecodeRun handling from to (side (R.remaining reader.old) (R.has_failed reader.old))
        (side (R.remaining reader.new) (R.has_failed reader.new))
        (side (W.contents writer.old) (W.has_failed writer.old))
        (side (W.contents writer.new) (W.has_failed writer.new)) result }
{
    let mut input = [0u8; 65536];
    let mut decoding = DecodeReader::with_bom_handling(reader, from, handling, &mut input);
    write_decoded(&mut decoding, writer, to)
}

/// Recodes a source to its end as [`run`] does, with the byte order marks of `handling`.
///
/// With `Sniff` any mark at the start overrides `from`. With `Remove` only the mark of `from` is
/// looked for, and with `Off` none is, as in a part of a whole after the first. A mark that is
/// found is dropped.
///
/// Result, errors and memory: those of [`run`].
pub fn run_part<R: Source, W: Sink>(
    reader: &mut R,
    writer: &mut W,
    from: Encoding,
    to: Encoding,
    handling: BomHandling,
) -> Result<bool, RecodeFault>
    ensures { IsRecodeRun handling from to (side (R.remaining reader.old) (R.has_failed reader.old))
        (side (R.remaining reader.new) (R.has_failed reader.new))
        (side (W.contents writer.old) (W.has_failed writer.old))
        (side (W.contents writer.new) (W.has_failed writer.new)) result }
{
    if reader.failed() {
        return Err(RecodeFault::Read);
    }
    if writer.failed() {
        return Err(RecodeFault::Write);
    }
    run_through(reader, writer, from, to, handling)
}

/// Recodes a source to its end: decodes it, and writes its text to a sink in another encoding.
///
/// - Decoding: by `from`, or by the encoding of a byte order mark at the start, which is dropped. A
///   malformed sequence becomes U+FFFD.
/// - Encoding: in the output encoding of `to`, which is UTF-8 for UTF-16BE, UTF-16LE and
///   replacement, and otherwise `to`. A character that is unmappable, as U+FFFD is in most
///   encodings, becomes a decimal reference, as `&#233;`. In ISO-2022-JP U+000E, U+000F and U+001B
///   get the reference of U+FFFD.
///
/// Returns whether a sequence was malformed or a character unmappable.
///
/// Errors: the side that has failed, or the source if both had failed before. The sink has taken a
/// prefix of the bytes to be written. A side that has failed, before the run or in it, is not
/// called. A source that gives 2^64 - 1 texts, or bytes 2^64 - 1 times without a text, counts as
/// failed.
///
/// Never flushes. Takes no memory except three buffers of 64 KiB on the stack.
pub fn run<R: Source, W: Sink>(
    reader: &mut R,
    writer: &mut W,
    from: Encoding,
    to: Encoding,
) -> Result<bool, RecodeFault>
    ensures { IsRecodeRun Sniff from to (side (R.remaining reader.old) (R.has_failed reader.old))
        (side (R.remaining reader.new) (R.has_failed reader.new))
        (side (W.contents writer.old) (W.has_failed writer.old))
        (side (W.contents writer.new) (W.has_failed writer.new)) result }
{
    run_part(reader, writer, from, to, BomHandling::Sniff)
}
