//! Lines of UTF-8, written in another encoding through a buffer.

use enc_writer::{EncodeWriter, FromWrite, Sink};
use encoding_rs::Encoding;
use std::alloc::Global;
use std::io;
use std::io::{BufRead, BufReader, Error, Read, Write};

/// The length in bytes of the buffer in which bytes are collected, which is at least 14.
const LENGTH: usize = 256;

/// Writes each line of an input in an encoding. Returns whether a character was unmappable.
fn write_lines<R: Read, S: Sink>(
    alloc: Global,
    encoding: Encoding,
    input: &mut R,
    sink: &mut S,
) -> io::Result<bool> {
    let mut buffer = [0; LENGTH];
    let mut writer = EncodeWriter::new(sink, encoding, &mut buffer);
    for line in BufReader::new(alloc, input)?.lines(alloc) {
        let line = line?;
        writer.write_str(line.as_str())?;
        writer.write_str("\n")?;
    }
    Ok(writer.finish()?)
}

/// Writes the lines of an input in UTF-8 in another encoding, and then in ASCII whether a character
/// was unmappable. Such a character is written as a decimal reference.
///
/// The error of a write that fails is that of the output.
pub(crate) fn run<R: Read, W: Write>(
    alloc: Global,
    label: &str,
    input: &mut R,
    out: &mut W,
) -> io::Result<()> {
    let encoding = Encoding::for_label(label.as_bytes()).ok_or(Error::other("unknown label"))?;
    let mut sink = FromWrite::new(&mut *out);
    let had_unmappables = match write_lines(alloc, encoding, input, &mut sink) {
        Ok(had) => had,
        Err(error) => return Err(sink.take_error().unwrap_or(error)),
    };
    let name = encoding.name();
    writeln!(out, "({name}, unmappable: {had_unmappables})")
}
