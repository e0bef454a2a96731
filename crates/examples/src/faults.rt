//! The places of all malformed sequences of a file, in any encoding.
//!
//! Those that the program prints of data/diary.txt are where Python's codec gb18030 stops.

use enc_reader::{DecodeReader, FromRead, Line, LineReader, MalformedPolicy, PlacedSequence};
use encoding_rs::Encoding;
use std::alloc::Global;
use std::io;
use std::io::{Error, Read, Write};

/// The length in bytes of the buffers, for bytes of the file and for its text: at least 4.
const LENGTH: usize = 256;

/// Writes a line for a malformed sequence: its offset in bytes, its place, and its bytes.
fn write_fault<W: Write>(found: &PlacedSequence, out: &mut W) -> io::Result<()> {
    let (sequence, place) = (found.sequence(), found.position());
    let (offset, line, column) = (sequence.offset(), place.line(), place.column());
    write!(out, "offset {offset}, line {line}, column {column}:")?;
    for byte in sequence.bytes() {
        write!(out, " {byte:02X}")?;
    }
    out.write_all(b"\n")
}

/// Reads an input, and writes a line for each malformed sequence and a line with their number.
pub(crate) fn run<R: Read, W: Write>(
    alloc: Global,
    label: &str,
    input: &mut R,
    out: &mut W,
) -> io::Result<()> {
    let encoding = Encoding::for_label(label.as_bytes()).ok_or(Error::other("unknown label"))?;
    let mut source = FromRead::new(input);
    let mut bytes = [0; LENGTH];
    let mut room = [0; LENGTH];
    let reader = DecodeReader::new(&mut source, Some(encoding), &mut bytes);
    let mut lines = LineReader::new(reader, &mut room, MalformedPolicy::Ignore);
    let mut line = Line::new(alloc);
    let mut count = 0usize;
    for _ in 0..u64::MAX {
        if !lines.read_line(&mut line)? {
            break;
        }
        for found in line.malformed() {
            write_fault(found, out)?;
            count = count.saturating_add(1);
        }
        line.clear();
    }
    writeln!(out, "malformed sequences: {count}")
}
