//! The lines of a log that have a word in them, each with its number, from a log in any encoding.
//! Bytes that are malformed are shown as `\xNN`, and their columns are said.

use enc_reader::{DecodeReader, FromRead, Line, LineReader, MalformedPolicy};
use encoding_rs::Encoding;
use std::alloc::Global;
use std::io;
use std::io::{Error, Read, Write};

/// The length in bytes of the buffers, for bytes of the log and for its text: at least 4.
const LENGTH: usize = 4096;

/// The word that is looked for.
const WORD: &str = "error";

/// Writes a line after its number, and the columns of its malformed sequences after it.
fn write_line<W: Write>(number: u64, line: &Line, out: &mut W) -> io::Result<()> {
    write!(out, "{number}: {}", line.text().trim_ascii_end())?;
    for found in line.malformed() {
        write!(out, " (malformed in column {})", found.position().column())?;
    }
    out.write_all(b"\n")
}

/// Writes the lines of an input that have the word.
pub(crate) fn run<R: Read, W: Write>(
    alloc: Global,
    label: &str,
    input: &mut R,
    out: &mut W,
) -> io::Result<()> {
    let encoding = Encoding::for_label(label.as_bytes()).ok_or(Error::other("unknown label"))?;
    let mut source = FromRead::new(input);
    let mut bytes = [0; LENGTH];
    let mut room = [0; LENGTH];
    let reader = DecodeReader::new(&mut source, Some(encoding), &mut bytes);
    let mut lines = LineReader::new(reader, &mut room, MalformedPolicy::Escape);
    let mut line = Line::new(alloc);
    for _ in 0..u64::MAX {
        let number = lines.position().line();
        if !lines.read_line(&mut line)? {
            return Ok(());
        }
        if line.text().contains(WORD) {
            write_line(number, &line, out)?;
        }
        line.clear();
    }
    Err(Error::other("no end"))
}
