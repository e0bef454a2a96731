//! A part of a mail by the charset of its header, decoded in chunks of a packet's size: a reader of
//! text over what is left of a buffered reader, once the header is read.

use enc_reader::{DecodeReader, FromRead};
use enc_sniff::mail_encoding;
use encoding_rs::{Encoding, WINDOWS_1252};
use std::alloc::Global;
use std::io;
use std::io::{BufRead, BufReader, Error, Read, Write};

/// The length in bytes of a chunk, and of the room for its text, which is at least 4.
const CHUNK: usize = 1460;

/// Reads the header and the empty line after it. Returns the lines of the header.
fn read_header<R: BufRead>(alloc: Global, input: &mut R) -> io::Result<Vec<u8>> {
    let mut header = Vec::new(alloc);
    for line in input.by_ref().split(alloc, b'\n') {
        let line = line?;
        match &line[..] {
            [] | [b'\r'] => break,
            line => header.extend_from_slice(line)?,
        }
        header.push(b'\n')?;
    }
    Ok(header)
}

/// Decodes the body, a chunk at a time. Returns whether a sequence was malformed.
fn decode_body<R: Read, W: Write>(
    input: &mut R,
    encoding: Encoding,
    out: &mut W,
) -> io::Result<bool> {
    let mut source = FromRead::new(input);
    let mut chunk = [0; CHUNK];
    let mut reader = DecodeReader::new(&mut source, Some(encoding), &mut chunk);
    let mut room = [0; CHUNK];
    'pieces: for _ in 0..u64::MAX {
        let text = reader.read_text(&mut room)?;
        if text.is_empty() {
            return Ok(reader.had_errors());
        }
        out.write_all(text.as_bytes())?;
    }
    Err(Error::other("no end"))
}

/// Reads a header, an empty line and a body. Writes the text of the body, and then its encoding and
/// whether a sequence was malformed.
///
/// If the header declares no encoding, it is windows-1252, one of whose labels is us-ascii.
pub(crate) fn run<R: Read, W: Write>(alloc: Global, input: &mut R, out: &mut W) -> io::Result<()> {
    let mut input = BufReader::with_capacity(alloc, CHUNK, input)?;
    let header = read_header(alloc, &mut input)?;
    let encoding = mail_encoding(&header).unwrap_or(WINDOWS_1252);
    let had_errors = decode_body(&mut input, encoding, out)?;
    writeln!(out, "({}, malformed: {had_errors})", encoding.name())
}
