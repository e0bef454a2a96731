//! Form data as a browser encodes it (URL Standard 5.2, "urlencoded serializing").

use encoding_rs::Encoding;
use std::alloc::Global;
use std::io;
use std::io::{BufRead, BufReader, Error, ErrorKind, Read, Write};

/// Writes a byte: ASCII letters, digits and `*-._` by themselves, and a space as `+`.
fn write_byte<W: Write>(byte: u8, out: &mut W) -> io::Result<()> {
    match byte {
        b'A'..=b'Z' | b'a'..=b'z' | b'0'..=b'9' | b'*' | b'-' | b'.' | b'_' => {
            out.write_all(&[byte])
        }
        b' ' => out.write_all(b"+"),
        _ => write!(out, "%{byte:02X}"),
    }
}

/// Writes a name or a value.
fn write_text<W: Write>(
    alloc: Global,
    text: &str,
    encoding: Encoding,
    out: &mut W,
) -> io::Result<()> {
    let Ok((bytes, _, _)) = encoding.encode(alloc, text) else {
        return Err(Error::from(ErrorKind::OutOfMemory));
    };
    for byte in bytes.as_slice() {
        write_byte(*byte, out)?;
    }
    Ok(())
}

/// Reads fields, `NAME=VALUE` a line in UTF-8, and writes them as
/// application/x-www-form-urlencoded in the output encoding of a label. An unmappable character
/// becomes a decimal reference, as `&#26085;`, whose characters are percent-encoded too.
pub(crate) fn run<R: Read, W: Write>(
    alloc: Global,
    label: &str,
    input: &mut R,
    out: &mut W,
) -> io::Result<()> {
    let encoding = Encoding::for_label(label.as_bytes()).ok_or(Error::other("unknown label"))?;
    let mut separator: &[u8] = b"";
    for field in BufReader::new(alloc, input)?.lines(alloc) {
        let field = field?;
        let (name, value) = field
            .as_str()
            .split_once('=')
            .unwrap_or((field.as_str(), ""));
        out.write_all(separator)?;
        write_text(alloc, name, encoding, out)?;
        out.write_all(b"=")?;
        write_text(alloc, value, encoding, out)?;
        separator = b"&";
    }
    out.write_all(b"\n")
}
