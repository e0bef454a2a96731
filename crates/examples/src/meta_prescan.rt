//! The encoding of a page of HTML: by byte order mark, then by the page's own first bytes, then
//! windows-1252 (HTML Standard, "determining the character encoding").

use enc_sniff::html_encoding;
use encoding_rs::{Encoding, WINDOWS_1252};
use std::alloc::Global;
use std::io;
use std::io::{Error, ErrorKind, Read, Write};

/// Returns the encoding of a page, and its origin.
fn detect(page: &[u8]) -> (Encoding, &'static str) {
    if let Some((encoding, _)) = Encoding::for_bom(page) {
        return (encoding, "byte order mark");
    }
    match html_encoding(page) {
        Some(encoding) => (encoding, "prescan"),
        None => (WINDOWS_1252, "default"),
    }
}

/// Reads a page. Writes its text, and then its encoding, which of the three determines it, and
/// whether a sequence was malformed.
pub(crate) fn run<R: Read, W: Write>(alloc: Global, input: &mut R, out: &mut W) -> io::Result<()> {
    let mut page = Vec::new(alloc);
    let _len = input.read_to_end(&mut page)?;
    let (encoding, origin) = detect(&page);
    let Ok((text, encoding, had_errors)) = encoding.decode(alloc, &page) else {
        return Err(Error::from(ErrorKind::OutOfMemory));
    };
    let name = encoding.name();
    writeln!(out, "{text}({name}, by {origin}, malformed: {had_errors})")
}
