//! The encoding of a file by byte order mark, label and default, in this order.

use encoding_rs::{Encoding, WINDOWS_1252};
use std::alloc::Global;
use std::io::{Error, ErrorKind};
use std::{fs, io};

/// Returns the encoding of some bytes, and its origin.
fn detect(bytes: &[u8], label: &str) -> (Encoding, &'static str) {
    if let Some((encoding, _)) = Encoding::for_bom(bytes) {
        return (encoding, "byte order mark");
    }
    match Encoding::for_label(label.as_bytes()) {
        Some(encoding) => (encoding, "label"),
        None => (WINDOWS_1252, "default"),
    }
}

/// Returns whether no sequence is malformed after a byte order mark.
fn is_valid(alloc: Global, encoding: Encoding, bytes: &[u8]) -> io::Result<bool> {
    match encoding.decode_with_bom_removal(alloc, bytes) {
        Ok((_, had_errors)) => Ok(!had_errors),
        Err(_) => Err(Error::from(ErrorKind::OutOfMemory)),
    }
}

/// Writes a line for a file: its encoding, which of the three determines it, and whether the file
/// is valid in it. Without a mark or a label it is windows-1252.
pub(crate) fn run(rt: &HostRuntime, file: &str, label: &str) -> io::Result<()> {
    let bytes = fs::read(rt, file)?;
    let (encoding, origin) = detect(&bytes, label);
    let verdict = if is_valid(rt.alloc(), encoding, &bytes)? {
        "valid"
    } else {
        "malformed"
    };
    println!(rt; "{file}: {}, by {origin}, {verdict}", encoding.name())
}
