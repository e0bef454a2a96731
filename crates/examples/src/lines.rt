//! A file of any encoding line by line, each with its number.

use enc_reader::{DecodeReader, DecodedText, FromRead};
use encoding_rs::Encoding;
use std::alloc::Global;
use std::io;
use std::io::{Error, Read, Write};

/// The length in bytes of the buffers, for bytes of the file and for its text: at least 4.
const LENGTH: usize = 256;

/// Writes each line of an input after its number, from 1.
pub(crate) fn run<R: Read, W: Write>(
    alloc: Global,
    label: &str,
    input: &mut R,
    out: &mut W,
) -> io::Result<()> {
    let encoding = Encoding::for_label(label.as_bytes()).ok_or(Error::other("unknown label"))?;
    let mut source = FromRead::new(input);
    let mut bytes = [0; LENGTH];
    let mut room = [0; LENGTH];
    let reader = DecodeReader::new(&mut source, Some(encoding), &mut bytes);
    let mut text = DecodedText::new(reader, &mut room);
    let mut line = String::new(alloc);
    for number in 1..u64::MAX {
        line.clear();
        if text.read_line(&mut line)? == 0 {
            return Ok(());
        }
        write!(out, "{number}: {line}")?;
    }
    Err(Error::other("no end"))
}
