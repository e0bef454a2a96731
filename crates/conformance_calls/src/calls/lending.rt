//! One-shot calls that lend, and their answers.

use crate::calls::answer::write_bytes_or_none;
use crate::calls::line::Line;
use crate::one_shot::lend;
use encoding_rs::Encoding;
use std::alloc::Global;
use std::borrow::{CowSlice, CowStr};
use std::io::{self, Write};

/// Writes the answer of a call that has read `read` bytes and written `bytes`, if it has.
fn write_answer<W: Write>(
    out: &mut W,
    (kind, read, bytes): (&str, usize, &[u8]),
    encoding: Encoding,
    replaced: bool,
) -> io::Result<()> {
    write!(out, "{kind} {read} {} {replaced} ", bytes.len())?;
    write_bytes_or_none(out, bytes)?;
    writeln!(out, " {} 0 - -", encoding.name())
}

/// Returns whether a text is borrowed or owned, in a word.
fn kind_of_text(text: &CowStr<'_>) -> &'static str {
    match text {
        CowStr::Borrowed(_) => "Borrowed",
        CowStr::Owned(_) => "Owned",
    }
}

/// Returns whether bytes are borrowed or owned, in a word.
fn kind_of_bytes(bytes: &CowSlice<'_, u8>) -> &'static str {
    match bytes {
        CowSlice::Borrowed(_) => "Borrowed",
        CowSlice::Owned(_) => "Owned",
    }
}

/// Makes a one-shot call of a decoder, and writes its answer: `?` if there is no memory.
pub(crate) fn answer_lending<W: Write>(alloc: Global, line: &Line, out: &mut W) -> io::Result<()> {
    let (src, mode) = (line.call().src, (line.marks, line.call().replaces));
    let len = src.len();
    let Ok((text, used, replaced)) = lend(alloc, line.encoding, mode, src) else {
        return writeln!(out, "?");
    };
    match text {
        Some(lent) => {
            let kind = kind_of_text(&lent);
            write_answer(out, (kind, len, lent.as_bytes()), used, replaced)
        }
        None => write_answer(out, ("None", len, b""), used, replaced),
    }
}

/// Makes the one-shot call of an encoder, and writes its answer: `?` if there is no memory. Bytes
/// that are no UTF-8 stand for no text.
pub(crate) fn answer_lending_bytes<W: Write>(
    alloc: Global,
    line: &Line,
    out: &mut W,
) -> io::Result<()> {
    let text = str::from_utf8(line.call().src).unwrap_or("");
    let len = text.len();
    let Ok((bytes, used, replaced)) = line.encoding.encode_lending(alloc, text) else {
        return writeln!(out, "?");
    };
    let kind = kind_of_bytes(&bytes);
    write_answer(out, (kind, len, &bytes), used, replaced)
}
