//! `conformance web-platform`: answers the questions of scripts/web-platform-tests by calls of the
//! library.
//!
//! A line is a question. Labels, bytes and code units in UTF-16BE stand in hexadecimal, or as `-`
//! for none:
//!
//! - `name LABEL`: the name of the encoding;
//! - `decode LABEL MARKS MODE CHUNK..`: the calls of a new decoder for chunks. MARKS is `sniff`,
//!   `remove` or `off`: the byte order marks that it looks for. MODE is `replace` or `report`. A
//!   chunk ends in `+` unless it ends the input. The answer has the units of each chunk and `;`,
//!   with `!` between them for a malformed sequence that is reported, which ends the calls. Last is
//!   the name of the decoder's encoding then;
//! - `encode LABEL UNITS`: the calls of a new encoder for a text. The answer has the bytes of each
//!   call and `;`, with `&N` between them for an unmappable character of code point N;
//! - `fill LABEL ROOM UNITS`: one call of a new encoder, with an output buffer of ROOM bytes, which
//!   are 4096 at most. The answer has the number of units read, `;` and the bytes.
//!
//! There is an answer for each line before the next is read. It is `?` for an unknown label and for
//! a line that is no question.

mod decode;
mod encode;

use crate::hexadecimal::bytes_of;
use encoding_rs::Encoding;
use std::alloc::Global;
use std::io::{self, Write};

/// The greatest number of units that a call writes.
const LENGTH: usize = 4096;

/// Answers a line that asks for a name.
fn answer_name<W: Write>(alloc: Global, label: &str, out: &mut W) -> io::Result<()> {
    match Encoding::for_label(&bytes_of(alloc, label)?) {
        None => write!(out, "?"),
        Some(encoding) => write!(out, "{}", encoding.name()),
    }
}

/// Answers a line.
pub fn answer_line<W: Write>(alloc: Global, line: &str, out: &mut W) -> io::Result<()> {
    let mut words = line.split_ascii_whitespace();
    match (words.next(), words.next()) {
        (Some("name"), Some(label)) => answer_name(alloc, label, out),
        (Some("decode"), _) => decode::answer(alloc, line, out),
        (Some("encode"), _) => encode::answer(alloc, line, out),
        (Some("fill"), _) => encode::answer_filling(alloc, line, out),
        _ => write!(out, "?"),
    }
}
