//! The lines that describe calls.

use crate::calls::LENGTH;
use crate::hexadecimal::bytes_of;
use encoding_rs::{BomHandling, Encoding};
use std::alloc::{AllocError, Global};

/// What a line calls.
#[derive(Clone, Copy, PartialEq, Eq)]
pub enum Callee {
    Decoder,
    Encoder,
    /// A one-shot call of a decoder that lends.
    LendingDecoder,
    /// The one-shot call of an encoder that lends.
    LendingEncoder,
}

/// A line: a call, and the input that a new decoder or encoder gets before.
#[derive(Drop)]
pub struct Line {
    pub callee: Callee,
    pub encoding: Encoding,
    /// The byte order marks that a decoder looks for.
    pub marks: BomHandling,
    before: Vec<u8>,
    chunk: Vec<u8>,
    room: usize,
    last: bool,
    utf16: bool,
    replaces: bool,
}

/// How a call is made.
#[derive(Clone, Copy)]
pub struct Call<'a> {
    /// The input: bytes to decode, UTF-8 or code units in UTF-16BE to encode.
    pub src: &'a [u8],
    /// The greatest number of units to write.
    pub room: usize,
    pub last: bool,
    pub utf16: bool,
    pub replaces: bool,
}

impl Line {
    /// The call before, whose answer does not count.
    pub(crate) fn before(&self) -> Call<'_> {
        Call {
            src: &self.before,
            room: LENGTH,
            last: false,
            utf16: self.utf16,
            replaces: true,
        }
    }

    /// The call.
    pub(crate) fn call(&self) -> Call<'_> {
        Call {
            src: &self.chunk,
            room: self.room,
            last: self.last,
            utf16: self.utf16,
            replaces: self.replaces,
        }
    }
}

impl<'a> Call<'a> {
    /// The call for the rest of the input, from the byte `at` on.
    pub(crate) fn rest(self, at: usize) -> Call<'a> {
        let (_, src) = self.src.split_at(at.min(self.src.len()));
        Call {
            src,
            room: LENGTH,
            last: true,
            replaces: true,
            ..self
        }
    }
}

/// Returns the byte order marks that a word names.
fn marks_of(word: &str) -> BomHandling {
    match word {
        "sniff" => BomHandling::Sniff,
        "remove" => BomHandling::Remove,
        _ => BomHandling::Off,
    }
}

/// Returns what the first word of a line calls.
fn callee_of(word: &str) -> Callee {
    match word {
        "decode" => Callee::Decoder,
        "lend" => Callee::LendingDecoder,
        "lend-text" => Callee::LendingEncoder,
        _ => Callee::Encoder,
    }
}

/// Reads a line. `None` if a word is missing, a label is unknown or a room is no number.
pub(crate) fn line_of(alloc: Global, line: &str) -> Result<Option<Line>, AllocError> {
    let mut words = line.split_ascii_whitespace();
    let (Some(callee), Some(label), Some(marks), Some(before), Some(chunk)) = (
        words.next(),
        words.next(),
        words.next(),
        words.next(),
        words.next(),
    ) else {
        return Ok(None);
    };
    let (Some(room), Some(last), Some(units), Some(mode)) = (
        words.next(),
        words.next(),
        words.next(),
        words.next(),
    ) else {
        return Ok(None);
    };
    let (Some(encoding), Some(room)) = (
        Encoding::for_label(label.as_bytes()),
        room.parse::<usize>().ok(),
    ) else {
        return Ok(None);
    };
    Ok(Some(Line {
        callee: callee_of(callee),
        encoding,
        marks: marks_of(marks),
        before: bytes_of(alloc, before)?,
        chunk: bytes_of(alloc, chunk)?,
        room,
        last: last == "last",
        utf16: units == "utf16",
        replaces: mode == "replace",
    }))
}
