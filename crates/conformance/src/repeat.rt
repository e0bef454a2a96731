//! Rows of texts of some 1,500 bytes and more, in which one call decodes many characters at once.

use crate::fault::RowFault;
use crate::words::{Unreadable, Words};
use encoding_rs::Encoding;
use encoding_rs::run::{BomHandling, DecodeCall, decode_run};
use std::alloc::Global;

/// No row repeats its bytes more often.
const MOST_TIMES: usize = 4096;

/// The number of bytes that each call gets, and of code units that it has room for.
const CALLS: [(usize, usize); 6] = [
    (16384, 16384),
    (16384, 300),
    (100, 8192),
    (67, 70),
    (65, 4),
    (7, 40),
];

/// A long input, its text, and whether a sequence of it is malformed.
#[derive(Drop)]
pub struct LongInput {
    bytes: Vec<u8>,
    text: String,
    malformed: bool,
}

/// Appends bytes and their text so many times.
fn push_times(
    input: &mut LongInput,
    (bytes, text): (&[u8], &str),
    times: usize,
) -> Result<(), Unreadable> {
    for _ in 0..times {
        input.bytes.extend_from_slice(bytes)?;
        input.text.push_str(text)?;
    }
    Ok(())
}

/// Reads `N BYTES TEXT [BYTES TEXT]`. Bytes of a second pair stand in the middle, between N times
/// the first ones and N times more. They are malformed if U+FFFD is in their text.
pub(crate) fn long_input(alloc: Global, words: &mut Words<'_>) -> Result<LongInput, Unreadable> {
    let times = words.number()?;
    if times > MOST_TIMES {
        return Err(Unreadable::Number);
    }
    let (bytes, text) = (words.bytes(alloc)?, words.text(alloc)?);
    let mut input = LongInput {
        bytes: Vec::new(alloc),
        text: String::new(alloc),
        malformed: false,
    };
    push_times(&mut input, (&bytes, &text), times)?;
    if words.has_more() {
        let (among, of_among) = (words.bytes(alloc)?, words.text(alloc)?);
        push_times(&mut input, (&among, &of_among), 1)?;
        push_times(&mut input, (&bytes, &text), times)?;
    }
    words.end()?;
    input.malformed = input.text.contains('\u{FFFD}');
    Ok(input)
}

/// Decodes a long input in equal calls. Each but the last reads or writes something, so that there
/// are no more than bytes and code units, and one.
fn compare_calls(
    alloc: Global,
    encoding: Encoding,
    input: &LongInput,
    call: DecodeCall,
) -> Result<(), RowFault> {
    let most = input.bytes.len().saturating_add(input.text.len());
    let calls = vec![in alloc; call; most.saturating_add(1)]?;
    let report = decode_run(alloc, encoding, BomHandling::Off, &input.bytes, &calls)?;
    if !report.finished || report.read != input.bytes.len() {
        return Err(RowFault::fails("a long text is not decoded to its end"));
    }
    if report.had_errors != input.malformed || report.text != input.text {
        return Err(RowFault::fails("another long text"));
    }
    Ok(())
}

/// Decodes a long input into UTF-8 and UTF-16, in few calls and in many, with replacement, and
/// without it if nothing is malformed.
pub(crate) fn compare_long(
    alloc: Global,
    encoding: Encoding,
    input: &LongInput,
) -> Result<(), RowFault> {
    for (offer, room) in CALLS {
        for (utf16, replace) in [(false, true), (true, true), (false, false), (true, false)] {
            let call = DecodeCall {
                utf16,
                replace,
                offer,
                room,
            };
            if replace || !input.malformed {
                compare_calls(alloc, encoding, input, call)?;
            }
        }
    }
    Ok(())
}
