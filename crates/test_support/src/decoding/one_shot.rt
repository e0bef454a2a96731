//! One-shot calls, compared with runs of their mode.

use crate::cases::{Case, expect, expect_bytes};
use crate::decoding::calls::new_decoder;
use crate::decoding::rows::{Input, split};
use crate::decoding::runs::Use;
use encoding_rs::run::{BomHandling, DecodeCall, decode_run};
use encoding_rs::{CoderResult, Decoder, Encoding, OneShotError};
use std::alloc::Global;
use std::test::Fail;

/// An encoding, and the byte order marks looked for.
pub type Mode = (Encoding, BomHandling);

/// Returns the answer of the one-shot call with replacement that looks for these byte order marks:
/// the text, the encoding that was used, and whether a sequence was malformed.
pub fn decode_at_once(
    alloc: Global,
    (encoding, handling): Mode,
    bytes: &[u8],
) -> Result<(String, Encoding, bool), OneShotError> {
    let (text, had_errors) = match handling {
        BomHandling::Sniff => return encoding.decode(alloc, bytes),
        BomHandling::Remove => encoding.decode_with_bom_removal(alloc, bytes)?,
        BomHandling::Off => encoding.decode_without_bom_handling(alloc, bytes)?,
    };
    Ok((text, encoding, had_errors))
}

/// Compares the call without replacement: it returns the text, or nothing if a sequence is
/// malformed.
pub fn compare_strict(
    alloc: Global,
    (encoding, bytes): (Encoding, &[u8]),
    (text, had_errors): (&[u8], bool),
) -> Result<(), Fail> {
    let case = Case {
        name: encoding.name(),
        input: bytes,
        room: 0,
    };
    let strict = encoding.decode_without_bom_handling_and_without_replacement(alloc, bytes)?;
    expect(strict.is_none() == had_errors, "a text or none", &case)?;
    match strict {
        Some(strict) => expect_bytes(strict.as_bytes(), text, "another strict text", &case),
        None => Ok(()),
    }
}

/// Compares one-shot calls with a run of one call that has room enough. Returns its text, and
/// whether a sequence was malformed.
pub fn compare_with_run(
    alloc: Global,
    (encoding, handling): Mode,
    bytes: &[u8],
) -> Result<(String, bool), Fail> {
    let room = bytes.len().saturating_mul(3).saturating_add(3);
    let case = Case {
        name: encoding.name(),
        input: bytes,
        room,
    };
    let call = DecodeCall {
        utf16: false,
        replace: true,
        offer: bytes.len(),
        room,
    };
    let report = decode_run(alloc, encoding, handling, bytes, &[call])?;
    expect(report.finished, "not finished", &case)?;
    let (text, by, had_errors) = decode_at_once(alloc, (encoding, handling), bytes)?;
    let want = report.text.as_bytes();
    expect_bytes(text.as_bytes(), want, "another text at once", &case)?;
    expect(by == report.encoding, "another encoding", &case)?;
    expect(had_errors == report.had_errors, "errors or none", &case)?;
    if handling == BomHandling::Off {
        let answer = (text.as_bytes(), had_errors);
        compare_strict(alloc, (encoding, bytes), answer)?;
    }
    Ok((text, had_errors))
}

/// Compares one-shot calls of the mode of a use with the text of the input, and a reader with the
/// call that looks for all byte order marks.
pub(crate) fn compare_at_once(alloc: Global, way: Use, input: &Input<'_>) -> Result<(), Fail> {
    let case = Case {
        name: way.encoding.name(),
        input: input.bytes,
        room: 0,
    };
    let mode = (way.encoding, way.handling);
    let (text, had_errors) = compare_with_run(alloc, mode, input.bytes)?;
    expect_bytes(text.as_bytes(), input.text, "another text at once", &case)?;
    let is_malformed = !input.malformed.is_empty();
    expect(had_errors == is_malformed, "errors or none", &case)
}

/// No call of a single byte writes more.
const ROOM: usize = 32;

/// Makes a call, which reads all of a chunk and writes the next text. Returns the text still to
/// come.
fn decode_next<'a>(
    decoder: &mut Decoder,
    (chunk, last): (&[u8], bool),
    to_come: &'a [u8],
    case: &Case<'_>,
) -> Result<&'a [u8], Fail> {
    if decoder.is_finished() {
        return Err(Fail::new("a call of a finished decoder"));
    }
    let mut buffer = [0; ROOM];
    let (stop, read, written, _) = decoder.decode_to_utf8(chunk, &mut buffer, last);
    let is_read = stop == CoderResult::InputEmpty && read == chunk.len();
    expect(is_read, "a chunk is not all read", case)?;
    let (text, _) = split(&buffer, written);
    expect(to_come.starts_with(text), "single bytes differ", case)?;
    let (_, rest) = split(to_come, text.len());
    Ok(rest)
}

/// Compares the text of a decoder that gets the bytes one by one with this text.
pub fn compare_single_bytes(
    (encoding, handling): Mode,
    bytes: &[u8],
    text: &[u8],
) -> Result<(), Fail> {
    let case = Case {
        name: encoding.name(),
        input: bytes,
        room: ROOM,
    };
    let mut decoder = new_decoder(encoding, handling);
    let mut to_come = text;
    for byte in bytes.chunks(1) {
        to_come = decode_next(&mut decoder, (byte, false), to_come, &case)?;
    }
    let rest = decode_next(&mut decoder, (&[], true), to_come, &case)?;
    expect(rest.is_empty(), "text is missing", &case)
}
