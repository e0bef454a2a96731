//! The calls, and what they return.

use crate::growths::rows::{
    Call, DECODE_CALLS, ENCODE_CALLS, LONG, MALFORMED, MAPPABLE_CHARS, Row, UNMAPPABLE,
};
use crate::one_shot::lend;
use encoding_rs::run::{DecodeReport, EncodeReport, RunError, decode_run, encode_run};
use encoding_rs::{BomHandling, Encoding, OneShotError};
use std::alloc::Global;
use std::borrow::{CowSlice, CowStr};

/// What a call returns: bytes, or a text in UTF-8, the encoding that is used, and whether something
/// is malformed or unmappable.
pub type Answer<'a> = (CowSlice<'a, u8>, Encoding, bool);

/// Why there is no answer.
#[derive(Clone, Copy)]
pub enum Refusal {
    /// Memory was refused.
    Memory,
    /// Something else, which may not be.
    Other(&'static str),
}

impl From<OneShotError> for Refusal {
    fn from(error: OneShotError) -> Refusal {
        match error {
            OneShotError::Memory => Refusal::Memory,
            OneShotError::TooLong => Refusal::Other("a length is too long"),
        }
    }
}

impl From<RunError> for Refusal {
    fn from(error: RunError) -> Refusal {
        match error {
            RunError::Memory => Refusal::Memory,
        }
    }
}

/// Decodes an input by a one-shot call that does not lend.
fn decode(
    alloc: Global,
    encoding: Encoding,
    (marks, replaces): (BomHandling, bool),
    src: &[u8],
) -> Result<(String, Encoding, bool), Refusal> {
    let (text, had_errors) = match (marks, replaces) {
        (BomHandling::Sniff, _) => return Ok(encoding.decode(alloc, src)?),
        (BomHandling::Remove, _) => encoding.decode_with_bom_removal(alloc, src)?,
        (BomHandling::Off, true) => encoding.decode_without_bom_handling(alloc, src)?,
        (BomHandling::Off, false) => {
            match encoding.decode_without_bom_handling_and_without_replacement(alloc, src)? {
                Some(text) => (text, false),
                None => return Err(Refusal::Other("there is no text")),
            }
        }
    };
    Ok((text, encoding, had_errors))
}

/// Decodes an input by a one-shot call that lends.
fn decode_lending<'a>(
    alloc: Global,
    encoding: Encoding,
    how: (BomHandling, bool),
    src: &'a [u8],
) -> Result<Answer<'a>, Refusal> {
    match lend(alloc, encoding, how, src) {
        Ok((text, used, had_errors)) => match text {
            Some(text) => Ok((bytes_of(text), used, had_errors)),
            None => Err(Refusal::Other("there is no text")),
        },
        Err(error) => Err(Refusal::from(error)),
    }
}

/// The bytes of a text, lent if it is.
fn bytes_of(text: CowStr<'_>) -> CowSlice<'_, u8> {
    match text {
        CowStr::Borrowed(text) => CowSlice::Borrowed(text.as_bytes()),
        CowStr::Owned(text) => CowSlice::Owned(text.into_bytes()),
    }
}

/// Decodes an input in a run, which has two calls.
fn decode_in_run(
    alloc: Global,
    encoding: Encoding,
    src: &[u8],
) -> Result<(String, Encoding, bool), Refusal> {
    let report = decode_run(alloc, encoding, BomHandling::Sniff, src, DECODE_CALLS)?;
    let is_whole = report.read == LONG && report.calls == 2 && report.finished;
    if !is_whole || report.faults.as_slice() != [MALFORMED].as_slice() {
        return Err(Refusal::Other("a run of a decoder ends otherwise"));
    }
    let DecodeReport {
        text,
        encoding,
        had_errors,
        ..
    } = report;
    Ok((text, encoding, had_errors))
}

/// Encodes a text in a run, which has two calls.
fn encode_in_run(
    alloc: Global,
    encoding: Encoding,
    text: &str,
) -> Result<(Vec<u8>, bool), Refusal> {
    let report = encode_run(alloc, encoding, text, ENCODE_CALLS)?;
    let is_whole = report.read == MAPPABLE_CHARS && report.calls == 2 && report.finished;
    if !is_whole || report.unmappables.as_slice() != [UNMAPPABLE].as_slice() {
        return Err(Refusal::Other("a run of an encoder ends otherwise"));
    }
    let EncodeReport {
        bytes,
        had_unmappables,
        ..
    } = report;
    Ok((bytes, had_unmappables))
}

/// Makes the call of a row, or the one that lends.
pub(crate) fn make<'a>(
    alloc: Global,
    row: &Row,
    lends: bool,
    src: &'a [u8],
) -> Result<Answer<'a>, Refusal> {
    let (encoding, text) = (row.encoding, str::from_utf8(src).unwrap_or(""));
    match row.call {
        Call::Decode(marks, replaces) if lends => {
            decode_lending(alloc, encoding, (marks, replaces), src)
        }
        Call::Decode(marks, replaces) => {
            let (text, used, had_errors) = decode(alloc, encoding, (marks, replaces), src)?;
            Ok((CowSlice::Owned(text.into_bytes()), used, had_errors))
        }
        Call::Encode if lends => match encoding.encode_lending(alloc, text) {
            Ok(answer) => Ok(answer),
            Err(error) => Err(Refusal::from(error)),
        },
        Call::Encode => {
            let (bytes, used, had_unmappables) = encoding.encode(alloc, text)?;
            Ok((CowSlice::Owned(bytes), used, had_unmappables))
        }
        Call::DecodeInRun => {
            let (text, used, had_errors) = decode_in_run(alloc, encoding, src)?;
            Ok((CowSlice::Owned(text.into_bytes()), used, had_errors))
        }
        Call::EncodeInRun => {
            let (bytes, had_unmappables) = encode_in_run(alloc, encoding, text)?;
            Ok((CowSlice::Owned(bytes), encoding, had_unmappables))
        }
    }
}
