//! A codec's decoder by itself, which makes the calls of an encoding's.

use crate::fault::RowFault;
use crate::words::{Unreadable, Words, number_of};
use enc_codec::{CallOptions, ErrorMode, RawDecoder, VariantDecoder};
use enc_output::{DecoderResult, Units, Utf8Slice, Utf16Slice};
use std::alloc::Global;
use test_support::decoding::{Answer, Given, Output};

/// The length of UTF-8 with replacement, that without, and the length of UTF-16.
pub type Lengths = (Option<usize>, Option<usize>, Option<usize>);

/// Reads `held=N`, if that is to come.
pub(crate) fn held_of(words: &mut Words<'_>) -> Result<Option<usize>, Unreadable> {
    if !words.has_more() {
        return Ok(None);
    }
    match words.word()?.strip_prefix("held=") {
        Some(number) => Ok(Some(number_of(number)?)),
        None => Err(Unreadable::TooMany),
    }
}

/// The answers of the length queries for `bytes` bytes more.
pub(crate) fn lengths_of(decoder: &VariantDecoder, bytes: usize) -> Lengths {
    (
        decoder.max_utf8_buffer_length(bytes),
        decoder.max_utf8_buffer_length_without_replacement(bytes),
        decoder.max_utf16_buffer_length(bytes),
    )
}

/// Makes a call. Returns why it stopped, the number of bytes read, and whether it replaced.
fn call<U: Units>(
    decoder: &mut VariantDecoder,
    given: Given<'_>,
    out: &mut U,
) -> (DecoderResult, usize, bool) {
    let mode = if given.reporting {
        ErrorMode::Fatal
    } else {
        ErrorMode::Replacement
    };
    let last = given.last;
    let outcome = decoder.decode(given.src, out, CallOptions { last, mode });
    (outcome.result, outcome.read, outcome.replaced)
}

/// Makes a call into UTF-8. Returns its answer and its text.
fn call_into_utf8(
    alloc: Global,
    decoder: &mut VariantDecoder,
    given: Given<'_>,
) -> Result<(Answer, Vec<u8>), RowFault> {
    let mut units = vec![in alloc; 0_u8; given.room]?;
    let mut out = Utf8Slice::new(&mut units);
    let (result, read, replaced) = call(decoder, given, &mut out);
    let written = out.len();
    units.truncate(written);
    Ok(((result, read, written, replaced), units))
}

/// Makes a call into UTF-16. Returns its answer and its text.
fn call_into_utf16(
    alloc: Global,
    decoder: &mut VariantDecoder,
    given: Given<'_>,
) -> Result<(Answer, Vec<u8>), RowFault> {
    let mut units = vec![in alloc; 0_u16; given.room]?;
    let mut out = Utf16Slice::new(&mut units);
    let (result, read, replaced) = call(decoder, given, &mut out);
    let written = out.len();
    units.truncate(written);
    let Ok(text) = String::from_utf16(alloc, &units)? else {
        return Err(RowFault::fails("the text of a decoder by itself is not UTF-16"));
    };
    Ok(((result, read, written, replaced), text.into_bytes()))
}

/// Makes a call, whose answer and text have to be these. Then `held` bytes are held, if that is
/// said.
pub(crate) fn call_beside(
    alloc: Global,
    decoder: &mut VariantDecoder,
    (output, given): (Output, Given<'_>),
    (want, text): (Answer, &str),
    held: Option<usize>,
) -> Result<(), RowFault> {
    let (answer, written) = match output {
        Output::Utf16 => call_into_utf16(alloc, decoder, given)?,
        Output::Utf8 | Output::Str | Output::String => call_into_utf8(alloc, decoder, given)?,
    };
    if answer != want || written.as_slice() != text.as_bytes() {
        return Err(RowFault::fails("a decoder by itself has another answer or text"));
    }
    match held {
        Some(held) if decoder.held() != held => {
            Err(RowFault::fails("a decoder by itself holds other bytes"))
        }
        _ => Ok(()),
    }
}
