//! Length queries: the room that they return is enough for the rest of an input.

use crate::cases::{Case, expect};
use crate::decoding::calls::{decode_chunk, new_decoder};
use crate::decoding::outputs::{Given, Output, call_into};
use crate::decoding::rows::{Input, split};
use crate::decoding::runs::Use;
use encoding_rs::{Decoder, DecoderResult};
use std::alloc::Global;
use std::test::Fail;

/// No length query returns more for an input of a row.
const MOST_QUERIED: usize = 128;

/// The length that a query returns for `bytes` bytes more.
fn queried(decoder: &Decoder, way: Use, bytes: usize) -> Option<usize> {
    if decoder.is_finished() {
        return None;
    }
    if way.output == Output::Utf16 {
        return decoder.max_utf16_buffer_length(bytes);
    }
    if way.reporting {
        return decoder.max_utf8_buffer_length_without_replacement(bytes);
    }
    decoder.max_utf8_buffer_length(bytes)
}

/// The room that a length query returns for `bytes` bytes more.
pub(crate) fn queried_room(decoder: &Decoder, way: Use, bytes: usize) -> Result<usize, Fail> {
    match queried(decoder, way, bytes) {
        Some(room) if room <= MOST_QUERIED => Ok(room),
        _ => Err(Fail::new("a length query returns nothing or too much")),
    }
}

/// The room that is returned for the rest of an input is enough for it with replacement, and up to
/// a malformed sequence without.
fn compare_rest(alloc: Global, way: Use, (front, rest): (&[u8], &[u8])) -> Result<(), Fail> {
    let mut decoder = new_decoder(way.encoding, way.handling);
    let mut text = Vec::new(alloc);
    decode_chunk(alloc, &mut decoder, (front, false), MOST_QUERIED, &mut text)?;
    let room = queried_room(&decoder, way, rest.len())?;
    let given = Given {
        src: rest,
        last: true,
        room,
        reporting: way.reporting,
    };
    let answer = call_into(alloc, &mut decoder, way.output, given, &mut text)?;
    let case = Case {
        name: way.encoding.name(),
        input: rest,
        room,
    };
    let is_full = answer.0 == DecoderResult::OutputFull;
    expect(!is_full, "full in a queried room", &case)
}

/// At each offset of an input the rooms that length queries return are enough for the rest.
pub(crate) fn compare_queried_rooms(
    alloc: Global,
    way: Use,
    input: &Input<'_>,
) -> Result<(), Fail> {
    for place in 0..input.bytes.len().saturating_add(1) {
        for output in [Output::Utf8, Output::Utf16] {
            for reporting in [false, true] {
                let way = Use {
                    output,
                    reporting,
                    ..way
                };
                compare_rest(alloc, way, split(input.bytes, place))?;
            }
        }
    }
    Ok(())
}
