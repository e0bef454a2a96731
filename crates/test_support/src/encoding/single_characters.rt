//! Encoders that get a character at a time. The room of a length query is enough. With room for any
//! character, and for a reference if it writes some, a run of n characters takes at most 2n + 2
//! calls.

use crate::cases::{expect, expect_bytes};
use crate::encoding::calls::{MOST_ROOM, Offer, make_call, rest_of};
use crate::encoding::predictions::push_reference;
use crate::encoding::runs::{Encoded, case_of};
use crate::encoding::ways::{ALL_WAYS, Asked, Source, Way, encoder_of};
use encoding_rs::run::{EncodeCall, EncodeReport, encode_run_barring};
use encoding_rs::{Encoder, EncoderResult, Encoding};
use std::alloc::Global;
use std::test::Fail;

/// Rooms of a run: too small for any character, for some and for none, and the same with 10 bytes
/// kept back.
const ROOMS: [usize; 13] = [0, 1, 2, 3, 4, 5, 6, 7, 12, 13, 14, 15, 17];

/// The length query for a text: with replacement, if none of its characters is unmappable.
fn queried_room(encoder: &Encoder, way: Way, text: &str) -> usize {
    let units = text.encode_utf16().count();
    let length = match (way.source, way.replaces) {
        (Source::Utf16, false) => encoder.max_buffer_length_from_utf16_without_replacement(units),
        (Source::Utf16, true) => encoder.max_buffer_length_from_utf16_if_no_unmappables(units),
        (_, false) => encoder.max_buffer_length_from_utf8_without_replacement(text.len()),
        (_, true) => encoder.max_buffer_length_from_utf8_if_no_unmappables(text.len()),
    };
    length.unwrap_or(MOST_ROOM)
}

/// Passes a text, and again the unread rest, each in its queried room, until it is read. The output
/// is full at most after a reference.
fn offer_in_queried_room(
    alloc: Global,
    (encoder, way): (&mut Encoder, Way),
    (text, last): (&str, bool),
    bytes: &mut Vec<u8>,
) -> Result<(), Fail> {
    let mut unread = text;
    for _ in 0..3 {
        let offer = Offer {
            text: unread,
            last,
            room: queried_room(encoder, way, unread),
        };
        let answer = make_call(alloc, encoder, way, &offer, bytes)?;
        unread = rest_of(unread, answer.read)?;
        match answer.stop {
            EncoderResult::InputEmpty => return Ok(()),
            EncoderResult::Unmappable(reported) => push_reference(alloc, bytes, reported)?,
            EncoderResult::OutputFull if answer.replaced => (),
            EncoderResult::OutputFull => break,
        }
    }
    Err(Fail::new(format_args!("{text} has too little room, {}", way.name())))
}

/// Encodes a row a character at a time, each in its queried room.
fn compare_queried_rooms(
    alloc: Global,
    (asked, way): (Asked, Way),
    row: Encoded<'_>,
) -> Result<(), Fail> {
    let mut encoder = encoder_of(asked)?;
    let mut bytes = Vec::new(alloc);
    let mut local = [0; 4];
    for character in row.0.chars() {
        let own = character.encode_utf8(&mut local);
        offer_in_queried_room(alloc, (&mut encoder, way), (own, false), &mut bytes)?;
    }
    offer_in_queried_room(alloc, (&mut encoder, way), ("", true), &mut bytes)?;
    expect_bytes(&bytes, row.1, way.name(), &case_of(asked, row.0, MOST_ROOM))
}

/// Makes calls that get a character each: two for each character, and two more.
fn run_by_characters(
    alloc: Global,
    ((encoding, barred), way): (Asked, Way),
    text: &str,
    room: usize,
) -> Result<EncodeReport, Fail> {
    if !Encoding::barred_ok(barred) {
        return Err(Fail::new("an ASCII character is barred"));
    }
    let call = EncodeCall {
        utf16: matches!(way.source, Source::Utf16),
        replace: way.replaces,
        offer: 1,
        room,
    };
    let count = text.chars().count().saturating_mul(2).saturating_add(2);
    let calls = vec![in alloc; call; count]?;
    Ok(encode_run_barring(alloc, encoding, barred, text, &calls)?)
}

/// Compares a run with the row. If it does not finish, it has too little room and has written a
/// prefix.
fn compare_end(
    alloc: Global,
    (asked, way): (Asked, Way),
    row: Encoded<'_>,
    room: usize,
) -> Result<(), Fail> {
    let case = case_of(asked, row.0, room);
    let report = run_by_characters(alloc, (asked, way), row.0, room)?;
    let bytes = report.bytes.as_slice();
    if report.finished {
        return expect_bytes(bytes, row.1, way.name(), &case);
    }
    let has_room = room >= way.room_enough(asked);
    expect(!has_room, "a run has room and does not finish", &case)?;
    let (front, _) = row.1.split_at(bytes.len().min(row.1.len()));
    expect_bytes(bytes, front, way.name(), &case)
}

/// Encodes a row a character at a time, in each way, in queried rooms and in small ones.
pub fn compare_single_characters(
    alloc: Global,
    asked: Asked,
    row: Encoded<'_>,
) -> Result<(), Fail> {
    for way in ALL_WAYS {
        compare_queried_rooms(alloc, (asked, way), row)?;
        for room in ROOMS {
            compare_end(alloc, (asked, way), row, room)?;
        }
    }
    Ok(())
}
