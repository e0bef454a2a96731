//! Texts of about seventy characters, of which a call writes long parts at once.

use crate::cases::expect;
use crate::encoding::calls::{Answer, Offer, compare_answer, make_call};
use crate::encoding::predictions::{predict, predict_report};
use crate::encoding::runs::{Encoded, case_of, compare_parts};
use crate::encoding::ways::{Asked, SLICE_WAYS, Way, encoder_of, kept_back};
use encoding_rs::EncoderResult;
use std::alloc::Global;
use std::test::Fail;

/// All rooms less than this are tried. Calls with 32 bytes of room and more write many characters
/// at once.
const SMALL_ROOMS: usize = 49;

/// Larger rooms.
const LARGE_ROOMS: [usize; 5] = [56, 63, 64, 77, 600];

/// Added to one byte less than a text has: with references ten bytes are kept back.
const AROUND: [usize; 4] = [0, 1, 10, 11];

/// The room of texts in two parts.
const CUT_ROOM: usize = 40;

/// Predicts the answer of a call in this way by a new encoder, and appends its bytes.
fn predict_call(
    alloc: Global,
    (asked, way): (Asked, Way),
    offer: &Offer<'_>,
    bytes: &mut Vec<u8>,
) -> Result<Answer, Fail> {
    let mut model = encoder_of(asked)?;
    if way.replaces {
        predict(alloc, (&mut model, kept_back(asked)), offer, bytes)
    } else {
        predict_report(alloc, &mut model, offer, bytes)
    }
}

/// Encodes a text by one call with this room. It writes what fits, as its characters in a call each
/// do: the first of the row's bytes, and all of them if they fit.
fn compare_room(
    alloc: Global,
    (asked, way): (Asked, Way),
    row: Encoded<'_>,
    room: usize,
) -> Result<(), Fail> {
    let offer = Offer {
        text: row.0,
        last: true,
        room,
    };
    let case = case_of(asked, row.0, room);
    let (mut bytes, mut want_bytes) = (Vec::new(alloc), Vec::new(alloc));
    let mut encoder = encoder_of(asked)?;
    let answer = make_call(alloc, &mut encoder, way, &offer, &mut bytes)?;
    let want = predict_call(alloc, (asked, way), &offer, &mut want_bytes)?;
    compare_answer((answer, &bytes), (want, &want_bytes), way.name(), &case)?;
    expect(row.1.starts_with(&bytes), "no prefix of the bytes", &case)?;
    let fits = way.replaces && room >= row.1.len().saturating_add(kept_back(asked));
    let is_whole = answer.stop == EncoderResult::InputEmpty && bytes.len() == row.1.len();
    expect(
        is_whole || !fits,
        "one call has room and does not finish",
        &case,
    )
}

/// Encodes a text by one call, in small rooms, in large ones, and around its length; and in two
/// parts, cut between any two characters.
pub fn compare_long(alloc: Global, asked: Asked, row: Encoded<'_>) -> Result<(), Fail> {
    let before = row.1.len().saturating_sub(1);
    for way in SLICE_WAYS {
        for room in 0..SMALL_ROOMS {
            compare_room(alloc, (asked, way), row, room)?;
        }
        for room in LARGE_ROOMS {
            compare_room(alloc, (asked, way), row, room)?;
        }
        for more in AROUND {
            compare_room(alloc, (asked, way), row, before.saturating_add(more))?;
        }
        for (place, _) in row.0.char_indices() {
            compare_parts(alloc, (asked, way), row, (place, CUT_ROOM))?;
        }
    }
    Ok(())
}
