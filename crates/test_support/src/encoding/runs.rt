//! Runs of an encoder over a text, in each way.

use crate::cases::{Case, expect, expect_bytes};
use crate::encoding::calls::{Answer, Offer, compare_answer, make_call, rest_of};
use crate::encoding::mixed::compare_mixed;
use crate::encoding::predictions::{predict, push_reference};
use crate::encoding::single_characters::compare_single_characters;
use crate::encoding::ways::{ALL_WAYS, Asked, Way, encoder_of, kept_back};
use crate::encoding::whole_texts::compare_with_run;
use encoding_rs::{Encoder, EncoderResult};
use std::alloc::Global;
use std::test::Fail;

/// A text, and its bytes, as in such a row.
pub type Encoded<'a> = (&'a str, &'a [u8]);

/// More calls than any text here takes.
const MOST_CALLS: usize = 256;

/// The rooms of runs are less than this. In small rooms a run may be stuck.
const ROOMS: usize = 25;

/// The result of one encoder's calls.
#[derive(Drop)]
struct Run {
    encoder: Encoder,
    /// Predicts calls with replacement, by calls without it.
    model: Encoder,
    /// Whether it does.
    is_predicted: bool,
    asked: Asked,
    way: Way,
    room: usize,
    bytes: Vec<u8>,
    /// Whether the last call could neither read nor write.
    is_stuck: bool,
}

/// A case of an encoder.
pub fn case_of((encoding, _): Asked, text: &str, room: usize) -> Case<'_> {
    Case {
        name: encoding.name(),
        input: text.as_bytes(),
        room,
    }
}

/// Starts a run.
fn start(
    alloc: Global,
    (asked, way): (Asked, Way),
    room: usize,
    is_predicted: bool,
) -> Result<Run, Fail> {
    Ok(Run {
        encoder: encoder_of(asked)?,
        model: encoder_of(asked)?,
        is_predicted,
        asked,
        way,
        room,
        bytes: Vec::new(alloc),
        is_stuck: false,
    })
}

/// Compares a call with replacement with its prediction.
fn compare_predicted(
    alloc: Global,
    run: &mut Run,
    offer: &Offer<'_>,
    (answer, bytes): (Answer, &[u8]),
) -> Result<(), Fail> {
    let case = case_of(run.asked, offer.text, offer.room);
    let mut want_bytes = Vec::new(alloc);
    let model = (&mut run.model, kept_back(run.asked));
    let want = predict(alloc, model, offer, &mut want_bytes)?;
    compare_answer((answer, bytes), (want, &want_bytes), run.way.name(), &case)?;
    let is_same = run.encoder.has_pending_state() == run.model.has_pending_state();
    expect(
        is_same,
        "another state is pending than after calls without replacement",
        &case,
    )
}

/// Makes a call.
fn call(alloc: Global, run: &mut Run, offer: &Offer<'_>) -> Result<Answer, Fail> {
    let mut bytes = Vec::new(alloc);
    let answer = make_call(alloc, &mut run.encoder, run.way, offer, &mut bytes)?;
    if run.way.replaces && run.is_predicted {
        compare_predicted(alloc, run, offer, (answer, &bytes))?;
    }
    let is_full = answer.stop == EncoderResult::OutputFull;
    run.is_stuck = is_full && bytes.is_empty() && answer.read == 0;
    run.bytes.extend_from_slice(&bytes)?;
    Ok(answer)
}

/// Passes a text, and again the unread rest, until all is read, or a call neither reads nor writes.
/// Appends a reference to each character that is reported.
fn offer(alloc: Global, run: &mut Run, text: &str, last: bool) -> Result<(), Fail> {
    let (mut unread, room) = (text, run.room);
    for _ in 0..MOST_CALLS {
        if run.is_stuck {
            return Ok(());
        }
        let offer = Offer {
            text: unread,
            last,
            room,
        };
        let answer = call(alloc, run, &offer)?;
        unread = rest_of(unread, answer.read)?;
        match answer.stop {
            EncoderResult::InputEmpty => {
                let case = case_of(run.asked, text, room);
                return expect(
                    unread.is_empty(),
                    "a call reads less than it reports",
                    &case,
                );
            }
            EncoderResult::OutputFull => (),
            EncoderResult::Unmappable(character) => {
                push_reference(alloc, &mut run.bytes, character)?;
            }
        }
    }
    Err(Fail::new(format_args!("{text} takes more than {MOST_CALLS} calls")))
}

/// Compares the output with the row. It is a prefix of the row's bytes if the run is stuck in a
/// small room, and otherwise all of them.
fn compare(run: &Run, row: Encoded<'_>) -> Result<(), Fail> {
    let case = case_of(run.asked, row.0, run.room);
    let (bytes, way) = (run.bytes.as_slice(), run.way);
    if !run.is_stuck {
        let is_pending = run.encoder.has_pending_state();
        expect(!is_pending, "a state is pending after the end", &case)?;
        return expect_bytes(bytes, row.1, way.name(), &case);
    }
    let has_room = run.room >= way.room_enough(run.asked);
    expect(
        !has_room,
        "a call neither reads nor writes, but has room",
        &case,
    )?;
    let (front, _) = row.1.split_at(bytes.len().min(row.1.len()));
    expect_bytes(bytes, front, way.name(), &case)
}

/// Passes a row's text in two parts, and compares what comes of it.
fn compare_run(alloc: Global, run: &mut Run, row: Encoded<'_>, place: usize) -> Result<(), Fail> {
    let Some((front, rest)) = row.0.split_at_checked(place) else {
        return Err(Fail::new("a character is cut"));
    };
    offer(alloc, run, front, false)?;
    offer(alloc, run, rest, true)?;
    compare(run, row)
}

/// Runs a row in two parts. The calls are not predicted.
pub fn compare_parts(
    alloc: Global,
    (asked, way): (Asked, Way),
    row: Encoded<'_>,
    (place, room): (usize, usize),
) -> Result<(), Fail> {
    let mut run = start(alloc, (asked, way), room, false)?;
    compare_run(alloc, &mut run, row, place)
}

/// Runs a row in two parts, and predicts calls with replacement.
fn compare_predicted_parts(
    alloc: Global,
    (asked, way): (Asked, Way),
    row: Encoded<'_>,
    (place, room): (usize, usize),
) -> Result<(), Fail> {
    let mut run = start(alloc, (asked, way), room, true)?;
    compare_run(alloc, &mut run, row, place)
}

/// Runs a text a character at a time.
fn run_characters(
    alloc: Global,
    (asked, way): (Asked, Way),
    text: &str,
    room: usize,
) -> Result<Run, Fail> {
    let mut run = start(alloc, (asked, way), room, true)?;
    let mut local = [0; 4];
    for character in text.chars() {
        let own = character.encode_utf8(&mut local);
        offer(alloc, &mut run, own, false)?;
    }
    offer(alloc, &mut run, "", true)?;
    Ok(run)
}

/// Runs a row in two parts and a character at a time, in each room and way; by single characters in
/// the rooms that length queries return; and by calls that change from one to the next.
pub fn compare_cuts(alloc: Global, asked: Asked, row: Encoded<'_>) -> Result<(), Fail> {
    compare_single_characters(alloc, asked, row)?;
    compare_mixed(alloc, asked, row)?;
    for way in ALL_WAYS {
        for room in 0..ROOMS {
            for (place, _) in row.0.char_indices() {
                compare_predicted_parts(alloc, (asked, way), row, (place, room))?;
            }
            let run = run_characters(alloc, (asked, way), row.0, room)?;
            compare(&run, row)?;
        }
    }
    Ok(())
}

/// The same, and by one-shot calls if no character is barred.
pub fn compare_encoded(alloc: Global, asked: Asked, row: Encoded<'_>) -> Result<(), Fail> {
    let (encoding, barred) = asked;
    let encoder = encoder_of(asked)?;
    let case = case_of(asked, row.0, row.0.len());
    let is_output = encoder.encoding() == encoding.output_encoding();
    expect(is_output, "an encoder has another encoding", &case)?;
    let is_pending = encoder.has_pending_state();
    expect(!is_pending, "a state is pending at the start", &case)?;
    if barred.is_empty() {
        let bytes = compare_with_run(alloc, encoding, row.0)?;
        expect_bytes(&bytes, row.1, "a one-shot call", &case)?;
    }
    compare_cuts(alloc, asked, row)
}
