//! The outcome of a call, predicted by calls without replacement, a character at a time.

use crate::encoding::calls::{Answer, Offer, SMALL_ROOM, make_call};
use crate::encoding::ways::{Source, Way};
use encoding_rs::{Encoder, EncoderResult};
use std::alloc::{AllocError, Global};
use std::test::Fail;

/// The calls that predictions are made by.
const REPORTING: Way = Way {
    source: Source::Utf8,
    replaces: false,
};

/// Appends the decimal reference to a character.
pub fn push_reference(
    alloc: Global,
    bytes: &mut Vec<u8>,
    character: char,
) -> Result<(), AllocError> {
    let reference = format!(in alloc; "&#{};", character as u32)?;
    bytes.extend_from_slice(reference.as_bytes())
}

/// The result of a call that writes no more, after `read` bytes of its text.
fn stop_after(encoder: &Encoder, offer: &Offer<'_>, read: usize) -> EncoderResult {
    if read == offer.text.len() && !(offer.last && encoder.has_pending_state()) {
        EncoderResult::InputEmpty
    } else {
        EncoderResult::OutputFull
    }
}

/// Makes a call without replacement, as far as `bytes` has fewer than `limit` bytes, and appends
/// its bytes.
fn report_to(
    alloc: Global,
    encoder: &mut Encoder,
    (text, last): (&str, bool),
    limit: usize,
    bytes: &mut Vec<u8>,
) -> Result<EncoderResult, Fail> {
    let room = limit.saturating_sub(bytes.len()).min(SMALL_ROOM);
    let answer = make_call(
        alloc,
        encoder,
        REPORTING,
        &Offer { text, last, room },
        bytes,
    )?;
    Ok(answer.stop)
}

/// Predicts the answer of a call with replacement that keeps `kept` bytes back, and appends its
/// bytes.
pub fn predict(
    alloc: Global,
    (encoder, kept): (&mut Encoder, usize),
    offer: &Offer<'_>,
    bytes: &mut Vec<u8>,
) -> Result<Answer, Fail> {
    let (mut read, mut replaced, mut local) = (0_usize, false, [0; 4]);
    let Some(limit) = offer.room.checked_sub(kept) else {
        let stop = stop_after(encoder, offer, read);
        return Ok(Answer::new(stop, read, replaced));
    };
    for character in offer.text.chars() {
        let own = character.encode_utf8(&mut local);
        let stop = report_to(alloc, encoder, (own, false), limit, bytes)?;
        if stop == EncoderResult::OutputFull {
            return Ok(Answer::new(stop, read, replaced));
        }
        read = read.saturating_add(character.len_utf8());
        if let EncoderResult::Unmappable(reported) = stop {
            push_reference(alloc, bytes, reported)?;
            replaced = true;
            if bytes.len() >= limit {
                let stop = stop_after(encoder, offer, read);
                return Ok(Answer::new(stop, read, replaced));
            }
        }
    }
    let stop = report_to(alloc, encoder, ("", offer.last), limit, bytes)?;
    Ok(Answer::new(stop, read, replaced))
}

/// Predicts the answer of a call without replacement, and appends its bytes.
pub fn predict_report(
    alloc: Global,
    encoder: &mut Encoder,
    offer: &Offer<'_>,
    bytes: &mut Vec<u8>,
) -> Result<Answer, Fail> {
    let (mut read, mut local) = (0_usize, [0; 4]);
    for character in offer.text.chars() {
        let own = character.encode_utf8(&mut local);
        let stop = report_to(alloc, encoder, (own, false), offer.room, bytes)?;
        if stop == EncoderResult::OutputFull {
            return Ok(Answer::new(stop, read, false));
        }
        read = read.saturating_add(character.len_utf8());
        if stop != EncoderResult::InputEmpty {
            return Ok(Answer::new(stop, read, false));
        }
    }
    let stop = report_to(alloc, encoder, ("", offer.last), offer.room, bytes)?;
    Ok(Answer::new(stop, read, false))
}
