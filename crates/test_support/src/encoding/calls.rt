//! One call of an encoder, in any way.

use crate::cases::{Case, expect, expect_bytes};
use crate::encoding::ways::{Source, Way};
use encoding_rs::{CoderResult, Encoder, EncoderResult};
use std::alloc::{AllocError, Global};
use std::test::Fail;

/// Room enough for any call of a short text, in bytes.
pub const MOST_ROOM: usize = 64;

/// Room in which any character fits.
pub const SMALL_ROOM: usize = 32;

/// Each byte of an output buffer before a call.
const UNTOUCHED: u8 = 0xA5;

/// The contents of a `Vec` before a call.
const FRONT: &[u8] = b"ab";

/// The arguments of a call, without its output.
#[derive(Clone, Copy)]
pub struct Offer<'a> {
    /// The text.
    pub text: &'a str,
    /// Whether the text ends here.
    pub last: bool,
    /// The room for output, in bytes.
    pub room: usize,
}

/// The answer of a call.
#[derive(Clone, Copy)]
pub struct Answer {
    /// Why it stopped.
    pub stop: EncoderResult,
    /// The length of its input that it has read.
    pub read: usize,
    /// Whether it has written a reference.
    pub replaced: bool,
}

impl Answer {
    /// An answer of these parts.
    pub fn new(stop: EncoderResult, read: usize, replaced: bool) -> Answer {
        Answer {
            stop,
            read,
            replaced,
        }
    }
}

/// The input of a call into a slice.
#[derive(Clone, Copy)]
pub enum Input<'a> {
    /// UTF-8.
    Utf8(&'a str),
    /// UTF-16, which may have unpaired surrogates.
    Utf16(&'a [u16]),
}

/// The stop of a call with replacement, as one without it would report it.
pub fn stop_of(stop: CoderResult) -> EncoderResult {
    match stop {
        CoderResult::InputEmpty => EncoderResult::InputEmpty,
        CoderResult::OutputFull => EncoderResult::OutputFull,
    }
}

/// The rest of a text after its first `read` bytes.
pub fn rest_of(text: &str, read: usize) -> Result<&str, Fail> {
    match text.split_at_checked(read) {
        Some((_, rest)) => Ok(rest),
        None => Err(Fail::new(format_args!("{read} bytes of {text} are no characters"))),
    }
}

/// The number of bytes of UTF-8 of the characters that are the first `units` code units of UTF-16.
fn bytes_of_units(text: &str, units: usize) -> Option<usize> {
    let (mut bytes, mut left) = (0_usize, units);
    for character in text.chars() {
        if left == 0 {
            break;
        }
        left = left.checked_sub(character.len_utf16())?;
        bytes = bytes.saturating_add(character.len_utf8());
    }
    if left == 0 { Some(bytes) } else { None }
}

/// The code units of UTF-16 of a text.
fn units_of(alloc: Global, text: &str) -> Result<Vec<u16>, AllocError> {
    let mut units = Vec::new(alloc);
    for unit in text.encode_utf16() {
        units.push(unit)?;
    }
    Ok(units)
}

/// The answer and the number of bytes of a call without replacement.
fn reported((stop, read, written): (EncoderResult, usize, usize)) -> (Answer, usize) {
    (Answer::new(stop, read, false), written)
}

/// The answer and the number of bytes of a call with replacement.
fn replacing(
    (stop, read, written, replaced): (CoderResult, usize, usize, bool),
) -> (Answer, usize) {
    (Answer::new(stop_of(stop), read, replaced), written)
}

/// Encodes into a slice. Returns the answer and the number of bytes written.
fn encode(
    encoder: &mut Encoder,
    replaces: bool,
    (input, last): (Input<'_>, bool),
    dst: &mut [u8],
) -> (Answer, usize) {
    match (input, replaces) {
        (Input::Utf8(text), false) => {
            reported(encoder.encode_from_utf8_without_replacement(text, dst, last))
        }
        (Input::Utf16(units), false) => {
            reported(encoder.encode_from_utf16_without_replacement(units, dst, last))
        }
        (Input::Utf8(text), true) => replacing(encoder.encode_from_utf8(text, dst, last)),
        (Input::Utf16(units), true) => replacing(encoder.encode_from_utf16(units, dst, last)),
    }
}

/// Makes a call into a slice, and appends the bytes that it writes. The rest of its room stays.
pub fn call_to_slice(
    alloc: Global,
    (encoder, replaces): (&mut Encoder, bool),
    (input, last): (Input<'_>, bool),
    room: usize,
    bytes: &mut Vec<u8>,
) -> Result<Answer, Fail> {
    let mut buffer = vec![in alloc; UNTOUCHED; room]?;
    let (answer, written) = encode(encoder, replaces, (input, last), &mut buffer);
    let Some((front, rest)) = buffer.split_at_checked(written) else {
        return Err(Fail::new("a call writes more than its room"));
    };
    if rest.iter().any(|byte| *byte != UNTOUCHED) {
        return Err(Fail::new("a call writes after its bytes"));
    }
    bytes.extend_from_slice(front)?;
    Ok(answer)
}

/// Makes a call into a `Vec`, and appends the bytes that it writes. Contents and capacity of the
/// `Vec` stay.
fn call_to_vec(
    alloc: Global,
    encoder: &mut Encoder,
    replaces: bool,
    offer: &Offer<'_>,
    bytes: &mut Vec<u8>,
) -> Result<Answer, Fail> {
    let Offer { text, last, room } = *offer;
    let capacity = FRONT.len().saturating_add(room);
    let mut vec = Vec::with_capacity(alloc, capacity)?;
    vec.extend_from_slice(FRONT)?;
    let (answer, _) = if replaces {
        let (stop, read, replaced) = encoder.encode_from_utf8_to_vec(text, &mut vec, last);
        replacing((stop, read, 0, replaced))
    } else {
        let (stop, read) = encoder.encode_from_utf8_to_vec_without_replacement(
            text, &mut vec, last,
        );
        reported((stop, read, 0))
    };
    match vec.as_slice().strip_prefix(FRONT) {
        Some(appended) if vec.capacity() == capacity => bytes.extend_from_slice(appended)?,
        _ => return Err(Fail::new("a call changes the contents or the capacity of a Vec")),
    }
    Ok(answer)
}

/// Makes a call, and appends the bytes that it writes. `read` is in bytes of UTF-8 whatever it
/// reads.
pub fn make_call(
    alloc: Global,
    encoder: &mut Encoder,
    way: Way,
    offer: &Offer<'_>,
    bytes: &mut Vec<u8>,
) -> Result<Answer, Fail> {
    let Offer { text, last, room } = *offer;
    match way.source {
        Source::Utf8 => {
            let input = (Input::Utf8(text), last);
            call_to_slice(alloc, (encoder, way.replaces), input, room, bytes)
        }
        Source::Utf16 => {
            let units = units_of(alloc, text)?;
            let input = (Input::Utf16(&units), last);
            let answer = call_to_slice(alloc, (encoder, way.replaces), input, room, bytes)?;
            in_bytes(text, answer)
        }
        Source::Utf8ToVec => call_to_vec(alloc, encoder, way.replaces, offer, bytes),
    }
}

/// The answer of a call from UTF-16, in bytes of UTF-8.
fn in_bytes(text: &str, answer: Answer) -> Result<Answer, Fail> {
    match bytes_of_units(text, answer.read) {
        Some(read) => Ok(Answer::new(answer.stop, read, answer.replaced)),
        None => Err(Fail::new("a call from UTF-16 stops within a character")),
    }
}

/// Compares the answer of a call and its bytes with those that are wanted.
pub fn compare_answer(
    (answer, bytes): (Answer, &[u8]),
    (want, want_bytes): (Answer, &[u8]),
    what: &'static str,
    case: &Case<'_>,
) -> Result<(), Fail> {
    expect_bytes(bytes, want_bytes, what, case)?;
    expect(
        answer.stop == want.stop,
        "a call stops for another reason",
        case,
    )?;
    expect(
        answer.read == want.read,
        "a call reads another length",
        case,
    )?;
    expect(
        answer.replaced == want.replaced,
        "a reference is reported otherwise",
        case,
    )
}
