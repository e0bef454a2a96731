//! One call of a decoder into any of its outputs, with answers of one form.

ghost use Rattle.std.specs.Prelude.{◌≡◌, false};
ghost use Rattle.encoding_rs.specs.Decoding.{has_finished};

use crate::cases::{Case, expect};
use crate::decoding::rows::split;
use encoding_rs::{CoderResult, Decoder, DecoderResult};
use std::alloc::Global;
use std::test::Fail;

/// The output of a decoder.
#[derive(Clone, Copy, PartialEq, Eq)]
pub enum Output {
    /// A slice of UTF-8.
    Utf8,
    /// A slice of UTF-16.
    Utf16,
    /// A `str`, in place of the text that it has.
    Str,
    /// The end of a `String`.
    String,
}

/// Each output.
pub const ALL_OUTPUTS: [Output; 4] = [Output::Utf8, Output::Utf16, Output::Str, Output::String];

/// The arguments of a call.
#[derive(Clone, Copy)]
pub struct Given<'a> {
    /// The bytes.
    pub src: &'a [u8],
    /// Whether they are the last ones.
    pub last: bool,
    /// The room, in code units.
    pub room: usize,
    /// Whether malformed sequences are reported and not replaced.
    pub reporting: bool,
}

/// The answer of a call: why it stopped, bytes read, code units written, and whether a malformed
/// sequence was replaced.
pub type Answer = (DecoderResult, usize, usize, bool);

/// The result of a call with replacement, as one without replacement has it.
fn result_of(stop: CoderResult) -> DecoderResult {
    match stop {
        CoderResult::InputEmpty => DecoderResult::InputEmpty,
        CoderResult::OutputFull => DecoderResult::OutputFull,
    }
}

/// The answer of a call with replacement.
fn replacing((stop, read, written, replaced): (CoderResult, usize, usize, bool)) -> Answer {
    (result_of(stop), read, written, replaced)
}

/// The answer of a call without replacement.
fn reporting((stop, read, written): (DecoderResult, usize, usize)) -> Answer {
    (stop, read, written, false)
}

/// Calls a decoder into UTF-8.
fn to_utf8(decoder: &mut Decoder, given: Given<'_>, dst: &mut [u8]) -> Answer
    requires unfinished { has_finished decoder.old ≡ false }
{
    if given.reporting {
        return reporting(decoder.decode_to_utf8_without_replacement(given.src, dst, given.last));
    }
    replacing(decoder.decode_to_utf8(given.src, dst, given.last))
}

/// Calls a decoder into UTF-16.
fn to_utf16(decoder: &mut Decoder, given: Given<'_>, dst: &mut [u16]) -> Answer
    requires unfinished { has_finished decoder.old ≡ false }
{
    if given.reporting {
        return reporting(decoder.decode_to_utf16_without_replacement(given.src, dst, given.last));
    }
    replacing(decoder.decode_to_utf16(given.src, dst, given.last))
}

/// Calls a decoder into a `str`.
fn to_str(decoder: &mut Decoder, given: Given<'_>, dst: &mut [u8]) -> Result<Answer, Fail>
    requires unfinished { has_finished decoder.old ≡ false }
{
    if str::from_utf8(dst).is_err() {
        return Err(Fail::new("the text to be written over is not UTF-8"));
    }
    if given.reporting {
        let answer = decoder.decode_to_str_without_replacement(given.src, dst, given.last);
        return Ok(reporting(answer));
    }
    Ok(replacing(decoder.decode_to_str(given.src, dst, given.last)))
}

/// Calls a decoder into a `String`. The answer has no count of the bytes written.
fn to_string(decoder: &mut Decoder, given: Given<'_>, dst: &mut String) -> Answer
    requires unfinished { has_finished decoder.old ≡ false }
{
    if given.reporting {
        let (result, read) = decoder.decode_to_string_without_replacement(
            given.src, dst, given.last,
        );
        return (result, read, 0, false);
    }
    let (stop, read, replaced) = decoder.decode_to_string(given.src, dst, given.last);
    (result_of(stop), read, 0, replaced)
}

/// Fails unless each code unit is this one.
fn expect_each<T: PartialEq>(units: &[T], want: &T, case: &Case<'_>) -> Result<(), Fail> {
    for unit in units {
        if unit != want {
            return expect(false, "the output is changed after its text", case);
        }
    }
    Ok(())
}

/// Returns the code units that a call has written. All others have to be `old`.
pub(crate) fn written_part<'a, T: PartialEq>(
    units: &'a [T],
    old: &T,
    written: usize,
    case: &Case<'_>,
) -> Result<&'a [T], Fail> {
    expect(written <= units.len(), "more is written than fits", case)?;
    let (text, rest) = split(units, written);
    expect_each(rest, old, case)?;
    Ok(text)
}

/// The greatest room into slices.
const BUFFER: usize = 128;

/// A byte that no text has in a row.
const OLD_BYTE: u8 = 0xA5;

fn call_into_utf8(
    decoder: &mut Decoder,
    given: Given<'_>,
    text: &mut Vec<u8>,
    case: &Case<'_>,
) -> Result<Answer, Fail>
    requires unfinished { has_finished decoder.old ≡ false }
{
    let mut buffer = [OLD_BYTE; BUFFER];
    let room = given.room.min(BUFFER);
    let answer = to_utf8(decoder, given, &mut buffer[..room]);
    let (units, _) = split(&buffer, room);
    text.extend_from_slice(written_part(units, &OLD_BYTE, answer.2, case)?)?;
    Ok(answer)
}

/// A code unit that no text has: a trail surrogate.
const OLD_UNIT: u16 = 0xDCA5;

fn call_into_utf16(
    alloc: Global,
    decoder: &mut Decoder,
    given: Given<'_>,
    text: &mut Vec<u8>,
    case: &Case<'_>,
) -> Result<Answer, Fail>
    requires unfinished { has_finished decoder.old ≡ false }
{
    let mut buffer = [OLD_UNIT; BUFFER];
    let room = given.room.min(BUFFER);
    let answer = to_utf16(decoder, given, &mut buffer[..room]);
    let (units, _) = split(&buffer, room);
    let part = written_part(units, &OLD_UNIT, answer.2, case)?;
    let Ok(piece) = String::from_utf16(alloc, part)? else {
        expect(false, "the text is not UTF-16", case)?;
        return Ok(answer);
    };
    text.extend_from_slice(piece.as_bytes())?;
    Ok(answer)
}

/// Characters of four bytes, after one of the bytes by which a room is more than a multiple of
/// four.
const OLD: [&str; 4] = [
    "💩💩💩💩💩💩💩💩💩💩💩💩💩💩💩💩",
    "a💩💩💩💩💩💩💩💩💩💩💩💩💩💩💩",
    "é💩💩💩💩💩💩💩💩💩💩💩💩💩💩💩",
    "€💩💩💩💩💩💩💩💩💩💩💩💩💩💩💩",
];

/// After the text, the rest of an overwritten character is 00, and all other bytes are unchanged.
fn compare_rest(old: &[u8], new: &[u8], case: &Case<'_>) -> Result<(), Fail> {
    let mut is_rest = true;
    for (was, is) in old.iter().zip(new) {
        is_rest &= 0x80 <= *was && *was < 0xC0;
        let want = if is_rest { 0 } else { *was };
        if *is != want {
            return expect(false, "the str is changed after its text", case);
        }
    }
    Ok(())
}

fn call_into_str(
    alloc: Global,
    decoder: &mut Decoder,
    given: Given<'_>,
    text: &mut Vec<u8>,
    case: &Case<'_>,
) -> Result<Answer, Fail>
    requires unfinished { has_finished decoder.old ≡ false }
{
    let (old, _) = split(OLD[given.room % 4].as_bytes(), given.room);
    expect(old.len() == given.room, "a room that is too great", case)?;
    let mut new = old.to_vec(alloc)?;
    let answer = to_str(decoder, given, &mut new)?;
    expect(str::from_utf8(&new).is_ok(), "the str is not UTF-8", case)?;
    expect(answer.2 <= new.len(), "more is written than fits", case)?;
    let (_, old_rest) = split(old, answer.2);
    let (part, new_rest) = split(&new, answer.2);
    compare_rest(old_rest, new_rest, case)?;
    text.extend_from_slice(part)?;
    Ok(answer)
}

/// The text of a `String` before a call.
const IN_FRONT: &str = "é";

fn call_into_string(
    alloc: Global,
    decoder: &mut Decoder,
    given: Given<'_>,
    text: &mut Vec<u8>,
    case: &Case<'_>,
) -> Result<Answer, Fail>
    requires unfinished { has_finished decoder.old ≡ false }
{
    let capacity = IN_FRONT.len().saturating_add(given.room);
    let mut string = String::with_capacity(alloc, capacity)?;
    string.push_str(IN_FRONT)?;
    let (result, read, _, replaced) = to_string(decoder, given, &mut string);
    expect(
        string.capacity() == capacity,
        "the capacity is changed",
        case,
    )?;
    let (front, appended) = split(string.as_bytes(), IN_FRONT.len());
    expect(
        front == IN_FRONT.as_bytes(),
        "the text before is changed",
        case,
    )?;
    text.extend_from_slice(appended)?;
    Ok((result, read, appended.len(), replaced))
}

/// Makes a call, appends its text to `text`, and returns its answer. Fails if the decoder is
/// finished, or if the output after the text is wrong.
pub fn call_into(
    alloc: Global,
    decoder: &mut Decoder,
    output: Output,
    given: Given<'_>,
    text: &mut Vec<u8>,
) -> Result<Answer, Fail> {
    let case = Case {
        name: decoder.encoding().name(),
        input: given.src,
        room: given.room,
    };
    expect(given.room <= BUFFER, "a room that is too great", &case)?;
    if decoder.is_finished() {
        return Err(Fail::new("a call of a finished decoder"));
    }
    match output {
        Output::Utf8 => call_into_utf8(decoder, given, text, &case),
        Output::Utf16 => call_into_utf16(alloc, decoder, given, text, &case),
        Output::Str => call_into_str(alloc, decoder, given, text, &case),
        Output::String => call_into_string(alloc, decoder, given, text, &case),
    }
}
