//! Runs of the rows over a codec's decoder by itself: over any `RawDecoder`, without its
//! `Encoding`.

use crate::cases::{Case, expect};
use crate::decoding::outputs::written_part;
use crate::decoding::rows::{Cut, Input, MOST_ROOM, REPLACEMENT_CHARACTER, chunks_of, split};
use enc_decoder::{CallOptions, ErrorMode, RawDecoder};
use enc_output::{DecoderResult, Units, Utf8Slice};
use std::alloc::Global;
use std::test::Fail;

/// The rooms that calls are given, each with whether it goes through every cut.
const ROOMS: [(usize, bool); 11] = [
    (0, true),
    (1, true),
    (2, true),
    (3, true),
    (4, true),
    (5, false),
    (6, false),
    (7, false),
    (8, false),
    (9, false),
    (MOST_ROOM, true),
];

/// No decoder holds more bytes.
const MOST_HELD: usize = 5;

/// No input of a row takes more calls for a chunk.
const MOST_CALLS: usize = 128;

/// The answer of a call: why it stopped, bytes read, bytes written, and the room that it left.
type RawAnswer = (DecoderResult, usize, usize, usize);

/// Makes a call in an error mode.
fn call(
    decoder: &mut impl RawDecoder,
    (src, last): (&[u8], bool),
    dst: &mut [u8],
    mode: ErrorMode,
) -> RawAnswer {
    let mut out = Utf8Slice::new(dst);
    let outcome = decoder.decode(src, &mut out, CallOptions { last, mode });
    (outcome.result, outcome.read, out.len(), out.room())
}

/// The result of a call.
#[derive(Clone, Copy)]
struct Outcome {
    result: DecoderResult,
    read: usize,
    written: usize,
    /// The room that it left.
    left: usize,
    /// The number of pending bytes after it.
    held: usize,
}

/// The state of one decoder's calls in an example. The caller puts U+FFFD where a malformed
/// sequence is reported.
#[derive(Clone, Copy)]
struct Progress<'a> {
    case: Case<'a>,
    /// The room in which the input reaches its end.
    enough: usize,
    mode: ErrorMode,
    read: usize,
    /// The number of bytes read whose sequences were put out or reported. The others are pending.
    done: usize,
    /// The text that is still to come.
    text: &'a [u8],
    /// The malformed sequences that are still to be reported: none in "replacement".
    malformed: &'a [(usize, usize)],
}

/// This text comes next.
fn take_text(progress: &mut Progress<'_>, text: &[u8]) -> Result<(), Fail> {
    let is_next = progress.text.starts_with(text);
    expect(is_next, "another text", &progress.case)?;
    let (_, rest) = split(progress.text, text.len());
    progress.text = rest;
    Ok(())
}

/// The bytes that were read end with those that are held.
fn take_bytes(progress: &mut Progress<'_>, outcome: Outcome) -> Result<(), Fail> {
    let held = outcome.held;
    let read = progress.read.saturating_add(outcome.read);
    let may_hold = held <= MOST_HELD && held <= read;
    expect(may_hold, "too much is held", &progress.case)?;
    let done = read.saturating_sub(held);
    expect(
        progress.done <= done,
        "more is held than before",
        &progress.case,
    )?;
    progress.read = read;
    progress.done = done;
    Ok(())
}

/// A malformed sequence of `len` bytes is reported: it is the next one, and ends where the held
/// bytes begin, `after` bytes before the end of those read.
fn take_report(progress: &mut Progress<'_>, len: usize, after: usize) -> Result<(), Fail> {
    let case = progress.case;
    let end = progress.done.saturating_add(after);
    expect(end == progress.read, "a report of another end", &case)?;
    let Some((next, others)) = progress.malformed.split_first() else {
        return expect(false, "a report too many", &case);
    };
    let is_next = next.1 == len && next.0.saturating_add(len) == progress.done;
    expect(is_next, "a report of another sequence", &case)?;
    progress.malformed = others;
    take_text(progress, REPLACEMENT_CHARACTER.as_bytes())
}

/// The output is full: the next output does not fit. That is no malformed sequence that is to be
/// reported.
fn compare_full(progress: &Progress<'_>, left: usize) -> Result<(), Fail> {
    let to_come = progress.text;
    let is_malformed = !progress.malformed.is_empty()
        && to_come.starts_with(REPLACEMENT_CHARACTER.as_bytes());
    let may_stop = !is_malformed && left < progress.enough && left < to_come.len();
    expect(may_stop, "full too soon", &progress.case)
}

/// All is read, and nothing is held after the last bytes.
fn compare_empty(
    case: &Case<'_>,
    (unread, last): (&[u8], bool),
    outcome: Outcome,
) -> Result<(), Fail> {
    expect(outcome.read == unread.len(), "not all is read", case)?;
    expect(
        !last || outcome.held == 0,
        "bytes are held at the end",
        case,
    )
}

/// The call had to stop where it did.
fn compare_stop(
    progress: &mut Progress<'_>,
    offer: (&[u8], bool),
    outcome: Outcome,
) -> Result<(), Fail> {
    let case = progress.case;
    match outcome.result {
        DecoderResult::InputEmpty => compare_empty(&case, offer, outcome),
        DecoderResult::OutputFull => compare_full(progress, outcome.left),
        DecoderResult::Malformed(len, after) => {
            take_report(progress, len as usize, after as usize)
        }
    }
}

/// No malformed sequence was passed over.
fn compare_next(progress: &Progress<'_>) -> Result<(), Fail> {
    match progress.malformed.first() {
        Some(next) => expect(progress.done <= next.0, "no report", &progress.case),
        None => Ok(()),
    }
}

/// Makes a call, which writes the next output and leaves the rest.
fn make_call(
    decoder: &mut impl RawDecoder,
    progress: &mut Progress<'_>,
    offer: (&[u8], bool),
    room: usize,
) -> Result<Outcome, Fail> {
    let case = progress.case;
    let mut buffer = [0; MOST_ROOM];
    let room = room.min(MOST_ROOM);
    let answer = call(decoder, offer, &mut buffer[..room], progress.mode);
    let (result, read, written, left) = answer;
    expect(
        written.saturating_add(left) == room,
        "another room left",
        &case,
    )?;
    let (units, _) = split(&buffer, room);
    let text = written_part(units, &0, written, &case)?;
    take_text(progress, text)?;
    Ok(Outcome {
        result,
        read,
        written,
        left,
        held: decoder.held(),
    })
}

/// Makes a call, and compares its result.
fn step(
    decoder: &mut impl RawDecoder,
    progress: &mut Progress<'_>,
    offer: (&[u8], bool),
    room: usize,
) -> Result<Outcome, Fail> {
    let outcome = make_call(decoder, progress, offer, room)?;
    let case = progress.case;
    expect(
        outcome.read <= offer.0.len(),
        "more is read than offered",
        &case,
    )?;
    take_bytes(progress, outcome)?;
    compare_stop(progress, offer, outcome)?;
    compare_next(progress)?;
    Ok(outcome)
}

/// Whether a call has neither read nor written.
fn is_idle(outcome: Outcome) -> bool {
    outcome.result == DecoderResult::OutputFull && outcome.read == 0 && outcome.written == 0
}

/// Passes a chunk, and again its unread rest, until all is read. After a call that neither reads
/// nor writes, the next one has room enough.
fn offer(
    decoder: &mut impl RawDecoder,
    progress: &mut Progress<'_>,
    (chunk, last): (&[u8], bool),
) -> Result<(), Fail> {
    let least = progress.case.room;
    let mut unread = chunk;
    let mut room = least;
    for _ in 0..MOST_CALLS {
        let outcome = step(decoder, progress, (unread, last), room)?;
        if outcome.result == DecoderResult::InputEmpty {
            return Ok(());
        }
        room = if is_idle(outcome) { MOST_ROOM } else { least };
        let (_, rest) = split(unread, outcome.read);
        unread = rest;
    }
    expect(false, "no end", &progress.case)
}

/// Passes an input in chunks. All of its text has to come out, and each malformed sequence.
fn run(
    alloc: Global,
    mut decoder: impl RawDecoder,
    mut progress: Progress<'_>,
    cut: Cut,
) -> Result<(), Fail> {
    let case = progress.case;
    let chunks = chunks_of(alloc, case.input, cut)?;
    let mut to_come = chunks.len();
    for chunk in &chunks {
        to_come = to_come.saturating_sub(1);
        offer(&mut decoder, &mut progress, (chunk, to_come == 0))?;
    }
    expect(progress.done == case.input.len(), "not all is done", &case)?;
    expect(progress.text.is_empty(), "text is missing", &case)?;
    expect(progress.malformed.is_empty(), "reports are missing", &case)
}

/// Runs an input uncut, in single bytes, and, if `wide`, through every cut, by copies of a new
/// decoder.
fn compare_each_cut(
    alloc: Global,
    (decoder, wide): (impl RawDecoder, bool),
    progress: Progress<'_>,
) -> Result<(), Fail> {
    run(alloc, decoder, progress, Cut::Nowhere)?;
    run(alloc, decoder, progress, Cut::Everywhere)?;
    if !wide {
        return Ok(());
    }
    for place in 0..progress.case.input.len().saturating_add(1) {
        run(alloc, decoder, progress, Cut::At(place))?;
    }
    Ok(())
}

/// Runs an input through every cut, by copies of a new decoder: with rooms 0 to 9 and room enough,
/// and in each error mode. The name is that of the encoding.
pub(crate) fn compare_raw_cuts(
    alloc: Global,
    (name, decoder): (&'static str, impl RawDecoder),
    input: &Input<'_>,
) -> Result<(), Fail> {
    for (room, wide) in ROOMS {
        let case = Case {
            name,
            input: input.bytes,
            room,
        };
        expect(decoder.held() == 0, "a new decoder holds bytes", &case)?;
        for (mode, malformed) in [
            (ErrorMode::Fatal, input.malformed),
            (ErrorMode::Replacement, [].as_slice()),
        ] {
            let progress = Progress {
                case,
                enough: input.room,
                mode,
                read: 0,
                done: 0,
                text: input.text,
                malformed,
            };
            compare_each_cut(alloc, (decoder, wide), progress)?;
        }
    }
    Ok(())
}
