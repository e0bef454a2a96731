//! Runs of calls of one decoder, until all of an input is read or a call neither reads nor writes.

use crate::cases::{Case, expect};
use crate::decoding::calls::new_decoder;
use crate::decoding::lengths::queried_room;
use crate::decoding::outputs::{Answer, Given, Output, call_into};
use crate::decoding::rows::{Cut, MOST_ROOM, REPLACEMENT_CHARACTER, chunks_of, split};
use encoding_rs::run::BomHandling;
use encoding_rs::{Decoder, DecoderResult, Encoding};
use std::alloc::Global;
use std::test::Fail;

/// No input of a row takes more calls for a chunk.
const MOST_CALLS: usize = 64;

/// The way in which a decoder is used.
#[derive(Clone, Copy)]
pub struct Use {
    /// The encoding.
    pub encoding: Encoding,
    /// The byte order marks that the decoder looks for.
    pub handling: BomHandling,
    /// The output.
    pub output: Output,
    /// The calls are without replacement, and the caller puts U+FFFD where a malformed sequence is
    /// reported.
    pub reporting: bool,
    /// A call that neither reads nor writes is made again, and then once more with room enough.
    pub widens: bool,
    /// Each call has the room of the length query for its bytes, and is never full.
    pub queries: bool,
}

impl Use {
    /// Decodes into UTF-8 with replacement, by a decoder that looks for these byte order marks.
    pub fn new(encoding: Encoding, handling: BomHandling) -> Use {
        Use {
            encoding,
            handling,
            output: Output::Utf8,
            reporting: false,
            widens: false,
            queries: false,
        }
    }
}

/// The result of one decoder's calls.
#[derive(Drop)]
pub struct Run {
    way: Use,
    room: usize,
    /// The text.
    pub text: Vec<u8>,
    /// The number of bytes read in all.
    read: usize,
    /// Whether a malformed sequence was replaced or reported.
    pub had_errors: bool,
    /// The offset and the length of each malformed sequence that was reported.
    pub malformed: Vec<(usize, usize)>,
    /// The number of calls in a row that have neither read nor written.
    idle: usize,
    /// It cannot go on, or a repeated call did something else.
    pub is_stuck: bool,
    /// Whether the decoder is finished.
    pub is_finished: bool,
    /// The encoding of the decoder.
    pub encoding: Encoding,
}

/// A run that has made no call.
fn start(alloc: Global, way: Use, room: usize) -> Run {
    Run {
        way,
        room,
        text: Vec::new(alloc),
        read: 0,
        had_errors: false,
        malformed: Vec::new(alloc),
        idle: 0,
        is_stuck: false,
        is_finished: false,
        encoding: way.encoding,
    }
}

/// Returns the room of the next call, which gets `bytes` bytes.
fn next_room(decoder: &Decoder, run: &Run, bytes: usize) -> Result<usize, Fail> {
    if run.way.queries {
        return queried_room(decoder, run.way, bytes);
    }
    Ok(if run.idle > 1 { MOST_ROOM } else { run.room })
}

/// Takes note of whether a call was idle.
fn note_idle(run: &mut Run, is_idle: bool) {
    let is_repeated = run.idle == 1;
    run.idle = if is_idle {
        run.idle.saturating_add(1)
    } else {
        0
    };
    run.is_stuck = if run.way.widens {
        is_repeated && !is_idle
    } else {
        is_idle
    };
}

/// Records a malformed sequence that was reported: its length, and the number of bytes read after
/// it.
fn note_report(run: &mut Run, len: usize, after: usize, case: &Case<'_>) -> Result<(), Fail> {
    let start = run.read.saturating_sub(after).saturating_sub(len);
    let is_within = len.saturating_add(after) <= run.read;
    expect(is_within, "a report of more than is read", case)?;
    run.malformed.push((start, len))?;
    run.had_errors = true;
    run.text
        .extend_from_slice(REPLACEMENT_CHARACTER.as_bytes())?;
    Ok(())
}

/// Takes note of an answer.
fn note_answer(run: &mut Run, answer: Answer, case: &Case<'_>) -> Result<(), Fail> {
    let (result, read, written, replaced) = answer;
    let is_full = result == DecoderResult::OutputFull;
    expect(!is_full || !run.way.queries, "full in a queried room", case)?;
    run.read = run.read.saturating_add(read);
    run.had_errors |= replaced;
    note_idle(run, is_full && read == 0 && written == 0);
    match result {
        DecoderResult::Malformed(len, after) => {
            note_report(run, len as usize, after as usize, case)
        }
        DecoderResult::InputEmpty | DecoderResult::OutputFull => Ok(()),
    }
}

/// Makes a call. Returns the number of bytes that it has read, or `None` if all is read.
fn step(
    alloc: Global,
    decoder: &mut Decoder,
    run: &mut Run,
    unread: &[u8],
    last: bool,
) -> Result<Option<usize>, Fail> {
    let room = next_room(decoder, run, unread.len())?;
    let given = Given {
        src: unread,
        last,
        room,
        reporting: run.way.reporting,
    };
    let case = Case {
        name: run.way.encoding.name(),
        input: unread,
        room,
    };
    let answer = call_into(alloc, decoder, run.way.output, given, &mut run.text)?;
    expect(answer.1 <= unread.len(), "more is read than offered", &case)?;
    note_answer(run, answer, &case)?;
    if answer.0 == DecoderResult::InputEmpty {
        return Ok(None);
    }
    Ok(Some(answer.1))
}

/// Passes a chunk, and again its unread rest, until all is read or a call neither reads nor writes.
fn offer(
    alloc: Global,
    decoder: &mut Decoder,
    run: &mut Run,
    chunk: &[u8],
    last: bool,
) -> Result<(), Fail> {
    let mut unread = chunk;
    for _ in 0..MOST_CALLS {
        if run.is_stuck || decoder.is_finished() {
            return Ok(());
        }
        let Some(read) = step(alloc, decoder, run, unread, last)? else {
            return Ok(());
        };
        let (_, rest) = split(unread, read);
        unread = rest;
    }
    run.is_stuck = true;
    Ok(())
}

/// Passes the chunks, with this room for each call. The last chunk is passed as the last.
pub fn run_chunks(alloc: Global, way: Use, chunks: &[&[u8]], room: usize) -> Result<Run, Fail> {
    let mut decoder = new_decoder(way.encoding, way.handling);
    let mut run = start(alloc, way, room);
    let mut to_come = chunks.len();
    for chunk in chunks {
        to_come = to_come.saturating_sub(1);
        offer(alloc, &mut decoder, &mut run, chunk, to_come == 0)?;
    }
    run.is_finished = decoder.is_finished();
    run.encoding = decoder.encoding();
    Ok(run)
}

/// Passes an input split in this way.
pub fn run_cut(alloc: Global, way: Use, bytes: &[u8], cut: Cut, room: usize) -> Result<Run, Fail> {
    let chunks = chunks_of(alloc, bytes, cut)?;
    run_chunks(alloc, way, &chunks, room)
}

/// Passes the whole input at once, with room enough.
pub fn run_whole(alloc: Global, way: Use, bytes: &[u8]) -> Result<Run, Fail> {
    run_chunks(alloc, way, &[bytes], MOST_ROOM)
}
