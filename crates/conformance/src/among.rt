//! Rows of bytes that stand at each place among letters. A decoder takes runs of letters at once,
//! and has to stop where single bytes do.

use crate::fault::RowFault;
use crate::words::{Unreadable, Words, pair_of};
use encoding_rs::run::BomHandling;
use encoding_rs::{Decoder, DecoderResult, Encoding};
use std::alloc::{AllocError, Global};
use std::test::Fail;
use test_support::decoding::{Cut, Given, MOST_ROOM, Output, Use, call_into, new_decoder, run_cut};

/// The length of each input, in bytes.
const LENGTH: usize = 40;

/// The outputs of short calls, each with the room of a call: with less than 16 code units, of which
/// loops take as many at once, and with more.
const SHORT_CALLS: [(Output, usize); 5] = [
    (Output::Utf8, 5),
    (Output::Utf16, 7),
    (Output::Utf16, 18),
    (Output::Str, 18),
    (Output::String, 18),
];

/// U+FFFD, which stands for a malformed sequence.
const REPLACEMENT_CHARACTER: &[u8] = b"\xEF\xBF\xBD";

/// Bytes that stand among letters.
#[derive(Drop)]
pub struct Among {
    /// The bytes of a letter a.
    letter: Vec<u8>,
    bytes: Vec<u8>,
    text: String,
    /// The length of the malformed sequence at the start, or 0.
    malformed: usize,
}

/// Reads `LETTER BYTES TEXT [0+LEN]`.
pub(crate) fn read_among(alloc: Global, words: &mut Words<'_>) -> Result<Among, Unreadable> {
    let (letter, bytes) = (words.bytes(alloc)?, words.bytes(alloc)?);
    let text = words.text(alloc)?;
    let (start, malformed) = if words.has_more() {
        pair_of(words.word()?, '+')?
    } else {
        (0, 0)
    };
    words.end()?;
    let len = bytes.len().saturating_add(letter.len());
    if start != 0 || letter.is_empty() || len > LENGTH || text.len() > 8 {
        return Err(Unreadable::Number);
    }
    Ok(Among {
        letter,
        bytes,
        text,
        malformed,
    })
}

/// The bytes of a row at one place, and how they are decoded.
#[derive(Drop)]
struct Place {
    encoding: Encoding,
    /// Whether malformed sequences are reported, and not replaced.
    reporting: bool,
    /// The number of letters before the bytes.
    before: usize,
    /// Whether they are malformed.
    is_malformed: bool,
    /// The bytes with all letters.
    bytes: Vec<u8>,
    /// The text.
    whole_text: Vec<u8>,
    /// What calls write: without U+FFFD where it is the caller's.
    text: Vec<u8>,
}

/// Returns bytes among letters: so many before them, and so many after them.
fn between(
    alloc: Global,
    letter: &[u8],
    (before, after): (usize, usize),
    middle: &[u8],
) -> Result<Vec<u8>, AllocError> {
    let mut made = Vec::new(alloc);
    for _ in 0..before {
        made.extend_from_slice(letter)?;
    }
    made.extend_from_slice(middle)?;
    for _ in 0..after {
        made.extend_from_slice(letter)?;
    }
    Ok(made)
}

/// The input with that number of letters before the bytes and after them.
fn place_of(
    alloc: Global,
    (encoding, reporting): (Encoding, bool),
    row: &Among,
    counts: (usize, usize),
) -> Result<Place, AllocError> {
    let is_malformed = row.malformed > 0;
    let middle = if is_malformed && reporting {
        b""
    } else {
        row.text.as_bytes()
    };
    Ok(Place {
        encoding,
        reporting,
        before: counts.0,
        is_malformed,
        bytes: between(alloc, &row.letter, counts, &row.bytes)?,
        whole_text: between(alloc, b"a", counts, row.text.as_bytes())?,
        text: between(alloc, b"a", counts, middle)?,
    })
}

/// What calls into one output have done.
#[derive(Clone, Copy, PartialEq, Eq)]
struct Filled {
    read: usize,
    written: usize,
    is_full: bool,
    /// Whether a malformed sequence was replaced or reported.
    had_errors: bool,
}

/// Calls a decoder with a chunk until all of it is read or the output is full: once, and once more
/// after a malformed sequence that is reported. `room` code units are for all of `text`.
fn fill(
    alloc: Global,
    decoder: &mut Decoder,
    (reporting, room): (bool, usize),
    (chunk, last): (&[u8], bool),
    text: &mut Vec<u8>,
) -> Result<Filled, Fail> {
    let (mut read, mut had_errors) = (0_usize, false);
    for _ in 0..2 {
        let given = Given {
            src: chunk.split_at(read.min(chunk.len())).1,
            last,
            room: room.saturating_sub(text.len()),
            reporting,
        };
        let (result, more, _, replaced) = call_into(alloc, decoder, Output::Utf8, given, text)?;
        read = read.saturating_add(more);
        let is_report = matches!(&result, DecoderResult::Malformed(_, _));
        had_errors |= replaced || is_report;
        if !is_report {
            return Ok(Filled {
                read,
                written: text.len(),
                is_full: result == DecoderResult::OutputFull,
                had_errors,
            });
        }
    }
    Err(Fail::new("a malformed sequence too many is reported"))
}

/// The numbers of code units that are written after each byte, if each call has one. In the end all
/// of the text is written.
fn steps_of(alloc: Global, place: &Place) -> Result<Vec<usize>, Fail> {
    let mut decoder = new_decoder(place.encoding, BomHandling::Off);
    let (mut steps, mut text) = (Vec::new(alloc), Vec::new(alloc));
    let way = (place.reporting, MOST_ROOM);
    for byte in place.bytes.chunks(1) {
        let filled = fill(alloc, &mut decoder, way, (byte, false), &mut text)?;
        if filled.read != 1 || filled.is_full {
            return Err(Fail::new("a single byte is not read"));
        }
        steps.push(filled.written)?;
    }
    fill(alloc, &mut decoder, way, (&[], true), &mut text)?;
    if text != place.text {
        return Err(Fail::new("another text of single bytes"));
    }
    Ok(steps)
}

/// The same after that number of letters of this length, before which nothing is pending.
fn steps_after(
    alloc: Global,
    (letters, len): (usize, usize),
    steps: &[usize],
) -> Result<Vec<usize>, AllocError> {
    let mut all = Vec::new(alloc);
    for letter in 0..letters {
        for _ in 1..len {
            all.push(letter)?;
        }
        all.push(letter.saturating_add(1))?;
    }
    for step in steps {
        all.push(step.saturating_add(letters))?;
    }
    Ok(all)
}

/// What calls with the whole input have to do in this room. They write what fits of the text. If
/// that is not all, they read the bytes before the one that shows what does not fit.
fn wanted(place: &Place, steps: &[usize], room: usize) -> Filled {
    let len = place.text.len();
    let (mut read, mut written) = (0_usize, 0);
    for step in steps.iter().take(place.bytes.len()) {
        if *step <= room {
            read = read.saturating_add(1);
            written = *step;
        }
    }
    let (_, rest) = place.text.split_at(written.min(len));
    let with_fault = written.saturating_add(REPLACEMENT_CHARACTER.len());
    if with_fault <= room && rest.starts_with(REPLACEMENT_CHARACTER) {
        written = with_fault;
    }
    let least = if place.reporting {
        place.before
    } else {
        place.before.saturating_add(REPLACEMENT_CHARACTER.len())
    };
    Filled {
        read,
        written: if len <= room { len } else { written },
        is_full: room < len,
        had_errors: place.is_malformed && least <= room,
    }
}

/// Whether calls are tried in this room: near the bytes, near the end, and near a multiple of 16.
fn is_tried(place: &Place, room: usize) -> bool {
    let after = room.saturating_add(1);
    let is_near_bytes = place.before <= after && room <= place.before.saturating_add(4);
    is_near_bytes || after % 16 < 3 || place.text.len() <= after.saturating_add(1)
}

/// Compares calls with the whole input into one output, in this room, with single bytes.
fn compare_room(alloc: Global, place: &Place, steps: &[usize], room: usize) -> Result<(), Fail> {
    let mut decoder = new_decoder(place.encoding, BomHandling::Off);
    let mut text = Vec::new(alloc);
    let (way, all) = ((place.reporting, room), (place.bytes.as_slice(), true));
    let filled = fill(alloc, &mut decoder, way, all, &mut text)?;
    if filled != wanted(place, steps, room) {
        return Err(Fail::new(format_args!("a run stops elsewhere in room {room}")));
    }
    if !place.text.starts_with(&text) {
        return Err(Fail::new(format_args!("no prefix of the text in room {room}")));
    }
    Ok(())
}

/// Compares short calls, which have this room each, with the text and the malformed sequence of a
/// row.
fn compare_short_calls(
    alloc: Global,
    (place, row): (&Place, &Among),
    (output, room): (Output, usize),
) -> Result<(), Fail> {
    let way = Use {
        output,
        reporting: place.reporting,
        ..Use::new(place.encoding, BomHandling::Off)
    };
    let run = run_cut(alloc, way, &place.bytes, Cut::Nowhere, room)?;
    let start = place.before.saturating_mul(row.letter.len());
    let malformed = [(start, row.malformed)];
    let is_reported = place.is_malformed && place.reporting;
    let want: &[(usize, usize)] = if is_reported { &malformed } else { &[] };
    let is_whole = run.is_finished && run.text == place.whole_text;
    if is_whole && run.had_errors == place.is_malformed && run.malformed.as_slice() == want {
        return Ok(());
    }
    Err(Fail::new(format_args!("short calls of room {room} end elsewhere")))
}

/// Compares the bytes of a row at one place.
fn compare_place(
    alloc: Global,
    (place, row): (&Place, &Among),
    steps: &[usize],
) -> Result<(), Fail> {
    for room in 0..place.text.len().saturating_add(2) {
        if is_tried(place, room) {
            compare_room(alloc, place, steps, room)?;
        }
    }
    for calls in SHORT_CALLS {
        compare_short_calls(alloc, (place, row), calls)?;
    }
    Ok(())
}

/// Compares the bytes of a row at each place among the letters, with replacement and without.
pub(crate) fn compare_among(
    alloc: Global,
    encoding: Encoding,
    row: &Among,
) -> Result<(), RowFault> {
    let rest = LENGTH.saturating_sub(row.bytes.len());
    let letters = rest.checked_div(row.letter.len()).unwrap_or(0);
    for reporting in [false, true] {
        let way = (encoding, reporting);
        let first = steps_of(alloc, &place_of(alloc, way, row, (0, letters))?)?;
        for before in 0..letters.saturating_add(1) {
            let counts = (before, letters.saturating_sub(before));
            let place = place_of(alloc, way, row, counts)?;
            let steps = steps_after(alloc, (before, row.letter.len()), &first)?;
            compare_place(alloc, (&place, row), &steps)?;
        }
    }
    Ok(())
}
