//! Lines that decode.

ghost use Rattle.std.specs.Prelude.{◌≤◌, length, IfOk};

use crate::hexadecimal::{bytes_of, write_units};
use crate::web_platform::LENGTH;
use encoding_rs::{CoderResult, Decoder, DecoderResult, Encoding};
use std::alloc::Global;
use std::io::{self, Write};

/// Why a call has ended.
#[derive(Clone, Copy)]
enum Stop {
    InputEmpty,
    OutputFull,
    Malformed,
}

/// The outcome of a call: why it has ended, and the number of bytes read.
#[derive(Clone, Copy)]
struct Outcome {
    stop: Stop,
    read: usize,
}

/// What the calls for a chunk have in common.
#[derive(Clone, Copy)]
struct Mode {
    last: bool,
    replaces: bool,
}

/// Makes a call, and writes its units. A decoder that has finished is not called.
fn decode_piece<W: Write>(
    decoder: &mut Decoder,
    unread: &[u8],
    mode: Mode,
    out: &mut W,
) -> io::Result<Outcome>
    ensures { IfOk result (λ it. it.read ≤ length unread.now) }
{
    let mut units = [0; LENGTH];
    if decoder.is_finished() {
        return Ok(Outcome {
            stop: Stop::InputEmpty,
            read: 0,
        });
    }
    if mode.replaces {
        let (result, read, written, _) = decoder.decode_to_utf16(unread, &mut units, mode.last);
        write_units(out, &units[..written])?;
        let stop = match result {
            CoderResult::InputEmpty => Stop::InputEmpty,
            CoderResult::OutputFull => Stop::OutputFull,
        };
        return Ok(Outcome { stop, read });
    }
    let (result, read, written) = decoder.decode_to_utf16_without_replacement(
        unread, &mut units, mode.last,
    );
    write_units(out, &units[..written])?;
    let stop = match result {
        DecoderResult::InputEmpty => Stop::InputEmpty,
        DecoderResult::OutputFull => Stop::OutputFull,
        DecoderResult::Malformed(_, _) => Stop::Malformed,
    };
    Ok(Outcome { stop, read })
}

/// Makes the calls for a chunk, and writes their units. Returns whether a malformed sequence was
/// reported, which ends them.
fn decode_chunk<W: Write>(
    decoder: &mut Decoder,
    chunk: &[u8],
    mode: Mode,
    out: &mut W,
) -> io::Result<bool> {
    let mut unread = chunk;
    'pieces: for _ in 0..u64::MAX {
        let Outcome { stop, read } = decode_piece(decoder, unread, mode, out)?;
        match stop {
            Stop::InputEmpty => return Ok(false),
            Stop::Malformed => return Ok(true),
            Stop::OutputFull => {
                let (_, rest) = unread.split_at(read);
                unread = rest;
            }
        }
    }
    Ok(false)
}

/// Returns a new decoder that looks for the byte order marks that a word names.
fn decoder_of(encoding: Encoding, marks: &str) -> Decoder {
    match marks {
        "sniff" => encoding.new_decoder(),
        "remove" => encoding.new_decoder_with_bom_removal(),
        _ => encoding.new_decoder_without_bom_handling(),
    }
}

/// Answers a line that decodes.
pub(crate) fn answer<W: Write>(alloc: Global, line: &str, out: &mut W) -> io::Result<()> {
    let mut words = line.split_ascii_whitespace();
    let (Some(_), Some(label), Some(marks), Some(mode)) = (
        words.next(),
        words.next(),
        words.next(),
        words.next(),
    ) else {
        return write!(out, "?");
    };
    let Some(encoding) = Encoding::for_label(&bytes_of(alloc, label)?) else {
        return write!(out, "?");
    };
    let mut decoder = decoder_of(encoding, marks);
    'chunks: for word in words {
        let mode = Mode {
            last: !word.ends_with('+'),
            replaces: mode == "replace",
        };
        let reported = decode_chunk(&mut decoder, &bytes_of(alloc, word)?, mode, out)?;
        write!(out, "{}", if reported { "!;" } else { ";" })?;
        if reported {
            break 'chunks;
        }
    }
    write!(out, "{}", decoder.encoding().name())
}
