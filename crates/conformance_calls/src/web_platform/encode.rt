//! Lines that encode.

ghost use Rattle.std.specs.Prelude.{◌≤◌};

use crate::hexadecimal::{bytes_of, units_of, write_bytes};
use crate::web_platform::LENGTH;
use encoding_rs::{Encoder, EncoderResult, Encoding};
use std::alloc::{AllocError, Global};
use std::io::{self, Write};

/// Makes the calls of an encoder for a text, and writes the bytes of each and `;`, with `&` and the
/// code point between them if it reports an unmappable character.
fn encode_text<W: Write>(encoder: &mut Encoder, units: &[u16], out: &mut W) -> io::Result<()> {
    let mut bytes = [0; LENGTH];
    let mut unread = units;
    'pieces: for _ in 0..u64::MAX {
        let (result, read, written) = encoder.encode_from_utf16_without_replacement(
            unread, &mut bytes, true,
        );
        write_bytes(out, &bytes[..written])?;
        match result {
            EncoderResult::InputEmpty => return write!(out, ";"),
            EncoderResult::OutputFull => write!(out, ";")?,
            EncoderResult::Unmappable(it) => write!(out, "&{};", it as u32)?,
        }
        let (_, rest) = unread.split_at(read);
        unread = rest;
    }
    Ok(())
}

/// Makes one call of an encoder for a text and an output buffer of `room` bytes, and writes the
/// number of units read, `;` and the bytes.
fn fill_room<W: Write>(
    encoder: &mut Encoder,
    units: &[u16],
    room: usize,
    out: &mut W,
) -> io::Result<()>
    requires bound { room ≤ 4096 }
{
    let mut bytes = [0; LENGTH];
    let dst = &mut bytes[..room];
    let (_, read, written) = encoder.encode_from_utf16_without_replacement(units, dst, true);
    write!(out, "{read};")?;
    write_bytes(out, &bytes[..written])
}

/// Returns a new encoder for a label in hexadecimal. `None` if it is unknown.
fn encoder_of(alloc: Global, label: &str) -> Result<Option<Encoder>, AllocError> {
    match Encoding::for_label(&bytes_of(alloc, label)?) {
        None => Ok(None),
        Some(encoding) => Ok(Some(encoding.new_encoder())),
    }
}

/// Answers a line that encodes a text whole.
pub(crate) fn answer<W: Write>(alloc: Global, line: &str, out: &mut W) -> io::Result<()> {
    let mut words = line.split_ascii_whitespace();
    let (Some(_), Some(label), Some(text)) = (words.next(), words.next(), words.next()) else {
        return write!(out, "?");
    };
    let Some(mut encoder) = encoder_of(alloc, label)? else {
        return write!(out, "?");
    };
    encode_text(&mut encoder, &units_of(alloc, text)?, out)
}

/// Answers a line that fills an output buffer.
pub(crate) fn answer_filling<W: Write>(alloc: Global, line: &str, out: &mut W) -> io::Result<()> {
    let mut words = line.split_ascii_whitespace();
    let (Some(_), Some(label), Some(room), Some(text)) = (
        words.next(),
        words.next(),
        words.next(),
        words.next(),
    ) else {
        return write!(out, "?");
    };
    let (Some(mut encoder), Some(room)) = (encoder_of(alloc, label)?, room.parse::<usize>().ok())
    else {
        return write!(out, "?");
    };
    if room > LENGTH {
        return write!(out, "?");
    }
    fill_room(&mut encoder, &units_of(alloc, text)?, room, out)
}
