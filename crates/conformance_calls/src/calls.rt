//! `conformance calls`: makes the single calls that lines list, for scripts/compare-crate.
//!
//! A line is a call of a new decoder or encoder, or a one-shot call that lends. It has nine words:
//!
//! - `decode` or `encode`, or `lend` or `lend-text` for one-shot calls of both, and a label;
//! - `sniff`, `remove` or `off`: the byte order marks that a decoder looks for;
//! - the input of a call before, without `last`, and the input of the call, both in hexadecimal or
//!   `-`: bytes to decode, UTF-8 or code units in UTF-16BE to encode;
//! - the number of units that the call may write;
//! - `last` or `more`, `utf8` or `utf16`, and `replace` or `report`.
//!
//! The answer to a line has nine words: the result, the numbers of units read and written,
//! whether something was replaced, the units written, the encoding after the call, the length that
//! the call's query returned before, how many bytes of its input were Latin-1 then or whether the
//! encoder had a pending state, and the units that the rest of the input gives, in a call with
//! `last` and with replacement. `-` stands for none. A line that is no call has the answer `?`.
//!
//! A one-shot call gets the input of the call alone. It writes UTF-8, with `replace` or, if no byte
//! order mark is looked for, with `report`. Its result is `Borrowed`, `Owned` or `None`, and
//! its query is 0.

ghost use Rattle.std.specs.Prelude.{◌≡◌, ◌≤◌, false, length};
ghost use Rattle.encoding_rs.specs.Decoding.{has_finished};

mod answer;
mod lending;
mod line;

use answer::{Answer, write_bytes_or_none, write_units_or_none};
use encoding_rs::{BomHandling, CoderResult, Decoder, Encoder};
use lending::{answer_lending, answer_lending_bytes};
use line::{Call, Callee, Line, line_of};
use std::alloc::Global;
use std::io::{self, Write};

/// The greatest number of units that a call reads or writes.
const LENGTH: usize = 4096;

/// The outputs of calls.
#[derive(Drop)]
struct Buffers {
    bytes: [u8; LENGTH],
    units: [u16; LENGTH],
}

/// Gives a decoder the input of a call whose answer does not count, and which is not the last.
fn feed(decoder: &mut Decoder, call: Call, buffers: &mut Buffers)
    requires unfinished { has_finished decoder.old ≡ false }
    ensures { has_finished decoder.new ≡ false }
{
    let (result, _, _, _) = decoder.decode_to_utf8(call.src, &mut buffers.bytes, false);
    match result {
        CoderResult::InputEmpty => (),
        CoderResult::OutputFull => (),
    }
}

/// Makes a call of a decoder.
fn decode(decoder: &mut Decoder, call: Call, buffers: &mut Buffers) -> Answer
    requires unfinished { has_finished decoder.old ≡ false }
    ensures written { result.written ≤ 4096 }
{
    let Call { src, last, .. } = call;
    let room = call.room.min(LENGTH);
    match (call.utf16, call.replaces) {
        (false, true) => {
            let dst = &mut buffers.bytes[..room];
            Answer::of_replacing(decoder.decode_to_utf8(src, dst, last))
        }
        (true, true) => {
            let dst = &mut buffers.units[..room];
            Answer::of_replacing(decoder.decode_to_utf16(src, dst, last))
        }
        (false, false) => {
            let dst = &mut buffers.bytes[..room];
            Answer::of_decoding(decoder.decode_to_utf8_without_replacement(src, dst, last))
        }
        (true, false) => {
            let dst = &mut buffers.units[..room];
            Answer::of_decoding(decoder.decode_to_utf16_without_replacement(src, dst, last))
        }
    }
}

/// Returns the length that the query of a call returns, or 0 for none.
fn decoded_length(decoder: &Decoder, call: Call) -> usize
    requires unfinished { has_finished decoder.now ≡ false }
{
    let len = call.src.len();
    let length = match (call.utf16, call.replaces) {
        (true, _) => decoder.max_utf16_buffer_length(len),
        (false, true) => decoder.max_utf8_buffer_length(len),
        (false, false) => decoder.max_utf8_buffer_length_without_replacement(len),
    };
    length.unwrap_or(0)
}

/// Writes the units that a decoder has written.
fn write_text<W: Write>(out: &mut W, buffers: &Buffers, call: Call, len: usize) -> io::Result<()>
    requires bound { len ≤ 4096 }
{
    if call.utf16 {
        write_units_or_none(out, &buffers.units[..len])
    } else {
        write_bytes_or_none(out, &buffers.bytes[..len])
    }
}

/// Makes the calls of a decoder, and writes their answers.
fn answer_decoding<W: Write>(line: &Line, buffers: &mut Buffers, out: &mut W) -> io::Result<()> {
    let mut decoder = match line.marks {
        BomHandling::Off => line.encoding.new_decoder_without_bom_handling(),
        BomHandling::Sniff => line.encoding.new_decoder(),
        BomHandling::Remove => line.encoding.new_decoder_with_bom_removal(),
    };
    let call = line.call();
    feed(&mut decoder, line.before(), buffers);
    let query = decoded_length(&decoder, call);
    let latin1 = decoder.latin1_byte_compatible_up_to(call.src);
    let answer = decode(&mut decoder, call, buffers);
    answer.write(out)?;
    write_text(out, buffers, call, answer.written)?;
    write!(out, " {} {query} ", decoder.encoding().name())?;
    match latin1 {
        None => write!(out, "- ")?,
        Some(len) => write!(out, "{len} ")?,
    }
    if decoder.is_finished() {
        return writeln!(out, "-");
    }
    let rest = decode(&mut decoder, call.rest(answer.read), buffers);
    write_text(out, buffers, call, rest.written)?;
    writeln!(out)
}

/// Puts the code units of UTF-16BE into a slice, and returns their number.
fn units_of(bytes: &[u8], units: &mut [u16]) -> usize
    ensures { result ≤ length units.new }
{
    let count = (bytes.len() / 2).min(units.len());
    for i in 0..count {
        units[i] = u16::from_be_bytes([bytes[2 * i], bytes[2 * i + 1]]);
    }
    count
}

/// Makes a call of an encoder. Bytes that are no UTF-8 stand for no text.
fn encode(encoder: &mut Encoder, call: Call, buffers: &mut Buffers) -> Answer
    ensures written { result.written ≤ 4096 }
{
    let text = str::from_utf8(call.src).unwrap_or("");
    let mut buffer = [0; LENGTH];
    let count = units_of(call.src, &mut buffer);
    let (units, last) = (&buffer[..count], call.last);
    let room = call.room.min(LENGTH);
    let dst = &mut buffers.bytes[..room];
    match (call.utf16, call.replaces) {
        (false, true) => Answer::of_replacing(encoder.encode_from_utf8(text, dst, last)),
        (true, true) => Answer::of_replacing(encoder.encode_from_utf16(units, dst, last)),
        (false, false) => {
            Answer::of_encoding(encoder.encode_from_utf8_without_replacement(text, dst, last))
        }
        (true, false) => {
            Answer::of_encoding(encoder.encode_from_utf16_without_replacement(units, dst, last))
        }
    }
}

/// Returns the length that the query of a call returns, or 0 for none.
fn encoded_length(encoder: &Encoder, call: Call) -> usize {
    let len = call.src.len();
    let length = match (call.utf16, call.replaces) {
        (false, true) => encoder.max_buffer_length_from_utf8_if_no_unmappables(len),
        (true, true) => encoder.max_buffer_length_from_utf16_if_no_unmappables(len / 2),
        (false, false) => encoder.max_buffer_length_from_utf8_without_replacement(len),
        (true, false) => encoder.max_buffer_length_from_utf16_without_replacement(len / 2),
    };
    length.unwrap_or(0)
}

/// Makes the calls of an encoder, and writes their answers.
fn answer_encoding<W: Write>(line: &Line, buffers: &mut Buffers, out: &mut W) -> io::Result<()> {
    let mut encoder = line.encoding.new_encoder();
    let call = line.call();
    encode(&mut encoder, line.before(), buffers);
    let query = encoded_length(&encoder, call);
    let pending = encoder.has_pending_state();
    let answer = encode(&mut encoder, call, buffers);
    answer.write(out)?;
    write_bytes_or_none(out, &buffers.bytes[..answer.written])?;
    write!(out, " {} {query} {pending} ", encoder.encoding().name())?;
    if call.last && answer.is_end() {
        return writeln!(out, "-");
    }
    let width: usize = if call.utf16 { 2 } else { 1 };
    let rest = encode(
        &mut encoder,
        call.rest(answer.read.saturating_mul(width)),
        buffers,
    );
    write_bytes_or_none(out, &buffers.bytes[..rest.written])?;
    writeln!(out)
}

/// Writes the answer to a line.
pub fn answer_line<W: Write>(alloc: Global, line: &str, out: &mut W) -> io::Result<()> {
    let Some(line) = line_of(alloc, line)? else {
        return writeln!(out, "?");
    };
    let mut buffers = Buffers {
        bytes: [0; LENGTH],
        units: [0; LENGTH],
    };
    match line.callee {
        Callee::Decoder => answer_decoding(&line, &mut buffers, out),
        Callee::Encoder => answer_encoding(&line, &mut buffers, out),
        Callee::LendingDecoder => answer_lending(alloc, &line, out),
        Callee::LendingEncoder => answer_lending_bytes(alloc, &line, out),
    }
}
