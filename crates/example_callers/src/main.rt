//! Proves what a caller relies on, by the public clauses of the library alone.
//!
//! `example_callers LABEL` writes the text of standard input, the beginning of it that fits in 48
//! bytes, the number of malformed sequences, and the length and offset of the first. The text is
//! decoded into a buffer of the queried length, which is never full. The beginning is decoded in
//! two chunks into one array. Then it writes the offset and length of each malformed sequence, as a
//! reader reports them; the lines with malformed bytes as `\xNN`, and the places of these; and the
//! number of bytes of the text in the encoding, after the text was copied line by line.
#![tactic(auto)]

mod streams;

ghost use Rattle.std.specs.Prelude.{◌≡◌, ◌+◌, ◌≤◌, length, take, IfOk, IfSome};
ghost use Rattle.enc_stream.specs.declared.bom.BomHandling.TheVariants.{Sniff};
ghost use Rattle.encoding_rs.specs.Decoding.{whole_utf_8, whole_sequences};
ghost use Rattle.example_callers.specs.Count.{malformed_count};

use crate::streams::{copy_lines, malformed_of, read_lines, written_bytes};
use enc_reader::MalformedPolicy;
use encoding_rs::{CoderResult, DecoderResult, Encoding, laws};
use std::alloc::{AllocError, Global};
use std::io::{Error, Read, Write};
use std::{env, io};

/// The length in bytes of the array for the beginning of the text.
const BEGINNING: usize = 48;

/// The length in bytes of the room for a piece of text, which is at least 4.
const PIECE: usize = 64;

/// Decodes a whole input in one call. `None` if the length to allocate overflows `usize`, and `Err`
/// if memory is refused.
///
/// The arm of `OutputFull` is proved to be unreachable, by the clause `enough` of the query.
fn decode_sized(
    alloc: Global,
    encoding: Encoding,
    bytes: &[u8],
) -> Result<Option<Vec<u8>>, AllocError>
    ensures { IfOk result (λ answer. IfSome answer (λ text.
        text.items ≡ whole_utf_8 Sniff encoding bytes.now)) }
{
    laws::slices_are_bytes(bytes);
    let mut decoder = encoding.new_decoder();
    let Some(most) = decoder.max_utf8_buffer_length(bytes.len()) else {
        return Ok(None);
    };
    let mut text = vec![in alloc; 0; most]?;
    let (stop, _, written, _) = decoder.decode_to_utf8(bytes, &mut text, true);
    match stop {
        CoderResult::OutputFull => unreachable!(),
        CoderResult::InputEmpty => {
            text.truncate(written);
            Ok(Some(text))
        }
    }
}

/// Decodes two chunks into one array, the second after the text of the first.
///
/// Returns why the last call stopped, and the number of bytes written. They are the beginning of
/// the text of both chunks together, and all of it after `InputEmpty`.
fn decode_in_two(
    encoding: Encoding,
    bytes: &[u8],
    at: usize,
    dst: &mut [u8],
) -> (CoderResult, usize)
    requires within { at ≤ length bytes.now }
    ensures within { result.1 ≤ length dst.new }
    ensures beginning { take result.1 dst.new
        ≡ take result.1 (whole_utf_8 Sniff encoding bytes.now) }
    ensures all { result.0 ≡ CoderResult.InputEmpty
        → take result.1 dst.new ≡ whole_utf_8 Sniff encoding bytes.now }
{
    let mut decoder = encoding.new_decoder();
    let (first, second) = bytes.split_at(at);
    let (stop, _, written, _) = decoder.decode_to_utf8(first, dst, false);
    match stop {
        CoderResult::OutputFull => (stop, written),
        CoderResult::InputEmpty => {
            let (end, _, more, _) = decoder.decode_to_utf8(second, &mut dst[written..], true);
            (end, written + more)
        }
    }
}

/// Counts the malformed sequences of a whole input.
fn count_malformed(encoding: Encoding, bytes: &[u8]) -> usize
    ensures { result ≡ malformed_count (whole_sequences Sniff encoding bytes.now) }
{
    let mut decoder = encoding.new_decoder();
    let mut piece = [0; PIECE];
    let mut unread = bytes;
    let mut count = 0;
    'pieces: loop {
        let (result, read, _) = decoder.decode_to_utf8_without_replacement(
            unread, &mut piece, true,
        );
        let (_, rest) = unread.split_at(read);
        unread = rest;
        match result {
            DecoderResult::InputEmpty => return count,
            DecoderResult::OutputFull => {}
            DecoderResult::Malformed(_, _) => count += 1,
        }
    }
}

/// Returns the offset and the length, in bytes, of the first malformed sequence of a whole input.
///
/// Neither subtraction is tested: by the clause `pending` no more bytes are pending than are read,
/// and by `within` the sequence and those after it are among them.
fn first_malformed(encoding: Encoding, bytes: &[u8]) -> Option<(usize, usize)>
    ensures { IfSome result (λ place. place.0 + place.1 ≤ length bytes.now) }
{
    let mut decoder = encoding.new_decoder();
    let mut piece = [0; PIECE];
    let mut total = 0;
    'pieces: loop {
        let (_, unread) = bytes.split_at(total);
        let (result, read, _) = decoder.decode_to_utf8_without_replacement(
            unread, &mut piece, true,
        );
        total += read;
        match result {
            DecoderResult::InputEmpty => return None,
            DecoderResult::OutputFull => {}
            DecoderResult::Malformed(len, after) => {
                return Some((total - after as usize - len as usize, len as usize));
            }
        }
    }
}

fn main(rt: HostRuntime) -> io::Result<()> {
    let label = env::args(&rt)?.nth(1).ok_or(Error::other("no label"))?;
    let encoding = Encoding::for_label(label.as_bytes()).ok_or(Error::other("unknown label"))?;
    let mut bytes = Vec::new(rt.alloc());
    rt.stdin().read_to_end(&mut bytes)?;
    let text = decode_sized(rt.alloc(), encoding, &bytes)?.ok_or(Error::other("too long"))?;
    let mut beginning = [0; BEGINNING];
    let (_, len) = decode_in_two(encoding, &bytes, bytes.len() / 2, &mut beginning);
    let count = count_malformed(encoding, &bytes);
    let mut out = rt.stdout();
    out.write_all(&text)?;
    out.write_all(&beginning[..len])?;
    writeln!(out, "\nmalformed sequences: {count}")?;
    if let Some((at, len)) = first_malformed(encoding, &bytes) {
        writeln!(out, "the first: {len} at {at}")?;
    }
    for (at, len) in malformed_of(rt.alloc(), encoding, &bytes)? {
        writeln!(out, "malformed: {len} at {at}")?;
    }
    let all = read_lines(rt.alloc(), encoding, &bytes, MalformedPolicy::Escape)?;
    out.write_all(all.text().as_bytes())?;
    for found in all.malformed() {
        let place = found.position();
        writeln!(out, "line {}, column {}", place.line(), place.column())?;
    }
    let copy = copy_lines(rt.alloc(), encoding, &bytes)?;
    let written = written_bytes(rt.alloc(), copy.as_str(), encoding)?;
    writeln!(out, "written: {} bytes", written.len())
}
