//! Decodes and encodes in chunks, as a caller does.
//!
//! `example_chunks decode LABEL` decodes standard input to UTF-8, and `example_chunks encode LABEL`
//! encodes UTF-8 from standard input, with a decimal reference for each unmappable character. The
//! status is 0 if nothing was replaced, 1 if something was, 2 for wrong arguments, and 3 after a
//! fault.
#![tactic(auto)]

ghost use Rattle.std.specs.Prelude.{◌≡◌, false, OnOk};
ghost use Rattle.encoding_rs.specs.Decoding.{has_finished};

use enc_reader::{DecodeReader, FromRead};
use encoding_rs::{CoderResult, Decoder, Encoder, Encoding};
use std::io::{ErrorKind, Read, Write};
use std::process::ExitCode;
use std::{env, io};

/// The length of each buffer. At least 4 bytes are needed to decode, and 14 to encode.
const LENGTH: usize = 256;

/// Decodes a chunk, and writes its text in as many pieces as it takes. Returns whether a sequence
/// was malformed.
fn decode_chunk<W: Write>(
    decoder: &mut Decoder,
    chunk: &[u8],
    last: bool,
    out: &mut W,
) -> io::Result<bool>
    requires unfinished { has_finished decoder.old ≡ false }
    ensures { OnOk result (has_finished decoder.new ≡ last) }
{
    let mut text = [0; LENGTH];
    let mut unread = chunk;
    let mut had_errors = false;
    'pieces: loop {
        let (result, read, written, replaced) = decoder.decode_to_utf8(unread, &mut text, last);
        had_errors |= replaced;
        out.write_all(&text[..written])?;
        match result {
            CoderResult::InputEmpty => return Ok(had_errors),
            CoderResult::OutputFull => unread = &unread[read..],
        }
    }
}

/// Decodes all input of a reader, a chunk at a time.
fn decode_all<R: Read, W: Write>(
    input: &mut R,
    out: &mut W,
    encoding: Encoding,
) -> io::Result<bool> {
    let mut decoder = encoding.new_decoder();
    let mut chunk = [0; LENGTH];
    let mut had_errors = false;
    'chunks: for _ in 0..u64::MAX {
        let len = input.read(&mut chunk)?;
        had_errors |= decode_chunk(&mut decoder, &chunk[..len], len == 0, out)?;
        if len == 0 {
            return Ok(had_errors);
        }
    }
    Err(io::Error::from(ErrorKind::Other))
}

/// Encodes a text, and writes its bytes in as many pieces as it takes. Returns whether a character
/// was unmappable.
fn encode_text<W: Write>(
    encoder: &mut Encoder,
    text: &str,
    last: bool,
    out: &mut W,
) -> io::Result<bool> {
    let mut bytes = [0; LENGTH];
    let mut unread = text;
    let mut had_unmappables = false;
    'pieces: loop {
        let (result, read, written, replaced) = encoder.encode_from_utf8(unread, &mut bytes, last);
        had_unmappables |= replaced;
        out.write_all(&bytes[..written])?;
        match result {
            CoderResult::InputEmpty => return Ok(had_unmappables),
            CoderResult::OutputFull => {
                let (_, rest) = unread.split_at(read);
                unread = rest;
            }
        }
    }
}

/// Encodes all text of a reader, a piece at a time.
fn encode_all<R: Read, W: Write>(
    input: &mut R,
    out: &mut W,
    encoding: Encoding,
) -> io::Result<bool> {
    let mut source = FromRead::new(input);
    let mut buffer = [0; LENGTH];
    let mut reader = DecodeReader::new(&mut source, None, &mut buffer);
    let mut encoder = encoding.new_encoder();
    let mut text = [0; LENGTH];
    let mut replaced = false;
    'pieces: for _ in 0..u64::MAX {
        let piece = reader.read_text(&mut text)?;
        let last = piece.is_empty();
        replaced |= encode_text(&mut encoder, piece, last, out)?;
        if last {
            return Ok(replaced | reader.had_errors());
        }
    }
    Err(io::Error::from(ErrorKind::Other))
}

/// Returns the two arguments, if there are exactly two.
fn words(rt: &HostRuntime) -> io::Result<Option<(String, String)>> {
    let mut args = env::args(rt)?;
    let _program = args.next();
    let (first, second, more) = (args.next(), args.next(), args.next());
    match (first, second, more) {
        (Some(first), Some(second), None) => Ok(Some((first, second))),
        _ => Ok(None),
    }
}

fn main(rt: HostRuntime) -> ExitCode {
    let Ok(Some((command, label))) = words(&rt) else {
        return ExitCode::from(2);
    };
    let Some(encoding) = Encoding::for_label(label.as_bytes()) else {
        return ExitCode::from(2);
    };
    let (mut input, mut out) = (rt.stdin(), rt.stdout());
    let outcome = match command.as_str() {
        "decode" => decode_all(&mut input, &mut out, encoding),
        "encode" => encode_all(&mut input, &mut out, encoding),
        _ => return ExitCode::from(2),
    };
    match outcome {
        Ok(false) => ExitCode::from(0),
        Ok(true) => ExitCode::from(1),
        Err(_) => ExitCode::from(3),
    }
}
