//! Single calls, each with its answer and its text.

use crate::cases::{Case, expect, expect_bytes};
use crate::decoding::outputs::{Answer, Given, Output, call_into};
use encoding_rs::run::BomHandling;
use encoding_rs::{Decoder, DecoderResult, Encoding};
use std::alloc::Global;
use std::test::Fail;

/// Returns a new decoder that looks for these byte order marks.
pub fn new_decoder(encoding: Encoding, handling: BomHandling) -> Decoder {
    match handling {
        BomHandling::Off => encoding.new_decoder_without_bom_handling(),
        BomHandling::Sniff => encoding.new_decoder(),
        BomHandling::Remove => encoding.new_decoder_with_bom_removal(),
    }
}

/// Makes a call. Its answer and its text have to be these, and the decoder is finished exactly if
/// the last bytes are all read.
pub fn make_call(
    alloc: Global,
    decoder: &mut Decoder,
    (output, given): (Output, Given<'_>),
    (want, expected): (Answer, &str),
) -> Result<(), Fail> {
    let case = Case {
        name: decoder.encoding().name(),
        input: given.src,
        room: given.room,
    };
    let mut text = Vec::new(alloc);
    let answer = call_into(alloc, decoder, output, given, &mut text)?;
    expect(answer == want, "another answer", &case)?;
    expect_bytes(&text, expected.as_bytes(), "another text", &case)?;
    let ends = given.last && answer.0 == DecoderResult::InputEmpty;
    expect(decoder.is_finished() == ends, "finished or not", &case)
}

/// Decodes a chunk, which is all read, with replacement. Appends its text to `text`.
pub(crate) fn decode_chunk(
    alloc: Global,
    decoder: &mut Decoder,
    (chunk, last): (&[u8], bool),
    room: usize,
    text: &mut Vec<u8>,
) -> Result<(), Fail> {
    let given = Given {
        src: chunk,
        last,
        room,
        reporting: false,
    };
    let (result, read, _, _) = call_into(alloc, decoder, Output::Utf8, given, text)?;
    let case = Case {
        name: decoder.encoding().name(),
        input: chunk,
        room,
    };
    let is_read = result == DecoderResult::InputEmpty && read == chunk.len();
    expect(is_read, "a chunk is not all read", &case)
}
