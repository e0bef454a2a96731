//! The items of `enc_codec`: decoders by encoding, the trait that they share, and the indexes.
//!
//! The bytes and texts are those of the samples. Each decoder has its line in `types`, and each
//! single-byte index its row here.

mod types;

use crate::surface::codecs::types::{variant_name, variant_of};
use crate::surface::derives::{are_equal, copies, debug_text};
use crate::surface::samples::{Pointer, SAMPLES, Sample};
use enc_codec::*;
use enc_output::Utf8Slice;
use std::process::Abort;
use std::test::Fail;

#[test]
fn results_of_decoders_are_compared_and_printed(rt: HostRuntime) -> Result<(), Fail> {
    let (one, two) = (
        DecoderResult::Malformed(1, 0),
        DecoderResult::Malformed(2, 0),
    );
    assert!(rt; are_equal(&one, &one) && !are_equal(&one, &two));
    assert!(rt; !are_equal(&DecoderResult::InputEmpty, &DecoderResult::OutputFull));
    assert!(rt; debug_text(rt.alloc(), &one)?.as_str() == "Malformed(1, 0)");
    Ok(())
}

/// What a call is asked for, in an error mode.
fn options(last: bool, mode: ErrorMode) -> CallOptions {
    CallOptions { last, mode }
}

/// Each item of the trait `RawDecoder`, on a decoder of UTF-8: a character in two parts, and a
/// malformed byte.
fn decode_in_parts<D: RawDecoder>(rt: &impl Abort, start: D) {
    let mut decoder: D = start;
    let mut dst: [u8; 8] = [0; 8];
    let mut out = Utf8Slice::new(&mut dst);
    let outcome: DecoderOutcome = decoder.decode(
        b"\xE2",
        &mut out,
        options(false, ErrorMode::Fatal),
    );
    assert!(rt; (outcome.result, outcome.read) == (DecoderResult::InputEmpty, 1));
    let held: usize = decoder.held();
    let utf_8: Option<usize> = decoder.max_utf8_buffer_length(2);
    let reporting: Option<usize> = decoder.max_utf8_buffer_length_without_replacement(2);
    let utf_16: Option<usize> = decoder.max_utf16_buffer_length(2);
    assert!(rt; (held, utf_8, reporting, utf_16) == (1, Some(12), Some(6), Some(4)));
    // no byte stands for itself while one is held
    let latin1: (Option<usize>, Option<usize>) = (
        start.latin1_byte_compatible_up_to(b"ab\xC3\xA9"),
        decoder.latin1_byte_compatible_up_to(b"ab"),
    );
    assert!(rt; latin1 == (Some(2), None));
    let rest = b"\x82\xAC\xFF";
    let outcome = decoder.decode(rest, &mut out, options(true, ErrorMode::Replacement));
    let (result, read, replaced) = (outcome.result, outcome.read, outcome.replaced);
    assert!(rt; (result, read, replaced) == (DecoderResult::InputEmpty, 3, true));
    assert!(rt; &dst[..6] == "€\u{FFFD}".as_bytes());
}

#[test]
fn a_decoder_holds_the_bytes_of_an_open_sequence(rt: HostRuntime) {
    decode_in_parts(&rt, Utf8Decoder::new());
    decode_in_parts(&rt, VariantDecoder::Utf8(Utf8Decoder::new()));
}

#[test]
fn a_malformed_byte_is_replaced_with_room_for_its_character(rt: HostRuntime) {
    let mut decoder = Utf8Decoder::new();
    let mut dst: [u8; 2] = [0; 2];
    let mut out = Utf8Slice::new(&mut dst);
    let replacing = decoder.decode(b"\xFF", &mut out, options(true, ErrorMode::Replacement));
    assert!(rt; (replacing.result, replacing.read) == (DecoderResult::OutputFull, 0));
    let reporting = decoder.decode(b"\xFF", &mut out, options(true, ErrorMode::Fatal));
    assert!(rt; (reporting.result, reporting.read) == (DecoderResult::Malformed(1, 0), 1));
}

/// Decodes some bytes by a new decoder: this is their text.
fn decode_text<D: RawDecoder>(rt: &impl Abort, mut decoder: D, bytes: &[u8], text: &str) {
    let mut dst: [u8; 8] = [0; 8];
    let mut out = Utf8Slice::new(&mut dst);
    let stop = decoder.decode(bytes, &mut out, options(true, ErrorMode::Fatal));
    assert!(rt; (stop.result, stop.read) == (DecoderResult::InputEmpty, bytes.len()));
    assert!(rt; out.len() == text.len());
    assert!(rt; dst.as_slice().starts_with(text.as_bytes()));
}

/// Decodes some bytes by each of two copies of a decoder: both give this text.
fn decode_all<D: RawDecoder>(
    rt: &impl Abort,
    start: D,
    bytes: &[u8],
    text: &str,
) -> Result<(), Fail> {
    let (first, second) = copies(start)?;
    decode_text(rt, first, bytes, text);
    decode_text(rt, second, bytes, text);
    Ok(())
}

/// Decodes nothing, and the bytes of a sample, each by two copies of a decoder.
pub(crate) fn decode_sample<D: RawDecoder>(
    rt: &impl Abort,
    start: D,
    sample: &Sample,
) -> Result<(), Fail> {
    decode_all(rt, start, b"", "")?;
    let (_, (bytes, text), _, _) = *sample;
    decode_all(rt, start, bytes, text)
}

#[test]
fn each_codec_has_a_decoder(rt: HostRuntime) -> Result<(), Fail> {
    for sample in SAMPLES {
        let (codec, _) = copies(sample.0)?;
        let decoder: VariantDecoder = codec.new_decoder();
        assert!(rt; variant_name(&decoder) == variant_of(codec));
        assert!(rt; codec.text_lengths().utf8(5, 0) == decoder.max_utf8_buffer_length(5));
        decode_sample(&rt, decoder, sample)?;
    }
    Ok(())
}

/// An index has a character at a pointer, in one of its runs, and none at the greatest number.
fn compare_pointer(rt: &impl Abort, (list, pointer, want): Pointer) -> Result<(), Fail> {
    let (list, _) = copies(list)?;
    let character: Option<char> = list.at(pointer);
    let runs: &'static [(u32, u32, u32)] = list.runs();
    let run = runs.iter().find(|run| run.0 <= pointer && pointer <= run.1);
    let Some((first, _, number)) = run else {
        return Err("no run has the pointer".into());
    };
    let offset = pointer.wrapping_sub(*first);
    assert!(rt; number.wrapping_add(offset) == want as u32);
    assert!(rt; (character, list.at(u32::MAX)) == (Some(want), None));
    Ok(())
}

/// Compares the pointers of a sample.
fn compare_pointers(rt: &impl Abort, sample: &Sample) -> Result<(), Fail> {
    for pointer in sample.3 {
        compare_pointer(rt, *pointer)?;
    }
    Ok(())
}

#[test]
fn each_index_has_characters_by_pointer(rt: HostRuntime) -> Result<(), Fail> {
    for sample in SAMPLES {
        compare_pointers(&rt, sample)?;
    }
    Ok(())
}

/// Each index of a legacy single-byte encoding, with the character of byte E4, by Python's codecs.
const SINGLE_BYTE_INDEXES: &[(SingleByteIndex, char)] = &[
    (SingleByteIndex::Ibm866, 'ф'),
    (SingleByteIndex::Iso88592, 'ä'),
    (SingleByteIndex::Iso88593, 'ä'),
    (SingleByteIndex::Iso88594, 'ä'),
    (SingleByteIndex::Iso88595, 'ф'),
    (SingleByteIndex::Iso88596, 'ل'),
    (SingleByteIndex::Iso88597, 'δ'),
    (SingleByteIndex::Iso88598, 'ה'),
    (SingleByteIndex::Iso885910, 'ä'),
    (SingleByteIndex::Iso885913, 'ä'),
    (SingleByteIndex::Iso885914, 'ä'),
    (SingleByteIndex::Iso885915, 'ä'),
    (SingleByteIndex::Iso885916, 'ä'),
    (SingleByteIndex::Koi8R, 'Д'),
    (SingleByteIndex::Koi8U, 'Д'),
    (SingleByteIndex::Macintosh, '‰'),
    (SingleByteIndex::Windows874, 'ไ'),
    (SingleByteIndex::Windows1250, 'ä'),
    (SingleByteIndex::Windows1251, 'д'),
    (SingleByteIndex::Windows1252, 'ä'),
    (SingleByteIndex::Windows1253, 'δ'),
    (SingleByteIndex::Windows1254, 'ä'),
    (SingleByteIndex::Windows1255, 'ה'),
    (SingleByteIndex::Windows1256, 'ن'),
    (SingleByteIndex::Windows1257, 'ä'),
    (SingleByteIndex::Windows1258, 'ä'),
    (SingleByteIndex::XMacCyrillic, 'д'),
];

#[test]
fn each_single_byte_index_has_a_character_of_byte_e4(rt: HostRuntime) -> Result<(), Fail> {
    for (index, want) in SINGLE_BYTE_INDEXES {
        let (index, _) = copies(*index)?;
        let character: Option<char> = index.at(0xE4 - 0x80);
        assert!(rt; character == Some(*want));
    }
    Ok(())
}
