//! The items of `enc_encode`: encoders by encoding, and the trait that they share.
//!
//! The texts and bytes are those of the samples. Each encoder has its line in `types`.

mod types;

use crate::surface::derives::{are_equal, debug_text};
use crate::surface::encoders::types::{variant_name, variant_of};
use crate::surface::samples::{SAMPLES, Sample};
use enc_encode::{
    Codec, EncoderOutcome, EncoderResult, Iso2022JpEncoder, RawEncoder, VariantEncoder,
    has_encoder, new_encoder,
};
use enc_input::{Utf8Chars, Utf16Chars};
use std::process::Abort;
use std::test::Fail;

#[test]
fn results_of_encoders_are_compared_and_printed(rt: HostRuntime) -> Result<(), Fail> {
    let (one, two) = (
        EncoderResult::Unmappable('é'),
        EncoderResult::Unmappable('ä'),
    );
    assert!(rt; are_equal(&one, &one) && !are_equal(&one, &two));
    assert!(rt; !are_equal(&EncoderResult::InputEmpty, &EncoderResult::OutputFull));
    assert!(rt; debug_text(rt.alloc(), &one)?.as_str() == "Unmappable('é')");
    Ok(())
}

/// Returns why a call stopped, and the numbers of code units read and of bytes written.
fn parts(outcome: EncoderOutcome) -> (EncoderResult, usize, usize) {
    (outcome.result, outcome.read, outcome.written)
}

/// Each item of the trait `RawEncoder`, on an encoder of ISO-2022-JP: "あ", an unmappable character,
/// and no room.
fn encode_in_parts<E: RawEncoder>(rt: &impl Abort, encoder: &mut E) {
    let mut dst: [u8; 5] = [0; 5];
    let mut src = Utf8Chars::new("あ");
    let answer: EncoderOutcome = encoder.encode(&mut src, &mut dst, false);
    let is_pending: bool = encoder.has_pending_state();
    assert!(rt; (parts(answer), is_pending) == ((EncoderResult::InputEmpty, 3, 5), true));
    assert!(rt; &dst == b"\x1B$B$\"");
    let mut src = Utf16Chars::new(&[0x3042, 0xD83D, 0xDCA9]);
    let answer = encoder.encode(&mut src, &mut dst, false);
    assert!(rt; parts(answer) == (EncoderResult::Unmappable('💩'), 3, 5));
    let answer = encoder.encode(&mut Utf8Chars::new("あ"), &mut [], true);
    assert!(rt; parts(answer) == (EncoderResult::OutputFull, 0, 0));
    let from_utf_8: Option<usize> = encoder.max_buffer_length_from_utf8_without_replacement(1);
    let from_utf_16: Option<usize> = encoder.max_buffer_length_from_utf16_without_replacement(1);
    assert!(rt; (from_utf_8, from_utf_16) == (Some(7), Some(8)));
}

#[test]
fn an_encoder_keeps_its_character_set(rt: HostRuntime) {
    let encoder = Iso2022JpEncoder::new(&[]);
    encode_in_parts(&rt, &mut VariantEncoder::Iso2022Jp(encoder));
    encode_in_parts(&rt, &mut Iso2022JpEncoder::new(&[]));
}

/// Encodes the text of a sample by a new encoder.
pub(crate) fn encode_sample<E: RawEncoder + Drop>(
    rt: &impl Abort,
    mut encoder: E,
    sample: &Sample,
) {
    let (_, _, (text, bytes), _) = *sample;
    let mut dst: [u8; 8] = [0; 8];
    let answer = encoder.encode(&mut Utf8Chars::new(text), &mut dst, true);
    let want = (EncoderResult::InputEmpty, text.len(), bytes.len());
    assert!(rt; parts(answer) == want);
    assert!(rt; dst.as_slice().starts_with(bytes));
}

/// The encoder of a codec is the variant of this name.
fn compare_variant(rt: &impl Abort, sample: &Sample, name: &str) {
    let codec: Codec = sample.0;
    let is_there: bool = has_encoder(codec);
    assert!(rt; is_there);
    let encoder: VariantEncoder = new_encoder(codec, &[]);
    assert!(rt; variant_name(&encoder) == name);
    encode_sample(rt, encoder, sample);
}

#[test]
fn each_codec_but_three_has_an_encoder(rt: HostRuntime) {
    for sample in SAMPLES {
        match variant_of(sample.0) {
            Some(name) => compare_variant(&rt, sample, name),
            None => assert!(rt; !has_encoder(sample.0)),
        }
    }
}

#[test]
fn barred_characters_are_unmappable(rt: HostRuntime) {
    let mut encoder = new_encoder(Codec::Utf8, &['é']);
    let answer = encoder.encode(&mut Utf8Chars::new("aé"), &mut [0; 8], true);
    assert!(rt; parts(answer) == (EncoderResult::Unmappable('é'), 3, 1));
}
