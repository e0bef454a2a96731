//! `Encoder` and the result of its calls: each input, with replacement and without, and the lengths
//! to allocate.

use crate::surface::derives::{are_equal, debug_text};
use encoding_rs::{
    CoderResult, Encoder, EncoderResult, Encoding, GB18030, ISO_2022_JP, UTF_8, WINDOWS_1252,
};
use std::test::Fail;

/// What a call with replacement returns: why it stopped, how many code units it has read, how many
/// bytes it has written, and whether it has written a reference.
type Replacing = (CoderResult, usize, usize, bool);

/// What a call without replacement returns.
type Reporting = (EncoderResult, usize, usize);

#[test]
fn results_of_calls_are_compared_and_printed(rt: HostRuntime) -> Result<(), Fail> {
    let (empty, full) = (EncoderResult::InputEmpty, EncoderResult::OutputFull);
    assert!(rt; are_equal(&empty, &empty) && !are_equal(&empty, &full));
    let unmappable = EncoderResult::Unmappable('a');
    assert!(rt; debug_text(rt.alloc(), &unmappable)?.as_str() == "Unmappable('a')");
    Ok(())
}

#[test]
fn an_encoder_has_an_encoding_and_a_pending_state(rt: HostRuntime) -> Result<(), Fail> {
    let mut encoder: Encoder = ISO_2022_JP.new_encoder();
    let encoding: Encoding = encoder.encoding();
    let is_pending: bool = encoder.has_pending_state();
    assert!(rt; (encoding, is_pending) == (ISO_2022_JP, false));
    let text = debug_text(rt.alloc(), &encoder)?;
    assert!(rt; text.as_str().starts_with("Encoder {"));
    let (result, read, written, _) = encoder.encode_from_utf8("¥", &mut [0; 14], false);
    assert!(rt; (result, read, written) == (CoderResult::InputEmpty, 2, 4));
    assert!(rt; encoder.has_pending_state());
    Ok(())
}

#[test]
fn encodes_from_utf8(rt: HostRuntime) {
    let mut dst: [u8; 18] = [0; 18];
    let mut encoder = WINDOWS_1252.new_encoder();
    let answer: Replacing = encoder.encode_from_utf8("a€あ", &mut dst, true);
    assert!(rt; answer == (CoderResult::InputEmpty, 7, 10, true));
    assert!(rt; &dst[..10] == b"a\x80&#12354;".as_slice());
    let answer: Reporting = encoder.encode_from_utf8_without_replacement("a€あ", &mut dst, true);
    assert!(rt; answer == (EncoderResult::Unmappable('あ'), 7, 2));
    assert!(rt; &dst[..2] == b"a\x80".as_slice());
}

#[test]
fn encodes_from_utf16(rt: HostRuntime) {
    let mut dst: [u8; 18] = [0; 18];
    let src: [u16; 4] = [0x61, 0x20AC, 0xD83D, 0xDCA9];
    let mut encoder = WINDOWS_1252.new_encoder();
    let answer: Replacing = encoder.encode_from_utf16(&src, &mut dst, true);
    assert!(rt; answer == (CoderResult::InputEmpty, 4, 11, true));
    assert!(rt; &dst[..11] == b"a\x80&#128169;".as_slice());
    let answer: Reporting = encoder.encode_from_utf16_without_replacement(&src, &mut dst, true);
    assert!(rt; answer == (EncoderResult::Unmappable('💩'), 4, 2));
    assert!(rt; &dst[..2] == b"a\x80".as_slice());
}

#[test]
fn encodes_to_a_vec(rt: HostRuntime) -> Result<(), Fail> {
    let mut dst: Vec<u8> = Vec::with_capacity(rt.alloc(), 14)?;
    let mut encoder = WINDOWS_1252.new_encoder();
    let answer: (CoderResult, usize, bool) = encoder.encode_from_utf8_to_vec("é€", &mut dst, false);
    assert!(rt; answer == (CoderResult::InputEmpty, 5, false));
    assert!(rt; dst.as_slice() == b"\xE9\x80".as_slice());
    let answer: (EncoderResult, usize) = encoder.encode_from_utf8_to_vec_without_replacement(
        "zあ", &mut dst, true,
    );
    assert!(rt; answer == (EncoderResult::Unmappable('あ'), 4));
    assert!(rt; dst.as_slice() == b"\xE9\x80z".as_slice());
    Ok(())
}

#[test]
fn an_encoder_gives_lengths_to_allocate(rt: HostRuntime) {
    for (encoding, want) in [
        (UTF_8, [Some(5), Some(15), Some(5), Some(15)]),
        (GB18030, [Some(10), Some(20), Some(20), Some(30)]),
        (ISO_2022_JP, [Some(23), Some(28), Some(33), Some(38)]),
    ] {
        let encoder = encoding.new_encoder();
        let lengths: [Option<usize>; 4] = [
            encoder.max_buffer_length_from_utf8_without_replacement(5),
            encoder.max_buffer_length_from_utf16_without_replacement(5),
            encoder.max_buffer_length_from_utf8_if_no_unmappables(5),
            encoder.max_buffer_length_from_utf16_if_no_unmappables(5),
        ];
        assert!(rt; lengths == want);
    }
}
