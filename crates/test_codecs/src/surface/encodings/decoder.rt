//! `Decoder` and the results of its calls: each output, with replacement and without, and the
//! lengths to allocate.

use crate::surface::derives::{are_equal, debug_text};
use encoding_rs::{
    CoderResult, Decoder, DecoderResult, Encoding, SHIFT_JIS, UTF_8, UTF_16LE, WINDOWS_1252,
};
use std::test::Fail;

/// What a call with replacement returns: why it stopped, how many bytes it has read, how many code
/// units it has written, and whether it has replaced any sequence.
type Replacing = (CoderResult, usize, usize, bool);

/// What a call without replacement returns.
type Reporting = (DecoderResult, usize, usize);

#[test]
fn results_of_calls_are_compared_and_printed(rt: HostRuntime) -> Result<(), Fail> {
    let (empty, full) = (CoderResult::InputEmpty, CoderResult::OutputFull);
    assert!(rt; are_equal(&empty, &empty) && !are_equal(&empty, &full));
    assert!(rt; debug_text(rt.alloc(), &full)?.as_str() == "OutputFull");
    let (empty, full) = (DecoderResult::InputEmpty, DecoderResult::OutputFull);
    assert!(rt; are_equal(&empty, &empty) && !are_equal(&empty, &full));
    let malformed = DecoderResult::Malformed(1, 0);
    assert!(rt; debug_text(rt.alloc(), &malformed)?.as_str() == "Malformed(1, 0)");
    Ok(())
}

#[test]
fn a_decoder_has_an_encoding_and_an_end(rt: HostRuntime) -> Result<(), Fail> {
    let mut decoder: Decoder = WINDOWS_1252.new_decoder();
    let (encoding, is_finished): (Encoding, bool) = (decoder.encoding(), decoder.is_finished());
    assert!(rt; (encoding, is_finished) == (WINDOWS_1252, false));
    let text = debug_text(rt.alloc(), &decoder)?;
    assert!(rt; text.as_str().starts_with("Decoder {"));
    assert!(rt; !decoder.is_finished());
    let (result, read, written, _) = decoder.decode_to_utf8(b"\xFF\xFEa\0", &mut [0; 4], true);
    assert!(rt; (result, read, written) == (CoderResult::InputEmpty, 4, 1));
    assert!(rt; (decoder.encoding(), decoder.is_finished()) == (UTF_16LE, true));
    Ok(())
}

#[test]
fn decodes_to_utf8(rt: HostRuntime) {
    let mut dst: [u8; 6] = [0; 6];
    let mut decoder = UTF_8.new_decoder_without_bom_handling();
    assert!(rt; !decoder.is_finished());
    let answer: Replacing = decoder.decode_to_utf8(b"a\xFF\xC3\xA9z", &mut dst, false);
    assert!(rt; answer == (CoderResult::OutputFull, 4, 6, true));
    assert!(rt; dst.as_slice() == "a\u{FFFD}é".as_bytes());
    assert!(rt; !decoder.is_finished());
    let answer: Reporting = decoder.decode_to_utf8_without_replacement(b"z\xFF", &mut dst, true);
    assert!(rt; answer == (DecoderResult::Malformed(1, 0), 2, 1));
    assert!(rt; dst[0] == b'z');
}

#[test]
fn decodes_to_utf16(rt: HostRuntime) {
    let mut dst: [u16; 4] = [0; 4];
    let mut decoder = UTF_8.new_decoder_without_bom_handling();
    assert!(rt; !decoder.is_finished());
    let answer: Replacing = decoder.decode_to_utf16(b"a\xFF\xF0\x9F\x92\xA9z", &mut dst, false);
    assert!(rt; answer == (CoderResult::OutputFull, 6, 4, true));
    assert!(rt; dst == [0x61, 0xFFFD, 0xD83D, 0xDCA9]);
    assert!(rt; !decoder.is_finished());
    let answer: Reporting = decoder.decode_to_utf16_without_replacement(b"z\xFF", &mut dst, true);
    assert!(rt; answer == (DecoderResult::Malformed(1, 0), 2, 1));
    assert!(rt; dst[0] == 0x7A);
}

#[test]
fn decodes_to_a_str(rt: HostRuntime) {
    let mut dst: [u8; 4] = *b"\xC3\xA9\xC3\xA9";
    let mut decoder = UTF_8.new_decoder_without_bom_handling();
    assert!(rt; !decoder.is_finished() && str::from_utf8(&dst).is_ok());
    let answer: Replacing = decoder.decode_to_str(b"a", &mut dst, false);
    assert!(rt; answer == (CoderResult::InputEmpty, 1, 1, false));
    // the rest of the first "é" is no text any more
    assert!(rt; &dst == b"a\0\xC3\xA9");
    assert!(rt; !decoder.is_finished() && str::from_utf8(&dst).is_ok());
    let answer: Reporting = decoder.decode_to_str_without_replacement(b"bcd\xFF", &mut dst, true);
    assert!(rt; answer == (DecoderResult::Malformed(1, 0), 4, 3));
    assert!(rt; &dst == b"bcd\0");
}

#[test]
fn decodes_to_a_string(rt: HostRuntime) -> Result<(), Fail> {
    let mut dst = String::with_capacity(rt.alloc(), 6)?;
    let mut decoder = SHIFT_JIS.new_decoder();
    assert!(rt; !decoder.is_finished());
    let answer: (CoderResult, usize, bool) = decoder.decode_to_string(
        b"a\x83\x6E\x83\x6E",
        &mut dst,
        false,
    );
    assert!(rt; answer == (CoderResult::OutputFull, 4, false));
    assert!(rt; dst.as_str() == "aハ");
    assert!(rt; !decoder.is_finished());
    let answer: (DecoderResult, usize) = decoder.decode_to_string_without_replacement(
        b"\x20z\xFF",
        &mut dst,
        true,
    );
    assert!(rt; answer == (DecoderResult::Malformed(1, 0), 0));
    assert!(rt; dst.as_str() == "aハ");
    Ok(())
}

#[test]
fn a_decoder_gives_lengths_to_allocate(rt: HostRuntime) {
    let decoder = UTF_8.new_decoder_without_bom_handling();
    assert!(rt; !decoder.is_finished());
    let utf_8: Option<usize> = decoder.max_utf8_buffer_length(2);
    let reporting: Option<usize> = decoder.max_utf8_buffer_length_without_replacement(2);
    let utf_16: Option<usize> = decoder.max_utf16_buffer_length(2);
    assert!(rt; (utf_8, reporting, utf_16) == (Some(9), Some(5), Some(3)));
    assert!(rt; decoder.max_utf8_buffer_length(usize::MAX) == None);
}

#[test]
fn a_decoder_gives_the_prefix_that_is_latin1(rt: HostRuntime) {
    let decoder = WINDOWS_1252.new_decoder_without_bom_handling();
    let latin1: Option<usize> = decoder.latin1_byte_compatible_up_to(b"a\xE9\x80b");
    assert!(rt; latin1 == Some(2));
    let decoder = UTF_16LE.new_decoder_without_bom_handling();
    assert!(rt; decoder.latin1_byte_compatible_up_to(b"ab") == None);
}
