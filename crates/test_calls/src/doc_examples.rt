//! The examples that doc comments show, word for word. `scripts/documents --check` compares them.
//!
//! Expected values are by Python's codecs, by the tables of the Encoding Standard or by hand from
//! its text.

use encoding_rs::*;
use std::borrow::{CowSlice, CowStr};
use std::test::Fail;

// Finding an encoding

#[test]
fn finds_encodings_by_labels(rt: HostRuntime) {
    assert!(rt; Encoding::for_label(b"latin1") == Some(WINDOWS_1252));
    assert!(rt; Encoding::for_label(b" UTF8\r\n") == Some(UTF_8));
    assert!(rt; Encoding::for_label(b"utf-7") == None);
}

#[test]
fn refuses_labels_of_replacement(rt: HostRuntime) {
    assert!(rt; Encoding::for_label(b"hz-gb-2312") == Some(REPLACEMENT));
    assert!(rt; Encoding::for_label_no_replacement(b"hz-gb-2312") == None);
    assert!(rt; Encoding::for_label_no_replacement(b"gb2312") == Some(GBK));
}

#[test]
fn finds_byte_order_marks(rt: HostRuntime) {
    assert!(rt; Encoding::for_bom(b"\xFE\xFF\0a") == Some((UTF_16BE, 2)));
    assert!(rt; Encoding::for_bom(b"\xEF\xBB\xBFa") == Some((UTF_8, 3)));
    assert!(rt; Encoding::for_bom(b"a") == None);
}

#[test]
fn returns_names(rt: HostRuntime) {
    assert!(rt; SHIFT_JIS.name() == "Shift_JIS");
    assert!(rt; Encoding::for_label(SHIFT_JIS.name().as_bytes()) == Some(SHIFT_JIS));
}

#[test]
fn returns_numbers(rt: HostRuntime) {
    assert!(rt; UTF_8.number() == 0 && X_USER_DEFINED.number() == 39);
    assert!(rt; Encoding::from_number(SHIFT_JIS.number()) == Some(SHIFT_JIS));
    assert!(rt; Encoding::from_number(40) == None);
}

#[test]
fn returns_output_encodings(rt: HostRuntime) {
    assert!(rt; UTF_16LE.output_encoding() == UTF_8);
    assert!(rt; BIG5.output_encoding() == BIG5);
}

#[test]
fn divides_after_line_feeds(rt: HostRuntime) {
    assert!(rt; UTF_8.line_feeds_divide() && GB18030.line_feeds_divide());
    assert!(rt; !UTF_16LE.line_feeds_divide() && !ISO_2022_JP.line_feeds_divide());
}

// Decoding in chunks

#[test]
fn looks_for_marks_in_three_ways(rt: HostRuntime) -> Result<(), Fail> {
    let bytes = b"\xEF\xBB\xBFa";
    let (text, encoding, _) = WINDOWS_1252.decode(rt.alloc(), bytes)?;
    assert!(rt; (text.as_str(), encoding) == ("a", UTF_8));
    let (text, _) = WINDOWS_1252.decode_with_bom_removal(rt.alloc(), bytes)?;
    assert!(rt; text.as_str() == "ï»¿a");
    let (text, _) = UTF_8.decode_without_bom_handling(rt.alloc(), bytes)?;
    assert!(rt; text.as_str() == "\u{FEFF}a");
    Ok(())
}

#[test]
fn decodes_to_utf8(rt: HostRuntime) {
    let mut decoder = SHIFT_JIS.new_decoder();
    let mut text = [0; 8];
    // The chunk ends within a character. Its first byte is read, and kept for the next call.
    let outcome = decoder.decode_to_utf8(b"a\x93", &mut text, false);
    assert!(rt; outcome == (CoderResult::InputEmpty, 2, 1, false));
    let outcome = decoder.decode_to_utf8(b"\xFA", &mut text, true);
    assert!(rt; outcome == (CoderResult::InputEmpty, 1, 3, false));
    assert!(rt; &text[..3] == "日".as_bytes());
}

#[test]
fn decodes_to_utf8_without_replacement(rt: HostRuntime) {
    let mut decoder = UTF_8.new_decoder();
    let mut text = [0; 8];
    let bytes = b"caf\xE9";
    let outcome = decoder.decode_to_utf8_without_replacement(bytes, &mut text, true);
    // The byte before the place that is read up to is malformed.
    assert!(rt; outcome == (DecoderResult::Malformed(1, 0), 4, 3));
    let outcome = decoder.decode_to_utf8_without_replacement(b"", &mut text, true);
    assert!(rt; outcome == (DecoderResult::InputEmpty, 0, 0));
}

#[test]
fn decodes_to_utf16(rt: HostRuntime) {
    let mut decoder = BIG5.new_decoder();
    let mut units = [0; 8];
    let outcome = decoder.decode_to_utf16(b"\xA4\xA4\xA4\xE5", &mut units, true);
    assert!(rt; outcome == (CoderResult::InputEmpty, 4, 2, false));
    assert!(rt; units[..2] == [0x4E2D, 0x6587]);
}

#[test]
fn decodes_to_a_string(rt: HostRuntime) -> Result<(), Fail> {
    let mut decoder = EUC_KR.new_decoder();
    let mut text = String::with_capacity(rt.alloc(), 8)?;
    let outcome = decoder.decode_to_string(b"\xC7\xD1\xB1\xDB", &mut text, true);
    assert!(rt; outcome == (CoderResult::InputEmpty, 4, false));
    assert!(rt; text.as_str() == "한글");
    Ok(())
}

#[test]
fn returns_lengths_to_decode(rt: HostRuntime) {
    // Each of ten bytes may be U+FFFD, which is three bytes.
    let decoder = WINDOWS_1252.new_decoder_without_bom_handling();
    assert!(rt; decoder.max_utf8_buffer_length(10) == Some(30));
    assert!(rt; decoder.max_utf16_buffer_length(10) == Some(10));
}

#[test]
fn returns_latin1_prefixes(rt: HostRuntime) {
    let decoder = WINDOWS_1252.new_decoder_without_bom_handling();
    // E9 is U+00E9, and 80 is U+20AC.
    assert!(rt; decoder.latin1_byte_compatible_up_to(b"caf\xE9 \x80") == Some(5));
}

// Encoding in chunks

#[test]
fn encodes_from_utf8(rt: HostRuntime) {
    let mut encoder = ISO_8859_2.new_encoder();
    let mut bytes = [0; 32];
    let outcome = encoder.encode_from_utf8("Łódź €", &mut bytes, true);
    assert!(rt; outcome == (CoderResult::InputEmpty, 11, 12, true));
    assert!(rt; &bytes[..12] == b"\xA3\xF3d\xBC &#8364;".as_slice());
}

#[test]
fn encodes_from_utf8_without_replacement(rt: HostRuntime) {
    let mut encoder = KOI8_U.new_encoder();
    let mut bytes = [0; 8];
    let outcome = encoder.encode_from_utf8_without_replacement("є€", &mut bytes, true);
    assert!(rt; outcome == (EncoderResult::Unmappable('€'), 5, 1));
    assert!(rt; bytes[0] == 0xA4);
}

#[test]
fn encodes_from_utf16(rt: HostRuntime) {
    let mut encoder = SHIFT_JIS.new_encoder();
    let mut bytes = [0; 16];
    let outcome = encoder.encode_from_utf16(&[0x65E5, 0x672C], &mut bytes, true);
    assert!(rt; outcome == (CoderResult::InputEmpty, 2, 4, false));
    assert!(rt; &bytes[..4] == b"\x93\xFA\x96\x7B".as_slice());
}

#[test]
fn encodes_to_a_vec(rt: HostRuntime) -> Result<(), Fail> {
    let mut encoder = GBK.new_encoder();
    let mut bytes = Vec::with_capacity(rt.alloc(), 16)?;
    let outcome = encoder.encode_from_utf8_to_vec("中文", &mut bytes, true);
    assert!(rt; outcome == (CoderResult::InputEmpty, 6, false));
    assert!(rt; &bytes[..] == b"\xD6\xD0\xCE\xC4".as_slice());
    Ok(())
}

#[test]
fn returns_lengths_to_encode(rt: HostRuntime) {
    // A byte for each of ten ASCII bytes, and the ten that are kept free for a reference.
    let encoder = WINDOWS_1252.new_encoder();
    assert!(rt; encoder.max_buffer_length_from_utf8_if_no_unmappables(10) == Some(20));
}

// At once

#[test]
fn decodes_at_once(rt: HostRuntime) -> Result<(), Fail> {
    let (text, encoding, had_errors) = SHIFT_JIS.decode(rt.alloc(), b"\x93\xFA\x96\x7B\xFF")?;
    assert!(rt; (text.as_str(), encoding, had_errors) == ("日本\u{FFFD}", SHIFT_JIS, true));
    Ok(())
}

#[test]
fn removes_a_mark_at_once(rt: HostRuntime) -> Result<(), Fail> {
    let bytes = b"\xFF\xFEa\0\x3D\xD8";
    let (text, had_errors) = UTF_16LE.decode_with_bom_removal(rt.alloc(), bytes)?;
    assert!(rt; (text.as_str(), had_errors) == ("a\u{FFFD}", true));
    Ok(())
}

#[test]
fn decodes_at_once_or_fails(rt: HostRuntime) -> Result<(), Fail> {
    let (good, bad) = (b"caf\xC3\xA9", b"caf\xE9");
    let text = UTF_8.decode_without_bom_handling_and_without_replacement(rt.alloc(), good)?;
    assert!(rt; text.as_deref() == Some("café"));
    let text = UTF_8.decode_without_bom_handling_and_without_replacement(rt.alloc(), bad)?;
    assert!(rt; text.is_none());
    Ok(())
}

#[test]
fn lends_text(rt: HostRuntime) -> Result<(), Fail> {
    let (text, _, _) = UTF_8.decode_lending(rt.alloc(), b"caf\xC3\xA9")?;
    assert!(rt; matches!(text, CowStr::Borrowed("café")));
    Ok(())
}

#[test]
fn encodes_at_once(rt: HostRuntime) -> Result<(), Fail> {
    let (bytes, encoding, had_unmappables) = WINDOWS_1252.encode(rt.alloc(), "5 € → 日")?;
    assert!(rt; &bytes[..] == b"5 \x80 &#8594; &#26085;".as_slice());
    assert!(rt; (encoding, had_unmappables) == (WINDOWS_1252, true));
    Ok(())
}

#[test]
fn lends_bytes(rt: HostRuntime) -> Result<(), Fail> {
    let (bytes, encoding, _) = UTF_16LE.encode_lending(rt.alloc(), "é")?;
    assert!(rt; matches!(bytes, CowSlice::Borrowed(b"\xC3\xA9")));
    assert!(rt; encoding == UTF_8);
    Ok(())
}

// Prefixes

#[test]
fn returns_valid_prefixes(rt: HostRuntime) {
    assert!(rt; Encoding::utf8_valid_up_to(b"caf\xC3\xA9\xFF") == 5);
    assert!(rt; Encoding::ascii_valid_up_to(b"caf\xC3\xA9\xFF") == 3);
    assert!(rt; Encoding::iso_2022_jp_ascii_valid_up_to(b"ab\x1B$B") == 2);
}
