//! One-shot calls: their memory, long inputs compared with runs and single bytes, and texts for
//! debugging. conformance/one-shot.txt has the rows of whole inputs. All rows `text` go through
//! one-shot calls too (`test_support::decoding`).

use encoding_rs::run::BomHandling;
use encoding_rs::*;
use std::alloc::{AllocError, Global};
use std::process::Abort;
use std::test::Fail;
use test_support::decoding::{compare_single_bytes, compare_with_run, decode_at_once};
use test_support::encodings::table;

const OFF: BomHandling = BomHandling::Off;

const SNIFF: BomHandling = BomHandling::Sniff;

const REMOVE: BomHandling = BomHandling::Remove;

#[test]
fn empty_inputs_take_no_memory(rt: HostRuntime) -> Result<(), Fail> {
    let alloc = rt.alloc();
    for encoding in table() {
        let (text, _, _) = encoding.decode(alloc, b"")?;
        assert!(rt; text.capacity() == 0);
        let (text, _) = encoding.decode_with_bom_removal(alloc, b"")?;
        assert!(rt; text.capacity() == 0);
        let (text, _) = encoding.decode_without_bom_handling(alloc, b"")?;
        assert!(rt; text.capacity() == 0);
        let Some(text) = encoding.decode_without_bom_handling_and_without_replacement(alloc, b"")?
        else {
            return Err(Fail::new("nothing is malformed"));
        };
        assert!(rt; text.capacity() == 0);
        let (bytes, _, _) = encoding.encode(alloc, "")?;
        assert!(rt; bytes.capacity() == 0);
    }
    Ok(())
}

/// Inputs of n bytes that are not their own text, and the length that is asked for first, at least
/// 4: (n + 1) / 2 times 3, and 1 more, in UTF-16, and 3 n in others.
const FIRST_LENGTHS: &[(Encoding, &[u8], usize)] = &[
    (UTF_16LE, b"a\x00", 4),
    (UTF_16LE, b"a\x00b\x00c\x00", 10),
    (WINDOWS_1252, b"\xE4", 4),
    (WINDOWS_1252, b"abcdefghi\xE4", 30),
    (SHIFT_JIS, b"ab\x88\xEA", 12),
];

#[test]
fn a_strict_text_has_the_capacity_of_the_first_length(rt: HostRuntime) -> Result<(), Fail> {
    for (encoding, bytes, capacity) in FIRST_LENGTHS {
        let answer = encoding.decode_without_bom_handling_and_without_replacement(
            rt.alloc(),
            bytes,
        )?;
        let Some(text) = answer else {
            return Err(Fail::new("nothing is malformed"));
        };
        assert!(rt; text.capacity() == *capacity, "{encoding:?} {bytes:?}");
    }
    Ok(())
}

/// The length of a long input, in bytes, and the lengths that are asked for first if it begins with
/// these bytes: n + 3 in UTF-8, and others as above.
const LONG_INPUT: usize = 400;

const LONG_LENGTHS: &[(Encoding, &[u8], usize)] = &[
    (UTF_8, b"\xFF", 403),
    (UTF_16LE, b"a\x00", 601),
    (WINDOWS_1252, b"\xE4", 1200),
    (SHIFT_JIS, b"\x88\xEA", 1200),
];

#[test]
fn a_long_text_has_the_capacity_of_the_first_length(rt: HostRuntime) -> Result<(), Fail> {
    for (encoding, front, capacity) in LONG_LENGTHS {
        let mut bytes = Vec::from_slice(rt.alloc(), front)?;
        bytes.resize(LONG_INPUT, b'a')?;
        let (text, _) = encoding.decode_without_bom_handling(rt.alloc(), &bytes)?;
        assert!(rt; text.capacity() == *capacity, "{encoding:?} {front:?}");
        let (text, _) = encoding.decode_without_bom_handling(rt.alloc(), front)?;
        assert!(rt; text.capacity() == text.len(), "{encoding:?} {front:?}");
    }
    Ok(())
}

/// Lengths of inputs in bytes: the greatest that is decoded in one way, and the least in another.
const EDGES: &[usize] = &[1, 64, 65, 320, 321];

#[test]
fn texts_of_three_bytes_a_byte_are_whole_at_every_length(rt: HostRuntime) -> Result<(), Fail> {
    for len in EDGES {
        let mut bytes = Vec::new(rt.alloc());
        bytes.resize(*len, 0x80)?;
        let (text, _, had_errors) = WINDOWS_1252.decode(rt.alloc(), &bytes)?;
        assert!(rt; (text.len(), had_errors) == (3 * *len, false), "{len}");
        assert!(rt; text.chars().all(|c| c == '€'), "{len}");
        let (text, _, had_errors) = UTF_8.decode(rt.alloc(), &bytes)?;
        assert!(rt; (text.len(), had_errors) == (3 * *len, true), "{len}");
        assert!(rt; text.chars().all(|c| c == '\u{FFFD}'), "{len}");
    }
    Ok(())
}

#[test]
fn a_string_with_room_for_two_chunks_is_not_full(rt: HostRuntime) -> Result<(), Fail> {
    let mut decoder = WINDOWS_1252.new_decoder_without_bom_handling();
    let mut text = String::with_capacity(rt.alloc(), 18)?;
    for chunk in [b"\x80\x80\x80", b"\x80\x80\x80"] {
        assert!(rt; !decoder.is_finished());
        let outcome = decoder.decode_to_string(chunk, &mut text, false);
        assert!(rt; outcome == (CoderResult::InputEmpty, 3, false));
        assert!(rt; text.capacity() == 18);
    }
    assert!(rt; text.as_str() == "€€€€€€");
    Ok(())
}

#[test]
fn reasons_have_different_texts(rt: HostRuntime) -> Result<(), Fail> {
    let (memory, too_long) = (OneShotError::Memory, OneShotError::TooLong);
    assert!(rt; memory != too_long);
    assert!(rt; format!(in rt.alloc(); "{memory:?} {too_long:?}")?.as_str() == "Memory TooLong");
    Ok(())
}

/// The length of the long input, in bytes.
const LONG: usize = 6_000;

/// The number of bytes of it that are decoded one by one.
const SINGLE: usize = 1_000;

/// Bytes of all encodings: words, characters in one encoding or another, escape sequences, and
/// incomplete sequences.
const PIECES: &[&[u8]] = &[
    b"The quick brown fox jumps over the lazy dog. ",
    b"caf\xE9 \x93na\xEFve\x94",
    b"\xE2\x82\xAC\xF0\x9F\x92\xA9\xC3\xA4",
    b"\x1B$BF|K\\8l\x1B(B",
    b"\x1B(J\\~\x1B(I1",
    b"\x93\xFA\x96\x7B\x8C\xEA",
    b"\xA4\x48\xA4\xA7\xAA\xEC",
    b"\xC7\xD1\xB1\xDB",
    b"\x95\x32\x82\x36\x81\x30",
    b"\x8F\xB0\xA1\x8E\xB1",
    b"\x3D\xD8\xA9\xDC\xD8\x3D\xDC\xA9",
];

/// The number of times that the first piece stands between two others.
const STRETCH: usize = 6;

/// Returns the long input, the same each time: pieces, single bytes, and stretches of ASCII, in the
/// order of a linear congruential generator.
fn long_bytes(alloc: Global) -> Result<Vec<u8>, AllocError> {
    let mut bytes = Vec::new(alloc);
    let mut state = 1_u64;
    for _ in 0..LONG {
        state = state
            .wrapping_mul(6_364_136_223_846_793_005)
            .wrapping_add(1_442_695_040_888_963_407);
        let [kind, number, byte, ..] = state.to_be_bytes();
        match PIECES.get((kind / 8) as usize) {
            Some(piece) => bytes.extend_from_slice(piece)?,
            None => bytes.extend_from_slice(&[number, byte])?,
        }
        if kind < 128 {
            for _ in 0..STRETCH {
                bytes.extend_from_slice(PIECES[0])?;
            }
        }
        if bytes.len() >= LONG {
            break;
        }
    }
    bytes.truncate(LONG);
    Ok(bytes)
}

#[test]
fn two_encodings_have_two_names_for_debugging(rt: HostRuntime) -> Result<(), Fail> {
    for (i, one) in table().iter().enumerate() {
        let text = format!(in rt.alloc(); "{one:?}")?;
        assert!(rt; !text.is_empty());
        for (j, other) in table().iter().enumerate() {
            let other = format!(in rt.alloc(); "{other:?}")?;
            assert!(rt; (text == other) == (i == j), "{other}");
        }
    }
    Ok(())
}

#[test]
fn decoders_and_encoders_have_debug_texts(rt: HostRuntime) -> Result<(), Fail> {
    let mut decoder = UTF_8.new_decoder();
    let text = format!(in rt.alloc(); "{decoder:?}")?;
    let want = "Decoder { encoding: Encoding { UTF-8 }, finished: false }";
    assert!(rt; text.as_str() == want);
    let _ = decoder.decode_to_utf8(b"", &mut [], true);
    let text = format!(in rt.alloc(); "{decoder:?}")?;
    let want = "Decoder { encoding: Encoding { UTF-8 }, finished: true }";
    assert!(rt; text.as_str() == want);
    let mut encoder = ISO_2022_JP.new_encoder();
    let text = format!(in rt.alloc(); "{encoder:?}")?;
    let want = "Encoder { encoding: Encoding { ISO-2022-JP }, pending: false }";
    assert!(rt; text.as_str() == want);
    let _ = encoder.encode_from_utf8_without_replacement("あ", &mut [0; 8], false);
    let text = format!(in rt.alloc(); "{encoder:?}")?;
    let want = "Encoder { encoding: Encoding { ISO-2022-JP }, pending: true }";
    assert!(rt; text.as_str() == want);
    Ok(())
}

/// Decodes the long input at once, in each mode, and compares that with a run; and its first bytes
/// with single bytes.
fn compare_long(alloc: Global, encoding: Encoding, bytes: &[u8]) -> Result<(), Fail> {
    for handling in [SNIFF, REMOVE, OFF] {
        let _ = compare_with_run(alloc, (encoding, handling), bytes)?;
    }
    let (first, _) = bytes.split_at(SINGLE.min(bytes.len()));
    let (text, _) = encoding.decode_without_bom_handling(alloc, first)?;
    compare_single_bytes((encoding, OFF), first, text.as_bytes())
}

#[test]
fn long_inputs_of_every_encoding(rt: HostRuntime) -> Result<(), Fail> {
    let bytes = long_bytes(rt.alloc())?;
    assert!(rt; bytes.len() == LONG);
    for encoding in table() {
        compare_long(rt.alloc(), *encoding, &bytes)?;
    }
    Ok(())
}

/// One byte more than the greatest length that sixteen bits have.
const SIXTEEN_BITS: usize = 65536;

/// Makes the calls with that many bytes of windows-1257, which end in this one.
fn compare_sixteen_bits(
    rt: &impl Abort,
    alloc: Global,
    (last, character): (u8, char),
) -> Result<(), Fail> {
    let mut bytes = vec![in alloc; b'a'; SIXTEEN_BITS - 1]?;
    let mut want = String::new(alloc);
    for _ in 1..SIXTEEN_BITS {
        want.push('a')?;
    }
    bytes.push(last)?;
    want.push(character)?;
    for handling in [SNIFF, REMOVE, OFF] {
        let (text, _, had_errors) = decode_at_once(alloc, (WINDOWS_1257, handling), &bytes)?;
        assert!(rt; text.as_str() == want.as_str() && !had_errors);
    }
    let strict = WINDOWS_1257.decode_without_bom_handling_and_without_replacement(alloc, &bytes)?;
    let text = strict.unwrap_or(String::new(alloc));
    assert!(rt; text.as_str() == want.as_str());
    let (back, used, had_unmappables) = WINDOWS_1257.encode(alloc, text.as_str())?;
    assert!(rt; back.as_slice() == bytes.as_slice());
    assert!(rt; (used, had_unmappables) == (WINDOWS_1257, false));
    Ok(())
}

#[test]
fn a_length_may_have_more_than_sixteen_bits(rt: HostRuntime) -> Result<(), Fail> {
    for row in [(b'a', 'a'), (b'\xE4', '\u{E4}')] {
        compare_sixteen_bits(&rt, rt.alloc(), row)?;
    }
    Ok(())
}
