//! The second decoder of UTF-8, which is of whole inputs, and incomplete sequences (Encoding
//! Standard 8.1). Expected values are by table 3-7 and definition D93b of the Unicode Standard.

use enc_decoder_utf::plain::{decode_utf_8, is_incomplete_sequence};
use std::test::Fail;

/// Inputs, their texts, and whether a sequence is malformed: a lead without its end, one of an
/// overlong sequence, one before another byte, and one of a surrogate.
const INPUTS: &[(&[u8], &str, bool)] = &[
    (b"a\xC3\xA9\xE2\x82\xAC\xF0\x9F\x92\xA9", "aé€💩", false),
    (
        b"\xE2\x82\xC3\xA9\xE0\x80\xF0\x90A\xED\xA0b\xF0\x9F\x92!",
        "\u{FFFD}é\u{FFFD}\u{FFFD}\u{FFFD}A\u{FFFD}\u{FFFD}b\u{FFFD}!",
        true,
    ),
];

#[test]
fn whole_inputs_are_decoded(rt: HostRuntime) -> Result<(), Fail> {
    for (bytes, text, had_errors) in INPUTS {
        let plain = decode_utf_8(rt.alloc(), bytes)?;
        assert!(rt; plain.text.as_slice() == text.as_bytes(), "{bytes:?}");
        assert!(rt; plain.had_errors == *had_errors, "{bytes:?}");
    }
    Ok(())
}

const INCOMPLETE: &[&[u8]] = &[
    b"\xC2",
    b"\xDF",
    b"\xE0\xA0",
    b"\xED\x9F",
    b"\xEF\xBF",
    b"\xF0",
    b"\xF0\x90",
    b"\xF4\x8F\xBF",
    b"\xF1\x80",
];

const NOT_INCOMPLETE: &[&[u8]] = &[
    b"",
    b"a",
    b"\x80",
    b"\xC1",
    b"\xC2\x80",
    b"\xC2a",
    b"\xE0\x80",
    b"\xE0\xA0\x80",
    b"\xED\xA0",
    b"\xE1\x80a",
    b"\xF0\x8F",
    b"\xF4\x90",
    b"\xF5",
    b"\xF1\x80\xC2",
];

#[test]
fn incomplete_sequences_are_known(rt: HostRuntime) {
    for bytes in INCOMPLETE {
        assert!(rt; is_incomplete_sequence(bytes), "{bytes:?}");
    }
    for bytes in NOT_INCOMPLETE {
        assert!(rt; !is_incomplete_sequence(bytes), "{bytes:?}");
    }
}
