//! What rows of conformance can't say of encoders: the report of a run, the lists of barred
//! characters that are allowed, and a long text in every encoding.

use encoding_rs::run::{EncodeCall, encode_run, encode_run_barring};
use encoding_rs::*;
use std::alloc::{AllocError, Global};
use std::test::Fail;
use test_support::cases::{Case, expect};
use test_support::encoding::whole_texts::{compare_by_characters, compare_with_run};
use test_support::encodings::table;

const TWO_CALLS: &[EncodeCall] = &[
    EncodeCall {
        utf16: false,
        replace: false,
        offer: 2,
        room: 4,
    },
    EncodeCall {
        utf16: true,
        replace: true,
        offer: 5,
        room: 11,
    },
];

#[test]
fn a_run_may_change_its_units_and_treatment(rt: HostRuntime) -> Result<(), Fail> {
    let report = encode_run(rt.alloc(), SHIFT_JIS, "a💩b", TWO_CALLS)?;
    assert!(rt; report.bytes.as_slice() == b"a&#128169;b".as_slice());
    assert!(rt; report.unmappables.as_slice() == ['💩'].as_slice());
    assert!(rt; (report.read, report.calls) == (3, 2));
    assert!(rt; report.had_unmappables && report.finished);
    Ok(())
}

/// A call with replacement that gets a character, and has 4 bytes besides those kept free.
const ONE_CHARACTER: EncodeCall = EncodeCall {
    utf16: false,
    replace: true,
    offer: 1,
    room: 14,
};

#[test]
fn a_run_of_one_character_ends_within_four_calls(rt: HostRuntime) -> Result<(), Fail> {
    let report = encode_run(rt.alloc(), ISO_2022_JP, "\u{3041}", &[ONE_CHARACTER; 4])?;
    assert!(rt; report.bytes.as_slice() == b"\x1B$B$!\x1B(B".as_slice());
    assert!(rt; (report.read, report.calls) == (1, 3));
    assert!(rt; report.finished && !report.had_unmappables);
    Ok(())
}

const TWO_CHARACTERS: EncodeCall = EncodeCall {
    utf16: false,
    replace: true,
    offer: 2,
    room: 18,
};

#[test]
fn a_run_bars_characters(rt: HostRuntime) -> Result<(), Fail> {
    let report = encode_run_barring(rt.alloc(), UTF_8, &['💩'], "a💩", &[TWO_CHARACTERS])?;
    assert!(rt; report.bytes.as_slice() == b"a&#128169;".as_slice());
    assert!(rt; report.unmappables.is_empty());
    assert!(rt; (report.read, report.calls) == (2, 1));
    assert!(rt; report.had_unmappables && report.finished);
    Ok(())
}

/// Lists, and whether they are allowed.
const LISTS: &[(&[char], bool)] = &[
    (&[], true),
    (&['\u{80}', '\u{10FFFF}'], true),
    (&['\u{7F}'], false),
    (&['é', '&'], false),
];

#[test]
fn lists_have_no_ascii(rt: HostRuntime) {
    for (barred, want) in LISTS {
        assert!(rt; Encoding::barred_ok(barred) == *want, "{barred:?}");
    }
}

/// The length of the text that is encoded at once, in bytes of UTF-8.
const LONG: usize = 8_000;

/// The length of the text that is encoded by single characters.
const SHORT: usize = 2_000;

/// Characters of many encodings.
const CHARACTERS: &str =
    "The quick brown fox. caf\u{E9} \u{20AC}5, \u{17C}\u{142} \u{416}\u{44F} \u{3A9} \
        \u{5D0} \u{64A} \u{E01} \u{65E5}\u{672C}\u{8A9E} \u{3042}\u{30A2}\u{FF71} \
        \u{AC00}\u{D7A3} \u{4E02} \u{1F4A9} \u{20000} \u{A5}~\u{1B} \u{F780}\u{80}";

/// The characters over and over, and a's at the end.
fn long_text(alloc: Global, len: usize) -> Result<String, AllocError> {
    let mut text = String::new(alloc);
    for _ in 0..len / CHARACTERS.len() {
        text.push_str(CHARACTERS)?;
    }
    for _ in text.len()..len {
        text.push('a')?;
    }
    Ok(text)
}

/// Decodes the bytes of a text with replacement and without it. Nothing is malformed, and both give
/// the same.
fn compare_decoded(alloc: Global, encoding: Encoding, bytes: &[u8]) -> Result<(), Fail> {
    let case = Case {
        name: encoding.name(),
        input: bytes,
        room: bytes.len(),
    };
    let (text, had_errors) = encoding.decode_without_bom_handling(alloc, bytes)?;
    expect(!had_errors, "malformed", &case)?;
    let strict = encoding.decode_without_bom_handling_and_without_replacement(alloc, bytes)?;
    expect(
        strict == Some(text),
        "another text without replacement",
        &case,
    )
}

/// Encodes long texts in every encoding, at once, by a run and by single characters, and decodes
/// their bytes.
#[test]
fn long_texts_of_every_encoding(rt: HostRuntime) -> Result<(), Fail> {
    let alloc = rt.alloc();
    let (long, short) = (long_text(alloc, LONG)?, long_text(alloc, SHORT)?);
    assert!(rt; (long.len(), short.len()) == (LONG, SHORT));
    for encoding in table() {
        let bytes = compare_with_run(alloc, *encoding, &long)?;
        compare_decoded(alloc, encoding.output_encoding(), &bytes)?;
        let bytes = compare_with_run(alloc, *encoding, &short)?;
        compare_by_characters(*encoding, &short, &bytes)?;
    }
    Ok(())
}
