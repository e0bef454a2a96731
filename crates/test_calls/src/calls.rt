//! Calls that the documents show, runs of decoders, and a set of encodings. Expected values are by
//! hand from the Encoding Standard.

use encoding_rs::run::{BomHandling, DecodeCall, RunError, decode_run};
use encoding_rs::*;
use std::collections::HashSet;
use std::test::Fail;

#[test]
fn names_its_encoding(rt: HostRuntime) -> Result<(), Fail> {
    let decoder = WINDOWS_1252.new_decoder_without_bom_handling();
    assert!(rt; decoder.encoding() == WINDOWS_1252);
    assert!(rt; !decoder.is_finished());
    assert!(rt; ISO_8859_8 != ISO_8859_8_I);
    let (empty, full) = (CoderResult::InputEmpty, CoderResult::OutputFull);
    assert!(rt; format!(in rt.alloc(); "{empty:?} {full:?}")?.as_str() == "InputEmpty OutputFull");
    Ok(())
}

// The README shows the first call.
#[test]
fn recodes_at_once(rt: HostRuntime) -> Result<(), Fail> {
    let (text, encoding, had_errors) = WINDOWS_1257.decode(rt.alloc(), b"abc\x80\xA1\xE4")?;
    assert!(rt; (text.as_str(), encoding, had_errors) == ("abc€\u{FFFD}ä", WINDOWS_1257, true));
    let (bytes, encoding, had_unmappables) = WINDOWS_1257.encode(rt.alloc(), "abc€ä日")?;
    assert!(rt; &bytes[..] == b"abc\x80\xE4&#26085;".as_slice());
    assert!(rt; (encoding, had_unmappables) == (WINDOWS_1257, true));
    Ok(())
}

#[test]
fn a_run_looks_for_marks(rt: HostRuntime) -> Result<(), Fail> {
    let calls = [DecodeCall {
        utf16: false,
        replace: true,
        offer: 1,
        room: 4,
    }; 4];
    for (handling, want) in [
        (BomHandling::Off, "ï»¿a"),
        (BomHandling::Sniff, "a"),
        (BomHandling::Remove, "ï»¿a"),
    ] {
        let bytes = b"\xEF\xBB\xBFa";
        let report = decode_run(rt.alloc(), WINDOWS_1252, handling, bytes, &calls)?;
        assert!(rt; report.finished && !report.had_errors);
        assert!(rt; report.text.as_bytes() == want.as_bytes());
        assert!(rt; (report.read, report.calls) == (4, 4));
    }
    Ok(())
}

#[test]
fn a_run_makes_its_calls(rt: HostRuntime) -> Result<(), Fail> {
    let bytes = &[0x61, 0xE2, 0x82, 0xAC, 0xFF];
    let call = |offer: usize, room: usize| DecodeCall {
        utf16: false,
        replace: true,
        offer,
        room,
    };
    let calls = [
        call(2, 4),
        call(1, 0),
        call(9, 2),
        call(9, 3),
        call(9, 9),
        call(9, 9),
    ];
    let report = decode_run(rt.alloc(), UTF_8, BomHandling::Off, bytes, &calls)?;
    assert!(rt; report.finished && report.had_errors);
    assert!(rt; report.text.as_bytes() == "a€\u{FFFD}".as_bytes());
    assert!(rt; (report.read, report.calls) == (5, 5));
    let report = decode_run(rt.alloc(), UTF_8, BomHandling::Off, bytes, &calls[..3])?;
    assert!(rt; !report.finished && !report.had_errors);
    assert!(rt; report.text.as_bytes() == b"a".as_slice());
    assert!(rt; report.read == 3);
    assert!(rt; format!(in rt.alloc(); "{:?}", RunError::Memory)?.as_str() == "Memory");
    Ok(())
}

/// A call without replacement that gets a byte, and has room for any character.
const ONE_BYTE: DecodeCall = DecodeCall {
    utf16: false,
    replace: false,
    offer: 1,
    room: 4,
};

#[test]
fn a_run_of_single_bytes_ends_within_its_calls(rt: HostRuntime) -> Result<(), Fail> {
    let bytes = b"\x810\x81\xFF";
    let report = decode_run(rt.alloc(), GB18030, BomHandling::Off, bytes, &[ONE_BYTE; 9])?;
    assert!(rt; report.text.as_str() == "\u{FFFD}0\u{FFFD}");
    assert!(rt; report.faults.as_slice() == [(0, 1), (2, 2)].as_slice());
    assert!(rt; (report.read, report.calls) == (4, 6));
    assert!(rt; report.finished && report.had_errors);
    Ok(())
}

#[test]
fn a_set_holds_what_was_put_in(rt: HostRuntime) -> Result<(), Fail> {
    let mut set = HashSet::new(rt.alloc());
    set.insert(UTF_8)?;
    set.insert(ISO_2022_JP)?;
    assert!(rt; set.contains(&UTF_8));
    assert!(rt; set.contains(&ISO_2022_JP));
    assert!(rt; !set.contains(&WINDOWS_1252));
    assert!(rt; set.remove(&ISO_2022_JP));
    assert!(rt; set.contains(&UTF_8));
    assert!(rt; !set.contains(&ISO_2022_JP));
    assert!(rt; set.len() == 1);
    Ok(())
}
