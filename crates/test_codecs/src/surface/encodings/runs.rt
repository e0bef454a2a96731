//! `run`: lists of calls of a decoder or an encoder, and what they come to.

use crate::surface::derives::{are_equal, copies, debug_text, error_text};
use encoding_rs::run::{
    BomHandling, DecodeCall, DecodeReport, EncodeCall, EncodeReport, RunError, decode_run,
    encode_run, encode_run_barring,
};
use encoding_rs::{SHIFT_JIS, UTF_8, WINDOWS_1252};
use std::alloc::AllocError;
use std::io;
use std::test::Fail;

#[test]
fn errors_of_runs_are_compared_and_printed(rt: HostRuntime) -> Result<(), Fail> {
    assert!(rt; are_equal(&RunError::Memory, &RunError::Memory));
    assert!(rt; RunError::Memory as u8 == 1);
    let text = debug_text(rt.alloc(), &RunError::Memory)?;
    assert!(rt; text.as_str() == "Memory");
    let text = error_text(rt.alloc(), &RunError::Memory)?;
    assert!(rt; text.as_str() == "out of memory");
    assert!(rt; RunError::from(AllocError) == RunError::Memory);
    let kind = io::Error::from(RunError::Memory).kind();
    assert!(rt; kind == io::ErrorKind::OutOfMemory);
    Ok(())
}

#[test]
fn a_run_decodes_by_calls_of_each_kind(rt: HostRuntime) -> Result<(), Fail> {
    let call = DecodeCall {
        utf16: false,
        replace: false,
        offer: 2,
        room: 4,
    };
    let (first, second) = copies(call)?;
    let calls: [DecodeCall; 3] = [
        first,
        DecodeCall {
            utf16: true,
            ..second
        },
        DecodeCall { offer: 1, ..call },
    ];
    let answer: Result<DecodeReport, RunError> = decode_run(
        rt.alloc(),
        UTF_8,
        BomHandling::Off,
        b"\xE2\x82\xAC\xFF",
        &calls,
    );
    let report = answer?;
    assert!(rt; (report.text.as_str(), report.read) == ("€\u{FFFD}", 4));
    assert!(rt; report.faults.as_slice() == [(3, 1)].as_slice());
    assert!(rt; report.had_errors && report.finished);
    assert!(rt; (report.encoding, report.calls) == (UTF_8, 3));
    Ok(())
}

#[test]
fn a_run_looks_for_the_marks_that_it_is_given(rt: HostRuntime) -> Result<(), Fail> {
    let (sniff, _) = copies(encoding_rs::BomHandling::Sniff)?;
    let text = debug_text(rt.alloc(), &sniff)?;
    assert!(rt; text.as_str() == "Sniff");
    let call = DecodeCall {
        utf16: false,
        replace: true,
        offer: 8,
        room: 16,
    };
    for (handling, want) in [
        (BomHandling::Off, ("ï»¿a", WINDOWS_1252)),
        (sniff, ("a", UTF_8)),
        (BomHandling::Remove, ("ï»¿a", WINDOWS_1252)),
    ] {
        let report = decode_run(
            rt.alloc(),
            WINDOWS_1252,
            handling,
            b"\xEF\xBB\xBFa",
            &[call],
        )?;
        assert!(rt; (report.text.as_str(), report.encoding) == want);
    }
    Ok(())
}

#[test]
fn a_run_encodes_by_calls_of_each_kind(rt: HostRuntime) -> Result<(), Fail> {
    let call = EncodeCall {
        utf16: false,
        replace: false,
        offer: 2,
        room: 4,
    };
    let (first, second) = copies(call)?;
    let replacing = EncodeCall {
        utf16: true,
        replace: true,
        offer: 5,
        room: 11,
    };
    let calls: [EncodeCall; 3] = [first, replacing, second];
    let answer: Result<EncodeReport, RunError> = encode_run(rt.alloc(), SHIFT_JIS, "a💩b", &calls);
    let report = answer?;
    assert!(rt; report.bytes.as_slice() == b"a&#128169;b".as_slice());
    assert!(rt; (report.read, report.calls) == (3, 2));
    assert!(rt; report.unmappables.as_slice() == ['💩'].as_slice());
    assert!(rt; report.had_unmappables && report.finished);
    Ok(())
}

#[test]
fn a_run_bars_characters(rt: HostRuntime) -> Result<(), Fail> {
    let call = EncodeCall {
        utf16: false,
        replace: true,
        offer: 2,
        room: 18,
    };
    let answer: Result<EncodeReport, RunError> = encode_run_barring(
        rt.alloc(),
        UTF_8,
        &['💩'],
        "a💩",
        &[call],
    );
    let report = answer?;
    assert!(rt; report.bytes.as_slice() == b"a&#128169;".as_slice());
    assert!(rt; report.unmappables.len() == 0);
    assert!(rt; report.had_unmappables && report.finished);
    Ok(())
}
