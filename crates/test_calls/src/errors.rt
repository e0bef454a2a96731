//! Errors of one-shot calls and runs: as they are printed, and as `?` passes them on.

use encoding_rs::run::{BomHandling, DecodeCall, EncodeCall, RunError, decode_run, encode_run};
use encoding_rs::{OneShotError, SHIFT_JIS, UTF_8};
use std::alloc::{AllocError, Global};
use std::error::Error;
use std::io;
use std::io::ErrorKind;
use std::test::Fail;

/// Returns what is printed of an error.
fn printed<E: Error>(alloc: Global, error: &E) -> Result<String, Fail> {
    Ok(format!(in alloc; "{error}")?)
}

/// Fails with an error.
fn fails<E: Drop>(error: E) -> Result<(), E> {
    Err(error)
}

/// Passes the error of a one-shot call on.
fn passes_on(error: OneShotError) -> io::Result<()> {
    fails(error)?;
    Ok(())
}

/// Passes the error of a run on.
fn passes_run_on(error: RunError) -> io::Result<()> {
    fails(error)?;
    Ok(())
}

/// Passes a refusal of memory on, as that of a one-shot call.
fn refuses() -> Result<(), OneShotError> {
    fails(AllocError)?;
    Ok(())
}

/// Passes a refusal of memory on, as that of a run.
fn refuses_run() -> Result<(), RunError> {
    fails(AllocError)?;
    Ok(())
}

/// Decodes UTF-8 and encodes the text in Shift_JIS, with the errors of both calls as I/O errors.
fn recoded(alloc: Global, bytes: &[u8]) -> io::Result<Vec<u8>> {
    let (text, _, _) = UTF_8.decode(alloc, bytes)?;
    let (bytes, _, _) = SHIFT_JIS.encode(alloc, text.as_str())?;
    Ok(bytes)
}

/// Does the same by runs of one call each.
fn recoded_by_runs(alloc: Global, bytes: &[u8]) -> io::Result<Vec<u8>> {
    let decoding = DecodeCall {
        utf16: false,
        replace: true,
        offer: 16,
        room: 64,
    };
    let decoded = decode_run(alloc, UTF_8, BomHandling::Sniff, bytes, &[decoding])?;
    let encoding = EncodeCall {
        utf16: false,
        replace: true,
        offer: 16,
        room: 64,
    };
    let encoded = encode_run(alloc, SHIFT_JIS, decoded.text.as_str(), &[encoding])?;
    Ok(encoded.bytes)
}

#[test]
fn errors_are_printed_as_phrases(rt: HostRuntime) -> Result<(), Fail> {
    let text = printed(rt.alloc(), &OneShotError::Memory)?;
    assert!(rt; text.as_str() == "out of memory");
    let text = printed(rt.alloc(), &OneShotError::TooLong)?;
    assert!(rt; text.as_str() == "a length to allocate overflows usize");
    let text = printed(rt.alloc(), &RunError::Memory)?;
    assert!(rt; text.as_str() == "out of memory");
    Ok(())
}

#[test]
fn refused_memory_is_an_error_of_each_call(rt: HostRuntime) -> Result<(), Fail> {
    assert!(rt; refuses() == Err(OneShotError::Memory));
    assert!(rt; refuses_run() == Err(RunError::Memory));
    Ok(())
}

#[test]
fn errors_become_io_errors_of_their_kind(rt: HostRuntime) -> Result<(), Fail> {
    let Err(memory) = passes_on(OneShotError::Memory) else {
        return Err("an error is lost".into());
    };
    assert!(rt; memory.kind() == ErrorKind::OutOfMemory);
    let text = printed(rt.alloc(), &memory)?;
    assert!(rt; text.as_str() == "out of memory");
    let Err(too_long) = passes_on(OneShotError::TooLong) else {
        return Err("an error is lost".into());
    };
    assert!(rt; too_long.kind() == ErrorKind::InvalidInput);
    let text = printed(rt.alloc(), &too_long)?;
    assert!(rt; text.as_str() == "a length to allocate overflows usize");
    let Err(of_run) = passes_run_on(RunError::Memory) else {
        return Err("an error is lost".into());
    };
    assert!(rt; of_run.kind() == ErrorKind::OutOfMemory);
    Ok(())
}

#[test]
fn calls_stand_in_functions_with_io_errors(rt: HostRuntime) -> Result<(), Fail> {
    let want: &[u8] = b"\x93\xFA\x96\x7B";
    let bytes = recoded(rt.alloc(), "日本".as_bytes())?;
    assert!(rt; bytes.as_slice() == want);
    let bytes = recoded_by_runs(rt.alloc(), "日本".as_bytes())?;
    assert!(rt; bytes.as_slice() == want);
    Ok(())
}

#[test]
fn calls_and_reports_of_runs_are_printed(rt: HostRuntime) -> Result<(), Fail> {
    let call = DecodeCall {
        utf16: false,
        replace: false,
        offer: 9,
        room: 8,
    };
    let text = format!(in rt.alloc(); "{call:?}")?;
    let want = "DecodeCall { utf16: false, replace: false, offer: 9, room: 8 }";
    assert!(rt; text.as_str() == want);
    let report = decode_run(rt.alloc(), UTF_8, BomHandling::Off, b"a\xFF", &[call])?;
    let text = format!(in rt.alloc(); "{report:?}")?;
    let want = "DecodeReport { text: \"a\u{FFFD}\", read: 2, faults: [(1, 1)]";
    assert!(rt; text.as_str().starts_with(want));
    let call = EncodeCall {
        utf16: true,
        replace: true,
        offer: 9,
        room: 18,
    };
    let text = format!(in rt.alloc(); "{call:?}")?;
    let want = "EncodeCall { utf16: true, replace: true, offer: 9, room: 18 }";
    assert!(rt; text.as_str() == want);
    let report = encode_run(rt.alloc(), SHIFT_JIS, "aé", &[call])?;
    let text = format!(in rt.alloc(); "{report:?}")?;
    let want = "EncodeReport { bytes: [97, 38, 35, 50, 51, 51, 59], read: 2";
    assert!(rt; text.as_str().starts_with(want));
    Ok(())
}
