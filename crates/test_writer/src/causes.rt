//! Faults with their causes, and text by `write!`.

use enc_stream::constants::{SHIFT_JIS, WINDOWS_1252};
use enc_writer::{EncodeWriter, FromWrite, WriteError, WriteFault};
use std::fmt::Write;
use std::io;
use std::io::ErrorKind;
use std::test::Fail;
use test_devices::{FAULT, MESSAGE, Step, StepWriter, debug_text, text_of};

#[test]
fn a_fault_has_the_cause_that_the_sink_keeps(rt: HostRuntime) -> Result<(), Fail> {
    let steps = [Step::FailWithMessage(ErrorKind::StorageFull)];
    let mut sink = FromWrite::new(StepWriter::new(rt.alloc(), &steps));
    let mut buffer = [0; 14];
    let mut writer = EncodeWriter::new(&mut sink, SHIFT_JIS, &mut buffer);
    assert!(rt; writer.with_cause(WriteFault::Failed).cause.is_none());
    assert!(rt; writer.write_str("a") == Ok(()) && writer.push_held() == Err(WriteFault::Writer));
    let error: WriteError = writer.with_cause(WriteFault::Writer);
    assert!(rt; error.fault == WriteFault::Writer);
    assert!(rt; error.cause.map(|e| e.kind()) == Some(ErrorKind::StorageFull));
    let want = format!(in rt.alloc(); "write failed: {MESSAGE}")?;
    let text = text_of(rt.alloc(), &error)?;
    assert!(rt; text.as_str() == want.as_str(), "{text}");
    let io_error = io::Error::from(error);
    let text = text_of(rt.alloc(), &io_error)?;
    assert!(rt; io_error.kind() == ErrorKind::StorageFull && text.as_str() == MESSAGE);
    Ok(())
}

#[test]
fn a_fault_without_a_cause_is_printed_alone(rt: HostRuntime) -> Result<(), Fail> {
    let error = WriteError {
        fault: WriteFault::Failed,
        cause: None,
    };
    let text = text_of(rt.alloc(), &error)?;
    assert!(rt; text.as_str() == "an earlier write failed");
    let text = debug_text(rt.alloc(), &error)?;
    assert!(rt; text.as_str() == "WriteError { fault: Failed, cause: None }");
    let io_error = io::Error::from(error);
    let text = text_of(rt.alloc(), &io_error)?;
    assert!(rt; io_error.kind() == ErrorKind::Other);
    assert!(rt; text.as_str() == "an earlier write failed");
    Ok(())
}

/// The bytes of the text "é€x=日" in windows-1252, by Python, with a reference.
const FORMATTED: &[u8] = b"\xE9\x80x=&#26085;";

#[test]
fn formatted_text_is_written(rt: HostRuntime) {
    let mut written = Vec::new(rt.alloc());
    let mut sink = FromWrite::new(&mut written);
    let mut buffer = [0; 14];
    let mut writer = EncodeWriter::new(&mut sink, WINDOWS_1252, &mut buffer);
    assert!(rt; write!(writer, "é€{}={}", 'x', "日") == Ok(()));
    assert!(rt; writer.finish() == Ok(true));
    assert!(rt; written.as_slice() == FORMATTED);
}

#[test]
fn formatted_text_fails_with_the_sink(rt: HostRuntime) {
    let mut sink = FromWrite::new(StepWriter::new(rt.alloc(), &[FAULT]));
    let mut buffer = [0; 14];
    let mut writer = EncodeWriter::new(&mut sink, WINDOWS_1252, &mut buffer);
    assert!(rt; write!(writer, "{}", "a long text").is_err() || writer.finish().is_err());
    assert!(rt; write!(writer, "{}", "a").is_err());
    assert!(rt; writer.error().map(|e| e.kind()) == Some(ErrorKind::BrokenPipe));
}

/// The bytes that a sink over a `Vec` has are those of the `Vec`, with what it held before.
#[test]
fn a_sink_over_a_vec_appends(rt: HostRuntime) -> Result<(), Fail> {
    let mut written = b"old ".to_vec(rt.alloc())?;
    let mut sink = FromWrite::new(&mut written);
    let mut buffer = [0; 14];
    let mut writer = EncodeWriter::new(&mut sink, SHIFT_JIS, &mut buffer);
    assert!(rt; writer.write_str("日é") == Ok(()) && writer.finish() == Ok(true));
    assert!(rt; written.as_slice() == b"old \x93\xFA&#233;".as_slice());
    Ok(())
}
