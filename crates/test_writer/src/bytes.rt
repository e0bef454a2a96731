//! Text that comes as bytes of UTF-8, cut anywhere. Decoded text is that of Python's codec.

use enc_stream::constants::{SHIFT_JIS, UTF_8};
use enc_writer::{EncodeWriter, FromWrite, Utf8Writer};
use std::io;
use std::io::{ErrorKind, Write};
use std::test::Fail;
use test_devices::{ALL_BYTES, Step, StepWriter, debug_text};

/// Bytes with malformed sequences, a byte order mark, and an incomplete sequence at the end.
const BYTES: &[u8] = b"a\xE9\xE6\x97\xA5\xE6\x97x\xF0\x9F\x98\x80\xED\xA0\x80\xEF\xBB\xBF\xF0\x9F";

/// Their text in Shift_JIS, with references.
const WRITTEN: &[u8] =
    b"a&#65533;\x93\xFA&#65533;x&#128512;&#65533;&#65533;&#65533;&#65279;&#65533;";

#[test]
fn bytes_are_decoded_wherever_they_are_cut(rt: HostRuntime) {
    for first in 0..=BYTES.len() {
        for second in first..=BYTES.len() {
            let mut written = Vec::new(rt.alloc());
            let mut sink = FromWrite::new(&mut written);
            let mut buffer = [0; 14];
            let writer = EncodeWriter::new(&mut sink, SHIFT_JIS, &mut buffer);
            let mut writer = Utf8Writer::new(writer);
            for part in [&BYTES[..first], &BYTES[first..second], &BYTES[second..]] {
                let outcome = writer.write(part);
                assert!(rt; outcome.is_ok_and(|n| n == part.len()));
                assert!(rt; writer.flush().is_ok());
            }
            assert!(rt; writer.finish().is_ok_and(|had| had));
            assert!(rt; written.as_slice() == WRITTEN, "{first} {second}");
        }
    }
}

#[test]
fn a_byte_order_mark_is_a_character(rt: HostRuntime) {
    let mut written = Vec::new(rt.alloc());
    let mut sink = FromWrite::new(&mut written);
    let mut buffer = [0; 14];
    let mut writer = Utf8Writer::new(EncodeWriter::new(&mut sink, UTF_8, &mut buffer));
    assert!(rt; writer.write(b"\xEF\xBB\xBFa").is_ok() && writer.finish().is_ok());
    assert!(rt; written.as_slice() == b"\xEF\xBB\xBFa".as_slice());
}

#[test]
fn copies_and_begins_anew(rt: HostRuntime) -> Result<(), Fail> {
    let mut written = Vec::new(rt.alloc());
    let mut sink = FromWrite::new(&mut written);
    let mut buffer = [0; 64];
    let mut writer = Utf8Writer::new(EncodeWriter::new(&mut sink, SHIFT_JIS, &mut buffer));
    let mut long = Vec::new(rt.alloc());
    for _ in 0..1000 {
        long.extend_from_slice("日本".as_bytes())?;
    }
    assert!(rt; io::copy(&mut long.as_slice(), &mut writer)? == 6000);
    assert!(rt; writer.write_all(b"\xE6").is_ok() && writer.finish().is_ok_and(|had| had));
    assert!(rt; write!(writer, "{}{}", '日', 1).is_ok());
    let text = debug_text(rt.alloc(), &writer)?;
    assert!(rt;
        text.as_str()
            .starts_with("Utf8Writer { writer: EncodeWriter { ")
    );
    let mut inner = writer.into_inner();
    assert!(rt; inner.finish() == Ok(true));
    assert!(rt; written.len() == 4000 + 8 + 3);
    assert!(rt; written.as_slice().starts_with(b"\x93\xFA\x96\x7B"));
    assert!(rt; written.as_slice().ends_with(b"&#65533;\x93\xFA1"));
    Ok(())
}

#[test]
fn an_error_is_the_cause(rt: HostRuntime) {
    let steps = [Step::FailWithMessage(ErrorKind::StorageFull), ALL_BYTES];
    let mut sink = FromWrite::new(StepWriter::new(rt.alloc(), &steps));
    let mut buffer = [0; 14];
    let mut writer = Utf8Writer::new(EncodeWriter::new(&mut sink, SHIFT_JIS, &mut buffer));
    assert!(rt; writer.write(b"a").is_ok_and(|n| n == 1));
    let full = Some(ErrorKind::StorageFull);
    assert!(rt; writer.flush().err().map(|e| e.kind()) == full);
    assert!(rt; writer.write(b"a").err().map(|e| e.kind()) == full);
    let end = writer.finish().err().and_then(|e| e.cause);
    assert!(rt; end.map(|e| e.kind()) == full);
}
