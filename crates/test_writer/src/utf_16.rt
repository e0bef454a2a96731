//! Text that is written in UTF-16. The bytes are those of Python's codecs.

use enc_writer::ByteOrder::{BigEndian, LittleEndian};
use enc_writer::{ByteOrder, FromWrite, Sink, Utf16Writer, WriteFault};
use std::fmt::Write;
use std::io::ErrorKind;
use std::test::Fail;
use test_devices::{BYTE, FAULT, NOTHING, StepWriter, copied_text, debug_text, steps_but, text_of};

/// Texts, and their bytes in UTF-16LE and in UTF-16BE.
#[rattlefmt::skip]
const TEXTS: &[(&str, &[u8], &[u8])] = &[
    ("", b"", b""),
    ("aé日😀\u{0}\u{FFFF}", b"a\0\xE9\0\xE5e=\xD8\0\xDE\0\0\xFF\xFF",
        b"\0a\0\xE9e\xE5\xD8=\xDE\0\0\0\xFF\xFF"),
    ("é😀", b"\xE9\0=\xD8\0\xDE", b"\0\xE9\xD8=\xDE\0"),
    ("\u{FEFF}a", b"\xFF\xFEa\0", b"\xFE\xFF\0a"),
];

#[test]
fn texts_have_the_bytes_of_their_code_units(rt: HostRuntime) {
    for (text, little, big) in TEXTS {
        for (order, bytes) in [(LittleEndian, little), (BigEndian, big)] {
            for room in [4, 5, 6, 64] {
                let mut written = Vec::new(rt.alloc());
                let mut sink = FromWrite::new(&mut written);
                let mut buffer = [0; 64];
                let mut writer = Utf16Writer::new(&mut sink, order, &mut buffer[..room]);
                assert!(rt; writer.write_str(*text) == Ok(()) && writer.finish() == Ok(()));
                assert!(rt; written.as_slice() == *bytes, "{text}");
            }
        }
    }
}

#[test]
fn a_byte_order_mark_stands_first(rt: HostRuntime) {
    for (order, bytes) in [
        (LittleEndian, b"\xFF\xFEa\0b\0".as_slice()),
        (BigEndian, b"\xFE\xFF\0a\0b".as_slice()),
    ] {
        let mut written = Vec::new(rt.alloc());
        let mut sink = FromWrite::new(&mut written);
        let mut buffer = [0; 4];
        let mut writer = Utf16Writer::with_bom(&mut sink, order, &mut buffer);
        assert!(rt; writer.byte_order() == order);
        assert!(rt; write!(writer, "a{}", 'b') == Ok(()) && writer.flush() == Ok(()));
        assert!(rt; writer.finish() == Ok(()) && !writer.into_sink().failed());
        assert!(rt; written.as_slice() == bytes);
    }
}

/// A long text is written as its parts are, at each length of a part.
#[test]
fn a_long_text_is_the_bytes_of_its_characters(rt: HostRuntime) -> Result<(), Fail> {
    let mut text = String::new(rt.alloc());
    let mut bytes = Vec::new(rt.alloc());
    for _ in 0..700 {
        text.push_str(TEXTS[1].0)?;
        bytes.extend_from_slice(TEXTS[1].2)?;
    }
    for room in [4, 1022, 1023, 4096] {
        let mut written = Vec::new(rt.alloc());
        let mut sink = FromWrite::new(&mut written);
        let mut buffer = [0; 4096];
        let mut writer = Utf16Writer::new(&mut sink, BigEndian, &mut buffer[..room]);
        assert!(rt; writer.write_str(text.as_str()) == Ok(()) && writer.finish() == Ok(()));
        assert!(rt; written.as_slice() == bytes.as_slice(), "{room}");
    }
    Ok(())
}

#[test]
fn each_push_fails_in_turn(rt: HostRuntime) -> Result<(), Fail> {
    let (text, _, bytes) = TEXTS[1];
    for nth in 1..=bytes.len() {
        for fault in [FAULT, NOTHING] {
            let steps = steps_but(rt.alloc(), &[BYTE], nth, fault)?;
            let mut sink = FromWrite::new(StepWriter::new(rt.alloc(), &steps));
            let mut buffer = [0; 4];
            let mut writer = Utf16Writer::new(&mut sink, BigEndian, &mut buffer);
            let first = writer.write_str(text);
            let end = writer.finish();
            assert!(rt; first == Ok(()) || first == Err(WriteFault::Writer));
            assert!(rt; end.is_err() && writer.flush() == Err(WriteFault::Failed));
            assert!(rt; writer.write_str("a") == Err(WriteFault::Failed));
            assert!(rt; writer.finish() == Err(WriteFault::Failed) && writer.error().is_some());
            let device = sink.into_inner();
            assert!(rt; device.calls == nth && device.taken.as_slice() == &bytes[..nth - 1]);
        }
    }
    Ok(())
}

#[test]
fn a_failed_flush_has_its_cause(rt: HostRuntime) -> Result<(), Fail> {
    let steps = [FAULT];
    let mut sink = FromWrite::new(StepWriter::with_flushes(rt.alloc(), &[], &steps));
    let mut buffer = [0; 4];
    let mut writer = Utf16Writer::new(&mut sink, LittleEndian, &mut buffer);
    assert!(rt; writer.write_str("a") == Ok(()) && writer.flush() == Err(WriteFault::Writer));
    let error = writer.with_cause(WriteFault::Writer);
    assert!(rt; error.fault == WriteFault::Writer);
    assert!(rt; error.cause.map(|e| e.kind()) == Some(ErrorKind::BrokenPipe));
    let text = text_of(rt.alloc(), &error)?;
    assert!(rt; text.as_str().starts_with("write failed: "));
    assert!(rt; write!(writer, "a").is_err());
    let text = debug_text(rt.alloc(), &writer)?;
    let want = "Utf16Writer { order: LittleEndian, held: 0, failed: true, .. }";
    assert!(rt; text.as_str() == want, "{text}");
    let text = copied_text(rt.alloc(), ByteOrder::LittleEndian, BigEndian)?;
    assert!(rt; text.as_str() == "LittleEndian");
    Ok(())
}
