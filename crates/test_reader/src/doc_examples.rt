//! The examples that doc comments show, word for word. `scripts/documents --check` compares them.

use enc_reader::{DecodeReader, FromRead, Line, LineReader, MalformedPolicy};
use enc_stream::constants::{UTF_8, WINDOWS_1252};
use std::io::Error;
use std::test::Fail;

#[test]
fn reads_text(rt: HostRuntime) {
    let mut source = FromRead::new(b"\x93caf\xE9\x94".as_slice());
    let mut buffer = [0; 64];
    let mut reader = DecodeReader::new(&mut source, Some(WINDOWS_1252), &mut buffer);
    let mut text = [0; 64];
    assert!(rt; reader.read_str(&mut text) == Ok(11));
    assert!(rt; &text[..11] == "“café”".as_bytes());
    assert!(rt; reader.read_str(&mut text) == Ok(0));
}

#[test]
fn returns_text(rt: HostRuntime) -> Result<(), Fail> {
    let mut source = FromRead::new(b"\x93caf\xE9\x94".as_slice());
    let mut buffer = [0; 64];
    let mut reader = DecodeReader::new(&mut source, Some(WINDOWS_1252), &mut buffer);
    let mut room = [0; 64];
    let text = reader.read_text(&mut room)?;
    assert!(rt; text == "“café”");
    Ok(())
}

#[test]
fn returns_malformed_sequences(rt: HostRuntime) -> Result<(), Fail> {
    let mut source = FromRead::new(b"caf\xE9!".as_slice());
    let mut buffer = [0; 64];
    let mut reader = DecodeReader::new(&mut source, Some(UTF_8), &mut buffer);
    let mut room = [0; 64];
    let part = reader.read_text_without_replacement(&mut room)?;
    assert!(rt; part.text == "caf");
    let malformed = part.malformed.ok_or(Error::other("a byte is malformed"))?;
    assert!(rt; (malformed.offset(), malformed.bytes()) == (3, b"\xE9".as_slice()));
    Ok(())
}

#[test]
fn reads_lines_with_their_malformed_sequences(rt: HostRuntime) -> Result<(), Fail> {
    let mut source = FromRead::new(b"caf\xE9\n".as_slice());
    let mut buffer = [0; 64];
    let reader = DecodeReader::new(&mut source, Some(UTF_8), &mut buffer);
    let mut room = [0; 64];
    let mut lines = LineReader::new(reader, &mut room, MalformedPolicy::Escape);
    let mut line = Line::new(rt.alloc());
    assert!(rt; lines.read_line(&mut line)?);
    assert!(rt; line.text() == "caf\\xe9\n");
    for found in line.malformed() {
        let place = found.position();
        assert!(rt; (place.line(), place.column()) == (1, 4));
    }
    Ok(())
}
