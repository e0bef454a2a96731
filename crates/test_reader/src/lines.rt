//! Lines of text from a `DecodedText`, and the same text by the traits of `std`.

use enc_reader::{DecodeReader, DecodedText, FromRead, LineError, LineFault, Source};
use enc_stream::constants::{SHIFT_JIS, WINDOWS_1252};
use std::io::{BufRead, Read};
use std::test::Fail;
use test_devices::{BYTE, FAULT, StepReader};

/// Reads a line, without the cause of a fault.
fn read_line<R: Source>(
    text: &mut DecodedText<'_, R>,
    line: &mut String,
) -> Result<usize, LineFault> {
    text.read_line(line).map_err(|error| error.into_fault())
}

#[test]
fn long_lines_take_memory_as_short_ones_do(rt: HostRuntime) -> Result<(), Fail> {
    // more than the buffers have, and than 64 KiB and 100,000 bytes
    for len in [5000, 70_000, 250_000] {
        let mut bytes = Vec::new(rt.alloc());
        bytes.resize(len, b'x')?;
        bytes.push(b'\n')?;
        let mut input = [0; 300_000];
        // lent in one piece too
        for room in [4096, 300_000] {
            let mut source = FromRead::new(bytes.as_slice());
            let part = &mut input[..room];
            let reader = DecodeReader::new(&mut source, Some(WINDOWS_1252), part);
            let mut room = [0; 4096];
            let mut text = DecodedText::new(reader, &mut room);
            let mut line = String::new(rt.alloc());
            assert!(rt; read_line(&mut text, &mut line) == Ok(bytes.len()));
            assert!(rt; line.as_bytes() == bytes.as_slice());
            assert!(rt; read_line(&mut text, &mut line) == Ok(0) && !text.reader().had_errors());
        }
    }
    Ok(())
}

#[test]
fn lines_are_appended_and_go_on_after_refused_memory(rt: HostRuntime) -> Result<(), Fail> {
    let mut source = FromRead::new(b"a\n\xC3\n\xC3\xA9 va\n".as_slice());
    let mut input = [0; 2];
    let reader = DecodeReader::new(&mut source, None, &mut input);
    let mut room = [0; 4];
    let mut text = DecodedText::new(reader, &mut room);
    let mut line = String::new(rt.alloc());
    for _ in 0..100 {
        match read_line(&mut text, &mut line) {
            Ok(0) => break,
            Ok(_) => assert!(rt; line.as_str().ends_with('\n')),
            Err(LineFault::Memory) => {}
            Err(_) => return Err("the text can't be read".into()),
        }
        // what was malformed is remembered
        assert!(rt; text.reader().had_errors() == (line.len() > 2));
    }
    assert!(rt; line.as_str() == "a\n\u{FFFD}\né va\n");
    Ok(())
}

#[test]
fn gives_its_lines_and_text_to_std(rt: HostRuntime) -> Result<(), Fail> {
    let bytes = b"\x93\xFA\r\n\n\x96\x7B".as_slice();
    let mut source = FromRead::new(StepReader::new(bytes, &[BYTE]));
    let mut input = [0; 4];
    let reader = DecodeReader::new(&mut source, Some(SHIFT_JIS), &mut input);
    let mut room = [0; 4];
    let text = DecodedText::new(reader, &mut room);
    let mut lines = text.lines(rt.alloc());
    for want in ["日", "", "本"] {
        let Some(Ok(line)) = lines.next() else {
            return Err("no line".into());
        };
        assert!(rt; line.as_str() == want);
    }
    assert!(rt; lines.next().is_none());
    let mut source = FromRead::new(StepReader::new(bytes, &[BYTE]));
    let mut input = [0; 4];
    let reader = DecodeReader::new(&mut source, Some(SHIFT_JIS), &mut input);
    let mut room = [0; 4];
    let mut text = DecodedText::new(reader, &mut room);
    let mut all = String::new(rt.alloc());
    assert!(rt; text.read_to_string(&mut all)? == 9);
    assert!(rt; all.as_str() == "日\r\n\n本");
    Ok(())
}

#[test]
fn a_line_has_whole_characters(rt: HostRuntime) -> Result<(), Fail> {
    let mut source = FromRead::new("é\nab".as_bytes());
    let mut input = [0; 8];
    let reader = DecodeReader::new(&mut source, None, &mut input);
    let mut room = [0; 8];
    let mut text: DecodedText<'_, FromRead<&[u8]>> = DecodedText::new(reader, &mut room);
    assert!(rt; text.read(&mut [0; 1])? == 1);
    let mut line = String::new(rt.alloc());
    let answer: Result<usize, LineError> = text.read_line(&mut line);
    assert!(rt; answer.map_err(|e| e.into_fault()) == Err(LineFault::MidCharacter));
    assert!(rt; text.fill_text().err().map(|e| e.into_fault()) == Some(LineFault::MidCharacter));
    assert!(rt; text.fill_buf()? == b"\xA9\nab".as_slice());
    text.consume(1);
    assert!(rt; read_line(&mut text, &mut line) == Ok(1));
    text.consume(7);
    assert!(rt; read_line(&mut text, &mut line) == Ok(0));
    assert!(rt; line.as_str() == "\n");
    Ok(())
}

#[test]
fn no_room_is_no_read(rt: HostRuntime) -> Result<(), Fail> {
    let mut source = FromRead::new(StepReader::new(b"ab", &[BYTE, FAULT]));
    let mut input = [0; 4];
    let reader = DecodeReader::new(&mut source, Some(WINDOWS_1252), &mut input);
    let mut room = [0; 4];
    let mut text = DecodedText::new(reader, &mut room);
    assert!(rt; text.read(&mut [])? == 0);
    assert!(rt; text.read(&mut [0; 1])? == 1);
    assert!(rt; text.read(&mut [])? == 0);
    assert!(rt; source.into_inner().calls == 1);
    Ok(())
}

#[test]
fn shows_text_until_it_is_consumed(rt: HostRuntime) -> Result<(), Fail> {
    let bytes = b"\x93\xFA\n\x96\x7B\x81".as_slice();
    let mut source = FromRead::new(StepReader::new(bytes, &[BYTE]));
    let mut input = [0; 4];
    let reader = DecodeReader::new(&mut source, Some(SHIFT_JIS), &mut input);
    let mut room = [0; 4];
    let mut text = DecodedText::new(reader, &mut room);
    for want in ["日", "\n", "本", "\u{FFFD}"] {
        for _ in 0..2 {
            assert!(rt; text.fill_text()? == want);
        }
        text.consume(want.len());
    }
    assert!(rt; text.fill_text()?.is_empty());
    Ok(())
}

#[test]
fn shows_what_is_left_of_a_text(rt: HostRuntime) -> Result<(), Fail> {
    let mut source = FromRead::new("né.".as_bytes());
    let mut input = [0; 8];
    let reader = DecodeReader::new(&mut source, None, &mut input);
    let mut room = [0; 8];
    let mut text = DecodedText::new(reader, &mut room);
    for (want, len) in [("né.", 1), ("é.", 2), (".", 1), ("", 0)] {
        assert!(rt; text.fill_text()? == want);
        text.consume(len);
    }
    Ok(())
}
