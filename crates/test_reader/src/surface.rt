//! The items of `enc_reader`, each named by its path: a path that is gone, or a signature that is
//! another, fails the build (those of a `DecodedText` are in `lines`). And the texts of its values
//! and faults.

use enc_reader::{
    DecodeReader, FromRead, HandedText, LineFault, ReadError, ReadFault, ReadStop, Source, TextPart,
};
use enc_stream::constants::UTF_8;
use enc_stream::{BomHandling, Encoding};
use std::io;
use std::io::ErrorKind;
use std::test::Fail;
use test_devices::{copied_text, debug_text, fault_text, text_of};

#[test]
fn faults_are_compared_and_printed(rt: HostRuntime) -> Result<(), Fail> {
    assert!(rt; (ReadFault::Reader as u8, ReadFault::Failed as u8) == (1, 2));
    let faults = (&ReadFault::Failed, &ReadFault::Reader);
    let text = fault_text(rt.alloc(), faults, "Failed")?;
    assert!(rt; text.as_str() == "the reader of the text has failed before");
    let error: io::Error = io::Error::from(ReadFault::Failed);
    assert!(rt; error.kind() == ErrorKind::Other);
    let text = text_of(rt.alloc(), &error)?;
    assert!(rt; text.as_str() == "the reader of the text has failed before");
    let rows = [
        (
            LineFault::from(ReadFault::Reader),
            "Read(Reader)",
            ErrorKind::Other,
        ),
        (LineFault::Memory, "Memory", ErrorKind::OutOfMemory),
        (
            LineFault::MidCharacter,
            "MidCharacter",
            ErrorKind::InvalidData,
        ),
    ];
    let texts = [
        "the source of the text failed",
        "out of memory",
        "a part of a character is taken",
    ];
    for ((fault, name, kind), want) in rows.into_iter().zip(texts) {
        let other = LineFault::Read(ReadFault::Failed);
        let text = fault_text(rt.alloc(), (&fault, &other), name)?;
        assert!(rt; text.as_str() == want && io::Error::from(fault).kind() == kind);
    }
    Ok(())
}

/// A stop at a malformed sequence.
const STOP: ReadStop = ReadStop::Malformed {
    written: 3,
    offset: 3,
    len: 1,
};

#[test]
fn values_are_printed(rt: HostRuntime) -> Result<(), Fail> {
    let text = copied_text(rt.alloc(), STOP, ReadStop::Text(3))?;
    assert!(rt; text.as_str() == "Malformed { written: 3, offset: 3, len: 1 }");
    let mut source = FromRead::new(b"a".as_slice());
    let text = debug_text(rt.alloc(), &source)?;
    assert!(rt; text.as_str() == "FromRead { failed: false, error: None, .. }");
    let mut input = [0; 8];
    let reader = DecodeReader::new(&mut source, None, &mut input);
    let text = debug_text(rt.alloc(), &reader)?;
    let fields = "ended: false, failed: false, had_errors: false, .. }";
    assert!(rt; text.as_str().starts_with("DecodeReader { encoding: "));
    assert!(rt; text.as_str().ends_with(fields));
    Ok(())
}

#[test]
fn a_source_gives_bytes_and_a_reader_text(rt: HostRuntime) -> Result<(), Fail> {
    let mut source: FromRead<&[u8]> = FromRead::new(b"abc\xEF\xBB\xBF\xFF".as_slice());
    let mut buf: [u8; 3] = [0; 3];
    let answer: Result<usize, ()> = source.pull(&mut buf);
    assert!(rt; answer == Ok(3) && buf.as_slice() == b"abc".as_slice());
    let has_failed: bool = source.failed();
    let error: Option<io::Error> = source.error();
    assert!(rt; !has_failed && error.is_none());
    let mut input: [u8; 8] = [0; 8];
    let off: BomHandling = BomHandling::Off;
    let mut reader = DecodeReader::with_bom_handling(&mut source, UTF_8, off, &mut input);
    let (encoding, had_errors): (Encoding, bool) = (reader.encoding(), reader.had_errors());
    assert!(rt; (encoding, had_errors) == (UTF_8, false));
    let mut dst: [u8; 4] = [0; 4];
    let stop: Result<ReadStop, ReadFault> = reader.read_str_without_replacement(&mut dst);
    assert!(rt; stop == Ok(STOP));
    let answer: Result<usize, ReadFault> = reader.read_str(&mut dst);
    assert!(rt; answer == Ok(0));
    let answer: Result<HandedText, ReadFault> = reader.read_or_lend(&mut dst);
    let Ok(handed) = answer else {
        return Err("the source can't be read".into());
    };
    let text: &str = reader.text(&dst, handed);
    assert!(rt; text.is_empty());
    let text: Result<&str, ReadError> = reader.read_text(&mut dst);
    assert!(rt; text.is_ok_and(|text| text.is_empty()));
    let part: Result<TextPart<'_>, ReadError> = reader.read_text_without_replacement(&mut dst);
    assert!(rt; part.is_ok_and(|part| part.text.is_empty() && part.malformed.is_none()));
    let error: Option<io::Error> = reader.error();
    assert!(rt; error.is_none());
    let error: Option<io::Error> = source.take_error();
    let rest: &[u8] = source.into_inner();
    assert!(rt; error.is_none() && rest.is_empty());
    Ok(())
}
