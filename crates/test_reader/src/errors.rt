//! Reads of a source, the error for which it has failed, and how that comes to callers.

use enc_reader::{DecodeReader, DecodedText, FromRead, LineError, LineFault, ReadFault, Source};
use enc_stream::constants::WINDOWS_1252;
use std::io;
use std::io::{BufRead, ErrorKind, Read};
use std::test::Fail;
use test_devices::{
    ALL_BYTES, BYTE, FAULT, INTERRUPTED, KINDS, MESSAGE, NOTHING, Step, StepReader, message_of,
    steps_but, text_of,
};

#[test]
fn a_pull_reads_once(rt: HostRuntime) {
    for second in [BYTE, ALL_BYTES, FAULT, INTERRUPTED, NOTHING] {
        let steps = [BYTE, second];
        let mut source = FromRead::new(StepReader::new(b"abc", &steps));
        let mut buf = [0; 4];
        assert!(rt; source.pull(&mut buf) == Ok(1) && buf == [b'a', 0, 0, 0]);
        assert!(rt; !source.failed() && source.error().is_none());
        assert!(rt; source.into_inner().calls == 1);
    }
}

#[test]
fn a_read_is_made_again_after_many_interruptions(rt: HostRuntime) -> Result<(), Fail> {
    let steps = steps_but(rt.alloc(), &[INTERRUPTED], 1001, ALL_BYTES)?;
    let mut source = FromRead::new(StepReader::new(b"ab", &steps));
    assert!(rt; source.pull(&mut [0; 4]) == Ok(2));
    assert!(rt; !source.failed() && source.error().is_none());
    assert!(rt; source.into_inner().calls == 1001);
    Ok(())
}

#[test]
fn a_read_fails_at_once_and_its_error_is_kept_whole(rt: HostRuntime) -> Result<(), Fail> {
    for kind in KINDS {
        let steps = [Step::FailWithMessage(kind), ALL_BYTES];
        let mut source = FromRead::new(StepReader::new(b"ab", &steps));
        assert!(rt; source.error().is_none() && source.take_error().is_none());
        assert!(rt; source.pull(&mut [0; 4]) == Err(()));
        assert!(rt; source.error().map(|e| e.kind()) == Some(kind));
        let text = message_of(rt.alloc(), source.error())?;
        assert!(rt; text.as_str() == MESSAGE);
        let text = message_of(rt.alloc(), source.take_error())?;
        assert!(rt; text.as_str() == MESSAGE);
        assert!(rt; source.failed() && source.error().is_none());
        assert!(rt; source.into_inner().calls == 1);
    }
    Ok(())
}

#[test]
fn std_gets_the_error_of_the_source(rt: HostRuntime) -> Result<(), Fail> {
    for kind in KINDS {
        let steps = [BYTE, Step::FailWithMessage(kind), ALL_BYTES];
        let mut source = FromRead::new(StepReader::new(b"ab", &steps));
        let mut input = [0; 4];
        let reader = DecodeReader::new(&mut source, Some(WINDOWS_1252), &mut input);
        let mut room = [0; 4];
        let mut text = DecodedText::new(reader, &mut room);
        assert!(rt; text.fill_buf()? == b"a".as_slice());
        assert!(rt; text.reader().error().is_none());
        text.consume(1);
        // the first error, and the same in each later call
        let Err(error) = text.fill_buf() else {
            return Err("no error".into());
        };
        assert!(rt; error.kind() == kind);
        let printed = text_of(rt.alloc(), &error)?;
        assert!(rt; printed.as_str() == MESSAGE);
        for _ in 0..2 {
            assert!(rt; text.read(&mut [0; 4]).err().map(|e| e.kind()) == Some(kind));
        }
        let mut line = String::new(rt.alloc());
        let Err(error) = text.read_line(&mut line) else {
            return Err("no error".into());
        };
        assert!(rt; *error.fault() == LineFault::Read(ReadFault::Failed));
        assert!(rt; error.cause().map(|e| e.kind()) == Some(kind));
        let printed = text_of(rt.alloc(), &error)?;
        assert!(rt; printed.as_str().ends_with(MESSAGE));
        let error = io::Error::from(error);
        assert!(rt; error.kind() == kind);
        let printed = text_of(rt.alloc(), &error)?;
        assert!(rt; printed.as_str() == MESSAGE);
        let printed = message_of(rt.alloc(), text.reader().error())?;
        assert!(rt; printed.as_str() == MESSAGE);
    }
    Ok(())
}

/// A source that fails at once, and keeps no error.
#[derive(Drop)]
struct Broken {
    failed: bool,
}

impl Source for Broken {
    ghost use Rattle.std.specs.Prelude.{None};

    ghost remaining = { λ _. None };

    ghost has_failed = { λ source. source.failed };

    fn pull(&mut self, _buf: &mut [u8]) -> Result<usize, ()> {
        self.failed = true;
        Err(())
    }

    fn failed(&self) -> bool {
        self.failed
    }
}

#[test]
fn a_source_that_keeps_no_error_has_one_for_std(rt: HostRuntime) -> Result<(), Fail> {
    let mut source = Broken { failed: false };
    let mut input = [0; 4];
    let reader = DecodeReader::new(&mut source, Some(WINDOWS_1252), &mut input);
    let mut room = [0; 4];
    let mut text = DecodedText::new(reader, &mut room);
    assert!(rt; text.reader().error().is_none());
    for want in [
        "the source of the text failed",
        "the reader of the text has failed before",
    ] {
        let error: Option<io::Error> = text.read(&mut [0; 4]).err();
        assert!(rt; error.map(|e| e.kind()) == Some(ErrorKind::Other));
        let printed = message_of(rt.alloc(), error)?;
        assert!(rt; printed.as_str() == want);
    }
    Ok(())
}

/// What follows the text of a fault whose cause has [`MESSAGE`].
const CAUSE: &str = ": 9 of 10 blocks";

#[test]
fn an_error_has_its_cause(rt: HostRuntime) -> Result<(), Fail> {
    let steps = [
        BYTE,
        Step::FailWithMessage(ErrorKind::NotADirectory),
        ALL_BYTES,
    ];
    let mut source = FromRead::new(StepReader::new(b"ab", &steps));
    let mut input = [0; 4];
    let mut reader = DecodeReader::new(&mut source, Some(WINDOWS_1252), &mut input);
    let mut room = [0; 4];
    assert!(rt; reader.read_text(&mut room)? == "a");
    for fault in [ReadFault::Reader, ReadFault::Failed] {
        let Err(error) = reader.read_text(&mut room) else {
            return Err("no error".into());
        };
        assert!(rt; *error.fault() == fault);
        let reason = text_of(rt.alloc(), &fault)?;
        let printed = text_of(rt.alloc(), &error)?;
        assert!(rt; printed.as_str().strip_prefix(reason.as_str()) == Some(CAUSE));
        let printed = text_of(rt.alloc(), &LineError::from(error))?;
        assert!(rt; printed.as_str().strip_prefix(reason.as_str()) == Some(CAUSE));
    }
    let Err(error) = reader.read_text_without_replacement(&mut room) else {
        return Err("no error".into());
    };
    let error = io::Error::from(error);
    assert!(rt; error.kind() == ErrorKind::NotADirectory);
    let printed = text_of(rt.alloc(), &error)?;
    assert!(rt; printed.as_str() == MESSAGE);
    Ok(())
}

#[test]
fn an_error_of_a_source_that_keeps_none_is_its_fault(rt: HostRuntime) -> Result<(), Fail> {
    let mut source = Broken { failed: false };
    let mut input = [0; 4];
    let mut reader = DecodeReader::new(&mut source, Some(WINDOWS_1252), &mut input);
    let mut room = [0; 4];
    let Err(error) = reader.read_text(&mut room) else {
        return Err("no error".into());
    };
    assert!(rt; error.cause().is_none());
    let printed = text_of(rt.alloc(), &error)?;
    assert!(rt; printed.as_str() == "the source of the text failed");
    let error = io::Error::from(error);
    assert!(rt; error.kind() == ErrorKind::Other);
    let printed = text_of(rt.alloc(), &error)?;
    assert!(rt; printed.as_str() == "the source of the text failed");
    Ok(())
}
