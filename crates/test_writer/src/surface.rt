//! The items of `enc_writer` and of `recode_engine`, each named by its path: a path that is gone,
//! or a signature that is another, fails the build. And the texts of their values and faults.

use enc_stream::Encoding;
use enc_stream::constants::*;
use enc_writer::{EncodeWriter, FromWrite, Sink, UnmappablePolicy, UnmappableStop, WriteFault};
use recode_engine::{BomHandling, FromRead, RecodeFault, Source, labels, run, run_part, status};
use std::io;
use std::io::ErrorKind;
use std::test::Fail;
use test_devices::{copied_text, debug_text, fault_text, text_of};

#[test]
fn faults_are_compared_and_printed(rt: HostRuntime) -> Result<(), Fail> {
    assert!(rt; (WriteFault::Writer as u8, WriteFault::Failed as u8) == (1, 2));
    for (fault, other, name, want) in [
        (
            WriteFault::Writer,
            WriteFault::Failed,
            "Writer",
            "write failed",
        ),
        (
            WriteFault::Failed,
            WriteFault::Writer,
            "Failed",
            "an earlier write failed",
        ),
    ] {
        let text = fault_text(rt.alloc(), (&fault, &other), name)?;
        assert!(rt; text.as_str() == want);
        let error = io::Error::from(fault);
        let text = text_of(rt.alloc(), &error)?;
        assert!(rt; error.kind() == ErrorKind::Other && text.as_str() == want);
    }
    Ok(())
}

#[test]
fn faults_of_a_run_are_compared_and_printed(rt: HostRuntime) -> Result<(), Fail> {
    assert!(rt; (RecodeFault::Read as u8, RecodeFault::Write as u8) == (1, 2));
    for (fault, other, name, want) in [
        (RecodeFault::Read, RecodeFault::Write, "Read", "read failed"),
        (
            RecodeFault::Write,
            RecodeFault::Read,
            "Write",
            "write failed",
        ),
    ] {
        let text = fault_text(rt.alloc(), (&fault, &other), name)?;
        assert!(rt; text.as_str() == want);
        let text = text_of(rt.alloc(), &io::Error::from(fault))?;
        assert!(rt; text.as_str() == want);
    }
    Ok(())
}

/// A stop before a character that is not mappable.
const STOP: UnmappableStop = UnmappableStop {
    character: 'é',
    taken: 2,
};

#[test]
fn values_are_printed(rt: HostRuntime) -> Result<(), Fail> {
    let other = UnmappableStop { taken: 3, ..STOP };
    let text = copied_text(rt.alloc(), STOP, other)?;
    assert!(rt; text.as_str() == "UnmappableStop { character: 'é', taken: 2 }");
    let (policy, other) = (UnmappablePolicy::HexReference, UnmappablePolicy::Ignore);
    let text = copied_text(rt.alloc(), policy, other)?;
    assert!(rt; text.as_str() == "HexReference");
    let mut written = Vec::new(rt.alloc());
    let mut sink = FromWrite::new(&mut written);
    let text = debug_text(rt.alloc(), &sink)?;
    assert!(rt; text.as_str() == "FromWrite { failed: false, error: None, .. }");
    let mut buffer = [0; 14];
    let mut writer = EncodeWriter::new(&mut sink, SHIFT_JIS, &mut buffer);
    assert!(rt; writer.write_str("é") == Ok(()));
    let text = debug_text(rt.alloc(), &writer)?;
    let fields = "held: 6, failed: false, had_unmappables: true, .. }";
    assert!(rt; text.as_str().starts_with("EncodeWriter { encoding: "));
    assert!(rt; text.as_str().ends_with(fields));
    Ok(())
}

#[test]
fn a_writer_writes_to_a_sink(rt: HostRuntime) {
    let mut written: Vec<u8> = Vec::new(rt.alloc());
    let mut sink: FromWrite<&mut Vec<u8>> = FromWrite::new(&mut written);
    let answer: Result<usize, ()> = sink.push(b"a");
    assert!(rt; answer == Ok(1));
    let answer: Result<(), ()> = sink.flush();
    assert!(rt; answer == Ok(()));
    let mut buffer = [0; 14];
    let mut writer: EncodeWriter<'_, FromWrite<&mut Vec<u8>>> = EncodeWriter::new(
        &mut sink,
        SHIFT_JIS,
        &mut buffer,
    );
    let encoding: Encoding = writer.encoding();
    assert!(rt; encoding == SHIFT_JIS);
    let answer: Result<Option<UnmappableStop>, WriteFault> = writer.write_str_without_replacement(
        "本",
    );
    assert!(rt; answer == Ok(None));
    let answers: [Result<(), WriteFault>; 5] = [
        writer.write_str("日"),
        writer.write_str_with("é", UnmappablePolicy::QuestionMark),
        writer.write_utf16(&[0xE9]),
        writer.push_held(),
        writer.flush(),
    ];
    for answer in answers {
        assert!(rt; answer == Ok(()));
    }
    let had: bool = writer.had_unmappables();
    let answers: [Result<bool, WriteFault>; 2] = [writer.end_text(), writer.finish()];
    for answer in answers {
        assert!(rt; had && answer == Ok(true));
    }
    let errors: [Option<io::Error>; 3] = [writer.error(), sink.error(), sink.take_error()];
    for error in errors {
        assert!(rt; error.is_none());
    }
    let has_failed: bool = sink.failed();
    assert!(rt; !has_failed);
    let inner: &mut Vec<u8> = sink.into_inner();
    assert!(rt; inner.as_slice() == b"a\x96\x7B\x93\xFA?&#233;".as_slice());
}

#[test]
fn a_run_recodes_and_has_a_status(rt: HostRuntime) {
    let mut written: Vec<u8> = Vec::new(rt.alloc());
    let mut sink = FromWrite::new(&mut written);
    let mut source = FromRead::new(b"\xE9".as_slice());
    let answer: Result<bool, RecodeFault> = run(&mut source, &mut sink, WINDOWS_1252, SHIFT_JIS);
    let exit: u8 = status(&answer);
    assert!(rt; answer == Ok(true) && exit == 1 && !source.failed());
    assert!(rt; status(&Ok(false)) == 0);
    assert!(rt; status(&Err(RecodeFault::Read)) == 3 && status(&Err(RecodeFault::Write)) == 3);
    let mut source = FromRead::new(b"\xEF\xBB\xBF".as_slice());
    let off: BomHandling = BomHandling::Off;
    let answer: Result<bool, RecodeFault> = run_part(&mut source, &mut sink, UTF_8, UTF_8, off);
    assert!(rt; answer == Ok(false));
    assert!(rt; written.as_slice() == b"&#233;\xEF\xBB\xBF".as_slice());
}

/// Labels that name no encoding, or none that a run takes.
#[rattlefmt::skip]
const UNKNOWN: &[(&str, &str)] = &[
    ("nonsense", "utf-8"), ("utf-8", "nonsense"), ("", "utf-8"), ("utf-8", ""),
    ("\u{B}utf-8", "utf-8"), ("utf-8x", "utf-8"), ("replacement", "utf-8"),
    ("utf-8", "replacement"), ("utf-8", "hz-gb-2312"),
];

#[test]
fn knows_labels(rt: HostRuntime) {
    let found: Option<(Encoding, Encoding)> = labels("utf-8", "utf-8");
    assert!(rt; found == Some((UTF_8, UTF_8)));
    assert!(rt; labels("\t Windows-1251\n", "UTF8") == Some((WINDOWS_1251, UTF_8)));
    assert!(rt; labels("latin1", "unicode") == Some((WINDOWS_1252, UTF_16LE)));
    assert!(rt; labels("sjis", "utf-16be") == Some((SHIFT_JIS, UTF_16BE)));
    assert!(rt; labels("utf-8", "x-sjis") == Some((UTF_8, SHIFT_JIS)));
    assert!(rt; labels("utf-8", "x-user-defined") == Some((UTF_8, X_USER_DEFINED)));
    for (from, to) in UNKNOWN {
        assert!(rt; labels(*from, *to) == None, "{from} {to}");
    }
}
