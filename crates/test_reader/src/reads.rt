//! Reads of a `DecodeReader`, one after another: with replacement and without.

use enc_reader::{DecodeReader, FromRead, MalformedSequence, ReadFault, ReadStop, Source};
use enc_stream::constants::{
    GB18030, ISO_2022_JP, REPLACEMENT, SHIFT_JIS, UTF_8, UTF_16LE, WINDOWS_1252,
};
use enc_stream::{BomHandling, Encoding};
use std::process::Abort;
use std::test::Fail;
use test_devices::{BYTE, FAULT, Step, StepReader};

/// Reads once, into a buffer of four bytes: it begins with `text` then.
fn compare_read<R: Source>(rt: &impl Abort, reader: &mut DecodeReader<'_, R>, text: &str) {
    let mut part = [0; 4];
    assert!(rt; reader.read_str(&mut part) == Ok(text.len()));
    assert!(rt; part.as_slice().starts_with(text.as_bytes()), "{text}");
}

#[test]
fn reads_after_a_mark_in_parts(rt: HostRuntime) {
    let steps = [BYTE, BYTE, BYTE, Step::Move(2), BYTE];
    let mut source = FromRead::new(StepReader::new(b"\xEF\xBB\xBF\xE2\x82\xAC", &steps));
    let mut input = [0; 4];
    let mut reader = DecodeReader::new(&mut source, Some(WINDOWS_1252), &mut input);
    assert!(rt; reader.encoding() == WINDOWS_1252);
    for text in ["€", "", ""] {
        compare_read(&rt, &mut reader, text);
    }
    assert!(rt; (reader.encoding(), reader.had_errors()) == (UTF_8, false));
}

/// Inputs, and the texts of three reads, the first of which has a malformed sequence or none.
const REPLACED: &[(&[u8], [&str; 3], bool)] = &[
    (b"a\xFFb", ["a\u{FFFD}", "b", ""], true),
    (b"\xEF\xBF\xBD", ["\u{FFFD}", "", ""], false),
];

#[test]
fn reads_what_is_malformed(rt: HostRuntime) {
    for (bytes, texts, is_malformed) in REPLACED {
        let mut source = FromRead::new(StepReader::new(*bytes, &[]));
        let mut input = [0; 8];
        let mut reader = DecodeReader::new(&mut source, None, &mut input);
        assert!(rt; !reader.had_errors());
        for text in *texts {
            compare_read(&rt, &mut reader, text);
            assert!(rt; reader.had_errors() == *is_malformed);
        }
        assert!(rt; reader.encoding() == UTF_8);
        // it was read once for the text and once for the end
        assert!(rt; source.into_inner().calls == 2);
    }
}

#[test]
fn reports_a_fault_once(rt: HostRuntime) {
    let mut source = FromRead::new(StepReader::new(b"a\xFFbc", &[BYTE, BYTE, FAULT, BYTE]));
    let mut input = [0; 8];
    let mut reader = DecodeReader::new(&mut source, None, &mut input);
    compare_read(&rt, &mut reader, "a");
    compare_read(&rt, &mut reader, "\u{FFFD}");
    assert!(rt; reader.read_str(&mut [0; 4]) == Err(ReadFault::Reader));
    assert!(rt; reader.read_str(&mut [0; 4]) == Err(ReadFault::Failed));
    let mut dst = [b'.'; 4];
    assert!(rt; reader.read_str_without_replacement(&mut dst) == Err(ReadFault::Failed));
    assert!(rt; reader.read_or_lend(&mut dst).is_err() && dst == [b'.'; 4]);
    assert!(rt; (reader.encoding(), reader.had_errors()) == (UTF_8, true));
    assert!(rt; source.failed());
    // no read is tried again
    assert!(rt; source.into_inner().calls == 3);
}

#[test]
fn has_failed_over_a_source_that_has(rt: HostRuntime) {
    let mut source = FromRead::new(StepReader::new(b"ab", &[FAULT, BYTE]));
    assert!(rt; source.pull(&mut [0; 4]) == Err(()));
    let mut input = [0; 8];
    let mut reader = DecodeReader::new(&mut source, None, &mut input);
    assert!(rt; reader.read_str(&mut [0; 4]) == Err(ReadFault::Failed));
    assert!(rt; source.into_inner().calls == 1);
}

#[test]
fn reads_to_the_end_of_what_has_no_text(rt: HostRuntime) {
    let bytes = [0x61; 1200];
    let mut source = FromRead::new(StepReader::new(&bytes, &[BYTE]));
    let mut input = [0; 8];
    let mut reader = DecodeReader::new(&mut source, Some(REPLACEMENT), &mut input);
    compare_read(&rt, &mut reader, "\u{FFFD}");
    compare_read(&rt, &mut reader, "");
    // once for each byte, and for the end
    assert!(rt; source.into_inner().calls == 1201);
}

/// A stop at a malformed sequence.
fn malformed(written: usize, offset: u64, len: u8) -> Result<ReadStop, ReadFault> {
    Ok(ReadStop::Malformed {
        written,
        offset,
        len,
    })
}

#[test]
fn reports_text_and_what_follows_it(rt: HostRuntime) {
    let mut source = FromRead::new(b"\xEF\xBB\xBFab\xE2\x82\xFF\xFFc\xFF".as_slice());
    let mut input = [0; 16];
    let mut reader = DecodeReader::new(&mut source, None, &mut input);
    let mut dst = [b'.'; 4];
    assert!(rt; reader.read_str_without_replacement(&mut dst) == malformed(2, 5, 2));
    assert!(rt; dst.as_slice() == b"ab..".as_slice());
    assert!(rt; reader.had_errors());
    assert!(rt; reader.read_str_without_replacement(&mut dst) == malformed(0, 7, 1));
    // a read with replacement in between
    compare_read(&rt, &mut reader, "\u{FFFD}c");
    assert!(rt; reader.read_str_without_replacement(&mut dst) == malformed(0, 10, 1));
    for _ in 0..2 {
        assert!(rt; reader.read_str_without_replacement(&mut dst) == Ok(ReadStop::Text(0)));
    }
}

#[test]
fn looks_for_the_byte_order_marks_that_it_is_to(rt: HostRuntime) -> Result<(), Fail> {
    // with `Remove` only that of UTF-8 is no part of the text, and with `Off` each is
    let rows = [
        (BomHandling::Sniff, UTF_8, UTF_16LE, "П"),
        (
            BomHandling::Remove,
            UTF_8,
            UTF_8,
            "\u{FFFD}\u{FFFD}\u{1F}\u{4}",
        ),
        (BomHandling::Remove, UTF_16LE, UTF_16LE, "П"),
        (BomHandling::Off, UTF_16LE, UTF_16LE, "\u{FEFF}П"),
    ];
    for (handling, encoding, by, text) in rows {
        let mut source = FromRead::new(b"\xFF\xFE\x1F\x04".as_slice());
        let mut input = [0; 8];
        let mut reader = DecodeReader::with_bom_handling(
            &mut source,
            encoding,
            handling,
            &mut input,
        );
        let mut dst = [0; 16];
        let n = reader.read_str(&mut dst)?;
        assert!(rt; &dst[..n] == text.as_bytes() && reader.encoding() == by);
    }
    Ok(())
}

/// An encoding, an input, and the offset and the bytes of each malformed sequence.
type MalformedRow = (Encoding, &'static [u8], &'static [(u64, &'static [u8])]);

/// By the Encoding Standard, by hand.
const MALFORMED: &[MalformedRow] = &[
    (
        UTF_8,
        b"a\xE2\x82b\xF0\x9F\x98",
        &[(1, b"\xE2\x82"), (4, b"\xF0\x9F\x98")],
    ),
    (
        UTF_8,
        b"\xED\xA0\x80c",
        &[(0, b"\xED"), (1, b"\xA0"), (2, b"\x80")],
    ),
    (GB18030, b"\x81\x30\x82\x20a", &[(0, b"\x81"), (2, b"\x82")]),
    (GB18030, b"ab\x81\x30\x81", &[(2, b"\x81\x30\x81")]),
    (
        SHIFT_JIS,
        b"\x81\x20\x81\xFDz\x81",
        &[(0, b"\x81"), (2, b"\x81\xFD"), (5, b"\x81")],
    ),
    (
        ISO_2022_JP,
        b"\x1B(B\x1B(Ba\x1Bc",
        &[(0, b"\x1B(B"), (7, b"\x1B")],
    ),
    (UTF_16LE, b"\x00\xDCa\0b", &[(0, b"\x00\xDC"), (4, b"b")]),
];

/// Reads up to the next malformed sequence, or to the end.
fn next_malformed<R: Source>(
    reader: &mut DecodeReader<'_, R>,
) -> Result<Option<MalformedSequence>, Fail> {
    let mut room = [0; 4];
    for _ in 0..100 {
        let Ok(part) = reader.read_text_without_replacement(&mut room) else {
            return Err("the source can't be read".into());
        };
        if part.malformed.is_some() || part.text.is_empty() {
            return Ok(part.malformed);
        }
    }
    Err("there is no end".into())
}

#[test]
fn malformed_bytes_are_those_of_the_input(rt: HostRuntime) -> Result<(), Fail> {
    for (encoding, bytes, malformed) in MALFORMED {
        for len in 1..10 {
            let mut source = FromRead::new(*bytes);
            let mut input = [0; 10];
            let input = &mut input[..len];
            let off = BomHandling::Off;
            let mut reader = DecodeReader::with_bom_handling(&mut source, *encoding, off, input);
            for (offset, wanted) in *malformed {
                let found = next_malformed(&mut reader)?.ok_or("no malformed sequence")?;
                assert!(rt;
                    (found.offset(), found.bytes()) == (*offset, *wanted),
                    "{offset}"
                );
            }
            assert!(rt; next_malformed(&mut reader)?.is_none());
        }
    }
    Ok(())
}

#[test]
fn tells_how_many_bytes_are_decoded(rt: HostRuntime) {
    // All bytes are in the first chunk, and a read has room for four.
    let mut source = FromRead::new(b"\xE9t\xE9s d'or".as_slice());
    let mut input = [0; 16];
    let mut reader = DecodeReader::new(&mut source, Some(WINDOWS_1252), &mut input);
    for (text, count) in [("ét", 2), ("és ", 5), ("d'or", 9), ("", 9)] {
        compare_read(&rt, &mut reader, text);
        assert!(rt; reader.bytes_decoded() == count, "{text}");
    }
}
