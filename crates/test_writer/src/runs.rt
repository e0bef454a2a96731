//! Runs of `recode_engine`, whole and in single bytes: texts of each codec, byte order marks, what
//! is malformed or unmappable, and long inputs.

use enc_stream::Encoding;
use enc_stream::constants::*;
use recode_engine::{BomHandling, FromRead, FromWrite, RecodeFault, Sink, Source, run, run_part};
use std::alloc::Global;
use std::process::Abort;
use std::test::Fail;
use test_devices::{ALL_BYTES, BYTE, NAMES, Step, StepReader, StepWriter};

/// The result of a run over devices.
#[derive(Drop)]
pub(crate) struct Ran {
    pub(crate) outcome: Result<bool, RecodeFault>,
    pub(crate) written: Vec<u8>,
    /// The numbers of calls of the reader and of the writer.
    pub(crate) calls: (usize, usize),
}

/// Runs from a reader to a writer, each driven by its steps. Exactly the side that the outcome
/// names has failed, and the writer is neither flushed nor asked to write nothing.
pub(crate) fn run_by(
    rt: &impl Abort,
    alloc: Global,
    (from, to): (Encoding, Encoding),
    input: &[u8],
    (reads, writes): (&[Step], &[Step]),
) -> Ran {
    let mut source = FromRead::new(StepReader::new(input, reads));
    let mut sink = FromWrite::new(StepWriter::new(alloc, writes));
    let outcome = run(&mut source, &mut sink, from, to);
    assert!(rt;
        source.failed() == (outcome == Err(RecodeFault::Read)),
        "{input:?}"
    );
    assert!(rt;
        sink.failed() == (outcome == Err(RecodeFault::Write)),
        "{input:?}"
    );
    let (reader, writer) = (source.into_inner(), sink.into_inner());
    assert!(rt; (writer.empty_calls, writer.flushes) == (0, 0), "{input:?}");
    Ran {
        outcome,
        written: writer.taken,
        calls: (reader.calls, writer.calls),
    }
}

/// The steps of devices.
const WAYS: [&[Step]; 2] = [&[], &[BYTE]];

/// Recodes an input, from the encoding that one label names to that of another.
fn compare(
    rt: &impl Abort,
    alloc: Global,
    (from, to): (&str, &str),
    input: &[u8],
    (want, is_replaced): (&[u8], bool),
) -> Result<(), Fail> {
    let first = Encoding::for_label(from.as_bytes()).ok_or("unknown label")?;
    let second = Encoding::for_label(to.as_bytes()).ok_or("unknown label")?;
    for steps in WAYS {
        let ran = run_by(rt, alloc, (first, second), input, (steps, steps));
        assert!(rt; ran.outcome == Ok(is_replaced), "{from} to {to}: {input:?}");
        assert!(rt; ran.written.as_slice() == want, "{from} to {to}: {input:?}");
    }
    Ok(())
}

/// A label, and a text in its encoding, in both directions.
#[rattlefmt::skip]
const TEXTS: &[(&str, &[u8], &str)] = &[
    ("utf-8", b"a\xC3\xA9\xE2\x82\xAC\xF0\x9F\x92\xA9", "aé€💩"),
    ("utf-8", b"", ""),
    ("windows-1252", b"\x93caf\xE9\x94 \x80\xA05", "“café” €\u{A0}5"),
    ("windows-1251", b"\xCF\xF0\xE8 \x88", "При €"),
    ("iso-8859-15", b"c\xBDur, \xA45", "cœur, €5"),
    ("iso-8859-5", b"\xBF\xE0\xD8\xD2\xD5\xE2", "Привет"),
    ("ibm866", b"\x8F\xE0\xA8\xA2\xA5\xE2", "Привет"),
    ("big5", b"\xA4@\xA4Q\xA4\xCA a", "一十卅 a"),
    ("euc-kr", b"\xB0\xA1\xB3\xAA abc \xC7\xD1\xB1\xDB \x8Cc", "가나 abc 한글 똠"),
    ("shift_jis", b"\x93\xFA\x96{\x8C\xEA abc \xB1\xB2\x81B", "日本語 abc ｱｲ。"),
    ("euc-jp", b"a\x8E\xB1\xC6\xFC\xCB\xDC\xB8\xEC", "aｱ日本語"),
    ("gbk", b"\xD6\xD0\xCE\xC4 abc \xA1\xA3\x80", "中文 abc 。€"),
    ("gb18030", b"\xD6\xD0 \xA2\xE3\x810\x810\xC6\xBD\x95\x32\x82\x36", "中 €\u{80}平𠀀"),
    ("x-user-defined", b"a\x80\xFF", "a\u{F780}\u{F7FF}"),
    // escape sequences at the end
    ("iso-2022-jp", b"\x1B$BF|K\\8l\x1B(B", "日本語"),
    ("iso-2022-jp", b"\x1B(J\\\x1B(B\\ \x1B$B$!\x1B(Ba", "¥\\ ぁa"),
];

#[test]
fn recodes_texts_of_each_codec(rt: HostRuntime) -> Result<(), Fail> {
    for (label, bytes, text) in TEXTS {
        let text = text.as_bytes();
        compare(&rt, rt.alloc(), (*label, "utf-8"), *bytes, (text, false))?;
        compare(&rt, rt.alloc(), ("utf-8", *label), text, (*bytes, false))?;
    }
    Ok(())
}

/// UTF-8 after its byte order mark, with a second one in it.
const MARKED: &[u8] = b"\xEF\xBB\xBF\xC3\xA9\xEF\xBB\xBF";

/// A label, an input, its text, and whether something is replaced.
#[rattlefmt::skip]
const DECODED: &[(&str, &[u8], &str, bool)] = &[
    ("utf-8", b"a\xFF", "a\u{FFFD}", true),
    ("utf-8", b"a\xE2\x82", "a\u{FFFD}", true),
    ("utf-16be", b"\x00a\xDC\x00", "a\u{FFFD}", true),
    ("utf-16be", b"\x65\xE5\xD8\x3D\xDC\xA9", "日💩", false),
    ("utf-16", b"\xE5\x65\x3D\xD8\xA9\xDC", "日💩", false),
    ("replacement", b"a", "\u{FFFD}", true),
    ("CP866 ", b"\x8F", "П", false),
    ("big5", b"\xB7\x66\x9D\xF2\x88b", "搭𨋢Ê\u{304}", false),
    ("euc-jp", b"\x8F\xB0\xA1", "丂", false),
    // the byte order mark of the encoding named
    ("utf-8", MARKED, "é\u{FEFF}", false),
    ("utf-16be", b"\xFE\xFF\x04\x1F", "П", false),
    ("utf-16le", b"\xFF\xFE\x1F\x04", "П", false),
    // the byte order mark of another encoding
    ("windows-1252", MARKED, "é\u{FEFF}", false),
    ("windows-1252", b"\xFE\xFF\x00\xE9", "é", false),
    ("iso-2022-jp", MARKED, "é\u{FEFF}", false),
    ("utf-16le", b"\xFE\xFF\x04\x1F", "П", false),
    ("utf-8", b"\xFF\xFEa\x00", "a", false),
    ("x-user-defined", b"\xFE\xFF\x00\x61\xDC\x00", "a\u{FFFD}", true),
    // nothing after it
    ("utf-8", b"\xFF\xFE", "", false),
    // byte order marks that break off
    ("windows-1252", b"\xEF\xBBa", "ï»a", false),
    ("ibm866", b"\xEF\xBB", "я╗", false),
    ("utf-8", b"\xEF\xBB", "\u{FFFD}", true),
    ("utf-16be", b"\xFE\xFE", "\u{FEFE}", false),
    // a byte order mark that is not at the start
    ("windows-1252", b"a\xFF\xFE", "aÿþ", false),
];

#[test]
fn recodes_to_utf_8(rt: HostRuntime) -> Result<(), Fail> {
    for (label, bytes, text, is_replaced) in DECODED {
        let want = (text.as_bytes(), *is_replaced);
        compare(&rt, rt.alloc(), (*label, " Utf8"), *bytes, want)?;
    }
    Ok(())
}

/// A text, a label, and the bytes in its encoding, with a reference.
#[rattlefmt::skip]
const UNMAPPABLE: &[(&str, &str, &[u8])] = &[
    ("aЖé", "windows-1252", b"a&#1046;\xE9"),
    ("éЖ", "windows-1251", b"&#233;\xC6"),
    ("a中💩一", "big5", b"a\xA4\xA4&#128169;\xA4@"),
    ("a가💩뷁", "euc-kr", b"a\xB0\xA1&#128169;\x94\xEE"),
    ("aｱ日é", "shift_jis", b"a\xB1\x93\xFA&#233;"),
    ("aあ丂ｱ", "euc-jp", b"a\xA4\xA2&#19970;\x8E\xB1"),
    ("a中💩€", "gbk", b"a\xD6\xD0&#128169;\x80"),
    ("a中\u{E5E5}𠀀", "gb18030", b"a\xD6\xD0&#58853;\x95\x32\x82\x36"),
    ("é\u{F780}", "x-user-defined", b"&#233;\x80"),
    ("日é語", "iso-2022-jp", b"\x1B$BF|\x1B(B&#233;\x1B$B8l\x1B(B"),
    ("¥💩ぁ\u{FFFF}a", "iso-2022-jp", b"\x1B(J\\&#128169;\x1B$B$!\x1B(B&#65535;a"),
    ("\u{1B}a\u{E}\u{F}", "iso-2022-jp", b"&#65533;a&#65533;&#65533;"),
];

/// Two labels, an input of the first encoding, its bytes in the second, and whether something is
/// replaced.
#[rattlefmt::skip]
const OTHERS: &[(&str, &str, &[u8], &[u8], bool)] = &[
    ("windows-1252", "shift_jis", b"\xE9", b"&#233;", true),
    ("windows-1252", "windows-1252", b"\x80\xE9", b"\x80\xE9", false),
    ("latin1", "utf-16", b"\xE9", b"\xC3\xA9", false),
    ("shift_jis", "euc-jp", b"a\xB1\x93\xFA", b"a\x8E\xB1\xC6\xFC", false),
    ("euc-jp", "iso-2022-jp", b"a\xC6\xFC\xCB\xDC", b"a\x1B$BF|K\\\x1B(B", false),
    ("koi8-r", "windows-1251", b"\xF0\xD2\x80", b"\xCF\xF0&#9472;", true),
    // U+FFFD for malformed sequences, which is itself unmappable except in gb18030
    ("utf-8", "windows-1252", b"a\xFF", b"a&#65533;", true),
    ("utf-8", "gb18030", b"a\xFF", b"a\x84\x31\xA4\x37", true),
    // a byte order mark is no text
    ("windows-1252", "ibm866", b"\xFF\xFE\x1F\x04", b"\x8F", false),
];

#[test]
fn recodes_to_other_encodings(rt: HostRuntime) -> Result<(), Fail> {
    for (text, label, bytes) in UNMAPPABLE {
        compare(
            &rt,
            rt.alloc(),
            ("utf-8", *label),
            text.as_bytes(),
            (*bytes, true),
        )?;
    }
    for (from, to, input, want, is_replaced) in OTHERS {
        compare(&rt, rt.alloc(), (*from, *to), *input, (*want, *is_replaced))?;
    }
    Ok(())
}

/// Characters of each kind of each encoding, and for each but UTF-8 one that is unmappable.
const OF_ALL_KINDS: &str =
    "a\u{E}é\u{80}ÀŁĦĀЖعΩשŊŪẂŒȘ░ґ•ก€ăўğ‰پų₫Ѓ\\~¥‾ｱア−日\u{F780}本語¢平乂𠀀搭𨋢한뷁똠\u{E5E5}\u{FFFD}💩z";

#[test]
fn writes_each_encoding_in_small_parts(rt: HostRuntime) -> Result<(), Fail> {
    let text = OF_ALL_KINDS.as_bytes();
    for name in NAMES.split(' ') {
        let to = Encoding::for_label(name.as_bytes()).ok_or("no encoding")?;
        let ran = run_by(&rt, rt.alloc(), (UTF_8, to), text, (&[], &[]));
        let slow = run_by(&rt, rt.alloc(), (UTF_8, to), text, (&[BYTE], &[BYTE]));
        let has_all = to.can_encode_everything();
        assert!(rt;
            ran.outcome == Ok(!has_all) && slow.outcome == ran.outcome,
            "to {name}"
        );
        assert!(rt;
            slow.written.as_slice() == ran.written.as_slice(),
            "to {name}"
        );
        assert!(rt; (ran.written.as_slice() == text) == has_all, "to {name}");
    }
    Ok(())
}

#[test]
fn recodes_many_chunks(rt: HostRuntime) -> Result<(), Fail> {
    let rows: [(Encoding, Encoding, u8, &[u8]); 2] = [
        (UTF_8, UTF_8, 0xFF, "\u{FFFD}".as_bytes()),
        (WINDOWS_1252, SHIFT_JIS, 0xE9, b"&#233;"),
    ];
    for (from, to, byte, want) in rows {
        let bytes = vec![in rt.alloc(); byte; 150_000]?;
        let mut all = Vec::new(rt.alloc());
        for _ in 0..150_000 {
            all.extend_from_slice(want)?;
        }
        let ran = run_by(&rt, rt.alloc(), (from, to), &bytes, (&[], &[]));
        assert!(rt; ran.outcome == Ok(true) && ran.written.as_slice() == all.as_slice());
    }
    Ok(())
}

#[test]
fn reads_as_often_as_there_are_bytes(rt: HostRuntime) {
    let bytes = [0x61; 1100];
    let ran = run_by(&rt, rt.alloc(), (UTF_8, UTF_8), &bytes, (&[BYTE], &[]));
    assert!(rt; ran.outcome == Ok(false) && ran.written.as_slice() == bytes.as_slice());
    assert!(rt; ran.calls == (1101, 1100));
}

/// An encoding to write, what stands before and after a stretch of ASCII in UTF-8 and in that
/// encoding, and whether something is replaced.
#[rattlefmt::skip]
const LONG_ROWS: &[(Encoding, [&[u8]; 2], [&[u8]; 2], bool)] = &[
    (WINDOWS_1252, [b"", b""], [b"", b""], false),
    (WINDOWS_1252, [b"a", b"\xC3\xA9"], [b"a", b"\xE9"], false),
    (WINDOWS_1252, [b"\xC3\xA9", b"\xC3\xA9b"], [b"\xE9", b"\xE9b"], false),
    (WINDOWS_1251, [b"", b"\xC3\xA9"], [b"", b"&#233;"], true),
    (SHIFT_JIS, [b"", b"\xE6\x97\xA5"], [b"", b"\x93\xFA"], false),
    (GB18030, [b"", b"\xEF\xBF\xBD"], [b"", b"\x84\x31\xA4\x37"], false),
    (UTF_16LE, [b"", b"\xC3\xA9"], [b"", b"\xC3\xA9"], false),
    (ISO_2022_JP, [b"a\x0E", b"\x1B"], [b"a&#65533;", b"&#65533;"], true),
    // an escape sequence is due before the stretch, and after it
    (ISO_2022_JP, [b"\xE6\x97\xA5", b"\xC2\xA5"],
        [b"\x1B$BF|\x1B(B", b"\x1B(J\\\x1B(B"], false),
];

/// A stretch of 5000 digits between two parts.
fn stretch_between(alloc: Global, parts: &[&[u8]; 2]) -> Result<Vec<u8>, Fail> {
    let mut bytes = Vec::new(alloc);
    bytes.extend_from_slice(parts[0])?;
    for _ in 0..500 {
        bytes.extend_from_slice(b"0123456789")?;
    }
    bytes.extend_from_slice(parts[1])?;
    Ok(bytes)
}

#[test]
fn writes_long_ascii_as_it_is(rt: HostRuntime) -> Result<(), Fail> {
    for (to, text, want, is_replaced) in LONG_ROWS {
        let text = stretch_between(rt.alloc(), text)?;
        let want = stretch_between(rt.alloc(), want)?;
        for first in [ALL_BYTES, Step::Move(3)] {
            for write in [ALL_BYTES, Step::Move(3000)] {
                let (reads, writes) = ([first, ALL_BYTES], [write]);
                let ran = run_by(&rt, rt.alloc(), (UTF_8, *to), &text, (&reads, &writes));
                assert!(rt; ran.outcome == Ok(*is_replaced), "to {to:?}");
                assert!(rt; ran.written.as_slice() == want.as_slice(), "to {to:?}");
            }
        }
    }
    Ok(())
}

/// The encodings to decode from and to write, an input, and for `Sniff`, `Remove` and `Off` the
/// bytes written and whether something is replaced.
#[rattlefmt::skip]
const MARKS: &[((Encoding, Encoding), &[u8], &[(&[u8], bool)])] = &[
    // the mark of the encoding itself
    ((UTF_8, UTF_8), b"\xEF\xBB\xBFa",
        &[(b"a", false), (b"a", false), (b"\xEF\xBB\xBFa", false)]),
    ((UTF_8, SHIFT_JIS), b"\xEF\xBB\xBFa\xFF",
        &[(b"a&#65533;", true), (b"a&#65533;", true), (b"&#65279;a&#65533;", true)]),
    ((UTF_16LE, UTF_8), b"\xFF\xFEa\0",
        &[(b"a", false), (b"a", false), (b"\xEF\xBB\xBFa", false)]),
    // the mark of another encoding
    ((WINDOWS_1252, UTF_8), b"\xEF\xBB\xBFa",
        &[(b"a", false), (b"\xC3\xAF\xC2\xBB\xC2\xBFa", false),
            (b"\xC3\xAF\xC2\xBB\xC2\xBFa", false)]),
    ((WINDOWS_1252, WINDOWS_1252), b"\xFE\xFF\0a",
        &[(b"a", false), (b"\xFE\xFF\0a", false), (b"\xFE\xFF\0a", false)]),
    // a mark that is broken off
    ((UTF_8, UTF_8), b"\xEF\xBB",
        &[(b"\xEF\xBF\xBD", true), (b"\xEF\xBF\xBD", true), (b"\xEF\xBF\xBD", true)]),
    // no mark, and one that comes later
    ((UTF_8, UTF_8), b"a\xEF\xBB\xBF",
        &[(b"a\xEF\xBB\xBF", false), (b"a\xEF\xBB\xBF", false), (b"a\xEF\xBB\xBF", false)]),
    ((UTF_8, UTF_8), b"", &[(b"", false), (b"", false), (b"", false)]),
];

const HANDLINGS: [BomHandling; 3] = [BomHandling::Sniff, BomHandling::Remove, BomHandling::Off];

#[test]
fn looks_for_the_marks_of_each_handling(rt: HostRuntime) {
    for ((from, to), input, wanted) in MARKS {
        for (handling, (want, is_replaced)) in HANDLINGS.iter().zip(*wanted) {
            for steps in WAYS {
                let mut source = FromRead::new(StepReader::new(*input, steps));
                let mut written = Vec::new(rt.alloc());
                let mut sink = FromWrite::new(&mut written);
                let outcome = run_part(&mut source, &mut sink, *from, *to, *handling);
                assert!(rt;
                    outcome == Ok(*is_replaced) && written.as_slice() == *want,
                    "{input:?}"
                );
            }
        }
    }
}
