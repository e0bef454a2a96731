//! Policies for unmappable characters.
//!
//! Bytes by `Reference`, `Ignore` and `QuestionMark` are those of Python's `encode` with
//! `xmlcharrefreplace`, `ignore` and `replace`. Hexadecimal references are by hand. So are all rows
//! of ISO-2022-JP, by the steps of the Encoding Standard (12.2.2): the escape sequence to ASCII
//! stands before each report after a character of JIS X 0208, also if nothing is put for it.

use crate::writing::Act::*;
use crate::writing::Answer::*;
use crate::writing::{Script, play};
use enc_stream::Encoding;
use enc_stream::constants::*;
use enc_writer::{EncodeWriter, FromWrite, Sink, UnmappablePolicy, WriteFault};
use std::alloc::Global;
use std::process::Abort;
use std::test::Fail;
use test_devices::{ALL_BYTES, BYTE, FAULT, NOTHING, Step, StepWriter, steps_but};

/// The policies, in the order of the bytes of a row.
const POLICIES: [UnmappablePolicy; 4] = [
    UnmappablePolicy::Reference,
    UnmappablePolicy::HexReference,
    UnmappablePolicy::Ignore,
    UnmappablePolicy::QuestionMark,
];

/// An encoding, a text, its bytes by each policy, and whether a character of it is unmappable.
type Row = (Encoding, &'static str, [&'static [u8]; 4], bool);

#[rattlefmt::skip]
const ROWS: &[Row] = &[
    (WINDOWS_1252, "é€Ж", [b"\xE9\x80&#1046;", b"\xE9\x80&#x416;", b"\xE9\x80", b"\xE9\x80?"],
        true),
    (WINDOWS_1252, "Жa", [b"&#1046;a", b"&#x416;a", b"a", b"?a"], true),
    (WINDOWS_1252, "aЖ", [b"a&#1046;", b"a&#x416;", b"a", b"a?"], true),
    (WINDOWS_1252, "ЖЖЖ", [b"&#1046;&#1046;&#1046;", b"&#x416;&#x416;&#x416;", b"", b"???"], true),
    (WINDOWS_1252, "💩", [b"&#128169;", b"&#x1F4A9;", b"", b"?"], true),
    (WINDOWS_1252, "a💩é\u{10FFFF}z", [b"a&#128169;\xE9&#1114111;z", b"a&#x1F4A9;\xE9&#x10FFFF;z",
        b"a\xE9z", b"a?\xE9?z"], true),
    (WINDOWS_1252, "plain", [b"plain", b"plain", b"plain", b"plain"], false),
    (WINDOWS_1252, "?&#x416;", [b"?&#x416;", b"?&#x416;", b"?&#x416;", b"?&#x416;"], false),
    (WINDOWS_1252, "", [b"", b"", b"", b""], false),
    (KOI8_R, "Жé€", [b"\xF6&#233;&#8364;", b"\xF6&#xE9;&#x20AC;", b"\xF6", b"\xF6??"], true),
    (KOI8_R, "💩Ж日本é", [b"&#128169;\xF6&#26085;&#26412;&#233;",
        b"&#x1F4A9;\xF6&#x65E5;&#x672C;&#xE9;", b"\xF6", b"?\xF6???"], true),
    // each number of digits
    (KOI8_R, "\u{80}\u{FF}\u{100}\u{FFF}\u{1000}\u{ABCD}",
        [b"&#128;&#255;&#256;&#4095;&#4096;&#43981;", b"&#x80;&#xFF;&#x100;&#xFFF;&#x1000;&#xABCD;",
        b"", b"??????"], true),
    (KOI8_R, "\u{FFFF}\u{10000}\u{FFFFF}\u{100000}\u{10FFFF}",
        [b"&#65535;&#65536;&#1048575;&#1048576;&#1114111;",
        b"&#xFFFF;&#x10000;&#xFFFFF;&#x100000;&#x10FFFF;", b"", b"?????"], true),
    (SHIFT_JIS, "日é本", [b"\x93\xFA&#233;\x96\x7B", b"\x93\xFA&#xE9;\x96\x7B", b"\x93\xFA\x96\x7B",
        b"\x93\xFA?\x96\x7B"], true),
    (SHIFT_JIS, "日💩é", [b"\x93\xFA&#128169;&#233;", b"\x93\xFA&#x1F4A9;&#xE9;", b"\x93\xFA",
        b"\x93\xFA??"], true),
    (SHIFT_JIS, "€日", [b"&#8364;\x93\xFA", b"&#x20AC;\x93\xFA", b"\x93\xFA", b"?\x93\xFA"], true),
    (EUC_KR, "한é글", [b"\xC7\xD1&#233;\xB1\xDB", b"\xC7\xD1&#xE9;\xB1\xDB", b"\xC7\xD1\xB1\xDB",
        b"\xC7\xD1?\xB1\xDB"], true),
    (EUC_KR, "é가€", [b"&#233;\xB0\xA1\xA2\xE6", b"&#xE9;\xB0\xA1\xA2\xE6", b"\xB0\xA1\xA2\xE6",
        b"?\xB0\xA1\xA2\xE6"], true),
    (UTF_8, "💩é", [b"\xF0\x9F\x92\xA9\xC3\xA9", b"\xF0\x9F\x92\xA9\xC3\xA9",
        b"\xF0\x9F\x92\xA9\xC3\xA9", b"\xF0\x9F\x92\xA9\xC3\xA9"], false),
    // the output encoding of UTF-16 is UTF-8
    (UTF_16LE, "Ж", [b"\xD0\x96", b"\xD0\x96", b"\xD0\x96", b"\xD0\x96"], false),
    (ISO_2022_JP, "日é本", [b"\x1B$BF|\x1B(B&#233;\x1B$BK\\\x1B(B",
        b"\x1B$BF|\x1B(B&#xE9;\x1B$BK\\\x1B(B", b"\x1B$BF|\x1B(B\x1B$BK\\\x1B(B",
        b"\x1B$BF|\x1B(B?\x1B$BK\\\x1B(B"], true),
    (ISO_2022_JP, "日💩é", [b"\x1B$BF|\x1B(B&#128169;&#233;", b"\x1B$BF|\x1B(B&#x1F4A9;&#xE9;",
        b"\x1B$BF|\x1B(B", b"\x1B$BF|\x1B(B??"], true),
    (ISO_2022_JP, "é日", [b"&#233;\x1B$BF|\x1B(B", b"&#xE9;\x1B$BF|\x1B(B", b"\x1B$BF|\x1B(B",
        b"?\x1B$BF|\x1B(B"], true),
    // a report in the Roman set needs no escape sequence
    (ISO_2022_JP, "¥é~", [b"\x1B(J\\&#233;\x1B(B~", b"\x1B(J\\&#xE9;\x1B(B~", b"\x1B(J\\\x1B(B~",
        b"\x1B(J\\?\x1B(B~"], true),
    // U+000E is reported as U+FFFD
    (ISO_2022_JP, "\u{E}", [b"&#65533;", b"&#xFFFD;", b"", b"?"], true),
];

/// Writes two texts with a policy, one after the other, through a buffer of `room` bytes. Compares
/// the bytes taken and whether a character was unmappable.
fn compare(
    rt: &impl Abort,
    alloc: Global,
    (encoding, texts, policy): (Encoding, (&str, &str), UnmappablePolicy),
    (want, had): (&[u8], bool),
    (steps, room): (&[Step], usize),
) {
    let mut sink = FromWrite::new(StepWriter::new(alloc, steps));
    let mut buffer = [0; 64];
    let mut writer = EncodeWriter::new(&mut sink, encoding, &mut buffer[..room.max(14).min(64)]);
    assert!(rt; writer.write_str_with(texts.0, policy) == Ok(()));
    assert!(rt; writer.write_str_with(texts.1, policy) == Ok(()));
    assert!(rt; writer.had_unmappables() == had, "{texts:?}");
    assert!(rt; writer.finish() == Ok(had));
    let taken = sink.into_inner().taken;
    assert!(rt; taken.as_slice() == want, "{texts:?} {policy:?}: {taken:?}");
}

#[test]
fn each_policy_puts_its_bytes(rt: HostRuntime) {
    for (encoding, text, wanted, had) in ROWS {
        for (policy, want) in POLICIES.iter().zip(*wanted) {
            for at in 0..=text.len() {
                let Some(texts) = text.split_at_checked(at) else {
                    continue;
                };
                for room in [14, 15, 20, 64] {
                    compare(
                        &rt,
                        rt.alloc(),
                        (*encoding, texts, *policy),
                        (want, *had),
                        (&[], room),
                    );
                }
            }
            for step in [ALL_BYTES, BYTE, Step::Move(3)] {
                let case = (*encoding, (*text, ""), *policy);
                compare(&rt, rt.alloc(), case, (want, *had), (&[step], 14));
            }
        }
    }
}

/// Scripts of several policies, and the numbers of pushes and of flushes through a buffer of 64
/// bytes.
#[rattlefmt::skip]
const MIXED: &[(Script, (usize, usize))] = &[
    ((WINDOWS_1252, &[(With(UnmappablePolicy::Ignore), "aЖb", Done), (Flag, "", Had(true)),
        (With(UnmappablePolicy::HexReference), "Ж", Done),
        (With(UnmappablePolicy::QuestionMark), "Жc", Done), (Text, "Ж", Done),
        (With(UnmappablePolicy::Reference), "éЖ", Done), (Finish, "", Had(true))],
        b"ab&#x416;?c&#1046;\xE9&#1046;"), (1, 1)),
    ((ISO_2022_JP, &[(With(UnmappablePolicy::Ignore), "日é", Done),
        (With(UnmappablePolicy::QuestionMark), "本", Done), (Flush, "", Done),
        (With(UnmappablePolicy::Ignore), "é", Done),
        (With(UnmappablePolicy::HexReference), "日é本", Done), (Finish, "", Had(true))],
        b"\x1B$BF|\x1B(B\x1B$BK\\\x1B(B\x1B$BF|\x1B(B&#xE9;\x1B$BK\\\x1B(B"), (2, 2)),
    // the caller writes the character reported, and the rest
    ((SHIFT_JIS, &[(Mappable, "日é本", Stops('é', 5)),
        (With(UnmappablePolicy::HexReference), "é", Done),
        (With(UnmappablePolicy::Ignore), "本", Done), (Finish, "", Had(true))],
        b"\x93\xFA&#xE9;\x96\x7B"), (1, 1)),
    // the flag is that of unmappable characters alone
    ((SHIFT_JIS, &[(With(UnmappablePolicy::QuestionMark), "日?", Done), (Flag, "", Had(false)),
        (Units(0xE9, 0x61), "", Done), (Flag, "", Had(true)),
        (With(UnmappablePolicy::Ignore), "本", Done), (End, "", Had(true))],
        b"\x93\xFA?&#233;a\x96\x7B"), (1, 0)),
    ((SHIFT_JIS, &[(With(UnmappablePolicy::Ignore), "é", Done), (Flag, "", Had(true)),
        (Push, "", Done), (Finish, "", Had(true))], b""), (0, 1)),
];

#[test]
fn policies_follow_one_another(rt: HostRuntime) {
    for (script, calls) in MIXED {
        let device = StepWriter::new(rt.alloc(), &[]);
        assert!(rt; play(&rt, *script, device, 64) == *calls, "{:?}", script.2);
        for step in [ALL_BYTES, BYTE, Step::Move(3)] {
            for room in [14, 15, 20] {
                let steps = [step];
                play(&rt, *script, StepWriter::new(rt.alloc(), &steps), room);
            }
        }
    }
}

/// The bytes of "日é💩" in Shift_JIS, by each policy.
const REPEATED: [&[u8]; 4] = [
    b"\x93\xFA&#233;&#128169;",
    b"\x93\xFA&#xE9;&#x1F4A9;",
    b"\x93\xFA",
    b"\x93\xFA??",
];

#[test]
fn long_texts_are_written_with_each_policy(rt: HostRuntime) -> Result<(), Fail> {
    let mut text = Vec::new(rt.alloc());
    for _ in 0..1000 {
        text.extend_from_slice("日é💩".as_bytes())?;
    }
    for (policy, want) in POLICIES.iter().zip(REPEATED) {
        let mut sink = FromWrite::new(StepWriter::new(rt.alloc(), &[]));
        let mut buffer = [0; 64];
        let mut writer = EncodeWriter::new(&mut sink, SHIFT_JIS, &mut buffer);
        assert!(rt; writer.write_str_with(str::from_utf8(&text)?, *policy) == Ok(()));
        assert!(rt; writer.finish() == Ok(true));
        let taken = sink.into_inner().taken;
        assert!(rt; taken.len() == want.len().saturating_mul(1000));
        assert!(rt;
            taken
                .chunks_exact(want.len().max(1))
                .all(|part| part == want)
        );
    }
    Ok(())
}

#[test]
fn texts_that_fit_are_no_push(rt: HostRuntime) {
    for policy in POLICIES {
        let mut sink = FromWrite::new(StepWriter::new(rt.alloc(), &[]));
        let mut buffer = [0; 64];
        let mut writer = EncodeWriter::new(&mut sink, SHIFT_JIS, &mut buffer);
        // 50 bytes at most, and 14 that stay free
        for _ in 0..5 {
            assert!(rt; writer.write_str_with("\u{10FFFF}", policy) == Ok(()));
        }
        assert!(rt; sink.into_inner().calls == 0);
    }
}

/// The bytes of the two texts below in ISO-2022-JP, by each policy.
const WHOLE: [&[u8]; 4] = [
    b"\x1B$BF|K\\\x1B(B&#233;\x1B$BF|\x1B(B&#128169;",
    b"\x1B$BF|K\\\x1B(B&#xE9;\x1B$BF|\x1B(B&#x1F4A9;",
    b"\x1B$BF|K\\\x1B(B\x1B$BF|\x1B(B",
    b"\x1B$BF|K\\\x1B(B?\x1B$BF|\x1B(B?",
];

/// The nth write of a sink fails, which takes a byte a write. The bytes taken are a prefix of all.
fn compare_fault(
    rt: &impl Abort,
    steps: StepWriter<'_>,
    policy: UnmappablePolicy,
    (nth, whole): (usize, &[u8]),
) {
    let mut sink = FromWrite::new(steps);
    let mut buffer = [0; 14];
    let mut writer = EncodeWriter::new(&mut sink, ISO_2022_JP, &mut buffer);
    let first = writer.write_str_with("日本", policy);
    let second = writer.write_str_with("é日💩", policy);
    let end = writer.finish();
    assert!(rt; end.is_err());
    assert!(rt; writer.write_str_with("a", policy) == Err(WriteFault::Failed));
    // the first fault is the sink's, and the others follow from it
    assert!(rt; first == Ok(()) || first == Err(WriteFault::Writer));
    assert!(rt; first == Ok(()) || second == Err(WriteFault::Failed));
    assert!(rt; second == Ok(()) || end == Err(WriteFault::Failed));
    assert!(rt; writer.encoding() == ISO_2022_JP);
    assert!(rt; sink.failed());
    let device = sink.into_inner();
    assert!(rt; device.calls == nth && whole.starts_with(device.taken.as_slice()));
    assert!(rt; device.taken.len() == nth.saturating_sub(1), "{policy:?}");
}

#[test]
fn each_push_fails_in_turn(rt: HostRuntime) -> Result<(), Fail> {
    for (policy, whole) in POLICIES.iter().zip(WHOLE) {
        for nth in 1..=whole.len() {
            for fault in [FAULT, NOTHING] {
                let steps = steps_but(rt.alloc(), &[BYTE], nth, fault)?;
                let device = StepWriter::new(rt.alloc(), &steps);
                compare_fault(&rt, device, *policy, (nth, whole));
            }
        }
    }
    Ok(())
}

/// The flag after a fault is that of the text taken.
#[rattlefmt::skip]
const FAULTS: &[Script] = &[
    (SHIFT_JIS, &[(With(UnmappablePolicy::Ignore), "é日日日日日日日日", Fails),
        (Flag, "", Had(true)), (Finish, "", HasFailed), (Flag, "", Had(true))], b""),
    (SHIFT_JIS, &[(With(UnmappablePolicy::Ignore), "日日日日日日日日é", Fails),
        (Flag, "", Had(false)), (With(UnmappablePolicy::Reference), "é", HasFailed),
        (Flag, "", Had(false))], b""),
];

#[test]
fn a_fault_keeps_the_flag(rt: HostRuntime) {
    for script in FAULTS {
        let device = StepWriter::new(rt.alloc(), &[FAULT]);
        assert!(rt; play(&rt, *script, device, 14) == (1, 0), "{:?}", script.2);
    }
}

/// Texts with unmappable characters, in several encodings.
const TEXTS: &[&str] = &["caf\u{E9} €Ж日", "💩💩", "ﾊ¥‾\u{FFFD}", "Ω한글\u{10FFFF}", ""];

/// Writes a text by `write_str`, and by `write_str_with` with decimal references. Both return the
/// same, and the bytes are the same.
fn compare_references(rt: &impl Abort, alloc: Global, encoding: Encoding, text: &str) {
    let mut first = FromWrite::new(StepWriter::new(alloc, &[]));
    let mut buffer = [0; 20];
    let mut writer = EncodeWriter::new(&mut first, encoding, &mut buffer);
    assert!(rt; writer.write_str(text) == Ok(()));
    let had = writer.finish();
    let mut second = FromWrite::new(StepWriter::new(alloc, &[]));
    let mut buffer = [0; 20];
    let mut writer = EncodeWriter::new(&mut second, encoding, &mut buffer);
    assert!(rt; writer.write_str_with(text, UnmappablePolicy::Reference) == Ok(()));
    assert!(rt; writer.finish() == had);
    let (first, second) = (first.into_inner(), second.into_inner());
    assert!(rt; first.taken == second.taken, "{text}");
}

#[test]
fn references_are_those_of_write_str(rt: HostRuntime) {
    for text in TEXTS {
        for encoding in [
            WINDOWS_1252,
            KOI8_R,
            SHIFT_JIS,
            EUC_KR,
            ISO_2022_JP,
            GB18030,
            UTF_8,
        ] {
            compare_references(&rt, rt.alloc(), encoding, *text);
        }
    }
}
