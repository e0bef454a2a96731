//! Inputs of every kind in every encoding, read by each call: the text is that of `decode`.

use crate::gathering::{CALLS, Call, Way, read_by};
use enc_stream::Encoding;
use enc_stream::constants::*;
use std::alloc::Global;
use std::process::Abort;
use std::test::Fail;
use test_devices::{ALL_BYTES, BYTE, FAULT, NAMES, Step, steps_but};

/// Steps of a device, the length of the buffer to read into, and that of the buffer for text.
const WAYS: [(Step, usize, usize); 4] = [
    (BYTE, 1, 4),
    (BYTE, 64, 64),
    (Step::Move(3), 3, 5),
    (ALL_BYTES, 64, 64),
];

/// Inputs that have sequences of each kind in some encoding: characters of one byte to four, pairs
/// of characters, surrogates, escape sequences and repeated ones, malformed and incomplete
/// sequences, and byte order marks, whole and broken off.
#[rattlefmt::skip]
const INPUTS: &[&[u8]] = &[
    b"",
    b"a",
    b"caf\xE9 \x80\xA1\xE4\xFF",
    b"a\xC3\xA9\xE6\x97\xA5\xF0\x9F\x92\xA9z",
    b"a\xF0\x90A\xED\xA0\x80\xE2\x82",
    b"\x93\xFA\x96\x7B\x8C\xEA\xB1\x83",
    b"\xC6\xFC\xCB\xDC\xB8\xEC\x8E\xB1\x8F\xB0\xA1\x8F\xB0A",
    b"\xC6\xBD\x95\x32\x82\x36\x81\x30\x81\xFF",
    b"\x81\x30\x81\x30\x84\x31\xA5\x30\x81",
    b"\xB7\x66\x9D\xF2\x88\x62\x88\xA5",
    b"\xC7\xD1\x94\xEE\xB0\xA1",
    b"\x1B$BF|K\\8l\x1B(B!\x1B(J\\~\x1B(I1",
    b"\x1B$B\x1B(Ba\x1B$",
    b"\x1B(B\x1B$BF|\x1BX",
    b"\x04\x1F\xD8\x3D\xDC\xA9\xD8\x00\x00a\xDC\x00\x00",
    b"\x1F\x04\x3D\xD8\xA9\xDC\x00\xD8a\x00\x00\xDC\x00",
    b"\xEF\xBB\xBF\xE2\x82\xAC",
    b"\xFE\xFF\x04\x1F\xDC\x00",
    b"\xFF\xFE\x1F\x04a",
    b"\xEF\xBBa",
    b"\xEF\xBB",
    b"\xEF",
    b"\xFEa",
    b"\xFF",
    b"\xEF\xBB\xBF\xEF\xBB\xBF",
];

/// Lines, among them of U+0A0A and U+0A00, which have a byte 0A in UTF-16.
#[rattlefmt::skip]
const LINES: &[&[u8]] = &[
    b"ab\r\ncd\n\n\ne\rf",
    b"\n\0a\0\r\0\n\0\x0A\x0A\0\x0A\n\0\x3D\xD8\xA9\xDC\n\0b\0\0\xD8",
    b"\0\n\0a\0\r\0\n\x0A\x0A\x0A\0\0\n\xD8\x3D\xDC\xA9\0\n\0b\xD8\0",
    b"\xEF\xBB\xBFa\n\xE2\x82\n\xC3\xA9",
    b"\x93\xFA\n\x96\x7B\r\n\x81\n\x81\x30\n",
    b"\x88\x62\n\x88\xA5\n\x80",
    b"\x1B$BF|\x1B(B\n\x1B(J\\\n",
];

/// Reads an input by each call, a few bytes of the source at a time, through short buffers.
fn compare_ways(rt: &impl Abort, alloc: Global, input: (Encoding, &[u8])) -> Result<(), Fail> {
    let (encoding, bytes) = input;
    let (text, by, had_errors) = encoding.decode(alloc, bytes)?;
    for (step, len, room) in WAYS {
        for call in CALLS {
            let (steps, most) = ([step], text.len().saturating_add(1));
            let read = read_by(alloc, call, input, (&steps, (len, room)), most)?;
            assert!(rt; read.text.as_slice() == text.as_bytes(), "{bytes:?}");
            assert!(rt; read.state == (by, had_errors) && !read.failed, "{bytes:?}");
        }
    }
    Ok(())
}

/// Reads inputs in every encoding. Single-byte encodings differ in their characters alone, so those
/// but windows-1252 read the first of them.
fn compare_inputs(rt: &impl Abort, alloc: Global, inputs: &[&[u8]]) -> Result<(), Fail> {
    for name in NAMES.split(' ') {
        let encoding = Encoding::for_label(name.as_bytes()).ok_or("no encoding")?;
        let is_like_another = encoding.is_single_byte() && encoding != WINDOWS_1252;
        let some = if is_like_another {
            &inputs[..inputs.len().min(3)]
        } else {
            inputs
        };
        for bytes in some {
            compare_ways(rt, alloc, (encoding, *bytes))?;
        }
    }
    Ok(())
}

#[test]
fn reads_the_text_of_the_whole_input(rt: HostRuntime) -> Result<(), Fail> {
    compare_inputs(&rt, rt.alloc(), INPUTS)
}

#[test]
fn reads_the_lines_of_the_whole_input(rt: HostRuntime) -> Result<(), Fail> {
    compare_inputs(&rt, rt.alloc(), LINES)
}

/// An input, and the parts of its text that the bytes before a fault at each of six reads
/// determine.
#[rattlefmt::skip]
const FAULTS: &[(Encoding, &[u8], [&str; 6])] = &[
    (UTF_8, b"a\xE2\x82\xACbc", ["", "a", "a", "a", "a€", "a€b"]),
    (SHIFT_JIS, b"\x93\xFAa\x96\x7B", ["", "", "日", "日a", "日a", "日a本"]),
    (WINDOWS_1252, b"\xEF\xBBa\xFFb", ["", "", "", "ï»a", "ï»aÿ", "ï»aÿb"]),
    // no sequence that the fault cuts
    (UTF_8, b"a\xFF\xE2\x82\xAC",
        ["", "a", "a\u{FFFD}", "a\u{FFFD}", "a\u{FFFD}", "a\u{FFFD}€"]),
];

#[test]
fn reads_the_text_in_front_of_a_fault(rt: HostRuntime) -> Result<(), Fail> {
    for (encoding, bytes, texts) in FAULTS {
        for (i, text) in texts.iter().enumerate() {
            let steps = steps_but(rt.alloc(), &[BYTE], i.saturating_add(1), FAULT)?;
            for call in CALLS {
                let way = (steps.as_slice(), (2, 4));
                let read = read_by(rt.alloc(), call, (*encoding, *bytes), way, 100)?;
                let had_errors = text.contains('\u{FFFD}');
                assert!(rt; read.text.as_slice() == text.as_bytes(), "{bytes:?}");
                assert!(rt;
                    read.state == (*encoding, had_errors) && read.failed,
                    "{bytes:?}"
                );
            }
        }
    }
    Ok(())
}

/// An input, and the offset and length of each malformed sequence. By the handlers of the Encoding
/// Standard, by hand.
#[rattlefmt::skip]
const FAULTY: &[(Encoding, &[u8], &[(u64, u8)])] = &[
    (UTF_8, b"", &[]),
    (UTF_8, b"caf\xC3\xA9", &[]),
    (UTF_8, b"\xEF\xBB\xBFa\xE2\x82\xFFb", &[(4, 2), (6, 1)]),
    (UTF_8, b"a\xF0\x90A\xED\xA0\x80\xE2\x82", &[(1, 2), (4, 1), (5, 1), (6, 1), (7, 2)]),
    (UTF_8, b"\xEF\xBB", &[(0, 2)]),
    (SHIFT_JIS, b"\x81 \x93\xFA\xFF", &[(0, 1), (4, 1)]),
    (EUC_JP, b"\xC6\xFC\x8F\xB0", &[(2, 2)]),
    (GB18030, b"\x81\x30\x81\xFF", &[(0, 1), (2, 2)]),
    (ISO_2022_JP, b"\x1B$B\x1B(Ba\xFF", &[(0, 3), (7, 1)]),
    (UTF_16LE, b"\xFF\xFE\x1F\x04a", &[(4, 1)]),
    (WINDOWS_1252, b"\xFE\xFF\x04\x1F\xDC\x00", &[(4, 2)]),
];

#[test]
fn reports_each_malformed_sequence(rt: HostRuntime) -> Result<(), Fail> {
    for (encoding, bytes, malformed) in FAULTY {
        for (step, len, room) in WAYS {
            let steps = [step];
            let way: Way = (&steps, (len, room));
            let read = read_by(rt.alloc(), Call::Report, (*encoding, *bytes), way, 100)?;
            assert!(rt; read.malformed.as_slice() == *malformed, "{bytes:?}");
        }
        compare_ways(&rt, rt.alloc(), (*encoding, *bytes))?;
    }
    Ok(())
}
