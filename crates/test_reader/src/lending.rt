//! Reads that lend long stretches of text in place of copying them.

use crate::gathering::{Call, Way, read_by};
use enc_reader::{DecodeReader, FromRead};
use enc_stream::Encoding;
use enc_stream::constants::{UTF_8, WINDOWS_1252};
use std::alloc::Global;
use std::process::Abort;
use std::test::Fail;
use test_devices::{ALL_BYTES, BYTE, NAMES, Step, StepReader};

/// The front of an input, a text in it, how often it comes, and the end.
type Parts = (&'static [u8], &'static str, usize, &'static [u8]);

/// An input, the steps by which it comes, and the pieces in which its text is read: the length of
/// each, and whether it is lent.
#[rattlefmt::skip]
const ROWS: &[(Encoding, Parts, &[Step], &[(usize, bool)])] = &[
    // while a byte order mark may come, nothing is lent
    (WINDOWS_1252, (b"caf\xE9 ", "abcdefghij", 900, b"\x80"), &[ALL_BYTES],
        &[(4096, false), (4910, true), (3, false)]),
    // two bytes of a character end the chunk that begins with another, and the last one is cut
    (UTF_8, (b"\xC3\xA9ab", "日日本本", 1000, b"\xE6\x97"),
        &[Step::Move(4), Step::Move(6008), ALL_BYTES],
        &[(4, false), (6006, true), (5994, true), (3, false)]),
    // two bytes of a character come one by one, and the third with all that follows
    (UTF_8, (b"\xC3\xA9ab", "日", 1500, b""), &[Step::Move(4), BYTE, BYTE, ALL_BYTES],
        &[(4, false), (4500, true)]),
    // fewer than 4096 bytes are not lent
    (WINDOWS_1252, (b"\xE9ab", "x", 1, b""), &[Step::Move(3), ALL_BYTES],
        &[(4, false), (1, false)]),
    (WINDOWS_1252, (b"\xE9ab", "x", 4095, b""), &[Step::Move(3), ALL_BYTES],
        &[(4, false), (4095, false)]),
    (WINDOWS_1252, (b"\xE9ab", "x", 4096, b""), &[Step::Move(3), ALL_BYTES],
        &[(4, false), (4096, true)]),
    (WINDOWS_1252, (b"\xE9ab", "x", 8000, b""), &[Step::Move(3), ALL_BYTES],
        &[(4, false), (8000, true)]),
];

/// The bytes of parts.
fn join(alloc: Global, (front, text, times, end): Parts) -> Result<Vec<u8>, Fail> {
    let mut bytes = Vec::new(alloc);
    bytes.extend_from_slice(front)?;
    for _ in 0..times {
        bytes.extend_from_slice(text.as_bytes())?;
    }
    bytes.extend_from_slice(end)?;
    Ok(bytes)
}

/// A byte that no text has.
const NO_TEXT: u8 = 0xFF;

/// Reads the text of a device to its end, in these pieces. Those that are lent leave the buffer as
/// it is.
fn compare_pieces(
    rt: &impl Abort,
    encoding: Encoding,
    device: StepReader<'_>,
    text: &[u8],
    pieces: &[(usize, bool)],
) -> Result<(), Fail> {
    let mut source = FromRead::new(device);
    let mut input = [0; 16384];
    let mut reader = DecodeReader::new(&mut source, Some(encoding), &mut input);
    let mut rest = text;
    for (len, is_lent) in pieces {
        let (want, after) = rest.split_at_checked(*len).ok_or("too little text")?;
        rest = after;
        let mut part = [NO_TEXT; 4096];
        let Ok(handed) = reader.read_or_lend(&mut part) else {
            return Err("the source can't be read".into());
        };
        assert!(rt;
            reader.text(&part, handed).as_bytes() == want,
            "of {len} bytes"
        );
        assert!(rt;
            part.as_slice().starts_with(want) != *is_lent,
            "of {len} bytes"
        );
        assert!(rt; !*is_lent || part == [NO_TEXT; 4096], "of {len} bytes");
    }
    assert!(rt; rest.is_empty() && reader.read_str(&mut [0; 4]) == Ok(0));
    Ok(())
}

#[test]
fn lends_long_text_where_it_was_read(rt: HostRuntime) -> Result<(), Fail> {
    for (encoding, parts, steps, pieces) in ROWS {
        let bytes = join(rt.alloc(), *parts)?;
        let (text, _, _) = encoding.decode(rt.alloc(), &bytes)?;
        let device = StepReader::new(&bytes, *steps);
        compare_pieces(&rt, *encoding, device, text.as_bytes(), *pieces)?;
    }
    Ok(())
}

/// Bytes between two long stretches of ASCII: characters of several encodings, an escape sequence
/// that ISO-2022-JP stays within, lead bytes that the stretch follows, and a byte order mark that
/// is none there.
#[rattlefmt::skip]
const BETWEEN: &[&[u8]] = &[
    b"", b"caf\xE9", b"\xE6\x97\xA5\xF0\x9F\x92\xA9", b"\x93\xFA\x96", b"\x1B$B", b"\x81\x30\x81",
    b"\xEF\xBB\xBF", b"\x3D\xD8\xA9",
];

#[test]
fn lends_the_text_of_the_whole_input(rt: HostRuntime) -> Result<(), Fail> {
    let letters = join(rt.alloc(), (b"", "abcdefghijklmnopqrstuvwxyz", 200, b""))?;
    let Some(front) = letters.as_slice().get(..4999) else {
        return Err("too few letters".into());
    };
    for name in NAMES.split(' ') {
        let encoding = Encoding::for_label(name.as_bytes()).ok_or("no encoding")?;
        for between in BETWEEN {
            // a chunk ends after the first byte between the stretches
            let mut bytes = Vec::new(rt.alloc());
            bytes.extend_from_slice(front)?;
            bytes.extend_from_slice(*between)?;
            bytes.extend_from_slice(&letters)?;
            let (text, by, had_errors) = encoding.decode(rt.alloc(), &bytes)?;
            let way: Way = (&[ALL_BYTES], (5000, 64));
            let read = read_by(rt.alloc(), Call::Lend, (encoding, &bytes), way, 100_000)?;
            assert!(rt; read.text.as_slice() == text.as_bytes(), "{between:?}");
            assert!(rt; read.state == (by, had_errors), "{between:?}");
        }
    }
    Ok(())
}
