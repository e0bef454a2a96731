//! Lines from a `LineReader`, with the malformed sequences in them and their places.
//!
//! Texts by policy are those of Python's error handlers `replace`, `ignore` and `backslashreplace`.
//! Offsets, lines and columns are counted by hand.

ghost use Rattle.std.specs.Prelude.{◌≤◌, length};

use enc_reader::{
    DecodeReader, FromRead, Line, LineReader, LineReaderFault, MalformedPolicy, PlacedSequence,
    ReadFault, Source,
};
use enc_stream::Encoding;
use enc_stream::constants::{GB18030, ISO_2022_JP, SHIFT_JIS, UTF_8, UTF_16LE};
use std::alloc::Global;
use std::io::ErrorKind;
use std::test::Fail;
use test_devices::{BYTE, FAULT, StepReader, message_of, text_of};

/// A malformed sequence: its offset, its bytes, its line and its column.
type Place<'a> = (u64, &'a [u8], u64, u64);

/// A line: its text, and its malformed sequences.
type Want<'a> = (&'a str, &'a [Place<'a>]);

/// Returns whether a sequence is at a place.
fn is_at(found: &PlacedSequence, want: &Place<'_>) -> bool {
    let (offset, bytes, line, column) = *want;
    let sequence = found.sequence();
    let place = found.position();
    sequence.offset() == offset
        && sequence.bytes() == bytes
        && (place.line(), place.column()) == (line, column)
}

/// Returns whether a line is the one that is wanted.
fn is_line(line: &Line, want: &Want<'_>) -> bool {
    let (text, places) = *want;
    let found = line.malformed();
    line.text() == text
        && found.len() == places.len()
        && found
            .iter()
            .zip(places)
            .all(|(found, want)| is_at(found, want))
}

/// Fails unless the lines of a reader are these, and no others.
fn expect_lines<R: Source>(
    alloc: Global,
    lines: &mut LineReader<'_, R>,
    want: &[Want<'_>],
) -> Result<(), Fail> {
    let mut line = Line::new(alloc);
    for one in want {
        if !lines.read_line(&mut line)? || !is_line(&line, one) {
            return Err("another line".into());
        }
        line.clear();
    }
    if lines.read_line(&mut line)? || !is_line(&line, &("", &[])) {
        return Err("more lines".into());
    }
    Ok(())
}

/// An input, and the lines that are wanted of it.
struct Case {
    encoding: Encoding,
    bytes: &'static [u8],
    policy: MalformedPolicy,
    lines: &'static [Want<'static>],
}

/// Reads the lines of a case through a buffer for its text, from a source that gives all bytes and
/// from one that gives a byte a read.
fn check_through(alloc: Global, case: &Case, room: &mut [u8]) -> Result<(), Fail>
    requires room { 4 ≤ length room.old }
{
    let mut input = [0; 16];
    let mut source = FromRead::new(case.bytes);
    let reader = DecodeReader::new(&mut source, Some(case.encoding), &mut input);
    let mut lines = LineReader::new(reader, &mut *room, case.policy);
    expect_lines(alloc, &mut lines, case.lines)?;
    let mut byte = [0; 1];
    let mut source = FromRead::new(StepReader::new(case.bytes, &[BYTE]));
    let reader = DecodeReader::new(&mut source, Some(case.encoding), &mut byte);
    let mut lines = LineReader::new(reader, room, case.policy);
    expect_lines(alloc, &mut lines, case.lines)
}

/// Reads the lines of a case through small buffers and a large one.
fn check_lines(alloc: Global, case: &Case) -> Result<(), Fail> {
    check_through(alloc, case, &mut [0; 4])?;
    check_through(alloc, case, &mut [0; 5])?;
    check_through(alloc, case, &mut [0; 7])?;
    check_through(alloc, case, &mut [0; 64])
}

const UTF_8_BYTES: &[u8] = b"caf\xE9\n\xF0\x9F\x98\x80\xFF\xE3\x81x\n\n\xC3";

const REPLACED_UTF_8: Case = Case {
    encoding: UTF_8,
    bytes: UTF_8_BYTES,
    policy: MalformedPolicy::Replace,
    lines: &[
        ("caf\u{FFFD}\n", &[(3, b"\xE9", 1, 4)]),
        (
            "\u{1F600}\u{FFFD}\u{FFFD}x\n",
            &[(9, b"\xFF", 2, 2), (10, b"\xE3\x81", 2, 3)],
        ),
        ("\n", &[]),
        ("\u{FFFD}", &[(15, b"\xC3", 4, 1)]),
    ],
};

/// 93 FA is U+65E5, and 96 7B is U+672C.
const REPLACED_SHIFT_JIS: Case = Case {
    encoding: SHIFT_JIS,
    bytes: b"\x93\xFA\x81\n\x96\x7B\xFFz\x82",
    policy: MalformedPolicy::Replace,
    lines: &[
        ("\u{65E5}\u{FFFD}\n", &[(2, b"\x81", 1, 2)]),
        (
            "\u{672C}\u{FFFD}z\u{FFFD}",
            &[(6, b"\xFF", 2, 2), (8, b"\x82", 2, 4)],
        ),
    ],
};

#[test]
fn a_replaced_sequence_is_one_column(rt: HostRuntime) -> Result<(), Fail> {
    check_lines(rt.alloc(), &REPLACED_UTF_8)?;
    check_lines(rt.alloc(), &REPLACED_SHIFT_JIS)
}

/// The last line has no text.
const IGNORED_UTF_8: Case = Case {
    encoding: UTF_8,
    bytes: UTF_8_BYTES,
    policy: MalformedPolicy::Ignore,
    lines: &[
        ("caf\n", &[(3, b"\xE9", 1, 4)]),
        (
            "\u{1F600}x\n",
            &[(9, b"\xFF", 2, 2), (10, b"\xE3\x81", 2, 3)],
        ),
        ("\n", &[]),
        ("", &[(15, b"\xC3", 4, 1)]),
    ],
};

#[test]
fn an_ignored_sequence_keeps_its_column(rt: HostRuntime) -> Result<(), Fail> {
    check_lines(rt.alloc(), &IGNORED_UTF_8)
}

const ESCAPED_UTF_8: Case = Case {
    encoding: UTF_8,
    bytes: UTF_8_BYTES,
    policy: MalformedPolicy::Escape,
    lines: &[
        ("caf\\xe9\n", &[(3, b"\xE9", 1, 4)]),
        (
            "\u{1F600}\\xff\\xe3\\x81x\n",
            &[(9, b"\xFF", 2, 2), (10, b"\xE3\x81", 2, 3)],
        ),
        ("\n", &[]),
        ("\\xc3", &[(15, b"\xC3", 4, 1)]),
    ],
};

/// The first byte is malformed, and the digits and the text after it are read anew.
const ESCAPED_GB18030: Case = Case {
    encoding: GB18030,
    bytes: b"a\x8109z\n\xD6\xD0",
    policy: MalformedPolicy::Escape,
    lines: &[("a\\x8109z\n", &[(1, b"\x81", 1, 2)]), ("\u{4E2D}", &[])],
};

#[test]
fn an_escaped_sequence_shows_each_byte(rt: HostRuntime) -> Result<(), Fail> {
    check_lines(rt.alloc(), &ESCAPED_UTF_8)?;
    check_lines(rt.alloc(), &ESCAPED_GB18030)
}

/// U+0A0A has two bytes 0A.
const ESCAPED_UTF_16LE: Case = Case {
    encoding: UTF_16LE,
    bytes: b"\x0A\x0A\x0A\0b\0\0\xD8\x0A\0",
    policy: MalformedPolicy::Escape,
    lines: &[
        ("\u{A0A}\n", &[]),
        ("b\\x00\\xd8\n", &[(6, b"\0\xD8", 2, 2)]),
    ],
};

/// Escape sequences are no columns.
const REPLACED_ISO_2022_JP: Case = Case {
    encoding: ISO_2022_JP,
    bytes: b"\x1B$B8l\x1B(B\n\x1B$B8lx\x1B(By",
    policy: MalformedPolicy::Replace,
    lines: &[
        ("\u{8A9E}\n", &[]),
        ("\u{8A9E}\u{FFFD}y", &[(14, b"x", 2, 2)]),
    ],
};

#[test]
fn line_feeds_of_other_shapes_end_lines(rt: HostRuntime) -> Result<(), Fail> {
    check_lines(rt.alloc(), &ESCAPED_UTF_16LE)?;
    check_lines(rt.alloc(), &REPLACED_ISO_2022_JP)
}

/// Reads a line up to a malformed sequence that is reported.
fn read_report<R: Source>(
    lines: &mut LineReader<'_, R>,
    line: &mut Line,
) -> Option<PlacedSequence> {
    match lines.read_line(line).err()?.into_fault() {
        LineReaderFault::Malformed(found) => Some(found),
        _ => None,
    }
}

#[test]
fn a_reported_sequence_stops_the_line(rt: HostRuntime) -> Result<(), Fail> {
    let mut input = [0; 4];
    let mut room = [0; 4];
    let mut source = FromRead::new(b"a\xFFb\xFE\nc".as_slice());
    let reader = DecodeReader::new(&mut source, Some(UTF_8), &mut input);
    let mut lines = LineReader::new(reader, &mut room, MalformedPolicy::Report);
    assert!(rt; lines.policy() == MalformedPolicy::Report);
    let mut line = Line::new(rt.alloc());
    let found = read_report(&mut lines, &mut line).ok_or("no report")?;
    assert!(rt; is_at(&found, &(1, b"\xFF", 1, 2)) && is_line(&line, &("a", &[])));
    assert!(rt; (lines.position().line(), lines.position().column()) == (1, 3));
    // It goes on with the same line.
    let found = read_report(&mut lines, &mut line).ok_or("no report")?;
    assert!(rt; is_at(&found, &(3, b"\xFE", 1, 4)) && is_line(&line, &("ab", &[])));
    assert!(rt; lines.read_line(&mut line)? && is_line(&line, &("ab\n", &[])));
    line.clear();
    assert!(rt; lines.read_line(&mut line)? && is_line(&line, &("c", &[])));
    assert!(rt; !lines.read_line(&mut line)? && is_line(&line, &("c", &[])));
    assert!(rt; lines.reader().had_errors());
    Ok(())
}

#[test]
fn places_are_asked_between_lines(rt: HostRuntime) -> Result<(), Fail> {
    let mut input = [0; 4];
    let mut room = [0; 4];
    let mut source = FromRead::new("\u{FEFF}é\n\nab".as_bytes());
    let reader = DecodeReader::new(&mut source, Some(UTF_8), &mut input);
    let mut lines = LineReader::new(reader, &mut room, MalformedPolicy::Replace);
    let mut line = Line::new(rt.alloc());
    for want in [(1, 1), (2, 1), (3, 1)] {
        assert!(rt; (lines.position().line(), lines.position().column()) == want);
        assert!(rt; lines.read_line(&mut line)?);
    }
    assert!(rt; (lines.position().line(), lines.position().column()) == (3, 3));
    // A line grows until it is cleared.
    assert!(rt; line.text() == "é\n\nab");
    assert!(rt; !lines.read_line(&mut line)?);
    assert!(rt; (lines.position().line(), lines.position().column()) == (3, 3));
    Ok(())
}

#[test]
fn refused_memory_loses_nothing_of_a_line(rt: HostRuntime) -> Result<(), Fail> {
    let mut input = [0; 4];
    let mut room = [0; 4];
    let mut source = FromRead::new(b"ab\xFF\xE3\x81c\n".as_slice());
    let reader = DecodeReader::new(&mut source, Some(UTF_8), &mut input);
    let mut lines = LineReader::new(reader, &mut room, MalformedPolicy::Escape);
    let mut line = Line::new(rt.alloc());
    for _ in 0..100 {
        match lines
            .read_line(&mut line)
            .map_err(|error| error.into_fault())
        {
            Ok(_) => break,
            Err(LineReaderFault::Memory) => {}
            Err(_) => return Err("the text can't be read".into()),
        }
    }
    let want = [
        (2, b"\xFF".as_slice(), 1, 3),
        (3, b"\xE3\x81".as_slice(), 1, 4),
    ];
    assert!(rt; is_line(&line, &("ab\\xff\\xe3\\x81c\n", &want)));
    Ok(())
}

#[test]
fn a_fault_keeps_the_start_of_a_line(rt: HostRuntime) -> Result<(), Fail> {
    let mut input = [0; 4];
    let mut room = [0; 4];
    let mut source = FromRead::new(StepReader::new(b"a\xFFb", &[BYTE, BYTE, FAULT]));
    let reader = DecodeReader::new(&mut source, Some(UTF_8), &mut input);
    let mut lines = LineReader::new(reader, &mut room, MalformedPolicy::Escape);
    let mut line = Line::new(rt.alloc());
    let error = lines.read_line(&mut line).err().ok_or("no fault")?;
    assert!(rt; *error.fault() == LineReaderFault::Read(ReadFault::Reader));
    // The cause is the error of the source, in words and as an I/O error.
    let cause = message_of(rt.alloc(), error.cause())?;
    let text = text_of(rt.alloc(), &error)?;
    assert!(rt; text.as_str().starts_with("the source of the text failed: "));
    assert!(rt; text.as_str().ends_with(cause.as_str()));
    let printed = text_of(rt.alloc(), &std::io::Error::from(error))?;
    assert!(rt; printed.as_str() == cause.as_str());
    assert!(rt; is_line(&line, &("a\\xff", &[(1, b"\xFF", 1, 2)])));
    let error = lines.read_line(&mut line).err().ok_or("no fault")?;
    assert!(rt; *error.fault() == LineReaderFault::Read(ReadFault::Failed));
    assert!(rt; (lines.position().line(), lines.position().column()) == (1, 3));
    Ok(())
}

#[test]
fn faults_of_lines_are_io_errors(rt: HostRuntime) -> Result<(), Fail> {
    let mut input = [0; 4];
    let mut room = [0; 4];
    let mut source = FromRead::new(b"\n a\xFF".as_slice());
    let reader = DecodeReader::new(&mut source, Some(UTF_8), &mut input);
    let mut lines = LineReader::new(reader, &mut room, MalformedPolicy::Report);
    let mut line = Line::new(rt.alloc());
    assert!(rt; lines.read_line(&mut line)?);
    let error = lines.read_line(&mut line).err().ok_or("no report")?;
    let text = text_of(rt.alloc(), &error)?;
    assert!(rt; text.as_str() == "malformed bytes in line 2, column 3");
    assert!(rt; std::io::Error::from(error).kind() == ErrorKind::InvalidData);
    Ok(())
}
