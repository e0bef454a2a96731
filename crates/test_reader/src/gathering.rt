//! Inputs that are read to their end, or up to a fault, by each call that reads text.

use enc_reader::{DecodeReader, DecodedText, FromRead, LineFault, ReadFault, ReadStop, Source};
use enc_stream::Encoding;
use std::alloc::Global;
use std::io::{BufRead, Read};
use std::test::Fail;
use test_devices::{Step, StepReader};

/// The calls that read text.
#[derive(Clone, Copy)]
pub(crate) enum Call {
    ReadStr,
    Report,
    Lend,
    Read,
    FillBuf,
    Line,
}

/// All of them.
#[rattlefmt::skip]
pub(crate) const CALLS: [Call; 6] =
    [Call::ReadStr, Call::Report, Call::Lend, Call::Read, Call::FillBuf, Call::Line];

/// The outcome of reads.
#[derive(Drop)]
pub(crate) struct Gathered {
    /// The text, with U+FFFD for each malformed sequence.
    pub(crate) text: Vec<u8>,
    /// The offset and length of each malformed sequence that was reported.
    pub(crate) malformed: Vec<(u64, u8)>,
    /// The encoding after the last read, and whether there were errors then.
    pub(crate) state: (Encoding, bool),
    /// Whether the source failed in the last read.
    pub(crate) failed: bool,
    /// The number of calls of the device.
    pub(crate) calls: usize,
}

impl Gathered {
    /// The outcome before the first read.
    fn new(alloc: Global, encoding: Encoding) -> Gathered {
        Gathered {
            text: Vec::new(alloc),
            malformed: Vec::new(alloc),
            state: (encoding, false),
            failed: false,
            calls: 0,
        }
    }

    /// Adds a piece of text, and returns whether it has any.
    fn add(&mut self, piece: &[u8]) -> Result<bool, Fail> {
        self.text.extend_from_slice(piece)?;
        Ok(!piece.is_empty())
    }

    /// Adds a line. A line feed ends it, and nothing follows a line without one.
    fn add_line(&mut self, line: &[u8]) -> Result<(), Fail> {
        let is_after_line = self.text.is_empty() || self.text.ends_with(b"\n");
        let is_line = !line[..line.len().saturating_sub(1)].contains(&b'\n');
        if !is_line || !(is_after_line || line.is_empty()) {
            return Err("lines are divided elsewhere".into());
        }
        self.text.extend_from_slice(line)?;
        Ok(())
    }

    /// Notes that the source failed in a read. No other follows.
    fn fail(&mut self, fault: ReadFault) -> Result<bool, Fail> {
        self.failed = fault == ReadFault::Reader;
        Ok(false)
    }
}

/// Reads once by a call of a reader. Returns whether there was text.
fn read_once<R: Source>(
    call: Call,
    reader: &mut DecodeReader<'_, R>,
    part: &mut [u8],
    gathered: &mut Gathered,
) -> Result<bool, Fail> {
    if part.len() < 4 {
        return Err("too short a buffer".into());
    }
    match call {
        Call::ReadStr => match reader.read_str(part) {
            Ok(n) => gathered.add(&part[..n]),
            Err(fault) => gathered.fail(fault),
        },
        Call::Report => match reader.read_str_without_replacement(part) {
            Ok(ReadStop::Text(n)) => gathered.add(&part[..n]),
            Ok(
                ReadStop::Malformed {
                    written,
                    offset,
                    len,
                },
            ) => {
                gathered.malformed.push((offset, len))?;
                gathered.text.extend_from_slice(&part[..written])?;
                gathered.add("\u{FFFD}".as_bytes())
            }
            Err(fault) => gathered.fail(fault),
        },
        _ => match reader.read_or_lend(part) {
            Ok(handed) => gathered.add(reader.text(part, handed).as_bytes()),
            Err(fault) => gathered.fail(fault),
        },
    }
}

/// Reads once by a call of a `DecodedText`. Returns whether there was text.
fn take_once<R: Source>(
    alloc: Global,
    call: Call,
    held: &mut DecodedText<'_, R>,
    gathered: &mut Gathered,
) -> Result<bool, Fail> {
    match call {
        Call::Read => {
            let mut part = [0; 100];
            let Ok(n) = held.read(&mut part) else {
                return gathered.fail(ReadFault::Reader);
            };
            let Some(piece) = part.get(..n) else {
                return Err("more than there is room for".into());
            };
            gathered.add(piece)
        }
        Call::FillBuf => {
            let Ok(piece) = held.fill_buf() else {
                return gathered.fail(ReadFault::Reader);
            };
            let len = piece.len();
            gathered.text.extend_from_slice(piece)?;
            held.consume(len);
            Ok(len > 0)
        }
        _ => {
            let mut line = String::new(alloc);
            let outcome = held.read_line(&mut line);
            gathered.add_line(line.as_bytes())?;
            match outcome.map_err(|error| error.into_fault()) {
                Ok(n) if n == line.len() => Ok(n > 0),
                Err(LineFault::Read(fault)) => gathered.fail(fault),
                _ => Err("another outcome of a line".into()),
            }
        }
    }
}

/// A device's steps, the length of the buffer to read into, from 1 to 16384, and of the one for
/// text, from 4 to 8192.
pub(crate) type Way<'a> = (&'a [Step], (usize, usize));

/// Reads by a call of a reader.
fn read(
    alloc: Global,
    call: Call,
    (encoding, bytes): (Encoding, &[u8]),
    (steps, (len, room)): Way<'_>,
    most: usize,
) -> Result<Gathered, Fail> {
    let mut gathered = Gathered::new(alloc, encoding);
    let mut source = FromRead::new(StepReader::new(bytes, steps));
    let (mut input, mut part) = ([0; 16384], [0; 8192]);
    let (len, room) = (len.max(1).min(16384), room.max(4).min(8192));
    let mut reader = DecodeReader::new(&mut source, Some(encoding), &mut input[..len]);
    for _ in 0..most {
        let goes_on = read_once(call, &mut reader, &mut part[..room], &mut gathered)?;
        if !goes_on || gathered.text.len() >= most {
            break;
        }
    }
    gathered.state = (reader.encoding(), reader.had_errors());
    gathered.calls = source.into_inner().calls;
    Ok(gathered)
}

/// Reads by a call of a `DecodedText`.
fn take(
    alloc: Global,
    call: Call,
    (encoding, bytes): (Encoding, &[u8]),
    (steps, (len, room)): Way<'_>,
    most: usize,
) -> Result<Gathered, Fail> {
    let mut gathered = Gathered::new(alloc, encoding);
    let mut source = FromRead::new(StepReader::new(bytes, steps));
    let (mut input, mut text) = ([0; 16384], [0; 8192]);
    let (len, room) = (len.max(1).min(16384), room.max(4).min(8192));
    let reader = DecodeReader::new(&mut source, Some(encoding), &mut input[..len]);
    let mut held = DecodedText::new(reader, &mut text[..room]);
    for _ in 0..most {
        let goes_on = take_once(alloc, call, &mut held, &mut gathered)?;
        if !goes_on || gathered.text.len() >= most {
            break;
        }
    }
    gathered.state = (held.reader().encoding(), held.reader().had_errors());
    gathered.calls = source.into_inner().calls;
    Ok(gathered)
}

/// Reads by a call until `most` bytes of text are there, or to the end or a fault.
pub(crate) fn read_by(
    alloc: Global,
    call: Call,
    input: (Encoding, &[u8]),
    way: Way<'_>,
    most: usize,
) -> Result<Gathered, Fail> {
    match call {
        Call::ReadStr | Call::Report | Call::Lend => read(alloc, call, input, way, most),
        Call::Read | Call::FillBuf | Call::Line => take(alloc, call, input, way, most),
    }
}
