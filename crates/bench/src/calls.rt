//! Makes calls again and again: `bench calls KIND LABEL LEN ROOM ROUNDS`.
//!
//! Standard input, of 64 KiB at most, is cut into pieces of LEN bytes, at least 2. A shorter rest
//! is left out, and so is all from the first piece on whose end is within a character of UTF-8,
//! where a call takes text. Each round makes a call for each piece, as KIND says:
//!
//! - `to-utf8`, `to-utf16`: a new decoder, with room for ROOM bytes or code units;
//! - `decode`: the one-shot call;
//! - `for-label`: the encoding of a label, in ASCII whitespace;
//! - `valid-utf8`, `valid-ascii`, `valid-iso-2022-jp`: the length of the longest valid prefix;
//! - `latin1`: the length of the prefix that is Latin-1 to a new decoder without BOM handling;
//! - `from-utf8`, `from-utf16`: a new encoder, with room for ROOM bytes; code units are read from
//!   UTF-16LE;
//! - `encode`: the one-shot call;
//! - `chunks-` and `to-utf8`, `to-utf16`, `from-utf8` or `from-utf16`: one decoder or encoder for
//!   all pieces of a round, with as many calls for each as its room takes.
//!
//! Standard output is the sum of the lengths and of the last units of what each piece gives; of a
//! query, of the length that it returns. The status is 0, 2 for wrong arguments, and 3 after an I/O
//! error.

ghost use Rattle.std.specs.Prelude.{◌≤◌, length, IfOk};

mod chunks;
mod kind;
mod pieces;
mod queries;
mod single;
mod units;

use encoding_rs::Encoding;
use kind::Kind;
use pieces::{CutInput, Setting, call_for_bytes, call_for_text, call_for_units};
use std::io::Read;
use std::process::ExitCode;
use std::{env, io};
use units::units_of;

/// The greatest length of the input in bytes, and of an output in bytes or code units.
const LENGTH: usize = 65536;

/// The greatest number of code units of the input.
const UNITS: usize = 32768;

/// The least room of a call: any character fits, and its decimal reference with a change of the
/// character set.
const LEAST_ROOM: usize = 16;

/// What the arguments say.
#[derive(Clone, Copy)]
struct Job {
    kind: Kind,
    encoding: Encoding,
    /// The length of a piece in bytes.
    len: usize,
    /// The room of a call, in the units that it writes.
    room: usize,
    rounds: u64,
}

/// Reads up to the end of the input or of the chunk. Returns the number of bytes read.
fn fill<R: Read>(input: &mut R, chunk: &mut [u8]) -> io::Result<usize>
    ensures { IfOk result (λ len. len ≤ length chunk.new) }
{
    let mut at = 0;
    'reads: while at < chunk.len() {
        let len = input.read(&mut chunk[at..])?;
        if len == 0 {
            break 'reads;
        }
        at += len;
    }
    Ok(at)
}

/// Returns the job that the arguments describe. `None` if one is missing or unknown.
fn job_of(rt: &HostRuntime) -> io::Result<Option<Job>> {
    let mut args = env::args(rt)?.skip(2);
    let (Some(kind), Some(label), Some(len), Some(room), Some(rounds)) = (
        args.next(),
        args.next(),
        args.next(),
        args.next(),
        args.next(),
    ) else {
        return Ok(None);
    };
    let (Some(kind), Some(encoding)) = (
        Kind::named(kind.as_str()),
        Encoding::for_label(label.as_bytes()),
    ) else {
        return Ok(None);
    };
    let (Ok(len), Ok(room), Ok(rounds)) = (
        len.parse::<usize>(),
        room.parse::<usize>(),
        rounds.parse::<u64>(),
    ) else {
        return Ok(None);
    };
    Ok(Some(Job {
        kind,
        encoding,
        len,
        room,
        rounds,
    }))
}

/// Makes the calls of all rounds, and returns their sum.
fn sum_of(setting: Setting, job: Job, input: &[u8]) -> u64 {
    let (mut bytes, mut units) = ([0; LENGTH], [0; LENGTH]);
    let (len, room) = (job.len.max(2), job.room.clamp(LEAST_ROOM, LENGTH));
    let (bytes, units) = (&mut bytes[..room], &mut units[..room]);
    let mut read = [0; UNITS];
    let count = units_of(input, &mut read);
    let text = str::from_utf8(input).unwrap_or("");
    let mut total = 0u64;
    for _ in 0..job.rounds {
        let sum = match job.kind {
            Kind::Bytes(call) => {
                let cut = CutInput { bytes: input, len };
                call_for_bytes(setting, call, cut, bytes, units)
            }
            Kind::Text(call) => call_for_text(setting, call, text, len, bytes),
            Kind::Units(call) => {
                call_for_units(setting.encoding, call, &read[..count], len / 2, bytes)
            }
        };
        total = total.wrapping_add(sum);
    }
    total
}

/// Makes the calls that the arguments describe, and writes their sum.
pub(crate) fn run(rt: &HostRuntime) -> ExitCode {
    let Ok(Some(job)) = job_of(rt) else {
        return ExitCode::from(2);
    };
    let mut input = [0; LENGTH];
    let Ok(len) = fill(&mut rt.stdin(), &mut input) else {
        return ExitCode::from(3);
    };
    let setting = Setting {
        alloc: rt.alloc(),
        encoding: job.encoding,
    };
    let total = sum_of(setting, job, &input[..len]);
    match println!(rt; "{total}") {
        Ok(()) => ExitCode::from(0),
        Err(_) => ExitCode::from(3),
    }
}
