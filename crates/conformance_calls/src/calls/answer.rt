//! Answers of calls, and how they are written.

ghost use Rattle.std.specs.Prelude.{◌≡◌};

use crate::hexadecimal::{write_bytes, write_units};
use encoding_rs::{CoderResult, DecoderResult, EncoderResult};
use std::fmt;
use std::io::{self, Write};

/// Why a call has stopped.
#[derive(Clone, Copy)]
pub enum Stop {
    Coder(CoderResult),
    Decoder(DecoderResult),
    Encoder(EncoderResult),
}

/// The outcome of a call: why it has stopped, the numbers of units read and written and, with
/// replacement, whether something was replaced.
#[derive(Clone, Copy)]
pub struct Answer {
    pub stop: Stop,
    pub read: usize,
    pub written: usize,
    pub replaced: Option<bool>,
}

impl fmt::Display for Stop {
    /// Writes the name, with the numbers of a malformed sequence or the code point in parentheses.
    fn fmt<W: fmt::Write>(&self, f: &mut fmt::Formatter<W>) -> fmt::Result {
        match *self {
            Stop::Decoder(DecoderResult::Malformed(len, after)) => write!(
                f,
                "Malformed({len},{after})"
            ),
            Stop::Encoder(EncoderResult::Unmappable(it)) => write!(
                f,
                "Unmappable({:04X})",
                it as u32
            ),
            Stop::Coder(CoderResult::OutputFull)
            | Stop::Decoder(DecoderResult::OutputFull)
            | Stop::Encoder(EncoderResult::OutputFull) => write!(f, "OutputFull"),
            _ => write!(f, "InputEmpty"),
        }
    }
}

impl Answer {
    /// The answer of a call with replacement.
    pub(crate) fn of_replacing(outcome: (CoderResult, usize, usize, bool)) -> Answer
        ensures read { result.read ≡ outcome.1 }
        ensures written { result.written ≡ outcome.2 }
    {
        let (result, read, written, replaced) = outcome;
        Answer {
            stop: Stop::Coder(result),
            read,
            written,
            replaced: Some(replaced),
        }
    }

    /// The answer of a call of a decoder without replacement.
    pub(crate) fn of_decoding(outcome: (DecoderResult, usize, usize)) -> Answer
        ensures read { result.read ≡ outcome.1 }
        ensures written { result.written ≡ outcome.2 }
    {
        let (result, read, written) = outcome;
        Answer {
            stop: Stop::Decoder(result),
            read,
            written,
            replaced: None,
        }
    }

    /// The answer of a call of an encoder without replacement.
    pub(crate) fn of_encoding(outcome: (EncoderResult, usize, usize)) -> Answer
        ensures read { result.read ≡ outcome.1 }
        ensures written { result.written ≡ outcome.2 }
    {
        let (result, read, written) = outcome;
        Answer {
            stop: Stop::Encoder(result),
            read,
            written,
            replaced: None,
        }
    }

    /// Returns whether all input was read.
    pub(crate) fn is_end(&self) -> bool {
        matches!(
            self.stop,
            Stop::Coder(CoderResult::InputEmpty) | Stop::Encoder(EncoderResult::InputEmpty)
        )
    }

    /// Writes all but the units.
    pub(crate) fn write<W: Write>(&self, out: &mut W) -> io::Result<()> {
        write!(out, "{} {} {} ", self.stop, self.read, self.written)?;
        match self.replaced {
            None => write!(out, "- "),
            Some(replaced) => write!(out, "{replaced} "),
        }
    }
}

/// Writes bytes in hexadecimal, or `-` for none.
pub(crate) fn write_bytes_or_none<W: Write>(out: &mut W, bytes: &[u8]) -> io::Result<()> {
    if bytes.is_empty() {
        return write!(out, "-");
    }
    write_bytes(out, bytes)
}

/// Writes code units in hexadecimal, or `-` for none.
pub(crate) fn write_units_or_none<W: Write>(out: &mut W, units: &[u16]) -> io::Result<()> {
    if units.is_empty() {
        return write!(out, "-");
    }
    write_units(out, units)
}
