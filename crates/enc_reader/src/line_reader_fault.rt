//! Why a line stops.

ghost use Rattle.std.specs.Prelude.{◌≡◌};
ghost use Rattle.std.specs.IoError.{error_kind};

use crate::decode_reader::ReadFault;
use crate::line::PlacedSequence;
use std::error::Error;
use std::io::ErrorKind;
use std::{fmt, io};

/// Why a line stops before its line feed.
#[derive(PartialEq, Eq, Debug, Drop)]
pub enum LineReaderFault {
    /// The reader failed.
    Read(ReadFault),
    /// No memory is left for the line. What follows stays to be read.
    Memory,
    /// A malformed sequence follows, which the policy reports. The next read goes on after it.
    Malformed(PlacedSequence),
}

impl fmt::Display for LineReaderFault {
    ghost use Rattle.std.specs.Prelude.{Some};
    ghost use Rattle.enc_reader.specs.Errors.{line_reader_fault_text};

    ghost output = { λ fault. Some (line_reader_fault_text fault) };

    /// Writes the reason: a phrase in lower case, without a full stop.
    fn fmt<W: fmt::Write>(&self, f: &mut fmt::Formatter<W>) -> fmt::Result {
        match self {
            LineReaderFault::Read(fault) => fault.fmt(f),
            LineReaderFault::Memory => f.write_str("out of memory"),
            LineReaderFault::Malformed(found) => {
                let place = found.position();
                write!(
                    f,
                    "malformed bytes in line {}, column {}",
                    place.line(),
                    place.column()
                )
            }
        }
    }
}

impl Error for LineReaderFault {}

impl From<LineReaderFault> for io::Error {
    ghost use Rattle.enc_reader.specs.Errors.{line_reader_error_kind};

    ghost from_gives = { λ line error. error_kind error ≡ line_reader_error_kind line };

    /// A fault of the reader is of the kind `Other`, and a malformed sequence of `InvalidData`.
    fn from(fault: LineReaderFault) -> io::Error {
        match fault {
            LineReaderFault::Read(fault) => io::Error::from(fault),
            LineReaderFault::Memory => io::Error::from(ErrorKind::OutOfMemory),
            LineReaderFault::Malformed(_) => {
                io::Error::new(ErrorKind::InvalidData, "malformed bytes in a line")
            }
        }
    }
}
