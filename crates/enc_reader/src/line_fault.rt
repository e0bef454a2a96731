//! Why a line can't be read.

ghost use Rattle.std.specs.Prelude.{◌≡◌};
ghost use Rattle.std.specs.IoError.{error_kind};
ghost use Rattle.enc_reader.specs.declared.line_fault.LineFault.TheVariants as fault;

use crate::decode_reader::ReadFault;
use std::error::Error;
use std::io::ErrorKind;
use std::{fmt, io};

/// Why a line can't be read to its end.
#[derive(PartialEq, Eq, Debug, Drop)]
pub enum LineFault {
    /// The reader failed.
    Read(ReadFault),
    /// No memory is left for the text. It stays to be read.
    Memory,
    /// A call of `read` or `consume` before has taken a part of a character. The rest stays to be
    /// read.
    MidCharacter,
}

impl fmt::Display for LineFault {
    ghost use Rattle.std.specs.Prelude.{Some};
    ghost use Rattle.enc_reader.specs.Errors.{line_fault_text};

    ghost output = { λ fault. Some (line_fault_text fault) };

    /// Writes the reason: a phrase in lower case, without a full stop.
    fn fmt<W: fmt::Write>(&self, f: &mut fmt::Formatter<W>) -> fmt::Result {
        match self {
            LineFault::Read(fault) => fault.fmt(f),
            LineFault::Memory => f.write_str("out of memory"),
            LineFault::MidCharacter => f.write_str("a part of a character is taken"),
        }
    }
}

impl Error for LineFault {}

impl From<ReadFault> for LineFault {
    ghost from_gives = { λ read e. e ≡ fault.Read read };

    fn from(fault: ReadFault) -> LineFault {
        LineFault::Read(fault)
    }
}

impl From<LineFault> for io::Error {
    ghost use Rattle.enc_reader.specs.Errors.{line_error_kind};

    ghost from_gives = { λ line error. error_kind error ≡ line_error_kind line };

    /// A fault of the reader is of the kind `Other`, and a part of a character of `InvalidData`.
    fn from(fault: LineFault) -> io::Error {
        match fault {
            LineFault::Read(fault) => io::Error::from(fault),
            LineFault::Memory => io::Error::from(ErrorKind::OutOfMemory),
            LineFault::MidCharacter => {
                io::Error::new(ErrorKind::InvalidData, "a part of a character is taken")
            }
        }
    }
}
