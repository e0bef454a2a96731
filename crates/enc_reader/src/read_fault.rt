//! The texts of the faults of a reader.

ghost use Rattle.std.specs.Prelude.{◌≡◌};
ghost use Rattle.std.specs.IoError.{error_kind};
ghost use Rattle.std.specs.declared.io.ErrorKind.TheVariants.{Other};
ghost use Rattle.enc_reader.specs.Errors.{read_fault_text};

use crate::decode_reader::ReadFault;
use std::error::Error;
use std::{fmt, io};

/// Returns what a fault says.
fn fault_text(fault: &ReadFault) -> &'static str
    ensures { result.now ≡ read_fault_text fault.now }
{
    match fault {
        ReadFault::Reader => "the source of the text failed",
        ReadFault::Failed => "the reader of the text has failed before",
    }
}

impl fmt::Display for ReadFault {
    ghost use Rattle.std.specs.Prelude.{Some};
    ghost use Rattle.enc_reader.specs.Errors.{read_fault_text as text_of};

    ghost output = { λ fault. Some (text_of fault) };

    /// Writes one phrase.
    fn fmt<W: fmt::Write>(&self, f: &mut fmt::Formatter<W>) -> fmt::Result {
        f.pad(fault_text(self))
    }
}

impl Error for ReadFault {}

impl From<ReadFault> for io::Error {
    ghost from_gives = { λ _ error. error_kind error ≡ Other };

    /// Returns an error of the kind `Other` with the text of the fault.
    fn from(fault: ReadFault) -> io::Error {
        io::Error::other(fault_text(&fault))
    }
}
