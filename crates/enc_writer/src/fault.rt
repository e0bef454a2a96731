//! Why a write failed.

ghost use Rattle.std.specs.Prelude.{◌≡◌};
ghost use Rattle.std.specs.IoError.{error_kind};
ghost use Rattle.std.specs.declared.io.ErrorKind.TheVariants.{Other};
ghost use Rattle.enc_writer.specs.Faults.{write_fault_text};

use std::error::Error;
use std::{fmt, io};

/// Why a write failed. It does not name the cause: [`crate::EncodeWriter::error`] does.
#[derive(PartialEq, Eq, Debug, Drop)]
pub enum WriteFault {
    /// The sink failed in this call, in a push or a flush. This ends the writer for good.
    Writer = 1,
    /// A call before has failed, or the sink had failed before.
    Failed = 2,
}

/// An unmappable character, at which a write without replacement has stopped.
#[derive(Clone, Copy, PartialEq, Eq, Debug)]
pub struct UnmappableStop {
    /// The character reported: in ISO-2022-JP U+FFFD for U+000E, U+000F and U+001B.
    pub character: char,
    /// The number of bytes of the text that are taken, with those of the character.
    pub taken: usize,
}

/// Returns the numbers of the faults.
fn numbers() -> (u8, u8)
    ensures { result ≡ (1, 2) }
{
    (WriteFault::Writer as u8, WriteFault::Failed as u8)
}

/// Returns the reason for a fault: a phrase in lower case, without a full stop.
fn reason(fault: &WriteFault) -> &'static str
    ensures { result.now ≡ write_fault_text fault.now }
{
    match fault {
        WriteFault::Writer => "write failed",
        WriteFault::Failed => "an earlier write failed",
    }
}

impl fmt::Display for WriteFault {
    ghost use Rattle.std.specs.Prelude.{Some};

    ghost output = { λ fault. Some (write_fault_text fault) };

    /// Writes the reason, which does not name the cause: [`crate::EncodeWriter::error`] does.
    fn fmt<W: fmt::Write>(&self, f: &mut fmt::Formatter<W>) -> fmt::Result {
        f.write_str(reason(self))
    }
}

impl Error for WriteFault {}

impl From<WriteFault> for io::Error {
    ghost from_gives = { λ _ e. error_kind e ≡ Other };

    /// Returns an error of kind `Other` with the printed reason.
    ///
    /// The error of the sink has the cause: [`crate::EncodeWriter::error`] gives it.
    fn from(fault: WriteFault) -> io::Error {
        io::Error::other(reason(&fault))
    }
}
