//! Why a run fails, as it is printed and as an I/O error.

ghost use Rattle.std.specs.Prelude.{◌≡◌};

use std::alloc::AllocError;
use std::error::Error;
use std::io::ErrorKind;
use std::{fmt, io};

/// Why a run failed.
#[derive(PartialEq, Eq, Debug, Drop)]
pub enum RunError {
    /// Memory was refused.
    Memory = 1,
}

/// Returns the number of the error.
fn number() -> u8
    ensures { result ≡ 1 }
{
    RunError::Memory as u8
}

impl fmt::Display for RunError {
    ghost use Rattle.std.specs.Prelude.{Some, codes};

    ghost output = { λ _. Some (codes "out of memory") };

    /// Writes the reason: a phrase in lower case, without a full stop.
    fn fmt<W: fmt::Write>(&self, f: &mut fmt::Formatter<W>) -> fmt::Result {
        f.write_str("out of memory")
    }
}

impl Error for RunError {}

impl From<AllocError> for RunError {
    ghost use Rattle.encoding_rs.specs.declared.run.error.RunError.TheVariants.{Memory};

    ghost from_gives = { λ _ error. error ≡ Memory };

    fn from(_refused: AllocError) -> RunError {
        RunError::Memory
    }
}

impl From<RunError> for io::Error {
    ghost use Rattle.std.specs.IoError.{error_kind};
    ghost use Rattle.std.specs.declared.io.ErrorKind.TheVariants.{OutOfMemory};

    ghost from_gives = { λ _ as_io. error_kind as_io ≡ OutOfMemory };

    /// Returns an error of kind `OutOfMemory`.
    fn from(_refused: RunError) -> io::Error {
        io::Error::from(ErrorKind::OutOfMemory)
    }
}
