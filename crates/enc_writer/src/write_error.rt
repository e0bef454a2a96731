//! A fault of a write with its cause.

ghost use Rattle.std.specs.Prelude.{◌≡◌, MatchOption};
ghost use Rattle.std.specs.IoError.{error_kind};
ghost use Rattle.std.specs.declared.io.ErrorKind.TheVariants.{Other};
ghost use Rattle.enc_writer.specs.Faults.{write_error_text};

use crate::fault::WriteFault;
use std::error::Error;
use std::{fmt, io};

/// A fault of a write, and its cause: the error of the sink, if the sink keeps it.
///
/// [`crate::EncodeWriter::with_cause`] makes one. It is printed as the fault and the cause, as
/// "write failed: No space left on device (os error 28)", or as the fault alone.
#[derive(Debug, Drop)]
pub struct WriteError {
    /// Why the write failed.
    pub fault: WriteFault,
    /// The error for which the sink has failed, if the sink keeps it.
    pub cause: Option<io::Error>,
}

impl fmt::Display for WriteError {
    ghost output = { λ error. write_error_text error.fault error.cause };

    /// Writes the fault, and after a colon and a space the cause, if there is one.
    fn fmt<W: fmt::Write>(&self, f: &mut fmt::Formatter<W>) -> fmt::Result {
        match &self.cause {
            Some(cause) => write!(f, "{}: {}", self.fault, cause),
            None => write!(f, "{}", self.fault),
        }
    }
}

impl Error for WriteError {}

impl From<WriteError> for io::Error {
    ghost from_gives = { λ error e. MatchOption error.cause (error_kind e ≡ Other)
        (λ cause. e ≡ cause) };

    /// Returns the cause, so that its kind and its text stay. Without a cause it is that of the
    /// fault: of kind `Other`, with the text of the fault.
    fn from(error: WriteError) -> io::Error {
        let WriteError { fault, cause } = error;
        match cause {
            Some(cause) => cause,
            None => io::Error::from(fault),
        }
    }
}
