//! Faults with the errors that caused them.

ghost use Rattle.std.specs.Prelude.{◌≡◌, ◌≢◌};
ghost use Rattle.std.specs.Option.{ForSome};
ghost use Rattle.std.specs.IoError.{error_kind};
ghost use Rattle.std.specs.declared.io.ErrorKind.TheVariants.{Interrupted};

use crate::decode_reader::ReadFault;
use crate::line_fault::LineFault;
use crate::line_reader_fault::LineReaderFault;
use std::error::Error;
use std::{fmt, io};

/// A fault, and the I/O error that caused it, if the source keeps that.
///
/// It prints both, as in `the source of the text failed: Is a directory (os error 21)`. As an
/// [`io::Error`] it is the cause itself, with its kind and its text, or the fault if there is none.
#[derive(Debug, Drop)]
pub struct Caused<F> {
    fault: F,
    cause: Option<io::Error>,
    ghost retried: { ForSome cause (λ e. error_kind e ≢ Interrupted) },
}

/// Why a read of a [`DecodeReader`](crate::DecodeReader) failed, with its cause.
pub type ReadError = Caused<ReadFault>;

/// Why a line can't be read to its end, with its cause.
pub type LineError = Caused<LineFault>;

/// Why a line of a [`LineReader`](crate::LineReader) stops before its line feed, with its cause.
pub type LineReaderError = Caused<LineReaderFault>;

impl<F> Caused<F> {
    /// Returns a fault with its cause, which is not of the kind `Interrupted`.
    pub(crate) fn new(fault: F, cause: Option<io::Error>) -> Caused<F>
        requires retried { ForSome cause (λ e. error_kind e ≢ Interrupted) }
        ensures fault { result.fault ≡ fault }
        ensures cause { result.cause ≡ cause }
    {
        Caused { fault, cause }
    }

    /// Returns the fault.
    pub fn fault(&self) -> &F
        ensures { result.now ≡ self.now.fault }
    {
        &self.fault
    }

    /// Returns the fault without its cause.
    pub fn into_fault(self) -> F
        ensures { result ≡ self.fault }
    {
        self.fault
    }

    /// Returns the I/O error that caused the fault, if the source keeps it.
    pub fn cause(&self) -> Option<io::Error>
        ensures { result ≡ self.now.cause }
    {
        self.cause
    }
}

impl<F: fmt::Display> fmt::Display for Caused<F> {
    ghost use Rattle.enc_reader.specs.Errors.{printed_with_cause};

    ghost output = { λ e. printed_with_cause (F.output e.fault) e.cause };

    /// Writes the fault, and after a colon the cause, if there is one.
    fn fmt<W: fmt::Write>(&self, f: &mut fmt::Formatter<W>) -> fmt::Result {
        self.fault.fmt(f)?;
        let Some(cause) = self.cause else {
            return Ok(());
        };
        f.write_str(": ")?;
        cause.fmt(f)
    }
}

impl Error for ReadError {}

impl Error for LineError {}

impl Error for LineReaderError {}

impl From<ReadError> for LineError {
    ghost use Rattle.enc_reader.specs.Errors.{IsLineErrorOf};

    ghost from_gives = { λ read line. IsLineErrorOf read line };

    fn from(error: ReadError) -> LineError {
        Caused::new(LineFault::Read(error.fault), error.cause)
    }
}

impl From<ReadError> for io::Error {
    ghost use Rattle.enc_reader.specs.Errors.{IsCauseOrOf};
    ghost use Rattle.std.specs.declared.io.ErrorKind.TheVariants.{Other};

    ghost from_gives = { λ read error. IsCauseOrOf read.cause Other error };

    /// Returns the cause, or an error of the kind `Other` with the text of the fault.
    fn from(error: ReadError) -> io::Error {
        io::Error::from(LineError::from(error))
    }
}

impl From<LineError> for io::Error {
    ghost use Rattle.enc_reader.specs.Errors.{line_error_kind, IsCauseOrOf as IsCauseOr};

    ghost from_gives = { λ line error. IsCauseOr line.cause (line_error_kind line.fault) error };

    /// Returns the cause, or the error of the fault.
    fn from(error: LineError) -> io::Error {
        match error.cause {
            Some(cause) => cause,
            None => io::Error::from(error.fault),
        }
    }
}

impl From<LineReaderError> for io::Error {
    ghost use Rattle.enc_reader.specs.Errors.{line_reader_error_kind, IsCauseOrOf as IsCauseOf};

    ghost from_gives = { λ line error.
        IsCauseOf line.cause (line_reader_error_kind line.fault) error };

    /// Returns the cause, or the error of the fault.
    fn from(error: LineReaderError) -> io::Error {
        if let Some(cause) = error.cause {
            return cause;
        }
        io::Error::from(error.fault)
    }
}
