//! Faults of a run, with the errors that caused them.

ghost use Rattle.std.specs.Prelude.{◌≡◌, ◌≢◌, IfSome, Some};
ghost use Rattle.std.specs.Option.{ForSome};
ghost use Rattle.std.specs.IoError.{error_kind};
ghost use Rattle.std.specs.declared.io.ErrorKind.TheVariants.{Interrupted};

use crate::engine::RecodeFault;
use enc_reader::Source;
use enc_writer::Sink;
use std::error::Error;
use std::{fmt, io};

/// The side of a run that has failed, and the I/O error for which it has, if it keeps that.
///
/// It prints both, as in `read failed: Is a directory (os error 21)`. As an [`io::Error`] it is the
/// cause itself, with its kind and its text, or the fault if there is none.
#[derive(Debug, Drop)]
pub struct RecodeError {
    fault: RecodeFault,
    cause: Option<io::Error>,
    ghost retried: { ForSome cause (λ e. error_kind e ≢ Interrupted) },
}

impl RecodeError {
    /// Returns the fault of a run between two sides, with the error that the side at fault keeps.
    pub fn new<R: Source, W: Sink>(fault: RecodeFault, reader: &R, writer: &W) -> RecodeError
        ensures fault { result.fault ≡ fault }
        ensures read { fault ≡ RecodeFault.Read
            → IfSome result.cause (λ e. R.error reader.now ≡ Some e) }
        ensures write { fault ≡ RecodeFault.Write
            → IfSome result.cause (λ e. W.error writer.now ≡ Some e) }
    {
        let cause = match &fault {
            RecodeFault::Read => reader.error(),
            RecodeFault::Write => writer.error(),
        };
        RecodeError { fault, cause }
    }

    /// Returns the side that has failed.
    pub fn fault(&self) -> &RecodeFault
        ensures { result.now ≡ self.now.fault }
    {
        &self.fault
    }

    /// Returns the I/O error for which it has failed, if it keeps that.
    pub fn cause(&self) -> Option<io::Error>
        ensures { result ≡ self.now.cause }
    {
        self.cause
    }
}

impl fmt::Display for RecodeError {
    ghost use Rattle.recode_engine.specs.Fault.{recode_error_text};

    ghost output = { λ e. recode_error_text e.fault e.cause };

    /// Writes which side has failed, and after a colon the cause, if there is one.
    fn fmt<W: fmt::Write>(&self, f: &mut fmt::Formatter<W>) -> fmt::Result {
        self.fault.fmt(f)?;
        let Some(cause) = self.cause else {
            return Ok(());
        };
        f.write_str(": ")?;
        cause.fmt(f)
    }
}

impl Error for RecodeError {}

impl From<RecodeError> for io::Error {
    ghost use Rattle.recode_engine.specs.Fault.{IsErrorOfRun};

    ghost from_gives = { λ e error. IsErrorOfRun e.cause error };

    /// Returns the cause, or an error of the kind `Other` with the text of the fault.
    fn from(error: RecodeError) -> io::Error {
        match error.cause {
            Some(cause) => cause,
            None => io::Error::from(error.fault),
        }
    }
}
