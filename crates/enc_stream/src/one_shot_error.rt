//! Why a one-shot call fails, as it is printed and as an I/O error.

ghost use Rattle.std.specs.Prelude.{◌≡◌};

use std::alloc::AllocError;
use std::error::Error;
use std::io::ErrorKind;
use std::{fmt, io};

/// Why a one-shot call failed.
#[derive(PartialEq, Eq, Debug, Drop)]
pub enum OneShotError {
    /// Memory was refused.
    Memory = 1,
    /// A length query, or its sum with the length written before, overflowed `usize`.
    TooLong = 2,
}

/// Returns the numbers of the errors.
fn numbers() -> (u8, u8)
    ensures { result ≡ (1, 2) }
{
    (OneShotError::Memory as u8, OneShotError::TooLong as u8)
}

impl fmt::Display for OneShotError {
    ghost use Rattle.std.specs.Prelude.{Some};
    ghost use Rattle.enc_stream.specs.Errors.{one_shot_error_text};

    ghost output = { λ error. Some (one_shot_error_text error) };

    /// Writes the reason: a phrase in lower case, without a full stop.
    fn fmt<W: fmt::Write>(&self, f: &mut fmt::Formatter<W>) -> fmt::Result {
        f.write_str(match self {
            OneShotError::Memory => "out of memory",
            OneShotError::TooLong => "a length to allocate overflows usize",
        })
    }
}

impl Error for OneShotError {}

impl From<AllocError> for OneShotError {
    ghost use Rattle.enc_stream.specs.declared.one_shot_error.OneShotError.TheVariants.{Memory};

    ghost from_gives = { λ _ error. error ≡ Memory };

    fn from(_refused: AllocError) -> OneShotError {
        OneShotError::Memory
    }
}

impl From<OneShotError> for io::Error {
    ghost use Rattle.std.specs.IoError.{error_kind};
    ghost use Rattle.enc_stream.specs.Errors.{one_shot_error_kind};

    ghost from_gives = { λ error as_io. error_kind as_io ≡ one_shot_error_kind error };

    /// Returns an error of kind `OutOfMemory`, or of kind `InvalidInput` with the printed reason.
    ///
    /// No memory makes an input shorter that is too long for a length to allocate: its caller has
    /// to pass another. A crate that uses this conversion names `enc_stream` in crates.txt, beside
    /// `encoding_rs`.
    fn from(error: OneShotError) -> io::Error {
        match error {
            OneShotError::Memory => io::Error::from(ErrorKind::OutOfMemory),
            OneShotError::TooLong => io::Error::new(
                ErrorKind::InvalidInput,
                "a length to allocate overflows usize",
            ),
        }
    }
}
