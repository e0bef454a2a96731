//! How the program ends: the line that it prints, and its exit status.

ghost use Rattle.std.specs.Prelude.{◌≡◌};
ghost use Rattle.recode_part.specs.Endings.{status_of_ending, printed_text};

use crate::task::Refusal;
use recode_engine::{RecodeError, status};
use std::fmt;

/// How the program ends.
#[derive(Drop)]
pub(crate) enum Ending {
    /// There was nothing to run.
    Refused(Refusal),
    /// A run has reached the end. It returned whether something was replaced.
    Ran(bool),
    /// A run failed.
    Failed(RecodeError),
}

impl fmt::Display for Ending {
    ghost output = { printed_text };

    /// Writes the line for standard error, with its line feed; nothing after a run without fault.
    fn fmt<W: fmt::Write>(&self, f: &mut fmt::Formatter<W>) -> fmt::Result {
        match self {
            Ending::Refused(refusal) => {
                f.write_str("recode_part: ")?;
                refusal.fmt(f)?;
                f.write_str("\n")
            }
            Ending::Failed(error) => {
                f.write_str("recode_part: ")?;
                error.fmt(f)?;
                f.write_str("\n")
            }
            Ending::Ran(_) => Ok(()),
        }
    }
}

/// Returns the exit status: 2 after a refusal, and otherwise that of the run.
pub(crate) fn exit_status(ending: &Ending) -> u8
    ensures { result ≡ status_of_ending ending.now }
{
    match ending {
        Ending::Refused(_) => 2,
        Ending::Ran(replaced) => status(&Ok(*replaced)),
        Ending::Failed(_) => 3,
    }
}
