//! Results of calls with replacement.

/// Why a call with replacement stopped.
#[must_use]
#[derive(Clone, Copy, PartialEq, Eq, Debug)]
pub enum CoderResult {
    /// All of the input is read, and all output that it determines is written.
    InputEmpty,
    /// The next output does not fit.
    OutputFull,
}
