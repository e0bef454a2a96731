//! Error modes, and what a call is asked for.

/// An error mode of decoders (Encoding Standard 4.1).
#[derive(Clone, Copy, Debug, PartialEq, Eq)]
pub enum ErrorMode {
    /// U+FFFD is written for each malformed sequence.
    Replacement,
    /// A call stops at a malformed sequence and reports it.
    Fatal,
}

/// What a call is asked for, beside its chunk and its output.
#[derive(Clone, Copy)]
pub struct CallOptions {
    /// Whether nothing follows the chunk.
    pub last: bool,
    /// The error mode.
    pub mode: ErrorMode,
}
