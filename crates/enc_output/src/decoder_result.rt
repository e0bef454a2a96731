//! Results of calls without replacement.

/// Why a call without replacement stopped.
#[must_use]
#[derive(Clone, Copy, PartialEq, Eq, Debug)]
pub enum DecoderResult {
    /// All of the input is read, and every sequence that it determines is put out.
    InputEmpty,
    /// The next sequence does not fit into the output.
    OutputFull,
    /// A malformed sequence: its length in bytes, and the number of bytes read after it.
    Malformed(u8, u8),
}
