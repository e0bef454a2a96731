//! The outcome of a call.

use enc_output::DecoderResult;

/// The outcome of a call of a decoder.
#[derive(Clone, Copy, Debug, PartialEq, Eq)]
pub struct DecoderOutcome {
    /// Why it stopped.
    pub result: DecoderResult,
    /// The number of bytes read.
    pub read: usize,
    /// Whether a malformed sequence was replaced.
    pub replaced: bool,
}
