//! What a call of an encoder returns.

use enc_input::EncoderResult;

/// The outcome of a call of an encoder.
#[derive(Clone, Copy)]
pub struct EncoderOutcome {
    /// Why it stopped. With references that is never at an unmappable character.
    pub result: EncoderResult,
    /// The number of code units read.
    pub read: usize,
    /// The number of bytes written.
    pub written: usize,
    /// Whether a reference was written.
    pub replaced: bool,
}
