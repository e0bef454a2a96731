//! The outcomes of calls, in numbers.

ghost use Rattle.std.specs.Prelude.{◌≡◌, ◌≤◌};
ghost use Rattle.enc_handles.specs.Outcomes.{coder_result_by, decoder_result_by};
ghost use Rattle.enc_handles.specs.Outcomes.{encoder_result_by, refusal};

use enc_stream::{CoderResult, DecoderResult, EncoderResult};

/// All input is read.
pub const INPUT_EMPTY: u32 = 0;

/// What comes next does not fit into the output.
pub const OUTPUT_FULL: u32 = 1;

/// A malformed sequence or an unmappable character is reported.
pub const REPORTED: u32 = 2;

/// Nothing is done, since the decoder is finished.
pub const FINISHED: u32 = 3;

/// Nothing is done, since the text is not well-formed UTF-8.
pub const NOT_UTF8: u32 = 4;

/// What a call has done.
#[repr(C)]
#[derive(Drop)]
pub struct Outcome {
    /// Why it stopped: one of the numbers above.
    pub stop: u32,
    /// What it reports: of a malformed sequence 256 times its length in bytes, and the number of
    /// bytes read after it; of an unmappable character its number. Else 0.
    pub report: u32,
    /// The number of units read.
    pub read: usize,
    /// The number of units written.
    pub written: usize,
    /// Whether it has replaced a malformed sequence, or written a reference.
    pub replaced: bool,
}

impl Outcome {
    /// Returns the outcome of a call that has done nothing, for a reason.
    pub fn refusal(why: u32) -> Outcome
        ensures { result ≡ refusal why }
    {
        Outcome {
            stop: why,
            report: 0,
            read: 0,
            written: 0,
            replaced: false,
        }
    }
}

/// Returns the number of why a call with replacement stopped.
pub fn number_of_stop(stop: CoderResult) -> u32
    ensures number { coder_result_by result ≡ stop }
    ensures known { result ≤ 1 }
{
    match stop {
        CoderResult::InputEmpty => INPUT_EMPTY,
        CoderResult::OutputFull => OUTPUT_FULL,
    }
}

/// Returns the number of why a decoder's call without replacement stopped, and its report.
pub fn numbers_of_decoder_result(stop: DecoderResult) -> (u32, u32)
    ensures numbers { decoder_result_by result.0 result.1 ≡ stop }
    ensures known { result.0 ≤ 2 }
{
    match stop {
        DecoderResult::InputEmpty => (INPUT_EMPTY, 0),
        DecoderResult::OutputFull => (OUTPUT_FULL, 0),
        DecoderResult::Malformed(len, after) => (REPORTED, 256 * len as u32 + after as u32),
    }
}

/// Returns the number of why an encoder's call without replacement stopped, and its report.
pub fn numbers_of_encoder_result(stop: EncoderResult) -> (u32, u32)
    ensures numbers { encoder_result_by result.0 result.1 ≡ stop }
    ensures known { result.0 ≤ 2 }
{
    match stop {
        EncoderResult::InputEmpty => (INPUT_EMPTY, 0),
        EncoderResult::OutputFull => (OUTPUT_FULL, 0),
        EncoderResult::Unmappable(c) => (REPORTED, c as u32),
    }
}
