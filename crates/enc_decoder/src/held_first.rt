//! A codec's call over held bytes and those that follow them.

ghost use Rattle.std.specs.Prelude.{◌≡◌, ℕ, ◌+◌, ◌≤◌, ◌++◌};
ghost use Rattle.enc_decoder.specs.Call.{IsCodecCall, shifted_result, reaches_end as ends};
ghost use Rattle.enc_decoder.specs.CallRecord.{call_into};

use crate::RawDecoder;
use crate::error_mode::CallOptions;
use crate::outcome::DecoderOutcome;
use enc_output::{DecoderResult, Units};

/// Decodes the held bytes and then those of `src`, as if they came together.
///
/// Both are counted as read.
pub fn decode_held_first<D: RawDecoder, U: Units>(
    codec: &mut D,
    held: &[u8],
    src: &[u8],
    out: &mut U,
    options: CallOptions,
) -> DecoderOutcome
    ensures call { IsCodecCall U.units_of (D.state codec.old) (D.state codec.new)
        (call_into (held.now ++ src.now) options (U.output out.old) (U.output out.new) result) }
    ensures formulas { D.formulas codec.new ≡ D.formulas codec.old }
{
    if held.is_empty() {
        return codec.decode(src, out, options);
    }
    if src.is_empty() {
        return codec.decode(held, out, options);
    }
    let first = codec.decode(
        held,
        out,
        CallOptions {
            last: false,
            mode: options.mode,
        },
    );
    if first.result != DecoderResult::InputEmpty {
        return first;
    }
    let then = codec.decode(src, out, options);
    DecoderOutcome {
        result: then.result,
        read: first.read + then.read,
        replaced: first.replaced | then.replaced,
    }
}

/// Returns whether a call has reached the end of the input.
pub fn reaches_end(last: bool, stop: DecoderResult) -> bool
    ensures { result ≡ ends last stop }
{
    match stop {
        DecoderResult::InputEmpty => last,
        DecoderResult::OutputFull => false,
        DecoderResult::Malformed(_, _) => false,
    }
}

/// Returns the same result, if `held` bytes more are held after those of the codec.
pub fn shift_malformed(stop: DecoderResult, held: usize) -> DecoderResult
    requires few { (l a : ℕ) → stop ≡ DecoderResult.Malformed l a → a + held ≤ 255 }
    ensures { result ≡ shifted_result stop held }
{
    match stop {
        DecoderResult::InputEmpty => stop,
        DecoderResult::OutputFull => stop,
        DecoderResult::Malformed(len, pending) => DecoderResult::Malformed(
            len,
            pending + held as u8,
        ),
    }
}
