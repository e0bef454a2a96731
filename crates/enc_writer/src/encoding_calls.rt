//! Calls of an encoder into the free part of a buffer. The bytes before it stay.

ghost use Rattle.std.specs.Prelude.{◌≡◌, ◌+◌, ◌-◌, ◌≤◌, length, take, drop, chars, false};
ghost use Rattle.std.specs.Char.{encode_utf8};
ghost use Rattle.std.specs.Char.Escape.{encode_utf16};
ghost use Rattle.std.specs.Char.Utf16.{utf16_lossy_chars};
ghost use Rattle.std.specs.Str.{IsCharBoundary};
ghost use Rattle.enc_input.specs.Results.{encoder_result_of};
ghost use Rattle.enc_encoder.specs.ErrorMode.{Fatal};
ghost use Rattle.enc_stream.specs.Encoder.{EncodesChunk, html_mode, LeavesFewerSteps};

use enc_stream::{CoderResult, Encoder, EncoderResult};

/// The outcome of a call with replacement.
#[derive(Clone, Copy)]
pub(crate) struct CallOutcome {
    pub(crate) result: CoderResult,
    /// The number of code units read.
    pub(crate) read: usize,
    /// The number of bytes written.
    pub(crate) written: usize,
    /// Whether a reference was written.
    pub(crate) replaced: bool,
}

/// The outcome of a call without replacement.
#[derive(Clone, Copy)]
pub(crate) struct ReportOutcome {
    pub(crate) result: EncoderResult,
    /// The number of bytes read.
    pub(crate) read: usize,
    /// The number of bytes written.
    pub(crate) written: usize,
}

/// Encodes from UTF-8, up to an unmappable character, into `output` after its first `held` bytes.
/// Text follows.
pub(crate) fn encode_mappable_after(
    encoder: &mut Encoder,
    text: &str,
    output: &mut [u8],
    held: usize,
) -> ReportOutcome
    requires room { held + 14 ≤ length output.old }
    ensures call { EncodesChunk encode_utf8 encoder.old encoder.new (record {
      src = chars text.now;
      last = false;
      mode = Fatal;
      room = length output.old - held;
      result = result.result;
      read = result.read;
      wrote = take result.written (drop held output.new);
      replaced = false;
    }) }
    ensures read { result.read ≤ length text.now }
    ensures boundary { IsCharBoundary text.now result.read }
    ensures written { held + result.written ≤ length output.new }
    ensures held { take held output.new ≡ take held output.old }
    ensures length { length output.new ≡ length output.old }
    ensures progress { (result.result ≡ EncoderResult.InputEmpty → ⊥) →
        LeavesFewerSteps encoder.old encoder.new false
        (chars text.now) (chars (drop result.read text.now)) }
{
    let (result, read, written) = encoder.encode_from_utf8_without_replacement(
        text,
        &mut output[held..],
        false,
    );
    ReportOutcome {
        result,
        read,
        written,
    }
}

/// Encodes from UTF-8, with replacement, into `output` after its first `held` bytes.
pub(crate) fn encode_utf8_after(
    encoder: &mut Encoder,
    text: &str,
    output: &mut [u8],
    held: usize,
    last: bool,
) -> CallOutcome
    requires room { held + 14 ≤ length output.old }
    ensures call { EncodesChunk encode_utf8 encoder.old encoder.new (record {
      src = chars text.now;
      last = last;
      mode = html_mode encoder.old;
      room = length output.old - held;
      result = encoder_result_of result.result;
      read = result.read;
      wrote = take result.written (drop held output.new);
      replaced = result.replaced;
    }) }
    ensures read { result.read ≤ length text.now }
    ensures boundary { IsCharBoundary text.now result.read }
    ensures written { held + result.written ≤ length output.new }
    ensures held { take held output.new ≡ take held output.old }
    ensures length { length output.new ≡ length output.old }
    ensures progress { (result.result ≡ CoderResult.InputEmpty → ⊥) →
        LeavesFewerSteps encoder.old encoder.new last
        (chars text.now) (chars (drop result.read text.now)) }
{
    let (result, read, written, replaced) = encoder.encode_from_utf8(
        text,
        &mut output[held..],
        last,
    );
    CallOutcome {
        result,
        read,
        written,
        replaced,
    }
}

/// Encodes from UTF-16, with replacement, into `output` after its first `held` bytes. Text follows.
pub(crate) fn encode_utf16_after(
    encoder: &mut Encoder,
    text: &[u16],
    output: &mut [u8],
    held: usize,
) -> CallOutcome
    requires room { held + 14 ≤ length output.old }
    ensures call { EncodesChunk encode_utf16 encoder.old encoder.new (record {
      src = utf16_lossy_chars text.now;
      last = false;
      mode = html_mode encoder.old;
      room = length output.old - held;
      result = encoder_result_of result.result;
      read = result.read;
      wrote = take result.written (drop held output.new);
      replaced = result.replaced;
    }) }
    ensures read { result.read ≤ length text.now }
    ensures written { held + result.written ≤ length output.new }
    ensures held { take held output.new ≡ take held output.old }
    ensures length { length output.new ≡ length output.old }
    ensures progress { (result.result ≡ CoderResult.InputEmpty → ⊥) →
        LeavesFewerSteps encoder.old encoder.new false
        (utf16_lossy_chars text.now) (utf16_lossy_chars (drop result.read text.now)) }
{
    let (result, read, written, replaced) = encoder.encode_from_utf16(
        text,
        &mut output[held..],
        false,
    );
    CallOutcome {
        result,
        read,
        written,
        replaced,
    }
}
