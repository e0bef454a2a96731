//! Calls of an encoder for text that may not be well-formed UTF-8: they test it first.

ghost use Rattle.std.specs.Prelude.{◌≡◌, ◌≤◌, true, false, length, take, drop, chars};
ghost use Rattle.std.specs.Char.{encode_utf8};
ghost use Rattle.std.specs.Str.{IsUtf8, IsCharBoundary};
ghost use Rattle.enc_input.specs.Results.{encoder_result_of};
ghost use Rattle.enc_encoder.specs.ErrorMode.{Fatal};
ghost use Rattle.enc_stream.specs.Encoder.{EncodesChunk, html_mode, LeavesFewerSteps};
ghost use Rattle.enc_stream.specs.Encoder.{room_kept_for_references};
ghost use Rattle.enc_stream.specs.Need.{EncodesByNeed};
ghost use Rattle.enc_handles.specs.Outcomes.{coder_result_by, encoder_result_by, refusal};

use crate::encoders::{
    encoding_c_encode_from_utf8, encoding_c_encode_from_utf8_without_replacement,
};
use enc_handles::{EncoderAt, NOT_UTF8, Outcome};
use enc_stream::Encoding;

/// Returns whether bytes are well-formed UTF-8.
fn is_utf8(bytes: &[u8]) -> bool
    ensures valid { result ≡ true → IsUtf8 bytes.now }
    ensures invalid { result ≡ false → ¬ (IsUtf8 bytes.now) }
{
    Encoding::utf8_valid_up_to(bytes) == bytes.len()
}

/// Encodes a chunk of text, with replacement, after a test that it is well-formed UTF-8.
///
/// If it is not, it does nothing, and stops at 4. The same as the call without a test otherwise.
#[unsafe(no_mangle)]
pub extern "C" fn encoding_c_encode_from_utf8_tested(
    encoder: &mut EncoderAt,
    src: &[u8],
    dst: &mut [u8],
    last: bool,
) -> Outcome
    requires ready { encoder.old.ready ≡ true }
    ensures ready { encoder.new.ready ≡ true }
    ensures stop { IsUtf8 src.now → (result.stop ≤ 1) × (result.report ≡ 0) }
    ensures call { IsUtf8 src.now →
        EncodesChunk encode_utf8 encoder.old.value encoder.new.value (record {
          src = chars src.now;
          last = last;
          mode = html_mode encoder.old.value;
          room = length dst.old;
          result = encoder_result_of (coder_result_by result.stop);
          read = result.read;
          wrote = take result.written dst.new;
          replaced = result.replaced;
        }) }
    ensures read { result.read ≤ length src.now }
    ensures boundary { IsUtf8 src.now → IsCharBoundary src.now result.read }
    ensures written { result.written ≤ length dst.old }
    ensures rest { drop result.written dst.new ≡ drop result.written dst.old }
    ensures progress { IsUtf8 src.now → result.stop ≡ 1 → 14 ≤ length dst.old →
        LeavesFewerSteps encoder.old.value encoder.new.value last
        (chars src.now) (chars (drop result.read src.now)) }
    ensures progress_if_none_kept { IsUtf8 src.now → result.stop ≡ 1 →
        room_kept_for_references encoder.old.value.barred encoder.old.value.encoding ≡ 0 →
        4 ≤ length dst.old → LeavesFewerSteps encoder.old.value encoder.new.value last
        (chars src.now) (chars (drop result.read src.now)) }
    ensures refused { ¬ (IsUtf8 src.now) →
        (result ≡ refusal 4) × (encoder.new.value ≡ encoder.old.value) }
{
    if !is_utf8(src) {
        return Outcome::refusal(NOT_UTF8);
    }
    encoding_c_encode_from_utf8(encoder, src, dst, last)
}

/// Encodes a chunk of text, without replacement, after a test that it is well-formed UTF-8.
///
/// If it is not, it does nothing, and stops at 4. The same as the call without a test otherwise.
#[unsafe(no_mangle)]
pub extern "C" fn encoding_c_encode_from_utf8_without_replacement_tested(
    encoder: &mut EncoderAt,
    src: &[u8],
    dst: &mut [u8],
    last: bool,
) -> Outcome
    requires ready { encoder.old.ready ≡ true }
    ensures ready { encoder.new.ready ≡ true }
    ensures stop { IsUtf8 src.now → (result.stop ≤ 2) × (result.replaced ≡ false) }
    ensures call { IsUtf8 src.now →
        EncodesChunk encode_utf8 encoder.old.value encoder.new.value (record {
          src = chars src.now;
          last = last;
          mode = Fatal;
          room = length dst.old;
          result = encoder_result_by result.stop result.report;
          read = result.read;
          wrote = take result.written dst.new;
          replaced = false;
        }) }
    ensures need { IsUtf8 src.now → EncodesByNeed encode_utf8 encoder.old.value encoder.new.value
        (chars src.now) last (length dst.old)
        (encoder_result_by result.stop result.report) result.read result.written }
    ensures read { result.read ≤ length src.now }
    ensures boundary { IsUtf8 src.now → IsCharBoundary src.now result.read }
    ensures written { result.written ≤ length dst.old }
    ensures rest { drop result.written dst.new ≡ drop result.written dst.old }
    ensures progress { IsUtf8 src.now → 1 ≤ result.stop → 4 ≤ length dst.old →
        LeavesFewerSteps encoder.old.value encoder.new.value last
        (chars src.now) (chars (drop result.read src.now)) }
    ensures refused { ¬ (IsUtf8 src.now) →
        (result ≡ refusal 4) × (encoder.new.value ≡ encoder.old.value) }
{
    if !is_utf8(src) {
        return Outcome::refusal(NOT_UTF8);
    }
    encoding_c_encode_from_utf8_without_replacement(encoder, src, dst, last)
}
