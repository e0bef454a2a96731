//! Encoders: new ones, calls, and what they say of themselves.

ghost use Rattle.std.specs.Prelude.{◌≡◌, ◌≤◌, true, false, [], is_some, IfSome, IsNone, Some};
ghost use Rattle.std.specs.Prelude.{length, take, drop, chars};
ghost use Rattle.std.specs.Char.{encode_utf8};
ghost use Rattle.std.specs.Char.Escape.{encode_utf16};
ghost use Rattle.std.specs.Char.Utf16.{utf16_lossy_chars};
ghost use Rattle.std.specs.Str.{IsUtf8, IsCharBoundary};
ghost use Rattle.enc_encoder.specs.EncoderRule.{is_escape_due};
ghost use Rattle.enc_input.specs.Results.{encoder_result_of};
ghost use Rattle.enc_encoder.specs.ErrorMode.{Fatal};
ghost use Rattle.enc_stream.specs.Encoder.{EncodesChunk, fresh_encoder, html_mode};
ghost use Rattle.enc_stream.specs.Encoder.{LeavesFewerSteps};
ghost use Rattle.enc_stream.specs.Encoder.{room_kept_for_references};
ghost use Rattle.enc_stream.specs.Need.{EncodesByNeed};
ghost use Rattle.enc_stream.specs.Numbers.{encoding_of_number};
ghost use Rattle.enc_handles.specs.Outcomes.{coder_result_by, encoder_result_by, refusal};

use enc_handles::{EncoderAt, NOT_UTF8, Outcome, number_of_stop, numbers_of_encoder_result};
use enc_stream::{Encoder, Encoding};

/// Returns the number of bytes of an encoder, at most 64. They are aligned as 8 bytes are.
#[unsafe(no_mangle)]
pub extern "C" fn encoding_c_encoder_size() -> usize
    ensures { result ≤ 64 }
{
    size_of::<Encoder>()
}

/// Puts an encoder of its output encoding there (Encoding Standard 4.3).
///
/// Returns false and does nothing if there is no such encoding.
#[unsafe(no_mangle)]
pub extern "C" fn encoding_c_new_encoder(encoder: &mut EncoderAt, encoding: u32) -> bool
    ensures found { result ≡ is_some (encoding_of_number encoding) }
    ensures made { IfSome (encoding_of_number encoding) (λ e. (encoder.new.ready ≡ true)
        × (encoder.new.value ≡ fresh_encoder [] e)) }
    ensures none { IsNone (encoding_of_number encoding)
        → (encoder.new.ready ≡ encoder.old.ready) × (encoder.new.value ≡ encoder.old.value) }
{
    match Encoding::from_number(encoding) {
        Some(found) => {
            encoder.put(found.new_encoder());
            true
        }
        None => false,
    }
}

/// Returns the number of the encoding that it writes, which is an output encoding.
#[unsafe(no_mangle)]
pub extern "C" fn encoding_c_encoder_encoding(encoder: &mut EncoderAt) -> u32
    requires ready { encoder.old.ready ≡ true }
    ensures ready { encoder.new.ready ≡ true }
    ensures same { encoder.new.value ≡ encoder.old.value }
    ensures encoding { encoding_of_number result ≡ Some encoder.old.value.encoding }
{
    encoder.get().encoding().number()
}

/// Returns whether an escape sequence is due at the end of the text, in ISO-2022-JP alone.
#[unsafe(no_mangle)]
pub extern "C" fn encoding_c_encoder_has_pending_state(encoder: &mut EncoderAt) -> bool
    requires ready { encoder.old.ready ≡ true }
    ensures ready { encoder.new.ready ≡ true }
    ensures same { encoder.new.value ≡ encoder.old.value }
    ensures pending { result ≡ is_escape_due encoder.old.value.set }
{
    encoder.get().has_pending_state()
}

/// Encodes a chunk of UTF-8, with replacement (Encoding Standard 4.1, "html").
///
/// Stops at 0 where all input is read, and at 1 where the output is full. Condition: `src` is
/// well-formed UTF-8.
#[unsafe(no_mangle)]
pub extern "C" fn encoding_c_encode_from_utf8(
    encoder: &mut EncoderAt,
    src: &[u8],
    dst: &mut [u8],
    last: bool,
) -> Outcome
    requires ready { encoder.old.ready ≡ true }
    requires text { IsUtf8 src.now }
    ensures ready { encoder.new.ready ≡ true }
    ensures stop { (result.stop ≤ 1) × (result.report ≡ 0) }
    ensures call { EncodesChunk encode_utf8 encoder.old.value encoder.new.value (record {
      src = chars src.now;
      last = last;
      mode = html_mode encoder.old.value;
      room = length dst.old;
      result = encoder_result_of (coder_result_by result.stop);
      read = result.read;
      wrote = take result.written dst.new;
      replaced = result.replaced;
    }) }
    ensures read { result.read ≤ length src.now }
    ensures boundary { IsCharBoundary src.now result.read }
    ensures written { result.written ≤ length dst.old }
    ensures rest { drop result.written dst.new ≡ drop result.written dst.old }
    ensures progress { result.stop ≡ 1 → 14 ≤ length dst.old →
        LeavesFewerSteps encoder.old.value encoder.new.value last
        (chars src.now) (chars (drop result.read src.now)) }
    ensures progress_if_none_kept { result.stop ≡ 1 →
        room_kept_for_references encoder.old.value.barred encoder.old.value.encoding ≡ 0 →
        4 ≤ length dst.old → LeavesFewerSteps encoder.old.value encoder.new.value last
        (chars src.now) (chars (drop result.read src.now)) }
{
    let text = unsafe { std::str::from_utf8_unchecked(src) };
    let (stop, read, written, replaced) = encoder.get().encode_from_utf8(text, dst, last);
    Outcome {
        stop: number_of_stop(stop),
        report: 0,
        read,
        written,
        replaced,
    }
}

/// Encodes a chunk of UTF-8, without replacement: up to an unmappable character.
///
/// That is error mode "fatal" of Encoding Standard 4.1, except that the next call continues after
/// the character. Stops as the call with replacement does, and at 2 if a character is unmappable.
/// Then the report is the character. Condition: `src` is well-formed UTF-8.
#[unsafe(no_mangle)]
pub extern "C" fn encoding_c_encode_from_utf8_without_replacement(
    encoder: &mut EncoderAt,
    src: &[u8],
    dst: &mut [u8],
    last: bool,
) -> Outcome
    requires ready { encoder.old.ready ≡ true }
    requires text { IsUtf8 src.now }
    ensures ready { encoder.new.ready ≡ true }
    ensures stop { (result.stop ≤ 2) × (result.replaced ≡ false) }
    ensures call { EncodesChunk encode_utf8 encoder.old.value encoder.new.value (record {
      src = chars src.now;
      last = last;
      mode = Fatal;
      room = length dst.old;
      result = encoder_result_by result.stop result.report;
      read = result.read;
      wrote = take result.written dst.new;
      replaced = false;
    }) }
    ensures need { EncodesByNeed encode_utf8 encoder.old.value encoder.new.value
        (chars src.now) last (length dst.old)
        (encoder_result_by result.stop result.report) result.read result.written }
    ensures read { result.read ≤ length src.now }
    ensures boundary { IsCharBoundary src.now result.read }
    ensures written { result.written ≤ length dst.old }
    ensures rest { drop result.written dst.new ≡ drop result.written dst.old }
    ensures progress { 1 ≤ result.stop → 4 ≤ length dst.old →
        LeavesFewerSteps encoder.old.value encoder.new.value last
        (chars src.now) (chars (drop result.read src.now)) }
{
    let text = unsafe { std::str::from_utf8_unchecked(src) };
    let inner = encoder.get();
    let (result, read, written) = inner.encode_from_utf8_without_replacement(text, dst, last);
    let (stop, report) = numbers_of_encoder_result(result);
    Outcome {
        stop,
        report,
        read,
        written,
        replaced: false,
    }
}

/// Encodes a chunk of UTF-16, with replacement (Encoding Standard 4.1, "html").
///
/// Stops at 0 where all input is read, and at 1 where the output is full.
#[unsafe(no_mangle)]
pub extern "C" fn encoding_c_encode_from_utf16(
    encoder: &mut EncoderAt,
    src: &[u16],
    dst: &mut [u8],
    last: bool,
) -> Outcome
    requires ready { encoder.old.ready ≡ true }
    ensures ready { encoder.new.ready ≡ true }
    ensures stop { (result.stop ≤ 1) × (result.report ≡ 0) }
    ensures call { EncodesChunk encode_utf16 encoder.old.value encoder.new.value (record {
      src = utf16_lossy_chars src.now;
      last = last;
      mode = html_mode encoder.old.value;
      room = length dst.old;
      result = encoder_result_of (coder_result_by result.stop);
      read = result.read;
      wrote = take result.written dst.new;
      replaced = result.replaced;
    }) }
    ensures read { result.read ≤ length src.now }
    ensures written { result.written ≤ length dst.old }
    ensures rest { drop result.written dst.new ≡ drop result.written dst.old }
    ensures progress { result.stop ≡ 1 → 14 ≤ length dst.old →
        LeavesFewerSteps encoder.old.value encoder.new.value last
        (utf16_lossy_chars src.now) (utf16_lossy_chars (drop result.read src.now)) }
    ensures progress_if_none_kept { result.stop ≡ 1 →
        room_kept_for_references encoder.old.value.barred encoder.old.value.encoding ≡ 0 →
        4 ≤ length dst.old → LeavesFewerSteps encoder.old.value encoder.new.value last
        (utf16_lossy_chars src.now) (utf16_lossy_chars (drop result.read src.now)) }
{
    let (stop, read, written, replaced) = encoder.get().encode_from_utf16(src, dst, last);
    Outcome {
        stop: number_of_stop(stop),
        report: 0,
        read,
        written,
        replaced,
    }
}

/// Encodes a chunk of UTF-16, without replacement: up to an unmappable character.
///
/// That is error mode "fatal" of Encoding Standard 4.1, except that the next call continues after
/// the character. Stops as the call with replacement does, and at 2 if a character is unmappable.
/// Then the report is the character.
#[unsafe(no_mangle)]
pub extern "C" fn encoding_c_encode_from_utf16_without_replacement(
    encoder: &mut EncoderAt,
    src: &[u16],
    dst: &mut [u8],
    last: bool,
) -> Outcome
    requires ready { encoder.old.ready ≡ true }
    ensures ready { encoder.new.ready ≡ true }
    ensures stop { (result.stop ≤ 2) × (result.replaced ≡ false) }
    ensures call { EncodesChunk encode_utf16 encoder.old.value encoder.new.value (record {
      src = utf16_lossy_chars src.now;
      last = last;
      mode = Fatal;
      room = length dst.old;
      result = encoder_result_by result.stop result.report;
      read = result.read;
      wrote = take result.written dst.new;
      replaced = false;
    }) }
    ensures need { EncodesByNeed encode_utf16 encoder.old.value encoder.new.value
        (utf16_lossy_chars src.now) last (length dst.old)
        (encoder_result_by result.stop result.report) result.read result.written }
    ensures read { result.read ≤ length src.now }
    ensures written { result.written ≤ length dst.old }
    ensures rest { drop result.written dst.new ≡ drop result.written dst.old }
    ensures progress { 1 ≤ result.stop → 4 ≤ length dst.old →
        LeavesFewerSteps encoder.old.value encoder.new.value last
        (utf16_lossy_chars src.now) (utf16_lossy_chars (drop result.read src.now)) }
{
    let inner = encoder.get();
    let (result, read, written) = inner.encode_from_utf16_without_replacement(src, dst, last);
    let (stop, report) = numbers_of_encoder_result(result);
    Outcome {
        stop,
        report,
        read,
        written,
        replaced: false,
    }
}
