//! Decoders: new ones, calls, and what they say of themselves.

ghost use Rattle.std.specs.Prelude.{◌≡◌, ◌+◌, ◌≤◌, true, false};
ghost use Rattle.std.specs.Prelude.{is_some, IfSome, IsNone, Some, length, take, drop};
ghost use Rattle.std.specs.Char.{encode_utf8};
ghost use Rattle.std.specs.Char.Escape.{encode_utf16};
ghost use Rattle.std.specs.Str.{IsUtf8};
ghost use Rattle.enc_output.specs.Results.{decoder_result_of};
ghost use Rattle.enc_decoder.specs.Call.{reaches_end};
ghost use Rattle.enc_stream.specs.declared.bom.BomHandling.TheVariants as handling;
ghost use Rattle.enc_stream.specs.Decoding.{has_finished, fresh_decoder, AnswersDecode};
ghost use Rattle.enc_stream.specs.Decoding.{replacing_call, reporting_call};
ghost use Rattle.enc_stream.specs.Decoding.{LeavesFewerBytes, ReportsBytesSoFar};
ghost use Rattle.enc_stream.specs.Latin1.{AnswersDecoderLatin1};
ghost use Rattle.enc_stream.specs.Numbers.{encoding_of_number};
ghost use Rattle.enc_handles.specs.Outcomes.{coder_result_by, decoder_result_by};
ghost use Rattle.enc_handles.specs.Outcomes.{length_by, refusal};

use enc_handles::{
    DecoderAt, FINISHED, Outcome, length_or_none, number_of_stop, numbers_of_decoder_result,
};
use enc_stream::{Decoder, Encoding};

/// Returns the number of bytes of a decoder, at most 16. They are aligned as 8 bytes are.
#[unsafe(no_mangle)]
pub extern "C" fn encoding_c_decoder_size() -> usize
    ensures { result ≤ 16 }
{
    size_of::<Decoder>()
}

/// Puts a decoder there that looks for all three byte order marks (Encoding Standard 6, "decode").
///
/// Returns false and does nothing if there is no such encoding.
#[unsafe(no_mangle)]
pub extern "C" fn encoding_c_new_decoder(decoder: &mut DecoderAt, encoding: u32) -> bool
    ensures found { result ≡ is_some (encoding_of_number encoding) }
    ensures made { IfSome (encoding_of_number encoding) (λ e. (decoder.new.ready ≡ true)
        × (decoder.new.value ≡ fresh_decoder handling.Sniff e)) }
    ensures none { IsNone (encoding_of_number encoding)
        → (decoder.new.ready ≡ decoder.old.ready) × (decoder.new.value ≡ decoder.old.value) }
{
    match Encoding::from_number(encoding) {
        Some(found) => {
            decoder.put(found.new_decoder());
            true
        }
        None => false,
    }
}

/// Puts a decoder there that removes the byte order mark of its own encoding.
///
/// Returns false and does nothing if there is no such encoding.
#[unsafe(no_mangle)]
pub extern "C" fn encoding_c_new_decoder_with_bom_removal(
    decoder: &mut DecoderAt,
    encoding: u32,
) -> bool
    ensures found { result ≡ is_some (encoding_of_number encoding) }
    ensures made { IfSome (encoding_of_number encoding) (λ e. (decoder.new.ready ≡ true)
        × (decoder.new.value ≡ fresh_decoder handling.Remove e)) }
    ensures none { IsNone (encoding_of_number encoding)
        → (decoder.new.ready ≡ decoder.old.ready) × (decoder.new.value ≡ decoder.old.value) }
{
    match Encoding::from_number(encoding) {
        Some(found) => {
            decoder.put(found.new_decoder_with_bom_removal());
            true
        }
        None => false,
    }
}

/// Puts a decoder there that looks for no byte order mark.
///
/// Returns false and does nothing if there is no such encoding.
#[unsafe(no_mangle)]
pub extern "C" fn encoding_c_new_decoder_without_bom_handling(
    decoder: &mut DecoderAt,
    encoding: u32,
) -> bool
    ensures found { result ≡ is_some (encoding_of_number encoding) }
    ensures made { IfSome (encoding_of_number encoding) (λ e. (decoder.new.ready ≡ true)
        × (decoder.new.value ≡ fresh_decoder handling.Off e)) }
    ensures none { IsNone (encoding_of_number encoding)
        → (decoder.new.ready ≡ decoder.old.ready) × (decoder.new.value ≡ decoder.old.value) }
{
    match Encoding::from_number(encoding) {
        Some(found) => {
            decoder.put(found.new_decoder_without_bom_handling());
            true
        }
        None => false,
    }
}

/// Returns the number of the encoding that it decodes. A sniffed byte order mark changes it.
#[unsafe(no_mangle)]
pub extern "C" fn encoding_c_decoder_encoding(decoder: &mut DecoderAt) -> u32
    requires ready { decoder.old.ready ≡ true }
    ensures ready { decoder.new.ready ≡ true }
    ensures same { decoder.new.value ≡ decoder.old.value }
    ensures encoding { encoding_of_number result ≡ Some decoder.old.value.encoding }
{
    decoder.get().encoding().number()
}

/// Returns whether a call with `last` has read all input. Later calls do nothing.
#[unsafe(no_mangle)]
pub extern "C" fn encoding_c_decoder_is_finished(decoder: &mut DecoderAt) -> bool
    requires ready { decoder.old.ready ≡ true }
    ensures ready { decoder.new.ready ≡ true }
    ensures same { decoder.new.value ≡ decoder.old.value }
    ensures finished { result ≡ has_finished decoder.old.value }
{
    decoder.get().is_finished()
}

/// Returns the length of a prefix of `bytes` that is Latin-1, if they are the next input.
///
/// In it each byte is the character with its number. The greatest number if that holds of no byte.
#[unsafe(no_mangle)]
pub extern "C" fn encoding_c_decoder_latin1_byte_compatible_up_to(
    decoder: &mut DecoderAt,
    bytes: &[u8],
) -> usize
    requires ready { decoder.old.ready ≡ true }
    ensures ready { decoder.new.ready ≡ true }
    ensures same { decoder.new.value ≡ decoder.old.value }
    ensures prefix { AnswersDecoderLatin1 decoder.old.value bytes.now (length_by result) }
{
    length_or_none(decoder.get().latin1_byte_compatible_up_to(bytes))
}

/// Decodes a chunk into UTF-8, with replacement (Encoding Standard 4.1, "replacement").
///
/// Stops at 0 where all input is read, and at 1 where the output is full. At 3 it has done nothing,
/// since the decoder is finished.
#[unsafe(no_mangle)]
pub extern "C" fn encoding_c_decode_to_utf8(
    decoder: &mut DecoderAt,
    src: &[u8],
    dst: &mut [u8],
    last: bool,
) -> Outcome
    requires ready { decoder.old.ready ≡ true }
    ensures ready { decoder.new.ready ≡ true }
    ensures stop { has_finished decoder.old.value ≡ false →
        (result.stop ≤ 1) × (result.report ≡ 0) }
    ensures call { has_finished decoder.old.value ≡ false →
        AnswersDecode encode_utf8 4 decoder.old.value decoder.new.value
        (replacing_call src.now last (length dst.old) (coder_result_by result.stop)
        result.read (take result.written dst.new) result.replaced) }
    ensures finished { has_finished decoder.old.value ≡ true →
        (result ≡ refusal 3) × (decoder.new.value ≡ decoder.old.value) }
    ensures read { result.read ≤ length src.now }
    ensures written { result.written ≤ length dst.old }
    ensures text { IsUtf8 (take result.written dst.new) }
    ensures rest { drop result.written dst.new ≡ drop result.written dst.old }
    ensures ended { has_finished decoder.old.value ≡ false → has_finished decoder.new.value
        ≡ reaches_end last (decoder_result_of (coder_result_by result.stop)) }
    ensures pending { length decoder.new.value.pending
        ≤ length decoder.old.value.pending + result.read }
    ensures progress { result.stop ≡ 1 → 4 ≤ length dst.old →
        LeavesFewerBytes decoder.old.value decoder.new.value src.now result.read }
{
    let inner = decoder.get();
    if inner.is_finished() {
        return Outcome::refusal(FINISHED);
    }
    let (stop, read, written, replaced) = inner.decode_to_utf8(src, dst, last);
    Outcome {
        stop: number_of_stop(stop),
        report: 0,
        read,
        written,
        replaced,
    }
}

/// Decodes a chunk into UTF-8, without replacement: up to a malformed sequence.
///
/// That is error mode "fatal" of Encoding Standard 4.1, except that the next call continues after
/// the sequence. Stops as the call with replacement does, and at 2 where a sequence is malformed.
/// Then the report is 256 times its length, and the number of bytes read after it.
#[unsafe(no_mangle)]
pub extern "C" fn encoding_c_decode_to_utf8_without_replacement(
    decoder: &mut DecoderAt,
    src: &[u8],
    dst: &mut [u8],
    last: bool,
) -> Outcome
    requires ready { decoder.old.ready ≡ true }
    ensures ready { decoder.new.ready ≡ true }
    ensures stop { has_finished decoder.old.value ≡ false → result.stop ≤ 2 }
    ensures call { has_finished decoder.old.value ≡ false →
        AnswersDecode encode_utf8 4 decoder.old.value decoder.new.value
        (reporting_call src.now last (length dst.old) (decoder_result_by result.stop result.report)
        result.read (take result.written dst.new)) }
    ensures finished { has_finished decoder.old.value ≡ true →
        (result ≡ refusal 3) × (decoder.new.value ≡ decoder.old.value) }
    ensures replaced { result.replaced ≡ false }
    ensures read { result.read ≤ length src.now }
    ensures written { result.written ≤ length dst.old }
    ensures text { IsUtf8 (take result.written dst.new) }
    ensures rest { drop result.written dst.new ≡ drop result.written dst.old }
    ensures ended { has_finished decoder.old.value ≡ false → has_finished decoder.new.value
        ≡ reaches_end last (decoder_result_by result.stop result.report) }
    ensures pending { length decoder.new.value.pending
        ≤ length decoder.old.value.pending + result.read }
    ensures within { has_finished decoder.old.value ≡ false → ReportsBytesSoFar decoder.old.value
        (decoder_result_by result.stop result.report) result.read }
    ensures progress { has_finished decoder.old.value ≡ false → 1 ≤ result.stop →
        4 ≤ length dst.old →
        LeavesFewerBytes decoder.old.value decoder.new.value src.now result.read }
{
    let inner = decoder.get();
    if inner.is_finished() {
        return Outcome::refusal(FINISHED);
    }
    let (result, read, written) = inner.decode_to_utf8_without_replacement(src, dst, last);
    let (stop, report) = numbers_of_decoder_result(result);
    Outcome {
        stop,
        report,
        read,
        written,
        replaced: false,
    }
}

/// Decodes a chunk into UTF-16, with replacement (Encoding Standard 4.1, "replacement").
///
/// Stops at 0 where all input is read, and at 1 where the output is full. At 3 it has done nothing,
/// since the decoder is finished.
#[unsafe(no_mangle)]
pub extern "C" fn encoding_c_decode_to_utf16(
    decoder: &mut DecoderAt,
    src: &[u8],
    dst: &mut [u16],
    last: bool,
) -> Outcome
    requires ready { decoder.old.ready ≡ true }
    ensures ready { decoder.new.ready ≡ true }
    ensures stop { has_finished decoder.old.value ≡ false →
        (result.stop ≤ 1) × (result.report ≡ 0) }
    ensures call { has_finished decoder.old.value ≡ false →
        AnswersDecode encode_utf16 2 decoder.old.value decoder.new.value
        (replacing_call src.now last (length dst.old) (coder_result_by result.stop)
        result.read (take result.written dst.new) result.replaced) }
    ensures finished { has_finished decoder.old.value ≡ true →
        (result ≡ refusal 3) × (decoder.new.value ≡ decoder.old.value) }
    ensures read { result.read ≤ length src.now }
    ensures written { result.written ≤ length dst.old }
    ensures rest { drop result.written dst.new ≡ drop result.written dst.old }
    ensures ended { has_finished decoder.old.value ≡ false → has_finished decoder.new.value
        ≡ reaches_end last (decoder_result_of (coder_result_by result.stop)) }
    ensures pending { length decoder.new.value.pending
        ≤ length decoder.old.value.pending + result.read }
    ensures progress { result.stop ≡ 1 → 2 ≤ length dst.old →
        LeavesFewerBytes decoder.old.value decoder.new.value src.now result.read }
{
    let inner = decoder.get();
    if inner.is_finished() {
        return Outcome::refusal(FINISHED);
    }
    let (stop, read, written, replaced) = inner.decode_to_utf16(src, dst, last);
    Outcome {
        stop: number_of_stop(stop),
        report: 0,
        read,
        written,
        replaced,
    }
}

/// Decodes a chunk into UTF-16, without replacement: up to a malformed sequence.
///
/// That is error mode "fatal" of Encoding Standard 4.1, except that the next call continues after
/// the sequence. Stops as the call with replacement does, and at 2 where a sequence is malformed.
/// Then the report is 256 times its length, and the number of bytes read after it.
#[unsafe(no_mangle)]
pub extern "C" fn encoding_c_decode_to_utf16_without_replacement(
    decoder: &mut DecoderAt,
    src: &[u8],
    dst: &mut [u16],
    last: bool,
) -> Outcome
    requires ready { decoder.old.ready ≡ true }
    ensures ready { decoder.new.ready ≡ true }
    ensures stop { has_finished decoder.old.value ≡ false → result.stop ≤ 2 }
    ensures call { has_finished decoder.old.value ≡ false →
        AnswersDecode encode_utf16 2 decoder.old.value decoder.new.value
        (reporting_call src.now last (length dst.old) (decoder_result_by result.stop result.report)
        result.read (take result.written dst.new)) }
    ensures finished { has_finished decoder.old.value ≡ true →
        (result ≡ refusal 3) × (decoder.new.value ≡ decoder.old.value) }
    ensures replaced { result.replaced ≡ false }
    ensures read { result.read ≤ length src.now }
    ensures written { result.written ≤ length dst.old }
    ensures rest { drop result.written dst.new ≡ drop result.written dst.old }
    ensures ended { has_finished decoder.old.value ≡ false → has_finished decoder.new.value
        ≡ reaches_end last (decoder_result_by result.stop result.report) }
    ensures pending { length decoder.new.value.pending
        ≤ length decoder.old.value.pending + result.read }
    ensures within { has_finished decoder.old.value ≡ false → ReportsBytesSoFar decoder.old.value
        (decoder_result_by result.stop result.report) result.read }
    ensures progress { has_finished decoder.old.value ≡ false → 1 ≤ result.stop →
        2 ≤ length dst.old →
        LeavesFewerBytes decoder.old.value decoder.new.value src.now result.read }
{
    let inner = decoder.get();
    if inner.is_finished() {
        return Outcome::refusal(FINISHED);
    }
    let (result, read, written) = inner.decode_to_utf16_without_replacement(src, dst, last);
    let (stop, report) = numbers_of_decoder_result(result);
    Outcome {
        stop,
        report,
        read,
        written,
        replaced: false,
    }
}
