//! Lengths to allocate.

ghost use Rattle.std.specs.Prelude.{◌≡◌, ◌≢◌, ◌-◌, ◌^◌, true, false};
ghost use Rattle.std.specs.Char.{encode_utf8};
ghost use Rattle.std.specs.Char.Escape.{encode_utf16};
ghost use Rattle.enc_decoder.specs.declared.error_mode.ErrorMode.{ErrorMode};
ghost use Rattle.enc_decoder.specs.declared.error_mode.ErrorMode.TheVariants.{Replacement, Fatal};
ghost use Rattle.enc_encoder.specs.Lengths.{from_utf_8_length, from_utf_16_length};
ghost use Rattle.enc_utf8.specs.Checked.{checked_add};
ghost use Rattle.enc_stream.specs.Decoding.{has_finished};
ghost use Rattle.enc_stream.specs.Encoder.{room_kept_for_references};
ghost use Rattle.enc_stream.specs.Lengths.{IsEnoughRoom, output_lengths, max_utf_8_length};
ghost use Rattle.enc_stream.specs.Lengths.{max_reporting_length, max_utf_16_length};
ghost use Rattle.enc_stream.specs.Need.{IsEnoughForEncoding, IsEnoughIfMappable};
ghost use Rattle.enc_handles.specs.Outcomes.{number_of_length};

use enc_handles::{DecoderAt, EncoderAt, NO_LENGTH, length_or_none};

/// Returns the length in bytes to allocate for UTF-8 with replacement.
///
/// It is enough for `byte_length` more bytes. The greatest number if a step of the formula
/// overflows, or the decoder is finished.
#[unsafe(no_mangle)]
pub extern "C" fn encoding_c_max_utf8_buffer_length(
    decoder: &mut DecoderAt,
    byte_length: usize,
) -> usize
    requires ready { decoder.old.ready ≡ true }
    ensures ready { decoder.new.ready ≡ true }
    ensures same { decoder.new.value ≡ decoder.old.value }
    ensures length { has_finished decoder.old.value ≡ false →
        result ≡ number_of_length (max_utf_8_length decoder.old.value byte_length) }
    ensures finished { has_finished decoder.old.value ≡ true → result ≡ 2 ^ 64 - 1 }
    ensures enough { has_finished decoder.old.value ≡ false → result ≢ 2 ^ 64 - 1 →
        IsEnoughRoom encode_utf8 Replacement decoder.old.value byte_length result }
{
    let inner = decoder.get();
    if inner.is_finished() {
        return NO_LENGTH;
    }
    length_or_none(inner.max_utf8_buffer_length(byte_length))
}

/// Returns the length in bytes to allocate for UTF-8 without replacement.
///
/// It is enough for `byte_length` more bytes. The greatest number if a step of the formula
/// overflows, or the decoder is finished.
#[unsafe(no_mangle)]
pub extern "C" fn encoding_c_max_utf8_buffer_length_without_replacement(
    decoder: &mut DecoderAt,
    byte_length: usize,
) -> usize
    requires ready { decoder.old.ready ≡ true }
    ensures ready { decoder.new.ready ≡ true }
    ensures same { decoder.new.value ≡ decoder.old.value }
    ensures length { has_finished decoder.old.value ≡ false →
        result ≡ number_of_length (max_reporting_length decoder.old.value byte_length) }
    ensures finished { has_finished decoder.old.value ≡ true → result ≡ 2 ^ 64 - 1 }
    ensures enough { has_finished decoder.old.value ≡ false → result ≢ 2 ^ 64 - 1 →
        IsEnoughRoom encode_utf8 Fatal decoder.old.value byte_length result }
{
    let inner = decoder.get();
    if inner.is_finished() {
        return NO_LENGTH;
    }
    length_or_none(inner.max_utf8_buffer_length_without_replacement(byte_length))
}

/// Returns the length in code units to allocate for UTF-16.
///
/// It is enough for `byte_length` more bytes. The greatest number if a step of the formula
/// overflows, or the decoder is finished.
#[unsafe(no_mangle)]
pub extern "C" fn encoding_c_max_utf16_buffer_length(
    decoder: &mut DecoderAt,
    byte_length: usize,
) -> usize
    requires ready { decoder.old.ready ≡ true }
    ensures ready { decoder.new.ready ≡ true }
    ensures same { decoder.new.value ≡ decoder.old.value }
    ensures length { has_finished decoder.old.value ≡ false →
        result ≡ number_of_length (max_utf_16_length decoder.old.value byte_length) }
    ensures finished { has_finished decoder.old.value ≡ true → result ≡ 2 ^ 64 - 1 }
    ensures enough { has_finished decoder.old.value ≡ false → result ≢ 2 ^ 64 - 1 →
        (mode : ErrorMode) →
        IsEnoughRoom encode_utf16 mode decoder.old.value byte_length result }
{
    let inner = decoder.get();
    if inner.is_finished() {
        return NO_LENGTH;
    }
    length_or_none(inner.max_utf16_buffer_length(byte_length))
}

/// Returns the length in bytes to allocate for UTF-8 input, without replacement.
///
/// It is enough for `byte_length` more bytes. The greatest number if a step of the formula
/// overflows.
#[unsafe(no_mangle)]
pub extern "C" fn encoding_c_max_buffer_length_from_utf8_without_replacement(
    encoder: &mut EncoderAt,
    byte_length: usize,
) -> usize
    requires ready { encoder.old.ready ≡ true }
    ensures ready { encoder.new.ready ≡ true }
    ensures same { encoder.new.value ≡ encoder.old.value }
    ensures length { result ≡ number_of_length
        (from_utf_8_length (output_lengths encoder.old.value.encoding) byte_length) }
    ensures enough { result ≢ 2 ^ 64 - 1 →
        IsEnoughForEncoding encode_utf8 encoder.old.value byte_length result }
{
    length_or_none(
        encoder
            .get()
            .max_buffer_length_from_utf8_without_replacement(byte_length),
    )
}

/// Returns the length in bytes to allocate for UTF-8 input, with replacement, if all is mappable.
///
/// It is enough for `byte_length` more bytes. The greatest number if a step of the formula
/// overflows.
#[unsafe(no_mangle)]
pub extern "C" fn encoding_c_max_buffer_length_from_utf8_if_no_unmappables(
    encoder: &mut EncoderAt,
    byte_length: usize,
) -> usize
    requires ready { encoder.old.ready ≡ true }
    ensures ready { encoder.new.ready ≡ true }
    ensures same { encoder.new.value ≡ encoder.old.value }
    ensures length { result ≡ number_of_length (checked_add
        (from_utf_8_length (output_lengths encoder.old.value.encoding) byte_length)
        (room_kept_for_references encoder.old.value.barred encoder.old.value.encoding)) }
    ensures enough { result ≢ 2 ^ 64 - 1 →
        IsEnoughIfMappable encode_utf8 encoder.old.value byte_length result }
{
    length_or_none(
        encoder
            .get()
            .max_buffer_length_from_utf8_if_no_unmappables(byte_length),
    )
}

/// Returns the length in bytes to allocate for UTF-16 input, without replacement.
///
/// It is enough for `u16_length` more code units. The greatest number if a step of the formula
/// overflows.
#[unsafe(no_mangle)]
pub extern "C" fn encoding_c_max_buffer_length_from_utf16_without_replacement(
    encoder: &mut EncoderAt,
    u16_length: usize,
) -> usize
    requires ready { encoder.old.ready ≡ true }
    ensures ready { encoder.new.ready ≡ true }
    ensures same { encoder.new.value ≡ encoder.old.value }
    ensures length { result ≡ number_of_length
        (from_utf_16_length (output_lengths encoder.old.value.encoding) u16_length) }
    ensures enough { result ≢ 2 ^ 64 - 1 →
        IsEnoughForEncoding encode_utf16 encoder.old.value u16_length result }
{
    length_or_none(
        encoder
            .get()
            .max_buffer_length_from_utf16_without_replacement(u16_length),
    )
}

/// Returns the length in bytes to allocate for UTF-16 input, with replacement, if all is mappable.
///
/// It is enough for `u16_length` more code units. The greatest number if a step of the formula
/// overflows.
#[unsafe(no_mangle)]
pub extern "C" fn encoding_c_max_buffer_length_from_utf16_if_no_unmappables(
    encoder: &mut EncoderAt,
    u16_length: usize,
) -> usize
    requires ready { encoder.old.ready ≡ true }
    ensures ready { encoder.new.ready ≡ true }
    ensures same { encoder.new.value ≡ encoder.old.value }
    ensures length { result ≡ number_of_length (checked_add
        (from_utf_16_length (output_lengths encoder.old.value.encoding) u16_length)
        (room_kept_for_references encoder.old.value.barred encoder.old.value.encoding)) }
    ensures enough { result ≢ 2 ^ 64 - 1 →
        IsEnoughIfMappable encode_utf16 encoder.old.value u16_length result }
{
    length_or_none(
        encoder
            .get()
            .max_buffer_length_from_utf16_if_no_unmappables(u16_length),
    )
}
