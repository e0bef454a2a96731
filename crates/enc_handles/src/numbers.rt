//! Encodings, byte order marks and lengths, in numbers.

ghost use Rattle.std.specs.Prelude.{◌≡◌, None};
ghost use Rattle.enc_stream.specs.Numbers.{encoding_of_number};
ghost use Rattle.enc_handles.specs.Outcomes.{number_of_length, length_by};

use enc_stream::Encoding;

/// The number that stands for no encoding.
pub const NO_ENCODING: u32 = 255;

/// The length that stands for none.
pub const NO_LENGTH: usize = usize::MAX;

/// Returns the number of an encoding, or that of none.
pub fn number_or_none(encoding: Option<Encoding>) -> u32
    ensures number { encoding_of_number result ≡ encoding }
    ensures none { encoding ≡ None → result ≡ 255 }
{
    match encoding {
        Some(found) => found.number(),
        None => NO_ENCODING,
    }
}

/// Returns a length, or the one that stands for none.
pub fn length_or_none(length: Option<usize>) -> usize
    ensures { result ≡ number_of_length length }
{
    match length {
        Some(found) => found,
        None => NO_LENGTH,
    }
}
