//! Text that is pushed without being encoded.

ghost use Rattle.std.specs.Prelude.{◌≡◌, ℕ, ◌<◌, ◌≤◌, true, false, [], length, take, drop, chars};
ghost use Rattle.std.specs.Str.{IsCharBoundary};
ghost use Rattle.enc_utf8.specs.Validity.{AreAscii};
ghost use Rattle.enc_encoder.specs.EncoderRule.{is_escape_due};
ghost use Rattle.enc_stream.specs.Properties.{is_ascii_compatible};
ghost use Rattle.enc_writer.specs.EncodedText.{EncodesText, text_to_encode};

use enc_stream::constants::UTF_8;
use enc_stream::laws::ascii_compatible_encode_ascii;
use enc_stream::{Encoder, Encoding};

/// The least number of bytes that are pushed without being encoded. Fewer are encoded together with
/// the characters that follow, since a push may be a system call.
const LEAST_UNENCODED: usize = 4096;

/// Returns the length in bytes of the start of a text that is written as its UTF-8.
///
/// In UTF-8 that is all of the text. In another encoding it is ASCII at its start, if the encoding
/// is ASCII-compatible and no escape sequence is due. It is 0 if there are fewer than
/// [`LEAST_UNENCODED`] bytes.
pub(crate) fn unencoded_len(encoder: &Encoder, text: &str) -> usize
    requires none_barred { encoder.now.barred ≡ [] }
    ensures within { result ≤ length text.now }
    ensures boundary { IsCharBoundary text.now result }
    ensures own { EncodesText (text_to_encode encoder.now (chars text.now))
        (text_to_encode encoder.now (chars (drop result text.now))) false (take result text.now)
        false }
    ensures few { length text.now < 4096 → result ≡ 0 }
    ensures whole { encoder.now.encoding ≡ UTF_8 → is_escape_due encoder.now.set ≡ false
        → 4096 ≤ length text.now → result ≡ length text.now }
    ensures ascii { is_ascii_compatible encoder.now.encoding ≡ true
        → is_escape_due encoder.now.set ≡ false
        → (n : ℕ) → 4096 ≤ n → n ≤ length text.now → AreAscii (take n text.now) → n ≤ result }
{
    if text.len() < LEAST_UNENCODED || encoder.has_pending_state() {
        return 0;
    }
    let encoding = encoder.encoding();
    if encoding == UTF_8 {
        return text.len();
    }
    ascii_compatible_encode_ascii(encoding);
    if !encoding.is_ascii_compatible() {
        return 0;
    }
    let len = Encoding::ascii_valid_up_to(text.as_bytes());
    if len < LEAST_UNENCODED { 0 } else { len }
}
