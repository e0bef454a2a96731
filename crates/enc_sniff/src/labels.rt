//! Encodings that a declaration of ASCII bytes can't mean.

ghost use Rattle.std.specs.Prelude.{◌≡◌};
ghost use Rattle.enc_sniff.specs.Labels.{without_utf_16 as other_than_utf_16, usable as usable_for};

use enc_stream::Encoding;
use enc_stream::constants::{UTF_8, UTF_16BE, UTF_16LE, WINDOWS_1252, X_USER_DEFINED};

/// Returns UTF-8 for UTF-16BE and UTF-16LE, and else the encoding itself.
pub(crate) fn without_utf_16(encoding: Encoding) -> Encoding
    ensures { result ≡ other_than_utf_16 encoding }
{
    if encoding == UTF_16BE || encoding == UTF_16LE {
        UTF_8
    } else {
        encoding
    }
}

/// Returns UTF-8 for UTF-16BE and UTF-16LE, windows-1252 for x-user-defined, and else the encoding
/// itself.
pub(crate) fn usable(encoding: Encoding) -> Encoding
    ensures { result ≡ usable_for encoding }
{
    let encoding = without_utf_16(encoding);
    if encoding == X_USER_DEFINED {
        WINDOWS_1252
    } else {
        encoding
    }
}
