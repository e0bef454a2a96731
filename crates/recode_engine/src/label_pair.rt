//! The encodings that two labels name.

ghost use Rattle.std.specs.Prelude.{IfSome, IfNone};
ghost use Rattle.recode_engine.specs.Labels.{NamesEncoding, AreUnknown};

use enc_stream::Encoding;

/// Returns the encodings that two labels name, to decode from and to write.
///
/// The output encoding of the second is written. `None` if one of them names replacement or no
/// encoding.
pub fn labels(from: &str, to: &str) -> Option<(Encoding, Encoding)>
    ensures from { IfSome result (λ encodings. NamesEncoding from.now encodings.0) }
    ensures to { IfSome result (λ encodings. NamesEncoding to.now encodings.1) }
    ensures none { IfNone result (AreUnknown from.now to.now) }
{
    let from = Encoding::for_label_no_replacement(from.as_bytes())?;
    let to = Encoding::for_label_no_replacement(to.as_bytes())?;
    Some((from, to))
}
