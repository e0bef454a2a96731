//! The encodings (Encoding Standard 4.2).

ghost use Rattle.std.specs.Prelude.{◌≡◌};
ghost use Rattle.enc_names.specs.EncodingTable.{codec_by_id};

use enc_index::Codec;
use enc_names::EncodingId;
use std::fmt;

/// An encoding of the Encoding Standard. Two are equal exactly if they are the same one.
#[derive(Clone, Copy, PartialEq, Eq, Hash)]
pub struct Encoding {
    pub(crate) id: EncodingId,
}

impl fmt::Debug for Encoding {
    ghost use Rattle.std.specs.Prelude.{Some};
    ghost use Rattle.enc_stream.specs.Names.{debug_text_of};

    ghost debug_output = { λ encoding. Some (debug_text_of encoding) };

    /// Writes its name, as `Encoding { Shift_JIS }`.
    fn fmt<W: fmt::Write>(&self, f: &mut fmt::Formatter<W>) -> fmt::Result {
        write!(f, "Encoding {{ {} }}", self.name())
    }
}

/// Returns the codec of an encoding.
pub fn codec_of(encoding: Encoding) -> Codec
    ensures { result ≡ codec_by_id encoding.id }
{
    encoding.id.codec()
}
