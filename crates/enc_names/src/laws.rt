//! Laws over the definitions: contracts of functions that do nothing.

ghost use Rattle.std.specs.Prelude.{◌≡◌};
ghost use Rattle.enc_names.specs.CodecProperties.{ascii_compatible_by_codec, single_byte_by_codec};
ghost use Rattle.enc_names.specs.EncodingTable.{ascii_compatible_by_id, codec_by_id};
ghost use Rattle.enc_names.specs.EncodingTable.{single_byte_by_id};

use crate::encoding_id::EncodingId;

/// The properties that an encoding is listed with are those of its codec.
pub fn codecs_have_the_properties(id: EncodingId)
    ensures ascii_compatible { ascii_compatible_by_id id
        ≡ ascii_compatible_by_codec (codec_by_id id) }
    ensures single_byte { single_byte_by_id id ≡ single_byte_by_codec (codec_by_id id) }
{
    let _ = id;
}
