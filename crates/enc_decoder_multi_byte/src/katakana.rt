//! Half-width katakana.

ghost use Rattle.std.specs.Prelude.{◌≡◌, true};
ghost use Rattle.enc_decoder_multi_byte.specs.Katakana.{is_katakana_byte};
ghost use Rattle.enc_decoder_multi_byte.specs.Katakana.{katakana_of_byte as katakana_of};

/// Returns the half-width katakana of a byte from A1 to DF.
pub fn katakana(byte: u8) -> char
    requires katakana { is_katakana_byte byte ≡ true }
    ensures { result ≡ katakana_of byte }
{
    char::from_u32(0xFF61 + (byte as u32 - 0xA1)).unwrap()
}
