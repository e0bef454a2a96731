//! The encoders of the encodings.
//!
//! Written by scripts/make-sources from data/templates: change the text there, and not this file.

ghost use Rattle.std.specs.Prelude.{◌≡◌, Some, is_some, true, option_map};
ghost use Rattle.enc_encoder.specs.Barring.{are_beyond_ascii, barring_rule};
ghost use Rattle.enc_encoder.specs.declared.character_set.CharacterSet.TheVariants.{Ascii};
ghost use Rattle.enc_encode.specs.Encoders.{encoder_rule, encoder_lengths};
ghost use Rattle.enc_encode.specs.Variant.{variant_encoder_state, variant_encoder_lengths};

use crate::encoders::big5::Big5;
use crate::encoders::euc_jp::EucJp;
use crate::encoders::euc_kr::EucKr;
use crate::encoders::gb18030::Gb18030;
use crate::encoders::iso_2022_jp::Iso2022JpEncoder;
use crate::encoders::shift_jis::ShiftJis;
use crate::encoders::single_byte::SingleByte;
use crate::encoders::utf_8::Utf8;
use crate::encoders::x_user_defined::XUserDefined;
use crate::variant::VariantEncoder;
use enc_encoder::{Barring, ByteLengths, Repertoire, StatelessEncoder};
use enc_index::Codec;

/// Returns whether an encoding has an encoder: all except UTF-16BE, UTF-16LE and replacement.
pub fn has_encoder(codec: Codec) -> bool
    ensures { result ≡ is_some (encoder_rule codec) }
{
    match codec {
        Codec::Utf16Be | Codec::Utf16Le | Codec::Replacement => false,
        _ => true,
    }
}

/// Returns the encoder of a repertoire without some characters.
fn barring<R: Repertoire>(repertoire: R, barred: &'static [char]) -> StatelessEncoder<Barring<R>>
    ensures repertoire { result.repertoire.repertoire ≡ repertoire }
    ensures barred { result.repertoire.barred.now ≡ barred.now }
{
    StatelessEncoder::new(Barring::new(repertoire, barred))
}

/// Returns an encoder at the start of a text, with barred characters.
///
/// The characters of `barred` are unmappable too. The encoder keeps the list, also after the end of
/// the text. Conditions: the encoding has an encoder, and each character of the list is U+0080 or
/// above.
pub fn new_encoder(codec: Codec, barred: &'static [char]) -> VariantEncoder
    requires encoder { is_some (encoder_rule codec) ≡ true }
    requires barred { are_beyond_ascii barred.now ≡ true }
    ensures rule { option_map (barring_rule barred.now) (encoder_rule codec)
        ≡ Some (variant_encoder_state result).rule }
    ensures set { (variant_encoder_state result).set ≡ Ascii }
    ensures lengths { variant_encoder_lengths result ≡ encoder_lengths codec }
{
    match codec {
        Codec::Utf8 => VariantEncoder::Utf8(barring(Utf8, barred)),
        Codec::SingleByte(index) => {
            VariantEncoder::SingleByte(barring(SingleByte { index }, barred))
        }
        Codec::Big5 => VariantEncoder::Big5(barring(Big5, barred)),
        Codec::EucKr => VariantEncoder::EucKr(barring(EucKr, barred)),
        Codec::ShiftJis => VariantEncoder::ShiftJis(barring(ShiftJis, barred)),
        Codec::EucJp => VariantEncoder::EucJp(barring(EucJp, barred)),
        Codec::Gbk => VariantEncoder::Gb18030(barring(Gb18030 { is_gbk: true }, barred)),
        Codec::Gb18030 => VariantEncoder::Gb18030(barring(Gb18030 { is_gbk: false }, barred)),
        Codec::XUserDefined => VariantEncoder::XUserDefined(barring(XUserDefined, barred)),
        Codec::Iso2022Jp => VariantEncoder::Iso2022Jp(Iso2022JpEncoder::new(barred)),
        Codec::Utf16Be | Codec::Utf16Le | Codec::Replacement => unreachable!(),
    }
}

/// Returns the formulas for the lengths to allocate in the output encoding.
///
/// They are those of UTF-8 if the encoding has no encoder.
pub fn byte_lengths(codec: Codec) -> ByteLengths
    ensures { result ≡ encoder_lengths codec }
{
    match codec {
        Codec::Utf8 | Codec::Utf16Be | Codec::Utf16Le | Codec::Replacement => ByteLengths::Utf8,
        Codec::SingleByte(_) | Codec::XUserDefined => ByteLengths::OneByte,
        Codec::Gb18030 => ByteLengths::Gb18030,
        Codec::Iso2022Jp => ByteLengths::Iso2022Jp,
        _ => ByteLengths::TwoBytes,
    }
}
