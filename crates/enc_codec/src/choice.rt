//! The codecs of the encodings.
//!
//! Written by scripts/make-sources from data/templates: change the text there, and not this file.

ghost use Rattle.std.specs.Prelude.{◌≡◌};
ghost use Rattle.enc_codec.specs.Codecs.{codec_rule, codec_lengths, initial_state};
ghost use Rattle.enc_codec.specs.Variant.{variant_decoder_state, variant_decoder_lengths};
ghost use Rattle.enc_index.specs.declared.codec.Codec.{Codec};

use crate::variant::VariantDecoder;
use enc_decoder::TextLengths;
use enc_decoder_iso_2022_jp::Iso2022JpDecoder;
use enc_decoder_multi_byte::{
    Big5Decoder, EucJpDecoder, EucKrDecoder, Gb18030Decoder, ShiftJisDecoder,
};
use enc_decoder_single_byte::{ReplacementDecoder, SingleByteDecoder, XUserDefinedDecoder};
use enc_decoder_utf::{Utf8Decoder, Utf16Decoder};
use enc_index::Codec;

/// Makes the decoder of a [`Codec`], and its length formulas.
///
/// The enum stands in `enc_index`, below the decoders, so these are methods of a trait.
pub trait NewDecoder {
    // its codec
    ghost codec: { Self → Codec };

    /// Returns a decoder that has read nothing.
    fn new_decoder(self) -> VariantDecoder
        ensures state { variant_decoder_state result ≡ initial_state (codec_rule (codec self)) }
        ensures lengths { variant_decoder_lengths result ≡ codec_lengths (codec self) };

    /// Returns the formulas for the lengths to allocate for its text.
    fn text_lengths(self) -> TextLengths
        ensures { result ≡ codec_lengths (codec self) };
}

impl NewDecoder for Codec {
    ghost codec = { λ codec. codec };

    fn new_decoder(self) -> VariantDecoder {
        match self {
            Codec::Utf8 => VariantDecoder::Utf8(Utf8Decoder::new()),
            Codec::Utf16Be => VariantDecoder::Utf16(Utf16Decoder::new(true)),
            Codec::Utf16Le => VariantDecoder::Utf16(Utf16Decoder::new(false)),
            Codec::SingleByte(index) => VariantDecoder::SingleByte(SingleByteDecoder::new(index)),
            Codec::Big5 => VariantDecoder::Big5(Big5Decoder::new()),
            Codec::EucKr => VariantDecoder::EucKr(EucKrDecoder::new()),
            Codec::ShiftJis => VariantDecoder::ShiftJis(ShiftJisDecoder::new()),
            Codec::EucJp => VariantDecoder::EucJp(EucJpDecoder::new()),
            Codec::Gbk => VariantDecoder::Gb18030(Gb18030Decoder::new()),
            Codec::Gb18030 => VariantDecoder::Gb18030(Gb18030Decoder::new()),
            Codec::XUserDefined => VariantDecoder::XUserDefined(XUserDefinedDecoder::new()),
            Codec::Replacement => VariantDecoder::Replacement(ReplacementDecoder::new()),
            Codec::Iso2022Jp => VariantDecoder::Iso2022Jp(Iso2022JpDecoder::new()),
        }
    }

    fn text_lengths(self) -> TextLengths {
        match self {
            Codec::Utf8 => TextLengths::Utf8,
            Codec::Utf16Be | Codec::Utf16Le => TextLengths::Utf16,
            Codec::SingleByte(_) | Codec::XUserDefined => TextLengths::OneByte,
            Codec::Replacement => TextLengths::Replacement,
            _ => TextLengths::MultiByte,
        }
    }
}
