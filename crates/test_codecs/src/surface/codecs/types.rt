//! Each decoder of `enc_codec` by its type, and the variants by name.
//!
//! Written by scripts/make-sources from data/templates: change the text there, and not this file.

use crate::surface::codecs::decode_sample;
use crate::surface::samples;
use enc_codec::*;
use std::test::Fail;

/// The index of windows-1252.
const WINDOWS_1252: SingleByteIndex = SingleByteIndex::Windows1252;

#[test]
fn each_decoder_decodes_its_encoding(rt: HostRuntime) -> Result<(), Fail> {
    decode_sample(&rt, Utf8Decoder::new(), &samples::UTF_8)?;
    decode_sample(&rt, Utf16Decoder::new(true), &samples::UTF_16BE)?;
    decode_sample(&rt, Utf16Decoder::new(false), &samples::UTF_16LE)?;
    decode_sample(
        &rt,
        SingleByteDecoder::new(WINDOWS_1252),
        &samples::SINGLE_BYTE,
    )?;
    decode_sample(&rt, Big5Decoder::new(), &samples::BIG5)?;
    decode_sample(&rt, EucKrDecoder::new(), &samples::EUC_KR)?;
    decode_sample(&rt, ShiftJisDecoder::new(), &samples::SHIFT_JIS)?;
    decode_sample(&rt, EucJpDecoder::new(), &samples::EUC_JP)?;
    decode_sample(&rt, Gb18030Decoder::new(), &samples::GBK)?;
    decode_sample(&rt, Gb18030Decoder::new(), &samples::GB18030)?;
    decode_sample(&rt, XUserDefinedDecoder::new(), &samples::X_USER_DEFINED)?;
    decode_sample(&rt, ReplacementDecoder::new(), &samples::REPLACEMENT)?;
    decode_sample(&rt, Iso2022JpDecoder::new(), &samples::ISO_2022_JP)?;
    Ok(())
}

/// The name of a decoder's variant.
pub(crate) fn variant_name(decoder: &VariantDecoder) -> &'static str {
    match decoder {
        VariantDecoder::Utf8(_) => "Utf8",
        VariantDecoder::Utf16(_) => "Utf16",
        VariantDecoder::SingleByte(_) => "SingleByte",
        VariantDecoder::Big5(_) => "Big5",
        VariantDecoder::EucKr(_) => "EucKr",
        VariantDecoder::ShiftJis(_) => "ShiftJis",
        VariantDecoder::EucJp(_) => "EucJp",
        VariantDecoder::Gb18030(_) => "Gb18030",
        VariantDecoder::XUserDefined(_) => "XUserDefined",
        VariantDecoder::Replacement(_) => "Replacement",
        VariantDecoder::Iso2022Jp(_) => "Iso2022Jp",
    }
}

/// The name of the variant that decodes a codec.
pub(crate) fn variant_of(codec: Codec) -> &'static str {
    match codec {
        Codec::Utf8 => "Utf8",
        Codec::Utf16Be => "Utf16",
        Codec::Utf16Le => "Utf16",
        Codec::SingleByte(_) => "SingleByte",
        Codec::Big5 => "Big5",
        Codec::EucKr => "EucKr",
        Codec::ShiftJis => "ShiftJis",
        Codec::EucJp => "EucJp",
        Codec::Gbk => "Gb18030",
        Codec::Gb18030 => "Gb18030",
        Codec::XUserDefined => "XUserDefined",
        Codec::Replacement => "Replacement",
        Codec::Iso2022Jp => "Iso2022Jp",
    }
}
