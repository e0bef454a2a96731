//! Each encoder of `enc_encode` by its type, and the variants by name.
//!
//! Written by scripts/make-sources from data/templates: change the text there, and not this file.

use crate::surface::encoders::encode_sample;
use crate::surface::samples;
use enc_codec::SingleByteIndex;
use enc_encode::*;

/// The repertoire of windows-1252.
const WINDOWS_1252: SingleByte = SingleByte {
    index: SingleByteIndex::Windows1252,
};

/// The repertoire of GBK.
const GBK: Gb18030 = Gb18030 { is_gbk: true };

/// The repertoire of gb18030.
const GB18030: Gb18030 = Gb18030 { is_gbk: false };

#[test]
fn each_encoder_encodes_its_encoding(rt: HostRuntime) {
    encode_sample(
        &rt,
        Utf8Encoder::new(Barring::new(Utf8, &[])),
        &samples::UTF_8,
    );
    let encoder = SingleByteEncoder::new(Barring::new(WINDOWS_1252, &[]));
    encode_sample(&rt, encoder, &samples::SINGLE_BYTE);
    encode_sample(
        &rt,
        Big5Encoder::new(Barring::new(Big5, &[])),
        &samples::BIG5,
    );
    encode_sample(
        &rt,
        EucKrEncoder::new(Barring::new(EucKr, &[])),
        &samples::EUC_KR,
    );
    encode_sample(
        &rt,
        ShiftJisEncoder::new(Barring::new(ShiftJis, &[])),
        &samples::SHIFT_JIS,
    );
    encode_sample(
        &rt,
        EucJpEncoder::new(Barring::new(EucJp, &[])),
        &samples::EUC_JP,
    );
    encode_sample(
        &rt,
        Gb18030Encoder::new(Barring::new(GBK, &[])),
        &samples::GBK,
    );
    encode_sample(
        &rt,
        Gb18030Encoder::new(Barring::new(GB18030, &[])),
        &samples::GB18030,
    );
    let encoder = XUserDefinedEncoder::new(Barring::new(XUserDefined, &[]));
    encode_sample(&rt, encoder, &samples::X_USER_DEFINED);
    encode_sample(&rt, Iso2022JpEncoder::new(&[]), &samples::ISO_2022_JP);
}

/// The name of an encoder's variant.
pub(crate) fn variant_name(encoder: &VariantEncoder) -> &'static str {
    match encoder {
        VariantEncoder::Utf8(_) => "Utf8",
        VariantEncoder::SingleByte(_) => "SingleByte",
        VariantEncoder::Big5(_) => "Big5",
        VariantEncoder::EucKr(_) => "EucKr",
        VariantEncoder::ShiftJis(_) => "ShiftJis",
        VariantEncoder::EucJp(_) => "EucJp",
        VariantEncoder::Gb18030(_) => "Gb18030",
        VariantEncoder::XUserDefined(_) => "XUserDefined",
        VariantEncoder::Iso2022Jp(_) => "Iso2022Jp",
    }
}

/// The name of the variant that encodes a codec. `None` if it has no encoder.
pub(crate) fn variant_of(codec: Codec) -> Option<&'static str> {
    match codec {
        Codec::Utf8 => Some("Utf8"),
        Codec::Utf16Be => None,
        Codec::Utf16Le => None,
        Codec::SingleByte(_) => Some("SingleByte"),
        Codec::Big5 => Some("Big5"),
        Codec::EucKr => Some("EucKr"),
        Codec::ShiftJis => Some("ShiftJis"),
        Codec::EucJp => Some("EucJp"),
        Codec::Gbk => Some("Gb18030"),
        Codec::Gb18030 => Some("Gb18030"),
        Codec::XUserDefined => Some("XUserDefined"),
        Codec::Replacement => None,
        Codec::Iso2022Jp => Some("Iso2022Jp"),
    }
}
