//! A decoder of any encoding.
//!
//! Written by scripts/make-sources from data/templates: change the text there, and not this file.

use enc_decoder::{CallOptions, DecoderOutcome, RawDecoder, TextLengths};
use enc_decoder_iso_2022_jp::Iso2022JpDecoder;
use enc_decoder_multi_byte::{
    Big5Decoder, EucJpDecoder, EucKrDecoder, Gb18030Decoder, ShiftJisDecoder,
};
use enc_decoder_single_byte::{ReplacementDecoder, SingleByteDecoder, XUserDefinedDecoder};
use enc_decoder_utf::{Utf8Decoder, Utf16Decoder};
use enc_output::Units;

/// A decoder of any encoding. It does what the decoder in it does.
#[derive(Clone, Copy)]
pub enum VariantDecoder {
    /// The decoder of UTF-8.
    Utf8(Utf8Decoder),
    /// The decoder of UTF-16, of either byte order.
    Utf16(Utf16Decoder),
    /// The decoder of a legacy single-byte encoding.
    SingleByte(SingleByteDecoder),
    /// The decoder of Big5.
    Big5(Big5Decoder),
    /// The decoder of EUC-KR.
    EucKr(EucKrDecoder),
    /// The decoder of Shift_JIS.
    ShiftJis(ShiftJisDecoder),
    /// The decoder of EUC-JP.
    EucJp(EucJpDecoder),
    /// The decoder of gb18030 and GBK.
    Gb18030(Gb18030Decoder),
    /// The decoder of x-user-defined.
    XUserDefined(XUserDefinedDecoder),
    /// The decoder of the replacement encoding.
    Replacement(ReplacementDecoder),
    /// The decoder of ISO-2022-JP.
    Iso2022Jp(Iso2022JpDecoder),
}

/// A call of the decoder in it.
macro_rules! by_decoder {
    ($any:expr, $decoder:ident => $call:expr) => {
        match $any {
            VariantDecoder::Utf8($decoder) => $call,
            VariantDecoder::Utf16($decoder) => $call,
            VariantDecoder::SingleByte($decoder) => $call,
            VariantDecoder::Big5($decoder) => $call,
            VariantDecoder::EucKr($decoder) => $call,
            VariantDecoder::ShiftJis($decoder) => $call,
            VariantDecoder::EucJp($decoder) => $call,
            VariantDecoder::Gb18030($decoder) => $call,
            VariantDecoder::XUserDefined($decoder) => $call,
            VariantDecoder::Replacement($decoder) => $call,
            VariantDecoder::Iso2022Jp($decoder) => $call,
        }
    };
}

impl RawDecoder for VariantDecoder {
    ghost use Rattle.enc_codec.specs.Variant.{variant_decoder_state, variant_decoder_lengths};

    ghost state = { variant_decoder_state };

    ghost formulas = { variant_decoder_lengths };

    #[inline(always)]
    fn decode<U: Units>(
        &mut self,
        src: &[u8],
        out: &mut U,
        options: CallOptions,
    ) -> DecoderOutcome {
        by_decoder!(self, decoder => decoder.decode(src, out, options))
    }

    fn held(&self) -> usize {
        by_decoder!(self, decoder => decoder.held())
    }

    fn latin1_byte_compatible_up_to(&self, bytes: &[u8]) -> Option<usize> {
        by_decoder!(self, decoder => decoder.latin1_byte_compatible_up_to(bytes))
    }

    fn text_lengths(&self) -> TextLengths {
        by_decoder!(self, decoder => decoder.text_lengths())
    }
}
