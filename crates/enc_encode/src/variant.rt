//! An encoder of any encoding.
//!
//! Written by scripts/make-sources from data/templates: change the text there, and not this file.

use crate::encoders::big5::Big5Encoder;
use crate::encoders::euc_jp::EucJpEncoder;
use crate::encoders::euc_kr::EucKrEncoder;
use crate::encoders::gb18030::Gb18030Encoder;
use crate::encoders::iso_2022_jp::Iso2022JpEncoder;
use crate::encoders::shift_jis::ShiftJisEncoder;
use crate::encoders::single_byte::SingleByteEncoder;
use crate::encoders::utf_8::Utf8Encoder;
use crate::encoders::x_user_defined::XUserDefinedEncoder;
use enc_encoder::{Begun, ByteLengths, EncoderOutcome, RawEncoder};
use enc_input::Chars;

/// An encoder of any encoding. It does what the encoder in it does.
#[derive(Clone, Copy)]
pub enum VariantEncoder {
    /// The encoder of UTF-8.
    Utf8(Utf8Encoder),
    /// The encoder of a legacy single-byte encoding.
    SingleByte(SingleByteEncoder),
    /// The encoder of Big5.
    Big5(Big5Encoder),
    /// The encoder of EUC-KR.
    EucKr(EucKrEncoder),
    /// The encoder of Shift_JIS.
    ShiftJis(ShiftJisEncoder),
    /// The encoder of EUC-JP.
    EucJp(EucJpEncoder),
    /// The encoder of gb18030 and GBK.
    Gb18030(Gb18030Encoder),
    /// The encoder of x-user-defined.
    XUserDefined(XUserDefinedEncoder),
    /// The encoder of ISO-2022-JP.
    Iso2022Jp(Iso2022JpEncoder),
}

/// A call of the encoder in it.
macro_rules! by_encoder {
    ($any:expr, $encoder:ident => $call:expr) => {
        match $any {
            VariantEncoder::Utf8($encoder) => $call,
            VariantEncoder::SingleByte($encoder) => $call,
            VariantEncoder::Big5($encoder) => $call,
            VariantEncoder::EucKr($encoder) => $call,
            VariantEncoder::ShiftJis($encoder) => $call,
            VariantEncoder::EucJp($encoder) => $call,
            VariantEncoder::Gb18030($encoder) => $call,
            VariantEncoder::XUserDefined($encoder) => $call,
            VariantEncoder::Iso2022Jp($encoder) => $call,
        }
    };
}

impl RawEncoder for VariantEncoder {
    ghost use Rattle.enc_encode.specs.Variant.{variant_encoder_state, variant_encoder_lengths};

    ghost state = { variant_encoder_state };

    ghost formulas = { variant_encoder_lengths };

    #[inline(always)]
    fn write_first<C: Chars>(&self, src: &mut C, dst: &mut [u8]) -> usize {
        by_encoder!(self, encoder => encoder.write_first(src, dst))
    }

    fn encode_on<C: Chars>(&mut self, src: &mut C, dst: &mut [u8], begun: Begun) -> EncoderOutcome {
        by_encoder!(self, encoder => encoder.encode_on(src, dst, begun))
    }

    fn has_pending_state(&self) -> bool {
        by_encoder!(self, encoder => encoder.has_pending_state())
    }

    fn byte_lengths(&self) -> ByteLengths {
        by_encoder!(self, encoder => encoder.byte_lengths())
    }
}
