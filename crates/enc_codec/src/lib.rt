//! The codec of an encoding, and a decoder that is any of them. No call takes memory.
//!
//! Written by scripts/make-sources from data/templates: change the text there, and not this file.
#![tactic(auto)]

mod choice;
mod variant;

pub use choice::NewDecoder;
pub use enc_decoder::{CallOptions, DecoderOutcome, ErrorMode, RawDecoder, TextLengths};
pub use enc_decoder_iso_2022_jp::Iso2022JpDecoder;
pub use enc_decoder_multi_byte::{
    Big5Decoder, EucJpDecoder, EucKrDecoder, Gb18030Decoder, ShiftJisDecoder,
};
pub use enc_decoder_single_byte::{ReplacementDecoder, SingleByteDecoder, XUserDefinedDecoder};
pub use enc_decoder_utf::{Utf8Decoder, Utf16Decoder};
pub use enc_index::{Codec, List, Planes, SingleByteIndex};
pub use enc_output::DecoderResult;
pub use variant::VariantDecoder;
