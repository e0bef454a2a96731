//! The encoders, each by the bytes of its characters, the encoder of an encoding, and an encoder
//! that is any of them. No call takes memory.
//!
//! Written by scripts/make-sources from data/templates: change the text there, and not this file.
#![tactic(auto)]

mod choice;
mod encoders;
mod laws;
mod variant;

pub use choice::{byte_lengths, has_encoder, new_encoder};
pub use enc_encoder::{Barring, ByteLengths, CharacterSet, EncoderOutcome, RawEncoder};
pub use enc_index::Codec;
pub use enc_input::EncoderResult;
pub use encoders::big5::{Big5, Big5Encoder};
pub use encoders::euc_jp::{EucJp, EucJpEncoder};
pub use encoders::euc_kr::{EucKr, EucKrEncoder};
pub use encoders::gb18030::{Gb18030, Gb18030Encoder};
pub use encoders::iso_2022_jp::Iso2022JpEncoder;
pub use encoders::shift_jis::{ShiftJis, ShiftJisEncoder};
pub use encoders::single_byte::{SingleByte, SingleByteEncoder};
pub use encoders::utf_8::{Utf8, Utf8Encoder};
pub use encoders::x_user_defined::{XUserDefined, XUserDefinedEncoder};
pub use variant::VariantEncoder;
