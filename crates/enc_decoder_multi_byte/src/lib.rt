//! Decoders of the legacy multi-byte encodings without escape sequences. No call takes memory.
//!
//! Written by scripts/make-sources from data/templates: change the text there, and not this file.
#![tactic(auto)]

mod big5;
mod double_byte;
mod encoding_laws;
mod euc_jp;
mod euc_kr;
mod gb18030;
mod katakana;
mod multi_byte;
mod shift_jis;

pub use big5::Big5Decoder;
pub use euc_jp::EucJpDecoder;
pub use euc_kr::EucKrDecoder;
pub use gb18030::Gb18030Decoder;
pub use shift_jis::ShiftJisDecoder;
