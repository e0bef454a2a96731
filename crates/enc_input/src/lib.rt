//! Inputs of characters, runs of their bytes, and the results of calls that read them. No call
//! takes memory.
#![tactic(auto)]

mod bytes;
mod chars;
mod encoder_result;
mod letters;
mod mapped_bytes;
mod mapping;
mod turns;
mod utf16_chars;
mod utf16_mapped;
mod utf16_text;
mod utf8_bytes;
mod utf8_chars;
mod utf8_mapped;
mod ways;

pub use bytes::Bytes;
pub use chars::Chars;
pub use encoder_result::EncoderResult;
pub use mapping::{Mapping, UnitBytes, Utf8Bytes};
pub use utf8_chars::Utf8Chars;
pub use utf16_chars::Utf16Chars;
pub use ways::{ByCharacter, ByUnit, Copied, Way};
