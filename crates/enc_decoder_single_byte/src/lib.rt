//! Decoders of encodings in which each byte is a sequence by itself: the legacy single-byte ones,
//! x-user-defined, and replacement. No call takes memory.
#![tactic(auto)]

mod one_byte;
mod replacement;
mod single_byte;
mod user_defined_words;
mod x_user_defined;

pub use replacement::ReplacementDecoder;
pub use single_byte::SingleByteDecoder;
pub use x_user_defined::XUserDefinedDecoder;
