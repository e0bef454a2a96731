//! Decoders of UTF-8 and UTF-16. Only `plain::decode_utf_8` takes memory, from the allocator that
//! it is passed.
#![tactic(auto)]

pub mod plain;
mod utf_16;
mod utf_8;

pub use utf_8::Utf8Decoder;
pub use utf_16::Utf16Decoder;
