//! The contract of every decoder, the loop over the bytes of a call that keeps it for every codec,
//! the decoder of every encoding by prefixes, and calls over held bytes and the bytes that follow
//! them. No call takes memory.
#![tactic(auto)]

mod byte_codec;
mod error_mode;
mod held_first;
mod latin1;
mod machine;
mod outcome;
mod pending;
mod prefix;
mod prefix_codec;
mod raw_decoder;
mod replaced;
mod text_lengths;

pub use byte_codec::{ByteCodec, Emission, HandlerResult, Kind, Text};
pub use error_mode::{CallOptions, ErrorMode};
pub use held_first::{decode_held_first, reaches_end, shift_malformed};
pub use latin1::latin1_up_to;
pub use machine::run;
pub use outcome::DecoderOutcome;
pub use pending::Pending;
pub use prefix::Prefix;
pub use prefix_codec::PrefixCodec;
pub use raw_decoder::RawDecoder;
pub use text_lengths::TextLengths;
