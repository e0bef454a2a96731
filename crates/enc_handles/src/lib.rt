//! Decoders and encoders in memory of a caller in another language, and results as numbers.
//!
//! Such a caller cannot hold a [`Decoder`](enc_stream::Decoder): it has memory, and its address. So
//! a [`DecoderAt`] has the address: `put` writes a decoder there, and `get` lends it. An
//! [`EncoderAt`] has that of an encoder. No call takes memory.
//!
//! That the memory is there, as long and as aligned as the type wants, and used by one call at a
//! time, is for the caller to see to. So is that `put` comes before `get`.
#![tactic(auto)]

mod decoder_at;
mod encoder_at;
mod numbers;
mod outcome;

pub use decoder_at::DecoderAt;
pub use encoder_at::EncoderAt;
pub use numbers::{NO_ENCODING, NO_LENGTH, length_or_none, number_or_none};
pub use outcome::{
    FINISHED, INPUT_EMPTY, NOT_UTF8, OUTPUT_FULL, Outcome, REPORTED, number_of_stop,
    numbers_of_decoder_result, numbers_of_encoder_result,
};
