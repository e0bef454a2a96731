//! Streaming and one-shot calls for the encodings of the WHATWG Encoding Standard.
//!
//! A [`Decoder`] converts a stream of bytes into text, and an [`Encoder`] text into bytes, in
//! chunks and output buffers of any size. An [`Encoding`] is found by its constant, by a label or
//! by a byte order mark. `encoding_rs` passes all of it on.
//!
//! A call takes memory only if it is passed an allocator. Calls into a String or a Vec append
//! within its capacity.
#![tactic(auto)]

mod bom;
pub mod constants;
mod decoder;
mod encoder;
mod encoder_lengths;
mod encoding;
mod labels;
pub mod laws;
mod lending;
mod lengths;
mod life_cycle;
mod numbers;
mod one_shot;
mod one_shot_error;
mod own_text;
mod parts;
mod properties;
mod sniffing;
mod table_laws;
mod text;
mod validity;

pub use bom::BomHandling;
pub use decoder::Decoder;
pub use enc_input::EncoderResult;
pub use enc_output::DecoderResult;
pub use enc_utf8::CoderResult;
pub use encoder::Encoder;
pub use encoding::Encoding;
pub use one_shot_error::OneShotError;
