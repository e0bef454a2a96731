//! The items of `encoding_rs`: encodings, one-shot calls, decoders and encoders, as in the Rust
//! crate, and runs of calls.

mod constants;
mod decoder;
mod encoder;
mod encoding;
mod one_shot;
mod runs;
