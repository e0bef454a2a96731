//! The round trip of a text through an encoder and the decoder of the same codec.
#![tactic(auto)]

pub mod laws;
