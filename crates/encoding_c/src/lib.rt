//! Exports of a static library: the calls of `Encoding`, `Decoder` and `Encoder` for C.
//!
//! An encoding is a number from 0 to 39, in the order of the standard's table of names and labels
//! (Encoding Standard 4.2), and 255 is none. A decoder or an encoder lies in memory of the
//! caller's, and a call gets a pointer to its address. Results are numbers (`enc_handles`).
//!
//! Each export has the contract of the call that it passes on. Before it, it sees whether the
//! number is that of an encoding, and whether the decoder is finished: if not so, it does nothing
//! and says so. No export takes memory.
#![tactic(auto)]

mod decoders;
mod encoders;
mod encodings;
mod lengths;
mod tested;
