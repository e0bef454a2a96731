//! Helpers of the test crates: all encodings, and runs of inputs and texts over decoders
//! and encoders, with every cut and room.
//!
//! It is a library so that its functions are proved once, and stay proved while rows change. A
//! library may not abort: a helper returns a `Fail` that names the case if a row does not hold, and
//! a test passes it on by `?`.
#![tactic(auto)]

pub mod cases;
pub mod decoding;
pub mod encoding;
pub mod encodings;
