//! Runs texts through the encoder of an encoding, from each form of input and into each form of
//! output.

pub mod call_rows;
pub mod calls;
pub mod long_texts;
mod mixed;
mod predictions;
pub mod runs;
mod single_characters;
pub mod ways;
pub mod whole_texts;
