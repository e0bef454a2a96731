//! The decoder of ISO-2022-JP. No call takes memory.
#![tactic(auto)]

mod character_set;
mod escape;
mod handler;
mod iso_2022_jp;
pub mod laws;
mod pairs;
mod replaced_ascii;
mod replaced_bytes;
mod runs;
mod sequences;

pub use iso_2022_jp::Iso2022JpDecoder;
