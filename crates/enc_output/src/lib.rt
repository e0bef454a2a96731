//! Outputs of code units with bounded room, and the results of calls that write them. No call takes
//! memory.
#![tactic(auto)]

mod buffer;
mod code_units;
mod decoder_result;
mod gather;
pub mod laws;
mod letters;
mod marked;
mod pairs;
mod pieces;
mod places;
mod rest;
mod run;
mod single_bytes;
mod string_tail;
mod unit_slice;
mod units;
mod utf16_slice;
mod utf8_pieces;
mod utf8_slice;
mod utf8_units;
mod widen;
mod windows;

pub use buffer::Buffer;
pub use code_units::CodeUnits;
pub use decoder_result::DecoderResult;
pub use gather::{Gather, OneByOne};
pub use letters::plain_len;
pub use pairs::Pairs;
pub use pieces::{BytePieces, PairPieces, Pieces, UnitPieces, put_run, put_utf8_run};
pub use places::{Places, numbers_in, places_at};
pub use rest::clear_rest;
pub use run::Run;
pub use single_bytes::SingleBytes;
pub use string_tail::StringTail;
pub use units::Units;
pub use utf8_slice::Utf8Slice;
pub use utf16_slice::Utf16Slice;
pub use windows::Windows;
