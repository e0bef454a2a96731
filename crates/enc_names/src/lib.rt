//! The encodings by identifier: names, labels, codecs and properties (Encoding Standard 4.2).
//! Labels are in a table with binary search. No call takes memory.
#![tactic(auto)]

mod encoding_id;
mod encoding_table;
mod labels;
pub mod laws;
mod search;
mod table;
mod words;

pub use encoding_id::EncodingId;
