//! The indexes of the Encoding Standard (5): their entries, and the characters of pointers in
//! constant time, proved equal to the entries; and the names of the codecs. No call takes memory.
#![tactic(auto)]

mod codec;
mod data;
mod double_byte_index;
pub mod indexes;
mod list;
mod search;
mod single_byte_chars;
mod single_byte_index;
mod table;

pub use codec::Codec;
pub use double_byte_index::DoubleByteIndex;
pub use list::List;
pub use search::run_with;
pub use single_byte_index::SingleByteIndex;
pub use table::Planes;
