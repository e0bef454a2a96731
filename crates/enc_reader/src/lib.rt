//! Reading text: a [`DecodeReader`] reads bytes from a [`Source`] and hands them out as UTF-8.
//!
//! It reads a buffer at a time. [`FromRead`] makes a source of any reader. `read_line` of a
//! [`DecodedText`] or of a [`LineReader`] takes memory for its line, and no other call takes any.
#![tactic(auto)]

mod caused;
mod decode_reader;
mod decoded_text;
mod line;
mod line_fault;
mod line_reader;
mod line_reader_fault;
mod lines;
mod malformed_policy;
mod malformed_sequence;
mod position;
mod read_fault;
mod recent;
mod source;

pub use caused::{Caused, LineError, LineReaderError, ReadError};
pub use decode_reader::{DecodeReader, HandedText, ReadFault, ReadStop, TextPart};
pub use decoded_text::DecodedText;
pub use line::{Line, PlacedSequence};
pub use line_fault::LineFault;
pub use line_reader::LineReader;
pub use line_reader_fault::LineReaderFault;
pub use malformed_policy::MalformedPolicy;
pub use malformed_sequence::MalformedSequence;
pub use position::Position;
pub use source::{FromRead, Source};
