//! Writing text: an [`EncodeWriter`] encodes text and pushes its bytes to a [`Sink`].
//!
//! It pushes a buffer at a time, and [`EncodeWriter::flush`] and [`EncodeWriter::finish`] flush the
//! sink. [`FromWrite`] makes a sink of any writer, and keeps its error, which a [`WriteError`] has
//! as its cause. No call takes memory.
//!
//! A [`Utf8Writer`] writes bytes of UTF-8 as text, as a writer of std. A [`Utf16Writer`] writes
//! text in UTF-16, which no encoder of the Encoding Standard does.
#![tactic(auto)]

mod byte_order;
mod encode_writer;
mod encoding_calls;
mod fault;
mod pushing;
mod sink;
mod unencoded;
mod unmappable_policy;
mod utf16_units;
mod utf16_writer;
mod utf8_chunk;
mod utf8_writer;
mod write_error;

pub use byte_order::ByteOrder;
pub use encode_writer::EncodeWriter;
pub use fault::{UnmappableStop, WriteFault};
pub use sink::{FromWrite, Sink};
pub use unmappable_policy::UnmappablePolicy;
pub use utf8_writer::Utf8Writer;
pub use utf16_writer::Utf16Writer;
pub use write_error::WriteError;
