//! Tests of `enc_reader`: text that is read from sources that give a few bytes a read, or fail,
//! into small buffers.
//!
//! Expected values come from the Encoding Standard, from Unicode's tables and from Python's codecs.
//! The text of a whole input is that of `decode`.
#![tactic(auto)]

#[cfg(test)]
mod doc_examples;
#[cfg(test)]
mod errors;
#[cfg(test)]
mod gathering;
#[cfg(test)]
mod lending;
#[cfg(test)]
mod lines;
#[cfg(test)]
mod pauses;
#[cfg(test)]
mod placed_lines;
#[cfg(test)]
mod reads;
#[cfg(test)]
mod surface;
#[cfg(test)]
mod whole_inputs;
