//! Tests of `encoding_rs`: byte order marks in all encodings, long inputs, memory and runs. The
//! folder conformance has the rows of single calls. `test_codecs` tests units and indexes,
//! `test_reader` and `test_writer` reading and writing.
//!
//! Expected values come from outside, as each table says: from examples of the Encoding Standard,
//! from Unicode's tables, and from other converters.
#![tactic(auto)]

#[cfg(test)]
mod bom;
#[cfg(test)]
mod calls;
#[cfg(test)]
mod doc_examples;
#[cfg(test)]
mod errors;
#[cfg(test)]
mod one_shot;
#[cfg(test)]
mod outputs;
