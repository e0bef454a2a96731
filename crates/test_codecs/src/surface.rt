//! The public surface: each constant, type, variant, field, trait, method and function of the
//! libraries below the reader and the writer, named by its path and used. A path that is gone, or a
//! signature that is another, fails the build. Readers, writers and runs have a module `surface` in
//! `test_reader` and in `test_writer`.
//!
//! Expected values come from the Encoding Standard, the Unicode Standard and the documentation of
//! the Rust crate encoding_rs 0.8.44.

mod codecs;
mod derives;
mod encoders;
mod encodings;
mod samples;
mod units;
