//! Tests of `enc_writer` and of `recode_engine`: texts in several writes and their bytes, sinks
//! that fail and are flushed, policies for unmappable characters, writers of UTF-16 and of bytes,
//! and runs from a source to a sink.
//!
//! Bytes of mappable characters are of Python's codecs; other expected values come from the
//! Encoding Standard, by hand.
#![tactic(auto)]

#[cfg(test)]
mod bytes;
#[cfg(test)]
mod causes;
#[cfg(test)]
mod doc_examples;
#[cfg(test)]
mod faults;
#[cfg(test)]
mod long_texts;
#[cfg(test)]
mod policies;
#[cfg(test)]
mod run_faults;
#[cfg(test)]
mod runs;
#[cfg(test)]
mod sinks;
#[cfg(test)]
mod surface;
#[cfg(test)]
mod texts;
#[cfg(test)]
mod utf_16;
#[cfg(test)]
mod writing;
