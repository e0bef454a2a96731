//! Tests of each encoder, of index look-ups, of outputs, and of the second decoder of UTF-8; and of
//! each public item, by its path (`surface`).
//!
//! `encoders` has runs and lists, which rows can't say. Expected values come from outside, as each
//! table says: from examples of the Encoding Standard, from Unicode's tables, and from other
//! converters. Decoders and encoders have rows in conformance/.
#![tactic(auto)]

#[cfg(test)]
mod encoders;
#[cfg(test)]
mod indexes;
#[cfg(test)]
mod plain;
#[cfg(test)]
mod surface;
#[cfg(test)]
mod units;
