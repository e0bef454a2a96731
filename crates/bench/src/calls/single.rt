//! Calls for one piece each. Each returns the length of what it gives, plus the last unit of that.

use encoding_rs::Encoding;
use std::alloc::Global;

/// The length of an output, plus its last byte.
#[inline(always)]
pub(crate) fn sum_of_bytes(output: &[u8]) -> u64 {
    match output.last() {
        None => 0,
        Some(last) => (output.len() as u64).wrapping_add(*last as u64),
    }
}

/// The length of an output, plus its last code unit.
#[inline(always)]
pub(crate) fn sum_of_units(output: &[u16]) -> u64 {
    match output.last() {
        None => 0,
        Some(last) => (output.len() as u64).wrapping_add(*last as u64),
    }
}

/// Decodes a piece to UTF-8 by a new decoder.
#[inline(never)]
pub(crate) fn to_utf8(encoding: Encoding, src: &[u8], dst: &mut [u8]) -> u64 {
    let mut decoder = encoding.new_decoder();
    let (_, _, written, _) = decoder.decode_to_utf8(src, dst, true);
    sum_of_bytes(&dst[..written])
}

/// Decodes a piece to UTF-16 by a new decoder.
#[inline(never)]
pub(crate) fn to_utf16(encoding: Encoding, src: &[u8], dst: &mut [u16]) -> u64 {
    let mut decoder = encoding.new_decoder();
    let (_, _, written, _) = decoder.decode_to_utf16(src, dst, true);
    sum_of_units(&dst[..written])
}

/// Decodes a piece by the one-shot call that returns a String.
#[inline(never)]
pub(crate) fn decode(alloc: Global, encoding: Encoding, src: &[u8]) -> u64 {
    match encoding.decode(alloc, src) {
        Ok((text, _, _)) => sum_of_bytes(text.as_bytes()),
        Err(_) => 0,
    }
}

/// Decodes a piece by the one-shot call that lends.
#[inline(never)]
pub(crate) fn decode_lending(alloc: Global, encoding: Encoding, src: &[u8]) -> u64 {
    match encoding.decode_lending(alloc, src) {
        Ok((text, _, _)) => sum_of_bytes(text.as_bytes()),
        Err(_) => 0,
    }
}

/// Encodes a piece of UTF-8 by a new encoder.
#[inline(never)]
pub(crate) fn from_utf8(encoding: Encoding, src: &str, dst: &mut [u8]) -> u64 {
    let mut encoder = encoding.new_encoder();
    let (_, _, written, _) = encoder.encode_from_utf8(src, dst, true);
    sum_of_bytes(&dst[..written])
}

/// Encodes a piece of UTF-16 by a new encoder.
#[inline(never)]
pub(crate) fn from_utf16(encoding: Encoding, src: &[u16], dst: &mut [u8]) -> u64 {
    let mut encoder = encoding.new_encoder();
    let (_, _, written, _) = encoder.encode_from_utf16(src, dst, true);
    sum_of_bytes(&dst[..written])
}

/// Encodes a piece by the one-shot call that returns a Vec.
#[inline(never)]
pub(crate) fn encode(alloc: Global, encoding: Encoding, src: &str) -> u64 {
    match encoding.encode(alloc, src) {
        Ok((bytes, _, _)) => sum_of_bytes(&bytes),
        Err(_) => 0,
    }
}

/// Encodes a piece by the one-shot call that lends.
#[inline(never)]
pub(crate) fn encode_lending(alloc: Global, encoding: Encoding, src: &str) -> u64 {
    match encoding.encode_lending(alloc, src) {
        Ok((bytes, _, _)) => sum_of_bytes(&bytes),
        Err(_) => 0,
    }
}

/// Looks up a label. The sum is the length of the encoding's name.
#[inline(never)]
pub(crate) fn for_label(label: &[u8]) -> u64 {
    match Encoding::for_label(label) {
        None => 0,
        Some(encoding) => encoding.name().len() as u64,
    }
}
