//! Sums over the bytes of single characters: conformance/README.md defines them.

use crate::fault::RowFault;
use encoding_rs::{BIG5, CoderResult, EncoderResult, Encoding};

/// What a sum is before any number.
const OFFSET_BASIS: u64 = 0xCBF2_9CE4_8422_2325;

/// The factor of a sum.
const PRIME: u64 = 0x100_0000_01B3;

/// Added after the bytes of a mappable character.
const MAPPABLE: u64 = 0x100;

/// Added for an unmappable one.
const UNMAPPABLE: u64 = 0x200;

/// Of the planes that are not taken whole, each code point is that is a multiple of this.
const STEP: u32 = 97;

/// The number of code points, over `STEP`.
const STEPS: u32 = 0x11_0000 / STEP + 1;

/// Whether the sums of an encoding have each character of a code point's plane.
fn is_whole(encoding: Encoding, code: u32) -> bool {
    code < 0x1_0000 || (code >> 16 == 2 && encoding == BIG5)
}

/// Adds a number.
fn add(sum: u64, number: u64) -> u64 {
    (sum ^ number).wrapping_mul(PRIME)
}

/// Adds bytes.
fn add_bytes(sum: u64, bytes: &[u8]) -> u64 {
    let mut sum = sum;
    for byte in bytes {
        sum = add(sum, *byte as u64);
    }
    sum
}

/// Adds a character, encoded by itself without replacement.
fn add_reported(sum: u64, encoding: Encoding, text: &str) -> Result<u64, RowFault> {
    let mut bytes = [0; 16];
    let mut encoder = encoding.new_encoder();
    let (result, _, written) = encoder.encode_from_utf8_without_replacement(text, &mut bytes, true);
    match (result, bytes.get(..written)) {
        (EncoderResult::Unmappable(reported), Some(_)) => {
            Ok(add(add(sum, UNMAPPABLE), reported as u64))
        }
        (EncoderResult::InputEmpty, Some(bytes)) => Ok(add(add_bytes(sum, bytes), MAPPABLE)),
        _ => Err(RowFault::fails("a character has no room without replacement")),
    }
}

/// Adds a character, encoded by itself with replacement.
fn add_replaced(sum: u64, encoding: Encoding, text: &str) -> Result<u64, RowFault> {
    let mut bytes = [0; 32];
    let mut encoder = encoding.new_encoder();
    let (result, _, written, replaced) = encoder.encode_from_utf8(text, &mut bytes, true);
    let mark = if replaced { UNMAPPABLE } else { MAPPABLE };
    match (result, bytes.get(..written)) {
        (CoderResult::InputEmpty, Some(bytes)) => Ok(add(add_bytes(sum, bytes), mark)),
        _ => Err(RowFault::fails("a character has no room with replacement")),
    }
}

/// Adds a character to both sums, if a code point is one.
fn add_code(
    (reported, replaced): (u64, u64),
    encoding: Encoding,
    code: u32,
) -> Result<(u64, u64), RowFault> {
    let Some(character) = char::from_u32(code) else {
        return Ok((reported, replaced));
    };
    let mut local = [0; 4];
    let text = character.encode_utf8(&mut local);
    Ok((
        add_reported(reported, encoding, text)?,
        add_replaced(replaced, encoding, text)?,
    ))
}

/// The sums of an encoding, without replacement and with it.
pub(crate) fn sums_of(encoding: Encoding) -> Result<(u64, u64), RowFault> {
    let mut sums = (OFFSET_BASIS, OFFSET_BASIS);
    for step in 0..STEPS {
        let first = step.saturating_mul(STEP);
        let after = first.saturating_add(STEP);
        sums = add_code(sums, encoding, first)?;
        if !is_whole(encoding, first) && !is_whole(encoding, after) {
            continue;
        }
        for code in first.saturating_add(1)..after {
            if is_whole(encoding, code) {
                sums = add_code(sums, encoding, code)?;
            }
        }
    }
    Ok(sums)
}
