//! Code units of UTF-16, read from bytes.

ghost use Rattle.std.specs.Prelude.{◌≤◌, length};

use std::simd::prelude::*;

/// Puts the code units of some bytes of UTF-16LE into a slice, and returns their number.
pub(crate) fn units_of(bytes: &[u8], units: &mut [u16]) -> usize
    ensures { result ≤ length units.new }
{
    let count = (bytes.len() / 2).min(units.len());
    let mut at = 0;
    while 8 <= count - at {
        u16x8::from_le_bytes(u8x16::from_slice(&bytes[2 * at..])).copy_to_slice(&mut units[at..]);
        at += 8;
    }
    while at < count {
        units[at] = bytes[2 * at] as u16 + bytes[2 * at + 1] as u16 * 0x100;
        at += 1;
    }
    count
}
