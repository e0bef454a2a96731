//! The bytes of mapped characters, written to a slice.

ghost use Rattle.std.specs.Prelude.{◌≡◌, ◌+◌, ◌≤◌, ◌++◌, length, take, drop};
ghost use Rattle.enc_input.specs.Bytes.{byte_list};

use crate::bytes::Bytes;
use std::simd::prelude::*;

/// A run ends where fewer bytes than a character may have are left of its slice.
pub(crate) const MOST_BYTES: usize = 4;

/// The numbers of sixteen lanes.
const PLACES: [u8; 16] = [0, 1, 2, 3, 4, 5, 6, 7, 8, 9, 10, 11, 12, 13, 14, 15];

/// Writes up to four bytes, and returns their number. The bytes after them are unchanged.
#[inline(never)]
fn put_any(dst: &mut [u8], at: usize, bytes: Bytes) -> usize
    requires room { at + 4 ≤ length dst.old }
    ensures count { result ≡ length (byte_list bytes) }
    ensures few { result ≤ 4 }
    ensures put { dst.new ≡ take at dst.old ++ (byte_list bytes ++ drop (at + result) dst.old) }
{
    dst[at..at + bytes.len].copy_from_slice(&bytes.bytes[..bytes.len]);
    bytes.len
}

/// Writes up to four bytes, as [`put_any`] does. One or two go from registers to memory, without an
/// array.
#[inline(always)]
pub(crate) fn put_bytes(dst: &mut [u8], at: usize, bytes: Bytes) -> usize
    requires room { at + 4 ≤ length dst.old }
    ensures count { result ≡ length (byte_list bytes) }
    ensures few { result ≤ 4 }
    ensures put { dst.new ≡ take at dst.old ++ (byte_list bytes ++ drop (at + result) dst.old) }
{
    if bytes.len == 1 {
        dst[at] = bytes.bytes[0];
        return 1;
    }
    if bytes.len == 2 {
        dst[at] = bytes.bytes[0];
        dst[at + 1] = bytes.bytes[1];
        return 2;
    }
    put_any(dst, at, bytes)
}

/// Writes the first `len` of sixteen bytes. The bytes after them are unchanged.
#[inline(always)]
pub(crate) fn put_lanes(dst: &mut [u8], at: usize, lanes: u8x16, len: usize)
    requires room { at + 16 ≤ length dst.old }
    requires bound { len ≤ 16 }
    ensures { dst.new ≡ take at dst.old ++ (take len lanes ++ drop (at + len) dst.old) }
{
    let after = u8x16::from_slice(&dst[at..]);
    let is_front = u8x16::from_array(PLACES).simd_lt(u8x16::splat(len as u8));
    is_front.select(lanes, after).copy_to_slice(&mut dst[at..]);
}
