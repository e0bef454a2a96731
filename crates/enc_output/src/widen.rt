//! ASCII as UTF-16.

ghost use Rattle.std.specs.Prelude.{◌≡◌, ◌<◌, ◌≤◌, ◌++◌, length, take, drop, slice_index};
ghost use Rattle.enc_utf8.specs.Validity.{AreAscii};

use enc_utf8::are_ascii;
use std::simd::prelude::*;

/// Stores the ASCII bytes at the front as code units, as many as fit. Returns their number.
#[inline(always)]
pub(crate) fn widen_ascii(src: &[u8], dst: &mut [u16]) -> usize
    ensures read { result ≤ length src.now }
    ensures room { result ≤ length dst.old }
    ensures ascii { AreAscii (take result src.now) }
    ensures stored { dst.new ≡ take result src.now ++ drop result dst.old }
    ensures ends { result < length src.now → result < length dst.old →
        0x80 ≤ slice_index src.now result }
{
    let most = src.len().min(dst.len());
    if most == 0 || src[0] >= 0x80 {
        return 0;
    }
    let mut at = 0;
    while 16 <= most - at {
        let lanes = u8x16::from_slice(&src[at..]);
        if !are_ascii(lanes) {
            break;
        }
        lanes.cast::<u16>().copy_to_slice(&mut dst[at..]);
        at += 16;
    }
    while at < most && src[at] < 0x80 {
        dst[at] = src[at] as u16;
        at += 1;
    }
    at
}

/// Returns whether at most four of the next 64 bytes are beyond ASCII. Such text is faster as ASCII
/// and single characters.
///
/// It is a guess: the output is the same either way.
#[inline(always)]
pub(crate) fn is_nearly_ascii(src: &[u8]) -> bool {
    if src.len() < 64 {
        return false;
    }
    let others = u8x64::from_slice(src).simd_ge(u8x64::splat(0x80));
    others.to_bitmask().count_ones() <= 4
}
