//! Runs of ASCII bytes, sixteen at a time.

ghost use Rattle.std.specs.Prelude.{◌≡◌, ◌≢◌, ◌↔◌, ◌+◌, ◌-◌, ◌≤◌, ◌<◌, ◌++◌, All, length, take, drop};
ghost use Rattle.std.specs.Prelude.{slice_index, IsTrue};
ghost use Rattle.enc_utf8.specs.AsciiCopy.{CopiesAscii};
ghost use Rattle.enc_utf8.specs.Validity.{AreAscii};

use std::simd::prelude::*;

/// Returns whether all of sixteen bytes are ASCII.
#[inline(always)]
pub fn are_ascii(lanes: u8x16) -> bool
    ensures { IsTrue result ↔ AreAscii lanes }
{
    lanes.simd_ge(u8x16::splat(0x80)).to_bitmask() == 0
}

/// Returns whether all of 64 bytes are ASCII.
#[inline(always)]
pub fn are_all_ascii(lanes: u8x64) -> bool
    ensures { IsTrue result → AreAscii lanes }
{
    lanes.simd_ge(u8x64::splat(0x80)).to_bitmask() == 0
}

/// Returns how many of sixteen bytes come before the first that is `byte`.
#[inline(always)]
pub fn len_before(lanes: u8x16, byte: u8) -> usize
    ensures bound { result ≤ 16 }
    ensures none { All (λ b. b ≢ byte) (take result lanes) }
{
    let found = lanes.simd_eq(u8x16::splat(byte)).to_bitmask();
    if found == 0 {
        16
    } else {
        found.trailing_zeros() as usize
    }
}

/// Returns the length of a prefix that is ASCII, in whole steps of 64 and then of sixteen bytes.
/// Fewer than sixteen bytes follow, or sixteen that are not all ASCII.
#[inline(always)]
fn ascii_steps(bytes: &[u8]) -> usize
    ensures within { result ≤ length bytes.now }
    ensures ascii { AreAscii (take result bytes.now) }
    ensures stops { result + 16 ≤ length bytes.now
        → ¬ (AreAscii (take 16 (drop result bytes.now))) }
{
    let mut at = 0;
    'strides: while 64 <= bytes.len() - at {
        if !are_all_ascii(u8x64::from_slice(&bytes[at..])) {
            break;
        }
        at += 64;
    }
    'steps: while 16 <= bytes.len() - at {
        if !are_ascii(u8x16::from_slice(&bytes[at..])) {
            break;
        }
        at += 16;
    }
    at
}

/// Returns whether there are sixteen bytes, and the last sixteen are ASCII.
#[inline(always)]
fn ends_as_ascii(bytes: &[u8]) -> bool
    ensures enough { IsTrue result → 16 ≤ length bytes.now }
    ensures ascii { IsTrue result → AreAscii (drop (length bytes.now - 16) bytes.now) }
{
    16 <= bytes.len() && are_ascii(u8x16::from_slice(&bytes[bytes.len() - 16..]))
}

/// Returns the length of the longest prefix that is ASCII.
///
/// If fewer than sixteen bytes follow the whole steps, the last sixteen are tested at once.
#[inline(always)]
pub fn ascii_len(bytes: &[u8]) -> usize
    ensures within { result ≤ length bytes.now }
    ensures ascii { AreAscii (take result bytes.now) }
    ensures ends { result < length bytes.now → 0x80 ≤ slice_index bytes.now result }
{
    let mut at = ascii_steps(bytes);
    if at == bytes.len() {
        return at;
    }
    if 16 <= bytes.len() - at {
        return at + ascii_in(u8x16::from_slice(&bytes[at..]));
    }
    if ends_as_ascii(bytes) {
        return bytes.len();
    }
    while at < bytes.len() && bytes[at] < 0x80 {
        at += 1;
    }
    at
}

/// Copies ASCII bytes from the front of `src`, at most `most`, in whole steps of 64. Returns their
/// number.
#[inline(always)]
pub fn copy_strides(src: &[u8], dst: &mut [u8], most: usize) -> usize
    requires read { most ≤ length src.now }
    requires room { most ≤ length dst.old }
    ensures { CopiesAscii src.now dst.old dst.new most result }
{
    let mut at = 0;
    while 64 <= most - at {
        let lanes = u8x64::from_slice(&src[at..]);
        if !are_all_ascii(lanes) {
            break;
        }
        lanes.copy_to_slice(&mut dst[at..]);
        at += 64;
    }
    at
}

/// Copies the ASCII bytes at the front, as many as fit. Returns their number.
#[inline(always)]
pub fn copy_ascii(src: &[u8], dst: &mut [u8]) -> usize
    ensures read { result ≤ length src.now }
    ensures room { result ≤ length dst.old }
    ensures ascii { AreAscii (take result src.now) }
    ensures copied { dst.new ≡ take result src.now ++ drop result dst.old }
    ensures ends { result < length src.now → result < length dst.old
        → 0x80 ≤ slice_index src.now result }
{
    let most = if src.len() < dst.len() {
        src.len()
    } else {
        dst.len()
    };
    if most == 0 || src[0] >= 0x80 {
        return 0;
    }
    let mut at = copy_strides(src, dst, most);
    while 16 <= most - at {
        let lanes = u8x16::from_slice(&src[at..]);
        if !are_ascii(lanes) {
            break;
        }
        lanes.copy_to_slice(&mut dst[at..]);
        at += 16;
    }
    while at < most && src[at] < 0x80 {
        dst[at] = src[at];
        at += 1;
    }
    at
}

/// Returns how many of sixteen bytes come before the first that is not ASCII.
#[inline(always)]
pub fn ascii_in(lanes: u8x16) -> usize
    ensures bound { result ≤ 16 }
    ensures ascii { AreAscii (take result lanes) }
    ensures some { slice_index lanes 0 < 0x80 → 0 < result }
    ensures ends { result < 16 → 0x80 ≤ slice_index lanes result }
{
    let others = lanes.simd_ge(u8x16::splat(0x80)).to_bitmask();
    if others == 0 {
        16
    } else {
        others.trailing_zeros() as usize
    }
}

/// Returns how many of 64 bytes from `from` on come before the first that is not ASCII, and at most
/// `most`.
#[inline(always)]
pub fn ascii_from(lanes: u8x64, from: usize, most: usize) -> usize
    requires bound { from + most < 64 }
    ensures bound { result ≤ most }
    ensures ascii { AreAscii (take result (drop from lanes)) }
{
    let others = lanes.simd_ge(u8x64::splat(0x80)).to_bitmask();
    ((others >> from as u64).trailing_zeros() as usize).min(most)
}
