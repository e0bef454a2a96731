//! Runs of well-formed UTF-8, sixteen bytes at a time.

ghost use Rattle.std.specs.Prelude.{◌≡◌, ◌∷◌, ℕ, ◌+◌, ◌/◌, ◌%◌, ◌<◌, ◌≤◌, length, take, drop};
ghost use Rattle.std.specs.Prelude.{slice_index, IsTrue};
ghost use Rattle.enc_utf8.specs.Utf8Run.{CanFollowBytes, CanFollowBytesAt, IsCharBoundaryAfter, ArePairFaults};
ghost use Rattle.enc_utf8.specs.Utf8Run.{required_faults};
ghost use Rattle.enc_utf8.specs.Validity.{IsWellFormedUtf8};

use crate::ascii::are_all_ascii;
use crate::swizzle::pick;
use crate::utf8_faults::{FIRST_LOWER, FIRST_UPPER, SECOND_UPPER};
use std::simd::prelude::*;

/// Returns the length in bytes of the well-formed sequence at the front, or 0 if none is found.
///
/// Unicode Standard 3.9, table 3-7, lists the well-formed sequences.
#[inline(always)]
pub fn char_len(src: &[u8]) -> usize
    ensures within { result ≤ length src.now }
    ensures utf8 { IsWellFormedUtf8 (take result src.now) }
{
    if src.len() == 0 {
        return 0;
    }
    let first = src[0];
    if first < 0x80 {
        return 1;
    }
    if first < 0xC2 || 0xF4 < first || src.len() < 2 {
        return 0;
    }
    let second = src[1];
    if second < 0x80 || 0xC0 <= second {
        return 0;
    }
    if first < 0xE0 {
        return 2;
    }
    if src.len() < 3 || src[2] < 0x80 || 0xC0 <= src[2] {
        return 0;
    }
    if first < 0xF0 {
        if first == 0xE0 && second < 0xA0 || first == 0xED && 0xA0 <= second {
            return 0;
        }
        return 3;
    }
    if src.len() < 4 || src[3] < 0x80 || 0xC0 <= src[3] {
        return 0;
    }
    if first == 0xF0 && second < 0x90 || first == 0xF4 && 0x90 <= second {
        return 0;
    }
    4
}

/// Returns the length of a prefix of well-formed sequences, which begin within the first sixteen
/// bytes.
#[inline(always)]
fn chars_len(src: &[u8]) -> usize
    ensures within { result ≤ length src.now }
    ensures utf8 { IsWellFormedUtf8 (take result src.now) }
{
    let mut at = 0;
    while at < 16 {
        let len = char_len(&src[at..]);
        if len == 0 {
            break;
        }
        at += len;
    }
    at
}

/// Returns whether no sequence that begins in three bytes requires a byte after them.
#[inline(always)]
fn is_between(src: &[u8], at: usize) -> bool
    requires bytes { at + 3 ≤ length src.now }
    ensures { IsTrue result → IsCharBoundaryAfter src.now at }
{
    src[at] < 0xF0 && src[at + 1] < 0xE0 && src[at + 2] < 0xC0
}

/// Returns the upper four bits of each of sixteen bytes.
#[inline(always)]
fn upper_halves(bytes: u8x16) -> u8x16
    ensures value { (k : ℕ) → k < 16 → slice_index result k ≡ slice_index bytes k / 16 }
    ensures bound { (k : ℕ) → k < 16 → slice_index result k < 16 }
{
    bytes >> u8x16::splat(4)
}

/// Returns the lower four bits of each of sixteen bytes.
#[inline(always)]
fn lower_halves(bytes: u8x16) -> u8x16
    ensures value { (k : ℕ) → k < 16 → slice_index result k ≡ slice_index bytes k % 16 }
    ensures bound { (k : ℕ) → k < 16 → slice_index result k < 16 }
{
    bytes & u8x16::splat(15)
}

/// Returns the faults of sixteen pairs of bytes: 0 where the second may begin a character or be the
/// second byte of one, and 0x80 where both are continuation bytes.
#[inline(always)]
fn pair_faults(first: u8x16, second: u8x16) -> u8x16
    ensures { (k : ℕ) → k < 16 →
        ArePairFaults (slice_index first k) (slice_index second k) (slice_index result k) }
{
    pick(u8x16::from_array(FIRST_UPPER), upper_halves(first))
        & pick(u8x16::from_array(FIRST_LOWER), lower_halves(first))
        & pick(u8x16::from_array(SECOND_UPPER), upper_halves(second))
}

/// Returns the faults that sixteen bytes must have with those before them, by the two before these:
/// 0x80 within a character of three or four bytes, and 0 elsewhere.
#[inline(always)]
fn faults_within(third: u8x16, second: u8x16) -> u8x16
    ensures { (k : ℕ) → k < 16 → slice_index result k ≡
        required_faults (slice_index third k) (slice_index second k) }
{
    let long = second.saturating_sub(u8x16::splat(0x60)) | third.saturating_sub(u8x16::splat(0x70));
    long & u8x16::splat(0x80)
}

/// Returns the faults of sixteen bytes: 0 where the byte may follow the three before it.
#[inline(always)]
fn faults(third: u8x16, second: u8x16, first: u8x16, bytes: u8x16) -> u8x16
    ensures { (k : ℕ) → k < 16 → slice_index result k ≡ 0 → CanFollowBytes (slice_index third k)
        (slice_index second k) (slice_index first k) (slice_index bytes k) }
{
    faults_within(third, second) ^ pair_faults(first, bytes)
}

/// Returns the faults of the sixteen bytes after the three at `at`.
#[inline(always)]
fn block_faults(src: &[u8], at: usize) -> u8x16
    requires bytes { at + 19 ≤ length src.now }
    ensures { (k : ℕ) → k < 16 → slice_index result k ≡ 0 → CanFollowBytesAt src.now (at + k) }
{
    faults(
        u8x16::from_slice(&src[at..]),
        u8x16::from_slice(&src[at + 1..]),
        u8x16::from_slice(&src[at + 2..]),
        u8x16::from_slice(&src[at + 3..]),
    )
}

/// Returns the faults that one of two blocks has.
#[inline(always)]
fn both_faults(one: u8x16, other: u8x16) -> u8x16
    ensures { (k : ℕ) → k < 16 → slice_index result k ≡ 0 →
        (slice_index one k ≡ 0) × (slice_index other k ≡ 0) }
{
    one | other
}

/// Returns whether there are no faults.
#[inline(always)]
fn are_none(faults: u8x16) -> bool
    ensures { IsTrue result → (k : ℕ) → k < 16 → slice_index faults k ≡ 0 }
{
    faults.simd_ne(u8x16::splat(0)).to_bitmask() == 0
}

/// Returns whether each of the sixteen bytes after the three at `at` may follow the three before
/// it.
#[inline(always)]
fn block_follows(src: &[u8], at: usize) -> bool
    requires bytes { at + 19 ≤ length src.now }
    ensures { IsTrue result → (k : ℕ) → at ≤ k → k < at + 16 → CanFollowBytesAt src.now k }
{
    are_none(block_faults(src, at))
}

/// Returns whether each of the 64 bytes after the three at `at` may follow the three before it.
#[inline(always)]
fn four_blocks_follow(src: &[u8], at: usize) -> bool
    requires bytes { at + 67 ≤ length src.now }
    ensures { IsTrue result → (k : ℕ) → at ≤ k → k < at + 64 → CanFollowBytesAt src.now k }
{
    let front = both_faults(block_faults(src, at), block_faults(src, at + 16));
    let back = both_faults(block_faults(src, at + 32), block_faults(src, at + 48));
    are_none(both_faults(front, back))
}

/// Returns a zero and the bytes without the last.
#[inline(always)]
fn after_one_zero(bytes: u8x16) -> u8x16
    ensures { (k : ℕ) → k < 16 → slice_index result k ≡ slice_index (0 ∷ bytes) k }
{
    u8x16::splat(0).shuffle(
        bytes,
        [
            15, 16, 17, 18, 19, 20, 21, 22, 23, 24, 25, 26, 27, 28, 29, 30,
        ],
    )
}

/// Returns two zeros and the bytes without the last ones.
#[inline(always)]
fn after_two_zeros(bytes: u8x16) -> u8x16
    ensures { (k : ℕ) → k < 16 → slice_index result k ≡ slice_index (0 ∷ 0 ∷ bytes) k }
{
    u8x16::splat(0).shuffle(
        bytes,
        [
            14, 15, 16, 17, 18, 19, 20, 21, 22, 23, 24, 25, 26, 27, 28, 29,
        ],
    )
}

/// Returns three zeros and the bytes without the last ones.
#[inline(always)]
fn after_three_zeros(bytes: u8x16) -> u8x16
    ensures { (k : ℕ) → k < 16 → slice_index result k ≡ slice_index (0 ∷ 0 ∷ 0 ∷ bytes) k }
{
    u8x16::splat(0).shuffle(
        bytes,
        [
            13, 14, 15, 16, 17, 18, 19, 20, 21, 22, 23, 24, 25, 26, 27, 28,
        ],
    )
}

/// Returns whether each of the first sixteen bytes may follow those before it. The first byte
/// begins a character, as after zeros.
#[inline(always)]
fn start_follows(src: &[u8]) -> bool
    requires bytes { 16 ≤ length src.now }
    ensures { IsTrue result → (k : ℕ) → k < 16 → CanFollowBytesAt (0 ∷ 0 ∷ 0 ∷ src.now) k }
{
    let bytes = u8x16::from_slice(src);
    let first = after_one_zero(bytes);
    are_none(faults(
        after_three_zeros(bytes),
        after_two_zeros(bytes),
        first,
        bytes,
    ))
}

/// Returns whether the 64 bytes after the three at `at` are ASCII, and these three require no other
/// byte.
#[inline(always)]
fn ascii_follows(src: &[u8], at: usize) -> bool
    requires bytes { at + 67 ≤ length src.now }
    ensures { IsTrue result → (k : ℕ) → at ≤ k → k < at + 64 → CanFollowBytesAt src.now k }
{
    are_all_ascii(u8x64::from_slice(&src[at + 3..])) && is_between(src, at)
}

/// Returns whether each of the 64 bytes after the three at `at` may follow the three before it, as
/// ASCII or not.
#[inline(always)]
fn stride_follows(src: &[u8], at: usize) -> bool
    requires bytes { at + 67 ≤ length src.now }
    ensures { IsTrue result → (k : ℕ) → at ≤ k → k < at + 64 → CanFollowBytesAt src.now k }
{
    ascii_follows(src, at) || four_blocks_follow(src, at)
}

/// Returns a number of bytes after the first three that may follow one another, found in blocks.
#[inline(always)]
fn following(src: &[u8]) -> usize
    requires bytes { 3 ≤ length src.now }
    ensures within { result + 3 ≤ length src.now }
    ensures follow { (k : ℕ) → k < result → CanFollowBytesAt src.now k }
{
    let mut at = 0;
    while 67 <= src.len() - at {
        if !stride_follows(src, at) {
            break;
        }
        at += 64;
    }
    while 19 <= src.len() - at && block_follows(src, at) {
        at += 16;
    }
    at
}

/// Returns a number of bytes after the first three that are well-formed, found in blocks. It is 0
/// unless these three end a character.
#[inline(always)]
fn blocks_len(src: &[u8]) -> usize
    requires bytes { 3 ≤ length src.now }
    ensures within { result + 3 ≤ length src.now }
    ensures utf8 { IsWellFormedUtf8 (take result (drop 3 src.now)) }
{
    if !is_between(src, 0) {
        return 0;
    }
    let mut end = following(src);
    while end > 0 && !is_between(src, end) {
        end -= 1;
    }
    end
}

/// Returns a number of bytes from the start that may follow one another, found in blocks. If fewer
/// than sixteen bytes follow the blocks, the last block is the last sixteen bytes.
#[inline(always)]
fn start_following(src: &[u8]) -> usize
    requires bytes { 16 ≤ length src.now }
    ensures within { result ≤ length src.now }
    ensures follow { (k : ℕ) → k < result → CanFollowBytesAt (0 ∷ 0 ∷ 0 ∷ src.now) k }
{
    if !start_follows(src) {
        return 0;
    }
    let end = 16 + following(&src[13..]);
    let len = src.len();
    if 19 <= len && len - end < 16 && block_follows(src, len - 19) {
        return len;
    }
    end
}

/// Returns the length of a prefix that is well-formed UTF-8, found in blocks from the start.
#[inline(always)]
fn start_len(src: &[u8]) -> usize
    ensures within { result ≤ length src.now }
    ensures utf8 { IsWellFormedUtf8 (take result src.now) }
{
    if src.len() < 16 {
        return 0;
    }
    let mut end = start_following(src);
    while 3 <= end {
        if is_between(src, end - 3) {
            return end;
        }
        end -= 1;
    }
    0
}

/// Returns the length of a prefix that is well-formed UTF-8.
///
/// It need not be maximal, as near the end.
#[inline(always)]
pub fn utf8_front(src: &[u8]) -> usize
    ensures within { result ≤ length src.now }
    ensures utf8 { IsWellFormedUtf8 (take result src.now) }
{
    let mut at = start_len(src);
    loop {
        let len = chars_len(&src[at..]);
        at += len;
        if len < 16 {
            return at;
        }
        at += blocks_len(&src[at - 3..]);
    }
}
