//! Runs of UTF-16 that are written as UTF-8, sixteen code units at a time.

ghost use Rattle.std.specs.Prelude.{◌≡◌, ◌+◌, ◌<◌, ◌≤◌, length, take, drop, IsTrue};
ghost use Rattle.std.specs.Char.Utf16.{utf16_lossy_chars};
ghost use Rattle.enc_input.specs.Mappings.{AreAnyUnits, AreWrittenAsUtf8, WritesFront};
ghost use Rattle.enc_input.specs.Utf16Text.{AreUtf8OfUnits};

use crate::mapping::{Mapping, Utf8Bytes};
use crate::utf16_chars::first;
use enc_utf8::{SCALARS_STEP, store_sixteen_scalars, store_text, utf8_of};
use std::simd::prelude::*;

/// The length of the buffer.
const BUFFER: usize = 304;

/// The least number of code units, and of bytes of room, for which a buffer pays.
const LEAST: usize = 52;

/// Stores the UTF-8 of the first characters of `src` in a buffer. Returns the numbers of code units
/// read and of bytes written.
///
/// Aims at no more UTF-8 than `room`. A surrogate is taken by itself, with its partner, and so are
/// those that follow it. Stops within the last 52 bytes of the room or the last sixteen code units
/// of `src`.
#[inline(never)]
fn gather_text(buffer: &mut [u8], room: usize, src: &[u16]) -> (usize, usize)
    ensures len { length buffer.new ≡ length buffer.old }
    ensures bound { result.1 ≤ length buffer.new }
    ensures room { result.1 ≤ room }
    ensures text { AreUtf8OfUnits src.now result.0 (take result.1 buffer.new) }
{
    let limit = buffer.len().min(room);
    if limit < SCALARS_STEP || src.len() < 16 {
        return (0, 0);
    }
    let most = limit - SCALARS_STEP;
    let last = src.len() - 16;
    let mut read = 0;
    let mut written = 0;
    'turns: while written <= most && read <= last {
        let units = u16x8::from_slice(&src[read..]);
        let next = u16x8::from_slice(&src[read + 8..]);
        let (count, end) = store_sixteen_scalars(buffer, written, units, next);
        read += count;
        written = end;
        if count == 16 {
            continue 'turns;
        }
        'singles: loop {
            let Some((character, width)) = first(&src[read..]) else {
                return (read, written);
            };
            written = store_text(buffer, written, utf8_of(character));
            read += width;
            if most < written || last < read || src[read] / 0x800 != 27 {
                break 'singles;
            }
        }
    }
    (read, written)
}

/// Writes the UTF-8 of the first characters to a slice, from `at` on, through a buffer.
///
/// Returns the numbers of code units read and of bytes written.
#[inline(never)]
fn put_gathered<M: Mapping>(
    mapping: M,
    buffer: &mut [u8],
    src: &[u16],
    dst: &mut [u8],
    at: usize,
) -> (usize, usize)
    requires utf8 { AreWrittenAsUtf8 (M.means mapping) }
    requires room { at ≤ length dst.old }
    ensures { WritesFront utf16_lossy_chars AreAnyUnits (M.means mapping) src.now dst.old dst.new at
        result.0 result.1 }
{
    let _mapping = mapping;
    let mut read = 0;
    let mut end = at;
    'parts: loop {
        let room = dst.len() - end;
        let (len, count) = gather_text(buffer, room, &src[read..]);
        if len == 0 {
            return (read, end - at);
        }
        dst[end..end + count].copy_from_slice(&buffer[..count]);
        read += len;
        end += count;
    }
}

/// Does the same if there are enough code units and room for a buffer to pay.
///
/// It may stop within the last 52 bytes of the slice, and within the last sixteen code units.
#[inline(always)]
pub(crate) fn put_text<M: Utf8Bytes>(
    mapping: M,
    src: &[u16],
    dst: &mut [u8],
    at: usize,
) -> (usize, usize)
    requires room { at ≤ length dst.old }
    ensures { WritesFront utf16_lossy_chars AreAnyUnits (M.means mapping) src.now dst.old dst.new at
        result.0 result.1 }
{
    if src.len() < LEAST || dst.len() - at < LEAST {
        return (0, 0);
    }
    mapping.laws();
    put_gathered(mapping, &mut [0; BUFFER], src, dst, at)
}
