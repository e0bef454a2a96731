//! Characters of one code unit of UTF-16, sixteen at a time, with no branch on their lengths.

ghost use Rattle.std.specs.Prelude.{◌≡◌, ◌+◌, ◌≤◌, length};
ghost use Rattle.enc_output.specs.CodeUnits.{units_of_bytes};

use crate::buffer::{Buffer, UnitBuffer};
use crate::gather::Gather;
use crate::pieces::{Pieces, UnitPieces};
use crate::run::Run;
use crate::unit_slice::{UnitSlice, append_each};
use crate::windows::{WINDOW, Windows};
use enc_utf8::SCALARS_STEP;
use std::simd::prelude::*;

/// At most this number of code units is stored at once.
const UNITS_STEP: usize = 16;

/// Returns the eight code units of sixteen bytes.
#[inline(always)]
pub(crate) fn units_in(bytes: u8x16, big_endian: bool) -> u16x8
    ensures { result ≡ units_of_bytes big_endian bytes }
{
    let units = u16x8::from_le_bytes(bytes);
    if big_endian {
        return (units << u16x8::splat(8)) + (units >> u16x8::splat(8));
    }
    units
}

/// Returns whether the code unit at `at` is a surrogate.
///
/// It chooses the way of the next characters: the output is the same either way.
#[inline(always)]
fn begins_with_surrogate<P: UnitPieces>(pieces: P, src: &[u8], at: usize) -> bool
    requires within { at + 2 ≤ length src.now }
{
    let high = if pieces.is_big_endian() {
        src[at]
    } else {
        src[at + 1]
    };
    high / 8 == 27
}

/// Characters of one code unit, and others one by one.
#[derive(Clone, Copy)]
pub struct CodeUnits<P> {
    pub pieces: P,
}

impl<P: UnitPieces> Gather for CodeUnits<P> {
    ghost means = { λ r. P.means r.pieces };

    fn has_ascii(self) -> bool {
        let _pieces = self.pieces;
        false
    }

    #[inline(always)]
    fn write_each<U: UnitSlice>(self, out: &mut U, src: &[u8]) -> usize {
        append_each(out, self, self.pieces, src)
    }

    /// A surrogate pair is taken by itself, and so are those that follow it.
    ///
    /// Stops where no character is known to begin, and within the last 52 bytes of the room or the
    /// last 32 of `src`.
    #[inline(always)]
    fn gather(self, out: &mut Buffer<'_, u8>, src: &[u8]) -> usize {
        let pieces = self.pieces;
        if out.capacity() < SCALARS_STEP || src.len() < 32 {
            return 0;
        }
        let most = out.capacity() - SCALARS_STEP;
        let last = src.len() - 32;
        let mut read = 0;
        'turns: while out.len() <= most && read <= last {
            let bytes = u8x16::from_slice(&src[read..]);
            let next = u8x16::from_slice(&src[read + 16..]);
            let count = out.store_long_units(pieces, bytes, next);
            read += 2 * count;
            if count == 16 {
                continue 'turns;
            }
            'singles: loop {
                let Some((character, len)) = pieces.piece(src, read) else {
                    return read;
                };
                out.store_char(character);
                read += len;
                if most < out.len() || last < read || !begins_with_surrogate(pieces, src, read) {
                    break 'singles;
                }
            }
        }
        read
    }

    /// Stops as `gather` does, but within the last 16 code units of the room.
    #[inline(always)]
    fn gather_units(self, out: &mut Buffer<'_, u16>, src: &[u8]) -> usize {
        let pieces = self.pieces;
        if out.capacity() < UNITS_STEP || src.len() < 32 {
            return 0;
        }
        let most = out.capacity() - UNITS_STEP;
        let last = src.len() - 32;
        let mut read = 0;
        'turns: while out.len() <= most && read <= last {
            let bytes = u8x16::from_slice(&src[read..]);
            let more = u8x16::from_slice(&src[read + 16..]);
            let count = out.store_long_units(pieces, bytes, more);
            read += 2 * count;
            if 8 <= count {
                continue 'turns;
            }
            let Some((character, len)) = pieces.piece(src, read) else {
                break 'turns;
            };
            out.store_char(character);
            read += len;
        }
        read
    }
}

impl<P: UnitPieces> Windows for CodeUnits<P> {
    ghost means = { λ r. P.means r.pieces };

    #[inline(always)]
    fn store_window<B: UnitBuffer>(self, out: &mut B, src: &[u8]) -> usize {
        if src.len() < 16 || out.capacity() - out.len() < WINDOW {
            return 0;
        }
        2 * out.store_units(self.pieces, u8x16::from_slice(src))
    }
}

impl<P: UnitPieces> Run for CodeUnits<P> {}
