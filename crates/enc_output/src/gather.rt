//! Characters collected in a buffer: the ways to do so, and one by one.

ghost use Rattle.std.specs.Prelude.{ℕ, ◌+◌, ◌<◌, ◌≤◌, List, [], ◌∷◌, length, IsTrue};
ghost use Rattle.std.specs.Char.{encode_utf8};
ghost use Rattle.std.specs.Char.Escape.{encode_utf16};
ghost use Rattle.enc_output.specs.Output.{buffer_output, room_in};
ghost use Rattle.enc_output.specs.PieceRuns.{PutsPieces};

use crate::buffer::{Buffer, UnitBuffer};
use crate::pieces::Pieces;
use crate::run::Run;
use crate::unit_slice::{UnitSlice, append_each};
use crate::windows::Windows;
use std::simd::prelude::*;

/// The least room for which characters are collected.
pub(crate) const SHORT: usize = 64;

/// The least number of bytes for which characters are collected, and not window by window.
pub(crate) const NEAR: usize = 96;

/// The length of a buffer, if there is no table.
pub(crate) const BUFFER: usize = 304;

/// The length of a buffer of code units.
pub(crate) const UNITS_BUFFER: usize = 164;

/// A turn writes at most this number of bytes, if characters are collected one by one.
const STEP: usize = 16;

/// Stores ASCII characters at the front of sixteen bytes, and returns their number. There may be
/// more.
#[inline(always)]
fn store_own<P: Pieces>(out: &mut Buffer<'_, u8>, pieces: P, src: &[u8]) -> usize
    requires long { 16 ≤ length src.now }
    requires room { 16 ≤ room_in out.old.len out.old.units }
    ensures bound { room_in out.old.len out.old.units ≤ room_in out.new.len out.new.units + result }
    ensures puts { PutsPieces encode_utf8 (P.means pieces)
        (buffer_output out.old.len out.old.units)
        (buffer_output out.new.len out.new.units) src.now result }
{
    let lanes = u8x16::from_slice(src);
    let own = pieces.own_len(lanes);
    out.store_front(lanes, own);
    own
}

/// A way to collect characters in a buffer of fixed length, so that an output takes many of them at
/// once.
pub trait Gather: Copy {
    // the bytes mean the character
    ghost means: { Self → List ℕ → ℕ → Type 0 };

    /// The number of bytes that a store of `gather` may overwrite beyond the room.
    const MORE: usize = 0;

    /// Returns whether each byte below 0x80 is the ASCII character with that number.
    fn has_ascii(self) -> bool
        ensures { IsTrue result → (b : ℕ) → b < 0x80 → means self (b ∷ []) b };

    /// Writes the characters one by one, but ASCII in runs. Returns their length in bytes.
    ///
    /// It stops where no character is known to begin, or the next one does not fit.
    fn write_each<U: UnitSlice>(self, out: &mut U, src: &[u8]) -> usize
        ensures { PutsPieces U.units_of (means self) (U.output out.old) (U.output out.new) src.now
            result };

    /// Stores the first characters of `src`, any number of them, and returns their length in bytes.
    fn gather(self, out: &mut Buffer<'_, u8>, src: &[u8]) -> usize
        ensures { PutsPieces encode_utf8 (means self) (buffer_output out.old.len out.old.units)
            (buffer_output out.new.len out.new.units) src.now result };

    /// Does the same in UTF-16.
    fn gather_units(self, out: &mut Buffer<'_, u16>, src: &[u8]) -> usize
        ensures { PutsPieces encode_utf16 (means self) (buffer_output out.old.len out.old.units)
            (buffer_output out.new.len out.new.units) src.now result }
    {
        let _gather = self;
        let _bytes = src;
        let _out = out;
        0
    }
}

/// Characters one by one, and ASCII in steps of sixteen, by [`Pieces::own_len`].
#[derive(Clone, Copy)]
pub struct OneByOne<P> {
    pub pieces: P,
}

impl<P: Pieces> Gather for OneByOne<P> {
    ghost means = { λ r. P.means r.pieces };

    fn has_ascii(self) -> bool {
        self.pieces.has_ascii()
    }

    #[inline(always)]
    fn write_each<U: UnitSlice>(self, out: &mut U, src: &[u8]) -> usize {
        append_each(out, self, self.pieces, src)
    }

    /// Stops where no character is known to begin, and within the last 16 bytes of the room or the
    /// last 32 of `src`.
    #[inline(always)]
    fn gather(self, out: &mut Buffer<'_, u8>, src: &[u8]) -> usize {
        let pieces = self.pieces;
        if out.capacity() < STEP {
            return 0;
        }
        let most = out.capacity() - STEP;
        let mut read = 0;
        while out.len() <= most && 32 <= src.len() - read {
            let (_, rest) = src.split_at(read);
            let own = store_own(out, pieces, rest);
            read += own;
            if own > 0 {
                continue;
            }
            let Some((character, len)) = pieces.piece(src, read) else {
                break;
            };
            out.store_char(character);
            read += len;
        }
        read
    }
}

impl<P: Pieces> Windows for OneByOne<P> {
    ghost means = { λ r. P.means r.pieces };
}

impl<P: Pieces> Run for OneByOne<P> {}
