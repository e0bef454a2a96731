//! Slices of code units that take characters one by one, and ASCII in runs.

ghost use Rattle.std.specs.Prelude.{◌≡◌, ℕ, List, length, nat_le, IsTrue, IsFalse};
ghost use Rattle.std.specs.Char.{IsScalar};
ghost use Rattle.enc_output.specs.AsciiRun.{PutsAscii};
ghost use Rattle.enc_output.specs.Output.{Output, with_appended};
ghost use Rattle.enc_output.specs.PieceRuns.{PutsPieces};

use crate::gather::{Gather, NEAR};
use crate::pieces::Pieces;
use crate::windows::Windows;
use std::simd::prelude::*;

/// A slice that takes characters from its start on.
pub trait UnitSlice {
    // the code units of a character
    ghost units_of: { ℕ → List ℕ };

    // the code units written, the room left, and the old code units after them
    ghost output: { Self → Output };

    /// Writes a character and returns true, or writes nothing and returns false if it does not fit.
    fn append_char(&mut self, c: char) -> bool
        ensures scalar { IsScalar c }
        ensures fits { result ≡ nat_le (length (units_of c)) (output self.old).room }
        ensures written { IsTrue result → output self.new
            ≡ with_appended (output self.old) (units_of c) }
        ensures unchanged { IsFalse result → output self.new ≡ output self.old };

    /// Writes the ASCII at the front, as much as fits, and returns its length.
    fn append_ascii(&mut self, src: &[u8]) -> usize
        ensures { PutsAscii units_of (output self.old) (output self.new) src.now result };

    /// Writes the characters that are stored as a window, if they fit. Returns their length in
    /// bytes.
    fn append_window<W: Windows>(&mut self, by: W, src: &[u8]) -> usize
        ensures { PutsPieces units_of (W.means by) (output self.old) (output self.new) src.now
            result };
}

/// Writes the ASCII at the front, as much as fits, if ASCII bytes are characters. Returns its
/// length.
#[inline(always)]
pub(crate) fn append_ascii_of<U: UnitSlice, G: Gather>(out: &mut U, by: G, src: &[u8]) -> usize
    ensures { PutsPieces U.units_of (G.means by) (U.output out.old) (U.output out.new) src.now
        result }
{
    if !by.has_ascii() {
        return 0;
    }
    out.append_ascii(src)
}

/// Writes ASCII characters from the front. Returns their length in bytes.
///
/// They are as many as fit, and at most sixteen if not all ASCII bytes are characters.
#[inline(always)]
fn append_own<U: UnitSlice, P: Pieces>(out: &mut U, pieces: P, src: &[u8]) -> usize
    ensures { PutsPieces U.units_of (P.means pieces) (U.output out.old) (U.output out.new) src.now
        result }
{
    if pieces.has_ascii() {
        return out.append_ascii(src);
    }
    if src.len() < 16 {
        return 0;
    }
    let own = pieces.own_len(u8x16::from_slice(src));
    if own == 0 {
        return 0;
    }
    out.append_ascii(&src[..own])
}

/// Writes the characters at the front: ASCII in runs, others by windows, and one by one where a
/// window has none. Returns their length in bytes.
///
/// It stops where no character is known to begin, or the next one does not fit.
#[inline(always)]
pub(crate) fn append_each<U: UnitSlice, W: Windows, P: Pieces>(
    out: &mut U,
    by: W,
    pieces: P,
    src: &[u8],
) -> usize
    requires same { (bytes : List ℕ) (c : ℕ) → W.means by bytes c → P.means pieces bytes c }
    ensures { PutsPieces U.units_of (P.means pieces) (U.output out.old) (U.output out.new) src.now
        result }
{
    let mut at = 0;
    while at < src.len() {
        let (_, rest) = src.split_at(at);
        let own = append_own(out, pieces, rest);
        at += own;
        if own > 0 {
            continue;
        }
        if rest.len() < NEAR {
            let more = out.append_window(by, rest);
            at += more;
            if more > 0 {
                continue;
            }
        }
        let Some((character, len)) = pieces.piece(src, at) else {
            return at;
        };
        if !out.append_char(character) {
            return at;
        }
        at += len;
    }
    at
}

/// Writes at most this number of characters at the front, each where the one before ends. Returns
/// their length in bytes, and whether more may follow.
///
/// In malformed input, runs are too short for a buffer to pay.
#[inline(always)]
pub(crate) fn append_few<U: UnitSlice, P: Pieces>(
    out: &mut U,
    pieces: P,
    few: usize,
    src: &[u8],
) -> (usize, bool)
    ensures { PutsPieces U.units_of (P.means pieces) (U.output out.old) (U.output out.new) src.now
        result.0 }
{
    let mut at = 0;
    let mut count = 0;
    while count < few && at < src.len() {
        let Some((character, len)) = pieces.piece(src, at) else {
            return (at, false);
        };
        if !out.append_char(character) {
            return (at, false);
        }
        at += len;
        count += 1;
    }
    (at, true)
}
