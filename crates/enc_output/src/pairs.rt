//! Characters of one byte or two, eight at a time, with no branch on their lengths.

ghost use Rattle.std.specs.Prelude.{ℕ, ◌+◌, ◌<◌, ◌≤◌, List, length, drop};
ghost use Rattle.std.specs.Char.{encode_utf8};
ghost use Rattle.enc_output.specs.Output.{borrowed_output};
ghost use Rattle.enc_output.specs.PieceRuns.{PutsPieces};
ghost use Rattle.enc_output.specs.Places.{ArePlaces, EachIsPlace};

use crate::buffer::{Buffer, UnitBuffer};
use crate::gather::{BUFFER, Gather};
use crate::pieces::{PairPieces, Pieces};
use crate::run::Run;
use crate::unit_slice::{UnitSlice, append_each, append_few};
use crate::utf8_slice::Utf8Slice;
use crate::windows::{WINDOW, Windows};
use enc_utf8::{are_ascii, ends_of};
use std::simd::prelude::*;

/// A turn writes at most this number of code units: eight characters, and one after them.
const STEP: usize = 36;

/// Where characters begin among sixteen places.
#[derive(Clone, Copy)]
struct Start {
    /// The number of the place of the first.
    from: usize,
    /// A bit for each lead of a pair from there on, that of the first in the lowest.
    leads: u64,
}

/// Stores four characters, or those before one that is not known.
///
/// Returns how many bytes the characters have, and whether they are four.
#[inline(always)]
fn store_four<B: UnitBuffer, P: PairPieces>(
    out: &mut B,
    pieces: P,
    places: &[u16; 16],
    start: Start,
) -> (usize, bool)
    requires from { start.from ≤ 8 }
    requires places { EachIsPlace (P.stands_for pieces) places.now }
    requires room { 16 ≤ (B.output out.old).room }
    ensures read { result.0 ≤ 8 }
    ensures bound { (B.output out.old).room ≤ (B.output out.new).room + 16 }
    ensures puts { (src : List ℕ) → 8 ≤ length src
        → ArePlaces (P.stands_for pieces) 8 (drop start.from places.now) start.leads src
        (drop 1 src)
        → PutsPieces B.units_of (P.means pieces) (B.output out.old) (B.output out.new) src
        result.0 }
{
    let ends = ends_of(start.leads);
    let mut read = 0;
    let mut count = 0;
    while count < 4 {
        let next = ends[count] as usize;
        if !out.store_place(pieces, places[start.from + read]) {
            return (read, false);
        }
        read = next;
        count += 1;
    }
    (read, true)
}

/// Does the same for eight characters.
#[inline(always)]
fn store_eight<B: UnitBuffer, P: PairPieces>(
    out: &mut B,
    pieces: P,
    places: &[u16; 16],
    leads: u64,
) -> usize
    requires places { EachIsPlace (P.stands_for pieces) places.now }
    requires room { 32 ≤ (B.output out.old).room }
    ensures read { result ≤ 16 }
    ensures bound { (B.output out.old).room ≤ (B.output out.new).room + 32 }
    ensures puts { (src : List ℕ) → 16 ≤ length src
        → ArePlaces (P.stands_for pieces) 16 places.now leads src (drop 1 src)
        → PutsPieces B.units_of (P.means pieces) (B.output out.old) (B.output out.new) src
        result }
{
    let start = Start { from: 0, leads };
    let (first, is_whole) = store_four(out, pieces, places, start);
    if !is_whole {
        return first;
    }
    let rest = Start {
        from: first,
        leads: leads >> first as u64,
    };
    let (second, _) = store_four(out, pieces, places, rest);
    first + second
}

/// Stores the characters that begin in the first sixteen bytes of `src`, and lie in the first
/// `len`. It stops at one that is not known. Returns their length in bytes.
#[inline(always)]
fn store_places<B: UnitBuffer, P: PairPieces>(
    out: &mut B,
    pieces: P,
    src: &[u8],
    len: usize,
) -> usize
    requires long { 17 ≤ length src.now }
    requires room { 64 ≤ (B.output out.old).room }
    ensures within { result ≤ len }
    ensures puts { PutsPieces B.units_of (P.means pieces) (B.output out.old) (B.output out.new)
        src.now result }
{
    let found = pieces.places(u8x16::from_slice(src), u8x16::from_slice(&src[1..]));
    let places = found.places.to_array();
    let mut leads = found.leads;
    let mut read = 0;
    while read < 16 {
        let more = leads & 1;
        let end = read + 1 + more as usize;
        if len < end || !out.store_place(pieces, places[read]) {
            break;
        }
        read = end;
        leads >>= 1 + more;
    }
    read
}

/// Stores characters from the front of `src`, as `Gather::gather` does.
#[inline(always)]
fn gather_pairs<B: UnitBuffer, P: PairPieces>(out: &mut B, pieces: P, src: &[u8]) -> usize
    ensures { PutsPieces B.units_of (P.means pieces) (B.output out.old) (B.output out.new) src.now
        result }
{
    let has_ascii = pieces.has_ascii();
    if out.capacity() < STEP {
        return 0;
    }
    let most = out.capacity() - STEP;
    let mut read = 0;
    while out.len() <= most && 32 <= src.len() - read {
        let lanes = u8x16::from_slice(&src[read..]);
        if has_ascii && are_ascii(lanes) {
            out.store_sixteen(lanes);
            read += 16;
            continue;
        }
        let next = u8x16::from_slice(&src[read + 1..]);
        let found = pieces.places(lanes, next);
        let places = found.places.to_array();
        let more = store_eight(out, pieces, &places, found.leads);
        read += more;
        if more > 0 {
            continue;
        }
        let Some((character, len)) = pieces.piece(src, read) else {
            break;
        };
        out.store_char(character);
        read += len;
    }
    read
}

/// Writes the characters at the front as UTF-8, eight a turn. Returns their length in bytes.
///
/// It is a function of its own, since a function clears its arrays at each call, even if it does
/// not use them.
#[inline(never)]
fn write_by_eight<P: PairPieces>(run: Pairs<P>, out: &mut Utf8Slice<'_>, src: &[u8]) -> usize
    ensures { PutsPieces encode_utf8 (P.means run.pieces)
        (borrowed_output out.old.len out.old.dst) (borrowed_output out.new.len out.new.dst) src.now
        result }
{
    out.append_gathered(run, &mut [0; BUFFER], src)
}

/// Characters of one byte or two, and others one by one.
///
/// It stops where no character is known to begin, and 36 code units before the end of the room or
/// 32 bytes before that of `src`.
#[derive(Clone, Copy)]
pub struct Pairs<P> {
    pub pieces: P,
}

impl<P: PairPieces> Gather for Pairs<P> {
    ghost means = { λ r. P.means r.pieces };

    fn has_ascii(self) -> bool {
        self.pieces.has_ascii()
    }

    #[inline(always)]
    fn write_each<U: UnitSlice>(self, out: &mut U, src: &[u8]) -> usize {
        append_each(out, self, self.pieces, src)
    }

    #[inline(always)]
    fn gather(self, out: &mut Buffer<'_, u8>, src: &[u8]) -> usize {
        gather_pairs(out, self.pieces, src)
    }

    #[inline(always)]
    fn gather_units(self, out: &mut Buffer<'_, u16>, src: &[u8]) -> usize {
        gather_pairs(out, self.pieces, src)
    }
}

impl<P: PairPieces> Windows for Pairs<P> {
    ghost means = { λ r. P.means r.pieces };

    #[inline(always)]
    fn store_window<B: UnitBuffer>(self, out: &mut B, src: &[u8]) -> usize {
        if out.capacity() - out.len() < WINDOW {
            return 0;
        }
        if 17 <= src.len() {
            return store_places(out, self.pieces, src, 17);
        }
        let mut padded = [0; 17];
        padded[..src.len()].copy_from_slice(src);
        store_places(out, self.pieces, &padded, src.len())
    }
}

impl<P: PairPieces> Run for Pairs<P> {
    /// Writes a few characters one by one, and then eight a turn.
    ///
    /// If none are to be one by one, ASCII is not looked for first: in malformed input the ASCII
    /// after a sequence is a byte or two.
    #[inline(always)]
    fn write_utf8(self, out: &mut Utf8Slice<'_>, src: &[u8]) -> usize {
        let few = self.pieces.few();
        if few == 0 {
            return out.append_turns(self, &mut [0; BUFFER], src);
        }
        let (at, goes_on) = append_few(out, self.pieces, few, src);
        if !goes_on {
            return at;
        }
        let (_, rest) = src.split_at(at);
        at + write_by_eight(self, out, rest)
    }
}
