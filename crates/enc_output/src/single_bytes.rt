//! Characters of single bytes, with no branch on the length of their UTF-8.

ghost use Rattle.std.specs.Prelude.{◌≡◌, ℕ, ◌+◌, ◌*◌, ◌<◌, ◌≤◌, [], ◌∷◌, length, take, drop};
ghost use Rattle.std.specs.Prelude.{IsTrue};
ghost use Rattle.std.specs.Char.{encode_utf8};
ghost use Rattle.std.specs.Char.Escape.{encode_utf16};
ghost use Rattle.enc_output.specs.Output.{borrowed_output, buffer_output, room_in};
ghost use Rattle.enc_output.specs.PieceRuns.{PutsPieces};
ghost use Rattle.enc_utf8.specs.Letters.{AreLetters};
ghost use Rattle.enc_utf8.specs.Validity.{AreAscii};

use crate::buffer::{Buffer, UnitBuffer};
use crate::gather::Gather;
use crate::letters::{are_plain, units_of_plain};
use crate::pieces::{BytePieces, Pieces};
use crate::run::Run;
use crate::unit_slice::{UnitSlice, append_each};
use crate::utf8_slice::Utf8Slice;
use crate::windows::{WINDOW, Windows};
use enc_utf8::{Letters, ascii_from};
use std::simd::prelude::*;

/// The least number of bytes of a run for which a long buffer is cleared.
const LONG: usize = 512;

/// The length of a buffer for a long run.
const LONG_BUFFER: usize = 2128;

/// The length of a buffer for a shorter run, which takes less time to clear.
const SHORT_BUFFER: usize = 400;

/// The number of bytes looked up one after another.
const STEP: usize = 16;

/// The number of bytes loaded at once.
const LANES: usize = 64;

/// A turn writes at most 80 bytes, and may overwrite 64 after them.
const TURN: usize = 144;

/// Stores the characters of `count` bytes. It stops at a byte that has none. Returns the number of
/// bytes read.
#[inline(always)]
fn store_bytes<B: UnitBuffer, P: BytePieces>(
    out: &mut B,
    pieces: P,
    src: &[u8],
    from: usize,
    count: usize,
) -> usize
    requires from { from + count ≤ length src.now }
    requires room { 4 * count ≤ (B.output out.old).room }
    ensures read { result ≤ count }
    ensures puts { PutsPieces B.units_of (P.means pieces) (B.output out.old) (B.output out.new)
        (drop from src.now) result }
{
    let mut read = 0;
    while read < count {
        if !out.store_byte(pieces, src[from + read]) {
            break;
        }
        read += 1;
    }
    read
}

/// Returns whether many of 64 bytes are not ASCII. It is a guess, and changes no output.
#[inline(always)]
fn are_dense(lanes: u8x64) -> bool {
    lanes.simd_ge(u8x64::splat(0x80)).to_bitmask().count_ones() > 8
}

/// Stores the first `ascii` bytes of `src`, which are ASCII, and the UTF-8 of the byte after them.
///
/// Returns the number of bytes read, and whether the byte after the ASCII is a character.
#[inline(always)]
fn store_hop<P: BytePieces>(
    out: &mut Buffer<'_, u8>,
    pieces: P,
    src: &[u8],
    ascii: usize,
) -> (usize, bool)
    requires long { 64 ≤ length src.now }
    requires room { 68 ≤ room_in out.old.len out.old.units }
    requires ascii { ascii < 64 }
    requires are_ascii { AreAscii (take ascii src.now) }
    requires means { (b : ℕ) → b < 0x80 → P.means pieces (b ∷ []) b }
    ensures read { result.0 ≤ ascii + 1 }
    ensures some { IsTrue result.1 → 0 < result.0 }
    ensures bound { room_in out.old.len out.old.units
        ≤ room_in out.new.len out.new.units + result.0 + 3 }
    ensures puts { PutsPieces encode_utf8 (P.means pieces)
        (buffer_output out.old.len out.old.units)
        (buffer_output out.new.len out.new.units) src.now result.0 }
{
    out.store_long(u8x64::from_slice(src), ascii);
    let word = pieces.word(src[ascii]);
    if word == 0 {
        return (ascii, false);
    }
    out.store_word(word);
    (ascii + 1, true)
}

/// Stores the UTF-8 of the first 64 bytes of `src`, which `lanes` holds. It stops after the second
/// byte that is not ASCII, or at one that is no character. Returns the same as `store_hop`.
#[inline(always)]
fn store_hops<P: BytePieces>(
    out: &mut Buffer<'_, u8>,
    pieces: P,
    src: &[u8],
    lanes: u8x64,
) -> (usize, bool)
    requires long { 128 ≤ length src.now }
    requires room { 144 ≤ room_in out.old.len out.old.units }
    requires lanes { lanes ≡ take 64 src.now }
    requires means { (b : ℕ) → b < 0x80 → P.means pieces (b ∷ []) b }
    ensures read { result.0 ≤ 64 }
    ensures some { IsTrue result.1 → 0 < result.0 }
    ensures puts { PutsPieces encode_utf8 (P.means pieces)
        (buffer_output out.old.len out.old.units)
        (buffer_output out.new.len out.new.units) src.now result.0 }
{
    let ascii = ascii_from(lanes, 0, 62);
    let (first, is_whole) = store_hop(out, pieces, src, ascii);
    if !is_whole {
        return (first, false);
    }
    let ascii = ascii_from(lanes, first, 63 - first);
    let (_, rest) = src.split_at(first);
    let (second, is_whole) = store_hop(out, pieces, rest, ascii);
    (first + second, is_whole)
}

/// Stores the UTF-8 of at most 64 bytes of `src`.
///
/// It hops from one byte that is not ASCII to the next, or goes byte by byte if many are not.
/// Returns the same as `store_hop`.
#[inline(always)]
fn store_turn<P: BytePieces>(
    out: &mut Buffer<'_, u8>,
    pieces: P,
    src: &[u8],
    from: usize,
) -> (usize, bool)
    requires from { from + 128 ≤ length src.now }
    requires room { 144 ≤ room_in out.old.len out.old.units }
    ensures some { IsTrue result.1 → 0 < result.0 }
    ensures puts { PutsPieces encode_utf8 (P.means pieces)
        (buffer_output out.old.len out.old.units)
        (buffer_output out.new.len out.new.units) (drop from src.now) result.0 }
{
    let (_, rest) = src.split_at(from);
    let lanes = u8x64::from_slice(rest);
    if !pieces.has_ascii() || are_dense(lanes) {
        let read = store_bytes(out, pieces, src, from, STEP);
        return (read, read == STEP);
    }
    store_hops(out, pieces, rest, lanes)
}

/// Stores the code units of sixteen bytes. It stops at a byte that has none. Returns their number.
#[inline(always)]
fn store_units_step<P: BytePieces>(
    out: &mut Buffer<'_, u16>,
    pieces: P,
    src: &[u8],
    from: usize,
) -> usize
    requires from { from + 16 ≤ length src.now }
    requires room { 16 ≤ room_in out.old.len out.old.units }
    ensures bound { result ≤ 16 }
    ensures puts { PutsPieces encode_utf16 (P.means pieces)
        (buffer_output out.old.len out.old.units)
        (buffer_output out.new.len out.new.units) (drop from src.now) result }
{
    let mut read = 0;
    while read < STEP {
        let unit = pieces.unit(src[from + read]);
        if unit == 0 {
            break;
        }
        out.store_unit(unit);
        read += 1;
    }
    read
}

/// Stores the code units of sixteen bytes, by lanes if each is ASCII or a letter, and else by
/// look-ups. It stops at a byte that has none. Returns their number.
#[inline(always)]
fn store_units_turn<P: BytePieces>(
    out: &mut Buffer<'_, u16>,
    pieces: P,
    letters: Letters,
    src: &[u8],
    from: usize,
) -> usize
    requires from { from + 16 ≤ length src.now }
    requires room { 16 ≤ room_in out.old.len out.old.units }
    requires letters { AreLetters (P.means pieces) letters }
    ensures bound { result ≤ 16 }
    ensures puts { PutsPieces encode_utf16 (P.means pieces)
        (buffer_output out.old.len out.old.units)
        (buffer_output out.new.len out.new.units) (drop from src.now) result }
{
    let (_, rest) = src.split_at(from);
    let bytes = u8x16::from_slice(rest);
    if pieces.has_ascii() && are_plain(letters, bytes) {
        out.store_sixteen_units(units_of_plain(letters, bytes));
        return STEP;
    }
    store_units_step(out, pieces, src, from)
}

/// Writes the characters at the front of a long run as UTF-8. Returns their length in bytes.
///
/// It is a function of its own, since a function clears its arrays at each call, even if it does
/// not use them.
#[inline(never)]
fn write_long<P: BytePieces>(run: SingleBytes<P>, out: &mut Utf8Slice<'_>, src: &[u8]) -> usize
    ensures { PutsPieces encode_utf8 (P.means run.pieces)
        (borrowed_output out.old.len out.old.dst) (borrowed_output out.new.len out.new.dst) src.now
        result }
{
    out.append_gathered(run, &mut [0; LONG_BUFFER], src)
}

/// Characters of single bytes. Each byte is looked up by `word` or `unit`.
#[derive(Clone, Copy)]
pub struct SingleBytes<P> {
    pub pieces: P,
}

impl<P: BytePieces> Gather for SingleBytes<P> {
    const MORE: usize = LANES;

    ghost means = { λ r. P.means r.pieces };

    fn has_ascii(self) -> bool {
        self.pieces.has_ascii()
    }

    #[inline(always)]
    fn write_each<U: UnitSlice>(self, out: &mut U, src: &[u8]) -> usize {
        append_each(out, self, self.pieces, src)
    }

    /// Stops at a byte that is no character, and within the last 80 bytes of the room or the last
    /// 16 of `src`. In the last 128 bytes it takes sixteen at a time.
    #[inline(always)]
    fn gather(self, out: &mut Buffer<'_, u8>, src: &[u8]) -> usize {
        let pieces = self.pieces;
        if out.capacity() < TURN {
            return 0;
        }
        let most = out.capacity() - TURN;
        let mut read = 0;
        while out.len() <= most && 2 * LANES <= src.len() - read {
            let (more, is_whole) = store_turn(out, pieces, src, read);
            read += more;
            if !is_whole {
                return read;
            }
        }
        while out.len() <= most && STEP <= src.len() - read {
            let more = store_bytes(out, pieces, src, read, STEP);
            read += more;
            if more < STEP {
                break;
            }
        }
        read
    }

    /// Stops at a byte that has no code unit, and 16 before the end of the room or that of `src`.
    #[inline(always)]
    fn gather_units(self, out: &mut Buffer<'_, u16>, src: &[u8]) -> usize {
        let pieces = self.pieces;
        let letters = pieces.letters();
        if out.capacity() < STEP {
            return 0;
        }
        let most = out.capacity() - STEP;
        let mut read = 0;
        while STEP <= src.len() - read && out.len() <= most {
            let more = store_units_turn(out, pieces, letters, src, read);
            read += more;
            if more < STEP {
                break;
            }
        }
        read
    }
}

impl<P: BytePieces> Windows for SingleBytes<P> {
    ghost means = { λ r. P.means r.pieces };

    /// Stores nothing if an ASCII byte comes next: one character costs less by itself.
    #[inline(always)]
    fn store_window<B: UnitBuffer>(self, out: &mut B, src: &[u8]) -> usize {
        let alone = src.len() < 2 || src[1] < 0x80;
        if alone || out.capacity() - out.len() < WINDOW {
            return 0;
        }
        if 16 <= src.len() {
            return store_bytes(out, self.pieces, src, 0, STEP);
        }
        store_bytes(out, self.pieces, src, 0, src.len())
    }
}

impl<P: BytePieces> Run for SingleBytes<P> {
    #[inline(always)]
    fn write_utf8(self, out: &mut Utf8Slice<'_>, src: &[u8]) -> usize {
        if src.len() < LONG {
            return out.append_gathered(self, &mut [0; SHORT_BUFFER], src);
        }
        write_long(self, out, src)
    }
}
