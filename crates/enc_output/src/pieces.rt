//! Pieces of an input: bytes that are a character.

ghost use Rattle.std.specs.Prelude.{ℕ, ◌<◌, ◌≤◌, List, [], ◌∷◌, length, take, drop, IfSome, IsTrue};
ghost use Rattle.enc_output.specs.CodeUnits.{AreCodeUnits};
ghost use Rattle.enc_output.specs.Pairs.{MeansWord};
ghost use Rattle.enc_output.specs.PieceRuns.{PutsPieces};
ghost use Rattle.enc_output.specs.Places.{ArePlaces, IsPlace};
ghost use Rattle.enc_utf8.specs.Letters.{AreLetters, MeansUnit};
ghost use Rattle.enc_utf8.specs.Pieces.{AreWrittenAsThemselves, IsUtf8Char};

use crate::gather::NEAR;
use crate::places::Places;
use crate::run::Run;
use crate::units::Units;
use enc_utf8::Letters;
use std::simd::prelude::*;

/// Finds the characters of an input: bytes that are a character, whatever follows them.
pub trait Pieces: Copy {
    // the bytes mean the character
    ghost means: { Self → List ℕ → ℕ → Type 0 };

    /// Returns the character whose bytes begin at `at`, and their number, at least one.
    ///
    /// `None` if no character is known to begin there.
    fn piece(self, src: &[u8], at: usize) -> Option<(char, usize)>
        requires within { at < length src.now }
        ensures some { IfSome result (λ p. 0 < p.1) }
        ensures within { IfSome result (λ p. p.1 ≤ length (drop at src.now)) }
        ensures means { IfSome result (λ p. means self (take p.1 (drop at src.now)) p.0) };

    /// Returns whether each byte below 0x80 is the ASCII character with that number.
    fn has_ascii(self) -> bool
        ensures { IsTrue result → (b : ℕ) → b < 0x80 → means self (b ∷ []) b }
    {
        let _pieces = self;
        false
    }

    /// Returns how many of sixteen bytes at the front are the ASCII characters with their numbers.
    ///
    /// They may be fewer. It is of use if `has_ascii` is false.
    #[inline(always)]
    fn own_len(self, bytes: u8x16) -> usize
        ensures bound { result ≤ 16 }
        ensures own { AreWrittenAsThemselves (means self) (take result bytes) }
    {
        let _pieces = self;
        let _bytes = bytes;
        0
    }
}

/// Pieces of one byte or two, most of which are looked up by their places.
pub trait PairPieces: Pieces {
    // at the place these bytes are looked up
    ghost stands_for: { Self → ℕ → List ℕ → Type 0 };

    /// Returns how many characters of a run are written one by one, before lookups by places.
    ///
    /// Some if runs of random bytes are short, and none if they are long or the runs of a text are
    /// short too. The output is the same for every number.
    fn few(self) -> usize {
        let _pieces = self;
        0
    }

    /// Returns the places at which sixteen bytes are looked up, each with the byte after it if it
    /// leads a pair.
    ///
    /// Which bytes lead a pair is a guess, for bytes at which a character begins: a wrong one costs
    /// time, and changes no output. No branch and no load.
    fn places(self, first: u8x16, second: u8x16) -> Places
        ensures { ArePlaces (stands_for self) 16 result.places result.leads first second };

    /// Returns the UTF-8 of the character at a place, as a word.
    ///
    /// The word has the bytes, the first lowest, and their number in the highest byte. 0 if there
    /// is no character, or none that is known. One load.
    fn word_at(self, place: u16) -> u32
        requires place { IsPlace (stands_for self) place }
        ensures { 0 < result → (bytes : List ℕ) → stands_for self place bytes
            → MeansWord (Self.means self) bytes result };

    /// Returns the same character as a code unit of UTF-16, or 0.
    fn unit_at(self, place: u16) -> u16
        requires place { IsPlace (stands_for self) place }
        ensures { 0 < result → (bytes : List ℕ) → stands_for self place bytes
            → MeansUnit (Self.means self) bytes result };
}

/// Pieces of one byte.
pub trait BytePieces: Pieces {
    /// Returns the UTF-8 of the character that a byte is, as a word.
    ///
    /// The word has the bytes, the first lowest, and their number in the highest byte. 0 if the
    /// byte is no character, or none that is known. No branch and one load.
    fn word(self, byte: u8) -> u32
        ensures { 0 < result → MeansWord (Self.means self) (byte ∷ []) result };

    /// Returns the same character as a code unit of UTF-16, or 0.
    fn unit(self, byte: u8) -> u16
        ensures { 0 < result → MeansUnit (Self.means self) (byte ∷ []) result };

    /// Returns a long run of letters of the encoding, or none. Text in them is written sixteen
    /// bytes at a time.
    #[inline(always)]
    fn letters(self) -> Letters
        ensures { AreLetters (Self.means self) result }
    {
        let _pieces = self;
        Letters {
            first: 0xFF,
            last: 0,
            shift: 0,
        }
    }
}

/// Pieces of UTF-16: code units, and surrogate pairs.
pub trait UnitPieces: Pieces {
    /// Returns the byte order: true for big-endian.
    fn is_big_endian(self) -> bool
        ensures { AreCodeUnits (Self.means self) result };
}

/// Writes characters from the front of `src`, as `put_pieces` of the output does.
///
/// Returns their length in bytes. It is a function of its own, so that `put_run` saves few
/// registers and clears no buffer where all is ASCII.
#[inline(never)]
fn put_rest<U: Units, R: Run>(out: &mut U, run: R, src: &[u8]) -> usize
    ensures { PutsPieces U.units_of (R.means run) (U.output out.old) (U.output out.new) src.now
        result }
{
    out.put_pieces(run, src)
}

/// Writes well-formed UTF-8 from the front of `src`, as `put_utf8` of the output does. Returns its
/// length.
#[inline(never)]
pub fn put_utf8_run<U: Units>(out: &mut U, src: &[u8]) -> usize
    ensures { PutsPieces U.units_of IsUtf8Char (U.output out.old) (U.output out.new) src.now
        result }
{
    out.put_utf8(src)
}

/// Writes characters from the front of `src`: of a short input first the ASCII, which is often all.
///
/// Returns their length in bytes. It is a function of its own, so that the loop over bytes that
/// calls it stays small enough to be inlined into the loop that replaces malformed sequences.
#[inline(never)]
pub fn put_run<U: Units, R: Run>(out: &mut U, run: R, src: &[u8]) -> usize
    ensures { PutsPieces U.units_of (R.means run) (U.output out.old) (U.output out.new) src.now
        result }
{
    if NEAR < src.len() || !run.has_ascii() {
        return put_rest(out, run, src);
    }
    let at = out.put_ascii(src);
    if at == src.len() {
        return at;
    }
    let (_, rest) = src.split_at(at);
    at + put_rest(out, run, rest)
}
