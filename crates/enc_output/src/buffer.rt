//! Buffers in which the code units of characters are collected.

ghost use Rattle.std.specs.Prelude.{◌≡◌, ℕ, ◌+◌, ◌*◌, ◌/◌, ◌≤◌, ◌<◌, List, [], ◌∷◌, length, take};
ghost use Rattle.std.specs.Prelude.{drop, IsTrue, IsFalse};
ghost use Rattle.std.specs.Char.{IsScalar, encode_utf8};
ghost use Rattle.std.specs.Char.Escape.{encode_utf16};
ghost use Rattle.std.specs.Int.{w32, to_le_bytes};
ghost use Rattle.enc_output.specs.Output.{Output, with_appended, buffer_output, room_in};
ghost use Rattle.enc_output.specs.AsciiRun.{PutsAscii};
ghost use Rattle.enc_output.specs.PieceRuns.{PutsPieces};
ghost use Rattle.enc_output.specs.Places.{IsPlace};
ghost use Rattle.enc_utf8.specs.Validity.{AreAscii};

use crate::code_units::units_in;
use crate::pieces::{BytePieces, PairPieces, UnitPieces};
use enc_utf8::{
    are_scalars, store_scalars, store_sixteen_scalars, store_text, store_word,
    units_before_surrogate, utf8_of,
};
use std::simd::prelude::*;

/// A buffer that takes the code units of characters from its start on.
///
/// A store may overwrite what is after them.
pub(crate) trait UnitBuffer {
    // the code units of a character
    ghost units_of: { ℕ → List ℕ };

    // the code units in the buffer, and the room left
    ghost output: { Self → Output };

    /// Returns the number of code units.
    fn len(&self) -> usize
        ensures { result ≡ length (output self.now).written };

    /// Returns the greatest number of code units.
    fn capacity(&self) -> usize
        ensures { result ≡ length (output self.now).written + (output self.now).room };

    /// Stores sixteen ASCII characters.
    fn store_sixteen(&mut self, ascii: u8x16)
        requires room { 16 ≤ (output self.old).room }
        requires are_ascii { AreAscii ascii }
        ensures { PutsAscii units_of (output self.old) (output self.new) ascii 16 };

    /// Stores a character.
    fn store_char(&mut self, c: char)
        requires room { 4 ≤ (output self.old).room }
        ensures scalar { IsScalar c }
        ensures fits { length (units_of c) ≤ (output self.old).room }
        ensures written { output self.new ≡ with_appended (output self.old) (units_of c) };

    /// Stores the character at a place and returns true, or stores nothing and returns false if
    /// there is none, or none that is known.
    fn store_place<P: PairPieces>(&mut self, pieces: P, place: u16) -> bool
        requires place { IsPlace (P.stands_for pieces) place }
        requires room { 4 ≤ (output self.old).room }
        ensures bound { (output self.old).room ≤ (output self.new).room + 4 }
        ensures unchanged { IsFalse result → output self.new ≡ output self.old }
        ensures stored { IsTrue result → (bytes : List ℕ) → P.stands_for pieces place bytes
            → 0 < length bytes
            → PutsPieces units_of (P.means pieces) (output self.old) (output self.new) bytes
            (length bytes) };

    /// Stores the character of a byte and returns true, or stores nothing and returns false if it
    /// has none, or none that is known.
    fn store_byte<P: BytePieces>(&mut self, pieces: P, byte: u8) -> bool
        requires room { 4 ≤ (output self.old).room }
        ensures bound { (output self.old).room ≤ (output self.new).room + 4 }
        ensures unchanged { IsFalse result → output self.new ≡ output self.old }
        ensures stored { IsTrue result → PutsPieces units_of (P.means pieces) (output self.old)
            (output self.new) (byte ∷ []) 1 };

    /// Stores the characters of sixteen bytes, two bytes each, up to the first surrogate. Returns
    /// their number.
    fn store_units<P: UnitPieces>(&mut self, pieces: P, bytes: u8x16) -> usize
        requires room { 32 ≤ (output self.old).room }
        ensures few { result ≤ 8 }
        ensures bound { (output self.old).room ≤ (output self.new).room + 32 }
        ensures puts { (src : List ℕ) → 16 ≤ length src → bytes ≡ take 16 src
            → PutsPieces units_of (P.means pieces) (output self.old) (output self.new) src
            (2 * result) };
}

/// A buffer with code units at its front.
#[derive(Drop)]
pub struct Buffer<'a, T> {
    units: &'a mut [T],
    len: usize,
    ghost fits: { len ≤ length units.now },
}

impl<'a, T> Buffer<'a, T> {
    /// Returns a buffer of the whole slice, with nothing in it.
    #[inline(always)]
    pub(crate) fn new(units: &'a mut [T]) -> Buffer<'a, T>
        ensures same_borrow { result.units.ghost_name ≡ units.entry.ghost_name }
        ensures now { result.units.now ≡ units.old }
        ensures len { result.len ≡ 0 }
    {
        Buffer { units, len: 0 }
    }
}

impl<'a> Buffer<'a, u8> {
    /// Stores the UTF-8 in a word: the bytes, the first lowest, and their number in the highest
    /// byte.
    #[inline(always)]
    pub(crate) fn store_word(&mut self, word: u32)
        requires room { 4 ≤ room_in self.old.len self.old.units }
        requires bound { word / 0x1000000 ≤ 4 }
        ensures bound { room_in self.old.len self.old.units
            ≤ room_in self.new.len self.new.units + 4 }
        ensures stored { buffer_output self.new.len self.new.units
            ≡ with_appended (buffer_output self.old.len self.old.units)
            (take (word / 0x1000000) (to_le_bytes w32 word)) }
    {
        self.len = store_word(&mut *self.units, self.len, word);
    }

    /// Stores the first `len` of sixteen bytes.
    #[inline(always)]
    pub(crate) fn store_front(&mut self, bytes: u8x16, len: usize)
        requires room { 16 ≤ room_in self.old.len self.old.units }
        requires len { len ≤ 16 }
        ensures bound { room_in self.old.len self.old.units
            ≤ room_in self.new.len self.new.units + len }
        ensures stored { buffer_output self.new.len self.new.units
            ≡ with_appended (buffer_output self.old.len self.old.units) (take len bytes) }
    {
        bytes.copy_to_slice(&mut self.units[self.len..]);
        self.len += len;
    }

    /// Stores the first `len` of 64 bytes.
    #[inline(always)]
    pub(crate) fn store_long(&mut self, bytes: u8x64, len: usize)
        requires room { 64 ≤ room_in self.old.len self.old.units }
        requires len { len ≤ 64 }
        ensures bound { room_in self.old.len self.old.units
            ≤ room_in self.new.len self.new.units + len }
        ensures stored { buffer_output self.new.len self.new.units
            ≡ with_appended (buffer_output self.old.len self.old.units) (take len bytes) }
    {
        bytes.copy_to_slice(&mut self.units[self.len..]);
        self.len += len;
    }

    /// Stores the characters of sixteen bytes and of sixteen more, two bytes each, up to the first
    /// surrogate. Returns their number.
    #[inline(always)]
    pub(crate) fn store_long_units<P: UnitPieces>(
        &mut self,
        pieces: P,
        bytes: u8x16,
        more: u8x16,
    ) -> usize
        requires room { 52 ≤ room_in self.old.len self.old.units }
        ensures few { result ≤ 16 }
        ensures bound { room_in self.old.len self.old.units
            ≤ room_in self.new.len self.new.units + 48 }
        ensures puts { (src : List ℕ) → 32 ≤ length src → bytes ≡ take 16 src
            → more ≡ take 16 (drop 16 src)
            → PutsPieces encode_utf8 (P.means pieces) (buffer_output self.old.len self.old.units)
            (buffer_output self.new.len self.new.units) src (2 * result) }
    {
        let big_endian = pieces.is_big_endian();
        let units = units_in(bytes, big_endian);
        let next = units_in(more, big_endian);
        let (count, end) = store_sixteen_scalars(&mut *self.units, self.len, units, next);
        self.len = end;
        count
    }
}

impl<'a> UnitBuffer for Buffer<'a, u8> {
    ghost units_of = { encode_utf8 };

    ghost output = { λ b. buffer_output b.len b.units };

    #[inline(always)]
    fn len(&self) -> usize {
        self.len
    }

    #[inline(always)]
    fn capacity(&self) -> usize {
        self.units.len()
    }

    #[inline(always)]
    fn store_sixteen(&mut self, ascii: u8x16) {
        self.store_front(ascii, 16);
    }

    #[inline(always)]
    fn store_char(&mut self, c: char) {
        self.len = store_text(&mut *self.units, self.len, utf8_of(c));
    }

    #[inline(always)]
    fn store_place<P: PairPieces>(&mut self, pieces: P, place: u16) -> bool {
        let word = pieces.word_at(place);
        if word == 0 {
            return false;
        }
        self.store_word(word);
        true
    }

    #[inline(always)]
    fn store_byte<P: BytePieces>(&mut self, pieces: P, byte: u8) -> bool {
        let word = pieces.word(byte);
        if word == 0 {
            return false;
        }
        self.store_word(word);
        true
    }

    #[inline(always)]
    fn store_units<P: UnitPieces>(&mut self, pieces: P, bytes: u8x16) -> usize {
        let units = units_in(bytes, pieces.is_big_endian());
        let (count, end) = store_scalars(&mut *self.units, self.len, units);
        self.len = end;
        count
    }
}

impl<'a> Buffer<'a, u16> {
    /// Stores a code unit.
    #[inline(always)]
    pub(crate) fn store_unit(&mut self, unit: u16)
        requires room { 1 ≤ room_in self.old.len self.old.units }
        ensures bound { room_in self.old.len self.old.units
            ≤ room_in self.new.len self.new.units + 1 }
        ensures stored { buffer_output self.new.len self.new.units
            ≡ with_appended (buffer_output self.old.len self.old.units) (unit ∷ []) }
    {
        self.units[self.len] = unit;
        self.len += 1;
    }

    /// Stores sixteen code units.
    #[inline(always)]
    pub(crate) fn store_sixteen_units(&mut self, units: u16x16)
        requires room { 16 ≤ room_in self.old.len self.old.units }
        ensures bound { room_in self.old.len self.old.units
            ≤ room_in self.new.len self.new.units + 16 }
        ensures stored { buffer_output self.new.len self.new.units
            ≡ with_appended (buffer_output self.old.len self.old.units) units }
    {
        units.copy_to_slice(&mut self.units[self.len..]);
        self.len += 16;
    }

    /// Stores the characters of sixteen bytes and of sixteen more, two bytes each, up to the first
    /// surrogate. Returns their number: sixteen, or at most eight.
    #[inline(always)]
    pub(crate) fn store_long_units<P: UnitPieces>(
        &mut self,
        pieces: P,
        bytes: u8x16,
        more: u8x16,
    ) -> usize
        requires room { 16 ≤ room_in self.old.len self.old.units }
        ensures few { result ≤ 16 }
        ensures bound { room_in self.old.len self.old.units
            ≤ room_in self.new.len self.new.units + result }
        ensures puts { (src : List ℕ) → 32 ≤ length src → bytes ≡ take 16 src
            → more ≡ take 16 (drop 16 src)
            → PutsPieces encode_utf16 (P.means pieces) (buffer_output self.old.len self.old.units)
            (buffer_output self.new.len self.new.units) src (2 * result) }
    {
        let big_endian = pieces.is_big_endian();
        let units = units_in(bytes, big_endian);
        let next = units_in(more, big_endian);
        units.copy_to_slice(&mut self.units[self.len..]);
        if are_scalars(units) & are_scalars(next) {
            next.copy_to_slice(&mut self.units[self.len + 8..]);
            self.len += 16;
            return 16;
        }
        let count = units_before_surrogate(units);
        self.len += count;
        count
    }
}

impl<'a> UnitBuffer for Buffer<'a, u16> {
    ghost units_of = { encode_utf16 };

    ghost output = { λ b. buffer_output b.len b.units };

    #[inline(always)]
    fn len(&self) -> usize {
        self.len
    }

    #[inline(always)]
    fn capacity(&self) -> usize {
        self.units.len()
    }

    #[inline(always)]
    fn store_sixteen(&mut self, ascii: u8x16) {
        ascii
            .cast::<u16>()
            .copy_to_slice(&mut self.units[self.len..]);
        self.len += 16;
    }

    #[inline(always)]
    fn store_char(&mut self, c: char) {
        let scalar = c as u32;
        if scalar < 0x10000 {
            self.store_unit(scalar as u16);
            return;
        }
        let width = c.len_utf16();
        let mut units = [0; 2];
        let text = c.encode_utf16(&mut units);
        self.units[self.len..self.len + width].copy_from_slice(text);
        self.len += width;
    }

    #[inline(always)]
    fn store_place<P: PairPieces>(&mut self, pieces: P, place: u16) -> bool {
        let unit = pieces.unit_at(place);
        if unit == 0 {
            return false;
        }
        self.store_unit(unit);
        true
    }

    #[inline(always)]
    fn store_byte<P: BytePieces>(&mut self, pieces: P, byte: u8) -> bool {
        let unit = pieces.unit(byte);
        if unit == 0 {
            return false;
        }
        self.store_unit(unit);
        true
    }

    #[inline(always)]
    fn store_units<P: UnitPieces>(&mut self, pieces: P, bytes: u8x16) -> usize {
        let units = units_in(bytes, pieces.is_big_endian());
        units.copy_to_slice(&mut self.units[self.len..]);
        let scalars = units_before_surrogate(units);
        self.len += scalars;
        scalars
    }
}
