//! UTF-16 in a slice.

ghost use Rattle.std.specs.Prelude.{◌≡◌, ◌-◌, ◌≤◌, ◌++◌, length, drop, nat_le, IsTrue, IsFalse};
ghost use Rattle.std.specs.Char.{IsScalar};
ghost use Rattle.std.specs.Char.Escape.{encode_utf16};
ghost use Rattle.enc_output.specs.AsciiRun.{PutsAscii};
ghost use Rattle.enc_utf8.specs.Text.{DetermineTexts};
ghost use Rattle.enc_output.specs.Output.{with_appended, borrowed_output};
ghost use Rattle.enc_output.specs.PieceRuns.{PutsPieces};
ghost use Rattle.enc_utf8.specs.Pieces.{IsUtf8Char};

use crate::buffer::{Buffer, UnitBuffer};
use crate::gather::{Gather, NEAR, OneByOne, SHORT, UNITS_BUFFER};
use crate::laws::utf_16_units_determine_a_text;
use crate::pieces::Pieces;
use crate::run::Run;
use crate::unit_slice::{UnitSlice, append_ascii_of, append_each};
use crate::units::Units;
use crate::utf8_pieces::Utf8Pieces;
use crate::utf8_units::{narrow_char, write_units};
use crate::widen::{is_nearly_ascii, widen_ascii};
use crate::windows::{WINDOW, Windows};
use enc_utf8::{char_len, utf8_front};
use std::simd::prelude::*;

/// The number of bytes of UTF-8 that are checked before they are written: few enough to be in the
/// nearest cache then.
const PART: usize = 4096;

/// The least number of bytes of UTF-8 that are written as a part.
const FEW: usize = 24;

/// The least room for which a window is stored: that of sixteen characters.
const WINDOW_UNITS: usize = 16;

/// A slice that takes UTF-16 from its start on.
#[derive(Drop)]
pub struct Utf16Slice<'a> {
    dst: &'a mut [u16],
    len: usize,
    ghost fits: { len ≤ length dst.now },
}

impl<'a> Utf16Slice<'a> {
    /// Returns an output into the whole slice, with nothing written.
    pub fn new(dst: &'a mut [u16]) -> Utf16Slice<'a>
        ensures same_borrow { result.dst.ghost_name ≡ dst.entry.ghost_name }
        ensures now { result.dst.now ≡ dst.old }
        ensures len { result.len ≡ 0 }
    {
        Utf16Slice { dst, len: 0 }
    }

    /// Returns the number of code units written.
    pub fn len(&self) -> usize
        ensures { result ≡ self.now.len }
    {
        self.len
    }

    /// Writes code units and returns true, or writes nothing and returns false if they do not fit.
    #[inline(always)]
    fn append_units(&mut self, units: &[u16]) -> bool
        ensures test { result ≡ nat_le (length units.now) (length self.old.dst.now - self.old.len) }
        ensures fits { IsTrue result → length units.now ≤ length self.old.dst.now - self.old.len }
        ensures written { IsTrue result
            → borrowed_output self.new.len self.new.dst ≡ with_appended
            (borrowed_output self.old.len self.old.dst) units.now }
        ensures unchanged { IsFalse result
            → borrowed_output self.new.len self.new.dst
            ≡ borrowed_output self.old.len self.old.dst }
    {
        if units.len() > self.dst.len() - self.len {
            return false;
        }
        self.dst[self.len..self.len + units.len()].copy_from_slice(units);
        self.len += units.len();
        true
    }

    /// Writes ASCII, and characters collected in a buffer, until none are found. Returns their
    /// length in bytes.
    #[inline(always)]
    fn append_gathered<G: Gather>(&mut self, by: G, buffer: &mut [u16], src: &[u8]) -> usize
        ensures { PutsPieces encode_utf16 (G.means by)
            (borrowed_output self.old.len self.old.dst)
            (borrowed_output self.new.len self.new.dst) src.now result }
    {
        let mut at = 0;
        loop {
            let (_, rest) = src.split_at(at);
            at += append_ascii_of(self, by, rest);
            let (_, unread) = src.split_at(at);
            let most = buffer.len().min(self.dst.len() - self.len);
            let front = &mut buffer[..most];
            let mut gathered = Buffer::new(front);
            let read = by.gather_units(&mut gathered, unread);
            if read == 0 {
                return at;
            }
            let written = gathered.len();
            if !self.append_units(&front[..written]) {
                return at;
            }
            at += read;
        }
    }

    /// Writes the characters at the front that can be collected in a buffer, if there are bytes
    /// enough. Returns their length in bytes.
    #[inline(always)]
    fn append_run<R: Run>(&mut self, run: R, src: &[u8]) -> usize
        ensures { PutsPieces encode_utf16 (R.means run)
            (borrowed_output self.old.len self.old.dst)
            (borrowed_output self.new.len self.new.dst) src.now result }
    {
        if src.len() < NEAR || self.dst.len() - self.len < SHORT {
            return 0;
        }
        self.append_gathered(run, &mut [0; UNITS_BUFFER], src)
    }

    /// Writes well-formed UTF-8 from the front, as much as is checked in a part, and nothing if
    /// that is short. Returns its length.
    #[inline(always)]
    fn append_part(&mut self, src: &[u8]) -> usize
        ensures { PutsPieces encode_utf16 IsUtf8Char (borrowed_output self.old.len self.old.dst)
            (borrowed_output self.new.len self.new.dst) src.now result }
    {
        if src.len() < FEW {
            return 0;
        }
        let most = (src.len() - 2).min(self.dst.len() - self.len).min(PART);
        let taken = utf8_front(&src[..most]);
        if taken < FEW {
            return 0;
        }
        let written = write_units(&mut self.dst[self.len..], src, taken);
        self.len += written;
        taken
    }

    /// Writes the character at the front, if it is well-formed UTF-8 and fits. Returns its length
    /// in bytes.
    #[inline(always)]
    fn append_first(&mut self, src: &[u8]) -> usize
        ensures { PutsPieces encode_utf16 IsUtf8Char (borrowed_output self.old.len self.old.dst)
            (borrowed_output self.new.len self.new.dst) src.now result }
    {
        if src.len() == 0 {
            return 0;
        }
        let Some((character, len)) = (Utf8Pieces {}).piece(src, 0) else {
            return 0;
        };
        if !self.append_char(character) {
            return 0;
        }
        len
    }

    /// Writes well-formed UTF-8 from the front: a part, or the first character of nearly ASCII
    /// text. Returns its length.
    #[inline(always)]
    fn append_some(&mut self, src: &[u8]) -> usize
        ensures { PutsPieces encode_utf16 IsUtf8Char (borrowed_output self.old.len self.old.dst)
            (borrowed_output self.new.len self.new.dst) src.now result }
    {
        if is_nearly_ascii(src) {
            return self.append_first(src);
        }
        self.append_part(src)
    }

    /// Writes the character at the front, if it has at most three bytes and fits. Returns its
    /// length in bytes.
    #[inline(always)]
    fn append_narrow(&mut self, src: &[u8]) -> usize
        ensures { PutsPieces encode_utf16 IsUtf8Char (borrowed_output self.old.len self.old.dst)
            (borrowed_output self.new.len self.new.dst) src.now result }
    {
        if src.is_empty() || self.len == self.dst.len() {
            return 0;
        }
        let Some((unit, len)) = narrow_char(src) else {
            return 0;
        };
        self.dst[self.len] = unit;
        self.len += 1;
        len
    }

    /// Writes characters of at most three bytes from the front, one by one. Returns their length in
    /// bytes.
    ///
    /// Short input has no use for lanes.
    #[inline(always)]
    fn append_narrows(&mut self, src: &[u8]) -> usize
        ensures { PutsPieces encode_utf16 IsUtf8Char (borrowed_output self.old.len self.old.dst)
            (borrowed_output self.new.len self.new.dst) src.now result }
    {
        let mut at = 0;
        loop {
            let (_, rest) = src.split_at(at);
            let len = self.append_narrow(rest);
            if len == 0 {
                return at;
            }
            at += len;
        }
    }

    /// Writes well-formed UTF-8 from the front, in parts with the ASCII after each, and then one by
    /// one. Returns its length.
    #[inline(never)]
    fn append_utf8(&mut self, src: &[u8]) -> usize
        ensures { PutsPieces encode_utf16 IsUtf8Char (borrowed_output self.old.len self.old.dst)
            (borrowed_output self.new.len self.new.dst) src.now result }
    {
        let mut at = if src.len() < FEW {
            self.append_narrows(src)
        } else {
            0
        };
        if at == src.len() {
            return at;
        }
        loop {
            let (_, rest) = src.split_at(at);
            let taken = self.append_some(rest);
            at += taken;
            let (_, next) = src.split_at(at);
            if taken == 0 {
                return at
                    + append_each(
                        self,
                        OneByOne {
                            pieces: Utf8Pieces {},
                        },
                        Utf8Pieces {},
                        next,
                    );
            }
            at += self.append_ascii(next);
        }
    }
}

impl<'a> UnitSlice for Utf16Slice<'a> {
    ghost units_of = { encode_utf16 };

    ghost output = { λ s. borrowed_output s.len s.dst };

    /// One code unit is a case by itself, so that the compiler knows how many it stores.
    #[inline(always)]
    fn append_char(&mut self, c: char) -> bool {
        let scalar = c as u32;
        if scalar < 0x10000 {
            return self.append_units(&[scalar as u16]);
        }
        let mut units = [0; 2];
        let text = c.encode_utf16(&mut units);
        self.append_units(text)
    }

    #[inline(always)]
    fn append_window<W: Windows>(&mut self, by: W, src: &[u8]) -> usize {
        if self.dst.len() - self.len < WINDOW_UNITS {
            return 0;
        }
        let mut buffer = [0; WINDOW];
        let mut window = Buffer::new(&mut buffer);
        let read = by.store_window(&mut window, src);
        let written = window.len();
        if read == 0 || !self.append_units(&buffer[..written]) {
            return 0;
        }
        read
    }

    #[inline(always)]
    fn append_ascii(&mut self, src: &[u8]) -> usize {
        let len = widen_ascii(src, &mut self.dst[self.len..]);
        self.len += len;
        len
    }
}

impl<'a> Units for Utf16Slice<'a> {
    const FAULT: usize = 1;

    ghost units_of = { encode_utf16 };

    ghost output = { λ s. borrowed_output s.len s.dst };

    fn width(c: char) -> usize
        ensures value { result ≡ length (encode_utf16 c) }
        ensures some { 1 ≤ result }
        ensures bound { result ≤ 4 }
    {
        c.len_utf16()
    }

    fn laws()
        ensures { DetermineTexts encode_utf16 }
    {
        utf_16_units_determine_a_text();
    }

    fn room(&self) -> usize {
        self.dst.len() - self.len
    }

    #[inline(always)]
    fn put(&mut self, c: char) -> bool {
        self.append_char(c)
    }

    #[inline(always)]
    fn put_ascii(&mut self, src: &[u8]) -> usize {
        self.append_ascii(src)
    }

    #[inline(always)]
    fn put_utf8(&mut self, src: &[u8]) -> usize {
        let at = self.append_ascii(src);
        let (_, rest) = src.split_at(at);
        // bytes that begin no character cost little
        if char_len(rest) == 0 {
            return at;
        }
        at + self.append_utf8(rest)
    }

    #[inline(always)]
    fn put_pieces<R: Run>(&mut self, run: R, src: &[u8]) -> usize {
        let at = self.append_run(run, src);
        let (_, rest) = src.split_at(at);
        at + run.write_each(self, rest)
    }
}
