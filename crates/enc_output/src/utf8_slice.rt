//! UTF-8 in a slice.

ghost use Rattle.std.specs.Prelude.{◌≡◌, ◌-◌, ◌<◌, ◌≤◌, length, nat_le, IsTrue, IsFalse};
ghost use Rattle.std.specs.Char.{IsScalar, encode_utf8};
ghost use Rattle.enc_output.specs.AsciiRun.{PutsAscii};
ghost use Rattle.enc_utf8.specs.Text.{DetermineTexts};
ghost use Rattle.enc_output.specs.Output.{with_appended, borrowed_output};
ghost use Rattle.enc_output.specs.PieceRuns.{PutsPieces};
ghost use Rattle.enc_utf8.specs.Pieces.{IsUtf8Char};

use crate::buffer::{Buffer, UnitBuffer};
use crate::gather::{Gather, NEAR, SHORT};
use crate::laws::utf_8_units_determine_a_text;
use crate::run::Run;
use crate::unit_slice::{UnitSlice, append_ascii_of};
use crate::units::Units;
use crate::windows::{WINDOW, Windows};
use enc_utf8::{
    are_all_ascii, char_len, copy_ascii, four_bytes, three_bytes, two_bytes, utf8_front,
};
use std::simd::prelude::*;

/// The number of bytes of UTF-8 that are checked before they are copied: few enough to be in the
/// nearest cache then.
const PART: usize = 4096;

/// The least room for which a window is stored: that of sixteen characters.
const WINDOW_BYTES: usize = 48;

/// Returns whether looking for a run of ASCII pays: the first 64 bytes are ASCII, or there are
/// fewer. The output is the same either way.
#[inline(always)]
fn begins_as_ascii(src: &[u8]) -> bool {
    src.len() < 64 || src[0] < 0x80 && are_all_ascii(u8x64::from_slice(src))
}

/// A slice that takes UTF-8 from its start on.
#[derive(Drop)]
pub struct Utf8Slice<'a> {
    pub(crate) dst: &'a mut [u8],
    pub(crate) len: usize,
    ghost fits: { len ≤ length dst.now },
}

impl<'a> Utf8Slice<'a> {
    /// Returns an output into the whole slice, with nothing written.
    pub fn new(dst: &'a mut [u8]) -> Utf8Slice<'a>
        ensures same_borrow { result.dst.ghost_name ≡ dst.entry.ghost_name }
        ensures now { result.dst.now ≡ dst.old }
        ensures len { result.len ≡ 0 }
    {
        Utf8Slice { dst, len: 0 }
    }

    /// Returns the number of bytes written.
    pub fn len(&self) -> usize
        ensures { result ≡ self.now.len }
    {
        self.len
    }

    /// Writes bytes and returns true, or writes nothing and returns false if they do not fit.
    #[inline(always)]
    fn append(&mut self, bytes: &[u8]) -> bool
        ensures test { result ≡ nat_le (length bytes.now) (length self.old.dst.now - self.old.len) }
        ensures fits { IsTrue result → length bytes.now ≤ length self.old.dst.now - self.old.len }
        ensures written { IsTrue result
            → borrowed_output self.new.len self.new.dst ≡ with_appended
            (borrowed_output self.old.len self.old.dst) bytes.now }
        ensures unchanged { IsFalse result
            → borrowed_output self.new.len self.new.dst
            ≡ borrowed_output self.old.len self.old.dst }
    {
        if bytes.len() > self.dst.len() - self.len {
            return false;
        }
        self.dst[self.len..self.len + bytes.len()].copy_from_slice(bytes);
        self.len += bytes.len();
        true
    }

    /// Copies well-formed UTF-8 from the front, as much as is checked in a part and fits, and
    /// returns its length.
    #[inline(always)]
    fn append_part(&mut self, src: &[u8]) -> usize
        ensures { PutsPieces encode_utf8 IsUtf8Char (borrowed_output self.old.len self.old.dst)
            (borrowed_output self.new.len self.new.dst) src.now result }
    {
        let room = self.dst.len() - self.len;
        let most = src.len().min(room).min(PART);
        let taken = utf8_front(&src[..most]);
        self.dst[self.len..self.len + taken].copy_from_slice(&src[..taken]);
        self.len += taken;
        taken
    }

    /// Writes well-formed UTF-8 from the front, in parts with the ASCII after each, until a part
    /// has little of it. Returns its length.
    #[inline(never)]
    fn append_utf8(&mut self, src: &[u8]) -> usize
        ensures { PutsPieces encode_utf8 IsUtf8Char (borrowed_output self.old.len self.old.dst)
            (borrowed_output self.new.len self.new.dst) src.now result }
    {
        let mut at = 0;
        loop {
            let (_, rest) = src.split_at(at);
            let taken = self.append_part(rest);
            at += taken;
            if taken < SHORT {
                return at;
            }
            let (_, unread) = src.split_at(at);
            at += self.append_ascii(unread);
        }
    }

    /// Writes characters collected in a buffer until none are found. Returns their length in bytes.
    ///
    /// After each buffer it looks for a run of ASCII. If a quarter of the buffer is left, it ends:
    /// no character was known to begin there.
    #[inline(always)]
    pub(crate) fn append_turns<G: Gather>(&mut self, by: G, buffer: &mut [u8], src: &[u8]) -> usize
        ensures { PutsPieces encode_utf8 (G.means by)
            (borrowed_output self.old.len self.old.dst)
            (borrowed_output self.new.len self.new.dst) src.now result }
    {
        let mut at = 0;
        loop {
            let (_, unread) = src.split_at(at);
            let room = (self.dst.len() - self.len).saturating_add(G::MORE);
            let most = buffer.len().min(room);
            let front = &mut buffer[..most];
            let mut gathered = Buffer::new(front);
            let read = by.gather(&mut gathered, unread);
            if read == 0 {
                return at;
            }
            let written = gathered.len();
            if !self.append(&front[..written]) {
                return at;
            }
            at += read;
            let (_, rest) = src.split_at(at);
            if begins_as_ascii(rest) {
                at += append_ascii_of(self, by, rest);
            } else if written < buffer.len() / 4 * 3 {
                return at;
            }
        }
    }

    /// Writes ASCII, and then characters collected in a buffer until none are found. Returns their
    /// length in bytes.
    #[inline(always)]
    pub(crate) fn append_gathered<G: Gather>(
        &mut self,
        by: G,
        buffer: &mut [u8],
        src: &[u8],
    ) -> usize
        ensures { PutsPieces encode_utf8 (G.means by)
            (borrowed_output self.old.len self.old.dst)
            (borrowed_output self.new.len self.new.dst) src.now result }
    {
        let at = append_ascii_of(self, by, src);
        let (_, rest) = src.split_at(at);
        at + self.append_turns(by, buffer, rest)
    }

    /// Writes the characters at the front. Returns their length in bytes.
    ///
    /// If there are 64 bytes of ASCII in front, it writes the ASCII alone.
    #[inline(always)]
    fn append_run<R: Run>(&mut self, run: R, src: &[u8]) -> usize
        ensures { PutsPieces encode_utf8 (R.means run)
            (borrowed_output self.old.len self.old.dst)
            (borrowed_output self.new.len self.new.dst) src.now result }
    {
        if src.len() < NEAR || self.dst.len() - self.len < SHORT {
            return run.write_each(self, src);
        }
        if run.has_ascii() && begins_as_ascii(src) {
            return self.append_ascii(src);
        }
        run.write_utf8(self, src)
    }
}

impl<'a> UnitSlice for Utf8Slice<'a> {
    ghost units_of = { encode_utf8 };

    ghost output = { λ s. borrowed_output s.len s.dst };

    /// Each length is a case by itself, so that the compiler knows how many bytes it stores.
    #[inline(always)]
    fn append_char(&mut self, c: char) -> bool {
        let scalar = c as u32;
        if scalar < 0x80 {
            return self.append(&[scalar as u8]);
        }
        if scalar < 0x800 {
            return self.append(&two_bytes(c));
        }
        if scalar < 0x10000 {
            return self.append(&three_bytes(c));
        }
        self.append(&four_bytes(c))
    }

    #[inline(always)]
    fn append_window<W: Windows>(&mut self, by: W, src: &[u8]) -> usize {
        if self.dst.len() - self.len < WINDOW_BYTES {
            return 0;
        }
        let mut buffer = [0; WINDOW];
        let mut window = Buffer::new(&mut buffer);
        let read = by.store_window(&mut window, src);
        let written = window.len();
        if read == 0 || !self.append(&buffer[..written]) {
            return 0;
        }
        read
    }

    #[inline(always)]
    fn append_ascii(&mut self, src: &[u8]) -> usize {
        let len = copy_ascii(src, &mut self.dst[self.len..]);
        self.len += len;
        len
    }
}

impl<'a> Units for Utf8Slice<'a> {
    const FAULT: usize = 3;

    ghost units_of = { encode_utf8 };

    ghost output = { λ s. borrowed_output s.len s.dst };

    fn width(c: char) -> usize
        ensures value { result ≡ length (encode_utf8 c) }
        ensures some { 1 ≤ result }
        ensures bound { result ≤ 4 }
    {
        c.len_utf8()
    }

    fn laws()
        ensures { DetermineTexts encode_utf8 }
    {
        utf_8_units_determine_a_text();
    }

    fn room(&self) -> usize {
        self.dst.len() - self.len
    }

    #[inline(always)]
    fn put(&mut self, c: char) -> bool {
        self.append_char(c)
    }

    #[inline(always)]
    fn put_ascii(&mut self, src: &[u8]) -> usize {
        self.append_ascii(src)
    }

    #[inline(always)]
    fn put_utf8(&mut self, src: &[u8]) -> usize {
        let at = self.append_ascii(src);
        let (_, rest) = src.split_at(at);
        // bytes that begin no character cost little
        if char_len(rest) == 0 {
            return at;
        }
        at + self.append_utf8(rest)
    }

    #[inline(always)]
    fn put_pieces<R: Run>(&mut self, run: R, src: &[u8]) -> usize {
        self.append_run(run, src)
    }
}
