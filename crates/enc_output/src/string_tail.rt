//! UTF-8 in a String's spare capacity.

ghost use Rattle.std.specs.Prelude.{◌≡◌, ◌+◌, ◌-◌, ◌<◌, ◌≤◌, ◌++◌, length, IsTrue, IsFalse};
ghost use Rattle.std.specs.Char.{encode_utf8};
ghost use Rattle.std.specs.Str.{IsUtf8};
ghost use Rattle.std.specs.String.{string_bytes, string_len, string_capacity};
ghost use Rattle.enc_utf8.specs.Text.{DetermineTexts};
ghost use Rattle.enc_output.specs.Output.{with_appended, string_output};
ghost use Rattle.enc_output.specs.PieceRuns.{PutsPieces};

use crate::laws::utf_8_units_determine_a_text;
use crate::run::Run;
use crate::units::Units;
use crate::utf8_slice::Utf8Slice;
use enc_utf8::{ascii_len, utf8_front};

/// The length of the buffer in which characters are collected before they are appended.
const GATHERED: usize = 256;

/// The length of the buffer for inputs that do not fit in a buffer of `GATHERED`.
const LONG: usize = 4096;

/// A String that takes UTF-8 within its capacity: its room is the spare capacity.
///
/// Appending takes no memory.
#[derive(Drop)]
pub struct StringTail<'a> {
    text: &'a mut String,
    room: usize,
    ghost fits: { string_len text.now + room ≤ string_capacity text.now },
}

impl<'a> StringTail<'a> {
    /// Returns an output into the whole spare capacity.
    pub fn new(text: &'a mut String) -> StringTail<'a>
        ensures same_borrow { result.text.ghost_name ≡ text.entry.ghost_name }
        ensures now { result.text.now ≡ text.old }
        ensures room { result.room ≡ string_capacity text.old - string_len text.old }
    {
        let room = text.capacity() - text.len();
        StringTail { text, room }
    }

    /// Appends characters that fit.
    #[inline(always)]
    fn append(&mut self, bytes: &[u8])
        requires utf8 { IsUtf8 bytes.now }
        requires fits { length bytes.now ≤ self.old.room }
        ensures { string_output (string_bytes self.new.text.now) self.new.room
            self.new.text.ghost_name
            ≡ with_appended (string_output (string_bytes self.old.text.now) self.old.room
            self.old.text.ghost_name) bytes.now }
    {
        let _ = self
            .text
            .push_str(unsafe { str::from_utf8_unchecked(bytes) });
        self.room -= bytes.len();
    }

    /// Appends characters through a buffer, until none are found or the next does not fit. Returns
    /// their length in bytes.
    #[inline(always)]
    fn put_through<R: Run>(&mut self, buffer: &mut [u8], run: R, src: &[u8]) -> usize
        ensures { PutsPieces encode_utf8 (R.means run)
            (string_output (string_bytes self.old.text.now) self.old.room self.old.text.ghost_name)
            (string_output (string_bytes self.new.text.now) self.new.room self.new.text.ghost_name)
            src.now result }
    {
        let mut at = 0;
        loop {
            let (_, rest) = src.split_at(at);
            let most = buffer.len().min(self.room);
            let front = &mut buffer[..most];
            let mut out = Utf8Slice::new(front);
            let read = out.put_pieces(run, rest);
            let written = out.len();
            if read == 0 {
                return at;
            }
            self.append(&front[..written]);
            at += read;
        }
    }

    /// Does the same through a long buffer of its own.
    ///
    /// It is a function of its own, since a function clears its arrays at each call, even if it
    /// does not use them.
    #[inline(never)]
    fn put_long<R: Run>(&mut self, run: R, src: &[u8]) -> usize
        ensures { PutsPieces encode_utf8 (R.means run)
            (string_output (string_bytes self.old.text.now) self.old.room self.old.text.ghost_name)
            (string_output (string_bytes self.new.text.now) self.new.room self.new.text.ghost_name)
            src.now result }
    {
        self.put_through(&mut [0; LONG], run, src)
    }
}

impl<'a> Units for StringTail<'a> {
    const FAULT: usize = 3;

    ghost units_of = { encode_utf8 };

    ghost output = { λ s. string_output (string_bytes s.text.now) s.room s.text.ghost_name };

    fn width(c: char) -> usize
        ensures value { result ≡ length (encode_utf8 c) }
        ensures some { 1 ≤ result }
        ensures bound { result ≤ 4 }
    {
        c.len_utf8()
    }

    fn laws()
        ensures { DetermineTexts encode_utf8 }
    {
        utf_8_units_determine_a_text();
    }

    fn room(&self) -> usize {
        self.room
    }

    fn put(&mut self, c: char) -> bool {
        let width = c.len_utf8();
        if width > self.room {
            return false;
        }
        let _ = self.text.push(c);
        self.room -= width;
        true
    }

    fn put_ascii(&mut self, src: &[u8]) -> usize {
        let (front, _) = src.split_at(src.len().min(self.room));
        let len = ascii_len(front);
        self.append(&src[..len]);
        len
    }

    fn put_utf8(&mut self, src: &[u8]) -> usize {
        let (front, _) = src.split_at(src.len().min(self.room));
        let len = utf8_front(front);
        self.append(&src[..len]);
        len
    }

    fn put_pieces<R: Run>(&mut self, run: R, src: &[u8]) -> usize {
        if src.len() < GATHERED {
            return self.put_through(&mut [0; GATHERED], run, src);
        }
        self.put_long(run, src)
    }
}
