//! Calls for a piece in the middle of a stream, as many as it takes. Each returns the length of
//! all that the piece gives, plus the last unit of that.

ghost use Rattle.std.specs.Prelude.{◌≡◌, ◌≤◌, false, length};
ghost use Rattle.encoding_rs.specs.Decoding.{has_finished};

use encoding_rs::{CoderResult, Decoder, Encoder};

/// What the calls for a piece have given.
#[derive(Clone, Copy)]
struct Given {
    len: u64,
    last: u64,
}

impl Given {
    /// Nothing.
    fn new() -> Given {
        Given { len: 0, last: 0 }
    }

    /// Adds the bytes of a call.
    #[inline(always)]
    fn add_bytes(&mut self, output: &[u8]) {
        if let Some(last) = output.last() {
            self.len = self.len.wrapping_add(output.len() as u64);
            self.last = *last as u64;
        }
    }

    /// Adds the code units of a call.
    #[inline(always)]
    fn add_units(&mut self, output: &[u16]) {
        if let Some(last) = output.last() {
            self.len = self.len.wrapping_add(output.len() as u64);
            self.last = *last as u64;
        }
    }

    /// The length, plus the last unit.
    fn sum(self) -> u64 {
        self.len.wrapping_add(self.last)
    }
}

/// Decodes a piece to UTF-8.
#[inline(never)]
pub(crate) fn to_utf8(decoder: &mut Decoder, src: &[u8], dst: &mut [u8]) -> u64
    requires unfinished { has_finished decoder.old ≡ false }
    requires room { 4 ≤ length dst.old }
    ensures { has_finished decoder.new ≡ false }
{
    let mut unread = src;
    let mut given = Given::new();
    'calls: loop {
        let (result, read, written, _) = decoder.decode_to_utf8(unread, dst, false);
        given.add_bytes(&dst[..written]);
        match result {
            CoderResult::InputEmpty => return given.sum(),
            CoderResult::OutputFull => unread = &unread[read..],
        }
    }
}

/// Decodes a piece to UTF-16.
#[inline(never)]
pub(crate) fn to_utf16(decoder: &mut Decoder, src: &[u8], dst: &mut [u16]) -> u64
    requires unfinished { has_finished decoder.old ≡ false }
    requires room { 2 ≤ length dst.old }
    ensures { has_finished decoder.new ≡ false }
{
    let mut unread = src;
    let mut given = Given::new();
    'calls: loop {
        let (result, read, written, _) = decoder.decode_to_utf16(unread, dst, false);
        given.add_units(&dst[..written]);
        match result {
            CoderResult::InputEmpty => return given.sum(),
            CoderResult::OutputFull => unread = &unread[read..],
        }
    }
}

/// Encodes a piece of UTF-8.
#[inline(never)]
pub(crate) fn from_utf8(encoder: &mut Encoder, src: &str, dst: &mut [u8]) -> u64
    requires room { 14 ≤ length dst.old }
{
    let mut unread = src;
    let mut given = Given::new();
    'calls: loop {
        let (result, read, written, _) = encoder.encode_from_utf8(unread, dst, false);
        given.add_bytes(&dst[..written]);
        match result {
            CoderResult::InputEmpty => return given.sum(),
            CoderResult::OutputFull => {
                let (_, rest) = unread.split_at(read);
                unread = rest;
            }
        }
    }
}

/// Encodes a piece of UTF-16.
#[inline(never)]
pub(crate) fn from_utf16(encoder: &mut Encoder, src: &[u16], dst: &mut [u8]) -> u64
    requires room { 14 ≤ length dst.old }
{
    let mut unread = src;
    let mut given = Given::new();
    'calls: loop {
        let (result, read, written, _) = encoder.encode_from_utf16(unread, dst, false);
        given.add_bytes(&dst[..written]);
        match result {
            CoderResult::InputEmpty => return given.sum(),
            CoderResult::OutputFull => {
                let (_, rest) = unread.split_at(read);
                unread = rest;
            }
        }
    }
}
