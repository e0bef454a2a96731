//! A call for each piece of an input.

ghost use Rattle.std.specs.Prelude.{◌≤◌, ◌<◌, length};

use crate::calls::kind::{ByteCall, TextCall, UnitCall};
use crate::calls::{chunks, queries, single};
use encoding_rs::Encoding;
use std::alloc::Global;

/// What all calls have in common.
#[derive(Clone, Copy)]
pub struct Setting {
    pub alloc: Global,
    pub encoding: Encoding,
}

/// An input, and the length in bytes of the pieces that it is cut into.
#[derive(Clone, Copy)]
pub struct CutInput<'a> {
    pub bytes: &'a [u8],
    pub len: usize,
}

/// Makes a call for each piece of an input, and returns the sum.
pub(crate) fn call_for_bytes(
    setting: Setting,
    call: ByteCall,
    input: CutInput<'_>,
    bytes: &mut [u8],
    units: &mut [u16],
) -> u64
    requires len { 0 < input.len }
    requires bytes { 4 ≤ length bytes.old }
    requires units { 2 ≤ length units.old }
{
    let Setting { alloc, encoding } = setting;
    let len = input.len;
    let mut decoder = encoding.new_decoder();
    let mut unread = input.bytes;
    let mut total = 0u64;
    'pieces: while let Some((src, rest)) = unread.split_at_checked(len) {
        unread = rest;
        let sum = match call {
            ByteCall::ToUtf8 => single::to_utf8(encoding, src, bytes),
            ByteCall::ToUtf16 => single::to_utf16(encoding, src, units),
            ByteCall::Decode => single::decode(alloc, encoding, src),
            ByteCall::DecodeLending => single::decode_lending(alloc, encoding, src),
            ByteCall::ForLabel => single::for_label(src),
            ByteCall::ChunksToUtf8 => chunks::to_utf8(&mut decoder, src, bytes),
            ByteCall::ChunksToUtf16 => chunks::to_utf16(&mut decoder, src, units),
            ByteCall::Query(query) => queries::prefix_len(encoding, query, src),
        };
        total = total.wrapping_add(sum);
    }
    total
}

/// Makes a call for each piece of `len` bytes of text, and returns the sum.
pub(crate) fn call_for_text(
    setting: Setting,
    call: TextCall,
    text: &str,
    len: usize,
    bytes: &mut [u8],
) -> u64
    requires len { 0 < len }
    requires bytes { 14 ≤ length bytes.old }
{
    let Setting { alloc, encoding } = setting;
    let mut encoder = encoding.new_encoder();
    let mut unread = text;
    let mut total = 0u64;
    'pieces: while let Some((src, rest)) = unread.split_at_checked(len) {
        unread = rest;
        let sum = match call {
            TextCall::FromUtf8 => single::from_utf8(encoding, src, bytes),
            TextCall::Encode => single::encode(alloc, encoding, src),
            TextCall::EncodeLending => single::encode_lending(alloc, encoding, src),
            TextCall::Chunks => chunks::from_utf8(&mut encoder, src, bytes),
        };
        total = total.wrapping_add(sum);
    }
    total
}

/// Makes a call for each piece of `len` code units, and returns the sum.
pub(crate) fn call_for_units(
    encoding: Encoding,
    call: UnitCall,
    units: &[u16],
    len: usize,
    bytes: &mut [u8],
) -> u64
    requires len { 0 < len }
    requires bytes { 14 ≤ length bytes.old }
{
    let mut encoder = encoding.new_encoder();
    let mut unread = units;
    let mut total = 0u64;
    'pieces: while let Some((src, rest)) = unread.split_at_checked(len) {
        unread = rest;
        let sum = match call {
            UnitCall::FromUtf16 => single::from_utf16(encoding, src, bytes),
            UnitCall::Chunks => chunks::from_utf16(&mut encoder, src, bytes),
        };
        total = total.wrapping_add(sum);
    }
    total
}
