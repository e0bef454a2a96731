//! Decoders that get a byte at a time. In the rooms of length queries they are never full. With
//! room for any character, n bytes take at most 2n + 1 calls.

use crate::cases::{Case, expect, expect_bytes};
use crate::decoding::outputs::Output;
use crate::decoding::rows::Cut;
use crate::decoding::runs::{Use, run_cut, run_whole};
use encoding_rs::run::{BomHandling, DecodeCall, decode_run};
use encoding_rs::{Encoding, UTF_8, UTF_16BE, UTF_16LE};
use std::alloc::{AllocError, Global};
use std::test::Fail;

/// The first bytes of a byte order mark that breaks off after each of them.
const FRONTS: [&[u8]; 4] = [b"\xEF", b"\xEF\xBB", b"\xFE", b"\xFF"];

/// The rooms of runs: too small for U+FFFD or for a character, and enough for two.
const ROOMS: [usize; 6] = [0, 1, 2, 3, 4, 7];

/// Returns `count` calls of the kind of a use, with a byte each.
fn single_byte_calls(
    alloc: Global,
    way: Use,
    room: usize,
    count: usize,
) -> Result<Vec<DecodeCall>, AllocError> {
    let call = DecodeCall {
        utf16: way.output == Output::Utf16,
        replace: !way.reporting,
        offer: 1,
        room,
    };
    vec![in alloc; call; count]
}

/// Whether `room` code units are room for any character, and for U+FFFD.
fn has_room_for_any(way: Use, room: usize) -> bool {
    if way.output == Output::Utf16 {
        return room >= 2;
    }
    room >= 4
}

/// Compares the end of a run of 2n + 1 calls for n bytes: it has written a prefix of this text, and
/// all of it if each call has room for any character.
fn compare_end(
    alloc: Global,
    (way, room): (Use, usize),
    bytes: &[u8],
    text: &[u8],
) -> Result<(), Fail> {
    let count = bytes.len().saturating_mul(2).saturating_add(1);
    let calls = single_byte_calls(alloc, way, room, count)?;
    let report = decode_run(alloc, way.encoding, way.handling, bytes, &calls)?;
    let case = Case {
        name: way.encoding.name(),
        input: bytes,
        room,
    };
    let written = report.text.as_bytes();
    if report.finished {
        return expect_bytes(written, text, "another text", &case);
    }
    expect(text.starts_with(written), "no prefix of the text", &case)?;
    expect(!has_room_for_any(way, room), "not finished", &case)
}

/// Compares single bytes with the input at once, in the rooms of length queries, in which the
/// decoder is never full. A run in each room of [`ROOMS`] writes a prefix of the text.
fn compare_single_offers(alloc: Global, way: Use, bytes: &[u8]) -> Result<(), Fail> {
    let case = Case {
        name: way.encoding.name(),
        input: bytes,
        room: 0,
    };
    let whole = run_whole(alloc, way, bytes)?;
    expect(whole.is_finished, "the whole is not finished", &case)?;
    let queries = Use {
        queries: true,
        ..way
    };
    let single = run_cut(alloc, queries, bytes, Cut::Everywhere, 0)?;
    expect(single.is_finished, "single bytes are not finished", &case)?;
    expect_bytes(&single.text, &whole.text, "single bytes differ", &case)?;
    for room in ROOMS {
        compare_end(alloc, (way, room), bytes, &whole.text)?;
    }
    Ok(())
}

/// Decodes single bytes into UTF-8 and UTF-16, with replacement and without.
pub fn compare_small_offers(
    alloc: Global,
    (encoding, handling): (Encoding, BomHandling),
    bytes: &[u8],
) -> Result<(), Fail> {
    for output in [Output::Utf8, Output::Utf16] {
        for reporting in [false, true] {
            let way = Use {
                output,
                reporting,
                ..Use::new(encoding, handling)
            };
            compare_single_offers(alloc, way, bytes)?;
        }
    }
    Ok(())
}

/// The same after byte order marks that break off, by decoders that look for them, and after none.
/// Only three encodings have a byte order mark of their own.
pub(crate) fn compare_after_broken_marks(
    alloc: Global,
    encoding: Encoding,
    bytes: &[u8],
) -> Result<(), Fail> {
    let has_own = [UTF_8, UTF_16BE, UTF_16LE].contains(&encoding);
    compare_small_offers(alloc, (encoding, BomHandling::Off), bytes)?;
    compare_small_offers(alloc, (encoding, BomHandling::Sniff), bytes)?;
    for front in FRONTS {
        let mut all = front.to_vec(alloc)?;
        all.extend_from_slice(bytes)?;
        compare_small_offers(alloc, (encoding, BomHandling::Sniff), &all)?;
        if has_own {
            compare_small_offers(alloc, (encoding, BomHandling::Remove), &all)?;
        }
    }
    Ok(())
}
