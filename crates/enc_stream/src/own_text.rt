//! Input that is its own text, which a one-shot call lends or copies at once.

ghost use Rattle.std.specs.Prelude.{◌≡◌, ◌≢◌, ◌↔◌, ◌≤◌, true, length, IsTrue, IsSome, IfSome};
ghost use Rattle.enc_utf8.specs.Validity.{IsWellFormedUtf8};
ghost use Rattle.enc_stream.specs.Decoding.{whole_encoding};
ghost use Rattle.enc_stream.specs.LifeCycle.{start_life};
ghost use Rattle.enc_stream.specs.Properties.{output_encoding_of};
ghost use Rattle.enc_stream.specs.declared.constants.TheConstants.{UTF_8 as utf_8};
ghost use Rattle.enc_stream.specs.OwnText.{AreTheirOwnText, unmarked_bytes};
ghost use Rattle.enc_stream.specs.Sniffing.{IsSniffed};

use crate::bom::BomHandling;
use crate::constants::{ISO_2022_JP, UTF_8};
use crate::encoding::Encoding;
use crate::life_cycle::first_life;
use crate::sniffing::{Sniffed, begins_as_text, sniff};
use enc_utf8::{ascii_valid_up_to, iso_2022_jp_ascii_valid_up_to, utf8_valid_up_to};

/// Returns whether two encodings are the same.
fn are_same(one: Encoding, other: Encoding) -> bool
    ensures { IsTrue result ↔ (one ≡ other) }
{
    one == other
}

/// Returns whether bytes are well-formed UTF-8.
///
/// It is a function of its own, so that its caller saves no registers where all is ASCII.
#[inline(never)]
fn are_utf8(bytes: &[u8]) -> bool
    ensures { IsTrue result ↔ IsWellFormedUtf8 bytes.now }
{
    utf8_valid_up_to(bytes) == bytes.len()
}

/// Returns whether bytes in this encoding equal their text in UTF-8, and are ASCII.
///
/// In an ASCII-compatible encoding they do if they are ASCII, and in ISO-2022-JP if they are ASCII
/// without 0x0E, 0x0F and 0x1B. In the other encodings none do.
#[inline(never)]
fn are_own_ascii(encoding: Encoding, bytes: &[u8]) -> bool
    requires other { encoding ≢ utf_8 }
    ensures { IsTrue result ↔ AreTheirOwnText encoding bytes.now }
{
    if encoding.is_ascii_compatible() {
        return ascii_valid_up_to(bytes) == bytes.len();
    }
    are_same(encoding, ISO_2022_JP) && iso_2022_jp_ascii_valid_up_to(bytes) == bytes.len()
}

/// Returns whether bytes in this encoding equal their text in UTF-8: if it is UTF-8, whether they
/// are well-formed.
#[inline(always)]
fn are_their_own_text(encoding: Encoding, bytes: &[u8]) -> bool
    ensures { IsTrue result ↔ AreTheirOwnText encoding bytes.now }
{
    if are_same(encoding, UTF_8) {
        return are_utf8(bytes);
    }
    are_own_ascii(encoding, bytes)
}

/// Returns the text of bytes in this encoding that are their own text.
#[inline(always)]
pub(crate) fn own_text(encoding: Encoding, bytes: &[u8]) -> Option<&str>
    ensures own { IsSome result ↔ AreTheirOwnText encoding bytes.now }
    ensures bytes { IfSome result (λ text. text.now ≡ bytes.now) }
{
    if are_their_own_text(encoding, bytes) {
        return Some(unsafe { str::from_utf8_unchecked(bytes) });
    }
    None
}

/// Returns whether text begins at the front of a whole input, with no byte order mark.
///
/// False says nothing: [`search`] finds out.
#[inline(always)]
pub(crate) fn begins_unmarked(encoding: Encoding, handling: BomHandling, bytes: &[u8]) -> bool
    ensures encoding { IsTrue result → whole_encoding handling encoding bytes.now ≡ encoding }
    ensures rest { IsTrue result → unmarked_bytes handling encoding bytes.now ≡ bytes.now }
{
    begins_as_text(first_life(encoding, handling), bytes)
}

/// A whole input, whose start has been searched for a byte order mark.
#[derive(Clone, Copy)]
pub(crate) struct WholeInput<'a> {
    /// The result of the search, and the number of bytes that it is about.
    pub(crate) sniffed: (Sniffed, usize),
    /// The encoding that is used.
    pub(crate) encoding: Encoding,
    /// The bytes after the byte order mark.
    pub(crate) rest: &'a [u8],
}

/// Searches the start of a whole input for the byte order mark that is looked for.
#[inline(always)]
pub(crate) fn search(encoding: Encoding, handling: BomHandling, bytes: &[u8]) -> WholeInput<'_>
    ensures within { result.sniffed.1 ≤ length bytes.now }
    ensures sniffed { IsSniffed (start_life handling encoding.id) bytes.now true result.sniffed.0
        result.sniffed.1 }
    ensures encoding { result.encoding ≡ whole_encoding handling encoding bytes.now }
    ensures rest { result.rest.now ≡ unmarked_bytes handling encoding bytes.now }
{
    let life = first_life(encoding, handling);
    if begins_as_text(life, bytes) {
        return WholeInput {
            sniffed: (Sniffed::Text(life), 0),
            encoding,
            rest: bytes,
        };
    }
    let sniffed = sniff(life, bytes, true);
    match sniffed.0 {
        Sniffed::Mark(marked) => WholeInput {
            sniffed,
            encoding: marked,
            rest: &bytes[sniffed.1..],
        },
        Sniffed::Text(_) => WholeInput {
            sniffed,
            encoding,
            rest: bytes,
        },
        // nothing follows a whole input
        Sniffed::Open(_) => unreachable!(),
    }
}

/// Returns whether the bytes of a text, in the output encoding, are the text itself.
pub(crate) fn encodes_as_itself(encoding: Encoding, text: &str) -> bool
    ensures { IsTrue result ↔ AreTheirOwnText (output_encoding_of encoding) text.now }
{
    let bytes = text.as_bytes();
    let output = encoding.output_encoding();
    are_same(output, UTF_8) || are_their_own_text(output, bytes)
}
