//! Text as code units of UTF-16, and these as bytes.

ghost use Rattle.std.specs.Prelude.{◌≡◌, ◌+◌, ◌*◌, ◌<◌, ◌≤◌, ◌++◌, length, take, chars};
ghost use Rattle.std.specs.Char.Escape.{encode_utf16};
ghost use Rattle.std.specs.Str.{IsCharBoundary};
ghost use Rattle.enc_utf8.specs.Pieces.{IsUtf8Char};
ghost use Rattle.enc_output.specs.Output.{borrowed_output};
ghost use Rattle.enc_output.specs.PieceRuns.{PutsPieces};
ghost use Rattle.enc_utf8.specs.Text.{units_of_text};
ghost use Rattle.enc_writer.specs.Utf16.{bytes_of_units, utf16_bytes};

use crate::byte_order::{ByteOrder, bytes_of_unit};
use enc_output::{Units, Utf16Slice};

/// The most code units that are converted at a time.
const PART: usize = 512;

/// Writes characters of the front of a text, at least one. Returns their length in bytes.
fn put_front(out: &mut Utf16Slice<'_>, text: &str) -> usize
    requires some { 0 < length text.now }
    requires room { out.old.len + 2 ≤ length out.old.dst.now }
    ensures puts { PutsPieces encode_utf16 IsUtf8Char
        (borrowed_output out.old.len out.old.dst) (borrowed_output out.new.len out.new.dst)
        text.now result }
    ensures some { 0 < result }
{
    let read = out.put_utf8(text.as_bytes());
    if read > 0 {
        return read;
    }
    let Some(character) = text.chars().next() else {
        unreachable!();
    };
    out.put(character);
    character.len_utf8()
}

/// Converts characters of the front of a text, at least one. Returns their length in bytes, and the
/// number of code units.
fn units_of_front(text: &str, dst: &mut [u16]) -> (usize, usize)
    requires some { 0 < length text.now }
    requires room { 2 ≤ length dst.old }
    ensures boundary { IsCharBoundary text.now result.0 }
    ensures some { 0 < result.0 }
    ensures written { result.1 ≤ length dst.new }
    ensures units { take result.1 dst.new
        ≡ units_of_text encode_utf16 (chars (take result.0 text.now)) }
{
    let mut out = Utf16Slice::new(dst);
    let read = put_front(&mut out, text);
    (read, out.len())
}

/// Writes the bytes of code units into `output` after its first `held` bytes.
pub(crate) fn store_units(order: ByteOrder, units: &[u16], output: &mut [u8], held: usize)
    requires room { held + 2 * length units.now ≤ length output.old }
    ensures stored { take (held + 2 * length units.now) output.new
        ≡ take held output.old ++ bytes_of_units order units.now }
{
    for (i, unit) in units.iter().enumerate() {
        let bytes = bytes_of_unit(order, *unit);
        output[held + 2 * i] = bytes[0];
        output[held + 2 * i + 1] = bytes[1];
    }
}

/// Writes characters of the front of a text in UTF-16 into `output` after its first `held` bytes,
/// at least one.
///
/// Returns their length in bytes of UTF-8, and that in bytes of UTF-16.
pub(crate) fn store_front(
    order: ByteOrder,
    text: &str,
    output: &mut [u8],
    held: usize,
) -> (usize, usize)
    requires some { 0 < length text.now }
    requires room { held + 4 ≤ length output.old }
    ensures boundary { IsCharBoundary text.now result.0 }
    ensures some { 0 < result.0 }
    ensures within { held + result.1 ≤ length output.new }
    ensures stored { take (held + result.1) output.new
        ≡ take held output.old ++ utf16_bytes order (chars (take result.0 text.now)) }
{
    let mut units = [0; PART];
    let room = ((output.len() - held) / 2).min(PART);
    let (read, count) = units_of_front(text, &mut units[..room]);
    store_units(order, &units[..count], output, held);
    (read, 2 * count)
}
