//! Streams whose bytes are known: what a reader hands out of a slice is the text of the slice, and
//! what it reports are its malformed sequences. What a writer pushes into a `Vec` is the bytes of
//! the text.

ghost use Rattle.std.specs.Prelude.{◌≡◌, ◌≢◌, [], chars, map, IfOk, string_bytes};
ghost use Rattle.std.specs.Char.{encode_utf8};
ghost use Rattle.enc_utf8.specs.Text.{units_of_text};
ghost use Rattle.enc_stream.specs.declared.bom.BomHandling.TheVariants.{Sniff};
ghost use Rattle.encoding_rs.specs.Decoding.{whole_utf_8};
ghost use Rattle.enc_stream.specs.Encoder.{whole_bytes};
ghost use Rattle.enc_stream.specs.Faults.{whole_faults};
ghost use Rattle.enc_reader.specs.Items.{whole_items};
ghost use Rattle.enc_reader.specs.Places.{placed, placed_of, start_of_text};
ghost use Rattle.enc_reader.specs.Policies.{text_by};

use enc_reader::{DecodeReader, DecodedText, FromRead, Line, LineReader, MalformedPolicy};
use enc_writer::{EncodeWriter, FromWrite};
use encoding_rs::Encoding;
use std::alloc::Global;
use std::io;
use std::io::Error;

/// The length in bytes of the buffers, for bytes and for their text: at least 4.
const LENGTH: usize = 64;

/// Returns the offset and the length of each malformed sequence of a whole input, in bytes.
pub(crate) fn malformed_of(
    alloc: Global,
    encoding: Encoding,
    bytes: &[u8],
) -> io::Result<Vec<(u64, usize)>>
    ensures { IfOk result (λ found. found.items ≡ whole_faults Sniff encoding bytes.now) }
{
    let mut source = FromRead::new(bytes);
    let mut input = [0; LENGTH];
    let mut room = [0; LENGTH];
    let mut reader = DecodeReader::new(&mut source, Some(encoding), &mut input);
    let mut found = Vec::new(alloc);
    for _ in 0..u64::MAX {
        let part = reader.read_text_without_replacement(&mut room)?;
        let Some(malformed) = part.malformed else {
            if part.text.is_empty() {
                return Ok(found);
            }
            continue;
        };
        found.push((malformed.offset(), malformed.bytes().len()))?;
    }
    Err(Error::other("no end"))
}

/// Copies the text of a whole input, line by line.
pub(crate) fn copy_lines(alloc: Global, encoding: Encoding, bytes: &[u8]) -> io::Result<String>
    ensures { IfOk result (λ copy. string_bytes copy ≡ whole_utf_8 Sniff encoding bytes.now) }
{
    let mut source = FromRead::new(bytes);
    let mut input = [0; LENGTH];
    let mut room = [0; LENGTH];
    let reader = DecodeReader::new(&mut source, Some(encoding), &mut input);
    let mut text = DecodedText::new(reader, &mut room);
    let mut copy = String::new(alloc);
    let mut line = String::new(alloc);
    for _ in 0..u64::MAX {
        line.clear();
        if text.read_line(&mut line)? == 0 {
            return Ok(copy);
        }
        copy.push_str(line.as_str())?;
    }
    Err(Error::other("no end"))
}

/// Reads all lines of a whole input into one, which is not cleared between them: its text, and its
/// malformed sequences with their lines and columns.
pub(crate) fn read_lines(
    alloc: Global,
    encoding: Encoding,
    bytes: &[u8],
    policy: MalformedPolicy,
) -> io::Result<Line>
    requires none_reported { policy ≢ MalformedPolicy.Report }
    ensures text { IfOk result (λ line. string_bytes line.text ≡ units_of_text encode_utf8
        (text_by policy (whole_items Sniff encoding bytes.now))) }
    ensures malformed { IfOk result (λ line. map placed_of line.malformed.items
        ≡ placed start_of_text (whole_items Sniff encoding bytes.now)) }
{
    let mut source = FromRead::new(bytes);
    let mut input = [0; LENGTH];
    let mut room = [0; LENGTH];
    let reader = DecodeReader::new(&mut source, Some(encoding), &mut input);
    let mut lines = LineReader::new(reader, &mut room, policy);
    let mut line = Line::new(alloc);
    for _ in 0..u64::MAX {
        if !lines.read_line(&mut line)? {
            return Ok(line);
        }
    }
    Err(Error::other("no end"))
}

/// Writes a text in an encoding, with a decimal reference for each unmappable character.
pub(crate) fn written_bytes(alloc: Global, text: &str, encoding: Encoding) -> io::Result<Vec<u8>>
    ensures { IfOk result (λ bytes. bytes.items ≡ whole_bytes [] encoding (chars text.now)) }
{
    let mut sink = FromWrite::new(Vec::new(alloc));
    let mut room = [0; LENGTH];
    let mut writer = EncodeWriter::new(&mut sink, encoding, &mut room);
    if let Err(fault) = writer.write_str(text) {
        return Err(io::Error::from(writer.with_cause(fault)));
    }
    if let Err(fault) = writer.finish() {
        return Err(io::Error::from(writer.with_cause(fault)));
    }
    // What the sink has taken is known by the reference that comes back.
    let _sink = writer.into_sink();
    Ok(sink.into_inner())
}
