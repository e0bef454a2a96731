//! A chunk of bytes of UTF-8 that is written as text.

ghost use Rattle.std.specs.Prelude.{◌≡◌, true, false, OnOk, OnErr};
ghost use Rattle.enc_stream.specs.Decoding.{has_finished};
ghost use Rattle.enc_writer.specs.Writer.{writer_of};
ghost use Rattle.enc_writer.specs.Utf8Writing.{HasWrittenUtf8, StopsUtf8, utf8_state};

use crate::encode_writer::EncodeWriter;
use crate::fault::WriteFault;
use crate::sink::Sink;
use enc_stream::{CoderResult, Decoder};
use std::str;

/// The most bytes of text that are written at a time.
const PART: usize = 1024;

/// Writes the text of a chunk of bytes. With `last` nothing follows it.
pub(crate) fn write_chunk<W: Sink>(
    writer: &mut EncodeWriter<'_, W>,
    decoder: &mut Decoder,
    bytes: &[u8],
    last: bool,
) -> Result<(), WriteFault>
    requires unfinished { has_finished decoder.old ≡ false }
    ensures ok { OnOk result (HasWrittenUtf8 (W.contents writer.old.writer.now)
        (W.contents writer.new.writer.now) (utf8_state decoder.old (writer_of writer.old))
        (utf8_state decoder.new (writer_of writer.new)) bytes.now last) }
    ensures ended { OnOk result (has_finished decoder.new ≡ last) }
    ensures err { OnErr result (StopsUtf8 (W.contents writer.old.writer.now)
        (W.contents writer.new.writer.now) (utf8_state decoder.old (writer_of writer.old))
        bytes.now last) }
    ensures failed { OnErr result (writer.new.failed ≡ true) }
    ensures unfinished { last ≡ false → has_finished decoder.new ≡ false }
    ensures same_writer { writer.new.writer.ghost_name ≡ writer.old.writer.ghost_name }
{
    let mut text = [0; PART];
    let mut rest = bytes;
    'calls: loop {
        let (outcome, read, written, _) = decoder.decode_to_utf8(rest, &mut text, last);
        writer.write_str(unsafe { str::from_utf8_unchecked(&text[..written]) })?;
        let (_, unread) = rest.split_at(read);
        rest = unread;
        if outcome == CoderResult::InputEmpty {
            return Ok(());
        }
    }
}
