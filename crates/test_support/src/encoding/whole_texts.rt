//! One-shot calls of encoders, compared with runs and with single characters.

use crate::cases::{Case, expect, expect_bytes};
use encoding_rs::run::{EncodeCall, encode_run};
use encoding_rs::{CoderResult, Encoder, Encoding};
use std::alloc::Global;
use std::test::Fail;

/// Room for any character after an escape sequence, and for the 10 bytes that are kept back.
const ROOM: usize = 24;

/// Compares a one-shot call with a run of one call that has room enough. Returns the bytes.
pub fn compare_with_run(alloc: Global, encoding: Encoding, text: &str) -> Result<Vec<u8>, Fail> {
    let (bytes, used, had_unmappables) = encoding.encode(alloc, text)?;
    let call = EncodeCall {
        utf16: false,
        replace: true,
        offer: text.len(),
        room: bytes.len().saturating_add(14),
    };
    let case = Case {
        name: encoding.name(),
        input: text.as_bytes(),
        room: call.room,
    };
    let report = encode_run(alloc, encoding, text, &[call])?;
    expect(report.finished, "a run has room and does not finish", &case)?;
    expect_bytes(&bytes, &report.bytes, "a one-shot call", &case)?;
    let is_same = had_unmappables == report.had_unmappables;
    expect(
        is_same,
        "unmappable characters are reported otherwise",
        &case,
    )?;
    let is_output = used == encoding.output_encoding();
    expect(is_output, "another encoding is reported", &case)?;
    Ok(bytes)
}

/// Passes a text in one call, which reads it and writes the next of `expected`. Returns the rest of
/// these.
fn encode_next<'a>(
    encoder: &mut Encoder,
    (text, last): (&str, bool),
    expected: &'a [u8],
) -> Result<&'a [u8], Fail> {
    let mut buffer = [0; ROOM];
    let (stop, read, written, _) = encoder.encode_from_utf8(text, &mut buffer, last);
    let (wrote, _) = buffer.split_at(written.min(ROOM));
    if stop != CoderResult::InputEmpty || read != text.len() {
        return Err(Fail::new(format_args!("{text} is not read")));
    }
    match expected.strip_prefix(wrote) {
        Some(rest) if written == wrote.len() => Ok(rest),
        _ => Err(Fail::new(format_args!("{text} is {wrote:?}, and otherwise in its text"))),
    }
}

/// Compares the bytes of a text with those of its characters in a call each.
pub fn compare_by_characters(encoding: Encoding, text: &str, bytes: &[u8]) -> Result<(), Fail> {
    let mut encoder = encoding.new_encoder();
    let (mut expected, mut local) = (bytes, [0; 4]);
    for character in text.chars() {
        let own = character.encode_utf8(&mut local);
        expected = encode_next(&mut encoder, (own, false), expected)?;
    }
    let rest = encode_next(&mut encoder, ("", true), expected)?;
    if !rest.is_empty() {
        return Err(Fail::new(format_args!(
            "{encoding:?}: a text has more bytes than its characters"
        )));
    }
    Ok(())
}
