//! The rows that ask decoders: for lengths, and for prefixes of Latin-1.

use crate::decoding::Target;
use crate::fault::RowFault;
use crate::held::{self, Lengths};
use crate::words::{Unreadable, Words};
use encoding_rs::Decoder;
use std::alloc::Global;
use std::test::Fail;

/// What the length queries of a decoder return for `more` bytes, and those of its codec's decoder.
fn lengths_of(target: &Target, more: usize) -> Result<Lengths, RowFault> {
    let decoder = &target.decoder;
    if decoder.is_finished() {
        return Err(RowFault::fails("the decoder is finished"));
    }
    let lengths = (
        decoder.max_utf8_buffer_length(more),
        decoder.max_utf8_buffer_length_without_replacement(more),
        decoder.max_utf16_buffer_length(more),
    );
    match &target.codec {
        Some(codec) if held::lengths_of(codec, more) != lengths => {
            Err(RowFault::fails("a decoder by itself returns other lengths"))
        }
        _ => Ok(lengths),
    }
}

/// Fails with the name of a decoder's encoding unless an answer is this one.
fn expect(
    (got, want): (Option<usize>, Option<usize>),
    decoder: &Decoder,
    what: &'static str,
) -> Result<(), RowFault> {
    if got == want {
        return Ok(());
    }
    let name = decoder.encoding().name();
    Err(Fail::new(format_args!("{what}: {got:?}, not {want:?}: {name}")).into())
}

/// Compares `N UTF8 REPORT UTF16` with the length queries of each decoder.
pub(crate) fn lengths(targets: &[Target], words: &mut Words<'_>) -> Result<(), RowFault> {
    let more = words.number()?;
    let utf8 = words.number_or_none()?;
    let report = words.number_or_none()?;
    let utf16 = words.number_or_none()?;
    words.end()?;
    for target in targets {
        let (got, decoder) = (lengths_of(target, more)?, &target.decoder);
        expect((got.0, utf8), decoder, "another length in UTF-8")?;
        expect((got.1, report), decoder, "another length of reports")?;
        expect((got.2, utf16), decoder, "another length in UTF-16")?;
    }
    Ok(())
}

/// One of three lengths.
fn length_named(query: &str, lengths: Lengths) -> Result<Option<usize>, Unreadable> {
    match query {
        "utf8" => Ok(lengths.0),
        "report" => Ok(lengths.1),
        "utf16" => Ok(lengths.2),
        _ => Err(Unreadable::Unknown("no length query has this name")),
    }
}

/// Compares `utf8|report|utf16 N LENGTH|none` with this length query of each decoder.
pub(crate) fn length(targets: &[Target], words: &mut Words<'_>) -> Result<(), RowFault> {
    let (query, more) = (words.word()?, words.number()?);
    let want = words.number_or_none()?;
    words.end()?;
    for target in targets {
        let got = length_named(query, lengths_of(target, more)?)?;
        expect((got, want), &target.decoder, "another length")?;
    }
    Ok(())
}

/// Compares `BYTES N|none` with the prefix that each decoder takes for Latin-1.
pub(crate) fn latin1(
    alloc: Global,
    targets: &[Target],
    words: &mut Words<'_>,
) -> Result<(), RowFault> {
    let bytes = words.bytes(alloc)?;
    let want = words.number_or_none()?;
    words.end()?;
    for Target { decoder, .. } in targets {
        let got = decoder.latin1_byte_compatible_up_to(&bytes);
        expect((got, want), decoder, "another prefix of Latin-1")?;
    }
    Ok(())
}
