//! The rows that need no head: encodings, labels, byte order marks, and prefixes that are valid.

use crate::fault::RowFault;
use crate::words::{Unreadable, Words};
use encoding_rs::{Encoding, REPLACEMENT};
use std::alloc::{AllocError, Global};

/// Whitespace that may stand around a label.
const BLANKS: &[u8] = b"\t\n\x0C\r \t";

/// Fails unless something holds.
fn expect(holds: bool, what: &'static str) -> Result<(), RowFault> {
    if holds {
        return Ok(());
    }
    Err(RowFault::fails(what))
}

/// The encoding with this name.
fn named(name: &str) -> Result<Encoding, RowFault> {
    match Encoding::for_label(name.as_bytes()) {
        Some(encoding) if encoding.name() == name => Ok(encoding),
        _ => Err(RowFault::fails("no encoding has this name")),
    }
}

/// Runs the row of this name.
pub(crate) fn run(alloc: Global, name: &str, words: &mut Words<'_>) -> Result<(), RowFault> {
    match name {
        "encoding" => encoding(words),
        "label" => label(alloc, words),
        "mark" => mark(alloc, words),
        "valid" => valid(alloc, words),
        _ => Err(Unreadable::Unknown("no row has this name").into()),
    }
}

/// Compares `NAME OUTPUT [ascii-compatible] [single-byte] [line-feeds-divide]` with an encoding.
fn encoding(words: &mut Words<'_>) -> Result<(), RowFault> {
    let encoding = named(words.word()?)?;
    let output = words.word()?;
    let is_ascii_compatible = words.takes("ascii-compatible");
    let is_single_byte = words.takes("single-byte");
    let divides = words.takes("line-feeds-divide");
    words.end()?;
    let has_output = encoding.output_encoding().name() == output;
    expect(has_output, "another output encoding")?;
    let has_all = encoding.can_encode_everything() == (output == "UTF-8");
    expect(has_all, "every character or not")?;
    let is_same = encoding.is_ascii_compatible() == is_ascii_compatible;
    expect(is_same, "ASCII-compatible or not")?;
    expect(
        encoding.is_single_byte() == is_single_byte,
        "single-byte or not",
    )?;
    expect(
        encoding.line_feeds_divide() == divides,
        "line feeds divide or not",
    )
}

/// Compares the encoding of a label, and that if replacement is left out.
fn compare_label(label: &[u8], want: Option<Encoding>) -> Result<(), RowFault> {
    expect(Encoding::for_label(label) == want, "another encoding")?;
    let left = match want {
        Some(encoding) if encoding == REPLACEMENT => None,
        _ => want,
    };
    expect(
        Encoding::for_label_no_replacement(label) == left,
        "another encoding if replacement is left out",
    )
}

/// A label in capitals.
fn capitals_of(alloc: Global, label: &[u8]) -> Result<Vec<u8>, AllocError> {
    let mut capitals = Vec::new(alloc);
    for byte in label {
        capitals.push(byte.to_ascii_uppercase())?;
    }
    Ok(capitals)
}

/// A label with other bytes around it.
fn among(
    alloc: Global,
    (before, after): (&[u8], &[u8]),
    label: &[u8],
) -> Result<Vec<u8>, AllocError> {
    let mut all = before.to_vec(alloc)?;
    all.extend_from_slice(label)?;
    all.extend_from_slice(after)?;
    Ok(all)
}

/// Compares `BYTES NAME|none` with the encoding of a label: as it is, in capitals and with
/// whitespace around it. With one letter more it is none.
fn label(alloc: Global, words: &mut Words<'_>) -> Result<(), RowFault> {
    let label = words.bytes(alloc)?;
    let want = match words.word()? {
        "none" => None,
        name => Some(named(name)?),
    };
    words.end()?;
    compare_label(&label, want)?;
    compare_label(&capitals_of(alloc, &label)?, want)?;
    compare_label(&among(alloc, (BLANKS, BLANKS), &label)?, want)?;
    if want.is_none() {
        return Ok(());
    }
    compare_label(&among(alloc, (b"", b"x"), &label)?, None)
}

/// Compares `BYTES NAME LEN` or `BYTES none` with the byte order mark at the start.
fn mark(alloc: Global, words: &mut Words<'_>) -> Result<(), RowFault> {
    let bytes = words.bytes(alloc)?;
    let want = match words.word()? {
        "none" => None,
        name => Some((named(name)?, words.number()?)),
    };
    words.end()?;
    expect(Encoding::for_bom(&bytes) == want, "another mark")
}

/// Compares `utf8|ascii|iso-2022-jp BYTES N` with the length of the prefix that is valid.
fn valid(alloc: Global, words: &mut Words<'_>) -> Result<(), RowFault> {
    let what = words.word()?;
    let (bytes, want) = (words.bytes(alloc)?, words.number()?);
    words.end()?;
    let got = match what {
        "utf8" => Encoding::utf8_valid_up_to(&bytes),
        "ascii" => Encoding::ascii_valid_up_to(&bytes),
        "iso-2022-jp" => Encoding::iso_2022_jp_ascii_valid_up_to(&bytes),
        _ => return Err(Unreadable::Unknown("no prefix has this name").into()),
    };
    expect(got == want, "another prefix")
}
