//! Guesses of bytes of any kind. Expected values are by hand: which evidence goes first from the
//! standards that `enc_sniff` names, and what is well-formed from Unicode Standard 3.9, table 3-7.

use crate::cases::expect;
use enc_sniff::{Evidence, sniff};
use enc_stream::Encoding;
use enc_stream::constants::{IBM866, KOI8_R, UTF_8, UTF_16BE, UTF_16LE};
use std::test::Fail;

/// Bytes, their encoding, and the evidence as it is printed.
const GUESSES: &[(&[u8], Option<Encoding>, Evidence, &str)] = &[
    (
        b"\xEF\xBB\xBFa",
        Some(UTF_8),
        Evidence::Bom,
        "byte order mark",
    ),
    (
        b"\xFE\xFF\0a",
        Some(UTF_16BE),
        Evidence::Bom,
        "byte order mark",
    ),
    (
        b"\xFF\xFEa\0",
        Some(UTF_16LE),
        Evidence::Bom,
        "byte order mark",
    ),
    (
        b"\xEF\xBB\xBF<meta charset=koi8-r>",
        Some(UTF_8),
        Evidence::Bom,
        "byte order mark",
    ),
    (
        b"<?xml encoding='koi8-r'?><meta charset=ibm866>",
        Some(KOI8_R),
        Evidence::XmlDeclaration,
        "XML declaration",
    ),
    (
        b"<\0?\0x\0",
        Some(UTF_16LE),
        Evidence::XmlDeclaration,
        "XML declaration",
    ),
    (
        b"<?xml version='1.0'?><meta charset=ibm866>",
        Some(IBM866),
        Evidence::Meta,
        "meta element",
    ),
    (
        b"\xC3\xA9<meta charset=ibm866>",
        Some(IBM866),
        Evidence::Meta,
        "meta element",
    ),
    (
        b"caf\xC3\xA9",
        Some(UTF_8),
        Evidence::Utf8,
        "well-formed UTF-8",
    ),
    (
        b"\xF0\x9F\x98\x80",
        Some(UTF_8),
        Evidence::Utf8,
        "well-formed UTF-8",
    ),
    (b"cafe", Some(UTF_8), Evidence::Ascii, "ASCII alone"),
    (b"\x1B$B", Some(UTF_8), Evidence::Ascii, "ASCII alone"),
    (b"\x00\x7F", Some(UTF_8), Evidence::Ascii, "ASCII alone"),
    (b"", Some(UTF_8), Evidence::Ascii, "ASCII alone"),
    (b"caf\xE9", None, Evidence::Nothing, "nothing"),
    (b"caf\xC3", None, Evidence::Nothing, "nothing"),
    (b"\xED\xA0\x80", None, Evidence::Nothing, "nothing"),
    (b"\xFE", None, Evidence::Nothing, "nothing"),
    (b"\x80", None, Evidence::Nothing, "nothing"),
];

#[test]
fn guesses_have_their_evidence(rt: HostRuntime) -> Result<(), Fail> {
    for (bytes, encoding, evidence, phrase) in GUESSES {
        let guess = sniff(bytes);
        expect(guess.encoding, *encoding, bytes)?;
        if guess.evidence != *evidence {
            return Err(Fail::new(format_args!("{}: {bytes:?}", guess.evidence)));
        }
        let printed = format!(in rt.alloc(); "{evidence}")?;
        if printed.as_str() != *phrase {
            return Err(Fail::new(format_args!("{printed}, not {phrase}")));
        }
    }
    Ok(())
}
