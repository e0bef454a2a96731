//! The encoding that some bytes show, and what shows it.

ghost use Rattle.std.specs.Prelude.{◌≡◌, MatchBool};
ghost use Rattle.enc_utf8.specs.Validity.{IsWellFormedUtf8, AreAscii};
ghost use Rattle.enc_sniff.specs.Sniff.{declared_guess as guess_of_head, IsGuess};

use crate::html::html_encoding;
use crate::xml::xml_encoding;
use enc_stream::Encoding;
use enc_stream::constants::UTF_8;
use std::fmt;

/// What shows an encoding.
#[derive(Clone, Copy, PartialEq, Eq, Debug)]
pub enum Evidence {
    /// A byte order mark.
    Bom,
    /// The head of an XML document.
    XmlDeclaration,
    /// A meta element of HTML.
    Meta,
    /// All bytes are well-formed UTF-8, and not all are ASCII.
    Utf8,
    /// All bytes are ASCII.
    Ascii,
    /// Nothing does.
    Nothing,
}

impl fmt::Display for Evidence {
    ghost use Rattle.std.specs.Prelude.{Some};
    ghost use Rattle.enc_sniff.specs.Evidence.{evidence_text};

    ghost output = { λ evidence. Some (evidence_text evidence) };

    /// Writes a phrase in lower case, as `byte order mark`.
    fn fmt<W: fmt::Write>(&self, f: &mut fmt::Formatter<W>) -> fmt::Result {
        f.write_str(match self {
            Evidence::Bom => "byte order mark",
            Evidence::XmlDeclaration => "XML declaration",
            Evidence::Meta => "meta element",
            Evidence::Utf8 => "well-formed UTF-8",
            Evidence::Ascii => "ASCII alone",
            Evidence::Nothing => "nothing",
        })
    }
}

/// An encoding, if some bytes show one, and what shows it.
#[derive(Clone, Copy, PartialEq, Eq, Debug)]
pub struct Guess {
    /// `None` exactly if nothing shows an encoding.
    pub encoding: Option<Encoding>,
    pub evidence: Evidence,
}

/// Returns the guess of a byte order mark, of the head of an XML document, or of a page.
fn declared_guess(bytes: &[u8]) -> Option<Guess>
    ensures { result ≡ guess_of_head bytes.now }
{
    let (encoding, evidence) = if let Some((encoding, _)) = Encoding::for_bom(bytes) {
        (encoding, Evidence::Bom)
    } else if let Some(encoding) = xml_encoding(bytes) {
        (encoding, Evidence::XmlDeclaration)
    } else {
        (html_encoding(bytes)?, Evidence::Meta)
    };
    Some(Guess {
        encoding: Some(encoding),
        evidence,
    })
}

/// Returns whether all bytes are ASCII.
fn is_ascii(bytes: &[u8]) -> bool
    ensures { MatchBool result (AreAscii bytes.now) (¬ (AreAscii bytes.now)) }
{
    Encoding::ascii_valid_up_to(bytes) == bytes.len()
}

/// Returns whether all bytes are well-formed UTF-8.
fn is_well_formed(bytes: &[u8]) -> bool
    ensures { MatchBool result (IsWellFormedUtf8 bytes.now) (¬ (IsWellFormedUtf8 bytes.now)) }
{
    Encoding::utf8_valid_up_to(bytes) == bytes.len()
}

/// Returns the encoding that some bytes show, and what shows it.
///
/// In this order: a byte order mark; the head of an XML document ([`xml_encoding`]); a page
/// ([`html_encoding`]); bytes that are all ASCII, or well-formed UTF-8 otherwise, which are UTF-8.
/// Other bytes show nothing: they may be in any legacy encoding. All `bytes` are looked at, so a
/// part of a file that ends within a character is not well-formed.
///
/// ASCII is no proof of UTF-8. Nearly every encoding reads such bytes so, but ISO-2022-JP has
/// escape sequences of ASCII bytes, which no standard lets a reader sniff.
///
/// ```rust
/// let guess = sniff(b"caf\xC3\xA9");
/// assert!(rt; guess.encoding == Some(UTF_8) && guess.evidence == Evidence::Utf8);
/// assert!(rt; sniff(b"caf\xE9").encoding == None);
/// ```
#[tactic(auto, using(crate::proofs::WholeLemmas::ascii_is_well_formed))]
pub fn sniff(bytes: &[u8]) -> Guess
    ensures { IsGuess bytes.now result }
{
    if let Some(guess) = declared_guess(bytes) {
        return guess;
    }
    if is_ascii(bytes) {
        return Guess {
            encoding: Some(UTF_8),
            evidence: Evidence::Ascii,
        };
    }
    if is_well_formed(bytes) {
        return Guess {
            encoding: Some(UTF_8),
            evidence: Evidence::Utf8,
        };
    }
    Guess {
        encoding: None,
        evidence: Evidence::Nothing,
    }
}
