//! UTF-8 for bytes at hand and without a state: whether they are an incomplete sequence, and a
//! second decoder, of whole inputs. Tests compare the streaming decoder with it.
//!
//! That decoder is slow: at each sequence it looks at the bytes that follow, and it keeps nothing
//! in between.

ghost use Rattle.std.specs.Prelude.{◌≡◌, ◌+◌, ◌<◌, ◌≤◌, [], ◌∷◌, ◌++◌, length, drop};
ghost use Rattle.std.specs.Prelude.{slice_index, IfOk, OnOk};
ghost use Rattle.std.specs.Char.{encode_utf8};
ghost use Rattle.enc_utf8.specs.Text.{units_of_text};
ghost use Rattle.enc_utf8.specs.Utf8Sequences.{is_incomplete_sequence as incomplete};
ghost use Rattle.enc_decoder.specs.Prefixes.{are_incomplete};
ghost use Rattle.enc_decoder.specs.Sequence.{is_malformed as malformed_kind, sequence_text};
ghost use Rattle.enc_decoder.specs.Sequence.{any_malformed};
ghost use Rattle.enc_decoder.specs.Segmentation.{sequences_of};
ghost use Rattle.enc_decoder_utf.specs.Utf8.{utf_8_rule, utf_8_prefix};

use crate::utf_8::Utf8Decoder;
use enc_decoder::{Pending, Prefix, PrefixCodec, Text};
use std::alloc::{AllocError, Global};

/// The text of a whole input.
#[derive(Drop)]
pub struct PlainText {
    /// The text in UTF-8, with U+FFFD for each malformed sequence.
    pub text: Vec<u8>,
    /// Whether a sequence was malformed.
    pub had_errors: bool,
}

/// The sequence at the front of some bytes.
#[derive(Clone, Copy)]
struct Found {
    /// Its length in bytes.
    len: usize,
    character: char,
    malformed: bool,
    /// Whether more bytes may complete it.
    incomplete: bool,
}

/// Returns the sequence at the front, by the kinds of prefixes.
fn first_sequence(bytes: &[u8]) -> Found
    requires some { 0 < length bytes.now }
    ensures len { result.len
        ≡ (utf_8_rule 0 (slice_index bytes.now 0) (drop 1 bytes.now)).more + 1 }
    ensures character { (utf_8_rule 0 (slice_index bytes.now 0) (drop 1 bytes.now)).text
        ≡ result.character ∷ [] }
    ensures malformed { result.malformed ≡ malformed_kind
        (utf_8_rule 0 (slice_index bytes.now 0) (drop 1 bytes.now)).kind }
    ensures within { result.len ≤ length bytes.now }
    ensures incomplete { result.incomplete ≡ are_incomplete utf_8_prefix [] bytes.now }
{
    let decoder = Utf8Decoder::new();
    let mut front = Pending::Nothing;
    let mut at = 0;
    while at < bytes.len() {
        let byte = bytes[at];
        match decoder.classify(front, byte) {
            Prefix::Complete(Text::One(character)) => {
                return Found {
                    len: at + 1,
                    character,
                    malformed: false,
                    incomplete: false,
                };
            }
            Prefix::Complete(_) => unreachable!(),
            Prefix::Malformed(len) => {
                return Found {
                    len: len as usize,
                    character: '\u{FFFD}',
                    malformed: true,
                    incomplete: false,
                };
            }
            Prefix::Incomplete => {
                front = front.with(byte);
                at += 1;
            }
        }
    }
    Found {
        len: at,
        character: '\u{FFFD}',
        malformed: true,
        incomplete: true,
    }
}

/// Returns whether the bytes are the start of a well-formed sequence and not all of it (Unicode
/// Standard 3.9, D93b: a maximal subpart that more bytes may complete).
///
/// Then they determine nothing: a character may come of them, or one U+FFFD. It looks at four bytes
/// at most.
pub fn is_incomplete_sequence(bytes: &[u8]) -> bool
    ensures { result ≡ incomplete bytes.now }
{
    bytes.len() > 0 && first_sequence(bytes).incomplete
}

/// Appends the UTF-8 of a character.
fn append(text: &mut Vec<u8>, character: char) -> Result<(), AllocError>
    ensures { OnOk result (text.new.items ≡ text.old.items ++ encode_utf8 character) }
{
    let mut bytes = [0; 4];
    let encoded = character.encode_utf8(&mut bytes).as_bytes();
    text.extend_from_slice(encoded)
}

/// Decodes a whole input of UTF-8, with replacement (Encoding Standard 8.1.1).
///
/// Takes memory for the text. Fails if and only if memory is refused.
pub fn decode_utf_8(alloc: Global, bytes: &[u8]) -> Result<PlainText, AllocError>
    ensures text { IfOk result (λ plain. plain.text.items
        ≡ units_of_text encode_utf8 (sequence_text (sequences_of utf_8_rule 0 bytes.now))) }
    ensures had_errors { IfOk result (λ plain. plain.had_errors
        ≡ any_malformed (sequences_of utf_8_rule 0 bytes.now)) }
{
    let mut text = Vec::new(alloc);
    let mut had_errors = false;
    let mut read = 0;
    while read < bytes.len() {
        let (_, rest) = bytes.split_at(read);
        let found = first_sequence(rest);
        append(&mut text, found.character)?;
        had_errors |= found.malformed;
        read += found.len;
    }
    Ok(PlainText { text, had_errors })
}
