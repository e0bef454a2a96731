//! The head of an XML document: "get an XML encoding" (HTML Standard 13.2.3.2), and UTF-16 without
//! a byte order mark (XML 1.0, appendix F).

ghost use Rattle.std.specs.Prelude.{◌≡◌, option_copied};
ghost use Rattle.std.specs.List.{list_any};
ghost use Rattle.enc_sniff.specs.Xml.{is_control, has_declaration, potential_encoding};
ghost use Rattle.enc_sniff.specs.Xml.{encoding_named, xml_declaration_encoding};
ghost use Rattle.enc_sniff.specs.Xml.{utf_16_head as encoding_of_utf_16_head};
ghost use Rattle.enc_sniff.specs.Xml.{xml_encoding as encoding_of_head};

use crate::labels::without_utf_16;
use crate::scanning::{Run, past, past_first, split_at_byte};
use enc_stream::Encoding;
use enc_stream::constants::{UTF_16BE, UTF_16LE};

/// Returns whether some bytes begin with an XML declaration (steps 2 and 3).
fn has_xml_declaration(bytes: &[u8]) -> bool
    ensures { result ≡ has_declaration bytes.now }
{
    bytes.starts_with(b"<?xml") && bytes.contains(&b'>')
}

/// Returns the label of an XML declaration in ASCII (steps 4 to 14).
fn xml_label(bytes: &[u8]) -> Option<&[u8]>
    ensures { option_copied result ≡ potential_encoding bytes.now }
{
    let after_name = past(past_first(bytes, b"encoding")?, Run::Controls);
    let (sign, after_sign) = after_name.split_first()?;
    if *sign != b'=' {
        return None;
    }
    let (quote, text) = past(after_sign, Run::Controls).split_first()?;
    if *quote != b'"' && *quote != b'\'' {
        return None;
    }
    let (label, _) = split_at_byte(text, *quote)?;
    Some(label)
}

/// Returns whether a label has a space or a control character (step 15).
fn has_controls(label: &[u8]) -> bool
    ensures { result ≡ list_any is_control label.now }
{
    label.iter().any(|byte| *byte <= b' ')
}

/// Returns the encoding that the label of an XML declaration names (steps 15 to 18).
fn labelled_encoding(label: &[u8]) -> Option<Encoding>
    ensures { result ≡ encoding_named label.now }
{
    if has_controls(label) {
        return None;
    }
    Some(without_utf_16(Encoding::for_label(label)?))
}

/// Returns the encoding of an XML declaration in ASCII ("get an XML encoding").
pub(crate) fn declared_encoding(bytes: &[u8]) -> Option<Encoding>
    ensures { result ≡ xml_declaration_encoding bytes.now }
{
    if has_xml_declaration(bytes) {
        labelled_encoding(xml_label(bytes)?)
    } else {
        None
    }
}

/// Returns the encoding of `<?x` in UTF-16 (the prescan's step 3).
pub(crate) fn utf_16_head(bytes: &[u8]) -> Option<Encoding>
    ensures { result ≡ encoding_of_utf_16_head bytes.now }
{
    if bytes.starts_with(b"<\0?\0x\0") {
        Some(UTF_16LE)
    } else if bytes.starts_with(b"\0<\0?\0x") {
        Some(UTF_16BE)
    } else {
        None
    }
}

/// Returns the encoding that the head of an XML document shows, without a byte order mark.
///
/// That is UTF-16LE or UTF-16BE if the bytes are `<?x` in it, and else the encoding that an XML
/// declaration of ASCII bytes names ("get an XML encoding" of HTML Standard 13.2.3.2). UTF-16 in
/// such a declaration is UTF-8, since its bytes are ASCII. `None` if neither is there, or if the
/// label names no encoding. XML has such a document be UTF-8 (XML 1.0, 4.3.3).
///
/// `bytes` begins with the first byte of the document, and has the whole declaration.
///
/// ```rust
/// let document = b"<?xml version='1.0' encoding='Shift_JIS'?><a/>";
/// assert!(rt; xml_encoding(document) == Some(SHIFT_JIS));
/// assert!(rt; xml_encoding(b"<\0?\0x\0m\0l\0") == Some(UTF_16LE));
/// assert!(rt; xml_encoding(b"<?xml version='1.0'?><a/>") == None);
/// ```
pub fn xml_encoding(bytes: &[u8]) -> Option<Encoding>
    ensures { result ≡ encoding_of_head bytes.now }
{
    match utf_16_head(bytes) {
        Some(encoding) => Some(encoding),
        None => declared_encoding(bytes),
    }
}
