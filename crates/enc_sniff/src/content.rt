//! The encoding in an attribute `content` (HTML Standard, "extracting a character encoding from a
//! meta element").

ghost use Rattle.std.specs.Prelude.{◌≡◌, option_copied};
ghost use Rattle.enc_sniff.specs.Content.{label_from, past_charset as after_charset};
ghost use Rattle.enc_sniff.specs.Content.{content_label as label_in};
ghost use Rattle.enc_sniff.specs.Content.{content_encoding as encoding_in};

use crate::scanning::{Run, begins, past, split_at_byte, split_run};
use enc_stream::Encoding;

/// Returns the label at the front of some bytes (step 6).
fn label_at(bytes: &[u8]) -> Option<&[u8]>
    ensures { option_copied result ≡ label_from bytes.now }
{
    let (first, after_first) = bytes.split_first()?;
    if *first == b'"' || *first == b'\'' {
        let (label, _) = split_at_byte(after_first, *first)?;
        return Some(label);
    }
    let (label, _) = split_run(bytes, Run::Word(b';'));
    Some(label)
}

/// Returns the bytes after `charset=` with spaces around the sign, if it is at the front (steps 2
/// to 5).
fn past_charset(bytes: &[u8]) -> Option<&[u8]>
    ensures { option_copied result ≡ after_charset bytes.now }
{
    if !begins(bytes, b"charset") {
        return None;
    }
    let (sign, after_sign) = past(bytes.get(7..)?, Run::Spaces).split_first()?;
    if *sign == b'=' {
        Some(past(after_sign, Run::Spaces))
    } else {
        None
    }
}

/// Returns the label after the first `charset=`, with spaces around the sign.
fn content_label(content: &[u8]) -> Option<&[u8]>
    ensures { option_copied result ≡ label_in content.now }
{
    let mut rest = content;
    'places: while !rest.is_empty() {
        if let Some(after) = past_charset(rest) {
            return label_at(after);
        }
        rest = &rest[1..];
    }
    None
}

/// Returns the encoding in a value such as `text/html; charset=koi8-r`.
pub(crate) fn content_encoding(content: &[u8]) -> Option<Encoding>
    ensures { result ≡ encoding_in content.now }
{
    Encoding::for_label(content_label(content)?)
}
