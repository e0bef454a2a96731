//! The fields of the header of a mail (RFC 5322 2.2).

ghost use Rattle.std.specs.Prelude.{◌≡◌, option_copied};
ghost use Rattle.enc_sniff.specs.HeaderFields.{field_bytes, body_after_colon, body_at_line};
ghost use Rattle.enc_sniff.specs.HeaderFields.{is_empty_line, first_field as field_in};

use crate::scanning::{Run, begins, byte_at, past, past_byte};

/// Returns whether a line is empty.
fn is_empty(line: &[u8]) -> bool
    ensures { result ≡ is_empty_line line.now }
{
    line.starts_with(b"\n") || line.starts_with(b"\r\n")
}

/// Returns the bytes of a field: up to the first line feed that no space or tab follows.
fn field(bytes: &[u8]) -> &[u8]
    ensures { result.now ≡ field_bytes bytes.now }
{
    let mut len = 0;
    'bytes: while len < bytes.len() {
        let next = byte_at(bytes, len + 1);
        if bytes[len] == b'\n' && next != b' ' && next != b'\t' {
            return &bytes[..len];
        }
        len += 1;
    }
    bytes
}

/// Returns the body of a field after its colon, if that is next.
fn past_colon(bytes: &[u8]) -> Option<&[u8]>
    ensures { option_copied result ≡ body_after_colon bytes.now }
{
    let (colon, body) = bytes.split_first()?;
    if *colon == b':' {
        Some(field(body))
    } else {
        None
    }
}

/// Returns the body of a field of a name, if it begins at this line.
fn field_at_line<'a>(line: &'a [u8], name: &[u8]) -> Option<&'a [u8]>
    ensures { option_copied result ≡ body_at_line name.now line.now }
{
    if begins(line, name) {
        past_colon(past(line.get(name.len()..)?, Run::Wsp))
    } else {
        None
    }
}

/// Returns the body of the first field of a name in the header.
pub(crate) fn first_field<'a>(bytes: &'a [u8], name: &[u8]) -> Option<&'a [u8]>
    ensures { option_copied result ≡ field_in name.now bytes.now }
{
    let mut rest = bytes;
    'lines: while !rest.is_empty() {
        if is_empty(rest) {
            return None;
        }
        match field_at_line(rest, name) {
            Some(body) => return Some(body),
            None => rest = past_byte(past(rest, Run::UpTo(b'\n'))),
        }
    }
    None
}
