//! A label in a quoted string (RFC 5322 3.2.4).

ghost use Rattle.std.specs.Prelude.{◌≡◌, ◌≤◌, ◌<◌, [], ◌∷◌, ◌++◌, length, take};
ghost use Rattle.std.specs.Prelude.{MatchOption, IfSome};
ghost use Rattle.std.specs.List.{list_all};
ghost use Rattle.std.specs.Char.{is_ascii_whitespace};
ghost use Rattle.enc_stream.specs.Labels.{encoding_of_label};
ghost use Rattle.enc_sniff.specs.Positions.{past};
ghost use Rattle.enc_sniff.specs.HeaderTokens.{unquoted};

use enc_stream::Encoding;

/// The length in bytes of the longest label.
const LONGEST: usize = 19;

/// Returns the first byte, without a backslash that quotes it, and the bytes after it.
fn split_first(text: &[u8]) -> Option<(u8, &[u8])>
    ensures value { MatchOption result (unquoted text.now ≡ [])
        (λ found. unquoted text.now ≡ found.0 ∷ unquoted found.1.now) }
    ensures shorter { IfSome result (λ found. length found.1.now < length text.now) }
{
    if text.is_empty() {
        return None;
    }
    if text.len() > 1 && text[0] == b'\\' {
        Some((text[1], &text[2..]))
    } else {
        Some((text[0], &text[1..]))
    }
}

/// Returns the bytes after the ASCII whitespace at the front.
fn past_spaces(text: &[u8]) -> &[u8]
    ensures { unquoted result.now ≡ past is_ascii_whitespace (unquoted text.now) }
{
    let mut rest = text;
    'spaces: loop {
        match split_first(rest) {
            Some((byte, after)) => {
                if !byte.is_ascii_whitespace() {
                    return rest;
                }
                rest = after;
            }
            None => return rest,
        }
    }
}

/// Returns whether all bytes are ASCII whitespace.
fn is_blank(text: &[u8]) -> bool
    ensures { result ≡ list_all is_ascii_whitespace (unquoted text.now) }
{
    let mut rest = text;
    'bytes: loop {
        match split_first(rest) {
            Some((byte, after)) => {
                if !byte.is_ascii_whitespace() {
                    return false;
                }
                rest = after;
            }
            None => return true,
        }
    }
}

/// Copies bytes, without the backslashes that quote, as many as there is room for. Returns their
/// number, and the bytes after them.
fn copy_label<'a>(text: &'a [u8], room: &mut [u8]) -> (usize, &'a [u8])
    ensures copied { take result.0 room.new ++ unquoted result.1.now ≡ unquoted text.now }
    ensures within { result.0 ≤ length room.new }
    ensures full { result.0 < length room.new → unquoted result.1.now ≡ [] }
    ensures kept { length room.new ≡ length room.old }
{
    let mut len = 0;
    let mut rest = text;
    'bytes: while len < room.len() {
        match split_first(rest) {
            Some((byte, after)) => {
                room[len] = byte;
                len += 1;
                rest = after;
            }
            None => return (len, rest),
        }
    }
    (len, rest)
}

/// Returns the encoding of the label that a quoted string has.
pub(crate) fn quoted_encoding(text: &[u8]) -> Option<Encoding>
    ensures { result ≡ encoding_of_label (unquoted text.now) }
{
    let mut room = [0; LONGEST];
    let (len, rest) = copy_label(past_spaces(text), &mut room);
    if is_blank(rest) {
        Encoding::for_label(&room[..len])
    } else {
        None
    }
}
