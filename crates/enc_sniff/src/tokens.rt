//! The tokens of a header field (RFC 5322 3.2; RFC 2045 5.1).

ghost use Rattle.std.specs.Prelude.{◌≡◌, ◌+◌, ◌≤◌, ◌<◌, length, drop, slice_index};
ghost use Rattle.std.specs.Prelude.{option_map, IfSome};
ghost use Rattle.enc_sniff.specs.HeaderTokens.{is_past_comments, quotes_next as quotes, past_comments};
ghost use Rattle.enc_sniff.specs.HeaderTokens.{depth_after as depth_then, closing_offset};
ghost use Rattle.enc_sniff.specs.HeaderTokens.{quoted_string_at, token_from};
ghost use Rattle.enc_sniff.specs.HeaderTokens.{next_token as token_after_comments};
ghost use Rattle.enc_sniff.specs.Mail.{is_name, is_special};
ghost use Rattle.enc_sniff.specs.Views.{token_now, token_found};

use crate::scanning::{Run, is_word, past_byte, split_run};

/// A token.
#[derive(Clone, Copy)]
pub(crate) enum Token<'a> {
    /// A token of RFC 2045.
    Word(&'a [u8]),
    /// What stands in a quoted string, with the backslashes that quote.
    Quoted(&'a [u8]),
    /// Any other byte.
    Special(u8),
}

impl Token<'_> {
    /// Returns whether it is a name, in either case.
    pub(crate) fn is_name(self, name: &[u8]) -> bool
        ensures { result ≡ is_name name.now (token_now self.entry) }
    {
        match self {
            Token::Word(word) => is_word(word, name),
            Token::Quoted(_) | Token::Special(_) => false,
        }
    }

    /// Returns whether it is a byte that is no part of a word.
    pub(crate) fn is_special(self, byte: u8) -> bool
        ensures { result ≡ is_special byte (token_now self.entry) }
    {
        match self {
            Token::Special(special) => special == byte,
            Token::Word(_) | Token::Quoted(_) => false,
        }
    }
}

/// Returns whether a byte, at a depth of comments, belongs neither to white space nor to a comment.
fn ends_comments(depth: usize, byte: u8) -> bool
    ensures { result ≡ is_past_comments depth byte }
{
    depth == 0 && !matches!(byte, b'(' | b' ' | b'\t' | b'\r' | b'\n')
}

/// Returns whether a byte is a backslash in a comment.
fn quotes_next(depth: usize, byte: u8) -> bool
    ensures { result ≡ quotes depth byte }
{
    depth != 0 && byte == b'\\'
}

/// Returns the depth of comments after a byte.
fn depth_after(depth: usize, byte: u8) -> usize
    requires fits { depth < 0x7FFFFFFFFFFFFFFF }
    ensures value { result ≡ depth_then depth byte }
    ensures within { result ≤ depth + 1 }
{
    match byte {
        b'(' => depth + 1,
        b')' => depth.saturating_sub(1),
        _ => depth,
    }
}

/// Returns the bytes after white space and comments.
fn past_white_space(bytes: &[u8]) -> &[u8]
    ensures value { result.now ≡ past_comments 0 bytes.now }
    ensures within { length result.now ≤ length bytes.now }
{
    let mut rest = bytes;
    let mut depth = 0;
    'bytes: while !rest.is_empty() {
        let byte = rest[0];
        if ends_comments(depth, byte) {
            return rest;
        }
        let after = past_byte(rest);
        if quotes_next(depth, byte) {
            rest = past_byte(after);
        } else {
            depth = depth_after(depth, byte);
            rest = after;
        }
    }
    rest
}

/// Returns the offset of the quotation mark that ends a quoted string.
fn closing_mark(bytes: &[u8]) -> Option<usize>
    ensures value { result ≡ closing_offset 0 bytes.now }
    ensures within { IfSome result (λ offset. offset < length bytes.now) }
{
    let mut rest = bytes;
    let mut offset = 0;
    'pairs: while !rest.is_empty() {
        let byte = rest[0];
        if byte == b'"' {
            return Some(offset);
        }
        let after = past_byte(rest);
        if byte == b'\\' {
            rest = past_byte(after);
            offset += 2;
        } else {
            rest = after;
            offset += 1;
        }
    }
    None
}

/// Reads a quoted string after its first quotation mark. Returns it and the bytes after it.
///
/// `None` if it has no end.
fn take_quoted<'a>(bytes: &'a [u8]) -> Option<(Token<'a>, &'a [u8])>
    ensures value { option_map token_found result ≡ quoted_string_at bytes.now }
    ensures shorter { IfSome result (λ found. length found.1.now < length bytes.now) }
{
    let end = closing_mark(bytes)?;
    Some((Token::Quoted(&bytes[..end]), &bytes[end + 1..]))
}

/// Reads the token at the front. Returns it and the bytes after it.
///
/// `None` if it is a quoted string that has no end.
fn take_token<'a>(bytes: &'a [u8]) -> Option<(Token<'a>, &'a [u8])>
    requires some { 0 < length bytes.now }
    ensures value { option_map token_found result
        ≡ token_from (slice_index bytes.now 0) (drop 1 bytes.now) }
    ensures shorter { IfSome result (λ found. length found.1.now < length bytes.now) }
{
    let first = bytes[0];
    if first == b'"' {
        return take_quoted(&bytes[1..]);
    }
    if !Run::Token.has(first) {
        return Some((Token::Special(first), &bytes[1..]));
    }
    let (more_word, rest) = split_run(past_byte(bytes), Run::Token);
    Some((Token::Word(&bytes[..more_word.len() + 1]), rest))
}

/// Reads the next token. Returns it and the bytes after it.
///
/// `None` if there is no other one, or if it is a quoted string that has no end.
pub(crate) fn next_token<'a>(bytes: &'a [u8]) -> Option<(Token<'a>, &'a [u8])>
    ensures value { option_map token_found result ≡ token_after_comments bytes.now }
    ensures shorter { IfSome result (λ found. length found.1.now < length bytes.now) }
{
    let bytes = past_white_space(bytes);
    if bytes.is_empty() {
        return None;
    }
    take_token(bytes)
}
