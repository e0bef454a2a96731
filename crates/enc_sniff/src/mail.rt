//! The encoding that the header of a mail declares (RFC 5322 2.2; RFC 2045 5.1).

ghost use Rattle.std.specs.Prelude.{◌≡◌, option_map};
ghost use Rattle.enc_sniff.specs.Mail.{parameter_text, text_after_sign, named_text, text_after};
ghost use Rattle.enc_sniff.specs.Mail.{first_parameter as parameter_in};
ghost use Rattle.enc_sniff.specs.Mail.{mail_encoding as encoding_of_mail};
ghost use Rattle.enc_sniff.specs.Views.{token_now, value_now};

use crate::header::first_field;
use crate::quoted::quoted_encoding;
use crate::tokens::{Token, next_token};
use enc_stream::Encoding;

/// The value of a parameter.
#[derive(Clone, Copy)]
enum Value<'a> {
    /// A token of RFC 2045.
    Word(&'a [u8]),
    /// What stands in a quoted string, with the backslashes that quote.
    Quoted(&'a [u8]),
}

/// Returns the value at the front.
fn parameter_value<'a>(bytes: &'a [u8]) -> Option<Value<'a>>
    ensures { option_map value_now result ≡ parameter_text bytes.now }
{
    let (token, _) = next_token(bytes)?;
    match token {
        Token::Word(word) => Some(Value::Word(word)),
        Token::Quoted(text) => Some(Value::Quoted(text)),
        Token::Special(_) => None,
    }
}

/// Returns the value after `=`.
fn value_after_sign<'a>(bytes: &'a [u8]) -> Option<Value<'a>>
    ensures { option_map value_now result ≡ text_after_sign bytes.now }
{
    let (sign, rest) = next_token(bytes)?;
    if sign.is_special(b'=') {
        parameter_value(rest)
    } else {
        None
    }
}

/// Returns the value of a parameter, if it has this name.
fn named_value<'a>(bytes: &'a [u8], name: &[u8]) -> Option<Value<'a>>
    ensures { option_map value_now result ≡ named_text name.now bytes.now }
{
    let (found, rest) = next_token(bytes)?;
    if found.is_name(name) {
        value_after_sign(rest)
    } else {
        None
    }
}

/// Returns the value of a parameter of a name, if it follows a token that is a semicolon.
fn value_after<'a>(token: Token<'a>, after: &'a [u8], name: &[u8]) -> Option<Value<'a>>
    ensures { option_map value_now result ≡ text_after name.now (token_now token.entry) after.now }
{
    if token.is_special(b';') {
        named_value(after, name)
    } else {
        None
    }
}

/// Returns the value of the first parameter of a name in the body of a field.
fn first_parameter<'a>(body: &'a [u8], name: &[u8]) -> Option<Value<'a>>
    ensures { option_map value_now result ≡ parameter_in name.now body.now }
{
    let mut rest = body;
    'tokens: loop {
        match next_token(rest) {
            Some((token, after)) => match value_after(token, after, name) {
                Some(value) => return Some(value),
                None => rest = after,
            },
            None => return None,
        }
    }
}

/// Returns the encoding that the header of a mail, or of a part of one, declares.
///
/// That is the encoding of the first parameter `charset` of the first field Content-Type (RFC 2045
/// 5.1). Names count in either case. A field may be folded into several lines, and comments may
/// stand between its tokens (RFC 5322 2.2.3 and 3.2.2). A value is a token or a quoted string,
/// whose backslashes quote. Its label is looked up by "get an encoding" (Encoding Standard 4.2).
/// UTF-16 stays UTF-16, since it is the encoding of the body.
///
/// `None` if no such field or parameter is there, or if the label names no encoding. RFC 2045 5.2
/// has the body be US-ASCII without a charset. A parameter that is not well-formed does not count,
/// and the type is not looked at. The forms of RFC 2231 (`charset*=`) are not read, since no label
/// needs them.
///
/// `bytes` begins with the first line of the header. Lines end with CRLF or with LF. The first
/// empty line ends the header, and bytes after it are not read. The body is in the encoding once
/// its Content-Transfer-Encoding is undone.
///
/// ```rust
/// let mail = b"Subject: A\r\nContent-Type: text/plain;\r\n charset=\"koi8-r\"\r\n\r\nB";
/// assert!(rt; mail_encoding(mail) == Some(KOI8_R));
/// assert!(rt; mail_encoding(b"Content-Type: text/plain\n\ncharset=koi8-r") == None);
/// ```
pub fn mail_encoding(bytes: &[u8]) -> Option<Encoding>
    ensures { result ≡ encoding_of_mail bytes.now }
{
    match first_parameter(first_field(bytes, b"content-type")?, b"charset")? {
        Value::Word(label) => Encoding::for_label(label),
        Value::Quoted(text) => quoted_encoding(text),
    }
}
