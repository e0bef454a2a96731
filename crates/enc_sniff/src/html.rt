//! The encoding that a page declares (HTML Standard 13.2.3.2, "prescan a byte stream to determine
//! its encoding").

ghost use Rattle.std.specs.Prelude.{◌≡◌, ◌≤◌, ◌<◌, [], length, take, drop, codes};
ghost use Rattle.std.specs.Prelude.{option_map, unwrap_or, IfSome};
ghost use Rattle.enc_sniff.specs.declared.html.Turn.TheVariants.{NextByte};
ghost use Rattle.enc_sniff.specs.Positions.{past as past_list, past_word};
ghost use Rattle.enc_sniff.specs.Attributes.{is_word_byte};
ghost use Rattle.enc_sniff.specs.Html.{tag_attributes, begins_meta, begins_tag, begins_other};
ghost use Rattle.enc_sniff.specs.Html.{turn, meta_turn as turn_of_meta, tag_turn};
ghost use Rattle.enc_sniff.specs.Html.{markup_encoding, prescan as prescan_of};
ghost use Rattle.enc_sniff.specs.Html.{html_encoding as encoding_of_page};
ghost use Rattle.enc_sniff.specs.Views.{tag_now, turn_now, bytes_after};

use crate::attributes::get_attribute;
use crate::meta::Meta;
use crate::scanning::{Run, begins, byte_at, past, past_byte, past_first};
use crate::xml::{declared_encoding, utf_16_head};
use enc_stream::Encoding;

/// The number of bytes that the prescan looks at.
const MOST: usize = 1024;

/// What a turn of the loop comes to.
#[derive(Clone, Copy)]
enum Turn<'a> {
    /// An encoding was declared.
    Return(Encoding),
    /// The loop goes on at these bytes. None are left if the bytes ran out.
    NextByte(&'a [u8]),
}

/// Reads the attributes of a tag. Returns what they declare in a meta element, and the bytes from
/// the `>` on that ends it.
///
/// `None` if the bytes run out.
fn take_attributes(bytes: &[u8]) -> Option<(Meta, &[u8])>
    ensures value { option_map tag_now result ≡ tag_attributes bytes.now }
    ensures within { IfSome result (λ found. length found.1.now ≤ length bytes.now) }
{
    let mut meta = Meta::new();
    let mut rest = bytes;
    'attributes: loop {
        match get_attribute(rest) {
            Some((Some(attribute), after)) => {
                meta = meta.add(attribute);
                rest = after;
            }
            Some((None, end)) => return Some((meta, end)),
            None => return None,
        }
    }
}

/// Returns whether some bytes begin with `<meta` and the end of this name.
fn is_meta(bytes: &[u8]) -> bool
    ensures { result ≡ begins_meta bytes.now }
{
    let end = byte_at(bytes, 5);
    begins(bytes, b"<meta") && (end.is_ascii_whitespace() || end == b'/')
}

/// Returns whether some bytes begin with a start tag or an end tag.
fn is_tag(bytes: &[u8]) -> bool
    ensures { result ≡ begins_tag bytes.now }
{
    let first = byte_at(bytes, 1);
    byte_at(bytes, 0) == b'<'
        && (first.is_ascii_alphabetic()
            || (first == b'/' && byte_at(bytes, 2).is_ascii_alphabetic()))
}

/// Returns whether some bytes begin with a declaration, a processing instruction or a malformed
/// end tag.
fn is_other(bytes: &[u8]) -> bool
    ensures { result ≡ begins_other bytes.now }
{
    let first = byte_at(bytes, 1);
    byte_at(bytes, 0) == b'<' && (first == b'!' || first == b'/' || first == b'?')
}

/// Takes the turn of a meta element, from the end of its name on.
fn meta_turn(bytes: &[u8]) -> Turn<'_>
    ensures value { turn_now result ≡ turn_of_meta (tag_attributes bytes.now) }
    ensures within { length (bytes_after result) ≤ length bytes.now }
{
    let Some((meta, end)) = take_attributes(bytes) else {
        return Turn::NextByte(&[]);
    };
    match meta.encoding() {
        Some(encoding) => Turn::Return(encoding),
        None => Turn::NextByte(past_byte(end)),
    }
}

/// Returns the bytes after a tag.
fn past_tag(bytes: &[u8]) -> &[u8]
    requires some { 0 < length bytes.now }
    ensures value { turn_now (NextByte result)
        ≡ tag_turn (tag_attributes (past_list (is_word_byte 0x3E) bytes.now)) }
    ensures shorter { length result.now < length bytes.now }
{
    match take_attributes(past(bytes, Run::Word(b'>'))) {
        Some((_, end)) => past_byte(end),
        None => &[],
    }
}

/// Returns the bytes after a comment.
fn past_comment(bytes: &[u8]) -> &[u8]
    requires two { 2 ≤ length bytes.now }
    ensures value { result.now ≡ unwrap_or (past_word (codes "-->") (drop 2 bytes.now)) [] }
    ensures shorter { length result.now < length bytes.now }
{
    past_first(&bytes[2..], b"-->").unwrap_or(&[])
}

/// Takes the turn of the markup at the front of some bytes (step 4).
fn take_turn(bytes: &[u8]) -> Turn<'_>
    requires some { 0 < length bytes.now }
    ensures value { turn_now result ≡ turn bytes.now }
    ensures shorter { length (bytes_after result) < length bytes.now }
{
    if bytes.starts_with(b"<!--") {
        Turn::NextByte(past_comment(bytes))
    } else if is_meta(bytes) {
        meta_turn(&bytes[5..])
    } else if is_tag(bytes) {
        Turn::NextByte(past_tag(bytes))
    } else if is_other(bytes) {
        Turn::NextByte(past_byte(past(bytes, Run::UpTo(b'>'))))
    } else {
        Turn::NextByte(past_byte(bytes))
    }
}

/// Returns the encoding of the first meta element that declares one.
fn meta_encoding(bytes: &[u8]) -> Option<Encoding>
    ensures { result ≡ markup_encoding bytes.now }
{
    let mut rest = bytes;
    'markup: while !rest.is_empty() {
        match take_turn(rest) {
            Turn::Return(encoding) => return Some(encoding),
            Turn::NextByte(after) => rest = after,
        }
    }
    None
}

/// Returns the encoding that some bytes declare as the start of a page, or as XML.
fn prescan(bytes: &[u8]) -> Option<Encoding>
    ensures { result ≡ prescan_of bytes.now }
{
    if let Some(encoding) = utf_16_head(bytes) {
        return Some(encoding);
    }
    if let Some(encoding) = meta_encoding(bytes) {
        return Some(encoding);
    }
    declared_encoding(bytes)
}

/// Returns the first bytes of some, at most `most`.
fn first_bytes(bytes: &[u8], most: usize) -> &[u8]
    ensures { result.now ≡ take most bytes.now }
{
    if bytes.len() <= most {
        bytes
    } else {
        &bytes[..most]
    }
}

/// Returns the encoding that a page declares in its first 1024 bytes.
///
/// That is "prescan a byte stream to determine its encoding" of HTML Standard 13.2.3.2: the first
/// meta element that declares an encoding, by `charset` or by `http-equiv` and `content`. If none
/// does, or if the bytes end within a tag, an XML declaration counts ("get an XML encoding").
/// UTF-16 is UTF-8, since the declaration is ASCII, and x-user-defined is windows-1252. `<?x` in
/// UTF-16 goes before both. `None` if nothing declares an encoding.
///
/// A byte order mark and a label of the transport go before it. The caller looks for them, by
/// `Encoding::for_bom` and `Encoding::for_label`. `bytes` begins with the first byte of the page,
/// and those past the first 1024 don't count.
///
/// ```rust
/// assert!(rt; html_encoding(b"<meta charset=\"gb2312\">") == Some(GBK));
/// assert!(rt; html_encoding(b"<!-- <meta charset=gbk> -->") == None);
/// ```
pub fn html_encoding(bytes: &[u8]) -> Option<Encoding>
    ensures { result ≡ encoding_of_page bytes.now }
{
    prescan(first_bytes(bytes, MOST))
}
