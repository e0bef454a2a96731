//! Starts of pages. Expected values are by hand from the steps of "prescan a byte stream to
//! determine its encoding" (HTML Standard 13.2.3.2). html5lib 1.1 finds the same, but for what it
//! has from older editions: it wants a space after `<meta`, ends no comment by the hyphens of its
//! start, counts each attribute of a name, goes on past an unknown `charset`, reads `;` as a part
//! of a label, and leaves UTF-16 and x-user-defined as they are.

use crate::cases::expect;
use enc_sniff::html_encoding;
use enc_stream::Encoding;
use enc_stream::constants::{
    BIG5, EUC_KR, GBK, IBM866, ISO_8859_2, KOI8_R, SHIFT_JIS, UTF_8, UTF_16BE, UTF_16LE,
    WINDOWS_1252,
};
use std::test::Fail;

/// The start of a page, and the encoding that it declares.
const PAGES: &[(&[u8], Option<Encoding>)] = &[
    (b"<meta charset=koi8-r>", Some(KOI8_R)),
    (b"<META CHARSET='Shift_JIS'>", Some(SHIFT_JIS)),
    (b"<meta/charset=\"big5\">", Some(BIG5)),
    (b"<meta\tcharset = gb2312 >", Some(GBK)),
    (b"<meta name=a charset=euc-kr>", Some(EUC_KR)),
    (
        b"<!DOCTYPE html><html><head><meta charset=iso-8859-2>",
        Some(ISO_8859_2),
    ),
    (
        b"<p title=\"<meta charset=koi8-r>\"><meta charset=ibm866>",
        Some(IBM866),
    ),
    (
        b"<a b='>' <meta charset=koi8-r>><meta charset=ibm866>",
        Some(IBM866),
    ),
    (
        b"<!-- <meta charset=koi8-r> --><meta charset=ibm866>",
        Some(IBM866),
    ),
    (b"<!--><meta charset=koi8-r>", Some(KOI8_R)),
    (b"<!---><meta charset=koi8-r>", Some(KOI8_R)),
    (b"<!-- > <meta charset=koi8-r>", None),
    (b"</meta charset=koi8-r><meta charset=ibm866>", Some(IBM866)),
    (
        b"</ <meta charset=koi8-r><meta charset=ibm866>",
        Some(IBM866),
    ),
    (
        b"<? <meta charset=koi8-r><meta charset=ibm866>",
        Some(IBM866),
    ),
    (b"<! a='>' <meta charset=koi8-r>", Some(KOI8_R)),
    (b"<1 <meta charset=koi8-r>", Some(KOI8_R)),
    (b"< meta charset=koi8-r>", None),
    (b"<metacharset=koi8-r>", None),
    (b"<meta charset=koi8-r", None),
    (b"<meta charset='koi8-r'", None),
    (b"<meta charset='koi8-r>", None),
    (b"<meta charset=>", None),
    (b"<meta charset=\"\"><meta charset=koi8-r>", Some(KOI8_R)),
    (b"<meta charset=utf-16><meta charset=koi8-r>", Some(UTF_8)),
    (b"<meta charset=utf-16be>", Some(UTF_8)),
    (b"<meta charset=x-user-defined>", Some(WINDOWS_1252)),
    (b"<meta charset=nothing><meta charset=koi8-r>", Some(KOI8_R)),
    (b"<meta charset=koi8-r charset=ibm866>", Some(KOI8_R)),
    (b"<meta charset=nothing charset=koi8-r>", None),
    (
        b"<meta http-equiv=content-type content='text/html; charset=koi8-r'>",
        Some(KOI8_R),
    ),
    (
        b"<meta content='text/html; charset=koi8-r' HTTP-EQUIV=Content-Type>",
        Some(KOI8_R),
    ),
    (b"<meta content='text/html; charset=koi8-r'>", None),
    (
        b"<meta http-equiv=refresh content='text/html; charset=koi8-r'>",
        None,
    ),
    (
        b"<meta http-equiv=refresh http-equiv=content-type content='charset=koi8-r'>",
        None,
    ),
    (
        b"<meta http-equiv=content-type content='charset=koi8-r' charset=ibm866>",
        Some(IBM866),
    ),
    (
        b"<meta charset=ibm866 http-equiv=content-type content='charset=koi8-r'>",
        Some(IBM866),
    ),
    (
        b"<meta charset=nothing http-equiv=content-type content='charset=koi8-r'>",
        None,
    ),
    (
        b"<meta http-equiv=content-type content='charset=nothing' content='charset=koi8-r'>",
        None,
    ),
    (
        b"<meta http-equiv=content-type content='CHARSET = \"koi8-r\"; a'>",
        Some(KOI8_R),
    ),
    (
        b"<meta http-equiv=content-type content='charset charset=koi8-r'>",
        Some(KOI8_R),
    ),
    (
        b"<meta http-equiv=content-type content='charset=\"koi8-r'>",
        None,
    ),
    (
        b"<meta http-equiv=content-type content='charset=koi8-r;charset=ibm866'>",
        Some(KOI8_R),
    ),
    (
        b"<meta http-equiv=content-type content='charset=koi8-r ibm866'>",
        Some(KOI8_R),
    ),
    (b"<meta http-equiv=content-type content='charset='>", None),
    (b"<meta =charset=koi8-r charset=ibm866>", Some(IBM866)),
    (b"<meta a=/charset=koi8-r charset=ibm866>", Some(IBM866)),
    (b"<meta a/charset=ibm866>", Some(IBM866)),
    (b"<", None),
    (b"", None),
    // An XML declaration counts if no meta element does, and also where the bytes end in a tag.
    (b"<?xml encoding='koi8-r'?>", Some(KOI8_R)),
    (
        b"<?xml encoding='koi8-r'?><meta charset=ibm866>",
        Some(IBM866),
    ),
    (
        b"<?xml encoding='koi8-r'?><meta charset=ibm866",
        Some(KOI8_R),
    ),
    (b"<?xml encoding='koi8-r'?><a b='", Some(KOI8_R)),
    (b"<\0?\0x\0", Some(UTF_16LE)),
    (b"\0<\0?\0x<meta charset=koi8-r>", Some(UTF_16BE)),
];

#[test]
fn pages_declare_their_encodings(_rt: HostRuntime) -> Result<(), Fail> {
    for (page, encoding) in PAGES {
        expect(html_encoding(page), *encoding, page)?;
    }
    Ok(())
}

/// The number of bytes that the prescan looks at, and the meta element that stands at their end.
const MOST: usize = 1024;

const ELEMENT: &[u8] = b"<meta charset=koi8-r>";

#[test]
fn the_first_1024_bytes_count(rt: HostRuntime) -> Result<(), Fail> {
    let spaces = MOST - ELEMENT.len();
    let mut page = vec![in rt.alloc(); b' '; spaces]?;
    page.extend_from_slice(ELEMENT)?;
    expect(html_encoding(&page), Some(KOI8_R), &page)?;
    page.insert(0, b' ')?;
    expect(html_encoding(&page), None, &page)
}
