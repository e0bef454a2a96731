//! Heads of XML documents. Expected values are by hand from the steps of "get an XML encoding"
//! (HTML Standard 13.2.3.2).

use crate::cases::expect;
use enc_sniff::xml_encoding;
use enc_stream::Encoding;
use enc_stream::constants::{KOI8_R, SHIFT_JIS, UTF_8, UTF_16BE, UTF_16LE, X_USER_DEFINED};
use std::test::Fail;

/// Bytes, and the encoding of the head.
const HEADS: &[(&[u8], Option<Encoding>)] = &[
    (b"<?xml version=\"1.0\" encoding=\"koi8-r\"?>", Some(KOI8_R)),
    (
        b"<?xml version='1.0' encoding='Shift_JIS' standalone='yes'?><a/>",
        Some(SHIFT_JIS),
    ),
    (
        b"<?xml version='1.0' encoding = \n\t 'koi8-r' ?>",
        Some(KOI8_R),
    ),
    (
        b"<?xml version='1.0'encoding\x00=\x01'koi8-r'>",
        Some(KOI8_R),
    ),
    (b"<?xmlencoding='koi8-r'>", Some(KOI8_R)),
    (b"<?xml encoding='koi8-r' encoding='ibm866'?>", Some(KOI8_R)),
    // The `>` may stand anywhere, and the label after it.
    (b"<?xml version='1.0'?><a encoding='koi8-r'/>", Some(KOI8_R)),
    (b"<?xml encoding='koi8-r'?", None),
    (b"<?xml version='1.0'?>", None),
    (b"<?XML encoding='koi8-r'?>", None),
    (b"<?xml Encoding='koi8-r'?>", None),
    (b" <?xml encoding='koi8-r'?>", None),
    (b"<?xm encoding='koi8-r'?>", None),
    (b"<?xml encoding koi8-r?>", None),
    (b"<?xml encoding=koi8-r?>", None),
    (b"<?xml encoding='koi8-r\"?>", None),
    (b"<?xml encoding=\"koi8-r'?>", None),
    // Spaces belong to the label here, and make it fail.
    (b"<?xml encoding=' koi8-r'?>", None),
    (b"<?xml encoding='koi8-r '?>", None),
    (b"<?xml encoding='koi8-r\t'?>", None),
    (b"<?xml encoding=''?>", None),
    (b"<?xml encoding='nothing'?>", None),
    (b"<?xml encoding='utf-16'?>", Some(UTF_8)),
    (b"<?xml encoding='UTF-16BE'?>", Some(UTF_8)),
    // Only the prescan of a page reads this label as windows-1252.
    (b"<?xml encoding='x-user-defined'?>", Some(X_USER_DEFINED)),
    (b"<\0?\0x\0", Some(UTF_16LE)),
    (b"<\0?\0x\0m\0l\0", Some(UTF_16LE)),
    (b"\0<\0?\0x", Some(UTF_16BE)),
    (b"\0<\0?\0x\0m\0l", Some(UTF_16BE)),
    (b"<\0?\0x", None),
    (b"\0<\0?\0", None),
    (b"<\0?\0X\0", None),
    (b"", None),
];

#[test]
fn heads_have_their_encodings(_rt: HostRuntime) -> Result<(), Fail> {
    for (head, encoding) in HEADS {
        expect(xml_encoding(head), *encoding, head)?;
    }
    Ok(())
}
