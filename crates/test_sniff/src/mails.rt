//! Headers of mails. Expected values are the charsets that Python 3.11 finds, by the labels of the
//! Encoding Standard: `message_from_bytes(header, policy=policy.default)["content-type"].params`
//! of its `email`. Its older `get_content_charset` agrees, except that it reads neither comments
//! nor backslashes, and counts an empty `charset=` and a parameter in place of the type. The values
//! of [`OTHERS`] are by hand from RFC 5322 and RFC 2045.

use crate::cases::expect;
use enc_sniff::mail_encoding;
use enc_stream::Encoding;
use enc_stream::constants::{
    EUC_JP, GBK, ISO_2022_JP, KOI8_R, SHIFT_JIS, UTF_8, UTF_16LE, WINDOWS_1252,
};
use std::test::Fail;

/// The start of a mail, and the encoding that its header declares, as Python finds it.
const MAILS: &[(&[u8], Option<Encoding>)] = &[
    (
        b"Content-Type: text/plain; charset=koi8-r\r\n\r\n",
        Some(KOI8_R),
    ),
    (
        b"Content-Type: text/plain; charset=koi8-r\n\n",
        Some(KOI8_R),
    ),
    (b"Content-Type: text/plain; charset=koi8-r", Some(KOI8_R)),
    (b"content-type:text/plain;CHARSET=KOI8-R\n\n", Some(KOI8_R)),
    (
        b"CONTENT-TYPE: text/plain; Charset=\"koi8-r\"\r\n\r\n",
        Some(KOI8_R),
    ),
    // Folded.
    (
        b"Content-Type: text/plain;\r\n charset=koi8-r\r\n\r\n",
        Some(KOI8_R),
    ),
    (
        b"Content-Type: text/plain;\n\tcharset=koi8-r\n\n",
        Some(KOI8_R),
    ),
    (
        b"Content-Type:\r\n text/plain;\r\n charset\r\n =\r\n \"koi8-r\"\r\n\r\n",
        Some(KOI8_R),
    ),
    (
        b"Content-Type: text/plain;\r\n \r\n charset=koi8-r\r\n\r\n",
        Some(KOI8_R),
    ),
    (b"Content-Type: text/plain;\r\ncharset=ibm866\r\n\r\n", None),
    // Other fields.
    (
        b"From: a@b\r\nSubject: c\r\nContent-Type: text/plain; charset=koi8-r\r\n\r\n",
        Some(KOI8_R),
    ),
    (
        b"From a@b Tue Dec  1 14:00:00 2026\nContent-Type: text/plain; charset=koi8-r\n\n",
        Some(KOI8_R),
    ),
    (
        b"Subject: a\r\n Content-Type: text/plain; charset=ibm866\r\n\r\n",
        None,
    ),
    (b" Content-Type: text/plain; charset=ibm866\r\n\r\n", None),
    (
        b"Content-Type-X: a/b; charset=ibm866\r\nContent-Type: a/b; charset=koi8-r\r\n\r\n",
        Some(KOI8_R),
    ),
    (b"X-Content-Type: text/plain; charset=ibm866\r\n\r\n", None),
    (b"Content-Typ: text/plain; charset=ibm866\r\n\r\n", None),
    (b"Content-Type text/plain; charset=ibm866\r\n\r\n", None),
    (
        b"Content-Type: a/b\r\nContent-Type: a/b; charset=ibm866\r\n\r\n",
        None,
    ),
    (
        b"Content-Type: a/b; charset=koi8-r\r\nContent-Type: a/b; charset=ibm866\r\n\r\n",
        Some(KOI8_R),
    ),
    // In the body.
    (
        b"Subject: a\r\n\r\nContent-Type: text/plain; charset=ibm866\r\n\r\n",
        None,
    ),
    (
        b"Subject: a\n\nContent-Type: text/plain; charset=ibm866\n\n",
        None,
    ),
    (
        b"\r\nContent-Type: text/plain; charset=ibm866\r\n\r\n",
        None,
    ),
    (b"\nContent-Type: text/plain; charset=ibm866\n\n", None),
    (
        b"Content-Type: text/plain\r\n\r\n; charset=ibm866\r\n",
        None,
    ),
    (
        b"Subject: a\r\n\r\n b\r\nContent-Type: a/b; charset=ibm866\r\n",
        None,
    ),
    // Other parameters.
    (
        b"Content-Type: text/plain; charset=koi8-r; charset=ibm866\r\n\r\n",
        Some(KOI8_R),
    ),
    (
        b"Content-Type: text/plain; charset=nothing; charset=ibm866\r\n\r\n",
        None,
    ),
    (
        b"Content-Type: a/b; boundary=\"c; charset=ibm866; d\"; charset=koi8-r\r\n\r\n",
        Some(KOI8_R),
    ),
    (
        b"Content-Type: a/b; boundary=\"c\\\"; charset=ibm866; d\"; charset=koi8-r\r\n\r\n",
        Some(KOI8_R),
    ),
    (
        b"Content-Type: a/b; c=\"d\\\\\"; charset=koi8-r; e=\"f\"\r\n\r\n",
        Some(KOI8_R),
    ),
    (b"Content-Type: a/b; c=\"; charset=ibm866\"\r\n\r\n", None),
    (b"Content-Type: a/b; c=\"d; charset=ibm866\r\n\r\n", None),
    (b"Content-Type: a/b; x-charset=ibm866\r\n\r\n", None),
    (b"Content-Type: a/b; charset-x=ibm866\r\n\r\n", None),
    (
        b"Content-Type: a/b; c=charset; charset=koi8-r\r\n\r\n",
        Some(KOI8_R),
    ),
    (
        b"Content-Type: a/b; name=c d.txt; charset=koi8-r\r\n\r\n",
        Some(KOI8_R),
    ),
    (
        b"Content-Type: a/b; ; charset=koi8-r;\r\n\r\n",
        Some(KOI8_R),
    ),
    (
        b"Content-Type: a/b; charset=; charset=koi8-r\r\n\r\n",
        Some(KOI8_R),
    ),
    (b"Content-Type: charset=ibm866\r\n\r\n", None),
    (b"Content-Type: a; charset=koi8-r\r\n\r\n", Some(KOI8_R)),
    // Comments.
    (
        b"Content-Type: text/plain; charset=koi8-r (Cyrillic)\r\n\r\n",
        Some(KOI8_R),
    ),
    (
        b"Content-Type: text/plain (a; charset=ibm866); charset=koi8-r\r\n\r\n",
        Some(KOI8_R),
    ),
    (
        b"Content-Type: a/b; (c (d) ; charset=ibm866 \\) e) charset (=) = (f) koi8-r\r\n\r\n",
        Some(KOI8_R),
    ),
    (
        b"Content-Type: a/b; charset=(c)koi8-r(d)\r\n\r\n",
        Some(KOI8_R),
    ),
    (
        b"Content-Type: (c) a/b (d\r\n e); (f)\r\n charset=koi8-r\r\n\r\n",
        Some(KOI8_R),
    ),
    (
        b"Content-Type: a/b (\"); charset=koi8-r; c=\"(\"\r\n\r\n",
        Some(KOI8_R),
    ),
    (b"Content-Type: a/b (c; charset=ibm866\r\n\r\n", None),
    (
        b"Content-Type: a/b (c)) ; charset=koi8-r\r\n\r\n",
        Some(KOI8_R),
    ),
    // Values.
    (
        b"Content-Type: a/b; charset=\"koi\\8-r\"\r\n\r\n",
        Some(KOI8_R),
    ),
    (
        b"Content-Type: a/b; charset=\"\\k\\o\\i\\8\\-\\r\"\r\n\r\n",
        Some(KOI8_R),
    ),
    (b"Content-Type: a/b; charset=\"koi\\\\8-r\"\r\n\r\n", None),
    (
        b"Content-Type: a/b; charset=\"           koi8-r\\          \"\r\n\r\n",
        Some(KOI8_R),
    ),
    (
        b"Content-Type: a/b; charset=\"\\ \\C\\S\\E\\UCPKDFMTJAPANES\\E \"\r\n\r\n",
        Some(EUC_JP),
    ),
    (
        b"Content-Type: a/b; charset=\"cseucpkdfmtjapanese s\"\r\n\r\n",
        None,
    ),
    (
        b"Content-Type: a/b; charset=\"cseucpkdfmtjapaneses\"\r\n\r\n",
        None,
    ),
    (b"Content-Type: a/b; charset=\"koi8\r\n -r\"\r\n\r\n", None),
    (
        b"Content-Type: a/b; charset=\"koi8-r\r\n \"\r\n\r\n",
        Some(KOI8_R),
    ),
    (b"Content-Type: a/b; charset=\"\"\r\n\r\n", None),
    (b"Content-Type: a/b; charset=\r\n\r\n", None),
    (b"Content-Type: a/b; charset\r\n\r\n", None),
    (b"Content-Type: a/b; charset='koi8-r'\r\n\r\n", None),
    (b"Content-Type: a/b; charset=\xE9\r\n\r\n", None),
    (b"Content-Type: a/b; charset=utf-8\r\n\r\n", Some(UTF_8)),
    (
        b"Content-Type: a/b; charset=us-ascii\r\n\r\n",
        Some(WINDOWS_1252),
    ),
    (b"Content-Type: a/b; charset=utf-16\r\n\r\n", Some(UTF_16LE)),
    (
        b"Content-Type: a/b; charset=Shift_JIS\r\n\r\n",
        Some(SHIFT_JIS),
    ),
    (b"Content-Type: a/b; charset=gb2312\r\n\r\n", Some(GBK)),
    (
        b"Content-Type: a/b; charset=iso-2022-jp\r\nX: Y\r\n\r\n",
        Some(ISO_2022_JP),
    ),
    (b"Content-Type: a/b; charset=utf-7\r\n\r\n", None),
    (b"Content-Type: a/b; charset=unknown-8bit\r\n\r\n", None),
    (b"Content-Type:", None),
    (b"Content-Type", None),
    (b"", None),
];

/// Headers that Python reads otherwise.
const OTHERS: &[(&[u8], Option<Encoding>)] = &[
    // Spaces before the colon (RFC 5322 4.5.8), where Python ends the header.
    (
        b"Content-Type : text/plain; charset=koi8-r\r\n\r\n",
        Some(KOI8_R),
    ),
    (
        b"Content-Type\t \t: text/plain; charset=koi8-r\r\n\r\n",
        Some(KOI8_R),
    ),
    // A line that is no field, where Python ends the header.
    (
        b"no field\r\nContent-Type: text/plain; charset=koi8-r\r\n\r\n",
        Some(KOI8_R),
    ),
    // A quoted string without an end, whose text Python takes.
    (b"Content-Type: a/b; charset=\"koi8-r\r\n\r\n", None),
    // A name without a value, which Python takes for an empty one.
    (
        b"Content-Type: a/b; charset; charset=koi8-r\r\n\r\n",
        Some(KOI8_R),
    ),
    // The forms of RFC 2231, which Python reads.
    (b"Content-Type: a/b; charset*=utf-8''koi8-r\r\n\r\n", None),
    (
        b"Content-Type: a/b; charset*0=koi8; charset*1=-r\r\n\r\n",
        None,
    ),
];

#[test]
fn mails_declare_their_encodings(_rt: HostRuntime) -> Result<(), Fail> {
    for (mail, encoding) in MAILS {
        expect(mail_encoding(mail), *encoding, mail)?;
    }
    Ok(())
}

#[test]
fn other_mails_declare_their_encodings(_rt: HostRuntime) -> Result<(), Fail> {
    for (mail, encoding) in OTHERS {
        expect(mail_encoding(mail), *encoding, mail)?;
    }
    Ok(())
}
