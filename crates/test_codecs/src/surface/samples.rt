//! A character of each codec, decoded and encoded, by Python's codecs, and by hand from the
//! Encoding Standard (8 to 14) where these differ.

use enc_index::{Codec, List, SingleByteIndex};

/// An index, a pointer that it has, and the character.
pub(crate) type Pointer = (List, u32, char);

/// A codec; bytes, and their text; a text, and its bytes in the output encoding; and characters of
/// the indexes that the codec uses.
pub(crate) type Sample = (
    Codec,
    (&'static [u8], &'static str),
    (&'static str, &'static [u8]),
    &'static [Pointer],
);

/// The bytes of "€" in UTF-8.
const EURO: (&str, &[u8]) = ("€", b"\xE2\x82\xAC");

pub(crate) const UTF_8: Sample = (Codec::Utf8, (b"\xF0\x9F\x92\xA9", "💩"), EURO, &[]);

pub(crate) const UTF_16BE: Sample = (Codec::Utf16Be, (b"\xD8\x3D\xDC\xA9", "💩"), EURO, &[]);

pub(crate) const UTF_16LE: Sample = (Codec::Utf16Le, (b"\x3D\xD8\xA9\xDC", "💩"), EURO, &[]);

pub(crate) const SINGLE_BYTE: Sample = (
    Codec::SingleByte(SingleByteIndex::Windows1252),
    (b"\xE9\x80", "é€"),
    ("€", b"\x80"),
    &[(List::SingleByte(SingleByteIndex::Windows1252), 0, '€')],
);

pub(crate) const BIG5: Sample = (
    Codec::Big5,
    (b"\x88\x62", "\u{CA}\u{304}"),
    ("一", b"\xA4\x40"),
    &[(List::Big5, 5495, '一')],
);

pub(crate) const EUC_KR: Sample = (
    Codec::EucKr,
    (b"\xB0\xA1", "가"),
    ("가", b"\xB0\xA1"),
    &[(List::EucKr, 9026, '가')],
);

pub(crate) const SHIFT_JIS: Sample = (
    Codec::ShiftJis,
    (b"\x83\x6E", "ハ"),
    ("一", b"\x88\xEA"),
    &[(List::Jis0208, 1410, '亜')],
);

pub(crate) const EUC_JP: Sample = (
    Codec::EucJp,
    (b"\x8F\xB0\xA1", "丂"),
    ("一", b"\xB0\xEC"),
    &[(List::Jis0208, 1485, '一'), (List::Jis0212, 1410, '丂')],
);

pub(crate) const GBK: Sample = (Codec::Gbk, (b"\xB0\xA1", "啊"), ("€", b"\x80"), &[]);

pub(crate) const GB18030: Sample = (
    Codec::Gb18030,
    (b"\x90\x30\x81\x30", "\u{10000}"),
    ("€", b"\xA2\xE3"),
    &[
        (List::Gb18030, 9026, '啊'),
        (List::Gb18030Ranges, 189_000, '\u{10000}'),
    ],
);

pub(crate) const X_USER_DEFINED: Sample = (
    Codec::XUserDefined,
    (b"\xE9", "\u{F7E9}"),
    ("\u{F780}", b"\x80"),
    &[],
);

pub(crate) const REPLACEMENT: Sample = (Codec::Replacement, (b"", ""), EURO, &[]);

pub(crate) const ISO_2022_JP: Sample = (
    Codec::Iso2022Jp,
    (b"\x1B(J\x5C", "¥"),
    ("¥", b"\x1B(J\x5C\x1B(B"),
    &[],
);

/// The samples, in the order of `Codec`.
pub(crate) const SAMPLES: &[Sample] = &[
    UTF_8,
    UTF_16BE,
    UTF_16LE,
    SINGLE_BYTE,
    BIG5,
    EUC_KR,
    SHIFT_JIS,
    EUC_JP,
    GBK,
    GB18030,
    X_USER_DEFINED,
    REPLACEMENT,
    ISO_2022_JP,
];
