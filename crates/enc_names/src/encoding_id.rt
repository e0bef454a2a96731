//! The identifiers of the encodings.
//!
//! Written by scripts/make-sources from data/templates: change the text there, and not this file.

/// The encodings, by their names.
#[derive(Clone, Copy, PartialEq, Eq, Hash, Debug)]
pub enum EncodingId {
    /// UTF-8.
    Utf8,
    /// IBM866.
    Ibm866,
    /// ISO-8859-2.
    Iso88592,
    /// ISO-8859-3.
    Iso88593,
    /// ISO-8859-4.
    Iso88594,
    /// ISO-8859-5.
    Iso88595,
    /// ISO-8859-6.
    Iso88596,
    /// ISO-8859-7.
    Iso88597,
    /// ISO-8859-8.
    Iso88598,
    /// ISO-8859-8-I.
    Iso88598I,
    /// ISO-8859-10.
    Iso885910,
    /// ISO-8859-13.
    Iso885913,
    /// ISO-8859-14.
    Iso885914,
    /// ISO-8859-15.
    Iso885915,
    /// ISO-8859-16.
    Iso885916,
    /// KOI8-R.
    Koi8R,
    /// KOI8-U.
    Koi8U,
    /// macintosh.
    Macintosh,
    /// windows-874.
    Windows874,
    /// windows-1250.
    Windows1250,
    /// windows-1251.
    Windows1251,
    /// windows-1252.
    Windows1252,
    /// windows-1253.
    Windows1253,
    /// windows-1254.
    Windows1254,
    /// windows-1255.
    Windows1255,
    /// windows-1256.
    Windows1256,
    /// windows-1257.
    Windows1257,
    /// windows-1258.
    Windows1258,
    /// x-mac-cyrillic.
    XMacCyrillic,
    /// GBK.
    Gbk,
    /// gb18030.
    Gb18030,
    /// Big5.
    Big5,
    /// EUC-JP.
    EucJp,
    /// ISO-2022-JP.
    Iso2022Jp,
    /// Shift_JIS.
    ShiftJis,
    /// EUC-KR.
    EucKr,
    /// replacement.
    Replacement,
    /// UTF-16BE.
    Utf16be,
    /// UTF-16LE.
    Utf16le,
    /// x-user-defined.
    XUserDefined,
}
