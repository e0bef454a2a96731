//! The encodings, each by two constants.
//!
//! Written by scripts/make-sources from data/templates: change the text there, and not this file.

use crate::encoding::Encoding;
use enc_names::EncodingId;

/// UTF-8 (Encoding Standard 8.1).
///
/// Unicode in one to four bytes a character, with ASCII as itself. Nearly all of the web is in it,
/// and the standard wants new text in no other encoding.
pub const UTF_8: Encoding = Encoding {
    id: EncodingId::Utf8,
};

/// The same as [`UTF_8`].
pub const UTF_8_INIT: Encoding = UTF_8;

/// IBM866 (Encoding Standard 9.1).
///
/// Code page 866 of MS-DOS: Cyrillic, with box-drawing characters between the letters. Old Russian
/// files, file names in archives and databases have it.
pub const IBM866: Encoding = Encoding {
    id: EncodingId::Ibm866,
};

/// The same as [`IBM866`].
pub const IBM866_INIT: Encoding = IBM866;

/// ISO-8859-2 (Encoding Standard 9.1).
///
/// Latin-2: Polish, Czech, Slovak, Hungarian, Slovenian, Croatian and Romanian as Unix and mail
/// once wrote them. It is not [`WINDOWS_1250`]: Ą, Ľ, Ś, Š, Ť, Ź and Ž have other bytes there.
pub const ISO_8859_2: Encoding = Encoding {
    id: EncodingId::Iso88592,
};

/// The same as [`ISO_8859_2`].
pub const ISO_8859_2_INIT: Encoding = ISO_8859_2;

/// ISO-8859-3 (Encoding Standard 9.1).
///
/// Latin-3: Maltese and Esperanto. It was meant for Turkish too, which ISO-8859-9 took over. Seven
/// bytes have no character.
pub const ISO_8859_3: Encoding = Encoding {
    id: EncodingId::Iso88593,
};

/// The same as [`ISO_8859_3`].
pub const ISO_8859_3_INIT: Encoding = ISO_8859_3;

/// ISO-8859-4 (Encoding Standard 9.1).
///
/// Latin-4: Estonian, Latvian, Lithuanian, Greenlandic and Sámi. [`ISO_8859_10`] and
/// [`ISO_8859_13`] came in its place.
pub const ISO_8859_4: Encoding = Encoding {
    id: EncodingId::Iso88594,
};

/// The same as [`ISO_8859_4`].
pub const ISO_8859_4_INIT: Encoding = ISO_8859_4;

/// ISO-8859-5 (Encoding Standard 9.1).
///
/// Cyrillic by the ISO. It is rare: Russian text had [`KOI8_R`], [`IBM866`] or [`WINDOWS_1251`], in
/// which most letters have other bytes.
pub const ISO_8859_5: Encoding = Encoding {
    id: EncodingId::Iso88595,
};

/// The same as [`ISO_8859_5`].
pub const ISO_8859_5_INIT: Encoding = ISO_8859_5;

/// ISO-8859-6 (Encoding Standard 9.1).
///
/// Arabic, as ASMO 708 and ECMA-114 have it. Letters are in the order of reading. There are no
/// Persian letters, and 45 bytes have no character.
pub const ISO_8859_6: Encoding = Encoding {
    id: EncodingId::Iso88596,
};

/// The same as [`ISO_8859_6`].
pub const ISO_8859_6_INIT: Encoding = ISO_8859_6;

/// ISO-8859-7 (Encoding Standard 9.1).
///
/// Greek, as ELOT 928 and ECMA-118 have it, of the edition of 2003 with the euro sign at A4.
/// [`WINDOWS_1253`] differs in Ά, which is B6 here and A2 there, and in signs.
pub const ISO_8859_7: Encoding = Encoding {
    id: EncodingId::Iso88597,
};

/// The same as [`ISO_8859_7`].
pub const ISO_8859_7_INIT: Encoding = ISO_8859_7;

/// ISO-8859-8 (Encoding Standard 9.1).
///
/// Hebrew in visual order: a line has its letters from left to right, as a screen shows them. Old
/// pages are so, and the label `hebrew` says it. Decoding keeps the order. There are no vowel
/// points.
pub const ISO_8859_8: Encoding = Encoding {
    id: EncodingId::Iso88598,
};

/// The same as [`ISO_8859_8`].
pub const ISO_8859_8_INIT: Encoding = ISO_8859_8;

/// ISO-8859-8-I (Encoding Standard 9.1).
///
/// Hebrew in logical order: the letters are in the order of reading, and what shows them sorts
/// them. Its bytes and characters are those of [`ISO_8859_8`]. Only by the name, which differs,
/// does a browser see the order.
pub const ISO_8859_8_I: Encoding = Encoding {
    id: EncodingId::Iso88598I,
};

/// The same as [`ISO_8859_8_I`].
pub const ISO_8859_8_I_INIT: Encoding = ISO_8859_8_I;

/// ISO-8859-10 (Encoding Standard 9.1).
///
/// Latin-6: the Nordic languages with Icelandic, Sámi and Greenlandic, and the Baltic ones. It was
/// hardly ever used.
pub const ISO_8859_10: Encoding = Encoding {
    id: EncodingId::Iso885910,
};

/// The same as [`ISO_8859_10`].
pub const ISO_8859_10_INIT: Encoding = ISO_8859_10;

/// ISO-8859-13 (Encoding Standard 9.1).
///
/// Latin-7: Lithuanian, Latvian and Estonian. [`WINDOWS_1257`] has the same letters at the same
/// bytes, and differs in quotation marks and accents.
pub const ISO_8859_13: Encoding = Encoding {
    id: EncodingId::Iso885913,
};

/// The same as [`ISO_8859_13`].
pub const ISO_8859_13_INIT: Encoding = ISO_8859_13;

/// ISO-8859-14 (Encoding Standard 9.1).
///
/// Latin-8: the Celtic languages, with the dotted consonants of old Irish spelling and the
/// circumflexes of Welsh.
pub const ISO_8859_14: Encoding = Encoding {
    id: EncodingId::Iso885914,
};

/// The same as [`ISO_8859_14`].
pub const ISO_8859_14_INIT: Encoding = ISO_8859_14;

/// ISO-8859-15 (Encoding Standard 9.1).
///
/// Latin-9: ISO-8859-1 with the euro sign at A4 and Š, š, Ž, ž, Œ, œ and Ÿ in place of seven signs.
/// Western European Unix systems had it before UTF-8.
pub const ISO_8859_15: Encoding = Encoding {
    id: EncodingId::Iso885915,
};

/// The same as [`ISO_8859_15`].
pub const ISO_8859_15_INIT: Encoding = ISO_8859_15;

/// ISO-8859-16 (Encoding Standard 9.1).
///
/// Latin-10: Romanian, with a comma and not a cedilla below Ș and Ț, and its neighbours from Polish
/// to Albanian. It has the euro sign at A4.
pub const ISO_8859_16: Encoding = Encoding {
    id: EncodingId::Iso885916,
};

/// The same as [`ISO_8859_16`].
pub const ISO_8859_16_INIT: Encoding = ISO_8859_16;

/// KOI8-R (Encoding Standard 9.1).
///
/// Russian on Unix and in the mail of the early Internet (RFC 1489). With the high bit of its bytes
/// lost, a text can still be read in Latin letters.
pub const KOI8_R: Encoding = Encoding {
    id: EncodingId::Koi8R,
};

/// The same as [`KOI8_R`].
pub const KOI8_R_INIT: Encoding = KOI8_R;

/// KOI8-U (Encoding Standard 9.1).
///
/// [`KOI8_R`] with the Ukrainian letters Ґ, Є, І and Ї in place of eight box-drawing characters
/// (RFC 2319). The standard adds Ў and ў at BE and AE, as KOI8-RU has them: `koi8-ru` is a label of
/// it.
pub const KOI8_U: Encoding = Encoding {
    id: EncodingId::Koi8U,
};

/// The same as [`KOI8_U`].
pub const KOI8_U_INIT: Encoding = KOI8_U;

/// macintosh (Encoding Standard 9.1).
///
/// Mac OS Roman: western European text of the classic Mac OS. It is of the time after Mac OS 8.5,
/// with the euro sign at DB. F0, the apple, is U+F8FF for private use.
pub const MACINTOSH: Encoding = Encoding {
    id: EncodingId::Macintosh,
};

/// The same as [`MACINTOSH`].
pub const MACINTOSH_INIT: Encoding = MACINTOSH;

/// windows-874 (Encoding Standard 9.1).
///
/// Thai code page of Windows: a superset of TIS-620 and ISO-8859-11, which are labels of it.
/// Between 80 and 9F it adds the euro sign, the ellipsis, the bullet, dashes and quotation marks.
pub const WINDOWS_874: Encoding = Encoding {
    id: EncodingId::Windows874,
};

/// The same as [`WINDOWS_874`].
pub const WINDOWS_874_INIT: Encoding = WINDOWS_874;

/// windows-1250 (Encoding Standard 9.1).
///
/// Central European code page of Windows: Polish, Czech, Slovak, Hungarian, Slovenian, Croatian and
/// Romanian. It is no superset of [`ISO_8859_2`].
pub const WINDOWS_1250: Encoding = Encoding {
    id: EncodingId::Windows1250,
};

/// The same as [`WINDOWS_1250`].
pub const WINDOWS_1250_INIT: Encoding = WINDOWS_1250;

/// windows-1251 (Encoding Standard 9.1).
///
/// Cyrillic code page of Windows: Russian, Ukrainian, Belarusian, Bulgarian, Serbian and
/// Macedonian. It is the Cyrillic encoding that the web had most.
pub const WINDOWS_1251: Encoding = Encoding {
    id: EncodingId::Windows1251,
};

/// The same as [`WINDOWS_1251`].
pub const WINDOWS_1251_INIT: Encoding = WINDOWS_1251;

/// windows-1252 (Encoding Standard 9.1).
///
/// Western European code page of Windows, and the encoding of text whose label is `iso-8859-1`,
/// `latin1` or `ascii`: browsers have always read these so. It is ISO-8859-1 with 27 printed
/// characters, such as €, “ and ”, in place of controls between 80 and 9F. The five bytes that are
/// left, 81, 8D, 8F, 90 and 9D, are controls.
pub const WINDOWS_1252: Encoding = Encoding {
    id: EncodingId::Windows1252,
};

/// The same as [`WINDOWS_1252`].
pub const WINDOWS_1252_INIT: Encoding = WINDOWS_1252;

/// windows-1253 (Encoding Standard 9.1).
///
/// Greek code page of Windows, with µ, ¶ and other signs where [`ISO_8859_7`] has Ά and marks.
/// Three bytes have no character.
pub const WINDOWS_1253: Encoding = Encoding {
    id: EncodingId::Windows1253,
};

/// The same as [`WINDOWS_1253`].
pub const WINDOWS_1253_INIT: Encoding = WINDOWS_1253;

/// windows-1254 (Encoding Standard 9.1).
///
/// Turkish code page of Windows, and the encoding of the labels `iso-8859-9` and `latin5`. It is
/// [`WINDOWS_1252`] with Ğ, İ, Ş, ğ, ı and ş in place of six Icelandic letters, and without Ž and
/// ž.
pub const WINDOWS_1254: Encoding = Encoding {
    id: EncodingId::Windows1254,
};

/// The same as [`WINDOWS_1254`].
pub const WINDOWS_1254_INIT: Encoding = WINDOWS_1254;

/// windows-1255 (Encoding Standard 9.1).
///
/// Hebrew code page of Windows, in logical order. The letters have the bytes of [`ISO_8859_8_I`].
/// It adds vowel points, quotation marks and the sheqel sign.
pub const WINDOWS_1255: Encoding = Encoding {
    id: EncodingId::Windows1255,
};

/// The same as [`WINDOWS_1255`].
pub const WINDOWS_1255_INIT: Encoding = WINDOWS_1255;

/// windows-1256 (Encoding Standard 9.1).
///
/// Arabic code page of Windows, with the letters of Persian and Urdu and the accented ones of
/// French. Half of the Arabic letters have other bytes than in [`ISO_8859_6`].
pub const WINDOWS_1256: Encoding = Encoding {
    id: EncodingId::Windows1256,
};

/// The same as [`WINDOWS_1256`].
pub const WINDOWS_1256_INIT: Encoding = WINDOWS_1256;

/// windows-1257 (Encoding Standard 9.1).
///
/// Baltic code page of Windows: Lithuanian, Latvian and Estonian. A1 and A5 have no character.
pub const WINDOWS_1257: Encoding = Encoding {
    id: EncodingId::Windows1257,
};

/// The same as [`WINDOWS_1257`].
pub const WINDOWS_1257_INIT: Encoding = WINDOWS_1257;

/// windows-1258 (Encoding Standard 9.1).
///
/// Vietnamese code page of Windows. Five tone marks are characters of their own, which follow a
/// vowel, so that most letters with a tone are two characters. The encoder takes no letter apart: ế
/// in one character is unmappable.
pub const WINDOWS_1258: Encoding = Encoding {
    id: EncodingId::Windows1258,
};

/// The same as [`WINDOWS_1258`].
pub const WINDOWS_1258_INIT: Encoding = WINDOWS_1258;

/// x-mac-cyrillic (Encoding Standard 9.1).
///
/// Cyrillic of the classic Mac OS, in its later form with the Ukrainian Ґ and ґ and the euro sign.
/// `x-mac-ukrainian` is a label of it.
pub const X_MAC_CYRILLIC: Encoding = Encoding {
    id: EncodingId::XMacCyrillic,
};

/// The same as [`X_MAC_CYRILLIC`].
pub const X_MAC_CYRILLIC_INIT: Encoding = X_MAC_CYRILLIC;

/// GBK (Encoding Standard 10.1).
///
/// Simplified Chinese: code page 936, a superset of GB 2312, whose labels name it. It is decoded as
/// [`GB18030`] is. The encoder writes no four bytes, so it lacks most of Unicode, and the euro sign
/// is 80.
pub const GBK: Encoding = Encoding {
    id: EncodingId::Gbk,
};

/// The same as [`GBK`].
pub const GBK_INIT: Encoding = GBK;

/// gb18030 (Encoding Standard 10.2).
///
/// The Chinese national standard, of the edition GB 18030-2022. It has GBK's characters in one byte
/// or two, and all others of Unicode in four, except that U+E5E5 is unmappable.
pub const GB18030: Encoding = Encoding {
    id: EncodingId::Gb18030,
};

/// The same as [`GB18030`].
pub const GB18030_INIT: Encoding = GB18030;

/// Big5 (Encoding Standard 11.1).
///
/// Traditional Chinese of Taiwan and Hong Kong: Big5 of code page 950, with the Hong Kong
/// characters (HKSCS). These are decoded, and those with a first byte below A1 are not written.
/// Four pairs of bytes are two characters each.
pub const BIG5: Encoding = Encoding {
    id: EncodingId::Big5,
};

/// The same as [`BIG5`].
pub const BIG5_INIT: Encoding = BIG5;

/// EUC-JP (Encoding Standard 12.1).
///
/// Japanese on Unix: ASCII, JIS X 0208 in two bytes, half-width katakana after 8E, and JIS X 0212
/// in three bytes after 8F. Those of three bytes are decoded and never written.
pub const EUC_JP: Encoding = Encoding {
    id: EncodingId::EucJp,
};

/// The same as [`EUC_JP`].
pub const EUC_JP_INIT: Encoding = EUC_JP;

/// ISO-2022-JP (Encoding Standard 12.2).
///
/// Japanese mail in bytes below 80. Escape sequences change between ASCII, JIS X 0201 Roman and JIS
/// X 0208, so it is the one encoding with an encoder that has state. Half-width katakana are
/// decoded, and written as full-width ones.
pub const ISO_2022_JP: Encoding = Encoding {
    id: EncodingId::Iso2022Jp,
};

/// The same as [`ISO_2022_JP`].
pub const ISO_2022_JP_INIT: Encoding = ISO_2022_JP;

/// Shift_JIS (Encoding Standard 12.3).
///
/// Japanese code page 932 of Windows, known as Windows-31J: JIS X 0208 with the characters of NEC
/// and IBM, and half-width katakana in one byte. 5C and 7E are ASCII, and the yen sign is written
/// as 5C. The user-defined pairs from F040 to F9FC are decoded as private use and not written.
pub const SHIFT_JIS: Encoding = Encoding {
    id: EncodingId::ShiftJis,
};

/// The same as [`SHIFT_JIS`].
pub const SHIFT_JIS_INIT: Encoding = SHIFT_JIS;

/// EUC-KR (Encoding Standard 13.1).
///
/// Korean code page 949 of Windows, the Unified Hangul Code: a superset of EUC-KR and KS X 1001
/// with all 11,172 syllables of modern Hangul.
pub const EUC_KR: Encoding = Encoding {
    id: EncodingId::EucKr,
};

/// The same as [`EUC_KR`].
pub const EUC_KR_INIT: Encoding = EUC_KR;

/// replacement (Encoding Standard 14.1).
///
/// No text: an input that is not empty is one U+FFFD, with an error. It is for labels of encodings
/// that hide markup from a check for ASCII (ISO-2022-KR, ISO-2022-CN and HZ), which are a danger to
/// pages and are not decoded. [`Encoding::for_label_no_replacement`] refuses these labels.
pub const REPLACEMENT: Encoding = Encoding {
    id: EncodingId::Replacement,
};

/// The same as [`REPLACEMENT`].
pub const REPLACEMENT_INIT: Encoding = REPLACEMENT;

/// UTF-16BE (Encoding Standard 14.3).
///
/// UTF-16 with the high byte of a code unit first. It is decoded only: text is written as UTF-8 for
/// it.
pub const UTF_16BE: Encoding = Encoding {
    id: EncodingId::Utf16be,
};

/// The same as [`UTF_16BE`].
pub const UTF_16BE_INIT: Encoding = UTF_16BE;

/// UTF-16LE (Encoding Standard 14.4).
///
/// UTF-16 with the low byte of a code unit first, as Windows has it. The labels `utf-16`, `ucs-2`
/// and `unicode` name it. It is decoded only: text is written as UTF-8 for it.
pub const UTF_16LE: Encoding = Encoding {
    id: EncodingId::Utf16le,
};

/// The same as [`UTF_16LE`].
pub const UTF_16LE_INIT: Encoding = UTF_16LE;

/// x-user-defined (Encoding Standard 14.5).
///
/// ASCII, and the bytes 80 to FF as U+F780 to U+F7FF, which are for private use. Scripts of web
/// pages read bytes as text with it, before they had arrays of bytes: the low half of a code unit
/// is the byte.
pub const X_USER_DEFINED: Encoding = Encoding {
    id: EncodingId::XUserDefined,
};

/// The same as [`X_USER_DEFINED`].
pub const X_USER_DEFINED_INIT: Encoding = X_USER_DEFINED;
