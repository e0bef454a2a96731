//! The table of encodings: their names, codecs and properties, and the encodings of labels.
//!
//! Written by scripts/make-sources from data/templates: change the text there, and not this file.

ghost use Rattle.std.specs.Prelude.{◌≡◌, ◌<◌, Some};
ghost use Rattle.enc_names.specs.EncodingTable.{codec_by_id, name_by_id, output_by_id};
ghost use Rattle.enc_names.specs.EncodingTable.{ids, id_of_number};
ghost use Rattle.enc_names.specs.EncodingTable.{ascii_compatible_by_id, single_byte_by_id};

use crate::encoding_id::EncodingId;
use enc_index::{Codec, SingleByteIndex};

impl EncodingId {
    /// Returns its codec.
    pub fn codec(self) -> Codec
        ensures { result ≡ codec_by_id self }
    {
        match self {
            Self::Utf8 => Codec::Utf8,
            Self::Ibm866 => Codec::SingleByte(SingleByteIndex::Ibm866),
            Self::Iso88592 => Codec::SingleByte(SingleByteIndex::Iso88592),
            Self::Iso88593 => Codec::SingleByte(SingleByteIndex::Iso88593),
            Self::Iso88594 => Codec::SingleByte(SingleByteIndex::Iso88594),
            Self::Iso88595 => Codec::SingleByte(SingleByteIndex::Iso88595),
            Self::Iso88596 => Codec::SingleByte(SingleByteIndex::Iso88596),
            Self::Iso88597 => Codec::SingleByte(SingleByteIndex::Iso88597),
            Self::Iso88598 => Codec::SingleByte(SingleByteIndex::Iso88598),
            Self::Iso88598I => Codec::SingleByte(SingleByteIndex::Iso88598),
            Self::Iso885910 => Codec::SingleByte(SingleByteIndex::Iso885910),
            Self::Iso885913 => Codec::SingleByte(SingleByteIndex::Iso885913),
            Self::Iso885914 => Codec::SingleByte(SingleByteIndex::Iso885914),
            Self::Iso885915 => Codec::SingleByte(SingleByteIndex::Iso885915),
            Self::Iso885916 => Codec::SingleByte(SingleByteIndex::Iso885916),
            Self::Koi8R => Codec::SingleByte(SingleByteIndex::Koi8R),
            Self::Koi8U => Codec::SingleByte(SingleByteIndex::Koi8U),
            Self::Macintosh => Codec::SingleByte(SingleByteIndex::Macintosh),
            Self::Windows874 => Codec::SingleByte(SingleByteIndex::Windows874),
            Self::Windows1250 => Codec::SingleByte(SingleByteIndex::Windows1250),
            Self::Windows1251 => Codec::SingleByte(SingleByteIndex::Windows1251),
            Self::Windows1252 => Codec::SingleByte(SingleByteIndex::Windows1252),
            Self::Windows1253 => Codec::SingleByte(SingleByteIndex::Windows1253),
            Self::Windows1254 => Codec::SingleByte(SingleByteIndex::Windows1254),
            Self::Windows1255 => Codec::SingleByte(SingleByteIndex::Windows1255),
            Self::Windows1256 => Codec::SingleByte(SingleByteIndex::Windows1256),
            Self::Windows1257 => Codec::SingleByte(SingleByteIndex::Windows1257),
            Self::Windows1258 => Codec::SingleByte(SingleByteIndex::Windows1258),
            Self::XMacCyrillic => Codec::SingleByte(SingleByteIndex::XMacCyrillic),
            Self::Gbk => Codec::Gbk,
            Self::Gb18030 => Codec::Gb18030,
            Self::Big5 => Codec::Big5,
            Self::EucJp => Codec::EucJp,
            Self::Iso2022Jp => Codec::Iso2022Jp,
            Self::ShiftJis => Codec::ShiftJis,
            Self::EucKr => Codec::EucKr,
            Self::Replacement => Codec::Replacement,
            Self::Utf16be => Codec::Utf16Be,
            Self::Utf16le => Codec::Utf16Le,
            Self::XUserDefined => Codec::XUserDefined,
        }
    }

    /// Returns its name.
    pub fn name(self) -> &'static str
        ensures { result.now ≡ name_by_id self }
    {
        match self {
            Self::Utf8 => "UTF-8",
            Self::Ibm866 => "IBM866",
            Self::Iso88592 => "ISO-8859-2",
            Self::Iso88593 => "ISO-8859-3",
            Self::Iso88594 => "ISO-8859-4",
            Self::Iso88595 => "ISO-8859-5",
            Self::Iso88596 => "ISO-8859-6",
            Self::Iso88597 => "ISO-8859-7",
            Self::Iso88598 => "ISO-8859-8",
            Self::Iso88598I => "ISO-8859-8-I",
            Self::Iso885910 => "ISO-8859-10",
            Self::Iso885913 => "ISO-8859-13",
            Self::Iso885914 => "ISO-8859-14",
            Self::Iso885915 => "ISO-8859-15",
            Self::Iso885916 => "ISO-8859-16",
            Self::Koi8R => "KOI8-R",
            Self::Koi8U => "KOI8-U",
            Self::Macintosh => "macintosh",
            Self::Windows874 => "windows-874",
            Self::Windows1250 => "windows-1250",
            Self::Windows1251 => "windows-1251",
            Self::Windows1252 => "windows-1252",
            Self::Windows1253 => "windows-1253",
            Self::Windows1254 => "windows-1254",
            Self::Windows1255 => "windows-1255",
            Self::Windows1256 => "windows-1256",
            Self::Windows1257 => "windows-1257",
            Self::Windows1258 => "windows-1258",
            Self::XMacCyrillic => "x-mac-cyrillic",
            Self::Gbk => "GBK",
            Self::Gb18030 => "gb18030",
            Self::Big5 => "Big5",
            Self::EucJp => "EUC-JP",
            Self::Iso2022Jp => "ISO-2022-JP",
            Self::ShiftJis => "Shift_JIS",
            Self::EucKr => "EUC-KR",
            Self::Replacement => "replacement",
            Self::Utf16be => "UTF-16BE",
            Self::Utf16le => "UTF-16LE",
            Self::XUserDefined => "x-user-defined",
        }
    }

    /// Returns its output encoding.
    pub fn output(self) -> EncodingId
        ensures { result ≡ output_by_id self }
    {
        match self {
            Self::Replacement | Self::Utf16be | Self::Utf16le => Self::Utf8,
            _ => self,
        }
    }

    /// Returns whether it is ASCII-compatible.
    pub fn is_ascii_compatible(self) -> bool
        ensures { result ≡ ascii_compatible_by_id self }
    {
        match self {
            Self::Iso2022Jp | Self::Replacement | Self::Utf16be | Self::Utf16le => false,
            _ => true,
        }
    }

    /// Returns whether it is single-byte.
    pub fn is_single_byte(self) -> bool
        ensures { result ≡ single_byte_by_id self }
    {
        match self {
            Self::Utf8
            | Self::Gbk
            | Self::Gb18030
            | Self::Big5
            | Self::EucJp
            | Self::Iso2022Jp
            | Self::ShiftJis
            | Self::EucKr
            | Self::Replacement
            | Self::Utf16be
            | Self::Utf16le => false,
            _ => true,
        }
    }
}

/// The encodings in the standard's order.
const IDS: [EncodingId; 40] = [
    EncodingId::Utf8,
    EncodingId::Ibm866,
    EncodingId::Iso88592,
    EncodingId::Iso88593,
    EncodingId::Iso88594,
    EncodingId::Iso88595,
    EncodingId::Iso88596,
    EncodingId::Iso88597,
    EncodingId::Iso88598,
    EncodingId::Iso88598I,
    EncodingId::Iso885910,
    EncodingId::Iso885913,
    EncodingId::Iso885914,
    EncodingId::Iso885915,
    EncodingId::Iso885916,
    EncodingId::Koi8R,
    EncodingId::Koi8U,
    EncodingId::Macintosh,
    EncodingId::Windows874,
    EncodingId::Windows1250,
    EncodingId::Windows1251,
    EncodingId::Windows1252,
    EncodingId::Windows1253,
    EncodingId::Windows1254,
    EncodingId::Windows1255,
    EncodingId::Windows1256,
    EncodingId::Windows1257,
    EncodingId::Windows1258,
    EncodingId::XMacCyrillic,
    EncodingId::Gbk,
    EncodingId::Gb18030,
    EncodingId::Big5,
    EncodingId::EucJp,
    EncodingId::Iso2022Jp,
    EncodingId::ShiftJis,
    EncodingId::EucKr,
    EncodingId::Replacement,
    EncodingId::Utf16be,
    EncodingId::Utf16le,
    EncodingId::XUserDefined,
];

/// Returns the encodings in the standard's order.
fn ids() -> &'static [EncodingId]
    ensures { result.now ≡ ids }
{
    &IDS
}

impl EncodingId {
    /// Returns its number: its place in the standard's order, from 0.
    pub fn number(self) -> u32
        ensures number { id_of_number result ≡ Some self }
        ensures below { result < 40 }
    {
        match self {
            Self::Utf8 => 0,
            Self::Ibm866 => 1,
            Self::Iso88592 => 2,
            Self::Iso88593 => 3,
            Self::Iso88594 => 4,
            Self::Iso88595 => 5,
            Self::Iso88596 => 6,
            Self::Iso88597 => 7,
            Self::Iso88598 => 8,
            Self::Iso88598I => 9,
            Self::Iso885910 => 10,
            Self::Iso885913 => 11,
            Self::Iso885914 => 12,
            Self::Iso885915 => 13,
            Self::Iso885916 => 14,
            Self::Koi8R => 15,
            Self::Koi8U => 16,
            Self::Macintosh => 17,
            Self::Windows874 => 18,
            Self::Windows1250 => 19,
            Self::Windows1251 => 20,
            Self::Windows1252 => 21,
            Self::Windows1253 => 22,
            Self::Windows1254 => 23,
            Self::Windows1255 => 24,
            Self::Windows1256 => 25,
            Self::Windows1257 => 26,
            Self::Windows1258 => 27,
            Self::XMacCyrillic => 28,
            Self::Gbk => 29,
            Self::Gb18030 => 30,
            Self::Big5 => 31,
            Self::EucJp => 32,
            Self::Iso2022Jp => 33,
            Self::ShiftJis => 34,
            Self::EucKr => 35,
            Self::Replacement => 36,
            Self::Utf16be => 37,
            Self::Utf16le => 38,
            Self::XUserDefined => 39,
        }
    }

    /// Returns the encoding with a number, if there is one.
    pub fn from_number(number: u32) -> Option<EncodingId>
        ensures { result ≡ id_of_number number }
    {
        let (ids, place) = (ids(), number as usize);
        if place < ids.len() {
            Some(ids[place])
        } else {
            None
        }
    }
}

/// The encoding of each label, in the order of the search.
pub(crate) const ENCODINGS: [EncodingId; 228] = [
    EncodingId::Windows1252, // l1
    EncodingId::Iso88592, // l2
    EncodingId::Iso88593, // l3
    EncodingId::Iso88594, // l4
    EncodingId::Windows1254, // l5
    EncodingId::Iso885910, // l6
    EncodingId::Iso885915, // l9
    EncodingId::Ibm866, // 866
    EncodingId::Macintosh, // mac
    EncodingId::Koi8R, // koi
    EncodingId::Gbk, // gbk
    EncodingId::Big5, // big5
    EncodingId::Utf8, // utf8
    EncodingId::Koi8R, // koi8
    EncodingId::ShiftJis, // sjis
    EncodingId::Utf16le, // ucs-2
    EncodingId::ShiftJis, // ms932
    EncodingId::Ibm866, // cp866
    EncodingId::Utf8, // utf-8
    EncodingId::Windows1252, // cp819
    EncodingId::Windows1252, // ascii
    EncodingId::Gbk, // x-gbk
    EncodingId::Iso88597, // greek
    EncodingId::Windows1250, // cp1250
    EncodingId::Windows1251, // cp1251
    EncodingId::Windows1252, // latin1
    EncodingId::Gbk, // gb2312
    EncodingId::Windows1252, // cp1252
    EncodingId::Iso88592, // latin2
    EncodingId::Windows1253, // cp1253
    EncodingId::Iso88593, // latin3
    EncodingId::Windows1254, // cp1254
    EncodingId::Iso88594, // latin4
    EncodingId::Windows1255, // cp1255
    EncodingId::Big5, // csbig5
    EncodingId::Windows1254, // latin5
    EncodingId::Utf16le, // utf-16
    EncodingId::Windows1256, // cp1256
    EncodingId::Ibm866, // ibm866
    EncodingId::Iso885910, // latin6
    EncodingId::Windows1257, // cp1257
    EncodingId::Windows1258, // cp1258
    EncodingId::Iso88597, // greek8
    EncodingId::Windows1252, // ibm819
    EncodingId::Iso88596, // arabic
    EncodingId::Iso88598, // visual
    EncodingId::EucKr, // korean
    EncodingId::EucJp, // euc-jp
    EncodingId::Koi8R, // koi8-r
    EncodingId::Koi8R, // koi8_r
    EncodingId::EucKr, // euc-kr
    EncodingId::ShiftJis, // x-sjis
    EncodingId::Koi8U, // koi8-u
    EncodingId::Iso88598, // hebrew
    EncodingId::Windows874, // tis-620
    EncodingId::Gb18030, // gb18030
    EncodingId::EucKr, // ksc5601
    EncodingId::Gbk, // gb_2312
    EncodingId::Windows874, // dos-874
    EncodingId::Big5, // cn-big5
    EncodingId::Utf16le, // unicode
    EncodingId::Gbk, // chinese
    EncodingId::Iso88598I, // logical
    EncodingId::Koi8R, // cskoi8r
    EncodingId::EucKr, // cseuckr
    EncodingId::Koi8U, // koi8-ru
    EncodingId::Windows1250, // x-cp1250
    EncodingId::EucKr, // ksc_5601
    EncodingId::Windows1251, // x-cp1251
    EncodingId::Windows1252, // iso88591
    EncodingId::Gbk, // csgb2312
    EncodingId::Windows1252, // x-cp1252
    EncodingId::Iso88592, // iso88592
    EncodingId::Windows1253, // x-cp1253
    EncodingId::Iso88593, // iso88593
    EncodingId::Iso88596, // ecma-114
    EncodingId::Windows1254, // x-cp1254
    EncodingId::Iso88594, // iso88594
    EncodingId::Windows1255, // x-cp1255
    EncodingId::Iso88595, // iso88595
    EncodingId::Big5, // x-x-big5
    EncodingId::Windows1256, // x-cp1256
    EncodingId::Ibm866, // csibm866
    EncodingId::Iso88596, // iso88596
    EncodingId::Windows1257, // x-cp1257
    EncodingId::Iso88597, // iso88597
    EncodingId::Iso88596, // asmo-708
    EncodingId::Iso88597, // ecma-118
    EncodingId::Iso88597, // elot_928
    EncodingId::Windows1258, // x-cp1258
    EncodingId::Iso88598, // iso88598
    EncodingId::Windows1254, // iso88599
    EncodingId::Iso88595, // cyrillic
    EncodingId::Utf16be, // utf-16be
    EncodingId::Utf16le, // utf-16le
    EncodingId::Windows1252, // us-ascii
    EncodingId::ShiftJis, // ms_kanji
    EncodingId::EucJp, // x-euc-jp
    EncodingId::Iso885910, // iso885910
    EncodingId::Windows1252, // iso8859-1
    EncodingId::Windows874, // iso885911
    EncodingId::Iso88592, // iso8859-2
    EncodingId::Iso88593, // iso8859-3
    EncodingId::Iso885913, // iso885913
    EncodingId::Iso88594, // iso8859-4
    EncodingId::Iso885914, // iso885914
    EncodingId::Iso88595, // iso8859-5
    EncodingId::Iso885915, // iso885915
    EncodingId::Iso88596, // iso8859-6
    EncodingId::Iso88597, // iso8859-7
    EncodingId::Iso88598, // iso8859-8
    EncodingId::Gbk, // iso-ir-58
    EncodingId::Windows1254, // iso8859-9
    EncodingId::Utf16le, // csunicode
    EncodingId::Macintosh, // macintosh
    EncodingId::ShiftJis, // shift-jis
    EncodingId::ShiftJis, // shift_jis
    EncodingId::Windows1252, // iso-ir-100
    EncodingId::Iso885910, // iso8859-10
    EncodingId::Iso88594, // iso-ir-110
    EncodingId::Gbk, // gb_2312-80
    EncodingId::Windows1252, // iso-8859-1
    EncodingId::Windows1252, // iso_8859-1
    EncodingId::Iso88592, // iso-ir-101
    EncodingId::Windows874, // iso8859-11
    EncodingId::Iso88592, // iso-8859-2
    EncodingId::Iso88592, // iso_8859-2
    EncodingId::Replacement, // hz-gb-2312
    EncodingId::Iso88593, // iso-8859-3
    EncodingId::Iso88593, // iso_8859-3
    EncodingId::Iso885913, // iso8859-13
    EncodingId::Iso88594, // iso-8859-4
    EncodingId::Iso88594, // iso_8859-4
    EncodingId::Iso885914, // iso8859-14
    EncodingId::Iso88595, // iso-ir-144
    EncodingId::Iso88595, // iso-8859-5
    EncodingId::Iso88595, // iso_8859-5
    EncodingId::Iso885915, // iso8859-15
    EncodingId::Iso88596, // iso-8859-6
    EncodingId::Iso88596, // iso_8859-6
    EncodingId::Iso88597, // iso-ir-126
    EncodingId::Iso88597, // iso-8859-7
    EncodingId::Iso88597, // iso_8859-7
    EncodingId::Iso88596, // iso-ir-127
    EncodingId::Iso885910, // iso-ir-157
    EncodingId::Iso88598, // iso-8859-8
    EncodingId::Iso88598, // iso_8859-8
    EncodingId::Iso88598, // iso-ir-138
    EncodingId::Windows1254, // iso-ir-148
    EncodingId::Windows1254, // iso-8859-9
    EncodingId::Windows1254, // iso_8859-9
    EncodingId::Iso88593, // iso-ir-109
    EncodingId::EucKr, // iso-ir-149
    EncodingId::Big5, // big5-hkscs
    EncodingId::ShiftJis, // csshiftjis
    EncodingId::Iso885910, // iso-8859-10
    EncodingId::Windows874, // iso-8859-11
    EncodingId::Windows1252, // csisolatin1
    EncodingId::Iso88592, // csisolatin2
    EncodingId::Iso885913, // iso-8859-13
    EncodingId::Iso88593, // csisolatin3
    EncodingId::Iso885914, // iso-8859-14
    EncodingId::Windows874, // windows-874
    EncodingId::Iso88594, // csisolatin4
    EncodingId::Iso885915, // iso-8859-15
    EncodingId::Iso885915, // iso_8859-15
    EncodingId::Windows1254, // csisolatin5
    EncodingId::Iso885916, // iso-8859-16
    EncodingId::Iso885910, // csisolatin6
    EncodingId::EucKr, // windows-949
    EncodingId::Iso885915, // csisolatin9
    EncodingId::Iso88596, // csiso88596e
    EncodingId::Iso88598, // csiso88598e
    EncodingId::Utf16be, // unicodefffe
    EncodingId::Utf16le, // unicodefeff
    EncodingId::Macintosh, // csmacintosh
    EncodingId::Iso88596, // csiso88596i
    EncodingId::Iso88598I, // csiso88598i
    EncodingId::ShiftJis, // windows-31j
    EncodingId::Macintosh, // x-mac-roman
    EncodingId::Replacement, // iso-2022-cn
    EncodingId::Iso2022Jp, // iso-2022-jp
    EncodingId::Iso2022Jp, // csiso2022jp
    EncodingId::Replacement, // iso-2022-kr
    EncodingId::Replacement, // csiso2022kr
    EncodingId::Replacement, // replacement
    EncodingId::Windows1250, // windows-1250
    EncodingId::Windows1251, // windows-1251
    EncodingId::Windows1252, // windows-1252
    EncodingId::Windows1253, // windows-1253
    EncodingId::Windows1254, // windows-1254
    EncodingId::Windows1255, // windows-1255
    EncodingId::Windows1256, // windows-1256
    EncodingId::Windows1257, // windows-1257
    EncodingId::Windows1258, // windows-1258
    EncodingId::Iso88596, // iso-8859-6-e
    EncodingId::Iso88598, // iso-8859-8-e
    EncodingId::Iso88596, // iso-8859-6-i
    EncodingId::Iso88598I, // iso-8859-8-i
    EncodingId::Iso88597, // sun_eu_greek
    EncodingId::EucKr, // csksc56011987
    EncodingId::Utf8, // unicode20utf8
    EncodingId::Utf8, // unicode11utf8
    EncodingId::EucKr, // ks_c_5601-1987
    EncodingId::Windows1252, // ansi_x3.4-1968
    EncodingId::EucKr, // ks_c_5601-1989
    EncodingId::XMacCyrillic, // x-mac-cyrillic
    EncodingId::XUserDefined, // x-user-defined
    EncodingId::Gbk, // csiso58gb231280
    EncodingId::Utf16le, // iso-10646-ucs-2
    EncodingId::Windows1252, // iso_8859-1:1987
    EncodingId::Iso88592, // iso_8859-2:1987
    EncodingId::Iso88596, // iso_8859-6:1987
    EncodingId::Iso88597, // iso_8859-7:1987
    EncodingId::Iso88593, // iso_8859-3:1988
    EncodingId::Iso88594, // iso_8859-4:1988
    EncodingId::Iso88595, // iso_8859-5:1988
    EncodingId::Iso88598, // iso_8859-8:1988
    EncodingId::Utf8, // x-unicode20utf8
    EncodingId::Windows1254, // iso_8859-9:1989
    EncodingId::Iso88597, // csisolatingreek
    EncodingId::XMacCyrillic, // x-mac-ukrainian
    EncodingId::Replacement, // iso-2022-cn-ext
    EncodingId::Iso88596, // csisolatinarabic
    EncodingId::Iso88598, // csisolatinhebrew
    EncodingId::Utf8, // unicode-1-1-utf-8
    EncodingId::Iso88595, // csisolatincyrillic
    EncodingId::EucJp, // cseucpkdfmtjapanese
];
