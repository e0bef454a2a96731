//! The indexes of the legacy single-byte encodings by name (Encoding Standard 9, "index
//! single-byte").
//!
//! Written by scripts/make-sources from data/templates: change the text there, and not this file.

ghost use Rattle.std.specs.Prelude.{◌≡◌, ◌<◌};
ghost use Rattle.enc_index.specs.Runs.{single_byte_runs};
ghost use Rattle.enc_index.specs.SingleByteTables.{table_number, letters_of};

use crate::data::single_byte;

/// The index of a legacy single-byte encoding, by its name.
///
/// A pointer is a byte less 0x80. ISO-8859-8-I has the index of ISO-8859-8.
#[derive(Clone, Copy)]
pub enum SingleByteIndex {
    /// Of IBM866.
    Ibm866,
    /// Of ISO-8859-2.
    Iso88592,
    /// Of ISO-8859-3.
    Iso88593,
    /// Of ISO-8859-4.
    Iso88594,
    /// Of ISO-8859-5.
    Iso88595,
    /// Of ISO-8859-6.
    Iso88596,
    /// Of ISO-8859-7.
    Iso88597,
    /// Of ISO-8859-8.
    Iso88598,
    /// Of ISO-8859-10.
    Iso885910,
    /// Of ISO-8859-13.
    Iso885913,
    /// Of ISO-8859-14.
    Iso885914,
    /// Of ISO-8859-15.
    Iso885915,
    /// Of ISO-8859-16.
    Iso885916,
    /// Of KOI8-R.
    Koi8R,
    /// Of KOI8-U.
    Koi8U,
    /// Of macintosh.
    Macintosh,
    /// Of windows-874.
    Windows874,
    /// Of windows-1250.
    Windows1250,
    /// Of windows-1251.
    Windows1251,
    /// Of windows-1252.
    Windows1252,
    /// Of windows-1253.
    Windows1253,
    /// Of windows-1254.
    Windows1254,
    /// Of windows-1255.
    Windows1255,
    /// Of windows-1256.
    Windows1256,
    /// Of windows-1257.
    Windows1257,
    /// Of windows-1258.
    Windows1258,
    /// Of x-mac-cyrillic.
    XMacCyrillic,
}

impl SingleByteIndex {
    /// Returns its runs, in the order of their pointers.
    pub fn runs(self) -> &'static [(u32, u32, u32)]
        ensures { result.now ≡ single_byte_runs self }
    {
        match self {
            SingleByteIndex::Ibm866 => single_byte::IBM866_RUNS,
            SingleByteIndex::Iso88592 => single_byte::ISO_8859_2_RUNS,
            SingleByteIndex::Iso88593 => single_byte::ISO_8859_3_RUNS,
            SingleByteIndex::Iso88594 => single_byte::ISO_8859_4_RUNS,
            SingleByteIndex::Iso88595 => single_byte::ISO_8859_5_RUNS,
            SingleByteIndex::Iso88596 => single_byte::ISO_8859_6_RUNS,
            SingleByteIndex::Iso88597 => single_byte::ISO_8859_7_RUNS,
            SingleByteIndex::Iso88598 => single_byte::ISO_8859_8_RUNS,
            SingleByteIndex::Iso885910 => single_byte::ISO_8859_10_RUNS,
            SingleByteIndex::Iso885913 => single_byte::ISO_8859_13_RUNS,
            SingleByteIndex::Iso885914 => single_byte::ISO_8859_14_RUNS,
            SingleByteIndex::Iso885915 => single_byte::ISO_8859_15_RUNS,
            SingleByteIndex::Iso885916 => single_byte::ISO_8859_16_RUNS,
            SingleByteIndex::Koi8R => single_byte::KOI8_R_RUNS,
            SingleByteIndex::Koi8U => single_byte::KOI8_U_RUNS,
            SingleByteIndex::Macintosh => single_byte::MACINTOSH_RUNS,
            SingleByteIndex::Windows874 => single_byte::WINDOWS_874_RUNS,
            SingleByteIndex::Windows1250 => single_byte::WINDOWS_1250_RUNS,
            SingleByteIndex::Windows1251 => single_byte::WINDOWS_1251_RUNS,
            SingleByteIndex::Windows1252 => single_byte::WINDOWS_1252_RUNS,
            SingleByteIndex::Windows1253 => single_byte::WINDOWS_1253_RUNS,
            SingleByteIndex::Windows1254 => single_byte::WINDOWS_1254_RUNS,
            SingleByteIndex::Windows1255 => single_byte::WINDOWS_1255_RUNS,
            SingleByteIndex::Windows1256 => single_byte::WINDOWS_1256_RUNS,
            SingleByteIndex::Windows1257 => single_byte::WINDOWS_1257_RUNS,
            SingleByteIndex::Windows1258 => single_byte::WINDOWS_1258_RUNS,
            SingleByteIndex::XMacCyrillic => single_byte::X_MAC_CYRILLIC_RUNS,
        }
    }

    /// Returns its number, from 0 to 26, in the order above: its place among the tables of all.
    #[inline(always)]
    pub fn number(self) -> usize
        ensures which { result ≡ table_number self }
        ensures within { result < 27 }
    {
        match self {
            SingleByteIndex::Ibm866 => 0,
            SingleByteIndex::Iso88592 => 1,
            SingleByteIndex::Iso88593 => 2,
            SingleByteIndex::Iso88594 => 3,
            SingleByteIndex::Iso88595 => 4,
            SingleByteIndex::Iso88596 => 5,
            SingleByteIndex::Iso88597 => 6,
            SingleByteIndex::Iso88598 => 7,
            SingleByteIndex::Iso885910 => 8,
            SingleByteIndex::Iso885913 => 9,
            SingleByteIndex::Iso885914 => 10,
            SingleByteIndex::Iso885915 => 11,
            SingleByteIndex::Iso885916 => 12,
            SingleByteIndex::Koi8R => 13,
            SingleByteIndex::Koi8U => 14,
            SingleByteIndex::Macintosh => 15,
            SingleByteIndex::Windows874 => 16,
            SingleByteIndex::Windows1250 => 17,
            SingleByteIndex::Windows1251 => 18,
            SingleByteIndex::Windows1252 => 19,
            SingleByteIndex::Windows1253 => 20,
            SingleByteIndex::Windows1254 => 21,
            SingleByteIndex::Windows1255 => 22,
            SingleByteIndex::Windows1256 => 23,
            SingleByteIndex::Windows1257 => 24,
            SingleByteIndex::Windows1258 => 25,
            SingleByteIndex::XMacCyrillic => 26,
        }
    }

    /// Returns the first and the last of letters whose code points follow one by one, and how much
    /// greater than a byte its code point is.
    #[inline(always)]
    pub(crate) fn listed_letters(self) -> (u8, u8, u16)
        ensures { result ≡ letters_of self }
    {
        match self {
            SingleByteIndex::Ibm866 => (0x80, 0xAF, 0x390),
            SingleByteIndex::Iso88592 => (0xFF, 0x0, 0x0),
            SingleByteIndex::Iso88593 => (0xFF, 0x0, 0x0),
            SingleByteIndex::Iso88594 => (0xFF, 0x0, 0x0),
            SingleByteIndex::Iso88595 => (0xAE, 0xEF, 0x360),
            SingleByteIndex::Iso88596 => (0xC1, 0xDA, 0x560),
            SingleByteIndex::Iso88597 => (0xD3, 0xFE, 0x2D0),
            SingleByteIndex::Iso88598 => (0xE0, 0xFA, 0x4F0),
            SingleByteIndex::Iso885910 => (0xFF, 0x0, 0x0),
            SingleByteIndex::Iso885913 => (0xFF, 0x0, 0x0),
            SingleByteIndex::Iso885914 => (0xDF, 0xEF, 0x0),
            SingleByteIndex::Iso885915 => (0xBF, 0xFF, 0x0),
            SingleByteIndex::Iso885916 => (0xFF, 0x0, 0x0),
            SingleByteIndex::Koi8R => (0xFF, 0x0, 0x0),
            SingleByteIndex::Koi8U => (0xFF, 0x0, 0x0),
            SingleByteIndex::Macintosh => (0xFF, 0x0, 0x0),
            SingleByteIndex::Windows874 => (0xA1, 0xDA, 0xD60),
            SingleByteIndex::Windows1250 => (0xFF, 0x0, 0x0),
            SingleByteIndex::Windows1251 => (0xC0, 0xFF, 0x350),
            SingleByteIndex::Windows1252 => (0xA0, 0xFF, 0x0),
            SingleByteIndex::Windows1253 => (0xD3, 0xFE, 0x2D0),
            SingleByteIndex::Windows1254 => (0xDF, 0xEF, 0x0),
            SingleByteIndex::Windows1255 => (0xE0, 0xFA, 0x4F0),
            SingleByteIndex::Windows1256 => (0xC1, 0xD6, 0x560),
            SingleByteIndex::Windows1257 => (0xFF, 0x0, 0x0),
            SingleByteIndex::Windows1258 => (0xFF, 0x0, 0x0),
            SingleByteIndex::XMacCyrillic => (0xE0, 0xFE, 0x350),
        }
    }
}
