//! Validity of bytes, as functions of [`Encoding`].

ghost use Rattle.enc_utf8.specs.Validity.{IsLongestPrefix, IsWellFormedUtf8, AreAscii, AreIso2022JpAscii};

use crate::encoding::Encoding;

impl Encoding {
    /// Returns the length in bytes of the longest prefix that is well-formed UTF-8.
    ///
    /// Well-formed is as in Unicode Standard 3.9, D92 and table 3-7.
    ///
    /// ```rust
    /// assert!(rt; Encoding::utf8_valid_up_to(b"caf\xC3\xA9\xFF") == 5);
    /// ```
    pub fn utf8_valid_up_to(bytes: &[u8]) -> usize
        ensures { IsLongestPrefix IsWellFormedUtf8 bytes.now result }
    {
        enc_utf8::utf8_valid_up_to(bytes)
    }

    /// Returns the length in bytes of the longest prefix that is ASCII: bytes below 0x80.
    ///
    /// ```rust
    /// assert!(rt; Encoding::ascii_valid_up_to(b"caf\xC3\xA9\xFF") == 3);
    /// ```
    pub fn ascii_valid_up_to(bytes: &[u8]) -> usize
        ensures { IsLongestPrefix AreAscii bytes.now result }
    {
        enc_utf8::ascii_valid_up_to(bytes)
    }

    /// Returns the length in bytes of the longest prefix that stands for itself in ISO-2022-JP.
    ///
    /// At its start ISO-2022-JP has ASCII designated (Encoding Standard 12.2.1). The bytes below
    /// 0x80 stand for themselves then, except 0x0E, 0x0F and 0x1B.
    ///
    /// ```rust
    /// assert!(rt; Encoding::iso_2022_jp_ascii_valid_up_to(b"ab\x1B$B") == 2);
    /// ```
    pub fn iso_2022_jp_ascii_valid_up_to(bytes: &[u8]) -> usize
        ensures { IsLongestPrefix AreIso2022JpAscii bytes.now result }
    {
        enc_utf8::iso_2022_jp_ascii_valid_up_to(bytes)
    }
}
