//! The lengths to allocate for the bytes of a text.

ghost use Rattle.std.specs.Prelude.{◌≡◌};
ghost use Rattle.enc_encoder.specs.Lengths.{from_utf_8_length, from_utf_16_length};

/// The formulas for the lengths to allocate for the bytes of a text, by the kind of encoding.
///
/// A formula is `None` if a step of it overflows `usize`.
#[derive(Clone, Copy)]
pub enum ByteLengths {
    /// UTF-8.
    Utf8,
    /// Encodings with one byte for each character.
    OneByte,
    /// Encodings with two bytes for most characters: Big5, EUC-KR, EUC-JP, Shift_JIS and GBK.
    TwoBytes,
    /// gb18030.
    Gb18030,
    /// ISO-2022-JP, with its escape sequences.
    Iso2022Jp,
}

impl ByteLengths {
    /// Returns the length in bytes to allocate for `units` code units of UTF-8.
    ///
    /// Up to an unmappable character.
    pub fn from_utf8(self, units: usize) -> Option<usize>
        ensures { result ≡ from_utf_8_length self units }
    {
        match self {
            ByteLengths::Utf8 | ByteLengths::OneByte | ByteLengths::TwoBytes => Some(units),
            ByteLengths::Gb18030 => units.checked_mul(2),
            ByteLengths::Iso2022Jp => units.checked_mul(4)?.checked_add(3),
        }
    }

    /// Returns the length in bytes to allocate for `units` code units of UTF-16.
    ///
    /// Up to an unmappable character.
    pub fn from_utf16(self, units: usize) -> Option<usize>
        ensures { result ≡ from_utf_16_length self units }
    {
        match self {
            ByteLengths::Utf8 => units.checked_mul(3),
            ByteLengths::OneByte => Some(units),
            ByteLengths::TwoBytes => units.checked_mul(2),
            ByteLengths::Gb18030 => units.checked_mul(4),
            ByteLengths::Iso2022Jp => units.checked_mul(5)?.checked_add(3),
        }
    }
}
