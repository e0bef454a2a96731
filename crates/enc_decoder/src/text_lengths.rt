//! The lengths to allocate for a text.

ghost use Rattle.std.specs.Prelude.{◌≡◌, Some};
ghost use Rattle.enc_utf8.specs.Checked.{checked_add, checked_half};
ghost use Rattle.enc_decoder.specs.Lengths.{utf_8_length, reporting_length, utf_16_length};

/// The formulas for the lengths to allocate for a text, by the kind of codec.
///
/// A formula is `None` if a step of it overflows `usize`.
#[derive(Clone, Copy)]
pub enum TextLengths {
    /// UTF-8.
    Utf8,
    /// UTF-16, of either byte order.
    Utf16,
    /// Encodings in which each byte stands alone.
    OneByte,
    /// The replacement encoding.
    Replacement,
    /// All other encodings.
    MultiByte,
}

/// Returns the number of code units of UTF-16 in these bytes, rounded up.
fn code_units(bytes: usize, held: usize) -> Option<usize>
    ensures { result ≡ checked_half (checked_add (checked_add (Some bytes) held) 1) }
{
    Some(bytes.checked_add(held)?.checked_add(1)? / 2)
}

impl TextLengths {
    /// Returns the length in bytes to allocate for UTF-8 from `bytes` more bytes, with replacement.
    ///
    /// `held` bytes are pending.
    pub fn utf8(self, bytes: usize, held: usize) -> Option<usize>
        ensures { result ≡ utf_8_length self bytes held }
    {
        match self {
            TextLengths::Utf8 => bytes.checked_add(held)?.checked_mul(3)?.checked_add(3),
            TextLengths::Utf16 => code_units(bytes, held)?.checked_mul(3)?.checked_add(1),
            TextLengths::OneByte => bytes.checked_mul(3),
            TextLengths::Replacement => Some(3),
            TextLengths::MultiByte => bytes.checked_add(held)?.checked_mul(3),
        }
    }

    /// Returns the same without replacement.
    pub fn utf8_without_replacement(self, bytes: usize, held: usize) -> Option<usize>
        ensures { result ≡ reporting_length self bytes held }
    {
        match self {
            TextLengths::Utf8 => bytes.checked_add(held)?.checked_add(3),
            _ => self.utf8(bytes, held),
        }
    }

    /// Returns the length in code units to allocate for UTF-16 from `bytes` more bytes.
    ///
    /// `held` bytes are pending.
    pub fn utf16(self, bytes: usize, held: usize) -> Option<usize>
        ensures { result ≡ utf_16_length self bytes held }
    {
        match self {
            TextLengths::Utf8 => bytes.checked_add(held)?.checked_add(1),
            TextLengths::Utf16 => code_units(bytes, held)?.checked_add(1),
            TextLengths::OneByte => Some(bytes),
            TextLengths::Replacement => Some(1),
            TextLengths::MultiByte => bytes.checked_add(held),
        }
    }
}
