//! The character sets that an encoder can designate.

/// A character set that an escape sequence of ISO-2022-JP designates (Encoding Standard 12.2.2).
///
/// All other encodings have ASCII only.
#[derive(Clone, Copy, PartialEq, Eq, Debug)]
pub enum CharacterSet {
    /// ASCII.
    Ascii,
    /// JIS X 0201 Roman, which has U+00A5 and U+203E in place of U+005C and U+007E.
    Roman,
    /// JIS X 0208.
    Jis0208,
}
