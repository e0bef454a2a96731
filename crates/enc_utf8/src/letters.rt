//! Letters: bytes beyond ASCII whose characters follow one by one.

/// Bytes from 0x80 on that are letters, from the first to the last: their characters, of one code
/// unit of UTF-16 each, follow one by one.
#[derive(Clone, Copy)]
pub struct Letters {
    /// The first. There is none if it is greater than the last.
    pub first: u8,
    /// The last.
    pub last: u8,
    /// How much greater than a byte its code unit is.
    pub shift: u16,
}
