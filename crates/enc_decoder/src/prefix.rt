//! The kinds of prefixes.

use crate::byte_codec::Text;

/// The kind of the first bytes of an input.
#[derive(Clone, Copy)]
pub enum Prefix {
    /// A valid sequence, with its text.
    Complete(Text),
    /// Malformed: this many of them from the first on.
    Malformed(u8),
    /// Neither: the next byte is needed.
    Incomplete,
}
