//! Byte order marks (Encoding Standard 6, "BOM sniff").

ghost use Rattle.std.specs.Prelude.{◌≡◌, ◌≤◌, length, IfSome};
ghost use Rattle.enc_stream.specs.Bom.{bom_of};

use crate::constants::{UTF_8, UTF_16BE, UTF_16LE};
use crate::encoding::Encoding;

/// The byte order marks that a decoder looks for.
#[derive(Clone, Copy, Debug)]
pub enum BomHandling {
    /// None.
    Off,
    /// All three. The byte order mark determines the encoding.
    Sniff,
    /// That of its own encoding.
    Remove,
}

impl Encoding {
    /// Returns the encoding and the length of the byte order mark at the start of `buffer`.
    ///
    /// That is "BOM sniff" of Encoding Standard 6. The length is in bytes. `None` if there is none.
    /// Only the first three bytes are read.
    ///
    /// ```rust
    /// assert!(rt; Encoding::for_bom(b"\xFE\xFF\0a") == Some((UTF_16BE, 2)));
    /// assert!(rt; Encoding::for_bom(b"\xEF\xBB\xBFa") == Some((UTF_8, 3)));
    /// assert!(rt; Encoding::for_bom(b"a") == None);
    /// ```
    pub fn for_bom(buffer: &[u8]) -> Option<(Encoding, usize)>
        ensures mark { result ≡ bom_of buffer.now }
        ensures within { IfSome result (λ found. found.1 ≤ length buffer.now) }
    {
        if buffer.starts_with(b"\xEF\xBB\xBF") {
            return Some((UTF_8, 3));
        }
        if buffer.starts_with(b"\xFE\xFF") {
            return Some((UTF_16BE, 2));
        }
        if buffer.starts_with(b"\xFF\xFE") {
            return Some((UTF_16LE, 2));
        }
        None
    }
}
