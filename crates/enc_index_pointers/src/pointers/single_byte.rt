//! The pointers of characters in the single-byte indexes (Encoding Standard 5, "index pointer").

ghost use Rattle.std.specs.Prelude.{◌≡◌, ◌<◌, IfSome};
ghost use Rattle.enc_index_pointers.specs.Pointers.{single_byte_pointer};

use crate::look_up::pointer_in_bytes;
use crate::pages::single_byte::{SINGLE_BYTE_PAGE_OF, SINGLE_BYTE_POINTERS};
use enc_index::SingleByteIndex;

/// Returns the index pointer in the index of a legacy single-byte encoding.
///
/// It is the first, which is a byte less 0x80. `None` if there is none. Two loads.
#[inline(always)]
pub fn single_byte(index: SingleByteIndex, c: char) -> Option<u32>
    ensures value { result ≡ single_byte_pointer index c }
    ensures bound { IfSome result (λ p. p < 128) }
{
    let from = index.number() * 1024;
    pointer_in_bytes(
        &SINGLE_BYTE_PAGE_OF[from..from + 1024],
        &SINGLE_BYTE_POINTERS,
        128,
        c,
    )
}
