//! Pointers in index Big5 (Encoding Standard 5, "index pointer"), for Big5.
//!
//! Written by scripts/make-sources from data/templates: change the text there, and not this file.

ghost use Rattle.std.specs.Prelude.{◌≡◌, ◌<◌, IfSome};
ghost use Rattle.enc_index_pointers.specs.Pointers.{big5_pointer};

use crate::look_up::pointer_in;
use crate::pages::big5::{BIG5_PAGE_OF, BIG5_POINTERS};

/// Returns the pointer of a character in index Big5, or `None` if there is none.
///
/// For Big5. It is the first from 5024 on, or the last for U+2550, U+255E, U+2561, U+256A, U+5341 and U+5345. Two loads.
#[inline(always)]
pub fn big5(c: char) -> Option<u32>
    ensures value { result ≡ big5_pointer c }
    ensures bound { IfSome result (λ p. p < 19782) }
{
    pointer_in(&BIG5_PAGE_OF, &BIG5_POINTERS, 19782, c)
}
