//! Pointers in index gb18030 (Encoding Standard 5, "index pointer"), for GBK and gb18030.
//!
//! Written by scripts/make-sources from data/templates: change the text there, and not this file.

ghost use Rattle.std.specs.Prelude.{◌≡◌, ◌<◌, IfSome};
ghost use Rattle.enc_index_pointers.specs.Pointers.{gb18030_pointer};

use crate::look_up::pointer_in;
use crate::pages::gb18030::{GB18030_PAGE_OF, GB18030_POINTERS};

/// Returns the pointer of a character in index gb18030, or `None` if there is none.
///
/// For GBK and gb18030. It is the first. Two loads.
#[inline(always)]
pub fn gb18030(c: char) -> Option<u32>
    ensures value { result ≡ gb18030_pointer c }
    ensures bound { IfSome result (λ p. p < 23940) }
{
    pointer_in(&GB18030_PAGE_OF, &GB18030_POINTERS, 23940, c)
}
