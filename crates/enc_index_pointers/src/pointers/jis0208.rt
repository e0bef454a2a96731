//! Pointers in index jis0208 (Encoding Standard 5, "index pointer"), for EUC-JP and ISO-2022-JP.
//!
//! Written by scripts/make-sources from data/templates: change the text there, and not this file.

ghost use Rattle.std.specs.Prelude.{◌≡◌, ◌<◌, IfSome};
ghost use Rattle.enc_index_pointers.specs.Pointers.{jis0208_pointer};

use crate::look_up::pointer_in;
use crate::pages::jis0208::{JIS0208_PAGE_OF, JIS0208_POINTERS};

/// Returns the pointer of a character in index jis0208, or `None` if there is none.
///
/// For EUC-JP and ISO-2022-JP. It is the first, if that is below 8836. Two loads.
#[inline(always)]
pub fn jis0208(c: char) -> Option<u32>
    ensures value { result ≡ jis0208_pointer c }
    ensures bound { IfSome result (λ p. p < 8836) }
{
    pointer_in(&JIS0208_PAGE_OF, &JIS0208_POINTERS, 8836, c)
}
