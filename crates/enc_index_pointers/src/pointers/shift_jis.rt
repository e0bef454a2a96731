//! Pointers in index jis0208 (Encoding Standard 5, "index pointer"), for Shift_JIS.
//!
//! Written by scripts/make-sources from data/templates: change the text there, and not this file.

ghost use Rattle.std.specs.Prelude.{◌≡◌, ◌<◌, IfSome};
ghost use Rattle.enc_index_pointers.specs.Pointers.{shift_jis_pointer};

use crate::look_up::pointer_in;
use crate::pages::shift_jis::{SHIFT_JIS_PAGE_OF, SHIFT_JIS_POINTERS};

/// Returns the pointer of a character in index jis0208, or `None` if there is none.
///
/// For Shift_JIS. It is the first that is not 8272 to 8835. Two loads.
#[inline(always)]
pub fn shift_jis(c: char) -> Option<u32>
    ensures value { result ≡ shift_jis_pointer c }
    ensures bound { IfSome result (λ p. p < 11280) }
{
    pointer_in(&SHIFT_JIS_PAGE_OF, &SHIFT_JIS_POINTERS, 11280, c)
}
