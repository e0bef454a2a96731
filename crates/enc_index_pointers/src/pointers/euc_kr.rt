//! Pointers in index EUC-KR (Encoding Standard 5, "index pointer"), for EUC-KR.
//!
//! Written by scripts/make-sources from data/templates: change the text there, and not this file.

ghost use Rattle.std.specs.Prelude.{◌≡◌, ◌<◌, IfSome};
ghost use Rattle.enc_index_pointers.specs.Pointers.{euc_kr_pointer};

use crate::look_up::pointer_in;
use crate::pages::euc_kr::{EUC_KR_PAGE_OF, EUC_KR_POINTERS};

/// Returns the pointer of a character in index EUC-KR, or `None` if there is none.
///
/// For EUC-KR. It is the first. Two loads.
#[inline(always)]
pub fn euc_kr(c: char) -> Option<u32>
    ensures value { result ≡ euc_kr_pointer c }
    ensures bound { IfSome result (λ p. p < 23940) }
{
    pointer_in(&EUC_KR_PAGE_OF, &EUC_KR_POINTERS, 23940, c)
}
