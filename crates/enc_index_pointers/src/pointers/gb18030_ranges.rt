//! The pointers of characters in index gb18030 ranges (Encoding Standard 5, "index gb18030 ranges
//! pointer").

ghost use Rattle.std.specs.Prelude.{◌≡◌, ◌-◌, ◌<◌, IfSome};
ghost use Rattle.enc_index_pointers.specs.Pointers.{gb18030_ranges_pointer};

use crate::pages::gb18030_ranges::GB18030_RANGES_BY_CODE_POINT;
use enc_index::run_with;

/// Returns the index gb18030 ranges pointer, for four bytes, or `None` if there is none.
///
/// It is 7457 for U+E7C7, and otherwise the pointer in the range that has the character. A binary
/// search.
pub fn gb18030_ranges(c: char) -> Option<u32>
    ensures value { result ≡ gb18030_ranges_pointer c }
    ensures bound { IfSome result (λ p. p < 1237576) }
{
    if c == '\u{E7C7}' {
        return Some(7457);
    }
    match run_with(GB18030_RANGES_BY_CODE_POINT, c as u32) {
        Some((first, _, pointer)) => Some(pointer + (c as u32 - first)),
        None => None,
    }
}
