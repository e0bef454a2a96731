//! Tables of pointers by characters, in two levels: the page of each 64 code points, and the pages.

ghost use Rattle.std.specs.Prelude.{◌≡◌, ◌≤◌, ◌<◌, IfSome, get_or, length};
ghost use Rattle.enc_index_pointers.specs.Pages.{pointer_in_pages};

/// Returns the pointer of a character, if it is below `bound`.
#[inline(always)]
pub(crate) fn pointer_in(page_of: &[u16], pointers: &[u16], bound: u32, c: char) -> Option<u32>
    requires bound { bound ≤ 0xFFFF }
    ensures value { result ≡ pointer_in_pages page_of.now pointers.now bound c }
    ensures bound { IfSome result (λ p. p < bound) }
{
    let c = c as usize;
    if c / 64 >= page_of.len() {
        return None;
    }
    let place = page_of[c / 64] as usize * 64 + c % 64;
    if place >= pointers.len() {
        return None;
    }
    let pointer = pointers[place] as u32;
    if pointer < bound {
        return Some(pointer);
    }
    None
}

/// Returns the same from tables of bytes.
#[inline(always)]
pub(crate) fn pointer_in_bytes(page_of: &[u8], pointers: &[u8], bound: u32, c: char) -> Option<u32>
    requires bound { bound ≤ 0xFFFF }
    ensures value { result ≡ pointer_in_pages page_of.now pointers.now bound c }
    ensures bound { IfSome result (λ p. p < bound) }
{
    let c = c as usize;
    if c / 64 >= page_of.len() {
        return None;
    }
    let place = page_of[c / 64] as usize * 64 + c % 64;
    if place >= pointers.len() {
        return None;
    }
    let pointer = pointers[place] as u32;
    if pointer < bound {
        return Some(pointer);
    }
    None
}

/// Returns the byte of a code unit in a table. The table is a slice, so that a loop keeps its
/// address.
#[inline(always)]
pub(crate) fn byte_in(bytes: &[u8], unit: u16) -> u8
    requires within { unit < length bytes.now }
    ensures { result ≡ get_or bytes.now unit 0 }
{
    bytes[unit as usize]
}
