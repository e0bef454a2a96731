//! Entries of indexes (Encoding Standard 5), and tables of them by pointer.

ghost use Rattle.std.specs.Prelude.{◌≡◌, ◌+◌, get_or};
ghost use Rattle.enc_index.specs.Index.{entry_character, last_code_point};
ghost use Rattle.enc_index.specs.declared.table.Planes.TheVariants.{All, Basic};

/// The planes of Unicode that contain an index's characters.
#[derive(Clone, Copy)]
pub enum Planes {
    /// The basic plane, to U+FFFF.
    Basic,
    /// All planes, to U+10FFFF.
    All,
}

/// Returns the last code point of the planes.
#[inline(always)]
fn last_of(planes: Planes) -> u32
    ensures { result ≡ last_code_point planes }
{
    match planes {
        Planes::Basic => 0xFFFF,
        Planes::All => 0x10FFFF,
    }
}

/// Returns the character of a code point, if an entry can have it.
#[inline(always)]
fn mapped(planes: Planes, code_point: u32) -> Option<char>
    ensures { result ≡ entry_character planes code_point }
{
    if code_point == 0 || code_point > last_of(planes) {
        return None;
    }
    char::from_u32(code_point)
}

/// Returns the character `offset` code points after another.
#[inline(always)]
pub(crate) fn character_after(planes: Planes, code_point: u32, offset: u32) -> Option<char>
    ensures { result ≡ entry_character planes (code_point + offset) }
{
    match code_point.checked_add(offset) {
        Some(sum) => mapped(planes, sum),
        None => None,
    }
}

/// Returns the character of a pointer in a table of code points of the basic plane.
#[inline(always)]
pub(crate) fn character_in(table: &[u16], pointer: u32) -> Option<char>
    ensures { result ≡ entry_character Basic (get_or table.now pointer 0) }
{
    let place = pointer as usize;
    if place < table.len() {
        return mapped(Planes::Basic, table[place] as u32);
    }
    None
}

/// Returns the character of a pointer in a table of code points of all planes.
#[inline(always)]
pub(crate) fn character_in_all(table: &[u32], pointer: u32) -> Option<char>
    ensures { result ≡ entry_character All (get_or table.now pointer 0) }
{
    let place = pointer as usize;
    if place < table.len() {
        return mapped(Planes::All, table[place]);
    }
    None
}

/// Returns the word of a byte in a table, or 0 if it has none. The table is a slice, so that a loop
/// keeps its address.
#[inline(always)]
pub(crate) fn word_in(words: &[u32], byte: u8) -> u32
    ensures { result ≡ get_or words.now byte 0 }
{
    let place = byte as usize;
    if place < words.len() {
        return words[place];
    }
    0
}

/// Returns the code unit of a byte in a table, or 0 if it has none.
#[inline(always)]
pub(crate) fn unit_in(units: &[u16], byte: u8) -> u16
    ensures { result ≡ get_or units.now byte 0 }
{
    let place = byte as usize;
    if place < units.len() {
        return units[place];
    }
    0
}
