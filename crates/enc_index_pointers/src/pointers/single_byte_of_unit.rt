//! The bytes of characters in the legacy single-byte encodings, by code unit.

ghost use Rattle.std.specs.Prelude.{◌≡◌, ◌-◌, ◌<◌, ◌≤◌, Some};
ghost use Rattle.enc_index_pointers.specs.Pointers.{single_byte_pointer};

use crate::look_up::byte_in;
use crate::pages::single_byte_direct::SINGLE_BYTE_DIRECT;
use enc_index::SingleByteIndex;

/// Returns the byte of a character below U+0800 in a legacy single-byte encoding, or 0.
///
/// It is the character itself in ASCII, and 0x80 and the index pointer beyond ASCII. U+07FF has
/// none. One load. Condition: the character is below U+0800.
#[inline(always)]
pub fn single_byte_of_unit(index: SingleByteIndex, unit: u16) -> u8
    requires bound { unit < 0x800 }
    ensures ascii { unit < 0x80 → 0 < result → result ≡ unit }
    ensures others { 0x80 ≤ unit → 0 < result
        → (0x80 ≤ result) × (single_byte_pointer index unit ≡ Some (result - 0x80)) }
    ensures last { unit ≡ 0x7FF → result ≡ 0 }
{
    let from = index.number() * 0x800;
    byte_in(&SINGLE_BYTE_DIRECT[from..from + 0x800], unit)
}
