//! Letters of the legacy single-byte encodings, by code unit.

ghost use Rattle.std.specs.Prelude.{◌≡◌, ℕ, ◌+◌, ◌-◌, ◌<◌, ◌≤◌, Some};
ghost use Rattle.std.specs.Char.{IsScalar};
ghost use Rattle.enc_index_pointers.specs.Pointers.{single_byte_pointer};

use enc_index::SingleByteIndex;

/// Returns letters of a legacy single-byte encoding whose code points follow one by one, if there
/// are many.
///
/// The first byte, the last, and how much greater than its byte a code point is. There is none if
/// the first is greater than the last.
#[inline(always)]
pub fn single_byte_letters(index: SingleByteIndex) -> (u8, u8, u16)
    ensures { (b : ℕ) → result.0 ≤ b → b ≤ result.1 → (0x80 ≤ b)
        × (single_byte_pointer index (b + result.2) ≡ Some (b - 0x80)) × IsScalar (b + result.2)
        × (b + result.2 < 0x10000) }
{
    index.letters()
}
