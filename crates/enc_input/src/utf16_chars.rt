//! The characters of UTF-16.

ghost use Rattle.std.specs.Prelude.{◌≡◌, ◌≤◌, ◌<◌, length, MatchOption, [], IsTrue, IsFalse};
ghost use Rattle.std.specs.Prelude.{slice_index};
ghost use Rattle.std.specs.Char.Escape.{encode_utf16};
ghost use Rattle.std.specs.Char.Utf16.{utf16_lossy_chars, surrogate_pair_char};
ghost use Rattle.enc_utf8.specs.Text.{units_of_text};
ghost use Rattle.enc_utf8.specs.Surrogates.{lossy_unit_char, IsSurrogatePair, IsFirstUtf16Char};

use crate::chars::Chars;
use crate::mapping::Mapping;
use crate::utf16_mapped::write_utf16;
use crate::ways::Way;

/// The characters of code units of UTF-16 (Unicode Standard 3.9, D91).
///
/// A surrogate without its partner is U+FFFD. The code units are read by themselves: half a pair is
/// no pair.
#[derive(Drop)]
pub struct Utf16Chars<'a> {
    units: &'a [u16],
}

impl<'a> Utf16Chars<'a> {
    /// Returns the input of all characters of some code units.
    pub fn new(units: &'a [u16]) -> Utf16Chars<'a>
        ensures { result.units.now ≡ units.now }
    {
        Utf16Chars { units }
    }
}

/// Returns the character of a code unit that is in no pair.
#[inline(always)]
fn lone(unit: u16) -> char
    ensures { result ≡ lossy_unit_char unit }
{
    char::from_u32(unit as u32).unwrap_or('\u{FFFD}')
}

/// Returns the character of a surrogate pair.
#[inline(always)]
fn pair(high: u16, low: u16) -> char
    requires high_from { 0xD800 ≤ high }
    requires high_below { high < 0xDC00 }
    requires low_from { 0xDC00 ≤ low }
    requires low_below { low < 0xE000 }
    ensures { result ≡ surrogate_pair_char high low }
{
    let code = 0x1_0000 + (high as u32 - 0xD800) * 0x400 + (low as u32 - 0xDC00);
    char::from_u32(code).unwrap()
}

/// Returns whether the first two code units are a surrogate pair.
#[inline(always)]
fn begins_with_pair(units: &[u16]) -> bool
    ensures pair { IsTrue result → (2 ≤ length units.now)
        × IsSurrogatePair (slice_index units.now 0) (slice_index units.now 1) }
    ensures lone { IsFalse result
        → IsSurrogatePair (slice_index units.now 0) (slice_index units.now 1) → ⊥ }
{
    if units.len() < 2 {
        return false;
    }
    let high = units[0];
    let low = units[1];
    0xD800 <= high && high < 0xDC00 && 0xDC00 <= low && low < 0xE000
}

/// Returns the first character and the number of its code units.
#[inline(always)]
pub(crate) fn first(units: &[u16]) -> Option<(char, usize)>
    ensures { MatchOption result (units.now ≡ []) (λ p. IsFirstUtf16Char units.now p.0 p.1) }
{
    if units.is_empty() {
        return None;
    }
    if begins_with_pair(units) {
        return Some((pair(units[0], units[1]), 2));
    }
    Some((lone(units[0]), 1))
}

/// Returns the number of code units, which is also that of their characters: U+FFFD has one, as the
/// surrogate in its place.
fn unit_count(units: &[u16]) -> usize
    ensures { result ≡ length (units_of_text encode_utf16 (utf16_lossy_chars units.now)) }
{
    units.len()
}

impl<'a> Chars for Utf16Chars<'a> {
    ghost units_of = { encode_utf16 };

    ghost rest = { λ s. utf16_lossy_chars s.units.now };

    fn unread(&self) -> usize {
        unit_count(self.units)
    }

    fn peek(&self) -> Option<(char, usize)> {
        first(self.units)
    }

    fn advance(&mut self) {
        if let Some((_, width)) = first(self.units) {
            self.units = &self.units[width..];
        }
    }

    fn write_mapped<M: Mapping, W: Way<M>>(
        &mut self,
        mapping: M,
        _way: W,
        dst: &mut [u8],
        from: usize,
    ) -> usize {
        let (read, written) = write_utf16::<M, W>(mapping, self.units, dst, from);
        self.units = &self.units[read..];
        written
    }
}
