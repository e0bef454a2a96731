//! Positions in a text, counted in characters.

ghost use Rattle.std.specs.Prelude.{◌≡◌, ◌↔◌, ◌≤◌, ◌++◌, ℕ, List, chars, length, take, drop, IfOk};
ghost use Rattle.std.specs.Char.Utf16.{utf16_lossy_chars};
ghost use Rattle.std.specs.Str.{IsCharBoundary};
ghost use Rattle.enc_utf8.specs.Text.{units_of_text};
ghost use Rattle.encoding_rs.specs.Run.{units_of_call};

use std::alloc::{AllocError, Global};

/// Returns the offset of the end of the first `count` characters, or of the text if it has fewer.
fn place_after(text: &str, count: usize) -> usize
    ensures boundary { IsCharBoundary text.now result }
    ensures front { chars (take result text.now) ≡ take count (chars text.now) }
    ensures back { chars (drop result text.now) ≡ drop count (chars text.now) }
{
    let mut rest = text.chars();
    for _ in 0..count {
        let Some(_) = rest.next() else {
            break;
        };
    }
    text.len() - rest.as_str().len()
}

/// Splits a text after `count` characters, or at its end if it has fewer.
pub fn split_at_char(text: &str, count: usize) -> (&str, &str)
    ensures front { chars result.0.now ≡ take count (chars text.now) }
    ensures back { chars result.1.now ≡ drop count (chars text.now) }
    ensures none_left { (length result.1.now ≡ 0) ↔ (length (chars text.now) ≤ count) }
{
    text.split_at(place_after(text, count))
}

/// Returns the number of code units of a character, at least one.
fn width(c: char, utf16: bool) -> usize
    ensures some { 1 ≤ result }
    ensures value { result ≡ length (units_of_call utf16 c) }
{
    if utf16 { c.len_utf16() } else { c.len_utf8() }
}

/// Returns the number of characters in the first `units` code units of a text.
///
/// Condition for that: they end after a character.
pub fn chars_in_units(text: &str, units: usize, utf16: bool) -> usize
    ensures { (front back : List ℕ) → chars text.now ≡ front ++ back
        → units ≡ length (units_of_text (units_of_call utf16) front) → result ≡ length front }
{
    let mut rest = text.chars();
    let mut left = units;
    let mut count = 0;
    while left > 0 {
        let Some(c) = rest.next() else {
            break;
        };
        left = left.saturating_sub(width(c, utf16));
        count += 1;
    }
    count
}

/// Returns a text in UTF-16. Takes memory for it.
pub fn utf16_of(alloc: Global, text: &str) -> Result<Vec<u16>, AllocError>
    ensures { IfOk result (λ units. utf16_lossy_chars units.items ≡ chars text.now) }
{
    let mut units = Vec::new(alloc);
    let mut rest = text.chars();
    let mut pair = [0; 2];
    while let Some(c) = rest.next() {
        units.extend_from_slice(c.encode_utf16(&mut pair))?;
    }
    Ok(units)
}
