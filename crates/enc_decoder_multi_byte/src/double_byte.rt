//! The legacy encodings with characters of one byte and two.

ghost use Rattle.std.specs.Prelude.{◌≡◌, ℕ, ◌+◌, ◌<◌, Bool, Option, Some, true, false};
ghost use Rattle.enc_index.specs.Grid.{ArePairPlaces};
ghost use Rattle.enc_decoder.specs.declared.byte_codec.Text.{Text};
ghost use Rattle.enc_decoder_multi_byte.specs.DoubleByte.{text_of_char, first_prefix, trail_prefix};
ghost use Rattle.enc_decoder_multi_byte.specs.DoubleByte.{IsLeadPair};

use crate::multi_byte::MultiByte;
use enc_decoder::{Pending, Prefix, Text};
use enc_index::DoubleByteIndex;
use std::marker::PhantomData;
use std::simd::prelude::*;

/// An encoding with characters of one byte and two.
///
/// It has lead bytes, the characters of other bytes, and the texts of pairs.
pub trait DoubleByte: Copy {
    // the lead bytes, which a trail follows
    ghost leads: { ℕ → Bool };

    // the characters of all other bytes that have one
    ghost singles: { ℕ → Option ℕ };

    // the texts of a lead byte with the byte after it, if they have one
    ghost pairs: { ℕ → ℕ → Option Text };

    /// Returns whether a byte is a lead byte.
    fn is_lead(byte: u8) -> bool
        ensures { result ≡ leads byte };

    /// Returns the character of a byte that stands alone.
    fn single(byte: u8) -> Option<char>
        ensures { result ≡ singles byte };

    /// Returns the text of a lead byte with the byte after it.
    fn pair(lead: u8, trail: u8) -> Option<Text>
        requires lead { leads lead ≡ true }
        ensures { result ≡ pairs lead trail };

    /// The index in which pairs are looked up.
    type Index: DoubleByteIndex;

    /// Returns the place in the index of each of sixteen bytes with the byte after it.
    ///
    /// A character there is theirs, and the first byte is a lead byte.
    fn pair_places(first: u8x16, second: u8x16) -> u16x16
        ensures { ArePairPlaces Self.Index.shape (IsLeadPair leads pairs) result first second };
}

/// Such an encoding, as one of the multi-byte encodings.
#[derive(Clone, Copy)]
pub struct Double<D> {
    encoding: PhantomData<D>,
}

/// Returns the text of a character.
pub fn text_of(character: Option<char>) -> Option<Text>
    ensures { result ≡ text_of_char character }
{
    match character {
        Some(found) => Some(Text::One(found)),
        None => None,
    }
}

/// Classifies the first byte: a lead byte, or a byte that stands alone.
pub fn classify_first(leads: bool, single: Option<char>) -> Prefix
    ensures { result ≡ first_prefix leads single }
{
    if leads {
        return Prefix::Incomplete;
    }
    match single {
        Some(found) => Prefix::Complete(Text::One(found)),
        None => Prefix::Malformed(1),
    }
}

/// Classifies a byte after `before` others, by their text.
///
/// If they have none, an ASCII byte is restored.
pub fn classify_trail(before: u8, byte: u8, text: Option<Text>) -> Prefix
    requires bound { before < 4 }
    ensures { result ≡ trail_prefix before byte text }
{
    match text {
        Some(found) => Prefix::Complete(found),
        None if byte < 0x80 => Prefix::Malformed(before),
        None => Prefix::Malformed(before + 1),
    }
}

impl<D: DoubleByte> MultiByte for Double<D> {
    ghost use Rattle.enc_decoder_multi_byte.specs.DoubleByte.{double_byte_prefix};

    ghost prefix = { double_byte_prefix D.leads D.singles D.pairs };

    #[inline(always)]
    fn classify(pending: Pending, byte: u8) -> Prefix {
        match pending {
            Pending::Nothing => classify_first(D::is_lead(byte), D::single(byte)),
            Pending::One(lead) => classify_trail(1, byte, D::pair(lead, byte)),
            _ => unreachable!(),
        }
    }

    #[inline(always)]
    fn pair_char(lead: u8, byte: u8) -> Option<char> {
        if !D::is_lead(lead) {
            return None;
        }
        match D::pair(lead, byte) {
            Some(Text::One(character)) => Some(character),
            _ => None,
        }
    }

    type Index = D::Index;

    #[inline(always)]
    fn pair_places(first: u8x16, second: u8x16) -> u16x16 {
        D::pair_places(first, second)
    }
}
