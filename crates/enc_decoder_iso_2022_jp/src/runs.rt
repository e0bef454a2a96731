//! Runs of characters in the designated set, and the escape sequences between them.

ghost use Rattle.std.specs.Prelude.{◌≡◌, ◌≤◌, Option, IsTrue, length};
ghost use Rattle.enc_decoder_iso_2022_jp.specs.Iso2022JpState.{iso_2022_jp_state};
ghost use Rattle.enc_decoder_iso_2022_jp.specs.Iso2022Jp.{set_number, iso_2022_jp_rule};
ghost use Rattle.enc_output.specs.PieceRuns.{PutsPieces};
ghost use Rattle.enc_decoder.specs.Taking.{TakesRun, IsWholeChar};

use crate::character_set::{CharacterSet, is_jis0208_byte, one_byte_char};
use crate::escape::escape_in_front;
use crate::iso_2022_jp::{Iso2022JpDecoder, with_held};
use crate::pairs::{char_of_pair, pair_places};
use enc_index::DoubleByteIndex;
use enc_index::indexes::Jis0208Index;
use enc_output::{OneByOne, PairPieces, Pairs, Pieces, Places, Units};
use enc_utf8::unshifted_len;
use std::simd::prelude::*;

/// Returns whether looking for a run pays: the first two bytes have no high bit set, as in all
/// well-formed text.
#[inline(always)]
pub(crate) fn is_seven_bit(src: &[u8]) -> bool
    ensures { IsTrue result → 2 ≤ length src.now }
{
    src.len() >= 2 && (src[0] | src[1]) < 0x80
}

/// Characters of one byte in a character set.
impl Pieces for CharacterSet {
    ghost use Rattle.enc_decoder_iso_2022_jp.specs.Iso2022Jp.{set_number, iso_2022_jp_rule};
    ghost use Rattle.enc_decoder.specs.Taking.{IsWholeChar};

    ghost means = { λ set. IsWholeChar iso_2022_jp_rule (set_number set) };

    #[inline(always)]
    fn piece(self, src: &[u8], at: usize) -> Option<(char, usize)> {
        let character = one_byte_char(self, src[at])?;
        Some((character, 1))
    }

    #[inline(always)]
    fn own_len(self, bytes: u8x16) -> usize {
        match self {
            CharacterSet::Ascii => unshifted_len(bytes),
            _ => 0,
        }
    }
}

/// Characters of two bytes, in jis0208.
#[derive(Clone, Copy)]
struct InJis0208;

impl Pieces for InJis0208 {
    ghost use Rattle.enc_decoder_iso_2022_jp.specs.declared.character_set.CharacterSet.TheVariants.{Jis0208};
    ghost use Rattle.enc_decoder_iso_2022_jp.specs.Iso2022Jp.{set_number, iso_2022_jp_rule};
    ghost use Rattle.enc_decoder.specs.Taking.{IsWholeChar};

    ghost means = { λ _. IsWholeChar iso_2022_jp_rule (set_number Jis0208) };

    #[inline(always)]
    fn piece(self, src: &[u8], at: usize) -> Option<(char, usize)> {
        let lead = src[at];
        if !is_jis0208_byte(lead) || at + 1 >= src.len() {
            return None;
        }
        let character = char_of_pair(lead, src[at + 1])?;
        Some((character, 2))
    }
}

impl PairPieces for InJis0208 {
    ghost use Rattle.enc_index.specs.DoubleByteIndexes.{jis0208_shape};
    ghost use Rattle.enc_index.specs.Grid.{IsPlaceOf};
    ghost use Rattle.enc_decoder_iso_2022_jp.specs.declared.character_set.CharacterSet.TheVariants.{Jis0208};
    ghost use Rattle.enc_decoder_iso_2022_jp.specs.Iso2022Jp.{set_number, iso_2022_jp_rule};
    ghost use Rattle.enc_decoder.specs.Taking.{IsWholeChar};

    ghost stands_for = { λ _ place bytes. IsPlaceOf jis0208_shape
        (IsWholeChar iso_2022_jp_rule (set_number Jis0208) bytes) place };

    /// All bytes lead a pair.
    #[inline(always)]
    fn places(self, first: u8x16, second: u8x16) -> Places {
        Places {
            places: pair_places(first, second),
            leads: 0xFFFF,
        }
    }

    #[inline(always)]
    fn word_at(self, place: u16) -> u32 {
        Jis0208Index::word(place as usize)
    }

    #[inline(always)]
    fn unit_at(self, place: u16) -> u16 {
        Jis0208Index::unit(place as usize)
    }
}

/// Writes characters of the designated set from the front. Returns their length in bytes.
#[inline(always)]
pub(crate) fn put_in_set<U: Units>(decoder: Iso2022JpDecoder, src: &[u8], out: &mut U) -> usize
    ensures { PutsPieces U.units_of (IsWholeChar iso_2022_jp_rule (set_number decoder.set))
        (U.output out.old) (U.output out.new) src.now result }
{
    match decoder.set {
        CharacterSet::Jis0208 => out.put_pieces(Pairs { pieces: InJis0208 }, src),
        set => out.put_pieces(OneByOne { pieces: set }, src),
    }
}

/// Writes characters of the designated set from the front, and none if an escape sequence begins
/// there. Returns their length in bytes.
#[inline(always)]
pub(crate) fn put_before_escape<U: Units>(
    decoder: Iso2022JpDecoder,
    src: &[u8],
    out: &mut U,
) -> usize
    requires some { 1 ≤ length src.now }
    ensures { PutsPieces U.units_of (IsWholeChar iso_2022_jp_rule (set_number decoder.set))
        (U.output out.old) (U.output out.new) src.now result }
{
    if src[0] == 0x1B {
        return 0;
    }
    put_in_set(decoder, src, out)
}

/// Takes an escape sequence that no other one directly follows, with the characters after it.
/// Takes nothing if there are none.
#[inline(always)]
pub(crate) fn take_escape<U: Units>(
    decoder: Iso2022JpDecoder,
    src: &[u8],
    out: &mut U,
) -> (Iso2022JpDecoder, usize)
    requires none_held { decoder.held ≡ Option.None }
    ensures run { TakesRun U.units_of iso_2022_jp_state decoder result.0 src.now result.1
        (U.output out.old) (U.output out.new) }
    ensures none_held { result.0.held ≡ Option.None }
{
    let Some(escape) = escape_in_front(src) else {
        return (decoder, 0);
    };
    let next = with_held(escape.set(), None);
    let (_, unread) = src.split_at(3);
    let taken = put_in_set(next, unread, out);
    if taken == 0 {
        return (decoder, 0);
    }
    (next, 3 + taken)
}
