//! The decoders of the legacy multi-byte encodings without escape sequences.

ghost use Rattle.std.specs.Prelude.{◌≡◌, ℕ, List, [], ◌∷◌, ◌++◌, IfSome};
ghost use Rattle.enc_index.specs.Grid.{ArePairPlaces};
ghost use Rattle.enc_decoder.specs.Pending.{bytes_of_pending};
ghost use Rattle.enc_decoder.specs.Prefixes.{AreIncomplete};
ghost use Rattle.enc_decoder_multi_byte.specs.MultiByte.{IsCharPair, IsMalformedFront};

use crate::encoding_laws::PrefixLaws;
use enc_decoder::{Pending, Prefix, PrefixCodec, Text, TextLengths};
use enc_index::DoubleByteIndex;
use enc_output::{PairPieces, Pairs, Pieces, Places, Units, put_run};
use enc_utf8::ascii_valid_up_to;
use std::marker::PhantomData;
use std::simd::prelude::*;

/// A legacy multi-byte encoding without escape sequences, by the kinds of prefixes.
pub trait MultiByte: Copy {
    ghost use Rattle.enc_decoder.specs.declared.prefix.Prefix.{Prefix};

    // the kind of a prefix, if all shorter ones are incomplete
    ghost prefix: { List ℕ → Prefix };

    /// Returns the kind of an incomplete prefix with one byte more.
    fn classify(pending: Pending, byte: u8) -> Prefix
        requires incomplete { AreIncomplete prefix [] (bytes_of_pending pending) }
        ensures { result ≡ prefix (bytes_of_pending pending ++ byte ∷ []) };

    /// Returns how many characters of a run are written one by one: more than most runs of random
    /// bytes have.
    fn few() -> usize {
        16
    }

    /// Returns the character of two bytes, if the first is none by itself.
    ///
    /// It is that of `classify` for one and then the other, without a prefix between. `None` if
    /// they are no character, or two, or if that is not known.
    fn pair_char(lead: u8, byte: u8) -> Option<char>
        ensures { IfSome result (λ c. IsCharPair prefix lead byte c) };

    /// The index in which pairs are looked up.
    type Index: DoubleByteIndex;

    /// Returns the place in the index of each of sixteen bytes with the byte after it.
    ///
    /// A character there is theirs, and the first byte is none by itself.
    fn pair_places(first: u8x16, second: u8x16) -> u16x16
        ensures { ArePairPlaces Self.Index.shape (IsCharPair prefix) result first second };
}

/// The decoder of a legacy multi-byte encoding without escape sequences.
///
/// Its pending bytes are an incomplete prefix, or bytes that were restored after a malformed
/// sequence.
#[derive(Clone, Copy)]
pub struct MultiByteDecoder<E> {
    pending: Pending,
    encoding: PhantomData<E>,
}

impl<E: MultiByte> MultiByteDecoder<E> {
    /// Returns a decoder that has read nothing.
    pub fn new() -> MultiByteDecoder<E>
        ensures { result.pending ≡ Pending.Nothing }
    {
        MultiByteDecoder::holding(Pending::Nothing)
    }

    /// Returns a decoder with these pending bytes.
    fn holding(pending: Pending) -> MultiByteDecoder<E>
        ensures { result.pending ≡ pending }
    {
        MultiByteDecoder {
            pending,
            encoding: PhantomData,
        }
    }
}

/// Returns how many of two bytes are a malformed sequence. `None` if they begin with another
/// sequence, or if a third byte is needed to determine that.
#[inline(always)]
fn malformed_len<E: MultiByte>(lead: u8, byte: u8) -> Option<u8>
    ensures { IfSome result (IsMalformedFront E.prefix lead byte) }
{
    match E::classify(Pending::Nothing, lead) {
        Prefix::Complete(_) => return None,
        Prefix::Malformed(len) => return Some(len),
        Prefix::Incomplete => {}
    }
    match E::classify(Pending::One(lead), byte) {
        Prefix::Malformed(len) => Some(len),
        _ => None,
    }
}

impl<E: PrefixLaws> Pieces for MultiByteDecoder<E> {
    ghost use Rattle.enc_decoder.specs.Prefixes.{prefix_rule};
    ghost use Rattle.enc_decoder.specs.Taking.{IsWholeChar};

    ghost means = { λ _. IsWholeChar (prefix_rule E.prefix) 0 };

    #[inline(always)]
    fn piece(self, src: &[u8], at: usize) -> Option<(char, usize)> {
        let lead = src[at];
        if lead < 0x80 {
            E::laws();
            return Some((lead as char, 1));
        }
        if at + 1 < src.len() {
            if let Some(character) = E::pair_char(lead, src[at + 1]) {
                return Some((character, 2));
            }
        }
        match E::classify(Pending::Nothing, lead) {
            Prefix::Complete(Text::One(character)) => Some((character, 1)),
            _ => None,
        }
    }

    fn has_ascii(self) -> bool {
        E::laws();
        true
    }
}

impl<E: PrefixLaws> PairPieces for MultiByteDecoder<E> {
    ghost use Rattle.enc_decoder.specs.Prefixes.{prefix_rule};
    ghost use Rattle.enc_decoder.specs.Taking.{IsWholeChar};
    ghost use Rattle.enc_index.specs.Grid.{IsPlaceOf};

    ghost stands_for = { λ _ place bytes. IsPlaceOf E.Index.shape
        (IsWholeChar (prefix_rule E.prefix) 0 bytes) place };

    fn few(self) -> usize {
        E::few()
    }

    /// Bytes from 0x80 on lead a pair, and those below are ASCII.
    #[inline(always)]
    fn places(self, first: u8x16, second: u8x16) -> Places {
        E::laws();
        Places::with_ascii(E::pair_places(first, second), first)
    }

    #[inline(always)]
    fn word_at(self, place: u16) -> u32 {
        E::Index::word(place as usize)
    }

    #[inline(always)]
    fn unit_at(self, place: u16) -> u16 {
        E::Index::unit(place as usize)
    }
}

impl<E: PrefixLaws> PrefixCodec for MultiByteDecoder<E> {
    ghost use Rattle.std.specs.Prelude.{true};
    ghost use Rattle.enc_decoder.specs.declared.text_lengths.TextLengths.TheVariants as lengths;

    ghost prefix = { λ _. E.prefix };

    ghost waiting = { λ d. d.pending };

    ghost leaves_others = { true };

    ghost lengths = { lengths.MultiByte };

    #[inline(always)]
    fn laws(self) {
        let _pending = self.pending;
        E::laws();
    }

    /// In gb18030, that is.
    #[inline(always)]
    fn leaves_others() -> bool {
        true
    }

    #[inline(always)]
    fn waiting(self) -> Pending {
        self.pending
    }

    #[inline(always)]
    fn with_waiting(self, pending: Pending) -> MultiByteDecoder<E> {
        let _before = self;
        MultiByteDecoder::holding(pending)
    }

    #[inline(always)]
    fn classify(self, front: Pending, byte: u8) -> Prefix {
        let _decoder = self;
        E::classify(front, byte)
    }

    #[inline(always)]
    fn put_front<U: Units>(self, src: &[u8], out: &mut U) -> usize {
        put_run(out, Pairs { pieces: self }, src)
    }

    /// Returns the length of the prefix that is ASCII.
    fn latin1_front(self, src: &[u8]) -> usize {
        if !self.has_ascii() {
            return 0;
        }
        ascii_valid_up_to(src)
    }

    #[inline(always)]
    fn replaced_at(self, src: &[u8], at: usize) -> Option<(char, usize)> {
        E::laws();
        if let Some(found) = self.piece(src, at) {
            return Some(found);
        }
        if at + 1 >= src.len() {
            return None;
        }
        let len = malformed_len::<E>(src[at], src[at + 1])?;
        Some(('\u{FFFD}', len as usize))
    }

    /// Where runs of random bytes are long, they are not.
    #[inline(always)]
    fn replaces_each() -> bool {
        E::few() != 0
    }

    #[inline(always)]
    fn has_bytes(self) -> bool {
        let _decoder = self;
        E::laws();
        true
    }

    fn lengths(self) -> TextLengths {
        let _decoder = self;
        E::laws();
        TextLengths::MultiByte
    }
}
