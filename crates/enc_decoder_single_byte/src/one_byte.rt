//! The decoders of encodings in which each byte stands alone.

ghost use Rattle.std.specs.Prelude.{◌≡◌, ℕ, ◌<◌, Option, Some};
ghost use Rattle.std.specs.Char.{IsScalar};
ghost use Rattle.enc_index.specs.Grid.{HasWord};
ghost use Rattle.enc_decoder_single_byte.specs.OneByte.{AreOneByteChars, FollowOneByOne};

use enc_decoder::{Pending, Prefix, PrefixCodec, Text, TextLengths};
use enc_output::{BytePieces, Pieces, SingleBytes, Units, plain_len, put_run};
use enc_utf8::{Letters, ascii_valid_up_to};

/// An encoding in which each byte stands alone, as its character or malformed.
pub trait OneByte: Copy {
    // the characters of bytes
    ghost character: { Self → ℕ → Option ℕ };

    /// The laws of all characters. The call does nothing.
    fn laws(self)
        ensures { AreOneByteChars (character self) };

    /// Returns the character of a byte, if it has one.
    fn character_of(self, byte: u8) -> Option<char>
        ensures { result ≡ character self byte };

    /// Returns the UTF-8 of a byte's character as a word, or 0 if it has none.
    ///
    /// The word has the bytes, the first lowest, and their number in the highest byte.
    fn word_of(self, byte: u8) -> u32
        ensures { 0 < result → HasWord (character self byte) result };

    /// Returns the UTF-16 code unit of a byte's character, or 0 if it has none.
    fn unit_of(self, byte: u8) -> u16
        ensures { 0 < result → (character self byte ≡ Some result) × IsScalar result };

    /// Returns letters whose characters follow one by one, if there are many.
    fn letters_of(self) -> Letters
        ensures { FollowOneByOne (character self) result };
}

/// The decoder of an encoding in which each byte stands alone. Nothing is ever pending.
#[derive(Clone, Copy)]
pub struct OneByteDecoder<E> {
    pub(crate) encoding: E,
}

impl<E: OneByte> Pieces for OneByteDecoder<E> {
    ghost use Rattle.enc_decoder.specs.Taking.{IsWholeChar};
    ghost use Rattle.enc_decoder_single_byte.specs.OneByte.{one_byte_rule};

    ghost means = { λ d. IsWholeChar (one_byte_rule (E.character d.encoding)) 0 };

    #[inline(always)]
    fn piece(self, src: &[u8], at: usize) -> Option<(char, usize)> {
        match self.encoding.character_of(src[at]) {
            Some(character) => Some((character, 1)),
            None => None,
        }
    }

    fn has_ascii(self) -> bool {
        self.encoding.laws();
        true
    }
}

impl<E: OneByte> BytePieces for OneByteDecoder<E> {
    #[inline(always)]
    fn word(self, byte: u8) -> u32 {
        self.encoding.word_of(byte)
    }

    #[inline(always)]
    fn unit(self, byte: u8) -> u16 {
        self.encoding.unit_of(byte)
    }

    #[inline(always)]
    fn letters(self) -> Letters {
        self.encoding.letters_of()
    }
}

impl<E: OneByte> PrefixCodec for OneByteDecoder<E> {
    ghost use Rattle.std.specs.Prelude.{false};
    ghost use Rattle.enc_decoder.specs.declared.pending.Pending.TheVariants.{Nothing};
    ghost use Rattle.enc_decoder.specs.declared.text_lengths.TextLengths.TheVariants as lengths;
    ghost use Rattle.enc_decoder_single_byte.specs.OneByte.{one_byte_prefix};

    ghost prefix = { λ d. one_byte_prefix (E.character d.encoding) };

    ghost waiting = { λ _. Nothing };

    ghost leaves_others = { false };

    ghost lengths = { lengths.OneByte };

    #[inline(always)]
    #[tactic(auto, unfolding(crate::specs::OneByte::one_byte_prefix))]
    fn laws(self) {
        let _encoding = self.encoding;
    }

    #[inline(always)]
    fn leaves_others() -> bool {
        false
    }

    #[inline(always)]
    fn waiting(self) -> Pending {
        let _encoding = self.encoding;
        Pending::Nothing
    }

    #[inline(always)]
    #[tactic(auto, unfolding(crate::specs::OneByte::one_byte_prefix))]
    fn with_waiting(self, pending: Pending) -> OneByteDecoder<E> {
        let _nothing = pending;
        self
    }

    #[inline(always)]
    #[tactic(auto, unfolding(crate::specs::OneByte::one_byte_prefix))]
    fn classify(self, front: Pending, byte: u8) -> Prefix {
        let _nothing = front;
        match self.encoding.character_of(byte) {
            Some(character) => Prefix::Complete(Text::One(character)),
            None => Prefix::Malformed(1),
        }
    }

    #[inline(always)]
    fn put_front<U: Units>(self, src: &[u8], out: &mut U) -> usize {
        put_run(out, SingleBytes { pieces: self }, src)
    }

    /// Returns the length of a prefix that is ASCII, or ASCII and then letters whose numbers are
    /// those of their bytes, where the encoding has such letters.
    fn latin1_front(self, src: &[u8]) -> usize {
        if !self.has_ascii() {
            return 0;
        }
        let ascii = ascii_valid_up_to(src);
        let letters = self.letters();
        if letters.shift != 0 {
            return ascii;
        }
        ascii + plain_len(letters, &src[ascii..])
    }

    #[inline(always)]
    fn replaces_each() -> bool {
        false
    }

    #[inline(always)]
    #[tactic(auto, using(crate::proofs::OneByteLemmas::one_byte_has_bytes))]
    fn has_bytes(self) -> bool {
        self.encoding.laws();
        true
    }

    #[tactic(auto, using(crate::proofs::EnoughLemmas::one_byte_enough))]
    fn lengths(self) -> TextLengths {
        self.encoding.laws();
        TextLengths::OneByte
    }
}
