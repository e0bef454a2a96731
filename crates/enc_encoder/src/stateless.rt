//! Encoders of encodings without escape sequences.

ghost use Rattle.std.specs.Prelude.{◌≡◌, ◌≤◌, ℕ, Option, List};
ghost use Rattle.enc_encoder.specs.CharLaw.{AreBytesOf};
ghost use Rattle.enc_encoder.specs.declared.byte_lengths.ByteLengths.{ByteLengths};

use crate::barring::Barring;
use crate::begun::Begun;
use crate::byte_lengths::ByteLengths;
use crate::char_encoder::CharEncoder;
use crate::character_set::CharacterSet;
use crate::lawful_repertoire::LawfulRepertoire;
use crate::machine::run_on;
use crate::made_bytes::one;
use crate::outcome::EncoderOutcome;
use crate::raw_encoder::RawEncoder;
use crate::run_repertoire::{RunRepertoire, UnitRepertoire, Utf8Repertoire};
use enc_input::{Bytes, Chars, Mapping, UnitBytes, Utf8Bytes};
use enc_utf8::{Letters, ascii_in};
use std::simd::prelude::*;

/// An encoding without escape sequences, by the bytes of each character.
pub trait Repertoire: Copy {
    // the bytes of a character; none if it is unmappable
    ghost bytes_for: { Self → ℕ → Option (List ℕ) };

    // the formulas for lengths to allocate
    ghost lengths: { Self → ByteLengths };

    /// Returns the bytes of a character beyond ASCII, or `None` if it is unmappable.
    fn bytes_beyond_ascii(self, c: char) -> Option<Bytes>
        requires beyond_ascii { 0x80 ≤ c }
        ensures { AreBytesOf (bytes_for self c) result };

    /// Returns the formulas for the lengths to allocate.
    fn byte_lengths(self) -> ByteLengths
        ensures { result ≡ lengths self };
}

/// The encoder of an encoding without escape sequences. It keeps nothing between two calls.
#[derive(Clone, Copy)]
pub struct StatelessEncoder<R> {
    /// The encoding.
    pub repertoire: R,
}

impl<R: Repertoire> StatelessEncoder<R> {
    /// Returns the encoder of an encoding.
    pub fn new(repertoire: R) -> StatelessEncoder<R>
        ensures { result.repertoire ≡ repertoire }
    {
        StatelessEncoder { repertoire }
    }
}

impl<R: LawfulRepertoire> Mapping for StatelessEncoder<R> {
    ghost use Rattle.enc_encoder.specs.declared.character_set.CharacterSet.TheVariants.{Ascii};
    ghost use Rattle.enc_encoder.specs.Runs.{IsWrittenIn};
    ghost use Rattle.enc_encoder.specs.Stateless.{stateless_rule};

    ghost means = { λ e. IsWrittenIn (stateless_rule (R.bytes_for e.repertoire)) Ascii };

    #[inline(always)]
    fn bytes_in_run(self, c: char) -> Option<Bytes> {
        self.repertoire.bytes_beyond_ascii(c)
    }

    #[inline(always)]
    fn is_own(self, byte: u8) -> bool {
        self.repertoire.laws();
        byte < 0x80
    }

    #[inline(always)]
    fn ascii_len(self, lanes: u8x16) -> usize {
        self.repertoire.laws();
        ascii_in(lanes)
    }

    #[inline(always)]
    fn keeps_ascii(self) -> bool {
        self.repertoire.laws();
        true
    }
}

impl<R: UnitRepertoire> UnitBytes for StatelessEncoder<R> {
    #[inline(always)]
    fn unit_byte(self, unit: u16) -> u8 {
        self.repertoire.unit_byte(unit)
    }

    #[inline(always)]
    fn letters(self) -> Letters {
        self.repertoire.letters()
    }
}

impl<R: Utf8Repertoire> Utf8Bytes for StatelessEncoder<R> {
    fn laws(self) {
        self.repertoire.is_utf8();
    }
}

impl<R: RunRepertoire> CharEncoder for StatelessEncoder<R> {
    ghost use Rattle.enc_encoder.specs.Stateless.{stateless_state};

    ghost state = { λ e. stateless_state (R.bytes_for e.repertoire) };

    #[inline(always)]
    fn write_run<C: Chars>(self, src: &mut C, dst: &mut [u8], from: usize) -> usize {
        self.repertoire.write_run(src, dst, from)
    }

    #[inline(always)]
    fn bytes(self, c: char) -> Option<Bytes> {
        self.repertoire.laws();
        if (c as u32) < 0x80 {
            return Some(one(c as u8));
        }
        self.repertoire.bytes_beyond_ascii(c)
    }

    fn reported(self, c: char) -> char {
        c
    }

    fn escape_before(self, _c: char) -> Option<StatelessEncoder<R>> {
        None
    }

    fn escape_at_end(self) -> Option<StatelessEncoder<R>> {
        None
    }

    fn set(self) -> CharacterSet {
        CharacterSet::Ascii
    }
}

impl<R: RunRepertoire> RawEncoder for StatelessEncoder<Barring<R>> {
    ghost use Rattle.enc_encoder.specs.Stateless.{stateless_state};
    ghost use Rattle.enc_encoder.specs.Barring.{bytes_unless_barred};

    ghost state = { λ e. stateless_state
        (bytes_unless_barred e.repertoire.barred.now (R.bytes_for e.repertoire.repertoire)) };

    ghost formulas = { λ e. R.lengths e.repertoire.repertoire };

    /// Writes none if characters are barred.
    #[inline(always)]
    fn write_first<C: Chars>(&self, src: &mut C, dst: &mut [u8]) -> usize {
        let repertoire = self.repertoire.repertoire;
        repertoire.laws();
        if !self.repertoire.barred.is_empty() {
            return 0;
        }
        let encoder = StatelessEncoder::new(repertoire);
        encoder.write_run(src, dst, 0)
    }

    fn encode_on<C: Chars>(&mut self, src: &mut C, dst: &mut [u8], begun: Begun) -> EncoderOutcome {
        let repertoire = self.repertoire.repertoire;
        let barred = self.repertoire.barred;
        repertoire.laws();
        if barred.is_empty() {
            let mut encoder = StatelessEncoder::new(repertoire);
            return run_on(&mut encoder, src, dst, begun);
        }
        let mut encoder = StatelessEncoder::new(Barring::new(repertoire, barred));
        run_on(&mut encoder, src, dst, begun)
    }

    fn has_pending_state(&self) -> bool {
        false
    }

    #[tactic(auto, using(crate::proofs::EnoughLemmas::stateless_enough))]
    fn byte_lengths(&self) -> ByteLengths {
        let repertoire = self.repertoire.repertoire;
        repertoire.laws();
        repertoire.byte_lengths()
    }
}
