//! The ISO-2022-JP encoder (Encoding Standard 12.2.2).

ghost use Rattle.std.specs.Prelude.{◌≡◌, ◌<◌};
ghost use Rattle.enc_encoder.specs.declared.character_set.CharacterSet.TheVariants.{Ascii};
ghost use Rattle.enc_encode.specs.Iso2022Jp.{class_of as wanted_class, has_class as wanted_has};
ghost use Rattle.enc_encode.specs.Iso2022Jp.{set_of_class as wanted_set, is_shift as wanted_shift};
ghost use Rattle.enc_encode.specs.Iso2022Jp.{lookup_char as wanted_looked_up};
ghost use Rattle.enc_encode.specs.Iso2022Jp.{iso_2022_jp_bytes as wanted_bytes};
ghost use Rattle.enc_encode.specs.Iso2022Jp.{jis0208_pair_bytes as wanted_pair};
ghost use Rattle.enc_input.specs.Bytes.{byte_list};
ghost use Rattle.enc_encoder.specs.CharLaw.{AreBytesOf};

use super::japanese::{is_halfwidth_katakana, with_fullwidth_minus};
use super::katakana::KATAKANA;
use enc_encoder::{
    BarredChars, Begun, ByteLengths, CharEncoder, CharList, CharacterSet, EncoderOutcome, NoChars,
    RawEncoder, one, run_on, two,
};
use enc_index_pointers::jis0208;
use enc_input::{ByCharacter, Bytes, Chars, Mapping};
use enc_utf8::unshifted_len;
use std::simd::prelude::*;

/// The class of a mappable character.
#[derive(Clone, Copy)]
enum CharClass {
    /// In ASCII and in Roman.
    Neutral,
    /// In ASCII alone.
    Latin,
    /// In Roman alone.
    Roman,
    /// In jis0208.
    Kanji,
}

/// The encoder of single characters: the designated character set, and the characters that are
/// barred.
#[derive(Clone, Copy)]
struct ShiftingEncoder<B> {
    set: CharacterSet,
    barred: B,
}

/// The ISO-2022-JP encoder (Encoding Standard 12.2.2).
///
/// Between two calls it keeps the designated character set and the list of barred characters.
#[derive(Clone, Copy)]
pub struct Iso2022JpEncoder {
    set: CharacterSet,
    barred: &'static [char],
}

/// Returns the class of a character, if it is mappable.
#[inline(always)]
fn class_of(code: u32) -> CharClass
    ensures { result ≡ wanted_class code }
{
    if code == 0x5C || code == 0x7E {
        CharClass::Latin
    } else if code < 0x80 {
        CharClass::Neutral
    } else if code == 0xA5 || code == 0x203E {
        CharClass::Roman
    } else {
        CharClass::Kanji
    }
}

/// Returns whether a character set has the characters of a class.
#[inline(always)]
fn has_class(set: CharacterSet, class: CharClass) -> bool
    ensures { result ≡ wanted_has set class }
{
    match set {
        CharacterSet::Ascii => match class {
            CharClass::Neutral => true,
            CharClass::Latin => true,
            CharClass::Roman => false,
            CharClass::Kanji => false,
        },
        CharacterSet::Roman => match class {
            CharClass::Neutral => true,
            CharClass::Latin => false,
            CharClass::Roman => true,
            CharClass::Kanji => false,
        },
        CharacterSet::Jis0208 => match class {
            CharClass::Neutral => false,
            CharClass::Latin => false,
            CharClass::Roman => false,
            CharClass::Kanji => true,
        },
    }
}

/// Returns the character set that is designated for a character of a class.
fn set_of_class(class: CharClass) -> CharacterSet
    ensures { result ≡ wanted_set class }
{
    match class {
        CharClass::Neutral => CharacterSet::Ascii,
        CharClass::Latin => CharacterSet::Ascii,
        CharClass::Roman => CharacterSet::Roman,
        CharClass::Kanji => CharacterSet::Jis0208,
    }
}

/// Returns the character that is looked up for a character.
#[tactic(auto, using(crate::proofs::KatakanaLemmas::katakana_are))]
#[inline(always)]
fn lookup_char(c: char) -> char
    ensures { result ≡ wanted_looked_up c }
{
    if is_halfwidth_katakana(c) {
        return KATAKANA[(c as u32 - 0xFF61) as usize];
    }
    with_fullwidth_minus(c)
}

/// Returns whether it is shift out, shift in or escape.
#[inline(always)]
fn is_shift(code: u32) -> bool
    ensures { result ≡ wanted_shift code }
{
    code == 0x0E || code == 0x0F || code == 0x1B
}

/// Returns the two bytes of a pointer.
#[inline(always)]
fn pair(pointer: u32) -> Bytes
    requires bound { pointer < 8836 }
    ensures { byte_list result ≡ wanted_pair pointer }
{
    two((pointer / 94 + 0x21) as u8, (pointer % 94 + 0x21) as u8)
}

/// Returns the bytes of a character, if it has some.
#[inline(always)]
fn iso_2022_jp_bytes(c: char) -> Option<Bytes>
    ensures { AreBytesOf (wanted_bytes c) result }
{
    let code = c as u32;
    if code < 0x80 {
        if is_shift(code) {
            return None;
        }
        return Some(one(code as u8));
    }
    if code == 0xA5 {
        return Some(one(0x5C));
    }
    if code == 0x203E {
        return Some(one(0x7E));
    }
    match jis0208(lookup_char(c)) {
        Some(pointer) => Some(pair(pointer)),
        None => None,
    }
}

impl<B: BarredChars> Mapping for ShiftingEncoder<B> {
    ghost use Rattle.enc_encoder.specs.Barring.{barring_rule};
    ghost use Rattle.enc_encoder.specs.Runs.{IsWrittenIn};
    ghost use Rattle.enc_encode.specs.Iso2022Jp.{iso_2022_jp_encoder_rule};

    ghost means = { λ e. IsWrittenIn (barring_rule (B.chars e.barred) iso_2022_jp_encoder_rule)
        e.set };

    #[inline(always)]
    fn bytes_in_run(self, c: char) -> Option<Bytes> {
        if !has_class(self.set, class_of(c as u32)) {
            return None;
        }
        self.bytes(c)
    }

    #[inline(always)]
    fn is_own(self, byte: u8) -> bool {
        match self.set {
            CharacterSet::Ascii => byte < 0x80 && !is_shift(byte as u32),
            _ => false,
        }
    }

    #[inline(always)]
    fn ascii_len(self, lanes: u8x16) -> usize {
        match self.set {
            CharacterSet::Ascii => unshifted_len(lanes),
            _ => 0,
        }
    }

    #[inline(always)]
    fn keeps_ascii(self) -> bool {
        false
    }
}

impl<B: BarredChars> CharEncoder for ShiftingEncoder<B> {
    ghost use Rattle.enc_encode.specs.Iso2022Jp.{iso_2022_jp_encoder_state};

    ghost state = { λ e. iso_2022_jp_encoder_state (B.chars e.barred) e.set };

    #[inline(always)]
    fn write_run<C: Chars>(self, src: &mut C, dst: &mut [u8], from: usize) -> usize {
        src.write_mapped(self, ByCharacter, dst, from)
    }

    fn bytes(self, c: char) -> Option<Bytes> {
        if self.barred.bars(c) {
            return None;
        }
        iso_2022_jp_bytes(c)
    }

    fn reported(self, c: char) -> char {
        if is_shift(c as u32) { '\u{FFFD}' } else { c }
    }

    fn escape_before(self, c: char) -> Option<ShiftingEncoder<B>> {
        let class = class_of(c as u32);
        if has_class(self.set, class) {
            return None;
        }
        Some(ShiftingEncoder {
            set: set_of_class(class),
            barred: self.barred,
        })
    }

    fn escape_at_end(self) -> Option<ShiftingEncoder<B>> {
        let ascii = ShiftingEncoder {
            set: CharacterSet::Ascii,
            barred: self.barred,
        };
        match self.set {
            CharacterSet::Ascii => None,
            CharacterSet::Roman => Some(ascii),
            CharacterSet::Jis0208 => Some(ascii),
        }
    }

    fn set(self) -> CharacterSet {
        self.set
    }
}

impl Iso2022JpEncoder {
    /// Returns an encoder at the start of a text, with barred characters.
    ///
    /// The characters of `barred` are unmappable too. ASCII is never barred.
    pub fn new(barred: &'static [char]) -> Iso2022JpEncoder
        ensures set { result.set ≡ Ascii }
        ensures barred { result.barred.now ≡ barred.now }
    {
        let set = CharacterSet::Ascii;
        Iso2022JpEncoder { set, barred }
    }
}

impl RawEncoder for Iso2022JpEncoder {
    ghost use Rattle.enc_encoder.specs.declared.byte_lengths.ByteLengths.TheVariants as lengths;
    ghost use Rattle.enc_encode.specs.Iso2022Jp.{iso_2022_jp_encoder_state};

    ghost state = { λ e. iso_2022_jp_encoder_state e.barred.now e.set };

    ghost formulas = { λ _. lengths.Iso2022Jp };

    /// Writes none if characters are barred.
    #[inline(always)]
    fn write_first<C: Chars>(&self, src: &mut C, dst: &mut [u8]) -> usize {
        if !self.barred.is_empty() {
            return 0;
        }
        let encoder = ShiftingEncoder {
            set: self.set,
            barred: NoChars,
        };
        encoder.write_run(src, dst, 0)
    }

    fn encode_on<C: Chars>(&mut self, src: &mut C, dst: &mut [u8], begun: Begun) -> EncoderOutcome {
        let set = self.set;
        if self.barred.is_empty() {
            let barred = NoChars;
            let mut unbarred = ShiftingEncoder { set, barred };
            let outcome = run_on(&mut unbarred, src, dst, begun);
            self.set = unbarred.set;
            return outcome;
        }
        let barred = CharList { chars: self.barred };
        let mut encoder = ShiftingEncoder { set, barred };
        let outcome = run_on(&mut encoder, src, dst, begun);
        self.set = encoder.set;
        outcome
    }

    fn has_pending_state(&self) -> bool {
        match self.set {
            CharacterSet::Ascii => false,
            CharacterSet::Roman => true,
            CharacterSet::Jis0208 => true,
        }
    }

    #[tactic(auto, using(crate::proofs::Iso2022JpEnough::iso_2022_jp_enough))]
    fn byte_lengths(&self) -> ByteLengths {
        ByteLengths::Iso2022Jp
    }
}
