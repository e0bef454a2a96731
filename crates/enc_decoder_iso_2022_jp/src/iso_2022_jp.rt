//! The ISO-2022-JP decoder (Encoding Standard 12.2.1).

ghost use Rattle.std.specs.Prelude.{◌≡◌, Option, IsTrue};
ghost use Rattle.enc_decoder_iso_2022_jp.specs.Iso2022JpState.{Iso2022JpState, state_with_held};
ghost use Rattle.enc_decoder_iso_2022_jp.specs.Iso2022JpState.{CanHold, iso_2022_jp_state};

use crate::character_set::CharacterSet;
use crate::escape::{Escape, Intermediate, whole_escape};
use crate::handler::{step_first, step_start, step_started, step_trail, step_whole};
use crate::replaced_ascii::{ReplacedAscii, has_many_malformed};
use crate::runs::{is_seven_bit, put_before_escape, take_escape};
use crate::sequences::{cut_off, show_given_back};
use enc_decoder::{
    ByteCodec, CallOptions, DecoderOutcome, Emission, HandlerResult, RawDecoder, TextLengths,
    latin1_up_to, run,
};
use enc_output::{SingleBytes, Units, put_run};
use enc_utf8::iso_2022_jp_ascii_valid_up_to;
use std::marker::Model;

/// The number of bytes that are read in a run with malformed ones, before the decoder looks again
/// whether they are many.
const REPLACED: usize = 511;

/// Pending bytes, by the state of the standard's decoder after them.
#[derive(Clone, Copy)]
pub(crate) enum Held {
    /// A byte that was restored after a malformed sequence, and stands alone.
    GivenBack(u8),
    /// The first byte of a character of two bytes ("trail byte").
    Lead(u8),
    /// A whole escape sequence, which another one may follow (the state of its set).
    Whole(Escape),
    /// 1B, after a whole escape sequence or none ("escape start").
    Start(Option<Escape>),
    /// 1B and the second byte of an escape sequence, after a whole one or none ("escape").
    Started(Option<Escape>, Intermediate),
}

/// The ISO-2022-JP decoder (Encoding Standard 12.2.1).
///
/// It keeps the designated character set. It holds at most five bytes: an incomplete escape
/// sequence, a lead byte, or a whole escape sequence until it is determined whether another one
/// directly follows.
#[derive(Clone, Copy)]
pub struct Iso2022JpDecoder {
    pub(crate) set: CharacterSet,
    pub(crate) held: Option<Held>,
}

impl Model for Iso2022JpDecoder {
    ghost use Rattle.enc_decoder_iso_2022_jp.specs.Iso2022JpState.{Iso2022JpState, CanHold};

    ghost Value = { Iso2022JpState };

    ghost view = { λ d. record { set = d.set; held = d.held } };

    ghost invariant = { λ d. CanHold d.set d.held };

    ghost inverse = { λ s. record { set = s.set; held = s.held } };
}

impl Iso2022JpDecoder {
    /// Returns a decoder that has read nothing, with ASCII designated.
    pub fn new() -> Iso2022JpDecoder
        ensures { result ≡ state_with_held CharacterSet.Ascii Option.None }
    {
        Iso2022JpDecoder {
            set: CharacterSet::Ascii,
            held: None,
        }
    }
}

/// Returns the state in a character set with these pending bytes.
pub(crate) fn with_held(set: CharacterSet, held: Option<Held>) -> Iso2022JpDecoder
    requires holds { CanHold set held }
    ensures { result ≡ state_with_held set held }
{
    Iso2022JpDecoder { set, held }
}

impl Iso2022JpDecoder {
    /// Returns whether ASCII is designated and no byte is held.
    #[inline(always)]
    fn is_in_ascii(self) -> bool
        ensures { IsTrue result → self ≡ state_with_held CharacterSet.Ascii Option.None }
    {
        match (self.set, self.held) {
            (CharacterSet::Ascii, None) => true,
            _ => false,
        }
    }
}

impl ByteCodec for Iso2022JpDecoder {
    ghost use Rattle.enc_decoder_iso_2022_jp.specs.Iso2022JpState.{iso_2022_jp_state};

    ghost state = { iso_2022_jp_state };

    /// An escape sequence is taken with the characters after it.
    #[inline(never)]
    fn take_run<U: Units>(self, src: &[u8], out: &mut U) -> (Iso2022JpDecoder, usize) {
        let None = self.held else {
            return (self, 0);
        };
        if !is_seven_bit(src) {
            return (self, 0);
        }
        let mut state = self;
        let mut read = put_before_escape(self, src, out);
        loop {
            let (_, rest) = src.split_at(read);
            let (next, taken) = take_escape(state, rest, out);
            state = next;
            read += taken;
            if taken == 0 {
                return (state, read);
            }
        }
    }

    /// Skips an escape sequence, which no other one follows.
    #[inline(always)]
    fn take_end(self, src: &[u8]) -> Option<Iso2022JpDecoder> {
        let None = self.held else {
            return None;
        };
        let escape = whole_escape(src)?;
        Some(with_held(escape.set(), None))
    }

    /// Returns the length of the prefix that is ASCII without shifts and escapes.
    fn latin1_run(self, src: &[u8]) -> usize {
        if !self.is_in_ascii() {
            return 0;
        }
        iso_2022_jp_ascii_valid_up_to(src)
    }

    /// In each character set a byte with the high bit set is malformed by itself.
    #[inline(always)]
    fn is_lone_fault(self, byte: u8) -> bool {
        match self.held {
            None => byte >= 0x80,
            Some(_) => false,
        }
    }

    /// In ASCII each byte but 1B is a character or malformed by itself.
    #[inline(always)]
    fn replace_run<U: Units>(self, src: &[u8], out: &mut U) -> usize {
        if !self.is_in_ascii() || !has_many_malformed(src) {
            return 0;
        }
        let (front, _) = src.split_at(src.len().min(REPLACED));
        let run = SingleBytes {
            pieces: ReplacedAscii,
        };
        put_run(out, run, front)
    }

    fn next_step(self, byte: u8) -> HandlerResult<Iso2022JpDecoder> {
        match self.held {
            None => step_first(self.set, byte),
            Some(Held::GivenBack(held)) => HandlerResult::Emit(cut_off(
                self.set,
                Held::GivenBack(held),
            )),
            Some(Held::Lead(lead)) => step_trail(self.set, lead, byte),
            Some(Held::Whole(escape)) => step_whole(self.set, escape, byte),
            Some(Held::Start(before)) => step_start(self.set, before, byte),
            Some(Held::Started(before, intermediate)) => {
                step_started(self.set, before, intermediate, byte)
            }
        }
    }

    fn ready(self) -> Option<Emission<Iso2022JpDecoder>> {
        match self.held {
            Some(held) => show_given_back(self.set, held),
            None => None,
        }
    }

    fn at_end(self) -> Option<Emission<Iso2022JpDecoder>> {
        match self.held {
            Some(held) => Some(cut_off(self.set, held)),
            None => None,
        }
    }

    fn held(self) -> u8 {
        match self.held {
            None => 0,
            Some(Held::GivenBack(_)) => 1,
            Some(Held::Lead(_)) => 1,
            Some(Held::Whole(_)) => 3,
            Some(Held::Start(None)) => 1,
            Some(Held::Start(Some(_))) => 4,
            Some(Held::Started(None, _)) => 2,
            Some(Held::Started(Some(_), _)) => 5,
        }
    }
}

impl RawDecoder for Iso2022JpDecoder {
    ghost use Rattle.enc_decoder.specs.declared.text_lengths.TextLengths.TheVariants as lengths;
    ghost use Rattle.enc_decoder_iso_2022_jp.specs.Iso2022JpState.{iso_2022_jp_state};

    ghost state = { iso_2022_jp_state };

    ghost formulas = { λ _. lengths.MultiByte };

    #[tactic(auto, using(crate::proofs::Iso2022JpRule::iso_2022_jp_is_lawful))]
    #[inline(always)]
    fn decode<U: Units>(
        &mut self,
        src: &[u8],
        out: &mut U,
        options: CallOptions,
    ) -> DecoderOutcome {
        run(self, src, out, options)
    }

    fn held(&self) -> usize {
        ByteCodec::held(*self) as usize
    }

    fn latin1_byte_compatible_up_to(&self, bytes: &[u8]) -> Option<usize> {
        match self.set {
            CharacterSet::Ascii => latin1_up_to(*self, bytes),
            _ => None,
        }
    }

    fn text_lengths(&self) -> TextLengths {
        TextLengths::MultiByte
    }
}
