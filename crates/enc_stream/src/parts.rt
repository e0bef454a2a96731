//! The parts of a decoder, and a chunk decoded by what its start was found to be.

ghost use Rattle.std.specs.Prelude.{◌≡◌, ◌≤◌, false, length};
ghost use Rattle.enc_decoder.specs.CallRecord.{call_into};
ghost use Rattle.enc_stream.specs.Decoding.{fresh_decoder, AnswersDecodeInto};
ghost use Rattle.enc_stream.specs.LifeCycle.{has_ended, start_life};
ghost use Rattle.enc_stream.specs.Parts.{state_of_parts, AreParts};
ghost use Rattle.enc_stream.specs.Sniffing.{IsSniffed};

use crate::bom::BomHandling;
use crate::encoding::{Encoding, codec_of};
use crate::life_cycle::{LifeCycle, first_life};
use crate::sniffing::{Sniffed, begins_as_text, sniff};
use crate::text::{decode_plain, decode_text};
use enc_codec::{NewDecoder, VariantDecoder};
use enc_decoder::{CallOptions, DecoderOutcome};
use enc_output::{DecoderResult, Units};

/// The parts of a decoder.
#[derive(Clone, Copy)]
pub(crate) struct DecoderParts {
    pub(crate) encoding: Encoding,
    pub(crate) codec: VariantDecoder,
    pub(crate) life: LifeCycle,
}

impl DecoderParts {
    /// Returns those of a decoder that looks for the byte order marks of `handling`. It has read
    /// nothing.
    pub(crate) fn start(encoding: Encoding, handling: BomHandling) -> DecoderParts
        ensures state { state_of_parts result ≡ fresh_decoder handling encoding }
        ensures life { result.life ≡ start_life handling encoding.id }
        ensures parts { AreParts result }
    {
        DecoderParts {
            encoding,
            codec: codec_of(encoding).new_decoder(),
            life: first_life(encoding, handling),
        }
    }

    /// Decodes a chunk, by the result of the search for a byte order mark at its start.
    ///
    /// It stops when all input is read, when the next sequence does not fit, and in error mode
    /// "fatal" when one is malformed.
    #[inline(always)]
    pub(crate) fn decode_sniffed<U: Units>(
        &mut self,
        sniffed: (Sniffed, usize),
        src: &[u8],
        out: &mut U,
        options: CallOptions,
    ) -> DecoderOutcome
        requires unfinished { has_ended self.old.life ≡ false }
        requires parts { AreParts self.old }
        requires within { sniffed.1 ≤ length src.now }
        requires sniffed { IsSniffed self.old.life src.now options.last sniffed.0 sniffed.1 }
        ensures call { AnswersDecodeInto U.units_of (state_of_parts self.old)
            (state_of_parts self.new)
            (call_into src.now options (U.output out.old) (U.output out.new) result) }
        ensures parts { AreParts self.new }
    {
        U::laws();
        let (found, len) = sniffed;
        let (_, rest) = src.split_at(len);
        match found {
            Sniffed::Open(held) => {
                self.life = held;
                return DecoderOutcome {
                    result: DecoderResult::InputEmpty,
                    read: len,
                    replaced: false,
                };
            }
            Sniffed::Mark(marked) => *self = DecoderParts::start(marked, BomHandling::Off),
            Sniffed::Text(held) => self.life = held,
        }
        let of_text = if begins_as_text(self.life, rest) {
            decode_plain(&mut self.life, &mut self.codec, rest, out, options)
        } else {
            decode_text(&mut self.life, &mut self.codec, rest, out, options)
        };
        DecoderOutcome {
            result: of_text.result,
            read: len + of_text.read,
            replaced: of_text.replaced,
        }
    }

    /// Decodes a chunk, after a byte order mark that is looked for.
    ///
    /// It is a function of its own, since most chunks are text with nothing held.
    #[inline(never)]
    fn decode_searching<U: Units>(
        &mut self,
        src: &[u8],
        out: &mut U,
        options: CallOptions,
    ) -> DecoderOutcome
        requires unfinished { has_ended self.old.life ≡ false }
        requires parts { AreParts self.old }
        ensures call { AnswersDecodeInto U.units_of (state_of_parts self.old)
            (state_of_parts self.new)
            (call_into src.now options (U.output out.old) (U.output out.new) result) }
        ensures parts { AreParts self.new }
    {
        let sniffed = sniff(self.life, src, options.last);
        self.decode_sniffed(sniffed, src, out, options)
    }

    /// Decodes a chunk, after a byte order mark that is looked for.
    ///
    /// It stops when all input is read, when the next sequence does not fit, and in error mode
    /// "fatal" when one is malformed.
    #[inline(always)]
    pub(crate) fn decode<U: Units>(
        &mut self,
        src: &[u8],
        out: &mut U,
        options: CallOptions,
    ) -> DecoderOutcome
        requires unfinished { has_ended self.old.life ≡ false }
        requires parts { AreParts self.old }
        ensures call { AnswersDecodeInto U.units_of (state_of_parts self.old)
            (state_of_parts self.new)
            (call_into src.now options (U.output out.old) (U.output out.new) result) }
        ensures parts { AreParts self.new }
    {
        U::laws();
        if begins_as_text(self.life, src) {
            return decode_plain(&mut self.life, &mut self.codec, src, out, options);
        }
        self.decode_searching(src, out, options)
    }
}
