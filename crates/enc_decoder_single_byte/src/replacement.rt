//! The replacement decoder (Encoding Standard 14.1).

ghost use Rattle.std.specs.Prelude.{◌≡◌, true, false};

use enc_decoder::{
    ByteCodec, CallOptions, DecoderOutcome, Emission, HandlerResult, Kind, RawDecoder, Text,
    TextLengths, run,
};
use enc_output::Units;
use std::marker::Model;

/// The replacement decoder, for text that cannot be decoded safely (Encoding Standard 14.1).
///
/// The first byte is malformed, and all others are skipped.
#[derive(Clone, Copy)]
pub struct ReplacementDecoder {
    error_reported: bool,
}

impl Model for ReplacementDecoder {
    ghost use Rattle.std.specs.Prelude.{Bool};

    ghost Value = { Bool };

    ghost view = { λ d. d.error_reported };

    ghost inverse = { λ b. record { error_reported = b } };
}

impl ReplacementDecoder {
    /// Returns a decoder that has read nothing.
    pub fn new() -> ReplacementDecoder
        ensures { result ≡ false }
    {
        ReplacementDecoder {
            error_reported: false,
        }
    }
}

/// Returns the effect of a byte. After it the first byte has been reported.
fn show_byte(text: Text, kind: Kind) -> HandlerResult<ReplacementDecoder>
    ensures { result ≡ HandlerResult.Emit
        (record { text = text; kind = kind; len = 1; takes_byte = true; next = true }) }
{
    HandlerResult::Emit(Emission {
        text,
        kind,
        len: 1,
        takes_byte: true,
        next: ReplacementDecoder {
            error_reported: true,
        },
    })
}

impl ByteCodec for ReplacementDecoder {
    ghost use Rattle.enc_decoder_single_byte.specs.Replacement.{replacement_state};

    ghost state = { replacement_state };

    fn next_step(self, byte: u8) -> HandlerResult<ReplacementDecoder> {
        if self.error_reported {
            show_byte(Text::Nothing, Kind::Skipped)
        } else {
            show_byte(Text::One('\u{FFFD}'), Kind::Malformed)
        }
    }

    #[tactic(auto, using(enc_decoder::proofs::EmissionLemmas::nothing_pending))]
    fn ready(self) -> Option<Emission<ReplacementDecoder>> {
        None
    }

    fn at_end(self) -> Option<Emission<ReplacementDecoder>> {
        None
    }

    fn held(self) -> u8 {
        0
    }
}

impl RawDecoder for ReplacementDecoder {
    ghost use Rattle.enc_decoder.specs.declared.text_lengths.TextLengths.TheVariants as lengths;
    ghost use Rattle.enc_decoder_single_byte.specs.Replacement.{replacement_state};

    ghost state = { replacement_state };

    ghost formulas = { λ _. lengths.Replacement };

    #[tactic(auto, using(crate::proofs::ReplacementLemmas::replacement_is_lawful))]
    #[inline(always)]
    fn decode<U: Units>(
        &mut self,
        src: &[u8],
        out: &mut U,
        options: CallOptions,
    ) -> DecoderOutcome {
        run(self, src, out, options)
    }

    fn held(&self) -> usize {
        ByteCodec::held(*self) as usize
    }

    fn latin1_byte_compatible_up_to(&self, bytes: &[u8]) -> Option<usize> {
        let _bytes = bytes;
        None
    }

    fn text_lengths(&self) -> TextLengths {
        TextLengths::Replacement
    }
}
