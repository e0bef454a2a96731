//! How a decoder begins.

ghost use Rattle.std.specs.Prelude.{◌≡◌};
ghost use Rattle.enc_stream.specs.declared.bom.BomHandling.TheVariants as handling;
ghost use Rattle.enc_stream.specs.declared.lengths.Query.TheVariants as query;
ghost use Rattle.enc_stream.specs.Lengths.{max_length};
ghost use Rattle.enc_stream.specs.Decoding.{fresh_decoder};

use super::Decoder;
use crate::bom::BomHandling;
use crate::encoding::{Encoding, codec_of};
use crate::lengths::Query;
use crate::life_cycle::first_life;
use crate::parts::DecoderParts;
use enc_codec::NewDecoder;

/// Returns the length in bytes to allocate for the UTF-8 of a whole input, without replacement.
///
/// It is that of a decoder at the start, which it does not make.
#[inline(always)]
pub(crate) fn whole_length(
    encoding: Encoding,
    handling: BomHandling,
    byte_length: usize,
) -> Option<usize>
    ensures { result ≡
        max_length query.Utf8Reporting (fresh_decoder handling encoding) byte_length }
{
    let formulas = codec_of(encoding).text_lengths();
    Query::Utf8Reporting.max_length(first_life(encoding, handling), formulas, byte_length, 0)
}

impl Encoding {
    /// Returns a decoder that looks for all three byte order marks (Encoding Standard 6, "decode").
    ///
    /// If the input begins with one, the decoder changes to the byte order mark's encoding. It has
    /// read nothing.
    pub fn new_decoder(self) -> Decoder
        ensures { result ≡ fresh_decoder handling.Sniff self }
    {
        Decoder::start(self, BomHandling::Sniff)
    }

    /// Returns a decoder that removes the byte order mark of its own encoding.
    ///
    /// That is "UTF-8 decode" of Encoding Standard 6, for any encoding. Only UTF-8, UTF-16BE and
    /// UTF-16LE have a byte order mark. The decoder has read nothing.
    pub fn new_decoder_with_bom_removal(self) -> Decoder
        ensures { result ≡ fresh_decoder handling.Remove self }
    {
        Decoder::start(self, BomHandling::Remove)
    }

    /// Returns a decoder that looks for no byte order mark.
    ///
    /// That is "UTF-8 decode without BOM" of Encoding Standard 6, for any encoding. The decoder has
    /// read nothing.
    pub fn new_decoder_without_bom_handling(self) -> Decoder
        ensures { result ≡ fresh_decoder handling.Off self }
    {
        Decoder::start(self, BomHandling::Off)
    }

    /// Returns a decoder that looks for the byte order marks of `handling`.
    ///
    /// That is the one of the three above that `handling` names. The decoder has read nothing.
    pub fn new_decoder_with_bom_handling(self, handling: BomHandling) -> Decoder
        ensures { result ≡ fresh_decoder handling self }
    {
        Decoder::start(self, handling)
    }
}

impl Decoder {
    /// Returns a decoder that looks for the byte order marks of `handling`. It has read nothing.
    pub(crate) fn start(encoding: Encoding, handling: BomHandling) -> Decoder
        ensures { result ≡ fresh_decoder handling encoding }
    {
        Decoder {
            parts: DecoderParts::start(encoding, handling),
        }
    }
}
