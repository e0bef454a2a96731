//! Laws over the definitions: contracts of functions that do nothing.

ghost use Rattle.enc_decoder_iso_2022_jp.specs.Iso2022Jp.{iso_2022_jp_rule};
ghost use Rattle.enc_decoder_iso_2022_jp.specs.Iso2022JpLaws.{SetsAreOfLastEscapes};
ghost use Rattle.enc_decoder_iso_2022_jp.specs.Iso2022JpLaws.{HasSkippedLookahead};

/// In ISO-2022-JP the last escape sequence before determines the designated character set.
///
/// This holds between any two sequences (Encoding Standard 12.2.1).
#[tactic(auto, using(crate::proofs::Iso2022JpSets::sets_are_of_last_escapes))]
pub fn iso_2022_jp_set_is_of_last_escape()
    ensures { SetsAreOfLastEscapes iso_2022_jp_rule }
{}

/// In ISO-2022-JP a skipped escape sequence is never determined by itself.
///
/// One to three bytes after it determine it, or the end of the input. It is malformed if another
/// one directly follows (Encoding Standard 12.2.1).
#[tactic(auto, using(crate::proofs::SkippedEscapes::looks_after_skipped))]
pub fn iso_2022_jp_looks_after_escapes()
    ensures { HasSkippedLookahead iso_2022_jp_rule }
{}
