//! Laws over the definitions: contracts of functions that do nothing.

ghost use Rattle.std.specs.Prelude.{◌≡◌, ℕ, true, false, Some, List, map};
ghost use Rattle.enc_encode.specs.Encoders.{encoder_rule};
ghost use Rattle.enc_encoder.specs.EncoderRule.{EncoderRule};
ghost use Rattle.enc_encoder.specs.Barring.{barring_rule};
ghost use Rattle.enc_decoder.specs.Sequence.{any_malformed, sequence_text};
ghost use Rattle.enc_encoder.specs.Unmappable.{any_unmappable};
ghost use Rattle.enc_round_trip.specs.RoundTrip.{sequences_read_back, char_read_back};
ghost use Rattle.enc_round_trip.specs.RoundTrip.{keeps_characters};
ghost use Rattle.enc_utf8.specs.Text.{AreScalars};

use enc_index::Codec;

/// Encoded text decodes again, by the same codec (Encoding Standard 4.1).
///
/// The characters of the text are all mappable. The law holds whatever entries the indexes have
/// (but for those of the bytes of 18 characters of private use in gb18030), and whatever characters
/// are barred. No byte order mark is looked for.
pub fn written_text_is_read_back(codec: Codec)
    // No sequence of the bytes is malformed.
    ensures well_formed { (barred : List ℕ) (e : EncoderRule) (text : List ℕ)
        → encoder_rule codec ≡ Some e → AreScalars text
        → any_unmappable (barring_rule barred e) text ≡ false
        → any_malformed (sequences_read_back codec barred e text) ≡ false }

    // Their text has for each character the one that its bytes decode to.
    ensures characters { (barred : List ℕ) (e : EncoderRule) (text : List ℕ)
        → encoder_rule codec ≡ Some e → AreScalars text
        → any_unmappable (barring_rule barred e) text ≡ false
        → sequence_text (sequences_read_back codec barred e text)
        ≡ map (char_read_back codec) text }

    // That is the same text, except in Shift_JIS, EUC-JP and ISO-2022-JP; in gb18030 and GBK if no
    // character of the text is one that they read back as another.
    ensures same_text { (barred : List ℕ) (e : EncoderRule) (text : List ℕ)
        → encoder_rule codec ≡ Some e → AreScalars text
        → any_unmappable (barring_rule barred e) text ≡ false
        → keeps_characters codec text ≡ true
        → sequence_text (sequences_read_back codec barred e text) ≡ text }
{
    let _ = codec;
}
