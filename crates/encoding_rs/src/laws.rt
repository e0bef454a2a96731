//! Laws over the definitions: contracts of functions that do nothing, or only what the law is
//! about.

ghost use Rattle.std.specs.Prelude.{◌≡◌, ◌≢◌, ◌↔◌, ℕ, ◌-◌, ◌≤◌, ◌⊎◌, take, true, false, is_some};
ghost use Rattle.std.specs.Prelude.{IsTrue, List, [], ◌∷◌, ◌++◌, Some, None, map, length};
ghost use Rattle.std.specs.Prelude.{if◌then◌else◌};
ghost use Rattle.enc_stream.specs.declared.bom.BomHandling.TheVariants as handling;
ghost use Rattle.enc_stream.specs.Bom.{marks_looked_for, mark_bytes, mark_sequences};
ghost use Rattle.enc_encode.specs.Encoders.{encoder_rule};
ghost use Rattle.enc_encoder.specs.Barring.{contains_char, are_beyond_ascii};
ghost use Rattle.enc_encoder.specs.Text.{bytes_of_text, with_references};
ghost use Rattle.enc_encoder.specs.declared.character_set.CharacterSet.TheVariants.{Ascii};
ghost use Rattle.enc_encoder.specs.Unmappable.{any_unmappable};
ghost use Rattle.enc_names.specs.EncodingTable.{codec_by_id};
ghost use Rattle.enc_stream.specs.Encodings.{output_rule, rule_of};
ghost use Rattle.enc_stream.specs.MarkLaws.{MayBeginMark};
ghost use Rattle.enc_stream.specs.Decoding.{whole_sequences, whole_utf_8, whole_malformed};
ghost use Rattle.enc_stream.specs.Faults.{faults_from, whole_faults};
ghost use Rattle.enc_stream.specs.Encoder.{whole_bytes};
ghost use Rattle.enc_stream.specs.Labels.{encoding_of_label};
ghost use Rattle.enc_stream.specs.Names.{name_of};
ghost use Rattle.enc_stream.specs.Properties.{output_encoding_of};
ghost use Rattle.enc_codec.specs.Properties.{DeterminesBbByItself};
ghost use Rattle.enc_decoder.specs.Sequence.{Sequence, sequence_bytes, sequence_text};
ghost use Rattle.enc_decoder.specs.Sequence.{any_malformed};
ghost use Rattle.enc_decoder.specs.Segmentation.{sequences_of, IsSegmentation};
ghost use Rattle.enc_decoder.specs.Remainder.{AreBytes, Determines};
ghost use Rattle.enc_decoder.specs.RuleLaws.{HasTexts, IsLookahead, IsDeterminedByEnd};
ghost use Rattle.enc_decoder.specs.Lookahead.{CoverLookahead};
ghost use Rattle.encoding_rs.specs.Lookahead.{MayLook, mark_found, rule_found, after_mark_found};
ghost use Rattle.enc_round_trip.specs.RoundTrip.{char_read_back, any_read_as_other};
ghost use Rattle.std.specs.Char.{encode_utf8};
ghost use Rattle.enc_utf8.specs.Text.{AreScalars, units_of_text};
ghost use Rattle.enc_utf8.specs.Validity.{IsWellFormedUtf8};

use enc_stream::constants::{EUC_JP, GB18030, GBK, ISO_2022_JP, REPLACEMENT, SHIFT_JIS, UTF_8};
pub use enc_stream::laws::{
    ascii_compatible_decode_ascii, ascii_compatible_encode_ascii, constants_have_their_names,
    iso_2022_jp_parts_are_not_the_whole, iso_8859_8_differs, labels_name_one_encoding,
    line_feeds_divide, recoded_parts_are_the_whole, second_constants_are_equal,
    single_byte_decode_bytes, sniffed_is_removed,
};
use enc_stream::{BomHandling, Encoding};
use std::hash::{Hash, Hasher};

/// In UTF-8 every sequence has a text: a character, or U+FFFD for a malformed one.
pub fn utf_8_has_texts()
    ensures { HasTexts (rule_of UTF_8) }
{
    let _ = UTF_8;
}

/// In every encoding but replacement and ISO-2022-JP, every sequence has a text.
pub fn has_texts(encoding: Encoding)
    ensures { (encoding ≡ REPLACEMENT → ⊥) → (encoding ≡ ISO_2022_JP → ⊥)
        → HasTexts (rule_of encoding) }
{
    let _ = (encoding, REPLACEMENT, ISO_2022_JP);
}

/// The elements of a slice of bytes are bytes: each is below 256.
///
/// Length queries of decoders ask for it in their clause `enough`, and
/// [`lookahead_is_exact`] does.
pub fn slices_are_bytes(bytes: &[u8])
    ensures { AreBytes bytes.now }
{
    let _ = bytes;
}

/// Bytes are well-formed UTF-8 exactly if the UTF-8 decoder finds no malformed sequence in them.
///
/// Well-formed is as in Unicode Standard 3.9, D92 and table 3-7.
pub fn well_formed_utf_8(bytes: &[u8])
    ensures { IsWellFormedUtf8 bytes.now ↔ (whole_malformed handling.Off UTF_8 bytes.now ≡ false) }
{
    let _ = bytes;
}

/// A prefix first determines whether there is a byte order mark, and then sequences.
pub fn mark_is_determined_first(encoding: Encoding, handling: BomHandling)
    // A prefix that is no proper prefix of a byte order mark looked for determines which one there
    // is.
    ensures decided { (x y : List ℕ) → (MayBeginMark (marks_looked_for handling encoding) x → ⊥)
        → mark_found handling encoding (x ++ y) ≡ mark_found handling encoding x }

    // A proper prefix of a byte order mark looked for determines no sequence.
    ensures first { (x : List ℕ) (s : Sequence) (ss : List Sequence)
        → MayBeginMark (marks_looked_for handling encoding) x
        → Determines (whole_sequences handling encoding) x (s ∷ ss) → ⊥ }

    // Any other prefix determines the byte order mark, if there is one, and then what the rule
    // alone does, from the bytes after it.
    ensures then { (x : List ℕ) (ss : List Sequence)
        → (MayBeginMark (marks_looked_for handling encoding) x → ⊥)
        → Determines (whole_sequences handling encoding) x
        (mark_sequences (mark_found handling encoding x) ++ ss)
        ↔ Determines (sequences_of (rule_found handling encoding x) 0)
        (after_mark_found handling encoding x) ss }
{
    let _ = (encoding, handling);
}

/// The exact lookahead of decoders.
///
/// The first k bytes of an input determine its first sequences exactly if they determine the byte
/// order mark, and contain each of these sequences with its lookahead. So the shortest prefix that
/// determines a sequence and all before it, if there is one, has the greatest of these lengths.
pub fn lookahead_is_exact(encoding: Encoding, handling: BomHandling)
    ensures determined { (bytes : List ℕ) (s : Sequence) (ss rest : List Sequence) (k : ℕ)
        → AreBytes bytes
        → whole_sequences handling encoding bytes
        ≡ mark_sequences (mark_found handling encoding bytes) ++ ((s ∷ ss) ++ rest)
        → k ≤ length bytes
        → Determines (whole_sequences handling encoding) (take k bytes)
        (mark_sequences (mark_found handling encoding bytes) ++ s ∷ ss)
        ↔ ((MayBeginMark (marks_looked_for handling encoding) (take k bytes) → ⊥)
        × CoverLookahead (rule_found handling encoding bytes) 0
        (after_mark_found handling encoding bytes) (s ∷ ss)
        (k - length (mark_bytes (mark_found handling encoding bytes)))) }

    // Each sequence has a lookahead, or only the end of the input determines it.
    ensures some { (set b : ℕ) (z : List ℕ)
        → ((n : ℕ) × IsLookahead (rule_of encoding) set b z n)
        ⊎ IsDeterminedByEnd (rule_of encoding) set b z }
    ensures kinds { (set b : ℕ) (z : List ℕ) (n : ℕ) → AreBytes z
        → IsLookahead (rule_of encoding) set b z n
        → MayLook encoding (rule_of encoding set b z).kind n }
{
    let _ = (encoding, handling);
}

/// A byte order mark is skipped: it is a sequence without a text.
///
/// The text of a whole input is that of the bytes after the byte order mark, by its encoding. So is
/// whether a sequence is malformed. Offsets count from the start of the input.
pub fn mark_is_skipped(encoding: Encoding, handling: BomHandling)
    ensures text { (bytes : List ℕ) → whole_utf_8 handling encoding bytes
        ≡ units_of_text encode_utf8 (sequence_text (sequences_of
        (rule_found handling encoding bytes) 0 (after_mark_found handling encoding bytes))) }
    ensures flag { (bytes : List ℕ) → whole_malformed handling encoding bytes
        ≡ any_malformed (sequences_of (rule_found handling encoding bytes) 0
        (after_mark_found handling encoding bytes)) }
    ensures faults { (bytes : List ℕ) → whole_faults handling encoding bytes
        ≡ faults_from (length (mark_bytes (mark_found handling encoding bytes))) (sequences_of
        (rule_found handling encoding bytes) 0 (after_mark_found handling encoding bytes)) }
{
    let _ = (encoding, handling);
}

/// The sequences of a whole input, joined, are its bytes.
///
/// A byte order mark is the first of them. There is one segmentation of the bytes after it.
pub fn sequences_are_the_bytes(encoding: Encoding, handling: BomHandling)
    ensures joined { (bytes : List ℕ)
        → sequence_bytes (whole_sequences handling encoding bytes) ≡ bytes }

    // After the byte order mark the rule gives each at its place. No other list is such a
    // segmentation.
    ensures segmentation { (bytes : List ℕ) (ss : List Sequence)
        → whole_sequences handling encoding bytes
        ≡ mark_sequences (mark_found handling encoding bytes) ++ ss
        → IsSegmentation (rule_found handling encoding bytes) 0
        (after_mark_found handling encoding bytes) ss }
    ensures one { (bytes : List ℕ) (ss : List Sequence)
        → IsSegmentation (rule_found handling encoding bytes) 0
        (after_mark_found handling encoding bytes) ss
        → mark_sequences (mark_found handling encoding bytes) ++ ss
        ≡ whole_sequences handling encoding bytes }
{
    let _ = (encoding, handling);
}

/// Returns whether two encodings are equal: exactly if they are the same one.
pub fn equal_are_the_same(a: Encoding, b: Encoding) -> bool
    ensures { IsTrue result ↔ (a ≡ b) }
{
    a == b
}

/// Equal encodings hash alike: they change equal hashers to equal ones.
pub fn equal_hash_alike<H: Hasher>(a: Encoding, b: Encoding, first: &mut H, second: &mut H)
    ensures { a ≡ b → first.old ≡ second.old → first.new ≡ second.new }
{
    a.hash(first);
    b.hash(second);
}

/// The name of an encoding is one of its labels.
pub fn names_are_labels(encoding: Encoding)
    ensures { encoding_of_label (name_of encoding) ≡ Some encoding }
{
    let _ = encoding;
}

/// If EF before BB is a sequence by itself, so is BB, with lookahead 0.
///
/// So a decoder that has written EF of an incomplete byte order mark EF BB, and still holds BB, has
/// read no byte after BB.
pub fn pending_bb_is_determined_alone(encoding: Encoding)
    ensures { DeterminesBbByItself (rule_of encoding) }
{
    let _ = encoding;
}

/// The output encoding of an output encoding is itself, and it has an encoder.
pub fn output_encodings_are_their_own(encoding: Encoding)
    ensures same { output_encoding_of (output_encoding_of encoding) ≡ output_encoding_of encoding }
    ensures encoder { is_some (encoder_rule (codec_by_id (output_encoding_of encoding).id)) ≡ true }
{
    let _ = encoding;
}

/// Text with references is mappable, whatever characters are barred.
///
/// So replacing its unmappable characters again changes nothing.
pub fn references_are_mappable(encoding: Encoding)
    ensures once { (barred text : List ℕ)
        → with_references (output_rule barred encoding)
        (with_references (output_rule barred encoding) text)
        ≡ with_references (output_rule barred encoding) text }
    ensures mappable { (barred text : List ℕ)
        → any_unmappable (output_rule barred encoding)
        (with_references (output_rule barred encoding) text) ≡ false }
{
    let _ = encoding;
}

/// Barring characters makes exactly these unmappable in addition.
///
/// All others keep their bytes ([`Encoding::new_encoder_barring`]).
pub fn barred_characters_are_unmappable(encoding: Encoding)
    ensures { (barred : List ℕ) (c : ℕ) → are_beyond_ascii barred ≡ true
        → (output_rule barred encoding).bytes c
        ≡ (if contains_char barred c then None else (output_rule [] encoding).bytes c) }
{
    let _ = encoding;
}

/// Encoded text decodes again, in the same encoding (Encoding Standard 4.1).
///
/// The law holds whatever characters are barred, and whatever entries the indexes have, but for
/// those of the bytes of 18 characters of private use in gb18030. No byte order mark is looked for.
pub fn encoded_text_decodes_back(encoding: Encoding)
    // The bytes of a text whose characters are all mappable have no malformed sequence.
    ensures well_formed { (barred text : List ℕ) → AreScalars text
        → any_unmappable (output_rule barred encoding) text ≡ false
        → whole_malformed handling.Off (output_encoding_of encoding)
        (bytes_of_text (output_rule barred encoding) Ascii text) ≡ false }

    // They decode to the same text, except in EUC-JP, Shift_JIS and ISO-2022-JP; in gb18030 and GBK
    // if it has none of the 18 characters of private use that they read back as others.
    ensures same_text { (barred text : List ℕ) → AreScalars text
        → any_unmappable (output_rule barred encoding) text ≡ false
        → output_encoding_of encoding ≢ EUC_JP → output_encoding_of encoding ≢ SHIFT_JIS
        → output_encoding_of encoding ≢ ISO_2022_JP
        → (output_encoding_of encoding ≡ GBK → any_read_as_other text ≡ false)
        → (output_encoding_of encoding ≡ GB18030 → any_read_as_other text ≡ false)
        → sequence_text (whole_sequences handling.Off (output_encoding_of encoding)
        (bytes_of_text (output_rule barred encoding) Ascii text)) ≡ text }

    // In those five too each character decodes to one character: itself, or another with its
    // bytes.
    ensures characters { (barred text : List ℕ) → AreScalars text
        → any_unmappable (output_rule barred encoding) text ≡ false
        → sequence_text (whole_sequences handling.Off (output_encoding_of encoding)
        (bytes_of_text (output_rule barred encoding) Ascii text))
        ≡ map (char_read_back (codec_by_id (output_encoding_of encoding).id)) text }

    // The bytes of a text with references have no malformed sequence either.
    ensures references { (barred text : List ℕ) → AreScalars text
        → whole_malformed handling.Off (output_encoding_of encoding)
        (whole_bytes barred encoding text) ≡ false }
{
    let _ = (encoding, EUC_JP, SHIFT_JIS, ISO_2022_JP, GBK, GB18030);
}
