//! Laws over the definitions, each the contract of a function that does nothing.
//! `encoding_rs::laws` passes them on, and has those of whole inputs and of both sides.

ghost use Rattle.std.specs.Prelude.{◌≡◌, ◌≢◌, ◌↔◌, ℕ, ◌<◌, ◌||◌, true, List, [], ◌∷◌, ◌++◌, Some};
ghost use Rattle.enc_codec.specs.Properties.{IsAsciiCompatible, IsSingleByte};
ghost use Rattle.enc_encoder.specs.declared.character_set.CharacterSet.TheVariants.{Ascii};
ghost use Rattle.enc_stream.specs.declared.bom.BomHandling.{BomHandling};
ghost use Rattle.enc_stream.specs.declared.bom.BomHandling.TheVariants.{Off, Sniff, Remove};
ghost use Rattle.enc_stream.specs.Decoding.{whole_sequences, whole_encoding, whole_utf_8};
ghost use Rattle.enc_stream.specs.Decoding.{whole_malformed};
ghost use Rattle.enc_stream.specs.Division.{ByteDivides};
ghost use Rattle.enc_stream.specs.Encodings.{rule_of, output_rule};
ghost use Rattle.enc_stream.specs.Properties.{is_ascii_compatible, is_single_byte};
ghost use Rattle.enc_stream.specs.Recoding.{recoded_bytes, any_replaced};

use crate::constants::{ISO_2022_JP, ISO_8859_8, ISO_8859_8_I, UTF_8};
use crate::encoding::Encoding;
pub use crate::table_laws::{
    constants_have_their_names, labels_name_one_encoding, second_constants_are_equal,
};

/// ISO-8859-8 and ISO-8859-8-I differ, though they have the same index.
pub fn iso_8859_8_differs()
    ensures { ISO_8859_8 ≢ ISO_8859_8_I }
{}

/// The ASCII-compatible encodings, by their rules ([`Encoding::is_ascii_compatible`]).
///
/// These are the encodings in which each byte below 0x80 at the start of an input is a sequence by
/// itself, of the character with its number.
pub fn ascii_compatible_decode_ascii(encoding: Encoding)
    ensures { (is_ascii_compatible encoding ≡ true) ↔ IsAsciiCompatible (rule_of encoding) }
{
    let _ = encoding;
}

/// In the ASCII-compatible encodings each ASCII character is also written as the byte with its
/// number ([`Encoding::is_ascii_compatible`]).
///
/// This holds whatever characters are barred. No escape sequence is due before it.
pub fn ascii_compatible_encode_ascii(encoding: Encoding)
    ensures bytes { is_ascii_compatible encoding ≡ true → (barred : List ℕ) (c : ℕ) → c < 0x80
        → (output_rule barred encoding).bytes c ≡ Some (c ∷ []) }
    ensures set { is_ascii_compatible encoding ≡ true → (barred : List ℕ) (c : ℕ) → c < 0x80
        → (output_rule barred encoding).has Ascii c ≡ true }
{
    let _ = encoding;
}

/// The single-byte encodings, by their rules ([`Encoding::is_single_byte`]).
///
/// These are the encodings in which each sequence of each input has one byte and a text. (In
/// replacement each has one byte too, but only the first has a text.)
pub fn single_byte_decode_bytes(encoding: Encoding)
    ensures { (is_single_byte encoding ≡ true) ↔ IsSingleByte (rule_of encoding) }
{
    let _ = encoding;
}

/// In an ASCII-compatible encoding a line feed divides an input, as each byte below 0x30 does.
///
/// No byte order mark is looked for. For the line feed [`Encoding::line_feeds_divide`] says so, and
/// that it is so in no other encoding. 0x30 to 0x39, the ASCII digits, stand within sequences of
/// gb18030.
pub fn line_feeds_divide(encoding: Encoding)
    // The sequences of an input are those of its bytes up to this one, and those of the bytes after
    // it.
    ensures sequences { is_ascii_compatible encoding ≡ true → (c : ℕ) → c < 0x30
        → ByteDivides c encoding }

    // So is the text, here in UTF-8.
    ensures text { is_ascii_compatible encoding ≡ true → (c : ℕ) → c < 0x30
        → (front back : List ℕ) → whole_utf_8 Off encoding (front ++ c ∷ back)
        ≡ whole_utf_8 Off encoding (front ++ c ∷ [])
        ++ whole_utf_8 Off encoding back }

    // A sequence of the input is malformed exactly if one of either part is.
    ensures flag { is_ascii_compatible encoding ≡ true → (c : ℕ) → c < 0x30
        → (front back : List ℕ) → whole_malformed Off encoding (front ++ c ∷ back)
        ≡ (whole_malformed Off encoding (front ++ c ∷ [])
        || whole_malformed Off encoding back) }
{
    let _ = encoding;
}

/// Parts of an input that end with such a byte can be recoded one by one, and joined.
///
/// The first part may look for byte order marks. The parts after it look for none, and are decoded
/// by the encoding of the first: that of its mark, if one is found, and else `from`
/// ([`line_feeds_divide`]). This encoding is ASCII-compatible. Recoding is with replacement and
/// references.
pub fn recoded_parts_are_the_whole(from: Encoding, to: Encoding)
    // The bytes are those of the parts, joined, in every output encoding but ISO-2022-JP.
    ensures bytes { (handling : BomHandling) (c : ℕ) (front back : List ℕ)
        → is_ascii_compatible (whole_encoding handling from (front ++ c ∷ [])) ≡ true
        → to ≢ ISO_2022_JP → c < 0x30
        → recoded_bytes handling from to (front ++ c ∷ back)
        ≡ recoded_bytes handling from to (front ++ c ∷ [])
        ++ recoded_bytes Off (whole_encoding handling from (front ++ c ∷ [])) to back }

    // Something of the input is replaced exactly if something of either part is.
    ensures flag { (handling : BomHandling) (c : ℕ) (front back : List ℕ)
        → is_ascii_compatible (whole_encoding handling from (front ++ c ∷ [])) ≡ true → c < 0x30
        → any_replaced handling from to (front ++ c ∷ back)
        ≡ (any_replaced handling from to (front ++ c ∷ [])
        || any_replaced Off (whole_encoding handling from (front ++ c ∷ [])) to back) }
{
    let _ = (from, to, ISO_2022_JP);
}

/// Decoding that sniffs is decoding by the encoding that it finds, whose own mark is removed.
///
/// So a mark can be looked for once, before an input is recoded in parts
/// ([`recoded_parts_are_the_whole`]).
pub fn sniffed_is_removed(encoding: Encoding)
    ensures sequences { (bytes : List ℕ) → whole_sequences Sniff encoding bytes
        ≡ whole_sequences Remove (whole_encoding Sniff encoding bytes) bytes }

    // Removal keeps the encoding.
    ensures encoding { (bytes : List ℕ) → whole_encoding Remove encoding bytes ≡ encoding }
{
    let _ = encoding;
}

/// In ISO-2022-JP the bytes of the parts, joined, can be others than those of the whole.
///
/// Of `¥`, a line feed and `a` in UTF-8, the first part ends with an escape sequence to ASCII. In
/// the whole it stands after `a`, since the set Roman has both.
pub fn iso_2022_jp_parts_are_not_the_whole()
    ensures { recoded_bytes Off UTF_8 ISO_2022_JP (0xC2 ∷ 0xA5 ∷ 0x0A ∷ 0x61 ∷ [])
        ≢ recoded_bytes Off UTF_8 ISO_2022_JP (0xC2 ∷ 0xA5 ∷ 0x0A ∷ [])
        ++ recoded_bytes Off UTF_8 ISO_2022_JP (0x61 ∷ []) }
{
    let _ = (UTF_8, ISO_2022_JP);
}
