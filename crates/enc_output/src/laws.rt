//! Laws over the definitions: contracts of functions that do nothing, or only what the law is
//! about.

ghost use Rattle.std.specs.Prelude.{◌≡◌, length};
ghost use Rattle.std.specs.Char.{encode_utf8};
ghost use Rattle.std.specs.Char.Escape.{encode_utf16};
ghost use Rattle.enc_utf8.specs.Text.{DetermineTexts};

use crate::string_tail::StringTail;
use crate::units::Units;
use crate::utf8_slice::Utf8Slice;
use crate::utf16_slice::Utf16Slice;

/// No two texts have the same UTF-8 code units (Unicode Standard 3.9, D92).
#[tactic(auto, using(enc_utf8::proofs::UnitsLemmas::utf_8_determines))]
pub fn utf_8_units_determine_a_text()
    ensures { DetermineTexts encode_utf8 }
{}

/// No two texts have the same UTF-16 code units (Unicode Standard 3.9, D91).
#[tactic(auto, using(enc_utf8::proofs::UnitsLemmas::utf_16_determines))]
pub fn utf_16_units_determine_a_text()
    ensures { DetermineTexts encode_utf16 }
{}

/// Returns [`Units::FAULT`] of [`Utf8Slice`], [`Utf16Slice`] and [`StringTail`].
///
/// It is the number of code units of U+FFFD.
pub fn faults_are_widths() -> (usize, usize, usize)
    ensures utf_8 { result.0 ≡ length (encode_utf8 0xFFFD) }
    ensures utf_16 { result.1 ≡ length (encode_utf16 0xFFFD) }
    ensures string { result.2 ≡ length (encode_utf8 0xFFFD) }
{
    (
        <Utf8Slice as Units>::FAULT,
        <Utf16Slice as Units>::FAULT,
        <StringTail as Units>::FAULT,
    )
}
