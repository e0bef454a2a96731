//! The UTF-16 codecs (Encoding Standard 14.2 to 14.4).

ghost use Rattle.std.specs.Prelude.{◌≡◌, [], ◌∷◌, true, false};
ghost use Rattle.enc_decoder_utf.specs.Utf16.{code_unit as unit_of};
ghost use Rattle.enc_decoder_utf.specs.Utf16.{is_lead_surrogate as begins_pair};
ghost use Rattle.enc_decoder_utf.specs.Utf16.{is_trail_surrogate as ends_pair, pair_scalar};
ghost use Rattle.enc_decoder_utf.specs.Utf16.{utf_16_prefix};
ghost use Rattle.enc_decoder_utf.specs.Utf16State.{with_pending};
ghost use Rattle.enc_decoder.specs.declared.prefix.Prefix.TheVariants.{Incomplete};

use enc_decoder::{Pending, Prefix, PrefixCodec, Text, TextLengths};
use enc_output::{CodeUnits, Pieces, UnitPieces, Units, put_run};
use std::marker::Model;

/// The shared UTF-16 decoder (Encoding Standard 14.2), big-endian or little-endian.
///
/// Its pending bytes are a single byte, or a lead surrogate, or a lead surrogate and one byte more.
#[derive(Clone, Copy)]
pub struct Utf16Decoder {
    big_endian: bool,
    pending: Pending,
}

impl Model for Utf16Decoder {
    ghost use Rattle.std.specs.Prelude.{false};
    ghost use Rattle.enc_decoder.specs.Pending.{bytes_of_pending};
    ghost use Rattle.enc_decoder.specs.Prefixes.{AreKept};
    ghost use Rattle.enc_decoder_utf.specs.Utf16.{utf_16_prefix};
    ghost use Rattle.enc_decoder_utf.specs.Utf16State.{Utf16State};

    ghost Value = { Utf16State };

    ghost view = { λ d. record { big_endian = d.big_endian; pending = d.pending } };

    ghost invariant = { λ d. AreKept false (utf_16_prefix d.big_endian)
        (bytes_of_pending d.pending) };

    ghost inverse = { λ s. record { big_endian = s.big_endian; pending = s.pending } };
}

impl Utf16Decoder {
    /// Returns a decoder that has read nothing, big-endian or little-endian.
    pub fn new(big_endian: bool) -> Utf16Decoder
        ensures { result ≡ with_pending big_endian Pending.Nothing }
    {
        Utf16Decoder {
            big_endian,
            pending: Pending::Nothing,
        }
    }
}

/// Returns the code unit of two bytes.
#[tactic(auto, unfolding(crate::specs::Utf16::code_unit))]
fn code_unit(big_endian: bool, first: u8, second: u8) -> u16
    ensures { result ≡ unit_of big_endian first second }
{
    if big_endian {
        first as u16 * 256 + second as u16
    } else {
        second as u16 * 256 + first as u16
    }
}

/// Returns whether a code unit begins a surrogate pair.
#[tactic(auto, unfolding(crate::specs::Utf16::is_lead_surrogate))]
fn is_lead_surrogate(unit: u16) -> bool
    ensures { result ≡ begins_pair unit }
{
    unit >= 0xD800 && unit <= 0xDBFF
}

/// Returns whether a code unit ends a surrogate pair.
#[tactic(auto, unfolding(crate::specs::Utf16::is_trail_surrogate))]
fn is_trail_surrogate(unit: u16) -> bool
    ensures { result ≡ ends_pair unit }
{
    unit >= 0xDC00 && unit <= 0xDFFF
}

/// Returns the character of a code unit that is no surrogate.
fn unit_char(unit: u16) -> char
    requires no_lead { begins_pair unit ≡ false }
    requires no_trail { ends_pair unit ≡ false }
    ensures { result ≡ unit }
{
    char::from_u32(unit as u32).unwrap()
}

/// Returns the character of a surrogate pair.
#[tactic(auto, unfolding(crate::specs::Utf16::pair_scalar))]
fn pair_char(lead: u16, trail: u16) -> char
    requires lead { begins_pair lead ≡ true }
    requires trail { ends_pair trail ≡ true }
    ensures { result ≡ pair_scalar lead trail }
{
    let scalar = 0x10000 + (lead as u32 - 0xD800) * 0x400 + (trail as u32 - 0xDC00);
    char::from_u32(scalar).unwrap()
}

/// Classifies the second byte of a code unit.
fn read_second(big_endian: bool, first: u8, byte: u8) -> Prefix
    ensures { result ≡ utf_16_prefix big_endian (first ∷ byte ∷ []) }
{
    let unit = code_unit(big_endian, first, byte);
    if is_lead_surrogate(unit) {
        Prefix::Incomplete
    } else if is_trail_surrogate(unit) {
        Prefix::Malformed(2)
    } else {
        Prefix::Complete(Text::One(unit_char(unit)))
    }
}

/// Classifies the second byte of the code unit after a lead surrogate.
///
/// If it ends no pair, it is restored.
fn read_fourth(big_endian: bool, first: u8, second: u8, third: u8, byte: u8) -> Prefix
    requires lead { utf_16_prefix big_endian (first ∷ second ∷ []) ≡ Incomplete }
    ensures { result ≡ utf_16_prefix big_endian (first ∷ second ∷ third ∷ byte ∷ []) }
{
    let lead = code_unit(big_endian, first, second);
    let unit = code_unit(big_endian, third, byte);
    if is_trail_surrogate(unit) {
        Prefix::Complete(Text::One(pair_char(lead, unit)))
    } else {
        Prefix::Malformed(2)
    }
}

/// The characters of UTF-16 in a byte order.
#[derive(Clone, Copy)]
struct InOrder {
    big_endian: bool,
}

impl Pieces for InOrder {
    ghost use Rattle.enc_decoder_utf.specs.Utf16.{utf_16_rule};
    ghost use Rattle.enc_decoder.specs.Taking.{IsWholeChar};

    ghost means = { λ o. IsWholeChar (utf_16_rule o.big_endian) 0 };

    #[inline(always)]
    fn piece(self, src: &[u8], at: usize) -> Option<(char, usize)> {
        let left = src.len() - at;
        if left < 2 {
            return None;
        }
        let unit = code_unit(self.big_endian, src[at], src[at + 1]);
        if is_trail_surrogate(unit) {
            return None;
        }
        if !is_lead_surrogate(unit) {
            return Some((unit_char(unit), 2));
        }
        if left < 4 {
            return None;
        }
        let trail = code_unit(self.big_endian, src[at + 2], src[at + 3]);
        if !is_trail_surrogate(trail) {
            return None;
        }
        Some((pair_char(unit, trail), 4))
    }
}

impl UnitPieces for InOrder {
    fn is_big_endian(self) -> bool {
        self.big_endian
    }
}

impl PrefixCodec for Utf16Decoder {
    ghost use Rattle.std.specs.Prelude.{false};
    ghost use Rattle.enc_decoder.specs.declared.text_lengths.TextLengths.TheVariants as lengths;
    ghost use Rattle.enc_decoder_utf.specs.Utf16.{utf_16_prefix};

    ghost prefix = { λ d. utf_16_prefix d.big_endian };

    ghost waiting = { λ d. d.pending };

    ghost leaves_others = { false };

    ghost lengths = { lengths.Utf16 };

    #[inline(always)]
    fn laws(self) {
        let _pending = self.pending;
    }

    #[inline(always)]
    fn leaves_others() -> bool {
        false
    }

    #[inline(always)]
    fn waiting(self) -> Pending {
        self.pending
    }

    #[inline(always)]
    fn with_waiting(self, pending: Pending) -> Utf16Decoder {
        Utf16Decoder {
            big_endian: self.big_endian,
            pending,
        }
    }

    #[inline(always)]
    fn classify(self, front: Pending, byte: u8) -> Prefix {
        match front {
            Pending::Nothing => Prefix::Incomplete,
            Pending::One(first) => read_second(self.big_endian, first, byte),
            Pending::Two(_, _) => Prefix::Incomplete,
            Pending::Three(first, second, third) => {
                read_fourth(self.big_endian, first, second, third, byte)
            }
        }
    }

    #[inline(always)]
    fn put_front<U: Units>(self, src: &[u8], out: &mut U) -> usize {
        let pieces = InOrder {
            big_endian: self.big_endian,
        };
        put_run(out, CodeUnits { pieces }, src)
    }

    #[inline(always)]
    fn replaces_each() -> bool {
        false
    }

    #[inline(always)]
    fn has_bytes(self) -> bool {
        let _decoder = self;
        false
    }

    /// They are enough, since a whole pending code unit is a lead surrogate.
    fn lengths(self) -> TextLengths {
        let _pending = self.pending;
        TextLengths::Utf16
    }
}
