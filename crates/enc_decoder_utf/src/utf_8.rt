//! The UTF-8 codec (Encoding Standard 8.1.1).

ghost use Rattle.std.specs.Prelude.{◌≡◌, [], ◌∷◌, true, nat_le};
ghost use Rattle.enc_utf8.specs.Utf8Sequences.{sequence_len as len_by_lead};
ghost use Rattle.enc_utf8.specs.Utf8Sequences.{is_second_byte as second_follows};
ghost use Rattle.enc_utf8.specs.Utf8Sequences.{is_continuation as continues, scalar_of};
ghost use Rattle.enc_decoder_utf.specs.Utf8.{utf_8_prefix};
ghost use Rattle.enc_decoder.specs.declared.prefix.Prefix.TheVariants.{Incomplete};

use enc_decoder::{Pending, Prefix, PrefixCodec, Text, TextLengths};
use enc_output::{Units, put_utf8_run};
use enc_utf8::ascii_valid_up_to;
use std::marker::Model;

/// The UTF-8 decoder (Encoding Standard 8.1.1).
///
/// Its pending bytes are an incomplete well-formed sequence.
#[derive(Clone, Copy)]
pub struct Utf8Decoder {
    pending: Pending,
}

impl Model for Utf8Decoder {
    ghost use Rattle.std.specs.Prelude.{false};
    ghost use Rattle.enc_decoder.specs.declared.pending.Pending.{Pending};
    ghost use Rattle.enc_decoder.specs.Pending.{bytes_of_pending};
    ghost use Rattle.enc_decoder.specs.Prefixes.{AreKept};
    ghost use Rattle.enc_decoder_utf.specs.Utf8.{utf_8_prefix};

    ghost Value = { Pending };

    ghost view = { λ d. d.pending };

    ghost invariant = { λ d. AreKept false utf_8_prefix (bytes_of_pending d.pending) };

    ghost inverse = { λ p. record { pending = p } };
}

impl Utf8Decoder {
    /// Returns a decoder that has read nothing.
    pub fn new() -> Utf8Decoder
        ensures { result ≡ Pending.Nothing }
    {
        Utf8Decoder {
            pending: Pending::Nothing,
        }
    }
}

/// Returns the length of the well-formed sequences that begin with a byte, or 0 if none does.
#[tactic(auto, unfolding(enc_utf8::specs::Utf8Sequences::sequence_len))]
fn sequence_len(lead: u8) -> u8
    ensures { result ≡ len_by_lead lead }
{
    match lead {
        0x00..=0x7F => 1,
        0x80..=0xC1 => 0,
        0xC2..=0xDF => 2,
        0xE0..=0xEF => 3,
        0xF0..=0xF4 => 4,
        _ => 0,
    }
}

/// Returns whether a byte leads a sequence of two bytes or more.
#[tactic(auto, unfolding(enc_utf8::specs::Utf8Sequences::sequence_len))]
fn is_lead(byte: u8) -> bool
    ensures { result ≡ nat_le 2 (len_by_lead byte) }
{
    byte >= 0xC2 && byte <= 0xF4
}

/// Returns whether a byte may be the second of a sequence with this lead byte.
#[tactic(auto, unfolding(enc_utf8::specs::Utf8Sequences::is_second_byte))]
fn is_second_byte(lead: u8, byte: u8) -> bool
    ensures { result ≡ second_follows lead byte }
{
    let lower = match lead {
        0xE0 => 0xA0,
        0xF0 => 0x90,
        _ => 0x80,
    };
    let upper = match lead {
        0xED => 0x9F,
        0xF4 => 0x8F,
        _ => 0xBF,
    };
    lower <= byte && byte <= upper
}

/// Returns whether a byte may be the third or the fourth of a sequence.
#[tactic(auto, unfolding(enc_utf8::specs::Utf8Sequences::is_continuation))]
fn is_continuation(byte: u8) -> bool
    ensures { result ≡ continues byte }
{
    byte >= 0x80 && byte <= 0xBF
}

/// Returns the character of two bytes.
fn two_byte_char(first: u8, second: u8) -> char
    requires len { len_by_lead first ≡ 2 }
    requires second { second_follows first second ≡ true }
    ensures { result ≡ scalar_of (first ∷ second ∷ []) }
{
    let scalar = (first as u32 - 0xC0) * 64 + (second as u32 - 0x80);
    char::from_u32(scalar).unwrap()
}

/// Returns the character of three bytes.
fn three_byte_char(first: u8, second: u8, third: u8) -> char
    requires len { len_by_lead first ≡ 3 }
    requires second { second_follows first second ≡ true }
    requires third { continues third ≡ true }
    ensures { result ≡ scalar_of (first ∷ second ∷ third ∷ []) }
{
    let scalar = (first as u32 - 0xE0) * 4096 + (second as u32 - 0x80) * 64 + (third as u32 - 0x80);
    char::from_u32(scalar).unwrap()
}

/// Returns the character of four bytes.
fn four_byte_char(first: u8, second: u8, third: u8, fourth: u8) -> char
    requires len { len_by_lead first ≡ 4 }
    requires second { second_follows first second ≡ true }
    requires third { continues third ≡ true }
    requires fourth { continues fourth ≡ true }
    ensures { result ≡ scalar_of (first ∷ second ∷ third ∷ fourth ∷ []) }
{
    let scalar = (first as u32 - 0xF0) * 262144
        + (second as u32 - 0x80) * 4096
        + (third as u32 - 0x80) * 64
        + (fourth as u32 - 0x80);
    char::from_u32(scalar).unwrap()
}

/// Classifies the first byte.
fn read_first(byte: u8) -> Prefix
    ensures { result ≡ utf_8_prefix (byte ∷ []) }
{
    match sequence_len(byte) {
        0 => Prefix::Malformed(1),
        1 => Prefix::Complete(Text::One(byte as char)),
        _ => Prefix::Incomplete,
    }
}

/// Classifies the byte after a lead byte.
fn read_second(first: u8, byte: u8) -> Prefix
    requires first { utf_8_prefix (first ∷ []) ≡ Incomplete }
    ensures { result ≡ utf_8_prefix (first ∷ byte ∷ []) }
{
    if !is_second_byte(first, byte) {
        Prefix::Malformed(1)
    } else if sequence_len(first) == 2 {
        Prefix::Complete(Text::One(two_byte_char(first, byte)))
    } else {
        Prefix::Incomplete
    }
}

/// Classifies the byte after two.
fn read_third(first: u8, second: u8, byte: u8) -> Prefix
    requires first { utf_8_prefix (first ∷ []) ≡ Incomplete }
    requires second { utf_8_prefix (first ∷ second ∷ []) ≡ Incomplete }
    ensures { result ≡ utf_8_prefix (first ∷ second ∷ byte ∷ []) }
{
    if !is_continuation(byte) {
        Prefix::Malformed(2)
    } else if sequence_len(first) == 3 {
        Prefix::Complete(Text::One(three_byte_char(first, second, byte)))
    } else {
        Prefix::Incomplete
    }
}

/// Classifies the byte after three.
fn read_fourth(first: u8, second: u8, third: u8, byte: u8) -> Prefix
    requires first { utf_8_prefix (first ∷ []) ≡ Incomplete }
    requires second { utf_8_prefix (first ∷ second ∷ []) ≡ Incomplete }
    requires third { utf_8_prefix (first ∷ second ∷ third ∷ []) ≡ Incomplete }
    ensures { result ≡ utf_8_prefix (first ∷ second ∷ third ∷ byte ∷ []) }
{
    if !is_continuation(byte) {
        Prefix::Malformed(3)
    } else {
        Prefix::Complete(Text::One(four_byte_char(first, second, third, byte)))
    }
}

impl PrefixCodec for Utf8Decoder {
    ghost use Rattle.std.specs.Prelude.{false};
    ghost use Rattle.enc_decoder.specs.declared.text_lengths.TextLengths.TheVariants as lengths;
    ghost use Rattle.enc_decoder_utf.specs.Utf8.{utf_8_prefix};

    ghost prefix = { λ _. utf_8_prefix };

    ghost waiting = { λ pending. pending };

    ghost leaves_others = { false };

    ghost lengths = { lengths.Utf8 };

    #[inline(always)]
    fn laws(self) {
        let _pending = self.pending;
    }

    #[inline(always)]
    fn leaves_others() -> bool {
        false
    }

    #[inline(always)]
    fn waiting(self) -> Pending {
        self.pending
    }

    #[inline(always)]
    fn with_waiting(self, pending: Pending) -> Utf8Decoder {
        let _before = self;
        Utf8Decoder { pending }
    }

    #[inline(always)]
    fn classify(self, front: Pending, byte: u8) -> Prefix {
        let _decoder = self;
        match front {
            Pending::Nothing => read_first(byte),
            Pending::One(first) => read_second(first, byte),
            Pending::Two(first, second) => read_third(first, second, byte),
            Pending::Three(first, second, third) => read_fourth(first, second, third, byte),
        }
    }

    #[inline(always)]
    fn put_front<U: Units>(self, src: &[u8], out: &mut U) -> usize {
        let _decoder = self;
        put_utf8_run(out, src)
    }

    /// Returns the length of the prefix that is ASCII.
    fn latin1_front(self, src: &[u8]) -> usize {
        let _decoder = self;
        ascii_valid_up_to(src)
    }

    #[inline(always)]
    fn replaced_at(self, src: &[u8], at: usize) -> Option<(char, usize)> {
        let first = src[at];
        if first < 0x80 {
            return Some((first as char, 1));
        }
        if !is_lead(first) {
            return Some(('\u{FFFD}', 1));
        }
        if at + 1 >= src.len() {
            return None;
        }
        let second = src[at + 1];
        if !is_second_byte(first, second) {
            return Some(('\u{FFFD}', 1));
        }
        if first < 0xE0 {
            return Some((two_byte_char(first, second), 2));
        }
        if at + 2 >= src.len() {
            return None;
        }
        let third = src[at + 2];
        if !is_continuation(third) {
            return Some(('\u{FFFD}', 2));
        }
        if first < 0xF0 {
            return Some((three_byte_char(first, second, third), 3));
        }
        if at + 3 >= src.len() {
            return None;
        }
        let fourth = src[at + 3];
        if !is_continuation(fourth) {
            return Some(('\u{FFFD}', 3));
        }
        Some((four_byte_char(first, second, third, fourth), 4))
    }

    #[inline(always)]
    fn replaces_each() -> bool {
        true
    }

    #[inline(always)]
    #[tactic(auto, using(crate::proofs::Utf8Rule::utf_8_prefixes_have_bytes))]
    fn has_bytes(self) -> bool {
        let _decoder = self;
        true
    }

    fn lengths(self) -> TextLengths {
        let _decoder = self;
        TextLengths::Utf8
    }
}
