//! The outputs of code units by themselves, the rest of a character whose first bytes are
//! overwritten, and validity of bytes. Expected values are by hand: from the Unicode Standard (3.9,
//! tables 3-5 to 3-7) and the Encoding Standard (12.2.1).

ghost use Rattle.std.specs.Prelude.{[], ◌∷◌};

use enc_encode::{RawEncoder, new_encoder};
use enc_index::Codec;
use enc_input::{Chars, EncoderResult};
use enc_output::{StringTail, Units, Utf8Slice, Utf16Slice, clear_rest};
use enc_utf8::{ascii_valid_up_to, iso_2022_jp_ascii_valid_up_to, utf8_valid_up_to};
use std::process::Abort;
use std::test::Fail;

/// The output's constant for U+FFFD is its width.
fn compare_fault<U: Units>(rt: &impl Abort) {
    assert!(rt; U::FAULT == U::width('\u{FFFD}'));
}

#[test]
fn a_fault_is_as_wide_as_its_character(rt: HostRuntime) {
    compare_fault::<Utf8Slice<'_>>(&rt);
    compare_fault::<Utf16Slice<'_>>(&rt);
    compare_fault::<StringTail<'_>>(&rt);
}

#[test]
fn utf_8_takes_whole_characters_alone(rt: HostRuntime) {
    let mut dst = [0x61, 0x62, 0x63];
    let mut out = Utf8Slice::new(&mut dst);
    assert!(rt; (out.len(), out.room()) == (0, 3));
    assert!(rt; out.put('é'));
    assert!(rt; (out.len(), out.room()) == (2, 1));
    assert!(rt; !out.put('é'));
    assert!(rt; (out.len(), out.room()) == (2, 1));
    assert!(rt; dst == [0xC3, 0xA9, 0x63]);
}

#[test]
fn utf_16_takes_whole_pairs_alone(rt: HostRuntime) {
    let mut dst = [1, 2, 3, 4];
    let mut out = Utf16Slice::new(&mut dst);
    assert!(rt; (out.len(), out.room()) == (0, 4));
    assert!(rt; out.put('é'));
    assert!(rt; out.put('\u{10FFFF}'));
    assert!(rt; !out.put('\u{10000}'));
    assert!(rt; (out.len(), out.room()) == (3, 1));
    assert!(rt; dst == [0xE9, 0xDBFF, 0xDFFF, 4]);
}

#[test]
fn a_string_takes_what_fits_and_never_grows(rt: HostRuntime) -> Result<(), Fail> {
    let mut text = String::with_capacity(rt.alloc(), 8)?;
    text.push_str("ab")?;
    let mut out = StringTail::new(&mut text);
    assert!(rt; out.room() == 6);
    assert!(rt; out.put('€'));
    assert!(rt; out.put_ascii("cd\u{E9}".as_bytes()) == 2);
    assert!(rt; out.room() == 1);
    assert!(rt; !out.put('é'));
    assert!(rt; out.put_utf8("é".as_bytes()) == 0);
    assert!(rt; out.put_utf8(b"e\xFF") == 1);
    assert!(rt; out.room() == 0);
    assert!(rt; (text.as_str(), text.capacity()) == ("ab€cde", 8));
    Ok(())
}

#[test]
fn a_string_without_spare_capacity_takes_nothing(rt: HostRuntime) {
    let mut text = String::new(rt.alloc());
    let mut out = StringTail::new(&mut text);
    assert!(rt; (out.room(), out.put('a'), out.put_ascii(b"a")) == (0, false, 0));
    assert!(rt; text.as_str() == "");
}

/// An input of characters, with the default of `write_mapped`, which takes none.
#[derive(Drop)]
struct Letters<'a> {
    rest: &'a [char],
}

impl<'a> Chars for Letters<'a> {
    ghost units_of = { λ c. c ∷ [] };

    ghost rest = { λ s. s.rest.now };

    #[tactic(auto, using(crate::proofs::LetterLemmas::one_unit_each))]
    fn unread(&self) -> usize {
        self.rest.len()
    }

    fn peek(&self) -> Option<(char, usize)> {
        Some((*self.rest.first()?, 1))
    }

    fn advance(&mut self) {
        self.rest = &self.rest[1..];
    }
}

#[test]
fn an_input_of_ones_own_is_encoded_by_steps(rt: HostRuntime) {
    let mut encoder = new_encoder(Codec::EucKr, &[]);
    let mut text = Letters {
        rest: &['a', '\u{AC00}', 'b'],
    };
    let mut dst = [0; 8];
    let answer = encoder.encode(&mut text, &mut dst, true);
    assert!(rt; (answer.result, answer.read, answer.written) == (EncoderResult::InputEmpty, 3, 4));
    assert!(rt; dst == *b"a\xB0\xA1b\0\0\0\0");
}

/// Characters of one to four bytes, more than a block of 64 bytes.
const TEXT: &str = "aé€😀 Größe, naïve, привет, 日本語のテキスト, 𝄞 plain ASCII and more of it, \
    as wide as a block is, жжжж 한국어 ḁ";

const OTHERS: [u8; 11] = [
    0x41, 0x80, 0xBF, 0xC1, 0xC3, 0xE0, 0xED, 0xF0, 0xF4, 0xF5, 0xFF,
];

/// The length of the well-formed UTF-8 at the front, by the standard library.
fn valid_len(src: &[u8]) -> usize {
    match str::from_utf8(src) {
        Ok(text) => text.len(),
        Err(error) => error.valid_up_to(),
    }
}

#[test]
fn well_formed_utf_8_ends_before_what_is_malformed(rt: HostRuntime) -> Result<(), Fail> {
    let text = TEXT.as_bytes();
    for other in OTHERS {
        for at in 0..text.len() {
            let mut src = [0x20; 200];
            src[..text.len()].copy_from_slice(text);
            src[at] = other;
            let mut dst = [0; 200];
            let taken = Utf8Slice::new(&mut dst).put_utf8(&src);
            let valid = utf8_valid_up_to(&src);
            assert!(rt;
                taken == valid_len(&src) && valid == taken && &dst[..taken] == &src[..taken],
                "{other} at {at}"
            );
            // without its last character, and with nothing after it
            let Some((front, _)) = src.split_at_checked(143) else {
                return Err("the text is too short".into());
            };
            assert!(rt;
                utf8_valid_up_to(front) == valid_len(front),
                "{other} at {at}"
            );
        }
    }
    Ok(())
}

#[test]
fn well_formed_utf_8_ends_where_it_is_full(rt: HostRuntime) {
    let text = TEXT.as_bytes();
    for room in 0..text.len() {
        let mut dst = [0xFF; 200];
        let taken = Utf8Slice::new(&mut dst[..room]).put_utf8(text);
        assert!(rt;
            taken == utf8_valid_up_to(&text[..room])
                && &dst[..taken] == &text[..taken]
                && dst[taken..].iter().all(|byte| *byte == 0xFF),
            "room of {room}"
        );
    }
}

/// Plain text, a character of two bytes and one of three, a pair, and a malformed sequence.
const MIXED: &[u8] = b"plain ASCII, then \xC3\xA9\xE2\x82\xAC\xF0\x9F\x98\x80\xC3A";

/// The UTF-16 of the well-formed part of it.
const UNITS: [u16; 22] = [
    0x70, 0x6C, 0x61, 0x69, 0x6E, 0x20, 0x41, 0x53, 0x43, 0x49, 0x49, 0x2C, 0x20, 0x74, 0x68, 0x65,
    0x6E, 0x20, 0xE9, 0x20AC, 0xD83D, 0xDE00,
];

#[test]
fn utf_16_ends_before_what_is_malformed_or_does_not_fit(rt: HostRuntime) {
    for room in 0..24 {
        let mut dst = [7; 24];
        let taken = Utf16Slice::new(&mut dst[..room]).put_utf8(MIXED);
        // 18 units of ASCII, two of a character each, and a pair
        let (bytes, units) = match room {
            0..=18 => (room, room),
            19 => (20, 19),
            20 | 21 => (23, 20),
            _ => (27, 22),
        };
        assert!(rt;
            taken == bytes
                && &dst[..units] == &UNITS[..units]
                && dst[units..].iter().all(|unit| *unit == 7),
            "room of {room}"
        );
    }
}

#[test]
fn the_rest_of_a_character_becomes_null(rt: HostRuntime) {
    let mut dst = *b"a\xA9\xBF\x80\xC3\xA9";
    clear_rest(&mut dst, 1);
    assert!(rt; &dst == b"a\0\0\0\xC3\xA9");
    clear_rest(&mut dst, 4);
    assert!(rt; &dst == b"a\0\0\0\xC3\xA9");
    clear_rest(&mut dst, 6);
    assert!(rt; &dst == b"a\0\0\0\xC3\xA9");
    clear_rest(&mut dst, 5);
    assert!(rt; &dst == b"a\0\0\0\xC3\0");
}

/// Bytes, and the length of their longest prefix that is well-formed UTF-8.
const UTF_8: &[(&[u8], usize)] = &[
    (b"", 0),
    (b"abc", 3),
    (b"\x61\xED\xA0\x80", 1),
    (b"\xE2\x82", 0),
    (b"\xE2\x82\xAC", 3),
    (b"\xC3\xA9\xE2\x82\xAC\xF0\x9F\x92\xA9", 9),
    (b"\xC3\xA9\xC0\x80", 2),
    (b"\x61\x62\x80\x63", 2),
    (b"\xF4\x8F\xBF\xBF\xF4\x90\x80\x80", 4),
    (b"\xE0\x9F\xBF", 0),
    (b"\xF0\x8F\xBF\xBF", 0),
    (b"\xEF\xBF\xBD\xFF", 3),
];

/// Bytes, and the lengths of the longest prefixes that are ASCII, and that stand for themselves in
/// ISO-2022-JP.
const ASCII: &[(&[u8], usize, usize)] = &[
    (b"", 0, 0),
    (b"abc\x7F\x00", 5, 5),
    (b"\x61\x80", 1, 1),
    (b"\x61\x0E", 2, 1),
    (b"\x61\x62\x0F\x63", 4, 2),
    (b"\x1B\x28\x42", 3, 0),
    (b"\xFF", 0, 0),
    (b"Sixteen, sixteen, and an escape \x1B.", 34, 32),
    (b"Sixteen bytes of \x0F and more of them.", 36, 17),
    (b"Sixteen bytes and \x80, and sixteen bytes.", 18, 18),
    (b"Sixteen bytes and eight.", 24, 24),
];

#[test]
fn bytes_are_valid_up_to_what_is_not(rt: HostRuntime) {
    for (bytes, want) in UTF_8 {
        assert!(rt; utf8_valid_up_to(bytes) == *want, "of {bytes:?}");
    }
    for (bytes, ascii, iso_2022_jp_ascii) in ASCII {
        assert!(rt;
            ascii_valid_up_to(bytes) == *ascii
                && iso_2022_jp_ascii_valid_up_to(bytes) == *iso_2022_jp_ascii,
            "of {bytes:?}"
        );
    }
}

#[test]
fn ascii_is_taken_whole(rt: HostRuntime) {
    let (mut bytes, mut units) = ([0; 40], [0; 40]);
    for len in 0..40 {
        assert!(rt; Utf8Slice::new(&mut bytes).put_ascii(&[0x61; 40][..len]) == len);
        assert!(rt; Utf16Slice::new(&mut units).put_ascii(&[0x61; 40][..len]) == len);
        assert!(rt; Utf8Slice::new(&mut bytes[..len]).put_ascii(&[0x61; 40]) == len);
        assert!(rt; Utf16Slice::new(&mut units[..len]).put_ascii(&[0x61; 40]) == len);
    }
}

/// Characters of two to four bytes, many of which end in 0xBF, and surrogates of high numbers.
const SIGNS: &str =
    "¿Qué?😀¿Größe𝄞 привет, 日本語のテキスト, ¿жжжж 한국어 ḁ😀 и ещё немного слов: ¿да? \u{10FFFF}";

/// Their UTF-16, by Python's codec.
const SIGN_UNITS: [u16; 75] = [
    0xBF, 0x51, 0x75, 0xE9, 0x3F, 0xD83D, 0xDE00, 0xBF, 0x47, 0x72, 0xF6, 0xDF, 0x65, 0xD834,
    0xDD1E, 0x20, 0x43F, 0x440, 0x438, 0x432, 0x435, 0x442, 0x2C, 0x20, 0x65E5, 0x672C, 0x8A9E,
    0x306E, 0x30C6, 0x30AD, 0x30B9, 0x30C8, 0x2C, 0x20, 0xBF, 0x436, 0x436, 0x436, 0x436, 0x20,
    0xD55C, 0xAD6D, 0xC5B4, 0x20, 0x1E01, 0xD83D, 0xDE00, 0x20, 0x438, 0x20, 0x435, 0x449, 0x451,
    0x20, 0x43D, 0x435, 0x43C, 0x43D, 0x43E, 0x433, 0x43E, 0x20, 0x441, 0x43B, 0x43E, 0x432, 0x3A,
    0x20, 0xBF, 0x434, 0x430, 0x3F, 0x20, 0xDBFF, 0xDFFF,
];

#[test]
fn utf_16_leaves_what_follows_its_text(rt: HostRuntime) {
    let mut dst = [7; 200];
    let text = "éééééééééééééééééééééééééééééééééééééééééééééééééé";
    let taken = Utf16Slice::new(&mut dst).put_utf8(text.as_bytes());
    assert!(rt; taken == 100);
    assert!(rt; (dst[0], dst[49]) == (0xE9, 0xE9));
    assert!(rt; dst[50..].iter().all(|unit| *unit == 7));
}

#[test]
fn long_utf_8_becomes_utf_16(rt: HostRuntime) {
    let mut dst = [7; 200];
    let taken = Utf16Slice::new(&mut dst).put_utf8(SIGNS.as_bytes());
    assert!(rt; taken == SIGNS.len());
    assert!(rt; dst.starts_with(SIGN_UNITS.as_slice()));
    assert!(rt; (dst[75], dst[199]) == (7, 7));
}
