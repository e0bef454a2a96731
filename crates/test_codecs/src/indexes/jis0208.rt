//! Indexes jis0208 and jis0212, by Python's codec euc_jp.

use enc_index::indexes::Jis0208Index;
use enc_index::{DoubleByteIndex, List};
use enc_index_pointers::jis0208;

const CHARACTERS: &[(u32, Option<char>)] = &[
    (2, Some('。')),
    (1410, Some('亜')),
    (11103, Some('\u{9ED1}')),
    (11104, None),
];

const POINTERS: &[(char, Option<u32>)] = &[
    ('亜', Some(1410)),
    ('ミ', Some(438)),
    ('纊', Some(8272)),
    ('\u{10FFFF}', None),
];

#[test]
fn has_characters_and_pointers(rt: HostRuntime) {
    for (pointer, want) in CHARACTERS {
        assert!(rt; List::Jis0208.at(*pointer) == *want, "at {pointer}");
    }
    assert!(rt; List::Jis0212.at(1410) == Some('丂'));
    for (character, want) in POINTERS {
        assert!(rt; jis0208(*character) == *want, "{character}");
    }
}

#[test]
fn has_words_and_units_at_places(rt: HostRuntime) {
    assert!(rt; Jis0208Index::word(256 + 2) == 0x038280E3);
    assert!(rt; Jis0208Index::word(256 + 15 * 95) == 0x039CBAE4);
    assert!(rt; Jis0208Index::word(256 + 118 * 95 + 11) == 0x0391BBE9);
    assert!(rt; Jis0208Index::word(256 + 121 * 95 + 94) == 0);
    assert!(rt; Jis0208Index::unit(256 + 2) == 0x3002);
    assert!(rt; Jis0208Index::unit(256 + 15 * 95) == 0x4E9C);
}
