//! Index Big5, by Python's codec big5hkscs.

use enc_index::indexes::Big5Index;
use enc_index::{DoubleByteIndex, List};
use enc_index_pointers::big5;

const CHARACTERS: &[(u32, char)] = &[(947, '\u{27267}'), (5512, '十'), (4540, '𨋢')];

const POINTERS: &[(char, Option<u32>)] = &[
    ('一', Some(5495)),
    // the first of two, and the last of two
    ('兀', Some(5528)),
    ('十', Some(5512)),
    ('卅', Some(5599)),
    ('═', Some(18991)),
    ('╪', Some(18976)),
    // in the index, but among the additions at its start
    ('𨋢', None),
];

#[test]
fn has_characters_and_pointers(rt: HostRuntime) {
    for (pointer, want) in CHARACTERS {
        assert!(rt; List::Big5.at(*pointer) == Some(*want), "at {pointer}");
    }
    for (character, want) in POINTERS {
        assert!(rt; big5(*character) == *want, "{character}");
    }
}

#[test]
fn has_words_and_units_at_places(rt: HostRuntime) {
    assert!(rt; Big5Index::word(0x00) == 0x01000000);
    assert!(rt; Big5Index::word(256 + 35 * 158 + 17) == 0x03818DE5);
    assert!(rt; Big5Index::word(256 + 28 * 158 + 144) == 0);
    assert!(rt; Big5Index::unit(256 + 35 * 158 + 17) == 0x5341);
    assert!(rt; Big5Index::unit(256 + 28 * 158 + 144) == 0);
}
