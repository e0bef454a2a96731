//! Index EUC-KR, by Python's codec cp949.

use enc_index::indexes::EucKrIndex;
use enc_index::{DoubleByteIndex, List};
use enc_index_pointers::euc_kr;

const POINTERS: &[(char, Option<u32>)] = &[
    ('가', Some(9026)),
    ('똠', Some(2124)),
    ('詰', Some(23749)),
    ('啊', None),
];

#[test]
fn has_characters_and_pointers(rt: HostRuntime) {
    assert!(rt; List::EucKr.at(9026) == Some('가'));
    for (character, want) in POINTERS {
        assert!(rt; euc_kr(*character) == *want, "{character}");
    }
}

#[test]
fn has_words_and_units_at_places(rt: HostRuntime) {
    assert!(rt; EucKrIndex::word(0x41) == 0x01000041);
    assert!(rt; EucKrIndex::word(256 + 47 * 191 + 96) == 0x0380B0EA);
    assert!(rt; EucKrIndex::word(256 + 47 * 191 + 190) == 0);
    assert!(rt; EucKrIndex::unit(0x41) == 0x41);
    assert!(rt; EucKrIndex::unit(256 + 47 * 191 + 96) == 0xAC00);
    assert!(rt; EucKrIndex::unit(256 + 47 * 191 + 190) == 0);
}
