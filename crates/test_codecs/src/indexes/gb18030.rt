//! Index gb18030, by Python's codec gb18030.

use enc_index::indexes::Gb18030Index;
use enc_index::{DoubleByteIndex, List};
use enc_index_pointers::gb18030;

const POINTERS: &[(char, Option<u32>)] = &[
    ('啊', Some(9026)),
    ('€', Some(6432)),
    ('齄', Some(22609)),
    // the first of two
    ('\u{3000}', Some(6176)),
    ('㐀', None),
];

#[test]
fn has_characters_and_pointers(rt: HostRuntime) {
    assert!(rt; List::Gb18030.at(9026) == Some('啊'));
    assert!(rt; List::Gb18030.at(23940) == None);
    for (character, want) in POINTERS {
        assert!(rt; gb18030(*character) == *want, "{character}");
    }
}

#[test]
fn has_words_and_units_at_places(rt: HostRuntime) {
    assert!(rt; Gb18030Index::word(0x80) == 0);
    assert!(rt; Gb18030Index::word(256 + 32 * 191 + 99) == 0x0200B7C2);
    assert!(rt; Gb18030Index::word(256 + 47 * 191 + 96) == 0x038A95E5);
    assert!(rt; Gb18030Index::unit(0x80) == 0);
    assert!(rt; Gb18030Index::unit(256 + 32 * 191 + 99) == 0xB7);
}
