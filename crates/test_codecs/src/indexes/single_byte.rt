//! The single-byte indexes, by Python's codecs.

use enc_index::{List, SingleByteIndex};
use enc_index_pointers::{single_byte, single_byte_of_unit};

const CHARACTERS: &[(SingleByteIndex, u32, Option<char>)] = &[
    (SingleByteIndex::Windows1252, 0, Some('€')),
    (SingleByteIndex::Windows1257, 11, Some('‹')),
    (SingleByteIndex::Windows1257, 0x21, None),
    (SingleByteIndex::Koi8R, 128, None),
];

const POINTERS: &[(SingleByteIndex, char, Option<u32>)] = &[
    (SingleByteIndex::Windows1252, '€', Some(0)),
    (SingleByteIndex::Windows1252, 'ÿ', Some(0x7F)),
    (SingleByteIndex::Windows1251, 'П', Some(0x4F)),
    (SingleByteIndex::Koi8R, 'П', Some(0x70)),
    (SingleByteIndex::Koi8R, '€', None),
    (SingleByteIndex::Iso88598, 'ש', Some(0x79)),
    (SingleByteIndex::Ibm866, '\u{10FFFF}', None),
];

#[test]
fn have_characters_and_pointers(rt: HostRuntime) {
    for (index, pointer, want) in CHARACTERS {
        assert!(rt;
            List::SingleByte(*index).at(*pointer) == *want,
            "at {pointer}"
        );
    }
    for (index, character, want) in POINTERS {
        assert!(rt; single_byte(*index, *character) == *want, "{character}");
    }
}

#[test]
fn have_words_of_bytes(rt: HostRuntime) {
    assert!(rt; SingleByteIndex::Ibm866.word(0x00) == 0x01000000);
    assert!(rt; SingleByteIndex::Ibm866.word(0x80) == 0x020090D0);
    assert!(rt; SingleByteIndex::Koi8U.word(0x7F) == 0x0100007F);
    assert!(rt; SingleByteIndex::Koi8U.word(0x80) == 0x038094E2);
    assert!(rt; SingleByteIndex::Windows1252.word(0x80) == 0x03AC82E2);
    assert!(rt; SingleByteIndex::Windows1252.word(0x8B) == 0x03B980E2);
    assert!(rt; SingleByteIndex::Windows1252.word(0xFF) == 0x0200BFC3);
    assert!(rt; SingleByteIndex::Windows1257.word(0xA1) == 0);
    assert!(rt; SingleByteIndex::XMacCyrillic.word(0xFF) == 0x03AC82E2);
}

#[test]
fn have_units_of_bytes(rt: HostRuntime) {
    assert!(rt; SingleByteIndex::Ibm866.unit(0x00) == 0);
    assert!(rt; SingleByteIndex::Koi8U.unit(0x7F) == 0x7F);
    assert!(rt; SingleByteIndex::Koi8U.unit(0x80) == 0x2500);
    assert!(rt; SingleByteIndex::Windows1252.unit(0x80) == 0x20AC);
    assert!(rt; SingleByteIndex::Windows1252.unit(0xFF) == 0xFF);
    assert!(rt; SingleByteIndex::Windows1257.unit(0xA1) == 0);
    assert!(rt; SingleByteIndex::XMacCyrillic.unit(0xFF) == 0x20AC);
}

/// U+07FF stands for characters that the table does not have.
#[test]
fn have_bytes_of_units(rt: HostRuntime) {
    assert!(rt; single_byte_of_unit(SingleByteIndex::Ibm866, 0x7F) == 0x7F);
    assert!(rt; single_byte_of_unit(SingleByteIndex::Ibm866, 0x410) == 0x80);
    assert!(rt; single_byte_of_unit(SingleByteIndex::Koi8R, 0x430) == 0xC1);
    assert!(rt; single_byte_of_unit(SingleByteIndex::Windows1251, 0x452) == 0x90);
    assert!(rt; single_byte_of_unit(SingleByteIndex::Windows1252, 0xE9) == 0xE9);
    assert!(rt; single_byte_of_unit(SingleByteIndex::Windows1252, 0x452) == 0);
    assert!(rt; single_byte_of_unit(SingleByteIndex::XMacCyrillic, 0x44F) == 0xDF);
    assert!(rt; single_byte_of_unit(SingleByteIndex::XMacCyrillic, 0x7FF) == 0);
}
