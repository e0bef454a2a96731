//! Index gb18030 ranges, by Python's codec gb18030.

use enc_index::List;
use enc_index_pointers::gb18030_ranges;

const CHARACTERS: &[(u32, Option<char>)] = &[
    (0, Some('\u{80}')),
    (7457, Some('\u{E7C7}')),
    (12439, Some('㐀')),
    (39419, Some('\u{FFFF}')),
    (39420, None),
    (188999, None),
    (189000, Some('\u{10000}')),
    (1237575, Some('\u{10FFFF}')),
    (1237576, None),
];

const POINTERS: &[(char, Option<u32>)] = &[
    ('㐀', Some(12439)),
    ('\u{80}', Some(0)),
    ('\u{E7C7}', Some(7457)),
    ('\u{FFFF}', Some(39419)),
    ('\u{10FFFF}', Some(1237575)),
    ('§', None),
    ('啊', None),
];

#[test]
fn has_characters_and_pointers(rt: HostRuntime) {
    for (pointer, want) in CHARACTERS {
        assert!(rt; List::Gb18030Ranges.at(*pointer) == *want, "at {pointer}");
    }
    for (character, want) in POINTERS {
        assert!(rt; gb18030_ranges(*character) == *want, "{character}");
    }
}
