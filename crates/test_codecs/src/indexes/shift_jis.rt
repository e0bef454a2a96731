//! The pointers of Shift_JIS in index jis0208, by Python's codec cp932.

use enc_index_pointers::shift_jis;

const POINTERS: &[(char, Option<u32>)] = &[
    ('亜', Some(1410)),
    ('熙', Some(7807)),
    ('①', Some(1128)),
    ('\u{FFE2}', Some(137)),
    ('纊', Some(10744)),
    ('가', None),
];

#[test]
fn has_pointers(rt: HostRuntime) {
    for (character, want) in POINTERS {
        assert!(rt; shift_jis(*character) == *want, "{character}");
    }
}
