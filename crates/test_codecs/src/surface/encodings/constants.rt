//! The constants of `encoding_rs`: 40 encodings, each with a second name for the same value.
//!
//! Written by scripts/make-sources from data/templates: change the text there, and not this file.

use encoding_rs::Encoding;

/// Each encoding, the second constant for it, and its name in the standard (4.2).
#[rattlefmt::skip]
const CONSTANTS: &[(Encoding, Encoding, &str)] = &[
    (encoding_rs::UTF_8, encoding_rs::UTF_8_INIT, "UTF-8"),
    (encoding_rs::IBM866, encoding_rs::IBM866_INIT, "IBM866"),
    (encoding_rs::ISO_8859_2, encoding_rs::ISO_8859_2_INIT, "ISO-8859-2"),
    (encoding_rs::ISO_8859_3, encoding_rs::ISO_8859_3_INIT, "ISO-8859-3"),
    (encoding_rs::ISO_8859_4, encoding_rs::ISO_8859_4_INIT, "ISO-8859-4"),
    (encoding_rs::ISO_8859_5, encoding_rs::ISO_8859_5_INIT, "ISO-8859-5"),
    (encoding_rs::ISO_8859_6, encoding_rs::ISO_8859_6_INIT, "ISO-8859-6"),
    (encoding_rs::ISO_8859_7, encoding_rs::ISO_8859_7_INIT, "ISO-8859-7"),
    (encoding_rs::ISO_8859_8, encoding_rs::ISO_8859_8_INIT, "ISO-8859-8"),
    (encoding_rs::ISO_8859_8_I, encoding_rs::ISO_8859_8_I_INIT, "ISO-8859-8-I"),
    (encoding_rs::ISO_8859_10, encoding_rs::ISO_8859_10_INIT, "ISO-8859-10"),
    (encoding_rs::ISO_8859_13, encoding_rs::ISO_8859_13_INIT, "ISO-8859-13"),
    (encoding_rs::ISO_8859_14, encoding_rs::ISO_8859_14_INIT, "ISO-8859-14"),
    (encoding_rs::ISO_8859_15, encoding_rs::ISO_8859_15_INIT, "ISO-8859-15"),
    (encoding_rs::ISO_8859_16, encoding_rs::ISO_8859_16_INIT, "ISO-8859-16"),
    (encoding_rs::KOI8_R, encoding_rs::KOI8_R_INIT, "KOI8-R"),
    (encoding_rs::KOI8_U, encoding_rs::KOI8_U_INIT, "KOI8-U"),
    (encoding_rs::MACINTOSH, encoding_rs::MACINTOSH_INIT, "macintosh"),
    (encoding_rs::WINDOWS_874, encoding_rs::WINDOWS_874_INIT, "windows-874"),
    (encoding_rs::WINDOWS_1250, encoding_rs::WINDOWS_1250_INIT, "windows-1250"),
    (encoding_rs::WINDOWS_1251, encoding_rs::WINDOWS_1251_INIT, "windows-1251"),
    (encoding_rs::WINDOWS_1252, encoding_rs::WINDOWS_1252_INIT, "windows-1252"),
    (encoding_rs::WINDOWS_1253, encoding_rs::WINDOWS_1253_INIT, "windows-1253"),
    (encoding_rs::WINDOWS_1254, encoding_rs::WINDOWS_1254_INIT, "windows-1254"),
    (encoding_rs::WINDOWS_1255, encoding_rs::WINDOWS_1255_INIT, "windows-1255"),
    (encoding_rs::WINDOWS_1256, encoding_rs::WINDOWS_1256_INIT, "windows-1256"),
    (encoding_rs::WINDOWS_1257, encoding_rs::WINDOWS_1257_INIT, "windows-1257"),
    (encoding_rs::WINDOWS_1258, encoding_rs::WINDOWS_1258_INIT, "windows-1258"),
    (encoding_rs::X_MAC_CYRILLIC, encoding_rs::X_MAC_CYRILLIC_INIT, "x-mac-cyrillic"),
    (encoding_rs::GBK, encoding_rs::GBK_INIT, "GBK"),
    (encoding_rs::GB18030, encoding_rs::GB18030_INIT, "gb18030"),
    (encoding_rs::BIG5, encoding_rs::BIG5_INIT, "Big5"),
    (encoding_rs::EUC_JP, encoding_rs::EUC_JP_INIT, "EUC-JP"),
    (encoding_rs::ISO_2022_JP, encoding_rs::ISO_2022_JP_INIT, "ISO-2022-JP"),
    (encoding_rs::SHIFT_JIS, encoding_rs::SHIFT_JIS_INIT, "Shift_JIS"),
    (encoding_rs::EUC_KR, encoding_rs::EUC_KR_INIT, "EUC-KR"),
    (encoding_rs::REPLACEMENT, encoding_rs::REPLACEMENT_INIT, "replacement"),
    (encoding_rs::UTF_16BE, encoding_rs::UTF_16BE_INIT, "UTF-16BE"),
    (encoding_rs::UTF_16LE, encoding_rs::UTF_16LE_INIT, "UTF-16LE"),
    (encoding_rs::X_USER_DEFINED, encoding_rs::X_USER_DEFINED_INIT, "x-user-defined"),
];

#[test]
fn each_constant_names_its_encoding(rt: HostRuntime) {
    for (encoding, _, name) in CONSTANTS {
        assert!(rt; encoding.name() == *name);
        // a name in the standard is a label too
        assert!(rt; Encoding::for_label(name.as_bytes()) == Some(*encoding));
    }
    assert!(rt; CONSTANTS.len() == 40);
}

#[test]
fn each_init_constant_is_the_same_encoding(rt: HostRuntime) {
    for i in 0..CONSTANTS.len() {
        for j in 0..CONSTANTS.len() {
            assert!(rt; (CONSTANTS[i].0 == CONSTANTS[j].1) == (i == j));
        }
    }
}
