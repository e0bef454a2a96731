//! Characters of private use in gb18030 and GBK (Encoding Standard 10.2.2).
//!
//! Written by scripts/make-sources from data/gb18030-private-use.txt:
//! change that text and run the script, and not this file.

/// A character and its two bytes a row. Index gb18030 has other characters at these bytes.
#[rattlefmt::skip]
pub const PRIVATE_USE: &[(char, u8, u8)] = &[
    ('\u{E78D}', 0xA6, 0xD9), ('\u{E78E}', 0xA6, 0xDA), ('\u{E78F}', 0xA6, 0xDB),
    ('\u{E790}', 0xA6, 0xDC), ('\u{E791}', 0xA6, 0xDD), ('\u{E792}', 0xA6, 0xDE),
    ('\u{E793}', 0xA6, 0xDF), ('\u{E794}', 0xA6, 0xEC), ('\u{E795}', 0xA6, 0xED),
    ('\u{E796}', 0xA6, 0xF3), ('\u{E81E}', 0xFE, 0x59), ('\u{E826}', 0xFE, 0x61),
    ('\u{E82B}', 0xFE, 0x66), ('\u{E82C}', 0xFE, 0x67), ('\u{E832}', 0xFE, 0x6D),
    ('\u{E843}', 0xFE, 0x7E), ('\u{E854}', 0xFE, 0x90), ('\u{E864}', 0xFE, 0xA0),
];
