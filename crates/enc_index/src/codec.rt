//! The codecs of encodings, by name.
//!
//! Written by scripts/make-sources from data/templates: change the text there, and not this file.

use crate::single_byte_index::SingleByteIndex;

/// The codec of an encoding, by its name. A legacy single-byte encoding has an index.
#[derive(Clone, Copy)]
pub enum Codec {
    /// UTF-8 (Encoding Standard 8.1).
    Utf8,
    /// UTF-16BE (14.3).
    Utf16Be,
    /// UTF-16LE (14.4).
    Utf16Le,
    /// A legacy single-byte encoding (9), by its index.
    SingleByte(SingleByteIndex),
    /// Big5 (11.1).
    Big5,
    /// EUC-KR (13.1).
    EucKr,
    /// Shift_JIS (12.3).
    ShiftJis,
    /// EUC-JP (12.1).
    EucJp,
    /// GBK (10.1), which decodes as gb18030 does.
    Gbk,
    /// gb18030 (10.2).
    Gb18030,
    /// x-user-defined (14.5).
    XUserDefined,
    /// The replacement encoding (14.1).
    Replacement,
    /// ISO-2022-JP (12.2).
    Iso2022Jp,
}
