//! The calls, each with its input and its outcome.
//!
//! Bytes and texts are those of Python's codecs, with a decimal reference for each unmappable
//! character.

use encoding_rs::run::{DecodeCall, EncodeCall};
use encoding_rs::*;

/// The length of each input that is not empty, in bytes.
pub const LONG: usize = 10_000;

/// Bytes at the front, and then a unit a number of times.
pub type Pattern = (&'static [u8], &'static [u8], usize);

/// No bytes.
pub const NOTHING: Pattern = (b"", b"", 0);

/// A call.
#[derive(Clone, Copy)]
pub enum Call {
    /// A one-shot call of a decoder that looks for these byte order marks, and whether it replaces
    /// malformed sequences.
    Decode(BomHandling, bool),
    /// The one-shot call of an encoder.
    Encode,
    /// A run of the calls [`DECODE_CALLS`].
    DecodeInRun,
    /// A run of the calls [`ENCODE_CALLS`].
    EncodeInRun,
}

/// A call and its outcome.
#[derive(Clone, Copy)]
pub struct Row {
    /// The name in lines.
    pub name: &'static str,
    /// The call.
    pub call: Call,
    /// The encoding that it is made on.
    pub encoding: Encoding,
    /// The input: bytes, or a text in UTF-8.
    pub input: Pattern,
    /// The output.
    pub output: Pattern,
    /// The encoding that is used.
    pub used: Encoding,
    /// Whether something is malformed or unmappable.
    pub is_faulty: bool,
    /// Whether the output is lent, by the call that lends.
    pub is_lent: bool,
}

/// After the byte order mark of UTF-8, text with a malformed byte over and over.
const MARKED: Pattern = (b"\xEF\xBB\xBFaaaaaaa", b"len \x80\xE2\x82\xAC\xC3\xA9", 999);

/// Its text, with U+FFFD for that byte.
const MARKED_TEXT: Pattern = (b"aaaaaaa", b"len \xEF\xBF\xBD\xE2\x82\xAC\xC3\xA9", 999);

/// U+30CF, U+1F4A9, which Shift_JIS doesn't have, and more, in UTF-8.
const MAPPABLE_IN_PART: Pattern = (b"", b"\xE3\x83\x8F\xF0\x9F\x92\xA9 bc", 1_000);

/// Its number of characters: five in each unit.
pub const MAPPABLE_CHARS: usize = 5_000;

/// The same in Shift_JIS.
const WITH_REFERENCES: Pattern = (b"", b"\x83\x6E&#128169; bc", 1_000);

/// ASCII.
const ASCII: Pattern = (b"", b"letters123", 1_000);

/// UTF-8 after its byte order mark.
const MARKED_UTF_8: Pattern = (b"\xEF\xBB\xBFaaaaaaa", b"len \xE2\x82\xAC\xC3\xA9d", 999);

/// Its text.
const UNMARKED_UTF_8: Pattern = (b"aaaaaaa", b"len \xE2\x82\xAC\xC3\xA9d", 999);

/// The calls.
pub const ROWS: &[Row] = &[
    Row {
        name: "decode",
        call: Call::Decode(BomHandling::Sniff, true),
        encoding: WINDOWS_1252,
        input: MARKED,
        output: MARKED_TEXT,
        used: UTF_8,
        is_faulty: true,
        is_lent: false,
    },
    Row {
        name: "decode_without_faults",
        call: Call::Decode(BomHandling::Sniff, true),
        encoding: UTF_8,
        input: (b"", b"\xE2\x82\xACbc", 2_000),
        output: (b"", b"\xE2\x82\xACbc", 2_000),
        used: UTF_8,
        is_faulty: false,
        is_lent: false,
    },
    Row {
        name: "decode_with_bom_removal",
        call: Call::Decode(BomHandling::Remove, true),
        encoding: UTF_8,
        input: (b"\xEF\xBB\xBFbytes", b"\xE2\x82 \xF0\x9F\x92\xA9 ", 1_249),
        output: (b"bytes", b"\xEF\xBF\xBD \xF0\x9F\x92\xA9 ", 1_249),
        used: UTF_8,
        is_faulty: true,
        is_lent: false,
    },
    Row {
        name: "decode_without_bom_handling",
        call: Call::Decode(BomHandling::Off, true),
        encoding: ISO_2022_JP,
        input: (b"\xEF\xBB\xBFaaaaaaa", b"\x1B$B$\"\x1B(B\x80 ", 999),
        output: (
            b"\xEF\xBF\xBD\xEF\xBF\xBD\xEF\xBF\xBDaaaaaaa",
            b"\xE3\x81\x82\xEF\xBF\xBD ",
            999,
        ),
        used: ISO_2022_JP,
        is_faulty: true,
        is_lent: false,
    },
    Row {
        name: "decode_without_bom_handling_and_without_replacement",
        call: Call::Decode(BomHandling::Off, false),
        encoding: SHIFT_JIS,
        input: (b"", b"\x93\xFA\x96\x7B\x8C\xEA abc", 1_000),
        output: (b"", b"\xE6\x97\xA5\xE6\x9C\xAC\xE8\xAA\x9E abc", 1_000),
        used: SHIFT_JIS,
        is_faulty: false,
        is_lent: false,
    },
    Row {
        name: "encode",
        call: Call::Encode,
        encoding: SHIFT_JIS,
        input: MAPPABLE_IN_PART,
        output: WITH_REFERENCES,
        used: SHIFT_JIS,
        is_faulty: true,
        is_lent: false,
    },
    Row {
        name: "encode_without_unmappables",
        call: Call::Encode,
        encoding: SHIFT_JIS,
        input: (b"", b"\xE3\x83\x8Fbc", 2_000),
        output: (b"", b"\x83\x6Ebc", 2_000),
        used: SHIFT_JIS,
        is_faulty: false,
        is_lent: false,
    },
    Row {
        name: "decode_lending_its_text",
        call: Call::Decode(BomHandling::Sniff, true),
        encoding: WINDOWS_1252,
        input: MARKED_UTF_8,
        output: UNMARKED_UTF_8,
        used: UTF_8,
        is_faulty: false,
        is_lent: true,
    },
    Row {
        name: "decode_with_bom_removal_lending_its_text",
        call: Call::Decode(BomHandling::Remove, true),
        encoding: UTF_8,
        input: MARKED_UTF_8,
        output: UNMARKED_UTF_8,
        used: UTF_8,
        is_faulty: false,
        is_lent: true,
    },
    Row {
        name: "decode_without_bom_handling_lending_its_text",
        call: Call::Decode(BomHandling::Off, true),
        encoding: ISO_2022_JP,
        input: ASCII,
        output: ASCII,
        used: ISO_2022_JP,
        is_faulty: false,
        is_lent: true,
    },
    Row {
        name: "decode_without_bom_handling_and_without_replacement_lending_its_text",
        call: Call::Decode(BomHandling::Off, false),
        encoding: SHIFT_JIS,
        input: ASCII,
        output: ASCII,
        used: SHIFT_JIS,
        is_faulty: false,
        is_lent: true,
    },
    Row {
        name: "encode_lending_its_bytes",
        call: Call::Encode,
        encoding: SHIFT_JIS,
        input: ASCII,
        output: ASCII,
        used: SHIFT_JIS,
        is_faulty: false,
        is_lent: true,
    },
    Row {
        name: "a_run_of_decode_calls",
        call: Call::DecodeInRun,
        encoding: WINDOWS_1252,
        input: MARKED,
        output: MARKED_TEXT,
        used: UTF_8,
        is_faulty: true,
        is_lent: false,
    },
    Row {
        name: "a_run_of_encode_calls",
        call: Call::EncodeInRun,
        encoding: SHIFT_JIS,
        input: MAPPABLE_IN_PART,
        output: WITH_REFERENCES,
        used: SHIFT_JIS,
        is_faulty: true,
        is_lent: false,
    },
];

/// The calls on empty inputs, with the encoding that each is made on and the one that is used.
pub const EMPTY: &[(Call, Encoding, Encoding)] = &[
    (
        Call::Decode(BomHandling::Sniff, true),
        WINDOWS_1252,
        WINDOWS_1252,
    ),
    (
        Call::Decode(BomHandling::Remove, true),
        WINDOWS_1252,
        WINDOWS_1252,
    ),
    (
        Call::Decode(BomHandling::Off, true),
        WINDOWS_1252,
        WINDOWS_1252,
    ),
    (
        Call::Decode(BomHandling::Off, false),
        WINDOWS_1252,
        WINDOWS_1252,
    ),
    (Call::Encode, UTF_16LE, UTF_8),
];

/// The calls of a run over [`MARKED`]: the first one into UTF-16, up to a malformed byte, which it
/// reports; and one into UTF-8.
pub const DECODE_CALLS: &[DecodeCall] = &[
    DecodeCall {
        utf16: true,
        replace: false,
        offer: 20,
        room: 16,
    },
    DecodeCall {
        utf16: false,
        replace: true,
        offer: LONG,
        room: 12_000,
    },
];

/// Offset and length of the malformed sequence that is reported, in bytes.
pub const MALFORMED: (usize, usize) = (14, 1);

/// The calls of a run over [`MAPPABLE_IN_PART`]: the first one from UTF-16, up to an unmappable
/// character, which it reports; and one from UTF-8.
pub const ENCODE_CALLS: &[EncodeCall] = &[
    EncodeCall {
        utf16: true,
        replace: false,
        offer: 3,
        room: 16,
    },
    EncodeCall {
        utf16: false,
        replace: true,
        offer: LONG,
        room: 15_000,
    },
];

/// The character that is reported.
pub const UNMAPPABLE: char = '\u{1F4A9}';
