//! Decoders and encoders for the character encodings of the web (WHATWG Encoding Standard).
//!
//! An [`Encoding`] is found by its constant, by a label or by a byte order mark. A [`Decoder`]
//! converts a stream of bytes into text, and an [`Encoder`] text into bytes, in chunks and output
//! buffers of any size. `CALLING.md` beside `src` is for callers who prove something themselves.
//!
//! ## Which call
//!
//! | You have | Call |
//! |---|---|
//! | all bytes of a document, and its label | [`Encoding::decode`] |
//! | the same, to borrow what is its own text | [`Encoding::decode_lending`] |
//! | a whole text to send | [`Encoding::encode`], [`Encoding::encode_lending`] |
//! | bytes that come in chunks | [`Decoder::decode_to_utf8`], [`Decoder::decode_to_string`] |
//! | the same, for UTF-16 in memory | [`Decoder::decode_to_utf16`] |
//! | text that comes in chunks | [`Encoder::encode_from_utf8`], [`Encoder::encode_from_utf16`] |
//! | a file or a pipe to read as text | `DecodeReader` of the crate `enc_reader` |
//! | text to write to a file or a pipe | `EncodeWriter` of the crate `enc_writer` |
//! | a file or a pipe to recode | `run` of the crate `recode_engine` |
//!
//! These are the algorithms that the standard has for other standards (4.2, 4.3 and 6). Calls at
//! once are methods of [`Encoding`], and so are the constructors of decoders and encoders:
//!
//! | Encoding Standard | At once | In chunks |
//! |---|---|---|
//! | decode | `decode` | `new_decoder` |
//! | UTF-8 decode | `decode_with_bom_removal` | `new_decoder_with_bom_removal` |
//! | UTF-8 decode without BOM | `decode_without_bom_handling` | `new_..._without_bom_handling` |
//! | UTF-8 decode without BOM or fail | `decode_without_bom_handling_and_without_replacement` | |
//! | encode | `encode` | `new_encoder` |
//! | encode or fail | | `Encoder::encode_from_utf8_without_replacement` |
//! | get an encoding | `for_label` | |
//! | get an output encoding | `output_encoding` | |
//! | BOM sniff | `for_bom` | `new_decoder` |
//!
//! An input that the standard takes from a queue comes as chunks here. The end of the queue is
//! `last`, which is passed with the last chunk, or with an empty one after it.
//!
//! ## A first loop
//!
//! This decodes a chunk, and writes its text in as many pieces as the buffer `text` makes of it:
//!
//! ```rust
//! let mut text = [0; LENGTH];
//! let mut unread = chunk;
//! let mut had_errors = false;
//! 'pieces: loop {
//!     let (result, read, written, replaced) = decoder.decode_to_utf8(unread, &mut text, last);
//!     had_errors |= replaced;
//!     out.write_all(&text[..written])?;
//!     match result {
//!         CoderResult::InputEmpty => return Ok(had_errors),
//!         CoderResult::OutputFull => unread = &unread[read..],
//!     }
//! }
//! ```
//!
//! A chunk may end within a character: the decoder has read what there is of it, and the next chunk
//! has the rest. After `InputEmpty` with `last` a decoder is finished, and may not be called again.
//! An encoder is then at the start of another text.
//!
//! ## Labels
//!
//! A label is the name that a document or a header gives. It means what browsers take it for. So
//! `latin1`, `iso-8859-1` and `ascii` name [`WINDOWS_1252`]: pages with these labels have its
//! quotation marks and its euro sign, where ISO-8859-1 has controls. Likewise `gb2312` names
//! [`GBK`], `tis-620` [`WINDOWS_874`], and `iso-8859-9` [`WINDOWS_1254`].
//!
//! ```rust
//! assert!(rt; Encoding::for_label(b"latin1") == Some(WINDOWS_1252));
//! assert!(rt; Encoding::for_label(b" UTF8\r\n") == Some(UTF_8));
//! assert!(rt; Encoding::for_label(b"utf-7") == None);
//! ```
//!
//! Some labels, as `iso-2022-kr`, name [`REPLACEMENT`], since their encodings can hide markup. Its
//! text is one U+FFFD. A caller who would rather say that the encoding is not supported calls
//! [`Encoding::for_label_no_replacement`].
//!
//! ## Replacement
//!
//! A decoder writes U+FFFD for each malformed sequence, and an encoder a decimal reference, as
//! `&#26085;`, for each character that the encoding lacks. Both say in the last part of the result
//! that they did. A reference in the text itself is written as it is, so the bytes don't show which
//! of the two it was.
//!
//! Calls that end in `_without_replacement` stop there and report it: [`DecoderResult`] has the
//! length and the place of a malformed sequence, and [`EncoderResult`] the unmappable character.
//! The next call goes on after it. How many U+FFFD stand for malformed bytes is the standard's
//! choice: in UTF-8 one stands for the bytes that begin a character together, and else for a byte.
//!
//! ## Why nothing is encoded as UTF-16
//!
//! The standard has no encoder for UTF-16, since forms and addresses are not sent in it. The output
//! encoding of [`UTF_16LE`], [`UTF_16BE`] and [`REPLACEMENT`] is UTF-8, and that of each other
//! encoding is itself. [`Encoding::output_encoding`] and [`Encoder::encoding`] return it. For UTF-16
//! in memory there is `str::encode_utf16`.
//!
//! ## Byte order marks
//!
//! The constructor of a decoder says which byte order marks it looks for, and so does the name of a
//! call that decodes at once:
//!
//! - [`Encoding::new_decoder`] looks for those of UTF-8, UTF-16LE and UTF-16BE, and decodes by the
//!   encoding of the one that it finds. That is what browsers do with pages.
//! - [`Encoding::new_decoder_with_bom_removal`] removes that of its own encoding alone. It is for
//!   formats that are always UTF-8 and may begin with the mark.
//! - [`Encoding::new_decoder_without_bom_handling`] looks for none. A mark is part of the text, as
//!   U+FEFF in UTF-8.
//!
//! [`Encoding::new_decoder_with_bom_handling`] takes the choice as a [`BomHandling`].
//!
//! ```rust
//! let bytes = b"\xEF\xBB\xBFa";
//! let (text, encoding, _) = WINDOWS_1252.decode(rt.alloc(), bytes)?;
//! assert!(rt; (text.as_str(), encoding) == ("a", UTF_8));
//! let (text, _) = WINDOWS_1252.decode_with_bom_removal(rt.alloc(), bytes)?;
//! assert!(rt; text.as_str() == "ï»¿a");
//! let (text, _) = UTF_8.decode_without_bom_handling(rt.alloc(), bytes)?;
//! assert!(rt; text.as_str() == "\u{FEFF}a");
//! ```
//!
//! ## Lengths to allocate
//!
//! A loop needs no length query: any capacity will do, and each call makes progress into 4 bytes,
//! 2 code units of UTF-16, or 14 bytes of an encoder that may write a reference. A buffer of the
//! length that a query returns is for one call alone, and is never full:
//! [`Decoder::max_utf8_buffer_length`], [`Decoder::max_utf16_buffer_length`], and of an encoder
//! [`Encoder::max_buffer_length_from_utf8_if_no_unmappables`], if it has no reference to write. A
//! query is asked before each call, since it counts what the decoder holds. It returns `None` if
//! a step of its formula overflows `usize`.
//!
//! ## Memory
//!
//! A call takes memory only if it is passed an allocator: the one-shot calls and the runs of
//! [`run`]. Where memory is refused they return an error, and where a text is lent they take none.
//! All other calls take none, so their documentation says nothing of it. Those into a String or a
//! Vec append within its capacity, and return `OutputFull` at its end. Their clause `capacity` says
//! that it does not shrink; that it is not raised either is no clause.
//!
//! ## What is proved
//!
//! - Decoding in chunks always produces a prefix of decoding the whole input at once, and all of it
//!   at the end, and every malformed sequence is reported at its exact offset:
//!   [`run::decode_run`], clauses `beginning`, `text` and `faults`; [`run::encode_run`] has the
//!   first of these for encoders.
//! - Every call is specified exactly, for any capacity: clause `call` of
//!   [`Decoder::decode_to_utf8`] and of the other converting calls says what it reads, writes,
//!   keeps and returns. Clause `text` of [`Encoding::decode`] says that the text at once is the
//!   same.
//! - Labels, names and properties are those of the standard: [`Encoding::for_label`],
//!   [`laws::labels_name_one_encoding`], [`laws::constants_have_their_names`].
//!
//! Written by scripts/make-sources from data/templates: change the text there, and not this file.
#![tactic(auto)]

mod chars_of_text;
mod encode_run;
pub mod laws;
pub mod run;

pub use enc_stream::constants::{
    BIG5, BIG5_INIT, EUC_JP, EUC_JP_INIT, EUC_KR, EUC_KR_INIT, GB18030, GB18030_INIT, GBK,
    GBK_INIT, IBM866, IBM866_INIT, ISO_2022_JP, ISO_2022_JP_INIT, ISO_8859_2, ISO_8859_2_INIT,
    ISO_8859_3, ISO_8859_3_INIT, ISO_8859_4, ISO_8859_4_INIT, ISO_8859_5, ISO_8859_5_INIT,
    ISO_8859_6, ISO_8859_6_INIT, ISO_8859_7, ISO_8859_7_INIT, ISO_8859_8, ISO_8859_8_I,
    ISO_8859_8_I_INIT, ISO_8859_8_INIT, ISO_8859_10, ISO_8859_10_INIT, ISO_8859_13,
    ISO_8859_13_INIT, ISO_8859_14, ISO_8859_14_INIT, ISO_8859_15, ISO_8859_15_INIT, ISO_8859_16,
    ISO_8859_16_INIT, KOI8_R, KOI8_R_INIT, KOI8_U, KOI8_U_INIT, MACINTOSH, MACINTOSH_INIT,
    REPLACEMENT, REPLACEMENT_INIT, SHIFT_JIS, SHIFT_JIS_INIT, UTF_8, UTF_8_INIT, UTF_16BE,
    UTF_16BE_INIT, UTF_16LE, UTF_16LE_INIT, WINDOWS_874, WINDOWS_874_INIT, WINDOWS_1250,
    WINDOWS_1250_INIT, WINDOWS_1251, WINDOWS_1251_INIT, WINDOWS_1252, WINDOWS_1252_INIT,
    WINDOWS_1253, WINDOWS_1253_INIT, WINDOWS_1254, WINDOWS_1254_INIT, WINDOWS_1255,
    WINDOWS_1255_INIT, WINDOWS_1256, WINDOWS_1256_INIT, WINDOWS_1257, WINDOWS_1257_INIT,
    WINDOWS_1258, WINDOWS_1258_INIT, X_MAC_CYRILLIC, X_MAC_CYRILLIC_INIT, X_USER_DEFINED,
    X_USER_DEFINED_INIT,
};
pub use enc_stream::{
    BomHandling, CoderResult, Decoder, DecoderResult, Encoder, EncoderResult, Encoding,
    OneShotError,
};
