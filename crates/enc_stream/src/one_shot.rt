//! One-shot calls, for whole inputs.

ghost use Rattle.std.specs.Prelude.{◌≡◌, ◌≢◌, ◌↔◌, ◌-◌, ◌<◌, ◌≤◌, [], true, false, chars, length};
ghost use Rattle.std.specs.Prelude.{option_map, IsTrue};
ghost use Rattle.std.specs.Prelude.{IfOk, IsOk, IfErr, IsErrOf, IfSome, OnOk, OnErr, Some, None};
ghost use Rattle.std.specs.Vec.{vec_len, vec_capacity};
ghost use Rattle.std.specs.String.{string_bytes, string_len, string_capacity};
ghost use Rattle.enc_utf8.specs.Checked.{checked_add};
ghost use Rattle.enc_encoder.specs.Unmappable.{any_unmappable};
ghost use Rattle.enc_stream.specs.declared.bom.BomHandling.TheVariants as handling;
ghost use Rattle.enc_stream.specs.declared.lengths.Query.TheVariants as query;
ghost use Rattle.enc_stream.specs.Encodings.{output_rule};
ghost use Rattle.enc_stream.specs.Properties.{output_encoding_of};
ghost use Rattle.enc_stream.specs.Lengths.{max_length};
ghost use Rattle.enc_stream.specs.Decoding.{fresh_decoder};
ghost use Rattle.enc_stream.specs.Decoding.{whole_encoding, whole_utf_8, whole_malformed};
ghost use Rattle.enc_stream.specs.Encoder.{whole_bytes};
ghost use Rattle.enc_stream.specs.OneShot.{utf_8_without_replacement, HasRoomFor};
ghost use Rattle.enc_stream.specs.OneShot.{HasRoomExactlyFor, first_length, length_to_encode};
ghost use Rattle.enc_stream.specs.OneShot.{IsTooLong, IsTooLongToEncode};
ghost use Rattle.enc_stream.specs.OneShot.{MayLackMemory, MayLackMemoryToEncode};

use crate::bom::BomHandling;
use crate::decoder::{Decoder, whole_length};
use crate::encoding::Encoding;
use crate::one_shot_error::OneShotError;
use crate::own_text::{begins_unmarked, encodes_as_itself, own_text, search};
use enc_output::DecoderResult;
use enc_utf8::CoderResult;
use std::alloc::Global;

/// A length in bytes for which no length to allocate overflows.
const MODEST: usize = 0x1000_0000_0000_0000;

/// The most bytes of a short input.
const SHORT: usize = 64;

/// The most bytes of an input of medium length.
const MEDIUM: usize = 320;

/// The length of a buffer in which the longest text of a short input fits.
const SHORT_TEXT: usize = 208;

/// The length of a buffer in which the longest text of an input of medium length fits.
const MEDIUM_TEXT: usize = 1024;

/// Returns a length to allocate, if it does not overflow after `written` bytes.
fn length_after(length: Option<usize>, written: usize) -> Result<usize, OneShotError>
    ensures value { IfOk result (λ more. length ≡ Some more) }
    ensures fault { IfErr result (λ fault. fault ≡ OneShotError.TooLong) }
    ensures too_long { OnErr result (checked_add length written ≡ None) }
    ensures fits { OnOk result (checked_add length written ≢ None) }
{
    let Some(length) = length else {
        return Err(OneShotError::TooLong);
    };
    match length.checked_add(written) {
        Some(_) => Ok(length),
        None => Err(OneShotError::TooLong),
    }
}

/// Returns an empty String. Takes no memory.
fn empty_text(alloc: Global) -> String
    ensures bytes { string_bytes result ≡ [] }
    ensures capacity { string_capacity result ≡ 0 }
{
    match String::with_capacity(alloc, 0) {
        Ok(text) => text,
        Err(_) => unreachable!(),
    }
}

/// Returns an empty String with room for `length` bytes, and for one character at least.
fn text_with_room(alloc: Global, length: Option<usize>) -> Result<String, OneShotError>
    ensures bytes { IfOk result (λ text. string_bytes text ≡ []) }
    ensures room { IfOk result (λ text.
        HasRoomExactlyFor length (string_capacity text - string_len text)) }
    ensures too_long { IsErrOf result OneShotError.TooLong → length ≡ None }
    ensures none { length ≡ None → IsErrOf result OneShotError.TooLong }
    ensures memory { IsErrOf result OneShotError.Memory → length ≢ None }
{
    let Some(more) = length else {
        return Err(OneShotError::TooLong);
    };
    Ok(String::with_capacity(alloc, more.max(4))?)
}

/// Makes room in a String for `length` more bytes, and for one character at least.
fn make_room(text: &mut String, length: Option<usize>) -> Result<(), OneShotError>
    ensures bytes { string_bytes text.new ≡ string_bytes text.old }
    ensures room { OnOk result (4 ≤ string_capacity text.new - string_len text.new) }
    ensures enough { OnOk result
        (HasRoomFor length (string_capacity text.new - string_len text.new)) }
    ensures too_long { IsErrOf result OneShotError.TooLong
        → checked_add length (string_len text.old) ≡ None }
    ensures none { checked_add length (string_len text.old) ≡ None
        → IsErrOf result OneShotError.TooLong }
    ensures memory { IsErrOf result OneShotError.Memory
        → checked_add length (string_len text.old) ≢ None }
{
    let more = length_after(length, text.len())?;
    text.reserve(more.max(4))?;
    Ok(())
}

/// Returns an empty Vec with room for `length` bytes, and for a reference and one character at
/// least.
fn bytes_with_room(alloc: Global, length: Option<usize>) -> Result<Vec<u8>, OneShotError>
    ensures bytes { IfOk result (λ bytes. bytes.items ≡ []) }
    ensures room { IfOk result (λ bytes. 14 ≤ vec_capacity bytes - vec_len bytes) }
    ensures enough { IfOk result (λ bytes.
        HasRoomFor length (vec_capacity bytes - vec_len bytes)) }
    ensures too_long { IsErrOf result OneShotError.TooLong → length ≡ None }
    ensures none { length ≡ None → IsErrOf result OneShotError.TooLong }
    ensures memory { IsErrOf result OneShotError.Memory → length ≢ None }
{
    let Some(room) = length else {
        return Err(OneShotError::TooLong);
    };
    Ok(Vec::with_capacity(alloc, room.max(14))?)
}

/// Makes room in a Vec for `length` more bytes, and for a reference and one character at least.
fn make_byte_room(bytes: &mut Vec<u8>, length: Option<usize>) -> Result<(), OneShotError>
    ensures bytes { bytes.new.items ≡ bytes.old.items }
    ensures room { OnOk result (14 ≤ vec_capacity bytes.new - vec_len bytes.new) }
    ensures enough { OnOk result (HasRoomFor length (vec_capacity bytes.new - vec_len bytes.new)) }
    ensures too_long { IsErrOf result OneShotError.TooLong
        → checked_add length (vec_len bytes.old) ≡ None }
    ensures none { checked_add length (vec_len bytes.old) ≡ None
        → IsErrOf result OneShotError.TooLong }
    ensures memory { IsErrOf result OneShotError.Memory
        → checked_add length (vec_len bytes.old) ≢ None }
{
    let more = length_after(length, bytes.len())?;
    bytes.reserve(more.max(14))?;
    Ok(())
}

/// Copies a text into memory of its length.
#[inline(always)]
fn copy_text(alloc: Global, text: &str) -> Result<String, OneShotError>
    ensures text { IfOk result (λ copy. string_bytes copy ≡ text.now) }
    ensures memory { IfErr result (λ fault. fault ≡ OneShotError.Memory) }
{
    Ok(String::from_str(alloc, text)?)
}

/// Decodes a whole input by calls of a decoder, with U+FFFD for each malformed sequence.
///
/// One call is enough if nothing is malformed. Otherwise a second call may follow, after a growth
/// for the rest of the input. Condition: the input is not empty.
#[inline(never)]
fn convert_long(
    alloc: Global,
    encoding: Encoding,
    handling: BomHandling,
    bytes: &[u8],
) -> Result<(String, bool), OneShotError>
    requires some { bytes.now ≢ [] }
    ensures text { IfOk result (λ answer.
        string_bytes answer.0 ≡ whole_utf_8 handling encoding bytes.now) }
    ensures flag { IfOk result (λ answer. answer.1 ≡ whole_malformed handling encoding bytes.now) }
    ensures too_long { IsErrOf result OneShotError.TooLong → IsTooLong handling encoding bytes.now }
    ensures first { first_length handling encoding bytes.now ≡ None
        → IsErrOf result OneShotError.TooLong }
    ensures memory { IsErrOf result OneShotError.Memory
        → MayLackMemory handling encoding bytes.now }
{
    let input = search(encoding, handling, bytes);
    let length = whole_length(encoding, handling, bytes.len());
    let mut text = text_with_room(alloc, length)?;
    let (mut decoder, stop, read, had_errors) = Decoder::whole_to_string(
        encoding,
        handling,
        input.sniffed,
        bytes,
        &mut text,
    );
    if stop == CoderResult::InputEmpty {
        return Ok((text, had_errors));
    }
    let (_, unread) = bytes.split_at(read);
    let length = decoder.max_utf8_buffer_length(unread.len());
    make_room(&mut text, length)?;
    match decoder.decode_to_string(unread, &mut text, true) {
        (CoderResult::InputEmpty, _, replaced) => Ok((text, had_errors | replaced)),
        (CoderResult::OutputFull, _, _) => unreachable!(),
    }
}

/// Decodes a short whole input through a buffer of N bytes, with U+FFFD for each malformed
/// sequence, and copies its text into memory of its length.
///
/// If the text does not fit, it is decoded as a long one. It is a function of its own, so that its
/// callers have no buffer to clear. Conditions: the input is not empty, and shorter than `MODEST`
/// bytes, and N is at most `MEDIUM_TEXT`.
#[inline(never)]
fn convert_through<const N: usize>(
    alloc: Global,
    encoding: Encoding,
    handling: BomHandling,
    bytes: &[u8],
) -> Result<(String, bool), OneShotError>
    requires some { bytes.now ≢ [] }
    requires short { length bytes.now < MODEST }
    requires room { N ≤ MEDIUM_TEXT }
    ensures text { IfOk result (λ answer.
        string_bytes answer.0 ≡ whole_utf_8 handling encoding bytes.now) }
    ensures flag { IfOk result (λ answer. answer.1 ≡ whole_malformed handling encoding bytes.now) }
    ensures too_long { IsErrOf result OneShotError.TooLong → IsTooLong handling encoding bytes.now }
    ensures first { first_length handling encoding bytes.now ≡ None
        → IsErrOf result OneShotError.TooLong }
    ensures memory { IsErrOf result OneShotError.Memory
        → MayLackMemory handling encoding bytes.now }
{
    let input = search(encoding, handling, bytes);
    let mut buffer = [0; N];
    let (stop, len, had_errors) = Decoder::whole_to_utf8(
        encoding,
        handling,
        input.sniffed,
        bytes,
        &mut buffer,
    );
    match stop {
        CoderResult::InputEmpty => {
            let text = unsafe { str::from_utf8_unchecked(&buffer[..len]) };
            Ok((copy_text(alloc, text)?, had_errors))
        }
        CoderResult::OutputFull => convert_long(alloc, encoding, handling, bytes),
    }
}

/// Decodes a whole input, with U+FFFD for each malformed sequence: a short one through a buffer.
#[inline(always)]
pub(crate) fn convert_whole(
    alloc: Global,
    encoding: Encoding,
    handling: BomHandling,
    bytes: &[u8],
) -> Result<(String, bool), OneShotError>
    ensures text { IfOk result (λ answer.
        string_bytes answer.0 ≡ whole_utf_8 handling encoding bytes.now) }
    ensures flag { IfOk result (λ answer. answer.1 ≡ whole_malformed handling encoding bytes.now) }
    ensures too_long { IsErrOf result OneShotError.TooLong → IsTooLong handling encoding bytes.now }
    ensures first { bytes.now ≢ [] → first_length handling encoding bytes.now ≡ None
        → IsErrOf result OneShotError.TooLong }
    ensures memory { IsErrOf result OneShotError.Memory
        → MayLackMemory handling encoding bytes.now }
    ensures empty { bytes.now ≡ [] → IsOk result }
    ensures capacity { bytes.now ≡ [] → IfOk result (λ answer. string_capacity answer.0 ≡ 0) }
{
    if bytes.is_empty() {
        return Ok((empty_text(alloc), false));
    }
    if bytes.len() <= SHORT {
        return convert_through::<SHORT_TEXT>(alloc, encoding, handling, bytes);
    }
    if bytes.len() <= MEDIUM {
        return convert_through::<MEDIUM_TEXT>(alloc, encoding, handling, bytes);
    }
    convert_long(alloc, encoding, handling, bytes)
}

/// Returns whether the length to allocate for the text of a whole input does not overflow.
#[inline(always)]
fn has_whole_length(encoding: Encoding, handling: BomHandling, len: usize) -> bool
    ensures { IsTrue result
        ↔ (max_length query.Utf8Reporting (fresh_decoder handling encoding) len ≢ None) }
{
    len < MODEST || whole_length(encoding, handling, len).is_some()
}

/// Copies the text of a whole input that is its own text, without its byte order mark.
#[inline(always)]
fn copy_own_text(
    alloc: Global,
    encoding: Encoding,
    handling: BomHandling,
    bytes: &[u8],
    text: &str,
) -> Result<String, OneShotError>
    ensures text { bytes.now ≢ [] → IfOk result (λ copy. string_bytes copy ≡ text.now) }
    ensures nothing { bytes.now ≡ [] → IfOk result (λ copy. string_bytes copy ≡ []) }
    ensures first { bytes.now ≢ [] → first_length handling encoding bytes.now ≡ None
        → IsErrOf result OneShotError.TooLong }
    ensures too_long { IsErrOf result OneShotError.TooLong
        → first_length handling encoding bytes.now ≡ None }
    ensures memory { IsErrOf result OneShotError.Memory
        → MayLackMemory handling encoding bytes.now }
    ensures empty { bytes.now ≡ [] → IsOk result }
    ensures capacity { bytes.now ≡ [] → IfOk result (λ copy. string_capacity copy ≡ 0) }
{
    if bytes.is_empty() {
        return Ok(empty_text(alloc));
    }
    if has_whole_length(encoding, handling, bytes.len()) {
        return copy_text(alloc, text);
    }
    Err(OneShotError::TooLong)
}

/// Decodes a whole input that may begin with a byte order mark, with U+FFFD for each malformed
/// sequence.
///
/// Input that is its own text is copied at once. It is a function of its own, since few inputs
/// begin so.
#[inline(never)]
fn decode_marked(
    alloc: Global,
    encoding: Encoding,
    handling: BomHandling,
    bytes: &[u8],
) -> Result<(String, Encoding, bool), OneShotError>
    ensures text { IfOk result (λ answer.
        string_bytes answer.0 ≡ whole_utf_8 handling encoding bytes.now) }
    ensures encoding { IfOk result (λ answer.
        answer.1 ≡ whole_encoding handling encoding bytes.now) }
    ensures flag { IfOk result (λ answer. answer.2 ≡ whole_malformed handling encoding bytes.now) }
    ensures too_long { IsErrOf result OneShotError.TooLong → IsTooLong handling encoding bytes.now }
    ensures first { bytes.now ≢ [] → first_length handling encoding bytes.now ≡ None
        → IsErrOf result OneShotError.TooLong }
    ensures memory { IsErrOf result OneShotError.Memory
        → MayLackMemory handling encoding bytes.now }
    ensures empty { bytes.now ≡ [] → IsOk result }
    ensures capacity { bytes.now ≡ [] → IfOk result (λ answer. string_capacity answer.0 ≡ 0) }
{
    let input = search(encoding, handling, bytes);
    match own_text(input.encoding, input.rest) {
        Some(text) => {
            let text = copy_own_text(alloc, encoding, handling, bytes, text)?;
            Ok((text, input.encoding, false))
        }
        None => {
            let (text, had_errors) = convert_whole(alloc, encoding, handling, bytes)?;
            Ok((text, input.encoding, had_errors))
        }
    }
}

/// Decodes a whole input, with U+FFFD for each malformed sequence.
///
/// Input that is its own text is copied at once.
fn decode_whole(
    alloc: Global,
    encoding: Encoding,
    handling: BomHandling,
    bytes: &[u8],
) -> Result<(String, Encoding, bool), OneShotError>
    ensures text { IfOk result (λ answer.
        string_bytes answer.0 ≡ whole_utf_8 handling encoding bytes.now) }
    ensures encoding { IfOk result (λ answer.
        answer.1 ≡ whole_encoding handling encoding bytes.now) }
    ensures flag { IfOk result (λ answer. answer.2 ≡ whole_malformed handling encoding bytes.now) }
    ensures too_long { IsErrOf result OneShotError.TooLong → IsTooLong handling encoding bytes.now }
    ensures first { bytes.now ≢ [] → first_length handling encoding bytes.now ≡ None
        → IsErrOf result OneShotError.TooLong }
    ensures memory { IsErrOf result OneShotError.Memory
        → MayLackMemory handling encoding bytes.now }
    ensures empty { bytes.now ≡ [] → IsOk result }
    ensures capacity { bytes.now ≡ [] → IfOk result (λ answer. string_capacity answer.0 ≡ 0) }
{
    if !begins_unmarked(encoding, handling, bytes) {
        return decode_marked(alloc, encoding, handling, bytes);
    }
    match own_text(encoding, bytes) {
        Some(text) => {
            let text = copy_own_text(alloc, encoding, handling, bytes, text)?;
            Ok((text, encoding, false))
        }
        None => {
            let (text, had_errors) = convert_whole(alloc, encoding, handling, bytes)?;
            Ok((text, encoding, had_errors))
        }
    }
}

/// Decodes a whole input by a call of a decoder, if nothing in it is malformed.
pub(crate) fn convert_strictly(
    alloc: Global,
    encoding: Encoding,
    bytes: &[u8],
) -> Result<Option<String>, OneShotError>
    ensures text { IfOk result (λ answer.
        option_map string_bytes answer ≡ utf_8_without_replacement encoding bytes.now) }
    ensures too_long { IsErrOf result OneShotError.TooLong
        → first_length handling.Off encoding bytes.now ≡ None }
    ensures first { bytes.now ≢ [] → first_length handling.Off encoding bytes.now ≡ None
        → IsErrOf result OneShotError.TooLong }
    ensures memory { IsErrOf result OneShotError.Memory
        → MayLackMemory handling.Off encoding bytes.now }
    ensures empty { bytes.now ≡ [] → IsOk result }
    ensures capacity { bytes.now ≡ [] → IfOk result (λ answer.
        IfSome answer (λ text. string_capacity text ≡ 0)) }
{
    if bytes.is_empty() {
        return Ok(Some(empty_text(alloc)));
    }
    let mut decoder = Decoder::start(encoding, BomHandling::Off);
    let length = decoder.max_utf8_buffer_length_without_replacement(bytes.len());
    let mut text = text_with_room(alloc, length)?;
    let (stop, _) = decoder.decode_to_string_without_replacement(bytes, &mut text, true);
    match stop {
        DecoderResult::InputEmpty => Ok(Some(text)),
        DecoderResult::Malformed(_, _) => Ok(None),
        DecoderResult::OutputFull => unreachable!(),
    }
}

/// Encodes a whole text by calls of an encoder, with a reference for each unmappable character.
pub(crate) fn convert_text(
    alloc: Global,
    encoding: Encoding,
    text: &str,
) -> Result<(Vec<u8>, Encoding, bool), OneShotError>
    ensures bytes { IfOk result (λ answer.
        answer.0.items ≡ whole_bytes [] encoding (chars text.now)) }
    ensures encoding { IfOk result (λ answer. answer.1 ≡ output_encoding_of encoding) }
    ensures flag { IfOk result (λ answer.
        answer.2 ≡ any_unmappable (output_rule [] encoding) (chars text.now)) }
    ensures too_long { IsErrOf result OneShotError.TooLong → IsTooLongToEncode encoding text.now }
    ensures first { text.now ≢ []
        → length_to_encode (output_encoding_of encoding) (length text.now) ≡ None
        → IsErrOf result OneShotError.TooLong }
    ensures memory { IsErrOf result OneShotError.Memory
        → MayLackMemoryToEncode encoding text.now }
    ensures empty { text.now ≡ [] → IsOk result }
    ensures capacity { text.now ≡ [] → IfOk result (λ answer. vec_capacity answer.0 ≡ 0) }
{
    let mut encoder = encoding.new_encoder();
    if text.is_empty() {
        return Ok((Vec::new(alloc), encoder.encoding(), false));
    }
    let length = encoder.max_buffer_length_from_utf8_if_no_unmappables(text.len());
    let mut bytes = bytes_with_room(alloc, length)?;
    let mut had_unmappables = false;
    let mut unread = text;
    'calls: loop {
        let (stop, read, replaced) = encoder.encode_from_utf8_to_vec(unread, &mut bytes, true);
        had_unmappables |= replaced;
        if stop == CoderResult::InputEmpty {
            return Ok((bytes, encoder.encoding(), had_unmappables));
        }
        let (_, rest) = unread.split_at(read);
        unread = rest;
        let length = encoder.max_buffer_length_from_utf8_if_no_unmappables(unread.len());
        make_byte_room(&mut bytes, length)?;
    }
}

/// Returns the length to allocate for the bytes of a whole text, if all of it is mappable.
fn first_byte_length(encoding: Encoding, len: usize) -> Option<usize>
    ensures { result ≡ length_to_encode (output_encoding_of encoding) len }
{
    let encoder = encoding.new_encoder();
    encoder.max_buffer_length_from_utf8_if_no_unmappables(len)
}

/// Copies a text into memory of its length, as the bytes that it is encoded as.
fn copy_own_bytes(alloc: Global, encoding: Encoding, text: &str) -> Result<Vec<u8>, OneShotError>
    ensures bytes { IfOk result (λ copy. copy.items ≡ text.now) }
    ensures first { text.now ≢ []
        → length_to_encode (output_encoding_of encoding) (length text.now) ≡ None
        → IsErrOf result OneShotError.TooLong }
    ensures too_long { IsErrOf result OneShotError.TooLong
        → length_to_encode (output_encoding_of encoding) (length text.now) ≡ None }
    ensures memory { IsErrOf result OneShotError.Memory
        → MayLackMemoryToEncode encoding text.now }
    ensures empty { text.now ≡ [] → IsOk result }
    ensures capacity { text.now ≡ [] → IfOk result (λ copy. vec_capacity copy ≡ 0) }
{
    if text.is_empty() {
        return Ok(Vec::new(alloc));
    }
    if text.len() >= MODEST && first_byte_length(encoding, text.len()).is_none() {
        return Err(OneShotError::TooLong);
    }
    Ok(Vec::from_slice(alloc, text.as_bytes())?)
}

impl Encoding {
    /// Decodes a whole input, with replacement (Encoding Standard 6, "decode").
    ///
    /// If the input begins with a byte order mark, its encoding is used, and the byte order mark is
    /// no part of the text. Returns the text, the encoding that was used, and whether a sequence
    /// was malformed.
    ///
    /// Takes memory for the text: one growth if nothing is malformed, and at most two otherwise. An
    /// empty input takes none. Errors: [`OneShotError::TooLong`] if a length to allocate, or its
    /// sum with the length written before, overflows `usize`; [`OneShotError::Memory`] if and only
    /// if memory is refused.
    ///
    /// ```rust
    /// let (text, encoding, had_errors) = SHIFT_JIS.decode(rt.alloc(), b"\x93\xFA\x96\x7B\xFF")?;
    /// assert!(rt; (text.as_str(), encoding, had_errors) == ("日本\u{FFFD}", SHIFT_JIS, true));
    /// ```
    pub fn decode(
        self,
        alloc: Global,
        bytes: &[u8],
    ) -> Result<(String, Encoding, bool), OneShotError>
        ensures text { IfOk result (λ answer.
            string_bytes answer.0 ≡ whole_utf_8 handling.Sniff self bytes.now) }
        ensures encoding { IfOk result (λ answer.
            answer.1 ≡ whole_encoding handling.Sniff self bytes.now) }
        ensures flag { IfOk result (λ answer.
            answer.2 ≡ whole_malformed handling.Sniff self bytes.now) }
        ensures too_long { IsErrOf result OneShotError.TooLong
            → IsTooLong handling.Sniff self bytes.now }
        ensures first { bytes.now ≢ [] → first_length handling.Sniff self bytes.now ≡ None
            → IsErrOf result OneShotError.TooLong }
        ensures memory { IsErrOf result OneShotError.Memory
            → MayLackMemory handling.Sniff self bytes.now }
        ensures empty { bytes.now ≡ [] → IsOk result }
        ensures capacity { bytes.now ≡ [] → IfOk result (λ answer. string_capacity answer.0 ≡ 0) }
    {
        decode_whole(alloc, self, BomHandling::Sniff, bytes)
    }

    /// Decodes a whole input without the byte order mark of this encoding, with replacement.
    ///
    /// That is "UTF-8 decode" of Encoding Standard 6, for any encoding. Returns the text, and
    /// whether a sequence was malformed. Memory and errors are those of [`Encoding::decode`].
    ///
    /// ```rust
    /// let bytes = b"\xFF\xFEa\0\x3D\xD8";
    /// let (text, had_errors) = UTF_16LE.decode_with_bom_removal(rt.alloc(), bytes)?;
    /// assert!(rt; (text.as_str(), had_errors) == ("a\u{FFFD}", true));
    /// ```
    pub fn decode_with_bom_removal(
        self,
        alloc: Global,
        bytes: &[u8],
    ) -> Result<(String, bool), OneShotError>
        ensures text { IfOk result (λ answer.
            string_bytes answer.0 ≡ whole_utf_8 handling.Remove self bytes.now) }
        ensures flag { IfOk result (λ answer.
            answer.1 ≡ whole_malformed handling.Remove self bytes.now) }
        ensures too_long { IsErrOf result OneShotError.TooLong
            → IsTooLong handling.Remove self bytes.now }
        ensures first { bytes.now ≢ [] → first_length handling.Remove self bytes.now ≡ None
            → IsErrOf result OneShotError.TooLong }
        ensures memory { IsErrOf result OneShotError.Memory
            → MayLackMemory handling.Remove self bytes.now }
        ensures empty { bytes.now ≡ [] → IsOk result }
        ensures capacity { bytes.now ≡ [] → IfOk result (λ answer. string_capacity answer.0 ≡ 0) }
    {
        let (text, _, had_errors) = decode_whole(alloc, self, BomHandling::Remove, bytes)?;
        Ok((text, had_errors))
    }

    /// Decodes a whole input, a byte order mark included, with replacement.
    ///
    /// That is "UTF-8 decode without BOM" of Encoding Standard 6, for any encoding. Returns the
    /// text, and whether a sequence was malformed. Memory and errors are those of
    /// [`Encoding::decode`].
    pub fn decode_without_bom_handling(
        self,
        alloc: Global,
        bytes: &[u8],
    ) -> Result<(String, bool), OneShotError>
        ensures text { IfOk result (λ answer.
            string_bytes answer.0 ≡ whole_utf_8 handling.Off self bytes.now) }
        ensures flag { IfOk result (λ answer.
            answer.1 ≡ whole_malformed handling.Off self bytes.now) }
        ensures too_long { IsErrOf result OneShotError.TooLong
            → IsTooLong handling.Off self bytes.now }
        ensures first { bytes.now ≢ [] → first_length handling.Off self bytes.now ≡ None
            → IsErrOf result OneShotError.TooLong }
        ensures memory { IsErrOf result OneShotError.Memory
            → MayLackMemory handling.Off self bytes.now }
        ensures empty { bytes.now ≡ [] → IsOk result }
        ensures capacity { bytes.now ≡ [] → IfOk result (λ answer. string_capacity answer.0 ≡ 0) }
    {
        let (text, _, had_errors) = decode_whole(alloc, self, BomHandling::Off, bytes)?;
        Ok((text, had_errors))
    }

    /// Decodes a whole input, a byte order mark included, if nothing in it is malformed.
    ///
    /// That is "UTF-8 decode without BOM or fail" of Encoding Standard 6, for any encoding. Returns
    /// the text, or `None` exactly if a sequence is malformed. Takes memory for the text in one
    /// growth, and none for an empty input. Errors are those of [`Encoding::decode`].
    ///
    /// ```rust
    /// let (good, bad) = (b"caf\xC3\xA9", b"caf\xE9");
    /// let text = UTF_8.decode_without_bom_handling_and_without_replacement(rt.alloc(), good)?;
    /// assert!(rt; text.as_deref() == Some("café"));
    /// let text = UTF_8.decode_without_bom_handling_and_without_replacement(rt.alloc(), bad)?;
    /// assert!(rt; text.is_none());
    /// ```
    pub fn decode_without_bom_handling_and_without_replacement(
        self,
        alloc: Global,
        bytes: &[u8],
    ) -> Result<Option<String>, OneShotError>
        ensures text { IfOk result (λ answer.
            option_map string_bytes answer ≡ utf_8_without_replacement self bytes.now) }
        ensures too_long { IsErrOf result OneShotError.TooLong
            → first_length handling.Off self bytes.now ≡ None }
        ensures first { bytes.now ≢ [] → first_length handling.Off self bytes.now ≡ None
            → IsErrOf result OneShotError.TooLong }
        ensures memory { IsErrOf result OneShotError.Memory
            → MayLackMemory handling.Off self bytes.now }
        ensures empty { bytes.now ≡ [] → IsOk result }
        ensures capacity { bytes.now ≡ [] → IfOk result (λ answer.
            IfSome answer (λ text. string_capacity text ≡ 0)) }
    {
        match own_text(self, bytes) {
            Some(text) => Ok(Some(copy_own_text(alloc, self, BomHandling::Off, bytes, text)?)),
            None => convert_strictly(alloc, self, bytes),
        }
    }

    /// Encodes a whole text, with replacement (Encoding Standard 6, "encode").
    ///
    /// It is encoded in the output encoding, with a decimal reference for each unmappable
    /// character. Returns the bytes, the output encoding, and whether a character was unmappable.
    ///
    /// Takes memory for the bytes: one growth if nothing is unmappable, and otherwise one or more.
    /// An empty text takes none. Errors are those of [`Encoding::decode`].
    ///
    /// ```rust
    /// let (bytes, encoding, had_unmappables) = WINDOWS_1252.encode(rt.alloc(), "5 € → 日")?;
    /// assert!(rt; &bytes[..] == b"5 \x80 &#8594; &#26085;".as_slice());
    /// assert!(rt; (encoding, had_unmappables) == (WINDOWS_1252, true));
    /// ```
    pub fn encode(
        self,
        alloc: Global,
        text: &str,
    ) -> Result<(Vec<u8>, Encoding, bool), OneShotError>
        ensures bytes { IfOk result (λ answer.
            answer.0.items ≡ whole_bytes [] self (chars text.now)) }
        ensures encoding { IfOk result (λ answer. answer.1 ≡ output_encoding_of self) }
        ensures flag { IfOk result (λ answer.
            answer.2 ≡ any_unmappable (output_rule [] self) (chars text.now)) }
        ensures too_long { IsErrOf result OneShotError.TooLong → IsTooLongToEncode self text.now }
        ensures first { text.now ≢ []
            → length_to_encode (output_encoding_of self) (length text.now) ≡ None
            → IsErrOf result OneShotError.TooLong }
        ensures memory { IsErrOf result OneShotError.Memory
            → MayLackMemoryToEncode self text.now }
        ensures empty { text.now ≡ [] → IsOk result }
        ensures capacity { text.now ≡ [] → IfOk result (λ answer. vec_capacity answer.0 ≡ 0) }
    {
        if encodes_as_itself(self, text) {
            let bytes = copy_own_bytes(alloc, self, text)?;
            return Ok((bytes, self.output_encoding(), false));
        }
        convert_text(alloc, self, text)
    }
}
