//! One-shot calls that lend the input if it is its own text.

ghost use Rattle.std.specs.Prelude.{◌≡◌, ◌≢◌, ◌↔◌, [], None, chars, length, option_map};
ghost use Rattle.std.specs.Prelude.{IfOk, IsOk, IsErrOf, IfSome, IsOkAnd, IsSomeAnd};
ghost use Rattle.std.specs.Cow.{cow_str_bytes, cow_slice_items, IsBorrowedStr, IsBorrowedSlice};
ghost use Rattle.enc_encoder.specs.Unmappable.{any_unmappable};
ghost use Rattle.enc_stream.specs.declared.bom.BomHandling.TheVariants as handling;
ghost use Rattle.enc_stream.specs.Encodings.{output_rule};
ghost use Rattle.enc_stream.specs.Properties.{output_encoding_of};
ghost use Rattle.enc_stream.specs.Decoding.{whole_encoding, whole_utf_8, whole_malformed};
ghost use Rattle.enc_stream.specs.Encoder.{whole_bytes};
ghost use Rattle.enc_stream.specs.OneShot.{utf_8_without_replacement};
ghost use Rattle.enc_stream.specs.OneShot.{first_length, length_to_encode};
ghost use Rattle.enc_stream.specs.OneShot.{IsTooLong, IsTooLongToEncode};
ghost use Rattle.enc_stream.specs.OneShot.{MayLackMemory, MayLackMemoryToEncode};
ghost use Rattle.enc_stream.specs.OwnText.{AreTheirOwnText, IsItsOwnText, unmarked_bytes};
ghost use Rattle.enc_stream.specs.OwnText.{owned_str_capacity, owned_slice_capacity};

use crate::bom::BomHandling;
use crate::encoding::Encoding;
use crate::one_shot::{convert_strictly, convert_text, convert_whole};
use crate::one_shot_error::OneShotError;
use crate::own_text::{begins_unmarked, encodes_as_itself, own_text, search};
use std::alloc::Global;
use std::borrow::{CowSlice, CowStr};

/// Decodes a whole input that may begin with a byte order mark, with U+FFFD for each malformed
/// sequence, or lends its own text.
///
/// It is a function of its own, since few inputs begin so.
#[inline(never)]
fn lend_marked<'a>(
    alloc: Global,
    encoding: Encoding,
    handling: BomHandling,
    bytes: &'a [u8],
) -> Result<(CowStr<'a>, Encoding, bool), OneShotError>
    ensures text { IfOk result (λ answer.
        cow_str_bytes answer.0 ≡ whole_utf_8 handling encoding bytes.now) }
    ensures encoding { IfOk result (λ answer.
        answer.1 ≡ whole_encoding handling encoding bytes.now) }
    ensures flag { IfOk result (λ answer. answer.2 ≡ whole_malformed handling encoding bytes.now) }
    ensures lends { IsOkAnd result (λ answer. IsBorrowedStr answer.0)
        ↔ IsItsOwnText handling encoding bytes.now }
    ensures part { IfOk result (λ answer. IsBorrowedStr answer.0
        → cow_str_bytes answer.0 ≡ unmarked_bytes handling encoding bytes.now) }
    ensures too_long { IsErrOf result OneShotError.TooLong → IsTooLong handling encoding bytes.now }
    ensures first { ¬ (IsItsOwnText handling encoding bytes.now) → bytes.now ≢ []
        → first_length handling encoding bytes.now ≡ None → IsErrOf result OneShotError.TooLong }
    ensures memory { IsErrOf result OneShotError.Memory
        → MayLackMemory handling encoding bytes.now }
    ensures empty { bytes.now ≡ [] → IsOk result }
    ensures capacity { bytes.now ≡ [] → IfOk result (λ answer.
        owned_str_capacity answer.0 ≡ 0) }
{
    let input = search(encoding, handling, bytes);
    if let Some(text) = own_text(input.encoding, input.rest) {
        return Ok((CowStr::Borrowed(text), input.encoding, false));
    }
    let (text, had_errors) = convert_whole(alloc, encoding, handling, bytes)?;
    Ok((CowStr::Owned(text), input.encoding, had_errors))
}

/// Decodes a whole input, with U+FFFD for each malformed sequence, or lends its own text.
fn lend_whole<'a>(
    alloc: Global,
    encoding: Encoding,
    handling: BomHandling,
    bytes: &'a [u8],
) -> Result<(CowStr<'a>, Encoding, bool), OneShotError>
    ensures text { IfOk result (λ answer.
        cow_str_bytes answer.0 ≡ whole_utf_8 handling encoding bytes.now) }
    ensures encoding { IfOk result (λ answer.
        answer.1 ≡ whole_encoding handling encoding bytes.now) }
    ensures flag { IfOk result (λ answer. answer.2 ≡ whole_malformed handling encoding bytes.now) }
    ensures lends { IsOkAnd result (λ answer. IsBorrowedStr answer.0)
        ↔ IsItsOwnText handling encoding bytes.now }
    ensures part { IfOk result (λ answer. IsBorrowedStr answer.0
        → cow_str_bytes answer.0 ≡ unmarked_bytes handling encoding bytes.now) }
    ensures too_long { IsErrOf result OneShotError.TooLong → IsTooLong handling encoding bytes.now }
    ensures first { ¬ (IsItsOwnText handling encoding bytes.now) → bytes.now ≢ []
        → first_length handling encoding bytes.now ≡ None → IsErrOf result OneShotError.TooLong }
    ensures memory { IsErrOf result OneShotError.Memory
        → MayLackMemory handling encoding bytes.now }
    ensures empty { bytes.now ≡ [] → IsOk result }
    ensures capacity { bytes.now ≡ [] → IfOk result (λ answer.
        owned_str_capacity answer.0 ≡ 0) }
{
    if !begins_unmarked(encoding, handling, bytes) {
        return lend_marked(alloc, encoding, handling, bytes);
    }
    if let Some(text) = own_text(encoding, bytes) {
        return Ok((CowStr::Borrowed(text), encoding, false));
    }
    let (text, had_errors) = convert_whole(alloc, encoding, handling, bytes)?;
    Ok((CowStr::Owned(text), encoding, had_errors))
}

impl Encoding {
    /// Decodes a whole input, with replacement, or lends its text (Encoding Standard 6, "decode").
    ///
    /// The answer is that of [`Encoding::decode`]. The text is borrowed if and only if the bytes
    /// after the byte order mark are the text themselves, in the encoding that was used:
    /// well-formed UTF-8 in UTF-8, ASCII in an ASCII-compatible encoding, and ASCII without 0x0E,
    /// 0x0F and 0x1B in ISO-2022-JP. In UTF-16BE, UTF-16LE and replacement it never is.
    ///
    /// A borrowed text takes no memory, and is never refused. Otherwise memory and errors are those
    /// of [`Encoding::decode`].
    ///
    /// ```rust
    /// let (text, _, _) = UTF_8.decode_lending(rt.alloc(), b"caf\xC3\xA9")?;
    /// assert!(rt; matches!(text, CowStr::Borrowed("café")));
    /// ```
    pub fn decode_lending<'a>(
        self,
        alloc: Global,
        bytes: &'a [u8],
    ) -> Result<(CowStr<'a>, Encoding, bool), OneShotError>
        ensures text { IfOk result (λ answer.
            cow_str_bytes answer.0 ≡ whole_utf_8 handling.Sniff self bytes.now) }
        ensures encoding { IfOk result (λ answer.
            answer.1 ≡ whole_encoding handling.Sniff self bytes.now) }
        ensures flag { IfOk result (λ answer.
            answer.2 ≡ whole_malformed handling.Sniff self bytes.now) }
        ensures lends { IsOkAnd result (λ answer. IsBorrowedStr answer.0)
            ↔ IsItsOwnText handling.Sniff self bytes.now }
        ensures part { IfOk result (λ answer. IsBorrowedStr answer.0
            → cow_str_bytes answer.0 ≡ unmarked_bytes handling.Sniff self bytes.now) }
        ensures too_long { IsErrOf result OneShotError.TooLong
            → IsTooLong handling.Sniff self bytes.now }
        ensures first { ¬ (IsItsOwnText handling.Sniff self bytes.now) → bytes.now ≢ []
            → first_length handling.Sniff self bytes.now ≡ None
            → IsErrOf result OneShotError.TooLong }
        ensures memory { IsErrOf result OneShotError.Memory
            → MayLackMemory handling.Sniff self bytes.now }
        ensures empty { bytes.now ≡ [] → IsOk result }
        ensures capacity { bytes.now ≡ [] → IfOk result (λ answer.
            owned_str_capacity answer.0 ≡ 0) }
    {
        lend_whole(alloc, self, BomHandling::Sniff, bytes)
    }

    /// Decodes a whole input without the byte order mark of this encoding, with replacement, or
    /// lends its text (Encoding Standard 6, "UTF-8 decode").
    ///
    /// The answer is that of [`Encoding::decode_with_bom_removal`]. The text is borrowed under the
    /// condition of [`Encoding::decode_lending`], in this encoding. Memory and errors are those of
    /// that call.
    pub fn decode_with_bom_removal_lending<'a>(
        self,
        alloc: Global,
        bytes: &'a [u8],
    ) -> Result<(CowStr<'a>, bool), OneShotError>
        ensures text { IfOk result (λ answer.
            cow_str_bytes answer.0 ≡ whole_utf_8 handling.Remove self bytes.now) }
        ensures flag { IfOk result (λ answer.
            answer.1 ≡ whole_malformed handling.Remove self bytes.now) }
        ensures lends { IsOkAnd result (λ answer. IsBorrowedStr answer.0)
            ↔ IsItsOwnText handling.Remove self bytes.now }
        ensures part { IfOk result (λ answer. IsBorrowedStr answer.0
            → cow_str_bytes answer.0 ≡ unmarked_bytes handling.Remove self bytes.now) }
        ensures too_long { IsErrOf result OneShotError.TooLong
            → IsTooLong handling.Remove self bytes.now }
        ensures first { ¬ (IsItsOwnText handling.Remove self bytes.now) → bytes.now ≢ []
            → first_length handling.Remove self bytes.now ≡ None
            → IsErrOf result OneShotError.TooLong }
        ensures memory { IsErrOf result OneShotError.Memory
            → MayLackMemory handling.Remove self bytes.now }
        ensures empty { bytes.now ≡ [] → IsOk result }
        ensures capacity { bytes.now ≡ [] → IfOk result (λ answer.
            owned_str_capacity answer.0 ≡ 0) }
    {
        let (text, _, had_errors) = lend_whole(alloc, self, BomHandling::Remove, bytes)?;
        Ok((text, had_errors))
    }

    /// Decodes a whole input, a byte order mark included, with replacement, or lends its text
    /// (Encoding Standard 6, "UTF-8 decode without BOM").
    ///
    /// The answer is that of [`Encoding::decode_without_bom_handling`]. The text is borrowed, as
    /// all of the input, under the condition of [`Encoding::decode_lending`], in this encoding.
    /// Memory and errors are those of that call.
    pub fn decode_without_bom_handling_lending<'a>(
        self,
        alloc: Global,
        bytes: &'a [u8],
    ) -> Result<(CowStr<'a>, bool), OneShotError>
        ensures text { IfOk result (λ answer.
            cow_str_bytes answer.0 ≡ whole_utf_8 handling.Off self bytes.now) }
        ensures flag { IfOk result (λ answer.
            answer.1 ≡ whole_malformed handling.Off self bytes.now) }
        ensures lends { IsOkAnd result (λ answer. IsBorrowedStr answer.0)
            ↔ IsItsOwnText handling.Off self bytes.now }
        ensures part { IfOk result (λ answer. IsBorrowedStr answer.0
            → cow_str_bytes answer.0 ≡ unmarked_bytes handling.Off self bytes.now) }
        ensures too_long { IsErrOf result OneShotError.TooLong
            → IsTooLong handling.Off self bytes.now }
        ensures first { ¬ (IsItsOwnText handling.Off self bytes.now) → bytes.now ≢ []
            → first_length handling.Off self bytes.now ≡ None
            → IsErrOf result OneShotError.TooLong }
        ensures memory { IsErrOf result OneShotError.Memory
            → MayLackMemory handling.Off self bytes.now }
        ensures empty { bytes.now ≡ [] → IsOk result }
        ensures capacity { bytes.now ≡ [] → IfOk result (λ answer.
            owned_str_capacity answer.0 ≡ 0) }
    {
        let (text, _, had_errors) = lend_whole(alloc, self, BomHandling::Off, bytes)?;
        Ok((text, had_errors))
    }

    /// Decodes a whole input, a byte order mark included, if nothing in it is malformed, or lends
    /// its text (Encoding Standard 6, "UTF-8 decode without BOM or fail").
    ///
    /// The answer is that of [`Encoding::decode_without_bom_handling_and_without_replacement`]:
    /// `None` exactly if a sequence is malformed. The text is borrowed, as all of the input, under
    /// the condition of [`Encoding::decode_lending`], in this encoding. A borrowed text takes no
    /// memory, and is never refused.
    pub fn decode_without_bom_handling_and_without_replacement_lending<'a>(
        self,
        alloc: Global,
        bytes: &'a [u8],
    ) -> Result<Option<CowStr<'a>>, OneShotError>
        ensures text { IfOk result (λ answer.
            option_map cow_str_bytes answer ≡ utf_8_without_replacement self bytes.now) }
        ensures lends { IsOkAnd result (λ answer. IsSomeAnd answer IsBorrowedStr)
            ↔ IsItsOwnText handling.Off self bytes.now }
        ensures part { IfOk result (λ answer. IfSome answer (λ text. IsBorrowedStr text
            → cow_str_bytes text ≡ bytes.now)) }
        ensures too_long { IsErrOf result OneShotError.TooLong
            → first_length handling.Off self bytes.now ≡ None }
        ensures first { ¬ (IsItsOwnText handling.Off self bytes.now) → bytes.now ≢ []
            → first_length handling.Off self bytes.now ≡ None
            → IsErrOf result OneShotError.TooLong }
        ensures memory { IsErrOf result OneShotError.Memory
            → MayLackMemory handling.Off self bytes.now }
        ensures empty { bytes.now ≡ [] → IsOk result }
        ensures capacity { bytes.now ≡ [] → IfOk result (λ answer.
            IfSome answer (λ text. owned_str_capacity text ≡ 0)) }
    {
        if let Some(text) = own_text(self, bytes) {
            return Ok(Some(CowStr::Borrowed(text)));
        }
        match convert_strictly(alloc, self, bytes)? {
            Some(text) => Ok(Some(CowStr::Owned(text))),
            None => Ok(None),
        }
    }

    /// Encodes a whole text, with replacement, or lends its bytes (Encoding Standard 6, "encode").
    ///
    /// The answer is that of [`Encoding::encode`]. The bytes are borrowed, as those of the text, if
    /// and only if the output encoding is UTF-8, or is ISO-2022-JP and the text is ASCII without
    /// U+000E, U+000F and U+001B, or is another one and the text is ASCII.
    ///
    /// Borrowed bytes take no memory, and are never refused. Otherwise memory and errors are those
    /// of [`Encoding::encode`].
    ///
    /// ```rust
    /// let (bytes, encoding, _) = UTF_16LE.encode_lending(rt.alloc(), "é")?;
    /// assert!(rt; matches!(bytes, CowSlice::Borrowed(b"\xC3\xA9")));
    /// assert!(rt; encoding == UTF_8);
    /// ```
    pub fn encode_lending<'a>(
        self,
        alloc: Global,
        text: &'a str,
    ) -> Result<(CowSlice<'a, u8>, Encoding, bool), OneShotError>
        ensures bytes { IfOk result (λ answer.
            cow_slice_items answer.0 ≡ whole_bytes [] self (chars text.now)) }
        ensures encoding { IfOk result (λ answer. answer.1 ≡ output_encoding_of self) }
        ensures flag { IfOk result (λ answer.
            answer.2 ≡ any_unmappable (output_rule [] self) (chars text.now)) }
        ensures lends { IsOkAnd result (λ answer. IsBorrowedSlice answer.0)
            ↔ AreTheirOwnText (output_encoding_of self) text.now }
        ensures part { IfOk result (λ answer. IsBorrowedSlice answer.0
            → cow_slice_items answer.0 ≡ text.now) }
        ensures too_long { IsErrOf result OneShotError.TooLong → IsTooLongToEncode self text.now }
        ensures first { ¬ (AreTheirOwnText (output_encoding_of self) text.now) → text.now ≢ []
            → length_to_encode (output_encoding_of self) (length text.now) ≡ None
            → IsErrOf result OneShotError.TooLong }
        ensures memory { IsErrOf result OneShotError.Memory
            → MayLackMemoryToEncode self text.now }
        ensures empty { text.now ≡ [] → IsOk result }
        ensures capacity { text.now ≡ [] → IfOk result (λ answer.
            owned_slice_capacity answer.0 ≡ 0) }
    {
        if encodes_as_itself(self, text) {
            let bytes = CowSlice::Borrowed(text.as_bytes());
            return Ok((bytes, self.output_encoding(), false));
        }
        let (bytes, encoding, had_unmappables) = convert_text(alloc, self, text)?;
        Ok((CowSlice::Owned(bytes), encoding, had_unmappables))
    }
}
