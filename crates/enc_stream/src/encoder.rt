//! Encoders.

ghost use Rattle.std.specs.Prelude.{◌≡◌, ◌-◌, ◌≤◌, true, false, [], length, take, drop};
ghost use Rattle.std.specs.Prelude.{chars, ℕ, if◌then◌else◌};
ghost use Rattle.std.specs.Str.{IsCharBoundary};
ghost use Rattle.std.specs.Vec.{vec_len, vec_capacity};
ghost use Rattle.std.specs.Char.{encode_utf8};
ghost use Rattle.std.specs.Char.Escape.{encode_utf16};
ghost use Rattle.std.specs.Char.Utf16.{utf16_lossy_chars};
ghost use Rattle.enc_encoder.specs.Barring.{are_beyond_ascii};
ghost use Rattle.enc_encoder.specs.EncoderRule.{is_escape_due};
ghost use Rattle.enc_encoder.specs.ErrorMode.{Fatal};
ghost use Rattle.enc_input.specs.Results.{encoder_result_of};
ghost use Rattle.enc_encoder.specs.declared.error_mode.ErrorMode.TheVariants.{Html, HtmlOfMappable};
ghost use Rattle.enc_encoder.specs.Need.{AreEnoughForEncoder};
ghost use Rattle.enc_stream.specs.Encoder.{EncodesChunk, fresh_encoder};
ghost use Rattle.enc_stream.specs.Encoder.{maps_every_character as wanted_every, raw_state};
ghost use Rattle.enc_stream.specs.Encoder.{room_kept_for_references, html_mode, LeavesFewerSteps};
ghost use Rattle.enc_stream.specs.Lengths.{output_lengths};
ghost use Rattle.enc_stream.specs.Need.{EncodesByNeed};

use crate::encoding::{Encoding, codec_of};
use enc_encode::{ByteLengths, RawEncoder, VariantEncoder, byte_lengths, new_encoder};
use enc_encoder::{ErrorMode, LONGEST_REFERENCE, encode_in_mode};
use enc_input::{EncoderResult, Utf8Chars, Utf16Chars};
use enc_names::EncodingId;
use enc_utf8::CoderResult;
use std::fmt;
use std::marker::Model;

/// Converts text into bytes, in chunks and output buffers of any size (Encoding Standard 4.1).
///
/// Encoding in chunks always produces a prefix of encoding the whole text at once, and all of it at
/// the end, if the text is split between characters. Each unmappable character becomes a decimal
/// reference: calls with replacement write it, and the caller writes it for one that is reported.
///
/// Between calls the encoder keeps the designated character set, which only ISO-2022-JP has, and
/// the list of barred characters.
#[derive(Drop)]
pub struct Encoder {
    encoding: Encoding,
    barred: &'static [char],
    raw: VariantEncoder,
}

impl Model for Encoder {
    ghost use Rattle.std.specs.Prelude.{◌≡◌};
    ghost use Rattle.enc_encode.specs.Variant.{variant_encoder_state};
    ghost use Rattle.enc_stream.specs.Encodings.{output_rule};
    ghost use Rattle.enc_stream.specs.Encoder.{EncoderState};

    ghost Value = { EncoderState };

    ghost view = { λ e. record {
      encoding = e.encoding;
      barred = e.barred.now;
      set = (variant_encoder_state e.raw).set;
    } };

    ghost invariant = { λ e. (variant_encoder_state e.raw).rule
        ≡ output_rule e.barred.now e.encoding };
}

impl fmt::Debug for Encoder {
    /// Writes the encoding, and whether an escape sequence is due at the end of the text.
    fn fmt<W: fmt::Write>(&self, f: &mut fmt::Formatter<W>) -> fmt::Result {
        f.debug_struct("Encoder")
            .field("encoding", &self.encoding)
            .field("pending", &self.has_pending_state())
            .finish()
    }
}

impl Encoding {
    /// Returns an encoder of its output encoding (Encoding Standard 4.3, "get an output encoding").
    ///
    /// That is UTF-8 for UTF-16BE, UTF-16LE and replacement, and the encoding itself otherwise. The
    /// encoder is at the start of a text.
    pub fn new_encoder(self) -> Encoder
        ensures { result ≡ fresh_encoder [] self }
    {
        self.new_encoder_barring(&[])
    }

    /// Returns an encoder of its output encoding, with barred characters.
    ///
    /// The characters of `barred` are unmappable too. To bar one bars no other that has the same
    /// bytes, as U+2212 and U+FF0D in Shift_JIS. The encoder keeps the list after a text too.
    /// Condition: each character of the list is U+0080 or above ([`Encoding::barred_ok`]).
    pub fn new_encoder_barring(self, barred: &'static [char]) -> Encoder
        requires beyond_ascii { are_beyond_ascii barred.now ≡ true }
        ensures { result ≡ fresh_encoder barred.now self }
    {
        let encoding = self.output_encoding();
        Encoder {
            encoding,
            barred,
            raw: new_encoder(codec_of(encoding), barred),
        }
    }
}

/// Returns why a call that writes references stopped.
fn stop(result_of_call: EncoderResult) -> CoderResult
    requires none_unmappable { (c : ℕ) → result_of_call ≡ EncoderResult.Unmappable c → ⊥ }
    ensures { encoder_result_of result ≡ result_of_call }
{
    match result_of_call {
        EncoderResult::InputEmpty => CoderResult::InputEmpty,
        EncoderResult::OutputFull => CoderResult::OutputFull,
        EncoderResult::Unmappable(_) => unreachable!(),
    }
}

impl Encoder {
    /// Returns the encoding that it writes, which is an output encoding.
    pub fn encoding(&self) -> Encoding
        ensures { result ≡ self.now.encoding }
    {
        self.encoding
    }

    /// Returns whether an escape sequence is due at the end of the text.
    ///
    /// That is so while a character set other than ASCII is designated, in ISO-2022-JP alone.
    pub fn has_pending_state(&self) -> bool
        ensures { result ≡ is_escape_due self.now.set }
    {
        self.raw.has_pending_state()
    }

    /// Returns the formulas for the number of bytes of a text.
    pub(crate) fn byte_lengths(&self) -> ByteLengths
        ensures lengths { result ≡ output_lengths self.now.encoding }
        ensures enough { AreEnoughForEncoder (output_lengths self.now.encoding)
            (raw_state self.now) }
    {
        byte_lengths(codec_of(self.encoding))
    }

    /// Returns whether every character is mappable: in UTF-8, if none is barred.
    fn maps_every_character(&self) -> bool
        ensures { result ≡ wanted_every self.now.barred self.now.encoding }
    {
        match self.encoding.id {
            EncodingId::Utf8 => self.barred.is_empty(),
            _ => false,
        }
    }

    /// Returns the error mode of calls that write references.
    fn html_mode(&self) -> ErrorMode
        ensures { result ≡ (if wanted_every self.now.barred self.now.encoding then HtmlOfMappable
            else Html) }
    {
        if self.maps_every_character() {
            ErrorMode::HtmlOfMappable
        } else {
            ErrorMode::Html
        }
    }

    /// Returns the number of bytes at the end of an output that are kept free for references.
    pub(crate) fn kept(&self) -> usize
        ensures { result ≡ room_kept_for_references self.now.barred self.now.encoding }
    {
        if self.maps_every_character() {
            0
        } else {
            LONGEST_REFERENCE
        }
    }

    /// Encodes a chunk of text, with replacement.
    ///
    /// That is error mode "html" of Encoding Standard 4.1: a decimal reference is written for each
    /// unmappable character. A reference is `&#`, the character's number and `;`. In ISO-2022-JP
    /// U+000E, U+000F and U+001B get the reference of U+FFFD. With `last` nothing follows `src`.
    /// Returns why the call stopped, the number of bytes read from `src`, the number of bytes
    /// written to `dst`, and whether a reference was written.
    ///
    /// - `InputEmpty`: all of `src` is read. With `last` the text is ended, and the encoder is at
    ///   the start of another.
    /// - `OutputFull`: the bytes that come next do not fit. Their character is unread.
    ///
    /// The last 10 bytes of `dst` are kept free for references, unless the encoding is UTF-8 and no
    /// character is barred. With fewer than 10 bytes the call does nothing. After a reference that
    /// reaches these 10 bytes it writes no more. In both cases it returns `InputEmpty` if
    /// nothing is left to do, and otherwise `OutputFull`.
    ///
    /// Any length of `dst` will do, 0 too; with 14 bytes, or 4 if none are kept free, each call
    /// makes progress: a loop ends by `progress` or `progress_if_none_kept`, since fewer steps are
    /// left (`steps_left`: an escape sequence, a character's bytes and a report are a step each).
    /// The bytes of `dst` after those written are unchanged.
    ///
    /// ```rust
    /// let mut encoder = ISO_8859_2.new_encoder();
    /// let mut bytes = [0; 32];
    /// let outcome = encoder.encode_from_utf8("Łódź €", &mut bytes, true);
    /// assert!(rt; outcome == (CoderResult::InputEmpty, 11, 12, true));
    /// assert!(rt; &bytes[..12] == b"\xA3\xF3d\xBC &#8364;".as_slice());
    /// ```
    pub fn encode_from_utf8(
        &mut self,
        src: &str,
        dst: &mut [u8],
        last: bool,
    ) -> (CoderResult, usize, usize, bool)
        ensures call { EncodesChunk encode_utf8 self.old self.new (record {
          src = chars src.now;
          last = last;
          mode = html_mode self.old;
          room = length dst.old;
          result = encoder_result_of result.0;
          read = result.1;
          wrote = take result.2 dst.new;
          replaced = result.3;
        }) }
        ensures read { result.1 ≤ length src.now }
        ensures boundary { IsCharBoundary src.now result.1 }
        ensures written { result.2 ≤ length dst.old }
        ensures rest { drop result.2 dst.new ≡ drop result.2 dst.old }
        ensures progress { (result.0 ≡ CoderResult.InputEmpty → ⊥) → 14 ≤ length dst.old →
            LeavesFewerSteps self.old self.new last
            (chars src.now) (chars (drop result.1 src.now)) }
        ensures progress_if_none_kept { (result.0 ≡ CoderResult.InputEmpty → ⊥) →
            room_kept_for_references self.old.barred self.old.encoding ≡ 0 → 4 ≤ length dst.old →
            LeavesFewerSteps self.old self.new last
            (chars src.now) (chars (drop result.1 src.now)) }
    {
        let mode = self.html_mode();
        let mut chars = Utf8Chars::new(src);
        let outcome = encode_in_mode(&mut self.raw, &mut chars, dst, last, mode);
        (
            stop(outcome.result),
            outcome.read,
            outcome.written,
            outcome.replaced,
        )
    }

    /// Encodes a chunk of UTF-16, with replacement.
    ///
    /// The same as [`Encoder::encode_from_utf8`], except that the number read is in code units. A
    /// surrogate without its partner in `src` is U+FFFD: so are both halves of a pair that is split
    /// between two calls. A loop ends in the same way.
    ///
    /// ```rust
    /// let mut encoder = SHIFT_JIS.new_encoder();
    /// let mut bytes = [0; 16];
    /// let outcome = encoder.encode_from_utf16(&[0x65E5, 0x672C], &mut bytes, true);
    /// assert!(rt; outcome == (CoderResult::InputEmpty, 2, 4, false));
    /// assert!(rt; &bytes[..4] == b"\x93\xFA\x96\x7B".as_slice());
    /// ```
    pub fn encode_from_utf16(
        &mut self,
        src: &[u16],
        dst: &mut [u8],
        last: bool,
    ) -> (CoderResult, usize, usize, bool)
        ensures call { EncodesChunk encode_utf16 self.old self.new (record {
          src = utf16_lossy_chars src.now;
          last = last;
          mode = html_mode self.old;
          room = length dst.old;
          result = encoder_result_of result.0;
          read = result.1;
          wrote = take result.2 dst.new;
          replaced = result.3;
        }) }
        ensures read { result.1 ≤ length src.now }
        ensures written { result.2 ≤ length dst.old }
        ensures rest { drop result.2 dst.new ≡ drop result.2 dst.old }
        ensures progress { (result.0 ≡ CoderResult.InputEmpty → ⊥) → 14 ≤ length dst.old →
            LeavesFewerSteps self.old self.new last
            (utf16_lossy_chars src.now) (utf16_lossy_chars (drop result.1 src.now)) }
        ensures progress_if_none_kept { (result.0 ≡ CoderResult.InputEmpty → ⊥) →
            room_kept_for_references self.old.barred self.old.encoding ≡ 0 → 4 ≤ length dst.old →
            LeavesFewerSteps self.old self.new last
            (utf16_lossy_chars src.now) (utf16_lossy_chars (drop result.1 src.now)) }
    {
        let mode = self.html_mode();
        let mut units = Utf16Chars::new(src);
        let outcome = encode_in_mode(&mut self.raw, &mut units, dst, last, mode);
        (
            stop(outcome.result),
            outcome.read,
            outcome.written,
            outcome.replaced,
        )
    }

    /// Encodes a chunk of text and appends its bytes to a Vec, with replacement.
    ///
    /// The same as [`Encoder::encode_from_utf8`] into a slice as long as the Vec's spare capacity,
    /// which may be 0. Returns why the call stopped, the number of bytes read from `src`, and
    /// whether a reference was written. Appends within the capacity, which does not shrink: takes
    /// no memory. A loop ends in the same way, by the spare capacity.
    ///
    /// ```rust
    /// let mut encoder = GBK.new_encoder();
    /// let mut bytes = Vec::with_capacity(rt.alloc(), 16)?;
    /// let outcome = encoder.encode_from_utf8_to_vec("中文", &mut bytes, true);
    /// assert!(rt; outcome == (CoderResult::InputEmpty, 6, false));
    /// assert!(rt; &bytes[..] == b"\xD6\xD0\xCE\xC4".as_slice());
    /// ```
    pub fn encode_from_utf8_to_vec(
        &mut self,
        src: &str,
        dst: &mut Vec<u8>,
        last: bool,
    ) -> (CoderResult, usize, bool)
        ensures call { EncodesChunk encode_utf8 self.old self.new (record {
          src = chars src.now;
          last = last;
          mode = html_mode self.old;
          room = vec_capacity dst.old - vec_len dst.old;
          result = encoder_result_of result.0;
          read = result.1;
          wrote = drop (length dst.old.items) dst.new.items;
          replaced = result.2;
        }) }
        ensures read { result.1 ≤ length src.now }
        ensures boundary { IsCharBoundary src.now result.1 }
        ensures appended { take (length dst.old.items) dst.new.items ≡ dst.old.items }
        ensures capacity { vec_capacity dst.old ≤ vec_capacity dst.new }
        ensures progress { (result.0 ≡ CoderResult.InputEmpty → ⊥) →
            14 ≤ vec_capacity dst.old - vec_len dst.old →
            LeavesFewerSteps self.old self.new last
            (chars src.now) (chars (drop result.1 src.now)) }
        ensures progress_if_none_kept { (result.0 ≡ CoderResult.InputEmpty → ⊥) →
            room_kept_for_references self.old.barred self.old.encoding ≡ 0 →
            4 ≤ vec_capacity dst.old - vec_len dst.old →
            LeavesFewerSteps self.old self.new last
            (chars src.now) (chars (drop result.1 src.now)) }
    {
        let len = dst.len();
        let _ = dst.resize(dst.capacity(), 0);
        let (stop, read, written, replaced) = self.encode_from_utf8(src, &mut dst[len..], last);
        dst.truncate(len + written);
        (stop, read, replaced)
    }

    /// Encodes a chunk of text and appends its bytes to a Vec, without replacement.
    ///
    /// The same as [`Encoder::encode_from_utf8_without_replacement`] into a slice as long as the
    /// Vec's spare capacity, which may be 0. Returns why the call stopped, and the number of bytes
    /// read from `src`. Appends within the capacity, which does not shrink: takes no memory. A loop
    /// ends in the same way, by the spare capacity.
    pub fn encode_from_utf8_to_vec_without_replacement(
        &mut self,
        src: &str,
        dst: &mut Vec<u8>,
        last: bool,
    ) -> (EncoderResult, usize)
        ensures call { EncodesChunk encode_utf8 self.old self.new (record {
          src = chars src.now;
          last = last;
          mode = Fatal;
          room = vec_capacity dst.old - vec_len dst.old;
          result = result.0;
          read = result.1;
          wrote = drop (length dst.old.items) dst.new.items;
          replaced = false;
        }) }
        ensures need { EncodesByNeed encode_utf8 self.old self.new (chars src.now) last
            (vec_capacity dst.old - vec_len dst.old) result.0 result.1
            (length (drop (length dst.old.items) dst.new.items)) }
        ensures read { result.1 ≤ length src.now }
        ensures boundary { IsCharBoundary src.now result.1 }
        ensures appended { take (length dst.old.items) dst.new.items ≡ dst.old.items }
        ensures capacity { vec_capacity dst.old ≤ vec_capacity dst.new }
        ensures progress { (result.0 ≡ EncoderResult.InputEmpty → ⊥) →
            4 ≤ vec_capacity dst.old - vec_len dst.old →
            LeavesFewerSteps self.old self.new last
            (chars src.now) (chars (drop result.1 src.now)) }
    {
        let len = dst.len();
        let _ = dst.resize(dst.capacity(), 0);
        let (result, read, written) = self.encode_from_utf8_without_replacement(
            src,
            &mut dst[len..],
            last,
        );
        dst.truncate(len + written);
        (result, read)
    }

    /// Encodes a chunk of text, without replacement: up to an unmappable character.
    ///
    /// That is error mode "fatal" of Encoding Standard 4.1, except that the next call continues
    /// after the character. With `last` nothing follows `src`. Returns why the call stopped, the
    /// number of bytes read from `src`, and the number of bytes written to `dst`.
    ///
    /// - `InputEmpty`: all of `src` is read. With `last` the text is ended, and the encoder is at
    ///   the start of another.
    /// - `OutputFull`: the bytes that come next do not fit. Their character is unread. This happens
    ///   exactly if the bytes of `src` up to an unmappable character are more than `dst` can hold.
    /// - `Unmappable(c)`: the encoding has no bytes for the last character read. It is c; in
    ///   ISO-2022-JP c is U+FFFD for U+000E, U+000F and U+001B. The caller may write a decimal
    ///   reference to c (`&#`, its number and `;`) there: the designated character set has these
    ///   characters.
    ///
    /// Any length of `dst` will do, 0 too; with four bytes each call makes progress: a loop ends by
    /// `progress`, since fewer steps are left (`steps_left`, as for [`Encoder::encode_from_utf8`]).
    /// The bytes of a character are written together; an escape sequence before it may be written
    /// alone. The bytes of `dst` after those written are unchanged.
    ///
    /// ```rust
    /// let mut encoder = KOI8_U.new_encoder();
    /// let mut bytes = [0; 8];
    /// let outcome = encoder.encode_from_utf8_without_replacement("є€", &mut bytes, true);
    /// assert!(rt; outcome == (EncoderResult::Unmappable('€'), 5, 1));
    /// assert!(rt; bytes[0] == 0xA4);
    /// ```
    pub fn encode_from_utf8_without_replacement(
        &mut self,
        src: &str,
        dst: &mut [u8],
        last: bool,
    ) -> (EncoderResult, usize, usize)
        ensures call { EncodesChunk encode_utf8 self.old self.new (record {
          src = chars src.now;
          last = last;
          mode = Fatal;
          room = length dst.old;
          result = result.0;
          read = result.1;
          wrote = take result.2 dst.new;
          replaced = false;
        }) }
        ensures need { EncodesByNeed encode_utf8 self.old self.new (chars src.now) last
            (length dst.old) result.0 result.1 result.2 }
        ensures read { result.1 ≤ length src.now }
        ensures boundary { IsCharBoundary src.now result.1 }
        ensures written { result.2 ≤ length dst.old }
        ensures rest { drop result.2 dst.new ≡ drop result.2 dst.old }
        ensures progress { (result.0 ≡ EncoderResult.InputEmpty → ⊥) → 4 ≤ length dst.old →
            LeavesFewerSteps self.old self.new last
            (chars src.now) (chars (drop result.1 src.now)) }
    {
        let mut chars = Utf8Chars::new(src);
        let outcome = encode_in_mode(&mut self.raw, &mut chars, dst, last, ErrorMode::Fatal);
        (outcome.result, outcome.read, outcome.written)
    }

    /// Encodes a chunk of UTF-16, without replacement.
    ///
    /// The same as [`Encoder::encode_from_utf8_without_replacement`], except that the number read
    /// is in code units. A surrogate without its partner in `src` is U+FFFD: so are both halves of
    /// a pair that is split between two calls. A loop ends in the same way.
    pub fn encode_from_utf16_without_replacement(
        &mut self,
        src: &[u16],
        dst: &mut [u8],
        last: bool,
    ) -> (EncoderResult, usize, usize)
        ensures call { EncodesChunk encode_utf16 self.old self.new (record {
          src = utf16_lossy_chars src.now;
          last = last;
          mode = Fatal;
          room = length dst.old;
          result = result.0;
          read = result.1;
          wrote = take result.2 dst.new;
          replaced = false;
        }) }
        ensures need { EncodesByNeed encode_utf16 self.old self.new (utf16_lossy_chars src.now) last
            (length dst.old) result.0 result.1 result.2 }
        ensures read { result.1 ≤ length src.now }
        ensures written { result.2 ≤ length dst.old }
        ensures rest { drop result.2 dst.new ≡ drop result.2 dst.old }
        ensures progress { (result.0 ≡ EncoderResult.InputEmpty → ⊥) → 4 ≤ length dst.old →
            LeavesFewerSteps self.old self.new last
            (utf16_lossy_chars src.now) (utf16_lossy_chars (drop result.1 src.now)) }
    {
        let mut units = Utf16Chars::new(src);
        let outcome = encode_in_mode(&mut self.raw, &mut units, dst, last, ErrorMode::Fatal);
        (outcome.result, outcome.read, outcome.written)
    }
}
