//! Lengths to allocate for an encoder's output.

ghost use Rattle.std.specs.Prelude.{◌≡◌, IfSome};
ghost use Rattle.std.specs.Char.{encode_utf8};
ghost use Rattle.std.specs.Char.Escape.{encode_utf16};
ghost use Rattle.enc_utf8.specs.Checked.{checked_add};
ghost use Rattle.enc_encoder.specs.Lengths.{from_utf_8_length, from_utf_16_length};
ghost use Rattle.enc_stream.specs.Encoder.{room_kept_for_references};
ghost use Rattle.enc_stream.specs.Lengths.{output_lengths};
ghost use Rattle.enc_stream.specs.Need.{IsEnoughForEncoding, IsEnoughIfMappable};

use crate::encoder::Encoder;

impl Encoder {
    /// Returns the length in bytes to allocate for UTF-8 input, without replacement.
    ///
    /// With that, [`Encoder::encode_from_utf8_without_replacement`] never returns `OutputFull` for
    /// `byte_length` more bytes. `None` if a step of the formula overflows `usize`.
    pub fn max_buffer_length_from_utf8_without_replacement(
        &self,
        byte_length: usize,
    ) -> Option<usize>
        ensures formula { result
            ≡ from_utf_8_length (output_lengths self.now.encoding) byte_length }
        ensures enough { IfSome result (IsEnoughForEncoding encode_utf8 self.now byte_length) }
    {
        self.byte_lengths().from_utf8(byte_length)
    }

    /// Returns the length in bytes to allocate for UTF-16 input, without replacement.
    ///
    /// With that, [`Encoder::encode_from_utf16_without_replacement`] never returns `OutputFull` for
    /// `u16_length` more code units. `None` if a step of the formula overflows `usize`.
    pub fn max_buffer_length_from_utf16_without_replacement(
        &self,
        u16_length: usize,
    ) -> Option<usize>
        ensures formula { result
            ≡ from_utf_16_length (output_lengths self.now.encoding) u16_length }
        ensures enough { IfSome result (IsEnoughForEncoding encode_utf16 self.now u16_length) }
    {
        self.byte_lengths().from_utf16(u16_length)
    }

    /// Returns the length in bytes to allocate for UTF-8 input, with replacement.
    ///
    /// If no character of `byte_length` more bytes is unmappable, one call of
    /// [`Encoder::encode_from_utf8`] reads all then. The length includes the 10 bytes that are kept
    /// free for references, unless the encoding is UTF-8 and no character is barred. `None` if a
    /// step of the formula overflows `usize`.
    ///
    /// ```rust
    /// // A byte for each of ten ASCII bytes, and the ten that are kept free for a reference.
    /// let encoder = WINDOWS_1252.new_encoder();
    /// assert!(rt; encoder.max_buffer_length_from_utf8_if_no_unmappables(10) == Some(20));
    /// ```
    pub fn max_buffer_length_from_utf8_if_no_unmappables(&self, byte_length: usize) -> Option<usize>
        ensures formula { result ≡ checked_add
            (from_utf_8_length (output_lengths self.now.encoding) byte_length)
            (room_kept_for_references self.now.barred self.now.encoding) }
        ensures enough { IfSome result (IsEnoughIfMappable encode_utf8 self.now byte_length) }
    {
        self.max_buffer_length_from_utf8_without_replacement(byte_length)?
            .checked_add(self.kept())
    }

    /// Returns the length in bytes to allocate for UTF-16 input, with replacement.
    ///
    /// If no character of `u16_length` more code units is unmappable, one call of
    /// [`Encoder::encode_from_utf16`] reads all then. The same as
    /// [`Encoder::max_buffer_length_from_utf8_if_no_unmappables`] otherwise.
    pub fn max_buffer_length_from_utf16_if_no_unmappables(&self, u16_length: usize) -> Option<usize>
        ensures formula { result ≡ checked_add
            (from_utf_16_length (output_lengths self.now.encoding) u16_length)
            (room_kept_for_references self.now.barred self.now.encoding) }
        ensures enough { IfSome result (IsEnoughIfMappable encode_utf16 self.now u16_length) }
    {
        self.max_buffer_length_from_utf16_without_replacement(u16_length)?
            .checked_add(self.kept())
    }
}
