//! Names and properties of the encodings (Encoding Standard 4.2 and 4.3).

ghost use Rattle.std.specs.Prelude.{◌≡◌, ◌↔◌, IsTrue};
ghost use Rattle.enc_encoder.specs.Barring.{are_beyond_ascii};
ghost use Rattle.enc_stream.specs.Division.{LineFeedsDivide};
ghost use Rattle.enc_stream.specs.Names.{name_of};
ghost use Rattle.enc_stream.specs.Properties.{output_encoding_of};
ghost use Rattle.enc_stream.specs.Properties.{is_ascii_compatible, is_single_byte};

use crate::constants::UTF_8;
use crate::encoding::Encoding;

impl Encoding {
    /// Returns its name (Encoding Standard 4.2), which is one of its labels.
    ///
    /// ```rust
    /// assert!(rt; SHIFT_JIS.name() == "Shift_JIS");
    /// assert!(rt; Encoding::for_label(SHIFT_JIS.name().as_bytes()) == Some(SHIFT_JIS));
    /// ```
    pub fn name(self) -> &'static str
        ensures { result.now ≡ name_of self }
    {
        self.id.name()
    }

    /// Returns its output encoding (Encoding Standard 4.3, "get an output encoding").
    ///
    /// That is UTF-8 for replacement, UTF-16BE and UTF-16LE, and the encoding itself otherwise.
    ///
    /// ```rust
    /// assert!(rt; UTF_16LE.output_encoding() == UTF_8);
    /// assert!(rt; BIG5.output_encoding() == BIG5);
    /// ```
    pub fn output_encoding(self) -> Encoding
        ensures { result ≡ output_encoding_of self }
    {
        Encoding {
            id: self.id.output(),
        }
    }

    /// Returns whether [`Encoding::new_encoder_barring`] accepts a list.
    ///
    /// It does if each character is U+0080 or above, so that references can be written.
    pub fn barred_ok(barred: &[char]) -> bool
        ensures { result ≡ are_beyond_ascii barred.now }
    {
        for i in 0..barred.len() {
            if (barred[i] as u32) < 0x80 {
                return false;
            }
        }
        true
    }

    /// Returns whether its output encoding is UTF-8, which has every character.
    pub fn can_encode_everything(self) -> bool
        ensures { IsTrue result ↔ (output_encoding_of self ≡ UTF_8) }
    {
        self.output_encoding() == UTF_8
    }

    /// Returns whether bytes below 0x80 are the ASCII characters with their numbers.
    ///
    /// Then these characters are also written so, by `laws::ascii_compatible_encode_ascii`. False
    /// for replacement, UTF-16BE, UTF-16LE and ISO-2022-JP, and true otherwise.
    pub fn is_ascii_compatible(self) -> bool
        ensures { result ≡ is_ascii_compatible self }
    {
        self.id.is_ascii_compatible()
    }

    /// Returns whether any input can be decoded in parts that end after line feeds.
    ///
    /// If so, and no byte order mark is looked for, the sequences of an input are those of its
    /// parts, as `laws::line_feeds_divide` has it. True exactly for the ASCII-compatible
    /// encodings: a byte 0A can be half of a code unit of UTF-16, the set that an escape sequence
    /// of ISO-2022-JP designates outlasts a line, and replacement reports the first byte alone.
    ///
    /// ```rust
    /// assert!(rt; UTF_8.line_feeds_divide() && GB18030.line_feeds_divide());
    /// assert!(rt; !UTF_16LE.line_feeds_divide() && !ISO_2022_JP.line_feeds_divide());
    /// ```
    pub fn line_feeds_divide(self) -> bool
        ensures exact { IsTrue result ↔ LineFeedsDivide self }
        ensures same { result ≡ is_ascii_compatible self }
    {
        self.is_ascii_compatible()
    }

    /// Returns whether each of its bytes is a character by itself.
    ///
    /// True for the 28 legacy single-byte encodings (Encoding Standard 9) and x-user-defined, and
    /// false otherwise.
    pub fn is_single_byte(self) -> bool
        ensures { result ≡ is_single_byte self }
    {
        self.id.is_single_byte()
    }
}
