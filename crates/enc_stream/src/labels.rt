//! The encoding that a label names (Encoding Standard 4.2).

ghost use Rattle.std.specs.Prelude.{◌≡◌};
ghost use Rattle.enc_stream.specs.Labels.{encoding_of_label, encoding_of_label_no_replacement};

use crate::constants::REPLACEMENT;
use crate::encoding::Encoding;
use enc_names::EncodingId;

impl Encoding {
    /// Returns the encoding that a label names (Encoding Standard 4.2, "get an encoding").
    ///
    /// `None` if it names none. ASCII whitespace around the label does not matter (tab, line feed,
    /// form feed, carriage return and space), nor does case.
    ///
    /// ```rust
    /// assert!(rt; Encoding::for_label(b"latin1") == Some(WINDOWS_1252));
    /// assert!(rt; Encoding::for_label(b" UTF8\r\n") == Some(UTF_8));
    /// assert!(rt; Encoding::for_label(b"utf-7") == None);
    /// ```
    pub fn for_label(label: &[u8]) -> Option<Encoding>
        ensures { result ≡ encoding_of_label label.now }
    {
        let id = EncodingId::for_label(label)?;
        Some(Encoding { id })
    }

    /// Returns the encoding that a label names, or `None` if it names replacement or none.
    ///
    /// The same as [`Encoding::for_label`] otherwise.
    ///
    /// ```rust
    /// assert!(rt; Encoding::for_label(b"hz-gb-2312") == Some(REPLACEMENT));
    /// assert!(rt; Encoding::for_label_no_replacement(b"hz-gb-2312") == None);
    /// assert!(rt; Encoding::for_label_no_replacement(b"gb2312") == Some(GBK));
    /// ```
    pub fn for_label_no_replacement(label: &[u8]) -> Option<Encoding>
        ensures { result ≡ encoding_of_label_no_replacement label.now }
    {
        let encoding = Encoding::for_label(label)?;
        if encoding == REPLACEMENT {
            None
        } else {
            Some(encoding)
        }
    }
}
