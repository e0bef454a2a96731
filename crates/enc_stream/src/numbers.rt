//! The numbers of the encodings, for callers in other languages.

ghost use Rattle.std.specs.Prelude.{◌≡◌, ◌<◌, Some};
ghost use Rattle.enc_stream.specs.Numbers.{encoding_of_number};

use crate::encoding::Encoding;
use enc_names::EncodingId;

impl Encoding {
    /// Returns its number, from 0 to 39.
    ///
    /// That is its place in the standard's table of names and labels (Encoding Standard 4.2).
    ///
    /// ```rust
    /// assert!(rt; UTF_8.number() == 0 && X_USER_DEFINED.number() == 39);
    /// ```
    pub fn number(self) -> u32
        ensures number { encoding_of_number result ≡ Some self }
        ensures below { result < 40 }
    {
        self.id.number()
    }

    /// Returns the encoding with a number, or `None` if there is none.
    ///
    /// ```rust
    /// assert!(rt; Encoding::from_number(SHIFT_JIS.number()) == Some(SHIFT_JIS));
    /// assert!(rt; Encoding::from_number(40) == None);
    /// ```
    pub fn from_number(number: u32) -> Option<Encoding>
        ensures { result ≡ encoding_of_number number }
    {
        let id = EncodingId::from_number(number)?;
        Some(Encoding { id })
    }
}
