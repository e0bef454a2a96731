//! The characters of UTF-8, one by one.

ghost use Rattle.std.specs.Prelude.{◌<◌, ◌≤◌, length, take, drop, IfSome, IsTrue};

use crate::pieces::Pieces;
use enc_utf8::char_len;

/// Well-formed sequences of UTF-8 (Unicode Standard 3.9, table 3-7).
#[derive(Clone, Copy)]
pub(crate) struct Utf8Pieces {}

impl Pieces for Utf8Pieces {
    ghost use Rattle.enc_utf8.specs.Pieces.{IsUtf8Char};

    ghost means = { λ _. IsUtf8Char };

    #[inline(always)]
    fn piece(self, src: &[u8], at: usize) -> Option<(char, usize)> {
        let (_, rest) = src.split_at(at);
        let (front, _) = rest.split_at(char_len(rest));
        let character = unsafe { str::from_utf8_unchecked(front) }.chars().next()?;
        Some((character, character.len_utf8()))
    }

    fn has_ascii(self) -> bool {
        true
    }
}
