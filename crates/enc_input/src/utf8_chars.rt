//! The characters of UTF-8.

ghost use Rattle.std.specs.Prelude.{◌≡◌, chars, encode_utf8, length};
ghost use Rattle.enc_utf8.specs.Text.{units_of_text};

use crate::chars::Chars;
use crate::mapping::Mapping;
use crate::ways::Way;

/// The characters of a text in UTF-8.
#[derive(Drop)]
pub struct Utf8Chars<'a> {
    text: &'a str,
}

impl<'a> Utf8Chars<'a> {
    /// Returns the input of all characters of a text.
    pub fn new(text: &'a str) -> Utf8Chars<'a>
        ensures { result.text.now ≡ text.now }
    {
        Utf8Chars { text }
    }
}

/// Returns the number of bytes of a text, which are those of its characters.
fn unit_count(text: &str) -> usize
    ensures { result ≡ length (units_of_text encode_utf8 (chars text.now)) }
{
    text.len()
}

impl<'a> Chars for Utf8Chars<'a> {
    ghost units_of = { encode_utf8 };

    ghost rest = { λ s. chars s.text.now };

    fn unread(&self) -> usize {
        unit_count(self.text)
    }

    #[inline(always)]
    fn peek(&self) -> Option<(char, usize)> {
        let c = self.text.chars().next()?;
        Some((c, c.len_utf8()))
    }

    #[inline(always)]
    #[tactic(auto, using(std::proofs::lemmas::Str::chars_past_char))]
    fn advance(&mut self) {
        let mut rest = self.text.chars();
        if let Some(_) = rest.next() {
            self.text = rest.as_str();
        }
    }

    fn write_mapped<M: Mapping, W: Way<M>>(
        &mut self,
        mapping: M,
        _way: W,
        dst: &mut [u8],
        from: usize,
    ) -> usize {
        let (read, written) = W::write_text(mapping, self.text, dst, from);
        self.text = unsafe { str::from_utf8_unchecked(&self.text.as_bytes()[read..]) };
        written
    }
}
