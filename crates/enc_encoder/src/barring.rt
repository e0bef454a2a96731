//! Encodings with barred characters.

ghost use Rattle.std.specs.Prelude.{◌≡◌, ℕ, List};
ghost use Rattle.enc_encoder.specs.Barring.{contains_char, is_barred as wanted_barred};

use crate::byte_lengths::ByteLengths;
use crate::stateless::Repertoire;
use enc_input::Bytes;

/// An encoding with barred characters, which have no bytes.
///
/// All others have the bytes of the encoding in it.
#[derive(Clone, Copy)]
pub struct Barring<R> {
    pub(crate) repertoire: R,
    pub(crate) barred: &'static [char],
}

/// The characters that a caller bars from an encoding. ASCII is never barred.
pub trait BarredChars: Copy {
    // the characters
    ghost chars: { Self → List ℕ };

    /// Whether a character is barred.
    fn bars(self, c: char) -> bool
        ensures { result ≡ wanted_barred (chars self) c };
}

/// No characters.
#[derive(Clone, Copy)]
pub struct NoChars;

/// The characters of a list.
#[derive(Clone, Copy)]
pub struct CharList {
    pub chars: &'static [char],
}

/// Returns whether a list contains a character.
fn is_in(barred: &[char], c: char) -> bool
    ensures { result ≡ contains_char barred.now c }
{
    for i in 0..barred.len() {
        if barred[i] == c {
            return true;
        }
    }
    false
}

/// Returns whether a list bars a character: it contains the character, which is U+0080 or above.
#[inline(always)]
fn is_barred(barred: &[char], c: char) -> bool
    ensures { result ≡ wanted_barred barred.now c }
{
    if barred.is_empty() {
        return false;
    }
    is_in(barred, c) && c as u32 >= 0x80
}

impl BarredChars for NoChars {
    ghost use Rattle.std.specs.Prelude.{[]};

    ghost chars = { λ _. [] };

    #[inline(always)]
    fn bars(self, _c: char) -> bool {
        false
    }
}

impl BarredChars for CharList {
    ghost chars = { λ b. b.chars.now };

    fn bars(self, c: char) -> bool {
        is_barred(self.chars, c)
    }
}

impl<R: Repertoire> Barring<R> {
    /// Returns an encoding without the characters of a list.
    ///
    /// ASCII is never barred.
    pub fn new(repertoire: R, barred: &'static [char]) -> Barring<R>
        ensures repertoire { result.repertoire ≡ repertoire }
        ensures barred { result.barred.now ≡ barred.now }
    {
        Barring { repertoire, barred }
    }
}

impl<R: Repertoire> Repertoire for Barring<R> {
    ghost use Rattle.enc_encoder.specs.Barring.{bytes_unless_barred};

    ghost bytes_for = { λ r. bytes_unless_barred r.barred.now (R.bytes_for r.repertoire) };

    ghost lengths = { λ r. R.lengths r.repertoire };

    #[inline(always)]
    fn bytes_beyond_ascii(self, c: char) -> Option<Bytes> {
        if is_barred(self.barred, c) {
            return None;
        }
        self.repertoire.bytes_beyond_ascii(c)
    }

    fn byte_lengths(self) -> ByteLengths {
        self.repertoire.byte_lengths()
    }
}
