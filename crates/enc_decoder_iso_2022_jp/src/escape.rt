//! The escape sequences of ISO-2022-JP (Encoding Standard 12.2.1).

ghost use Rattle.std.specs.Prelude.{◌≡◌, ℕ, Option, IfSome, IfNone, [], ◌∷◌};
ghost use Rattle.enc_decoder_iso_2022_jp.specs.Iso2022Jp.{set_of_escape_bytes};
ghost use Rattle.enc_decoder_iso_2022_jp.specs.Iso2022JpState.{intermediate_byte, escape_bytes};
ghost use Rattle.enc_decoder_iso_2022_jp.specs.Iso2022JpState.{escape_set, StandsAlone};

use crate::character_set::CharacterSet;

/// The second byte of an escape sequence.
#[derive(Clone, Copy)]
pub(crate) enum Intermediate {
    /// 28, of the character sets of one byte.
    Parenthesis,
    /// 24, of jis0208.
    Dollar,
}

/// An escape sequence.
#[derive(Clone, Copy)]
pub(crate) enum Escape {
    /// 1B 28 42.
    ToAscii,
    /// 1B 28 4A.
    ToRoman,
    /// 1B 28 49.
    ToKatakana,
    /// 1B 24 40.
    ToJis0208Of1978,
    /// 1B 24 42.
    ToJis0208Of1983,
}

impl Intermediate {
    /// Returns the byte.
    pub(crate) fn byte(self) -> u8
        ensures { result ≡ intermediate_byte self }
    {
        match self {
            Intermediate::Parenthesis => 0x28,
            Intermediate::Dollar => 0x24,
        }
    }

    /// Returns the second byte of an escape sequence, if the byte can be that.
    pub(crate) fn of_byte(byte: u8) -> Option<Intermediate>
        ensures some { IfSome result (λ i. byte ≡ intermediate_byte i) }
        ensures none { IfNone result ((c : ℕ) → set_of_escape_bytes byte c ≡ Option.None) }
    {
        match byte {
            0x28 => Some(Intermediate::Parenthesis),
            0x24 => Some(Intermediate::Dollar),
            _ => None,
        }
    }
}

impl Escape {
    /// Returns the character set that it designates.
    pub(crate) fn set(self) -> CharacterSet
        ensures { result ≡ escape_set self }
    {
        match self {
            Escape::ToAscii => CharacterSet::Ascii,
            Escape::ToRoman => CharacterSet::Roman,
            Escape::ToKatakana => CharacterSet::Katakana,
            Escape::ToJis0208Of1978 => CharacterSet::Jis0208,
            Escape::ToJis0208Of1983 => CharacterSet::Jis0208,
        }
    }

    /// Returns the escape sequence with these last two bytes, if there is one.
    pub(crate) fn of_bytes(intermediate: Intermediate, byte: u8) -> Option<Escape>
        ensures some { IfSome result (λ e. escape_bytes e
            ≡ 0x1B ∷ intermediate_byte intermediate ∷ byte ∷ []) }
        ensures none { IfNone result (set_of_escape_bytes (intermediate_byte intermediate) byte
            ≡ Option.None) }
    {
        match intermediate {
            Intermediate::Parenthesis => Escape::of_parenthesis(byte),
            Intermediate::Dollar => Escape::of_dollar(byte),
        }
    }

    /// Returns the escape sequence of 1B 28 and a byte.
    pub(crate) fn of_parenthesis(byte: u8) -> Option<Escape>
        ensures some { IfSome result (λ e. escape_bytes e ≡ 0x1B ∷ 0x28 ∷ byte ∷ []) }
        ensures none { IfNone result (set_of_escape_bytes 0x28 byte ≡ Option.None) }
    {
        match byte {
            0x42 => Some(Escape::ToAscii),
            0x4A => Some(Escape::ToRoman),
            0x49 => Some(Escape::ToKatakana),
            _ => None,
        }
    }

    /// Returns the escape sequence of 1B 24 and a byte.
    pub(crate) fn of_dollar(byte: u8) -> Option<Escape>
        ensures some { IfSome result (λ e. escape_bytes e ≡ 0x1B ∷ 0x24 ∷ byte ∷ []) }
        ensures none { IfNone result (set_of_escape_bytes 0x24 byte ≡ Option.None) }
    {
        match byte {
            0x40 => Some(Escape::ToJis0208Of1978),
            0x42 => Some(Escape::ToJis0208Of1983),
            _ => None,
        }
    }
}

/// Returns the escape sequence at the front, if the byte after it begins no other.
pub(crate) fn escape_in_front(src: &[u8]) -> Option<Escape>
    ensures { IfSome result (λ e. StandsAlone src.now e) }
{
    if src.len() < 4 || src[0] != 0x1B || src[3] == 0x1B {
        return None;
    }
    let intermediate = Intermediate::of_byte(src[1])?;
    Escape::of_bytes(intermediate, src[2])
}

/// Returns the escape sequence that these bytes are.
pub(crate) fn whole_escape(src: &[u8]) -> Option<Escape>
    ensures { IfSome result (λ e. src.now ≡ escape_bytes e) }
{
    if src.len() != 3 || src[0] != 0x1B {
        return None;
    }
    let intermediate = Intermediate::of_byte(src[1])?;
    Escape::of_bytes(intermediate, src[2])
}
