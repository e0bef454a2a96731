//! The character sets of ISO-2022-JP (Encoding Standard 12.2.1).

ghost use Rattle.std.specs.Prelude.{◌≡◌, ◌+◌, ◌-◌, ◌≤◌};
ghost use Rattle.enc_decoder_iso_2022_jp.specs.Iso2022Jp.{ascii_char as char_in_ascii};
ghost use Rattle.enc_decoder_iso_2022_jp.specs.Iso2022Jp.{roman_char as char_in_roman};
ghost use Rattle.enc_decoder_iso_2022_jp.specs.Iso2022Jp.{katakana_char as char_in_katakana};
ghost use Rattle.enc_decoder_iso_2022_jp.specs.Iso2022Jp.{one_byte_char as char_alone};
ghost use Rattle.enc_decoder_iso_2022_jp.specs.Iso2022Jp.{is_jis0208_byte as in_jis0208};
ghost use Rattle.enc_decoder_iso_2022_jp.specs.Iso2022Jp.{is_lead_byte as begins_pair};

/// A character set that an escape sequence designates.
#[derive(Clone, Copy)]
pub(crate) enum CharacterSet {
    Ascii,
    Roman,
    Katakana,
    Jis0208,
}

/// Returns whether a character of jis0208 can have this byte.
pub(crate) fn is_jis0208_byte(byte: u8) -> bool
    ensures { result ≡ in_jis0208 byte }
{
    byte >= 0x21 && byte <= 0x7E
}

/// Returns whether a byte begins a character of two bytes.
#[tactic(auto, unfolding(crate::specs::Iso2022Jp::is_lead_byte))]
pub(crate) fn is_lead_byte(set: CharacterSet, byte: u8) -> bool
    ensures { result ≡ begins_pair set byte }
{
    match set {
        CharacterSet::Ascii => false,
        CharacterSet::Roman => false,
        CharacterSet::Katakana => false,
        CharacterSet::Jis0208 => is_jis0208_byte(byte),
    }
}

/// Returns the character that a byte is by itself.
#[tactic(auto, unfolding(crate::specs::Iso2022Jp::one_byte_char))]
pub(crate) fn one_byte_char(set: CharacterSet, byte: u8) -> Option<char>
    ensures { result ≡ char_alone set byte }
{
    match set {
        CharacterSet::Ascii => ascii_char(byte),
        CharacterSet::Roman => roman_char(byte),
        CharacterSet::Katakana => katakana_char(byte),
        CharacterSet::Jis0208 => None,
    }
}

/// Returns the character of a byte in ASCII.
fn ascii_char(byte: u8) -> Option<char>
    ensures { result ≡ char_in_ascii byte }
{
    match byte {
        0x0E | 0x0F | 0x1B => None,
        0x00..=0x7F => Some(byte as char),
        _ => None,
    }
}

/// Returns the character of a byte in Roman.
fn roman_char(byte: u8) -> Option<char>
    ensures { result ≡ char_in_roman byte }
{
    match byte {
        0x5C => Some('\u{A5}'),
        0x7E => Some('\u{203E}'),
        _ => ascii_char(byte),
    }
}

/// Returns the character of a byte in katakana.
fn katakana_char(byte: u8) -> Option<char>
    ensures { result ≡ char_in_katakana byte }
{
    match byte {
        0x21..=0x5F => Some(halfwidth_katakana(byte)),
        _ => None,
    }
}

/// Returns the half-width katakana of a byte that has one.
fn halfwidth_katakana(byte: u8) -> char
    requires from { 0x21 ≤ byte }
    requires to { byte ≤ 0x5F }
    ensures { result ≡ 0xFF61 + (byte - 0x21) }
{
    char::from_u32(0xFF61 + (byte as u32 - 0x21)).unwrap()
}
