//! Characters that the three Japanese encodings treat alike.

ghost use Rattle.std.specs.Prelude.{◌≡◌, true};
ghost use Rattle.enc_encode.specs.Japanese.{is_halfwidth_katakana as wanted_katakana};
ghost use Rattle.enc_encode.specs.Japanese.{katakana_byte as wanted_byte};
ghost use Rattle.enc_encode.specs.Japanese.{with_fullwidth_minus as wanted_minus};

/// Returns whether a character is half-width katakana.
#[inline(always)]
pub fn is_halfwidth_katakana(c: char) -> bool
    ensures { result ≡ wanted_katakana c }
{
    let c = c as u32;
    0xFF61 <= c && c <= 0xFF9F
}

/// Returns the byte of half-width katakana (JIS X 0201).
#[inline(always)]
pub fn katakana_byte(c: char) -> u8
    requires katakana { wanted_katakana c ≡ true }
    ensures { result ≡ wanted_byte c }
{
    (c as u32 - 0xFF61 + 0xA1) as u8
}

/// Returns a character, with the full-width minus sign for the minus sign.
#[inline(always)]
pub fn with_fullwidth_minus(c: char) -> char
    ensures { result ≡ wanted_minus c }
{
    if c == '\u{2212}' { '\u{FF0D}' } else { c }
}
