//! The text for an unmappable character.

ghost use Rattle.std.specs.Prelude.{◌≡◌, ◌+◌, ◌<◌, ◌≤◌, ◌++◌, length, take, drop, true};
ghost use Rattle.std.specs.Fmt.{digit_glyph};
ghost use Rattle.enc_writer.specs.Policies.{hex_reference, policy_bytes};

use enc_encoder::put_reference;

/// The length in bytes of the longest hexadecimal reference: that of U+10FFFF, `&#x10FFFF;`.
const LONGEST_HEX_REFERENCE: usize = 10;

/// The text for an unmappable character, as the error handlers of Python's `encode` do.
///
/// All of it is ASCII: its bytes are the same in each encoding that has unmappable characters, and
/// in both character sets of ISO-2022-JP in which one is reported.
#[derive(Clone, Copy, PartialEq, Eq, Debug)]
pub enum UnmappablePolicy {
    /// A decimal reference (Encoding Standard 4.1, error mode "html"): `&#8364;`, as Python's
    /// `xmlcharrefreplace`.
    Reference,
    /// A hexadecimal reference: `&#x20AC;`, with upper-case digits and without leading zeros. HTML
    /// and XML read it as the decimal one.
    HexReference,
    /// Nothing, as Python's `ignore`.
    Ignore,
    /// A question mark, as Python's `replace`.
    QuestionMark,
}

/// Returns a hexadecimal digit, in ASCII and upper case.
#[inline(always)]
fn hex_digit(value: u32) -> u8
    requires small { value < 16 }
    ensures { result ≡ digit_glyph true value }
{
    if value < 10 {
        b'0' + value as u8
    } else {
        b'A' + (value - 10) as u8
    }
}

/// Writes the hexadecimal reference to a character at the end of `bytes`. Returns its start.
fn write_hex_at_end(c: char, bytes: &mut [u8; 10]) -> usize
    ensures within { result ≤ 10 }
    ensures reference { drop result bytes.new ≡ hex_reference c }
{
    let mut at = 9;
    let mut rest = c as u32;
    bytes[at] = b';';
    while rest >= 16 {
        at -= 1;
        bytes[at] = hex_digit(rest % 16);
        rest /= 16;
    }
    bytes[at - 1] = hex_digit(rest);
    bytes[at - 2] = b'x';
    bytes[at - 3] = b'#';
    bytes[at - 4] = b'&';
    at - 4
}

/// Writes the hexadecimal reference to a character after the bytes written. Returns its length in
/// bytes.
fn put_hex_reference(c: char, dst: &mut [u8], written: usize) -> usize
    requires room { written + 10 ≤ length dst.old }
    ensures len { result ≡ length (hex_reference c) }
    ensures bound { result ≤ 10 }
    ensures onto { dst.new ≡ take written dst.old
        ++ (hex_reference c ++ drop (written + result) dst.old) }
{
    let mut bytes = [0u8; LONGEST_HEX_REFERENCE];
    let from = write_hex_at_end(c, &mut bytes);
    let len = LONGEST_HEX_REFERENCE - from;
    dst[written..written + len].copy_from_slice(&bytes[from..]);
    len
}

/// Writes what a policy puts for a character after the bytes written. Returns its length in bytes.
pub(crate) fn put_for_unmappable(
    policy: UnmappablePolicy,
    c: char,
    dst: &mut [u8],
    written: usize,
) -> usize
    requires room { written + 10 ≤ length dst.old }
    ensures len { result ≡ length (policy_bytes policy c) }
    ensures bound { result ≤ 10 }
    ensures onto { dst.new ≡ take written dst.old
        ++ (policy_bytes policy c ++ drop (written + result) dst.old) }
{
    match policy {
        UnmappablePolicy::Reference => put_reference(c, dst, written),
        UnmappablePolicy::HexReference => put_hex_reference(c, dst, written),
        UnmappablePolicy::Ignore => 0,
        UnmappablePolicy::QuestionMark => {
            dst[written] = b'?';
            1
        }
    }
}
