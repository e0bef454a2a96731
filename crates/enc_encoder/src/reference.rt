//! Decimal character references.

ghost use Rattle.std.specs.Prelude.{◌≡◌, ◌+◌, ◌%◌, ◌<◌, ◌≤◌, ◌++◌, length, take, drop};
ghost use Rattle.enc_encoder.specs.Text.{reference as reference_to};

/// The length in bytes of the longest reference: that of U+10FFFF, `&#1114111;`.
pub const LONGEST_REFERENCE: usize = 10;

/// Writes the reference to a character at the end of `bytes`. Returns its start.
fn write_at_end(c: char, bytes: &mut [u8; 10]) -> usize
    ensures within { result ≤ 10 }
    ensures reference { drop result bytes.new ≡ reference_to c }
{
    let mut at = 9;
    let mut rest = c as u32;
    bytes[at] = b';';
    while rest >= 10 {
        at -= 1;
        bytes[at] = b'0' + (rest % 10) as u8;
        rest /= 10;
    }
    bytes[at - 1] = b'0' + rest as u8;
    bytes[at - 2] = b'#';
    bytes[at - 3] = b'&';
    at - 3
}

/// Returns the last digit of a number, in ASCII.
#[inline(always)]
fn last_digit(number: u32) -> u8
    ensures { result ≡ 48 + number % 10 }
{
    b'0' + (number % 10) as u8
}

/// Returns the reference to a character whose number has four digits.
#[inline(always)]
fn with_four_digits(number: u32) -> [u8; 7]
    requires least { 1000 ≤ number }
    requires most { number < 10000 }
    ensures { result ≡ reference_to number }
{
    [
        b'&',
        b'#',
        last_digit(number / 1000),
        last_digit(number / 100),
        last_digit(number / 10),
        last_digit(number),
        b';',
    ]
}

/// Returns the reference to a character whose number has five digits.
#[inline(always)]
fn with_five_digits(number: u32) -> [u8; 8]
    requires least { 10000 ≤ number }
    requires most { number < 100000 }
    ensures { result ≡ reference_to number }
{
    [
        b'&',
        b'#',
        last_digit(number / 10000),
        last_digit(number / 1000),
        last_digit(number / 100),
        last_digit(number / 10),
        last_digit(number),
        b';',
    ]
}

/// Writes the reference to a character after the bytes written.
///
/// Returns its length in bytes. The number of nearly every character has four or five digits: their
/// references are stored as a whole.
pub fn put_reference(c: char, dst: &mut [u8], written: usize) -> usize
    requires room { written + 10 ≤ length dst.old }
    ensures len { result ≡ length (reference_to c) }
    ensures bound { result ≤ 10 }
    ensures onto { dst.new ≡ take written dst.old
        ++ (reference_to c ++ drop (written + result) dst.old) }
{
    let number = c as u32;
    if 10000 <= number && number < 100000 {
        dst[written..written + 8].copy_from_slice(&with_five_digits(number));
        return 8;
    }
    if 1000 <= number && number < 10000 {
        dst[written..written + 7].copy_from_slice(&with_four_digits(number));
        return 7;
    }
    let mut bytes = [0u8; LONGEST_REFERENCE];
    let from = write_at_end(c, &mut bytes);
    let len = LONGEST_REFERENCE - from;
    dst[written..written + len].copy_from_slice(&bytes[from..]);
    len
}
