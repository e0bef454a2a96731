//! The text in place of malformed sequences.

ghost use Rattle.std.specs.Prelude.{◌≡◌, ◌+◌, ◌<◌, ◌≤◌, ◌++◌, length, take, drop};
ghost use Rattle.std.specs.Char.{encode_utf8};
ghost use Rattle.std.specs.Str.{IsAscii};
ghost use Rattle.enc_utf8.specs.Text.{units_of_text};
ghost use Rattle.enc_reader.specs.Policies.{hex_digit as digit_of, escaped_byte, escaped};
ghost use Rattle.enc_reader.specs.Policies.{text_of_malformed};

/// The greatest length of an escaped malformed sequence in bytes.
pub(crate) const MOST_ESCAPED: usize = 16;

/// The way in which a [`LineReader`](crate::LineReader) treats a malformed sequence, as the error
/// handlers of Python's `decode` do. Its place is known in each case.
#[derive(Clone, Copy, PartialEq, Eq, Debug)]
pub enum MalformedPolicy {
    /// U+FFFD stands for it, as with `replace`.
    Replace,
    /// Nothing stands for it, as with `ignore`.
    Ignore,
    /// Each of its bytes is written as `\xNN`, in lower case, as with `backslashreplace`.
    Escape,
    /// The line stops before it, with an error, as with `strict`. The next read goes on after it.
    Report,
}

/// Returns the hexadecimal digit of a number below 16, in lower case.
fn hex_digit(number: u8) -> u8
    requires within { number < 16 }
    ensures digit { result ≡ digit_of number }
    ensures ascii { result < 128 }
{
    if number < 10 {
        b'0' + number
    } else {
        b'a' - 10 + number
    }
}

/// Writes a byte as `\xNN` to a place in `room`.
fn put_escaped(byte: u8, room: &mut [u8; 16], at: usize)
    requires room { at + 4 ≤ 16 }
    ensures onto { room.new ≡ take at room.old ++ (escaped_byte byte ++ drop (at + 4) room.old) }
    ensures ascii { IsAscii (escaped_byte byte) }
{
    let bytes = [b'\\', b'x', hex_digit(byte / 16), hex_digit(byte % 16)];
    room[at..at + 4].copy_from_slice(&bytes);
}

/// Writes at most four bytes to `room`, each as `\xNN`, and returns their text.
fn escape<'r>(bytes: &[u8], room: &'r mut [u8; 16]) -> &'r str
    requires few { length bytes.now ≤ 4 }
    ensures text { result.now ≡ escaped bytes.now }
    ensures ascii { IsAscii result.now }
{
    let mut at = 0;
    while at < bytes.len() {
        put_escaped(bytes[at], room, 4 * at);
        at += 1;
    }
    unsafe { str::from_utf8_unchecked(&room[..4 * at]) }
}

/// Returns the text in place of a malformed sequence of at most four bytes, which may be written to
/// `room`.
pub(crate) fn replacement<'r>(
    policy: MalformedPolicy,
    bytes: &[u8],
    room: &'r mut [u8; 16],
) -> &'r str
    requires few { length bytes.now ≤ 4 }
    ensures { result.now ≡ units_of_text encode_utf8 (text_of_malformed policy bytes.now) }
{
    match policy {
        MalformedPolicy::Replace => "\u{FFFD}",
        MalformedPolicy::Ignore | MalformedPolicy::Report => "",
        MalformedPolicy::Escape => escape(bytes, room),
    }
}
