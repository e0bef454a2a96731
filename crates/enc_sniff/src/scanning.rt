//! Runs of bytes, and words, at the front of some bytes.

ghost use Rattle.std.specs.Prelude.{◌≡◌, ◌≤◌, ◌<◌, length, drop, slice_index};
ghost use Rattle.std.specs.Prelude.{option_map, option_copied, IfSome};
ghost use Rattle.std.specs.List.{prefix_len, take_while};
ghost use Rattle.enc_sniff.specs.Positions.{past as past_list, up_to, past_word};
ghost use Rattle.enc_sniff.specs.Positions.{is_same_word, begins_in_either_case};
ghost use Rattle.enc_sniff.specs.Runs.{is_in};
ghost use Rattle.enc_sniff.specs.Views.{both_now};

/// The bytes that end a token of a header, beside spaces and control characters (RFC 2045 5.1).
const TSPECIALS: &[u8] = b"()<>@,;:\\\"/[]?=";

/// Bytes that stand side by side.
#[derive(Clone, Copy)]
pub(crate) enum Run {
    /// ASCII whitespace.
    Spaces,
    /// ASCII whitespace and `/`.
    Separators,
    /// Control characters and spaces.
    Controls,
    /// Up to the end of an attribute's name.
    AttributeName,
    /// Up to a byte.
    UpTo(u8),
    /// Up to ASCII whitespace or a byte.
    Word(u8),
    /// Spaces and tabs.
    Wsp,
    /// A token of RFC 2045.
    Token,
}

impl Run {
    /// Returns whether a byte belongs to the run.
    pub(crate) fn has(self, byte: u8) -> bool
        ensures { result ≡ is_in self byte }
    {
        let is_space = byte.is_ascii_whitespace();
        match self {
            Run::Spaces => is_space,
            Run::Separators => is_space || byte == b'/',
            Run::Controls => byte <= b' ',
            Run::AttributeName => !(is_space || byte == b'/' || byte == b'>' || byte == b'='),
            Run::UpTo(end) => byte != end,
            Run::Word(end) => !(is_space || byte == end),
            Run::Wsp => byte == b' ' || byte == b'\t',
            Run::Token => byte.is_ascii_graphic() && !TSPECIALS.contains(&byte),
        }
    }

    /// Returns the number of bytes at the front that belong to the run.
    fn len_in(self, bytes: &[u8]) -> usize
        ensures count { result ≡ prefix_len (is_in self) bytes.now }
        ensures within { result ≤ length bytes.now }
    {
        for (offset, byte) in bytes.iter().enumerate() {
            if !self.has(*byte) {
                return offset;
            }
        }
        bytes.len()
    }
}

/// Returns the bytes of a run at the front, and those after them.
pub(crate) fn split_run<'a>(bytes: &'a [u8], run: Run) -> (&'a [u8], &'a [u8])
    ensures front { result.0.now ≡ take_while (is_in run) bytes.now }
    ensures rest { result.1.now ≡ past_list (is_in run) bytes.now }
    ensures shorter { length result.1.now ≤ length bytes.now }
{
    let len = run.len_in(bytes);
    (&bytes[..len], &bytes[len..])
}

/// Returns the bytes after those of a run at the front.
pub(crate) fn past<'a>(bytes: &'a [u8], run: Run) -> &'a [u8]
    ensures value { result.now ≡ past_list (is_in run) bytes.now }
    ensures shorter { length result.now ≤ length bytes.now }
{
    &bytes[run.len_in(bytes)..]
}

/// Returns the bytes after the first.
pub(crate) fn past_byte(bytes: &[u8]) -> &[u8]
    ensures { result.now ≡ drop 1 bytes.now }
{
    bytes.get(1..).unwrap_or(&[])
}

/// Returns the bytes before the first `end`, and those after it, if there is one.
pub(crate) fn split_at_byte<'a>(bytes: &'a [u8], end: u8) -> Option<(&'a [u8], &'a [u8])>
    ensures value { option_map both_now result ≡ up_to end bytes.now }
    ensures shorter { IfSome result (λ found. length found.1.now < length bytes.now) }
{
    let (text, after) = split_run(bytes, Run::UpTo(end));
    let (_, rest) = after.split_first()?;
    Some((text, rest))
}

/// Returns whether two words are the same but for the case of ASCII letters.
pub(crate) fn is_word(bytes: &[u8], word: &[u8]) -> bool
    ensures { result ≡ is_same_word bytes.now word.now }
{
    bytes.eq_ignore_ascii_case(word)
}

/// Returns whether some bytes begin with a word, in either case.
pub(crate) fn begins(bytes: &[u8], word: &[u8]) -> bool
    ensures { result ≡ begins_in_either_case bytes.now word.now }
{
    is_word(&bytes[..word.len().min(bytes.len())], word)
}

/// Returns the bytes after the first occurrence of a word, if it occurs.
pub(crate) fn past_first<'a>(bytes: &'a [u8], word: &[u8]) -> Option<&'a [u8]>
    requires some { 0 < length word.now }
    ensures value { option_copied result ≡ past_word word.now bytes.now }
    ensures shorter { IfSome result (λ rest. length rest.now < length bytes.now) }
{
    let mut rest = bytes;
    'places: while !rest.is_empty() {
        if rest.starts_with(word) {
            return Some(&rest[word.len()..]);
        }
        rest = &rest[1..];
    }
    None
}

/// Returns the byte at an offset, or 0 after the end.
pub(crate) fn byte_at(bytes: &[u8], offset: usize) -> u8
    ensures { result ≡ slice_index bytes.now offset }
{
    bytes.get(offset).copied().unwrap_or(0)
}
