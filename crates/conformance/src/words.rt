//! The words of a row, and what they stand for.

use std::alloc::{AllocError, AllocFailed, Global};

/// Why a row can't be read.
#[derive(Clone, Copy, Debug, PartialEq, Eq, Drop)]
pub enum Unreadable {
    Missing,
    TooMany,
    OpenQuote,
    NoSpace,
    Quoted,
    Unquoted,
    Unknown(&'static str),
    Digit,
    Number,
    Backslash,
    NoCharacter,
    NoText,
    NoHead,
    Memory,
}

impl Unreadable {
    /// The reason in words.
    pub(crate) fn text(self) -> &'static str {
        match self {
            Unreadable::Missing => "a word is missing",
            Unreadable::TooMany => "there is a word too many",
            Unreadable::OpenQuote => "a quote is not closed",
            Unreadable::NoSpace => "no space stands after a quote",
            Unreadable::Quoted => "a word is in quotes",
            Unreadable::Unquoted => "bytes or a text are not in quotes",
            Unreadable::Unknown(what) => what,
            Unreadable::Digit => "no hexadecimal digit",
            Unreadable::Number => "no number",
            Unreadable::Backslash => "a backslash without a number",
            Unreadable::NoCharacter => "no character has this number",
            Unreadable::NoText => "a text is not UTF-8",
            Unreadable::NoHead => "no head stands before this row",
            Unreadable::Memory => "out of memory",
        }
    }
}

impl From<AllocError> for Unreadable {
    fn from(_error: AllocError) -> Unreadable {
        Unreadable::Memory
    }
}

impl<T: Drop> From<AllocFailed<T>> for Unreadable {
    fn from(_failed: AllocFailed<T>) -> Unreadable {
        Unreadable::Memory
    }
}

/// The words of a row that are still to be read.
#[derive(Clone, Copy, Drop)]
pub struct Words<'a> {
    rest: &'a str,
}

/// A word, and whether it stands in quotes.
type Word<'a> = (&'a str, bool);

/// The first word of a text that begins with no space, and what follows it.
fn first_word(text: &str) -> Result<(Word<'_>, &str), Unreadable> {
    let Some(quoted) = text.strip_prefix('"') else {
        let (word, rest) = text.split_once(' ').unwrap_or((text, ""));
        if word.contains('"') {
            return Err(Unreadable::NoSpace);
        }
        return Ok(((word, false), rest));
    };
    let Some((word, rest)) = quoted.split_once('"') else {
        return Err(Unreadable::OpenQuote);
    };
    if !rest.is_empty() && !rest.starts_with(' ') {
        return Err(Unreadable::NoSpace);
    }
    Ok(((word, true), rest))
}

impl<'a> Words<'a> {
    /// The words of a line.
    pub(crate) fn new(line: &'a str) -> Words<'a> {
        Words {
            rest: line.trim_ascii(),
        }
    }

    /// The number of bytes that are still to be read: no fewer than words.
    pub(crate) fn len(&self) -> usize {
        self.rest.len()
    }

    /// Whether a word is to come.
    pub(crate) fn has_more(&self) -> bool {
        !self.rest.is_empty()
    }

    /// Fails if a word is to come.
    pub(crate) fn end(&self) -> Result<(), Unreadable> {
        if self.has_more() {
            return Err(Unreadable::TooMany);
        }
        Ok(())
    }

    /// The next word, of either kind.
    fn next(&mut self) -> Result<Word<'a>, Unreadable> {
        if !self.has_more() {
            return Err(Unreadable::Missing);
        }
        let (word, rest) = first_word(self.rest)?;
        self.rest = rest.trim_ascii_start();
        Ok(word)
    }

    /// The next word, which has no quotes.
    pub(crate) fn word(&mut self) -> Result<&'a str, Unreadable> {
        match self.next()? {
            (word, false) => Ok(word),
            (_, true) => Err(Unreadable::Quoted),
        }
    }

    /// The next word if it is this one, which is then taken.
    pub(crate) fn takes(&mut self, wanted: &str) -> bool {
        let mut after = *self;
        match after.word() {
            Ok(word) if word == wanted => {
                *self = after;
                true
            }
            _ => false,
        }
    }

    /// The number that the next word is.
    pub(crate) fn number(&mut self) -> Result<usize, Unreadable> {
        number_of(self.word()?)
    }

    /// The number that the next word is, or nothing for `none`.
    pub(crate) fn number_or_none(&mut self) -> Result<Option<usize>, Unreadable> {
        match self.word()? {
            "none" => Ok(None),
            word => Ok(Some(number_of(word)?)),
        }
    }

    /// The bytes that the next word stands for, in quotes.
    pub(crate) fn bytes(&mut self, alloc: Global) -> Result<Vec<u8>, Unreadable> {
        let (word, is_quoted) = self.next()?;
        if !is_quoted {
            return Err(Unreadable::Unquoted);
        }
        let mut pieces = word.split('\\');
        let mut bytes = Vec::new(alloc);
        bytes.extend_from_slice(pieces.next().unwrap_or("").as_bytes())?;
        for piece in pieces {
            push_escaped(piece, &mut bytes)?;
        }
        Ok(bytes)
    }

    /// The text that the next word stands for, in quotes.
    pub(crate) fn text(&mut self, alloc: Global) -> Result<String, Unreadable> {
        let bytes = self.bytes(alloc)?;
        let Ok(text) = str::from_utf8(&bytes) else {
            return Err(Unreadable::NoText);
        };
        Ok(String::from_str(alloc, text)?)
    }
}

/// The number that a word is.
pub(crate) fn number_of(word: &str) -> Result<usize, Unreadable> {
    match word.parse::<usize>() {
        Ok(number) => Ok(number),
        Err(_) => Err(Unreadable::Number),
    }
}

/// The two numbers of a word, with a sign between them.
pub(crate) fn pair_of(word: &str, sign: char) -> Result<(usize, usize), Unreadable> {
    let Some((first, second)) = word.split_once(sign) else {
        return Err(Unreadable::Number);
    };
    Ok((number_of(first)?, number_of(second)?))
}

/// The value of a hexadecimal digit.
fn digit(byte: u8) -> Result<u8, Unreadable> {
    match byte {
        b'0'..=b'9' => Ok(byte - b'0'),
        b'A'..=b'F' => Ok(byte - b'A' + 10),
        _ => Err(Unreadable::Digit),
    }
}

/// The number that hexadecimal digits stand for, at most eight.
pub(crate) fn hexadecimal(digits: &str) -> Result<u32, Unreadable> {
    if digits.is_empty() || digits.len() > 8 {
        return Err(Unreadable::Number);
    }
    let mut number = 0_u32;
    for byte in digits.as_bytes() {
        number = (number << 4) | digit(*byte)? as u32;
    }
    Ok(number)
}

/// The number that sixteen hexadecimal digits stand for.
pub(crate) fn long_hexadecimal(digits: &str) -> Result<u64, Unreadable> {
    match digits.split_at_checked(8) {
        Some((high, low)) if low.len() == 8 => {
            Ok(((hexadecimal(high)? as u64) << 32) | hexadecimal(low)? as u64)
        }
        _ => Err(Unreadable::Number),
    }
}

/// Appends what stands after a backslash: `xNN` or `u{N}`, and other characters.
fn push_escaped(piece: &str, bytes: &mut Vec<u8>) -> Result<(), Unreadable> {
    if let [b'x', high, low, rest @ ..] = piece.as_bytes() {
        bytes.push((digit(*high)? << 4) | digit(*low)?)?;
        bytes.extend_from_slice(rest)?;
        return Ok(());
    }
    let Some((number, rest)) = piece.split_once('}') else {
        return Err(Unreadable::Backslash);
    };
    let Some(digits) = number.strip_prefix("u{") else {
        return Err(Unreadable::Backslash);
    };
    let Some(character) = char::from_u32(hexadecimal(digits)?) else {
        return Err(Unreadable::NoCharacter);
    };
    bytes.extend_from_slice(character.encode_utf8(&mut [0; 4]).as_bytes())?;
    bytes.extend_from_slice(rest.as_bytes())?;
    Ok(())
}

/// Whether a word is the first of two.
pub(crate) fn choice(
    word: &str,
    (yes, no): (&'static str, &'static str),
) -> Result<bool, Unreadable> {
    if word == yes {
        return Ok(true);
    }
    if word == no {
        return Ok(false);
    }
    Err(Unreadable::Unknown("a word is neither of two"))
}
