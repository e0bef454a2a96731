//! Places in a text, by line and column.

ghost use Rattle.std.specs.Prelude.{◌≡◌, map, chars, if◌then◌else◌};
ghost use Rattle.enc_reader.specs.Items.{character_item};
ghost use Rattle.enc_reader.specs.Places.{position_after, start_of_text, after_character};
ghost use Rattle.enc_reader.specs.Places.{start_of_next_line};

/// A place in a text: a line, and a column in it. Both count from 1, up to 2^64 - 1.
///
/// A line ends with its line feed. Each character is a column, and so is each malformed sequence.
#[derive(Clone, Copy, PartialEq, Eq, Debug)]
pub struct Position {
    line: u64,
    column: u64,
}

impl Position {
    /// Returns the place of the first character of a text.
    pub(crate) fn start() -> Position
        ensures { result ≡ start_of_text }
    {
        Position { line: 1, column: 1 }
    }

    /// Returns the line.
    pub fn line(self) -> u64
        ensures { result ≡ self.line }
    {
        self.line
    }

    /// Returns the column.
    pub fn column(self) -> u64
        ensures { result ≡ self.column }
    {
        self.column
    }

    /// Returns the place after a character that stands here, or after a malformed sequence.
    pub(crate) fn after(self, character: char) -> Position
        ensures { result ≡ after_character self character }
    {
        if character == '\n' {
            return self.next_line();
        }
        Position {
            line: self.line,
            column: self.column.saturating_add(1),
        }
    }

    /// Returns the start of the line after this one.
    pub(crate) fn next_line(self) -> Position
        ensures { result ≡ start_of_next_line self }
    {
        Position {
            line: self.line.saturating_add(1),
            column: 1,
        }
    }

    /// Returns the place after a text that stands here.
    pub(crate) fn after_text(self, text: &str) -> Position
        ensures { result ≡ position_after self (map character_item (chars text.now)) }
    {
        let mut position = self;
        for character in text.chars() {
            position = position.after(character);
        }
        position
    }

    /// Returns the place after a text that stands here. It has a line feed at its end alone, and
    /// only if `is_line`.
    pub(crate) fn after_part(self, text: &str, is_line: bool) -> Position
        ensures { result ≡ (if is_line then start_of_next_line self
            else position_after self (map character_item (chars text.now))) }
    {
        if is_line {
            self.next_line()
        } else {
            self.after_text(text)
        }
    }
}
