//! Double-byte indexes as types.

ghost use Rattle.std.specs.Prelude.{◌≡◌, ◌<◌, Some};
ghost use Rattle.std.specs.Char.{IsScalar};
ghost use Rattle.enc_index.specs.Grid.{Shape, HasWord, pointer_char, grid_char};
ghost use Rattle.enc_index.specs.Grid.{grid_len};

/// A double-byte index (Encoding Standard 5), as a type: characters by pointer, and by place in a
/// grid, for loops that look two bytes up with no branch.
///
/// The places are, in this order:
///
/// - 256 places for single bytes. The first 128 are ASCII, and the others are empty.
/// - The rows of the index. Each has a place for each of its pointers, and an empty one for bad
///   trail bytes.
/// - Two empty rows, for bad lead bytes.
///
/// The place of two bytes is a sum: the first place of the lead's row, and the column of the trail.
pub trait DoubleByteIndex {
    // its runs, and its rows of pointers
    ghost shape: { Shape };

    /// Returns the character of a pointer ("index code point"), by the first run that has it.
    ///
    /// `None` for an unmapped pointer: no run has it, or its code point is 0, a surrogate or past
    /// the index's planes. One load from a table.
    fn at(pointer: u32) -> Option<char>
        ensures { result ≡ pointer_char shape pointer };

    /// Returns the UTF-8 of the character at a place, as a word.
    ///
    /// The word has the bytes, the first lowest, and their number in the highest byte. 0 if the
    /// place is empty or the character has four bytes. One load.
    fn word(place: usize) -> u32
        requires place { place < grid_len shape }
        ensures { 0 < result → HasWord (grid_char shape place) result };

    /// Returns the UTF-16 code unit of the character at a place.
    ///
    /// 0 if the place is empty or the character has two code units. At place 0 it is the code unit
    /// of U+0000, which is 0 too. One load.
    fn unit(place: usize) -> u16
        requires place { place < grid_len shape }
        ensures { 0 < result → (grid_char shape place ≡ Some result) × IsScalar result };
}
