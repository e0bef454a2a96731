//! Outputs of code units.

ghost use Rattle.std.specs.Prelude.{◌≡◌, ℕ, ◌≤◌, List, length, nat_le, IsTrue, IsFalse};
ghost use Rattle.enc_output.specs.Output.{Output, with_appended};
ghost use Rattle.enc_utf8.specs.Text.{DetermineTexts};
ghost use Rattle.enc_output.specs.AsciiRun.{PutsAscii};
ghost use Rattle.enc_output.specs.PieceRuns.{PutsPieces};
ghost use Rattle.enc_utf8.specs.Pieces.{IsUtf8Char};

use crate::run::Run;

/// An output that takes whole characters while their code units fit.
pub trait Units {
    /// The number of code units of U+FFFD.
    const FAULT: usize;

    // the code units of a character
    ghost units_of: { ℕ → List ℕ };

    // the code units written, the room left, and the old code units after them
    ghost output: { Self → Output };

    /// Returns the number of code units of a character.
    fn width(c: char) -> usize
        ensures value { result ≡ length (units_of c) }
        ensures some { 1 ≤ result }
        ensures bound { result ≤ 4 };

    /// No two texts have the same code units. The call does nothing.
    fn laws()
        ensures { DetermineTexts units_of };

    /// Returns the number of code units that still fit.
    fn room(&self) -> usize
        ensures { result ≡ (output self.now).room };

    /// Writes a character with all its code units, and returns true.
    ///
    /// It writes nothing and returns false if they do not fit. The output after them is unchanged.
    fn put(&mut self, c: char) -> bool
        ensures fits { result ≡ nat_le (length (units_of c)) (output self.old).room }
        ensures written { IsTrue result → output self.new
            ≡ with_appended (output self.old) (units_of c) }
        ensures unchanged { IsFalse result → output self.new ≡ output self.old };

    /// Writes the longest prefix of bytes below 0x80 that fits, each as `put` does.
    ///
    /// Returns its length in bytes. The output after it is unchanged.
    fn put_ascii(&mut self, src: &[u8]) -> usize
        ensures { PutsAscii units_of (output self.old) (output self.new) src.now result };

    /// Writes characters of well-formed UTF-8 from the front of `src`, each as `put` does.
    ///
    /// Returns their length in bytes (Unicode Standard 3.9, D92). The run need not be maximal, and
    /// ends before a character that does not fit. The output after it is unchanged.
    fn put_utf8(&mut self, src: &[u8]) -> usize
        ensures { PutsPieces units_of IsUtf8Char (output self.old) (output self.new) src.now
            result }
    {
        let _bytes = src;
        0
    }

    /// Writes characters that `run` finds at the front of `src`, each as `put` does.
    ///
    /// Returns their length in bytes. The run need not be maximal, and ends before a character that
    /// does not fit. The output after it is unchanged.
    fn put_pieces<R: Run>(&mut self, run: R, src: &[u8]) -> usize
        ensures { PutsPieces units_of (R.means run) (output self.old) (output self.new) src.now
            result }
    {
        let _run = run;
        let _bytes = src;
        0
    }
}
