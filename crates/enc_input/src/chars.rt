//! Inputs of characters.

ghost use Rattle.std.specs.Prelude.{◌≡◌, ◌≢◌, ◌≤◌, ℕ, List, [], ◌∷◌, length, drop, MatchOption, IfSome};
ghost use Rattle.enc_utf8.specs.Text.{units_of_text};
ghost use Rattle.enc_input.specs.Mappings.{WritesMapped};

use crate::mapping::Mapping;
use crate::ways::Way;

/// An input of characters, each with its code units.
pub trait Chars {
    // the code units of a character
    ghost units_of: { ℕ → List ℕ };

    // the characters still to come
    ghost rest: { Self → List ℕ };

    /// Returns the number of unread code units.
    fn unread(&self) -> usize
        ensures { result ≡ length (units_of_text units_of (rest self.now)) };

    /// Returns the next character and the number of its code units, or `None` at the end.
    fn peek(&self) -> Option<(char, usize)>
        ensures first { MatchOption result (rest self.now ≡ [])
            (λ p. rest self.now ≡ p.0 ∷ drop 1 (rest self.now)) }
        ensures width { IfSome result (λ p. p.1 ≡ length (units_of p.0)) };

    /// Reads the next character. Condition: the input is not at its end.
    fn advance(&mut self)
        requires some { rest self.old ≢ [] }
        ensures { rest self.new ≡ drop 1 (rest self.old) };

    /// Reads the first characters and writes their bytes to a slice, from `from` on, in a way of
    /// the mapping.
    ///
    /// Returns the number of bytes written.
    ///
    /// The run need not be maximal: it may be empty, as it is by default.
    fn write_mapped<M: Mapping, W: Way<M>>(
        &mut self,
        mapping: M,
        way: W,
        dst: &mut [u8],
        from: usize,
    ) -> usize
        requires room { from ≤ length dst.old }
        ensures { WritesMapped (M.means mapping) (rest self.old) (rest self.new) dst.old dst.new
            from result }
    {
        let _mapping = mapping;
        let _way = way;
        let _room = dst.len() - from;
        0
    }
}
