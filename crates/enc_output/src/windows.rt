//! Windows: the first characters of a short input, stored at once.

ghost use Rattle.std.specs.Prelude.{ℕ, List};
ghost use Rattle.enc_output.specs.PieceRuns.{PutsPieces};

use crate::buffer::UnitBuffer;

/// The length of the buffer of a window: sixteen characters of four code units.
pub(crate) const WINDOW: usize = 64;

/// A way to store the first characters of a short input, so that an output takes them at once.
pub trait Windows: Copy {
    // the bytes mean the character
    ghost means: { Self → List ℕ → ℕ → Type 0 };

    /// Stores the first characters of some sixteen bytes, any number of them, and returns their
    /// length in bytes.
    fn store_window<B: UnitBuffer>(self, out: &mut B, src: &[u8]) -> usize
        ensures { PutsPieces B.units_of (means self) (B.output out.old) (B.output out.new) src.now
            result }
    {
        let _window = self;
        let _bytes = src;
        let _out = out;
        0
    }
}
