//! Ways to write a run of characters, one for each kind of pieces.

ghost use Rattle.std.specs.Char.{encode_utf8};
ghost use Rattle.enc_output.specs.Output.{borrowed_output};
ghost use Rattle.enc_output.specs.PieceRuns.{PutsPieces};

use crate::gather::{BUFFER, Gather};
use crate::utf8_slice::Utf8Slice;

/// A way to write the characters at the front of an input, for one kind of pieces.
pub trait Run: Gather {
    /// Writes the characters at the front as UTF-8, through a buffer. Returns their length in
    /// bytes.
    #[inline(always)]
    fn write_utf8(self, out: &mut Utf8Slice<'_>, src: &[u8]) -> usize
        ensures { PutsPieces encode_utf8 (Self.means self) (borrowed_output out.old.len out.old.dst)
            (borrowed_output out.new.len out.new.dst) src.now result }
    {
        out.append_gathered(self, &mut [0; BUFFER], src)
    }
}
