//! Lengths to allocate for a decoder's output.

ghost use Rattle.std.specs.Prelude.{◌≡◌};
ghost use Rattle.enc_utf8.specs.Checked.{checked_max as greater_of};
ghost use Rattle.enc_stream.specs.LifeCycle.{marks_of, held_mark_bytes, holds_bytes};
ghost use Rattle.enc_stream.specs.Lengths.{formula_length, idle_length};
ghost use Rattle.enc_stream.specs.Lengths.{length_with_marks, length_by_marks};

use crate::life_cycle::LifeCycle;
use enc_codec::TextLengths;

/// The kinds of calls that a length is for.
#[derive(Clone, Copy)]
pub(crate) enum Query {
    /// Calls into UTF-8 with replacement.
    Utf8,
    /// Calls into UTF-8 without replacement.
    Utf8Reporting,
    /// Calls into UTF-16.
    Utf16,
}

/// Returns the greater of two lengths, or `None` if one is `None`.
fn greater(a: Option<usize>, b: Option<usize>) -> Option<usize>
    ensures { result ≡ greater_of a b }
{
    Some(a?.max(b?))
}

impl Query {
    /// Returns the length for `bytes` more bytes, for a codec that holds `held` bytes.
    fn length(self, formulas: TextLengths, bytes: usize, held: usize) -> Option<usize>
        ensures { result ≡ formula_length self formulas bytes held }
    {
        match self {
            Query::Utf8 => formulas.utf8(bytes, held),
            Query::Utf8Reporting => formulas.utf8_without_replacement(bytes, held),
            Query::Utf16 => formulas.utf16(bytes, held),
        }
    }

    /// Returns the greater of a length and of that for the encoding of a byte order mark.
    fn or_marked(self, of_mark: TextLengths, own: Option<usize>, bytes: usize) -> Option<usize>
        ensures { result ≡ greater_of (idle_length self of_mark bytes) own }
    {
        greater(self.length(of_mark, bytes, 0), own)
    }

    /// Returns the greatest of a length and of those for the byte order marks that may still come.
    fn or_any_marked(self, life: LifeCycle, own: Option<usize>, bytes: usize) -> Option<usize>
        ensures { result ≡ length_with_marks self (marks_of life) own bytes }
    {
        match life {
            LifeCycle::AtStart => {
                let of_utf_16 = self.or_marked(TextLengths::Utf16, own, bytes);
                self.or_marked(TextLengths::Utf8, of_utf_16, bytes)
            }
            LifeCycle::AtUtf8Start | LifeCycle::SeenUtf8First | LifeCycle::SeenUtf8Second => {
                self.or_marked(TextLengths::Utf8, own, bytes)
            }
            LifeCycle::AtUtf16BeStart
            | LifeCycle::AtUtf16LeStart
            | LifeCycle::SeenUtf16BeFirst
            | LifeCycle::SeenUtf16LeFirst => self.or_marked(TextLengths::Utf16, own, bytes),
            _ => own,
        }
    }

    /// Returns a decoder's length, by its life cycle and the formulas of its encoding.
    pub(crate) fn max_length(
        self,
        life: LifeCycle,
        own: TextLengths,
        bytes: usize,
        held: usize,
    ) -> Option<usize>
        ensures { result ≡ length_by_marks self (marks_of life)
            (holds_bytes (held_mark_bytes life)) own bytes held }
    {
        if life.held().is_empty() {
            let own = self.length(own, bytes, held);
            return self.or_any_marked(life, own, bytes);
        }
        let all = bytes.checked_add(2)?;
        self.or_any_marked(life, self.length(own, all, 0), all)
    }
}
