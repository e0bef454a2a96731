//! The search for a byte order mark at the start of the input (Encoding Standard 6, "BOM sniff").

ghost use Rattle.std.specs.Prelude.{◌≡◌, ◌≤◌, Bool, false, [], length, IsTrue};
ghost use Rattle.enc_stream.specs.LifeCycle.{held_mark_bytes, has_ended};
ghost use Rattle.enc_stream.specs.Sniffing.{IsSniffed, HasNoMark};

use crate::encoding::Encoding;
use crate::life_cycle::{LifeCycle, MarkByte};

/// The result of the search for a byte order mark.
#[derive(Clone, Copy)]
pub(crate) enum Sniffed {
    /// All bytes may begin a byte order mark. The state holds them.
    Open(LifeCycle),
    /// The byte order mark of this encoding.
    Mark(Encoding),
    /// Text. The state holds the first bytes, which might have begun a byte order mark.
    Text(LifeCycle),
}

/// Returns whether text begins at the front of `src`, with nothing held and no byte order mark.
///
/// False says nothing: [`sniff`] finds out.
#[inline(always)]
pub(crate) fn begins_as_text(life: LifeCycle, src: &[u8]) -> bool
    ensures text { IsTrue result → (last : Bool) → HasNoMark life src.now last }
    ensures none_held { IsTrue result → held_mark_bytes life ≡ [] }
    ensures unfinished { IsTrue result → has_ended life ≡ false }
{
    match life {
        LifeCycle::Converting => true,
        LifeCycle::AtStart => src.len() > 0 && src[0] != 0xEF && src[0] < 0xFE,
        _ => false,
    }
}

/// Scans the held bytes and `src` for a byte order mark. With `last` nothing follows `src`.
///
/// Also returns the number of bytes of `src` that are part of it, or might have been. It is a
/// function of its own, since few inputs begin with one.
#[inline(never)]
pub(crate) fn sniff(life: LifeCycle, src: &[u8], last: bool) -> (Sniffed, usize)
    ensures within { result.1 ≤ length src.now }
    ensures sniffed { IsSniffed life src.now last result.0 result.1 }
{
    let mut held = life;
    let mut len = 0;
    while len < src.len() {
        match held.mark_byte(src[len]) {
            MarkByte::Holds(next) => {
                held = next;
                len += 1;
            }
            MarkByte::Ends(encoding) => return (Sniffed::Mark(encoding), len + 1),
            MarkByte::RulesOut => return (Sniffed::Text(held), len),
        }
    }
    if held.awaits_mark() && !last {
        return (Sniffed::Open(held), len);
    }
    (Sniffed::Text(held), len)
}
