//! Sequences that are put out one by one, with U+FFFD for each malformed one.

ghost use Rattle.std.specs.Prelude.{◌≡◌, []};
ghost use Rattle.enc_decoder.specs.Taking.{TakesSequences};

use crate::byte_codec::ByteCodec;
use enc_output::Units;

/// The number of characters in a row after which malformed sequences are no longer expected.
const CALM: usize = 16;

/// Puts out sequences from the front of `src` one by one. Returns their length in bytes.
///
/// It stops where the codec knows none, where the next does not fit, and after some characters
/// with no malformed sequence among them. It is a function of its own, so that the loop that calls
/// it stays small.
#[inline(never)]
fn replace_some<C: ByteCodec, U: Units>(codec: C, src: &[u8], out: &mut U) -> usize
    requires none_pending { (C.state codec).pending ≡ [] }
    ensures { TakesSequences U.units_of (C.state codec) (C.state codec) src.now result
        (U.output out.old) (U.output out.new) }
{
    let mut at = 0;
    let mut calm = 0;
    while at < src.len() && calm < CALM {
        let Some((character, len)) = codec.replaced_char(src, at) else {
            return at;
        };
        calm = if character == '\u{FFFD}' { 0 } else { calm + 1 };
        if !out.put(character) {
            return at;
        }
        at += len;
    }
    at
}

/// Takes whole sequences after a malformed one, with U+FFFD for each that is malformed too.
///
/// Returns their length in bytes. It takes none while bytes are pending.
#[inline(always)]
pub(crate) fn replace_more<C: ByteCodec, U: Units>(codec: C, src: &[u8], out: &mut U) -> usize
    ensures { TakesSequences U.units_of (C.state codec) (C.state codec) src.now result
        (U.output out.old) (U.output out.new) }
{
    if !C::replaces_each() {
        return codec.replace_run(src, out);
    }
    if codec.held() != 0 {
        return 0;
    }
    replace_some(codec, src, out)
}
