//! The loop over the characters of a call, for every encoder and every input.

ghost use Rattle.std.specs.Prelude.{◌≡◌, ℕ, ◌+◌, ◌-◌, ◌<◌, ◌≤◌, ◌++◌, false, length, take, drop};
ghost use Rattle.std.specs.Prelude.{IsTrue, IsFalse};
ghost use Rattle.enc_input.specs.Bytes.{byte_list};
ghost use Rattle.enc_encoder.specs.CharLaw.{IsStepAtEnd, IsNextStepOfCall};
ghost use Rattle.enc_encoder.specs.Begun.{HasBegun, EndsCall};
ghost use Rattle.enc_encoder.specs.Writes.{place};
ghost use Rattle.enc_encoder.specs.EncoderRule.{IsLawfulEncoderRule};

use crate::begun::Begun;
use crate::char_encoder::CharEncoder;
use crate::character_set::CharacterSet;
use crate::outcome::EncoderOutcome;
use crate::transition::Transition;
use crate::transitions::{first_written_char, take_char, take_escape};
use enc_input::{Bytes, Chars, EncoderResult};

/// Returns the step at the end of the text, if there is one.
fn step_at_end<E: CharEncoder>(encoder: E) -> Option<Transition<E>>
    ensures { IsStepAtEnd E.state encoder result }
{
    match encoder.escape_at_end() {
        Some(next) => Some(take_escape(next, CharacterSet::Ascii)),
        None => None,
    }
}

/// Returns the next step of a call: for the next character, or at the end of the text, or none.
#[inline(always)]
fn what_comes<E: CharEncoder, C: Chars>(encoder: E, src: &C, last: bool) -> Option<Transition<E>>
    ensures { IsNextStepOfCall E.state encoder (C.rest src.now) last result }
{
    let Some((c, _)) = src.peek() else {
        return if last { step_at_end(encoder) } else { None };
    };
    let found = encoder.bytes(c);
    match encoder.escape_before(first_written_char(c, found)) {
        Some(next) => Some(take_escape(next, next.set())),
        None => Some(take_char(encoder, encoder.reported(c), found)),
    }
}

/// Writes bytes after those written and returns true, or writes nothing and returns false if they
/// do not fit.
#[inline(always)]
fn put(dst: &mut [u8], written: usize, bytes: Bytes) -> bool
    requires room { written ≤ length dst.old }
    ensures count { bytes.len ≡ length (byte_list bytes) }
    ensures fits { IsTrue result → written + length (byte_list bytes) ≤ length dst.old }
    ensures full { IsFalse result → length dst.old < written + length (byte_list bytes) }
    ensures put { IsTrue result → dst.new ≡ take written dst.old
        ++ (byte_list bytes ++ drop (written + length (byte_list bytes)) dst.old) }
    ensures unchanged { IsFalse result → dst.new ≡ dst.old }
{
    if bytes.len > dst.len() - written {
        return false;
    }
    dst[written..written + bytes.len].copy_from_slice(&bytes.bytes[..bytes.len]);
    true
}

/// Goes on with a call of an encoder that takes one character at a time: the loop of every
/// encoder's call.
///
/// It stops when all characters are read, the bytes that come next do not fit, or a character is
/// unmappable.
pub fn run_on<E: CharEncoder, C: Chars>(
    encoder: &mut E,
    src: &mut C,
    dst: &mut [u8],
    begun: Begun,
) -> EncoderOutcome
    requires lawful { IsLawfulEncoderRule (E.state encoder.old).rule }
    requires begun { HasBegun C.units_of begun (E.state encoder.old) (C.rest src.old) dst.old }
    ensures call { EndsCall C.units_of begun (E.state encoder.old) (C.rest src.old) dst.old
        (place (E.state encoder.new) (C.rest src.new) dst.new result.written)
        result.result result.read }
    ensures replaced { result.replaced ≡ false }
{
    let mut state = *encoder;
    let mut written = begun.written;
    loop {
        let Some(taken) = what_comes(state, src, begun.last) else {
            *encoder = state;
            return EncoderOutcome {
                result: EncoderResult::InputEmpty,
                read: begun.given - src.unread(),
                written,
                replaced: false,
            };
        };
        if let Some(c) = taken.report {
            src.advance();
            *encoder = taken.next;
            return EncoderOutcome {
                result: EncoderResult::Unmappable(c),
                read: begun.given - src.unread(),
                written,
                replaced: false,
            };
        }
        if !put(dst, written, taken.bytes) {
            *encoder = state;
            return EncoderOutcome {
                result: EncoderResult::OutputFull,
                read: begun.given - src.unread(),
                written,
                replaced: false,
            };
        }
        if taken.reads {
            src.advance();
        }
        written += taken.bytes.len;
        state = taken.next;
        written += state.write_run(src, dst, written);
    }
}
