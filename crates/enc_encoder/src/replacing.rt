//! Calls by error mode: with a decimal reference for each unmappable character, or up to one
//! (Encoding Standard 4.1).

ghost use Rattle.std.specs.Prelude.{◌≡◌, ◌+◌, ◌≤◌, [], IsTrue, length, take, drop};
ghost use Rattle.enc_encoder.specs.Replacing.{result_when_full};
ghost use Rattle.enc_encoder.specs.Begun.{HasBegun};
ghost use Rattle.enc_encoder.specs.Writes.{place};
ghost use Rattle.enc_encoder.specs.ErrorMode.{IsCallInMode, CallOnto, MapsEveryCharacter, mode_of};
ghost use Rattle.enc_encoder.specs.ErrorMode.{is_nothing_left, kept_in};
ghost use Rattle.enc_encoder.specs.declared.error_mode.ErrorMode.TheVariants.{HtmlOfMappable};

use crate::begun::Begun;
use crate::error_mode::ErrorMode;
use crate::outcome::EncoderOutcome;
use crate::raw_encoder::RawEncoder;
use crate::reference::{LONGEST_REFERENCE, put_reference};
use enc_input::{Chars, EncoderResult};

/// Returns why a call stops when no more bytes fit, by whether something is left to do.
fn full_result<E: RawEncoder, C: Chars>(encoder: &E, src: &C, last: bool) -> EncoderResult
    ensures { result
        ≡ result_when_full (is_nothing_left (E.state encoder.now) (C.rest src.now) last) }
{
    match src.peek() {
        Some(_) => EncoderResult::OutputFull,
        None => {
            if last && encoder.has_pending_state() {
                EncoderResult::OutputFull
            } else {
                EncoderResult::InputEmpty
            }
        }
    }
}

/// Returns whether no code unit is left, and so no character.
///
/// That there is none is what `peek` says: of no code units it takes no instruction.
#[inline(always)]
fn is_read<C: Chars>(src: &C) -> bool
    ensures { IsTrue result → C.rest src.now ≡ [] }
{
    src.unread() == 0 && src.peek().is_none()
}

/// Returns the number of bytes at the end of the output that are kept free for references.
#[inline(always)]
fn kept_free(mode: ErrorMode) -> usize
    ensures { result ≡ kept_in (mode_of mode) }
{
    match mode {
        ErrorMode::Html => LONGEST_REFERENCE,
        ErrorMode::Fatal | ErrorMode::HtmlOfMappable => 0,
    }
}

/// Goes on with a call in an error mode, which has written its first run.
///
/// It is a function of its own, since the first run of most calls takes all.
#[inline(never)]
fn go_on_in_mode<E: RawEncoder, C: Chars>(
    encoder: &mut E,
    src: &mut C,
    dst: &mut [u8],
    begun: Begun,
    mode: ErrorMode,
) -> EncoderOutcome
    requires mappable { mode ≡ HtmlOfMappable → MapsEveryCharacter (E.state encoder.old).rule }
    requires begun { HasBegun C.units_of begun (E.state encoder.old) (C.rest src.old) dst.old }
    requires room { begun.written + kept_in (mode_of mode) ≤ length dst.old }
    ensures { (start : HasBegun C.units_of begun (E.state encoder.old) (C.rest src.old) dst.old)
        → CallOnto C.units_of (mode_of mode) begun.last
        (place (E.state encoder.old) start.given start.before 0)
        (place (E.state encoder.new) (C.rest src.new) dst.new result.written)
        result.result result.read result.replaced }
{
    match mode {
        ErrorMode::Html => (),
        ErrorMode::Fatal | ErrorMode::HtmlOfMappable => {
            return encoder.encode_on(src, dst, begun);
        }
    }
    let limit = dst.len() - LONGEST_REFERENCE;
    let mut outcome = encoder.encode_on(src, &mut dst[..limit], begun);
    let mut written = outcome.written;
    let mut replaced = false;
    loop {
        let EncoderResult::Unmappable(c) = outcome.result else {
            return EncoderOutcome {
                result: outcome.result,
                read: begun.given - src.unread(),
                written,
                replaced,
            };
        };
        written += put_reference(c, dst, written);
        replaced = true;
        if written >= limit {
            return EncoderOutcome {
                result: full_result(encoder, src, begun.last),
                read: begun.given - src.unread(),
                written,
                replaced,
            };
        }
        let turn = Begun {
            last: begun.last,
            given: src.unread(),
            written: 0,
        };
        outcome = encoder.encode_on(src, &mut dst[written..limit], turn);
        written += outcome.written;
    }
}

/// Encodes a chunk in an error mode.
///
/// With [`ErrorMode::Html`] the last 10 bytes of `dst` are kept free for references. With fewer
/// than 10 bytes it does nothing. After a reference that ends at the kept part or in it, it writes
/// no more.
#[inline(always)]
pub fn encode_in_mode<E: RawEncoder, C: Chars>(
    encoder: &mut E,
    src: &mut C,
    dst: &mut [u8],
    last: bool,
    mode: ErrorMode,
) -> EncoderOutcome
    requires mappable { mode ≡ HtmlOfMappable → MapsEveryCharacter (E.state encoder.old).rule }
    ensures within { result.written ≤ length dst.old }
    ensures rest { drop result.written dst.new ≡ drop result.written dst.old }
    ensures call { IsCallInMode C.units_of (E.state encoder.old) (E.state encoder.new)
        (C.rest src.new) (record {
          src = C.rest src.old;
          last = last;
          mode = mode_of mode;
          room = length dst.old;
          result = result.result;
          read = result.read;
          wrote = take result.written dst.new;
          replaced = result.replaced;
        }) }
{
    let kept = kept_free(mode);
    if dst.len() < kept {
        return EncoderOutcome {
            result: full_result(encoder, src, last),
            read: 0,
            written: 0,
            replaced: false,
        };
    }
    let given = src.unread();
    let limit = dst.len() - kept;
    let written = encoder.write_first(src, &mut dst[..limit]);
    if is_read(src) && !encoder.has_pending_state() {
        return EncoderOutcome {
            result: EncoderResult::InputEmpty,
            read: given,
            written,
            replaced: false,
        };
    }
    let begun = Begun {
        last,
        given,
        written,
    };
    go_on_in_mode(encoder, src, dst, begun, mode)
}
