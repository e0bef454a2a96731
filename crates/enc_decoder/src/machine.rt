//! The loop over the bytes of a call, for every codec and every output.

ghost use Rattle.std.specs.Prelude.{◌≡◌, ◌<◌, ◌≤◌, Bool, true, length, drop, nat_le, IsTrue};
ghost use Rattle.std.specs.Prelude.{IsFalse, IfSome, IsSome};
ghost use Rattle.enc_utf8.specs.Text.{AreScalars, units_of_text};
ghost use Rattle.enc_output.specs.Output.{Output, with_appended};
ghost use Rattle.enc_decoder.specs.CodecLaw.{IsNextEvent, text_chars, lone_fault};
ghost use Rattle.enc_decoder.specs.declared.machine.NextEvent.TheVariants as comings;
ghost use Rattle.enc_decoder.specs.Call.{IsCodecCall, reports};
ghost use Rattle.enc_decoder.specs.CallRecord.{call_into};
ghost use Rattle.enc_decoder.specs.Taking.{TakesRun, SkipsEnd};

use crate::byte_codec::{ByteCodec, Emission, HandlerResult, Kind, Text};
use crate::error_mode::{CallOptions, ErrorMode};
use crate::outcome::DecoderOutcome;
use crate::replaced::replace_more;
use enc_output::{DecoderResult, Units};

/// The next event of a call.
#[derive(Clone, Copy)]
enum NextEvent<C> {
    /// Nothing: more input is needed.
    NeedsInput,
    /// A byte that is held.
    HoldsByte(C),
    /// A sequence.
    Emits(Emission<C>),
}

/// Returns whether the next byte is malformed by itself.
#[inline(always)]
fn is_at_lone_fault<C: ByteCodec>(codec: C, src: &[u8], read: usize) -> bool
    ensures { IsTrue result → (last : Bool) →
        IsNextEvent C.state codec src.now read last (comings.Emits (lone_fault codec)) }
{
    read < src.len() && codec.is_lone_fault(src[read])
}

/// Returns the next event: a sequence that the pending bytes, the next byte or the end determines,
/// a byte to hold, or nothing.
fn what_comes<C: ByteCodec>(codec: C, src: &[u8], read: usize, last: bool) -> NextEvent<C>
    requires read { read ≤ length src.now }
    ensures { IsNextEvent C.state codec src.now read last result }
{
    if is_at_lone_fault(codec, src, read) {
        return NextEvent::Emits(Emission {
            text: Text::One('\u{FFFD}'),
            kind: Kind::Malformed,
            len: 1,
            takes_byte: true,
            next: codec,
        });
    }
    match codec.ready() {
        Some(shown) => NextEvent::Emits(shown),
        None => {
            if read < src.len() {
                match codec.next_step(src[read]) {
                    HandlerResult::Continue(next) => NextEvent::HoldsByte(next),
                    HandlerResult::Emit(shown) => NextEvent::Emits(shown),
                }
            } else if last {
                match codec.at_end() {
                    Some(shown) => NextEvent::Emits(shown),
                    None => NextEvent::NeedsInput,
                }
            } else {
                NextEvent::NeedsInput
            }
        }
    }
}

/// Returns the number of code units of a text.
fn width<U: Units>(text: Text) -> usize
    ensures { result ≡ length (units_of_text U.units_of (text_chars text)) }
{
    match text {
        Text::Nothing => 0,
        Text::One(first) => U::width(first),
        Text::Two(first, second) => U::width(first) + U::width(second),
    }
}

/// Writes a text and returns true, or writes nothing and returns false if it does not fit.
#[inline(always)]
fn put_text<U: Units>(out: &mut U, text: Text) -> bool
    ensures fits { result ≡
        nat_le (length (units_of_text U.units_of (text_chars text))) (U.output out.old).room }
    ensures scalars { IsTrue result → AreScalars (text_chars text) }
    ensures written { IsTrue result → U.output out.new ≡
        with_appended (U.output out.old) (units_of_text U.units_of (text_chars text)) }
    ensures unchanged { IsFalse result → U.output out.new ≡ U.output out.old }
{
    if width::<U>(text) > out.room() {
        return false;
    }
    match text {
        Text::Nothing => true,
        Text::One(first) => out.put(first),
        Text::Two(first, second) => out.put(first) && out.put(second),
    }
}

/// Returns whether a call stops at a sequence of this kind and reports it.
#[inline(always)]
fn is_reported(kind: Kind, mode: ErrorMode) -> bool
    ensures { result ≡ reports mode kind }
{
    match mode {
        ErrorMode::Replacement => false,
        ErrorMode::Fatal => kind.is_malformed(),
    }
}

/// Goes on with a call that has read the first `read` bytes of `src`, in a run.
///
/// It is a function of its own, since most calls end with their first run.
#[inline(never)]
fn run_on<C: ByteCodec, U: Units>(
    codec: &mut C,
    src: &[u8],
    read: usize,
    out: &mut U,
    options: CallOptions,
) -> DecoderOutcome
    requires within { read ≤ length src.now }
    ensures { (old : C) (before : Output)
        → TakesRun U.units_of C.state old codec.old src.now read before (U.output out.old)
        → IsCodecCall U.units_of (C.state old) (C.state codec.new)
        (call_into src.now options before (U.output out.new) result) }
{
    let mut state = *codec;
    let mut read = read;
    let mut replaced = false;
    let result = 'events: loop {
        let shown = match what_comes(state, src, read, options.last) {
            NextEvent::NeedsInput => break DecoderResult::InputEmpty,
            NextEvent::HoldsByte(next) => {
                state = next;
                read += 1;
                continue;
            }
            NextEvent::Emits(shown) => shown,
        };
        let end = read + shown.takes_byte as usize;
        if is_reported(shown.kind, options.mode) {
            state = shown.next;
            read = end;
            break DecoderResult::Malformed(shown.len, state.held());
        }
        if !put_text(out, shown.text) {
            break DecoderResult::OutputFull;
        }
        state = shown.next;
        read = end;
        if shown.kind.is_malformed() {
            replaced = true;
            let (_, rest) = src.split_at(read);
            read += replace_more(state, rest, out);
        }
        let (_, rest) = src.split_at(read);
        let (ahead, taken) = state.take_run(rest, out);
        state = ahead;
        read += taken;
    };
    *codec = state;
    DecoderOutcome {
        result,
        read,
        replaced,
    }
}

/// Returns the state after the bytes from `read` on, if they end the input and are skipped.
#[inline(always)]
fn at_skipped_end<C: ByteCodec>(codec: C, src: &[u8], read: usize, last: bool) -> Option<C>
    requires within { read ≤ length src.now }
    ensures last { IsSome result → last ≡ true }
    ensures skips { IfSome result (λ next.
        SkipsEnd (C.state codec) (C.state next) (drop read src.now)) }
{
    if !last {
        return None;
    }
    let (_, rest) = src.split_at(read);
    codec.take_end(rest)
}

/// Decodes a chunk (Encoding Standard 4.1, "process a queue").
///
/// It stops when all of `src` is read, when the next sequence does not fit into `out`, and in error
/// mode "fatal" when one is malformed.
#[inline(always)]
pub fn run<C: ByteCodec, U: Units>(
    codec: &mut C,
    src: &[u8],
    out: &mut U,
    options: CallOptions,
) -> DecoderOutcome
    ensures { IsCodecCall U.units_of (C.state codec.old) (C.state codec.new)
        (call_into src.now options (U.output out.old) (U.output out.new) result) }
{
    let (ahead, taken) = codec.take_run(src, out);
    *codec = ahead;
    if taken == src.len() && ahead.held() == 0 {
        return DecoderOutcome {
            result: DecoderResult::InputEmpty,
            read: taken,
            replaced: false,
        };
    }
    if let Some(next) = at_skipped_end(ahead, src, taken, options.last) {
        *codec = next;
        return DecoderOutcome {
            result: DecoderResult::InputEmpty,
            read: src.len(),
            replaced: false,
        };
    }
    run_on(codec, src, taken, out, options)
}
