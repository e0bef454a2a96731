//! Text decoded by a codec. Its first bytes may be held as those of a byte order mark.

ghost use Rattle.std.specs.Prelude.{◌≡◌, ℕ, ◌+◌, ◌-◌, ◌≤◌, ◌++◌, false, [], length};
ghost use Rattle.enc_stream.specs.declared.encoding.Encoding.{Encoding};
ghost use Rattle.enc_stream.specs.Encodings.{rule_of};
ghost use Rattle.enc_decoder.specs.CallRecord.{call_into};
ghost use Rattle.enc_stream.specs.Decoding.{DecodesInto};
ghost use Rattle.enc_stream.specs.LifeCycle.{has_ended, held_mark_bytes, unread_bytes};
ghost use Rattle.enc_stream.specs.LifeCycle.{decoder_state_of};
ghost use Rattle.enc_stream.specs.LifeCycle.{HeldBytesMatchCodec};
ghost use Rattle.enc_stream.specs.Sniffing.{HasNoMark};

use crate::life_cycle::LifeCycle;
use enc_codec::RawDecoder;
use enc_decoder::{CallOptions, DecoderOutcome, decode_held_first, reaches_end, shift_malformed};
use enc_output::Units;

/// Returns the held bytes of a byte order mark that the codec has not read. It has `pending` bytes
/// pending.
fn unread(life: LifeCycle, pending: usize) -> &'static [u8]
    ensures { result.now ≡ unread_bytes life pending }
{
    if pending == 0 { life.held() } else { b"" }
}

/// Decodes text, if no bytes of a byte order mark are held.
#[inline(always)]
pub(crate) fn decode_plain<D: RawDecoder, U: Units>(
    life: &mut LifeCycle,
    codec: &mut D,
    src: &[u8],
    out: &mut U,
    options: CallOptions,
) -> DecoderOutcome
    requires unfinished { has_ended life.old ≡ false }
    requires none_held { held_mark_bytes life.old ≡ [] }
    requires text { HasNoMark life.old src.now options.last }
    requires holds { HeldBytesMatchCodec life.old (D.state codec.old) }
    ensures call { (e : Encoding) → rule_of e ≡ (D.state codec.old).rule →
        DecodesInto U.units_of (decoder_state_of e life.old (D.state codec.old))
        (decoder_state_of e life.new (D.state codec.new))
        (call_into src.now options (U.output out.old) (U.output out.new) result) }
    ensures rule { (D.state codec.new).rule ≡ (D.state codec.old).rule }
    ensures formulas { D.formulas codec.new ≡ D.formulas codec.old }
    ensures holds { HeldBytesMatchCodec life.new (D.state codec.new) }
{
    let outcome = codec.decode(src, out, options);
    if reaches_end(options.last, outcome.result) {
        *life = LifeCycle::Finished;
        return outcome;
    }
    if outcome.read > 0 {
        *life = LifeCycle::Converting;
    }
    outcome
}

/// Decodes text: the held bytes of a byte order mark, and then `src`.
///
/// The codec is unchanged if the call puts out and reports nothing, and reads nothing of `src`.
#[inline(always)]
pub(crate) fn decode_text<D: RawDecoder, U: Units>(
    life: &mut LifeCycle,
    codec: &mut D,
    src: &[u8],
    out: &mut U,
    options: CallOptions,
) -> DecoderOutcome
    requires unfinished { has_ended life.old ≡ false }
    requires text { HasNoMark life.old src.now options.last }
    requires holds { HeldBytesMatchCodec life.old (D.state codec.old) }
    ensures call { (e : Encoding) → rule_of e ≡ (D.state codec.old).rule →
        DecodesInto U.units_of (decoder_state_of e life.old (D.state codec.old))
        (decoder_state_of e life.new (D.state codec.new))
        (call_into src.now options (U.output out.old) (U.output out.new) result) }
    ensures rule { (D.state codec.new).rule ≡ (D.state codec.old).rule }
    ensures formulas { D.formulas codec.new ≡ D.formulas codec.old }
    ensures holds { HeldBytesMatchCodec life.new (D.state codec.new) }
{
    let before = *codec;
    let held = unread(*life, before.held());
    let done = decode_held_first(codec, held, src, out, options);
    let left = held.len().saturating_sub(done.read);
    let read = done.read.saturating_sub(held.len());
    let outcome = DecoderOutcome {
        result: shift_malformed(done.result, left),
        read,
        replaced: done.replaced,
    };
    if reaches_end(options.last, done.result) {
        *life = LifeCycle::Finished;
        return outcome;
    }
    let pending = codec.held() + left;
    let untouched = (read == 0) & (pending == before.held() + held.len());
    if untouched {
        *codec = before;
        return outcome;
    }
    let leaves_bb = (read == 0) & ((held.len() == 2) & (pending == 1));
    if leaves_bb {
        *life = LifeCycle::ConvertingWithPendingBb;
        return outcome;
    }
    *life = LifeCycle::Converting;
    outcome
}
