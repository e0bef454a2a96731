//! The decoders of encodings by the kinds of prefixes.

ghost use Rattle.std.specs.Prelude.{◌≡◌, ◌<◌, ◌≤◌, [], ◌∷◌, ◌++◌, false, length, take, drop};
ghost use Rattle.std.specs.Prelude.{IfSome, IsNone, IsTrue, IsFalse};
ghost use Rattle.enc_decoder.specs.Pending.{bytes_of_pending};
ghost use Rattle.enc_decoder.specs.Prefixes.{prefix_rule, prefix_state, AreIncomplete, AreKept};
ghost use Rattle.enc_decoder.specs.Prefixes.{ArePrefixes, LeavesIncomplete};
ghost use Rattle.enc_decoder.specs.CodecLaw.{IsNextOfPending, HandlesByte};
ghost use Rattle.enc_decoder.specs.Taking.{IsWholeChar, IsReplacedCharAt};
ghost use Rattle.enc_decoder.specs.Latin1.{AreLatin1Bytes, HasNoByteSequences};
ghost use Rattle.enc_decoder.specs.Need.{AreEnoughForCodec};
ghost use Rattle.enc_output.specs.PieceRuns.{PutsPieces};

use crate::byte_codec::{ByteCodec, Emission, HandlerResult, Kind, Text};
use crate::error_mode::CallOptions;
use crate::latin1::latin1_up_to;
use crate::machine::run;
use crate::outcome::DecoderOutcome;
use crate::pending::Pending;
use crate::prefix::Prefix;
use crate::raw_decoder::RawDecoder;
use crate::text_lengths::TextLengths;
use enc_output::Units;

/// A decoder of an encoding by the kinds of prefixes.
///
/// Its pending bytes are an incomplete prefix. In some encodings a malformed sequence may leave
/// other bytes pending, which are then classified anew.
pub trait PrefixCodec: Copy {
    ghost use Rattle.std.specs.Prelude.{ℕ, Bool, List};
    ghost use Rattle.enc_decoder.specs.declared.pending.Pending.{Pending};
    ghost use Rattle.enc_decoder.specs.declared.prefix.Prefix.{Prefix};
    ghost use Rattle.enc_decoder.specs.declared.text_lengths.TextLengths.{TextLengths};

    // the kind of a prefix, if all shorter ones are incomplete
    ghost prefix: { Self → List ℕ → Prefix };

    // the pending bytes
    ghost waiting: { Self → Pending };

    // whether other bytes than an incomplete prefix may be pending
    ghost leaves_others: { Bool };

    // the formulas for lengths to allocate
    ghost lengths: { TextLengths };

    /// The laws of all prefixes and of the pending bytes. The call does nothing.
    fn laws(self)
        ensures prefixes { ArePrefixes (prefix self) }
        ensures kept { AreKept leaves_others (prefix self) (bytes_of_pending (waiting self)) }
        ensures leaves { leaves_others ≡ false → LeavesIncomplete (prefix self) };

    /// Returns whether other bytes than an incomplete prefix may be pending.
    fn leaves_others() -> bool
        ensures { result ≡ leaves_others };

    /// Returns the pending bytes.
    fn waiting(self) -> Pending
        ensures { result ≡ waiting self };

    /// Returns the decoder with these pending bytes.
    fn with_waiting(self, pending: Pending) -> Self
        requires kept { AreKept leaves_others (prefix self) (bytes_of_pending pending) }
        ensures prefix { prefix result ≡ prefix self }
        ensures waiting { waiting result ≡ pending };

    /// Returns the kind of an incomplete prefix with one byte more.
    fn classify(self, front: Pending, byte: u8) -> Prefix
        requires incomplete { AreIncomplete (prefix self) [] (bytes_of_pending front) }
        ensures { result ≡ prefix self (bytes_of_pending front ++ byte ∷ []) };

    /// Puts out whole characters from the front of `src`, with nothing pending.
    ///
    /// Returns their length in bytes. It may put out any number of them, and none.
    fn put_front<U: Units>(self, src: &[u8], out: &mut U) -> usize
        ensures { PutsPieces U.units_of (IsWholeChar (prefix_rule (prefix self)) 0)
            (U.output out.old) (U.output out.new) src.now result };

    /// Returns the length of a prefix of `src` in which each byte is the character with its number,
    /// a sequence by itself. It need not be the longest, and may be 0.
    #[inline(always)]
    fn latin1_front(self, src: &[u8]) -> usize
        ensures within { result ≤ length src.now }
        ensures latin1 { AreLatin1Bytes (prefix_rule (prefix self)) 0 (take result src.now) }
    {
        let _bytes = (self, src.len());
        0
    }

    /// Returns the text of the sequence at `at`, as `ByteCodec::replaced_char` does.
    #[inline(always)]
    fn replaced_at(self, src: &[u8], at: usize) -> Option<(char, usize)>
        requires within { at < length src.now }
        ensures some { IfSome result (λ p. 0 < p.1) }
        ensures within { IfSome result (λ p. p.1 ≤ length (drop at src.now)) }
        ensures first { IfSome result
            (λ p. IsReplacedCharAt (prefix_rule (prefix self)) 0 src.now at p.1 p.0) }
    {
        let _bytes = src;
        let _place = (self, at);
        None
    }

    /// Returns whether sequences after a malformed one are put out one by one (`replaced_at`).
    ///
    /// The output is the same either way.
    fn replaces_each() -> bool;

    /// Returns whether some byte is a valid sequence by itself.
    fn has_bytes(self) -> bool
        ensures some { IsTrue result → ¬ (HasNoByteSequences (prefix_rule (prefix self))) }
        ensures none { IsFalse result → HasNoByteSequences (prefix_rule (prefix self)) };

    /// Returns the formulas for lengths to allocate.
    fn lengths(self) -> TextLengths
        ensures formulas { result ≡ lengths }
        ensures enough { AreEnoughForCodec lengths
            (prefix_state (prefix self) (bytes_of_pending (waiting self))) };
}

/// Returns a valid sequence, with or without the byte that determines it.
#[inline(always)]
fn complete<C>(text: Text, len: u8, takes_byte: bool, next: C) -> Emission<C>
    ensures { result ≡ record {
      text = text;
      kind = Kind.Valid;
      len = len;
      takes_byte = takes_byte;
      next = next;
    } }
{
    Emission {
        text,
        kind: Kind::Valid,
        len,
        takes_byte,
        next,
    }
}

/// Returns a malformed sequence, with or without the byte that determines it.
#[inline(always)]
fn malformed<C>(len: u8, takes_byte: bool, next: C) -> Emission<C>
    ensures { result ≡ record {
      text = Text.One 0xFFFD;
      kind = Kind.Malformed;
      len = len;
      takes_byte = takes_byte;
      next = next;
    } }
{
    Emission {
        text: Text::One('\u{FFFD}'),
        kind: Kind::Malformed,
        len,
        takes_byte,
        next,
    }
}

/// Returns the sequence that the pending bytes determine by themselves. `None` if all of them are
/// an incomplete prefix.
#[inline(always)]
fn shown_first<C: PrefixCodec>(codec: C) -> Option<Emission<C>>
    ensures shown { IfSome result (λ shown. IsNextOfPending
        (λ d. prefix_state (C.prefix d) (bytes_of_pending (C.waiting d))) codec (Some shown)) }
    ensures incomplete { IsNone result →
        AreIncomplete (C.prefix codec) [] (bytes_of_pending (C.waiting codec)) }
    ensures lawful { ArePrefixes (C.prefix codec) }
    ensures leaves { C.leaves_others ≡ false → LeavesIncomplete (C.prefix codec) }
{
    codec.laws();
    if !C::leaves_others() {
        return None;
    }
    let pending = codec.waiting();
    let mut front = Pending::Nothing;
    let mut rest = pending;
    while let Some(byte) = rest.first() {
        match codec.classify(front, byte) {
            Prefix::Complete(text) => {
                let len = front.len() + 1;
                let next = codec.with_waiting(pending.skip(len));
                return Some(complete(text, len, false, next));
            }
            Prefix::Malformed(len) => {
                let next = codec.with_waiting(pending.skip(len));
                return Some(malformed(len, false, next));
            }
            Prefix::Incomplete => {
                front = front.with(byte);
                rest = rest.skip(1);
            }
        }
    }
    None
}

/// Returns the effect of a byte after an incomplete prefix, which is pending.
///
/// Where the number of pending bytes is known, so are most values of it.
#[inline(always)]
fn step_after<C: PrefixCodec>(codec: C, pending: Pending, byte: u8) -> HandlerResult<C>
    requires waiting { pending ≡ C.waiting codec }
    requires incomplete { AreIncomplete (C.prefix codec) []
        (bytes_of_pending (C.waiting codec)) }
    requires lawful { ArePrefixes (C.prefix codec) }
    requires leaves { C.leaves_others ≡ false → LeavesIncomplete (C.prefix codec) }
    ensures { HandlesByte (λ d. prefix_state (C.prefix d) (bytes_of_pending (C.waiting d))) codec
        byte result }
{
    match codec.classify(pending, byte) {
        Prefix::Complete(text) => {
            let next = codec.with_waiting(Pending::Nothing);
            HandlerResult::Emit(complete(text, pending.len() + 1, true, next))
        }
        Prefix::Malformed(len) => {
            let takes_byte = len > pending.len();
            let next = codec.with_waiting(pending.skip(len));
            HandlerResult::Emit(malformed(len, takes_byte, next))
        }
        Prefix::Incomplete => HandlerResult::Continue(codec.with_waiting(pending.with(byte))),
    }
}

impl<C: PrefixCodec> ByteCodec for C {
    ghost use Rattle.enc_decoder.specs.Pending.{bytes_of_pending};
    ghost use Rattle.enc_decoder.specs.Prefixes.{prefix_state};

    ghost state = { λ d. prefix_state (C.prefix d) (bytes_of_pending (C.waiting d)) };

    #[inline(always)]
    fn take_run<U: Units>(self, src: &[u8], out: &mut U) -> (C, usize) {
        match self.waiting() {
            Pending::Nothing => (self, self.put_front(src, out)),
            _ => (self, 0),
        }
    }

    #[inline(always)]
    fn replaces_each() -> bool {
        C::replaces_each()
    }

    #[inline(always)]
    fn replaced_char(self, src: &[u8], at: usize) -> Option<(char, usize)> {
        self.replaced_at(src, at)
    }

    #[inline(always)]
    fn latin1_run(self, src: &[u8]) -> usize {
        self.latin1_front(src)
    }

    fn next_step(self, byte: u8) -> HandlerResult<C> {
        if let Some(shown) = shown_first(self) {
            return HandlerResult::Emit(shown);
        }
        match self.waiting() {
            Pending::Nothing => step_after(self, Pending::Nothing, byte),
            Pending::One(first) => step_after(self, Pending::One(first), byte),
            Pending::Two(first, second) => step_after(self, Pending::Two(first, second), byte),
            Pending::Three(first, second, third) => {
                step_after(self, Pending::Three(first, second, third), byte)
            }
        }
    }

    fn ready(self) -> Option<Emission<C>> {
        shown_first(self)
    }

    /// An incomplete prefix is malformed as a whole.
    fn at_end(self) -> Option<Emission<C>> {
        if let Some(shown) = shown_first(self) {
            return Some(shown);
        }
        match self.waiting() {
            Pending::Nothing => None,
            pending => {
                let next = self.with_waiting(Pending::Nothing);
                Some(malformed(pending.len(), false, next))
            }
        }
    }

    fn held(self) -> u8 {
        self.waiting().len()
    }
}

impl<C: PrefixCodec> RawDecoder for C {
    ghost use Rattle.enc_decoder.specs.Pending.{bytes_of_pending};
    ghost use Rattle.enc_decoder.specs.Prefixes.{prefix_state};

    ghost state = { λ d. prefix_state (C.prefix d) (bytes_of_pending (C.waiting d)) };

    ghost formulas = { λ _. C.lengths };

    #[inline(always)]
    fn decode<U: Units>(
        &mut self,
        src: &[u8],
        out: &mut U,
        options: CallOptions,
    ) -> DecoderOutcome {
        self.laws();
        run(self, src, out, options)
    }

    fn held(&self) -> usize {
        ByteCodec::held(*self) as usize
    }

    fn latin1_byte_compatible_up_to(&self, bytes: &[u8]) -> Option<usize> {
        if !self.has_bytes() {
            return None;
        }
        latin1_up_to(*self, bytes)
    }

    fn text_lengths(&self) -> TextLengths {
        self.lengths()
    }
}
