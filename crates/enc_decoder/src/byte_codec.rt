//! Decoders that take one byte at a time.

ghost use Rattle.std.specs.Prelude.{◌≡◌, ◌<◌, ◌≤◌, [], length, take, drop, IfSome, IsTrue};
ghost use Rattle.enc_decoder.specs.CodecState.{CodecState};
ghost use Rattle.enc_decoder.specs.CodecLaw.{HandlesByte, IsNextOfPending, IsNextAtEnd, lone_fault};
ghost use Rattle.enc_decoder.specs.Latin1.{AreLatin1Bytes};
ghost use Rattle.enc_decoder.specs.Taking.{TakesRun, TakesSequences, SkipsEnd, IsReplacedCharAt};
ghost use Rattle.enc_decoder.specs.declared.byte_codec.HandlerResult.TheVariants as steps;
ghost use Rattle.enc_decoder.specs.Sequence.{is_malformed as malformed_kind};

use enc_output::Units;

/// The kind of a sequence.
#[derive(Clone, Copy, PartialEq, Eq, Debug)]
pub enum Kind {
    /// One or two characters.
    Valid,
    /// It has no text, as an escape sequence.
    Skipped,
    /// Its text is U+FFFD.
    Malformed,
    /// An escape sequence that another one directly follows. Its text is U+FFFD. The last byte of
    /// the other determines it, and is read with it.
    RepeatedEscape,
}

impl Kind {
    /// Returns whether its text is U+FFFD.
    pub fn is_malformed(self) -> bool
        ensures { result ≡ malformed_kind self }
    {
        match self {
            Kind::Valid => false,
            Kind::Skipped => false,
            Kind::Malformed => true,
            Kind::RepeatedEscape => true,
        }
    }
}

/// The text of a sequence.
#[derive(Clone, Copy)]
pub enum Text {
    /// None.
    Nothing,
    /// One character.
    One(char),
    /// Two characters.
    Two(char, char),
}

/// The next sequence, which is determined.
#[derive(Clone, Copy)]
pub struct Emission<C> {
    pub text: Text,
    pub kind: Kind,
    /// Its length in bytes.
    pub len: u8,
    /// Whether the byte that determines it is read with it.
    pub takes_byte: bool,
    /// The state after it.
    pub next: C,
}

/// The effect of a byte.
#[derive(Clone, Copy)]
pub enum HandlerResult<C> {
    /// It is read, and no sequence is determined yet.
    Continue(C),
    /// It determines a sequence.
    Emit(Emission<C>),
}

/// A decoder as a value that takes one byte at a time.
///
/// It has a rule, the designated character set, and the pending bytes (read, and their sequence not
/// yet determined).
pub trait ByteCodec: Copy {
    // its rule, the designated character set, and the pending bytes
    ghost state: { Self → CodecState };

    /// Takes whole sequences from the front of `src`, none of them malformed.
    ///
    /// Puts out their text, and returns the state after them and their length in bytes. It may take
    /// any number of them, and none.
    fn take_run<U: Units>(self, src: &[u8], out: &mut U) -> (Self, usize)
        ensures { TakesRun U.units_of state self result.0 src.now result.1 (U.output out.old)
            (U.output out.new) }
    {
        let _bytes = src;
        let _output = out;
        (self, 0)
    }

    /// Returns the state after `src`, if nothing follows and its bytes are skipped.
    ///
    /// `None` says nothing. It is called after a run, since a text may end with bytes that have no
    /// text.
    #[inline(always)]
    fn take_end(self, src: &[u8]) -> Option<Self>
        ensures { IfSome result (λ next. SkipsEnd (state self) (state next) src.now) }
    {
        let _end = (self, src.len());
        None
    }

    /// Returns the length of a prefix of `src` in which each byte is the character with its number,
    /// a sequence by itself, with this state after it. Condition: nothing is pending.
    ///
    /// It need not be the longest, and may be 0.
    #[inline(always)]
    fn latin1_run(self, src: &[u8]) -> usize
        requires none_pending { (state self).pending ≡ [] }
        ensures within { result ≤ length src.now }
        ensures latin1 { AreLatin1Bytes (state self).rule (state self).set (take result src.now) }
    {
        let _bytes = (self, src.len());
        0
    }

    /// Returns whether the next byte is malformed by itself, with this state after it.
    ///
    /// False says nothing.
    ///
    /// It is called first, since such bytes are many if the input is no text of the encoding.
    #[inline(always)]
    fn is_lone_fault(self, byte: u8) -> bool
        ensures { IsTrue result → HandlesByte state self byte (steps.Emit (lone_fault self)) }
    {
        let _byte = (self, byte);
        false
    }

    /// Returns whether sequences after a malformed one are put out one by one (`replaced_char`),
    /// and not in a run (`replace_run`).
    ///
    /// The output is the same either way.
    #[inline(always)]
    fn replaces_each() -> bool {
        false
    }

    /// Takes whole sequences from the front of `src`, with U+FFFD for each malformed one.
    ///
    /// Puts out their text and returns their length in bytes. The state is the same after them. It
    /// may take any number of them, and none: all while bytes are pending. It is called after a
    /// malformed sequence, since more of them follow if the input is no text of the encoding.
    #[inline(always)]
    fn replace_run<U: Units>(self, src: &[u8], out: &mut U) -> usize
        ensures { TakesSequences U.units_of (state self) (state self) src.now result
            (U.output out.old) (U.output out.new) }
    {
        let _codec = self;
        let _bytes = src;
        let _output = out;
        0
    }

    /// Returns the text of the sequence that begins at `at`, if nothing is pending there, and its
    /// length in bytes, at least one.
    ///
    /// The text of a malformed one is U+FFFD. `None` if it is not one character, if it designates
    /// another character set, or if more than the byte after it is needed to determine it. It may
    /// be `None` for any other too.
    #[inline(always)]
    fn replaced_char(self, src: &[u8], at: usize) -> Option<(char, usize)>
        requires within { at < length src.now }
        ensures some { IfSome result (λ p. 0 < p.1) }
        ensures within { IfSome result (λ p. p.1 ≤ length (drop at src.now)) }
        ensures first { IfSome result
            (λ p. IsReplacedCharAt (state self).rule (state self).set src.now at p.1 p.0) }
    {
        let _bytes = src;
        let _place = (self, at);
        None
    }

    /// Returns the effect of the next byte.
    fn next_step(self, byte: u8) -> HandlerResult<Self>
        ensures { HandlesByte state self byte result };

    /// Returns the sequence that the pending bytes determine by themselves.
    fn ready(self) -> Option<Emission<Self>>
        ensures { IsNextOfPending state self result };

    /// Returns the sequence that the end of the input determines.
    fn at_end(self) -> Option<Emission<Self>>
        ensures { IsNextAtEnd state self result };

    /// Returns the number of pending bytes.
    fn held(self) -> u8
        ensures { result ≡ length (state self).pending };
}
