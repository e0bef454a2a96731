//! What the arguments ask for, and why they may ask for nothing.

ghost use Rattle.std.specs.Prelude.{◌≢◌, ◌↔◌, IsTrue, IfSome, IfNone, IfOk, IfErr, Some};
ghost use Rattle.enc_stream.specs.declared.constants.TheConstants.{ISO_2022_JP};
ghost use Rattle.recode_part.specs.Numbers.{IsNumber, IsNoNumber};
ghost use Rattle.recode_part.specs.Parts.{NamesPart, NamesNoPart, IsBound, HasNoBound};
ghost use Rattle.recode_part.specs.Tasks.{IsTask, IsRefused};
ghost use Rattle.recode_part.specs.Refusals.{refusal_text};

use enc_stream::Encoding;
use enc_stream::constants::ISO_2022_JP;
use recode_engine::{BomHandling, labels};
use std::fmt;

/// The arguments.
#[derive(Drop)]
pub(crate) struct Arguments {
    pub(crate) from: String,
    pub(crate) to: String,
    pub(crate) part: String,
    pub(crate) length: Option<String>,
}

/// What the arguments ask for.
#[derive(Drop)]
pub(crate) struct Task {
    pub(crate) from: Encoding,
    pub(crate) to: Encoding,
    pub(crate) handling: BomHandling,
    /// The most bytes to read, if there is a bound.
    pub(crate) length: Option<u64>,
}

/// Why there is nothing to run.
#[derive(Drop)]
pub(crate) enum Refusal {
    Usage,
    Label,
    Part,
    Length,
    /// A part in this encoding may depend on the bytes before it.
    Whole(Encoding),
}

impl fmt::Display for Refusal {
    ghost output = { λ refusal. Some (refusal_text refusal) };

    /// Writes the reason: a phrase without a full stop.
    fn fmt<W: fmt::Write>(&self, f: &mut fmt::Formatter<W>) -> fmt::Result {
        match self {
            Refusal::Usage => f.write_str("usage: recode_part FROM TO PART [LENGTH]"),
            Refusal::Label => f.write_str("unknown label"),
            Refusal::Part => f.write_str("PART is not a number from 1"),
            Refusal::Length => f.write_str("LENGTH is not a number"),
            Refusal::Whole(encoding) => {
                f.write_str("a part in ")?;
                f.write_str(encoding.name())?;
                f.write_str(" may depend on the bytes before it")
            }
        }
    }
}

/// Returns the number that a word is, if it is a number below 2^64.
fn number(word: &str) -> Option<u64>
    ensures some { IfSome result (λ n. IsNumber word.now n) }
    ensures none { IfNone result (IsNoNumber word.now) }
{
    word.parse::<u64>().ok()
}

/// Returns the byte order marks to look for in a part, by its number, which counts from 1.
pub(crate) fn handling(part: &str) -> Option<BomHandling>
    ensures some { IfSome result (λ handling. NamesPart part.now handling) }
    ensures none { IfNone result (NamesNoPart part.now) }
{
    match number(part) {
        None | Some(0) => None,
        Some(1) => Some(BomHandling::Remove),
        Some(_) => Some(BomHandling::Off),
    }
}

/// Returns the most bytes to read, or `None` within `Some` for no bound.
pub(crate) fn bound(length: &Option<String>) -> Option<Option<u64>>
    ensures some { IfSome result (λ bound. IsBound length.now bound) }
    ensures none { IfNone result (HasNoBound length.now) }
{
    match length {
        Some(length) => number(length.as_str()).map(Some),
        None => Some(None),
    }
}

/// Returns whether a text can be written in parts: its bytes are those of its parts.
fn is_written_in_parts(to: Encoding) -> bool
    ensures { IsTrue result ↔ (to ≢ ISO_2022_JP) }
{
    to != ISO_2022_JP
}

/// Returns what the arguments ask for, or the first reason against it.
pub(crate) fn task_of(words: &Arguments) -> Result<Task, Refusal>
    ensures task { IfOk result (λ task. IsTask words.now task) }
    ensures refusal { IfErr result (λ refusal. IsRefused words.now refusal) }
{
    let Some((from, to)) = labels(words.from.as_str(), words.to.as_str()) else {
        return Err(Refusal::Label);
    };
    let Some(handling) = handling(words.part.as_str()) else {
        return Err(Refusal::Part);
    };
    let Some(length) = bound(&words.length) else {
        return Err(Refusal::Length);
    };
    if !from.line_feeds_divide() {
        return Err(Refusal::Whole(from));
    }
    if !is_written_in_parts(to) {
        return Err(Refusal::Whole(to));
    }
    Ok(Task {
        from,
        to,
        handling,
        length,
    })
}
