//! The calls that decode a whole input.

use crate::decoding::Subject;
use crate::encoding::encoding_of;
use crate::fault::RowFault;
use crate::words::{Words, choice};
use conformance_calls::one_shot::lend;
use encoding_rs::Encoding;
use encoding_rs::run::BomHandling;
use std::alloc::Global;
use std::borrow::CowStr;
use std::test::Fail;
use test_support::decoding::{Mode, compare_strict, decode_at_once};

/// What a row wants of the calls.
#[derive(Clone, Copy)]
struct Whole<'a> {
    bytes: &'a [u8],
    text: &'a str,
    used: Encoding,
    had_errors: bool,
    /// Whether the text is lent, if the row says so.
    is_lent: Option<bool>,
}

/// Fails with the name of an encoding unless something holds.
fn expect(holds: bool, what: &'static str, encoding: Encoding) -> Result<(), RowFault> {
    if holds {
        return Ok(());
    }
    let name = encoding.name();
    Err(Fail::new(format_args!("{what}: {name}")).into())
}

/// Whether a text is the one that is wanted.
fn is_text(text: &str, want: &str) -> bool {
    text == want
}

/// Whether a text is borrowed.
fn is_borrowed(text: &CowStr<'_>) -> bool {
    match text {
        CowStr::Borrowed(_) => true,
        CowStr::Owned(_) => false,
    }
}

/// Compares the text of a lending call, and whether it is lent.
fn compare_lent(text: &CowStr<'_>, encoding: Encoding, want: &Whole<'_>) -> Result<(), RowFault> {
    expect(is_text(text, want.text), "another lent text", encoding)?;
    match want.is_lent {
        Some(is_lent) => expect(is_borrowed(text) == is_lent, "lent or owned", encoding),
        None => Ok(()),
    }
}

/// Makes the call that lends, with replacement or without, and compares its answer.
fn lend_whole(
    alloc: Global,
    (encoding, handling): Mode,
    replaces: bool,
    want: &Whole<'_>,
) -> Result<(), RowFault> {
    match lend(alloc, encoding, (handling, replaces), want.bytes) {
        Ok((text, used, had_errors)) => {
            let is_used = used == want.used;
            expect(is_used, "another encoding of a lent text", encoding)?;
            let is_same = had_errors == want.had_errors;
            expect(is_same, "malformed or not, of a lent text", encoding)?;
            match text {
                Some(text) => compare_lent(&text, encoding, want),
                None => expect(!replaces && want.had_errors, "no text", encoding),
            }
        }
        Err(error) => Err(error.into()),
    }
}

/// Makes each call that decodes a whole input in a mode.
fn compare(alloc: Global, mode: Mode, want: &Whole<'_>) -> Result<(), RowFault> {
    let (encoding, handling) = mode;
    let (text, used, had_errors) = decode_at_once(alloc, mode, want.bytes)?;
    expect(is_text(&text, want.text), "another text", encoding)?;
    expect(used == want.used, "another encoding", encoding)?;
    expect(had_errors == want.had_errors, "malformed or not", encoding)?;
    lend_whole(alloc, mode, true, want)?;
    match handling {
        BomHandling::Off => {
            let answer = (want.text.as_bytes(), want.had_errors);
            compare_strict(alloc, (encoding, want.bytes), answer)?;
            lend_whole(alloc, mode, false, want)
        }
        BomHandling::Sniff | BomHandling::Remove => Ok(()),
    }
}

/// Makes the calls of `BYTES TEXT NAME malformed|- [lent|owned]` in each encoding.
pub(crate) fn run_whole(
    alloc: Global,
    (subjects, handling): (&[Subject], BomHandling),
    words: &mut Words<'_>,
) -> Result<(), RowFault> {
    let (bytes, text) = (words.bytes(alloc)?, words.text(alloc)?);
    let used = encoding_of(words.word()?)?;
    let had_errors = choice(words.word()?, ("malformed", "-"))?;
    let is_lent = if words.has_more() {
        Some(choice(words.word()?, ("lent", "owned"))?)
    } else {
        None
    };
    words.end()?;
    let want = Whole {
        bytes: &bytes,
        text: &text,
        used,
        had_errors,
        is_lent,
    };
    for Subject { encoding, .. } in subjects {
        compare(alloc, (*encoding, handling), &want)?;
    }
    Ok(())
}
