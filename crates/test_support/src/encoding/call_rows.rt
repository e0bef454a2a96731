//! Single calls, each with its answer and its bytes.

use crate::cases::{Case, expect};
use crate::encoding::calls::{Answer, Input, Offer, call_to_slice, compare_answer, make_call};
use crate::encoding::ways::Way;
use encoding_rs::Encoder;
use std::alloc::Global;
use std::test::Fail;

/// The answer that a call has to have, and its bytes with their number.
#[derive(Clone, Copy)]
pub struct Wanted<'a> {
    /// The answer.
    pub answer: Answer,
    /// The number of bytes written.
    pub written: usize,
    /// The bytes written.
    pub bytes: &'a [u8],
}

/// Code units of UTF-16, which may be unpaired surrogates, and the other arguments of a call.
#[derive(Clone, Copy)]
pub struct Units<'a> {
    /// The code units.
    pub units: &'a [u16],
    /// Whether the text ends here.
    pub last: bool,
    /// The room for output, in bytes.
    pub room: usize,
}

/// Compares a call's answer and its bytes with those that are wanted.
fn compare_wanted(
    (answer, bytes): (Answer, &[u8]),
    want: &Wanted<'_>,
    what: &'static str,
    case: &Case<'_>,
) -> Result<(), Fail> {
    compare_answer((answer, bytes), (want.answer, want.bytes), what, case)?;
    let is_written = bytes.len() == want.written;
    expect(is_written, "a call writes another number of bytes", case)
}

/// Makes a call, and compares it.
pub fn compare_call(
    alloc: Global,
    (encoder, way): (&mut Encoder, Way),
    offer: &Offer<'_>,
    want: &Wanted<'_>,
) -> Result<(), Fail> {
    let case = Case {
        name: encoder.encoding().name(),
        input: offer.text.as_bytes(),
        room: offer.room,
    };
    let mut bytes = Vec::new(alloc);
    let answer = make_call(alloc, encoder, way, offer, &mut bytes)?;
    compare_wanted((answer, &bytes), want, way.name(), &case)
}

/// Makes a call from code units of UTF-16, and compares it.
pub fn compare_units(
    alloc: Global,
    (encoder, replaces): (&mut Encoder, bool),
    given: &Units<'_>,
    want: &Wanted<'_>,
) -> Result<(), Fail> {
    let text = String::from_utf16_lossy(alloc, given.units)?;
    let case = Case {
        name: encoder.encoding().name(),
        input: text.as_bytes(),
        room: given.room,
    };
    let input = (Input::Utf16(given.units), given.last);
    let mut bytes = Vec::new(alloc);
    let answer = call_to_slice(alloc, (encoder, replaces), input, given.room, &mut bytes)?;
    compare_wanted((answer, &bytes), want, "from UTF-16", &case)
}
