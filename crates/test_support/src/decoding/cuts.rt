//! Inputs through every cut and each small room, into each output.

use crate::cases::{Case, expect, expect_bytes};
use crate::decoding::lengths::compare_queried_rooms;
use crate::decoding::mixed::compare_mixed;
use crate::decoding::one_shot::compare_at_once;
use crate::decoding::outputs::{ALL_OUTPUTS, Output};
use crate::decoding::raw::compare_raw_cuts;
use crate::decoding::rows::{Cut, Input};
use crate::decoding::runs::{Run, Use, run_cut};
use crate::decoding::small_offers::compare_after_broken_marks;
use enc_decoder::RawDecoder;
use encoding_rs::Encoding;
use encoding_rs::run::BomHandling;
use std::alloc::Global;
use std::test::Fail;

/// The room, in code units of the output, in which an input reaches its end if it does in `room`
/// bytes of UTF-8.
fn room_enough(output: Output, room: usize) -> usize {
    if output != Output::Utf16 {
        return room;
    }
    if room > 3 {
        return 2;
    }
    room.min(1)
}

/// A finished run has all of the text, and an error exactly if something is malformed.
fn compare_finished(run: &Run, input: &Input<'_>, case: &Case<'_>) -> Result<(), Fail> {
    expect_bytes(&run.text, input.text, "another text", case)?;
    let is_malformed = !input.malformed.is_empty();
    expect(run.had_errors == is_malformed, "errors or none", case)
}

/// The malformed sequences were reported in order, each at its offset, and all of them in a
/// finished run.
fn compare_places(run: &Run, input: &Input<'_>, case: &Case<'_>) -> Result<(), Fail> {
    let reported = run.malformed.as_slice();
    let is_prefix = input.malformed.starts_with(reported);
    expect(is_prefix, "malformed sequences elsewhere", case)?;
    let has_all = reported.len() == input.malformed.len();
    expect(
        has_all || !run.is_finished,
        "malformed sequences missing",
        case,
    )
}

/// The text of a run is a prefix of the input's, and all of it if there is room enough.
fn compare(run: &Run, way: Use, input: &Input<'_>, room: usize) -> Result<(), Fail> {
    let case = Case {
        name: way.encoding.name(),
        input: input.bytes,
        room,
    };
    expect(
        input.text.starts_with(&run.text),
        "no prefix of the text",
        &case,
    )?;
    expect(run.is_finished != run.is_stuck, "stuck or finished", &case)?;
    let ends = way.widens || room >= room_enough(way.output, input.room);
    expect(run.is_finished || !ends, "not finished", &case)?;
    if run.is_finished {
        compare_finished(run, input, &case)?;
    }
    if way.reporting {
        compare_places(run, input, &case)?;
    }
    Ok(())
}

/// Runs an input cut in this way.
fn compare_cut(
    alloc: Global,
    way: Use,
    input: &Input<'_>,
    cut: Cut,
    room: usize,
) -> Result<(), Fail> {
    let run = run_cut(alloc, way, input.bytes, cut, room)?;
    compare(&run, way, input, room)
}

/// Runs an input through every cut, or, if not `wide`, uncut, in single bytes, and cut in the
/// middle.
fn compare_each_cut(
    alloc: Global,
    (way, wide): (Use, bool),
    input: &Input<'_>,
    room: usize,
) -> Result<(), Fail> {
    compare_cut(alloc, way, input, Cut::Nowhere, room)?;
    compare_cut(alloc, way, input, Cut::Everywhere, room)?;
    if !wide {
        return compare_cut(alloc, way, input, Cut::At(input.bytes.len() / 2), room);
    }
    for place in 0..input.bytes.len().saturating_add(1) {
        compare_cut(alloc, way, input, Cut::At(place), room)?;
    }
    Ok(())
}

/// The runs of an input into other outputs than UTF-8.
#[derive(Clone, Copy, PartialEq, Eq)]
pub enum Others {
    /// Not at all.
    No,
    /// Through few cuts, with less than four code units of room.
    Few,
    /// As into UTF-8.
    All,
}

/// The rooms below this go through every cut, and the others through few.
const CUT_ROOMS: usize = 5;

/// Runs an input into one output with each room below `rooms`, with and without replacement.
fn compare_output(
    alloc: Global,
    (way, wide): (Use, bool),
    input: &Input<'_>,
    rooms: usize,
) -> Result<(), Fail> {
    for reporting in [false, true] {
        let way = Use { reporting, ..way };
        for room in 0..rooms {
            let wide = wide && room < CUT_ROOMS;
            compare_each_cut(alloc, (way, wide), input, room)?;
        }
    }
    Ok(())
}

/// Runs an input with each room below `rooms`, with and without replacement: into UTF-8 through
/// every cut, and into the other outputs by `others`; through one-shot calls; and in the rooms of
/// length queries.
pub fn compare_uses(
    alloc: Global,
    (way, others): (Use, Others),
    input: &Input<'_>,
    rooms: usize,
) -> Result<(), Fail> {
    compare_at_once(alloc, way, input)?;
    compare_queried_rooms(alloc, way, input)?;
    for output in ALL_OUTPUTS {
        let way = Use { output, ..way };
        if output == Output::Utf8 || others == Others::All {
            compare_output(alloc, (way, true), input, rooms)?;
        } else if others == Others::Few {
            compare_output(alloc, (way, false), input, rooms.min(4))?;
        }
    }
    Ok(())
}

/// Runs an input through cuts, with rooms 0 to 9, with and without replacement, into all outputs,
/// and through runs of mixed calls.
pub fn compare_cuts_of(
    alloc: Global,
    (way, others): (Use, Others),
    input: &Input<'_>,
) -> Result<(), Fail> {
    compare_uses(alloc, (way, others), input, 10)?;
    compare_mixed(alloc, way, input)
}

/// Runs an input through every cut and room, by the encoding and by a new decoder of it by itself,
/// and in single bytes after byte order marks that break off.
pub fn compare_input(
    alloc: Global,
    (encoding, decoder): (Encoding, impl RawDecoder),
    others: Others,
    input: &Input<'_>,
) -> Result<(), Fail> {
    let way = Use::new(encoding, BomHandling::Off);
    compare_cuts_of(alloc, (way, others), input)?;
    compare_raw_cuts(alloc, (encoding.name(), decoder), input)?;
    compare_after_broken_marks(alloc, encoding, input.bytes)
}
