//! Runs of calls that change code units, error mode, chunk and room from one to the next.

use crate::cases::{Case, expect, expect_bytes};
use crate::decoding::rows::{Input, split};
use crate::decoding::runs::{Use, run_whole};
use encoding_rs::Encoding;
use encoding_rs::run::{DecodeCall, DecodeReport, decode_run};
use std::alloc::{AllocError, Global};
use std::test::Fail;

/// Returns `count` calls. Code units take turns by two, error modes by three, chunks by five and
/// rooms by seven, so that each meets each. Without `replaces` all report malformed sequences.
fn mixed_calls(alloc: Global, count: usize, replaces: bool) -> Result<Vec<DecodeCall>, AllocError> {
    let mut calls = Vec::new(alloc);
    for number in 0..count {
        calls.push(DecodeCall {
            utf16: number % 2 == 1,
            replace: replaces && number % 3 == 1,
            offer: number % 5,
            room: number % 7,
        })?;
    }
    Ok(calls)
}

/// A list of malformed sequences, without the first if that is this one.
fn without<'a>(faults: &'a [(usize, usize)], place: (usize, usize)) -> &'a [(usize, usize)] {
    match faults.split_first() {
        Some((first, rest)) if *first == place => rest,
        _ => faults,
    }
}

/// The malformed sequences that were reported are some of the input's, in order.
fn compare_faults(
    faults: &[(usize, usize)],
    input: &Input<'_>,
    case: &Case<'_>,
) -> Result<(), Fail> {
    let mut to_come = faults;
    for place in input.malformed {
        to_come = without(to_come, *place);
    }
    expect(to_come.is_empty(), "malformed sequences elsewhere", case)
}

/// A report is that of the whole input, with all of its malformed sequences if it `has_all`.
fn compare_report(
    report: &DecodeReport,
    encoding: Encoding,
    input: &Input<'_>,
    has_all: bool,
    case: &Case<'_>,
) -> Result<(), Fail> {
    expect(report.finished, "not finished", case)?;
    expect_bytes(report.text.as_bytes(), input.text, "another text", case)?;
    expect(report.read == input.bytes.len(), "not all is read", case)?;
    let is_malformed = !input.malformed.is_empty();
    expect(report.had_errors == is_malformed, "errors or none", case)?;
    expect(report.encoding == encoding, "another encoding", case)?;
    compare_faults(&report.faults, input, case)?;
    let has_each = report.faults.as_slice() == input.malformed;
    expect(has_each || !has_all, "malformed sequences missing", case)
}

/// Compares the calls with the whole input, with all of its malformed sequences if they are to have
/// all. The first seven calls come to a prefix of it.
fn compare_calls(
    alloc: Global,
    (way, by): (Use, Encoding),
    input: &Input<'_>,
    (calls, has_all): (&[DecodeCall], bool),
) -> Result<(), Fail> {
    let case = Case {
        name: way.encoding.name(),
        input: input.bytes,
        room: 0,
    };
    let report = decode_run(alloc, way.encoding, way.handling, input.bytes, calls)?;
    compare_report(&report, by, input, has_all, &case)?;
    let (first, _) = split(calls, 7);
    let begun = decode_run(alloc, way.encoding, way.handling, input.bytes, first)?;
    expect(begun.finished || begun.calls == 7, "calls not made", &case)?;
    let is_prefix = input.text.starts_with(begun.text.as_bytes());
    expect(is_prefix, "no prefix of the text", &case)?;
    compare_faults(&begun.faults, input, &case)
}

/// Compares runs of mixed calls, which begin at several offsets of the pattern, with the whole
/// input.
pub fn compare_mixed(alloc: Global, way: Use, input: &Input<'_>) -> Result<(), Fail> {
    let by = run_whole(alloc, way, input.bytes)?.encoding;
    let count = input.bytes.len().saturating_mul(6).saturating_add(64);
    let calls = mixed_calls(alloc, count, true)?;
    for first in 0..4 {
        let (_, rest) = split(&calls, first);
        compare_calls(alloc, (way, by), input, (rest, false))?;
    }
    let calls = mixed_calls(alloc, count, false)?;
    compare_calls(alloc, (way, by), input, (&calls, true))
}
