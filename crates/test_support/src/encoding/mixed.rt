//! Runs of an encoder whose calls change code units, error mode, chunk and room from one to the
//! next, or get one or two characters each.

use crate::cases::{expect, expect_bytes};
use crate::encoding::runs::{Encoded, case_of};
use crate::encoding::ways::Asked;
use encoding_rs::Encoding;
use encoding_rs::run::{EncodeCall, EncodeReport, encode_run_barring};
use std::alloc::{AllocError, Global};
use std::test::Fail;

/// The room of calls that are alike: that of any character, and the bytes kept back.
const ROOM: usize = 14;

/// Returns `count` calls. Code units take turns by two, error modes by three, chunks by five and
/// rooms by thirteen, from 8 on, so that each meets each.
fn mixed_calls(alloc: Global, count: usize) -> Result<Vec<EncodeCall>, AllocError> {
    let mut calls = Vec::new(alloc);
    for number in 0..count {
        calls.push(EncodeCall {
            utf16: number % 2 == 1,
            replace: number % 3 == 1,
            offer: number % 5,
            room: (number % 13).saturating_add(8),
        })?;
    }
    Ok(calls)
}

/// Encodes a text by these calls, which have to write all of it.
fn compare_run(
    alloc: Global,
    (encoding, barred): Asked,
    row: Encoded<'_>,
    calls: &[EncodeCall],
) -> Result<EncodeReport, Fail> {
    if !Encoding::barred_ok(barred) {
        return Err(Fail::new("an ASCII character is barred"));
    }
    let report = encode_run_barring(alloc, encoding, barred, row.0, calls)?;
    let case = case_of((encoding, barred), row.0, ROOM);
    expect(report.finished, "a run has room and does not finish", &case)?;
    expect_bytes(&report.bytes, row.1, "a run", &case)?;
    let is_read = report.read == row.0.chars().count();
    expect(is_read, "a run reads another number of characters", &case)?;
    Ok(report)
}

/// Encodes a text by runs of calls that are alike, of each kind. With replacement none reports a
/// character.
fn compare_alike(alloc: Global, asked: Asked, row: Encoded<'_>) -> Result<(), Fail> {
    let count = row.0.chars().count().saturating_mul(2).saturating_add(2);
    for number in 0..8_usize {
        let call = EncodeCall {
            utf16: number % 2 == 1,
            replace: number % 4 < 2,
            offer: (number / 4).saturating_add(1),
            room: ROOM,
        };
        let calls = vec![in alloc; call; count]?;
        let report = compare_run(alloc, asked, row, &calls)?;
        let is_silent = report.unmappables.is_empty() || !call.replace;
        let case = case_of(asked, row.0, ROOM);
        expect(
            is_silent,
            "a call with replacement reports a character",
            &case,
        )?;
    }
    Ok(())
}

/// Encodes a text by runs of calls of each kind, and by calls that change, from each of the first
/// six on.
pub(crate) fn compare_mixed(alloc: Global, asked: Asked, row: Encoded<'_>) -> Result<(), Fail> {
    compare_alike(alloc, asked, row)?;
    let count = row.0.chars().count().saturating_mul(4).saturating_add(60);
    let calls = mixed_calls(alloc, count)?;
    for first in 0..6 {
        let (_, rest) = calls.split_at(first.min(calls.len()));
        compare_run(alloc, asked, row, rest)?;
    }
    Ok(())
}
