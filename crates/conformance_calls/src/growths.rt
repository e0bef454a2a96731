//! `conformance growths`: calls that are refused memory, each growth of each one-shot call and of
//! runs in turn.
//!
//! A line is the name of a call and a number N. The call is made such that its Nth growth is the
//! 40th of the program, if the line is the first and stands on standard input. `rt try --fail-alloc
//! 40` refuses that growth. The call returns `Memory` then, its input is unchanged, and when
//! repeated it has its outcome. After the call memory is taken once more. What was refused is added
//! to the line: `call`, `after` or `nothing`. With 0 for N nothing is refused.
//!
//! `scripts/refused-growths` tries all numbers. A call that does not have the outcome of its row
//! ends the program with status 1.

mod calls;
mod rows;

use calls::{Answer, Refusal, make};
use encoding_rs::Encoding;
use rows::{Call, EMPTY, NOTHING, Pattern, ROWS, Row};
use std::alloc::{AllocError, Global};
use std::borrow::CowSlice;
use std::io::{Read, Write};
use std::test::Fail;

/// The growth of the program that is refused.
const REFUSED: usize = 40;

/// The growths before the first call: those of the two arguments.
const BEFORE: usize = 4;

/// The greatest length of all lines, in bytes.
const LENGTH: usize = 1024;

/// Takes memory some times, and frees it.
fn grow(alloc: Global, times: usize) -> Result<(), AllocError> {
    for _ in 0..times {
        let _freed = Vec::<u8>::with_capacity(alloc, 1)?;
    }
    Ok(())
}

/// The length of a pattern, in bytes.
fn length_of((front, unit, units): &Pattern) -> usize {
    front
        .len()
        .saturating_add(unit.len().saturating_mul(*units))
}

/// The bytes of a pattern, in the last of some growths.
fn input_of(alloc: Global, pattern: &Pattern, growths: usize) -> Result<Vec<u8>, AllocError> {
    grow(alloc, growths.saturating_sub(1))?;
    let (front, unit, units) = *pattern;
    let mut bytes = Vec::with_capacity(alloc, length_of(pattern))?;
    bytes.extend_from_slice(front)?;
    for _ in 0..units {
        bytes.extend_from_slice(unit)?;
    }
    Ok(bytes)
}

/// Whether these bytes are those of the pattern, and no others.
fn is_pattern(bytes: &[u8], want: &Pattern) -> bool {
    let (front, unit, _) = *want;
    let Some(rest) = bytes.strip_prefix(front) else {
        return false;
    };
    for piece in rest.chunks(unit.len().max(1)) {
        if piece != unit {
            return false;
        }
    }
    bytes.len() == length_of(want)
}

/// Fails with `what` and the name of the row unless `holds`.
fn expect(holds: bool, what: &'static str, row: &Row) -> Result<(), Fail> {
    if holds {
        return Ok(());
    }
    let name = row.name;
    Err(Fail::new(format_args!("{name}: {what}")))
}

/// Compares the answer of a call with its row.
fn compare_answer(answer: Answer<'_>, row: &Row) -> Result<(), Fail> {
    let (output, used, is_faulty) = answer;
    expect(used == row.used, "another encoding is used", row)?;
    let is_same = is_faulty == row.is_faulty;
    expect(is_same, "faults are reported otherwise", row)?;
    let (is_lent, is_same) = match output {
        CowSlice::Borrowed(bytes) => (true, is_pattern(bytes, &row.output)),
        CowSlice::Owned(bytes) => (false, is_pattern(&bytes, &row.output)),
    };
    expect(is_same, "the output is not that of the row", row)?;
    expect(is_lent == row.is_lent, "only input may be lent", row)
}

/// Makes the call of a row after some growths, and once more if memory is refused to it. Returns
/// whether it was.
fn compare(alloc: Global, row: &Row, lends: bool, growths: usize) -> Result<bool, Fail> {
    let input = input_of(alloc, &row.input, growths)?;
    match make(alloc, row, lends, &input) {
        Ok(answer) => {
            compare_answer(answer, row)?;
            return Ok(false);
        }
        Err(Refusal::Memory) => (),
        Err(Refusal::Other(what)) => expect(false, what, row)?,
    }
    expect(is_pattern(&input, &row.input), "the input is changed", row)?;
    match make(alloc, row, lends, &input) {
        Ok(answer) => compare_answer(answer, row)?,
        Err(_) => expect(false, "the call fails once more", row)?,
    }
    Ok(true)
}

/// Makes the calls on empty inputs, which have no growth.
fn compare_empty_inputs(alloc: Global, growths: usize) -> Result<bool, Fail> {
    grow(alloc, growths)?;
    for (call, encoding, used) in EMPTY {
        let row = Row {
            name: "empty_inputs",
            call: *call,
            encoding: *encoding,
            input: NOTHING,
            output: NOTHING,
            used: *used,
            is_faulty: false,
            is_lent: false,
        };
        match make(alloc, &row, false, b"") {
            Ok(answer) => compare_answer(answer, &row)?,
            Err(_) => expect(false, "a call fails", &row)?,
        }
    }
    Ok(false)
}

/// Makes the call of this name after some growths. Returns whether memory was refused to it. With
/// `_lending` after the name of a row it is the call that lends.
fn compare_named(alloc: Global, name: &str, growths: usize) -> Result<bool, Fail> {
    if name == "empty_inputs" {
        return compare_empty_inputs(alloc, growths);
    }
    for row in ROWS {
        if name == row.name {
            return compare(alloc, row, row.is_lent, growths);
        }
        if name.strip_suffix("_lending") == Some(row.name) {
            return compare(alloc, row, true, growths);
        }
    }
    Err(Fail::new("no call has this name"))
}

/// Makes the call of a line, and returns what was refused.
fn refused(alloc: Global, name: &str, number: usize) -> Result<&'static str, Fail> {
    let growths = if number == 0 {
        1
    } else {
        (REFUSED - BEFORE).saturating_sub(number)
    };
    let is_refused = compare_named(alloc, name, growths)?;
    let is_refused_after = Vec::<u8>::with_capacity(alloc, 1).is_err();
    Ok(match (is_refused, is_refused_after) {
        (true, _) => "call",
        (false, true) => "after",
        (false, false) => "nothing",
    })
}

/// Makes the calls of all lines, and writes each line with what was refused.
pub fn run<R: Read, W: Write>(alloc: Global, input: &mut R, out: &mut W) -> Result<(), Fail> {
    let mut buffer = [0; LENGTH];
    let len = input.read(&mut buffer)?;
    for line in str::from_utf8(&buffer[..len])?.lines() {
        let Some((name, number)) = line.split_once(' ') else {
            return Err(Fail::new("a line has no number"));
        };
        let what = refused(alloc, name, number.parse()?)?;
        writeln!(out, "{line} {what}")?;
    }
    Ok(())
}
