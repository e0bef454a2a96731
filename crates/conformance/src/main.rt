//! Runs rows of conformance: `conformance FILE..`, or those of standard input if no file is named.
//! conformance/README.md describes them.
//!
//! It writes a line for each row that does not hold or that can't be read, with its file and its
//! line, and one for each file with the number of its rows. Why a row does not hold is written to
//! standard error. The exit status is 0 if all rows hold, and otherwise 1.
//!
//! After a word of `calls`, `web-platform`, `growths` and `rows` the files that follow it, or
//! standard input if none does, are for what the word names: the modules of these names in the
//! crate `conformance_calls`, and rows.
#![tactic(auto)]

mod among;
mod bytes;
mod decoding;
mod encoding;
mod fault;
mod held;
mod mode;
mod names;
mod queries;
mod repeat;
mod sums;
mod whole;
mod words;

use decoding::Decoding;
use encoding::Encoders;
use fault::RowFault;
use mode::{Mode, answer_questions, make_calls, refuse_growths};
use std::alloc::Global;
use std::env;
use std::fs::File;
use std::io::{self, Read};
use std::process::{ExitCode, Termination};
use std::test::Fail;
use words::{Unreadable, Words};

/// What the rows after a head are of.
#[derive(Drop)]
enum Section {
    /// No head was read before, or one that can't be read.
    None,
    Decoder(Decoding),
    Encoder(Encoders),
}

/// Runs a row.
fn run(alloc: Global, line: &str, section: &mut Section) -> Result<(), RowFault> {
    let mut words = Words::new(line);
    let name = words.word()?;
    if name == "decoder" {
        *section = Section::None;
        *section = Section::Decoder(Decoding::new(alloc, &mut words)?);
        return Ok(());
    }
    if name == "encoder" {
        *section = Section::None;
        *section = Section::Encoder(Encoders::new(alloc, &mut words)?);
        return Ok(());
    }
    if matches!(name, "encoding" | "label" | "mark" | "valid") {
        return names::run(alloc, name, &mut words);
    }
    match section {
        Section::None => Err(Unreadable::NoHead.into()),
        Section::Decoder(decoding) => decoding.run(alloc, name, &mut words),
        Section::Encoder(encoders) => encoders.run(alloc, name, &mut words),
    }
}

/// Writes why a row is named. A failed write is ignored.
fn write_fault(rt: &HostRuntime, (path, number): (&str, u64), fault: RowFault) {
    match fault {
        RowFault::Unreadable(reason) => {
            let reason = reason.text();
            let _ = println!(rt; "{path}:{number}: cannot be read: {reason}");
        }
        RowFault::Fails(fail) => {
            let _ = println!(rt; "{path}:{number}: does not hold");
            let _ = Err::<(), Fail>(fail).report(rt);
        }
    }
}

/// Runs the rows of a text. Returns their number, and that of those that were named.
fn run_rows(rt: &HostRuntime, path: &str, text: &str) -> (u64, u64) {
    let (mut number, mut rows, mut named) = (0_u64, 0_u64, 0_u64);
    let mut section = Section::None;
    for line in text.lines() {
        number = number.saturating_add(1);
        if line.is_empty() || line.starts_with('#') {
            continue;
        }
        rows = rows.saturating_add(1);
        if let Err(fault) = run(rt.alloc(), line, &mut section) {
            named = named.saturating_add(1);
            write_fault(rt, (path, number), fault);
        }
    }
    (rows, named)
}

/// Runs the rows of a text, and writes how many there are. Returns whether all hold.
fn run_text(rt: &HostRuntime, path: &str, text: &str) -> io::Result<bool> {
    let (rows, named) = run_rows(rt, path, text);
    println!(rt; "{path}: {rows} rows, {named} named")?;
    Ok(named == 0)
}

/// Runs a file or standard input. Returns whether all holds.
fn run_input<R: Read>(rt: &HostRuntime, mode: Mode, path: &str, input: &mut R) -> io::Result<bool> {
    match mode {
        Mode::Rows => {
            let mut text = String::new(rt.alloc());
            input.read_to_string(&mut text)?;
            return run_text(rt, path, text.as_str());
        }
        Mode::Calls => make_calls(rt, input)?,
        Mode::WebPlatform => answer_questions(rt, input)?,
        Mode::Growths => return Ok(refuse_growths(rt, input)),
    }
    Ok(true)
}

/// Runs each file that is named, and standard input if none is after the last word of a mode.
fn run_files(rt: &HostRuntime) -> io::Result<bool> {
    let (mut mode, mut holds, mut is_named) = (Mode::Rows, true, false);
    for word in env::args(rt)?.skip(1) {
        if let Some(named) = Mode::named(word.as_str()) {
            mode = named;
            is_named = false;
            continue;
        }
        is_named = true;
        let mut file = File::open(rt, word.as_str())?;
        holds &= run_input(rt, mode, word.as_str(), &mut file)?;
    }
    if !is_named {
        holds &= run_input(rt, mode, "-", &mut rt.stdin())?;
    }
    Ok(holds)
}

fn main(rt: HostRuntime) -> ExitCode {
    match run_files(&rt) {
        Ok(true) => ExitCode::SUCCESS,
        Ok(false) => ExitCode::FAILURE,
        Err(error) => {
            let _ = eprintln!(rt; "conformance: {error}");
            ExitCode::FAILURE
        }
    }
}
