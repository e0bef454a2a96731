//! Recodes standard input to standard output.
//!
//! `recode FROM TO` decodes by the encoding that the label FROM names, and writes the output
//! encoding of the one that TO names.
#![tactic(auto)]

pub use recode_engine::{FromRead, FromWrite, RecodeFault, Sink, Source, labels, run, status};
use std::process::ExitCode;
use std::{env, io};

/// Returns the two arguments, if there are exactly two. An `Err` if an argument cannot be read.
fn words(rt: &HostRuntime) -> io::Result<Option<(String, String)>> {
    let mut args = env::args(rt)?;
    let _program = args.next();
    let from = args.next();
    let to = args.next();
    let more = args.next();
    match (from, to, more) {
        (Some(from), Some(to), None) => Ok(Some((from, to))),
        _ => Ok(None),
    }
}

/// Writes to standard error why a run has stopped, unless it has reached the end of the input.
fn report(rt: &HostRuntime, outcome: &Result<bool, RecodeFault>) {
    if let Err(fault) = outcome {
        let _ = eprintln!(rt; "recode: {fault}");
    }
}

fn main(rt: HostRuntime) -> ExitCode {
    let Ok(Some((from, to))) = words(&rt) else {
        let _ = eprintln!(rt; "recode: usage: recode FROM TO");
        return ExitCode::from(2);
    };
    let Some((from, to)) = labels(from.as_str(), to.as_str()) else {
        let _ = eprintln!(rt; "recode: unknown label");
        return ExitCode::from(2);
    };
    let mut reader = FromRead::new(rt.stdin());
    let mut writer = FromWrite::new(rt.stdout());
    let outcome = run(&mut reader, &mut writer, from, to);
    report(&rt, &outcome);
    ExitCode::from(status(&outcome))
}
