//! Recodes standard input to standard output, as one part of a file that is cut after line feeds.
//!
//! `recode_part FROM TO PART [LENGTH]` decodes by the encoding that the label FROM names, and
//! writes the output encoding of the one that TO names. PART is the number of the part. Part 1
//! drops the byte order mark of FROM, and the others look for none. No other mark is looked
//! for. With LENGTH it reads that many bytes at most, so standard input may be the whole file, at
//! the offset of the part. It refuses encodings in which a part may depend on the bytes before it.
#![tactic(auto)]

mod bounded;
mod ending;
mod part;
mod task;
#[cfg(test)]
mod tests;

use crate::ending::{Ending, exit_status};
use crate::part::recode_part;
use crate::task::{Arguments, Refusal, task_of};
pub use recode_engine::{FromRead, FromWrite, RecodeError};
use std::process::ExitCode;
use std::{env, io};

/// Returns the arguments, if there are three or four. An `Err` if an argument cannot be read.
fn words(rt: &HostRuntime) -> io::Result<Option<Arguments>> {
    let mut args = env::args(rt)?;
    let _program = args.next();
    let from = args.next();
    let to = args.next();
    let part = args.next();
    let length = args.next();
    let more = args.next();
    match (from, to, part, more) {
        (Some(from), Some(to), Some(part), None) => Ok(Some(Arguments {
            from,
            to,
            part,
            length,
        })),
        _ => Ok(None),
    }
}

/// Recodes standard input to standard output as the arguments ask.
fn run(rt: &HostRuntime) -> Ending {
    let asked = match words(rt) {
        Ok(Some(words)) => task_of(&words),
        _ => Err(Refusal::Usage),
    };
    match asked {
        Ok(task) => {
            let reader = FromRead::new(rt.stdin());
            let mut writer = FromWrite::new(rt.stdout());
            let (reader, outcome) = recode_part(&task, reader, &mut writer);
            match outcome {
                Ok(replaced) => Ending::Ran(replaced),
                Err(fault) => Ending::Failed(RecodeError::new(fault, &reader, &writer)),
            }
        }
        Err(refusal) => Ending::Refused(refusal),
    }
}

fn main(rt: HostRuntime) -> ExitCode {
    let ending = run(&rt);
    let _ = eprint!(rt; "{ending}");
    ExitCode::from(exit_status(&ending))
}
