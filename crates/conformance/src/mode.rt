//! What the program does, by a word among its arguments.

use conformance_calls::{calls, growths, web_platform};
use std::io::{self, BufRead, BufReader, BufWriter, Read, Write};
use std::process::Termination;
use std::test::Fail;

/// What is done with the files after a word, or with standard input.
#[derive(Clone, Copy)]
pub enum Mode {
    /// Rows are run.
    Rows,
    /// Calls are made.
    Calls,
    /// Questions are answered.
    WebPlatform,
    /// Calls are refused memory.
    Growths,
}

impl Mode {
    /// The mode that a word names, if it names one.
    pub(crate) fn named(word: &str) -> Option<Mode> {
        match word {
            "rows" => Some(Mode::Rows),
            "calls" => Some(Mode::Calls),
            "web-platform" => Some(Mode::WebPlatform),
            "growths" => Some(Mode::Growths),
            _ => None,
        }
    }
}

/// Makes the calls that lines list.
pub(crate) fn make_calls<R: Read>(rt: &HostRuntime, input: &mut R) -> io::Result<()> {
    let mut out = BufWriter::new(rt.alloc(), rt.stdout())?;
    for line in BufReader::new(rt.alloc(), input)?.lines(rt.alloc()) {
        calls::answer_line(rt.alloc(), line?.as_str(), &mut out)?;
    }
    out.flush()
}

/// Answers questions, each before the next line is read.
pub(crate) fn answer_questions<R: Read>(rt: &HostRuntime, input: &mut R) -> io::Result<()> {
    let mut out = BufWriter::new(rt.alloc(), rt.stdout())?;
    for line in BufReader::new(rt.alloc(), input)?.lines(rt.alloc()) {
        web_platform::answer_line(rt.alloc(), line?.as_str(), &mut out)?;
        writeln!(out)?;
        out.flush()?;
    }
    Ok(())
}

/// Makes calls that are refused memory. Returns whether all have their outcomes.
pub(crate) fn refuse_growths<R: Read>(rt: &HostRuntime, input: &mut R) -> bool {
    match growths::run(rt.alloc(), input, &mut rt.stdout()) {
        Ok(()) => true,
        Err(fail) => {
            let _ = Err::<(), Fail>(fail).report(rt);
            false
        }
    }
}
