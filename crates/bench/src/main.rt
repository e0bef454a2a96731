//! What scripts/bench times beside a twin over the Rust crate encoding_rs: `bench calls` makes
//! calls again and again.
#![tactic(auto)]

mod calls;

use std::process::ExitCode;
use std::{env, io};

/// Returns the first argument.
fn mode(rt: &HostRuntime) -> io::Result<Option<String>> {
    Ok(env::args(rt)?.nth(1))
}

fn main(rt: HostRuntime) -> ExitCode {
    let Ok(Some(mode)) = mode(&rt) else {
        return ExitCode::from(2);
    };
    match mode.as_str() {
        "calls" => calls::run(&rt),
        _ => ExitCode::from(2),
    }
}
