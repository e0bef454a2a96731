//! The exit status of a run: 0, 1 or 3.

ghost use Rattle.std.specs.Prelude.{◌≡◌};
ghost use Rattle.recode_engine.specs.Status.{status_of};

use crate::engine::RecodeFault;

/// Returns the exit status of a run.
///
/// 0 if nothing was replaced, 1 if something was, and 3 after a fault.
pub fn status(outcome: &Result<bool, RecodeFault>) -> u8
    ensures { result ≡ status_of outcome.now }
{
    match outcome {
        Ok(false) => 0,
        Ok(true) => 1,
        Err(_) => 3,
    }
}
