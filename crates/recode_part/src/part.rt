//! A run of the part that a task names.

ghost use Rattle.recode_part.specs.PartRun.{IsPartRun};
ghost use Rattle.recode_engine.specs.Run.{side};

use crate::bounded::Bounded;
use crate::task::Task;
use recode_engine::{RecodeFault, Sink, Source, run_part};

/// Recodes the first bytes of a source, up to the bound of the task if there is one.
///
/// Returns the source as it is then, and the outcome, which is that of [`run_part`].
pub(crate) fn recode_part<R: Source, W: Sink>(
    task: &Task,
    reader: R,
    writer: &mut W,
) -> (R, Result<bool, RecodeFault>)
    ensures { IsPartRun task.now (side (R.remaining reader) (R.has_failed reader))
        (side (R.remaining result.0) (R.has_failed result.0))
        (side (W.contents writer.old) (W.has_failed writer.old))
        (side (W.contents writer.new) (W.has_failed writer.new)) result.1 }
{
    let mut bytes = Bounded::new(reader, task.length);
    let outcome = run_part(&mut bytes, writer, task.from, task.to, task.handling);
    (bytes.into_inner(), outcome)
}
