//! Binary search in ascending runs.

ghost use Rattle.std.specs.Prelude.{◌≡◌, ◌≤◌, true, IfSome};
ghost use Rattle.enc_index.specs.Index.{index_at};
ghost use Rattle.enc_index.specs.Search.{are_ascending_runs, run_with_pointer};

use crate::table::{Planes, character_after};

/// Returns the first run that has a number, by binary search.
///
/// - `runs`: ascend, and none overlaps another.
pub fn run_with(runs: &[(u32, u32, u32)], number: u32) -> Option<(u32, u32, u32)>
    requires ascending { are_ascending_runs 0 runs.now ≡ true }
    ensures first { result ≡ run_with_pointer runs.now number }
    ensures begins { IfSome result (λ run. run.0 ≤ number) }
{
    let mut low = 0;
    let mut high = runs.len();
    while low < high {
        let middle = low + (high - low) / 2;
        let (first, last, value) = runs[middle];
        if last < number {
            low = middle + 1;
        } else if number < first {
            high = middle;
        } else {
            return Some((first, last, value));
        }
    }
    None
}

/// Returns the character of a pointer, by the first run that has it.
pub(crate) fn character_among(
    planes: Planes,
    runs: &[(u32, u32, u32)],
    pointer: u32,
) -> Option<char>
    requires ascending { are_ascending_runs 0 runs.now ≡ true }
    ensures { result ≡ index_at planes runs.now pointer }
{
    match run_with(runs, pointer) {
        Some((first, _, code_point)) => character_after(planes, code_point, pointer - first),
        None => None,
    }
}
