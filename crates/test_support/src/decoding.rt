//! Runs of the rows over decoders: those of encodings, into each output, and a codec's decoder.

mod calls;
mod cuts;
mod lengths;
mod mixed;
mod one_shot;
mod outputs;
mod raw;
mod rows;
mod runs;
mod small_offers;

pub use calls::{make_call, new_decoder};
pub use cuts::{Others, compare_cuts_of, compare_input};
pub use one_shot::{Mode, compare_single_bytes, compare_strict, compare_with_run, decode_at_once};
pub use outputs::{ALL_OUTPUTS, Answer, Given, Output, call_into};
pub use rows::{Cut, Input, MOST_ROOM};
pub use runs::{Use, run_cut};
