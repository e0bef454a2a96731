//! Recoding: [`run`] reads bytes from a [`Source`], recodes them, and writes them to a [`Sink`].
//! [`run_part`] does so with other byte order marks looked for, as in a part of a whole.
//!
//! [`FromRead`] and [`FromWrite`] make a source of any reader and a sink of any writer. [`labels`]
//! finds the encodings of a run by their labels, and [`status`] returns its exit status.
//! [`RecodeError`] is a fault with its cause. No call takes memory.
#![tactic(auto)]

mod engine;
mod exit;
mod label_pair;
mod recode_error;

pub use enc_reader::{FromRead, Source};
pub use enc_stream::BomHandling;
pub use enc_writer::{FromWrite, Sink};
pub use engine::{RecodeFault, run, run_part};
pub use exit::status;
pub use label_pair::labels;
pub use recode_error::RecodeError;
