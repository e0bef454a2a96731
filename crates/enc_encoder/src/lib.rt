//! The contract of every encoder, the loop over the characters of a call that keeps it, and calls
//! by error mode: a decimal reference in place of each unmappable character, or a report of it. No
//! call takes memory.
#![tactic(auto)]

mod barring;
mod begun;
mod byte_lengths;
mod char_encoder;
mod character_set;
mod error_mode;
mod lawful_repertoire;
mod machine;
mod made_bytes;
mod outcome;
mod raw_encoder;
mod reference;
mod replacing;
mod run_repertoire;
mod stateless;
mod transition;
mod transitions;

pub use barring::{BarredChars, Barring, CharList, NoChars};
pub use begun::Begun;
pub use byte_lengths::ByteLengths;
pub use char_encoder::CharEncoder;
pub use character_set::CharacterSet;
pub use error_mode::ErrorMode;
pub use lawful_repertoire::LawfulRepertoire;
pub use machine::run_on;
pub use made_bytes::{four, one, two};
pub use outcome::EncoderOutcome;
pub use raw_encoder::RawEncoder;
pub use reference::{LONGEST_REFERENCE, put_reference};
pub use replacing::encode_in_mode;
pub use run_repertoire::{RunRepertoire, UnitRepertoire, Utf8Repertoire};
pub use stateless::{Repertoire, StatelessEncoder};
