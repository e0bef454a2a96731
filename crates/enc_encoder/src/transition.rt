//! A step of a call.

use enc_input::Bytes;

/// The next step of a call.
#[derive(Clone, Copy)]
pub struct Transition<E> {
    /// The bytes that it writes.
    pub bytes: Bytes,
    /// Whether it reads the character.
    pub reads: bool,
    /// The character that it reports, if the one read is unmappable.
    pub report: Option<char>,
    /// The encoder after it.
    pub next: E,
}
