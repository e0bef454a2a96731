//! A call of an encoder that has begun.

/// A call that has written its first run.
#[derive(Clone, Copy)]
pub struct Begun {
    /// Whether nothing follows the input.
    pub last: bool,
    /// The number of code units that it was given.
    pub given: usize,
    /// The number of bytes written.
    pub written: usize,
}
