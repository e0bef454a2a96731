//! Results of an encoder's calls without replacement.

/// Why a call of an encoder without replacement stopped.
#[must_use]
#[derive(Clone, Copy, PartialEq, Eq, Debug)]
pub enum EncoderResult {
    /// All of the input is read, and with `last` the text is ended.
    InputEmpty,
    /// The bytes that come next do not fit into the output.
    OutputFull,
    /// The encoding has no bytes for the last character read: this one. In ISO-2022-JP it is U+FFFD
    /// for U+000E, U+000F and U+001B.
    Unmappable(char),
}
