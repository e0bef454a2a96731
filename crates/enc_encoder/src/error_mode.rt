//! Error modes of encoders.

/// What a call does with unmappable characters (Encoding Standard 4.1, "error mode").
#[derive(Clone, Copy)]
pub enum ErrorMode {
    /// It stops there and reports the character.
    Fatal,
    /// It writes a decimal reference, for which it keeps the last 10 bytes of the output free.
    Html,
    /// The same for an encoder that has none, as UTF-8 if none is barred: no bytes are kept free.
    HtmlOfMappable,
}
