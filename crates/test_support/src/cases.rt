//! The failure of a helper: a message that names the case.

use std::test::Fail;

/// The case that a failed comparison names.
#[derive(Clone, Copy)]
pub struct Case<'a> {
    /// The name of the encoding.
    pub name: &'static str,
    /// The bytes that are decoded, or the text that is encoded.
    pub input: &'a [u8],
    /// The room of each call, in code units.
    pub room: usize,
}

/// Fails with `what` and the case unless `holds`.
pub fn expect(holds: bool, what: &'static str, case: &Case<'_>) -> Result<(), Fail> {
    if holds {
        return Ok(());
    }
    let Case { name, input, room } = *case;
    Err(Fail::new(format_args!("{what}: {name}, {input:?}, room {room}")))
}

/// Fails with both lists unless they are equal.
pub fn expect_bytes(
    got: &[u8],
    want: &[u8],
    what: &'static str,
    case: &Case<'_>,
) -> Result<(), Fail> {
    if got == want {
        return Ok(());
    }
    let Case { name, input, room } = *case;
    Err(Fail::new(format_args!("{what}: {got:?}, not {want:?}: {name}, {input:?}, room {room}")))
}
