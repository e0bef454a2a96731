//! The failure of a case: a message that has both encodings and the bytes.

use enc_stream::Encoding;
use std::test::Fail;

/// Fails unless the encodings are equal.
pub(crate) fn expect(
    got: Option<Encoding>,
    want: Option<Encoding>,
    bytes: &[u8],
) -> Result<(), Fail> {
    if got == want {
        return Ok(());
    }
    Err(Fail::new(format_args!("{got:?}, not {want:?}: {bytes:?}")))
}
