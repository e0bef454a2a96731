//! Queries that only read a piece. Each returns the length of a prefix.

use crate::calls::kind::Query;
use encoding_rs::Encoding;

/// Returns the length of the prefix that is Latin-1 to a new decoder, which looks for no byte order
/// mark. It is 0 where the decoder gives none.
fn latin1_len(encoding: Encoding, src: &[u8]) -> usize {
    let decoder = encoding.new_decoder_without_bom_handling();
    decoder.latin1_byte_compatible_up_to(src).unwrap_or(0)
}

/// Returns the length of the prefix that a query determines.
#[inline(never)]
pub(crate) fn prefix_len(encoding: Encoding, query: Query, src: &[u8]) -> u64 {
    let len = match query {
        Query::ValidUtf8 => Encoding::utf8_valid_up_to(src),
        Query::ValidAscii => Encoding::ascii_valid_up_to(src),
        Query::ValidIso2022Jp => Encoding::iso_2022_jp_ascii_valid_up_to(src),
        Query::Latin1 => latin1_len(encoding, src),
    };
    len as u64
}
