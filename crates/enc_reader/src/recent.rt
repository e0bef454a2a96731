//! The bytes that a reader has decoded last, from which a malformed sequence is read.

ghost use Rattle.std.specs.Prelude.{◌≡◌, ◌+◌, ◌-◌, ◌<◌, ◌≤◌, ◌++◌, ◌∷◌, [], length, take, drop};
ghost use Rattle.std.specs.Prelude.{slice_index};

/// The number of bytes that are kept. A malformed sequence has at most 4 bytes, and at most 6 with
/// the bytes that are read after it.
pub(crate) const RECENT: usize = 8;

/// The greatest length of a malformed sequence in bytes.
pub(crate) const MOST_MALFORMED: usize = 4;

/// Returns the bytes without the first one, and a byte after them.
fn push(recent: [u8; 8], byte: u8) -> [u8; 8]
    ensures { result ≡ drop 1 (recent ++ byte ∷ []) }
{
    let [_, b, c, d, e, f, g, h] = recent;
    [b, c, d, e, f, g, h, byte]
}

/// Returns the last eight bytes of `recent` and then `bytes`.
pub(crate) fn shift_in(recent: [u8; 8], bytes: &[u8]) -> [u8; 8]
    ensures { result ≡ drop (length bytes.now) (recent ++ bytes.now) }
{
    let mut shifted = recent;
    if bytes.len() >= RECENT {
        shifted.copy_from_slice(&bytes[bytes.len() - RECENT..]);
        return shifted;
    }
    let mut at = 0;
    while at < bytes.len() {
        shifted = push(shifted, bytes[at]);
        at += 1;
    }
    shifted
}

/// Returns the byte that stands `distance` bytes before the end of `recent` and then `bytes`.
fn byte_before_end(recent: [u8; 8], bytes: &[u8], distance: usize) -> u8
    requires some { 0 < distance }
    requires few { distance ≤ 8 }
    ensures { result ≡ slice_index (recent ++ bytes.now) (8 + length bytes.now - distance) }
{
    if distance <= bytes.len() {
        bytes[bytes.len() - distance]
    } else {
        recent[RECENT + bytes.len() - distance]
    }
}

/// Returns the `len` bytes of `recent` and then `bytes` that stand before the last `after` ones,
/// and zeros after them.
pub(crate) fn bytes_before_end(recent: [u8; 8], bytes: &[u8], len: u8, after: u8) -> [u8; 4]
    requires short { len ≤ 4 }
    requires few { len + after ≤ 8 }
    ensures { take len result
        ≡ take len (drop (8 + length bytes.now - after - len) (recent ++ bytes.now)) }
{
    let distance = len as usize + after as usize;
    let mut found = [0; MOST_MALFORMED];
    let mut at = 0;
    while at < len as usize {
        found[at] = byte_before_end(recent, bytes, distance - at);
        at += 1;
    }
    found
}
