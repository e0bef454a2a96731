//! Malformed sequences.

ghost use Rattle.std.specs.Prelude.{◌≡◌, ◌<◌, ◌≤◌, take};

/// A malformed sequence of bytes in an input.
#[derive(Clone, Copy, PartialEq, Eq, Debug)]
pub struct MalformedSequence {
    offset: u64,
    bytes: [u8; 4],
    // the number of bytes that it has
    len: u8,
    ghost some: { 0 < len },
    ghost short: { len ≤ 4 },
}

impl MalformedSequence {
    /// Returns the sequence of the first `len` of `bytes` at this offset.
    pub(crate) fn new(offset: u64, bytes: [u8; 4], len: u8) -> MalformedSequence
        requires some { 0 < len }
        requires short { len ≤ 4 }
        ensures offset { result.offset ≡ offset }
        ensures bytes { result.bytes ≡ bytes }
        ensures len { result.len ≡ len }
    {
        MalformedSequence { offset, bytes, len }
    }

    /// Returns the offset of its first byte in the whole input, in bytes.
    pub fn offset(&self) -> u64
        ensures { result ≡ self.now.offset }
    {
        self.offset
    }

    /// Returns its bytes: one to four.
    pub fn bytes(&self) -> &[u8]
        ensures { result.now ≡ take self.now.len self.now.bytes }
    {
        &self.bytes[..self.len as usize]
    }
}
