//! The form of an example: an input, its text, and the offsets of its malformed sequences. All
//! decoders run the same.

use std::alloc::{AllocError, Global};

/// Room enough for any call of a row.
pub const MOST_ROOM: usize = 64;

/// U+FFFD, which stands for a malformed sequence.
pub(crate) const REPLACEMENT_CHARACTER: &str = "\u{FFFD}";

/// An input, and its expected text.
#[derive(Clone, Copy)]
pub struct Input<'a> {
    /// The bytes.
    pub bytes: &'a [u8],
    /// Its text, with U+FFFD for each malformed sequence, and nowhere else.
    pub text: &'a [u8],
    /// The offset and the length of each malformed sequence.
    pub malformed: &'a [(usize, usize)],
    /// The room in which a run of calls reaches the end.
    pub room: usize,
}

/// The way in which an input is split into chunks.
#[derive(Clone, Copy)]
pub enum Cut {
    /// Not at all.
    Nowhere,
    /// In two, at this offset.
    At(usize),
    /// Into single bytes and an empty last chunk.
    Everywhere,
}

/// Splits at an offset, or at the end if that comes first.
pub(crate) fn split<T>(items: &[T], at: usize) -> (&[T], &[T]) {
    items.split_at(at.min(items.len()))
}

/// The chunks of an input.
pub(crate) fn chunks_of(alloc: Global, bytes: &[u8], cut: Cut) -> Result<Vec<&[u8]>, AllocError> {
    let mut chunks = Vec::new(alloc);
    let rest = match cut {
        Cut::Nowhere => bytes,
        Cut::At(place) => {
            let (front, back) = split(bytes, place);
            chunks.push(front)?;
            back
        }
        Cut::Everywhere => {
            for byte in bytes.chunks(1) {
                chunks.push(byte)?;
            }
            &[]
        }
    };
    chunks.push(rest)?;
    Ok(chunks)
}
