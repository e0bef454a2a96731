//! The kinds of calls.

/// Queries that only read bytes.
#[derive(Clone, Copy)]
pub enum Query {
    /// The longest prefix that is well-formed UTF-8.
    ValidUtf8,
    /// The longest prefix that is ASCII.
    ValidAscii,
    /// The longest prefix that stands for itself in ISO-2022-JP.
    ValidIso2022Jp,
    /// The prefix that is Latin-1 to a new decoder, which looks for no byte order mark.
    Latin1,
}

/// Calls that take bytes.
#[derive(Clone, Copy)]
pub enum ByteCall {
    /// A new decoder, to UTF-8.
    ToUtf8,
    /// A new decoder, to UTF-16.
    ToUtf16,
    /// The one-shot call that decodes into a String.
    Decode,
    /// The one-shot call that lends text that needs no decoding.
    DecodeLending,
    /// The look-up of a label.
    ForLabel,
    /// One decoder for all pieces, to UTF-8.
    ChunksToUtf8,
    /// One decoder for all pieces, to UTF-16.
    ChunksToUtf16,
    /// A query.
    Query(Query),
}

/// Calls that take text in UTF-8.
#[derive(Clone, Copy)]
pub enum TextCall {
    /// A new encoder.
    FromUtf8,
    /// The one-shot call that encodes into a Vec.
    Encode,
    /// The one-shot call that lends text that needs no encoding.
    EncodeLending,
    /// One encoder for all pieces.
    Chunks,
}

/// Calls that take code units of UTF-16.
#[derive(Clone, Copy)]
pub enum UnitCall {
    /// A new encoder.
    FromUtf16,
    /// One encoder for all pieces.
    Chunks,
}

/// A kind of calls, by what they take.
#[derive(Clone, Copy)]
pub enum Kind {
    Bytes(ByteCall),
    Text(TextCall),
    Units(UnitCall),
}

impl Kind {
    /// Returns the kind of this name.
    pub(crate) fn named(name: &str) -> Option<Kind> {
        Some(match name {
            "to-utf8" => Kind::Bytes(ByteCall::ToUtf8),
            "to-utf16" => Kind::Bytes(ByteCall::ToUtf16),
            "decode" => Kind::Bytes(ByteCall::Decode),
            "decode-lending" => Kind::Bytes(ByteCall::DecodeLending),
            "for-label" => Kind::Bytes(ByteCall::ForLabel),
            "chunks-to-utf8" => Kind::Bytes(ByteCall::ChunksToUtf8),
            "chunks-to-utf16" => Kind::Bytes(ByteCall::ChunksToUtf16),
            "valid-utf8" => Kind::Bytes(ByteCall::Query(Query::ValidUtf8)),
            "valid-ascii" => Kind::Bytes(ByteCall::Query(Query::ValidAscii)),
            "valid-iso-2022-jp" => Kind::Bytes(ByteCall::Query(Query::ValidIso2022Jp)),
            "latin1" => Kind::Bytes(ByteCall::Query(Query::Latin1)),
            "from-utf8" => Kind::Text(TextCall::FromUtf8),
            "encode" => Kind::Text(TextCall::Encode),
            "encode-lending" => Kind::Text(TextCall::EncodeLending),
            "chunks-from-utf8" => Kind::Text(TextCall::Chunks),
            "from-utf16" => Kind::Units(UnitCall::FromUtf16),
            "chunks-from-utf16" => Kind::Units(UnitCall::Chunks),
            _ => return None,
        })
    }
}
