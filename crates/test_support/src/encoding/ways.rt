//! The ways of calling an encoder, and the encoders that rows ask for.

use encoding_rs::{Encoder, Encoding};
use std::test::Fail;

/// An encoding, and the characters that are barred from its encoder, which keeps the list as long
/// as it is.
pub type Asked = (Encoding, &'static [char]);

/// Makes a new encoder.
pub fn encoder_of((encoding, barred): Asked) -> Result<Encoder, Fail> {
    if !Encoding::barred_ok(barred) {
        return Err(Fail::new("an ASCII character is barred"));
    }
    Ok(encoding.new_encoder_barring(barred))
}

/// The number of bytes at the end of an output that a call keeps back for references.
pub fn kept_back((encoding, barred): Asked) -> usize {
    if encoding.can_encode_everything() && barred.is_empty() {
        0
    } else {
        10
    }
}

/// The code units that an encoder reads, and where it writes.
#[derive(Clone, Copy)]
pub enum Source {
    /// From UTF-8 into a slice.
    Utf8,
    /// From UTF-16 into a slice.
    Utf16,
    /// From UTF-8 into the spare capacity of a `Vec`.
    Utf8ToVec,
}

/// A kind of call.
#[derive(Clone, Copy)]
pub struct Way {
    /// The code units, and where it writes.
    pub source: Source,
    /// Whether it writes references to unmappable characters. If not, it stops at the first one.
    pub replaces: bool,
}

/// All kinds of calls.
pub const ALL_WAYS: [Way; 6] = [
    Way {
        source: Source::Utf8,
        replaces: false,
    },
    Way {
        source: Source::Utf16,
        replaces: false,
    },
    Way {
        source: Source::Utf8ToVec,
        replaces: false,
    },
    Way {
        source: Source::Utf8,
        replaces: true,
    },
    Way {
        source: Source::Utf16,
        replaces: true,
    },
    Way {
        source: Source::Utf8ToVec,
        replaces: true,
    },
];

/// The kinds of calls into slices.
pub const SLICE_WAYS: [Way; 4] = [
    Way {
        source: Source::Utf8,
        replaces: false,
    },
    Way {
        source: Source::Utf16,
        replaces: false,
    },
    Way {
        source: Source::Utf8,
        replaces: true,
    },
    Way {
        source: Source::Utf16,
        replaces: true,
    },
];

impl Way {
    /// A name for messages.
    pub fn name(self) -> &'static str {
        match (self.source, self.replaces) {
            (Source::Utf8, false) => "from UTF-8 without replacement",
            (Source::Utf16, false) => "from UTF-16 without replacement",
            (Source::Utf8ToVec, false) => "from UTF-8 into a Vec without replacement",
            (Source::Utf8, true) => "from UTF-8 with references",
            (Source::Utf16, true) => "from UTF-16 with references",
            (Source::Utf8ToVec, true) => "from UTF-8 into a Vec with references",
        }
    }

    /// The least room in which every call reads or writes.
    pub fn room_enough(self, asked: Asked) -> usize {
        if self.replaces {
            kept_back(asked).saturating_add(4)
        } else {
            4
        }
    }
}
