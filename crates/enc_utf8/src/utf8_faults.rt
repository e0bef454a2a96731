//! The faults of two bytes in UTF-8, by their halves. A pair has those that all three tables have.
//!
//! Written by scripts/make-sources: change the script and run it, and not this file.
//!
//! | Bit | The bytes |
//! |---|---|
//! | 0x01 | a lead byte, and no continuation byte |
//! | 0x02 | ASCII, and a continuation byte |
//! | 0x04 | C0 or C1 |
//! | 0x08 | E0, and a byte below A0 |
//! | 0x10 | ED, and a byte from A0 on |
//! | 0x20 | F0, or F5 and above, and a byte below 90 |
//! | 0x40 | F4 and above, and a byte from 90 on |
//! | 0x80 | two continuation bytes |

/// By the upper half of the first byte.
#[rattlefmt::skip]
pub(crate) const FIRST_UPPER: [u8; 16] = [
    0x02, 0x02, 0x02, 0x02, 0x02, 0x02, 0x02, 0x02, 0x80, 0x80, 0x80, 0x80, 0x05, 0x01, 0x19, 0x61,
];

/// By the lower half of the first byte.
#[rattlefmt::skip]
pub(crate) const FIRST_LOWER: [u8; 16] = [
    0xAF, 0x87, 0x83, 0x83, 0xC3, 0xE3, 0xE3, 0xE3, 0xE3, 0xE3, 0xE3, 0xE3, 0xE3, 0xF3, 0xE3, 0xE3,
];

/// By the upper half of the second byte.
#[rattlefmt::skip]
pub(crate) const SECOND_UPPER: [u8; 16] = [
    0x01, 0x01, 0x01, 0x01, 0x01, 0x01, 0x01, 0x01, 0xAE, 0xCE, 0xD6, 0xD6, 0x01, 0x01, 0x01, 0x01,
];
