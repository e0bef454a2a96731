//! Bytes and code units in hexadecimal.

ghost use Rattle.std.specs.Prelude.{◌<◌};

use std::alloc::{AllocError, Global};
use std::io::{self, Write};

/// Returns the value of a hexadecimal digit, or 0 for another byte.
fn digit(byte: u8) -> u8
    ensures { result < 16 }
{
    match byte {
        b'0'..=b'9' => byte - b'0',
        b'A'..=b'F' => byte - b'A' + 10,
        _ => 0,
    }
}

/// Returns the bytes that pairs of digits stand for. One digit alone, as `-`, stands for none.
pub(crate) fn bytes_of(alloc: Global, word: &str) -> Result<Vec<u8>, AllocError> {
    let digits = word.as_bytes();
    let mut bytes = Vec::new(alloc);
    for i in 0..digits.len() / 2 {
        bytes.push(16 * digit(digits[2 * i]) + digit(digits[2 * i + 1]))?;
    }
    Ok(bytes)
}

/// Returns the code units that four digits each stand for.
pub(crate) fn units_of(alloc: Global, word: &str) -> Result<Vec<u16>, AllocError> {
    let bytes = bytes_of(alloc, word)?;
    let mut units = Vec::new(alloc);
    for i in 0..bytes.len() / 2 {
        units.push(u16::from_be_bytes([bytes[2 * i], bytes[2 * i + 1]]))?;
    }
    Ok(units)
}

/// Writes two digits for each byte.
pub(crate) fn write_bytes<W: Write>(out: &mut W, bytes: &[u8]) -> io::Result<()> {
    for byte in bytes {
        write!(out, "{byte:02X}")?;
    }
    Ok(())
}

/// Writes four digits for each code unit.
pub(crate) fn write_units<W: Write>(out: &mut W, units: &[u16]) -> io::Result<()> {
    for unit in units {
        write!(out, "{unit:04X}")?;
    }
    Ok(())
}
