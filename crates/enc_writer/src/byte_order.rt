//! The order of the two bytes of a code unit of UTF-16.

ghost use Rattle.std.specs.Prelude.{◌≡◌};
ghost use Rattle.enc_writer.specs.Utf16.{unit_bytes};

/// The order of the two bytes of a code unit of UTF-16 (Unicode Standard 3.10, D90 and D91).
#[derive(Clone, Copy, PartialEq, Eq, Debug)]
pub enum ByteOrder {
    /// The low byte first, as in UTF-16LE.
    LittleEndian,
    /// The high byte first, as in UTF-16BE.
    BigEndian,
}

/// Returns the bytes of a code unit.
#[inline(always)]
pub(crate) fn bytes_of_unit(order: ByteOrder, unit: u16) -> [u8; 2]
    ensures { result ≡ unit_bytes order unit }
{
    let high = (unit / 256) as u8;
    let low = (unit % 256) as u8;
    match order {
        ByteOrder::LittleEndian => [low, high],
        ByteOrder::BigEndian => [high, low],
    }
}
