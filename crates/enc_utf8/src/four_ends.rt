//! Where characters of one byte and two end.

ghost use Rattle.std.specs.Prelude.{◌≡◌};
ghost use Rattle.enc_utf8.specs.Ends.{four_ends};

use crate::ends::ENDS;

/// Returns the offsets at which four characters end, by which of the bytes are the lead of a pair.
#[inline(always)]
pub fn ends_of(leads: u64) -> [u8; 4]
    ensures { result ≡ four_ends leads }
{
    ENDS[(leads % 0x100) as usize]
}
