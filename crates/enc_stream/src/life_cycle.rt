//! The life cycle of a decoder, in which it looks for a byte order mark (Encoding Standard 6,
//! "decode").

ghost use Rattle.std.specs.Prelude.{◌≡◌, if◌then◌else◌};
ghost use Rattle.enc_stream.specs.declared.bom.BomHandling.TheVariants as handling;
ghost use Rattle.enc_stream.specs.LifeCycle.{awaits_mark as awaits, held_mark_bytes, start_life};
ghost use Rattle.enc_stream.specs.Sniffing.{IsMarkByte};

use crate::bom::BomHandling;
use crate::constants::{UTF_8, UTF_16BE, UTF_16LE};
use crate::encoding::Encoding;
use enc_names::EncodingId;

/// Where a decoder is in its life cycle.
#[derive(Clone, Copy)]
pub(crate) enum LifeCycle {
    /// Has read nothing and looks for all three byte order marks.
    AtStart,
    /// Has read nothing and looks for the byte order mark of UTF-8.
    AtUtf8Start,
    /// Has read nothing and looks for the byte order mark of UTF-16BE.
    AtUtf16BeStart,
    /// Has read nothing and looks for the byte order mark of UTF-16LE.
    AtUtf16LeStart,
    /// Has read EF, which may begin a byte order mark.
    SeenUtf8First,
    /// Has read EF BB, which may begin a byte order mark.
    SeenUtf8Second,
    /// Has read FE, which may begin a byte order mark.
    SeenUtf16BeFirst,
    /// Has read FF, which may begin a byte order mark.
    SeenUtf16LeFirst,
    /// Has found EF BB to be no byte order mark, has put out or reported EF, and still holds BB.
    ConvertingWithPendingBb,
    /// Looks for no byte order mark.
    Converting,
    /// Has reached the end of the input.
    Finished,
}

/// The effect of the next byte on a byte order mark that may still come.
#[derive(Clone, Copy)]
pub(crate) enum MarkByte {
    /// It may belong to a byte order mark. The next state holds it.
    Holds(LifeCycle),
    /// It is the last byte of the byte order mark of this encoding.
    Ends(Encoding),
    /// No byte order mark has it at this position.
    RulesOut,
}

/// Returns `what` if the condition holds, and otherwise that no byte order mark has the byte there.
fn mark_byte_if(condition: bool, what: MarkByte) -> MarkByte
    ensures { result ≡ (if condition then what else MarkByte.RulesOut) }
{
    if condition { what } else { MarkByte::RulesOut }
}

/// Returns the effect of the first byte on all three byte order marks.
fn first_mark_byte(byte: u8) -> MarkByte
    ensures { IsMarkByte LifeCycle.AtStart byte result }
{
    if byte == 0xEF {
        return MarkByte::Holds(LifeCycle::SeenUtf8First);
    }
    if byte == 0xFE {
        return MarkByte::Holds(LifeCycle::SeenUtf16BeFirst);
    }
    mark_byte_if(byte == 0xFF, MarkByte::Holds(LifeCycle::SeenUtf16LeFirst))
}

impl LifeCycle {
    /// Returns whether a byte order mark may still come.
    pub(crate) fn awaits_mark(self) -> bool
        ensures { result ≡ awaits self }
    {
        match self {
            LifeCycle::ConvertingWithPendingBb => false,
            LifeCycle::Converting => false,
            LifeCycle::Finished => false,
            _ => true,
        }
    }

    /// Returns the bytes that are read as those of a byte order mark and not yet passed to a codec.
    pub(crate) fn held(self) -> &'static [u8]
        ensures { result.now ≡ held_mark_bytes self }
    {
        match self {
            LifeCycle::SeenUtf8First => b"\xEF",
            LifeCycle::SeenUtf8Second => b"\xEF\xBB",
            LifeCycle::SeenUtf16BeFirst => b"\xFE",
            LifeCycle::SeenUtf16LeFirst => b"\xFF",
            LifeCycle::ConvertingWithPendingBb => b"\xBB",
            _ => b"",
        }
    }

    /// Returns the effect of a byte that follows those held.
    pub(crate) fn mark_byte(self, byte: u8) -> MarkByte
        ensures { IsMarkByte self byte result }
    {
        match self {
            LifeCycle::AtStart => first_mark_byte(byte),
            LifeCycle::AtUtf8Start => mark_byte_if(
                byte == 0xEF,
                MarkByte::Holds(LifeCycle::SeenUtf8First),
            ),
            LifeCycle::AtUtf16BeStart => mark_byte_if(
                byte == 0xFE,
                MarkByte::Holds(LifeCycle::SeenUtf16BeFirst),
            ),
            LifeCycle::AtUtf16LeStart => mark_byte_if(
                byte == 0xFF,
                MarkByte::Holds(LifeCycle::SeenUtf16LeFirst),
            ),
            LifeCycle::SeenUtf8First => mark_byte_if(
                byte == 0xBB,
                MarkByte::Holds(LifeCycle::SeenUtf8Second),
            ),
            LifeCycle::SeenUtf8Second => mark_byte_if(byte == 0xBF, MarkByte::Ends(UTF_8)),
            LifeCycle::SeenUtf16BeFirst => mark_byte_if(byte == 0xFF, MarkByte::Ends(UTF_16BE)),
            LifeCycle::SeenUtf16LeFirst => mark_byte_if(byte == 0xFE, MarkByte::Ends(UTF_16LE)),
            LifeCycle::ConvertingWithPendingBb => MarkByte::RulesOut,
            LifeCycle::Converting => MarkByte::RulesOut,
            LifeCycle::Finished => MarkByte::RulesOut,
        }
    }
}

/// The start of the life cycle of a decoder that removes the byte order mark of its own encoding.
fn removal_start(id: EncodingId) -> LifeCycle
    ensures { result ≡ start_life handling.Remove id }
{
    match id {
        EncodingId::Utf8 => LifeCycle::AtUtf8Start,
        EncodingId::Utf16be => LifeCycle::AtUtf16BeStart,
        EncodingId::Utf16le => LifeCycle::AtUtf16LeStart,
        _ => LifeCycle::Converting,
    }
}

/// The start of the life cycle of a decoder that looks for the byte order marks of `handling`.
pub(crate) fn first_life(encoding: Encoding, handling: BomHandling) -> LifeCycle
    ensures { result ≡ start_life handling encoding.id }
{
    match handling {
        BomHandling::Off => LifeCycle::Converting,
        BomHandling::Sniff => LifeCycle::AtStart,
        BomHandling::Remove => removal_start(encoding.id),
    }
}
