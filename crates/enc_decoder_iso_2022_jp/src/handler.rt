//! The effect of one byte, by the bytes that are pending (Encoding Standard 12.2.1).

ghost use Rattle.std.specs.Prelude.{Option};
ghost use Rattle.enc_decoder_iso_2022_jp.specs.Iso2022JpState.{state_with_held, CanHold};
ghost use Rattle.enc_decoder_iso_2022_jp.specs.Iso2022JpState.{iso_2022_jp_state};
ghost use Rattle.enc_decoder.specs.CodecLaw.{HandlesByte};

use crate::character_set::{CharacterSet, is_lead_byte, one_byte_char};
use crate::escape::{Escape, Intermediate};
use crate::iso_2022_jp::{Held, Iso2022JpDecoder, with_held};
use crate::pairs::char_of_pair;
use crate::sequences::{cut_off, report_escape, show_char};
use enc_decoder::HandlerResult;

/// Returns the effect of a byte if none is pending.
pub(crate) fn step_first(set: CharacterSet, byte: u8) -> HandlerResult<Iso2022JpDecoder>
    ensures { HandlesByte iso_2022_jp_state (state_with_held set Option.None) byte result }
{
    if byte == 0x1B {
        HandlerResult::Continue(with_held(set, Some(Held::Start(None))))
    } else if is_lead_byte(set, byte) {
        HandlerResult::Continue(with_held(set, Some(Held::Lead(byte))))
    } else {
        let next = with_held(set, None);
        HandlerResult::Emit(show_char(one_byte_char(set, byte), 1, true, next))
    }
}

/// Returns the effect of the byte after a lead byte.
pub(crate) fn step_trail(set: CharacterSet, lead: u8, byte: u8) -> HandlerResult<Iso2022JpDecoder>
    requires holds { CanHold set (Option.Some (Held.Lead lead)) }
    ensures { HandlesByte iso_2022_jp_state (state_with_held set (Option.Some (Held.Lead lead)))
        byte result }
{
    if byte == 0x1B {
        HandlerResult::Emit(cut_off(set, Held::Lead(lead)))
    } else {
        let next = with_held(set, None);
        HandlerResult::Emit(show_char(char_of_pair(lead, byte), 2, true, next))
    }
}

/// Returns the effect of the byte after a whole escape sequence.
pub(crate) fn step_whole(
    set: CharacterSet,
    escape: Escape,
    byte: u8,
) -> HandlerResult<Iso2022JpDecoder>
    ensures { HandlesByte iso_2022_jp_state (state_with_held set (Option.Some (Held.Whole escape)))
        byte result }
{
    if byte == 0x1B {
        HandlerResult::Continue(with_held(set, Some(Held::Start(Some(escape)))))
    } else {
        HandlerResult::Emit(cut_off(set, Held::Whole(escape)))
    }
}

/// Returns the effect of the byte after 1B.
pub(crate) fn step_start(
    set: CharacterSet,
    before: Option<Escape>,
    byte: u8,
) -> HandlerResult<Iso2022JpDecoder>
    ensures { HandlesByte iso_2022_jp_state (state_with_held set (Option.Some (Held.Start before)))
        byte result }
{
    match Intermediate::of_byte(byte) {
        Some(intermediate) => HandlerResult::Continue(with_held(
            set,
            Some(Held::Started(before, intermediate)),
        )),
        None => HandlerResult::Emit(cut_off(set, Held::Start(before))),
    }
}

/// Returns the effect of the byte after 1B and the second byte of an escape sequence.
///
/// If it completes a second escape sequence, that one is held, and the one before it is malformed.
pub(crate) fn step_started(
    set: CharacterSet,
    before: Option<Escape>,
    intermediate: Intermediate,
    byte: u8,
) -> HandlerResult<Iso2022JpDecoder>
    ensures { HandlesByte iso_2022_jp_state (state_with_held set
        (Option.Some (Held.Started before intermediate))) byte result }
{
    let Some(escape) = Escape::of_bytes(intermediate, byte) else {
        return HandlerResult::Emit(cut_off(set, Held::Started(before, intermediate)));
    };
    match before {
        Some(first) => HandlerResult::Emit(report_escape(first, escape)),
        None => HandlerResult::Continue(with_held(set, Some(Held::Whole(escape)))),
    }
}
