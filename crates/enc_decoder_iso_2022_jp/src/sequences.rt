//! The sequences that the ISO-2022-JP decoder emits (Encoding Standard 12.2.1).

ghost use Rattle.std.specs.Prelude.{◌≡◌, true, false, Option, [], ◌∷◌};
ghost use Rattle.enc_decoder_iso_2022_jp.specs.Iso2022JpState.{state_with_held, intermediate_byte};
ghost use Rattle.enc_decoder_iso_2022_jp.specs.Iso2022JpState.{escape_set, bytes_of_held, CanHold};
ghost use Rattle.enc_decoder_iso_2022_jp.specs.Iso2022JpState.{CutsOffHeld, char_or_malformed};
ghost use Rattle.enc_decoder_iso_2022_jp.specs.Iso2022JpState.{iso_2022_jp_state};
ghost use Rattle.enc_decoder.specs.CodecLaw.{IsNextSequence, IsNextOfPending};

use crate::character_set::{CharacterSet, is_lead_byte, one_byte_char};
use crate::escape::{Escape, Intermediate};
use crate::iso_2022_jp::{Held, Iso2022JpDecoder, with_held};
use enc_decoder::{Emission, Kind, Text};

/// Returns a character, or a malformed sequence if there is none, with or without the byte that
/// determines it.
pub(crate) fn show_char(
    character: Option<char>,
    len: u8,
    takes_byte: bool,
    next: Iso2022JpDecoder,
) -> Emission<Iso2022JpDecoder>
    ensures { result ≡ char_or_malformed character len takes_byte next }
{
    let (shown, kind) = match character {
        Some(found) => (found, Kind::Valid),
        None => ('\u{FFFD}', Kind::Malformed),
    };
    Emission {
        text: Text::One(shown),
        kind,
        len,
        takes_byte,
        next,
    }
}

/// Returns an escape sequence that is skipped, since no other one directly follows. The byte that
/// determines it stays unread.
fn skip_escape(escape: Escape, held: Option<Held>) -> Emission<Iso2022JpDecoder>
    requires holds { CanHold (escape_set escape) held }
    ensures { result ≡ record {
      text = Text.Nothing;
      kind = Kind.Skipped;
      len = 3;
      takes_byte = false;
      next = state_with_held (escape_set escape) held;
    } }
{
    Emission {
        text: Text::Nothing,
        kind: Kind::Skipped,
        len: 3,
        takes_byte: false,
        next: with_held(escape.set(), held),
    }
}

/// Returns an escape sequence that is malformed, since another one directly follows. The last byte
/// of the other is read.
pub(crate) fn report_escape(escape: Escape, another: Escape) -> Emission<Iso2022JpDecoder>
    ensures { result ≡ record {
      text = Text.One 0xFFFD;
      kind = Kind.RepeatedEscape;
      len = 3;
      takes_byte = true;
      next = state_with_held (escape_set escape) (Option.Some (Held.Whole another));
    } }
{
    Emission {
        text: Text::One('\u{FFFD}'),
        kind: Kind::RepeatedEscape,
        len: 3,
        takes_byte: true,
        next: with_held(escape.set(), Some(Held::Whole(another))),
    }
}

/// Returns the restored second byte of an incomplete escape sequence, read anew in the designated
/// character set.
fn give_back(set: CharacterSet, intermediate: Intermediate) -> Held
    ensures can_hold { CanHold set (Option.Some result) }
    ensures bytes { bytes_of_held (Option.Some result) ≡ intermediate_byte intermediate ∷ [] }
{
    let byte = intermediate.byte();
    if is_lead_byte(set, byte) {
        Held::Lead(byte)
    } else {
        Held::GivenBack(byte)
    }
}

/// Returns the sequence that the pending bytes begin with, if the following bytes cut them off.
pub(crate) fn cut_off(set: CharacterSet, held: Held) -> Emission<Iso2022JpDecoder>
    requires holds { CanHold set (Option.Some held) }
    ensures comes { IsNextSequence iso_2022_jp_state (state_with_held set (Option.Some held))
        (CutsOffHeld held) [] result }
    ensures before { result.takes_byte ≡ false }
{
    match held {
        Held::GivenBack(byte) => show_char(
            one_byte_char(set, byte),
            1,
            false,
            with_held(set, None),
        ),
        Held::Lead(_) => show_char(None, 1, false, with_held(set, None)),
        Held::Whole(escape) => skip_escape(escape, None),
        Held::Start(before) => cut_off_start(set, before),
        Held::Started(before, intermediate) => cut_off_started(set, before, intermediate),
    }
}

/// The same for 1B.
fn cut_off_start(set: CharacterSet, before: Option<Escape>) -> Emission<Iso2022JpDecoder>
    ensures comes { IsNextSequence iso_2022_jp_state
        (state_with_held set (Option.Some (Held.Start before)))
        (CutsOffHeld (Held.Start before)) [] result }
    ensures before { result.takes_byte ≡ false }
{
    match before {
        Some(escape) => skip_escape(escape, Some(Held::Start(None))),
        None => show_char(None, 1, false, with_held(set, None)),
    }
}

/// The same for 1B and the second byte of an escape sequence, which is restored.
fn cut_off_started(
    set: CharacterSet,
    before: Option<Escape>,
    intermediate: Intermediate,
) -> Emission<Iso2022JpDecoder>
    ensures comes { IsNextSequence iso_2022_jp_state
        (state_with_held set (Option.Some (Held.Started before intermediate)))
        (CutsOffHeld (Held.Started before intermediate)) [] result }
    ensures before { result.takes_byte ≡ false }
{
    match before {
        Some(escape) => skip_escape(escape, Some(Held::Started(None, intermediate))),
        None => {
            let next = with_held(set, Some(give_back(set, intermediate)));
            show_char(None, 1, false, next)
        }
    }
}

/// Returns the sequence that pending bytes determine by themselves: only a restored byte does.
pub(crate) fn show_given_back(set: CharacterSet, held: Held) -> Option<Emission<Iso2022JpDecoder>>
    requires holds { CanHold set (Option.Some held) }
    ensures { IsNextOfPending iso_2022_jp_state (state_with_held set (Option.Some held)) result }
{
    match held {
        Held::GivenBack(_) => Some(cut_off(set, held)),
        _ => None,
    }
}
