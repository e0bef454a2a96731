//! The steps of a call.

ghost use Rattle.std.specs.Prelude.{◌≡◌, ℕ, List, Option};
ghost use Rattle.enc_input.specs.Bytes.{byte_list as bytes_in};
ghost use Rattle.enc_encoder.specs.CharLaw.{bytes_or_empty, AreBytesOf};
ghost use Rattle.enc_encoder.specs.CharLaw.{char_transition, escape_transition};
ghost use Rattle.enc_encoder.specs.Text.{escape_sequence as escape_bytes};
ghost use Rattle.enc_encoder.specs.Steps.{first_written_char as wanted_first};

use crate::character_set::CharacterSet;
use crate::made_bytes::{escape, none};
use crate::transition::Transition;
use enc_input::Bytes;

/// Returns the step that writes `bytes`, or reports `reported` if there are none.
#[inline(always)]
pub fn take_char<E>(encoder: E, reported: char, bytes: Option<Bytes>) -> Transition<E>
    ensures value { result ≡ char_transition result.bytes encoder reported bytes }
    ensures bytes { bytes_in result.bytes ≡ bytes_or_empty bytes }
{
    match bytes {
        Some(found) => Transition {
            bytes: found,
            reads: true,
            report: None,
            next: encoder,
        },
        None => Transition {
            bytes: none(),
            reads: true,
            report: Some(reported),
            next: encoder,
        },
    }
}

/// Returns the step of an escape sequence.
#[inline(always)]
pub fn take_escape<E>(next: E, set: CharacterSet) -> Transition<E>
    ensures value { result ≡ escape_transition result.bytes next }
    ensures bytes { bytes_in result.bytes ≡ escape_bytes set }
{
    Transition {
        bytes: escape(set),
        reads: false,
        report: None,
        next,
    }
}

/// Returns the first character that is written for a character: itself, or that of its reference.
#[inline(always)]
pub fn first_written_char(c: char, found: Option<Bytes>) -> char
    ensures { (wanted : Option (List ℕ)) → AreBytesOf wanted found
        → result ≡ wanted_first c wanted }
{
    match found {
        Some(_) => c,
        None => '&',
    }
}
