//! The rows of decoders.

use crate::among::{compare_among, read_among};
use crate::bytes::{byte_row, compare_bytes};
use crate::encoding::encoding_of;
use crate::fault::RowFault;
use crate::held::{call_beside, held_of};
use crate::queries::{latin1, length, lengths};
use crate::repeat::{compare_long, long_input};
use crate::whole::run_whole;
use crate::words::{Unreadable, Words, choice, number_of, pair_of};
use enc_codec::{NewDecoder, VariantDecoder};
use enc_names::EncodingId;
use encoding_rs::run::BomHandling;
use encoding_rs::{Decoder, DecoderResult, Encoding};
use std::alloc::Global;
use test_support::decoding::{
    Given, Input, Others, Output, Use, compare_cuts_of, compare_input, make_call, new_decoder,
};

/// A decoder and its output. If it looks for no byte order mark, the decoder of its codec makes the
/// same calls.
#[derive(Drop)]
pub struct Target {
    pub decoder: Decoder,
    output: Output,
    pub codec: Option<VariantDecoder>,
}

/// An encoding of a head, with the decoder of its codec.
#[derive(Clone, Copy)]
pub struct Subject {
    pub encoding: Encoding,
    codec: VariantDecoder,
}

/// What the rows after a head `decoder` are of.
#[derive(Drop)]
pub struct Decoding {
    subjects: Vec<Subject>,
    handling: BomHandling,
    reporting: bool,
    /// The decoders of the rows `call`, each with its output.
    targets: Vec<Target>,
    /// Whether no row `text` has been before.
    is_first: bool,
}

/// The byte order marks that a word names, if it names some.
fn marks_of(word: &str) -> Option<BomHandling> {
    match word {
        "off" => Some(BomHandling::Off),
        "sniff" => Some(BomHandling::Sniff),
        "remove" => Some(BomHandling::Remove),
        _ => None,
    }
}

/// The output that a word names.
fn output_of(word: &str) -> Result<Output, Unreadable> {
    match word {
        "utf8" => Ok(Output::Utf8),
        "utf16" => Ok(Output::Utf16),
        "str" => Ok(Output::Str),
        "string" => Ok(Output::String),
        _ => Err(Unreadable::Unknown("no output has this name")),
    }
}

/// The result that a word is: `InputEmpty`, `OutputFull` or `Malformed(LEN,AFTER)`.
fn result_of(word: &str) -> Result<DecoderResult, Unreadable> {
    if word == "InputEmpty" {
        return Ok(DecoderResult::InputEmpty);
    }
    if word == "OutputFull" {
        return Ok(DecoderResult::OutputFull);
    }
    let Some(numbers) = word.strip_prefix("Malformed(") else {
        return Err(Unreadable::Unknown("no result has this name"));
    };
    let Some(numbers) = numbers.strip_suffix(')') else {
        return Err(Unreadable::Unknown("no result has this name"));
    };
    match pair_of(numbers, ',')? {
        (len, after) if len < 256 && after < 256 => {
            Ok(DecoderResult::Malformed(len as u8, after as u8))
        }
        _ => Err(Unreadable::Number),
    }
}

/// The least room in which calls reach the end of a text: that of its longest character.
fn room_of(text: &str) -> usize {
    let mut room = 0;
    for character in text.chars() {
        room = room.max(character.len_utf8());
    }
    room
}

/// The malformed sequences of a row `text`, and its room.
fn places_of(
    alloc: Global,
    words: &mut Words<'_>,
    room: usize,
) -> Result<(Vec<(usize, usize)>, usize), Unreadable> {
    let (mut malformed, mut room) = (Vec::new(alloc), room);
    for _ in 0..words.len() {
        if !words.has_more() {
            break;
        }
        let word = words.word()?;
        match word.strip_prefix("room=") {
            Some(number) => room = number_of(number)?,
            None => malformed.push(pair_of(word, '+')?)?,
        }
    }
    Ok((malformed, room))
}

impl Decoding {
    /// Reads `LABEL.. MARKS report|replace [OUTPUT..]`: what the rows that follow are of.
    pub(crate) fn new(alloc: Global, words: &mut Words<'_>) -> Result<Decoding, Unreadable> {
        let mut subjects = Vec::new(alloc);
        let mut handling = None;
        for _ in 0..words.len() {
            let word = words.word()?;
            handling = marks_of(word);
            if handling.is_some() {
                break;
            }
            let Some(id) = EncodingId::for_label(word.as_bytes()) else {
                return Err(Unreadable::Unknown("no encoding has this label"));
            };
            subjects.push(Subject {
                encoding: encoding_of(word)?,
                codec: id.codec().new_decoder(),
            })?;
        }
        let (Some(handling), false) = (handling, subjects.is_empty()) else {
            return Err(Unreadable::Missing);
        };
        let reporting = choice(words.word()?, ("report", "replace"))?;
        let is_off = handling == BomHandling::Off;
        let mut targets = Vec::new(alloc);
        for _ in 0..words.len() {
            if !words.has_more() {
                break;
            }
            let output = output_of(words.word()?)?;
            for Subject { encoding, codec } in &subjects {
                targets.push(Target {
                    decoder: new_decoder(*encoding, handling),
                    output,
                    codec: if is_off { Some(*codec) } else { None },
                })?;
            }
        }
        Ok(Decoding {
            subjects,
            handling,
            reporting,
            targets,
            is_first: true,
        })
    }

    /// Runs the row of this name.
    pub(crate) fn run(
        &mut self,
        alloc: Global,
        name: &str,
        words: &mut Words<'_>,
    ) -> Result<(), RowFault> {
        match name {
            "text" => self.text(alloc, words),
            "whole" => run_whole(alloc, (&self.subjects, self.handling), words),
            "among" => self.among(alloc, words),
            "repeat" => self.repeat(alloc, words),
            "bytes" => self.bytes(alloc, words),
            _ if self.targets.is_empty() => {
                Err(Unreadable::Unknown("the head names no output").into())
            }
            "call" => self.call(alloc, words),
            "used" => self.used(words),
            "lengths" => lengths(&self.targets, words),
            "length" => length(&self.targets, words),
            "latin1" => latin1(alloc, &self.targets, words),
            _ => Err(Unreadable::Unknown("no row of a decoder has this name").into()),
        }
    }

    /// Runs `BYTES TEXT [AT+LEN ..] [room=N]` through every cut, room and output.
    fn text(&mut self, alloc: Global, words: &mut Words<'_>) -> Result<(), RowFault> {
        let (bytes, text) = (words.bytes(alloc)?, words.text(alloc)?);
        let (malformed, room) = places_of(alloc, words, room_of(&text))?;
        words.end()?;
        let input = Input {
            bytes: &bytes,
            text: text.as_bytes(),
            malformed: &malformed,
            room,
        };
        let others = if self.is_first {
            Others::All
        } else {
            Others::Few
        };
        self.is_first = false;
        for Subject { encoding, codec } in &self.subjects {
            if self.handling == BomHandling::Off {
                compare_input(alloc, (*encoding, *codec), others, &input)?;
            } else {
                let way = Use::new(*encoding, self.handling);
                compare_cuts_of(alloc, (way, others), &input)?;
            }
        }
        Ok(())
    }

    /// Makes the call `BYTES more|last ROOM RESULT READ WRITTEN replaced|- TEXT [held=N]` with each
    /// decoder, and with those of codecs if no byte order mark is looked for.
    fn call(&mut self, alloc: Global, words: &mut Words<'_>) -> Result<(), RowFault> {
        let src = words.bytes(alloc)?;
        let last = choice(words.word()?, ("last", "more"))?;
        let room = words.number()?;
        let result = result_of(words.word()?)?;
        let (read, written) = (words.number()?, words.number()?);
        let replaced = choice(words.word()?, ("replaced", "-"))?;
        let text = words.text(alloc)?;
        let held = held_of(words)?;
        words.end()?;
        if held.is_some() && self.handling != BomHandling::Off {
            return Err(Unreadable::Unknown("held bytes are those of marks `off`").into());
        }
        let given = Given {
            src: &src,
            last,
            room,
            reporting: self.reporting,
        };
        let want = (result, read, written, replaced);
        for target in &mut self.targets {
            let output = (target.output, given);
            make_call(alloc, &mut target.decoder, output, (want, text.as_str()))?;
            if let Some(codec) = &mut target.codec {
                call_beside(alloc, codec, output, (want, text.as_str()), held)?;
            }
        }
        Ok(())
    }

    /// Compares `LETTER BYTES TEXT [0+LEN]` at each place.
    fn among(&mut self, alloc: Global, words: &mut Words<'_>) -> Result<(), RowFault> {
        let row = read_among(alloc, words)?;
        for Subject { encoding, .. } in &self.subjects {
            compare_among(alloc, *encoding, &row)?;
        }
        Ok(())
    }

    /// Decodes `N BYTES TEXT [BYTES TEXT]`.
    fn repeat(&mut self, alloc: Global, words: &mut Words<'_>) -> Result<(), RowFault> {
        let input = long_input(alloc, words)?;
        for Subject { encoding, .. } in &self.subjects {
            compare_long(alloc, *encoding, &input)?;
        }
        Ok(())
    }

    /// Decodes the bytes of `FIRST TEXT` one by one.
    fn bytes(&mut self, alloc: Global, words: &mut Words<'_>) -> Result<(), RowFault> {
        let row = byte_row(alloc, words)?;
        for Subject { encoding, .. } in &self.subjects {
            compare_bytes(alloc, *encoding, &row)?;
        }
        Ok(())
    }

    /// Compares the encoding of each decoder with that of a label.
    fn used(&mut self, words: &mut Words<'_>) -> Result<(), RowFault> {
        let used = encoding_of(words.word()?)?;
        words.end()?;
        for target in &self.targets {
            if target.decoder.encoding() != used {
                return Err(RowFault::fails("a decoder has another encoding"));
            }
        }
        Ok(())
    }
}
