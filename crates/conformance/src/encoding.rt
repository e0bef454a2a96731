//! The rows of encoders.

use crate::fault::RowFault;
use crate::sums::sums_of;
use crate::words::{Unreadable, Words, choice, hexadecimal, long_hexadecimal};
use enc_encode::{RawEncoder, has_encoder, new_encoder};
use enc_names::EncodingId;
use encoding_rs::{Encoder, EncoderResult, Encoding};
use std::alloc::Global;
use std::borrow::CowSlice;
use test_support::encoding::call_rows::{Units, Wanted, compare_call, compare_units};
use test_support::encoding::calls::{Answer, Offer};
use test_support::encoding::long_texts::compare_long;
use test_support::encoding::runs::compare_encoded;
use test_support::encoding::ways::{Source, Way, encoder_of};

/// An encoder, and what its calls read.
#[derive(Drop)]
struct Target {
    encoder: Encoder,
    source: Source,
}

/// What the rows after a head `encoder` are of.
#[derive(Drop)]
pub struct Encoders {
    encodings: Vec<Encoding>,
    replaces: bool,
    barred: &'static [char],
    /// The encoders of the rows `call` and `units`, each with what it reads.
    targets: Vec<Target>,
}

/// What a row says of a call.
#[derive(Drop)]
struct Expected {
    last: bool,
    room: usize,
    answer: Answer,
    written: usize,
    bytes: Vec<u8>,
}

impl Expected {
    /// The answer and the bytes.
    fn wanted(&self) -> Wanted<'_> {
        Wanted {
            answer: self.answer,
            written: self.written,
            bytes: &self.bytes,
        }
    }
}

/// Length queries: from UTF-8 and from UTF-16.
type Lengths = (Option<usize>, Option<usize>);

/// The encoding that a label names.
pub(crate) fn encoding_of(label: &str) -> Result<Encoding, Unreadable> {
    match Encoding::for_label(label.as_bytes()) {
        Some(encoding) => Ok(encoding),
        None => Err(Unreadable::Unknown("no encoding has this label")),
    }
}

/// Whether calls write references, if a word says so.
fn treatment_of(word: &str) -> Option<bool> {
    match word {
        "replace" => Some(true),
        "report" => Some(false),
        _ => None,
    }
}

/// The characters of a list. It is never freed: an encoder needs its list as long as the program
/// runs.
fn list_of(alloc: Global, words: &mut Words<'_>) -> Result<&'static [char], Unreadable> {
    let text = words.text(alloc)?;
    words.end()?;
    let mut list = Vec::new(alloc);
    for character in text.chars() {
        list.push(character)?;
    }
    let list: &'static [char] = list.leak();
    if !Encoding::barred_ok(list) {
        return Err(Unreadable::Unknown("an ASCII character can't be barred"));
    }
    Ok(list)
}

/// Reads `[INPUT..] [barring TEXT]`: appends what calls read, and returns the characters.
fn inputs_of(
    alloc: Global,
    words: &mut Words<'_>,
    sources: &mut Vec<Source>,
) -> Result<&'static [char], Unreadable> {
    for _ in 0..words.len() {
        if !words.has_more() {
            break;
        }
        match words.word()? {
            "utf8" => sources.push(Source::Utf8)?,
            "utf16" => sources.push(Source::Utf16)?,
            "vec" => sources.push(Source::Utf8ToVec)?,
            "barring" => return list_of(alloc, words),
            _ => return Err(Unreadable::Unknown("no input has this name")),
        }
    }
    Ok(&[])
}

/// A new encoder for each encoding and each thing that calls read.
fn targets_of(
    alloc: Global,
    (encodings, barred): (&[Encoding], &'static [char]),
    sources: &[Source],
) -> Result<Vec<Target>, RowFault> {
    let mut targets = Vec::new(alloc);
    for encoding in encodings {
        for source in sources {
            targets.push(Target {
                encoder: encoder_of((*encoding, barred))?,
                source: *source,
            })?;
        }
    }
    Ok(targets)
}

/// The result that a word is: `InputEmpty`, `OutputFull` or `Unmappable(N)`.
fn result_of(word: &str) -> Result<EncoderResult, Unreadable> {
    if word == "InputEmpty" {
        return Ok(EncoderResult::InputEmpty);
    }
    if word == "OutputFull" {
        return Ok(EncoderResult::OutputFull);
    }
    let Some(number) = word.strip_prefix("Unmappable(") else {
        return Err(Unreadable::Unknown("no result has this name"));
    };
    let Some(number) = number.strip_suffix(')') else {
        return Err(Unreadable::Unknown("no result has this name"));
    };
    match char::from_u32(hexadecimal(number)?) {
        Some(character) => Ok(EncoderResult::Unmappable(character)),
        None => Err(Unreadable::NoCharacter),
    }
}

/// Reads `more|last ROOM RESULT READ WRITTEN replaced|- BYTES`.
fn expected_of(alloc: Global, words: &mut Words<'_>) -> Result<Expected, Unreadable> {
    let last = choice(words.word()?, ("last", "more"))?;
    let room = words.number()?;
    let result = result_of(words.word()?)?;
    let (read, written) = (words.number()?, words.number()?);
    let replaced = choice(words.word()?, ("replaced", "-"))?;
    let bytes = words.bytes(alloc)?;
    words.end()?;
    Ok(Expected {
        last,
        room,
        answer: Answer::new(result, read, replaced),
        written,
        bytes,
    })
}

/// The code units of UTF-16 that a word is, in hexadecimal: `N,..`, or `-` for none.
fn units_of(alloc: Global, word: &str) -> Result<Vec<u16>, Unreadable> {
    let mut units = Vec::new(alloc);
    if word == "-" {
        return Ok(units);
    }
    for number in word.split(',') {
        let unit = hexadecimal(number)?;
        if unit > 0xFFFF {
            return Err(Unreadable::Number);
        }
        units.push(unit as u16)?;
    }
    Ok(units)
}

/// The length queries without replacement of the encoder that an encoding's codec has.
fn raw_lengths(encoding: Encoding, units: usize) -> Option<Lengths> {
    let codec = EncodingId::for_label(encoding.name().as_bytes())?.codec();
    if !has_encoder(codec) {
        return None;
    }
    let encoder = new_encoder(codec, &[]);
    Some((
        encoder.max_buffer_length_from_utf8_without_replacement(units),
        encoder.max_buffer_length_from_utf16_without_replacement(units),
    ))
}

/// Compares what the length queries of an encoder return.
fn compare_lengths(
    encoder: &Encoder,
    units: usize,
    (reporting, replacing): (Lengths, Lengths),
) -> Result<(), RowFault> {
    let lengths = (
        encoder.max_buffer_length_from_utf8_without_replacement(units),
        encoder.max_buffer_length_from_utf16_without_replacement(units),
    );
    if lengths != reporting {
        return Err(RowFault::fails("lengths without replacement are others"));
    }
    if raw_lengths(encoder.encoding(), units) != Some(reporting) {
        return Err(RowFault::fails("lengths of the codec's encoder are others"));
    }
    let lengths = (
        encoder.max_buffer_length_from_utf8_if_no_unmappables(units),
        encoder.max_buffer_length_from_utf16_if_no_unmappables(units),
    );
    if lengths != replacing {
        return Err(RowFault::fails("lengths with replacement are others"));
    }
    Ok(())
}

/// Encodes a text by the call that may lend. Compares its bytes, the encoding and whether a
/// character is unmappable, and returns whether the bytes are lent.
fn is_lent(
    alloc: Global,
    encoding: Encoding,
    (text, bytes): (&str, &[u8]),
    (used, is_unmappable): (Encoding, bool),
) -> Result<bool, RowFault> {
    match encoding.encode_lending(alloc, text) {
        Ok((lent, by, had_unmappables)) => {
            if lent.as_slice() != bytes || by != used || had_unmappables != is_unmappable {
                return Err(RowFault::fails("the call that may lend has another answer"));
            }
            Ok(matches!(lent, CowSlice::Borrowed(_)))
        }
        Err(error) => Err(error.into()),
    }
}

/// Encodes a text by the call for whole texts, and compares its answer.
fn compare_whole(
    alloc: Global,
    encoding: Encoding,
    (text, bytes): (&str, &[u8]),
    (used, is_unmappable): (Encoding, bool),
) -> Result<(), RowFault> {
    let (whole, by, had_unmappables) = encoding.encode(alloc, text)?;
    if whole.as_slice() != bytes {
        return Err(RowFault::fails("a whole text has other bytes"));
    }
    if by != used || had_unmappables != is_unmappable {
        return Err(RowFault::fails("a whole text has another answer"));
    }
    Ok(())
}

impl Encoders {
    /// Reads `LABEL.. replace|report [INPUT..] [barring TEXT]`: what the rows that follow are of.
    pub(crate) fn new(alloc: Global, words: &mut Words<'_>) -> Result<Encoders, RowFault> {
        let mut encodings = Vec::new(alloc);
        let mut replaces = None;
        for _ in 0..words.len() {
            let word = words.word()?;
            replaces = treatment_of(word);
            if replaces.is_some() {
                break;
            }
            encodings.push(encoding_of(word)?)?;
        }
        let (Some(replaces), false) = (replaces, encodings.is_empty()) else {
            return Err(Unreadable::Missing.into());
        };
        let mut sources = Vec::new(alloc);
        let barred = inputs_of(alloc, words, &mut sources)?;
        let targets = targets_of(alloc, (&encodings, barred), &sources)?;
        Ok(Encoders {
            encodings,
            replaces,
            barred,
            targets,
        })
    }

    /// Runs the row of this name.
    pub(crate) fn run(
        &mut self,
        alloc: Global,
        name: &str,
        words: &mut Words<'_>,
    ) -> Result<(), RowFault> {
        match name {
            "text" => self.text(alloc, words),
            "long" => self.long(alloc, words),
            "whole" | "sum" if !self.barred.is_empty() => {
                Err(Unreadable::Unknown("this row bars no characters").into())
            }
            "whole" => self.whole(alloc, words),
            "sum" => self.sum(words),
            "call" | "units" | "pending" | "lengths" => {
                if self.targets.is_empty() {
                    return Err(Unreadable::Unknown("the head names no input").into());
                }
                self.run_call(alloc, name, words)
            }
            _ => Err(Unreadable::Unknown("no row of an encoder has this name").into()),
        }
    }

    /// Runs the row of this name, which is of the encoders of calls.
    fn run_call(
        &mut self,
        alloc: Global,
        name: &str,
        words: &mut Words<'_>,
    ) -> Result<(), RowFault> {
        match name {
            "call" => self.call(alloc, words),
            "units" => self.units(alloc, words),
            "pending" => self.pending(words),
            _ => self.lengths(words),
        }
    }

    /// Runs `TEXT BYTES` through every cut, room and input, and through one-shot calls.
    fn text(&mut self, alloc: Global, words: &mut Words<'_>) -> Result<(), RowFault> {
        let (text, bytes) = (words.text(alloc)?, words.bytes(alloc)?);
        words.end()?;
        for encoding in &self.encodings {
            let row = (text.as_str(), bytes.as_slice());
            compare_encoded(alloc, (*encoding, self.barred), row)?;
        }
        Ok(())
    }

    /// Encodes `TEXT BYTES` by one call in many rooms, and in two parts.
    fn long(&mut self, alloc: Global, words: &mut Words<'_>) -> Result<(), RowFault> {
        let (text, bytes) = (words.text(alloc)?, words.bytes(alloc)?);
        words.end()?;
        for encoding in &self.encodings {
            let row = (text.as_str(), bytes.as_slice());
            compare_long(alloc, (*encoding, self.barred), row)?;
        }
        Ok(())
    }

    /// Encodes `TEXT BYTES NAME unmappable|- [lent|owned]` by the calls for whole texts.
    fn whole(&mut self, alloc: Global, words: &mut Words<'_>) -> Result<(), RowFault> {
        let (text, bytes) = (words.text(alloc)?, words.bytes(alloc)?);
        let used = encoding_of(words.word()?)?;
        let is_unmappable = choice(words.word()?, ("unmappable", "-"))?;
        let mut wanted = None;
        if words.has_more() {
            wanted = Some(choice(words.word()?, ("lent", "owned"))?);
        }
        words.end()?;
        let row = (text.as_str(), bytes.as_slice());
        for encoding in &self.encodings {
            compare_whole(alloc, *encoding, row, (used, is_unmappable))?;
            let lent = is_lent(alloc, *encoding, row, (used, is_unmappable))?;
            if wanted == Some(!lent) {
                return Err(RowFault::fails("bytes are lent or owned otherwise"));
            }
        }
        Ok(())
    }

    /// Compares the sums `REPORT REPLACE` over single characters.
    fn sum(&mut self, words: &mut Words<'_>) -> Result<(), RowFault> {
        let reported = long_hexadecimal(words.word()?)?;
        let replaced = long_hexadecimal(words.word()?)?;
        words.end()?;
        for encoding in &self.encodings {
            if sums_of(*encoding)? != (reported, replaced) {
                return Err(RowFault::fails("sums over single characters are others"));
            }
        }
        Ok(())
    }

    /// Makes the call `TEXT more|last ROOM RESULT READ WRITTEN replaced|- BYTES` with each encoder.
    fn call(&mut self, alloc: Global, words: &mut Words<'_>) -> Result<(), RowFault> {
        let text = words.text(alloc)?;
        let expected = expected_of(alloc, words)?;
        let offer = Offer {
            text: &text,
            last: expected.last,
            room: expected.room,
        };
        let want = expected.wanted();
        for target in &mut self.targets {
            let way = Way {
                source: target.source,
                replaces: self.replaces,
            };
            compare_call(alloc, (&mut target.encoder, way), &offer, &want)?;
        }
        Ok(())
    }

    /// Makes the call from UTF-16 `N,.. more|last ROOM RESULT READ WRITTEN replaced|- BYTES` with
    /// each encoder that reads UTF-16.
    fn units(&mut self, alloc: Global, words: &mut Words<'_>) -> Result<(), RowFault> {
        let units = units_of(alloc, words.word()?)?;
        let expected = expected_of(alloc, words)?;
        let given = Units {
            units: &units,
            last: expected.last,
            room: expected.room,
        };
        let want = expected.wanted();
        for target in &mut self.targets {
            if !matches!(target.source, Source::Utf16) {
                return Err(Unreadable::Unknown("an encoder of the head reads UTF-8").into());
            }
            let encoder = (&mut target.encoder, self.replaces);
            compare_units(alloc, encoder, &given, &want)?;
        }
        Ok(())
    }

    /// Compares whether each encoder has a pending state.
    fn pending(&mut self, words: &mut Words<'_>) -> Result<(), RowFault> {
        let is_pending = choice(words.word()?, ("yes", "no"))?;
        words.end()?;
        for target in &self.targets {
            if target.encoder.has_pending_state() != is_pending {
                return Err(RowFault::fails("a state is pending or not otherwise"));
            }
        }
        Ok(())
    }

    /// Compares what the length queries of each encoder return.
    fn lengths(&mut self, words: &mut Words<'_>) -> Result<(), RowFault> {
        let units = words.number()?;
        let reporting = (words.number_or_none()?, words.number_or_none()?);
        let replacing = (words.number_or_none()?, words.number_or_none()?);
        words.end()?;
        for target in &self.targets {
            compare_lengths(&target.encoder, units, (reporting, replacing))?;
        }
        Ok(())
    }
}
