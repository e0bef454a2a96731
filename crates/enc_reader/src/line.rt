//! A line of text, with the malformed sequences in it.

ghost use Rattle.std.specs.Prelude.{◌≡◌, ◌+◌, ◌<◌, ◌++◌, ◌∷◌, [], length, string_bytes, string_len};
ghost use Rattle.std.specs.Prelude.{vec_len, OnOk, OnErr};
ghost use Rattle.std.specs.Char.{encode_utf8};
ghost use Rattle.enc_utf8.specs.Text.{units_of_text};
ghost use Rattle.enc_reader.specs.Reporting.{malformed_bytes};
ghost use Rattle.enc_reader.specs.Policies.{text_of_malformed};
ghost use Rattle.enc_reader.specs.Lines.{SameLine};

use crate::malformed_policy::{MOST_ESCAPED, MalformedPolicy, replacement};
use crate::malformed_sequence::MalformedSequence;
use crate::position::Position;
use std::alloc::{AllocError, Global};

/// A malformed sequence, and its place in the text.
#[derive(Clone, Copy, PartialEq, Eq, Debug)]
pub struct PlacedSequence {
    sequence: MalformedSequence,
    position: Position,
}

impl PlacedSequence {
    /// Returns a sequence that stands at this place.
    pub(crate) fn new(sequence: MalformedSequence, position: Position) -> PlacedSequence
        ensures sequence { result.sequence ≡ sequence }
        ensures position { result.position ≡ position }
    {
        PlacedSequence { sequence, position }
    }

    /// Returns the sequence: its offset in the whole input and its bytes.
    pub fn sequence(&self) -> MalformedSequence
        ensures { result ≡ self.now.sequence }
    {
        self.sequence
    }

    /// Returns the place where its replacement stands, or would stand.
    pub fn position(&self) -> Position
        ensures { result ≡ self.now.position }
    {
        self.position
    }
}

/// A line of text that a [`LineReader`](crate::LineReader) reads, with the malformed sequences in
/// it. It grows with each read, until it is cleared.
#[derive(Debug, Drop)]
pub struct Line {
    text: String,
    malformed: Vec<PlacedSequence>,
}

impl Line {
    /// Returns an empty line. It takes no memory yet.
    pub fn new(alloc: Global) -> Line
        ensures text { string_bytes result.text ≡ [] }
        ensures malformed { result.malformed.items ≡ [] }
    {
        Line {
            text: String::new(alloc),
            malformed: Vec::new(alloc),
        }
    }

    /// Returns the text, with the line feed if it has one.
    pub fn text(&self) -> &str
        ensures { result.now ≡ string_bytes self.now.text }
    {
        self.text.as_str()
    }

    /// Returns the malformed sequences, in their order.
    pub fn malformed(&self) -> &[PlacedSequence]
        ensures { result.now ≡ self.now.malformed.items }
    {
        &self.malformed
    }

    /// Appends text, unless memory is refused.
    pub(crate) fn push_text(&mut self, text: &str) -> Result<(), AllocError>
        ensures ok { OnOk result (string_bytes self.new.text
            ≡ string_bytes self.old.text ++ text.now) }
        ensures len { OnOk result (string_len self.new.text
            ≡ string_len self.old.text + length text.now) }
        ensures err { OnErr result (SameLine self.old self.new) }
        ensures malformed { self.new.malformed ≡ self.old.malformed }
    {
        self.text.push_str(text)
    }

    /// Appends a malformed sequence, and what stands for it, unless memory is refused.
    pub(crate) fn push_malformed(
        &mut self,
        found: PlacedSequence,
        policy: MalformedPolicy,
    ) -> Result<(), AllocError>
        ensures ok { OnOk result (string_bytes self.new.text ≡ string_bytes self.old.text
            ++ units_of_text encode_utf8
            (text_of_malformed policy (malformed_bytes found.sequence))) }
        ensures found { OnOk result (self.new.malformed.items
            ≡ self.old.malformed.items ++ found ∷ []) }
        ensures grows { OnOk result (string_len self.old.text + vec_len self.old.malformed
            < string_len self.new.text + vec_len self.new.malformed) }
        ensures err { OnErr result (SameLine self.old self.new) }
    {
        if self.malformed.push(found).is_err() {
            return Err(AllocError);
        }
        let mut room = [0; MOST_ESCAPED];
        let text = replacement(policy, found.sequence.bytes(), &mut room);
        if self.text.push_str(text).is_err() {
            let _found = self.malformed.pop();
            return Err(AllocError);
        }
        Ok(())
    }

    /// Makes the line empty, and keeps its memory.
    pub fn clear(&mut self)
        ensures text { string_bytes self.new.text ≡ [] }
        ensures malformed { self.new.malformed.items ≡ [] }
    {
        self.text.clear();
        self.malformed.clear();
    }
}
