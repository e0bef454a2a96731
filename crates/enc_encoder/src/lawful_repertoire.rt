//! The law of an encoding without escape sequences. No call of it does anything.

ghost use Rattle.enc_encoder.specs.Stateless.{IsLawfulRepertoire};

use crate::barring::Barring;
use crate::stateless::Repertoire;

/// An encoding that keeps the law.
pub trait LawfulRepertoire: Repertoire {
    /// ASCII is written as itself, and no character has more than four bytes, or more than the
    /// formulas have for its code units.
    fn laws(self)
        ensures { IsLawfulRepertoire (Self.lengths self) (Self.bytes_for self) };
}

impl<R: LawfulRepertoire> LawfulRepertoire for Barring<R> {
    #[tactic(auto, using(crate::proofs::BarringLemmas::except_is_lawful))]
    fn laws(self) {
        self.repertoire.laws();
    }
}
