//! The laws of these encodings: functions that do nothing, whose contracts are lemmas.
//!
//! Written by scripts/make-sources from data/templates: change the text there, and not this file.

ghost use Rattle.enc_decoder_multi_byte.specs.DoubleByte.{ArePairs};
ghost use Rattle.enc_decoder_multi_byte.specs.MultiByte.{AreMultiBytePrefixes};

use crate::big5::Big5;
use crate::double_byte::{Double, DoubleByte};
use crate::euc_jp::EucJp;
use crate::euc_kr::EucKr;
use crate::gb18030::Gb18030;
use crate::multi_byte::MultiByte;
use crate::shift_jis::ShiftJis;

/// An encoding whose prefixes keep the laws that its decoder rests on.
pub trait PrefixLaws: MultiByte {
    /// The laws of all prefixes. The call does nothing.
    fn laws()
        ensures { AreMultiBytePrefixes Self.prefix };
}

/// An encoding of one byte and two whose leads, single bytes and pairs keep their laws.
pub trait PairLaws: DoubleByte {
    /// The laws of all leads, single bytes and pairs. The call does nothing.
    fn laws()
        ensures { ArePairs Self.leads Self.singles Self.pairs };
}

impl PairLaws for Big5 {
    #[tactic(auto, using(crate::proofs::Laws::Big5::pairs))]
    fn laws() {}
}

impl PairLaws for EucKr {
    #[tactic(auto, using(crate::proofs::Laws::EucKr::pairs))]
    fn laws() {}
}

impl PairLaws for ShiftJis {
    #[tactic(auto, using(crate::proofs::Laws::ShiftJis::pairs))]
    fn laws() {}
}

impl<D: PairLaws> PrefixLaws for Double<D> {
    fn laws() {
        D::laws();
    }
}

impl PrefixLaws for EucJp {
    #[tactic(auto, using(crate::proofs::Laws::EucJp::laws))]
    fn laws() {}
}

impl PrefixLaws for Gb18030 {
    #[tactic(auto, using(crate::proofs::Laws::Gb18030::laws))]
    fn laws() {}
}
