//! The law of each encoding without escape sequences: functions that do nothing.
//!
//! Written by scripts/make-sources from data/templates: change the text there, and not this file.

use crate::encoders::big5::Big5;
use crate::encoders::euc_jp::EucJp;
use crate::encoders::euc_kr::EucKr;
use crate::encoders::gb18030::Gb18030;
use crate::encoders::shift_jis::ShiftJis;
use crate::encoders::single_byte::SingleByte;
use crate::encoders::utf_8::Utf8;
use crate::encoders::x_user_defined::XUserDefined;
use enc_encoder::LawfulRepertoire;

impl LawfulRepertoire for Utf8 {
    #[tactic(auto, using(crate::proofs::RepertoireLaws::utf_8))]
    fn laws(self) {}
}

impl LawfulRepertoire for SingleByte {
    fn laws(self) {}
}

impl LawfulRepertoire for Big5 {
    #[tactic(auto, using(crate::proofs::RepertoireLaws::big5))]
    fn laws(self) {}
}

impl LawfulRepertoire for EucKr {
    #[tactic(auto, using(crate::proofs::PlainRepertoires::euc_kr))]
    fn laws(self) {}
}

impl LawfulRepertoire for ShiftJis {
    #[tactic(auto, using(crate::proofs::RepertoireLaws::shift_jis))]
    fn laws(self) {}
}

impl LawfulRepertoire for EucJp {
    #[tactic(auto, using(crate::proofs::RepertoireLaws::euc_jp))]
    fn laws(self) {}
}

impl LawfulRepertoire for Gb18030 {
    fn laws(self) {}
}

impl LawfulRepertoire for XUserDefined {
    #[tactic(auto, using(crate::proofs::RepertoireLaws::x_user_defined))]
    fn laws(self) {}
}
