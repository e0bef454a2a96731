//! The pages of pointers, which scripts/make-sources writes from data/indexes.
//!
//! Written by scripts/make-sources from data/templates: change the text there, and not this file.

pub mod big5;
pub mod euc_kr;
pub mod gb18030;
pub mod gb18030_ranges;
pub mod jis0208;
pub mod shift_jis;
pub mod single_byte;
pub mod single_byte_direct;
