//! The index data, which scripts/make-sources writes from data/indexes.
//!
//! Written by scripts/make-sources from data/templates: change the text there, and not this file.

pub mod big5;
pub mod big5_grid;
pub mod euc_kr;
pub mod euc_kr_grid;
pub mod gb18030;
pub mod gb18030_grid;
pub mod gb18030_ranges;
pub mod jis0208;
pub mod jis0208_grid;
pub mod jis0212;
pub mod single_byte;
pub mod single_byte_words;
