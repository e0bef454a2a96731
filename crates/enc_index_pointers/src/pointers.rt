//! The look-ups of encoders: the pointers of characters in the indexes (Encoding Standard 5, "index
//! pointer").
//!
//! Written by scripts/make-sources from data/templates: change the text there, and not this file.

pub mod big5;
pub mod euc_kr;
pub mod gb18030;
pub mod gb18030_ranges;
pub mod jis0208;
pub mod shift_jis;
pub mod single_byte;
pub mod single_byte_letters;
pub mod single_byte_of_unit;
