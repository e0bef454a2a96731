//! The double-byte indexes as types (Encoding Standard 5).
//!
//! Written by scripts/make-sources from data/templates: change the text there, and not this file.

mod big5;
mod euc_kr;
mod gb18030;
mod jis0208;

pub use big5::Big5Index;
pub use euc_kr::EucKrIndex;
pub use gb18030::Gb18030Index;
pub use jis0208::Jis0208Index;
