//! The encoders, each by the bytes of its characters.
//!
//! Written by scripts/make-sources from data/templates: change the text there, and not this file.

pub mod big5;
pub mod euc_jp;
pub mod euc_kr;
pub mod gb18030;
pub mod iso_2022_jp;
mod japanese;
mod katakana;
mod private_use;
pub mod shift_jis;
pub mod single_byte;
pub mod utf_8;
pub mod x_user_defined;
