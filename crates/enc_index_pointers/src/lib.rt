//! The pointers of characters in the indexes of the Encoding Standard (5), as encoders look them
//! up, in constant time, proved equal to the indexes' entries. No call takes memory.
//!
//! Written by scripts/make-sources from data/templates: change the text there, and not this file.
#![tactic(auto)]

mod look_up;
mod pages;
mod pointers;

pub use pointers::big5::big5;
pub use pointers::euc_kr::euc_kr;
pub use pointers::gb18030::gb18030;
pub use pointers::gb18030_ranges::gb18030_ranges;
pub use pointers::jis0208::jis0208;
pub use pointers::shift_jis::shift_jis;
pub use pointers::single_byte::single_byte;
pub use pointers::single_byte_letters::single_byte_letters;
pub use pointers::single_byte_of_unit::single_byte_of_unit;
