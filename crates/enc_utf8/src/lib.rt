//! What inputs and outputs of characters share: valid prefixes, runs of ASCII, and the UTF-8 of
//! characters and code units. No call takes memory.
#![tactic(auto)]

mod ascii;
mod coder_result;
mod ends;
mod four_ends;
mod letters;
mod packed;
mod packed_units;
mod swizzle;
mod unit_words;
mod utf8;
mod utf8_faults;
mod utf8_form;
mod validity;

pub use ascii::{
    are_all_ascii, are_ascii, ascii_from, ascii_in, ascii_len, copy_ascii, copy_strides, len_before,
};
pub use coder_result::CoderResult;
pub use four_ends::ends_of;
pub use letters::Letters;
pub use swizzle::pick;
pub use unit_words::{
    SCALARS_STEP, are_scalars, store_scalars, store_sixteen_scalars, units_before_surrogate,
};
pub use utf8::{char_len, utf8_front};
pub use utf8_form::{Encoded, four_bytes, store_text, store_word, three_bytes, two_bytes, utf8_of};
pub use validity::{
    ascii_valid_up_to, iso_2022_jp_ascii_valid_up_to, unshifted_len, utf8_valid_up_to,
};
