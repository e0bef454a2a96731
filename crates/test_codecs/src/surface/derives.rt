//! One function for each derived trait, so that a type without the trait fails the build.

use std::alloc::Global;
use std::collections::HashSet;
use std::error::Error;
use std::fmt::Debug;
use std::hash::{DefaultHasher, Hash, Hasher};
use std::test::Fail;

/// Two copies of a value, by `Copy` and by `Clone`.
pub(crate) fn copies<T: Clone + Copy>(value: T) -> Result<(T, T), Fail> {
    Ok((value, value.clone()?))
}

/// Whether two values are equal, and not unequal.
pub(crate) fn are_equal<T: PartialEq + Eq>(a: &T, b: &T) -> bool {
    *a == *b && !(*a != *b)
}

/// The hash of a value.
pub(crate) fn hash_of<T: Hash>(value: &T) -> u64 {
    let mut hasher = DefaultHasher::new();
    value.hash(&mut hasher);
    hasher.finish()
}

/// The text of a value by `Debug`.
pub(crate) fn debug_text<T: Debug>(alloc: Global, value: &T) -> Result<String, Fail> {
    Ok(format!(in alloc; "{value:?}")?)
}

/// The text of an error by `Display`.
pub(crate) fn error_text<T: Error>(alloc: Global, error: &T) -> Result<String, Fail> {
    Ok(format!(in alloc; "{error}")?)
}
