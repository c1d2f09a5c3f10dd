//! Texts of the results of a line.

use crate::lines::problem::Problem;
use std::alloc::Global;
use std::fmt::Display;

/// These words.
///
/// # Errors
///
/// `Memory` if memory is refused.
pub fn text_of(alloc: Global, words: &str) -> Result<String, Problem> {
    Ok(String::from_str(alloc, words)?)
}

/// The digits of bytes, two a byte.
///
/// # Errors
///
/// `Memory` if memory is refused.
pub fn digits_of(alloc: Global, bytes: &[u8]) -> Result<String, Problem> {
    Ok(hex::encode(alloc, bytes)?)
}

/// A value as it is displayed.
///
/// # Errors
///
/// `Memory` if memory is refused.
pub fn shown<D: Display + Drop>(alloc: Global, value: D) -> Result<String, Problem> {
    Ok(format!(in alloc; "{value}")?)
}
