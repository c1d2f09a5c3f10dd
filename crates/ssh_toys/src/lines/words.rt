//! The words of a line.

use crate::lines::problem::Problem;
use std::alloc::{AllocError, Global};

/// How many times a line is told, and its text.
pub fn counted(line: &str) -> (u32, &str) {
    let Some((count, rest)) = line.split_once("x ") else {
        return (1, line);
    };
    match count.parse::<u32>() {
        Ok(times) => (times, rest),
        Err(_) => (1, line),
    }
}

/// A line with its words written out, the `turn`th time that it is told.
///
/// # Errors
///
/// Only if memory is refused.
pub fn written_out(alloc: Global, line: &str, turn: u32) -> Result<String, AllocError> {
    let mut text = String::new(alloc);
    for word in line.split(' ') {
        put_word(alloc, &mut text, word, turn)?;
    }
    Ok(text)
}

fn put_word(alloc: Global, text: &mut String, word: &str, turn: u32) -> Result<(), AllocError> {
    if !text.is_empty() {
        text.push(' ')?;
    }
    if let Some(count) = word.strip_prefix('*') {
        return put_often(text, "00", count);
    }
    if let Some(count) = word.strip_prefix('@') {
        return put_often(text, "x", count);
    }
    if word == "#" {
        return text.push_str(hex::encode(alloc, &turn.to_be_bytes())?.as_str());
    }
    text.push_str(word)
}

fn put_often(text: &mut String, part: &str, count: &str) -> Result<(), AllocError> {
    for _ in 0..count.parse::<u32>().unwrap_or(0) {
        text.push_str(part)?;
    }
    Ok(())
}

/// The bytes of hexadecimal digits, which may be parted by spaces.
///
/// # Errors
///
/// `NotHex` if these are no pairs of digits.
pub fn bytes_of(alloc: Global, digits: &str) -> Result<Vec<u8>, Problem> {
    let mut joined = String::new(alloc);
    for word in digits.split(' ') {
        joined.push_str(word)?;
    }
    Ok(hex::decode(alloc, joined.as_str())?)
}

/// A number of a line.
///
/// # Errors
///
/// `NotALine` if it is none.
pub fn parsed(word: &str) -> Result<u32, Problem> {
    word.parse::<u32>().map_err(|_| Problem::NotALine)
}
