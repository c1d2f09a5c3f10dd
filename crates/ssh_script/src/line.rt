//! One line of a script: its place, and which kind of line its text is.

use crate::script_fault::LineFault;
use std::str;

/// The content of a line, with the line's number.
#[derive(Clone, Copy, Drop)]
pub struct Line<T> {
    /// Counted from 1, skipped lines too.
    pub number: usize,
    pub content: T,
}

/// The text of a line, by the bytes that it begins with.
#[derive(Clone, Copy)]
pub(crate) enum LineText<'a> {
    /// An empty line or a comment.
    Skipped,
    /// A line that is expected of the transcript.
    Expected(&'a str),
    /// Words that are parted by one space.
    Words(&'a str),
}

impl<'a> LineText<'a> {
    /// The text of these bytes, a line without its line break.
    ///
    /// # Errors
    ///
    /// `NotUtf8` with the first byte that begins no character. `CarriageReturn` if a CR stands at the line's end.
    pub fn of(bytes: &'a [u8]) -> Result<LineText<'a>, LineFault<'a>> {
        let text = match str::from_utf8(bytes) {
            Ok(text) => text,
            Err(error) => return Err(LineFault::NotUtf8(error.valid_up_to().saturating_add(1))),
        };
        if text.is_empty() || text.starts_with('#') {
            return Ok(LineText::Skipped);
        }
        if let Some(expected) = text.strip_prefix("> ") {
            return Ok(LineText::Expected(expected));
        }
        if text.ends_with('\r') {
            return Err(LineFault::CarriageReturn);
        }
        Ok(LineText::Words(text))
    }
}
