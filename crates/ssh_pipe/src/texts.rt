//! The texts in requests on channels.

use ssh_types::{Put, Reader};
use std::alloc::{AllocError, Global};

/// The one string that these bytes are (RFC 4251 section 5), as the command of `exec` (RFC 4254 section 6.5).
pub(crate) fn string_in(bytes: &[u8]) -> Option<&[u8]> {
    let mut reader = Reader::new(bytes);
    let text = reader.string().ok()?;
    reader.end().ok()?;
    Some(text)
}

/// The one uint32 that these bytes are, as the status of `exit-status` (RFC 4254 section 6.10).
pub(crate) fn number_in(bytes: &[u8]) -> Option<u32> {
    let mut reader = Reader::new(bytes);
    let number = reader.u32().ok()?;
    reader.end().ok()?;
    Some(number)
}

/// The first string in these bytes, as the name in `exit-signal` (RFC 4254 section 6.10).
pub(crate) fn first_string_in(bytes: &[u8]) -> Option<&[u8]> {
    Reader::new(bytes).string().ok()
}

/// A text of at most `MOST_COMMAND_BYTES` as a string (RFC 4251 section 5), which a `Request` has; `None` if it is longer.
///
/// # Errors
///
/// Only if memory is refused.
pub fn string_of(alloc: Global, text: &[u8]) -> Result<Option<Vec<u8>>, AllocError> {
    if text.len() > MOST_COMMAND_BYTES {
        return Ok(None);
    }
    let mut bytes = Vec::new(alloc);
    bytes.put_string(text)?;
    Ok(Some(bytes))
}

/// The longest command that is sent, in bytes: its request fits into a packet.
pub const MOST_COMMAND_BYTES: usize = 32_768;
