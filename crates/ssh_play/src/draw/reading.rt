//! What bytes say that neither end put out.

use crate::draw::Result;
use ssh_message::name;
use std::alloc::Global;

/// What these bytes are called: a message by its number, its name and the length of its payload, and a line by its length. Scripts are
/// played without a cipher, so a sealed packet can be read too. Bytes that are neither have just their number.
pub(crate) fn name_in(alloc: Global, bytes: &[u8]) -> Result<String> {
    if let Some(payload) = payload_in(bytes)
        && let Some(number) = payload.first()
    {
        return format!(in alloc; "{number} {} {}", name(*number), payload.len());
    }
    match bytes.strip_suffix(b"\n") {
        Some(line) => {
            let line = line.strip_suffix(b"\r").unwrap_or(line);
            format!(in alloc; "line {}", line.len())
        }
        None => format!(in alloc; "{} bytes", bytes.len()),
    }
}

// The payload of the packet with which these bytes begin, if all of it is there (RFC 4253 section 6).
fn payload_in(bytes: &[u8]) -> Option<&[u8]> {
    let (length, rest) = bytes.split_first_chunk::<4>()?;
    let packet = rest.get(..u32::from_be_bytes(*length) as usize)?;
    let (padding, body) = packet.split_first()?;
    body.get(..body.len().checked_sub(*padding as usize)?)
}

/// A name with what its numbers are: `message 5 SERVICE_REQUEST of 17 bytes` and `a line of 9 bytes`.
pub(crate) fn spelled(alloc: Global, name: &str) -> Result<String> {
    match name.split_once(' ') {
        Some(("line", length)) => format!(in alloc; "a line of {length} bytes"),
        Some((number, rest))
            if let Some((message, length)) = rest.split_once(' ')
                && is_number(number)
                && is_number(length) => {
            let word = if length == "1" { "byte" } else { "bytes" };
            format!(in alloc; "message {number} {message} of {length} {word}")
        }
        _ => String::from_str(alloc, name),
    }
}

fn is_number(word: &str) -> bool {
    word.bytes().all(|byte| byte.is_ascii_digit())
}
